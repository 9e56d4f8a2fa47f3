// The search: from a set of keys with all the doors that they share, and with all the keys that open these doors, to each such set with one more key.
ghost use Rattle.std.specs.Prelude.{◌≡◌, ◌≤◌, length};
ghost use Rattle.masks.specs.Masks.{Has};
ghost use Rattle.search.specs.Fills.{fill_answer, filled_from};
ghost use Rattle.search.specs.Nodes.{Closes, IsNode, Shares, Unmarked};
ghost use Rattle.search.specs.Parts.{scope_list};
ghost use Rattle.search.specs.Roots.{Root};

use crate::states::{Node, Openers, Plan};
use groups::group::Group;
use masks::first;
use masks::members::Members;

// What `start` and the rows of the members of `set` share.
fn common(rows: &[u64; 64], start: u64, set: u64) -> u64
    ensures { Shares rows.now start (Has set) result }
{
    let mut shared = start;
    for k in Members::of(set) {
        shared &= rows[k];
    }
    shared
}

// The keys that open all of `doors`, and the keys that open some.
fn close(columns: &[u64; 64], doors: u64) -> Openers
    ensures { Closes columns.now doors result.all result.some }
{
    let mut openers = Openers {
        all: u64::MAX,
        some: 0,
    };
    for d in Members::of(doors) {
        let column = columns[d];
        openers.all &= column;
        openers.some |= column;
    }
    openers
}

// The members of `set` whose rows to watch have none of `marks`.
fn unmarked(watch: &[u64; 64], marks: u64, set: u64) -> u64
    ensures { Unmarked watch.now marks set result }
{
    let mut bare = 0;
    for k in Members::of(set) {
        if watch[k] & marks == 0 {
            bare |= 1 << k;
        }
    }
    bare
}

impl<'a> Plan<'a> {
    // The first state of a search for the groups that have all keys of `base` and none of `out`, or None where there is no such group.
    // A key that shares no mark with those of the state is in no group that is wanted, so it may not join.
    pub(crate) fn root(self, base: u64, out: u64) -> Option<Node>
        ensures { Root self.entry.rows.now self.entry.columns.now self.entry.watch.now self.entry.doors base out result }
    {
        let doors = common(self.rows, first(self.doors), base);
        if doors == 0 {
            return None;
        }
        let Openers {
            all: keys,
            some: near,
        } = close(self.columns, doors);
        if keys & out != 0 {
            return None;
        }
        let marks = common(self.watch, u64::MAX, keys);
        if marks == 0 {
            return None;
        }
        let out = out | unmarked(self.watch, marks, near & !keys);
        Some(Node {
            keys,
            out,
            doors,
            marks,
            left: near & !(keys | out),
        })
    }

    // Writes the groups that have all keys of the node and none of its `out`, and whose keys' rows to watch share a bit, into the table from `count` on, ascending.
    pub(crate) fn visit(self, node: Node, table: &mut [Group], count: usize) -> Option<usize>
        requires room { count ≤ length table.old }
        requires node { IsNode self.rows.now self.columns.now self.watch.now self.doors node.keys node.out node.doors node.marks node.left }
        ensures answer { result ≡ fill_answer (scope_list self.entry.rows.now self.entry.doors self.entry.watch.now node.keys node.out) table.old count }
        ensures table { table.new ≡ filled_from (scope_list self.entry.rows.now self.entry.doors self.entry.watch.now node.keys node.out) table.old count }
    {
        let mut end = count;
        if node.keys != 0 {
            if end >= table.len() {
                return None;
            }
            table[end] = Group {
                keys: node.keys,
                doors: node.doors,
            };
            end += 1;
        }
        // No `for`: each turn asks for the keys that are still to come.
        let mut rest = Members::of(node.left);
        while let Some(j) = rest.next() {
            let later = rest.set();
            let doors = node.doors & self.rows[j];
            let Openers {
                all: keys,
                some: near,
            } = close(self.columns, doors);
            let out = node.out | later;
            if keys & out == 0 {
                let marks = common(self.watch, node.marks, keys & !node.keys);
                if marks != 0 {
                    let left = near & node.left & !(keys | later);
                    let next = Node {
                        keys,
                        out,
                        doors,
                        marks,
                        left,
                    };
                    end = self.visit(next, table, end)?;
                }
            }
        }
        Some(end)
    }
}
