// The families of groups that keys and doors touch, found one after another and put together.
ghost use Rattle.std.specs.Prelude.{◌≡◌, ℕ, ◌+◌, ◌/◌, ◌<◌, ◌≤◌, length, map};
ghost use Rattle.masks.specs.Masks.{Has};
ghost use Rattle.groups.specs.Plans.{IsGroup, New, flip};
ghost use Rattle.search.specs.Plans.{plan_doors, plan_rows};
ghost use Rattle.difference.specs.Changes.{Meets, Sofar, Touched, Watches};
ghost use Rattle.difference.specs.Places.{Drawn, Held, Outcome, Sieved, Step};

use crate::comparison::Comparison;
use crate::rows::Rows;
use crate::touches::only;
use groups::group::Group;
use search::tables::Tables;

// Turns the groups: their keys for their doors.
fn turn(groups: &mut [Group])
    ensures { groups.new ≡ map flip groups.old }
{
    for g in groups {
        *g = Group {
            keys: g.doors,
            doors: g.keys,
        };
    }
}

impl<'a> Rows<'a> {
    // The watch rows: what each row has of `gained` after and of `lost` before.
    fn watch(self, gained: u64, lost: u64) -> [u64; 64]
        ensures { Watches self.entry.before.now self.entry.after.now gained lost result (length self.entry.before.now) }
    {
        let mut watch = [0; 64];
        for (k, (was, is)) in self.before.iter().zip(self.after.iter()).enumerate() {
            watch[k] = *is & gained | *was & lost;
        }
        watch
    }

    // Writes the groups of the later plan that have the key u, and for whose keys the rows share one of `gained` after or one of `lost` before, to the
    // table from `count` on. `later` is that plan as the search reads it.
    fn family(
        self,
        later: &Tables,
        u: usize,
        gained: u64,
        lost: u64,
        table: &mut [Group],
        count: usize,
    ) -> Option<usize>
        requires later { plan_rows later.now ≡ self.after.now }
        requires key { u < length self.before.now }
        requires apart { (i : ℕ) → Has gained i → Has lost i → ⊥ }
        requires room { count ≤ length table.old }
        ensures { Outcome (Meets self.entry.before.now self.entry.after.now (plan_doors later.now) u gained lost) table.old table.new count result }
    {
        later.groups_watched(1 << u, &self.watch(gained, lost), table, count)
    }
}

impl<'a> Comparison<'a> {
    // Keeps in the places count..fresh of the table the groups that no key below u and no door below v touches, and returns where they end.
    // The place that is written follows the place that is read in the same slice, so both are told by an index.
    // `u` and `v` are other numbers at each call, so that their bounds are clauses here, as in `touches`.
    fn sieve(self, u: usize, v: usize, table: &mut [Group], count: usize, fresh: usize) -> usize
        requires keys_to { u ≤ length self.rows.before.now }
        requires doors_to { v ≤ length self.columns.before.now }
        requires drawn { Drawn (IsGroup self.rows.after.now (length self.columns.before.now)) table.old count fresh }
        ensures { Sieved (Touched self.entry.rows.before.now self.entry.rows.after.now (length self.entry.columns.before.now) u v) table.old table.new count fresh result }
    {
        let mut end = count;
        for i in count..fresh {
            let g = table[i];
            if !self.known(u, v, g) {
                table[end] = g;
                end += 1;
            }
        }
        end
    }

    // Puts the groups that the key u touches to the first `end` of the table, and returns where they end; or None where there are more new groups than
    // half of the places. The other half is work space.
    fn put_key(self, u: usize, table: &mut [Group], end: usize) -> Option<usize>
        requires key { u < length self.rows.before.now }
        requires bound { end ≤ length table.old / 2 }
        requires held { Held (Sofar self.rows.before.now self.rows.after.now (length self.columns.before.now) u 0) table.old 0 end }
        ensures { Step (New self.entry.rows.before.now self.entry.rows.after.now (length self.entry.columns.before.now)) (Sofar self.entry.rows.before.now self.entry.rows.after.now (length self.entry.columns.before.now) (u + 1) 0) table.old table.new 0 (length table.old / 2) result }
    {
        let doors = self.columns.before.len();
        let gained = only(self.rows.after[u], self.rows.before[u], doors);
        let lost = only(self.rows.before[u], self.rows.after[u], doors);
        if gained | lost == 0 {
            return Some(end);
        }
        let fresh = self.rows.family(self.later, u, gained, lost, table, end)?;
        let last = self.sieve(u, 0, table, end, fresh);
        if last > table.len() / 2 {
            return None;
        }
        Some(last)
    }

    // Puts the groups that the door v touches to the first `end` of the table, which has those that some key touches, in the same way. No twin of
    // `put_key`: what a door gained is in no family, and the groups that are found on the turned plan are turned back.
    fn put_door(self, v: usize, table: &mut [Group], end: usize) -> Option<usize>
        requires door { v < length self.columns.before.now }
        requires bound { end ≤ length table.old / 2 }
        requires held { Held (Sofar self.rows.before.now self.rows.after.now (length self.columns.before.now) (length self.rows.before.now) v) table.old 0 end }
        ensures { Step (New self.entry.rows.before.now self.entry.rows.after.now (length self.entry.columns.before.now)) (Sofar self.entry.rows.before.now self.entry.rows.after.now (length self.entry.columns.before.now) (length self.entry.rows.before.now) (v + 1)) table.old table.new 0 (length table.old / 2) result }
    {
        let keys = self.rows.before.len();
        let lost = only(self.columns.before[v], self.columns.after[v], keys);
        if lost == 0 {
            return Some(end);
        }
        let fresh = self.columns.family(self.turned, v, 0, lost, table, end)?;
        turn(&mut table[end..fresh]);
        let last = self.sieve(keys, v, table, end, fresh);
        if last > table.len() / 2 {
            return None;
        }
        Some(last)
    }

    // Writes the new groups to the first places of the table, each once, in any order, and returns where they end; or None where there are more than
    // half of the places.
    pub(crate) fn gather(self, table: &mut [Group]) -> Option<usize>
        ensures { Step (New self.entry.rows.before.now self.entry.rows.after.now (length self.entry.columns.before.now)) (New self.entry.rows.before.now self.entry.rows.after.now (length self.entry.columns.before.now)) table.old table.new 0 (length table.old / 2) result }
    {
        let mut end = 0;
        // Keys and doors by their numbers, since each step reads both plans, and writes no row.
        for u in 0..self.rows.before.len() {
            end = self.put_key(u, table, end)?;
        }
        for v in 0..self.columns.before.len() {
            end = self.put_door(v, table, end)?;
        }
        Some(end)
    }
}
