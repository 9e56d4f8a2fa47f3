// What the search reads, and its states.
ghost use Rattle.std.specs.Prelude.{◌≡◌, ◌≤◌, length};
ghost use Rattle.search.specs.Nodes.{Reads};

// A plan as the search reads it: its rows, the keys of each of its doors, the rows to watch, and the number of its doors.
#[derive(Clone, Copy)]
pub(crate) struct Plan<'a> {
    pub(crate) rows: &'a [u64; 64],
    pub(crate) columns: &'a [u64; 64],
    pub(crate) watch: &'a [u64; 64],
    pub(crate) doors: u8,
    ghost few: { doors ≤ 64 },
    ghost long: { length rows.now ≡ 64 },
    ghost wide: { length watch.now ≡ 64 },
    ghost reads: { Reads rows.now columns.now doors },
}

// A state of the search. The doors are all that the keys share, and the keys all that open these doors. No key of `out` may join.
// `marks` is what the rows to watch share for the keys, and `left` has the keys that may join and open one of the doors.
// That this holds is asked by `Plan::visit` alone: it is said of a plan and a node together, and by cases, so it is no ghost field.
#[derive(Clone, Copy)]
pub(crate) struct Node {
    pub(crate) keys: u64,
    pub(crate) out: u64,
    pub(crate) doors: u64,
    pub(crate) marks: u64,
    pub(crate) left: u64,
}

// The keys that open all of some doors, and those that open at least one of them.
#[derive(Clone, Copy)]
pub(crate) struct Openers {
    pub(crate) all: u64,
    pub(crate) some: u64,
}
