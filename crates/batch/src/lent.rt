// Drafts and batches lie in memory that is lent to them.
ghost use Rattle.std.specs.Prelude.{◌≡◌, ℕ, ◌<◌, ◌≤◌, true, length, slice_index_or};
ghost use Rattle.pairs.specs.Orders.{before_by_pair};
ghost use Rattle.pairs.specs.declared.change.Change.{Change};
ghost use Rattle.table.specs.Rows.{Ascends};
ghost use Rattle.batch.specs.Changes.{in_range};

use pairs::change::Change;

// The first `count` rows of the memory are in use. They ascend by pair, so no pair stands twice, and their numbers are
// below 64.
// A count beside the memory, and no `Vec`: the memory is the caller's, and there is no heap.
#[derive(Drop)]
pub(crate) struct Rows<'a> {
    pub(crate) memory: &'a mut [Change],
    pub(crate) count: usize,
    ghost within: { count ≤ length memory.now },
    ghost few: { count ≤ 64 },
    ghost ascends: { Ascends before_by_pair memory.now count },
    ghost numbers: { (k : ℕ) (d : Change) → k < count → in_range (slice_index_or memory.now k d) ≡ true },
}

#[derive(Drop)]
pub struct Draft<'a> {
    pub(crate) rows: Rows<'a>,
}

#[derive(Drop)]
pub struct Closed<'a> {
    pub(crate) rows: Rows<'a>,
}
