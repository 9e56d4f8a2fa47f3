// What drafts and closed batches do with their rows.
ghost use Rattle.std.specs.Prelude.{◌≡◌, ◌<◌, true, length, Err};
ghost use Rattle.pairs.specs.Orders.{change_before, before_by_pair};
ghost use Rattle.table.specs.Sets.{placed, entered};
ghost use Rattle.batch.specs.Changes.{in_range, capacity_of, filled};
ghost use Rattle.batch.specs.Drafts.{used};

use crate::lent::Rows;
use pairs::change::Change;

impl<'a> Rows<'a> {
    pub(crate) fn count(&self) -> usize
        ensures { result ≡ length (used self.now) }
    {
        self.count
    }

    pub(crate) fn changes(&self) -> &[Change]
        ensures { result.now ≡ used self.now }
    {
        &self.memory[0..self.count]
    }

    // Where the change's pair stands under either mark, or where it would go.
    pub(crate) fn find(&self, change: Change) -> Result<usize, usize>
        ensures { result ≡ placed before_by_pair change (used self.now) }
    {
        self.changes()
            .binary_search_by_key(&(change.key, change.door), |row| (row.key, row.door))
    }

    // Writes a change of a new pair at its place.
    pub(crate) fn insert(&mut self, at: usize, change: Change)
        requires room { length (used self.old) < capacity_of self.old.memory.now }
        requires range { in_range change ≡ true }
        requires place { placed before_by_pair change (used self.old) ≡ Err at }
        ensures changes { used self.new ≡ entered change_before change (used self.old) }
        ensures memory { self.new.memory.now ≡ filled (used self.new) self.old.memory.now }
        ensures same { self.new.memory.ghost_name ≡ self.old.memory.ghost_name }
    {
        let Rows { memory, count } = self;
        let n = *count;
        table::put(memory, n, at, change);
        *count = n + 1;
    }
}
