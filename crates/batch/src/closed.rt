// A closed batch can be looked at, and takes no further change.
ghost use Rattle.std.specs.Prelude.{◌≡◌, length};
ghost use Rattle.std.specs.List.{slice_get};
ghost use Rattle.batch.specs.Drafts.{closed_changes};

use crate::lent::Closed;
use pairs::change::Change;

impl<'a> Closed<'a> {
    pub fn count(&self) -> usize
        ensures { result ≡ length (closed_changes self.now) }
    {
        self.rows.count()
    }

    // The change at an index in ascending order, or none.
    pub fn get(&self, i: usize) -> Option<Change>
        ensures { result ≡ slice_get (closed_changes self.now) i }
    {
        self.changes().get(i).copied()
    }

    // The changes, ascending.
    pub fn changes(&self) -> &[Change]
        ensures { result.now ≡ closed_changes self.now }
    {
        self.rows.changes()
    }
}
