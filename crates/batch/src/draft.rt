// A draft takes changes until it is closed.
ghost use Rattle.std.specs.Prelude.{◌≡◌, [], length};
ghost use Rattle.batch.specs.Changes.{capacity_of};
ghost use Rattle.batch.specs.Drafts.{changes, memory_of, closed_changes, closed_memory};

use crate::lent::{Closed, Draft, Rows};
use pairs::change::Change;

impl<'a> Draft<'a> {
    // An empty draft in this memory, which keeps what it holds until changes are put over it.
    pub fn new(memory: &'a mut [Change]) -> Draft<'a>
        ensures changes { changes result ≡ [] }
        ensures memory { memory_of result ≡ memory.old }
        ensures same { result.rows.memory.ghost_name ≡ memory.entry.ghost_name }
    {
        Draft {
            rows: Rows { memory, count: 0 },
        }
    }

    pub fn count(&self) -> usize
        ensures { result ≡ length (changes self.now) }
    {
        self.rows.count()
    }

    // How many changes the draft can hold: as many as the memory, at most 64.
    pub fn capacity(&self) -> usize
        ensures { result ≡ capacity_of (memory_of self.now) }
    {
        self.rows.memory.len().min(64)
    }

    pub fn close(self) -> Closed<'a>
        ensures changes { closed_changes result ≡ changes self.entry }
        ensures memory { closed_memory result ≡ memory_of self.entry }
        ensures same { result.rows.memory.ghost_name ≡ self.entry.rows.memory.ghost_name }
    {
        let Draft { rows } = self;
        Closed { rows }
    }
}
