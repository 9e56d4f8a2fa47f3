// A register as ascending records in lent memory. A strike gives its place back. Questions cost one read or are answered by halving;
// to enter or strike a record moves the records after it by one.
ghost use Rattle.std.specs.Prelude.{◌≡◌, false, [], length};
ghost use Rattle.registers.specs.Meaning.{capacity};
ghost use Rattle.registers.specs.Sorteds.{sorted_held, sorted_spare, sorted_ascending, sorted_few};

use crate::makes::SortedRegister;
use crate::places::{self, Places};
use crate::register::Register;
use faults::register::RegisterFault;
use groups::group::Group;

impl<'a> SortedRegister<'a> {
    // No records, in this memory, which keeps what it holds until records are put over it.
    pub fn new(memory: &'a mut [Group]) -> SortedRegister<'a>
        ensures held { sorted_held result ≡ [] }
        ensures spare { sorted_spare result ≡ capacity (length memory.old) }
        ensures memory { result.memory.now ≡ memory.old }
        ensures same { result.memory.ghost_name ≡ memory.entry.ghost_name }
    {
        SortedRegister { memory, count: 0 }
    }
}

impl<'a> Places for SortedRegister<'a> {
    ghost held = { sorted_held };

    ghost spare = { sorted_spare };

    ghost spends = { false };

    fn remove_spends(&self) -> bool {
        false
    }

    fn room(&self) -> usize {
        self.memory.len().min(65536) - self.count
    }

    fn find(&self, record: Group) -> Result<usize, usize> {
        table::find(self.memory, self.count, &record)
    }

    fn insert(&mut self, at: usize, record: Group) {
        table::put(self.memory, self.count, at, record);
        self.count += 1;
    }

    fn remove(&mut self, at: usize, _record: Group) {
        table::take_out(self.memory, self.count, at);
        self.count -= 1;
    }
}

impl<'a> Register for SortedRegister<'a> {
    ghost held = { sorted_held };

    ghost spare = { sorted_spare };

    ghost spends = { false };

    ghost ascending = { sorted_ascending };

    ghost few = { sorted_few };

    fn count(&self) -> usize {
        self.count
    }

    fn spare(&self) -> usize {
        self.room()
    }

    fn spends(&self) -> bool {
        self.remove_spends()
    }

    fn holds(&self, record: Group) -> bool {
        self.find(record).is_ok()
    }

    fn record_at(&self, index: usize) -> Option<Group> {
        self.memory[..self.count].get(index).copied()
    }

    fn enter(&mut self, record: Group) -> Result<(), RegisterFault> {
        places::enter(self, record)
    }

    fn strike(&mut self, record: Group) -> Result<(), RegisterFault> {
        places::strike(self, record)
    }
}
