// A register as a journal in lent memory: a line for each record entered or struck, so that each takes a place. What is held is
// what the lines leave when they are read in order, and it stands, ascending, in the column beside the first lines. So a
// question costs one read or is answered by halving, and to enter or strike a record writes one line and moves the records after it
// by one.
ghost use Rattle.std.specs.Prelude.{◌≡◌, true, [], length};
ghost use Rattle.registers.specs.Meaning.{capacity};
ghost use Rattle.registers.specs.Journals.{journal_held, journal_spare, journal_ascending, journal_few};

use crate::column;
use crate::line::{Call, Line};
use crate::makes::Journal;
use crate::places::{self, Places};
use crate::register::Register;
use faults::register::RegisterFault;
use groups::group::Group;

impl<'a> Journal<'a> {
    // No lines, in this memory, which keeps what it holds until lines are written over it.
    pub fn new(memory: &'a mut [Line]) -> Journal<'a>
        ensures held { journal_held result ≡ [] }
        ensures spare { journal_spare result ≡ capacity (length memory.old) }
        ensures memory { result.memory.now ≡ memory.old }
        ensures same { result.memory.ghost_name ≡ memory.entry.ghost_name }
    {
        Journal {
            memory,
            lines: 0,
            count: 0,
        }
    }
}

impl<'a> Places for Journal<'a> {
    ghost held = { journal_held };

    ghost spare = { journal_spare };

    ghost spends = { true };

    fn remove_spends(&self) -> bool {
        true
    }

    fn room(&self) -> usize {
        self.memory.len().min(65536) - self.lines
    }

    fn find(&self, record: Group) -> Result<usize, usize> {
        column::find(self.memory, self.count, record)
    }

    // Writes that the record was entered, and puts it at its place. The journal is taken apart for it, since a whole one owes its
    // facts after each of the two calls.
    fn insert(&mut self, at: usize, record: Group) {
        let Journal {
            memory,
            lines,
            count,
        } = self;
        column::write(memory, *lines, Call::Enter(record));
        column::put(memory, *count, at, record);
        *lines += 1;
        *count += 1;
    }

    // Writes that the record was struck, and takes it out.
    fn remove(&mut self, at: usize, record: Group) {
        let Journal {
            memory,
            lines,
            count,
        } = self;
        column::write(memory, *lines, Call::Strike(record));
        column::take_out(memory, *count, at);
        *lines += 1;
        *count -= 1;
    }
}

impl<'a> Register for Journal<'a> {
    ghost held = { journal_held };

    ghost spare = { journal_spare };

    ghost spends = { true };

    ghost ascending = { journal_ascending };

    ghost few = { journal_few };

    fn count(&self) -> usize {
        self.count
    }

    fn spare(&self) -> usize {
        self.room()
    }

    fn spends(&self) -> bool {
        self.remove_spends()
    }

    fn holds(&self, record: Group) -> bool {
        self.find(record).is_ok()
    }

    #[tactic(auto, using(crate::proofs::Lines::held_there, crate::proofs::Lines::held_past))]
    fn record_at(&self, index: usize) -> Option<Group> {
        Some(self.memory[..self.count].get(index)?.held)
    }

    fn enter(&mut self, record: Group) -> Result<(), RegisterFault> {
        places::enter(self, record)
    }

    fn strike(&mut self, record: Group) -> Result<(), RegisterFault> {
        places::strike(self, record)
    }
}
