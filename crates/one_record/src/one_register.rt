// What the register of at most one record does: the trait's methods, each proved against the trait's contract.
ghost use Rattle.std.specs.Prelude.{◌≡◌, ℕ, false, []};
ghost use Rattle.one_record.specs.Ones.{one_held, one_spare, one_ascending, one_few};

use crate::make::OneRecord;
use faults::register::RegisterFault;
use groups::group::Group;
use registers::register::Register;

impl OneRecord {
    // No record.
    pub fn new() -> OneRecord
        ensures held { one_held result ≡ [] }
        ensures spare { one_spare result ≡ 1 }
    {
        OneRecord { held: None }
    }
}

impl Register for OneRecord {
    ghost held = { one_held };

    ghost spare = { one_spare };

    ghost spends = { false };

    ghost ascending = { one_ascending };

    ghost few = { one_few };

    fn count(&self) -> usize {
        usize::from(self.held.is_some())
    }

    fn spare(&self) -> usize {
        1 - self.count()
    }

    fn spends(&self) -> bool {
        false
    }

    fn holds(&self, record: Group) -> bool {
        self.held == Some(record)
    }

    fn record_at(&self, index: usize) -> Option<Group> {
        if index == 0 { self.held } else { None }
    }

    fn enter(&mut self, record: Group) -> Result<(), RegisterFault> {
        if self.holds(record) {
            return Err(RegisterFault::Held);
        }
        if self.spare() == 0 {
            return Err(RegisterFault::NoSpare);
        }
        self.held = Some(record);
        Ok(())
    }

    fn strike(&mut self, record: Group) -> Result<(), RegisterFault> {
        if !self.holds(record) {
            return Err(RegisterFault::NotHeld);
        }
        self.held = None;
        Ok(())
    }
}
