// What a register answers and how it changes, whatever it is made of.
ghost use Rattle.std.specs.Prelude.{◌≡◌, ℕ, ◌+◌, ◌-◌, ◌<◌, ◌≤◌, Bool, List, length, is_ok, if◌then◌else◌};
ghost use Rattle.std.specs.List.{slice_get};
ghost use Rattle.faults.specs.Causes.{told};
ghost use Rattle.faults.specs.Faults.{register_cause};
ghost use Rattle.groups.specs.declared.group.Group.{Group};
ghost use Rattle.groups.specs.Orders.{group_before};
ghost use Rattle.table.specs.Rows.{Ascends};
ghost use Rattle.table.specs.Sets.{has, entered, struck};
ghost use Rattle.registers.specs.Meaning.{enter_answer, strike_answer, spare_struck};

use faults::register::RegisterFault;
use groups::group::Group;

// A record is any two 64-bit numbers. A refusal leaves the register as it was.
pub trait Register {
    // the records held, ascending
    ghost held: { Self → List Group };

    ghost spare: { Self → ℕ };

    // whether a strike takes a place, or gives one back
    ghost spends: { Bool };

    ghost ascending: { (x : Self) → Ascends group_before (held x) (length (held x)) };

    ghost few: { (x : Self) → length (held x) + spare x ≤ 65536 };

    // How many records are held.
    fn count(&self) -> usize
        ensures { result ≡ length (held self.now) };

    // How many places are left.
    fn spare(&self) -> usize
        ensures { result ≡ spare self.now };

    // Whether a strike takes a place. If not, it gives one back.
    fn spends(&self) -> bool
        ensures { result ≡ spends };

    // Whether the record is held.
    fn holds(&self, record: Group) -> bool
        ensures { result ≡ has group_before «record» (held self.now) };

    // The record with so many before it in ascending order, or none.
    fn record_at(&self, index: usize) -> Option<Group>
        ensures { result ≡ slice_get (held self.now) index };

    // From now on the record is held.
    fn enter(&mut self, record: Group) -> Result<(), RegisterFault>
        ensures answer { told register_cause result ≡ enter_answer (held self.old) (spare self.old) «record» }
        ensures held { held self.new ≡ (if is_ok result then entered group_before «record» (held self.old) else held self.old) }
        ensures spare { spare self.new ≡ (if is_ok result then spare self.old - 1 else spare self.old) };

    // From now on the record is not held.
    fn strike(&mut self, record: Group) -> Result<(), RegisterFault>
        ensures answer { told register_cause result ≡ strike_answer spends (held self.old) (spare self.old) «record» }
        ensures held { held self.new ≡ (if is_ok result then struck group_before «record» (held self.old) else held self.old) }
        ensures spare { spare self.new ≡ (if is_ok result then spare_struck spends (spare self.old) else spare self.old) };
}
