// Generic code over any register: several records entered or struck in their order. Two loops, since one over a closure would
// have to take as clauses what each call answers and leaves, which the trait says already.
ghost use Rattle.std.specs.Prelude.{◌≡◌};
ghost use Rattle.registers.specs.Meaning.{entered_run, entered_left, struck_run, struck_left};

use crate::register::Register;
use groups::group::Group;

// Enters them in their order. A refused one changes nothing.
pub fn enter_all<R: Register>(register: &mut R, records: &[Group])
    ensures held { R.held register.new ≡ entered_run (R.held register.old) (R.spare register.old) records.now }
    ensures spare { R.spare register.new ≡ entered_left (R.held register.old) (R.spare register.old) records.now }
{
    for group in records {
        let _ = register.enter(*group);
    }
}

// Strikes them in their order. A refused one changes nothing.
pub fn strike_all<R: Register>(register: &mut R, records: &[Group])
    ensures held { R.held register.new ≡ struck_run R.spends (R.held register.old) (R.spare register.old) records.now }
    ensures spare { R.spare register.new ≡ struck_left R.spends (R.held register.old) (R.spare register.old) records.now }
{
    for group in records {
        let _ = register.strike(*group);
    }
}
