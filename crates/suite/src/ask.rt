// Questions to a suite.
ghost use Rattle.std.specs.Prelude.{◌≡◌};
ghost use Rattle.faults.specs.Causes.{told};
ghost use Rattle.faults.specs.Faults.{number_cause};
ghost use Rattle.ledger.specs.Ledger.{ask_answer};
ghost use Rattle.suite.specs.Of.{ledger};

use faults::number::NumberFault;
use ledger::question::{Answer, Question};
use numbers::number::{DoorNo, KeyNo};
use plans::plan::ChangePlan;
use registers::register::Register;

// A question changes nothing. A key or door outside the plan has the empty set; a number above 63 is refused.
pub fn ask<P: ChangePlan, R: Register>(
    plan: &P,
    register: &R,
    question: Question,
) -> Result<Answer, NumberFault>
    ensures { told number_cause result ≡ ask_answer (ledger P.ReadPlan P.ChangePlan.own R.Register plan.now register.now) question }
{
    Ok(match question {
        Question::Sizes => Answer::Sizes {
            keys: plan.keys(),
            doors: plan.doors(),
        },
        Question::DoorsOf { key } => Answer::Doors(plan.doors_of(KeyNo::try_from(key)?)),
        Question::KeysOf { door } => Answer::Keys(plan.keys_of(DoorNo::try_from(door)?)),
        Question::PlanSpare => Answer::Number(plan.spare()),
        Question::RegisterSpare => Answer::Number(register.spare()),
        Question::Count => Answer::Number(register.count()),
        Question::Holds { record } => Answer::Truth(register.holds(record)),
        Question::RecordAt { index } => Answer::Record(register.record_at(index)),
    })
}
