// Any list of calls to a suite, and the law that holds of it.
ghost use Rattle.std.specs.Prelude.{◌≡◌, true, false, map, is_ok, Ok};
ghost use Rattle.faults.specs.Causes.{told};
ghost use Rattle.faults.specs.Faults.{draft_cause, suite_cause, booking_cause};
ghost use Rattle.pairs.specs.Orders.{change_before};
ghost use Rattle.table.specs.Sets.{all_entered};
ghost use Rattle.batch.specs.Changes.{capacity_of};
ghost use Rattle.batch.specs.Drafts.{changes, memory_of};
ghost use Rattle.ledger.specs.Ledger.{unless, found_answer, founded};
ghost use Rattle.ledger.specs.Calls.{puts_fault, next, reply};
ghost use Rattle.ledger.specs.Laws.{InStep};
ghost use Rattle.suite.specs.Law.{Kept, Booked};
ghost use Rattle.suite.specs.Of.{ledger};
ghost use Rattle.suite.specs.Seen.{seen};

use crate::ask::ask;
use crate::book::book;
use crate::calls::Call;
use crate::found::found;
use batch::lent::Draft;
use faults::draft::DraftFault;
use faults::suite::{BookingFault, SuiteFault};
use groups::group::Group;
use pairs::change::Change;
use plans::plan::ChangePlan;
use registers::register::Register;

// Puts the changes into the draft, one after the other.
fn fill(draft: &mut Draft, list: &[Change]) -> Result<(), DraftFault>
    ensures answer { told draft_cause result ≡ unless (puts_fault (capacity_of (memory_of draft.old)) (changes draft.old) list.now) (Ok tt) }
    ensures filled { is_ok result ≡ true → changes draft.new ≡ all_entered change_before list.now (changes draft.old) }
{
    for change in list {
        draft.put(*change)?;
    }
    Ok(())
}

// Puts the changes into a draft, closes it and books it. The draft's memory is an array of the call's own, since booking allocates nothing.
fn book_changes<P: ChangePlan, R: Register>(
    list: &[Change],
    plan: &mut P,
    register: &mut R,
    new: &mut [Group],
    lapsed: &mut [Group],
) -> Result<(usize, usize), BookingFault>
    ensures { Booked (ledger P.ReadPlan P.ChangePlan.own R.Register plan.old register.old) (ledger P.ReadPlan P.ChangePlan.own R.Register plan.new register.new) list.now new.old new.new lapsed.old lapsed.new (told booking_cause result) }
{
    let mut memory = [Change::default(); 64];
    let mut draft = Draft::new(&mut memory);
    fill(&mut draft, list)?;
    let batch = draft.close();
    Ok(book(&batch, plan, register, new, lapsed)?)
}

// Makes one call, and writes its answer into it.
fn step<P: ChangePlan, R: Register>(plan: &mut P, register: &mut R, call: &mut Call)
    ensures moved { ledger P.ReadPlan P.ChangePlan.own R.Register plan.new register.new ≡ next (ledger P.ReadPlan P.ChangePlan.own R.Register plan.old register.old) (seen call.old) }
    ensures replied { seen call.new ≡ reply (ledger P.ReadPlan P.ChangePlan.own R.Register plan.old register.old) (seen call.old) }
{
    match call {
        Call::Book {
            changes,
            new,
            lapsed,
            answer,
        } => {
            let r = book_changes(
                changes.as_slice(),
                plan,
                register,
                new.as_mut_slice(),
                lapsed.as_mut_slice(),
            );
            *answer = Some(r);
        }
        Call::Ask { question, answer } => {
            *answer = Some(ask(plan, register, *question));
        }
    }
}

// Makes any list of calls on a suite that stands, or on any other plan and register, and writes the answer of each into it.
pub fn resume<P: ChangePlan, R: Register>(plan: &mut P, register: &mut R, calls: &mut [Call])
    ensures { Kept (ledger P.ReadPlan P.ChangePlan.own R.Register plan.old register.old) (ledger P.ReadPlan P.ChangePlan.own R.Register plan.new register.new) (map seen calls.old) (map seen calls.new) }
{
    for call in calls.iter_mut() {
        step(plan, register, call);
    }
}

// Founds a suite on the plan and the register, makes any list of calls on it, and answers how many groups it was founded with. Where founding
// is refused, no call is made, and nothing changes.
pub fn run<P: ChangePlan, R: Register>(
    plan: &mut P,
    register: &mut R,
    calls: &mut [Call],
) -> Result<usize, SuiteFault>
    ensures answer { told suite_cause result ≡ found_answer (ledger P.ReadPlan P.ChangePlan.own R.Register plan.old register.old) }
    ensures kept { is_ok result ≡ true → Kept (founded (ledger P.ReadPlan P.ChangePlan.own R.Register plan.old register.old)) (ledger P.ReadPlan P.ChangePlan.own R.Register plan.new register.new) (map seen calls.old) (map seen calls.new) }
    ensures groups { is_ok result ≡ true → InStep (ledger P.ReadPlan P.ChangePlan.own R.Register plan.new register.new) }
    ensures refused { is_ok result ≡ false → (ledger P.ReadPlan P.ChangePlan.own R.Register plan.new register.new ≡ ledger P.ReadPlan P.ChangePlan.own R.Register plan.old register.old) × (calls.new ≡ calls.old) }
{
    let count = found(plan, register)?;
    resume(plan, register, calls);
    Ok(count)
}
