// Booking: a closed batch is carried out on a plan and a register, and the groups that come up and that lapse are handed out.
ghost use Rattle.std.specs.Prelude.{◌≡◌, ◌≤◌, length};
ghost use Rattle.faults.specs.Causes.{told};
ghost use Rattle.faults.specs.Faults.{suite_cause};
ghost use Rattle.batch.specs.Drafts.{closed_changes};
ghost use Rattle.ledger.specs.Ledger.{wants, arising, lapsing, book_answer};
ghost use Rattle.ledger.specs.Calls.{booked_if, over_if};
ghost use Rattle.suite.specs.Bookings.{Booking, Ready, Fits};
ghost use Rattle.suite.specs.Of.{ledger};
ghost use Rattle.suite.specs.Steps.{Compares};

use crate::compare::compare;
use crate::lists::{Found, copy_over, find_groups, is_out_of_step};
use crate::steps::{permit_all, withdraw_all};
use batch::lent::Closed;
use difference::two::TwoPlans;
use faults::suite::SuiteFault;
use groups::group::Group;
use pairs::change::Change;
use plans::plan::ChangePlan;
use registers::all::{enter_all, strike_all};
use registers::register::Register;

// A list counts for at most so many groups.
const LIST: usize = 65536;

// Most bookings find few groups: a small table is cleared at once, and a large one only where the small one does not suffice. Both are
// arrays on the stack, since booking allocates nothing.
const SMALL: usize = 4096;

const LARGE: usize = 196608;

// Whether so many new and so many lapsed groups want more places than the register has.
fn wants_places<R: Register>(register: &R, new: usize, lapsed: usize) -> bool
    requires new { new ≤ 65536 }
    requires lapsed { lapsed ≤ 65536 }
    ensures { result ≡ wants R.Register.spends (R.Register.spare register.now) new lapsed }
{
    if register.spends() {
        register.spare() < new + lapsed
    } else {
        register.spare() + lapsed < new
    }
}

// That the plan takes the batch, `Ready`, is a clause of the three functions below and no field of a type: it speaks of the plan as it is, which they change.

// Books a batch that the plan takes, with the groups that come up and that lapse at hand. The two lists to fill are two parameters: a
// struct that borrows both would have to promise, at each call, that it still borrows the same two.
fn settle<P: ChangePlan, R: Register>(
    changes: &[Change],
    plan: &mut P,
    register: &mut R,
    found: Found,
    new: &mut [Group],
    lapsed: &mut [Group],
) -> Result<(usize, usize), SuiteFault>
    requires ready { Ready (ledger P.ReadPlan P.ChangePlan.own R.Register plan.old register.old) changes.now }
    requires fits { Fits (ledger P.ReadPlan P.ChangePlan.own R.Register plan.old register.old) changes.now (length new.old) (length lapsed.old) found.coming.now found.going.now }
    ensures { Booking (ledger P.ReadPlan P.ChangePlan.own R.Register plan.old register.old) (ledger P.ReadPlan P.ChangePlan.own R.Register plan.new register.new) changes.now new.old new.new lapsed.old lapsed.new (told suite_cause result) }
{
    if is_out_of_step(register, found) {
        return Err(SuiteFault::OutOfStep);
    }
    let Found { coming, going } = found;
    if wants_places(register, coming.len(), going.len()) {
        return Err(SuiteFault::TooFewPlaces);
    }
    withdraw_all(plan, changes);
    permit_all(plan, changes);
    strike_all(register, going);
    enter_all(register, coming);
    copy_over(coming, new);
    copy_over(going, lapsed);
    Ok((coming.len(), going.len()))
}

// Looks for the groups in a table that has room for as many as two lists count for. A function of its own, and not one with the table's
// size as a parameter: the small table falls back on the large one, and the large one on nothing.
fn book_at_length<P: ChangePlan, R: Register>(
    plans: &TwoPlans,
    changes: &[Change],
    plan: &mut P,
    register: &mut R,
    new: &mut [Group],
    lapsed: &mut [Group],
) -> Result<(usize, usize), SuiteFault>
    requires ready { Ready (ledger P.ReadPlan P.ChangePlan.own R.Register plan.old register.old) changes.now }
    requires compares { Compares (P.ReadPlan.doors plan.old) (P.ReadPlan.rows plan.old) changes.now plans.now }
    ensures { Booking (ledger P.ReadPlan P.ChangePlan.own R.Register plan.old register.old) (ledger P.ReadPlan P.ChangePlan.own R.Register plan.new register.new) changes.now new.old new.new lapsed.old lapsed.new (told suite_cause result) }
{
    let mut table = [Group::default(); LARGE];
    let found = find_groups(
        plans,
        &mut table,
        new.len().min(LIST),
        lapsed.len().min(LIST),
    )?;
    settle(changes, plan, register, found, new, lapsed)
}

// Looks for the groups in a small table first.
fn book_compared<P: ChangePlan, R: Register>(
    plans: &TwoPlans,
    changes: &[Change],
    plan: &mut P,
    register: &mut R,
    new: &mut [Group],
    lapsed: &mut [Group],
) -> Result<(usize, usize), SuiteFault>
    requires ready { Ready (ledger P.ReadPlan P.ChangePlan.own R.Register plan.old register.old) changes.now }
    requires compares { Compares (P.ReadPlan.doors plan.old) (P.ReadPlan.rows plan.old) changes.now plans.now }
    ensures { Booking (ledger P.ReadPlan P.ChangePlan.own R.Register plan.old register.old) (ledger P.ReadPlan P.ChangePlan.own R.Register plan.new register.new) changes.now new.old new.new lapsed.old lapsed.new (told suite_cause result) }
{
    let mut table = [Group::default(); SMALL];
    match find_groups(
        plans,
        &mut table,
        new.len().min(SMALL / 4),
        lapsed.len().min(SMALL / 4),
    ) {
        Ok(found) => settle(changes, plan, register, found, new, lapsed),
        Err(_) => book_at_length(plans, changes, plan, register, new, lapsed),
    }
}

// Carries the batch out: removals leave the plan, additions join it, the lapsed groups are struck from the register and the new ones entered,
// and each list holds its groups from its start. Answers how many are new and how many lapsed. A refusal changes nothing.
pub fn book<P: ChangePlan, R: Register>(
    batch: &Closed,
    plan: &mut P,
    register: &mut R,
    new: &mut [Group],
    lapsed: &mut [Group],
) -> Result<(usize, usize), SuiteFault>
    ensures answer { told suite_cause result ≡ book_answer (ledger P.ReadPlan P.ChangePlan.own R.Register plan.old register.old) (closed_changes batch.now) (length new.old) (length lapsed.old) }
    ensures after { ledger P.ReadPlan P.ChangePlan.own R.Register plan.new register.new ≡ booked_if (told suite_cause result) (ledger P.ReadPlan P.ChangePlan.own R.Register plan.old register.old) (closed_changes batch.now) }
    ensures new { new.new ≡ over_if (told suite_cause result) (arising (ledger P.ReadPlan P.ChangePlan.own R.Register plan.old register.old) (closed_changes batch.now)) new.old }
    ensures lapsed { lapsed.new ≡ over_if (told suite_cause result) (lapsing (ledger P.ReadPlan P.ChangePlan.own R.Register plan.old register.old) (closed_changes batch.now)) lapsed.old }
{
    let changes = batch.changes();
    let plans = compare(plan, changes)?;
    book_compared(&plans, changes, plan, register, new, lapsed)
}
