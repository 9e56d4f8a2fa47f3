// A batch carried out on a plan of any make, where no call of it is refused. Removals and additions have a loop each: what a withdrawal
// and a permission ask and leave differs in every clause.
ghost use Rattle.std.specs.Prelude.{◌≡◌, ◌+◌, ◌-◌, Ok};
ghost use Rattle.groups.specs.Lists.{withdrawn, permitted, removals_out, additions_in, carried_out};
ghost use Rattle.plans.specs.Meaning.{withdraw_answer, permit_answer};
ghost use Rattle.ledger.specs.Ledger.{additions, removals};
ghost use Rattle.suite.specs.Steps.{Removable, Addable};

use numbers::number::{DoorNo, KeyNo};
use pairs::change::Change;
use plans::plan::ChangePlan;

fn withdraw_pair<P: ChangePlan>(plan: &mut P, change: Change)
    requires { withdraw_answer (P.ReadPlan.keys plan.old) (P.ReadPlan.doors plan.old) (P.ReadPlan.rows plan.old) change.key change.door ≡ Ok tt }
    ensures keys { P.ReadPlan.keys plan.new ≡ P.ReadPlan.keys plan.old }
    ensures doors { P.ReadPlan.doors plan.new ≡ P.ReadPlan.doors plan.old }
    ensures rows { P.ReadPlan.rows plan.new ≡ withdrawn change (P.ReadPlan.rows plan.old) }
    ensures spare { P.ChangePlan.spare plan.new ≡ P.ChangePlan.spare plan.old + 1 }
{
    let Ok(key) = KeyNo::try_from(change.key) else {
        return;
    };
    let Ok(door) = DoorNo::try_from(change.door) else {
        return;
    };
    let _ = plan.withdraw(key, door);
}

fn permit_pair<P: ChangePlan>(plan: &mut P, change: Change)
    requires { permit_answer (P.ReadPlan.keys plan.old) (P.ReadPlan.doors plan.old) (P.ReadPlan.rows plan.old) (P.ChangePlan.spare plan.old) change.key change.door ≡ Ok tt }
    ensures keys { P.ReadPlan.keys plan.new ≡ P.ReadPlan.keys plan.old }
    ensures doors { P.ReadPlan.doors plan.new ≡ P.ReadPlan.doors plan.old }
    ensures rows { P.ReadPlan.rows plan.new ≡ permitted change (P.ReadPlan.rows plan.old) }
    ensures spare { P.ChangePlan.spare plan.new ≡ P.ChangePlan.spare plan.old - 1 }
{
    let Ok(key) = KeyNo::try_from(change.key) else {
        return;
    };
    let Ok(door) = DoorNo::try_from(change.door) else {
        return;
    };
    let _ = plan.permit(key, door);
}

// Withdraws the pairs that are marked as removals.
pub(crate) fn withdraw_all<P: ChangePlan>(plan: &mut P, changes: &[Change])
    requires { Removable (P.ReadPlan.keys plan.old) (P.ReadPlan.doors plan.old) changes.now (P.ReadPlan.rows plan.old) }
    ensures keys { P.ReadPlan.keys plan.new ≡ P.ReadPlan.keys plan.old }
    ensures doors { P.ReadPlan.doors plan.new ≡ P.ReadPlan.doors plan.old }
    ensures rows { P.ReadPlan.rows plan.new ≡ removals_out changes.now (P.ReadPlan.rows plan.old) }
    ensures spare { P.ChangePlan.spare plan.new ≡ P.ChangePlan.spare plan.old + removals changes.now }
{
    for change in changes {
        if !change.added {
            withdraw_pair(plan, *change);
        }
    }
}

// Permits the pairs that are marked as additions.
pub(crate) fn permit_all<P: ChangePlan>(plan: &mut P, changes: &[Change])
    requires { Addable (P.ReadPlan.keys plan.old) (P.ReadPlan.doors plan.old) changes.now (P.ReadPlan.rows plan.old) (P.ChangePlan.spare plan.old) }
    ensures keys { P.ReadPlan.keys plan.new ≡ P.ReadPlan.keys plan.old }
    ensures doors { P.ReadPlan.doors plan.new ≡ P.ReadPlan.doors plan.old }
    ensures rows { P.ReadPlan.rows plan.new ≡ additions_in changes.now (P.ReadPlan.rows plan.old) }
    ensures spare { P.ChangePlan.spare plan.new ≡ P.ChangePlan.spare plan.old - additions changes.now }
{
    for change in changes {
        if change.added {
            permit_pair(plan, *change);
        }
    }
}
