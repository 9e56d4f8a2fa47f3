// The plan before and after a batch, for the groups that come up and lapse between the two.
ghost use Rattle.std.specs.Prelude.{◌≡◌, ◌+◌, ◌≤◌, true, length, Some, None, MatchResult, nat_lt};
ghost use Rattle.faults.specs.Faults.{suite_cause};
ghost use Rattle.ledger.specs.Ledger.{additions, removals};
ghost use Rattle.suite.specs.Steps.{all_in_range, plan_fault, Compares};

use crate::checks::{check_changes, count_additions};
use crate::rows::{carry_out, rows_of};
use difference::two::TwoPlans;
use faults::suite::SuiteFault;
use pairs::change::Change;
use plans::plan::ChangePlan;

// A batch has at most 64 changes.
fn too_few_places(spare: usize, changes: &[Change]) -> bool
    requires spare { spare ≤ 4096 }
    requires few { length changes.now ≤ 64 }
    ensures { result ≡ nat_lt (spare + removals changes.now) (additions changes.now) }
{
    let additions = count_additions(changes);
    spare + (changes.len() - additions) < additions
}

// The plan of these rows, and with the batch carried out. Numbers of keys and doors are plain numbers with a bound, as in the search.
fn both_plans(rows: &[u64], doors: u8, changes: &[Change]) -> TwoPlans
    requires keys { length rows.now ≤ 64 }
    requires doors { doors ≤ 64 }
    requires range { all_in_range changes.now ≡ true }
    ensures { Compares doors rows.now changes.now result }
{
    let mut memory = [0; 64];
    let after = &mut memory[0..rows.len()];
    after.copy_from_slice(rows);
    carry_out(after, changes);
    TwoPlans::new(rows, after, doors as usize)
}

// The plan as it is, and with the batch carried out; or why the plan does not take the batch.
pub(crate) fn compare<P: ChangePlan>(plan: &P, changes: &[Change]) -> Result<TwoPlans, SuiteFault>
    requires { length changes.now ≤ 64 }
    ensures { MatchResult result (λ t. (plan_fault (P.ReadPlan.keys plan.now) (P.ReadPlan.doors plan.now) (P.ReadPlan.rows plan.now) (P.ChangePlan.spare plan.now) changes.now ≡ None) × Compares (P.ReadPlan.doors plan.now) (P.ReadPlan.rows plan.now) changes.now t) (λ f. plan_fault (P.ReadPlan.keys plan.now) (P.ReadPlan.doors plan.now) (P.ReadPlan.rows plan.now) (P.ChangePlan.spare plan.now) changes.now ≡ Some (suite_cause f)) }
{
    let keys = plan.keys() as usize;
    let doors = plan.doors();
    let table = rows_of(plan);
    let rows = &table[0..keys];
    check_changes(doors, rows, changes)?;
    if too_few_places(plan.spare(), changes) {
        return Err(SuiteFault::PlanFull);
    }
    Ok(both_plans(rows, doors, changes))
}
