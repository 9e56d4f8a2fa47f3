// Founding: the groups of a plan are entered into an empty register.
ghost use Rattle.std.specs.Prelude.{◌≡◌, ◌<◌, ◌≤◌, length, take, MatchOption};
ghost use Rattle.faults.specs.Causes.{told};
ghost use Rattle.faults.specs.Faults.{suite_cause};
ghost use Rattle.groups.specs.Lists.{groups_of};
ghost use Rattle.ledger.specs.Ledger.{found_answer};
ghost use Rattle.suite.specs.Of.{ledger, founded_if};

use crate::rows::rows_of;
use faults::suite::SuiteFault;
use groups::group::Group;
use plans::plan::ChangePlan;
use registers::all::enter_all;
use registers::register::Register;
use search::tables::Tables;

// No register has more places. The table is an array on the stack, since founding allocates nothing.
const PLACES: usize = 65536;

// Writes the groups of the plan, by its rows and its number of doors, to the table and answers how many there are, or None where there are more than it has places.
fn list_groups(rows: &[u64], doors: usize, table: &mut [Group]) -> Option<usize>
    requires keys { length rows.now ≤ 64 }
    requires doors { doors ≤ 64 }
    ensures { MatchOption result (length table.old < length (groups_of rows.now doors)) (λ n. (n ≡ length (groups_of rows.now doors)) × (n ≤ length table.old) × (take n table.new ≡ groups_of rows.now doors)) }
{
    Tables::new(rows, doors).groups(table, 0)
}

// Enters every group of the plan, and answers how many there are. What the register then holds is the founding list. A refusal changes nothing.
pub fn found<P: ChangePlan, R: Register>(plan: &P, register: &mut R) -> Result<usize, SuiteFault>
    ensures answer { told suite_cause result ≡ found_answer (ledger P.ReadPlan P.ChangePlan.own R.Register plan.now register.old) }
    ensures after { ledger P.ReadPlan P.ChangePlan.own R.Register plan.now register.new ≡ founded_if (told suite_cause result) (ledger P.ReadPlan P.ChangePlan.own R.Register plan.now register.old) }
{
    if register.count() > 0 {
        return Err(SuiteFault::NotEmpty);
    }
    let mut memory = [Group::default(); PLACES];
    let table = &mut memory[0..register.spare()];
    let keys = plan.keys() as usize;
    let rows = rows_of(plan);
    let Some(count) = list_groups(&rows[0..keys], plan.doors() as usize, table) else {
        return Err(SuiteFault::TooFewPlaces);
    };
    enter_all(register, &table[0..count]);
    Ok(count)
}
