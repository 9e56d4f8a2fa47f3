// The lists of the groups that come up and that lapse: how they are found, and how they are handed out.
ghost use Rattle.std.specs.Prelude.{◌≡◌, ◌≤◌, length, IfOk, Ok};
ghost use Rattle.faults.specs.Causes.{told_as};
ghost use Rattle.faults.specs.Faults.{suite_cause};
ghost use Rattle.ledger.specs.Ledger.{over, all_held, some_are_held, out_of_step};
ghost use Rattle.suite.specs.Steps.{coming, going, lists_answer, Roomy};

use difference::two::TwoPlans;
use faults::suite::SuiteFault;
use groups::group::Group;
use registers::register::Register;

// The groups that come up and those that lapse, both ascending.
#[derive(Clone, Copy)]
pub(crate) struct Found<'a> {
    pub(crate) coming: &'a [Group],
    pub(crate) going: &'a [Group],
}

// Looks for both in a table, the lapsed behind the new. Where the table has room for as many as the limits say, a refusal says that there are more.
pub(crate) fn find_groups<'a>(
    plans: &TwoPlans,
    table: &'a mut [Group],
    new_limit: usize,
    lapsed_limit: usize,
) -> Result<Found<'a>, SuiteFault>
    ensures answer { Roomy (length table.old) new_limit lapsed_limit → told_as (λ f. (length f.coming.now, length f.going.now)) suite_cause result ≡ lists_answer new_limit lapsed_limit (coming plans.now) (going plans.now) }
    ensures found { IfOk result (λ f. (Ok (length f.coming.now, length f.going.now) ≡ lists_answer new_limit lapsed_limit (coming plans.now) (going plans.now)) × (f.coming.now ≡ coming plans.now) × (f.going.now ≡ going plans.now)) }
{
    let middle = plans
        .new_groups(table, 0, new_limit)
        .ok_or(SuiteFault::NewExceed)?;
    let end = plans
        .lapsed_groups(table, middle, lapsed_limit)
        .ok_or(SuiteFault::LapsedExceed)?;
    Ok(Found {
        coming: &table[..middle],
        going: &table[middle..end],
    })
}

// Writes the groups over the start of the list.
pub(crate) fn copy_over(groups: &[Group], list: &mut [Group])
    requires { length groups.now ≤ length list.old }
    ensures { list.new ≡ over groups.now list.old }
{
    list[..groups.len()].copy_from_slice(groups);
}

fn all_held<R: Register>(register: &R, groups: &[Group]) -> bool
    ensures { result ≡ all_held groups.now (R.Register.held register.now) }
{
    groups.iter().all(|group| register.holds(*group))
}

fn some_held<R: Register>(register: &R, groups: &[Group]) -> bool
    ensures { result ≡ some_are_held groups.now (R.Register.held register.now) }
{
    groups.iter().any(|group| register.holds(*group))
}

// Whether a lapsed group is not held, or a new one is.
pub(crate) fn is_out_of_step<R: Register>(register: &R, found: Found) -> bool
    ensures { result ≡ out_of_step found.entry.coming.now found.entry.going.now (R.Register.held register.now) }
{
    !all_held(register, found.going) || some_held(register, found.coming)
}
