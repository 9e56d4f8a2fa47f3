// The rows of a plan as a plain table, and a batch carried out on them: removals and additions in a loop each, as the plan itself
// is changed. That all changes are in range is a clause of three functions here and no type: one would be made and taken apart for each booking once.
ghost use Rattle.std.specs.Prelude.{◌≡◌, ◌<◌, ◌≤◌, true, length, take};
ghost use Rattle.batch.specs.Changes.{in_range};
ghost use Rattle.groups.specs.Lists.{withdrawn, permitted, removals_out, additions_in, carried_out};
ghost use Rattle.suite.specs.Steps.{all_in_range};

use masks::{with, without};
use numbers::number::KeyNo;
use pairs::change::Change;
use plans::plan::ReadPlan;

// The row of each key of the plan, in a table of 64, which the caller cuts to the number of keys: by the number of the key, from which the
// key is made.
pub(crate) fn rows_of<P: ReadPlan>(plan: &P) -> [u64; 64]
    ensures long { length result ≡ 64 }
    ensures rows { take (P.ReadPlan.keys plan.now) result ≡ P.ReadPlan.rows plan.now }
{
    let mut rows = [0; 64];
    let keys = plan.keys();
    for key in 0..keys {
        if let Ok(number) = KeyNo::try_from(key) {
            rows[key as usize] = plan.doors_of(number);
        }
    }
    rows
}

// Takes the change's pair out of the rows.
fn withdraw(rows: &mut [u64], change: Change)
    ensures { rows.new ≡ withdrawn change rows.old }
{
    let key = change.key as usize;
    if key < rows.len() {
        rows[key] = without(rows[key], change.door);
    }
}

// Puts the change's pair into the rows.
fn permit(rows: &mut [u64], change: Change)
    requires { in_range change ≡ true }
    ensures { rows.new ≡ permitted change rows.old }
{
    let key = change.key as usize;
    if key < rows.len() {
        if let Some(row) = with(rows[key], change.door) {
            rows[key] = row;
        }
    }
}

fn remove_pairs(rows: &mut [u64], changes: &[Change])
    ensures { rows.new ≡ removals_out changes.now rows.old }
{
    for change in changes {
        if !change.added {
            withdraw(rows, *change);
        }
    }
}

fn add_pairs(rows: &mut [u64], changes: &[Change])
    requires { all_in_range changes.now ≡ true }
    ensures { rows.new ≡ additions_in changes.now rows.old }
{
    for change in changes {
        if change.added {
            permit(rows, *change);
        }
    }
}

// Carries the batch out on the rows: first the removals, then the additions.
pub(crate) fn carry_out(rows: &mut [u64], changes: &[Change])
    requires { all_in_range changes.now ≡ true }
    ensures { rows.new ≡ carried_out changes.now rows.old }
{
    remove_pairs(rows, changes);
    add_pairs(rows, changes);
}
