// The causes by which a batch is turned down before any group is looked for. Rows and number of doors are two parameters here and below: they
// go into the search's tables at once, and no type between would say more.
ghost use Rattle.std.specs.Prelude.{◌≡◌, ◌+◌, ◌≤◌, length, Ok};
ghost use Rattle.faults.specs.Causes.{told};
ghost use Rattle.faults.specs.Faults.{suite_cause};
ghost use Rattle.ledger.specs.Ledger.{additions, removals, change_fault, changes_fault, unless};

use faults::suite::SuiteFault;
use masks::has;
use pairs::change::Change;

// The change at the index: 14 outside the plan, 15 where it adds a pair that stands, 16 where it removes one that does not.
fn check_change(doors: u8, rows: &[u64], index: usize, change: Change) -> Result<(), SuiteFault>
    ensures { told suite_cause result ≡ unless (change_fault (length rows.now) doors rows.now index change) (Ok tt) }
{
    let key = change.key as usize;
    if key >= rows.len() || change.door >= doors {
        return Err(SuiteFault::Outside { index });
    }
    let stands = has(rows[key], change.door);
    if change.added && stands {
        return Err(SuiteFault::Stands { index });
    }
    if !change.added && !stands {
        return Err(SuiteFault::Absent { index });
    }
    Ok(())
}

// The first faulty change decides.
pub(crate) fn check_changes(doors: u8, rows: &[u64], changes: &[Change]) -> Result<(), SuiteFault>
    ensures { told suite_cause result ≡ unless (changes_fault (length rows.now) doors rows.now 0 changes.now) (Ok tt) }
{
    for (index, change) in changes.iter().enumerate() {
        check_change(doors, rows, index, *change)?;
    }
    Ok(())
}

// How many changes add a pair.
pub(crate) fn count_additions(changes: &[Change]) -> usize
    ensures adds { result ≡ additions changes.now }
    ensures all { result + removals changes.now ≡ length changes.now }
{
    changes.iter().filter(|change| change.added).count()
}
