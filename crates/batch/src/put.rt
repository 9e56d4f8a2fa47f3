// Putting a change into a draft.
ghost use Rattle.std.specs.Prelude.{◌≡◌, is_ok, if◌then◌else◌, Ok, Err};
ghost use Rattle.faults.specs.Causes.{told, bare};
ghost use Rattle.faults.specs.Faults.{number_cause, draft_cause};
ghost use Rattle.pairs.specs.Orders.{change_before};
ghost use Rattle.table.specs.Sets.{entered};
ghost use Rattle.batch.specs.Changes.{in_range, capacity_of, filled, put_answer};
ghost use Rattle.batch.specs.Drafts.{changes, memory_of};

use crate::lent::Draft;
use faults::draft::DraftFault;
use faults::number::NumberFault;
use numbers::number::{DoorNo, KeyNo};
use pairs::change::Change;

// Both numbers of the change are 0 to 63.
fn check_numbers(change: Change) -> Result<(), NumberFault>
    ensures { told number_cause result ≡ (if in_range change then Ok tt else Err (bare 1)) }
{
    let _ = KeyNo::try_from(change.key)?;
    let _ = DoorNo::try_from(change.door)?;
    Ok(())
}

impl<'a> Draft<'a> {
    // The change at its place, or a refusal that leaves the draft as it was.
    pub fn put(&mut self, change: Change) -> Result<(), DraftFault>
        ensures answer { told draft_cause result ≡ put_answer (changes self.old) (capacity_of (memory_of self.old)) change }
        ensures changes { changes self.new ≡ (if is_ok result then entered change_before change (changes self.old) else changes self.old) }
        ensures memory { memory_of self.new ≡ filled (changes self.new) (memory_of self.old) }
        ensures same { self.new.rows.memory.ghost_name ≡ self.old.rows.memory.ghost_name }
    {
        check_numbers(change)?;
        match self.rows.find(change) {
            Ok(index) => Err(DraftFault::Held { index }),
            Err(at) => {
                let capacity = self.capacity();
                if self.count() >= capacity {
                    return Err(DraftFault::Full { capacity });
                }
                self.rows.insert(at, change);
                Ok(())
            }
        }
    }
}
