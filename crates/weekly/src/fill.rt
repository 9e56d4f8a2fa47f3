// The changes of a body, put into a draft one after the other.
ghost use Rattle.std.specs.Prelude.{◌≡◌, true, false, ◌++◌};
ghost use Rattle.pairs.specs.Orders.{change_before};
ghost use Rattle.table.specs.Sets.{all_entered};
ghost use Rattle.batch.specs.Changes.{capacity_of, filled};
ghost use Rattle.batch.specs.Drafts.{changes, memory_of};
ghost use Rattle.weekly.specs.Marks.{marked, TakenAll};

use crate::body::Pairs;
use batch::lent::Draft;
use pairs::change::Change;
use pairs::pair::Pair;

// Puts the changes of a body into a draft that takes them all. Their mark is a `bool`, as in a change.
pub(crate) fn put_all(draft: &mut Draft, body: &[u8], added: bool)
    requires { TakenAll (marked added body.now) (changes draft.old) (capacity_of (memory_of draft.old)) }
    ensures changes { changes draft.new ≡ all_entered change_before (marked added body.now) (changes draft.old) }
    ensures memory { memory_of draft.new ≡ filled (changes draft.new) (memory_of draft.old) }
    ensures same { draft.new.rows.memory.ghost_name ≡ draft.old.rows.memory.ghost_name }
{
    for Pair { key, door } in Pairs(body) {
        let _ = draft.put(Change { key, door, added });
    }
}
