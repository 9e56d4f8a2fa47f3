// What the registers in lent memory have in common: a record has a place among those held, and only how it is put in there or
// taken out is the make's own. What each make still says for itself of `Register` is a line for each method.
ghost use Rattle.std.specs.Prelude.{◌≡◌, ℕ, ◌-◌, ◌<◌, Bool, true, List, is_ok, Ok, Err, if◌then◌else◌};
ghost use Rattle.faults.specs.Causes.{told};
ghost use Rattle.faults.specs.Faults.{register_cause};
ghost use Rattle.groups.specs.declared.group.Group.{Group};
ghost use Rattle.groups.specs.Orders.{group_before};
ghost use Rattle.table.specs.Sets.{placed, entered, struck};
ghost use Rattle.registers.specs.Meaning.{enter_answer, strike_answer, spare_struck};

use faults::register::RegisterFault;
use groups::group::Group;

pub(crate) trait Places {
    ghost held: { Self → List Group };

    ghost spare: { Self → ℕ };

    ghost spends: { Bool };

    // How many places are left.
    fn room(&self) -> usize
        ensures { result ≡ spare self.now };

    // Whether to remove a record takes a spare place. If not, it gives one back.
    fn remove_spends(&self) -> bool
        ensures { result ≡ spends };

    // Where the record stands among those held, or where it would go.
    fn find(&self, record: Group) -> Result<usize, usize>
        ensures { result ≡ placed group_before «record» (held self.now) };

    // Puts a record that is not held in at its place.
    fn insert(&mut self, at: usize, record: Group)
        requires room { 0 < spare self.old }
        requires place { placed group_before «record» (held self.old) ≡ Err at }
        ensures held { held self.new ≡ entered group_before «record» (held self.old) }
        ensures spare { spare self.new ≡ spare self.old - 1 };

    // Takes the record, which stands at the place, out.
    fn remove(&mut self, at: usize, record: Group)
        requires room { spends ≡ true → 0 < spare self.old }
        requires place { placed group_before «record» (held self.old) ≡ Ok at }
        ensures held { held self.new ≡ struck group_before «record» (held self.old) }
        ensures spare { spare self.new ≡ spare_struck spends (spare self.old) };
}

// Puts the record in, if it is not held and a place is spare.
pub(crate) fn enter<P: Places>(places: &mut P, record: Group) -> Result<(), RegisterFault>
    ensures answer { told register_cause result ≡ enter_answer (P.held places.old) (P.spare places.old) «record» }
    ensures held { P.held places.new ≡ (if is_ok result then entered group_before «record» (P.held places.old) else P.held places.old) }
    ensures spare { P.spare places.new ≡ (if is_ok result then P.spare places.old - 1 else P.spare places.old) }
{
    let Err(at) = places.find(record) else {
        return Err(RegisterFault::Held);
    };
    if places.room() == 0 {
        return Err(RegisterFault::NoSpare);
    }
    places.insert(at, record);
    Ok(())
}

// Takes the record out, if it is held and, where that takes a place, one is spare.
pub(crate) fn strike<P: Places>(places: &mut P, record: Group) -> Result<(), RegisterFault>
    ensures answer { told register_cause result ≡ strike_answer P.spends (P.held places.old) (P.spare places.old) «record» }
    ensures held { P.held places.new ≡ (if is_ok result then struck group_before «record» (P.held places.old) else P.held places.old) }
    ensures spare { P.spare places.new ≡ (if is_ok result then spare_struck P.spends (P.spare places.old) else P.spare places.old) }
{
    let Ok(at) = places.find(record) else {
        return Err(RegisterFault::NotHeld);
    };
    if places.remove_spends() && places.room() == 0 {
        return Err(RegisterFault::NoSpare);
    }
    places.remove(at, record);
    Ok(())
}
