// What the makes of a plan have in common: a pair has a place where it stands or would go, and only what is written there is the
// make's own. That a pair lies within the sizes is a clause of three methods and no type: it would hold sizes, and each clause would
// still have to say that they are the plan's.
ghost use Rattle.std.specs.Prelude.{◌≡◌, ℕ, ◌+◌, ◌-◌, ◌<◌, true, false, is_ok, Ok, Err, Result, MatchOption, if◌then◌else◌};
ghost use Rattle.faults.specs.Causes.{told};
ghost use Rattle.faults.specs.Faults.{plan_cause};
ghost use Rattle.groups.specs.Lists.{addition, removal, permitted, withdrawn};
ghost use Rattle.numbers.specs.Numbers.{key_number, door_number};
ghost use Rattle.pairs.specs.declared.pair.Pair.{Pair};
ghost use Rattle.plans.specs.Meaning.{inside, stands, permit_answer, withdraw_answer};

use crate::plan::ReadPlan;
use faults::plan::PlanFault;
use numbers::number::{DoorNo, KeyNo};
use pairs::pair::Pair;

pub(crate) trait Places: ReadPlan {
    type Place: Copy;

    // where a pair stands, or where it would go
    ghost place: { Self → Pair → Result Self.Place Self.Place };

    ghost spare: { Self → ℕ };

    // For how many more pairs there is a place.
    fn room(&self) -> usize
        ensures { result ≡ spare self.now };

    // Where a pair within the sizes stands, or where it would go.
    fn find(&self, pair: Pair) -> Result<Self::Place, Self::Place>
        requires { inside (Self.ReadPlan.keys self.now) (Self.ReadPlan.doors self.now) pair.key pair.door ≡ true }
        ensures place { result ≡ place self.now pair }
        ensures stands { is_ok result ≡ stands (Self.ReadPlan.rows self.now) pair.key pair.door };

    // Writes a pair that does not stand at its place.
    fn insert(&mut self, at: Self::Place, pair: Pair)
        requires inside { inside (Self.ReadPlan.keys self.old) (Self.ReadPlan.doors self.old) pair.key pair.door ≡ true }
        requires room { 0 < spare self.old }
        requires place { place self.old pair ≡ Err at }
        ensures keys { Self.ReadPlan.keys self.new ≡ Self.ReadPlan.keys self.old }
        ensures doors { Self.ReadPlan.doors self.new ≡ Self.ReadPlan.doors self.old }
        ensures rows { Self.ReadPlan.rows self.new ≡ permitted (addition pair.key pair.door) (Self.ReadPlan.rows self.old) }
        ensures spare { spare self.new ≡ spare self.old - 1 };

    // Takes the pair, which stands at the place, out.
    fn remove(&mut self, at: Self::Place, pair: Pair)
        requires inside { inside (Self.ReadPlan.keys self.old) (Self.ReadPlan.doors self.old) pair.key pair.door ≡ true }
        requires place { place self.old pair ≡ Ok at }
        ensures keys { Self.ReadPlan.keys self.new ≡ Self.ReadPlan.keys self.old }
        ensures doors { Self.ReadPlan.doors self.new ≡ Self.ReadPlan.doors self.old }
        ensures rows { Self.ReadPlan.rows self.new ≡ withdrawn (removal pair.key pair.door) (Self.ReadPlan.rows self.old) }
        ensures spare { spare self.new ≡ spare self.old + 1 };
}

// The pair of the two numbers, if the plan has the key and the door.
fn pair_inside<P: ReadPlan>(plan: &P, key: KeyNo, door: DoorNo) -> Option<Pair>
    ensures { MatchOption result (inside (P.keys plan.now) (P.doors plan.now) (key_number key) (door_number door) ≡ false) (λ pair. (pair.key ≡ key_number key) × (pair.door ≡ door_number door) × (inside (P.keys plan.now) (P.doors plan.now) pair.key pair.door ≡ true)) }
{
    let pair = Pair {
        key: u8::from(key),
        door: u8::from(door),
    };
    if pair.key < plan.keys() && pair.door < plan.doors() {
        Some(pair)
    } else {
        None
    }
}

// Puts the pair in, if it lies within the sizes, does not stand, and has a place.
pub(crate) fn permit<P: Places>(plan: &mut P, key: KeyNo, door: DoorNo) -> Result<(), PlanFault>
    ensures answer { told plan_cause result ≡ permit_answer (P.ReadPlan.keys plan.old) (P.ReadPlan.doors plan.old) (P.ReadPlan.rows plan.old) (P.spare plan.old) (key_number key) (door_number door) }
    ensures keys { P.ReadPlan.keys plan.new ≡ P.ReadPlan.keys plan.old }
    ensures doors { P.ReadPlan.doors plan.new ≡ P.ReadPlan.doors plan.old }
    ensures rows { P.ReadPlan.rows plan.new ≡ (if is_ok result then permitted (addition (key_number key) (door_number door)) (P.ReadPlan.rows plan.old) else P.ReadPlan.rows plan.old) }
    ensures spare { P.spare plan.new ≡ (if is_ok result then P.spare plan.old - 1 else P.spare plan.old) }
{
    let Some(pair) = pair_inside(plan, key, door) else {
        return Err(PlanFault::Outside);
    };
    let Err(at) = plan.find(pair) else {
        return Err(PlanFault::Stands);
    };
    if plan.room() == 0 {
        return Err(PlanFault::NoSpare);
    }
    plan.insert(at, pair);
    Ok(())
}

// Takes the pair out, if it lies within the sizes and stands.
pub(crate) fn withdraw<P: Places>(plan: &mut P, key: KeyNo, door: DoorNo) -> Result<(), PlanFault>
    ensures answer { told plan_cause result ≡ withdraw_answer (P.ReadPlan.keys plan.old) (P.ReadPlan.doors plan.old) (P.ReadPlan.rows plan.old) (key_number key) (door_number door) }
    ensures keys { P.ReadPlan.keys plan.new ≡ P.ReadPlan.keys plan.old }
    ensures doors { P.ReadPlan.doors plan.new ≡ P.ReadPlan.doors plan.old }
    ensures rows { P.ReadPlan.rows plan.new ≡ (if is_ok result then withdrawn (removal (key_number key) (door_number door)) (P.ReadPlan.rows plan.old) else P.ReadPlan.rows plan.old) }
    ensures spare { P.spare plan.new ≡ (if is_ok result then P.spare plan.old + 1 else P.spare plan.old) }
{
    let Some(pair) = pair_inside(plan, key, door) else {
        return Err(PlanFault::Outside);
    };
    let Ok(at) = plan.find(pair) else {
        return Err(PlanFault::Absent);
    };
    plan.remove(at, pair);
    Ok(())
}
