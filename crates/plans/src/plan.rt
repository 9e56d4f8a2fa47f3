// What a plan answers and how it changes, whatever it is made of.
ghost use Rattle.std.specs.Prelude.{◌≡◌, ℕ, ◌+◌, ◌-◌, ◌≤◌, List, is_ok, if◌then◌else◌};
ghost use Rattle.faults.specs.Causes.{told};
ghost use Rattle.faults.specs.Faults.{plan_cause};
ghost use Rattle.groups.specs.Lists.{addition, removal, permitted, withdrawn};
ghost use Rattle.numbers.specs.Numbers.{key_number, door_number};
ghost use Rattle.plans.specs.Meaning.{Sound, doors_opened, keys_opening, permit_answer, withdraw_answer};

use faults::plan::PlanFault;
use numbers::number::{DoorNo, KeyNo};

pub trait ReadPlan {
    ghost keys: { Self → ℕ };

    ghost doors: { Self → ℕ };

    // for each key the set of the doors that it opens
    ghost rows: { Self → List ℕ };

    ghost sound: { (x : Self) → Sound (keys x) (doors x) (rows x) };

    // How many keys there are.
    fn keys(&self) -> u8
        ensures { result ≡ keys self.now };

    // How many doors there are.
    fn doors(&self) -> u8
        ensures { result ≡ doors self.now };

    // The doors that the key opens, as a mask. A key outside the plan opens none.
    fn doors_of(&self, key: KeyNo) -> u64
        ensures { result ≡ doors_opened (rows self.now) (key_number key) };

    // The keys that open the door, as a mask. A door outside the plan is opened by none.
    fn keys_of(&self, door: DoorNo) -> u64
        ensures { result ≡ keys_opening (rows self.now) (doors self.now) (door_number door) };
}

// A refusal leaves the plan as it was.
pub trait ChangePlan: ReadPlan {
    ghost spare: { Self → ℕ };

    ghost few: { (x : Self) → spare x ≤ 4096 };

    // For how many more pairs there is a place.
    fn spare(&self) -> usize
        ensures { result ≡ spare self.now };

    // From now on the key opens the door.
    fn permit(&mut self, key: KeyNo, door: DoorNo) -> Result<(), PlanFault>
        ensures answer { told plan_cause result ≡ permit_answer (Self.ReadPlan.keys self.old) (Self.ReadPlan.doors self.old) (Self.ReadPlan.rows self.old) (spare self.old) (key_number key) (door_number door) }
        ensures keys { Self.ReadPlan.keys self.new ≡ Self.ReadPlan.keys self.old }
        ensures doors { Self.ReadPlan.doors self.new ≡ Self.ReadPlan.doors self.old }
        ensures rows { Self.ReadPlan.rows self.new ≡ (if is_ok result then permitted (addition (key_number key) (door_number door)) (Self.ReadPlan.rows self.old) else Self.ReadPlan.rows self.old) }
        ensures spare { spare self.new ≡ (if is_ok result then spare self.old - 1 else spare self.old) };

    // From now on the key does not open the door.
    fn withdraw(&mut self, key: KeyNo, door: DoorNo) -> Result<(), PlanFault>
        ensures answer { told plan_cause result ≡ withdraw_answer (Self.ReadPlan.keys self.old) (Self.ReadPlan.doors self.old) (Self.ReadPlan.rows self.old) (key_number key) (door_number door) }
        ensures keys { Self.ReadPlan.keys self.new ≡ Self.ReadPlan.keys self.old }
        ensures doors { Self.ReadPlan.doors self.new ≡ Self.ReadPlan.doors self.old }
        ensures rows { Self.ReadPlan.rows self.new ≡ (if is_ok result then withdrawn (removal (key_number key) (door_number door)) (Self.ReadPlan.rows self.old) else Self.ReadPlan.rows self.old) }
        ensures spare { spare self.new ≡ (if is_ok result then spare self.old + 1 else spare self.old) };
}
