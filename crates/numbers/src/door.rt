// Making a door number from a byte, and the byte of a door number.
ghost use Rattle.std.specs.Prelude.{◌≡◌, ◌<◌};
ghost use Rattle.faults.specs.Causes.{told_as};
ghost use Rattle.faults.specs.Faults.{number_cause};
ghost use Rattle.numbers.specs.Numbers.{number_answer, door_number};

use crate::number::DoorNo;
use faults::number::NumberFault;

impl TryFrom<u8> for DoorNo {
    type Error = NumberFault;

    ghost try_from_gives = { λ value r. told_as door_number number_cause r ≡ number_answer value };

    fn try_from(value: u8) -> Result<DoorNo, NumberFault> {
        if value < 64 {
            Ok(DoorNo { value })
        } else {
            Err(NumberFault::TooHigh)
        }
    }
}

impl From<DoorNo> for u8 {
    ghost from_gives = { λ door r. (r ≡ door_number door) × (r < 64) };

    fn from(door: DoorNo) -> u8 {
        door.value
    }
}
