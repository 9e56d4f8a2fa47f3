// Making a key number from a byte, and the byte of a key number.
ghost use Rattle.std.specs.Prelude.{◌≡◌, ◌<◌};
ghost use Rattle.faults.specs.Causes.{told_as};
ghost use Rattle.faults.specs.Faults.{number_cause};
ghost use Rattle.numbers.specs.Numbers.{number_answer, key_number};

use crate::number::KeyNo;
use faults::number::NumberFault;

impl TryFrom<u8> for KeyNo {
    type Error = NumberFault;

    ghost try_from_gives = { λ value r. told_as key_number number_cause r ≡ number_answer value };

    fn try_from(value: u8) -> Result<KeyNo, NumberFault> {
        if value < 64 {
            Ok(KeyNo { value })
        } else {
            Err(NumberFault::TooHigh)
        }
    }
}

impl From<KeyNo> for u8 {
    ghost from_gives = { λ key r. (r ≡ key_number key) × (r < 64) };

    fn from(key: KeyNo) -> u8 {
        key.value
    }
}
