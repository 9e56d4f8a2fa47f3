// Making sizes from two bytes, and the two bytes of sizes.
ghost use Rattle.std.specs.Prelude.{◌≡◌, ◌≤◌};
ghost use Rattle.faults.specs.Causes.{told_as};
ghost use Rattle.faults.specs.Faults.{size_cause};
ghost use Rattle.numbers.specs.Numbers.{sizes_answer, sizes_of};

use crate::number::Sizes;
use faults::number::SizeFault;

impl Sizes {
    pub fn new(keys: u8, doors: u8) -> Result<Sizes, SizeFault>
        ensures { told_as sizes_of size_cause result ≡ sizes_answer keys doors }
    {
        if 1 <= keys && keys <= 64 && 1 <= doors && doors <= 64 {
            Ok(Sizes { keys, doors })
        } else {
            Err(SizeFault::Outside)
        }
    }

    pub fn keys(self) -> u8
        ensures value { result ≡ (sizes_of self).0 }
        ensures bound { (1 ≤ result) × (result ≤ 64) }
    {
        self.keys
    }

    pub fn doors(self) -> u8
        ensures value { result ≡ (sizes_of self).1 }
        ensures bound { (1 ≤ result) × (result ≤ 64) }
    {
        self.doors
    }
}
