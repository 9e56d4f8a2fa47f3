// Why a register does not take a record, or does not let one go: it is held, there is no spare place, or it is not held.
ghost use Rattle.std.specs.Prelude.{◌≡◌};
ghost use Rattle.faults.specs.Faults.{register_cause};

use crate::cause::Cause;

#[derive(Clone, Copy, PartialEq, Eq, Debug)]
pub enum RegisterFault {
    Held,
    NoSpare,
    NotHeld,
}

impl RegisterFault {
    pub fn cause(&self) -> Cause
        ensures { result ≡ register_cause self.now }
    {
        let number = match self {
            RegisterFault::Held => 7,
            RegisterFault::NoSpare => 8,
            RegisterFault::NotHeld => 9,
        };
        Cause {
            number,
            value: None,
        }
    }
}
