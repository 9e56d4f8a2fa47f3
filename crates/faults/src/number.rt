// A key or door number above 63, and a size outside 1 to 64.
ghost use Rattle.std.specs.Prelude.{◌≡◌};
ghost use Rattle.faults.specs.Faults.{number_cause, size_cause};

use crate::cause::Cause;

#[derive(Clone, Copy, PartialEq, Eq, Debug)]
pub enum NumberFault {
    TooHigh,
}

#[derive(Clone, Copy, PartialEq, Eq, Debug)]
pub enum SizeFault {
    Outside,
}

impl NumberFault {
    pub fn cause(&self) -> Cause
        ensures { result ≡ number_cause self.now }
    {
        match self {
            NumberFault::TooHigh => Cause {
                number: 1,
                value: None,
            },
        }
    }
}

impl SizeFault {
    pub fn cause(&self) -> Cause
        ensures { result ≡ size_cause self.now }
    {
        match self {
            SizeFault::Outside => Cause {
                number: 2,
                value: None,
            },
        }
    }
}
