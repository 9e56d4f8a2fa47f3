// Why a change is not put into a draft.
ghost use Rattle.std.specs.Prelude.{◌≡◌};
ghost use Rattle.faults.specs.Faults.{draft_cause};
ghost use Rattle.faults.specs.declared.draft.DraftFault.TheVariants.{Number};

use crate::cause::Cause;
use crate::number::NumberFault;

#[derive(Clone, Copy, PartialEq, Eq, Debug)]
pub enum DraftFault {
    Number(NumberFault),
    Held { index: usize },
    Full { capacity: usize },
}

impl From<NumberFault> for DraftFault {
    ghost from_gives = { λ fault r. r ≡ Number fault };

    fn from(fault: NumberFault) -> DraftFault {
        DraftFault::Number(fault)
    }
}

impl DraftFault {
    pub fn cause(&self) -> Cause
        ensures { result ≡ draft_cause self.now }
    {
        match self {
            DraftFault::Number(fault) => fault.cause(),
            DraftFault::Held { index } => Cause {
                number: 10,
                value: Some(*index),
            },
            DraftFault::Full { capacity } => Cause {
                number: 11,
                value: Some(*capacity),
            },
        }
    }
}
