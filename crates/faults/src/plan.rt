// Why a plan does not take a pair, or does not let one go: it is outside the plan's sizes, it stands, there is no spare
// place, or it does not stand.
ghost use Rattle.std.specs.Prelude.{◌≡◌};
ghost use Rattle.faults.specs.Faults.{plan_cause};

use crate::cause::Cause;

#[derive(Clone, Copy, PartialEq, Eq, Debug)]
pub enum PlanFault {
    Outside,
    Stands,
    NoSpare,
    Absent,
}

impl PlanFault {
    pub fn cause(&self) -> Cause
        ensures { result ≡ plan_cause self.now }
    {
        let number = match self {
            PlanFault::Outside => 3,
            PlanFault::Stands => 4,
            PlanFault::NoSpare => 5,
            PlanFault::Absent => 6,
        };
        Cause {
            number,
            value: None,
        }
    }
}
