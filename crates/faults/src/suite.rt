// Why a suite is not founded, and why changes are not booked.
ghost use Rattle.std.specs.Prelude.{◌≡◌};
ghost use Rattle.faults.specs.declared.suite.BookingFault.TheVariants.{Draft, Suite};
ghost use Rattle.faults.specs.Faults.{suite_cause, booking_cause};

use crate::cause::Cause;
use crate::draft::DraftFault;

// An index is that of a change in ascending order.
#[derive(Clone, Copy, PartialEq, Eq, Debug)]
pub enum SuiteFault {
    NotEmpty,
    TooFewPlaces,
    Outside { index: usize },
    Stands { index: usize },
    Absent { index: usize },
    PlanFull,
    NewExceed,
    LapsedExceed,
    OutOfStep,
}

// Why changes are not put into a draft, closed and booked.
#[derive(Clone, Copy, PartialEq, Eq, Debug)]
pub enum BookingFault {
    Draft(DraftFault),
    Suite(SuiteFault),
}

impl From<DraftFault> for BookingFault {
    ghost from_gives = { λ fault r. r ≡ Draft fault };

    fn from(fault: DraftFault) -> BookingFault {
        BookingFault::Draft(fault)
    }
}

impl From<SuiteFault> for BookingFault {
    ghost from_gives = { λ fault r. r ≡ Suite fault };

    fn from(fault: SuiteFault) -> BookingFault {
        BookingFault::Suite(fault)
    }
}

impl SuiteFault {
    pub fn cause(&self) -> Cause
        ensures { result ≡ suite_cause self.now }
    {
        let (number, value) = match *self {
            SuiteFault::NotEmpty => (12, None),
            SuiteFault::TooFewPlaces => (13, None),
            SuiteFault::Outside { index } => (14, Some(index)),
            SuiteFault::Stands { index } => (15, Some(index)),
            SuiteFault::Absent { index } => (16, Some(index)),
            SuiteFault::PlanFull => (17, None),
            SuiteFault::NewExceed => (18, None),
            SuiteFault::LapsedExceed => (19, None),
            SuiteFault::OutOfStep => (20, None),
        };
        Cause { number, value }
    }
}

impl BookingFault {
    pub fn cause(&self) -> Cause
        ensures { result ≡ booking_cause self.now }
    {
        match self {
            BookingFault::Draft(fault) => fault.cause(),
            BookingFault::Suite(fault) => fault.cause(),
        }
    }
}
