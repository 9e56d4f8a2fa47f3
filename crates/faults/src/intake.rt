// Why intake does not book a file: the fault of the layer that refused it, whole.
ghost use Rattle.std.specs.Prelude.{◌≡◌};
ghost use Rattle.faults.specs.declared.intake.IntakeFault.TheVariants.{File, Draft, Suite};
ghost use Rattle.faults.specs.Faults.{intake_cause, intake_layer};

use crate::cause::Cause;
use crate::draft::DraftFault;
use crate::suite::SuiteFault;
use crate::weekly::FileFault;

// A file is read into a draft, which is closed and booked: each of these is a layer.
#[derive(Clone, Copy, PartialEq, Eq, Debug)]
pub enum Layer {
    File,
    Draft,
    Suite,
}

#[derive(Clone, Copy, PartialEq, Eq, Debug)]
pub enum IntakeFault {
    File(FileFault),
    Draft(DraftFault),
    Suite(SuiteFault),
}

impl From<FileFault> for IntakeFault {
    ghost from_gives = { λ fault r. r ≡ File fault };

    fn from(fault: FileFault) -> IntakeFault {
        IntakeFault::File(fault)
    }
}

impl From<DraftFault> for IntakeFault {
    ghost from_gives = { λ fault r. r ≡ Draft fault };

    fn from(fault: DraftFault) -> IntakeFault {
        IntakeFault::Draft(fault)
    }
}

impl From<SuiteFault> for IntakeFault {
    ghost from_gives = { λ fault r. r ≡ Suite fault };

    fn from(fault: SuiteFault) -> IntakeFault {
        IntakeFault::Suite(fault)
    }
}

impl IntakeFault {
    pub fn cause(&self) -> Cause
        ensures { result ≡ intake_cause self.now }
    {
        match self {
            IntakeFault::File(fault) => fault.cause(),
            IntakeFault::Draft(fault) => fault.cause(),
            IntakeFault::Suite(fault) => fault.cause(),
        }
    }

    pub fn layer(&self) -> Layer
        ensures { result ≡ intake_layer self.now }
    {
        match self {
            IntakeFault::File(_) => Layer::File,
            IntakeFault::Draft(_) => Layer::Draft,
            IntakeFault::Suite(_) => Layer::Suite,
        }
    }
}
