// Why a file is not read and why a batch is not written, and the cause of each in the table of causes.
ghost use Rattle.std.specs.Prelude.{◌≡◌};
ghost use Rattle.faults.specs.declared.weekly.ReadFault.TheVariants.{File, Draft};
ghost use Rattle.faults.specs.declared.weekly.ReceiptFault.TheVariants.{Read, Write};
ghost use Rattle.faults.specs.Faults.{file_cause, read_cause, write_cause, receipt_cause};

use crate::cause::Cause;
use crate::draft::DraftFault;

// What is wrong with a file. A place is the index of a byte of it: of an entry, of a note's byte, or of a pair.
#[derive(Clone, Copy, PartialEq, Eq, Debug)]
pub enum FileFault {
    Opening,
    Contents { place: usize },
    Length { length: usize },
    Body { place: usize },
    Both { place: usize },
}

// Why a file is not read into a draft.
#[derive(Clone, Copy, PartialEq, Eq, Debug)]
pub enum ReadFault {
    NotEmpty,
    File(FileFault),
    Draft(DraftFault),
}

// Why a batch and a note are not written.
#[derive(Clone, Copy, PartialEq, Eq, Debug)]
pub enum WriteFault {
    Note { place: usize },
    Short,
}

// Why a file is not read and written back.
#[derive(Clone, Copy, PartialEq, Eq, Debug)]
pub enum ReceiptFault {
    Read(ReadFault),
    Write(WriteFault),
}

impl From<FileFault> for ReadFault {
    ghost from_gives = { λ fault r. r ≡ File fault };

    fn from(fault: FileFault) -> ReadFault {
        ReadFault::File(fault)
    }
}

impl From<DraftFault> for ReadFault {
    ghost from_gives = { λ fault r. r ≡ Draft fault };

    fn from(fault: DraftFault) -> ReadFault {
        ReadFault::Draft(fault)
    }
}

impl From<ReadFault> for ReceiptFault {
    ghost from_gives = { λ fault r. r ≡ Read fault };

    fn from(fault: ReadFault) -> ReceiptFault {
        ReceiptFault::Read(fault)
    }
}

impl From<WriteFault> for ReceiptFault {
    ghost from_gives = { λ fault r. r ≡ Write fault };

    fn from(fault: WriteFault) -> ReceiptFault {
        ReceiptFault::Write(fault)
    }
}

impl FileFault {
    // The opening is at place 0.
    pub fn cause(&self) -> Cause
        ensures { result ≡ file_cause self.now }
    {
        let (number, value) = match *self {
            FileFault::Opening => (21, 0),
            FileFault::Contents { place } => (22, place),
            FileFault::Length { length } => (23, length),
            FileFault::Body { place } => (24, place),
            FileFault::Both { place } => (25, place),
        };
        Cause {
            number,
            value: Some(value),
        }
    }
}

impl ReadFault {
    pub fn cause(&self) -> Cause
        ensures { result ≡ read_cause self.now }
    {
        match self {
            ReadFault::NotEmpty => Cause {
                number: 26,
                value: None,
            },
            ReadFault::File(fault) => fault.cause(),
            ReadFault::Draft(fault) => fault.cause(),
        }
    }
}

impl WriteFault {
    pub fn cause(&self) -> Cause
        ensures { result ≡ write_cause self.now }
    {
        match *self {
            WriteFault::Note { place } => Cause {
                number: 27,
                value: Some(place),
            },
            WriteFault::Short => Cause {
                number: 28,
                value: None,
            },
        }
    }
}

impl ReceiptFault {
    pub fn cause(&self) -> Cause
        ensures { result ≡ receipt_cause self.now }
    {
        match self {
            ReceiptFault::Read(fault) => fault.cause(),
            ReceiptFault::Write(fault) => fault.cause(),
        }
    }
}
