//! What went wrong while a command ran.
use crate::fault_kind::FaultKind;
use raster::RasterFault;
use run_tables::{CodeFault, CodeFaultKind};
use std::alloc::AllocError;
use std::error::Error;
use std::{fmt, io};

/// A fault of data, files or memory, as the fault line shows it. `kind` gives its name.
#[derive(Clone, Copy, Debug, PartialEq, Eq)]
pub enum ToolFault {
    /// A fault with this number, without a place.
    No(u8),
    /// A fault with this number, at a bit of the input.
    AtBit {
        /// The fault's number.
        no: u8,
        /// The bit, counted from 0 at the first bit of the input.
        place: u128,
    },
    /// The fault of a script, `BadLine` (30), at this line, counted from 1.
    AtLine(u64),
}

/// `Io` (8): a reader, a writer or a file failed.
pub const FAILED: ToolFault = ToolFault::No(8);

/// `TooManyOctets` (32): a file has more octets than are read of such a file.
pub const TOO_MANY_OCTETS: ToolFault = ToolFault::No(32);

/// `NoMemory` (9): memory was refused.
pub const NO_MEMORY: ToolFault = ToolFault::No(9);

impl ToolFault {
    ghost use Rattle.std.specs.Prelude.{◌≡◌};
    ghost use Rattle.faults.specs.FaultKinds.{kind_of};

    /// Returns the kind of the fault, by its number and its place. If no fault has the number: `Unknown`, or `UnknownAtBit` at a bit.
    pub fn kind(self) -> FaultKind
        ensures { result ≡ kind_of self }
    {
        match self {
            ToolFault::No(no) => FaultKind::of_whole(no),
            ToolFault::AtBit { no, place: _ } => FaultKind::of_page(no),
            ToolFault::AtLine(_) => FaultKind::BadLine,
        }
    }
}

impl fmt::Display for ToolFault {
    ghost use Rattle.std.specs.Prelude.{Some};
    ghost use Rattle.faults.specs.Faults.{fault_text};

    ghost output = { λ fault. Some (fault_text fault) };

    fn fmt<W: fmt::Write>(&self, f: &mut fmt::Formatter<W>) -> fmt::Result {
        match self {
            ToolFault::No(no) => write!(f, "fault {no}"),
            ToolFault::AtBit { no, place } => write!(f, "fault {no} at bit {place}"),
            ToolFault::AtLine(line) => write!(f, "fault 30 at line {line}"),
        }
    }
}

impl Error for ToolFault {}

impl From<RasterFault> for ToolFault {
    ghost use Rattle.std.specs.Prelude.{◌≡◌};
    ghost use Rattle.raster.specs.Faults.{number_of};
    ghost use Rattle.faults.specs.declared.fault.ToolFault.TheVariants.{No};

    ghost from_gives = { λ fault tool_fault. tool_fault ≡ No (number_of fault) };

    fn from(fault: RasterFault) -> ToolFault {
        ToolFault::No(fault.number())
    }
}

impl From<CodeFault> for ToolFault {
    ghost use Rattle.std.specs.Prelude.{◌≡◌};
    ghost use Rattle.faults.specs.Faults.{fault_of_code};

    ghost from_gives = { λ fault tool_fault. tool_fault ≡ fault_of_code fault };

    fn from(fault: CodeFault) -> ToolFault {
        match fault.kind {
            CodeFaultKind::NoMemory => NO_MEMORY,
            kind => ToolFault::AtBit {
                no: kind.number(),
                place: fault.place,
            },
        }
    }
}

impl From<AllocError> for ToolFault {
    ghost use Rattle.std.specs.Prelude.{◌≡◌};
    ghost use Rattle.faults.specs.declared.fault.ToolFault.TheVariants.{No};

    ghost from_gives = { λ _ fault. fault ≡ No 9 };

    fn from(_error: AllocError) -> ToolFault {
        NO_MEMORY
    }
}

impl From<io::Error> for ToolFault {
    ghost use Rattle.std.specs.Prelude.{◌≡◌};
    ghost use Rattle.std.specs.IoError.{error_kind};
    ghost use Rattle.faults.specs.Faults.{IsOutside, fault_of_io};

    ghost from_gives = { λ error fault. (fault ≡ fault_of_io (error_kind error)) × IsOutside fault };

    fn from(error: io::Error) -> ToolFault {
        match error.kind() {
            io::ErrorKind::OutOfMemory => NO_MEMORY,
            _ => FAILED,
        }
    }
}
