//! Refusals of coded bits: where, and why.

use std::alloc::{AllocError, AllocFailed};
use thiserror::Error;

/// Why coded bits were refused, or memory.
#[derive(Clone, Copy, Debug, PartialEq, Eq, Error)]
pub enum CodeFaultKind {
    /// No row comes before the page's end (fault 4).
    #[error("no row before the page's end")]
    NoRows,
    /// Memory was refused (fault 9).
    #[error("no memory")]
    NoMemory,
    /// No valid code begins at the bit (fault 10).
    #[error("no code that may stand there")]
    BadCode,
    /// The bits end inside a valid code, or before one (fault 11).
    #[error("the bits end inside a code")]
    Truncated,
    /// A run code takes a one-dimensional row past its width (fault 12).
    #[error("the run passes the row's width")]
    RunTooLong,
    /// A vertical mode doesn't move a0 to the right (fault 13; ITU-T T.6, 2.2).
    #[error("the mode doesn't move to the right")]
    Backwards,
    /// A mode or a run code moves past the width (fault 14).
    #[error("the mode passes the row's width")]
    PastEnd,
    /// A horizontal mode has two runs of 0 pixels (fault 15).
    #[error("the horizontal mode has no pixel")]
    EmptyHorizontal,
    /// An extension code, 0000001 (fault 16; ITU-T T.6, table 1).
    #[error("an extension code")]
    Extension,
    /// The bits end before EOFB, the end of the facsimile block (fault 17; ITU-T T.6, 2.4).
    #[error("the end of the facsimile block is missing")]
    MissingEofb,
    /// A 20,001st row begins (fault 18).
    #[error("more than 20000 coded rows")]
    TooManyCodedRows,
}

impl CodeFaultKind {
    ghost use Rattle.std.specs.Prelude.{◌≡◌};
    ghost use Rattle.run_tables.specs.Faults.{number_of};

    /// The fault's number in the list of all faults: 4, 9, or 10 to 18.
    pub fn number(self) -> u8
        ensures { result ≡ number_of self }
    {
        match self {
            CodeFaultKind::NoRows => 4,
            CodeFaultKind::NoMemory => 9,
            CodeFaultKind::BadCode => 10,
            CodeFaultKind::Truncated => 11,
            CodeFaultKind::RunTooLong => 12,
            CodeFaultKind::Backwards => 13,
            CodeFaultKind::PastEnd => 14,
            CodeFaultKind::EmptyHorizontal => 15,
            CodeFaultKind::Extension => 16,
            CodeFaultKind::MissingEofb => 17,
            CodeFaultKind::TooManyCodedRows => 18,
        }
    }
}

/// A refusal of coded bits: at which bit, and why.
#[derive(Clone, Copy, Debug, PartialEq, Eq, Error)]
#[error("{kind} at bit {place}")]
pub struct CodeFault {
    /// The bit, from 0, at which the refused code begins.
    pub place: u128,
    /// Why it was refused.
    pub kind: CodeFaultKind,
}

impl CodeFault {
    ghost use Rattle.std.specs.Prelude.{◌≡◌, ◌↔◌, IsTrue};
    ghost use Rattle.run_tables.specs.Faults.{BegunAt};

    /// A refusal at this bit, for this reason.
    pub fn new(place: u128, kind: CodeFaultKind) -> Self
        ensures { result ≡ record { place = place; kind = kind } }
    {
        CodeFault { place, kind }
    }

    /// Whether memory was refused, and not the bits.
    pub fn is_memory(self) -> bool
        ensures { IsTrue result ↔ (self.kind ≡ CodeFaultKind.NoMemory) }
    {
        self.kind == CodeFaultKind::NoMemory
    }

    /// The refusal that a call returns which began to read at bit `start`: `NoMemory` is put at that bit, any
    /// other refusal stays where it is.
    pub fn begun_at(self, start: u128) -> Self
        ensures { BegunAt start self result }
    {
        if self.is_memory() {
            CodeFault::new(start, CodeFaultKind::NoMemory)
        } else {
            self
        }
    }
}

impl From<AllocError> for CodeFault {
    ghost use Rattle.std.specs.Prelude.{◌≡◌};
    ghost use Rattle.run_tables.specs.declared.fault.CodeFaultKind.TheVariants.{NoMemory};

    ghost from_gives = { λ _ fault. fault ≡ record { place = 0; kind = NoMemory } };

    fn from(_refused: AllocError) -> CodeFault {
        CodeFault::new(0, CodeFaultKind::NoMemory)
    }
}

impl<T: Drop> From<AllocFailed<T>> for CodeFault {
    ghost use Rattle.std.specs.Prelude.{◌≡◌};
    ghost use Rattle.run_tables.specs.declared.fault.CodeFaultKind.TheVariants.{NoMemory};

    ghost from_gives = { λ _ fault. fault ≡ record { place = 0; kind = NoMemory } };

    fn from(_refused: AllocFailed<T>) -> CodeFault {
        CodeFault::new(0, CodeFaultKind::NoMemory)
    }
}
