//! Why a page isn't cut, or a frame isn't stored.

use std::alloc::AllocError;
use thiserror::Error;

/// Why a page was not cut, or a frame was not stored.
#[derive(Clone, Copy, Debug, PartialEq, Eq, Error)]
pub enum BlockFault {
    /// Memory was refused (fault 9).
    #[error("no memory")]
    NoMemory,
    /// The data are longer than a frame (fault 23).
    #[error("the data is longer than a frame")]
    TooLong,
    /// The coded page has more than 8,388,608 octets (fault 24).
    #[error("the coded page has more than 8388608 octets")]
    PageTooLong,
}

impl BlockFault {
    ghost use Rattle.std.specs.Prelude.{◌≡◌};
    ghost use Rattle.partial_page.specs.Faults.{number_of};

    /// Returns the number of the fault among all faults: 9, 23 or 24.
    pub fn number(self) -> u8
        ensures { result ≡ number_of self }
    {
        match self {
            BlockFault::NoMemory => 9,
            BlockFault::TooLong => 23,
            BlockFault::PageTooLong => 24,
        }
    }
}

impl From<AllocError> for BlockFault {
    ghost use Rattle.std.specs.Prelude.{◌≡◌};
    ghost use Rattle.partial_page.specs.declared.fault.BlockFault.TheVariants.{NoMemory};

    ghost from_gives = { λ _ e. e ≡ NoMemory };

    fn from(_refused: AllocError) -> BlockFault {
        BlockFault::NoMemory
    }
}
