//! Why there is no world.

ghost use Rattle.line_sim.specs.Report.{number_of};
ghost use Rattle.std.specs.Prelude.{◌≡◌};

use stations::CallerFault;
use std::alloc::AllocError;
use thiserror::Error;

/// Why a call of a document can't be set up.
#[derive(Debug, PartialEq, Eq, Drop, Error)]
pub enum WorldFault {
    /// Memory was refused.
    #[error("no memory")]
    NoMemory,
    /// No call can have the width of one of the pages.
    #[error("a page's width is none that a call can have")]
    WidthNotCallable,
}

impl WorldFault {
    /// The number under which a program reports the fault: 9 for `NoMemory`, 26 for `WidthNotCallable`.
    pub fn number(&self) -> u8
        ensures { result ≡ number_of self.now }
    {
        match self {
            WorldFault::NoMemory => 9,
            WorldFault::WidthNotCallable => 26,
        }
    }
}

impl From<AllocError> for WorldFault {
    ghost use Rattle.std.specs.Prelude.{◌≡◌};
    ghost use Rattle.line_sim.specs.declared.fault.WorldFault.TheVariants.{NoMemory};

    ghost from_gives = { λ _ e. e ≡ NoMemory };

    fn from(_e: AllocError) -> WorldFault {
        WorldFault::NoMemory
    }
}

impl From<CallerFault> for WorldFault {
    ghost use Rattle.std.specs.Prelude.{◌≡◌};
    ghost use Rattle.line_sim.specs.declared.fault.WorldFault.TheVariants.{WidthNotCallable};

    ghost from_gives = { λ _ e. e ≡ WidthNotCallable };

    fn from(_e: CallerFault) -> WorldFault {
        WorldFault::WidthNotCallable
    }
}
