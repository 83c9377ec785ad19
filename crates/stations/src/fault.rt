//! The refusal of a document.

ghost use Rattle.std.specs.Prelude.{◌≡◌};

use thiserror::Error;

/// Why a document has no caller.
#[derive(Clone, Copy, Debug, PartialEq, Eq, Error)]
pub enum CallerFault {
    /// A page isn't 1,728, 2,048 or 2,432 pixels wide (fault 26).
    #[error("a page's width is none that a call can have")]
    WidthNotCallable,
}

impl CallerFault {
    /// Returns the number of the fault among all faults: 26.
    pub fn number(&self) -> u8
        ensures { result ≡ 26 }
    {
        match self {
            CallerFault::WidthNotCallable => 26,
        }
    }
}
