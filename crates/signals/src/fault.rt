//! Why a frame's content says no signal.

ghost use Rattle.signals.specs.Faults.{number_of};
ghost use Rattle.std.specs.Prelude.{◌≡◌};

use thiserror::Error;

/// Why a frame's content says no signal.
#[derive(Clone, Copy, Debug, PartialEq, Eq, Error)]
pub enum SignalFault {
    /// The first octet, the address, isn't FF (fault 20).
    #[error("the address isn't FF")]
    BadAddress,
    /// The second octet, the control field, is neither 03 nor 13 (fault 21).
    #[error("the control field is neither 03 nor 13")]
    BadControl,
    /// A field is missing or cut short (fault 22).
    #[error("a field is missing or cut short")]
    ShortField,
}

impl SignalFault {
    /// Returns the number of the fault among all faults: 20, 21 or 22.
    pub fn number(self) -> u8
        ensures { result ≡ number_of self }
    {
        match self {
            SignalFault::BadAddress => 20,
            SignalFault::BadControl => 21,
            SignalFault::ShortField => 22,
        }
    }
}
