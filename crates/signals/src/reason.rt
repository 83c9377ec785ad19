//! Why two stations have no way to send pages.

ghost use Rattle.signals.specs.Agreement.{agreed};
ghost use Rattle.signals.specs.Reasons.{IsFirstReason};
ghost use Rattle.std.specs.Prelude.{◌≡◌, ◌≢◌, ◌↔◌, Err, IfSome, None};

use crate::agreement::agree;
use crate::params::{Caps, PageWidth, Wish};
use thiserror::Error;

/// Why `agree` refuses, the first of these that holds. ITU-T T.30, 5.3.6.2.
#[derive(Clone, Copy, Debug, PartialEq, Eq, Error)]
pub enum Reason {
    /// The answerer doesn't receive: bit 10 of its DIS.
    #[error("the other station does not receive")]
    NoReceiver,
    /// The answerer has no error correction: bit 27.
    #[error("the other station has no error correction")]
    NoErrorCorrection,
    /// The page is wider than the answerer takes: bits 17 and 18.
    #[error("the page is wider than what the other station takes")]
    TooWide,
    /// The page has fine lines, 7.7 a millimetre, and the answerer takes none: bit 15.
    #[error("the other station takes no fine lines")]
    NoFineLines,
    /// The stations have no speed in common: bits 11 to 14.
    #[error("the stations have no common speed")]
    NoCommonSpeed,
}

/// The first reason that holds, if two stations don't agree.
fn first_reason(caps: &Caps, wish: &Wish, width: PageWidth, fine: bool) -> Reason
    requires { agreed caps.now wish.now width fine ≡ Err (record {}) }
    ensures { IsFirstReason caps.now wish.now width fine result }
{
    if !caps.receiver {
        return Reason::NoReceiver;
    }
    if !caps.ecm {
        return Reason::NoErrorCorrection;
    }
    if width.pixels() > caps.widest.pixels() {
        return Reason::TooWide;
    }
    if fine && !caps.fine {
        return Reason::NoFineLines;
    }
    Reason::NoCommonSpeed
}

/// Returns the first reason why a caller can't send pages of a width to a station, at 7.7 lines a millimetre if `fine`;
/// None exactly if `agree` gives parameters.
pub fn why_not(caps: &Caps, wish: &Wish, width: PageWidth, fine: bool) -> Option<Reason>
    ensures first { IfSome result (IsFirstReason caps.now wish.now width fine) }
    ensures exactly { (result ≡ None) ↔ (agreed caps.now wish.now width fine ≢ Err (record {})) }
{
    if agree(caps, wish, width, fine).is_ok() {
        return None;
    }
    Some(first_reason(caps, wish, width, fine))
}
