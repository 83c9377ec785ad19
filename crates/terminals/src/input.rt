//! What a terminal's station is given.

use signals::Signal;
use stations::Wait;

/// An input of either station.
#[derive(Clone, Copy, Debug, PartialEq, Eq)]
pub enum Input<'a> {
    /// A signal was heard in a good frame.
    Heard(Signal<'a>),
    /// The octets of a training check were heard; a caller ignores them.
    Training(&'a [u8]),
    /// A wait is over; one that doesn't run changes nothing.
    Over(Wait),
    /// From now on pages can't be taken, or they can again; a caller ignores it.
    Busy(bool),
}
