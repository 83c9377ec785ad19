//! What the stations hear.

use signals::Signal;

/// An input of the caller.
#[derive(Clone, Copy, Debug, PartialEq, Eq)]
pub enum CallerIn<'a> {
    /// A signal was heard in a good frame.
    Heard(Signal<'a>),
    /// T1 or T4 is over, whichever `Caller::waits` says.
    Timeout,
    /// T5 is over: the answerer was busy for too long.
    T5,
}

/// An input of the answerer.
#[derive(Clone, Copy, Debug, PartialEq, Eq)]
pub enum AnswererIn<'a> {
    /// A signal was heard in a good frame.
    Heard(Signal<'a>),
    /// The octets of a training check were heard.
    Training(&'a [u8]),
    /// T2 is over: no command came.
    T2,
    /// T1 is over: there is no caller.
    T1,
    /// From now on pages can't be taken, or they can again.
    Busy(bool),
}
