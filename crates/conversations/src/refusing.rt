//! What is watched of a call: its caller, and how long it lasts; and why it is stopped.

ghost use Rattle.conversations.specs.Refusing.{ends_by, gap_in, gives_up, new_watch, no_watch, refusal_in, stop_in};
ghost use Rattle.std.specs.Prelude.{◌≡◌, ◌||◌};

use signals::Caps;
use terminals::{Limit, Refusal, Timeout, Watched};

/// How much longer than it may a call lasts if DCN can't be said, in milliseconds.
pub(crate) const MORE: u32 = 10_000;

/// Why a call is stopped.
#[derive(Clone, Copy, Debug, PartialEq, Eq)]
pub enum StopCause {
    /// It is refused.
    Refused(Refusal),
    /// It has lasted as long as it may.
    TooLong,
    /// It has lasted so much longer, and its line didn't fall quiet.
    NeverQuiet,
}

/// What is watched of a call: its caller, in the frames that its answerer's terminal hears, and how long it lasts.
#[derive(Clone, Copy, Debug, PartialEq, Eq)]
pub struct CallerWatch {
    /// What was seen; None if no caller is watched.
    pub watched: Option<Watched>,
    /// Whether a second DCS that isn't allowed ends the call.
    pub refuses: bool,
    /// How long the call lasts at most.
    pub limit: Limit,
    /// Whether it has lasted as long.
    pub late: bool,
    /// Whether it has lasted so much longer, and its line didn't fall quiet.
    pub given_up: bool,
}

/// Returns true if a call has lasted as long as it may, by what is to be done at a line, or had before.
pub(crate) fn is_late(was: bool, done: Option<Timeout>) -> bool
    ensures { result ≡ (was || ends_by done) }
{
    was || ends_by(done)
}

/// Returns true if a call is given up, by what is to be done at a line, or was before.
pub(crate) fn is_given_up(was: bool, done: Option<Timeout>) -> bool
    ensures { result ≡ (was || gives_up done) }
{
    was || gives_up(done)
}

/// Returns true if what is to be done is the end of a call in silence, since its line didn't fall quiet.
fn gives_up(done: Option<Timeout>) -> bool
    ensures { result ≡ gives_up done }
{
    match done {
        Some(Timeout::GiveUp) => true,
        Some(Timeout::Over(_) | Timeout::Stop) | None => false,
    }
}

/// Returns true if what is to be done is the end of a call that has lasted as long as it may.
fn ends_by(done: Option<Timeout>) -> bool
    ensures { result ≡ ends_by done }
{
    match done {
        Some(Timeout::Stop | Timeout::GiveUp) => true,
        Some(Timeout::Over(_)) | None => false,
    }
}

impl CallerWatch {
    /// Nothing is watched.
    pub(crate) const NONE: CallerWatch = CallerWatch {
        watched: None,
        refuses: false,
        limit: Limit {
            most: None,
            more: MORE,
        },
        late: false,
        given_up: false,
    };

    /// A watch of a caller that has seen nothing, for which a call is refused or not; it lasts as long as it wants.
    pub(crate) fn new(caps: Caps, refuses: bool) -> CallerWatch
        ensures { result ≡ new_watch caps refuses }
    {
        CallerWatch {
            watched: Some(Watched::new(caps)),
            refuses,
            ..CallerWatch::NONE
        }
    }

    /// Why the call is refused, if anything is watched: there was a second DCS that isn't allowed, and a call is refused then, or a page came
    /// under the number of the last one.
    pub(crate) fn refusal(self) -> Option<Refusal>
        ensures { result ≡ refusal_in self }
    {
        match self.watched {
            None => None,
            Some(watched) if self.refuses => watched.refusal(),
            Some(watched) => watched.reuse(),
        }
    }

    /// Why the call is stopped, if it is: it is refused, or has lasted as long as it may, and is given up if its line didn't fall quiet.
    pub(crate) fn stop_cause(self) -> Option<StopCause>
        ensures { result ≡ stop_in self }
    {
        match self.refusal() {
            Some(why) => Some(StopCause::Refused(why)),
            None if self.given_up => Some(StopCause::NeverQuiet),
            None if self.late => Some(StopCause::TooLong),
            None => None,
        }
    }

    /// The first page number that jumped, if anything is watched and one did.
    pub(crate) fn gap(self) -> Option<u8>
        ensures { result ≡ gap_in self }
    {
        match self.watched {
            Some(watched) => watched.pages.gap,
            None => None,
        }
    }
}
