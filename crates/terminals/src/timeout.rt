//! What is to be done at a time of a call, and when that is.

ghost use Rattle.std.specs.Prelude.{◌≡◌};
ghost use Rattle.terminals.specs.Clocks.{is_past};
ghost use Rattle.terminals.specs.Timeouts.{busy_timeout, quiet_timeout, stop_or_over, timeout, timeout_due};

use crate::clock::{Clock, Durations, LineState, due, earlier};
use crate::stopping::Shown;
use signals::Side;
use stations::Wait;

/// What is to be done at a time of a call.
#[derive(Clone, Copy, Debug, PartialEq, Eq)]
pub enum Timeout {
    /// This wait is over.
    Over(Wait),
    /// The call has lasted as long as it may: DCN is to be sent.
    Stop,
    /// The call has lasted as long as it may, and the line doesn't fall quiet: it is to be given up in silence.
    GiveUp,
}

/// How long a call lasts at most.
#[derive(Clone, Copy, Debug, PartialEq, Eq)]
pub struct Limit {
    /// The time from which it is stopped once DCN can be said, in milliseconds since the call was set up; None for no limit.
    pub most: Option<u64>,
    /// How much later it is given up if DCN can't be said, in milliseconds.
    pub more: u32,
}

impl Clock {
    /// What is to be done at the clock's time, on a line that is so; nothing after the end of the call. By the law
    /// `timeouts_are_due` a call with a limit ends by it on any line.
    pub fn timeout(
        self,
        line: LineState,
        side: Side,
        shown: Shown,
        durations: Durations,
        limit: Limit,
    ) -> Option<Timeout>
        ensures { result ≡ timeout line side shown self durations limit }
    {
        match (shown.end, line) {
            (Some(_), _) => None,
            (None, LineState::Quiet) => self.quiet_timeout(side, shown, durations, limit),
            (None, LineState::Ended) => stop_or_over(self.is_past(limit.most, 0), None),
            (None, LineState::Carrier) => self.busy_timeout(limit),
            (None, LineState::Unsaid) => self.busy_timeout(limit),
        }
    }

    /// When something is to be done, in milliseconds, if the line stays as it is and nothing comes; None if nothing ever is. By the law
    /// `timeouts_are_due` something is done at each time from then on.
    pub fn timeout_due(
        self,
        line: LineState,
        side: Side,
        shown: Shown,
        durations: Durations,
        limit: Limit,
    ) -> Option<u128>
        ensures { result ≡ timeout_due line side shown self durations limit }
    {
        match (shown.end, line) {
            (Some(_), _) => None,
            (None, LineState::Quiet) => earlier(
                due(limit.most, 0),
                self.wait_due(side, shown, durations),
            ),
            (None, LineState::Ended) => due(limit.most, 0),
            (None, LineState::Carrier) => due(limit.most, limit.more),
            (None, LineState::Unsaid) => due(limit.most, limit.more),
        }
    }

    /// What is to be done on a quiet line.
    fn quiet_timeout(
        self,
        side: Side,
        shown: Shown,
        durations: Durations,
        limit: Limit,
    ) -> Option<Timeout>
        ensures { result ≡ quiet_timeout side shown self durations limit }
    {
        stop_or_over(
            self.is_past(limit.most, 0),
            self.wait_over(side, shown, durations),
        )
    }

    /// What is to be done on a line that isn't quiet.
    fn busy_timeout(self, limit: Limit) -> Option<Timeout>
        ensures { result ≡ busy_timeout limit self.now }
    {
        if self.is_past(limit.most, limit.more) {
            return Some(Timeout::GiveUp);
        }
        None
    }
}

/// The call is stopped if it has lasted as long as it may, and else a wait that is over ends.
fn stop_or_over(stops: bool, over: Option<Wait>) -> Option<Timeout>
    ensures { result ≡ stop_or_over stops over }
{
    match over {
        _ if stops => Some(Timeout::Stop),
        Some(wait) => Some(Timeout::Over(wait)),
        None => None,
    }
}
