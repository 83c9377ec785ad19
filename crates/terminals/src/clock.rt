//! The times that the waits of a station run from.

ghost use Rattle.terminals.specs.Clocks.{after_burst, asked_since, clock_at, duration, heard_now, is_past, longer_over, longer_runs_from};
ghost use Rattle.terminals.specs.Clocks.{due, earlier, longer_due, most_step, running_due, wait_due};
ghost use Rattle.terminals.specs.Clocks.{new_clock, running_over, runs_from, since_or, wait_over};
ghost use Rattle.std.specs.Prelude.{◌≡◌};
ghost use Rattle.stations.specs.declared.waiting.Wait.{Wait as AnyWait};
ghost use Rattle.terminals.specs.Timing.{wait_millis};

use crate::stopping::Shown;
use crate::timing::wait_millis;
use signals::Side;
use stations::Wait;

/// What is said of a line at a time.
#[derive(Clone, Copy, Debug, PartialEq, Eq)]
pub enum LineState {
    /// Nothing is on the line.
    Quiet,
    /// A carrier of the other side is on, or has ended, and the program doesn't say so.
    Carrier,
    /// A carrier of the other side has just ended: it is this side's turn.
    Ended,
    /// Neither is said.
    Unsaid,
}

/// How long each wait runs, in milliseconds (ITU-T T.30, 5.4.3.1).
#[derive(Clone, Copy, Debug, PartialEq, Eq)]
pub struct Durations {
    /// T1, for the other station to appear: 35 s in T.30.
    pub t1: u32,
    /// T2, an answerer's, for a command: 6 s ± 1 s in T.30, and 7 s here.
    pub t2: u32,
    /// T4, a caller's, for an answer: 3 s in T.30.
    pub t4: u32,
    /// T5, a caller's, for a busy answerer: 60 s in T.30.
    pub t5: u32,
}

impl Durations {
    /// The durations of T.30 as `wait_millis` has them: 35 s, 7 s, 3 s and 60 s.
    pub fn of_t30() -> Durations
        ensures { (wait : AnyWait) → duration result wait ≡ wait_millis wait }
    {
        Durations {
            t1: wait_millis(Wait::T1),
            t2: wait_millis(Wait::T2),
            t4: wait_millis(Wait::T4),
            t5: wait_millis(Wait::T5),
        }
    }

    /// How long a wait runs, in milliseconds.
    pub fn of(self, wait: Wait) -> u32
        ensures { result ≡ duration self wait }
    {
        match wait {
            Wait::T1 => self.t1,
            Wait::T2 => self.t2,
            Wait::T4 => self.t4,
            Wait::T5 => self.t5,
        }
    }
}

/// The times that waits run from, in milliseconds since the call was set up.
#[derive(Clone, Copy, Debug, PartialEq, Eq)]
pub struct Clock {
    /// The time of the last line.
    pub now: u64,
    /// The time of the first quiet line since the last carrier of either side; None if no line was quiet since then.
    pub calm: Option<u64>,
    /// The time of the last line that brought a good frame or the awaited training check; 0 before the first one. A good check and a bad
    /// one count alike.
    pub heard: u64,
    /// The time of the line since which T5 runs, if it runs.
    pub asked: Option<u64>,
}

impl Clock {
    /// The clock of a call that has just been set up, at 0 ms.
    pub fn new() -> Clock
        ensures { result ≡ new_clock }
    {
        Clock {
            now: 0,
            calm: None,
            heard: 0,
            asked: None,
        }
    }

    /// The clock at a line: the line is calm from the first quiet line on, and no line is calm while a carrier is on.
    pub fn at(self, line: LineState, at: u64) -> Clock
        ensures { result ≡ clock_at self line at }
    {
        let calm = match line {
            LineState::Quiet => Some(self.calm.unwrap_or(at)),
            LineState::Carrier | LineState::Ended => None,
            LineState::Unsaid => self.calm,
        };
        Clock {
            now: at,
            calm,
            ..self
        }
    }

    /// How much later than the line before it a line can be, in milliseconds.
    pub fn most_step(self, line: LineState, durations: Durations) -> u32
        ensures { result ≡ most_step self.calm line durations }
    {
        match (self.calm, line) {
            (Some(_), LineState::Quiet) => durations.t1.max(35_000),
            _ => durations.t1.max(600_000),
        }
    }

    /// The clock after its line brought a good frame or the awaited training check (true), or neither (false).
    pub fn heard(self, brought: bool) -> Clock
        ensures { result ≡ heard_now brought self }
    {
        if brought {
            return Clock {
                heard: self.now,
                ..self
            };
        }
        self
    }

    /// The clock after its line, with this longer wait running: T5 runs from this line on, unless it ran before.
    pub fn asked(self, longer: Option<Wait>) -> Clock
        ensures { result ≡ asked_since longer self }
    {
        let asked = match longer {
            Some(Wait::T5) => Some(self.asked.unwrap_or(self.now)),
            _ => None,
        };
        Clock { asked, ..self }
    }

    /// The clock after a burst was sent, which ends the calm.
    pub fn sent(self) -> Clock
        ensures { result ≡ after_burst self }
    {
        Clock { calm: None, ..self }
    }

    /// The wait that is over now, of the two that a station shows, the longer one first. By the law `waits_pass` it is one that runs and
    /// whose duration has passed.
    pub fn wait_over(self, side: Side, shown: Shown, durations: Durations) -> Option<Wait>
        ensures { result ≡ wait_over side shown self durations }
    {
        match self.longer_over(shown.longer, durations) {
            Some(wait) => Some(wait),
            None => self.running_over(side, shown.running, durations),
        }
    }

    /// The time at which the first of the two waits that a station shows is over, in milliseconds, if nothing comes before; None if none
    /// runs yet. It may have passed.
    pub fn wait_due(self, side: Side, shown: Shown, durations: Durations) -> Option<u128>
        ensures { result ≡ wait_due side shown self durations }
    {
        let longer = self.longer_due(shown.longer, durations);
        earlier(longer, self.running_due(side, shown.running, durations))
    }

    /// The time at which the longer wait is over.
    fn longer_due(self, longer: Option<Wait>, durations: Durations) -> Option<u128>
        ensures { result ≡ longer_due longer self durations }
    {
        match longer {
            Some(wait) => due(self.longer_from(wait), durations.of(wait)),
            None => None,
        }
    }

    /// The time at which the wait that runs is over.
    fn running_due(self, side: Side, running: Option<Wait>, durations: Durations) -> Option<u128>
        ensures { result ≡ running_due side running self durations }
    {
        match running {
            Some(wait) => due(self.from(side, wait), durations.of(wait)),
            None => None,
        }
    }

    /// The longer wait, if it is over now.
    fn longer_over(self, longer: Option<Wait>, durations: Durations) -> Option<Wait>
        ensures { result ≡ longer_over longer self durations }
    {
        match longer {
            Some(wait) if self.is_past(self.longer_from(wait), durations.of(wait)) => Some(wait),
            _ => None,
        }
    }

    /// The wait that runs, if it is over now.
    fn running_over(self, side: Side, running: Option<Wait>, durations: Durations) -> Option<Wait>
        ensures { result ≡ running_over side running self durations }
    {
        match running {
            Some(wait) if self.is_past(self.from(side, wait), durations.of(wait)) => Some(wait),
            _ => None,
        }
    }

    /// The time since which the wait that a station shows runs.
    fn from(self, side: Side, wait: Wait) -> Option<u64>
        ensures { result ≡ runs_from side self wait }
    {
        match (wait, side) {
            (Wait::T1, Side::Caller) => Some(self.heard),
            (Wait::T1, Side::Answerer) => self.calm,
            (Wait::T2, _) => self.calm,
            (Wait::T4, _) => self.calm,
            (Wait::T5, _) => self.asked,
        }
    }

    /// The time since which the longer wait that a station shows runs.
    fn longer_from(self, wait: Wait) -> Option<u64>
        ensures { result ≡ longer_runs_from self wait }
    {
        match wait {
            Wait::T1 => Some(self.heard),
            Wait::T2 => self.calm,
            Wait::T4 => self.calm,
            Wait::T5 => self.asked,
        }
    }

    /// True if a duration has passed since a time.
    pub(crate) fn is_past(self, since: Option<u64>, duration: u32) -> bool
        ensures { result ≡ is_past self.now since duration }
    {
        match since {
            Some(since) => since as u128 + duration as u128 <= self.now as u128,
            None => false,
        }
    }
}

/// When a duration since a time has passed.
pub(crate) fn due(since: Option<u64>, duration: u32) -> Option<u128>
    ensures { result ≡ due since duration }
{
    match since {
        Some(since) => Some(since as u128 + duration as u128),
        None => None,
    }
}

/// The earlier one of two times.
pub(crate) fn earlier(one: Option<u128>, other: Option<u128>) -> Option<u128>
    ensures { result ≡ earlier one other }
{
    match (one, other) {
        (None, _) => other,
        (Some(_), None) => one,
        (Some(one), Some(other)) => Some(if one <= other { one } else { other }),
    }
}
