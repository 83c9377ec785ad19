//! The conversation of a station as a process: lines that are taken, and bursts that are given.

ghost use Rattle.conversations.specs.Conversations.{IsInTime, IsNew, IsOutOfTime, SendsIfBegun, TakesOrRefuses, behaviour, with_pages_taken, hung_up_so};
ghost use Rattle.conversations.specs.Conversations.{SawLine, next_quiet, refused_so, stopped_so};
ghost use Rattle.conversations.specs.Refusing.{gap_in, limit_of, new_watch, refusal_in, stop_in};
ghost use Rattle.std.specs.Prelude.{◌≡◌, ◌↔◌, IsTrue, IsSome, OnOk, true, false};
ghost use Rattle.terminals.specs.Watching.{SawSent};
ghost use Rattle.terminals.specs.declared.stopping.Shown.{Shown as AnyShown};

use crate::giving::{clock_at, give, has_begun, line_gives, most_step, state_of};
use crate::line::TimedLine;
use crate::refusing::{CallerWatch, MORE, StopCause, is_given_up, is_late};
use crate::writing::Says;
use raster::Page;
use signals::Caps;
use stations::{Answerer, CallEnd, Caller, LimitedAnswerer, StoppableCaller};
use std::alloc::AllocError;
use std::marker::Model;
use terminals::{
    Clock, Durations, Limit, Refusal, SentBurst, Shown, Station, Stoppable, Terminal, Watch,
    Watched, note,
};
use thiserror::Error;

/// Why a line wasn't taken.
#[derive(Clone, Copy, Debug, PartialEq, Eq, Drop, Error)]
pub enum TakeFault {
    /// The line's time is before that of the line before it, or too late after it. Nothing has changed.
    #[error("time runs back or jumps")]
    OutOfTime,
    /// Memory was refused. Nothing has changed but the note of the last accepted block, or frames that the line brought are lost.
    #[error("no memory")]
    NoMemory,
}

impl From<AllocError> for TakeFault {
    ghost use Rattle.conversations.specs.declared.conversation.TakeFault.TheVariants.{NoMemory};
    ghost use Rattle.std.specs.Prelude.{◌≡◌};

    ghost from_gives = { λ _ e. e ≡ NoMemory };

    fn from(_refused: AllocError) -> TakeFault {
        TakeFault::NoMemory
    }
}

/// A station driven by lines that say what is on the line of a call, and when.
#[derive(Debug, Drop)]
pub struct Conversation<S: Stoppable> {
    terminal: Terminal<S>,
    clock: Clock,
    durations: Durations,
    begun: bool,
    says: Says,
    watch: CallerWatch,
}

impl<S: Stoppable> Model for Conversation<S> {
    ghost use Rattle.conversations.specs.Conversations.{ConversationFields};

    ghost Value = { ConversationFields S };

    ghost view = { λ c. record {
      terminal = c.terminal;
      clock = c.clock;
      durations = c.durations;
      begun = c.begun;
      says = c.says;
      watch = c.watch;
    } };
}

impl Conversation<StoppableCaller> {
    /// The conversation of a caller's terminal, which listens from the first line on.
    pub fn new_caller(
        terminal: Terminal<StoppableCaller>,
        durations: Durations,
    ) -> Conversation<StoppableCaller>
        ensures { IsNew terminal durations true result }
    {
        Conversation {
            terminal,
            clock: Clock::new(),
            durations,
            begun: true,
            says: Says::LEAST,
            watch: CallerWatch::NONE,
        }
    }

    /// Returns the caller itself: its pages, and how many are confirmed.
    pub fn caller(&self) -> &Caller
        ensures { result.now ≡ self.now.terminal.speaking.station.station }
    {
        self.terminal.station().station()
    }
}

impl Conversation<LimitedAnswerer> {
    /// The conversation of an answerer's terminal, whose first turn is DIS. It begins at the first quiet line from 1,000 ms on, or at a
    /// line that stops it.
    pub fn new_answerer(
        terminal: Terminal<LimitedAnswerer>,
        durations: Durations,
    ) -> Conversation<LimitedAnswerer>
        ensures { IsNew terminal durations false result }
    {
        Conversation {
            terminal,
            clock: Clock::new(),
            durations,
            begun: false,
            says: Says::LEAST,
            watch: CallerWatch::NONE,
        }
    }

    /// The conversation, whose caller is watched from now on: `refuse` stops its call at the second DCS that an answerer with these
    /// capabilities doesn't allow, if it refuses, and at a page under the number of the last one. Takes no memory.
    pub fn watching(self, caps: Caps, refuses: bool) -> Conversation<LimitedAnswerer>
        ensures { result ≡ record self { watch = new_watch caps refuses } }
    {
        let mut conversation = self;
        conversation.watch = CallerWatch::new(caps, refuses);
        conversation
    }

    /// Takes the pages stored so far out of the answerer, and returns them in the order in which they came. The answerer stays as busy as
    /// it was set. Takes no memory.
    pub fn take_pages(&mut self) -> Vec<Page>
        ensures pages { result.items ≡ self.old.terminal.speaking.station.station.pages }
        ensures left { self.new ≡ with_pages_taken self.old }
    {
        self.terminal.take_pages()
    }

    /// Returns the answerer itself: its stored pages, and what it knows of its caller.
    pub fn answerer(&self) -> &Answerer
        ensures { result.now ≡ self.now.terminal.speaking.station.station }
    {
        self.terminal.station().station()
    }
}

impl<S: Stoppable> Conversation<S> {
    /// The conversation, which says this beside its bursts from now on.
    pub fn saying(self, says: Says) -> Conversation<S>
        ensures { result ≡ record self { says = says } }
    {
        let mut conversation = self;
        conversation.says = says;
        conversation
    }

    /// The conversation, whose call is stopped once it has lasted so many milliseconds and DCN can be said, on a quiet line or where a carrier
    /// has just ended; else it is given up in silence ten seconds later.
    pub fn lasting(self, most: Option<u64>) -> Conversation<S>
        ensures { result ≡ record self { watch = record self.watch { limit = limit_of most } } }
    {
        let mut conversation = self;
        conversation.watch.limit = Limit { most, more: MORE };
        conversation
    }

    /// Takes a line: gives the station what the line says, sets the clock, and notes whether the call has lasted as long as it may. Errs with
    /// `OutOfTime` if its time is before that of the line before it; if it is a quiet line after a quiet one, and later by more than T1 and
    /// 35 s; or if it is later by more than T1 and ten minutes: nothing has changed. Errs with `NoMemory`: nothing has changed but the note of
    /// the last accepted block, or frames that the line brought are lost.
    pub fn take(&mut self, line: &TimedLine) -> Result<(), TakeFault>
        ensures { TakesOrRefuses (behaviour S.sends S.steps S.lends S.shows S.cut_off S.stop_says) self.old line.now self.new result }
    {
        let mut nothing: Option<Watched> = None;
        self.take_by(line, &mut nothing)
    }

    /// Takes a line as `take` does; a watch sees each good frame that the station hears, also if memory is refused to the station's step.
    pub fn take_by<W: Watch>(&mut self, line: &TimedLine, watch: &mut W) -> Result<(), TakeFault>
        ensures takes { TakesOrRefuses
            (behaviour S.sends S.steps S.lends S.shows S.cut_off S.stop_says)
            self.old line.now self.new result }
        ensures sees { OnOk result (SawLine S W
            (behaviour S.sends S.steps S.lends S.shows S.cut_off S.stop_says)
            W.saw self.old line.now watch.old watch.new) }
    {
        if self.is_out_of_time(line) {
            return Err(TakeFault::OutOfTime);
        }
        let clock = clock_at(self.clock, &line.said, line.at);
        let side = self.terminal.station().side();
        let shown = self.terminal.shown();
        let given = line_gives(self.begun, side, shown, clock, self.durations, &line.said);
        note(&mut self.watch.watched, shown.accepted);
        let brought = give(&mut self.terminal, &mut self.watch.watched, watch, given)?;
        let later = self.terminal.shown();
        let now = clock.heard(brought).asked(later.longer);
        let state = state_of(&line.said);
        let done = now.timeout(state, side, later, self.durations, self.watch.limit);
        self.clock = now;
        self.begun = has_begun(self.begun, &line.said, line.at);
        self.watch.late = is_late(self.watch.late, done);
        self.watch.given_up = is_given_up(self.watch.given_up, done);
        Ok(())
    }

    /// The next burst of the turn that is kept; None if all were sent, and before an answerer has begun. A burst restarts the silence
    /// timer. Errs if memory is refused, which changes nothing.
    pub fn next_burst(&mut self) -> Result<Option<SentBurst>, AllocError>
        ensures { SendsIfBegun S.sends S.lends self.old.begun self.old self.new result }
    {
        let mut nothing: Option<Watched> = None;
        self.next_burst_by(&mut nothing)
    }

    /// The next burst, as `next_burst` gives it; a watch sees each of its frames.
    pub fn next_burst_by<W: Watch>(
        &mut self,
        watch: &mut W,
    ) -> Result<Option<SentBurst>, AllocError>
        ensures gives { SendsIfBegun S.sends S.lends self.old.begun self.old self.new result }
        ensures says { SawSent W.saw_said S.sends S.lends self.old.terminal.speaking
            watch.old watch.new result }
    {
        if !self.begun {
            return Ok(None);
        }
        let sent = self.terminal.next_burst_by(watch)?;
        if sent.is_some() {
            self.clock = self.clock.sent();
        }
        Ok(sent)
    }

    /// Stops the call, and has DCN sent in place of the turn that is kept, even if the call has ended: the station must not say what that
    /// turn says.
    pub fn hang_up(&mut self)
        ensures { self.new ≡ hung_up_so S.cut_off self.old }
    {
        self.terminal.hang_up();
        self.begun = true;
    }

    /// Stops the call, as a line `stop` does.
    pub fn stop(&mut self)
        ensures { self.new ≡ stopped_so (behaviour S.sends S.steps S.lends S.shows S.cut_off S.stop_says) self.old }
    {
        self.terminal.stop();
    }

    /// Stops the call, as a line `stop` does, if it is refused, or has lasted as long as it may. A call whose line didn't fall quiet is given
    /// up in silence, as at a line `end`.
    pub fn refuse(&mut self)
        ensures { self.new ≡ refused_so (behaviour S.sends S.steps S.lends S.shows S.cut_off S.stop_says) self.old }
    {
        match self.stop_cause() {
            Some(StopCause::NeverQuiet) => self.terminal.lost(),
            Some(StopCause::Refused(_) | StopCause::TooLong) => self.stop(),
            None => {}
        }
    }

    /// Returns why the call is stopped; None if it isn't.
    fn stop_cause(&self) -> Option<StopCause>
        ensures { result ≡ stop_in self.now.watch }
    {
        self.watch.stop_cause()
    }

    /// Returns true if the call has lasted as long as it may.
    pub fn is_late(&self) -> bool
        ensures { result ≡ self.now.watch.late }
    {
        self.watch.late
    }

    /// Returns true if the call has lasted as long as it may and ten seconds more, and its line didn't fall quiet: it is given up in silence.
    pub fn is_given_up(&self) -> bool
        ensures { result ≡ self.now.watch.given_up }
    {
        self.watch.given_up
    }

    /// Returns why the call is refused: a second DCS wasn't allowed, and such a call is refused, or a page came under the number of the last
    /// one. None if it isn't.
    pub fn refusal(&self) -> Option<Refusal>
        ensures { result ≡ refusal_in self.now.watch }
    {
        self.watch.refusal()
    }

    /// Returns the page number, from 0 and modulo 256, of the first PPS whose number was neither that of the PPS before it nor the next; of
    /// the first PPS, that wasn't 0. None if each followed, or if nothing is watched.
    pub fn gap(&self) -> Option<u8>
        ensures { result ≡ gap_in self.now.watch }
    {
        self.watch.gap()
    }

    /// True if the station hears what is on the line: a caller from the first line on, an answerer once it has begun.
    pub fn has_begun(&self) -> bool
        ensures { result ≡ self.now.begun }
    {
        self.begun
    }

    /// True if the time of a line can't follow that of the last one.
    fn is_out_of_time(&self, line: &TimedLine) -> bool
        ensures yes { IsTrue result → IsOutOfTime self.now line.now }
        ensures no { result ≡ false → IsInTime self.now line.now }
    {
        let now = self.clock.now;
        let most = most_step(self.clock, &line.said, self.durations);
        line.at < now || line.at - now > u64::from(most)
    }

    /// What the station says beside its bursts.
    pub(crate) fn says(&self) -> Says
        ensures { result ≡ self.now.says }
    {
        self.says
    }

    /// The time from which a quiet line does something, by what the station shows, in milliseconds; None if it isn't known yet.
    pub(crate) fn next_quiet(&self, shown: Shown) -> Option<u128>
        ensures { result ≡ next_quiet self.now.begun S.sends shown self.now.clock self.now.durations }
    {
        if self.begun {
            let side = self.terminal.station().side();
            self.clock.wait_due(side, shown, self.durations)
        } else {
            Some(1000)
        }
    }

    /// Why the call ended; None while it goes on.
    pub fn end(&self) -> Option<CallEnd>
        ensures { (shown : AnyShown) × S.shows self.now.terminal.speaking.station shown × (result ≡ shown.end) }
    {
        self.terminal.shown().end
    }

    /// True if the call has ended: nothing more is taken or sent after the bursts of the last line.
    pub fn is_over(&self) -> bool
        ensures { (shown : AnyShown) × S.shows self.now.terminal.speaking.station shown × (IsTrue result ↔ IsSome shown.end) }
    {
        self.end().is_some()
    }

    /// The terminal: its station, with its pages confirmed or stored.
    pub fn terminal(&self) -> &Terminal<S>
        ensures { result.now ≡ self.now.terminal }
    {
        &self.terminal
    }

    /// The clock as the last line left it.
    pub fn clock(&self) -> Clock
        ensures { result ≡ self.now.clock }
    {
        self.clock
    }
}
