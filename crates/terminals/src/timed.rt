//! A terminal with its clock in one: what comes changes the terminal, and then `pass` says the time, and what the line is from then on.

ghost use Rattle.signals.specs.Reading.{read_content};
ghost use Rattle.std.specs.Prelude.{◌≡◌, ◌||◌, IfOk, List, OnErr, OnOk, false, nat_lt, true, ℕ};
ghost use Rattle.terminals.specs.Figures.{figures_heard, figures_said};
ghost use Rattle.terminals.specs.Hearing.{HasHeard, busy, check, heard_if, over};
ghost use Rattle.terminals.specs.Runs.{Hears, TakesAll};
ghost use Rattle.terminals.specs.Passing.{is_awaited};
ghost use Rattle.terminals.specs.Sending.{Sends};
ghost use Rattle.terminals.specs.Speaking.{Takes};
ghost use Rattle.terminals.specs.Stopping.{hung_up, silenced, stopped, with_pages_taken};
ghost use Rattle.terminals.specs.Timed.{BringsCheck, BringsIfTaken, IsDue, IsNext, Misses, PassesUnlessSending, SeesContent, SeesOctets};
ghost use Rattle.terminals.specs.Timed.{after_given, all_frames, new_timed, next_of, one_more};
ghost use Rattle.terminals.specs.Watching.{SawSent, SeesByIfTaken};

use crate::clock::{Clock, Durations, LineState};
use crate::fault::HearFault;
use crate::figures::Figures;
use crate::passing::{Moment, is_awaited, pass_unless_sending, unless_sending};
use crate::sending::SentBurst;
use crate::stopping::Stoppable;
use crate::terminal::Terminal;
use crate::timeout::{Limit, Timeout};
use crate::watching::{Watched, note};
use raster::Page;
use stations::{LimitedAnswerer, Listening, Wait};
use std::alloc::AllocError;
use std::marker::Model;

/// What a program does next with a terminal.
#[derive(Clone, Copy, Debug, PartialEq, Eq)]
pub enum Next {
    /// It sends the burst that waits.
    Send,
    /// It tells the time once this time has come, in milliseconds, unless something comes before.
    At(u128),
    /// It waits for what comes: nothing is due.
    Nothing,
}

/// A terminal with its clock, and what is watched. A program gives it what comes from the line, and then tells it the time and what the line
/// is from then on (`pass`); each input is followed by a `pass`.
#[derive(Debug, Drop)]
pub struct TimedTerminal<S: Stoppable> {
    terminal: Terminal<S>,
    clock: Clock,
    line: LineState,
    // whether a good frame or the awaited training check has come since the time was told
    brought: bool,
    // how many good frames came as contents
    contents: u64,
    watched: Option<Watched>,
    figures: Figures,
    durations: Durations,
    limit: Limit,
}

impl<S: Stoppable> Model for TimedTerminal<S> {
    ghost use Rattle.terminals.specs.Timed.{TimedFields};

    ghost Value = { TimedFields S };

    ghost view = { λ s. record {
      terminal = s.terminal;
      clock = s.clock;
      line = s.line;
      brought = s.brought;
      contents = s.contents;
      watched = s.watched;
      figures = s.figures;
      durations = s.durations;
      limit = s.limit;
    } };
}

impl<S: Stoppable> TimedTerminal<S> {
    /// A terminal at 0 ms, of whose line nothing is said yet. `watched` sees each good frame that it hears, if there is one.
    pub fn new(
        terminal: Terminal<S>,
        watched: Option<Watched>,
        durations: Durations,
        limit: Limit,
    ) -> TimedTerminal<S>
        ensures { result ≡ new_timed terminal watched durations limit }
    {
        TimedTerminal {
            terminal,
            clock: Clock::new(),
            line: LineState::Unsaid,
            brought: false,
            contents: 0,
            watched,
            figures: Figures::NONE,
            durations,
            limit,
        }
    }

    /// Returns the terminal without its clock.
    pub fn into_terminal(self) -> Terminal<S>
        ensures { result ≡ self.terminal }
    {
        self.terminal
    }

    /// Lets the call last so long at most, from 0 ms on.
    pub fn set_limit(&mut self, limit: Limit)
        ensures { self.new ≡ record self.old { limit = limit } }
    {
        self.limit = limit;
    }

    /// Tells the time, in milliseconds since the call was set up, and what the line is from then on; a time before the last one counts as
    /// that. A wait that is over ends, unless a burst waits to be sent; a call that has lasted as long as it may is stopped, or given up.
    /// Returns what was done. `AllocError` if memory is refused; nothing changes.
    pub fn pass(&mut self, line: LineState, at: u64) -> Result<Option<Timeout>, AllocError>
        ensures ok { IfOk result (λ done. PassesUnlessSending S S.sends S.lends S.steps S.cut_off S.stop_says S.shows
            (record { at = at; line = line; brought = self.old.brought }) self.old.durations self.old.limit self.old.terminal self.old.clock
            self.new.terminal self.new.clock done) }
        ensures rest { OnOk result (self.new ≡ record self.old {
          terminal = self.new.terminal;
          clock = self.new.clock;
          line = line;
          brought = false;
        }) }
        ensures err { OnErr result (self.new ≡ self.old) }
    {
        let moment = Moment {
            at,
            line,
            brought: self.brought,
        };
        let done = pass_unless_sending(
            &mut self.terminal,
            &mut self.clock,
            moment,
            self.durations,
            self.limit,
        )?;
        self.line = line;
        self.brought = false;
        Ok(done)
    }

    /// Hears octets of the line, as `Terminal::hear_by` does. What is watched is seen in each good frame, by the block that the station has
    /// accepted last, and the figures count it; by `NothingTaken` nothing changes.
    pub fn hear(&mut self, octets: &[u8]) -> Result<(), HearFault>
        ensures hears { Hears S.steps S.lends self.old.terminal octets.now
            self.new.terminal result }
        ensures sees { SeesOctets S S.shows self.old.terminal octets.now self.old.watched self.new.watched result }
        ensures counts { SeesByIfTaken figures_heard self.old.terminal.framing octets.now
            self.old.figures self.new.figures result }
        ensures brings { BringsIfTaken self.old.terminal.framing self.new.terminal.framing self.old.brought self.new.brought result }
        ensures rest { self.new ≡ record self.old {
          terminal = self.new.terminal;
          watched = self.new.watched;
          figures = self.new.figures;
          brought = self.new.brought;
        } }
    {
        hear_noting(
            &mut self.terminal,
            &mut self.watched,
            &mut self.figures,
            &mut self.brought,
            octets,
        )
    }

    /// Hears the content of a good frame that was found elsewhere, as `Terminal::hear_content` does; the figures count it. `AllocError` if
    /// memory is refused; nothing changes.
    pub fn hear_content(&mut self, content: &[u8]) -> Result<(), AllocError>
        ensures ok { OnOk result (TakesAll S.steps S.lends self.old.terminal.speaking (heard_if (read_content content.now))
            self.new.terminal.speaking) }
        ensures sees { OnOk result (SeesContent S S.shows self.old.terminal content.now self.old.watched self.new.watched) }
        ensures counts { OnOk result (self.new.figures
            ≡ figures_heard self.old.figures content.now (read_content content.now)) }
        ensures framing { self.new.terminal.framing ≡ self.old.terminal.framing }
        ensures rest { OnOk result (self.new ≡ record self.old {
          terminal = self.new.terminal;
          watched = self.new.watched;
          figures = self.new.figures;
          brought = true;
          contents = one_more self.old.contents;
        }) }
        ensures err { OnErr result (self.new ≡ self.old) }
    {
        hear_content_noting(
            &mut self.terminal,
            &mut self.watched,
            &mut self.figures,
            content,
        )?;
        self.brought = true;
        self.contents = self.contents.saturating_add(1);
        Ok(())
    }

    /// The station hears the octets of a training check. `AllocError` if memory is refused; nothing changes.
    pub fn hear_check(&mut self, octets: &[u8]) -> Result<(), AllocError>
        ensures ok { OnOk result (Takes S S.steps self.old.terminal.speaking (check octets.now) self.new.terminal.speaking) }
        ensures framing { self.new.terminal.framing ≡ self.old.terminal.framing }
        ensures brings { OnOk result (BringsCheck S S.shows self.old.terminal.speaking.station octets.now self.old.brought
            self.new.brought) }
        ensures rest { self.new ≡ record self.old { terminal = self.new.terminal; brought = self.new.brought } }
        ensures err { OnErr result (self.new ≡ self.old) }
    {
        let listens = self.terminal.shown().listens;
        self.terminal.hear_training(octets)?;
        self.brought = has_checked(self.brought, listens, octets);
        Ok(())
    }

    /// What the station listens for hasn't come: of a training check it hears one without octets, which is a bad one; else nothing changes.
    /// `AllocError` if memory is refused; nothing changes.
    pub fn missed(&mut self) -> Result<(), AllocError>
        ensures ok { OnOk result (Misses S S.steps S.shows self.old.terminal self.new.terminal) }
        ensures rest { self.new ≡ record self.old { terminal = self.new.terminal } }
        ensures err { OnErr result (self.new ≡ self.old) }
    {
        miss(&mut self.terminal)
    }

    /// A wait of the station is over, whatever the clock says; one that doesn't run changes nothing. `AllocError` if memory is refused;
    /// nothing changes.
    pub fn wait_over(&mut self, wait: Wait) -> Result<(), AllocError>
        ensures ok { OnOk result (Takes S S.steps self.old.terminal.speaking (over wait) self.new.terminal.speaking) }
        ensures framing { self.new.terminal.framing ≡ self.old.terminal.framing }
        ensures rest { self.new ≡ record self.old { terminal = self.new.terminal } }
        ensures err { OnErr result (self.new ≡ self.old) }
    {
        self.terminal.wait_over(wait)
    }

    /// From now on pages can't be taken (`is`), or they can again. `AllocError` if memory is refused; nothing changes.
    pub fn set_busy(&mut self, is: bool) -> Result<(), AllocError>
        ensures ok { OnOk result (Takes S S.steps self.old.terminal.speaking (busy is) self.new.terminal.speaking) }
        ensures framing { self.new.terminal.framing ≡ self.old.terminal.framing }
        ensures rest { self.new ≡ record self.old { terminal = self.new.terminal } }
        ensures err { OnErr result (self.new ≡ self.old) }
    {
        self.terminal.set_busy(is)
    }

    /// Takes the next burst of the turn that is kept, as `Terminal::next_burst` does; the figures count its frames. A burst ends the calm, and
    /// nothing is said of the line until `pass` says it. `AllocError` if memory is refused; nothing changes.
    pub fn next_burst(&mut self) -> Result<Option<SentBurst>, AllocError>
        ensures sends { Sends S.sends S.lends self.old.terminal.speaking self.new.terminal.speaking result }
        ensures framing { self.new.terminal.framing ≡ self.old.terminal.framing }
        ensures counts { SawSent figures_said S.sends S.lends self.old.terminal.speaking
            self.old.figures self.new.figures result }
        ensures rest { self.new ≡ after_given result (record self.old { terminal = self.new.terminal; figures = self.new.figures }) }
    {
        let sent = self.terminal.next_burst_by(&mut self.figures)?;
        if sent.is_some() {
            self.clock = self.clock.sent();
            self.line = LineState::Unsaid;
        }
        Ok(sent)
    }

    /// Stops the call, as `Terminal::stop` does.
    pub fn stop(&mut self)
        ensures framing { self.new.terminal.framing ≡ self.old.terminal.framing }
        ensures speaking { self.new.terminal.speaking ≡ stopped S.cut_off S.stop_says self.old.terminal.speaking }
        ensures rest { self.new ≡ record self.old { terminal = self.new.terminal } }
    {
        self.terminal.stop();
    }

    /// Stops the call with DCN in place of what was to be sent, as `Terminal::hang_up` does.
    pub fn hang_up(&mut self)
        ensures framing { self.new.terminal.framing ≡ self.old.terminal.framing }
        ensures speaking { self.new.terminal.speaking ≡ hung_up S.cut_off self.old.terminal.speaking }
        ensures rest { self.new ≡ record self.old { terminal = self.new.terminal } }
    {
        self.terminal.hang_up();
    }

    /// The line is gone, as `Terminal::lost` says.
    pub fn lost(&mut self)
        ensures framing { self.new.terminal.framing ≡ self.old.terminal.framing }
        ensures speaking { self.new.terminal.speaking ≡ silenced S.cut_off self.old.terminal.speaking }
        ensures rest { self.new ≡ record self.old { terminal = self.new.terminal } }
    {
        self.terminal.lost();
    }

    /// Returns when something is to be done, in milliseconds, if the line stays as it is and nothing comes; None if nothing ever is. While a
    /// burst waits to be sent that is the end of the call's limit. By the law `timed_are_due` a `pass` does something at each time from then
    /// on, and at none before, if a `pass` came after the last input.
    pub fn due(&self) -> Option<u128>
        ensures { IsDue S S.sends S.lends S.shows self.now result }
    {
        let side = self.terminal.station().side();
        let shown = unless_sending(self.terminal.has_burst(), self.terminal.shown());
        self.clock
            .timeout_due(self.line, side, shown, self.durations, self.limit)
    }

    /// Returns what a program does next: it sends the burst that waits, or waits for the time that is due.
    pub fn next(&self) -> Next
        ensures { IsNext S S.sends S.lends S.shows self.now result }
    {
        let side = self.terminal.station().side();
        let sending = self.terminal.has_burst();
        let shown = unless_sending(sending, self.terminal.shown());
        let due = self
            .clock
            .timeout_due(self.line, side, shown, self.durations, self.limit);
        next_of(sending, due)
    }

    /// Returns how many good frames were heard, of octets of the line and as contents; the count stops at 2^64 - 1.
    pub fn good_frames(&self) -> u64
        ensures { (octets : List ℕ) → HasHeard self.now.terminal.framing octets → result ≡ all_frames octets self.now.contents }
    {
        self.terminal.good_frames().saturating_add(self.contents)
    }

    /// Returns the time that was told last, in milliseconds; 0 before the first.
    pub fn now(&self) -> u64
        ensures { result ≡ self.now.clock.now }
    {
        self.clock.now
    }

    /// Returns what was seen of the other station, if anything is watched.
    pub fn watched(&self) -> Option<Watched>
        ensures { result ≡ self.now.watched }
    {
        self.watched
    }

    /// Returns what the call came to so far, counted from the good frames that were heard and from those of the bursts that were taken.
    pub fn figures(&self) -> Figures
        ensures { result ≡ self.now.figures }
    {
        self.figures
    }

    /// Returns the terminal: its station, what this shows, and whether a burst is left.
    pub fn terminal(&self) -> &Terminal<S>
        ensures { result.now ≡ self.now.terminal }
    {
        &self.terminal
    }
}

impl TimedTerminal<LimitedAnswerer> {
    /// Takes out the stored pages, as `Terminal::take_pages` does.
    pub fn take_pages(&mut self) -> Vec<Page>
        ensures pages { result.items ≡ self.old.terminal.speaking.station.station.pages }
        ensures framing { self.new.terminal.framing ≡ self.old.terminal.framing }
        ensures left { self.new.terminal.speaking ≡ with_pages_taken self.old.terminal.speaking }
        ensures rest { self.new ≡ record self.old { terminal = self.new.terminal } }
    {
        self.terminal.take_pages()
    }
}

/// Hears octets, sees what they bring, by the block that the station has accepted last, counts it, and notes whether something has come.
fn hear_noting<S: Stoppable>(
    terminal: &mut Terminal<S>,
    watched: &mut Option<Watched>,
    figures: &mut Figures,
    brought: &mut bool,
    octets: &[u8],
) -> Result<(), HearFault>
    ensures hears { Hears S.steps S.lends terminal.old octets.now terminal.new result }
    ensures sees { SeesOctets S S.shows terminal.old octets.now watched.old watched.new result }
    ensures counts { SeesByIfTaken figures_heard terminal.old.framing octets.now figures.old
        figures.new result }
    ensures brings { BringsIfTaken terminal.old.framing terminal.new.framing brought.old brought.new result }
{
    let before = terminal.good_frames();
    let mut seen = *watched;
    note(&mut seen, terminal.shown().accepted);
    match terminal.hear_by(octets, &mut seen, figures) {
        Ok(()) => {
            *watched = seen;
            *brought = has_come(*brought, before, terminal.good_frames());
            Ok(())
        }
        Err(HearFault::FrameLost) => {
            *watched = seen;
            *brought = has_come(*brought, before, terminal.good_frames());
            Err(HearFault::FrameLost)
        }
        Err(HearFault::NothingTaken) => Err(HearFault::NothingTaken),
    }
}

/// Hears a content, sees it, by the block that the station has accepted last, and counts it.
fn hear_content_noting<S: Stoppable>(
    terminal: &mut Terminal<S>,
    watched: &mut Option<Watched>,
    figures: &mut Figures,
    content: &[u8],
) -> Result<(), AllocError>
    ensures ok { OnOk result (TakesAll S.steps S.lends terminal.old.speaking (heard_if (read_content content.now)) terminal.new.speaking) }
    ensures sees { OnOk result (SeesContent S S.shows terminal.old content.now watched.old watched.new) }
    ensures counts { OnOk result (figures.new
        ≡ figures_heard figures.old content.now (read_content content.now)) }
    ensures framing { terminal.new.framing ≡ terminal.old.framing }
    ensures err { OnErr result ((terminal.new ≡ terminal.old) × (watched.new ≡ watched.old)
        × (figures.new ≡ figures.old)) }
{
    let (mut seen, mut counted) = (*watched, *figures);
    note(&mut seen, terminal.shown().accepted);
    terminal.hear_content(content, &mut seen, &mut counted)?;
    *watched = seen;
    *figures = counted;
    Ok(())
}

/// What the station listens for hasn't come.
fn miss<S: Stoppable>(terminal: &mut Terminal<S>) -> Result<(), AllocError>
    ensures ok { OnOk result (Misses S S.steps S.shows terminal.old terminal.new) }
    ensures err { OnErr result (terminal.new ≡ terminal.old) }
{
    match terminal.shown().listens {
        Listening::Training(_) => terminal.hear_training(b""),
        Listening::V21 | Listening::V21OrPage(_) | Listening::V21ThenPage(_) => Ok(()),
    }
}

/// Whether something has come, by how many good frames there were before and are now.
fn has_come(had: bool, before: u64, after: u64) -> bool
    ensures { result ≡ (had || nat_lt before after) }
{
    had || before < after
}

/// Whether something has come, after a training check.
fn has_checked(had: bool, listens: Listening, octets: &[u8]) -> bool
    ensures { result ≡ (had || is_awaited listens octets.now) }
{
    had || is_awaited(listens, octets)
}

/// What a program does next, by whether a burst waits, and when something is due.
fn next_of(sending: bool, due: Option<u128>) -> Next
    ensures { result ≡ next_of sending due }
{
    match due {
        _ if sending => Next::Send,
        Some(at) => Next::At(at),
        None => Next::Nothing,
    }
}
