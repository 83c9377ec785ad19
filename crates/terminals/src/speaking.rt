//! A station with the turn that it has to say.

ghost use Rattle.std.specs.Prelude.{◌≡◌, [], List, OnOk, OnErr, drop, true, false};
ghost use Rattle.signals.specs.Signals.{plain, plain_read};
ghost use Rattle.stations.specs.Bursts.{PlainBurst};
ghost use Rattle.terminals.specs.Hearing.{heard, heard_if, plain_input, said};
ghost use Rattle.terminals.specs.Runs.{HearsOne, TakesAll, TakesSome, is_dcn};
ghost use Rattle.terminals.specs.Sending.{HasBurst, Sends};
ghost use Rattle.terminals.specs.Speaking.{AreLent, Takes, is_mcf, is_silent, spoken};
ghost use Rattle.terminals.specs.Stopping.{hung_up, silenced, stopped};
ghost use Rattle.terminals.specs.Watching.{SawFirst, SawSent, saw_all, seen_reading};

use crate::input::Input;
use crate::sending::{SentBurst, pass, see_burst, send};
use crate::station::Station;
use crate::stopping::Stoppable;
use crate::watching::{Watch, Watched};
use hdlc::Deframer;
use signals::{Signal, SignalFault};
use stations::Turn;
use std::alloc::{AllocError, Global};
use std::marker::Model;

/// A station, the turn that is kept for sending, and how many of the turn's bursts were taken.
#[derive(Debug, Drop)]
pub(crate) struct Speaker<S: Station> {
    pub(crate) station: S,
    turn: Turn,
    // enough: a turn has two bursts at most, and after 255 none is given
    taken: u8,
}

impl<S: Station> Model for Speaker<S> {
    ghost use Rattle.terminals.specs.Speaking.{Speaking};

    ghost Value = { Speaking S };

    ghost view = { λ s. record { station = s.station; turn = s.turn; taken = s.taken } };
}

/// Whether a turn is silence.
fn is_silent(turn: &Turn) -> bool
    ensures { result ≡ is_silent turn.now }
{
    matches!(turn, Turn::Silent)
}

/// Returns whether a signal is DCN.
fn is_dcn(signal: Signal<'_>) -> bool
    ensures { result ≡ is_dcn (plain signal.entry) }
{
    matches!(signal, Signal::Dcn)
}

impl<S: Station> Speaker<S> {
    /// A station with a turn of which nothing was taken.
    pub(crate) fn new(station: S, turn: Turn) -> Speaker<S>
        ensures { result ≡ record { station = station; turn = turn; taken = 0 } }
    {
        Speaker {
            station,
            turn,
            taken: 0,
        }
    }

    /// The station has an input. `AllocError` if memory is refused; nothing changes.
    pub(crate) fn hear(&mut self, input: Input<'_>) -> Result<(), AllocError>
        ensures ok { OnOk result (Takes S S.steps self.old (plain_input input.entry) self.new) }
        ensures err { OnErr result (self.new ≡ self.old) }
    {
        let turn = self.station.take(input)?;
        if is_silent(&turn) {
            return Ok(());
        }
        self.turn = turn;
        self.taken = 0;
        Ok(())
    }

    /// The frames of the next burst of the turn that is kept are seen, if one is left.
    fn see_next<W: Watch>(&self, watch: &mut W)
        ensures { (bursts : List PlainBurst) × AreLent S.lends self.now.station self.now.turn bursts
            × SawFirst W.saw_said S.sends (drop self.now.taken bursts) watch.old watch.new }
    {
        let mut bursts = self.station.lend(&self.turn);
        pass(&mut bursts, self.taken);
        let next = bursts.take_next();
        see_burst(self.station.side(), next, watch);
    }

    /// The next burst of the turn that is kept, as it is sent; None if all were taken. Its frames are seen once it is whole. `AllocError` if
    /// memory is refused; nothing changes.
    pub(crate) fn next_burst<W: Watch>(
        &mut self,
        alloc: Global,
        watch: &mut W,
    ) -> Result<Option<SentBurst>, AllocError>
        ensures sends { Sends S.sends S.lends self.old self.new result }
        ensures says { SawSent W.saw_said S.sends S.lends self.old watch.old watch.new result }
    {
        // As the station has them now: a silent input since, such as the MCF of a group's last block, can leave nothing
        // of the turn.
        let mut bursts = self.station.lend(&self.turn);
        let Some(next) = self.taken.checked_add(1) else {
            return Ok(None);
        };
        pass(&mut bursts, self.taken);
        let Some(burst) = bursts.take_next() else {
            return Ok(None);
        };
        let sent = send(alloc, self.station.side(), burst)?;
        self.see_next(watch);
        self.taken = next;
        Ok(Some(sent))
    }

    /// Whether the turn that is kept is MCF.
    pub(crate) fn confirms(&self) -> bool
        ensures { result ≡ is_mcf self.now.turn }
    {
        matches!(self.turn, Turn::Mcf)
    }

    /// Whether a burst of the turn that is kept is left to be sent.
    pub(crate) fn has_burst(&self) -> bool
        ensures { HasBurst S.lends self.now result }
    {
        let mut bursts = self.station.lend(&self.turn);
        if self.taken == u8::MAX {
            return false;
        }
        pass(&mut bursts, self.taken);
        bursts.take_next().is_some()
    }

    /// Takes a signal that comes, or passes over it if it isn't DCN and a burst of the turn is left to be sent: the station doesn't listen
    /// then. `AllocError` if memory is refused; nothing changes.
    fn hear_signal(&mut self, signal: Signal<'_>) -> Result<(), AllocError>
        ensures ok { OnOk result
            (HearsOne S S.steps S.lends self.old (said (plain signal.entry)) self.new) }
        ensures err { OnErr result (self.new ≡ self.old) }
    {
        let sending = self.has_burst();
        if sending && !is_dcn(signal) {
            return Ok(());
        }
        self.hear(Input::Heard(signal))
    }

    /// The station hears what a content says; nothing if it says no signal. Returns false if memory was refused; nothing has changed.
    pub(crate) fn hear_said(&mut self, said: Result<Signal<'_>, SignalFault>) -> bool
        ensures heard { result ≡ true → TakesAll S.steps S.lends self.old (heard_if (plain_read said.entry)) self.new }
        ensures lost { result ≡ false → self.new ≡ self.old }
    {
        let Ok(signal) = said else {
            return true;
        };
        match self.hear_signal(signal) {
            Ok(()) => true,
            Err(_) => false,
        }
    }
}

impl<S: Stoppable> Speaker<S> {
    /// The program stops the call: DCN takes the place of the turn that is kept. If the call has ended nothing changes.
    pub(crate) fn stop(&mut self)
        ensures { self.new ≡ stopped S.cut_off S.stop_says self.old }
    {
        let turn = self.station.stop();
        if !is_silent(&turn) {
            self.turn = turn;
            self.taken = 0;
        }
    }

    /// The program stops the call, and DCN takes the place of the turn that is kept, also if the call has ended.
    pub(crate) fn hang_up(&mut self)
        ensures { self.new ≡ hung_up S.cut_off self.old }
    {
        let _turn = self.station.stop();
        self.turn = Turn::Dcn;
        self.taken = 0;
    }

    /// The line is gone: nothing is left to be sent.
    pub(crate) fn lost(&mut self)
        ensures { self.new ≡ silenced S.cut_off self.old }
    {
        self.station.lost();
        self.turn = Turn::Silent;
        self.taken = 0;
    }
}

/// The station hears what each content that waits says, and each is seen, read once. Returns false if memory was refused; some
/// contents are lost to the station.
pub(crate) fn hear_waiting<S: Station, W: Watch>(
    deframer: &mut Deframer,
    speaker: &mut Speaker<S>,
    watched: &mut Option<Watched>,
    watch: &mut W,
) -> bool
    ensures all { result ≡ true → TakesAll S.steps S.lends speaker.old (heard deframer.old.queue) speaker.new }
    ensures some { TakesSome S.steps S.lends speaker.old (heard deframer.old.queue) speaker.new }
    ensures watched { watched.new ≡ saw_all seen_reading watched.old deframer.old.queue }
    ensures seen { watch.new ≡ saw_all W.saw watch.old deframer.old.queue }
    ensures taken { deframer.new ≡ record deframer.old { queue = [] } }
{
    let mut all = true;
    while let Some(content) = deframer.next() {
        let said = signals::read(content);
        watched.see(content, said);
        watch.see(content, said);
        all &= speaker.hear_said(said);
    }
    all
}
