//! Stations of a call that the program can stop, or whose line can go, as a terminal carries them.

ghost use Rattle.std.specs.Prelude.{◌≡◌};
ghost use Rattle.stations.specs.declared.stopping.Cut.{Cut};
ghost use Rattle.stations.specs.declared.stopping.Cut.TheVariants.{Stop, Loss};
ghost use Rattle.stations.specs.declared.turn.Turn.{Turn};
ghost use Rattle.signals.specs.declared.signal.Side.TheVariants.{Caller as CallerSide, Answerer as AnswererSide};
ghost use Rattle.terminals.specs.Stations.{AnswererLends, CallerLends};
ghost use Rattle.terminals.specs.Stopping.{CallerShows, CallerStepsUnlessCut, LimitedShows, LimitedStepsUnlessCut};
ghost use Rattle.terminals.specs.Stopping.{caller_cut_off, caller_stop_says, limited_cut_off, limited_stop_says, unless_ended, IsShown};
ghost use Rattle.terminals.specs.declared.stopping.Shown.{Shown};

use crate::input::Input;
use crate::station::{Station, answerer_input, caller_input};
use signals::{Mark, Side};
use stations::{Bursts, CallEnd, LimitedAnswerer, Listening, StoppableCaller, Turn, Wait};
use std::alloc::AllocError;

/// What a station shows of its call.
#[derive(Clone, Copy, Debug, PartialEq, Eq)]
pub struct Shown {
    /// The wait that runs; None after the end.
    pub running: Option<Wait>,
    /// The longer wait that runs beside it, if there is one.
    pub longer: Option<Wait>,
    /// What the station listens for; after the end nothing that it hears changes anything.
    pub listens: Listening,
    /// Why the call ended, if it has.
    pub end: Option<CallEnd>,
    /// The mark of the block that an answerer has accepted last; None before the first one, and of a caller.
    pub accepted: Option<Mark>,
}

/// A station whose call can be stopped, or lost with its line.
pub trait Stoppable: Station {
    // The station after this cut its call off: one that has ended stays as it ended.
    ghost cut_off: { Cut → Self → Self };

    // What it sends when the program stops its call.
    ghost stop_says: { Self → Turn };

    // What it shows.
    ghost shows: { Self → Shown → Type 0 };

    /// Stops the call and returns DCN; if the call has ended it stays as it ended, and the turn is silent.
    fn stop(&mut self) -> Turn
        ensures next { self.new ≡ cut_off Stop self.old }
        ensures turn { result ≡ stop_says self.old };

    /// The line is gone; if the call has ended it stays as it ended.
    fn lost(&mut self)
        ensures { self.new ≡ cut_off Loss self.old };

    /// Returns what the station shows of its call: its waits, what it listens for, and its end.
    fn shown(&self) -> Shown
        ensures { IsShown shows self.now result };
}

impl Station for StoppableCaller {
    ghost steps = { λ old input new turn. CallerStepsUnlessCut old.cut old input new turn };

    ghost lends = { λ v turn bursts. CallerLends v.station turn bursts };

    ghost sends = { CallerSide };

    fn take(&mut self, input: Input<'_>) -> Result<Turn, AllocError> {
        match caller_input(self.station().waits(), input) {
            Some(taken) => self.step(taken),
            None => Ok(Turn::Silent),
        }
    }

    fn lend(&self, turn: &Turn) -> Bursts<'_> {
        self.station().bursts(turn)
    }

    fn side(&self) -> Side {
        Side::Caller
    }
}

impl Stoppable for StoppableCaller {
    ghost cut_off = { caller_cut_off };

    ghost stop_says = { caller_stop_says };

    ghost shows = { CallerShows };

    fn stop(&mut self) -> Turn {
        StoppableCaller::stop(self)
    }

    fn lost(&mut self) {
        StoppableCaller::lost(self)
    }

    fn shown(&self) -> Shown {
        let end = self.end();
        let station = self.station();
        Shown {
            running: unless_ended(end, station.waits()),
            longer: unless_ended(end, station.longer_wait()),
            listens: station.listens(),
            end,
            accepted: None,
        }
    }
}

impl Station for LimitedAnswerer {
    ghost steps = { λ old input new turn. LimitedStepsUnlessCut old.cut old input new turn };

    ghost lends = { λ v turn bursts. AnswererLends v.station turn bursts };

    ghost sends = { AnswererSide };

    fn take(&mut self, input: Input<'_>) -> Result<Turn, AllocError> {
        match answerer_input(input) {
            Some(taken) => self.step(taken),
            None => Ok(Turn::Silent),
        }
    }

    fn lend(&self, turn: &Turn) -> Bursts<'_> {
        self.station().bursts(turn)
    }

    fn side(&self) -> Side {
        Side::Answerer
    }
}

impl Stoppable for LimitedAnswerer {
    ghost cut_off = { limited_cut_off };

    ghost stop_says = { limited_stop_says };

    ghost shows = { LimitedShows };

    fn stop(&mut self) -> Turn {
        LimitedAnswerer::stop(self)
    }

    fn lost(&mut self) {
        LimitedAnswerer::lost(self)
    }

    fn shown(&self) -> Shown {
        let end = self.end();
        let station = self.station();
        Shown {
            running: unless_ended(end, station.waits()),
            longer: unless_ended(end, station.longer_wait()),
            listens: self.listens(),
            end,
            accepted: station.last_mark(),
        }
    }
}

/// A wait of a call; None if the call has ended.
fn unless_ended(end: Option<CallEnd>, wait: Option<Wait>) -> Option<Wait>
    ensures { result ≡ unless_ended end wait }
{
    match end {
        Some(_) => None,
        None => wait,
    }
}
