//! Stations of a call that the program can stop, or whose line can go.

ghost use Rattle.std.specs.Prelude.{◌≡◌, None, []};
ghost use Rattle.stations.specs.CallerFields.{Represents};
ghost use Rattle.stations.specs.CallerStep.{Caller as CallerTuple};
ghost use Rattle.stations.specs.Inputs.{answerer_input, caller_input};
ghost use Rattle.stations.specs.Stopping.{call_end, cut_by, stop_turn, CallerStepsUnlessCut, AnswererStepsUnlessCut};
ghost use Rattle.stations.specs.declared.stopping.Cut.TheVariants.{Stop, Loss};

use crate::answerer::Answerer;
use crate::caller::Caller;
use crate::input::{AnswererIn, CallerIn};
use crate::turn::{End, Turn};
use raster::Page;
use std::alloc::AllocError;
use std::marker::Model;

/// What cut a call off.
#[derive(Clone, Copy, Debug, PartialEq, Eq)]
pub enum Cut {
    /// The program stopped it.
    Stop,
    /// The line is gone.
    Loss,
}

/// Why a call ended.
#[derive(Clone, Copy, Debug, PartialEq, Eq)]
pub enum CallEnd {
    /// By what the station heard, or didn't hear in time.
    By(End),
    /// The program stopped it.
    // No ends of a station's table: no input leads to them, and a simulated line has neither.
    Stopped,
    /// The line was lost.
    LineLost,
}

/// A caller whose call can be stopped, or lost with its line.
#[derive(Debug, Drop)]
pub struct StoppableCaller {
    station: Caller,
    cut: Option<Cut>,
}

impl Model for StoppableCaller {
    ghost use Rattle.stations.specs.Stopping.{StoppableCallerFields};

    ghost Value = { StoppableCallerFields };

    ghost view = { λ c. record { station = c.station; cut = c.cut } };
}

impl StoppableCaller {
    /// A caller whose call isn't cut off.
    pub fn new(station: Caller) -> StoppableCaller
        ensures { result ≡ record { station = station; cut = None } }
    {
        StoppableCaller { station, cut: None }
    }

    /// Takes an input and returns the caller's turn; after the call was cut off every turn is silent. `AllocError` if
    /// memory is refused; nothing changes.
    pub fn step(&mut self, input: CallerIn<'_>) -> Result<Turn, AllocError>
        ensures { CallerStepsUnlessCut self.old (caller_input input.entry) self.new result self.old.cut }
    {
        match self.cut {
            Some(_) => Ok(Turn::Silent),
            None => self.station.step(input),
        }
    }

    /// Stops the call and returns DCN; if the call has ended it stays as it ended, and the turn is silent.
    pub fn stop(&mut self) -> Turn
        ensures next { self.new ≡ record self.old { cut = cut_by self.old.station.ending self.old.cut Stop } }
        ensures turn { result ≡ stop_turn self.old.station.ending self.old.cut }
    {
        if self.cut.is_some() || self.station.has_ended() {
            return Turn::Silent;
        }
        self.cut = Some(Cut::Stop);
        Turn::Dcn
    }

    /// The line is gone, and nothing more is sent; if the call has ended it stays as it ended.
    pub fn lost(&mut self)
        ensures { self.new ≡ record self.old { cut = cut_by self.old.station.ending self.old.cut Loss } }
    {
        if self.cut.is_some() || self.station.has_ended() {
            return;
        }
        self.cut = Some(Cut::Loss);
    }

    /// Returns why the call ended, if it has.
    pub fn end(&self) -> Option<CallEnd>
        ensures { (t : CallerTuple) → Represents self.now.station t → result ≡ call_end t.ending self.now.cut }
    {
        call_end(self.station.end(), self.cut)
    }

    /// Returns the caller itself: its items, waits and confirmed pages.
    pub fn station(&self) -> &Caller
        ensures { result.now ≡ self.now.station }
    {
        &self.station
    }

    /// Returns the caller itself; what cut its call off is given up.
    pub fn into_station(self) -> Caller
        ensures { result ≡ self.station }
    {
        self.station
    }
}

/// An answerer whose call can be stopped, or lost with its line.
#[derive(Debug, Drop)]
pub struct StoppableAnswerer {
    station: Answerer,
    cut: Option<Cut>,
}

impl Model for StoppableAnswerer {
    ghost use Rattle.stations.specs.Stopping.{StoppableAnswererFields};

    ghost Value = { StoppableAnswererFields };

    ghost view = { λ a. record { station = a.station; cut = a.cut } };
}

impl StoppableAnswerer {
    /// An answerer whose call isn't cut off.
    pub fn new(station: Answerer) -> StoppableAnswerer
        ensures { result ≡ record { station = station; cut = None } }
    {
        StoppableAnswerer { station, cut: None }
    }

    /// Takes an input and returns the answerer's turn; after the call was cut off every turn is silent. `AllocError` if
    /// memory is refused; nothing changes.
    pub fn step(&mut self, input: AnswererIn<'_>) -> Result<Turn, AllocError>
        ensures { AnswererStepsUnlessCut self.old (answerer_input input.entry) self.new result self.old.cut }
    {
        match self.cut {
            Some(_) => Ok(Turn::Silent),
            None => self.station.step(input),
        }
    }

    /// Stops the call and returns DCN; if the call has ended it stays as it ended, and the turn is silent.
    pub fn stop(&mut self) -> Turn
        ensures next { self.new ≡ record self.old { cut = cut_by self.old.station.ending self.old.cut Stop } }
        ensures turn { result ≡ stop_turn self.old.station.ending self.old.cut }
    {
        if self.cut.is_some() || self.station.end().is_some() {
            return Turn::Silent;
        }
        self.cut = Some(Cut::Stop);
        Turn::Dcn
    }

    /// The line is gone, and nothing more is sent; if the call has ended it stays as it ended.
    pub fn lost(&mut self)
        ensures { self.new ≡ record self.old { cut = cut_by self.old.station.ending self.old.cut Loss } }
    {
        if self.cut.is_some() || self.station.end().is_some() {
            return;
        }
        self.cut = Some(Cut::Loss);
    }

    /// Returns why the call ended, if it has.
    pub fn end(&self) -> Option<CallEnd>
        ensures { result ≡ call_end self.now.station.ending self.now.cut }
    {
        call_end(self.station.end(), self.cut)
    }

    /// Returns the answerer itself: its items, waits and pages.
    pub fn station(&self) -> &Answerer
        ensures { result.now ≡ self.now.station }
    {
        &self.station
    }

    /// Takes out the stored pages, in the order in which they came; nothing else changes. Takes no memory.
    pub fn take_pages(&mut self) -> Vec<Page>
        ensures pages { result.items ≡ self.old.station.pages }
        ensures left { self.new ≡ record self.old { station = record self.old.station { pages = [] } } }
    {
        self.station.take_pages()
    }
}

/// Why a call ended, if it has: as its station did, or cut off before that.
pub(crate) fn call_end(end: Option<End>, cut: Option<Cut>) -> Option<CallEnd>
    ensures { result ≡ call_end end cut }
{
    match (end, cut) {
        (Some(why), _) => Some(CallEnd::By(why)),
        (None, Some(Cut::Stop)) => Some(CallEnd::Stopped),
        (None, Some(Cut::Loss)) => Some(CallEnd::LineLost),
        (None, None) => None,
    }
}
