//! An answerer that stores no more pages than it is given room for.

ghost use Rattle.std.specs.Prelude.{◌≡◌, ◌<◌, ◌≤◌, ◌↔◌, ◌&&◌, true, false, [], None, IsTrue};
ghost use Rattle.stations.specs.AnswererStep.{new_answerer};
ghost use Rattle.stations.specs.CallerStep.{no_params};
ghost use Rattle.stations.specs.Inputs.{answerer_input};
ghost use Rattle.stations.specs.Limiting.{is_full, is_kept_out, busy_while, told_by, not_ready, page_octets, octets_of_pages};
ghost use Rattle.stations.specs.Limiting.{freed, IsWithin, LimitedSteps, LimitedStepsUnlessCut};
ghost use Rattle.stations.specs.Stopping.{call_end, cut_by, stop_turn};
ghost use Rattle.stations.specs.declared.stopping.Cut.TheVariants.{Stop, Loss};

use crate::answerer::Answerer;
use crate::input::AnswererIn;
use crate::laws::stored_is_read;
use crate::listening::last_reply;
use crate::stopping::{CallEnd, Cut, call_end};
use crate::turn::Turn;
use raster::Page;
use signals::{Caps, Mark, Signal};
use std::alloc::{AllocError, Global};
use std::marker::Model;

/// How much an answerer stores until its pages are taken. The page that reaches a limit is stored too, since its size
/// is known only then; the open page, at most 8,388,608 octets of code, comes on top.
#[derive(Clone, Copy, Debug, PartialEq, Eq)]
pub struct Limits {
    /// The number of pages, not 0.
    pub pages: u64,
    /// The octets of their packed rows, not 0.
    pub octets: u64,
}

/// An answerer that stores no more than its limits until its pages are taken. The page that reaches a limit is stored
/// and gets RNR in place of MCF; from then on RR and a repeated PPS get RNR, no FCD is kept, and the PPS of another
/// block gets no answer, as if the line had lost it. A program takes the pages after each RNR. The call can be stopped
/// or lost, as that of a `StoppableAnswerer`.
#[derive(Debug, Drop)]
pub struct LimitedAnswerer {
    station: Answerer,
    limits: Limits,
    told: bool,
    said: Turn,
    cut: Option<Cut>,
}

impl Model for LimitedAnswerer {
    ghost use Rattle.stations.specs.Limiting.{IsWithin, LimitedFields};

    ghost Value = { LimitedFields };

    ghost view = { λ a. record { station = a.station; limits = a.limits; told = a.told; said = a.said; cut = a.cut } };

    ghost invariant = { λ a. IsWithin a.limits a.station.pages };
}

impl LimitedAnswerer {
    /// An answerer in phase B with limits, neither of them 0, and its first turn, which is DIS. `caps` must have a
    /// receiver and error correction. Takes no memory.
    pub fn new(alloc: Global, caps: Caps, limits: Limits) -> (LimitedAnswerer, Turn)
        requires receiver { caps.receiver ≡ true }
        requires ecm { caps.ecm ≡ true }
        requires pages { 0 < limits.pages }
        requires octets { 0 < limits.octets }
        ensures station { result.0 ≡ record { station = new_answerer caps no_params; limits = limits; told = false; said = Turn.Dis; cut = None } }
        ensures turn { result.1 ≡ Turn.Dis }
    {
        let (station, turn) = Answerer::new(alloc, caps);
        let limited = LimitedAnswerer {
            station,
            limits,
            told: false,
            said: turn,
            cut: None,
        };
        (limited, turn)
    }

    /// Takes an input and returns the turn to be sent; after the end, or after the call was cut off, every turn is
    /// silent. At most one page is above a limit. `AllocError` if memory is refused; nothing changes.
    pub fn step(&mut self, input: AnswererIn<'_>) -> Result<Turn, AllocError>
        ensures steps { LimitedStepsUnlessCut self.old (answerer_input input.entry) self.new result self.old.cut }
        ensures within { IsWithin self.new.limits self.new.station.pages }
    {
        match self.cut {
            Some(_) => Ok(Turn::Silent),
            None => self.advance(input),
        }
    }

    /// Takes an input of a call that wasn't cut off.
    fn advance(&mut self, input: AnswererIn<'_>) -> Result<Turn, AllocError>
        ensures steps { LimitedSteps self.old (answerer_input input.entry) self.new result }
        ensures within { IsWithin self.new.limits self.new.station.pages }
    {
        stored_is_read();
        let full = is_full(self.limits, self.station.pages());
        if is_out(full, &self.station, input) {
            return Ok(Turn::Silent);
        }
        let turn = self.station.step(as_heard(full, input))?;
        self.told = as_told(self.told, input);
        let filled = is_full(self.limits, self.station.pages());
        let becomes_full = !full && filled;
        if !becomes_full {
            self.said = last_reply(self.said, turn);
            return Ok(turn);
        }
        self.station.become_busy(true);
        let turn = as_not_ready(turn);
        self.said = last_reply(self.said, turn);
        Ok(turn)
    }

    /// Takes out the stored pages, in the order in which they came, and so makes room; an answerer that runs is then as
    /// busy as the program said last. Takes no memory.
    pub fn take_pages(&mut self) -> Vec<Page>
        ensures pages { result.items ≡ self.old.station.pages }
        ensures left { self.new ≡ record self.old { station = freed self.old.station.ending self.old.told self.old.station } }
    {
        let pages = self.station.take_pages();
        if self.station.end().is_none() {
            self.station.become_busy(self.told);
        }
        pages
    }

    /// Stops the call and returns DCN; if the call has ended it stays as it ended, and the turn is silent.
    pub fn stop(&mut self) -> Turn
        ensures next { self.new ≡ record self.old { cut = cut_by self.old.station.ending self.old.cut Stop } }
        ensures turn { result ≡ stop_turn self.old.station.ending self.old.cut }
    {
        if self.cut.is_some() || self.station.end().is_some() {
            return Turn::Silent;
        }
        self.cut = Some(Cut::Stop);
        Turn::Dcn
    }

    /// The line is gone, and nothing more is sent; if the call has ended it stays as it ended.
    pub fn lost(&mut self)
        ensures { self.new ≡ record self.old { cut = cut_by self.old.station.ending self.old.cut Loss } }
    {
        if self.cut.is_some() || self.station.end().is_some() {
            return;
        }
        self.cut = Some(Cut::Loss);
    }

    /// Returns why the call ended, if it has.
    pub fn end(&self) -> Option<CallEnd>
        ensures { result ≡ call_end self.now.station.ending self.now.cut }
    {
        call_end(self.station.end(), self.cut)
    }

    /// Returns the answerer itself: its items, waits and pages.
    pub fn station(&self) -> &Answerer
        ensures { result.now ≡ self.now.station }
    {
        &self.station
    }

    /// The last turn that wasn't silent.
    pub(crate) fn said(&self) -> &Turn
        ensures { result.now ≡ self.now.said }
    {
        &self.said
    }
}

/// Whether pages reach a limit.
fn is_full(limits: Limits, pages: &[Page]) -> bool
    ensures { result ≡ is_full limits pages.now }
{
    pages.len() as u64 >= limits.pages || reach(pages, limits.octets)
}

/// Whether the packed rows of pages have at least this number of octets.
fn reach(pages: &[Page], octets: u64) -> bool
    ensures { IsTrue result ↔ (octets ≤ octets_of_pages pages.now) }
{
    let mut left = octets as u128;
    for page in pages {
        let more = page_octets(page);
        if more >= left {
            return true;
        }
        left -= more;
    }
    left == 0
}

/// The octets of a page's packed rows.
fn page_octets(page: &Page) -> u128
    ensures { result ≡ page_octets page.now }
{
    let width = page.width() as u128;
    page.rows().len() as u128 * ((width + 7) / 8)
}

/// Whether a full answerer ignores an input, as if the line had lost it.
fn keeps_out(station: &Answerer, input: AnswererIn<'_>) -> bool
    ensures { result ≡ is_kept_out station.now (answerer_input input.entry) }
{
    match input {
        AnswererIn::Heard(Signal::Fcd { .. }) => true,
        AnswererIn::Heard(Signal::Pps { page, block, .. }) => {
            !station.has_accepted(Mark { page, block })
        }
        _ => false,
    }
}

/// Whether an answerer that is full, or isn't, doesn't hear an input.
fn is_out(full: bool, station: &Answerer, input: AnswererIn<'_>) -> bool
    ensures { result ≡ full && is_kept_out station.now (answerer_input input.entry) }
{
    full && keeps_out(station, input)
}

/// An input as the answerer hears it: one that is full stays busy.
fn as_heard(full: bool, input: AnswererIn<'_>) -> AnswererIn<'_>
    ensures { answerer_input result ≡ busy_while full (answerer_input input.entry) }
{
    match input {
        AnswererIn::Busy(busy) => AnswererIn::Busy(busy || full),
        _ => input,
    }
}

/// Whether the program said last that the answerer is busy.
fn as_told(told: bool, input: AnswererIn<'_>) -> bool
    ensures { result ≡ told_by told (answerer_input input.entry) }
{
    match input {
        AnswererIn::Busy(busy) => busy,
        _ => told,
    }
}

/// RNR in place of MCF.
fn as_not_ready(turn: Turn) -> Turn
    ensures { result ≡ not_ready turn }
{
    match turn {
        Turn::Mcf => Turn::Rnr,
        _ => turn,
    }
}
