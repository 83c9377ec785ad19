//! A world: a caller, an answerer, the half-duplex line between them, and a transcript.

ghost use Rattle.line_sim.specs.Invariant.{Begins, Holds, TakesWholeBlock};
ghost use Rattle.line_sim.specs.Line.{World as WorldValue, Outcome, new_world};
ghost use Rattle.line_sim.specs.PageMachine.{AtMostTwo};
ghost use Rattle.line_sim.specs.Report.{Keeps, KeepsRun, RunsTo, Tells, TellsWhole};
ghost use Rattle.line_sim.specs.Represents.{Becomes, BecomesSome, NewWorld, Shows, fields_state};
ghost use Rattle.raster.specs.Pages.{IsDocument};
ghost use Rattle.stations.specs.Laws.{Each};
ghost use Rattle.stations.specs.Layers.{IsFullPage};
ghost use Rattle.line_sim.specs.Octets.{ComeNext, sender_to, under_way_to};
ghost use Rattle.std.specs.Prelude.{◌≡◌, ◌<◌, ◌+◌, ◌++◌, ◌∷◌, [], true, OnOk, OnErr, IfOk, length, option_map, vec_len, vec_capacity};

use crate::call::Call;
use crate::event::{Entry, Event};
use crate::fault::WorldFault;
use crate::laws::{counted, headline};
use crate::report::Report;
use raster::{Document, Page};
use signals::{Caps, Side, Wish};
use stations::CodedDocument;
use stations::laws::{layers_hold, signals_hold};
use std::alloc::{AllocError, Global};
use std::marker::Model;

/// A caller and an answerer, what is under way between them, and a transcript of all events. It is given each event, so every schedule can
/// be run.
#[derive(Debug, Drop)]
pub struct World {
    pub(crate) call: Call,
    transcript: Vec<Entry>,
    refused: u64,
}

impl Model for World {
    ghost use Rattle.line_sim.specs.Represents.{WorldFields};

    ghost Value = { WorldFields };

    ghost view = { λ w. record { call = w.call; entries = w.transcript.items } };

    ghost use Rattle.line_sim.specs.Represents.{IsReached};
    ghost use Rattle.line_sim.specs.Entries.{marks};
    ghost use Rattle.stations.specs.Laws.{Each};
    ghost use Rattle.stations.specs.Layers.{IsFullPage};
    ghost use Rattle.std.specs.Prelude.{◌≡◌};

    ghost invariant = { λ w. IsReached (record { call = w.call; entries = w.transcript.items }) × (w.refused ≡ marks w.transcript.items) };
}

impl World {
    /// A world at the start of a call: the answerer's DIS is under way, and nothing is stored or confirmed. Errs with `NoMemory`, and with
    /// `WidthNotCallable` if no call can have the width of a page.
    pub fn new(
        alloc: Global,
        document: Document,
        wish: Wish,
        caps: Caps,
    ) -> Result<World, WorldFault>
        requires receiver { caps.receiver ≡ true }
        requires ecm { caps.ecm ≡ true }
        ensures new { NewWorld document wish caps result }
        ensures begins { IfOk result (λ world. Begins document wish caps world) }
    {
        headline();
        layers_hold();
        signals_hold();
        has_full_pages(&document);
        let call = Call::new(alloc, CodedDocument::uncoded(alloc, document), wish, caps)?;
        Ok(World {
            call,
            transcript: Vec::new(alloc),
            refused: 0,
        })
    }

    /// Does an event, and notes its entry.
    fn apply(&mut self, event: Event) -> Result<(), AllocError>
        ensures ok { OnOk result (Becomes self.old self.new event Outcome.Done) }
        ensures err { OnErr result (BecomesSome self.old self.new event) }
    {
        headline();
        // The clauses can't say that memory was there: a body that lost a timer's input without need, and marked its entry, would meet
        // them.
        let Ok(()) = self.transcript.reserve(1) else {
            return Err(AllocError);
        };
        let entry = self.call.act(event);
        note(&mut self.transcript, entry);
        if entry.refused {
            self.refused += 1;
            return Err(AllocError);
        }
        Ok(())
    }

    /// Does one event. Errs if a growth is refused: without room for its entry nothing happens; else the entry is marked, and the input was
    /// lost before the station's step, or the step was made and only the first items of its turn are under way. The loss of an item and a
    /// spoiled training check need memory for their entry alone. Whatever it returns, both stations are in step before and after it, and a
    /// block whose PPS is delivered is accepted exactly if each of its frames is open (clause `whole`).
    pub fn event(&mut self, event: Event) -> Result<(), AllocError>
        ensures ok { OnOk result (Becomes self.old self.new event Outcome.Done) }
        ensures err { OnErr result (BecomesSome self.old self.new event) }
        ensures moves { AtMostTwo (length self.old.call.caller.document) (fields_state self.old.call) (fields_state self.new.call) }
        ensures document { self.new.call.caller.document ≡ self.old.call.caller.document }
        ensures before { Holds self.old }
        ensures after { Holds self.new }
        ensures whole { OnOk result (TakesWholeBlock self.old self.new event) }
    {
        headline();
        layers_hold();
        signals_hold();
        let _ = &self.call; // for the proof: what holds of every world
        self.apply(event)
    }

    /// The octets that come next to a station over the line, the least significant bit of each first: those of a frame with its flags, as
    /// the other station writes it, or of a training check. The frame has the sender's X, and the control field of a final frame if it
    /// isn't an FCD or an RCP. None if nothing is under way to the station. Takes no memory.
    pub fn next_octets(&self, to: Side) -> Option<&[u8]>
        ensures { ComeNext (sender_to to) (option_map (λ octets. octets.now) result) (under_way_to to self.now.call) }
    {
        match to {
            Side::Caller => self.call.to_caller.next_octets(),
            Side::Answerer => self.call.to_answerer.next_octets(),
        }
    }

    /// The report of the call.
    fn into_report(self) -> Report
        ensures tells { (w : WorldValue) → Shows self.call w → Tells result w self.entries }
        ensures none { result.left_out ≡ 0 }
    {
        let World {
            call,
            transcript,
            refused,
        } = self;
        let confirmed = call.caller.confirmed();
        let caller_end = call.caller.end();
        let answerer_end = call.answerer.end();
        Report {
            pages: call.answerer.into_pages(),
            confirmed,
            caller_end,
            answerer_end,
            refused,
            left_out: 0,
            transcript,
        }
    }

    /// The number of entries.
    fn noted(&self) -> u64
        ensures { result ≡ length self.now.entries }
    {
        self.transcript.len() as u64
    }

    /// Does one event of a run. Returns 1 if it found no room for its entry, else 0.
    fn leaves_out(&mut self, event: Event) -> u64
        ensures becomes { (outcome : Outcome) × Becomes self.old self.new event outcome }
        ensures counted { length self.new.entries + result ≡ length self.old.entries + 1 }
    {
        let before = self.noted();
        let _answer = self.event(event);
        if self.noted() == before { 1 } else { 0 }
    }

    /// The report of the call. Whatever the events were, the pages stored are the first of the document, each confirmed page is stored
    /// once, and a station's normal end means that all are stored (clause `keeps`).
    pub fn report(self) -> Report
        ensures tells { (w : WorldValue) → Shows self.call w → Tells result w self.entries }
        ensures keeps { Keeps self.call.caller.document result }
        ensures none { result.left_out ≡ 0 }
    {
        headline();
        counted();
        layers_hold();
        signals_hold();
        let _ = &self.call; // for the proof: what holds of every world
        self.into_report()
    }
}

/// Each page of a document has rows, all of its width, and not too many.
pub(crate) fn has_full_pages(document: &Document)
    ensures { Each IsFullPage document.now }
{
    are_full_pages(document.pages());
}

/// Each page of a document's has rows, all of its width, and not too many.
pub(crate) fn are_full_pages(pages: &[Page])
    requires { IsDocument pages.now }
    ensures { Each IsFullPage pages.now }
{
    for page in pages {
        let _rows = page.rows(); // for the proof: what holds of every page
    }
}

/// Adds an entry, for which there is room.
fn note(transcript: &mut Vec<Entry>, entry: Entry)
    requires { vec_len transcript.old < vec_capacity transcript.old }
    ensures { transcript.new.items ≡ transcript.old.items ++ entry ∷ [] }
{
    let Ok(()) = transcript.push(entry) else {
        unreachable!();
    };
}

/// Runs a call: a new world is given each event, in order, and goes on after a refused one. Returns its report. Errs with `NoMemory` or
/// `WidthNotCallable` if there is no new world. Each event has its entry or is counted as left out (clause `each`); if none is left out and
/// none was refused, all of each is done (clause `whole`).
pub fn run(
    alloc: Global,
    document: Document,
    wish: Wish,
    caps: Caps,
    events: &[Event],
) -> Result<Report, WorldFault>
    requires receiver { caps.receiver ≡ true }
    requires ecm { caps.ecm ≡ true }
    ensures runs { RunsTo document wish caps events.now result }
    ensures keeps { IfOk result (λ report. KeepsRun document wish caps events.now report) }
    ensures whole { IfOk result (λ report. TellsWhole document wish caps events.now report) }
    ensures each { IfOk result (λ report. length report.transcript.items + report.left_out ≡ length events.now) }
{
    headline();
    counted();
    has_full_pages(&document);
    let mut world = World::new(alloc, document, wish, caps)?;
    let mut left_out = 0;
    for event in events {
        // A world doesn't count an event without room for its entry, so that `refused` is the number of marks; a run counts it here.
        left_out += world.leaves_out(*event);
    }
    let mut report = world.report();
    report.left_out = left_out;
    Ok(report)
}
