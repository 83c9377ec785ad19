//! A call that keeps no transcript.

ghost use Rattle.line_sim.specs.Entries.{head_kind};
ghost use Rattle.line_sim.specs.Headline.{IsSafe};
ghost use Rattle.line_sim.specs.Line.{World as WorldValue};
ghost use Rattle.line_sim.specs.Live.{HoldsLive, steps_in};
ghost use Rattle.line_sim.specs.Octets.{IsLentAt, sender_to, under_way_to};
ghost use Rattle.line_sim.specs.PageMachine.{AtMostTwo};
ghost use Rattle.line_sim.specs.Polite.{next_steps};
ghost use Rattle.line_sim.specs.Putting.{Puts};
ghost use Rattle.line_sim.specs.Represents.{Acts, IsUnheard, NewCall, Shows, fields_state};
ghost use Rattle.line_sim.specs.declared.event.Kind.TheVariants.{Training};
ghost use Rattle.stations.specs.CallerStep.{confirmed};
ghost use Rattle.stations.specs.Laws.{Each};
ghost use Rattle.stations.specs.Layers.{IsFullPage};
ghost use Rattle.std.specs.Prelude.{◌≡◌, ◌≢◌, IfOk, Some, length, false, true};

use crate::call::Call;
use crate::event::{Entry, Event, LineItem};
use crate::fault::WorldFault;
use crate::laws::headline;
use crate::pages::keep_once;
use crate::world::are_full_pages;
use raster::{Document, Page};
use signals::{Caps, Side, Wish};
use stations::laws::{layers_hold, signals_hold, taken_and_there};
use stations::{CodedDocument, End};
use std::alloc::Global;
use std::marker::Model;

/// A caller and an answerer, and what is under way between them, without a transcript: each event returns its entry. A page that is stored
/// is compared with the document's, which is the same by the headline, and is kept once.
#[derive(Debug, Drop)]
pub struct LiveCall {
    pub(crate) call: Call,
    // How many of the document's first pages are stored. The answerer keeps none of them.
    same: usize,
}

impl Model for LiveCall {
    ghost use Rattle.line_sim.specs.declared.call.Call.{Call};
    ghost use Rattle.line_sim.specs.Live.{IsWhole, whole_call};

    ghost Value = { Call };

    ghost view = { λ l. whole_call l.same l.call };

    ghost invariant = { λ l. IsWhole l.same l.call };
}

/// The next event of a call that nobody disturbs.
#[derive(Clone, Copy, Debug, PartialEq, Eq)]
pub enum Next {
    /// The first item under way comes, by this event.
    Item(Event),
    /// A group of pages is through and another one follows: the answerer's T2, and its DIS comes.
    Group,
    /// Nothing is left to happen.
    Nothing,
}

/// The final state of a call.
#[derive(Debug, Drop)]
pub struct Ending {
    /// The pages that the answerer has stored, in order.
    pub pages: Vec<Page>,
    /// How many pages the caller counts as confirmed.
    pub confirmed: u64,
    /// Why the call ended for the caller, if it has.
    pub caller_end: Option<End>,
    /// Why the call ended for the answerer, if it has.
    pub answerer_end: Option<End>,
}

/// The final state of a call, with the number of its stored pages in place of the pages.
#[derive(Clone, Copy, Debug, PartialEq, Eq)]
pub struct EndingCounts {
    /// How many pages the answerer has stored.
    pub stored: usize,
    /// How many pages the caller counts as confirmed.
    pub confirmed: u64,
    /// Why the call ended for the caller, if it has.
    pub caller_end: Option<End>,
    /// Why the call ended for the answerer, if it has.
    pub answerer_end: Option<End>,
}

impl LiveCall {
    /// A call at its start: the answerer's DIS is under way, and nothing is stored or confirmed. Errs with `NoMemory`, and with
    /// `WidthNotCallable` if no call can have the width of a page.
    pub fn new(
        alloc: Global,
        document: Document,
        wish: Wish,
        caps: Caps,
    ) -> Result<LiveCall, WorldFault>
        requires receiver { caps.receiver ≡ true }
        requires ecm { caps.ecm ≡ true }
        ensures new { NewCall document wish caps result }
        ensures holds { IfOk result HoldsLive }
    {
        LiveCall::of_coded(alloc, CodedDocument::uncoded(alloc, document), wish, caps)
    }

    /// Returns what `new` returns for the document alone, of a caller with the codes of its pages.
    pub fn of_coded(
        alloc: Global,
        document: CodedDocument,
        wish: Wish,
        caps: Caps,
    ) -> Result<LiveCall, WorldFault>
        requires receiver { caps.receiver ≡ true }
        requires ecm { caps.ecm ≡ true }
        ensures new { NewCall document wish caps result }
        ensures holds { IfOk result HoldsLive }
    {
        headline();
        layers_hold();
        signals_hold();
        are_full_pages(document.pages());
        let call = Call::new(alloc, document, wish, caps)?;
        Ok(LiveCall { call, same: 0 })
    }

    /// What comes next if nobody disturbs the call: the next step of a polite run.
    pub fn next_delivery(&self) -> Next
        ensures { (w : WorldValue) → Shows self.now w → next_steps w w.to_answerer w.to_caller ≡ steps_in result }
    {
        if !self.call.to_answerer.is_empty() {
            return Next::Item(Event::DeliverToAnswerer);
        }
        if !self.call.to_caller.is_empty() {
            return Next::Item(Event::DeliverToCaller);
        }
        if self.call.is_between_groups() {
            return Next::Group;
        }
        Next::Nothing
    }

    /// How many items are under way to a station. The first item to the caller is never a training check, since only a caller sends these.
    pub fn count_to(&self, to: Side) -> usize
        ensures count { result ≡ length (under_way_to to self.now) }
        ensures no_check { head_kind self.now.to_caller ≢ Some Training }
    {
        headline();
        match to {
            Side::Caller => self.call.to_caller.count(),
            Side::Answerer => self.call.to_answerer.count(),
        }
    }

    /// The item at a place, from 0, of those under way to a station; the one at place 0 comes next; None past the last one. Takes no
    /// memory. An event puts its items behind those that are there: they are the items from the place on that `count_to` returned before
    /// it, in order, and there are none if it has taken some away, as a delivery, a loss or a transmission of that station does. A new call
    /// has put the item at place 0. A training check that an event spoils stays at its place, with octets FF.
    pub fn item_to(&self, to: Side, place: usize) -> Option<LineItem<'_>>
        ensures { IsLentAt (sender_to to) place result (under_way_to to self.now) }
    {
        match to {
            Side::Caller => self.call.to_caller.item(place),
            Side::Answerer => self.call.to_answerer.item(place),
        }
    }

    /// Does one event, and returns its entry, which shows if a growth was refused in it. Both stations are in step before and after it
    /// (clauses `before` and `after`), and what it has put under way is what its station sends (clause `puts`), or the first items of that
    /// if a growth was refused.
    pub fn event(&mut self, event: Event) -> Entry
        ensures acts { Acts self.old self.new event result }
        ensures whole { IsUnheard event → result.refused ≡ false }
        ensures puts { Puts self.old self.new event result.refused }
        ensures moves { AtMostTwo (length self.old.caller.document) (fields_state self.old) (fields_state self.new) }
        ensures document { self.new.caller.document ≡ self.old.caller.document }
        ensures before { HoldsLive self.old }
        ensures after { HoldsLive self.new }
    {
        headline();
        layers_hold();
        signals_hold();
        taken_and_there();
        let entry = self.call.act(event);
        self.same = keep_once(&mut self.call, self.same);
        entry
    }

    /// The final state of the call: the pages stored are the first of the document, each confirmed page is stored once, and a station's
    /// normal end means that all are stored (clause `safe`).
    pub fn into_ending(self) -> Ending
        ensures pages { (w : WorldValue) → Shows self w → result.pages.items ≡ w.answerer.pages }
        ensures confirmed { (w : WorldValue) → Shows self w → result.confirmed ≡ confirmed w.caller }
        ensures caller { (w : WorldValue) → Shows self w → result.caller_end ≡ w.caller.ending }
        ensures answerer { (w : WorldValue) → Shows self w → result.answerer_end ≡ w.answerer.ending }
        ensures safe { IsSafe self.caller.document result.pages.items result.confirmed result.caller_end result.answerer_end }
    {
        headline();
        layers_hold();
        signals_hold();
        let LiveCall { call, same } = self;
        let confirmed = call.caller.confirmed();
        let caller_end = call.caller.end();
        let answerer_end = call.answerer.end();
        let mut pages = call.caller.into_coded().into_document().into_pages();
        pages.truncate(same);
        Ending {
            pages,
            confirmed,
            caller_end,
            answerer_end,
        }
    }

    /// Returns what `into_ending` returns, with the number of the stored pages in place of the pages, and the document with the codes of its
    /// pages that the caller was made with, for a further call.
    pub fn into_counts_and_document(self) -> (EndingCounts, CodedDocument)
        ensures stored { (w : WorldValue) → Shows self w → result.0.stored ≡ length w.answerer.pages }
        ensures confirmed { (w : WorldValue) → Shows self w → result.0.confirmed ≡ confirmed w.caller }
        ensures caller { (w : WorldValue) → Shows self w → result.0.caller_end ≡ w.caller.ending }
        ensures answerer { (w : WorldValue) → Shows self w → result.0.answerer_end ≡ w.answerer.ending }
        ensures safe { IsSafe self.caller.document self.answerer.pages result.0.confirmed result.0.caller_end result.0.answerer_end }
        ensures document { result.1 ≡ self.caller.document }
    {
        headline();
        layers_hold();
        signals_hold();
        let LiveCall { call, same } = self;
        let counts = EndingCounts {
            stored: same,
            confirmed: call.caller.confirmed(),
            caller_end: call.caller.end(),
            answerer_end: call.answerer.end(),
        };
        (counts, call.caller.into_coded())
    }
}
