//! A call that fates drive: no script says what happens next.

ghost use Rattle.line_sim.specs.Driving.{Driven, Patience as PatienceValue, dis_is_due, first_fate};
ghost use Rattle.line_sim.specs.Entries.{head_kind};
ghost use Rattle.line_sim.specs.Fates.{ActsIf, BearsTwo, ComesNext, DrivesAll, EndsDriven, IsUnheardIf, MayAct, NewDriven, SetsBusy, ShowsDriven};
ghost use Rattle.line_sim.specs.Fates.{Steps, act_to_answerer, act_to_caller, act_waiting, asks_ready, dis_with, is_fate_due, is_one_too_many, is_sending};
ghost use Rattle.line_sim.specs.Fates.{plain_fate, plainly, rnrs_after, rnrs_heard};
ghost use Rattle.line_sim.specs.Line.{World as WorldValue};
ghost use Rattle.line_sim.specs.Live.{whole_call};
ghost use Rattle.line_sim.specs.Represents.{Shows};
ghost use Rattle.stations.specs.declared.turn.CallerState.TheVariants.{WaitDis};
ghost use Rattle.std.specs.Prelude.{◌≡◌, ◌+◌, ◌<◌, ◌^◌, ℕ, Bool, IsTrue, ◌↔◌, IfOk, cond, drop, map, nat_lt, true, false, Some};

use crate::call::Call;
use crate::event::{Entry, Event, Kind};
use crate::fault::WorldFault;
use crate::laws::{calls_bear, driven_calls_end};
use crate::live::LiveCall;
use raster::Document;
use signals::{Caps, Wish};
use stations::{CodedDocument, Turn};
use std::alloc::{AllocError, Global};
use std::marker::Model;

/// What becomes of the item that is first under way.
#[derive(Clone, Copy, Debug, PartialEq, Eq)]
pub enum Fate {
    /// It comes.
    Comes,
    /// It is lost.
    Lost,
    /// A training check comes with all its octets FF; a frame is lost.
    Spoiled,
}

/// The retry limits of a driven call.
#[derive(Clone, Copy, Debug, PartialEq, Eq)]
pub struct Patience {
    /// How many DIS are sent in one wait for a DIS; the first one always is.
    pub calls: u64,
    /// How many RNRs may come for one block. The next one is lost, and the caller's wait for a busy answerer, T5 of ITU-T T.30, is over.
    pub busy: u64,
}

/// What one step of a driven call was.
#[derive(Clone, Copy, Debug, PartialEq, Eq)]
pub struct Step {
    /// An event before the step's own, if there is one: a training check is spoiled, or an RNR too many is lost.
    pub before: Option<Entry>,
    /// The step's own event; it shows if a growth was refused.
    pub entry: Entry,
}

/// The next event, and a change to the line before it.
#[derive(Clone, Copy, Debug, PartialEq, Eq)]
pub(crate) struct Act {
    pub(crate) before: Option<Event>,
    pub(crate) event: Event,
}

/// An event alone.
fn alone(event: Event) -> Act
    ensures { result ≡ plainly event }
{
    Act {
        before: None,
        event,
    }
}

/// The act by which what is first under way to the answerer meets its fate.
fn to_answerer(fate: Fate, check: bool) -> Act
    ensures { result ≡ act_to_answerer fate check }
{
    match fate {
        Fate::Comes => alone(Event::DeliverToAnswerer),
        Fate::Lost => alone(Event::LoseToAnswerer),
        Fate::Spoiled => {
            if check {
                return Act {
                    before: Some(Event::Spoil),
                    event: Event::DeliverToAnswerer,
                };
            }
            alone(Event::LoseToAnswerer)
        }
    }
}

/// The act by which what is first under way to the caller meets its fate. An RNR too many is lost, and T5 is over, so it takes no fate.
fn to_caller(fate: Fate, many: bool) -> Act
    ensures { result ≡ act_to_caller many fate }
{
    if many {
        return Act {
            before: Some(Event::LoseToCaller),
            event: Event::CallerT5,
        };
    }
    match fate {
        Fate::Comes => alone(Event::DeliverToCaller),
        Fate::Lost | Fate::Spoiled => alone(Event::LoseToCaller),
    }
}

/// How many DIS were sent in the caller's present wait for one, after an event.
fn dis_after(waits: bool, dis: u64, event: Event) -> u64
    requires { event ≡ Event.AnswererT2 → dis + 1 < 2 ^ 64 }
    ensures { result ≡ cond waits (dis_with event dis) 0 }
{
    if !waits {
        return 0;
    }
    match event {
        Event::AnswererT2 => dis + 1,
        _ => dis,
    }
}

/// How many RNRs came for the caller's present block, after an event. It depends on the first item that was under way to the caller, and on
/// its sending a block or not: the count begins anew when an MCF confirms the block.
fn rnrs_after(event: Event, kind: Option<Kind>, sending: bool, rnrs: u64) -> u64
    requires { event ≡ Event.DeliverToCaller → kind ≡ Some Kind.Rnr → rnrs + 1 < 2 ^ 64 }
    ensures { result ≡ rnrs_after event kind sending rnrs }
{
    match event {
        Event::DeliverToCaller => rnrs_heard(kind, sending, rnrs),
        _ => rnrs,
    }
}

/// How many RNRs came for the caller's present block, after an item came to it.
fn rnrs_heard(kind: Option<Kind>, sending: bool, rnrs: u64) -> u64
    requires { kind ≡ Some Kind.Rnr → rnrs + 1 < 2 ^ 64 }
    ensures { result ≡ rnrs_heard kind sending rnrs }
{
    match kind {
        Some(Kind::Rnr) => rnrs + 1,
        Some(Kind::Mcf) => {
            if sending {
                return 0;
            }
            rnrs
        }
        _ => rnrs,
    }
}

/// The fate at a place; Comes past the last one.
fn fate_at(fates: &[Fate], at: usize) -> Fate
    ensures { plain_fate result ≡ first_fate (drop at (map plain_fate fates.now)) }
{
    match fates.get(at) {
        Some(fate) => *fate,
        None => Fate::Comes,
    }
}

/// The place of the next fate, after a step that took one or didn't.
fn past(due: bool, at: usize) -> usize
    requires { at + 1 < 2 ^ 64 }
    ensures { result ≡ cond due (at + 1) at }
{
    if due { at + 1 } else { at }
}

impl Call {
    /// True if a training check is first under way to the answerer.
    fn has_check(&self) -> bool
        ensures { IsTrue result ↔ (head_kind self.now.to_answerer ≡ Some Kind.Training) }
    {
        matches!(self.to_answerer.head(), Some(Kind::Training))
    }

    /// True if an RNR is first under way to the caller and exceeds the RNR limit; `few` says that the limit isn't reached.
    fn has_one_too_many(&self, few: bool) -> bool
        ensures { result ≡ is_one_too_many few self.now.to_caller }
    {
        if few {
            return false;
        }
        matches!(self.to_caller.head(), Some(Kind::Rnr))
    }

    /// True if a step takes a fate: something is under way, and it isn't an RNR too many.
    fn takes_fate(&self, few: bool) -> bool
        ensures { result ≡ is_fate_due few self.now.to_answerer self.now.to_caller }
    {
        if !self.to_answerer.is_empty() {
            return true;
        }
        if self.to_caller.is_empty() {
            return false;
        }
        !self.has_one_too_many(few)
    }

    /// True if the caller is sending a block, which an MCF would confirm. The caller's fields don't have the block's place in the call, so
    /// this is known from the PPS that it could send.
    fn is_sending(&self) -> bool
        ensures { (same : ℕ) (w : WorldValue) → Shows (whole_call same self.now) w → result ≡ is_sending w.caller }
    {
        let mut items = self.caller.frames(&Turn::Pps);
        items.take_next().is_some()
    }

    /// True if the answerer's T2 is due: the caller waits for a DIS, the answerer for a DCS, and the DIS of this wait are few.
    fn dis_is_due(&self, few: bool) -> bool
        ensures is { (same : ℕ) (w : WorldValue) → Shows (whole_call same self.now) w →
            result ≡ dis_is_due w.caller.state w.answerer.state w.answerer.ending few }
        ensures at_few { result ≡ true → few ≡ true }
    {
        if self.answerer.end().is_some() {
            return false;
        }
        if !self.caller.waits_for_dis() {
            return false;
        }
        if !self.answerer.in_phase_b() {
            return false;
        }
        few
    }

    /// If nothing is in transit, the timer that expires next.
    fn wait_over(&self, few: bool) -> Option<Act>
        ensures may { (few_rnrs : Bool) → MayAct few few_rnrs (head_kind self.now.to_caller) result }
        ensures is { (same : ℕ) (w : WorldValue) → Shows (whole_call same self.now) w →
            result ≡ act_waiting w.caller.ending w.answerer.ending (dis_is_due w.caller.state w.answerer.state w.answerer.ending few) }
    {
        if self.caller.end().is_none() {
            if self.dis_is_due(few) {
                return Some(alone(Event::AnswererT2));
            }
            return Some(alone(Event::CallerTimeout));
        }
        if self.answerer.end().is_none() {
            return Some(alone(Event::AnswererT1));
        }
        None
    }

    /// The next act by a fate; None if the call is over. `few_dis` allows another DIS, `few_rnrs` another RNR.
    fn driven_by(&self, fate: Fate, few_dis: bool, few_rnrs: bool) -> Option<Act>
        ensures next { (same : ℕ) (p : PatienceValue) (d : Driven) → Shows (whole_call same self.now) d.world →
            first_fate d.fates ≡ plain_fate fate → nat_lt d.dis p.calls ≡ few_dis → nat_lt d.rnrs p.busy ≡ few_rnrs →
            ComesNext p d.world.to_answerer d.world.to_caller d result }
        ensures may { MayAct few_dis few_rnrs (head_kind self.now.to_caller) result }
    {
        if !self.to_answerer.is_empty() {
            return Some(to_answerer(fate, self.has_check()));
        }
        if !self.to_caller.is_empty() {
            return Some(to_caller(fate, self.has_one_too_many(few_rnrs)));
        }
        self.wait_over(few_dis)
    }
}

impl LiveCall {
    /// True if the caller waits for a DIS.
    fn waits_for_dis(&self) -> bool
        ensures { (w : WorldValue) → Shows self.now w → IsTrue result ↔ (w.caller.state ≡ WaitDis) }
    {
        self.call.caller.waits_for_dis()
    }

    /// True if a step takes a fate.
    fn takes_fate(&self, few: bool) -> bool
        ensures { result ≡ is_fate_due few self.now.to_answerer self.now.to_caller }
    {
        self.call.takes_fate(few)
    }

    /// The kind of the first item under way to the caller.
    fn head_to_caller(&self) -> Option<Kind>
        ensures { result ≡ head_kind self.now.to_caller }
    {
        self.call.to_caller.head()
    }

    /// True if the caller is sending a block.
    fn is_sending(&self) -> bool
        ensures { (w : WorldValue) → Shows self.now w → result ≡ is_sending w.caller }
    {
        self.call.is_sending()
    }

    /// The next act by a fate.
    fn driven_by(&self, fate: Fate, few_dis: bool, few_rnrs: bool) -> Option<Act>
        ensures next { (p : PatienceValue) (d : Driven) → Shows self.now d.world → first_fate d.fates ≡ plain_fate fate →
            nat_lt d.dis p.calls ≡ few_dis → nat_lt d.rnrs p.busy ≡ few_rnrs → ComesNext p d.world.to_answerer d.world.to_caller d result }
        ensures may { MayAct few_dis few_rnrs (head_kind self.now.to_caller) result }
    {
        self.call.driven_by(fate, few_dis, few_rnrs)
    }

    /// Does an event that no station hears of, if there is one, and returns its entry.
    fn event_if(&mut self, event: Option<Event>) -> Option<Entry>
        requires { IsUnheardIf event }
        ensures acts { ActsIf event self.old self.new result }
        ensures document { self.new.caller.document ≡ self.old.caller.document }
    {
        match event {
            Some(event) => Some(self.event(event)),
            None => None,
        }
    }
}

/// A call over a bad line, without a script: the item that is first under way comes, is lost or is spoiled, as its fate says; if nothing is
/// under way a wait is over. The order of the waits is a scheduler's choice and no duration of T.30: while the caller waits for a DIS, the
/// answerer's T2, until `calls` DIS were sent in this wait; after that, and in each other wait, the caller's; and once the caller has
/// ended, the answerer's T1. If the answerer was set busy, `busy` RNRs may come for a block; the next one is lost, and the caller's T5 is
/// over. It keeps no transcript: each step returns its entries.
#[derive(Debug, Drop)]
pub struct DrivenCall {
    live: LiveCall,
    patience: Patience,
    dis: u64,
    rnrs: u64,
}

impl Model for DrivenCall {
    ghost use Rattle.line_sim.specs.Fates.{DrivenFields};

    ghost Value = { DrivenFields };

    ghost view = { λ d. record { live = d.live; patience = d.patience; dis = d.dis; rnrs = d.rnrs } };
}

impl DrivenCall {
    /// A call at its start: the answerer's DIS is under way, it isn't busy, and nothing is stored or confirmed. Errs with `NoMemory`, and
    /// with `WidthNotCallable` if no call can have the width of a page.
    pub fn new(
        alloc: Global,
        document: Document,
        wish: Wish,
        caps: Caps,
        patience: Patience,
    ) -> Result<DrivenCall, WorldFault>
        requires receiver { caps.receiver ≡ true }
        requires ecm { caps.ecm ≡ true }
        ensures { NewDriven document wish caps patience result }
    {
        DrivenCall::of_coded(
            alloc,
            CodedDocument::uncoded(alloc, document),
            wish,
            caps,
            patience,
        )
    }

    /// Returns what `new` returns for the document alone, of a caller with the codes of its pages.
    pub fn of_coded(
        alloc: Global,
        document: CodedDocument,
        wish: Wish,
        caps: Caps,
        patience: Patience,
    ) -> Result<DrivenCall, WorldFault>
        requires receiver { caps.receiver ≡ true }
        requires ecm { caps.ecm ≡ true }
        ensures { NewDriven document wish caps patience result }
    {
        let live = LiveCall::of_coded(alloc, document, wish, caps)?;
        Ok(DrivenCall {
            live,
            patience,
            dis: 1,
            rnrs: 0,
        })
    }

    /// Sets the answerer busy or ready before the next step: a busy one answers RNR instead of MCF. Returns the event's entry, which shows
    /// if a growth was refused. By the law `busy_calls_end` a call in which this is done before any of its steps ends all the same.
    pub fn set_busy(&mut self, busy: bool) -> Entry
        ensures sets { (p : PatienceValue) (d : Driven) → ShowsDriven self.old p d → SetsBusy p busy self.new d result }
        ensures document { self.new.live.caller.document ≡ self.old.live.caller.document }
    {
        self.live.event(Event::Busy(busy))
    }

    /// True if fewer RNRs came for the present block than may.
    fn few_rnrs(&self) -> bool
        ensures { result ≡ nat_lt self.now.rnrs self.now.patience.busy }
    {
        self.rnrs < self.patience.busy
    }

    /// True if a PPS or an RR is first under way to the answerer, to which a busy one answers RNR.
    pub fn asks_ready(&self) -> bool
        ensures { result ≡ asks_ready (head_kind self.now.live.to_answerer) }
    {
        match self.live.call.to_answerer.head() {
            Some(Kind::Pps) => true,
            Some(Kind::Rr) => true,
            _ => false,
        }
    }

    /// True if the caller is sending a block: from the block's first burst until it is confirmed or the call ends for the caller.
    pub fn sends_block(&self) -> bool
        ensures { (w : WorldValue) → Shows self.now.live w → result ≡ is_sending w.caller }
    {
        self.live.is_sending()
    }

    /// True if the next step takes a fate: something is under way, and it isn't an RNR too many.
    pub fn is_fate_due(&self) -> bool
        ensures { result ≡ is_fate_due (nat_lt self.now.rnrs self.now.patience.busy) self.now.live.to_answerer self.now.live.to_caller }
    {
        self.live.takes_fate(self.few_rnrs())
    }

    /// Makes one step with the fate of the item that is first under way, and returns its events' entries; None if the call is over. The
    /// fate is ignored if none is due. If a growth was refused in the step, its entry shows it, and the event before it was done.
    pub fn step(&mut self, fate: Fate) -> Option<Step>
        ensures steps { (p : PatienceValue) (d : Driven) → ShowsDriven self.old p d → first_fate d.fates ≡ plain_fate fate →
            Steps p self.old self.new d result }
        ensures document { self.new.live.caller.document ≡ self.old.live.caller.document }
    {
        let few_dis = self.dis < self.patience.calls;
        let few_rnrs = self.rnrs < self.patience.busy;
        let Some(act) = self.live.driven_by(fate, few_dis, few_rnrs) else {
            return None;
        };
        let waits = self.live.waits_for_dis();
        let sending = self.live.is_sending();
        let kind = self.live.head_to_caller();
        let before = self.live.event_if(act.before);
        let entry = self.live.event(act.event);
        self.dis = dis_after(waits, self.dis, act.event);
        self.rnrs = rnrs_after(act.event, kind, sending, self.rnrs);
        Some(Step { before, entry })
    }

    /// Makes steps by fates, in order, until the call is over or `most` steps were made; after the last fate all items come. Returns the
    /// number of steps. Errs at the first step in which a growth was refused. From the call's start it makes no more steps than the
    /// document bounds (clause `ends`), and it bears any two losses if both stations agree on each page, each code fits a call, three DIS
    /// are sent in a wait, and each spoiled check has a lower common speed (clause `bears`).
    pub fn drive(&mut self, fates: &[Fate], most: u64) -> Result<u64, AllocError>
        ensures drives { (p : PatienceValue) (d : Driven) → ShowsDriven self.old p d → d.fates ≡ map plain_fate fates.now →
            DrivesAll p self.new d most result }
        ensures ends { IfOk result (λ number. EndsDriven self.old (map plain_fate fates.now) most number) }
        ensures bears { IfOk result (λ number. BearsTwo self.old self.new (map plain_fate fates.now) most) }
    {
        driven_calls_end();
        calls_bear();
        let mut made = 0;
        let mut at = 0;
        while made < most {
            // `drive` never sets the answerer busy: clause `ends` is of fates alone. With `set_busy` between steps `busy_calls_end` holds.
            let due = self.is_fate_due();
            let Some(step) = self.step(fate_at(fates, at)) else {
                return Ok(made);
            };
            if step.entry.refused {
                return Err(AllocError);
            }
            at = past(due, at);
            made += 1;
        }
        Ok(made)
    }

    /// A borrowed call, whose items under way can be read.
    pub fn live(&self) -> &LiveCall
        ensures { result.now ≡ self.now.live }
    {
        &self.live
    }

    /// The call, to continue it by hand: it takes any event, and its ending has the headline.
    pub fn into_live(self) -> LiveCall
        ensures { result ≡ self.live }
    {
        self.live
    }
}
