//! Both stations, what is under way between them, and what one event does to them.

ghost use Rattle.line_sim.specs.Entries.{caller_said, says};
ghost use Rattle.line_sim.specs.Represents.{Acts, IsUnheard, EventWrites, NewCall, entry_with};
ghost use Rattle.line_sim.specs.Represents.{AnswererAnswers, AnswererMayAnswer, AnswererSends, AnswererTimer, AnswererWrites};
ghost use Rattle.line_sim.specs.Represents.{CallerAnswers, CallerMayAnswer, CallerSends, CallerTimer, CallerWrites};
ghost use Rattle.stations.specs.CallerStep.{Caller as CallerTuple, caller_items};
ghost use Rattle.stations.specs.Inputs.{answerer_input, caller_input};
ghost use Rattle.stations.specs.CallerFields.{Represents};
ghost use Rattle.std.specs.Prelude.{◌≡◌, false, true, IsTrue, ◌↔◌, length};

use crate::channel::{Channel, fcd_count};
use crate::event::{Entry, Event, NONE_SHOWN, Shown};
use crate::fault::WorldFault;
use crate::sender::{FromAnswerer, FromCaller};
use signals::{Caps, Wish};
use stations::{Answerer, AnswererIn, Caller, CallerIn, CodedDocument, Turn};
use std::alloc::{AllocError, Global};

/// The entry of an event that no station answers.
fn unanswered(event: Event, shown: Shown, refused: bool) -> Entry
    ensures { result ≡ entry_with event shown (says Turn.Silent) refused }
{
    Entry {
        event,
        item: shown.item,
        fields: shown.fields,
        turn: Turn::Silent,
        fcds: 0,
        refused,
    }
}

/// True if a turn sends nothing.
fn is_silent(turn: &Turn) -> bool
    ensures { IsTrue result ↔ (turn.now ≡ Turn.Silent) }
{
    matches!(turn, Turn::Silent)
}

/// The map of a burst has 32 octets. Nothing runs.
fn has_32_octets(map: &[u8; 32])
    ensures { length map.now ≡ 32 }
{}

/// Both stations, and the items under way to each.
#[derive(Debug, Drop)]
pub struct Call {
    pub(crate) caller: Caller,
    pub(crate) answerer: Answerer,
    pub(crate) to_answerer: Channel<FromCaller>,
    pub(crate) to_caller: Channel<FromAnswerer>,
}

impl Call {
    /// A call at its start: the answerer's DIS is under way, and nothing is stored or confirmed. Errs with `NoMemory`, and with
    /// `WidthNotCallable` if no call can have the width of a page.
    pub(crate) fn new(
        alloc: Global,
        document: CodedDocument,
        wish: Wish,
        caps: Caps,
    ) -> Result<Call, WorldFault>
        requires receiver { caps.receiver ≡ true }
        requires ecm { caps.ecm ≡ true }
        ensures { NewCall document wish caps result }
    {
        let caller = Caller::of_coded(alloc, document, wish)?;
        let (answerer, turn) = Answerer::new(alloc, caps);
        let to_answerer = Channel::new(alloc, FromCaller);
        let mut to_caller = Channel::new(alloc, FromAnswerer);
        to_caller.send(answerer.frames(&turn))?;
        Ok(Call {
            caller,
            answerer,
            to_answerer,
            to_caller,
        })
    }

    /// The number of FCDs of a caller's turn; of a burst that is cut short by refused memory too, the number of the whole burst.
    fn fcds(&self, turn: &Turn) -> u16
        ensures { (t : CallerTuple) → Represents self.now.caller t → result ≡ (caller_said turn.now (caller_items t turn.now)).fcds }
    {
        match turn {
            Turn::Burst(map) => {
                has_32_octets(map);
                fcd_count(self.caller.frames(turn))
            }
            _ => 0,
        }
    }

    /// Sends the items of the caller's turn, and drops what is under way to the caller. Returns true if memory was refused: then the items
    /// made so far are under way.
    fn caller_sends(&mut self, turn: &Turn) -> bool
        requires { CallerWrites self.old turn.now }
        ensures { CallerSends self.old self.new turn.now result }
    {
        if is_silent(turn) {
            return false;
        }
        self.to_caller.clear();
        self.to_answerer.send(self.caller.frames(turn)).is_err()
    }

    /// Sends the items of the answerer's turn, and drops what is under way to the answerer. Returns true if memory was refused: then the
    /// items made so far are under way.
    fn answerer_sends(&mut self, turn: &Turn) -> bool
        requires { AnswererWrites self.old turn.now }
        ensures { AnswererSends self.old self.new turn.now result }
    {
        if is_silent(turn) {
            return false;
        }
        self.to_answerer.clear();
        self.to_caller.send(self.answerer.frames(turn)).is_err()
    }

    /// Sends the turn that the caller returned for an event, and returns the event's entry.
    fn caller_answers(
        &mut self,
        event: Event,
        shown: Shown,
        answered: Result<Turn, AllocError>,
    ) -> Entry
        requires { CallerMayAnswer self.old answered }
        ensures { CallerAnswers self.old self.new event shown answered result }
    {
        match answered {
            Ok(turn) => {
                let fcds = self.fcds(&turn);
                let refused = self.caller_sends(&turn);
                Entry {
                    event,
                    item: shown.item,
                    fields: shown.fields,
                    turn,
                    fcds,
                    refused,
                }
            }
            Err(_) => unanswered(event, shown, true),
        }
    }

    /// Sends the turn that the answerer returned for an event, and returns the event's entry.
    fn answerer_answers(
        &mut self,
        event: Event,
        shown: Shown,
        answered: Result<Turn, AllocError>,
    ) -> Entry
        requires { AnswererMayAnswer self.old answered }
        ensures { AnswererAnswers self.old self.new event shown answered result }
    {
        match answered {
            Ok(turn) => {
                let refused = self.answerer_sends(&turn);
                Entry {
                    event,
                    item: shown.item,
                    fields: shown.fields,
                    turn,
                    fcds: 0,
                    refused,
                }
            }
            Err(_) => unanswered(event, shown, true),
        }
    }

    /// Delivers the first item under way to the caller, and returns the event's entry. A caller that has ended takes the item off the line
    /// and is silent.
    fn deliver_to_caller(&mut self) -> Entry
        requires { EventWrites self.old Event.DeliverToCaller }
        ensures { Acts self.old self.new Event.DeliverToCaller result }
    {
        let shown = self.to_caller.shown();
        let answered = self.to_caller.deliver_to_caller(&mut self.caller);
        self.caller_answers(Event::DeliverToCaller, shown, answered)
    }

    /// Delivers the first item under way to the answerer, and returns the event's entry. An answerer that has ended takes the item off the
    /// line and is silent.
    fn deliver_to_answerer(&mut self) -> Entry
        requires { EventWrites self.old Event.DeliverToAnswerer }
        ensures { Acts self.old self.new Event.DeliverToAnswerer result }
    {
        let shown = self.to_answerer.shown();
        let answered = self.to_answerer.deliver_to_answerer(&mut self.answerer);
        self.answerer_answers(Event::DeliverToAnswerer, shown, answered)
    }

    /// One of the caller's timers runs out. Returns the event's entry.
    fn caller_timer(&mut self, event: Event, input: CallerIn<'_>) -> Entry
        requires timer { CallerTimer event (caller_input input) }
        requires writes { EventWrites self.old event }
        ensures { Acts self.old self.new event result }
    {
        let answered = self.caller.step(input);
        self.caller_answers(event, NONE_SHOWN, answered)
    }

    /// One of the answerer's timers runs out, or it gets busy or ready. Returns the event's entry.
    fn answerer_timer(&mut self, event: Event, input: AnswererIn<'_>) -> Entry
        requires timer { AnswererTimer event (answerer_input input) }
        requires writes { EventWrites self.old event }
        ensures { Acts self.old self.new event result }
    {
        let answered = self.answerer.step(input);
        self.answerer_answers(event, NONE_SHOWN, answered)
    }

    /// The first item under way to the answerer is lost. With nothing under way the entry shows no item.
    fn lose_to_answerer(&mut self) -> Entry
        ensures acts { Acts self.old self.new Event.LoseToAnswerer result }
        ensures whole { result.refused ≡ false }
    {
        let shown = self.to_answerer.shown();
        self.to_answerer.lose();
        unanswered(Event::LoseToAnswerer, shown, false)
    }

    /// The first item under way to the caller is lost. With nothing under way the entry shows no item.
    fn lose_to_caller(&mut self) -> Entry
        ensures acts { Acts self.old self.new Event.LoseToCaller result }
        ensures whole { result.refused ≡ false }
    {
        let shown = self.to_caller.shown();
        self.to_caller.lose();
        unanswered(Event::LoseToCaller, shown, false)
    }

    /// Spoils the training check that is first under way to the answerer. The entry shows no item, since it neither comes nor is lost.
    fn spoil(&mut self) -> Entry
        ensures acts { Acts self.old self.new Event.Spoil result }
        ensures whole { result.refused ≡ false }
    {
        self.to_answerer.spoil();
        unanswered(Event::Spoil, NONE_SHOWN, false)
    }

    /// Does an event, and returns its entry.
    pub(crate) fn act(&mut self, event: Event) -> Entry
        requires { EventWrites self.old event }
        ensures acts { Acts self.old self.new event result }
        ensures whole { IsUnheard event → result.refused ≡ false }
    {
        match event {
            Event::DeliverToAnswerer => self.deliver_to_answerer(),
            Event::DeliverToCaller => self.deliver_to_caller(),
            Event::LoseToAnswerer => self.lose_to_answerer(),
            Event::LoseToCaller => self.lose_to_caller(),
            Event::Spoil => self.spoil(),
            Event::CallerTimeout => self.caller_timer(event, CallerIn::Timeout),
            Event::CallerT5 => self.caller_timer(event, CallerIn::T5),
            Event::AnswererT1 => self.answerer_timer(event, AnswererIn::T1),
            Event::AnswererT2 => self.answerer_timer(event, AnswererIn::T2),
            Event::Busy(busy) => self.answerer_timer(event, AnswererIn::Busy(busy)),
        }
    }
}
