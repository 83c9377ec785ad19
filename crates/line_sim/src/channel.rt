//! What is under way to one of the stations, and how it hears it.

ghost use Rattle.line_sim.specs.Entries.{count_fcds, head_kind};
ghost use Rattle.line_sim.specs.Headline.{CanBeWritten};
ghost use Rattle.line_sim.specs.Represents.{head_shown};
ghost use Rattle.line_sim.specs.Hearing.{AnswererHears, CallerHears, HearsFirst};
ghost use Rattle.line_sim.specs.Line.{after_first, spoiled};
ghost use Rattle.line_sim.specs.Octets.{AreFinal, ComeNext, IsLentAt, TellsFinal};
ghost use Rattle.stations.specs.Inputs.{PlainItem};
ghost use Rattle.stations.specs.Laws.{Each};
ghost use Rattle.stations.specs.Lending.{plain_item};
ghost use Rattle.std.specs.Prelude.{◌≡◌, ◌+◌, [], ◌∷◌, ◌++◌, cond, ℕ, List, length, take, min, option_map, IsTrue, ◌↔◌, OnOk, OnErr};

use crate::event::{Kind, LineItem, NONE_SHOWN, Shown};
use crate::item::InTransit;
use crate::sender::Sender;
use hdlc::Deframer;
use signals::Signal;
use stations::{Answerer, Caller, Item, Items, Turn};
use std::alloc::{AllocError, Global};
use std::collections::VecDeque;
use std::marker::Model;

/// True if an item is an FCD.
fn is_fcd(item: &Item<'_>) -> bool
    ensures { (items : List PlainItem) → count_fcds (plain_item item.now ∷ items) ≡ cond result 1 0 + count_fcds items }
{
    matches!(
        item,
        Item::Frame {
            signal: Signal::Fcd { .. },
            ..
        }
    )
}

/// How many of the items are FCDs, up to 65,535.
pub(crate) fn fcd_count(mut items: Items<'_>) -> u16
    ensures { result ≡ min 65535 (count_fcds items.entry) }
{
    let mut count: u16 = 0;
    while let Some(item) = items.take_next() {
        if is_fcd(&item) {
            count = count.saturating_add(1);
        }
    }
    count
}

/// The items that one station has sent and that are under way to the other, the first one first, and the deframer by which the other hears
/// frames.
#[derive(Debug, Drop)]
pub(crate) struct Channel<S: Sender> {
    alloc: Global,
    sender: S,
    items: VecDeque<InTransit<S>>,
    deframer: Deframer,
}

impl<S: Sender> Model for Channel<S> {
    ghost use Rattle.std.specs.Prelude.{List};
    ghost use Rattle.stations.specs.Inputs.{PlainItem};
    ghost use Rattle.hdlc.specs.DeframerState.{IsIdle};

    ghost Value = { List PlainItem };

    ghost view = { λ c. c.items.items };

    ghost invariant = { λ c. IsIdle c.deframer };
}

impl<S: Sender> Channel<S> {
    /// An empty channel.
    pub(crate) fn new(alloc: Global, sender: S) -> Channel<S>
        ensures { result ≡ [] }
    {
        hdlc::laws::new_is_idle();
        Channel {
            alloc,
            sender,
            items: VecDeque::new(alloc),
            deframer: Deframer::new(alloc),
        }
    }

    /// True if nothing is under way.
    pub(crate) fn is_empty(&self) -> bool
        ensures { IsTrue result ↔ (self.now ≡ []) }
    {
        self.items.is_empty()
    }

    /// The kind of the first item.
    pub(crate) fn head(&self) -> Option<Kind>
        ensures { result ≡ head_kind self.now }
    {
        let first = self.items.front()?;
        Some(first.kind())
    }

    /// What the transcript shows of the first item.
    pub(crate) fn shown(&self) -> Shown
        ensures { result ≡ head_shown self.now }
    {
        let Some(first) = self.items.front() else {
            return NONE_SHOWN;
        };
        Shown {
            item: Some(first.kind()),
            fields: first.fields(),
        }
    }

    /// How many items are under way.
    pub(crate) fn count(&self) -> usize
        ensures { result ≡ length self.now }
    {
        self.items.len()
    }

    /// The item at a place, from 0; None past the last one.
    pub(crate) fn item(&self, place: usize) -> Option<LineItem<'_>>
        ensures { IsLentAt S.sends place result self.now }
    {
        let item = self.items.get(place)?;
        Some(item.lend())
    }

    /// The octets of the first item, with its flags if it is a frame.
    pub(crate) fn next_octets(&self) -> Option<&[u8]>
        ensures { ComeNext S.sends (option_map (λ octets. octets.now) result) self.now }
    {
        let first = self.items.front()?;
        Some(first.octets())
    }

    /// Drops all items.
    pub(crate) fn clear(&mut self)
        ensures { self.new ≡ [] }
    {
        self.items.truncate(0);
    }

    /// Drops the first item.
    pub(crate) fn lose(&mut self)
        ensures { self.new ≡ after_first self.old }
    {
        let _lost = self.items.pop_front();
    }

    /// Spoils the first item if it is a training check: all its octets become FF.
    pub(crate) fn spoil(&mut self)
        ensures { self.new ≡ spoiled self.old }
    {
        if let Some(first) = self.items.front_mut() {
            first.spoil();
        }
    }

    /// Delivers the first item to the caller, and returns its turn. Errs if memory is refused: the caller hasn't heard the item.
    pub(crate) fn deliver_to_caller(&mut self, caller: &mut Caller) -> Result<Turn, AllocError>
        ensures left { self.new ≡ after_first self.old }
        ensures heard { HearsFirst CallerHears self.old caller.old caller.new result }
    {
        match self.items.pop_front() {
            Some(item) => item.come_to_caller(&mut self.deframer, caller),
            None => Ok(Turn::Silent),
        }
    }

    /// Delivers the first item to the answerer, and returns its turn. Errs if memory is refused: the answerer hasn't heard the item.
    pub(crate) fn deliver_to_answerer(
        &mut self,
        answerer: &mut Answerer,
    ) -> Result<Turn, AllocError>
        ensures left { self.new ≡ after_first self.old }
        ensures heard { HearsFirst AnswererHears self.old answerer.old answerer.new result }
    {
        match self.items.pop_front() {
            Some(item) => item.come_to_answerer(&mut self.deframer, answerer),
            None => Ok(Turn::Silent),
        }
    }

    /// Puts one item behind the others. Errs if memory is refused.
    fn push(&mut self, item: Item<'_>) -> Result<(), AllocError>
        requires can { CanBeWritten (plain_item item) }
        requires told { TellsFinal item }
        ensures ok { OnOk result (self.new ≡ self.old ++ plain_item item.entry ∷ []) }
        ensures err { OnErr result (self.new ≡ self.old) }
    {
        let made = InTransit::new(self.alloc, self.sender, item)?;
        self.items.push_back(made)?;
        Ok(())
    }

    /// Puts items behind the others. Errs if memory is refused: the items made so far are under way.
    pub(crate) fn send(&mut self, mut items: Items<'_>) -> Result<(), AllocError>
        requires can { Each CanBeWritten items }
        requires told { AreFinal items }
        ensures ok { OnOk result (self.new ≡ self.old ++ items.entry) }
        ensures err { OnErr result ((made : ℕ) × (self.new ≡ self.old ++ take made items.entry)) }
    {
        while let Some(item) = items.take_next() {
            self.push(item)?;
        }
        Ok(())
    }
}
