//! The items of a turn, cut where the carrier changes: ITU-T T.30, 5.3 and Annex A.

ghost use Rattle.std.specs.Prelude.{◌≡◌, ◌↔◌, [], IsTrue};
ghost use Rattle.stations.specs.AnswererStep.{answerer_items};
ghost use Rattle.stations.specs.Bursts.{bursts_of, rest_by};
ghost use Rattle.stations.specs.GivenBursts.{GivesBurst};
ghost use Rattle.stations.specs.CallerFields.{Represents};
ghost use Rattle.stations.specs.CallerStep.{Caller as CallerTuple, caller_items};

use crate::answerer::Answerer;
use crate::burst_items::BurstItems;
use crate::caller::Caller;
use crate::carrier::{Carrier, carrier_of, is_same_kind};
use crate::lending::Items;
use crate::turn::Turn;
use signals::Speed;
use std::marker::Model;

/// Items of a turn that go out one after the other on one carrier.
#[derive(Debug, Drop)]
pub struct Burst<'a> {
    /// The carrier that they go out on.
    pub carrier: Carrier,
    /// The items, lent one at a time.
    pub items: BurstItems<'a>,
    /// Whether it is the turn's last burst.
    pub last: bool,
}

/// The bursts of a turn, lent one at a time. Takes no memory.
#[derive(Debug, Drop)]
pub struct Bursts<'a> {
    items: Items<'a>,
    speed: Speed,
}

impl<'a> Model for Bursts<'a> {
    ghost use Rattle.std.specs.Prelude.{List};
    ghost use Rattle.stations.specs.Bursts.{PlainBurst, bursts_of};

    ghost Value = { List PlainBurst };

    ghost view = { λ b. bursts_of b.speed b.items };
}

impl<'a> Bursts<'a> {
    /// The bursts of items at a message speed.
    fn new(items: Items<'a>, speed: Speed) -> Bursts<'a>
        ensures { result ≡ bursts_of speed items.entry }
    {
        Bursts { items, speed }
    }

    /// Returns the next burst; None if all were lent.
    pub fn take_next(&mut self) -> Option<Burst<'a>>
        ensures { GivesBurst self.old result self.new }
    {
        let Some(first) = self.items.first() else {
            return None;
        };
        let carrier = carrier_of(self.speed, first);
        let items = BurstItems::new(self.items.again(), self.speed, carrier);
        pass(&mut self.items, self.speed, carrier);
        let last = are_through(&self.items);
        Some(Burst {
            carrier,
            items,
            last,
        })
    }
}

impl<'a> Iterator for Bursts<'a> {
    ghost use Rattle.std.specs.Iterator.{item_count};
    ghost use Rattle.stations.specs.GivenBursts.{GivesBurst};

    type Item = Burst<'a>;

    ghost next_gives = { GivesBurst };

    ghost remaining = { item_count (λ bursts. bursts) };

    fn next(&mut self) -> Option<Burst<'a>> {
        self.take_next()
    }
}

impl Caller {
    /// Returns the items of a turn, cut where the carrier changes; none if the state has nothing for that turn. Takes
    /// no memory.
    pub fn bursts(&self, turn: &Turn) -> Bursts<'_>
        ensures { (t : CallerTuple) → Represents self.now t → result ≡ bursts_of t.params.speed (caller_items t turn.now) }
    {
        Bursts::new(self.frames(turn), self.agreed_params().speed)
    }
}

impl Answerer {
    /// Returns the items of a turn, cut where the carrier changes: each turn of an answerer is one burst by V.21. Takes
    /// no memory.
    pub fn bursts(&self, turn: &Turn) -> Bursts<'_>
        ensures { result ≡ bursts_of self.now.params.speed (answerer_items self.now turn.now) }
    {
        Bursts::new(self.frames(turn), self.agreed_params().speed)
    }
}

/// Passes over the items of a carrier that items begin with.
fn pass<'a>(items: &mut Items<'a>, speed: Speed, carrier: Carrier)
    ensures { items.new ≡ rest_by speed carrier items.old }
{
    loop {
        let mut ahead = items.again();
        let Some(item) = ahead.take_next() else {
            return;
        };
        if !is_same_kind(carrier_of(speed, item), carrier) {
            return;
        }
        *items = ahead;
    }
}

/// Whether all items were lent.
fn are_through(items: &Items<'_>) -> bool
    ensures { IsTrue result ↔ (items.now ≡ []) }
{
    match items.first() {
        Some(_) => false,
        None => true,
    }
}
