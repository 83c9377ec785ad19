//! The items of a burst, lent one at a time.

ghost use Rattle.std.specs.Prelude.{◌≡◌};
ghost use Rattle.stations.specs.Bursts.{GivesBurstItem, front_by, rest_by};

use crate::carrier::{Carrier, carrier_of, is_same_kind};
use crate::lending::{Item, Items};
use signals::Speed;
use std::marker::Model;

/// The items of a burst, lent one at a time. Takes no memory.
#[derive(Debug, Drop)]
pub struct BurstItems<'a> {
    items: Items<'a>,
    speed: Speed,
    carrier: Carrier,
}

impl<'a> Model for BurstItems<'a> {
    ghost use Rattle.stations.specs.Bursts.{BurstLeft, front_by, rest_by};

    ghost Value = { BurstLeft };

    ghost view = { λ b. record {
      burst = front_by b.speed b.carrier b.items;
      after = rest_by b.speed b.carrier b.items;
    } };
}

impl<'a> BurstItems<'a> {
    /// Those of some items that they begin with and that go out on a carrier.
    pub(crate) fn new(items: Items<'a>, speed: Speed, carrier: Carrier) -> BurstItems<'a>
        ensures { result ≡ record { burst = front_by speed carrier items.entry; after = rest_by speed carrier items.entry } }
    {
        BurstItems {
            items,
            speed,
            carrier,
        }
    }

    /// Returns the next item; None if all of the burst were lent. A frame is marked as the last one if it is the
    /// turn's.
    pub fn take_next(&mut self) -> Option<Item<'a>>
        ensures { GivesBurstItem self.old result self.new }
    {
        let mut ahead = self.items.again();
        let Some(item) = ahead.take_next() else {
            return None;
        };
        if !is_same_kind(carrier_of(self.speed, item), self.carrier) {
            return None;
        }
        self.items = ahead;
        Some(item)
    }
}

impl<'a> Iterator for BurstItems<'a> {
    ghost use Rattle.std.specs.Iterator.{item_count};
    ghost use Rattle.stations.specs.Bursts.{GivesBurstItem};

    type Item = Item<'a>;

    ghost next_gives = { GivesBurstItem };

    ghost remaining = { item_count (λ left. left.burst) };

    fn next(&mut self) -> Option<Item<'a>> {
        self.take_next()
    }
}
