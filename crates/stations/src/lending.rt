//! The items of a turn, lent one at a time.

ghost use Rattle.partial_page.specs.Store.{bit_of};
ghost use Rattle.std.specs.Prelude.{◌≡◌, ◌<◌, ◌≤◌, ◌∷◌, [], ℕ, List, length, slice_index_or, Some, None, false, true};
ghost use Rattle.signals.specs.Signals.{plain, rcp, dcs};
ghost use Rattle.signals.specs.declared.params.Params.{Params};
ghost use Rattle.stations.specs.Bursts.{BeginsWith};
ghost use Rattle.stations.specs.CallerStep.{burst_of, pps_of};
ghost use Rattle.stations.specs.Inputs.{framed, checked};
ghost use Rattle.stations.specs.Layers.{training};
ghost use Rattle.stations.specs.Lending.{GivesItem, GivesSignal, fcds_left};

use partial_page::Blocks;
use raster::packed::{Order, bit_of};
use signals::{PageEnd, Params, Signal, training_len};
use std::marker::Model;

/// A part of what a station transmits in a turn.
#[derive(Clone, Copy, Debug, PartialEq, Eq)]
pub enum Item<'a> {
    /// A frame.
    Frame {
        /// The signal that the frame says.
        signal: Signal<'a>,
        /// Whether it is the turn's last frame.
        last: bool,
    },
    /// A training check of this number of octets, all 00.
    Training(u32),
}

/// The items of a turn, lent one at a time. Takes no memory.
#[derive(Debug, Drop)]
pub struct Items<'a> {
    marked: Option<Marked<'a>>,
    rcps: u8,
    end: Option<Signal<'a>>,
    training: Option<u32>,
}

impl<'a> Model for Items<'a> {
    ghost use Rattle.std.specs.Prelude.{◌≡◌, List, [], ◌++◌, None, replicate};
    ghost use Rattle.signals.specs.Signals.{rcp};
    ghost use Rattle.stations.specs.Inputs.{PlainItem, framed};
    ghost use Rattle.stations.specs.Lending.{fcds_left, end_left, training_left};

    ghost Value = { List PlainItem };

    ghost view = { λ i. fcds_left i.marked ++ (replicate i.rcps (framed rcp) ++ (end_left i.end ++ training_left i.training)) };

    ghost invariant = { λ i. i.end ≡ None → (fcds_left i.marked ≡ []) × (i.rcps ≡ 0) };
}

impl<'a> Items<'a> {
    /// Returns the next item; None if all were lent.
    pub fn take_next(&mut self) -> Option<Item<'a>>
        ensures { GivesItem self.old result self.new }
    {
        if let Some(signal) = take_marked(&mut self.marked) {
            return Some(Item::Frame {
                signal,
                last: false,
            });
        }
        if self.rcps > 0 {
            self.rcps -= 1;
            return Some(Item::Frame {
                signal: Signal::Rcp,
                last: false,
            });
        }
        if let Some(signal) = self.end.take() {
            return Some(Item::Frame { signal, last: true });
        }
        let count = self.training.take()?;
        Some(Item::Training(count))
    }

    /// The items that are left, to be lent once more.
    pub(crate) fn again(&self) -> Items<'a>
        ensures { result ≡ self.now }
    {
        Items {
            marked: marked_again(&self.marked),
            rcps: self.rcps,
            end: self.end,
            training: self.training,
        }
    }

    /// The next item, which is left; None if all were lent.
    pub(crate) fn first(&self) -> Option<Item<'a>>
        ensures { BeginsWith self.now result }
    {
        let mut ahead = self.again();
        ahead.take_next()
    }

    /// No item.
    pub(crate) fn none() -> Items<'a>
        ensures { result ≡ [] }
    {
        Items {
            marked: None,
            rcps: 0,
            end: None,
            training: None,
        }
    }

    /// One frame.
    pub(crate) fn one(signal: Signal<'a>) -> Items<'a>
        ensures { result ≡ framed (plain signal.entry) ∷ [] }
    {
        Items {
            marked: None,
            rcps: 0,
            end: Some(signal),
            training: None,
        }
    }

    /// DCS and a training check.
    #[tactic(auto, unfolding(crate::specs::Layers::training))]
    pub(crate) fn training(params: Params) -> Items<'a>
        ensures { result ≡ framed (dcs params) ∷ checked (training params) ∷ [] }
    {
        Items {
            marked: None,
            rcps: 0,
            end: Some(Signal::Dcs(params)),
            training: Some(training_len(params.speed)),
        }
    }

    /// The marked frames of a block, three RCP and PPS.
    pub(crate) fn burst(
        blocks: &'a Blocks,
        block: usize,
        map: [u8; 32],
        ends: PageEnd,
        page: usize,
    ) -> Items<'a>
        requires { block < length blocks.now }
        ensures { (params : Params) → result ≡ burst_of map (Some (record {
          page = page;
          place = block;
          ends = ends;
          params = params;
          frames = slice_index_or blocks.now block [];
        })) }
    {
        Items {
            marked: Some(Marked {
                blocks,
                block,
                map,
                next: 0,
            }),
            rcps: 3,
            end: Some(pps(blocks, block, ends, page)),
            training: None,
        }
    }
}

impl<'a> Iterator for Items<'a> {
    ghost use Rattle.std.specs.Iterator.{item_count};
    ghost use Rattle.stations.specs.Lending.{GivesItem};

    type Item = Item<'a>;

    ghost next_gives = { GivesItem };

    ghost remaining = { item_count (λ items. items) };

    fn next(&mut self) -> Option<Item<'a>> {
        self.take_next()
    }
}

/// The PPS of a block.
pub(crate) fn pps<'a>(blocks: &Blocks, block: usize, ends: PageEnd, page: usize) -> Signal<'a>
    requires { block < length blocks.now }
    ensures { (params : Params) → framed (plain result) ≡ pps_of (record {
      page = page;
      place = block;
      ends = ends;
      params = params;
      frames = slice_index_or blocks.now block [];
    }) }
{
    Signal::Pps {
        ends,
        page: (page % 256) as u8,
        block: (block % 256) as u8,
        last: blocks.last(block),
    }
}

/// The FCDs of the marked frames of a block, lent one at a time.
#[derive(Debug, Drop)]
struct Marked<'a> {
    blocks: &'a Blocks,
    block: usize,
    map: [u8; 32],
    next: u16,
}

impl<'a> Model for Marked<'a> {
    ghost use Rattle.std.specs.Prelude.{◌<◌, ◌≤◌, List, ℕ, [], drop, length, slice_index_or};
    ghost use Rattle.stations.specs.CallerStep.{fcds};
    ghost use Rattle.stations.specs.Inputs.{PlainItem};

    ghost Value = { List PlainItem };

    ghost view = { λ m. fcds m.map m.next (drop m.next (slice_index_or m.blocks.now m.block [])) };

    ghost invariant = { λ m. (m.block < length m.blocks.now) × (m.next ≤ length (slice_index_or m.blocks.now m.block [])) };
}

impl<'a> Marked<'a> {
    /// The next one.
    fn take_next(&mut self) -> Option<Signal<'a>>
        ensures { GivesSignal self.old result self.new }
    {
        let blocks = self.blocks;
        let count = blocks.last(self.block) as u16 + 1;
        let number = next_marked(&self.map, self.next, count);
        if number >= count {
            self.next = count;
            return None;
        }
        let octets = blocks.frame(self.block, number as u8);
        self.next = number + 1;
        Some(Signal::Fcd {
            number: number as u8,
            octets,
        })
    }
}

/// The FCDs that are left, to be lent once more.
fn marked_again<'a>(marked: &Option<Marked<'a>>) -> Option<Marked<'a>>
    ensures { result ≡ marked.now }
{
    match marked {
        Some(frames) => Some(Marked {
            blocks: frames.blocks,
            block: frames.block,
            map: frames.map,
            next: frames.next,
        }),
        None => None,
    }
}

/// The next FCD, if there are any.
fn take_marked<'a>(marked: &mut Option<Marked<'a>>) -> Option<Signal<'a>>
    ensures { GivesSignal (fcds_left marked.old) result (fcds_left marked.new) }
{
    match marked {
        Some(frames) => frames.take_next(),
        None => None,
    }
}

/// The first marked number from one on, or the count if there is none below it.
fn next_marked(map: &[u8; 32], from: u16, count: u16) -> u16
    requires order { from ≤ count }
    requires few { count ≤ 256 }
    ensures above { from ≤ result }
    ensures below { result ≤ count }
    ensures least { (n : ℕ) → from ≤ n → n < result → bit_of map.now n ≡ false }
    ensures marked { result < count → bit_of map.now result ≡ true }
{
    for number in from..count {
        if is_marked(map, number as u8) {
            return number;
        }
    }
    count
}

/// Whether the bit of a frame is 1 in a map.
fn is_marked(map: &[u8; 32], number: u8) -> bool
    ensures { result ≡ bit_of map.now number }
{
    bit_of(Order::LsbFirst, map, number as u128)
}
