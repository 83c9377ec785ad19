//! The terminals of answerers in handles.

ghost use Rattle.g3fax.specs.Answering.{all_confirmed, count_left, stored_so_far, with_confirmed, with_handed};
ghost use Rattle.std.specs.Prelude.{◌≡◌, ◌<◌, ◌^◌};

use crate::codes::in_64_bits;
use raster::Page;
use stations::LimitedAnswerer;
use std::marker::Model;
use terminals::TimedTerminal;

/// How many pages of an answerer went which way; each count stops at 2^64 - 1.
#[derive(Clone, Copy)]
pub struct Tally {
    /// How many were handed out.
    pub handed: u64,
    /// How many an MCF has confirmed.
    pub confirmed: u64,
}

impl Tally {
    /// No page yet.
    pub(crate) const NONE: Tally = Tally {
        handed: 0,
        confirmed: 0,
    };

    /// The tally with one more page handed out.
    pub(crate) fn with_handed(self) -> Tally
        ensures { result ≡ with_handed self }
    {
        Tally {
            handed: self.handed.saturating_add(1),
            ..self
        }
    }
}

/// The terminal of an answerer, and the pages taken out of it that wait to be handed out.
#[derive(Drop)]
pub struct Answering {
    pub(crate) timed: TimedTerminal<LimitedAnswerer>,
    // a terminal gives all its pages at once and is free for others then: with a limit of n there are never more than 2n - 1
    pub(crate) waiting: Vec<Page>,
    // how many pages the station stores before it is busy
    pub(crate) limit: u32,
    pub(crate) tally: Tally,
}

impl Model for Answering {
    ghost use Rattle.g3fax.specs.Answering.{AnsweringFields};

    ghost Value = { AnsweringFields };

    ghost view = { λ a. record {
      timed = a.timed;
      waiting = a.waiting.items;
      limit = a.limit;
      tally = a.tally;
    } };
}

impl Answering {
    /// How many pages are stored and not handed out.
    pub(crate) fn count_left(&self) -> u128
        ensures left { result ≡ count_left self.now }
        ensures few { result < 2 ^ 65 }
    {
        let stored = self.timed.terminal().station().station().pages();
        self.waiting.len() as u128 + stored.len() as u128
    }

    /// How many pages were stored so far.
    fn stored_so_far(&self) -> u128
        ensures { result ≡ stored_so_far self.now }
    {
        self.tally.handed as u128 + self.count_left()
    }

    /// The tally after the next burst, which is MCF or isn't: MCF confirms all pages that were stored so far.
    pub(crate) fn with_confirmed(&self, confirms: bool) -> Tally
        ensures { result ≡ with_confirmed confirms self.now }
    {
        if confirms {
            return Tally {
                confirmed: in_64_bits(self.stored_so_far()),
                ..self.tally
            };
        }
        self.tally
    }

    /// Whether each page that was stored is confirmed.
    pub(crate) fn is_confirmed(&self) -> bool
        ensures { result ≡ all_confirmed self.now }
    {
        self.stored_so_far() <= self.tally.confirmed as u128
    }
}
