//! How far a station is with its call.

ghost use Rattle.std.specs.Prelude.{◌≡◌};
ghost use Rattle.stations.specs.CallerFields.{Represents};
ghost use Rattle.stations.specs.CallerStep.{Caller as CallerTuple, present_block};
ghost use Rattle.stations.specs.HowFar.{answerer_progress, block_progress, caller_progress};

use crate::answerer::Answerer;
use crate::caller::Caller;
use signals::Mark;

/// How far a caller is with a block.
#[derive(Clone, Copy, Debug, PartialEq, Eq)]
pub struct BlockProgress {
    /// Which of the page's blocks it is, from 1.
    pub number: u64,
    /// How many blocks the code of the page has.
    pub blocks: u64,
    /// How many PPRs asked for frames of it: 0 to 3. The map of each turn (`Turn::Burst`) says how many frames went out
    /// again.
    pub resends: u8,
}

/// How far a caller is with its document.
#[derive(Clone, Copy, Debug, PartialEq, Eq)]
pub struct CallerProgress {
    /// How many pages are confirmed; the one that is under way is the next after these.
    pub confirmed: u64,
    /// How many pages the document has.
    pub pages: u64,
    /// The block that is under way, from the CFR on; None in phase B and after the end.
    pub block: Option<BlockProgress>,
    /// How often the last command, DCS, PPS or RR, was sent; 0 before the first one.
    pub tries: u8,
}

/// How far an answerer is with its pages.
#[derive(Clone, Copy, Debug, PartialEq, Eq)]
pub struct AnswererProgress {
    /// How many pages are stored and not taken.
    pub pages: u64,
    /// The mark of the last accepted block: its page and its place, both modulo 256; None before the first one.
    pub accepted: Option<Mark>,
    /// How many octets of code the open page has, of its accepted blocks.
    pub octets: u64,
    /// How many frames of the block that is under way have come: 0 to 256.
    pub frames: u16,
}

impl Caller {
    /// Returns how far the caller is. Takes no memory.
    pub fn progress(&self) -> CallerProgress
        ensures { (t : CallerTuple) → Represents self.now t → result ≡ caller_progress t }
    {
        CallerProgress {
            confirmed: self.confirmed(),
            pages: self.page_count(),
            block: self.block_progress(),
            tries: self.tries(),
        }
    }

    /// How far the caller is with its present block.
    fn block_progress(&self) -> Option<BlockProgress>
        ensures { (t : CallerTuple) → Represents self.now t → result ≡ block_progress t (present_block t) }
    {
        let place = self.place();
        let resends = self.resends();
        let blocks = self.sending()?;
        let count = blocks.count() as u64;
        Some(BlockProgress {
            number: place as u64 + 1,
            blocks: count,
            resends,
        })
    }
}

impl Answerer {
    /// Returns how far the answerer is. Takes no memory.
    pub fn progress(&self) -> AnswererProgress
        ensures { result ≡ answerer_progress self.now }
    {
        AnswererProgress {
            pages: self.pages().len() as u64,
            accepted: self.last_mark(),
            octets: self.open_octets(),
            frames: self.open_frames(),
        }
    }
}
