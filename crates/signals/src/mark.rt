//! The marks of blocks, and the PPSs that have them.

ghost use Rattle.std.specs.Prelude.{◌≡◌};
ghost use Rattle.signals.specs.Marks.{same_mark};

use crate::signal::PageEnd;

/// The counts of page and block in a PPS, both modulo 256, by which a block differs from its neighbours.
#[derive(Clone, Copy, Debug, PartialEq, Eq)]
pub struct Mark {
    /// The page's number, from 0, modulo 256.
    pub page: u8,
    /// The block's place in its page, from 0, modulo 256.
    pub block: u8,
}

impl Mark {
    /// Whether two marks have the same counts.
    pub fn is_same(self, other: Mark) -> bool
        ensures { result ≡ same_mark self other }
    {
        self.page == other.page && self.block == other.block
    }
}

/// What a PPS says of its block.
#[derive(Clone, Copy, Debug, PartialEq, Eq)]
pub struct Pps {
    /// What ends with the block.
    pub ends: PageEnd,
    /// The block's mark.
    pub mark: Mark,
    /// The number of the block's last frame.
    pub last: u8,
}
