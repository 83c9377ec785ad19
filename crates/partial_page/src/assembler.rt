//! A block that is put together from its frames.

ghost use Rattle.partial_page.specs.Store.{IsMissingMap, joined_frames, no_frames};
ghost use Rattle.std.specs.Prelude.{◌≡◌, ◌+◌, ◌++◌, ℕ, None, OnErr, OnOk, false, option_map, true};
ghost use Rattle.partial_page.specs.Assembling.{Frames, all_there, asked_by, last_counted, ppr_map};

use crate::store::BlockStore;
use signals::Pps;
use std::alloc::{AllocError, Global};

/// A block under way: its frames so far, and its last PPS if frames were missing then.
#[derive(Debug, Drop)]
pub struct BlockAssembler {
    /// The frames that have come.
    pub frames: BlockStore,
    /// The last PPS of the block, with the last frame that counts, if frames were missing.
    pub asked: Option<Pps>,
}

impl BlockAssembler {
    /// A block without frames, none asked for. A frame has at most 64 octets if `small`, else 256. Takes no memory.
    pub fn new(alloc: Global, small: bool) -> BlockAssembler
        ensures { result ≡ record { frames = record { small = small; frames = no_frames; ready = false }; asked = None } }
    {
        BlockAssembler {
            frames: BlockStore::new(alloc, small),
            asked: None,
        }
    }

    /// Returns a PPS with the last frame that counts: if frames were asked for after a PPS of the same mark, the
    /// greater of the two counts.
    pub fn counted(&self, pps: Pps) -> Pps
        ensures { result ≡ record pps { last = last_counted (option_map asked_by self.now.asked) pps.mark pps.last } }
    {
        // A PPS counts the whole block's frames, but after a resend some callers count only the frames sent again.
        match self.asked {
            Some(asked) => {
                if asked.mark.is_same(pps.mark) {
                    Pps {
                        ends: pps.ends,
                        mark: pps.mark,
                        last: asked.last.max(pps.last),
                    }
                } else {
                    pps
                }
            }
            None => pps,
        }
    }

    /// Whether the frames 0 to `last` are all there.
    pub fn is_whole(&self, last: u8) -> bool
        ensures { result ≡ all_there self.now.frames.frames last }
    {
        self.frames.whole(last)
    }

    /// Returns the map of a PPR: a 1 for each of the frames 0 to `last` that is missing, and for all numbers above.
    pub fn missing(&self, last: u8) -> [u8; 32]
        ensures { result ≡ ppr_map self.now.frames.frames last }
    {
        let map = self.frames.missing(last);
        is_missing_map(&map);
        map
    }

    /// Appends the frames 0 to `last`, which are all there, one after the other. `AllocError` if memory is refused; the
    /// list stays as it was.
    pub fn append_to(&self, last: u8, octets: &mut Vec<u8>) -> Result<(), AllocError>
        requires whole { all_there self.now.frames.frames last ≡ true }
        ensures ok { OnOk result (octets.new.items ≡ octets.old.items ++ joined_frames self.now.frames.frames (last + 1)) }
        ensures err { OnErr result (octets.new.items ≡ octets.old.items) }
    {
        self.frames.append_joined(last, octets)
    }

    /// Forgets all frames, and that any were asked for. Takes no memory.
    pub fn clear(&mut self)
        ensures { self.new ≡ record { frames = record self.old.frames { frames = no_frames }; asked = None } }
    {
        self.frames.clear();
        self.asked = None;
    }
}

/// The octets of a map of missing frames are the definition's. Nothing runs.
fn is_missing_map(octets: &[u8])
    ensures { (frames : Frames) (last : ℕ) → IsMissingMap frames last octets.now → octets.now ≡ ppr_map frames last }
{}
