//! The blocks of a coded page (ITU-T T.30, Annex A).

ghost use Rattle.partial_page.specs.Frames.{frame_size, max_page_octets, CutsPage, IsCut};
ghost use Rattle.std.specs.Prelude.{◌≡◌, ◌≤◌, ◌<◌, ◌+◌, ◌-◌, ◌*◌, [], length, take, drop, slice_index_or, IfOk};

use crate::fault::BlockFault;
use std::alloc::Global;
use std::marker::Model;

/// The greatest number of octets of a coded page.
pub const MAX_PAGE_OCTETS: usize = 8_388_608;

/// The octets of a frame: 64 if `small`, else 256.
pub(crate) fn frame_octets(small: bool) -> usize
    ensures size { result ≡ frame_size small }
    ensures some { 0 < result }
    ensures most { result ≤ 256 }
{
    if small { 64 } else { 256 }
}

/// The frame at a place among frames that lie one after the other.
pub(crate) fn frame_at(octets: &[u8], place: usize, small: bool) -> &[u8]
    requires few { place < max_page_octets }
    requires within { (place + 1) * frame_size small ≤ length octets.now }
    ensures { result.now ≡ take (frame_size small) (drop (place * frame_size small) octets.now) }
{
    let size = frame_octets(small);
    &octets[place * size..(place + 1) * size]
}

/// A coded page, cut into the frames of ITU-T T.30, Annex A: blocks of 256 frames, the last block with the rest, and
/// each frame of the agreed size.
#[derive(Debug, Drop)]
pub struct Blocks {
    // the filled page as one list, from which frames are lent
    octets: Vec<u8>,
    frames: usize,
    small: bool,
}

impl Model for Blocks {
    ghost use Rattle.std.specs.Prelude.{ℕ, ◌≡◌, ◌≤◌, ◌*◌, List, length};
    ghost use Rattle.partial_page.specs.Frames.{frame_size, blocks_of, max_page_frames};

    ghost Value = { List (List (List ℕ)) };

    ghost view = { λ b. blocks_of (frame_size b.small) b.frames b.octets.items };

    ghost invariant = { λ b. (length b.octets.items ≡ b.frames * frame_size b.small) × (b.frames ≤ max_page_frames) };
}

impl Blocks {
    /// Cuts a coded page into frames of 64 octets if `small`, else of 256, and fills the last frame with octets 00;
    /// without octets there is no block. The frames stay in the memory of `coded`, which grows. `PageTooLong` (24)
    /// exactly for more than 8,388,608 octets, `NoMemory` (9) if memory is refused.
    pub fn cut(_alloc: Global, coded: Vec<u8>, small: bool) -> Result<Blocks, BlockFault>
        ensures cuts { CutsPage small coded.items result }
        ensures full { IfOk result (λ blocks. IsCut (frame_size small) coded.items blocks) }
    {
        if coded.len() > MAX_PAGE_OCTETS {
            return Err(BlockFault::PageTooLong);
        }
        let mut octets = coded;
        let size = frame_octets(small);
        let frames = octets.len().div_ceil(size);
        octets.resize(frames * size, 0)?;
        Ok(Blocks {
            octets,
            frames,
            small,
        })
    }

    /// Returns the number of blocks.
    #[tactic(auto, using(crate::proofs::BlockLemmas::views))]
    pub fn count(&self) -> usize
        ensures { result ≡ length self.now }
    {
        self.frames.div_ceil(256)
    }

    /// Returns the number of the last frame of a block that is there, from 0: its frames less 1.
    #[tactic(auto, using(crate::proofs::BlockLemmas::views))]
    pub fn last(&self, block: usize) -> u8
        requires { block < length self.now }
        ensures { result + 1 ≡ length (slice_index_or self.now block []) }
    {
        let rest = self.frames - block * 256;
        if rest > 256 { 255 } else { (rest - 1) as u8 }
    }

    /// Returns the octets of a frame of a block, both counted from 0; the block must have the frame.
    #[tactic(auto, using(crate::proofs::BlockLemmas::views))]
    pub fn frame(&self, block: usize, n: u8) -> &[u8]
        requires block { block < length self.now }
        requires frame { n < length (slice_index_or self.now block []) }
        ensures { result.now ≡ slice_index_or (slice_index_or self.now block []) n [] }
    {
        let octets = &self.octets;
        let place = block * 256 + n as usize;
        frame_at(octets, place, self.small)
    }
}
