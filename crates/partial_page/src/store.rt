//! The frames of a block, under their numbers, in one buffer.

ghost use Rattle.partial_page.specs.Frames.{frame_size};
ghost use Rattle.partial_page.specs.Store.{StoredFrames, no_frames, frame_of, has_frame, is_marked, IsStore, IsWhole, joined_frames};
ghost use Rattle.partial_page.specs.Store.{PutsFrame, IsKept, IsMissingMap, bit_of};
ghost use Rattle.std.specs.Prelude.{◌≡◌, ◌≤◌, ◌<◌, ◌+◌, ◌⊎◌, ◌++◌, ◌&&◌, ◌||◌, ℕ, true, false, take, drop, length, nat_eq, slice_set};
ghost use Rattle.std.specs.Prelude.{option_map, unwrap_or, [], IsOk, OnOk, OnErr, IsTrue, ◌↔◌};

use crate::blocks::{frame_at, frame_octets};
use crate::fault::BlockFault;
use raster::packed::{Order, bit_of};
use std::alloc::{AllocError, Global};
use std::marker::Model;

/// Sets the bit of a number, if it is marked, the least significant of an octet first.
fn mark(octets: &mut [u8; 32], n: u8, marked: bool)
    ensures { (k : ℕ) → bit_of octets.new k ≡ (marked && nat_eq k n || bit_of octets.old k) }
{
    if marked {
        octets[(n / 8) as usize] |= 1 << (n % 8);
    }
}

/// Writes octets from a place of the buffer on.
fn write_from(buffer: &mut Vec<u8>, place: usize, octets: &[u8])
    requires { place + length octets.now ≤ length buffer.old.items }
    ensures length { length buffer.new.items ≡ length buffer.old.items }
    ensures written { take (length octets.now) (drop place buffer.new.items) ≡ octets.now }
    ensures others { (from count : ℕ) → (from + count ≤ place) ⊎ (place + length octets.now ≤ from) →
        take count (drop from buffer.new.items) ≡ take count (drop from buffer.old.items) }
{
    buffer[place..place + octets.len()].copy_from_slice(octets);
}

/// The frames of a block that have come, by their numbers. All lie in one buffer of 256 places of the agreed size,
/// which the first frame takes and the store then keeps.
#[derive(Debug, Drop)]
pub struct BlockStore {
    buffer: Vec<u8>,
    there: [u8; 32],
    lengths: [u16; 256],
    small: bool,
}

impl Model for BlockStore {
    ghost use Rattle.std.specs.Prelude.{length, nat_lt};
    ghost use Rattle.partial_page.specs.Store.{StoredFrames, frames_in, IsLaidOut};

    ghost Value = { StoredFrames };

    ghost view = { λ s. record {
      small = s.small;
      frames = frames_in s.small s.buffer.items s.there s.lengths;
      ready = nat_lt 0 (length s.buffer.items);
    } };

    ghost invariant = { λ s. IsLaidOut s.small s.buffer.items s.there s.lengths };
}

impl BlockStore {
    /// An empty store for frames of at most 64 octets if `small`, else of at most 256. Takes no memory.
    pub fn new(alloc: Global, small: bool) -> BlockStore
        ensures store { IsStore result }
        ensures empty { result ≡ record { small = small; frames = no_frames; ready = false } }
    {
        BlockStore {
            buffer: Vec::new(alloc),
            there: [0; 32],
            lengths: [0; 256],
            small,
        }
    }

    /// Whether the buffer is taken. From then on it stays, and `put` takes no memory.
    pub fn ready(&self) -> bool
        ensures store { IsStore self.now }
        ensures ready { result ≡ self.now.ready }
    {
        !self.buffer.is_empty()
    }

    /// Takes the buffer if it isn't taken yet. `AllocError` if memory is refused; the store stays as it was.
    fn make_ready(&mut self) -> Result<(), AllocError>
        ensures ok { OnOk result (self.new ≡ record self.old { ready = true }) }
        ensures err { OnErr result (self.new ≡ self.old) }
        ensures lasts { self.old.ready ≡ true → IsOk result }
    {
        if self.ready() {
            return Ok(());
        }
        self.buffer.resize(256 * frame_octets(self.small), 0)?;
        Ok(())
    }

    /// Keeps the data of frame `n` in its place.
    fn keep(&mut self, n: u8, octets: &[u8])
        requires ready { self.old.ready ≡ true }
        requires short { length octets.now ≤ frame_size self.old.small }
        ensures store { IsStore self.new }
        ensures kept { self.new ≡ record self.old { frames = slice_set self.old.frames n (Some octets.now) } }
    {
        write_from(
            &mut self.buffer,
            n as usize * frame_octets(self.small),
            octets,
        );
        self.lengths[n as usize] = octets.len() as u16;
        mark(&mut self.there, n, true);
    }

    /// Stores the data of frame `n`, which may be shorter than a frame; a later frame of the same number replaces the
    /// earlier one. `TooLong` (23) if the data are longer than a frame, `NoMemory` (9) if memory is refused, never of a
    /// store that is ready; then the store is as it was.
    pub fn put(&mut self, n: u8, octets: &[u8]) -> Result<(), BlockFault>
        ensures store { IsStore self.new }
        ensures puts { PutsFrame self.old n octets.now self.new result }
        ensures kept { OnOk result (IsKept self.old.frames n octets.now self.new.frames) }
        ensures lasts { self.old.ready ≡ true → length octets.now ≤ frame_size self.old.small → IsOk result }
    {
        if octets.len() > frame_octets(self.small) {
            return Err(BlockFault::TooLong);
        }
        self.make_ready()?;
        self.keep(n, octets);
        Ok(())
    }

    /// Returns the data of frame `n`; None if it isn't there.
    pub fn frame(&self, n: u8) -> Option<&[u8]>
        ensures store { IsStore self.now }
        ensures data { option_map (λ octets. octets.now) result ≡ frame_of self.now.frames n }
    {
        if !self.has(n) {
            return None;
        }
        let place = frame_at(&self.buffer, n as usize, self.small);
        Some(&place[..self.lengths[n as usize] as usize])
    }

    /// Whether frame `n` is there.
    fn has(&self, n: u8) -> bool
        ensures store { IsStore self.now }
        ensures has { result ≡ has_frame self.now.frames n }
    {
        bit_of(Order::LsbFirst, &self.there, n as u128)
    }

    /// Whether frame `n` is missing or above `last`.
    fn is_marked(&self, last: u8, n: u8) -> bool
        ensures { result ≡ is_marked self.now.frames last n }
    {
        n > last || !self.has(n)
    }

    /// Returns the map of the missing frames: bit n mod 8 of octet n div 8, the least significant being bit 0, is 1 if
    /// frame n is missing or n is above `last`. Takes no memory.
    pub fn missing(&self, last: u8) -> [u8; 32]
        ensures store { IsStore self.now }
        ensures map { IsMissingMap self.now.frames last result }
    {
        let _ready = self.ready(); // for the proof: what every store keeps to
        let mut octets = [0; 32];
        for number in 0u16..256 {
            let n = number as u8;
            mark(&mut octets, n, self.is_marked(last, n));
        }
        octets
    }

    /// Whether the frames 0 to `last` are all there. Takes no memory.
    pub fn whole(&self, last: u8) -> bool
        ensures store { IsStore self.now }
        ensures whole { IsTrue result ↔ IsWhole self.now.frames last }
    {
        let _ready = self.ready(); // for the proof: what every store keeps to
        for number in 0..last as u16 + 1 {
            if !self.has(number as u8) {
                return false;
            }
        }
        true
    }

    /// Whether no frame is there. Takes no memory.
    pub fn is_empty(&self) -> bool
        ensures store { IsStore self.now }
        ensures empty { IsTrue result ↔ (self.now.frames ≡ no_frames) }
    {
        let _ready = self.ready(); // for the proof: what every store keeps to
        for number in 0u16..256 {
            if self.has(number as u8) {
                return false;
            }
        }
        true
    }

    /// Appends the data of frame `n`, if there are any.
    fn append_frame(&self, n: u8, octets: &mut Vec<u8>) -> Result<(), AllocError>
        ensures ok { OnOk result (octets.new.items ≡ octets.old.items ++ unwrap_or (frame_of self.now.frames n) []) }
        ensures err { OnErr result (octets.new.items ≡ octets.old.items) }
    {
        if let Some(kept) = self.frame(n) {
            octets.extend_from_slice(kept)?;
        }
        Ok(())
    }

    /// Appends the frames 0 to `last`, which must all be there, one after the other. `AllocError` if memory is refused;
    /// the list stays as it was.
    pub fn append_joined(&self, last: u8, octets: &mut Vec<u8>) -> Result<(), AllocError>
        requires { IsWhole self.now.frames last }
        ensures store { IsStore self.now }
        ensures ok { OnOk result (octets.new.items ≡ octets.old.items ++ joined_frames self.now.frames (last + 1)) }
        ensures err { OnErr result (octets.new.items ≡ octets.old.items) }
    {
        let _ready = self.ready(); // for the proof: what every store keeps to
        let start = octets.len();
        for number in 0..last as u16 + 1 {
            if let Err(refused) = self.append_frame(number as u8, octets) {
                octets.truncate(start);
                return Err(refused);
            }
        }
        Ok(())
    }

    /// Removes all frames and keeps the buffer. Takes no memory.
    pub fn clear(&mut self)
        ensures store { IsStore self.new }
        ensures empty { self.new ≡ record self.old { frames = no_frames } }
    {
        self.there = [0; 32];
    }
}
