//! The frames of a block that is sent again.

ghost use Rattle.captures.specs.Captured.{is_resend, is_same_frame, later_one, overlaid};
ghost use Rattle.faults.specs.Faults.{IsOutside};
ghost use Rattle.partial_page.specs.Store.{frame_of};
ghost use Rattle.std.specs.Prelude.{◌≡◌, ℕ, IfErr, OnOk, cond, nat_eq, option_map};

use faults::{NO_MEMORY, ToolFault};
use partial_page::BlockStore;

/// Replaces the frame of a number by the later one, if there is a later one.
fn overlay_one(frames: &mut BlockStore, later: &BlockStore, number: u8) -> Result<(), ToolFault>
    requires { frames.old.small ≡ later.now.small }
    ensures small { frames.new.small ≡ frames.old.small }
    ensures one { OnOk result ((k : ℕ) → frame_of frames.new.frames k
        ≡ cond (nat_eq k number) (later_one (frame_of frames.old.frames k) (frame_of later.now.frames k)) (frame_of frames.old.frames k)) }
    ensures fault { IfErr result IsOutside }
{
    if let Some(octets) = later.frame(number) {
        if frames.put(number, octets).is_err() {
            return Err(NO_MEMORY);
        }
    }
    Ok(())
}

/// Puts the later frames of a block over those that are there.
pub(crate) fn overlay(frames: &mut BlockStore, later: &BlockStore) -> Result<(), ToolFault>
    requires { frames.old.small ≡ later.now.small }
    ensures small { frames.new.small ≡ frames.old.small }
    ensures frames { OnOk result (frames.new.frames ≡ overlaid frames.old.frames later.now.frames) }
    ensures fault { IfErr result IsOutside }
{
    let _ready = frames.ready(); // for the proof: what every store keeps to
    for number in 0u16..256 {
        overlay_one(frames, later, number as u8)?;
    }
    let _ready = frames.ready(); // for the proof: what every store keeps to
    Ok(())
}

/// Returns whether a frame that comes, if one does, is the one that the block has.
fn is_same_frame(had: Option<&[u8]>, coming: Option<&[u8]>) -> bool
    ensures { result ≡ is_same_frame (option_map (λ octets. octets.now) had.entry)
        (option_map (λ octets. octets.now) coming.entry) }
{
    let Some(octets) = coming else {
        return true;
    };
    match had {
        Some(had) => had == octets,
        None => false,
    }
}

/// Returns whether frames are a resend of frames of a block.
pub(crate) fn is_resend(had: &BlockStore, coming: &BlockStore) -> bool
    ensures { result ≡ is_resend had.now.frames coming.now.frames }
{
    for number in 0u16..256 {
        let number = number as u8;
        if !is_same_frame(had.frame(number), coming.frame(number)) {
            return false;
        }
    }
    true
}
