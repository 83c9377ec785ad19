//! Laws of the definitions. Nothing runs.

ghost use Rattle.partial_page.specs.ByNumbers.{CutsByPlaces, FaultsHaveNumbers, LimitsByBlocks, MapsByOctets, PutsByPlaces};
ghost use Rattle.partial_page.specs.Frames.{CutIsFullFrames, JoinedPageIsWithinLimit, OctetsHaveABlock, PageJoinsByBlocks};
ghost use Rattle.partial_page.specs.Store.{NoFramesHaveNone, StoreJoinsToBlock};

/// Each block of a page has 1 to 256 frames of exactly the agreed size, 256 in each block but the last; joined they are
/// the page and then fewer octets 00 than a frame has.
pub fn page_is_cut_into_full_frames()
    ensures { CutIsFullFrames }
{}

/// Each beginning of the joined frames of a page within the limit is within the limit too, since 8,388,608 is a
/// multiple of both frame sizes.
pub fn page_stays_within_limit()
    ensures { JoinedPageIsWithinLimit }
{}

/// A page that isn't empty is cut into one block or more.
pub fn octets_have_a_block()
    ensures { OctetsHaveABlock }
{}

/// The joined frames of all blocks are the joined frames of each block in turn.
pub fn page_joins_by_blocks()
    ensures { PageJoinsByBlocks }
{}

/// A store that has each frame of a block under its number joins to the octets of the block.
pub fn store_joins_to_block()
    ensures { StoreJoinsToBlock }
{}

/// 256 places are those of an empty store exactly if none of them has a frame.
pub fn no_frames_have_none()
    ensures { NoFramesHaveNone }
{}

/// A fault has its number in the list of all faults, and no other.
pub fn faults_have_numbers()
    ensures { FaultsHaveNumbers }
{}

/// Where each block and each frame of a page begins and ends, by octets: a block has 65,536 octets of the page, or
/// 16,384 with small frames, the last block what is left; the last frame has 00 after the page's end. A page has at
/// most 128 such blocks, or 512. ITU-T T.30, A.3.
pub fn page_is_cut_by_places()
    ensures places { CutsByPlaces }
    ensures limits { LimitsByBlocks }
{}

/// The 32 octets of a PPR's map by number: frame 8 k + i has weight 2^i in octet k, and counts if it is missing or
/// above the last. No other octets are the map. ITU-T T.30, A.4.4.
pub fn map_has_octets()
    ensures { MapsByOctets }
{}

/// A frame that is stored, for the first time or again, is at its number, and each other number has what it had; it is
/// refused exactly for more than 64 or 256 octets, or for memory.
pub fn frame_keeps_others()
    ensures { PutsByPlaces }
{}
