//! Blocks and stores at size, and refused memory.

ghost use Rattle.std.specs.Prelude.{◌<◌};

use partial_page::{BlockFault, BlockStore, Blocks, MAX_PAGE_OCTETS};
use std::alloc::{AllocError, Global};
use std::process::Abort;
use std::test::Fail;

/// A number of octets of one value.
fn octets(alloc: Global, count: usize, value: u8) -> Result<Vec<u8>, AllocError> {
    let mut octets = Vec::new(alloc);
    octets.resize(count, value)?;
    Ok(octets)
}

/// How many blocks a number of octets is cut into, and the last frame of the last one; 0 and 0 where there is none.
fn cut_into(alloc: Global, count: usize, small: bool) -> Result<(usize, u8), BlockFault> {
    let blocks = Blocks::cut(alloc, octets(alloc, count, 7)?, small)?;
    match blocks.count() {
        0 => Ok((0, 0)),
        count => Ok((count, blocks.last(count - 1))),
    }
}

#[test]
fn pages_are_cut_into_blocks(rt: HostRuntime) -> Result<(), Fail> {
    let pages = [
        (0, false, 0, 0),
        (0, true, 0, 0),
        (600, false, 1, 2),
        (65, true, 1, 1),
        (65_537, false, 2, 0),
        (MAX_PAGE_OCTETS, false, 128, 255),
        (MAX_PAGE_OCTETS, true, 512, 255),
    ];
    for (count, small, blocks, last) in pages {
        assert_eq!(rt; cut_into(rt.alloc(), count, small)?, (blocks, last));
    }
    Ok(())
}

/// Whether octets are frames of a size, each of octets of its number.
fn are_frames(octets: &[u8], size: usize) -> bool
    requires { 0 < size }
{
    for (place, octet) in octets.iter().enumerate() {
        if *octet as usize != place / size {
            return false;
        }
    }
    true
}

/// A block of 256 frames of a size, each of octets of its number.
fn full_block(alloc: Global, small: bool, size: usize) -> Result<BlockStore, BlockFault> {
    let mut store = BlockStore::new(alloc, small);
    for n in 0..=255u8 {
        store.put(n, &octets(alloc, size, n)?)?;
    }
    Ok(store)
}

#[test]
fn a_whole_block_of_full_frames_is_joined(rt: HostRuntime) -> Result<(), Fail> {
    let alloc = rt.alloc();
    for (small, size) in [(false, 256), (true, 64)] {
        let store = full_block(alloc, small, size)?;
        assert!(rt; store.whole(255));
        let mut joined = Vec::new(alloc);
        store.append_joined(255, &mut joined)?;
        assert_eq!(rt; joined.len(), 256 * size);
        assert!(rt; are_frames(&joined, size));
    }
    Ok(())
}

/// Run with each allocation refused in turn.
#[test]
fn a_refused_cut_says_no_memory(rt: HostRuntime) -> Result<(), Fail> {
    let alloc = rt.alloc();
    let Ok(page) = octets(alloc, 600, 7) else {
        return Ok(());
    };
    match Blocks::cut(alloc, page, false) {
        Ok(blocks) => assert_eq!(rt; blocks.count(), 1),
        Err(refused) => assert_eq!(rt; refused, BlockFault::NoMemory),
    }
    Ok(())
}

/// Puts a frame's data, again after a refusal, which changes nothing.
fn put_again(rt: &impl Abort, store: &mut BlockStore) -> Result<(), BlockFault> {
    let Err(refused) = store.put(0, &[1, 2]) else {
        return Ok(());
    };
    assert_eq!(rt; refused, BlockFault::NoMemory);
    assert_eq!(rt; (store.missing(255), store.ready()), ([0xFF; 32], false));
    store.put(0, &[1, 2])
}

/// The data of the first frame, again after a refusal, which changes nothing.
fn joined_again(alloc: Global, rt: &impl Abort, store: &BlockStore) -> Result<Vec<u8>, AllocError> {
    assert!(rt; store.whole(0));
    let mut joined = Vec::new(alloc);
    if store.append_joined(0, &mut joined).is_err() {
        assert!(rt; joined.is_empty());
        store.append_joined(0, &mut joined)?;
    }
    Ok(joined)
}

/// Run with each allocation refused in turn.
#[test]
fn a_refused_growth_changes_nothing(rt: HostRuntime) -> Result<(), Fail> {
    let mut store = BlockStore::new(rt.alloc(), true);
    put_again(&rt, &mut store)?;
    assert_eq!(rt; store.put(0, &[3]).err(), None);
    assert_eq!(rt;
        joined_again(rt.alloc(), &rt, &store)?.as_slice(),
        [3].as_slice()
    );
    store.clear();
    assert_eq!(rt; store.put(255, &[4]).err(), None);
    assert_eq!(rt; store.frame(255), Some([4].as_slice()));
    Ok(())
}
