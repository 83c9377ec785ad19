//! What no clause says: a call that is run to its end, and readers and writers that fail.

use crate::streams::{Narrow, OneByOne};
use calls::{CallOptions, call_engine};
use faults::{FAILED, NO_MEMORY, ToolFault};
use page_code::Coding;
use signals::Modems;
use std::alloc::Global;
use std::test::Fail;

const OPTIONS: CallOptions = CallOptions {
    coding: Coding::T6,
    small: false,
    modems: Modems::V17,
    fine: false,
};

/// The header of an image of one row of 1,728 pixels, which has 216 octets.
const HEADER: &[u8; 10] = b"P4\n1728 1\n";

#[test]
fn an_undisturbed_call_answers_its_page(rt: HostRuntime) -> Result<(), Fail> {
    let alloc = rt.alloc();
    let mut image = [0; 226];
    image[..10].copy_from_slice(HEADER);
    let mut said = b"polite 11".as_slice();
    let mut images = image.as_slice();
    let mut text = Vec::new(alloc);
    let pages = call_engine(alloc, &mut said, &mut images, &mut text, &OPTIONS)?;
    assert_eq!(rt; pages.len(), 1);
    Ok(())
}

/// The fault of a call of no events, by readers that fail once they have given their octets, or not, and a writer that
/// takes a number of octets.
fn fault_of(
    alloc: Global,
    script_fails: bool,
    images_fail: bool,
    room: usize,
) -> Option<ToolFault> {
    let mut image = [0; 226];
    image[..10].copy_from_slice(HEADER);
    let mut said = OneByOne {
        left: b"# nothing\n",
        fails: script_fails,
    };
    let mut images = OneByOne {
        left: &image,
        fails: images_fail,
    };
    let mut text = Narrow {
        taken: Vec::new(alloc),
        room,
    };
    call_engine(alloc, &mut said, &mut images, &mut text, &OPTIONS).err()
}

#[test]
fn readers_and_writers_that_fail_are_fault_8(rt: HostRuntime) {
    for (script_fails, images_fail, room, fault) in [
        (true, false, 100, Some(FAILED)),
        (false, true, 100, Some(FAILED)),
        (false, false, 51, Some(FAILED)),
        (false, false, 52, None),
    ] {
        let found = fault_of(rt.alloc(), script_fails, images_fail, room);
        assert_eq!(rt; found, fault, "{script_fails} {images_fail} {room}");
    }
}

// Run with an allocation refused, it ends in pages, no more than one, or in the fault of memory.
#[test]
fn refused_memory_is_a_fault(rt: HostRuntime) {
    let alloc = rt.alloc();
    let mut image = [0; 226];
    image[..10].copy_from_slice(HEADER);
    let mut said = b"busy 2\npolite 11".as_slice();
    let mut images = image.as_slice();
    let mut text = Vec::new(alloc);
    match call_engine(alloc, &mut said, &mut images, &mut text, &OPTIONS) {
        Ok(pages) => assert!(rt; pages.len() <= 1),
        Err(fault) => assert!(rt; fault == NO_MEMORY),
    }
}
