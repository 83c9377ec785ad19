//! What no clause says of `frames`: a list of frames as it is printed, and readers and writers that fail.

use crate::streams::{Narrow, OneByOne};
use captures::frames_engine;
use faults::{FAILED, NO_MEMORY, ToolFault};
use std::alloc::Global;
use std::io;
use std::io::Read;
use std::test::Fail;

/// A message confirmation (MCF) of the answering station.
const FRAME: [u8; 8] = [0x7E, 0xDF, 0x47, 0x30, 0x8A, 0xC6, 0xFB, 0x01];

const LISTING: &[u8] = b"1 ff138c MCF\ngood 1 aborted 0 ragged 0 short 0 long 0 damaged 0\n";

/// A reader that is interrupted before each octet.
#[derive(Drop)]
struct Interrupted<'a> {
    left: &'a [u8],
    ready: bool,
}

impl Read for Interrupted<'_> {
    fn read(&mut self, octets: &mut [u8]) -> io::Result<usize> {
        self.ready = !self.ready;
        if !self.ready {
            return Err(io::Error::from(io::ErrorKind::Interrupted));
        }
        if octets.is_empty() {
            return Ok(0);
        }
        let Some((first, rest)) = self.left.split_first() else {
            return Ok(0);
        };
        octets[0] = *first;
        self.left = rest;
        Ok(1)
    }
}

/// The list of the frames that are read.
fn listed<R: Read>(alloc: Global, octets: &mut R) -> Result<Vec<u8>, ToolFault> {
    let mut text = Vec::with_capacity(alloc, 1000)?;
    frames_engine(alloc, octets, &mut text, None)?;
    Ok(text)
}

#[test]
fn a_confirmation_is_listed(rt: HostRuntime) -> Result<(), Fail> {
    let alloc = rt.alloc();
    let mut octets = OneByOne {
        left: &FRAME,
        fails: false,
    };
    assert_eq!(rt; listed(alloc, &mut octets)?.as_slice(), LISTING);
    let mut octets = Interrupted {
        left: &FRAME,
        ready: true,
    };
    assert_eq!(rt; listed(alloc, &mut octets)?.as_slice(), LISTING);
    Ok(())
}

#[test]
fn a_failing_reader_is_fault_8(rt: HostRuntime) {
    let alloc = rt.alloc();
    for given in 0..=FRAME.len() {
        let mut octets = OneByOne {
            left: &FRAME[..given],
            fails: true,
        };
        let mut text = Vec::new(alloc);
        let done = frames_engine(alloc, &mut octets, &mut text, None);
        assert_eq!(rt; done, Err(FAILED), "{given} octets");
    }
}

#[test]
fn a_failing_writer_is_fault_8(rt: HostRuntime) {
    let alloc = rt.alloc();
    for room in 0..LISTING.len() {
        let mut octets = FRAME.as_slice();
        let mut text = Narrow {
            taken: Vec::new(alloc),
            room,
        };
        let done = frames_engine(alloc, &mut octets, &mut text, None);
        assert_eq!(rt; done, Err(FAILED), "room for {room}");
    }
}

// Run with an allocation refused, it ends in the list or in the fault of memory.
#[test]
fn refused_memory_is_a_fault(rt: HostRuntime) {
    let alloc = rt.alloc();
    let mut octets = FRAME.as_slice();
    let mut text = Vec::new(alloc);
    match frames_engine(alloc, &mut octets, &mut text, None) {
        Ok(()) => assert_eq!(rt; text.as_slice(), LISTING),
        Err(fault) => assert_eq!(rt; fault, NO_MEMORY),
    }
}
