//! The octets of a burst, cut after each of its frames.

use run_tables::{BitWriter, Order};
use stations::Carrier;
use std::alloc::{AllocError, Global};
use terminals::SentBurst;

/// What is under way: the octets of a frame and of the flags around it, or of a training check.
#[derive(Drop)]
pub struct Item {
    /// The octets.
    pub octets: Vec<u8>,
    /// Whether it is a training check.
    pub is_check: bool,
}

impl Item {
    /// Makes each octet of a training check FF; a frame stays as it is.
    pub fn spoil(&mut self) {
        if !self.is_check {
            return;
        }
        for octet in self.octets.iter_mut() {
            *octet = 0xFF;
        }
    }
}

/// Cuts bits after each frame, which ends with a flag. The rest are flags.
#[derive(Drop)]
struct Cutter {
    alloc: Global,
    bits: BitWriter,
    window: u8,
    since: u64,
    flagged: bool,
}

impl Cutter {
    /// With no bits.
    fn new(alloc: Global) -> Cutter {
        Cutter {
            alloc,
            bits: BitWriter::new(alloc, Order::LsbFirst),
            window: 0,
            since: 0,
            flagged: false,
        }
    }

    /// Takes the next bit. The octets of a frame, with the flags before it, where the bit ends one.
    fn take_bit(&mut self, bit: u8) -> Result<Option<Vec<u8>>, AllocError> {
        self.bits.push_bits(u32::from(bit & 1), 1)?;
        self.window = self.window >> 1 | (bit & 1) << 7;
        self.since = self.since.saturating_add(1);
        if self.window != 0x7E {
            return Ok(None);
        }
        let ends = self.flagged && self.since > 8;
        self.flagged = true;
        self.since = 0;
        if !ends {
            return Ok(None);
        }
        let fresh = BitWriter::new(self.alloc, Order::LsbFirst);
        let done = std::mem::replace(&mut self.bits, fresh);
        Ok(Some(done.into_octets()))
    }

    /// Takes the bits of the next octet, the least significant first. Adds each frame that ends in it.
    fn take_octet(&mut self, octet: u8, items: &mut Vec<Item>) -> Result<(), AllocError> {
        for place in 0..8u32 {
            if let Some(octets) = self.take_bit(octet >> place)? {
                items.push(Item {
                    octets,
                    is_check: false,
                })?;
            }
        }
        Ok(())
    }
}

/// Adds the items of a burst: its training check, or each of its frames with the flags before it; those after the last one come with it.
pub fn add_burst(
    alloc: Global,
    burst: &SentBurst,
    items: &mut Vec<Item>,
) -> Result<(), AllocError> {
    if let Carrier::Training(_) = burst.carrier {
        let mut octets = Vec::new(alloc);
        octets.extend_from_slice(&burst.octets)?;
        items.push(Item {
            octets,
            is_check: true,
        })?;
        return Ok(());
    }
    let mut cutter = Cutter::new(alloc);
    for octet in &burst.octets {
        cutter.take_octet(*octet, items)?;
    }
    let after = cutter.bits.into_octets();
    if let Some(last) = items.last_mut() {
        last.octets.extend_from_slice(&after)?;
    }
    Ok(())
}
