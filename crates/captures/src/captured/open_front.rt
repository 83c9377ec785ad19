//! The octets of the open page before its gap.

ghost use Rattle.captures.specs.Fronts.{AppendsFront, IsFrontAt, IsFrontBefore, IsFrontOfSignal, IsLostFront, IsOpenFront, goes_on};
ghost use Rattle.captures.specs.Fronts.{is_its_turn, open_frames};
ghost use Rattle.faults.specs.Faults.{IsOutside};
ghost use Rattle.signals.specs.Reading.{read_content};
ghost use Rattle.signals.specs.Signals.{plain};
ghost use Rattle.std.specs.Prelude.{◌≡◌, [], IfErr, IfOk, None, OnOk, cond};

use crate::captured::Capture;
use faults::ToolFault;
use partial_page::BlockStore;
use signals::{Mark, Signal};

/// Appends the frames of a block before the first one that is missing.
fn append_front(frames: &BlockStore, octets: &mut Vec<u8>) -> Result<(), ToolFault>
    ensures front { OnOk result (AppendsFront frames.now.frames octets.old.items octets.new.items) }
    ensures fault { IfErr result IsOutside }
{
    for number in 0u16..256 {
        let Some(data) = frames.frame(number as u8) else {
            return Ok(());
        };
        octets.extend_from_slice(data)?;
    }
    Ok(())
}

impl Capture {
    /// Appends the frames of the open block before the first one that is missing.
    fn append_open(&self, octets: &mut Vec<u8>) -> Result<(), ToolFault>
        ensures front { OnOk result (AppendsFront (open_frames self.now.waiting self.now) octets.old.items octets.new.items) }
        ensures fault { IfErr result IsOutside }
    {
        match self.block.asked {
            Some(_) => append_front(&self.block.frames, octets),
            // Taken to be the next block: if a whole block is sent again and then cut off, its rows come twice.
            None => append_front(&self.coming, octets),
        }
    }

    /// Returns the octets of the open page before its first gap, when no more of it follows.
    pub(crate) fn open_front(&self) -> Result<Vec<u8>, ToolFault>
        ensures front { IfOk result (λ octets. IsOpenFront self.now octets.items) }
        ensures fault { IfErr result IsOutside }
    {
        let mut octets = Vec::new(self.alloc);
        if self.spoiled {
            return Ok(octets);
        }
        octets.extend_from_slice(&self.octets)?;
        self.append_open(&mut octets)?;
        Ok(octets)
    }

    /// The octets of the open page's whole blocks.
    fn whole_front(&self) -> Result<Vec<u8>, ToolFault>
        ensures front { IfOk result (λ octets. octets.items ≡ cond self.now.spoiled [] self.now.octets) }
        ensures fault { IfErr result IsOutside }
    {
        let mut octets = Vec::new(self.alloc);
        if self.spoiled {
            return Ok(octets);
        }
        octets.extend_from_slice(&self.octets)?;
        Ok(octets)
    }

    /// The octets before the gap of the open page, which a PPS gives up.
    fn lost_front(&self) -> Result<Vec<u8>, ToolFault>
        ensures front { IfOk result (λ octets. IsLostFront self.now.waiting self.now octets.items) }
        ensures fault { IfErr result IsOutside }
    {
        match self.block.asked {
            Some(_) => self.open_front(),
            None => self.whole_front(),
        }
    }

    /// Returns whether the block of this mark is the next one of the open page, also under a number that was used.
    fn is_next(&self, mark: Mark) -> bool
        ensures { result ≡ is_its_turn None mark self.now }
    {
        if self.has_used_number(mark) {
            return true;
        }
        mark.page == self.page && mark.block == self.next
    }

    /// Returns whether the open page goes on with the block of this mark, or a PPS with this mark is sent again.
    fn goes_on(&self, mark: Mark) -> bool
        ensures { result ≡ goes_on mark self.now }
    {
        if self.is_again(mark) {
            return true;
        }
        match self.block.asked {
            Some(waiting) => waiting.mark.is_same(mark),
            None => self.is_next(mark),
        }
    }

    /// Returns the octets that a PPS with this mark leaves before the gap of the open page; none if the page goes on.
    fn front_at(&self, mark: Mark) -> Result<Vec<u8>, ToolFault>
        ensures front { IfOk result (λ octets. IsFrontAt (goes_on mark self.now) self.now octets.items) }
        ensures fault { IfErr result IsOutside }
    {
        if self.goes_on(mark) {
            return Ok(Vec::new(self.alloc));
        }
        self.lost_front()
    }

    /// The octets before the gap of the open page that a signal leaves: a DCS or a DCN, or a PPS that gives the page up.
    fn front_of(&self, signal: &Signal<'_>) -> Result<Vec<u8>, ToolFault>
        ensures front { IfOk result (λ octets. IsFrontOfSignal (plain signal.now) self.now octets.items) }
        ensures fault { IfErr result IsOutside }
    {
        match signal {
            Signal::Dcs(_) | Signal::Dcn => self.open_front(),
            Signal::Pps { page, block, .. } => self.front_at(Mark {
                page: *page,
                block: *block,
            }),
            _ => Ok(Vec::new(self.alloc)),
        }
    }

    /// The octets before the gap of the open page that a content leaves.
    pub(crate) fn front_before(&self, content: &[u8]) -> Result<Vec<u8>, ToolFault>
        ensures front { IfOk result (λ octets. IsFrontBefore (read_content content.now) self.now octets.items) }
        ensures fault { IfErr result IsOutside }
    {
        match signals::read(content) {
            Ok(signal) => self.front_of(&signal),
            Err(_) => Ok(Vec::new(self.alloc)),
        }
    }
}
