//! The pages in what is sent on a line, by its signals alone, over any reader.

mod again;
mod following;
mod open_front;

ghost use Rattle.captures.specs.Captured.{Takes, after_dcs, after_lack, after_page, agreed, at_dcs, at_end, captured, dcs_must_follow};
ghost use Rattle.captures.specs.Captured.{empty_capture, ends_again, gathers, gives_up, has_used_number, hears, hears_again, hears_block, hears_fcd};
ghost use Rattle.captures.specs.Captured.{hears_pps, hears_read, held_after_dcs, is_again, is_taken, is_waiting, judges, judges_by, lacking, later_one, left_by_dcs};
ghost use Rattle.captures.specs.Captured.{left_open, missing_after, missing_before, no_dcs, overlaid, page_after_dcs, page_in, pages_before};
ghost use Rattle.captures.specs.Captured.{renumbers, turns_number};
ghost use Rattle.captures.specs.Captured.{refuses, said_after_dcs, takes_block, turns_from, turns_page, turns_to, unless_begun, with_block};
ghost use Rattle.captures.specs.Contents.{ReadsAll};
ghost use Rattle.faults.specs.Faults.{IsOutside};
ghost use Rattle.hdlc.specs.Gaps.{good};
ghost use Rattle.partial_page.specs.Store.{frame_of, is_missing, joined_frames, no_frames};
ghost use Rattle.raster.specs.Packed.{bits_of};
ghost use Rattle.raster.specs.declared.packed.Order.TheVariants.{LsbFirst};
ghost use Rattle.signals.specs.Reading.{read_content};
ghost use Rattle.signals.specs.Signals.{plain};
ghost use Rattle.std.specs.Prelude.{◌≡◌, ◌+◌, ◌++◌, ◌∷◌, [], ℕ, IfErr, IfOk};
ghost use Rattle.std.specs.Prelude.{None, OnOk, Some, cond, false, map, nat_eq, option_map, true};
ghost use Rattle.partial_page.specs.Assembling.{all_there, last_counted};
ghost use Rattle.partial_page.specs.Assembling.{asked_by};

use crate::captured::again::{is_resend, overlay};
use crate::captured::following::{
    dcs_must_follow, ends_again, name_due, name_left, page_after_dcs, said_after_dcs,
    taken_after_dcs,
};
use crate::content_reader::ContentReader;
use faults::{FAILED, NO_MEMORY, ToolFault};
use page_code::{CodesPages, PageRead};
use partial_page::{BlockAssembler, BlockFault, BlockStore};
use raster::Page;
use run_tables::{CodeFault, Order};
use signals::{Mark, PageEnd, Params, Pps, Signal};
use std::alloc::{AllocError, Global};
use std::io::Read;
use std::marker::Model;
use std::mem;

/// What is found in the signals of a line.
#[derive(Debug, Drop)]
pub enum Captured {
    /// A page.
    Page {
        /// The mark of its last block.
        mark: Mark,
        /// The page.
        page: Page,
    },
    /// A page that is missing: its number, from 0, modulo 256, as a PPS would have it.
    MissingPage(u8),
    /// A page that can't be read.
    Unread {
        /// The mark of its last block.
        mark: Mark,
        /// The refusal, at a bit of its code.
        fault: CodeFault,
    },
    /// A frame that is missing.
    MissingFrame {
        /// The mark of its block.
        mark: Mark,
        /// Its number in the block.
        frame: u8,
    },
    /// The blocks before this one are missing.
    MissingBlocks(Mark),
    /// A page, or a block of it, has no end.
    Unfinished,
    /// A block before any DCS of its call.
    BlockBeforeDcs(Mark),
    /// A block after the end of a page by EOM or EOP, and before the DCS that must come then.
    BlockAfterEnd {
        /// Its mark.
        mark: Mark,
        /// What the page before it ended with: EOM or EOP.
        ends: PageEnd,
    },
    /// A page that had to follow, and didn't come.
    MissingAfter {
        /// Its number, from 0, modulo 256, as a PPS would have it.
        page: u8,
        /// What the page before it ended with: MPS or EOM.
        ends: PageEnd,
    },
    /// What had to follow has a number that was used.
    UsedNumber {
        /// The mark of its first block.
        mark: Mark,
        /// What the PPS before it said: NULL if it is the next block of the page, MPS or EOM if it is the next page.
        said: PageEnd,
    },
}

/// What is known while the signals of a line come.
#[derive(Debug, Drop)]
pub(crate) struct Capture {
    pub(crate) alloc: Global,
    params: Option<Params>,
    ended: Option<PageEnd>,
    said: Option<PageEnd>,
    coming: BlockStore,
    begun: bool,
    block: BlockAssembler,
    taken: Option<Mark>,
    held: BlockStore,
    page: u8,
    octets: Vec<u8>,
    next: u8,
    spoiled: bool,
}

impl Model for Capture {
    ghost use Rattle.std.specs.Prelude.{◌≡◌, IfSome};
    ghost use Rattle.captures.specs.Captured.{Capture as CaptureValue};

    ghost Value = { CaptureValue };

    ghost view = { λ c. record {
      params = c.params;
      ended = c.ended;
      said = c.said;
      coming = c.coming.frames;
      begun = c.begun;
      waiting = c.block.asked;
      kept = c.block.frames.frames;
      taken = c.taken;
      held = c.held.frames;
      page = c.page;
      octets = c.octets.items;
      next = c.next;
      spoiled = c.spoiled;
    } };

    ghost invariant = { λ c. (c.block.frames.small ≡ c.coming.small) × (c.held.small ≡ c.coming.small) × IfSome c.params (λ params. c.coming.small ≡ params.small) };
}

/// Appends what is found.
pub(crate) fn tell(out: &mut Vec<Captured>, found: Captured) -> Result<(), ToolFault>
    ensures appended { OnOk result (out.new.items ≡ out.old.items ++ found ∷ []) }
    ensures fault { IfErr result IsOutside }
{
    match out.push(found) {
        Ok(()) => Ok(()),
        Err(_) => Err(NO_MEMORY),
    }
}

/// The page that octets are, by the DCS.
fn read_page(
    alloc: Global,
    params: Params,
    mark: Mark,
    octets: &[u8],
) -> Result<Captured, ToolFault>
    ensures found { IfOk result (λ found. found ≡ page_in params mark octets.now) }
    ensures fault { IfErr result IsOutside }
{
    let width = params.width.pixels();
    match params
        .coding
        .page(alloc, octets, Order::LsbFirst, width, params.fine)
    {
        Ok(PageRead::Page(page, _used)) => Ok(Captured::Page { mark, page }),
        Ok(PageRead::Refused(refused, _rows)) => Ok(Captured::Unread {
            mark,
            fault: refused.fault,
        }),
        Err(AllocError) => Err(NO_MEMORY),
    }
}

/// Names a frame if it is missing.
fn name_one(
    frames: &BlockStore,
    mark: Mark,
    frame: u8,
    out: &mut Vec<Captured>,
) -> Result<(), ToolFault>
    ensures named { OnOk result (out.new.items ≡ out.old.items
        ++ cond (is_missing frames.now.frames frame) (Captured.MissingFrame mark frame ∷ []) []) }
    ensures fault { IfErr result IsOutside }
{
    if frames.frame(frame).is_some() {
        return Ok(());
    }
    tell(out, Captured::MissingFrame { mark, frame })
}

/// Names the frames of a block that are missing.
fn name_lacking(frames: &BlockStore, waiting: Pps, out: &mut Vec<Captured>) -> Result<(), ToolFault>
    ensures named { OnOk result (out.new.items ≡ out.old.items
        ++ map (λ number. Captured.MissingFrame waiting.mark number) (lacking frames.now.frames waiting.last)) }
    ensures fault { IfErr result IsOutside }
{
    for number in 0..waiting.last as u16 + 1 {
        name_one(frames, waiting.mark, number as u8, out)?;
    }
    Ok(())
}

/// Names the pages from one on to another one, without that.
fn name_pages(from: u8, page: u8, out: &mut Vec<Captured>) -> Result<(), ToolFault>
    ensures named { OnOk result (out.new.items ≡ out.old.items
        ++ map (λ number. Captured.MissingPage number) (pages_before from page)) }
    ensures fault { IfErr result IsOutside }
{
    for further in 0..page.wrapping_sub(from) {
        tell(out, Captured::MissingPage(from.wrapping_add(further)))?;
    }
    Ok(())
}

impl Capture {
    /// Before any signal. Takes no memory.
    pub(crate) fn new(alloc: Global) -> Capture
        ensures { result ≡ empty_capture None }
    {
        Capture {
            alloc,
            params: None,
            ended: None,
            said: None,
            coming: BlockStore::new(alloc, false),
            begun: false,
            block: BlockAssembler::new(alloc, false),
            taken: None,
            held: BlockStore::new(alloc, false),
            page: 0,
            octets: Vec::new(alloc),
            next: 0,
            spoiled: false,
        }
    }

    /// Takes out the frames of the block that was taken last, if a DCS keeps the size of frames.
    fn take_held(&mut self, params: Params) -> BlockStore
        ensures held { result.frames ≡ held_after_dcs self.old.params params self.old.held }
        ensures small { result.small ≡ params.small }
    {
        let fresh = BlockStore::new(self.alloc, params.small);
        let Some(before) = self.params else {
            return fresh;
        };
        if before.small != params.small {
            return fresh;
        }
        mem::replace(&mut self.held, fresh)
    }

    /// After a DCS. Takes no memory.
    fn begin(&mut self, params: Params)
        ensures { self.new ≡ after_dcs params self.old }
    {
        let said = said_after_dcs(self.said);
        let page = page_after_dcs(self.said, self.page);
        let taken = taken_after_dcs(said, self.taken);
        let held = self.take_held(params);
        *self = Capture {
            params: Some(params),
            said,
            coming: BlockStore::new(self.alloc, params.small),
            block: BlockAssembler::new(self.alloc, params.small),
            taken,
            held,
            page,
            ..Capture::new(self.alloc)
        };
    }

    /// Returns whether the block with this mark is the one that waits for frames.
    fn is_waiting(&self, mark: Mark) -> bool
        ensures { result ≡ is_waiting self.now.waiting mark }
    {
        match self.block.asked {
            Some(waiting) => waiting.mark.is_same(mark),
            None => false,
        }
    }

    /// Returns whether the block with this mark was whole already.
    fn is_taken(&self, mark: Mark) -> bool
        ensures { result ≡ is_taken self.now.taken mark }
    {
        match self.taken {
            Some(taken) => taken.is_same(mark),
            None => false,
        }
    }

    /// A PPS with the last frame that counts.
    fn counted(&self, pps: Pps) -> Pps
        ensures { result ≡ record pps { last = last_counted (option_map asked_by self.now.waiting) pps.mark pps.last } }
    {
        // some senders count in the PPS of a resend only what they send again, so the greatest last frame counts
        self.block.counted(pps)
    }

    /// Drops the frames since the last PPS.
    fn drop_coming(&mut self)
        ensures { self.new ≡ record self.old { coming = no_frames; begun = false } }
    {
        self.coming.clear();
        self.begun = false;
    }

    /// A page is over.
    fn turn_over(&mut self, ends: PageEnd, mark: Mark)
        ensures { self.new ≡ after_page ends mark self.old }
    {
        self.ended = dcs_must_follow(ends, self.ended);
        self.said = Some(ends);
        self.page = mark.page.wrapping_add(1);
        self.octets.clear();
        self.next = 0;
        self.spoiled = false;
    }

    /// A block of which frames are missing is given up.
    fn spoil(&mut self, waiting: Pps)
        ensures { self.new ≡ after_lack waiting.ends waiting.mark (record self.old { waiting = None; kept = no_frames }) }
    {
        self.block.clear();
        match waiting.ends {
            PageEnd::Null => {
                // the page's code can't go on after the gap, so it isn't read
                self.said = Some(PageEnd::Null);
                self.octets.clear();
                self.next = waiting.mark.block.wrapping_add(1);
                self.spoiled = true;
            }
            PageEnd::Mps | PageEnd::Eom | PageEnd::Eop => {
                self.turn_over(waiting.ends, waiting.mark);
            }
        }
    }

    /// The block that waits for frames, if there is one, is given up.
    #[tactic(auto, unfolding(crate::specs::Captured::gives_up))]
    fn give_up(&mut self, out: &mut Vec<Captured>) -> Result<(), ToolFault>
        ensures taken { OnOk result (Takes (gives_up self.old self.old.waiting) self.new out.old.items out.new.items) }
        ensures fault { IfErr result IsOutside }
    {
        let Some(waiting) = self.block.asked else {
            return Ok(());
        };
        name_lacking(&self.block.frames, waiting, out)?;
        self.spoil(waiting);
        Ok(())
    }

    /// A block comes: another one that waits is given up.
    fn turn_from(&mut self, mark: Mark, out: &mut Vec<Captured>) -> Result<(), ToolFault>
        ensures taken { OnOk result (Takes (turns_from mark self.old) self.new out.old.items out.new.items) }
        ensures fault { IfErr result IsOutside }
    {
        if self.is_waiting(mark) {
            return Ok(());
        }
        self.give_up(out)
    }

    /// Names what is missing before a page with another number than the next one.
    fn name_before(&self, page: u8, out: &mut Vec<Captured>) -> Result<(), ToolFault>
        ensures named { OnOk result (out.new.items ≡ out.old.items ++ missing_before page self.now) }
        ensures fault { IfErr result IsOutside }
    {
        if page.wrapping_sub(self.page) < 128 {
            return name_pages(self.page, page, out);
        }
        // a page far ahead is one of another call, the beginning of which isn't there
        name_due(self.said, self.page, out)?;
        name_pages(0, page, out)
    }

    /// Returns whether what had to follow has a number that was used.
    fn has_used_number(&self, mark: Mark) -> bool
        ensures { result ≡ has_used_number self.now.said mark self.now }
    {
        match self.said {
            Some(PageEnd::Null) => self.is_taken(mark) && mark.block != self.next,
            Some(PageEnd::Mps | PageEnd::Eom) => mark.page.wrapping_add(1) == self.page,
            Some(PageEnd::Eop) | None => false,
        }
    }

    /// What comes under a number that was used is what had to follow.
    fn renumber(&mut self, said: PageEnd, mark: Mark)
        ensures { self.new ≡ (renumbers (Some said) mark self.old).then }
    {
        match said {
            PageEnd::Null => self.next = mark.block,
            PageEnd::Mps | PageEnd::Eom | PageEnd::Eop => self.page = mark.page,
        }
    }

    /// A block under a number that was used comes.
    fn turn_number(&mut self, mark: Mark, out: &mut Vec<Captured>) -> Result<(), ToolFault>
        ensures taken { OnOk result (Takes (turns_number mark self.old) self.new out.old.items out.new.items) }
        ensures fault { IfErr result IsOutside }
    {
        if !self.has_used_number(mark) {
            return Ok(());
        }
        let Some(said) = self.said else {
            return Ok(());
        };
        tell(out, Captured::UsedNumber { mark, said })?;
        self.renumber(said, mark);
        Ok(())
    }

    /// A block of another page than the open one comes: the pages before it are missing.
    fn turn_page(&mut self, mark: Mark, out: &mut Vec<Captured>) -> Result<(), ToolFault>
        ensures taken { OnOk result (Takes (turns_page mark self.old) self.new out.old.items out.new.items) }
        ensures fault { IfErr result IsOutside }
    {
        if mark.page == self.page {
            return Ok(());
        }
        self.name_before(mark.page, out)?;
        self.page = mark.page;
        self.octets.clear();
        self.next = 0;
        self.spoiled = false;
        Ok(())
    }

    /// A block comes: if blocks before it are missing, its page can't be read.
    fn turn_to(&mut self, mark: Mark, out: &mut Vec<Captured>) -> Result<(), ToolFault>
        ensures taken { OnOk result (Takes (turns_to mark self.old) self.new out.old.items out.new.items) }
        ensures fault { IfErr result IsOutside }
    {
        if mark.block == self.next {
            return Ok(());
        }
        tell(out, Captured::MissingBlocks(mark))?;
        self.octets.clear();
        self.next = mark.block;
        self.spoiled = true;
        Ok(())
    }

    /// Adds the frames since the last PPS to those that are kept of their block; of two frames of one number the later
    /// one counts.
    fn gather(&mut self) -> Result<(), ToolFault>
        ensures gathered { OnOk result (self.new ≡ gathers self.old) }
        ensures fault { IfErr result IsOutside }
    {
        // A lost PPS mixes the frames of two blocks. The numbers of pages and blocks then show that one is missing.
        overlay(&mut self.block.frames, &self.coming)?;
        self.drop_coming();
        Ok(())
    }

    /// Appends the frames of a whole block to the open page, unless a block of that page is missing.
    fn append_block(&mut self, last: u8) -> Result<(), ToolFault>
        requires whole { all_there self.old.kept last ≡ true }
        ensures appended { OnOk result
            (self.new ≡ record self.old { octets = with_block self.old (joined_frames self.old.kept (last + 1)) }) }
        ensures fault { IfErr result IsOutside }
    {
        if self.spoiled {
            self.octets.clear();
            return Ok(());
        }
        self.block.append_to(last, &mut self.octets)?;
        Ok(())
    }

    /// The open page is at its end: it is read, unless a block of it is missing.
    fn end_page(
        &mut self,
        params: Params,
        pps: Pps,
        out: &mut Vec<Captured>,
    ) -> Result<(), ToolFault>
        ensures taken { OnOk result (Takes (record {
          then = after_page pps.ends pps.mark self.old;
          found = cond self.old.spoiled [] (page_in params pps.mark self.old.octets ∷ []);
        }) self.new out.old.items out.new.items) }
        ensures fault { IfErr result IsOutside }
    {
        if !self.spoiled {
            let found = read_page(self.alloc, params, pps.mark, &self.octets)?;
            tell(out, found)?;
        }
        self.turn_over(pps.ends, pps.mark);
        Ok(())
    }

    /// A block is whole.
    #[tactic(auto, unfolding(crate::specs::Captured::takes_block))]
    fn take_block(
        &mut self,
        params: Params,
        pps: Pps,
        out: &mut Vec<Captured>,
    ) -> Result<(), ToolFault>
        requires whole { all_there self.old.kept pps.last ≡ true }
        ensures taken { OnOk result (Takes (takes_block params pps.ends pps.mark (joined_frames self.old.kept (pps.last + 1))
            self.old) self.new out.old.items out.new.items) }
        ensures fault { IfErr result IsOutside }
    {
        self.append_block(pps.last)?;
        mem::swap(&mut self.block.frames, &mut self.held);
        self.block.clear();
        self.taken = Some(pps.mark);
        match pps.ends {
            PageEnd::Null => {
                self.said = Some(PageEnd::Null);
                self.next = pps.mark.block.wrapping_add(1);
                Ok(())
            }
            PageEnd::Mps | PageEnd::Eom | PageEnd::Eop => self.end_page(params, pps, out),
        }
    }

    /// The block whose frames are gathered is whole, or waits for the frames that are missing.
    #[tactic(auto, unfolding(crate::specs::Captured::judges))]
    fn judge(&mut self, params: Params, pps: Pps, out: &mut Vec<Captured>) -> Result<(), ToolFault>
        ensures taken { OnOk result (Takes (judges params pps.ends pps.mark pps.last self.old)
            self.new out.old.items out.new.items) }
        ensures fault { IfErr result IsOutside }
    {
        if self.block.is_whole(pps.last) {
            return self.take_block(params, pps, out);
        }
        self.block.asked = Some(pps);
        Ok(())
    }

    /// Why a block can't be read where no DCS went before it.
    fn no_dcs(&self, mark: Mark) -> Captured
        ensures { result ≡ no_dcs self.now.ended mark }
    {
        match self.ended {
            Some(ends) => Captured::BlockAfterEnd { mark, ends },
            None => Captured::BlockBeforeDcs(mark),
        }
    }

    /// A block that no DCS went before.
    fn refuse(&mut self, pps: Pps, out: &mut Vec<Captured>) -> Result<(), ToolFault>
        ensures taken { OnOk result (Takes (refuses pps.ends pps.mark self.old) self.new out.old.items out.new.items) }
        ensures fault { IfErr result IsOutside }
    {
        tell(out, self.no_dcs(pps.mark))?;
        self.spoil(pps);
        self.drop_coming();
        self.params = None;
        self.held.clear();
        self.taken = Some(pps.mark);
        Ok(())
    }

    /// Returns how the pages that come are sent, by the last DCS.
    pub(crate) fn agreed(&self) -> Option<Params>
        ensures { result ≡ agreed self.now }
    {
        match self.ended {
            Some(_) => None,
            None => self.params,
        }
    }

    /// A block whose turn it is.
    fn judge_by_dcs(&mut self, pps: Pps, out: &mut Vec<Captured>) -> Result<(), ToolFault>
        ensures taken { OnOk result (Takes (judges_by (agreed self.old) pps.ends pps.mark pps.last self.old)
            self.new out.old.items out.new.items) }
        ensures fault { IfErr result IsOutside }
    {
        let Some(params) = self.agreed() else {
            return self.refuse(pps, out);
        };
        self.gather()?;
        self.judge(params, pps, out)
    }

    /// A PPS of a block that isn't whole yet.
    #[tactic(auto, unfolding(crate::specs::Captured::hears_block))]
    fn hear_block(&mut self, pps: Pps, out: &mut Vec<Captured>) -> Result<(), ToolFault>
        ensures taken { OnOk result (Takes (hears_block pps.ends pps.mark pps.last self.old)
            self.new out.old.items out.new.items) }
        ensures fault { IfErr result IsOutside }
    {
        self.turn_from(pps.mark, out)?;
        self.turn_number(pps.mark, out)?;
        self.turn_page(pps.mark, out)?;
        self.turn_to(pps.mark, out)?;
        let counted = self.counted(pps);
        self.judge_by_dcs(counted, out)
    }

    /// A PPS that is sent again after its block was whole.
    fn hear_again(&mut self, ends: PageEnd)
        ensures { self.new ≡ hears_again ends self.old }
    {
        self.drop_coming();
        if !ends_again(ends, self.said) {
            return;
        }
        self.ended = dcs_must_follow(ends, None);
        self.said = Some(ends);
    }

    /// Returns whether a PPS with this mark is sent again.
    #[tactic(auto, unfolding(crate::specs::Captured::is_again))]
    fn is_again(&self, mark: Mark) -> bool
        ensures { result ≡ is_again mark self.now }
    {
        self.is_taken(mark) && !self.is_waiting(mark) && is_resend(&self.held, &self.coming)
    }

    /// A PPS.
    fn hear_pps(&mut self, pps: Pps, out: &mut Vec<Captured>) -> Result<(), ToolFault>
        ensures taken { OnOk result (Takes (hears_pps pps.ends pps.mark pps.last self.old)
            self.new out.old.items out.new.items) }
        ensures fault { IfErr result IsOutside }
    {
        if self.is_again(pps.mark) {
            self.hear_again(pps.ends);
            return Ok(());
        }
        self.hear_block(pps, out)
    }

    /// An FCD.
    #[tactic(auto, unfolding(partial_page::specs::Assembling::within_frame_size))]
    fn hear_fcd(&mut self, number: u8, octets: &[u8]) -> Result<(), ToolFault>
        ensures taken { OnOk result (self.new ≡ (hears_fcd self.old.ended self.old.params number octets.now self.old).then) }
        ensures fault { IfErr result IsOutside }
    {
        let Some(_params) = self.params else {
            self.begun = true;
            return Ok(());
        };
        match self.coming.put(number, octets) {
            Ok(()) => {
                self.begun = true;
                Ok(())
            }
            Err(BlockFault::TooLong) => {
                if self.ended.is_some() {
                    self.begun = true;
                }
                Ok(())
            }
            Err(_) => Err(NO_MEMORY),
        }
    }

    /// Names what is missing if nothing follows.
    #[tactic(auto, unfolding(crate::specs::Captured::left_open))]
    fn name_open(&self, out: &mut Vec<Captured>) -> Result<(), ToolFault>
        ensures named { OnOk result (out.new.items ≡ out.old.items ++ left_open self.now) }
        ensures fault { IfErr result IsOutside }
    {
        if self.begun {
            return tell(out, Captured::Unfinished);
        }
        name_due(self.said, self.page, out)
    }

    /// Names a page that a DCS leaves without its end.
    fn name_begun(&self, out: &mut Vec<Captured>) -> Result<(), ToolFault>
        ensures named { OnOk result (out.new.items ≡ out.old.items ++ unless_begun self.now.begun (left_by_dcs self.now.said)) }
        ensures fault { IfErr result IsOutside }
    {
        if self.begun {
            return tell(out, Captured::Unfinished);
        }
        name_left(self.said, out)
    }

    /// A DCS comes: what is open is left.
    #[tactic(auto, unfolding(crate::specs::Captured::at_dcs))]
    fn leave(&mut self, out: &mut Vec<Captured>) -> Result<(), ToolFault>
        ensures named { OnOk result (out.new.items ≡ out.old.items ++ at_dcs self.old) }
        ensures left { OnOk result (self.new ≡ (gives_up self.old self.old.waiting).then) }
        ensures fault { IfErr result IsOutside }
    {
        self.give_up(out)?;
        self.name_begun(out)
    }

    /// A call is at its end.
    #[tactic(auto, unfolding(crate::specs::Captured::at_end))]
    pub(crate) fn end(&mut self, out: &mut Vec<Captured>) -> Result<(), ToolFault>
        ensures named { OnOk result (out.new.items ≡ out.old.items ++ at_end self.old) }
        ensures left { OnOk result (self.new ≡ (gives_up self.old self.old.waiting).then) }
        ensures fault { IfErr result IsOutside }
    {
        self.give_up(out)?;
        self.name_open(out)
    }

    /// The number of the open page, modulo 256.
    pub(crate) fn page(&self) -> u8
        ensures { result ≡ self.now.page }
    {
        self.page
    }

    /// A signal.
    #[tactic(auto, unfolding(crate::specs::Captured::hears))]
    fn hear(&mut self, signal: Signal<'_>, out: &mut Vec<Captured>) -> Result<(), ToolFault>
        ensures taken { OnOk result (Takes (hears (plain signal.entry) self.old) self.new out.old.items out.new.items) }
        ensures fault { IfErr result IsOutside }
    {
        match signal {
            Signal::Dcs(params) => {
                self.leave(out)?;
                self.begin(params);
                Ok(())
            }
            Signal::Dcn => {
                self.end(out)?;
                *self = Capture::new(self.alloc);
                Ok(())
            }
            Signal::Fcd { number, octets } => self.hear_fcd(number, octets),
            Signal::Pps {
                ends,
                page,
                block,
                last,
            } => {
                let mark = Mark { page, block };
                self.hear_pps(Pps { ends, mark, last }, out)
            }
            _ => Ok(()),
        }
    }

    /// A content.
    pub(crate) fn hear_content(
        &mut self,
        content: &[u8],
        out: &mut Vec<Captured>,
    ) -> Result<(), ToolFault>
        ensures taken { OnOk result (Takes (hears_read (read_content content.now) self.old) self.new out.old.items out.new.items) }
        ensures fault { IfErr result IsOutside }
    {
        match signals::read(content) {
            Ok(signal) => self.hear(signal, out),
            Err(_) => Ok(()),
        }
    }
}

/// Reads the octets of a line, in this bit order, and returns what its signals carry, in their order (ITU-T T.30, Annex A): the pages, each
/// joined from the data of FCDs by the PPSs and read by the width, lines and code of the DCS before; and what is missing of others. No
/// station is needed. Each page comes once, however often its blocks were sent. Errors: `Io` (8) from the reader, or if it doesn't end in
/// 2^64 reads; `NoMemory` (9).
pub fn captured_in<R: Read>(
    alloc: Global,
    reader: &mut R,
    order: Order,
) -> Result<Vec<Captured>, ToolFault>
    ensures found { IfOk result (λ found. ReadsAll (R.remaining reader.old) (R.remaining reader.new) (λ octets.
        found.items ≡ captured (good (bits_of order octets)))) }
    ensures fault { IfErr result IsOutside }
{
    let mut contents = ContentReader::new(alloc, order);
    let mut capture = Capture::new(alloc);
    let mut out = Vec::new(alloc);
    for _content in 0..u64::MAX {
        let more = contents.advance(reader)?;
        if !more {
            capture.end(&mut out)?;
            return Ok(out);
        }
        capture.hear_content(contents.content(), &mut out)?;
    }
    Err(FAILED)
}
