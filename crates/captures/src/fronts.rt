//! The frames in bits listed, and the pages that they carry given on, also the rows before a gap of those that aren't whole.

ghost use Rattle.captures.specs.Captured.{hears_read};
ghost use Rattle.captures.specs.Contents.{ReadsAll};
ghost use Rattle.faults.specs.Faults.{IsOutside};
ghost use Rattle.captures.specs.Frames.{ListsFrames, frame_line};
ghost use Rattle.captures.specs.Fronts.{GivesFront, IsFrontPage, Salvages, SalvagesAll, SalvagesEnd};
ghost use Rattle.hdlc.specs.Gaps.{good};
ghost use Rattle.raster.specs.Packed.{bits_of};
ghost use Rattle.raster.specs.Pages.{PagePixels};
ghost use Rattle.signals.specs.Reading.{read_content};
ghost use Rattle.std.specs.Io.KnownBytes.{Appends};
ghost use Rattle.std.specs.Prelude.{ℕ, ◌≡◌, IfErr, IfOk, OnOk};

use crate::captured::Capture;
use crate::content_reader::ContentReader;
use crate::found::{FoundStore, give_all};
use crate::frames::{ListOptions, flush_waiting, has_no_frame, write_counts, write_frame};
use faults::{FAILED, ToolFault};
use page_code::CodesPages;
use raster::Page;
use run_tables::Order;
use signals::Params;
use std::alloc::{AllocError, Global};
use std::io::{Read, Write};

/// Takes the rows of pages before their gaps.
pub trait FrontStore {
    // What it is that rows before a gap are taken: the store before, the page's number, the page of the rows, and the store after.
    ghost fronts: { Self → ℕ → PagePixels → Self → Type 0 };

    /// Takes the page of the rows before a gap, at least one, with the page's number from 0, modulo 256. Errors: `Io` (8) if it can't be
    /// stored, `NoMemory` (9).
    fn take_front(&mut self, number: u8, page: Page) -> Result<(), ToolFault>
        ensures taken { OnOk result (fronts self.old number page self.new) }
        ensures fault { IfErr result IsOutside };
}

/// The page of the whole rows at the beginning of octets, by the DCS.
fn front_page(alloc: Global, params: Params, octets: &[u8]) -> Result<Page, AllocError>
    ensures { IfOk result (IsFrontPage params octets.now) }
{
    let width = params.width.pixels();
    params
        .coding
        .salvage(alloc, octets, Order::LsbFirst, width, params.fine)
}

/// Gives the store the rows before a gap, if there are any.
fn give_front<S: FrontStore>(
    alloc: Global,
    params: Option<Params>,
    number: u8,
    octets: &[u8],
    store: &mut S,
) -> Result<(), ToolFault>
    ensures given { OnOk result (GivesFront S.fronts params number octets.now store.old store.new) }
    ensures fault { IfErr result IsOutside }
{
    let Some(params) = params else {
        return Ok(());
    };
    let page = front_page(alloc, params, octets)?;
    if page.rows().is_empty() {
        return Ok(());
    }
    store.take_front(number, page)
}

/// Writes the line of a good frame and flushes the writer, then gives the store the rows before the gap that it leaves, and what its signal
/// completes.
fn salvage_frame<W: Write, S: FoundStore + FrontStore>(
    capture: &mut Capture,
    number: u64,
    content: &[u8],
    how: ListOptions,
    writer: &mut W,
    store: &mut S,
) -> Result<(), ToolFault>
    ensures line { OnOk result (Appends (W.contents writer.old) (W.contents writer.new) (frame_line how number content.now)) }
    ensures is { OnOk result (capture.new ≡ (hears_read (read_content content.now) capture.old).then) }
    ensures given { OnOk result (Salvages S.takes S.fronts (read_content content.now) capture.old store.old store.new) }
    ensures fault { IfErr result IsOutside }
{
    write_frame(capture.alloc, number, content, how, writer)?;
    let params = capture.agreed();
    let page = capture.page();
    let front = capture.front_before(content)?;
    let mut found = Vec::new(capture.alloc);
    capture.hear_content(content, &mut found)?;
    if !found.is_empty() {
        writer.flush()?;
    }
    give_front(capture.alloc, params, page, &front, store)?;
    give_all(found, store)
}

/// Gives the store the rows of the open page before its gap, and reports unfinished pages at the end of the input.
fn salvage_end<S: FoundStore + FrontStore>(
    capture: &mut Capture,
    store: &mut S,
) -> Result<(), ToolFault>
    ensures given { OnOk result (SalvagesEnd S.takes S.fronts capture.old store.old store.new) }
    ensures fault { IfErr result IsOutside }
{
    let params = capture.agreed();
    let page = capture.page();
    let front = capture.open_front()?;
    let mut found = Vec::new(capture.alloc);
    capture.end(&mut found)?;
    give_front(capture.alloc, params, page, &front, store)?;
    give_all(found, store)
}

/// Does what `pages_engine` does, and gives the store also the whole rows before the first gap of a page that isn't whole, before what is
/// missing of it. A gap shows at a DCS, a DCN, a PPS that gives up the open page, or the end. Errors are those of `pages_engine`.
pub fn salvage_pages_engine<R: Read, W: Write, S: FoundStore + FrontStore>(
    alloc: Global,
    reader: &mut R,
    writer: &mut W,
    how: ListOptions,
    store: &mut S,
) -> Result<bool, ToolFault>
    ensures given { IfOk result (λ worth. ReadsAll (R.remaining reader.old) (R.remaining reader.new) (λ octets.
        ListsFrames how octets (W.contents writer.old) (W.contents writer.new) worth
        × SalvagesAll S.takes S.fronts (good (bits_of how.order octets)) store.old store.new)) }
    ensures fault { IfErr result IsOutside }
{
    let mut contents = ContentReader::new(alloc, how.order);
    let mut capture = Capture::new(alloc);
    for number in 1..u64::MAX {
        let more = contents.advance(reader)?;
        if !more {
            salvage_end(&mut capture, store)?;
            write_counts(alloc, contents.counts(), how, writer)?;
            return Ok(has_no_frame(contents.octets(), number));
        }
        salvage_frame(&mut capture, number, contents.content(), how, writer, store)?;
        flush_waiting(&contents, writer)?;
    }
    Err(FAILED)
}
