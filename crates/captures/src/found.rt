//! The frames in bits listed, and the pages that they carry given on, both as they come.

ghost use Rattle.captures.specs.Captured.{at_end, captured, hears_read};
ghost use Rattle.captures.specs.Contents.{ReadsAll};
ghost use Rattle.faults.specs.Faults.{IsOutside};
ghost use Rattle.captures.specs.Found.{GivesOn, TakesEach};
ghost use Rattle.captures.specs.Frames.{ListsFrames, frame_line};
ghost use Rattle.captures.specs.declared.captured.Captured.{Captured};
ghost use Rattle.hdlc.specs.Gaps.{good};
ghost use Rattle.raster.specs.Packed.{bits_of};
ghost use Rattle.signals.specs.Reading.{read_content};
ghost use Rattle.std.specs.Io.KnownBytes.{Appends};
ghost use Rattle.std.specs.Prelude.{◌≡◌, IfErr, IfOk, OnOk};

use crate::captured::{Capture, Captured};
use crate::content_reader::ContentReader;
use crate::frames::{ListOptions, flush_waiting, has_no_frame, write_counts, write_frame};
use faults::{FAILED, ToolFault};
use std::alloc::Global;
use std::io::{Read, Write};

/// Takes what is found in a capture, in order.
pub trait FoundStore {
    // What it is that something found is taken: the store before, what was found, and the store after.
    ghost takes: { Self → Captured → Self → Type 0 };

    /// Takes one finding. Errors: `Io` (8) if it can't be stored, `NoMemory` (9).
    fn take(&mut self, found: Captured) -> Result<(), ToolFault>
        ensures taken { OnOk result (takes self.old found self.new) }
        ensures fault { IfErr result IsOutside };
}

/// Gives all findings to the store, in order.
pub(crate) fn give_all<S: FoundStore>(found: Vec<Captured>, store: &mut S) -> Result<(), ToolFault>
    ensures given { OnOk result (TakesEach S.takes store.old found.items store.new) }
    ensures fault { IfErr result IsOutside }
{
    for one in found {
        store.take(one)?;
    }
    Ok(())
}

/// Writes the line of a good frame and flushes the writer, then gives the store what its signal completes.
fn take_frame<W: Write, S: FoundStore>(
    capture: &mut Capture,
    number: u64,
    content: &[u8],
    how: ListOptions,
    writer: &mut W,
    store: &mut S,
) -> Result<(), ToolFault>
    ensures line { OnOk result (Appends (W.contents writer.old) (W.contents writer.new) (frame_line how number content.now)) }
    ensures given { OnOk result (GivesOn S.takes (hears_read (read_content content.now) capture.old) capture.new store.old store.new) }
    ensures fault { IfErr result IsOutside }
{
    write_frame(capture.alloc, number, content, how, writer)?;
    let mut found = Vec::new(capture.alloc);
    capture.hear_content(content, &mut found)?;
    if !found.is_empty() {
        writer.flush()?;
    }
    give_all(found, store)
}

/// Reports unfinished pages at the end of the input.
fn end_capture<S: FoundStore>(capture: &mut Capture, store: &mut S) -> Result<(), ToolFault>
    ensures given { OnOk result (TakesEach S.takes store.old (at_end capture.old) store.new) }
    ensures fault { IfErr result IsOutside }
{
    let mut found = Vec::new(capture.alloc);
    capture.end(&mut found)?;
    give_all(found, store)
}

/// Reads bits and lists their frames, as `list_engine` does, and gives the store what `captured_in` finds: pages, and what is missing of
/// others, each as soon as it is found and after its frame's line. Only the open page is kept. Returns what `list_engine` returns. Errors:
/// `Io` (8) from the reader, the writer or the store, or if the reader doesn't end in 2^64 reads; `NoMemory` (9).
pub fn pages_engine<R: Read, W: Write, S: FoundStore>(
    alloc: Global,
    reader: &mut R,
    writer: &mut W,
    how: ListOptions,
    store: &mut S,
) -> Result<bool, ToolFault>
    ensures given { IfOk result (λ worth. ReadsAll (R.remaining reader.old) (R.remaining reader.new) (λ octets.
        ListsFrames how octets (W.contents writer.old) (W.contents writer.new) worth
        × TakesEach S.takes store.old (captured (good (bits_of how.order octets))) store.new)) }
    ensures fault { IfErr result IsOutside }
{
    let mut contents = ContentReader::new(alloc, how.order);
    let mut capture = Capture::new(alloc);
    for number in 1..u64::MAX {
        let more = contents.advance(reader)?;
        if !more {
            end_capture(&mut capture, store)?;
            write_counts(alloc, contents.counts(), how, writer)?;
            return Ok(has_no_frame(contents.octets(), number));
        }
        take_frame(&mut capture, number, contents.content(), how, writer, store)?;
        flush_waiting(&contents, writer)?;
    }
    Err(FAILED)
}
