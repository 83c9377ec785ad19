//! What `frames` does: it lists the frames in bits, over any reader and any writer.

ghost use Rattle.captures.specs.Contents.{ReadsAll};
ghost use Rattle.faults.specs.Faults.{IsOutside};
ghost use Rattle.captures.specs.Frames.{ListsFrames, counts_line, frame_line, last_line, listing, plain_line};
ghost use Rattle.captures.specs.Frames.{plain_list};
ghost use Rattle.raster.specs.Packed.{bits_of};
ghost use Rattle.raster.specs.declared.packed.Order.TheVariants.{LsbFirst};
ghost use Rattle.std.specs.Io.KnownBytes.{Appends, Keeps};
ghost use Rattle.std.specs.Prelude.{◌≡◌, ◌<◌, ◌↔◌, IfErr, IfOk, IsTrue, OnOk};

use crate::content_reader::ContentReader;
use crate::records::{write_counts_record, write_frame_record};
use crate::signal_words::write_words;
use crate::texts::ContentText;
use faults::{FAILED, ToolFault};
use hdlc::Counts;
use raster::packed::Order;
use std::alloc::Global;
use std::io::{Read, Write};

/// How each frame is written.
#[derive(Clone, Copy, Debug, PartialEq, Eq)]
pub enum ListForm {
    /// As a line.
    Plain,
    /// As a line; after that of a DIS, DCS, PPS or PPR a second one that says in words what it says.
    Explained,
    /// As a record: an object of JSON on one line, for programs.
    Records,
}

/// How frames are listed.
#[derive(Clone, Copy, Debug, PartialEq, Eq)]
pub struct ListOptions {
    /// How many octets of a content are shown at most; None for all.
    pub most: Option<usize>,
    /// Which bit of an octet came first on the line.
    pub order: Order,
    /// How each frame is written.
    pub form: ListForm,
}

/// Writes the line of a good frame: its number, its content in hex (`most` octets at most), and what it says.
fn write_content<W: Write>(
    alloc: Global,
    number: u64,
    content: &[u8],
    most: Option<usize>,
    writer: &mut W,
) -> Result<(), ToolFault>
    ensures line { OnOk result (Appends (W.contents writer.old) (W.contents writer.new)
        (plain_line most number content.now)) }
    ensures fault { IfErr result IsOutside }
{
    let (front, cut) = match most {
        Some(most) if most < content.len() => (&content[..most], ".."),
        _ => (content, ""),
    };
    let digits = hex::encode(alloc, front)?;
    writeln!(writer, "{number} {digits}{cut} {}", ContentText(content))?;
    Ok(())
}

/// Writes a good frame in this form: its number, its content in hex (`most` octets at most), and what it says.
pub(crate) fn write_frame<W: Write>(
    alloc: Global,
    number: u64,
    content: &[u8],
    how: ListOptions,
    writer: &mut W,
) -> Result<(), ToolFault>
    ensures line { OnOk result (Appends (W.contents writer.old) (W.contents writer.new) (frame_line how number content.now)) }
    ensures fault { IfErr result IsOutside }
{
    match how.form {
        ListForm::Plain => write_content(alloc, number, content, how.most, writer),
        ListForm::Explained => {
            write_content(alloc, number, content, how.most, writer)?;
            write_words(content, writer)
        }
        ListForm::Records => write_frame_record(alloc, number, content, how.most, writer),
    }
}

/// Writes the line of how many gaps there were of each class.
fn write_counts_line<W: Write>(counts: Counts, writer: &mut W) -> Result<(), ToolFault>
    ensures line { OnOk result (Appends (W.contents writer.old) (W.contents writer.new) (counts_line counts)) }
    ensures fault { IfErr result IsOutside }
{
    writeln!(
        writer,
        "good {} aborted {} ragged {} short {} long {} damaged {}",
        counts.good, counts.aborted, counts.ragged, counts.short, counts.long, counts.damaged,
    )?;
    Ok(())
}

/// Writes how many gaps there were of each class, in the form that is asked for.
pub(crate) fn write_counts<W: Write>(
    alloc: Global,
    counts: Counts,
    how: ListOptions,
    writer: &mut W,
) -> Result<(), ToolFault>
    ensures line { OnOk result (Appends (W.contents writer.old) (W.contents writer.new) (last_line how.form counts)) }
    ensures fault { IfErr result IsOutside }
{
    match how.form {
        ListForm::Plain | ListForm::Explained => write_counts_line(counts, writer),
        ListForm::Records => write_counts_record(alloc, counts, writer),
    }
}

/// Flushes the writer if the next content isn't read yet: what is written is then seen while the line is waited for.
pub(crate) fn flush_waiting<W: Write>(
    contents: &ContentReader,
    writer: &mut W,
) -> Result<(), ToolFault>
    ensures same { OnOk result (Keeps (W.contents writer.old) (W.contents writer.new)) }
    ensures fault { IfErr result IsOutside }
{
    if contents.is_waiting() {
        return Ok(());
    }
    writer.flush()?;
    Ok(())
}

/// Returns whether over 64 octets gave no frame; `number` is that of the next frame.
pub(crate) fn has_no_frame(octets: u64, number: u64) -> bool
    ensures { IsTrue result ↔ ((64 < octets) × (number ≡ 1)) }
{
    // a few octets may well have no frame in the right order
    octets > 64 && number == 1
}

/// Reads bits and writes a line for each good frame, numbered from 1, with its content in lower-case hex (`how.most` octets at most, then
/// `..`) and what it says; at the end a line with the counts of all gaps. `how.form` asks for a second line of words, or for records. Each
/// line is flushed as soon as its frame is read, so memory doesn't grow with the input. A content that is no signal has the number of its
/// fault. Returns whether over 64 octets gave no frame, so that the other bit order is worth a try. Errors: `Io` (8) from the reader or the
/// writer, or if the reader doesn't end in 2^64 reads; `NoMemory` (9).
pub fn list_engine<R: Read, W: Write>(
    alloc: Global,
    reader: &mut R,
    writer: &mut W,
    how: ListOptions,
) -> Result<bool, ToolFault>
    ensures listed { IfOk result (λ worth. ReadsAll (R.remaining reader.old) (R.remaining reader.new) (λ octets.
        ListsFrames how octets (W.contents writer.old) (W.contents writer.new) worth)) }
    ensures fault { IfErr result IsOutside }
{
    let mut contents = ContentReader::new(alloc, how.order);
    for number in 1..u64::MAX {
        let more = contents.advance(reader)?;
        if !more {
            write_counts(alloc, contents.counts(), how, writer)?;
            return Ok(has_no_frame(contents.octets(), number));
        }
        write_frame(alloc, number, contents.content(), how, writer)?;
        flush_waiting(&contents, writer)?;
    }
    Err(FAILED)
}

/// Reads bits, the least significant of each octet first, and lists their frames as `list_engine` does, without words.
pub fn frames_engine<R: Read, W: Write>(
    alloc: Global,
    reader: &mut R,
    writer: &mut W,
    most: Option<usize>,
) -> Result<(), ToolFault>
    ensures listed { OnOk result (ReadsAll (R.remaining reader.old) (R.remaining reader.new) (λ octets.
        Appends (W.contents writer.old) (W.contents writer.new) (listing (plain_list most) (bits_of LsbFirst octets)))) }
    ensures fault { IfErr result IsOutside }
{
    let how = ListOptions {
        most,
        order: Order::LsbFirst,
        form: ListForm::Plain,
    };
    match list_engine(alloc, reader, writer, how) {
        Ok(_worth) => Ok(()),
        Err(fault) => Err(fault),
    }
}
