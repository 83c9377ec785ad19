//! What is told of a station's call while it runs and at its end: in words, or as JSON for programs.

ghost use Rattle.captures.specs.Missing.{lines_word};
ghost use Rattle.captures.specs.Names.{code_name};
ghost use Rattle.captures.specs.OtherWords.{other_words};
ghost use Rattle.faults.specs.Faults.{IsOutside};
ghost use Rattle.faults.specs.RecordLines.{record_line};
ghost use Rattle.station_commands.specs.CallNotes.{bare, confirmed_record, gap_record, heard_as, heard_record, page_record, state_record};
ghost use Rattle.station_commands.specs.CallNotes.{confirmed_words, gap_words, heard_words, lost_line, page_words};
ghost use Rattle.serde_json.specs.View.{view};
ghost use Rattle.std.specs.Io.KnownBytes.{Appends};
ghost use Rattle.std.specs.Prelude.{◌≡◌, IfErr, IfOk, OnOk, option_map};

use captures::{ContentText, signal_record, write_signal};
use conversations::Channel;
use faults::{FAILED, ToolFault, write_record};
use raster::{Coding, Page};
use serde_json::{Value, json};
use signals::{Params, Signal};
use std::alloc::{AllocError, Global};
use std::io::Write;

/// A page that is in a file.
#[derive(Clone, Copy, Drop)]
pub(crate) struct StoredPage<'a> {
    /// The time in milliseconds.
    pub(crate) at: u64,
    /// The page's number in the call, from 1.
    pub(crate) number: u64,
    /// The number of its file.
    pub(crate) file: u64,
    /// How it was sent.
    pub(crate) params: Option<Params>,
    /// The page.
    pub(crate) page: &'a Page,
}

/// The lines of a page.
fn lines_word(fine: bool) -> &'static str
    ensures { result.now ≡ lines_word fine }
{
    if fine { "fine" } else { "standard" }
}

/// The code of pages, as `--code` names it.
fn code_name(coding: Coding) -> &'static str
    ensures { result.now ≡ code_name coding }
{
    match coding {
        Coding::OneDim => "mh",
        Coding::T6 => "mmr",
    }
}

/// A page that is in a file, and how it was sent.
fn page_record(alloc: Global, stored: &StoredPage<'_>) -> Result<Value, AllocError>
    ensures { IfOk result (λ value.
        view value ≡ page_record stored.now.at stored.now.number stored.now.file stored.now.params stored.now.page.now) }
{
    let file = format!(in alloc; "page-{}.pbm", stored.file)?;
    let height = stored.page.rows().len();
    let lines = lines_word(stored.page.fine());
    match stored.params {
        None => json!(in alloc; {
            "at": stored.at,
            "page": stored.number,
            "file": file,
            "width": stored.page.width(),
            "height": height,
            "lines": lines,
        }),
        Some(params) => json!(in alloc; {
            "at": stored.at,
            "page": stored.number,
            "file": file,
            "width": stored.page.width(),
            "height": height,
            "lines": lines,
            "speed": Channel::Message(params.speed).name(),
            "code": code_name(params.coding),
        }),
    }
}

/// The number of a page that a caller counts as confirmed.
fn confirmed_record(alloc: Global, at: u64, number: u64) -> Result<Value, AllocError>
    ensures { IfOk result (λ value. view value ≡ confirmed_record at number) }
{
    json!(in alloc; {"at": at, "confirmed": number})
}

/// The number, from 1, of a page whose PPS doesn't follow the one before it.
fn gap_record(alloc: Global, at: u64, page: u64) -> Result<Value, AllocError>
    ensures { IfOk result (λ value. view value ≡ gap_record at page) }
{
    json!(in alloc; {"at": at, "gap": page})
}

/// Returns the record of what was heard at a time, and of its words, if there are some.
fn heard_as(alloc: Global, at: u64, heard: Value, words: &str) -> Result<Value, AllocError>
    ensures { IfOk result (λ value. view value ≡ heard_as at (view heard) words.now) }
{
    if words.is_empty() {
        return json!(in alloc; {"at": at, "heard": heard});
    }
    json!(in alloc; {"at": at, "heard": heard, "words": words})
}

/// A frame that is no signal of ours, by its control field and its words.
fn heard_record(alloc: Global, at: u64, octet: u8, words: &str) -> Result<Value, AllocError>
    ensures { IfOk result (λ value. view value ≡ heard_record at octet words.now) }
{
    let heard = signal_record(alloc, &Signal::Other(octet))?;
    heard_as(alloc, at, heard, words)
}

/// A line of words without the four spaces before it, and its end.
fn bare(line: &[u8]) -> &[u8]
    ensures { result.now ≡ bare line.now }
{
    if line.len() < 5 {
        return b"";
    }
    &line[4..line.len() - 1]
}

/// How a call stands at its end.
#[derive(Clone, Copy)]
pub(crate) struct State<'a> {
    /// Whether the station calls.
    pub(crate) calls: bool,
    /// The pages that a caller counts as confirmed, or that an answerer has stored.
    pub(crate) pages: u64,
    /// Whether the call is whole.
    pub(crate) whole: bool,
    /// Why it ended so, if that is known.
    pub(crate) why: Option<&'a str>,
}

/// How a call stands at its end.
fn state_record(alloc: Global, state: &State<'_>) -> Result<Value, AllocError>
    ensures { IfOk result (λ value.
        view value ≡ state_record state.now.calls state.now.pages state.now.whole (option_map (λ why. why.now) state.now.why)) }
{
    let (pages, whole) = (state.pages, state.whole);
    match (state.calls, state.why) {
        (true, None) => json!(in alloc; {"confirmed": pages, "whole": whole}),
        (true, Some(why)) => json!(in alloc; {"confirmed": pages, "whole": whole, "why": why}),
        (false, None) => json!(in alloc; {"pages": pages, "whole": whole}),
        (false, Some(why)) => json!(in alloc; {"pages": pages, "whole": whole, "why": why}),
    }
}

/// Writes the record of a page that is in a file as one line. Errors: `Io` (8) from the writer, `NoMemory` (9).
pub(crate) fn write_page<W: Write>(
    alloc: Global,
    stored: &StoredPage<'_>,
    writer: &mut W,
) -> Result<(), ToolFault>
    ensures line { OnOk result (Appends (W.contents writer.old) (W.contents writer.new)
        (record_line (page_record stored.now.at stored.now.number stored.now.file stored.now.params stored.now.page.now))) }
    ensures fault { IfErr result IsOutside }
{
    let record = page_record(alloc, stored)?;
    write_record(alloc, &record, writer)
}

/// Writes a page that is in a file as a line of words: the time, the page, its file, its size, and how it was sent. Errors: as `write_page`.
pub(crate) fn write_page_words<W: Write>(
    stored: &StoredPage<'_>,
    writer: &mut W,
) -> Result<(), ToolFault>
    ensures line { OnOk result (Appends (W.contents writer.old) (W.contents writer.new)
        (page_words stored.now.at stored.now.number stored.now.file stored.now.params stored.now.page.now)) }
    ensures fault { IfErr result IsOutside }
{
    let (at, number, file) = (stored.at, stored.number, stored.file);
    let (width, height) = (stored.page.width(), stored.page.rows().len());
    let lines = lines_word(stored.page.fine());
    write!(
        writer,
        "{at} page {number} in page-{file}.pbm: {width} x {height}, {lines}"
    )?;
    if let Some(params) = stored.params {
        let code = code_name(params.coding);
        let speed = Channel::Message(params.speed).name();
        write!(writer, ", {code}, {speed}")?;
    }
    writer.write_all(b"\n")?;
    Ok(())
}

/// Writes that a caller counts the page of this number, from 1, as confirmed at a time, as a line of words. Errors: as `write_page`.
pub(crate) fn write_confirmed_words<W: Write>(
    at: u64,
    number: u64,
    writer: &mut W,
) -> Result<(), ToolFault>
    ensures line { OnOk result (Appends (W.contents writer.old) (W.contents writer.new) (confirmed_words at number)) }
    ensures fault { IfErr result IsOutside }
{
    write!(writer, "{at} page {number} confirmed\n")?;
    Ok(())
}

/// Writes that a page number, from 1, doesn't follow the one before it, as a line of words. Errors: as `write_page`.
pub(crate) fn write_gap_words<W: Write>(at: u64, page: u64, writer: &mut W) -> Result<(), ToolFault>
    ensures line { OnOk result (Appends (W.contents writer.old) (W.contents writer.new) (gap_words at page)) }
    ensures fault { IfErr result IsOutside }
{
    write!(writer, "{at} gap before page {page}: one may be missing\n")?;
    Ok(())
}

/// Writes a content that is no signal of ours, heard at a time, as a line of words: its name and digits, as `other_line` has them, or what it
/// says. Errors: as `write_page`.
pub(crate) fn write_heard_words<W: Write>(
    at: u64,
    content: &[u8],
    line: &[u8],
    writer: &mut W,
) -> Result<(), ToolFault>
    ensures line { OnOk result (Appends (W.contents writer.old) (W.contents writer.new) (heard_words at content.now (bare line.now))) }
    ensures fault { IfErr result IsOutside }
{
    let words = bare(line);
    write!(writer, "{at} heard ")?;
    if words.is_empty() {
        write!(writer, "{}", ContentText(content))?;
    } else {
        writer.write_all(words)?;
    }
    writer.write_all(b"\n")?;
    Ok(())
}

/// The line of words of a frame that is no signal of ours; empty if it has no name. Errors: `NoMemory` (9), `Io` (8).
pub(crate) fn other_line(alloc: Global, octet: u8, fields: &[u8]) -> Result<Vec<u8>, ToolFault>
    ensures line { IfOk result (λ line. line.items ≡ other_words octet fields.now) }
    ensures fault { IfErr result IsOutside }
{
    let mut line = Vec::new(alloc);
    write_signal(&Signal::Other(octet), fields, &mut line)?;
    Ok(line)
}

/// Writes the record of a page that a caller counts as confirmed at a time, by its number from 1, as one line. Errors: as `write_page`.
pub(crate) fn write_confirmed<W: Write>(
    alloc: Global,
    at: u64,
    number: u64,
    writer: &mut W,
) -> Result<(), ToolFault>
    ensures line { OnOk result (Appends (W.contents writer.old) (W.contents writer.new) (record_line (confirmed_record at number))) }
    ensures fault { IfErr result IsOutside }
{
    let record = confirmed_record(alloc, at, number)?;
    write_record(alloc, &record, writer)
}

/// Writes the record of a page number, from 1, that doesn't follow the one before it, as one line. Errors: as `write_page`.
pub(crate) fn write_gap<W: Write>(
    alloc: Global,
    at: u64,
    page: u64,
    writer: &mut W,
) -> Result<(), ToolFault>
    ensures line { OnOk result (Appends (W.contents writer.old) (W.contents writer.new) (record_line (gap_record at page))) }
    ensures fault { IfErr result IsOutside }
{
    let record = gap_record(alloc, at, page)?;
    write_record(alloc, &record, writer)
}

/// Writes the record of a frame that is no signal of ours, heard at a time, as one line: its control field, and its name and digits if it
/// has some. Errors: as `write_page`.
#[tactic(auto, using(crate::proofs::HeardData::heard_whole))]
pub(crate) fn write_heard<W: Write>(
    alloc: Global,
    at: u64,
    octet: u8,
    fields: &[u8],
    writer: &mut W,
) -> Result<(), ToolFault>
    ensures line { OnOk result (Appends (W.contents writer.old) (W.contents writer.new)
        (record_line (heard_record at octet (bare (other_words octet fields.now))))) }
    ensures fault { IfErr result IsOutside }
{
    let line = other_line(alloc, octet, fields)?;
    let Ok(words) = str::from_utf8(bare(&line)) else {
        return Err(FAILED);
    };
    let record = heard_record(alloc, at, octet, words)?;
    write_record(alloc, &record, writer)
}

/// Writes that lines are lost since memory was refused, so many of them, at a time: a line of words, or a record. It takes no memory. Errors:
/// `Io` (8) from the writer.
pub(crate) fn write_lost<W: Write>(
    records: bool,
    at: u64,
    lines: u64,
    writer: &mut W,
) -> Result<(), ToolFault>
    ensures line { OnOk result (Appends (W.contents writer.old) (W.contents writer.new) (lost_line records at lines)) }
    ensures fault { IfErr result IsOutside }
{
    if records {
        writeln!(writer, "{{\"at\":{at},\"lost\":{lines}}}")?;
    } else {
        writeln!(writer, "{at} memory was refused, lines lost: {lines}")?;
    }
    Ok(())
}

/// Writes the record of how a call stands at its end as one line. Errors: those of `write_page`.
pub(crate) fn write_state<W: Write>(
    alloc: Global,
    state: &State<'_>,
    writer: &mut W,
) -> Result<(), ToolFault>
    ensures line { OnOk result (Appends (W.contents writer.old) (W.contents writer.new)
        (record_line (state_record state.now.calls state.now.pages state.now.whole (option_map (λ why. why.now) state.now.why)))) }
    ensures fault { IfErr result IsOutside }
{
    let record = state_record(alloc, state)?;
    write_record(alloc, &record, writer)
}
