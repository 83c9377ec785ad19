//! What is told of a station's call at its end: its end and its figures, in words, or as JSON for programs.

ghost use Rattle.faults.specs.Faults.{IsOutside};
ghost use Rattle.faults.specs.RecordLines.{record_line};
ghost use Rattle.serde_json.specs.View.{members_view, view};
ghost use Rattle.station_commands.specs.EndRecords.{counts_part, ended_record, failures_part, figures_words, maybe_words, name_part};
ghost use Rattle.station_commands.specs.EndRecords.{name_record, pages_word, rest_part, speed_record, speeds_part, with_counts, with_end, with_speeds};
ghost use Rattle.std.specs.Io.KnownBytes.{Appends};
ghost use Rattle.std.specs.Prelude.{◌≡◌, IfErr, IfOk, OnOk};

use captures::write_signs;
use conversations::Channel;
use faults::{FAILED, ToolFault, write_record};
use serde_json::{Map, Value, put};
use signals::Speed;
use std::alloc::{AllocError, Global};
use std::io::Write;
use terminals::Figures;

/// How a call ended, and what it came to.
#[derive(Clone, Copy)]
pub(crate) struct Ended<'a> {
    /// Whether the station called.
    pub(crate) calls: bool,
    /// The word of its end.
    pub(crate) end: &'a str,
    /// The pages that a caller counts as confirmed, or that an answerer has stored.
    pub(crate) pages: u64,
    /// The time of its last line, in whole seconds.
    pub(crate) seconds: u64,
    /// What it came to.
    pub(crate) figures: Figures,
    /// Why it ended so; empty if that isn't known.
    pub(crate) why: &'a str,
}

/// Returns a text as JSON: null if it is empty.
fn maybe_words(alloc: Global, words: &str) -> Result<Value, AllocError>
    ensures { IfOk result (λ value. view value ≡ maybe_words words.now) }
{
    if words.is_empty() {
        return Ok(Value::Null);
    }
    Ok(Value::String(String::from_str(alloc, words)?))
}

/// Returns the name of a speed as JSON, or null.
fn speed_record(alloc: Global, speed: Option<Speed>) -> Result<Value, AllocError>
    ensures { IfOk result (λ value. view value ≡ speed_record speed) }
{
    match speed {
        Some(speed) => maybe_words(alloc, Channel::Message(speed).name()),
        None => Ok(Value::Null),
    }
}

/// Returns what a station calls itself as JSON, or null. Errors: `NoMemory` (9), `Io` (8).
fn name_record(alloc: Global, name: Option<[u8; 20]>) -> Result<Value, ToolFault>
    ensures value { IfOk result (λ value. view value ≡ name_record name) }
    ensures fault { IfErr result IsOutside }
{
    let Some(name) = name else {
        return Ok(Value::Null);
    };
    let mut signs = Vec::new(alloc);
    write_signs(&name, &mut signs)?;
    let Ok(signs) = str::from_utf8(&signs) else {
        return Err(FAILED);
    };
    Ok(maybe_words(alloc, signs)?)
}

/// Returns the word for the pages of a station that calls, or answers.
pub(crate) fn pages_word(calls: bool) -> &'static str
    ensures { result.now ≡ pages_word calls }
{
    if calls { "confirmed" } else { "pages" }
}

/// Adds what was counted of blocks and commands. Errors: memory was refused.
fn put_counts(
    alloc: Global,
    figures: &Figures,
    members: &mut Map<String, Value>,
) -> Result<(), AllocError>
    ensures { OnOk result (members_view members.new.entries
        ≡ with_counts figures.now (members_view members.old.entries)) }
{
    put(members, alloc, "blocks", Value::from(figures.blocks))?;
    put(members, alloc, "pprs", Value::from(figures.requests))?;
    put(members, alloc, "resent", Value::from(figures.resent))?;
    put(members, alloc, "retries", Value::from(figures.retries))
}

/// Adds what is known of the speeds. Errors: memory was refused.
fn put_speeds(
    alloc: Global,
    figures: &Figures,
    members: &mut Map<String, Value>,
) -> Result<(), AllocError>
    ensures { OnOk result (members_view members.new.entries
        ≡ with_speeds figures.now (members_view members.old.entries)) }
{
    let first = speed_record(alloc, figures.first_speed)?;
    let last = speed_record(alloc, figures.last_speed)?;
    put(
        members,
        alloc,
        "failed_checks",
        Value::from(figures.failed_checks),
    )?;
    put(members, alloc, "first_speed", first)?;
    put(members, alloc, "last_speed", last)
}

/// Adds how a call ended, with its pages, its time and why. Errors: memory was refused.
fn put_end(alloc: Global, e: &Ended<'_>, members: &mut Map<String, Value>) -> Result<(), AllocError>
    ensures { OnOk result (members_view members.new.entries
        ≡ with_end e.now.calls e.now.end.now e.now.pages e.now.seconds e.now.why.now
        (members_view members.old.entries)) }
{
    let end = String::from_str(alloc, e.end)?;
    let why = maybe_words(alloc, e.why)?;
    put(members, alloc, "end", Value::String(end))?;
    put(members, alloc, pages_word(e.calls), Value::from(e.pages))?;
    put(members, alloc, "seconds", Value::from(e.seconds))?;
    put(members, alloc, "why", why)
}

/// Returns how a call ended and what it came to as JSON. Errors: `NoMemory` (9), `Io` (8).
fn ended_record(alloc: Global, e: &Ended<'_>) -> Result<Value, ToolFault>
    ensures record { IfOk result (λ value. view value ≡ ended_record e.now.calls e.now.end.now
        e.now.pages e.now.seconds e.now.figures e.now.why.now) }
    ensures fault { IfErr result IsOutside }
{
    let peer = name_record(alloc, e.figures.name)?;
    let mut members = Map::new(alloc);
    put_counts(alloc, &e.figures, &mut members)?;
    put_speeds(alloc, &e.figures, &mut members)?;
    put(&mut members, alloc, "peer", peer)?;
    put_end(alloc, e, &mut members)?;
    Ok(Value::Object(members))
}

/// Writes the record of how a call ended, and what it came to, as one line. Errors: `Io` (8) from the writer, `NoMemory` (9).
pub(crate) fn write_ended<W: Write>(
    alloc: Global,
    e: &Ended<'_>,
    to: &mut W,
) -> Result<(), ToolFault>
    ensures line { OnOk result (Appends (W.contents to.old) (W.contents to.new)
        (record_line (ended_record e.now.calls e.now.end.now e.now.pages e.now.seconds
        e.now.figures e.now.why.now))) }
    ensures fault { IfErr result IsOutside }
{
    let record = ended_record(alloc, e)?;
    write_record(alloc, &record, to)
}

/// Writes the speeds of the first DCS and of the last, if one came.
fn write_speeds<W: Write>(
    first: Option<Speed>,
    last: Option<Speed>,
    writer: &mut W,
) -> Result<(), ToolFault>
    ensures text { OnOk result (Appends (W.contents writer.old) (W.contents writer.new)
        (speeds_part first last)) }
    ensures fault { IfErr result IsOutside }
{
    if let (Some(first), Some(last)) = (first, last) {
        let (first, last) = (
            Channel::Message(first).name(),
            Channel::Message(last).name(),
        );
        write!(writer, "; {first} to {last}")?;
    }
    Ok(())
}

/// Writes what the other station calls itself, if it does.
fn write_name<W: Write>(name: Option<[u8; 20]>, writer: &mut W) -> Result<(), ToolFault>
    ensures text { OnOk result (Appends (W.contents writer.old) (W.contents writer.new)
        (name_part name)) }
    ensures fault { IfErr result IsOutside }
{
    let Some(name) = name else {
        return Ok(());
    };
    writer.write_all(b"; peer ")?;
    write_signs(&name, writer)
}

/// Writes what was counted in a call of so many seconds.
fn write_counts<W: Write>(seconds: u64, figures: Figures, writer: &mut W) -> Result<(), ToolFault>
    ensures text { OnOk result (Appends (W.contents writer.old) (W.contents writer.new)
        (counts_part seconds figures)) }
    ensures fault { IfErr result IsOutside }
{
    let (blocks, requests, resent) = (figures.blocks, figures.requests, figures.resent);
    write!(
        writer,
        "{seconds} s; blocks {blocks}, PPRs {requests}, frames sent again {resent}"
    )?;
    Ok(())
}

/// Writes how many checks failed, and how many commands were said again.
fn write_failures<W: Write>(figures: Figures, writer: &mut W) -> Result<(), ToolFault>
    ensures text { OnOk result (Appends (W.contents writer.old) (W.contents writer.new)
        (failures_part figures)) }
    ensures fault { IfErr result IsOutside }
{
    let (failed, retries) = (figures.failed_checks, figures.retries);
    write!(writer, ", failed checks {failed}, retries {retries}")?;
    Ok(())
}

/// Writes what follows the counts, and the end of the line.
fn write_rest<W: Write>(figures: Figures, writer: &mut W) -> Result<(), ToolFault>
    ensures text { OnOk result (Appends (W.contents writer.old) (W.contents writer.new)
        (rest_part figures)) }
    ensures fault { IfErr result IsOutside }
{
    write_speeds(figures.first_speed, figures.last_speed, writer)?;
    write_name(figures.name, writer)?;
    writer.write_all(b"\n")?;
    Ok(())
}

/// Writes what a call of so many seconds came to, as a line of words. Errors: `Io` (8) from the writer, `NoMemory` (9).
pub(crate) fn write_figures<W: Write>(
    seconds: u64,
    figures: Figures,
    writer: &mut W,
) -> Result<(), ToolFault>
    ensures line { OnOk result (Appends (W.contents writer.old) (W.contents writer.new)
        (figures_words seconds figures)) }
    ensures fault { IfErr result IsOutside }
{
    write_counts(seconds, figures, writer)?;
    write_failures(figures, writer)?;
    write_rest(figures, writer)
}
