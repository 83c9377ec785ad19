//! The lines of a call as JSON, one object a line, for programs.

ghost use Rattle.calls.specs.CallRecords.{answerer_record, caller_record, ending_records, entry_record, item_data, put_if};
ghost use Rattle.calls.specs.CallRecords.{refused_data, says_data, sends_data};
ghost use Rattle.faults.specs.Faults.{IsOutside};
ghost use Rattle.faults.specs.RecordLines.{record_line};
ghost use Rattle.serde_json.specs.View.{members_view, view};
ghost use Rattle.std.specs.Io.KnownBytes.{Appends};
ghost use Rattle.std.specs.Prelude.{◌≡◌, IfErr, IfOk, OnOk, option_map};

use crate::explained::signal_said;
use crate::transcript::{ItemText, TurnText, end_word, event_word};
use captures::signal_record;
use faults::{ToolFault, write_record};
use line_sim::{Ending, Entry, Fields, Kind};
use serde_json::{Map, Value, json, put};
use stations::{End, Turn};
use std::alloc::{AllocError, Global};
use std::io::Write;

/// The item that was delivered or lost, if there was one.
fn item_value(alloc: Global, item: Option<Kind>) -> Result<Option<Value>, AllocError>
    ensures { IfOk result (λ value. option_map view value ≡ item_data item) }
{
    let Some(kind) = item else {
        return Ok(None);
    };
    let item = ItemText(Some(kind));
    let text = format!(in alloc; "{item}")?;
    Ok(Some(Value::String(text)))
}

/// What a DIS, a DCS, a PPS or a PPR says.
fn says_value(alloc: Global, fields: Fields) -> Result<Option<Value>, AllocError>
    ensures { IfOk result (λ value. option_map view value ≡ says_data fields) }
{
    match signal_said(fields) {
        Some(signal) => Ok(Some(signal_record(alloc, &signal)?)),
        None => Ok(None),
    }
}

/// What a station sends, if it sends something.
fn sends_value(alloc: Global, turn: Turn, fcds: u16) -> Result<Option<Value>, AllocError>
    ensures { IfOk result (λ value. option_map view value ≡ sends_data turn fcds) }
{
    if let Turn::Silent = turn {
        return Ok(None);
    }
    let turn = TurnText(turn, fcds);
    let text = format!(in alloc; "{turn}")?;
    Ok(Some(Value::String(text)))
}

/// That a growth was refused, if one was.
fn refused_value(refused: bool) -> Option<Value>
    ensures { option_map view result ≡ refused_data refused }
{
    if refused {
        Some(Value::Bool(true))
    } else {
        None
    }
}

/// Puts a member into an object, if there is a value for it.
fn put_if(
    map: &mut Map<String, Value>,
    alloc: Global,
    name: &str,
    value: Option<Value>,
) -> Result<(), AllocError>
    ensures { OnOk result (members_view map.new.entries ≡ put_if name.now (option_map view value) (members_view map.old.entries)) }
{
    match value {
        Some(value) => put(map, alloc, name, value),
        None => Ok(()),
    }
}

/// An event: its number, its word, and what there is of the rest of its line, with what the item says.
fn entry_record(alloc: Global, number: u64, entry: &Entry) -> Result<Value, AllocError>
    ensures record { IfOk result (λ value. view value ≡ entry_record number entry.now) }
{
    let item = item_value(alloc, entry.item)?;
    let says = says_value(alloc, entry.fields)?;
    let sends = sends_value(alloc, entry.turn, entry.fcds)?;
    let event = String::from_str(alloc, event_word(entry.event))?;
    let mut map = Map::new(alloc);
    put(&mut map, alloc, "event", Value::String(event))?;
    put_if(&mut map, alloc, "item", item)?;
    put(&mut map, alloc, "number", Value::from(number))?;
    put_if(&mut map, alloc, "refused", refused_value(entry.refused))?;
    put_if(&mut map, alloc, "says", says)?;
    put_if(&mut map, alloc, "sends", sends)?;
    Ok(Value::Object(map))
}

/// How a call ended for the caller, and how many pages it counts as confirmed.
fn caller_record(alloc: Global, ending: Option<End>, confirmed: u64) -> Result<Value, AllocError>
    ensures { IfOk result (λ value. view value ≡ caller_record ending confirmed) }
{
    json!(in alloc; {"station": "caller", "end": end_word(ending), "confirmed": confirmed})
}

/// How a call ended for the answerer, and how many pages it has stored.
fn answerer_record(alloc: Global, ending: Option<End>, pages: usize) -> Result<Value, AllocError>
    ensures { IfOk result (λ value. view value ≡ answerer_record ending pages) }
{
    json!(in alloc; {"station": "answerer", "end": end_word(ending), "pages": pages})
}

/// Writes the record of an event as a line. Errs with `FAILED` (8) if the writer fails, and with `NO_MEMORY`.
pub(crate) fn write_entry_record<W: Write>(
    alloc: Global,
    number: u64,
    entry: &Entry,
    writer: &mut W,
) -> Result<(), ToolFault>
    ensures line { OnOk result (Appends (W.contents writer.old) (W.contents writer.new)
        (record_line (entry_record number entry.now))) }
    ensures fault { IfErr result IsOutside }
{
    let record = entry_record(alloc, number, entry)?;
    write_record(alloc, &record, writer)
}

/// Writes the record of how a call ended for the caller as a line. Errs with `FAILED` (8) if the writer fails, and with `NO_MEMORY`.
fn write_caller<W: Write>(
    alloc: Global,
    ending: Option<End>,
    confirmed: u64,
    writer: &mut W,
) -> Result<(), ToolFault>
    ensures line { OnOk result (Appends (W.contents writer.old) (W.contents writer.new) (record_line (caller_record ending confirmed))) }
    ensures fault { IfErr result IsOutside }
{
    let record = caller_record(alloc, ending, confirmed)?;
    write_record(alloc, &record, writer)
}

/// Writes the record of how a call ended for the answerer as a line. Errs with `FAILED` (8) if the writer fails, and with `NO_MEMORY`.
fn write_answerer<W: Write>(
    alloc: Global,
    ending: Option<End>,
    pages: usize,
    writer: &mut W,
) -> Result<(), ToolFault>
    ensures line { OnOk result (Appends (W.contents writer.old) (W.contents writer.new) (record_line (answerer_record ending pages))) }
    ensures fault { IfErr result IsOutside }
{
    let record = answerer_record(alloc, ending, pages)?;
    write_record(alloc, &record, writer)
}

/// Writes the records of what a call leaves as lines: how it ended for the caller, and for the answerer, with their pages. Errs with
/// `FAILED` (8) if the writer fails, and with `NO_MEMORY`.
pub(crate) fn write_ending_records<W: Write>(
    alloc: Global,
    ending: &Ending,
    writer: &mut W,
) -> Result<(), ToolFault>
    ensures lines { OnOk result (Appends (W.contents writer.old) (W.contents writer.new) (ending_records ending.now)) }
    ensures fault { IfErr result IsOutside }
{
    write_caller(alloc, ending.caller_end, ending.confirmed, writer)?;
    write_answerer(alloc, ending.answerer_end, ending.pages.len(), writer)?;
    Ok(())
}
