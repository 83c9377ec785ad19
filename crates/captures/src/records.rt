//! Frames as JSON, one object a line, for programs.

ghost use Rattle.faults.specs.Faults.{IsOutside};
ghost use Rattle.captures.specs.Records.{counts_record, dcs_record, dis_record, fcd_record, frame_record, named, other_record, ppr_record};
ghost use Rattle.faults.specs.RecordLines.{count, record_line};
ghost use Rattle.captures.specs.Records.{marked_below, pps_record, record_by_name, says_record, shown_front, signal_record};
ghost use Rattle.captures.specs.SignalWords.{is_in_map};
ghost use Rattle.serde_json.specs.View.{view};
ghost use Rattle.signals.specs.Reading.{read_content};
ghost use Rattle.signals.specs.Signals.{plain};
ghost use Rattle.std.specs.Io.KnownBytes.{Appends};
ghost use Rattle.std.specs.Prelude.{◌≡◌, ◌++◌, ◌∷◌, [], cond, map, IfErr, IfOk, OnOk};

use crate::names::{carrier, code};
use crate::other_words::other_name;
use crate::signal_words::is_in_map;
use crate::texts::{either, lines, modems, page_end};
use faults::{ToolFault, write_record};
use hdlc::Counts;
use serde_json::{Value, json};
use signals::{Caps, PageEnd, Params, Signal, read};
use std::alloc::{AllocError, Global};
use std::io::Write;

/// What a station can do.
fn dis_record(alloc: Global, caps: Caps) -> Result<Value, AllocError>
    ensures { IfOk result (λ value. view value ≡ dis_record caps) }
{
    json!(in alloc; {
        "signal": "DIS",
        "receiver": caps.receiver,
        "modems": modems(caps.modems),
        "lines": lines(caps.fine),
        "width": caps.widest.pixels(),
        "code": either(caps.t6, "mmr", "mh"),
        "error_correction": caps.ecm,
    })
}

/// How pages are sent.
fn dcs_record(alloc: Global, params: Params) -> Result<Value, AllocError>
    ensures { IfOk result (λ value. view value ≡ dcs_record params) }
{
    let octets = if params.small { 64u32 } else { 256u32 };
    json!(in alloc; {
        "signal": "DCS",
        "speed": carrier(params.speed),
        "lines": lines(params.fine),
        "width": params.width.pixels(),
        "code": code(params.coding),
        "frame_octets": octets,
    })
}

/// The number of an FCD's frame, and how many octets of data it has.
fn fcd_record(alloc: Global, frame: u8, octets: &[u8]) -> Result<Value, AllocError>
    ensures { IfOk result (λ value. view value ≡ fcd_record frame octets.now) }
{
    json!(in alloc; {
        "signal": "FCD",
        "frame": frame,
        "data_octets": octets.len(),
    })
}

/// What a PPS says.
fn pps_record(
    alloc: Global,
    ends: PageEnd,
    page: u8,
    block: u8,
    last: u8,
) -> Result<Value, AllocError>
    ensures { IfOk result (λ value. view value ≡ pps_record ends page block last) }
{
    json!(in alloc; {
        "signal": "PPS",
        "ends": page_end(ends),
        "page": page,
        "block": block,
        "last": last,
    })
}

/// Appends a number if it is marked in a map.
fn push_marked(marks: &[u8; 32], number: u16, numbers: &mut Vec<Value>) -> Result<(), AllocError>
    ensures { OnOk result (map view numbers.new.items
        ≡ map view numbers.old.items ++ cond (is_in_map marks.now number) (count number ∷ []) []) }
{
    if is_in_map(marks, number) {
        numbers.push(Value::from(number))?;
    }
    Ok(())
}

/// The numbers that are marked in a map, in rising order.
fn marked_numbers(alloc: Global, marks: &[u8; 32]) -> Result<Vec<Value>, AllocError>
    ensures { IfOk result (λ numbers. map view numbers.items ≡ map count (marked_below marks.now 256)) }
{
    let mut numbers = Vec::new(alloc);
    for number in 0u16..256 {
        push_marked(marks, number, &mut numbers)?;
    }
    Ok(numbers)
}

/// The frames that a PPR asks for.
fn ppr_record(alloc: Global, marks: &[u8; 32]) -> Result<Value, AllocError>
    ensures { IfOk result (λ value. view value ≡ ppr_record marks.now) }
{
    let frames = Value::Array(marked_numbers(alloc, marks)?);
    json!(in alloc; {"signal": "PPR", "frames": frames})
}

/// Returns the record of another signal: its facsimile control field in hex, and its name, if it isn't empty.
fn record_by_name(alloc: Global, octet: u8, name: &str) -> Result<Value, AllocError>
    ensures { IfOk result (λ value. view value ≡ record_by_name octet name.now) }
{
    let digits = hex::encode(alloc, &[octet])?;
    if name.is_empty() {
        return json!(in alloc; {"signal": "other", "control_field": digits});
    }
    json!(in alloc; {"signal": "other", "control_field": digits, "name": name})
}

/// Returns the record of another signal, by its facsimile control field.
fn other_record(alloc: Global, octet: u8) -> Result<Value, AllocError>
    ensures { IfOk result (λ value. view value ≡ other_record octet) }
{
    record_by_name(alloc, octet, other_name(octet))
}

/// A signal of which only the name is said.
pub(crate) fn named(alloc: Global, name: &str) -> Result<Value, AllocError>
    ensures { IfOk result (λ value. view value ≡ named name.now) }
{
    json!(in alloc; {"signal": name})
}

/// Returns what a signal says as an object of JSON, as in `frames --json`: its name as `signal`, and its fields.
pub fn signal_record(alloc: Global, signal: &Signal<'_>) -> Result<Value, AllocError>
    ensures { IfOk result (λ value. view value ≡ signal_record (plain signal.now)) }
{
    match signal {
        Signal::Dis(caps) => dis_record(alloc, *caps),
        Signal::Dcs(params) => dcs_record(alloc, *params),
        Signal::Cfr => named(alloc, "CFR"),
        Signal::Ftt => named(alloc, "FTT"),
        Signal::Fcd { number, octets } => fcd_record(alloc, *number, octets),
        Signal::Rcp => named(alloc, "RCP"),
        Signal::Pps {
            ends,
            page,
            block,
            last,
        } => pps_record(alloc, *ends, *page, *block, *last),
        Signal::Ppr(marks) => ppr_record(alloc, marks),
        Signal::Mcf => named(alloc, "MCF"),
        Signal::Rnr => named(alloc, "RNR"),
        Signal::Rr => named(alloc, "RR"),
        Signal::Dcn => named(alloc, "DCN"),
        Signal::Other(octet) => other_record(alloc, *octet),
    }
}

/// What a content says, or the number of the fault for which it is refused.
pub(crate) fn says_record(alloc: Global, content: &[u8]) -> Result<Value, AllocError>
    ensures { IfOk result (λ value. view value ≡ says_record (read_content content.now)) }
{
    match read(content) {
        Ok(signal) => signal_record(alloc, &signal),
        Err(fault) => json!(in alloc; {"fault": fault.number()}),
    }
}

/// The first octets of a content, or all of it.
fn shown_front(content: &[u8], most: Option<usize>) -> &[u8]
    ensures { result.now ≡ shown_front most content.now }
{
    match most {
        Some(most) if most < content.len() => &content[..most],
        _ => content,
    }
}

/// A good frame: its number, its content in hex, of which at most `most` octets are shown, how many octets it has, and what it says.
fn frame_record(
    alloc: Global,
    number: u64,
    content: &[u8],
    most: Option<usize>,
) -> Result<Value, AllocError>
    ensures record { IfOk result (λ value. view value ≡ frame_record most number content.now) }
{
    let digits = hex::encode(alloc, shown_front(content, most))?;
    let says = says_record(alloc, content)?;
    json!(in alloc; {
        "number": number,
        "octets": content.len(),
        "content": digits,
        "says": says,
    })
}

/// How many gaps there were of each class.
fn counts_record(alloc: Global, gaps: Counts) -> Result<Value, AllocError>
    ensures { IfOk result (λ value. view value ≡ counts_record gaps) }
{
    json!(in alloc; {
        "good": gaps.good,
        "aborted": gaps.aborted,
        "ragged": gaps.ragged,
        "short": gaps.short,
        "long": gaps.long,
        "damaged": gaps.damaged,
    })
}

/// Writes the record of a good frame as a line. Errors: `Io` (8) from the writer, `NoMemory` (9).
pub(crate) fn write_frame_record<W: Write>(
    alloc: Global,
    number: u64,
    content: &[u8],
    most: Option<usize>,
    writer: &mut W,
) -> Result<(), ToolFault>
    ensures line { OnOk result (Appends (W.contents writer.old) (W.contents writer.new)
        (record_line (frame_record most number content.now))) }
    ensures fault { IfErr result IsOutside }
{
    let record = frame_record(alloc, number, content, most)?;
    write_record(alloc, &record, writer)
}

/// Writes the record of how many gaps there were of each class as a line. Errors: `Io` (8) from the writer, `NoMemory` (9).
pub(crate) fn write_counts_record<W: Write>(
    alloc: Global,
    gaps: Counts,
    writer: &mut W,
) -> Result<(), ToolFault>
    ensures line { OnOk result (Appends (W.contents writer.old) (W.contents writer.new) (record_line (counts_record gaps))) }
    ensures fault { IfErr result IsOutside }
{
    let record = counts_record(alloc, gaps)?;
    write_record(alloc, &record, writer)
}
