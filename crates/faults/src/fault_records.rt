//! Faults, and other messages, as JSON for programs.

ghost use Rattle.faults.specs.Faults.{IsOutside};
ghost use Rattle.faults.specs.FaultRecords.{fault_record, line_fault_record, notice_record};
ghost use Rattle.faults.specs.RecordLines.{record_line};
ghost use Rattle.serde_json.specs.View.{view};
ghost use Rattle.std.specs.Io.KnownBytes.{Appends};
ghost use Rattle.std.specs.Prelude.{◌≡◌, ◌-◌, ◌^◌, min, IfErr, IfOk, OnOk};

use crate::fault::ToolFault;
use crate::record_lines::write_record;
use serde_json::{Value, json};
use std::alloc::{AllocError, Global};
use std::io::Write;

/// Returns a place in bits, 2^64 - 1 at most.
pub fn short_place(place: u128) -> u64
    ensures { result ≡ min (2 ^ 64 - 1) place }
{
    if place > u128::from(u64::MAX) {
        return u64::MAX;
    }
    place as u64
}

/// The record of a fault at a line, counted from 1: its number, its line and its words.
fn line_fault_record(alloc: Global, no: u8, line: u64, words: &str) -> Result<Value, AllocError>
    ensures { IfOk result (λ value. view value ≡ line_fault_record no line words.now) }
{
    json!(in alloc; {"fault": no, "line": line, "words": words})
}

/// The record of a fault: its number, its words, and its bit or line.
fn fault_record(alloc: Global, fault: ToolFault, words: &str) -> Result<Value, AllocError>
    ensures { IfOk result (λ value. view value ≡ fault_record fault words.now) }
{
    match fault {
        ToolFault::No(no) => json!(in alloc; {"fault": no, "words": words}),
        ToolFault::AtBit { no, place } => {
            let bit = short_place(place);
            json!(in alloc; {"fault": no, "bit": bit, "words": words})
        }
        ToolFault::AtLine(line) => line_fault_record(alloc, 30, line, words),
    }
}

/// The record of another message.
fn notice_record(alloc: Global, words: &str) -> Result<Value, AllocError>
    ensures { IfOk result (λ value. view value ≡ notice_record words.now) }
{
    json!(in alloc; {"notice": words})
}

/// Writes a fault and its words as one line, an object of JSON: number, bit or line, words. Errors: `Io` (8) from the writer, `NoMemory`
/// (9).
pub fn write_fault<W: Write>(
    alloc: Global,
    fault: ToolFault,
    words: &str,
    writer: &mut W,
) -> Result<(), ToolFault>
    ensures line { OnOk result (Appends (W.contents writer.old) (W.contents writer.new) (record_line (fault_record fault words.now))) }
    ensures fault { IfErr result IsOutside }
{
    let record = fault_record(alloc, fault, words)?;
    write_record(alloc, &record, writer)
}

/// Writes a fault of any number at a line, counted from 1, and its words as one line, an object of JSON. Errors: `Io` (8) from the writer,
/// `NoMemory` (9).
pub fn write_line_fault<W: Write>(
    alloc: Global,
    no: u8,
    line: u64,
    words: &str,
    writer: &mut W,
) -> Result<(), ToolFault>
    ensures line { OnOk result (Appends (W.contents writer.old) (W.contents writer.new)
        (record_line (line_fault_record no line words.now))) }
    ensures fault { IfErr result IsOutside }
{
    let record = line_fault_record(alloc, no, line, words)?;
    write_record(alloc, &record, writer)
}

/// Writes another message as one line, an object of JSON with `notice`. Errors: `Io` (8) from the writer, `NoMemory` (9).
pub fn write_notice<W: Write>(alloc: Global, words: &str, writer: &mut W) -> Result<(), ToolFault>
    ensures line { OnOk result (Appends (W.contents writer.old) (W.contents writer.new) (record_line (notice_record words.now))) }
    ensures fault { IfErr result IsOutside }
{
    let record = notice_record(alloc, words)?;
    write_record(alloc, &record, writer)
}
