//! What a station hears and says, as JSON for programs.

ghost use Rattle.faults.specs.Faults.{IsOutside};
ghost use Rattle.captures.specs.Records.{named, says_record};
ghost use Rattle.faults.specs.RecordLines.{record_line};
ghost use Rattle.captures.specs.TraceRecords.{check_record, traced, traced_record};
ghost use Rattle.serde_json.specs.View.{view};
ghost use Rattle.signals.specs.Reading.{read_content};
ghost use Rattle.std.specs.Io.KnownBytes.{Appends};
ghost use Rattle.std.specs.Prelude.{◌≡◌, codes, IfErr, IfOk, OnOk};

use crate::records::{named, says_record};
use faults::{ToolFault, write_record};
use serde_json::{Value, json};
use std::alloc::{AllocError, Global};
use std::io::Write;

/// The time in milliseconds, and what was heard or said.
fn traced(alloc: Global, at: u64, said: bool, says: Value) -> Result<Value, AllocError>
    ensures { IfOk result (λ value. view value ≡ traced at said (view says)) }
{
    if said {
        return json!(in alloc; {"at": at, "said": says});
    }
    json!(in alloc; {"at": at, "heard": says})
}

/// Writes the record of a frame's content that a station said or heard, with the time in milliseconds, as one line. Errors: `Io` (8) from
/// the writer, `NoMemory` (9).
pub fn write_traced<W: Write>(
    alloc: Global,
    at: u64,
    said: bool,
    content: &[u8],
    writer: &mut W,
) -> Result<(), ToolFault>
    ensures line { OnOk result (Appends (W.contents writer.old) (W.contents writer.new)
        (record_line (traced_record at said content.now))) }
    ensures fault { IfErr result IsOutside }
{
    let says = says_record(alloc, content)?;
    let record = traced(alloc, at, said, says)?;
    write_record(alloc, &record, writer)
}

/// Writes the record of a training check that a station said or heard, with the time in milliseconds, as one line. Errors: `Io` (8) from
/// the writer, `NoMemory` (9).
pub fn write_traced_check<W: Write>(
    alloc: Global,
    at: u64,
    said: bool,
    writer: &mut W,
) -> Result<(), ToolFault>
    ensures line { OnOk result (Appends (W.contents writer.old) (W.contents writer.new) (record_line (check_record at said))) }
    ensures fault { IfErr result IsOutside }
{
    let says = named(alloc, "TRAINING")?;
    let record = traced(alloc, at, said, says)?;
    write_record(alloc, &record, writer)
}
