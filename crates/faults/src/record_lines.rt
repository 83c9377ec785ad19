//! Records of JSON, one object a line, for programs.

ghost use Rattle.faults.specs.Faults.{IsOutside};
ghost use Rattle.faults.specs.RecordLines.{record_line};
ghost use Rattle.serde_json.specs.View.{view};
ghost use Rattle.serde_json.specs.Written.{has_float};
ghost use Rattle.std.specs.Io.KnownBytes.{Appends};
ghost use Rattle.std.specs.Prelude.{◌≡◌, false, IfErr, OnOk};

use crate::fault::ToolFault;
use serde_json::Value;
use std::alloc::Global;
use std::io::Write;

/// Writes a value as one line: its JSON without spaces outside texts, its members in the order of their names. Errors: `Io` (8) from the
/// writer, `NoMemory` (9).
pub fn write_record<W: Write>(alloc: Global, value: &Value, writer: &mut W) -> Result<(), ToolFault>
    requires integers { has_float (view value.now) ≡ false }
    ensures line { OnOk result (Appends (W.contents writer.old) (W.contents writer.new) (record_line (view value.now))) }
    ensures fault { IfErr result IsOutside }
{
    let text = value.to_string(alloc)?;
    writeln!(writer, "{text}")?;
    Ok(())
}
