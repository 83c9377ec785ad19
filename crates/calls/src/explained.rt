//! The lines of a call with what its signals say, in words.

ghost use Rattle.calls.specs.Explained.{explained_line, fields_line, signal_said};
ghost use Rattle.faults.specs.Faults.{IsOutside};
ghost use Rattle.signals.specs.Signals.{plain};
ghost use Rattle.std.specs.Io.KnownBytes.{Appends};
ghost use Rattle.std.specs.Prelude.{◌≡◌, IfErr, OnOk, option_map};

use crate::transcript::write_entry;
use captures::write_signal;
use faults::ToolFault;
use line_sim::{Entry, Fields};
use signals::Signal;
use std::io::Write;

/// The signal of an information field, if there is one.
pub(crate) fn signal_said<'a>(fields: Fields) -> Option<Signal<'a>>
    ensures { option_map plain result ≡ signal_said fields }
{
    match fields {
        Fields::Nothing => None,
        Fields::Dis(caps) => Some(Signal::Dis(caps)),
        Fields::Dcs(params) => Some(Signal::Dcs(params)),
        Fields::Pps {
            ends,
            page,
            block,
            last,
        } => Some(Signal::Pps {
            ends,
            page,
            block,
            last,
        }),
        Fields::Ppr(map) => Some(Signal::Ppr(map)),
    }
}

/// Writes the line of what an information field says, or nothing if it says nothing.
fn write_fields<W: Write>(fields: Fields, writer: &mut W) -> Result<(), ToolFault>
    ensures text { OnOk result (Appends (W.contents writer.old) (W.contents writer.new) (fields_line fields)) }
    ensures fault { IfErr result IsOutside }
{
    match signal_said(fields) {
        Some(signal) => write_signal(&signal, &[], writer),
        None => Ok(()),
    }
}

/// Writes the line of an event, and after it a line in words of what a DIS, a DCS, a PPS or a PPR says. Errs if the writer fails.
pub(crate) fn write_explained<W: Write>(
    number: u64,
    entry: &Entry,
    writer: &mut W,
) -> Result<(), ToolFault>
    ensures lines { OnOk result (Appends (W.contents writer.old) (W.contents writer.new) (explained_line number entry.now)) }
    ensures fault { IfErr result IsOutside }
{
    write_entry(number, entry, writer)?;
    write_fields(entry.fields, writer)
}
