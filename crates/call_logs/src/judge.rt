//! A log, read and judged.

ghost use Rattle.call_logs.specs.Logs.{plain_frame};
ghost use Rattle.call_logs.specs.Reports.{JudgesLog, report, tally_in_log};
ghost use Rattle.faults.specs.Faults.{IsOutside};
ghost use Rattle.std.specs.Io.KnownBytes.{Appends};
ghost use Rattle.std.specs.Prelude.{◌≡◌, IfErr, IfOk, OnOk, map};

use crate::log::{LogFrame, read_log};
use crate::report::{write_all, write_tally};
use crate::tally::Tally;
use crate::verdicts::{broken_among, judged, read_among, told_in};
use captures::ListForm;
use faults::ToolFault;
use std::alloc::Global;
use std::io::Write;

/// Judges the frames of a log, and writes each that breaks a rule, and the counts, which it returns.
fn judge_frames<W: Write>(
    alloc: Global,
    frames: &[LogFrame<'_>],
    form: ListForm,
    writer: &mut W,
) -> Result<Tally, ToolFault>
    ensures tally { IfOk result (λ tally. tally ≡ tally_in_log (map plain_frame frames.now)) }
    ensures text { OnOk result (Appends (W.contents writer.old) (W.contents writer.new)
        (report form (map plain_frame frames.now))) }
    ensures fault { IfErr result IsOutside }
{
    let told = told_in(alloc, frames)?;
    let found = judged(alloc, &told)?;
    let tally = Tally {
        frames: frames.len(),
        broken: broken_among(&found),
        readings: read_among(&found),
        unread: frames.len().saturating_sub(told.len()),
    };
    write_all(alloc, form, &told, &found, writer)?;
    write_tally(alloc, form, tally, writer)?;
    Ok(tally)
}

/// Reads a log, and writes of each of its frames that breaks a rule a line, or a record, and at the end the counts, which it returns; or the
/// number of the first line that is none of a log, from 1, and nothing is written. Errors: `Io` (8) from the writer, `NoMemory` (9).
pub fn judge_log<W: Write>(
    alloc: Global,
    octets: &[u8],
    form: ListForm,
    writer: &mut W,
) -> Result<Result<Tally, u64>, ToolFault>
    ensures judged { IfOk result
        (JudgesLog form octets.now (W.contents writer.old) (W.contents writer.new)) }
    ensures fault { IfErr result IsOutside }
{
    match read_log(alloc, octets)? {
        Ok(frames) => Ok(Ok(judge_frames(alloc, &frames, form, writer)?)),
        Err(line) => Ok(Err(line)),
    }
}
