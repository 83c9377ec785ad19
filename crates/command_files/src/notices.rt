//! Messages on standard error, and whether they are explained.

ghost use Rattle.faults.specs.Faults.{IsOutside};
ghost use Rattle.std.specs.Prelude.{IfErr};

use crate::context::Context;
use crate::error_line::ErrorLine;
use crate::streams::Streams;
use faults::{ToolFault, write_notice};
use std::env::{self, Env};
use std::io::{IsTerminal, Write};

/// Returns whether faults are explained in words unasked: on a terminal, and if the environment says so.
pub fn is_explained(rt: &HostRuntime) -> bool {
    if rt.stderr().is_terminal() {
        return true;
    }
    match env::var(rt, "FAXTOOL_EXPLAIN") {
        Ok(value) => value.as_str() == "1",
        Err(_) => false,
    }
}

/// Writes another message on standard error, as a line or a record. Errors: `Io` (8) if it can't be written, `NoMemory` (9).
pub fn notice(context: &Context<'_>, words: &str) -> Result<(), ToolFault>
    ensures { IfErr result IsOutside }
{
    notice_as(context.streams(), context.is_json(), words)
}

/// Writes another message on standard error, as a record if asked for. Errors: those of `notice`.
pub fn notice_as(streams: &Streams<'_>, json: bool, words: &str) -> Result<(), ToolFault>
    ensures { IfErr result IsOutside }
{
    let mut line = ErrorLine::new(streams);
    if json {
        write_notice(streams.rt().alloc(), words, &mut line)?;
    } else {
        writeln!(line, "{words}")?;
    }
    line.flush()?;
    Ok(())
}
