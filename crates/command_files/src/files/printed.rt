//! What is printed.

ghost use Rattle.faults.specs.Faults.{IsOutside};
ghost use Rattle.std.specs.Prelude.{◌≡◌, IfErr};

use crate::context::{Context, Part};
use crate::streams::Streams;
use faults::ToolFault;
use std::io;
use std::io::{BufWriter, ErrorKind, Write};

/// How many octets of what is printed are written at once.
const PRINTED_AT_ONCE: usize = 65536;

/// Standard output, with why it failed.
#[derive(Drop)]
pub struct Printed<'a> {
    streams: &'a Streams<'a>,
    failed: Option<ErrorKind>,
}

impl Printed<'_> {
    /// Why standard output failed, if it did.
    pub fn failed(&self) -> Option<ErrorKind>
        ensures { result ≡ self.now.failed }
    {
        self.failed
    }
}

impl Write for Printed<'_> {
    fn write(&mut self, octets: &[u8]) -> io::Result<usize> {
        let written = self.streams.print(octets);
        self.failed = written.as_ref().err().map(|error| error.kind());
        written
    }

    fn flush(&mut self) -> io::Result<()> {
        Ok(())
    }
}

/// Standard output with a buffer before it. Errors: `NoMemory` (9).
pub fn print<'a>(context: &Context<'a>) -> Result<BufWriter<Printed<'a>>, ToolFault>
    ensures { IfErr result IsOutside }
{
    let streams = context.streams();
    let printed = Printed {
        streams,
        failed: None,
    };
    Ok(BufWriter::with_capacity(context.alloc(), PRINTED_AT_ONCE, printed)?)
}

/// Ends what was printed: writes the rest if all was done, and notes why it failed. Errors: `Io` (8) if it can't be written; `NoMemory`
/// (9).
pub fn end_print(
    context: &mut Context<'_>,
    mut printed: BufWriter<Printed<'_>>,
    done: bool,
) -> Result<(), ToolFault>
    ensures { IfErr result IsOutside }
{
    let ended = if done { printed.flush() } else { Ok(()) };
    if let Some(kind) = printed.get_ref().failed {
        context.blame(Part::Printed, kind);
    }
    Ok(ended?)
}

/// Prints octets at once. Errors: `Io` (8) if they can't be written, and that is noted; `NoMemory` (9).
pub fn say(context: &mut Context<'_>, octets: &[u8]) -> Result<(), ToolFault>
    ensures { IfErr result IsOutside }
{
    let mut writer = print(context)?;
    let written = writer.write_all(octets);
    end_print(context, writer, written.is_ok())?;
    written?;
    Ok(())
}
