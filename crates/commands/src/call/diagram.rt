//! The picture of a call.

ghost use Rattle.faults.specs.Faults.{IsOutside};
ghost use Rattle.std.specs.Prelude.{IfErr};

use crate::call::CallFiles;
use crate::call::bits::{self, CallOutput};
use call_pictures::{Ladder, WithDiagram, write_picture};
use command_files::context::{Context, Part};
use command_files::files::output;
use faults::ToolFault;

/// Opens a call's outputs, with its picture if that is asked for. Errors: `Io` (8) if a file can't be made or standard output is closed,
/// and the file is noted; `NoMemory` (9).
pub(crate) fn open<'a>(
    context: &mut Context<'a>,
    files: CallFiles<'_>,
) -> Result<WithDiagram<CallOutput<'a>>, ToolFault>
    ensures { IfErr result IsOutside }
{
    let writer = bits::open(context, files.bits)?;
    let ladder = match files.diagram {
        Some(_name) => Some(Ladder::new(context.alloc())),
        None => None,
    };
    Ok(WithDiagram { writer, ladder })
}

/// Ends a call's outputs; then writes the picture, if it is asked for, all was done and the rest is written. Errors: `Io` (8) if a file
/// can't be written, and the file is noted; `NoMemory` (9).
pub(crate) fn close<'a>(
    context: &mut Context<'a>,
    output: WithDiagram<CallOutput<'a>>,
    done: bool,
    name: Option<&str>,
) -> Result<(), ToolFault>
    ensures { IfErr result IsOutside }
{
    let WithDiagram { writer, ladder } = output;
    bits::close(context, writer, done)?;
    match (name, ladder) {
        (Some(name), Some(ladder)) if done => draw(context, name, ladder),
        _ => Ok(()),
    }
}

/// Writes the picture of a call into a file. Errors: `Io` (8) if it can't be written, and that is noted; `NoMemory` (9).
pub(crate) fn draw(context: &mut Context<'_>, name: &str, ladder: Ladder) -> Result<(), ToolFault>
    ensures { IfErr result IsOutside }
{
    let mut octets = Vec::new(context.alloc());
    write_picture(ladder, &mut octets)?;
    output::save(context, Part::Diagram, name, octets.as_slice())
}
