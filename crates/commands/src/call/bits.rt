//! The files of the octets on the line of a call.

ghost use Rattle.faults.specs.Faults.{IsOutside};
ghost use Rattle.commands.specs.Runs.{list_form};
ghost use Rattle.std.specs.Prelude.{◌≡◌, IfErr};

use crate::frames::list_form;
use calls::{InForm, WithBits};
use captures::ListForm;
use command_files::context::{Cause, Context, Part};
use command_files::files::output::{self, Output};
use command_files::files::printed::{self, Printed};
use faults::ToolFault;
use std::io::{BufWriter, ErrorKind, Write};
use std::{fs, io, mem};

/// How many octets of a file are written at once.
const WRITTEN_AT_ONCE: usize = 65536;

/// Where the octets of one direction go: into a file, with a buffer before it, or nowhere.
pub(crate) type Direction<'a> = BufWriter<Output<'a>>;

/// A call's outputs: standard output, and if asked for the files of both directions.
pub(crate) type CallOutput<'a> = InForm<BufWriter<Printed<'a>>, Direction<'a>>;

/// The name of the file of what went to the answerer.
const TO_ANSWERER: &str = "to-answerer.bits";

/// The name of the file of what went to the caller.
const TO_CALLER: &str = "to-caller.bits";

/// Checks that nothing is at the place of a new file of this name. Errors: `Io` (8) if something is, even a link that leads nowhere, and that
/// is noted.
fn check_free(context: &mut Context<'_>, place: &str, name: &'static str) -> Result<(), ToolFault>
    ensures { IfErr result IsOutside }
{
    if fs::symlink_metadata(context.rt(), place).is_err() {
        return Ok(());
    }
    context.note_cause(Cause::Taken(name));
    let taken = Err(io::Error::from(ErrorKind::AlreadyExists));
    context.checked(taken, Part::Bits)
}

/// Opens the new file of one direction, or nothing. It gets its name when it is ended, if nothing is there then. Errors: `Io` (8) if something
/// is there already or it can't be made, and that is noted; `NoMemory` (9).
fn open_file<'a>(
    context: &mut Context<'a>,
    folder: Option<&str>,
    name: &'static str,
) -> Result<Direction<'a>, ToolFault>
    ensures { IfErr result IsOutside }
{
    let nowhere = Output::nowhere(context.rt());
    let Some(folder) = folder else {
        return Ok(BufWriter::with_capacity(context.alloc(), 0, nowhere)?);
    };
    let place = format!(in context.alloc(); "{folder}/{name}")?;
    // before the file: it would be left if memory were refused after it
    let mut direction = BufWriter::with_capacity(context.alloc(), WRITTEN_AT_ONCE, nowhere)?;
    check_free(context, place.as_str(), name)?;
    *direction.get_mut() = output::open_new(context, Part::Bits, place.as_str())?;
    Ok(direction)
}

/// Checks that standard output isn't closed, as a file would be opened in its place. Errors: `Io` (8), and that is noted.
fn check_printed(context: &mut Context<'_>) -> Result<(), ToolFault>
    ensures { IfErr result IsOutside }
{
    let printed = io::writer(context.rt()).write(&[]);
    let _written = context.checked(printed, Part::Printed)?;
    Ok(())
}

/// How the lines of a call are written.
fn form_of(context: &Context<'_>) -> ListForm
    ensures { result ≡ list_form context.now.messages.json context.now.messages.explain }
{
    list_form(context.is_json(), context.is_explained())
}

/// Opens a call's outputs. Errors: `Io` (8) if a file can't be made or standard output is closed, and that is noted; `NoMemory` (9).
pub(crate) fn open<'a>(
    context: &mut Context<'a>,
    folder: Option<&str>,
) -> Result<CallOutput<'a>, ToolFault>
    ensures { IfErr result IsOutside }
{
    if folder.is_some() {
        check_printed(context)?;
    }
    let lines = printed::print(context)?;
    let to_answerer = open_file(context, folder, TO_ANSWERER)?;
    let to_caller = match open_file(context, folder, TO_CALLER) {
        Ok(to_caller) => to_caller,
        Err(fault) => {
            end_file(context, to_answerer, TO_ANSWERER, false)?;
            return Err(fault);
        }
    };
    let writer = WithBits {
        lines,
        to_answerer,
        to_caller,
    };
    Ok(InForm {
        alloc: context.alloc(),
        form: form_of(context),
        writer,
    })
}

/// Ends a file: it takes this name if all was done and nothing is there, and is otherwise removed. Errors: `Io` (8) if it can't be written, and
/// that is noted.
fn end_file<'a>(
    context: &mut Context<'a>,
    direction: Direction<'a>,
    name: &'static str,
    done: bool,
) -> Result<(), ToolFault>
    ensures { IfErr result IsOutside }
{
    let mut direction = direction;
    let flushed = if done { direction.flush() } else { Ok(()) };
    let is_whole = done && flushed.is_ok();
    let nowhere = Output::nowhere(context.rt());
    let output = mem::replace(direction.get_mut(), nowhere);
    let ended = output.end(is_whole, context);
    if ended.is_err() && context.reason() == Some(ErrorKind::AlreadyExists) {
        context.note_cause(Cause::Taken(name));
    }
    flushed?;
    ended
}

/// Ends a call's outputs: what is printed, and then the files, which take their places if all was done and printed. Errors: `Io` (8) if one
/// can't be written, and that is noted; `NoMemory` (9).
pub(crate) fn close<'a>(
    context: &mut Context<'a>,
    output: CallOutput<'a>,
    done: bool,
) -> Result<(), ToolFault>
    ensures { IfErr result IsOutside }
{
    let WithBits {
        lines,
        to_answerer,
        to_caller,
    } = output.writer;
    let printed = printed::end_print(context, lines, done);
    let is_printed = done && printed.is_ok();
    let one = end_file(context, to_answerer, TO_ANSWERER, is_printed);
    let other = end_file(context, to_caller, TO_CALLER, is_printed && one.is_ok());
    printed?;
    one?;
    other
}
