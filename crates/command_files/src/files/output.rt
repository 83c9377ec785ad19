//! Files that are written. A new file gets its octets beside its place, under another name, and is synced before it takes the place at once:
//! so what is there under a name is always whole.

ghost use Rattle.faults.specs.Faults.{IsOutside};
ghost use Rattle.std.specs.Prelude.{◌≡◌, IfErr};

use crate::context::{Cause, Context, Part};
use crate::files::STANDARD;
use crate::files::limited::{LimitedFile, why_failed};
use crate::files::parts::{PartFile, make_in};
pub use crate::files::parts::{Rights, sync_folder};
use crate::streams::Streams;
use faults::ToolFault;
use std::fs::{File, OpenOptions, Permissions};
use std::io::{ErrorKind, IsTerminal, Write};
use std::{fs, io};

/// What is at the place of a file that is to be written.
#[derive(Drop)]
enum Place {
    /// Nothing.
    Free,
    /// A regular file of these permissions.
    Regular(Permissions),
    /// A device, a pipe, a link or a folder.
    Other,
}

/// Where the octets of an output go.
#[derive(Drop)]
enum Target<'a> {
    /// Nowhere.
    Nowhere,
    /// Standard output.
    Standard(&'a Streams<'a>),
    /// Into a device, a pipe or a link itself.
    Itself(LimitedFile),
    /// Into a new file beside the place, which replaces the regular file that is there.
    Beside(PartFile),
    /// Into a new file beside the place, which nothing was at; it takes the place if that is so still.
    Free(PartFile),
    /// Into a new file beside the place, which takes it if nothing is there; the folder isn't synced then.
    New(PartFile),
}

/// An output that is written while it is made, and why writing failed.
#[derive(Drop)]
pub struct Output<'a> {
    rt: &'a HostRuntime,
    part: Part,
    name: String,
    target: Target<'a>,
    failed: Option<ErrorKind>,
}

/// Checks that octets aren't written on a terminal. Errors: `Io` (8), and that is noted.
pub fn check_terminal(context: &mut Context<'_>, name: &str) -> Result<(), ToolFault>
    ensures { IfErr result IsOutside }
{
    if name == STANDARD && context.rt().stdout().is_terminal() {
        context.note_cause(Cause::Terminal);
        return context.checked(Err(io::Error::from(ErrorKind::Unsupported)), Part::Output);
    }
    Ok(())
}

/// Notes whether nothing is at the place of an output that is opened after others: on a disk on which the case of letters doesn't count it may
/// be the place of one of these. Errors: `NoMemory` (9).
pub fn note_place(context: &mut Context<'_>, name: &str) -> Result<(), ToolFault>
    ensures { IfErr result IsOutside }
{
    if name != STANDARD && is_free(context.rt(), name) {
        let copied = String::from_str(context.alloc(), name)?;
        context.note_free(copied)?;
    }
    Ok(())
}

/// Returns whether nothing is at a place, not even a link that leads nowhere.
fn is_free(rt: &HostRuntime, name: &str) -> bool {
    match fs::symlink_metadata(rt, name) {
        Ok(_) => false,
        Err(error) => error.kind() == ErrorKind::NotFound,
    }
}

/// Checks that a name is that of a folder. Errors: `Io` (8), and that is noted.
pub fn check_folder(context: &mut Context<'_>, name: &str, part: Part) -> Result<(), ToolFault>
    ensures { IfErr result IsOutside }
{
    let checked = match fs::metadata(context.rt(), name) {
        Ok(found) if found.is_dir() => Ok(()),
        Ok(_) => Err(io::Error::from(ErrorKind::NotADirectory)),
        Err(error) => Err(error),
    };
    context.checked(checked, part)
}

/// Makes the folder of a file's name, and those above it, where they aren't there. Errors: `Io` (8), and that is noted.
pub fn make_folders(context: &mut Context<'_>, name: &str, part: Part) -> Result<(), ToolFault>
    ensures { IfErr result IsOutside }
{
    let made = fs::create_dir_all(context.rt(), folder_of(name));
    context.checked(made, part)
}

/// Syncs the folder of a file's name, unless it may not be read. Errors: `Io` (8), and that is noted.
pub fn sync_names(context: &mut Context<'_>, name: &str, part: Part) -> Result<(), ToolFault>
    ensures { IfErr result IsOutside }
{
    let synced = match sync_folder(context.rt(), folder_of(name)) {
        Err(error) if error.kind() == ErrorKind::PermissionDenied => Ok(()),
        done => done,
    };
    context.checked(synced, part)
}

/// Writes octets as the whole content of a file, or on standard output. Errors: `Io` (8) if it can't be written, and that is noted;
/// `NoMemory` (9).
pub fn save(
    context: &mut Context<'_>,
    part: Part,
    name: &str,
    octets: &[u8],
) -> Result<(), ToolFault>
    ensures { IfErr result IsOutside }
{
    let output = open(context, part, name)?;
    write_whole(context, output, octets)
}

/// Writes octets as the whole content of a new file, whose name the program makes up: see `open_new`. Errors: `Io` (8) if it can't be written
/// or something is there, and that is noted; `NoMemory` (9).
pub fn save_new(
    context: &mut Context<'_>,
    part: Part,
    name: &str,
    octets: &[u8],
) -> Result<(), ToolFault>
    ensures { IfErr result IsOutside }
{
    let output = open_new(context, part, name)?;
    write_whole(context, output, octets)
}

/// Writes octets as the whole content of an output. Errors: `Io` (8), and that is noted.
fn write_whole(
    context: &mut Context<'_>,
    output: Output<'_>,
    octets: &[u8],
) -> Result<(), ToolFault>
    ensures { IfErr result IsOutside }
{
    let mut output = output;
    let written = output.write_all(octets);
    output.end(written.is_ok(), context)?;
    written?;
    Ok(())
}

/// Opens an output. What is at its place stays until it is ended: it is a new file beside the place if that is free or a regular file's. If
/// nothing was there at first, and something is there when the output is opened or ended, that fails with `Io` (8), of the kind
/// `AlreadyExists`. A device, a pipe or a link is written itself. Errors: `Io` (8) if it can't be made, and that is noted; `NoMemory` (9).
pub fn open<'a>(context: &mut Context<'a>, part: Part, name: &str) -> Result<Output<'a>, ToolFault>
    ensures { IfErr result IsOutside }
{
    // before the file: it would be left if memory were refused after it
    let copied = String::from_str(context.alloc(), name)?;
    let opened = if context.was_free(name) && !is_free(context.rt(), name) {
        Err(io::Error::from(ErrorKind::AlreadyExists))
    } else {
        target_of(context.streams(), name)
    };
    open_as(context, part, copied, opened)
}

/// Opens an output whose name the program makes up. It takes the name when it is ended, whole and synced, if nothing is there, neither a file
/// nor a folder, a device or a link. The folder isn't synced then: `sync_folder` does that, once for many files. Errors: `Io` (8) if it can't
/// be made, and that is noted; `NoMemory` (9). If something is there, `Output::end` fails with `Io` (8), of the kind `AlreadyExists`.
pub fn open_new<'a>(
    context: &mut Context<'a>,
    part: Part,
    name: &str,
) -> Result<Output<'a>, ToolFault>
    ensures { IfErr result IsOutside }
{
    let copied = String::from_str(context.alloc(), name)?;
    let opened = match make_in(context.rt(), folder_of(name), Rights::Umask) {
        Ok(made) => Ok(Target::New(made)),
        Err(error) => Err(error),
    };
    open_as(context, part, copied, opened)
}

/// The output of this name, whose octets go there. Errors: `Io` (8), and that is noted; `NoMemory` (9).
fn open_as<'a>(
    context: &mut Context<'a>,
    part: Part,
    name: String,
    opened: io::Result<Target<'a>>,
) -> Result<Output<'a>, ToolFault>
    ensures { IfErr result IsOutside }
{
    let target = context.checked(opened, part)?;
    Ok(Output {
        rt: context.rt(),
        part,
        name,
        target,
        failed: None,
    })
}

/// Opens what the octets of an output of this name go to. Errors: the system's.
fn target_of<'a>(streams: &'a Streams<'a>, name: &str) -> io::Result<Target<'a>> {
    if name == STANDARD {
        return Ok(Target::Standard(streams));
    }
    let rt = streams.rt();
    check_writable(rt, name)?;
    match place_of(rt, name)? {
        Place::Free => Ok(Target::Free(make_in(rt, folder_of(name), Rights::Umask)?)),
        Place::Regular(permissions) => replacing(rt, name, permissions),
        Place::Other => {
            let file = File::create(rt, name)?;
            Ok(Target::Itself(LimitedFile::new(rt, file, 0)))
        }
    }
}

/// Makes the new file beside a regular one: before its first octet it gets the permissions of the old one. It belongs to who runs the
/// program, and other names of the old file (hard links) keep the old content.
fn replacing(
    rt: &HostRuntime,
    name: &str,
    permissions: Permissions,
) -> io::Result<Target<'static>> {
    let made = make_in(rt, folder_of(name), Rights::Private)?;
    Ok(Target::Beside(made.permitted(rt, permissions)?))
}

/// Checks that a regular file may be written, since its folder may be writable though it isn't. Errors: the system's.
fn check_writable(rt: &HostRuntime, name: &str) -> io::Result<()> {
    match fs::metadata(rt, name) {
        Ok(found) if found.is_file() => {
            if found.permissions().readonly() {
                return Err(io::Error::from(ErrorKind::PermissionDenied));
            }
            let _opened = OpenOptions::new().write(true).open(rt, name)?;
            Ok(())
        }
        _ => Ok(()),
    }
}

fn place_of(rt: &HostRuntime, name: &str) -> io::Result<Place> {
    match fs::symlink_metadata(rt, name) {
        Ok(found) if found.is_file() => Ok(Place::Regular(found.permissions())),
        Ok(_) => Ok(Place::Other),
        Err(error) if error.kind() == ErrorKind::NotFound => Ok(Place::Free),
        Err(error) => Err(error),
    }
}

/// The folder of a place.
fn folder_of(place: &str) -> &str {
    match place.rsplit_once('/') {
        Some(("", _)) => "/",
        Some((folder, _)) => folder,
        None => ".",
    }
}

/// Ends what the octets of an output went to: a new file takes its place if it is whole, and is otherwise removed. Errors: the system's.
fn end_target(rt: &HostRuntime, target: Target<'_>, place: &str, is_whole: bool) -> io::Result<()> {
    match target {
        Target::Nowhere | Target::Standard(_) => Ok(()),
        Target::Itself(file) => {
            drop(file);
            Ok(())
        }
        Target::Beside(made) => end_beside(rt, made, place, is_whole),
        Target::Free(made) => end_free(rt, made, place, is_whole),
        Target::New(made) => end_new(rt, made, place, is_whole),
    }
}

/// Ends a new file beside a place: it takes the place if it is whole, and is otherwise removed. Errors: the system's, and then it is removed too.
fn end_beside(rt: &HostRuntime, made: PartFile, place: &str, is_whole: bool) -> io::Result<()> {
    let ended = if is_whole {
        made.put(rt, place)
    } else {
        Ok(())
    };
    if !is_whole || ended.is_err() {
        let _removed = made.remove(rt);
    } else {
        // the file has its place: a folder that can't be read can't be synced either
        let _synced = sync_folder(rt, folder_of(place));
    }
    ended
}

/// Ends a new file as `end_new` does, and syncs the folder of its place.
fn end_free(rt: &HostRuntime, made: PartFile, place: &str, is_whole: bool) -> io::Result<()> {
    let ended = end_new(rt, made, place, is_whole);
    if is_whole && ended.is_ok() {
        // the file has its place: a folder that can't be read can't be synced either
        let _synced = sync_folder(rt, folder_of(place));
    }
    ended
}

/// Ends a new file beside a place: it takes the place if it is whole and nothing is there, and is otherwise removed. Errors: the system's,
/// `AlreadyExists` if something is there.
fn end_new(rt: &HostRuntime, made: PartFile, place: &str, is_whole: bool) -> io::Result<()> {
    let ended = if is_whole {
        sync_new(rt, &made, place)
    } else {
        Ok(())
    };
    let _removed = made.remove(rt);
    ended
}

/// Syncs a new file and gives it a place's name.
fn sync_new(rt: &HostRuntime, made: &PartFile, place: &str) -> io::Result<()> {
    made.sync()?;
    made.put_new(rt, place)
}

impl Write for Output<'_> {
    fn write(&mut self, octets: &[u8]) -> io::Result<usize> {
        let written = match &mut self.target {
            Target::Nowhere => Ok(octets.len()),
            Target::Standard(streams) => streams.print(octets),
            Target::Itself(file) => file.write(octets),
            Target::Beside(made) | Target::Free(made) | Target::New(made) => made.write(octets),
        };
        self.failed = why_failed(&written, octets);
        written
    }

    fn flush(&mut self) -> io::Result<()> {
        Ok(())
    }
}

impl<'a> Output<'a> {
    /// An output whose octets go nowhere.
    pub fn nowhere(rt: &'a HostRuntime) -> Output<'a> {
        Output {
            rt,
            part: Part::Output,
            name: String::new(rt.alloc()),
            target: Target::Nowhere,
            failed: None,
        }
    }

    /// Ends the output, and notes why writing it failed. A new file takes its place if it is whole, and is otherwise removed. Errors: `Io`
    /// (8) if that fails, and that is noted.
    pub fn end(self, is_whole: bool, context: &mut Context<'_>) -> Result<(), ToolFault>
        ensures { IfErr result IsOutside }
    {
        let Output {
            rt,
            part,
            name,
            target,
            failed,
        } = self;
        if let Some(kind) = failed {
            context.blame(part, kind);
        }
        let ended = end_target(rt, target, name.as_str(), is_whole);
        context.checked(ended, part)
    }
}
