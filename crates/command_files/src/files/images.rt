//! Pages that are written as images.

ghost use Rattle.faults.specs.Faults.{IsOutside};
ghost use Rattle.command_files.specs.Bounds.{image_octets};
ghost use Rattle.std.specs.Prelude.{◌≡◌, ◌<◌, ◌≤◌, All, IfErr, IfOk, length};

use crate::context::{Context, Part};
use crate::files::output::{self, Output};
use crate::files::parts::{PartFile, Rights, make_in, sync_folder};
use faults::ToolFault;
use raster::{Page, write_pbm};
use std::alloc::{AllocError, Global};
use std::fs::File;
use std::io::{BufWriter, ErrorKind, Read, Write};
use std::{fs, io, slice};

/// How many octets of an image are written at once.
const WRITTEN_AT_ONCE: usize = 65536;

/// How many octets of an image that is there are compared at once.
const COMPARED_AT_ONCE: usize = 4096;

/// How many numbers are tried for the file of a page.
const MOST_NUMBERS: u64 = 1_000_000;

/// Writes pages as images, one after the other. Errors: `Io` (8) from the writer, `NoMemory` (9).
fn write_images<W: Write>(alloc: Global, pages: &[Page], output: &mut W) -> Result<(), ToolFault>
    requires { All (λ page. 0 < length page.rows) pages.now }
    ensures { IfErr result IsOutside }
{
    let mut writer = BufWriter::with_capacity(alloc, WRITTEN_AT_ONCE, output)?;
    write_pbm(pages, &mut writer)?;
    writer.flush()?;
    Ok(())
}

/// Writes pages as the images of an output. If they can't be written, no file of them is left. Errors: `Io` (8), and that is noted;
/// `NoMemory` (9).
pub fn save_images(context: &mut Context<'_>, name: &str, pages: &[Page]) -> Result<(), ToolFault>
    requires { All (λ page. 0 < length page.rows) pages.now }
    ensures { IfErr result IsOutside }
{
    let output = output::open(context, Part::Output, name)?;
    end_images(context, output, pages)
}

/// Writes pages as the images of a new file, whose name the program makes up: see `output::open_new`. If they can't be written, no file of them
/// is left. Errors: `Io` (8) if that is so or something is there, and that is noted; `NoMemory` (9).
pub fn save_new_images(
    context: &mut Context<'_>,
    name: &str,
    pages: &[Page],
) -> Result<(), ToolFault>
    requires { All (λ page. 0 < length page.rows) pages.now }
    ensures { IfErr result IsOutside }
{
    let output = output::open_new(context, Part::Output, name)?;
    end_images(context, output, pages)
}

/// Writes pages as `save_new_images` does, unless the file is there already with the same octets, or another run makes it meanwhile. Errors: as
/// its.
pub fn save_missing_images(
    context: &mut Context<'_>,
    name: &str,
    pages: &[Page],
) -> Result<(), ToolFault>
    requires { All (λ page. 0 < length page.rows) pages.now }
    ensures { IfErr result IsOutside }
{
    if are_there(context.rt(), name, pages) {
        return Ok(());
    }
    match save_new_images(context, name, pages) {
        Err(_fault) if are_there(context.rt(), name, pages) => Ok(()),
        done => done,
    }
}

/// Returns whether a regular file of this name, and no link, has the images of pages and no octet more.
fn are_there(rt: &HostRuntime, name: &str, pages: &[Page]) -> bool
    requires { All (λ page. 0 < length page.rows) pages.now }
{
    match fs::symlink_metadata(rt, name) {
        Ok(found) if found.is_file() => {}
        Ok(_) | Err(_) => return false,
    }
    let Ok(file) = File::open(rt, name) else {
        return false;
    };
    let mut there = OctetsThere { file };
    let written = write_images(rt.alloc(), pages, &mut there);
    written.is_ok() && there.is_at_end()
}

/// A file that is compared with what would be written on it.
#[derive(Drop)]
struct OctetsThere {
    file: File,
}

impl OctetsThere {
    /// Whether it has no octet more.
    fn is_at_end(&mut self) -> bool {
        let mut octet = [0u8; 1];
        matches!(self.file.read(&mut octet), Ok(0))
    }
}

impl Write for OctetsThere {
    /// Reads as many octets as these, 4,096 at most. Errors: they are others, or the system's.
    fn write(&mut self, octets: &[u8]) -> io::Result<usize> {
        let mut there = [0u8; COMPARED_AT_ONCE];
        let count = octets.len().min(COMPARED_AT_ONCE);
        self.file.read_exact(&mut there[..count])?;
        if there[..count] != octets[..count] {
            return Err(io::Error::from(ErrorKind::AlreadyExists));
        }
        Ok(count)
    }

    fn flush(&mut self) -> io::Result<()> {
        Ok(())
    }
}

/// Writes pages as the images of an output, and ends it. Errors: `Io` (8), and that is noted; `NoMemory` (9).
fn end_images(
    context: &mut Context<'_>,
    output: Output<'_>,
    pages: &[Page],
) -> Result<(), ToolFault>
    requires { All (λ page. 0 < length page.rows) pages.now }
    ensures { IfErr result IsOutside }
{
    let mut output = output;
    let written = write_images(context.alloc(), pages, &mut output);
    output.end(written.is_ok(), context)?;
    written
}

/// Why a page isn't stored: the fault, and why its file can't be written, if that is so.
#[derive(Clone, Copy, Debug, PartialEq, Eq)]
pub struct NotStored {
    /// The fault.
    pub fault: ToolFault,
    /// Why its file can't be written.
    pub kind: Option<ErrorKind>,
}

impl NotStored {
    /// Notes why the file can't be written, and returns the fault.
    pub fn noted(self, context: &mut Context<'_>) -> ToolFault
        ensures { result ≡ self.fault }
    {
        if let Some(kind) = self.kind {
            context.blame(Part::Output, kind);
        }
        self.fault
    }
}

impl From<io::Error> for NotStored {
    ghost use Rattle.faults.specs.Faults.{IsOutside};

    ghost from_gives = { λ _ refused. IsOutside refused.fault };

    fn from(error: io::Error) -> NotStored {
        NotStored {
            kind: Some(error.kind()),
            fault: ToolFault::from(error),
        }
    }
}

/// The octets of a page's image. Errors: memory was refused.
pub fn image_octets(alloc: Global, page: &Page) -> Result<u64, AllocError>
    ensures { IfOk result (λ octets. octets ≡ image_octets page.now) }
{
    let rows = page.rows().len();
    let header = format!(in alloc; "P4\n{} {rows}\n", page.width())?;
    let stride = ((page.width() + 7) / 8) as usize;
    Ok((header.len() + stride * rows) as u64)
}

/// Stores a page: writes it into a new file of these rights in a folder, `page-N.pbm` with the first free number from this one on, and
/// returns the number. The file has that name only once it is whole and synced; then the folder is synced. If that fails, no file of it is left.
/// Errors: `Io` (8), `NoMemory` (9).
pub fn store_page(
    rt: &HostRuntime,
    folder: &str,
    rights: Rights,
    first: u64,
    page: &Page,
) -> Result<u64, NotStored>
    requires { 0 < length page.now.rows }
    ensures number { IfOk result (λ number. first ≤ number) }
    ensures fault { IfErr result (λ refused. IsOutside refused.fault) }
{
    let mut made = make_in(rt, folder, rights)?;
    let stored = sync_page(rt, folder, first, page, &mut made);
    // it is the page's file by another name, or isn't whole
    let _removed = made.remove(rt);
    let PageFile { name, number } = stored?;
    match sync_folder(rt, folder) {
        Ok(()) => Ok(number),
        Err(error) => {
            let _removed = fs::remove_file(rt, name.as_str());
            Err(NotStored::from(error))
        }
    }
}

/// Hands a page over: writes it as `store_page` does, and syncs neither the file nor the folder. If that fails, no file of it is left. Errors:
/// `Io` (8), `NoMemory` (9).
pub fn hand_page(
    rt: &HostRuntime,
    folder: &str,
    rights: Rights,
    first: u64,
    page: &Page,
) -> Result<u64, NotStored>
    requires { 0 < length page.now.rows }
    ensures number { IfOk result (λ number. first ≤ number) }
    ensures fault { IfErr result (λ refused. IsOutside refused.fault) }
{
    let mut made = make_in(rt, folder, rights)?;
    let handed = fill_page(rt, page, &mut made);
    let named = match handed {
        Ok(()) => name_page(rt, folder, first, &made).map_err(NotStored::from),
        Err(refused) => Err(refused),
    };
    let _removed = made.remove(rt);
    Ok(named?.number)
}

/// The file of a page.
#[derive(Drop)]
struct PageFile {
    name: String,
    number: u64,
}

/// Writes a page into a part file and syncs that, and gives it the first free name of a page from this number on.
fn sync_page(
    rt: &HostRuntime,
    folder: &str,
    first: u64,
    page: &Page,
    made: &mut PartFile,
) -> Result<PageFile, NotStored>
    requires { 0 < length page.now.rows }
    ensures number { IfOk result (λ file. first ≤ file.number) }
    ensures fault { IfErr result (λ refused. IsOutside refused.fault) }
{
    fill_page(rt, page, made)?;
    made.sync()?;
    Ok(name_page(rt, folder, first, made)?)
}

/// Writes a page into a part file.
fn fill_page(rt: &HostRuntime, page: &Page, made: &mut PartFile) -> Result<(), NotStored>
    requires { 0 < length page.now.rows }
    ensures { IfErr result (λ refused. IsOutside refused.fault) }
{
    match write_images(rt.alloc(), slice::from_ref(page), made) {
        Ok(()) => Ok(()),
        Err(fault) => {
            let kind = made.failed();
            Err(NotStored { fault, kind })
        }
    }
}

/// Gives a part file the first free name of a page from this number on. Errors: the system's.
fn name_page(rt: &HostRuntime, folder: &str, first: u64, made: &PartFile) -> io::Result<PageFile>
    ensures { IfOk result (λ file. first ≤ file.number) }
{
    for number in first..=first.saturating_add(MOST_NUMBERS) {
        let name = format!(in rt.alloc(); "{folder}/page-{number}.pbm")?;
        if made.put_free(rt, name.as_str())? {
            return Ok(PageFile { name, number });
        }
    }
    Err(io::Error::from(ErrorKind::AlreadyExists))
}
