//! Files that are read.

ghost use Rattle.faults.specs.Faults.{IsOutside};
ghost use Rattle.command_files.specs.Bounds.{AreNoImages, KeepsFirst, begins_image};
ghost use Rattle.raster.specs.Pbm.{AreImages};
ghost use Rattle.std.specs.Prelude.{◌≡◌, ◌⊎◌, ℕ, IfErr, IfOk, List};

use crate::context::{Context, Part};
use crate::files::STANDARD;
use crate::files::progress::{Progress, Watch};
use faults::ToolFault;
use raster::{Document, read_pbm};
use std::io::{ErrorKind, Read};
use std::{fs, io};

/// How many octets of the input are kept while it is read: those by which an image is known.
const FIRST_OCTETS: usize = 4;

/// A file or standard input.
#[derive(Drop)]
enum Origin {
    File(fs::File),
    Standard(<HostRuntime as io::Input>::Reader),
}

/// A file or standard input as it is read: how far that is, why it failed, whether octets came and perhaps not the last
/// ones, and the first octets.
#[derive(Drop)]
pub struct Source<'a> {
    from: Origin,
    part: Part,
    progress: Progress<'a>,
    failed: Option<ErrorKind>,
    is_open: bool,
    image: bool,
    room: usize,
    octets: Vec<u8>,
}

impl Read for Source<'_> {
    fn read(&mut self, octets: &mut [u8]) -> io::Result<usize> {
        if self.image && !begins_image(self.octets.as_slice()) {
            // what follows can't make an image of it, however long it is
            self.is_open = false;
            return Ok(0);
        }
        let read = match &mut self.from {
            Origin::File(file) => file.read(octets),
            Origin::Standard(input) => input.read(octets),
        };
        match &read {
            Ok(count) => {
                self.failed = None;
                self.is_open = *count > 0;
                self.progress.read(*count);
                self.keep(octets.get(..*count).unwrap_or(&[]));
            }
            Err(error) => self.failed = Some(error.kind()),
        }
        read
    }
}

impl Source<'_> {
    /// Keeps the first octets that were read. If there is no memory for them, no later ones are kept.
    fn keep(&mut self, read: &[u8])
        ensures { KeepsFirst self.old.room self.old.octets.items read.now self.new.octets.items }
    {
        let kept = read.get(..self.room.min(read.len())).unwrap_or(&[]);
        if self.octets.extend_from_slice(kept).is_ok() {
            self.room = self.room.saturating_sub(kept.len());
        } else {
            self.room = 0;
        }
    }

    /// Notes what was read and why it failed.
    pub fn close(self, context: &mut Context<'_>) {
        let Source {
            from: _,
            part,
            progress,
            failed,
            is_open,
            image: _,
            room: _,
            octets,
        } = self;
        progress.end();
        if is_open {
            context.note_unread(part);
        }
        if let Some(kind) = failed {
            context.blame(part, kind);
        }
        if part == Part::Input {
            context.keep_octets(octets);
        }
    }
}

/// Returns whether an image may begin with these octets.
fn begins_image(octets: &[u8]) -> bool
    ensures { result ≡ begins_image octets.now }
{
    match octets {
        [] | [80] | [80, 52, ..] => true,
        _ => false,
    }
}

/// What a file is read as.
#[derive(Clone, Copy, PartialEq, Eq)]
enum Kind {
    /// An image: if the file doesn't begin as one, its first octets are all that is read.
    Image,
    /// Any octets.
    Octets,
}

/// A file or standard input, opened for reading. Errors: `Io` (8) if it can't be opened, and that is noted.
pub fn open<'a>(
    context: &mut Context<'a>,
    name: &str,
    part: Part,
    watch: Watch,
) -> Result<Source<'a>, ToolFault>
    ensures { IfErr result IsOutside }
{
    open_as(context, name, part, watch, Kind::Octets)
}

/// The input, opened as an image: if it doesn't begin as one, its first octets are all that is read. Errors: `Io` (8) if it can't be opened,
/// and that is noted.
pub fn open_image<'a>(
    context: &mut Context<'a>,
    name: &str,
    watch: Watch,
) -> Result<Source<'a>, ToolFault>
    ensures { IfErr result IsOutside }
{
    open_as(context, name, Part::Input, watch, Kind::Image)
}

fn open_as<'a>(
    context: &mut Context<'a>,
    name: &str,
    part: Part,
    watch: Watch,
    kind: Kind,
) -> Result<Source<'a>, ToolFault>
    ensures { IfErr result IsOutside }
{
    let rt = context.rt();
    let from = if name == STANDARD {
        Origin::Standard(rt.reader())
    } else {
        Origin::File(context.checked(fs::open(rt, name), part)?)
    };
    Ok(Source {
        from,
        part,
        progress: Progress::new(rt, watch),
        failed: None,
        is_open: false,
        image: kind == Kind::Image,
        room: FIRST_OCTETS,
        octets: Vec::new(rt.alloc()),
    })
}

/// Reads the images of the input as a document, whose lines are `fine` or not, and keeps only its first octets beside that. If the input
/// doesn't begin as an image, these are all that is read. Errors: the first fault of the images; `Io` (8) if it can't be read, and that is
/// noted; `NoMemory` (9).
pub fn read_document(
    context: &mut Context<'_>,
    input: &str,
    watch: Watch,
    fine: bool,
) -> Result<Document, ToolFault>
    ensures found { IfOk result (λ document. (octets : List ℕ) × AreImages fine octets document) }
    ensures fault { IfErr result (λ fault. IsOutside fault ⊎ ((octets : List ℕ) × AreNoImages fine octets fault)) }
{
    let mut source = open_image(context, input, watch)?;
    let read = read_pbm(context.alloc(), &mut source, fine);
    source.close(context);
    Ok(read?)
}
