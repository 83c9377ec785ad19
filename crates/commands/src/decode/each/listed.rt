//! The names of files in a list, one after another: memory doesn't grow with their number.

ghost use Rattle.commands.specs.Listed.{end_octet, without_end};
ghost use Rattle.faults.specs.Faults.{IsOutside};
ghost use Rattle.std.specs.Prelude.{◌≡◌, IfErr};

use crate::names::untold_name;
use command_files::context::{Context, Part};
use command_files::files::input::{self, Source};
use command_files::files::progress::Watch;
use faults::{FAILED, ToolFault};
use std::alloc::{AllocError, Global};
use std::io::{BufRead, BufReader, ErrorKind, Read};

/// The most octets of a name, with its end: a hundred times those that Linux has.
const MOST_OCTETS: u64 = 409_600;

/// How many octets of a list are read at once.
const READ_AT_ONCE: usize = 65536;

/// A list of names.
#[derive(Debug, PartialEq, Eq, Drop)]
pub struct NameList {
    /// The name of the file that has them; `-` for standard input.
    pub file: String,
    /// Whether each ends with an octet of 0, as `find -print0` writes them, and not with LF.
    pub null: bool,
}

/// Returns the octet that ends each name.
fn end_octet(null: bool) -> u8
    ensures { result ≡ end_octet null }
{
    if null { 0 } else { b'\n' }
}

/// Returns a name without the octet that ends it; the last one may have none.
fn without_end(octets: &[u8], end: u8) -> &[u8]
    ensures { result.now ≡ without_end octets.now end }
{
    match octets {
        [name @ .., last] if *last == end => name,
        _ => octets,
    }
}

/// A list that is read.
#[derive(Drop)]
pub(crate) struct Names<'a> {
    reader: BufReader<Source<'a>>,
    end: u8,
    octets: Vec<u8>,
}

impl<'a> Names<'a> {
    /// Opens a list. Errors: `Io` (8) if it can't be opened, and that is noted; `NoMemory` (9).
    pub(crate) fn open(context: &mut Context<'a>, list: &NameList) -> Result<Names<'a>, ToolFault>
        ensures { IfErr result IsOutside }
    {
        let alloc = context.alloc();
        let source = input::open(context, list.file.as_str(), Part::Script, Watch::Silent)?;
        Ok(Names {
            reader: BufReader::with_capacity(alloc, READ_AT_ONCE, source)?,
            end: end_octet(list.null),
            octets: Vec::new(alloc),
        })
    }

    /// Returns the next name, which may be empty; what stands for it, if it isn't UTF-8; None after the last one. Errors: `Io` (8) if the
    /// list can't be read, or a name has too many octets, and that is noted; `NoMemory` (9).
    pub(crate) fn next_in(&mut self, context: &mut Context<'_>) -> Result<Option<String>, ToolFault>
        ensures { IfErr result IsOutside }
    {
        self.octets.clear();
        let mut piece = self.reader.by_ref().take(MOST_OCTETS);
        let read = piece.read_until(self.end, &mut self.octets);
        let count = context.checked(read, Part::Script)?;
        if count == 0 {
            return Ok(None);
        }
        if count as u64 >= MOST_OCTETS {
            context.blame(Part::Script, ErrorKind::InvalidData);
            return Err(FAILED);
        }
        let name = without_end(self.octets.as_slice(), self.end);
        Ok(Some(told_name(context.alloc(), name)?))
    }
}

/// Returns a name as text, or what stands for it. Errors: memory was refused.
fn told_name(alloc: Global, octets: &[u8]) -> Result<String, AllocError> {
    if let Ok(text) = str::from_utf8(octets) {
        return String::from_str(alloc, text);
    }
    let name = untold_name(alloc, octets)?;
    // all its octets are ASCII
    String::from_str(alloc, str::from_utf8(name.as_slice()).unwrap_or("\0"))
}
