//! A line for standard error that is written by one call.

use crate::streams::Streams;
use arrayvec::ArrayVec;
use std::fmt::Display;
use std::io;
use std::io::Write;

/// How many octets of a line are kept until it is written.
const MOST_KEPT: usize = 4096;

/// What is written in place of a record for which memory was refused.
const UNSHOWN: &[u8] = b"{\"notice\":\"memory was refused: a record isn't shown\"}\n";

/// Writes a text as a line on standard error.
pub fn write_line<T: Display>(streams: &Streams<'_>, text: &T) {
    let mut line = ErrorLine::new(streams);
    let made = writeln!(line, "{text}");
    line.end(made);
}

/// A line for standard error. It is written once it is flushed, by one call if it has at most 4,096 octets: so programs that share a log don't
/// write into each other's lines. It takes no memory from an allocator.
#[derive(Drop)]
pub struct ErrorLine<'a> {
    streams: &'a Streams<'a>,
    octets: ArrayVec<u8, MOST_KEPT>,
}

impl<'a> ErrorLine<'a> {
    /// A line without octets.
    pub fn new(streams: &'a Streams<'a>) -> ErrorLine<'a> {
        ErrorLine {
            streams,
            octets: ArrayVec::new(),
        }
    }

    /// Writes the line. In place of a record for which memory was refused it says that one isn't shown.
    pub fn end<E: Drop>(mut self, made: Result<(), E>) {
        if made.is_err() {
            let _kept = self.write_all(UNSHOWN);
        }
        let _written = self.write_kept();
    }

    /// Writes the octets that are kept, and keeps none.
    fn write_kept(&mut self) -> io::Result<()> {
        let written = self.streams.tell(self.octets.as_slice());
        self.octets.clear();
        written
    }
}

impl Write for ErrorLine<'_> {
    fn write(&mut self, octets: &[u8]) -> io::Result<usize> {
        if octets.len() > self.octets.remaining_capacity() {
            self.write_kept()?;
        }
        match self.octets.try_extend_from_slice(octets) {
            Ok(()) => Ok(octets.len()),
            Err(_longer) => {
                self.streams.tell(octets)?;
                Ok(octets.len())
            }
        }
    }

    fn flush(&mut self) -> io::Result<()> {
        self.write_kept()
    }
}
