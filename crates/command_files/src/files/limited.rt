//! Files that are written up to the size that this process may give a file: the system ends a process that writes past it (SIGXFSZ).

ghost use Rattle.command_files.specs.Bounds.{IsRoomBelow, passes, room_below};
ghost use Rattle.std.specs.IoError.{error_kind};
ghost use Rattle.std.specs.Prelude.{◌≡◌, ◌&&◌, IfErr, IfOk, None, Some, false, if◌then◌else◌, length, nat_eq, nat_lt, true};
ghost use Rattle.std.specs.declared.io.ErrorKind.TheVariants.{FileTooLarge, WriteZero};

use crate::files::system_text::{TEXT_OCTETS, number_after, read_text};
use std::fs::File;
use std::io::{self, ErrorKind, Write};

/// The limits of this process, one a line; a system without it has no such file.
const LIMITS: &str = "/proc/self/limits";

/// What the line of the greatest size of a file begins with; the size in octets, or `unlimited`, comes next.
const SIZE_LIMIT: &[u8] = b"Max file size";

/// A file that this process alone writes, and the room that is left below the greatest size: how many octets more it may have, if that is
/// limited.
#[derive(Drop)]
pub struct LimitedFile {
    file: File,
    room: Option<u64>,
}

impl LimitedFile {
    /// The file, which is written from this octet on.
    pub fn new(rt: &HostRuntime, file: File, from: u64) -> LimitedFile {
        let room = room_below(most_of(rt, &file), from);
        LimitedFile { file, room }
    }

    /// The file itself.
    pub fn file(&self) -> &File {
        &self.file
    }
}

/// A file that is written at its end, maybe by other processes too, and the most octets that it may have, if that is limited.
#[derive(Drop)]
pub struct SharedFile {
    file: File,
    most: Option<u64>,
}

impl SharedFile {
    /// The file, which was opened to be written after what is there.
    pub fn new(rt: &HostRuntime, file: File) -> SharedFile {
        let most = most_of(rt, &file);
        SharedFile { file, most }
    }

    /// The room that is left in the file, if that is limited. It has none if its length isn't known.
    fn room(&self) -> Option<u64>
        ensures { IsRoomBelow self.now.most result }
    {
        let Some(_most) = self.most else {
            return None;
        };
        let length = self.file.metadata().map_or(u64::MAX, |found| found.len());
        room_below(self.most, length)
    }
}

/// The most octets that a file may have, if that is limited. Only a regular file is.
fn most_of(rt: &HostRuntime, file: &File) -> Option<u64> {
    match file.metadata() {
        Ok(found) if !found.is_file() => None,
        Ok(_) | Err(_) => size_limit(rt),
    }
}

/// The most octets that this process may give a file, if that is limited and known.
pub(crate) fn size_limit(rt: &HostRuntime) -> Option<u64> {
    let mut octets = [0u8; TEXT_OCTETS];
    let text = read_text(rt, LIMITS, &mut octets)?;
    number_after(text, SIZE_LIMIT, 10)
}

/// The room that is left in a file of so many octets, if it may have at most so many.
pub(crate) fn room_below(most: Option<u64>, length: u64) -> Option<u64>
    ensures { result ≡ room_below most length }
{
    most.map(|most| most.saturating_sub(length))
}

/// Whether octets would pass the room that is left in a file, if that is limited.
pub(crate) fn passes(room: Option<u64>, octets: &[u8]) -> bool
    ensures { result ≡ passes room octets.now }
{
    match room {
        Some(room) => room < octets.len() as u64,
        None => false,
    }
}

/// Checks that octets don't pass the room that is left in a file. Errors: `FileTooLarge`.
pub(crate) fn check_room(room: Option<u64>, octets: &[u8]) -> io::Result<()>
    ensures ok { IfOk result (λ done. passes room octets.now ≡ false) }
    ensures err { IfErr result (λ error. (passes room octets.now ≡ true) × (error_kind error ≡ FileTooLarge)) }
{
    if passes(room, octets) {
        return Err(io::Error::from(ErrorKind::FileTooLarge));
    }
    Ok(())
}

/// The room that is left in a file after these octets were written, if that is limited.
fn room_after(room: Option<u64>, written: &io::Result<usize>) -> Option<u64>
    ensures ok { IfOk written.now (λ count. result ≡ room_below room count) }
    ensures err { IfErr written.now (λ error. result ≡ room) }
{
    match written {
        Ok(count) => room_below(room, *count as u64),
        Err(_) => room,
    }
}

/// Why octets aren't written, if that is so.
pub(crate) fn why_failed(written: &io::Result<usize>, octets: &[u8]) -> Option<ErrorKind>
    ensures ok { IfOk written.now (λ count. result ≡ (if nat_eq count 0 && nat_lt 0 (length octets.now) then Some WriteZero else None)) }
    ensures err { IfErr written.now (λ error. result ≡ Some (error_kind error)) }
{
    match written {
        Ok(0) if !octets.is_empty() => Some(ErrorKind::WriteZero),
        Ok(_) => None,
        Err(error) => Some(error.kind()),
    }
}

impl Write for LimitedFile {
    fn write(&mut self, octets: &[u8]) -> io::Result<usize> {
        check_room(self.room, octets)?;
        let written = self.file.write(octets);
        self.room = room_after(self.room, &written);
        written
    }

    fn flush(&mut self) -> io::Result<()> {
        Ok(())
    }
}

impl Write for SharedFile {
    fn write(&mut self, octets: &[u8]) -> io::Result<usize> {
        check_room(self.room(), octets)?;
        self.file.write(octets)
    }

    fn flush(&mut self) -> io::Result<()> {
        Ok(())
    }
}
