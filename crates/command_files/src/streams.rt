//! Standard output and standard error, where nothing is written past the size that this process may give a file.

ghost use Rattle.command_files.specs.Bounds.{IsRoomBelow, next_place};
ghost use Rattle.std.specs.Prelude.{◌≡◌, ◌≤◌, IfOk, length};

use crate::files::limited::{check_room, passes, room_below, size_limit};
use crate::files::system_text::{TEXT_OCTETS, number_after, read_text};
use std::cell::Cell;
use std::io::Write;
use std::{fs, io};

/// An open file of this process, by what the system has of it; one without `/proc` has nothing.
#[derive(Clone, Copy)]
struct Descriptor {
    /// The name of the file itself.
    name: &'static str,
    /// The name of a text on it.
    about: &'static str,
}

/// Standard output.
const OUTPUT: Descriptor = Descriptor {
    name: "/proc/self/fd/1",
    about: "/proc/self/fdinfo/1",
};

/// Standard error.
const ERROR: Descriptor = Descriptor {
    name: "/proc/self/fd/2",
    about: "/proc/self/fdinfo/2",
};

/// The flag of a file that is written at its end (O_APPEND of Linux).
const APPENDS: u64 = 1024;

/// The system, with the most octets of the files that standard output and standard error are, if they are such and that is limited. Another
/// program may write there too, so the place is looked at before each write.
#[derive(Drop)]
pub struct Streams<'a> {
    rt: &'a HostRuntime,
    printed: Option<u64>,
    told: Option<u64>,
    is_cut: Cell<bool>,
}

impl<'a> Streams<'a> {
    /// The streams of this process.
    pub fn new(rt: &'a HostRuntime) -> Streams<'a> {
        Streams {
            rt,
            printed: most_of(rt, OUTPUT),
            told: most_of(rt, ERROR),
            is_cut: Cell::new(false),
        }
    }

    /// The system.
    pub fn rt(&self) -> &'a HostRuntime
        ensures { result ≡ self.now.rt }
    {
        self.rt
    }

    /// Writes octets on standard output. Errors: the system's; `FileTooLarge` if its file has no room for all of them, and then nothing is
    /// written.
    pub fn print(&self, octets: &[u8]) -> io::Result<usize>
        ensures { IfOk result (λ count. count ≤ length octets.now) }
    {
        check_room(room_of(self.rt, OUTPUT, self.printed), octets)?;
        io::writer(self.rt).write(octets)
    }

    /// Writes octets on standard error. If its file has no room for all of them, none is written, and that is noted: nothing else can be said.
    /// Errors: the system's.
    pub fn tell(&self, octets: &[u8]) -> io::Result<()> {
        if passes(room_of(self.rt, ERROR, self.told), octets) {
            self.is_cut.set(true);
            return Ok(());
        }
        self.rt.stderr().write_all(octets)
    }

    /// Whether something wasn't written on standard error since its file has no room for it.
    pub fn is_cut(&self) -> bool {
        self.is_cut.get()
    }
}

/// The most octets that the file of a descriptor may have, if that is limited. Only a regular file is.
fn most_of(rt: &HostRuntime, descriptor: Descriptor) -> Option<u64> {
    match fs::metadata(rt, descriptor.name) {
        Ok(found) if found.is_file() => size_limit(rt),
        Ok(_) | Err(_) => None,
    }
}

/// The room that is left in the file of a descriptor, if it may have at most so many octets. It has none if it isn't known where it is written.
fn room_of(rt: &HostRuntime, descriptor: Descriptor, most: Option<u64>) -> Option<u64>
    ensures { IsRoomBelow most result }
{
    let Some(_most) = most else {
        return None;
    };
    let place = place_of(rt, descriptor).unwrap_or(u64::MAX);
    room_below(most, place)
}

/// The place in its file that is written next by a descriptor, if that is known.
fn place_of(rt: &HostRuntime, descriptor: Descriptor) -> Option<u64> {
    let length = fs::metadata(rt, descriptor.name).ok()?.len();
    let mut octets = [0u8; TEXT_OCTETS];
    let text = read_text(rt, descriptor.about, &mut octets)?;
    let place = number_after(text, b"pos:", 10)?;
    let flags = number_after(text, b"flags:", 8)?;
    Some(next_place(length, place, flags))
}

/// The place in a file of this length that is written next, by where its descriptor stands and its flags.
fn next_place(length: u64, place: u64, flags: u64) -> u64
    ensures { result ≡ next_place length place flags }
{
    if flags / APPENDS % 2 == 1 {
        length
    } else {
        place
    }
}
