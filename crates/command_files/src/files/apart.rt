//! The files of a command that have to be apart: no two that are written are the same file, nor one that is read and one that is written.

ghost use Rattle.command_files.specs.Apart.{AddsFiles, AreApart, AreFirstTwo, IsApartFrom, IsFirstLike, SaysFirstTwo, are_both_printed};
ghost use Rattle.command_files.specs.Apart.{are_one, bits_in, is_same, may_be_written, octets_in, printed, read_as};
ghost use Rattle.command_files.specs.Apart.{written_as};
ghost use Rattle.std.specs.Prelude.{◌≡◌, ◌∷◌, [], MatchOption, OnOk, codes, option_map};

use crate::files::STANDARD;
use std::alloc::AllocError;
use std::fs::{self, Files};
use std::os::unix::fs::{FileTypeExt, MetadataExt};
use std::{fmt, io};

/// How many links are followed to a file that isn't there yet.
const MOST_LINKS: u32 = 40;

/// A file that a command reads or writes.
#[derive(Drop)]
struct CommandFile {
    /// What the words of the command call it.
    role: &'static str,
    name: String,
    is_written: bool,
    identity: Identity,
}

/// Which file of the system a name leads to.
#[derive(Drop)]
enum Identity {
    /// The regular file or pipe of this device and number.
    File(u64, u64),
    /// A new file of this name in the folder of this device and number.
    New(u64, u64, String),
    /// None that could be written over: a device, a socket or a folder, or one that can't be looked at.
    Other,
}

/// The files of a command, as they are named.
#[derive(Drop)]
pub struct CommandFiles<'a> {
    rt: &'a HostRuntime,
    files: Vec<CommandFile>,
}

/// Two files of a command that aren't apart, by what its words call them.
#[derive(Clone, Copy, Debug, PartialEq, Eq)]
pub struct NotApart {
    one: &'static str,
    other: &'static str,
    are_printed: bool,
}

impl fmt::Display for NotApart {
    fn fmt<W: fmt::Write>(&self, f: &mut fmt::Formatter<W>) -> fmt::Result {
        if self.are_printed {
            return write!(
                f,
                "{} and {} can't both go to standard output",
                self.one, self.other
            );
        }
        write!(f, "{} and {} are the same file", self.one, self.other)
    }
}

impl<'a> CommandFiles<'a> {
    /// No files yet.
    pub fn new(rt: &'a HostRuntime) -> CommandFiles<'a>
        ensures { result.files.items ≡ [] }
    {
        CommandFiles {
            rt,
            files: Vec::new(rt.alloc()),
        }
    }

    /// The first two files that aren't apart; None if any two are.
    pub fn not_apart(&self) -> Option<NotApart>
        ensures { MatchOption result (AreApart self.now.files.items) (λ said. SaysFirstTwo said self.now.files.items) }
    {
        let (one, other) = first_two(self.files.as_slice())?;
        Some(NotApart {
            one: one.role,
            other: other.role,
            are_printed: are_both_printed(one, other),
        })
    }

    fn add(&mut self, role: &'static str, name: &str, is_written: bool) -> Result<(), AllocError>
        ensures { OnOk result (AddsFiles (record { role = role.now; name = name.now; is_written = is_written } ∷ [])
            self.old.files.items self.new.files.items) }
    {
        let alloc = self.rt.alloc();
        let identity = identity_of(self.rt, name, is_written)?;
        let name = String::from_str(alloc, name)?;
        let file = CommandFile {
            role,
            name,
            is_written,
            identity,
        };
        self.files.push(file)?;
        Ok(())
    }

    /// Adds a file that is read. Errors: memory was refused.
    pub fn reads(&mut self, role: &'static str, name: &str) -> Result<(), AllocError>
        ensures { OnOk result (AddsFiles (read_as role.now name.now ∷ []) self.old.files.items self.new.files.items) }
    {
        self.add(role, name, false)
    }

    /// Adds a file that is written. Errors: memory was refused.
    pub fn writes(&mut self, role: &'static str, name: &str) -> Result<(), AllocError>
        ensures { OnOk result (AddsFiles (written_as role.now name.now ∷ []) self.old.files.items self.new.files.items) }
    {
        self.add(role, name, true)
    }

    /// Adds a file that is written, if one is named. Errors: memory was refused.
    pub fn may_write(&mut self, role: &'static str, name: Option<&str>) -> Result<(), AllocError>
        ensures { OnOk result (AddsFiles (may_be_written role.now (option_map (λ name. name.now) name.entry))
            self.old.files.items self.new.files.items) }
    {
        match name {
            Some(name) => self.writes(role, name),
            None => Ok(()),
        }
    }

    /// Adds standard output, which what is printed goes to. Errors: memory was refused.
    pub fn prints(&mut self) -> Result<(), AllocError>
        ensures { OnOk result (AddsFiles (printed ∷ []) self.old.files.items self.new.files.items) }
    {
        self.writes("what is printed", STANDARD)
    }

    /// Adds the files of a call's octets, in the folder of `--bits`, if it is named. Errors: memory was refused.
    pub fn may_write_bits(&mut self, folder: Option<&str>) -> Result<(), AllocError>
        ensures { OnOk result (AddsFiles (bits_in (option_map (λ folder. folder.now) folder.entry))
            self.old.files.items self.new.files.items) }
    {
        let Some(folder) = folder else {
            return Ok(());
        };
        self.writes_bits(folder, "to-answerer.bits")?;
        self.writes_bits(folder, "to-caller.bits")
    }

    fn writes_bits(&mut self, folder: &str, name: &str) -> Result<(), AllocError>
        ensures { OnOk result (AddsFiles (octets_in folder.now name.now ∷ []) self.old.files.items self.new.files.items) }
    {
        let name = format!(in self.rt.alloc(); "{folder}/{name}")?;
        self.writes("a file of --bits", name.as_str())
    }
}

/// Returns the first two files that aren't apart; None if any two are.
fn first_two(files: &[CommandFile]) -> Option<(&CommandFile, &CommandFile)>
    ensures { MatchOption result (AreApart files.now) (λ two. AreFirstTwo two.0.now two.1.now files.now) }
{
    let mut left = files;
    while let [file, more @ ..] = left {
        if let Some(other) = first_like(file, more) {
            return Some((file, other));
        }
        left = more;
    }
    None
}

/// Returns the first file that isn't apart from another one; None if that is apart from each.
fn first_like<'a>(file: &CommandFile, files: &'a [CommandFile]) -> Option<&'a CommandFile>
    ensures { MatchOption result (IsApartFrom file.now files.now) (λ other. IsFirstLike file.now other.now files.now) }
{
    let mut left = files;
    while let [other, more @ ..] = left {
        if are_one(file, other) {
            return Some(other);
        }
        left = more;
    }
    None
}

/// Returns which file a name leads to. Errors: memory was refused.
fn identity_of(rt: &HostRuntime, name: &str, is_written: bool) -> Result<Identity, AllocError> {
    let is_standard = name == STANDARD;
    let found = if !is_standard {
        fs::metadata(rt, name)
    } else if is_written {
        fs::metadata(rt, "/dev/stdout")
    } else {
        fs::metadata(rt, "/dev/stdin")
    };
    match found {
        Ok(found) if found.is_file() || found.file_type().is_fifo() => {
            Ok(Identity::File(found.dev(), found.ino()))
        }
        Ok(_) => Ok(Identity::Other),
        Err(error) if error.kind() == io::ErrorKind::NotFound && is_written && !is_standard => {
            new_file(rt, name)
        }
        Err(_) => Ok(Identity::Other),
    }
}

/// Returns the place of a file that isn't there yet, after all links that lead to it. Errors: memory was refused.
fn new_file(rt: &HostRuntime, name: &str) -> Result<Identity, AllocError> {
    let mut name = String::from_str(rt.alloc(), name)?;
    for _followed in 0..MOST_LINKS {
        match rt.read_link(rt.alloc(), name.as_str()) {
            Ok(target) => name = beside(rt, name.as_str(), target.as_path().as_str())?,
            Err(error) if error.kind() == io::ErrorKind::OutOfMemory => return Err(AllocError),
            Err(_) => return in_folder(rt, name.as_str()),
        }
    }
    Ok(Identity::Other)
}

/// Returns the name of what a link leads to.
fn beside(rt: &HostRuntime, link: &str, target: &str) -> Result<String, AllocError> {
    match link.rsplit_once('/') {
        Some((folder, _)) if !target.starts_with('/') => {
            format!(in rt.alloc(); "{folder}/{target}")
        }
        _ => String::from_str(rt.alloc(), target),
    }
}

/// Returns the place of a new file in its folder. Errors: memory was refused.
fn in_folder(rt: &HostRuntime, name: &str) -> Result<Identity, AllocError> {
    let (folder, last) = match name.rsplit_once('/') {
        Some(("", last)) => ("/", last),
        Some((folder, last)) => (folder, last),
        None => (".", name),
    };
    match fs::metadata(rt, folder) {
        Ok(found) => {
            let last = String::from_str(rt.alloc(), last)?;
            Ok(Identity::New(found.dev(), found.ino(), last))
        }
        Err(_) => Ok(Identity::Other),
    }
}

/// Returns whether two files of a command aren't apart: one of them is written, and they are the same file or both standard output.
fn are_one(one: &CommandFile, other: &CommandFile) -> bool
    ensures { result ≡ are_one one.now other.now }
{
    if !one.is_written && !other.is_written {
        return false;
    }
    are_both_printed(one, other) || is_same(&one.identity, &other.identity)
}

/// Returns whether two files are both standard output.
fn are_both_printed(one: &CommandFile, other: &CommandFile) -> bool
    ensures { result ≡ are_both_printed one.now other.now }
{
    let are_written = one.is_written && other.is_written;
    are_written && one.name.as_str() == STANDARD && other.name.as_str() == STANDARD
}

fn is_same(one: &Identity, other: &Identity) -> bool
    ensures { result ≡ is_same one.now other.now }
{
    match (one, other) {
        (Identity::File(device, number), Identity::File(other_device, other_number)) => {
            device == other_device && number == other_number
        }
        (
            Identity::New(device, number, last),
            Identity::New(other_device, other_number, other_last),
        ) => { device == other_device && number == other_number && last == other_last }
        _ => false,
    }
}
