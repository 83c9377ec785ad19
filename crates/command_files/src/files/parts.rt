//! Part files: new files under names by chance, each of which gets another name once it is whole.

ghost use Rattle.std.specs.Prelude.{◌≡◌};

use crate::files::limited::{LimitedFile, why_failed};
use std::fs::{File, OpenOptions, Permissions, TryLockError};
use std::io::{ErrorKind, Write};
use std::os::unix::fs::{OpenOptionsExt, PermissionsExt};
use std::random::RandomSource;
use std::{fs, io};

/// How many names are tried for a part file.
const MOST_NAMES: u32 = 100;

/// How often a call is tried that signals interrupt.
const MOST_TRIES: u32 = 1000;

/// Who may read and write a new file.
#[derive(Clone, Copy, Debug, PartialEq, Eq)]
pub enum Rights {
    /// Who the umask lets.
    Umask,
    /// Its owner alone.
    Private,
    /// Whom these nine bits let, whatever the umask is.
    Mode(u32),
}

/// A part file that this run has made, its name, and why writing it failed. It is locked as long as it is open.
#[derive(Drop)]
pub struct PartFile {
    file: LimitedFile,
    name: String,
    failed: Option<ErrorKind>,
}

/// Makes a new file in a folder, under a name by chance. It has its rights before its first octet. Errors: the system's.
pub fn make_in(rt: &HostRuntime, folder: &str, rights: Rights) -> io::Result<PartFile> {
    for _ in 0..MOST_NAMES {
        let name = name_in(rt, folder, "part")?;
        let Some(file) = make(rt, name.as_str(), rights)? else {
            continue;
        };
        if keeps(&file) {
            let made = PartFile {
                file: LimitedFile::new(rt, file, 0),
                name,
                failed: None,
            };
            return made.with(rt, rights);
        }
    }
    Err(io::Error::from(ErrorKind::AlreadyExists))
}

/// A name by chance in a folder, which ends with this. Errors: the system gives no random octets; memory was refused.
pub fn name_in(rt: &HostRuntime, folder: &str, ending: &str) -> io::Result<String> {
    let mut octets = [0u8; 8];
    rt.fill_bytes(&mut octets)?;
    let chance = u64::from_le_bytes(octets);
    Ok(format!(in rt.alloc(); "{folder}/faxtool-{chance:016x}.{ending}")?)
}

/// Makes a new file if its name is free: nothing that is there is opened, neither a file nor what a link leads to. Errors: the system's.
fn make(rt: &HostRuntime, name: &str, rights: Rights) -> io::Result<Option<File>> {
    let mut options = OpenOptions::new();
    options.write(true).create_new(true);
    match rights {
        Rights::Umask => {}
        Rights::Private | Rights::Mode(_) => {
            options.mode(0o600);
        }
    }
    match options.open(rt, name) {
        Ok(file) => Ok(Some(file)),
        Err(error) if error.kind() == ErrorKind::AlreadyExists => Ok(None),
        Err(error) => Err(error),
    }
}

/// Locks a new file. Returns false if another process has locked it, which removes it; true also on a file system without locks.
fn keeps(file: &File) -> bool {
    match file.try_lock() {
        Ok(()) | Err(TryLockError::Error(_)) => true,
        Err(TryLockError::WouldBlock) => false,
    }
}

/// Links a file to a further name, which is free. Errors: the system's, but `Interrupted` only after many tries.
fn link(rt: &HostRuntime, name: &str, place: &str) -> io::Result<()> {
    for _ in 0..MOST_TRIES {
        match fs::hard_link(rt, name, place) {
            Err(error) if error.kind() == ErrorKind::Interrupted => {}
            done => return done,
        }
    }
    Err(io::Error::from(ErrorKind::Interrupted))
}

/// Renames a file; what is at the place is replaced. Errors: the system's, but `Interrupted` only after many tries.
fn rename(rt: &HostRuntime, name: &str, place: &str) -> io::Result<()> {
    for _ in 0..MOST_TRIES {
        match fs::rename(rt, name, place) {
            Err(error) if error.kind() == ErrorKind::Interrupted => {}
            done => return done,
        }
    }
    Err(io::Error::from(ErrorKind::Interrupted))
}

/// Removes a file's name. Errors: the system's, but `Interrupted` only after many tries.
pub fn remove(rt: &HostRuntime, name: &str) -> io::Result<()> {
    for _ in 0..MOST_TRIES {
        match fs::remove_file(rt, name) {
            Err(error) if error.kind() == ErrorKind::Interrupted => {}
            done => return done,
        }
    }
    Err(io::Error::from(ErrorKind::Interrupted))
}

impl PartFile {
    /// Why writing it failed, if it did.
    pub fn failed(&self) -> Option<ErrorKind>
        ensures { result ≡ self.now.failed }
    {
        self.failed
    }

    /// The file with the mode of its rights, if they are one. If it can't have it, it is removed. Errors: the system's.
    fn with(self, rt: &HostRuntime, rights: Rights) -> io::Result<PartFile> {
        match rights {
            Rights::Umask | Rights::Private => Ok(self),
            Rights::Mode(mode) => self.permitted(rt, Permissions::from_mode(mode)),
        }
    }

    /// The file with these permissions. If it can't have them, it is removed. Errors: the system's.
    pub fn permitted(self, rt: &HostRuntime, permissions: Permissions) -> io::Result<PartFile> {
        match self.file.file().set_permissions(permissions) {
            Ok(()) => Ok(self),
            Err(error) => {
                let _removed = self.remove(rt);
                Err(error)
            }
        }
    }

    /// Removes the part file's name, if it has it still; under another name the file stays. Errors: the system's.
    pub fn remove(self, rt: &HostRuntime) -> io::Result<()> {
        match remove(rt, self.name.as_str()) {
            Err(error) if error.kind() == ErrorKind::NotFound => Ok(()),
            done => done,
        }
    }

    /// Syncs the file. Errors: the system's.
    pub fn sync(&self) -> io::Result<()> {
        self.file.file().sync_all()
    }

    /// Syncs the file and renames it to a place; what is there is replaced. Errors: the system's, and then the place is as it was.
    pub fn put(&self, rt: &HostRuntime, place: &str) -> io::Result<()> {
        self.sync()?;
        rename(rt, self.name.as_str(), place)
    }

    /// Gives the file the name of a place as `put_free` does. Errors: the system's, `AlreadyExists` if something is there.
    pub fn put_new(&self, rt: &HostRuntime, place: &str) -> io::Result<()> {
        if self.put_free(rt, place)? {
            return Ok(());
        }
        Err(io::Error::from(ErrorKind::AlreadyExists))
    }

    /// Gives the file the name of a place if nothing is there, not even a link that leads nowhere. Returns whether that is so. Errors: the
    /// system's, and then the place is as it was.
    pub fn put_free(&self, rt: &HostRuntime, place: &str) -> io::Result<bool> {
        match link(rt, self.name.as_str(), place) {
            Ok(()) => Ok(true),
            Err(error) => match error.kind() {
                ErrorKind::AlreadyExists => Ok(false),
                // there are file systems without links, or with few of a file
                ErrorKind::PermissionDenied | ErrorKind::Unsupported | ErrorKind::TooManyLinks => {
                    self.put_reserved(rt, place)
                }
                _ => Err(error),
            },
        }
    }

    /// Does what `put_free` does without a link: an empty file takes the name first, which only one process can make, and the file replaces it.
    fn put_reserved(&self, rt: &HostRuntime, place: &str) -> io::Result<bool> {
        if make(rt, place, Rights::Private)?.is_none() {
            return Ok(false);
        }
        match rename(rt, self.name.as_str(), place) {
            Ok(()) => Ok(true),
            Err(error) => {
                let _removed = remove(rt, place);
                Err(error)
            }
        }
    }
}

impl Write for PartFile {
    fn write(&mut self, octets: &[u8]) -> io::Result<usize> {
        let written = self.file.write(octets);
        self.failed = why_failed(&written, octets);
        written
    }

    fn flush(&mut self) -> io::Result<()> {
        Ok(())
    }
}

/// Syncs a folder, which has the names of its files. Errors: the system's.
pub fn sync_folder(rt: &HostRuntime, folder: &str) -> io::Result<()> {
    File::open(rt, folder)?.sync_all()
}
