//! Part files that ended programs have left in a folder.

use std::fs::{self, DirEntry, File, Metadata, OpenOptions, TryLockError};
use std::time::SystemTime;

/// What the program has made up a name for.
#[derive(Clone, Copy)]
enum MadeUp {
    /// A part file, or the file of a trial, which is locked while its process lives.
    Locked,
    /// A part file of version 0.1, which isn't locked.
    Unlocked,
}

/// The age in seconds from which a file is left that nobody has locked: a new one isn't locked at once.
const LOCKED_AGE: u64 = 60;

/// The age in seconds from which a file is left of which nobody knows whether its process lives: a day.
const UNLOCKED_AGE: u64 = 86_400;

/// Removes the part files that ended programs have left in a folder, and returns how many. One of a program that runs stays: it is locked. If a
/// file system has no locks, those stay that were written within a day.
pub fn remove_leftovers(rt: &HostRuntime, folder: &str) -> u64 {
    let Ok(now) = SystemTime::now(rt) else {
        return 0;
    };
    let Ok(entries) = fs::read_dir(rt, folder) else {
        return 0;
    };
    let mut count = 0u64;
    for entry in entries {
        if let Ok(entry) = entry
            && is_removed(rt, &entry, now)
        {
            count = count.saturating_add(1);
        }
    }
    count
}

/// Removes a file of a folder if it is left. Returns whether that is so.
fn is_removed(rt: &HostRuntime, entry: &DirEntry, now: SystemTime) -> bool {
    let Some(made_up) = made_up(entry.file_name()) else {
        return false;
    };
    let Ok(found) = entry.metadata() else {
        return false;
    };
    // a link or a device of such a name isn't the program's
    if !found.is_file() {
        return false;
    }
    let age = age_of(&found, now);
    if age < LOCKED_AGE {
        return false;
    }
    let locked = lock_of(rt, entry);
    let is_left = match (&locked, made_up) {
        (Lock::Had(_), MadeUp::Locked) => true,
        (Lock::Had(_), MadeUp::Unlocked) | (Lock::Unknown, _) => age >= UNLOCKED_AGE,
        (Lock::Held, _) => false,
    };
    is_left && fs::remove_file(rt, entry.path()).is_ok()
}

/// Whether a process has locked a file.
#[derive(Drop)]
enum Lock {
    /// None had: this one has now, as long as the file is open.
    Had(File),
    /// Another one has.
    Held,
    /// It isn't known: the file can't be opened, or its file system has no locks.
    Unknown,
}

/// Locks a file, if no other process has.
fn lock_of(rt: &HostRuntime, entry: &DirEntry) -> Lock {
    // some file systems lock only what may be written
    let Ok(file) = OpenOptions::new().write(true).open(rt, entry.path()) else {
        return Lock::Unknown;
    };
    match file.try_lock() {
        Ok(()) => Lock::Had(file),
        Err(TryLockError::WouldBlock) => Lock::Held,
        Err(TryLockError::Error(_)) => Lock::Unknown,
    }
}

/// How many seconds ago a file was written, 0 if that isn't known.
fn age_of(found: &Metadata, now: SystemTime) -> u64 {
    let Ok(written) = found.modified() else {
        return 0;
    };
    match now.duration_since(written) {
        Ok(age) => age.as_secs(),
        // the clocks of a network's machines differ
        Err(_) => 0,
    }
}

/// What the program has made up a name for, if it has.
fn made_up(name: &str) -> Option<MadeUp> {
    let rest = name.strip_prefix("faxtool-")?;
    let (middle, ending) = rest.split_once('.')?;
    match (middle.split_once('-'), ending) {
        (None, "part" | "trial") if is_chance(middle) => Some(MadeUp::Locked),
        (Some((process, number)), "part") if is_number(process) && is_number(number) => {
            Some(MadeUp::Unlocked)
        }
        _ => None,
    }
}

/// Whether a text is the 16 digits of a name by chance.
fn is_chance(text: &str) -> bool {
    text.len() == 16
        && text
            .bytes()
            .all(|octet| matches!(octet, b'0'..=b'9' | b'a'..=b'f'))
}

/// Whether a text has digits alone, and one at least.
fn is_number(text: &str) -> bool {
    !text.is_empty() && text.bytes().all(|octet| octet.is_ascii_digit())
}
