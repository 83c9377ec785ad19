//! How far reading is, shown on standard error where that takes long.

ghost use Rattle.command_files.specs.declared.files.progress.Watch.TheVariants.{Silent};
ghost use Rattle.std.specs.Prelude.{◌≡◌, ◌+◌, ◌-◌, ◌^◌, None, min};

use std::io::{Eprint, IsTerminal, Write};
use std::time::Instant;

/// Whether progress is shown while a file is read.
#[derive(Clone, Copy, Debug, PartialEq, Eq)]
pub enum Watch {
    /// It is, where reading takes long.
    Shown,
    /// It isn't, since lines are printed meanwhile or soon.
    Silent,
}

/// The seconds after which progress is shown.
const QUIET: u64 = 2;

/// How far a file is read. Shown on a terminal only, once a second, after the first two.
#[derive(Drop)]
pub struct Progress<'a> {
    rt: &'a HostRuntime,
    begun: Option<Instant>,
    shown: u64,
    octets: u64,
}

impl<'a> Progress<'a> {
    /// Nothing was read yet.
    pub fn new(rt: &'a HostRuntime, watch: Watch) -> Progress<'a>
        ensures none { (result.octets ≡ 0) × (result.shown ≡ 2) }
        ensures silent { watch ≡ Silent → result.begun ≡ None }
    {
        // Only reading is shown: coding, decoding and a call's events are single calls of proved functions, which neither read nor write
        // meanwhile.
        let begun = if watch == Watch::Shown && rt.stderr().is_terminal() {
            Instant::now(rt).ok()
        } else {
            None
        };
        Progress {
            rt,
            begun,
            shown: QUIET,
            octets: 0,
        }
    }

    /// Counts octets that were read.
    pub fn read(&mut self, octets: usize)
        ensures counted { self.new.octets ≡ min (self.old.octets + octets) (2 ^ 64 - 1) }
        ensures begun { self.new.begun ≡ self.old.begun }
        ensures silent { self.old.begun ≡ None → self.new.shown ≡ self.old.shown }
    {
        self.octets = self.octets.saturating_add(octets as u64);
        let Some(begun) = self.begun else {
            return;
        };
        let Ok(time) = begun.elapsed(self.rt) else {
            return;
        };
        let seconds = time.as_secs();
        if seconds > self.shown {
            self.shown = seconds;
            let read = self.octets;
            let _shown = eprint!(self.rt; "\rread {read} octets in {seconds} s");
        }
    }

    /// Reading has ended: clears what was shown.
    pub fn end(&self) {
        if self.shown > QUIET {
            let _shown = eprint!(self.rt; "\r\x1b[K");
        }
    }
}
