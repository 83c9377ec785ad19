//! How far a run over many files is, shown on standard error.

ghost use Rattle.std.specs.Prelude.{◌≡◌, ◌+◌, ◌-◌, ◌^◌, cond, min};

use std::io::{Eprint, IsTerminal, Write};
use std::time::Instant;

/// The seconds after which it is shown.
const QUIET: u64 = 1;

/// How many files are done, how many pages they have, and how many of them lack something. Shown on a terminal only, on one line, once a
/// second after the first; and again after each line, if these go to a terminal too.
#[derive(Drop)]
pub(crate) struct Tally<'a> {
    rt: &'a HostRuntime,
    begun: Option<Instant>,
    is_beside: bool,
    shown: u64,
    files: u64,
    pages: u64,
    bad: u64,
}

impl<'a> Tally<'a> {
    /// No file is done.
    pub(crate) fn new(rt: &'a HostRuntime) -> Tally<'a>
        ensures none { (result.files ≡ 0) × (result.pages ≡ 0) × (result.bad ≡ 0) × (result.shown ≡ 1) }
    {
        let begun = if rt.stderr().is_terminal() {
            Instant::now(rt).ok()
        } else {
            None
        };
        Tally {
            rt,
            begun,
            is_beside: rt.stdout().is_terminal(),
            shown: QUIET,
            files: 0,
            pages: 0,
            bad: 0,
        }
    }

    /// Counts a file of so many pages that is complete or not, and shows how far the run is.
    pub(crate) fn count(&mut self, pages: usize, is_complete: bool)
        ensures files { self.new.files ≡ min (self.old.files + 1) (2 ^ 64 - 1) }
        ensures pages { self.new.pages ≡ min (self.old.pages + pages) (2 ^ 64 - 1) }
        ensures bad { self.new.bad ≡ cond is_complete self.old.bad (min (self.old.bad + 1) (2 ^ 64 - 1)) }
    {
        self.files = self.files.saturating_add(1);
        self.pages = self.pages.saturating_add(pages as u64);
        if !is_complete {
            self.bad = self.bad.saturating_add(1);
        }
        self.show();
    }

    /// Shows how far the run is, if a second has passed since that was shown last, or the line was cleared.
    fn show(&mut self)
        ensures files { self.new.files ≡ self.old.files }
        ensures pages { self.new.pages ≡ self.old.pages }
        ensures bad { self.new.bad ≡ self.old.bad }
    {
        let Some(begun) = self.begun else {
            return;
        };
        let Ok(time) = begun.elapsed(self.rt) else {
            return;
        };
        let seconds = time.as_secs();
        if seconds > self.shown || self.is_beside && self.is_shown() {
            self.shown = seconds.max(self.shown);
            let (files, pages, bad) = (self.files, self.pages, self.bad);
            let rate = files / seconds.max(1);
            let _shown = eprint!(self.rt;
                "\r{files} files, {pages} pages, {bad} bad, {rate} files a second"
            );
        }
    }

    /// Returns whether something was shown.
    fn is_shown(&self) -> bool {
        self.shown > QUIET
    }

    /// Clears what was shown, before a line is printed on the same terminal.
    pub(crate) fn step_aside(&self) {
        if self.is_beside {
            self.end();
        }
    }

    /// Clears what was shown.
    pub(crate) fn end(&self) {
        if self.is_shown() {
            let _shown = eprint!(self.rt; "\r\x1b[K");
        }
    }
}
