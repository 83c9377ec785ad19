//! Answers that come too late to be sent.

ghost use Rattle.station_commands.specs.Lateness.{IsMet, earlier, first_after, is_behind, is_late};
ghost use Rattle.station_commands.specs.declared.station.lateness.Met.{Met as MetValue};
ghost use Rattle.std.specs.Prelude.{◌≡◌, None, Option};

use std::time::Instant;

/// When a line was read: its own time, and the milliseconds since the program began.
#[derive(Clone, Copy, Debug, PartialEq, Eq)]
pub(crate) struct Met {
    at: u64,
    clock: u64,
}

/// Of a line and one that came before, the one that came earlier for its time.
fn earlier(before: Option<Met>, met: Met) -> Met
    ensures { result ≡ earlier before met }
{
    let Some(before) = before else {
        return met;
    };
    if u128::from(met.clock) + u128::from(before.at)
        < u128::from(before.clock) + u128::from(met.at)
    {
        return met;
    }
    before
}

impl Met {
    /// Whether a line came more than so many milliseconds later for its time than the first one did.
    fn is_behind(self, first: Met, most: u32) -> bool
        ensures { result ≡ is_behind self first most }
    {
        u128::from(first.clock) + u128::from(self.at) + u128::from(most)
            < u128::from(self.clock) + u128::from(first.at)
    }
}

/// How late an answer may come, by the clock of the line that came earliest for its time. A line's time passes as the system's does.
#[derive(Clone, Copy, Drop)]
pub(crate) struct Lateness<'a> {
    rt: &'a HostRuntime,
    most: Option<u32>,
    begun: Option<Instant>,
    first: Option<Met>,
}

impl<'a> Lateness<'a> {
    /// An answer may be so many milliseconds late at most, or as late as it comes.
    pub(crate) fn new(rt: &'a HostRuntime, most: Option<u32>) -> Lateness<'a>
        ensures { (result.most ≡ most) × (result.first ≡ None) }
    {
        Lateness {
            rt,
            most,
            begun: Instant::now(rt).ok(),
            first: None,
        }
    }

    /// A line of this time, now; None if the system's clock can't be read.
    fn met(&self, at: u64) -> Option<Met>
        ensures { IsMet at result }
    {
        let begun = self.begun?;
        let passed = begun.elapsed(self.rt).ok()?;
        let seconds = passed.as_secs().saturating_mul(1000);
        let clock = seconds.saturating_add(u64::from(passed.subsec_millis()));
        Some(Met { at, clock })
    }

    /// Notes that a line of this time is read.
    pub(crate) fn note(&mut self, at: u64)
        ensures { (met : Option MetValue) × IsMet at met × (self.new ≡ record self.old { first = first_after self.old.first met }) }
    {
        if let Some(met) = self.met(at) {
            self.first = Some(earlier(self.first, met));
        }
    }

    /// Whether the answer to a line of this time comes too late.
    pub(crate) fn is_late(&self, at: u64) -> bool
        ensures { (met : Option MetValue) × IsMet at met × (result ≡ is_late self.now.most self.now.first met) }
    {
        let (Some(most), Some(first)) = (self.most, self.first) else {
            return false;
        };
        match self.met(at) {
            Some(met) => met.is_behind(first, most),
            None => false,
        }
    }
}
