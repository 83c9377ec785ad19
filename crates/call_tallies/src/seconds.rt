//! For how long many calls had the line, in numbers.

ghost use Rattle.call_tallies.specs.Seconds.{CountsSeconds, IsShare, TellsSeconds, counted_seconds};
ghost use Rattle.call_tallies.specs.declared.many_calls.OneCall.{OneCall as OneCallValue};
ghost use Rattle.faults.specs.Faults.{IsOutside};
ghost use Rattle.std.specs.Prelude.{◌≡◌, ◌≤◌, ◌++◌, ◌∷◌, [], List, IfErr, IfOk, OnOk};

use crate::many_calls::OneCall;
use calls::after;
use faults::ToolFault;
use std::alloc::Global;
use std::io::Write;
use std::marker::Model;

/// The most seconds that are counted, a day: a longer call counts as a day. So the median is exact, and memory (675 KiB) doesn't grow with
/// the calls.
const MOST_SECONDS: usize = 86_400;

/// How many of many calls had the line for how many whole seconds.
#[derive(Drop)]
pub(crate) struct Seconds {
    /// How many calls there were.
    calls: u64,
    /// How many of them had the line for the number of seconds that is the place, up to `MOST_SECONDS`.
    counts: Vec<u64>,
}

impl Model for Seconds {
    ghost use Rattle.std.specs.Prelude.{◌≡◌, length};
    ghost use Rattle.call_tallies.specs.Seconds.{Histogram};

    ghost Value = { Histogram };

    ghost view = { λ s. record { calls = s.calls; counts = s.counts.items } };

    ghost invariant = { λ s. length s.counts.items ≡ 86401 };
}

/// The seconds of a call as they are counted.
fn counted_seconds(call: &OneCall) -> usize
    ensures { result ≡ counted_seconds call.now }
{
    call.seconds.min(MOST_SECONDS as u64) as usize
}

impl Seconds {
    /// The counts before the first call. Errs with `NO_MEMORY`.
    pub(crate) fn new(alloc: Global) -> Result<Seconds, ToolFault>
        ensures new { IfOk result (λ seconds. CountsSeconds seconds []) }
        ensures fault { IfErr result IsOutside }
    {
        let mut counts = Vec::new(alloc);
        counts.resize(MOST_SECONDS + 1, 0)?;
        Ok(Seconds { calls: 0, counts })
    }

    /// Counts one call more. Errs with `FAILED` (8) if a number would be 2^64.
    pub(crate) fn add(&mut self, call: &OneCall) -> Result<(), ToolFault>
        ensures counts { OnOk result ((calls : List OneCallValue) → CountsSeconds self.old calls →
            CountsSeconds self.new (calls ++ call.now ∷ [])) }
        ensures fault { IfErr result IsOutside }
    {
        self.calls = after(self.calls)?;
        let place = counted_seconds(call);
        self.counts[place] = after(self.counts[place])?;
        Ok(())
    }

    /// The seconds within which so many of a hundred calls were over.
    fn at_share(&self, share: u64) -> u64
        requires { share ≤ 100 }
        ensures { (calls : List OneCallValue) → CountsSeconds self.now calls → IsShare share calls result }
    {
        let wanted = u128::from(share) * u128::from(self.calls);
        let mut within: u128 = 0;
        for place in 0..MOST_SECONDS {
            within += u128::from(self.counts[place]);
            if wanted <= 100 * within {
                return place as u64;
            }
        }
        MOST_SECONDS as u64
    }

    /// Writes the row of seconds. Errs with `FAILED` (8) if the writer fails, and with `NO_MEMORY`.
    pub(crate) fn write<W: Write>(&self, writer: &mut W) -> Result<(), ToolFault>
        ensures row { OnOk result ((calls : List OneCallValue) → CountsSeconds self.now calls →
            TellsSeconds calls (W.contents writer.old) (W.contents writer.new)) }
        ensures fault { IfErr result IsOutside }
    {
        let median = self.at_share(50);
        let most = self.at_share(95);
        let greatest = self.at_share(100);
        writeln!(
            writer,
            "seconds median {median} 95% {most} greatest {greatest}"
        )?;
        Ok(())
    }
}
