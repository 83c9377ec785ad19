//! What terminals have to send, for C.

ghost use Rattle.g3fax.specs.Bursts.{NextBurst, TellsBurst};
ghost use Rattle.g3fax.specs.Handles.{HasOctets};
ghost use Rattle.g3fax.specs.Kinds.{OnKind, TakesBurst};
ghost use Rattle.g3fax.specs.Stations.{behaviour};
ghost use Rattle.std.specs.Prelude.{◌≡◌, ◌≢◌};

use crate::codes::in_64_bits;
use crate::handle::{G3Handle, Kept, opened_station, room};
use crate::kinds::Told;
use crate::numbers::{carrier_number, check_number};
use crate::status::{FULL_HANDLE, NO_MEMORY, NOTHING, OK};
use std::alloc::Global;
use terminals::{SentBurst, Stoppable, TimedTerminal};

/// What is told of a burst: its number of bits, its carrier, and whether it is the turn's last.
#[repr(C)]
#[derive(Clone, Copy)]
pub struct G3Burst {
    /// The number of bits.
    pub bits: u64,
    /// The number of the carrier: 1 for V.21, 2 to 9 for the message speeds.
    pub carrier: u32,
    /// 1 for a training check, and 0 for flags and frames.
    pub check: u32,
    /// 1 for the turn's last burst, otherwise 0.
    pub last: u32,
}

/// What is told of a burst.
fn told(sent: &SentBurst) -> G3Burst
    ensures { TellsBurst sent.now result }
{
    G3Burst {
        bits: in_64_bits(sent.bits),
        carrier: carrier_number(sent.carrier),
        check: check_number(sent.carrier),
        last: sent.last as u32,
    }
}

/// Puts the octets of a burst into a handle by a box of it, and tells the burst.
fn give(sent: SentBurst, boxed: Box<Kept>, out: &mut G3Handle, burst: &mut G3Burst)
    ensures told { TellsBurst sent burst.new }
    ensures given { HasOctets (λ octets. octets ≡ sent.octets.items) out.new.value }
{
    let mut kept = boxed;
    *burst = told(&sent);
    *kept = Kept::Octets(sent.octets);
    out.put(kept);
}

/// Fills an empty handle with the octets of the next burst.
pub(crate) fn next_burst<S: Stoppable>(
    alloc: Global,
    timed: &mut TimedTerminal<S>,
    out: &mut G3Handle,
    burst: &mut G3Burst,
) -> u32
    ensures next { NextBurst S (behaviour S.sends S.steps S.lends S.cut_off S.stop_says S.shows) timed.old timed.new out.old.value
        out.new.value burst.new result }
    ensures untold { result ≢ 0 → burst.new ≡ burst.old }
{
    if out.is_full(alloc) {
        return FULL_HANDLE;
    }
    // first, so that a terminal with nothing to send takes no memory
    if !timed.terminal().has_burst() {
        return NOTHING;
    }
    let Some(kept) = room(alloc) else {
        return NO_MEMORY;
    };
    match timed.next_burst() {
        Ok(Some(sent)) => {
            give(sent, kept, out, burst);
            OK
        }
        Ok(None) => NOTHING,
        Err(_) => NO_MEMORY,
    }
}

/// Takes the next burst that the terminal has to send: its octets fill an empty handle, the least significant bit of each first, and its
/// details are told. Returns `G3_FULL_HANDLE` (102), `G3_NOTHING` (106) if nothing is left to be sent, which takes no memory, or `G3_NO_MEMORY`
/// (9).
#[unsafe(no_mangle)]
pub extern "C" fn g3_core_terminal_next_burst(
    alloc: Global,
    terminal: &mut G3Handle,
    out: &mut G3Handle,
    burst: &mut G3Burst,
) -> u32
    ensures next { OnKind (λ S H k old new. TakesBurst k old new out.old.value out.new.value burst.new result) terminal.old.value
        terminal.new.value result }
    ensures out { result ≢ 0 → out.new.value ≡ out.old.value }
    ensures untold { result ≢ 0 → burst.new ≡ burst.old }
{
    opened_station!(alloc, terminal,
        calling => calling.take_burst(alloc, out, burst),
        answering => answering.take_burst(alloc, out, burst))
}
