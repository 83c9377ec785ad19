//! The durations of ITU-T T.30. No step of a station reads them.

ghost use Rattle.std.specs.Prelude.{◌≡◌};
ghost use Rattle.terminals.specs.Timing.{flags_after, flags_before, page_flags, wait_millis};

use signals::Speed;
use stations::{Carrier, Wait};

/// How long T1 runs, in milliseconds: 35 s ± 5 s (T.30, 5.4.3.1).
pub const T1_MILLIS: u32 = 35_000;

/// How long T2 runs, in milliseconds: 7 s of 6 s ± 1 s (T.30, 5.4.3.1), so that it isn't over when a caller's T4 is over a second time.
pub const T2_MILLIS: u32 = 7_000;

/// How long T4 runs, in milliseconds: 3 s ± 15 % (T.30, 5.4.3.1).
pub const T4_MILLIS: u32 = 3_000;

/// How long T5 runs, in milliseconds: 60 s ± 5 s (T.30, Annex A).
pub const T5_MILLIS: u32 = 60_000;

/// The silence between two carriers of one station, in milliseconds: 75 ms ± 20 ms (T.30, 5.3).
pub const BETWEEN_CARRIERS_MILLIS: u32 = 75;

/// Returns how long a wait runs, in milliseconds. ITU-T T.30, 5.4.3.1.
pub fn wait_millis(wait: Wait) -> u32
    ensures { result ≡ wait_millis wait }
{
    match wait {
        Wait::T1 => T1_MILLIS,
        Wait::T2 => T2_MILLIS,
        Wait::T4 => T4_MILLIS,
        Wait::T5 => T5_MILLIS,
    }
}

/// Returns how many flags go before the frames of a burst: 37 by V.21, 1 s with the one that the first frame begins
/// with, 200 ms of them at the speed of a page, none before a training check. ITU-T T.30, 5.3.1 and Annex A.
pub fn flags_before(carrier: Carrier) -> u32
    ensures { result ≡ flags_before carrier }
{
    match carrier {
        Carrier::V21 => 37,
        Carrier::Page(speed) => page_flags(speed),
        Carrier::Training(_) => 0,
    }
}

/// How many flags 200 ms have at a speed.
fn page_flags(speed: Speed) -> u32
    ensures { result ≡ page_flags speed }
{
    match speed {
        Speed::V27At2400 => 60,
        Speed::V27At4800 => 120,
        Speed::V29At7200 | Speed::V17At7200 => 180,
        Speed::V29At9600 | Speed::V17At9600 => 240,
        Speed::V17At12000 => 300,
        Speed::V17At14400 => 360,
    }
}

/// Returns how many flags go after the frames of a burst, each of which ends with one: two, and none after a training
/// check.
pub fn flags_after(carrier: Carrier) -> u32
    ensures { result ≡ flags_after carrier }
{
    match carrier {
        Carrier::V21 => 2,
        Carrier::Page(_) => 2,
        Carrier::Training(_) => 0,
    }
}
