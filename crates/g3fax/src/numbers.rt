//! The numbers by which C knows waits, carriers and ends.

ghost use Rattle.g3fax.specs.Numbers.{carrier_number, check_number, end_number, listens_carrier, listens_number, millis_of};
ghost use Rattle.g3fax.specs.Numbers.{reason_number, speed_number, wait_number, wait_of};
ghost use Rattle.g3fax.specs.SignalNumbers.{rate_of};
ghost use Rattle.signals.specs.Training.{bits_a_second};
ghost use Rattle.std.specs.Prelude.{◌≡◌};

use crate::signal::speed_of_number;
use signals::Speed;
use stations::{CallEnd, Carrier, End, Listening, Wait};
use terminals::wait_millis;

/// Returns the wait of a number, that of its name in T.30.
pub(crate) fn wait_of(number: u32) -> Option<Wait>
    ensures { result ≡ wait_of number }
{
    match number {
        1 => Some(Wait::T1),
        2 => Some(Wait::T2),
        4 => Some(Wait::T4),
        5 => Some(Wait::T5),
        _ => None,
    }
}

/// The number of a wait; 0 for none.
pub(crate) fn wait_number(wait: Option<Wait>) -> u32
    ensures { result ≡ wait_number wait }
{
    match wait {
        None => 0,
        Some(Wait::T1) => 1,
        Some(Wait::T2) => 2,
        Some(Wait::T4) => 4,
        Some(Wait::T5) => 5,
    }
}

/// Returns how long a wait runs, in milliseconds (T.30, 5.4.3.1); 0 for a number that is no wait's.
#[unsafe(no_mangle)]
pub extern "C" fn g3_core_wait_millis(wait: u32) -> u32
    ensures { result ≡ millis_of (wait_of wait) }
{
    match wait_of(wait) {
        Some(wait) => wait_millis(wait),
        None => 0,
    }
}

/// The number of the carrier of a message speed.
pub(crate) fn speed_number(speed: Speed) -> u32
    ensures { result ≡ speed_number speed }
{
    match speed {
        Speed::V27At2400 => 2,
        Speed::V27At4800 => 3,
        Speed::V29At7200 => 4,
        Speed::V29At9600 => 5,
        Speed::V17At7200 => 6,
        Speed::V17At9600 => 7,
        Speed::V17At12000 => 8,
        Speed::V17At14400 => 9,
    }
}

/// Returns the bits a second of a message speed.
fn bits_a_second(speed: Speed) -> u32
    ensures { result ≡ bits_a_second speed }
{
    match speed {
        Speed::V27At2400 => 2400,
        Speed::V27At4800 => 4800,
        Speed::V29At7200 | Speed::V17At7200 => 7200,
        Speed::V29At9600 | Speed::V17At9600 => 9600,
        Speed::V17At12000 => 12000,
        Speed::V17At14400 => 14400,
    }
}

/// Returns the bits a second of a carrier by its number: 300 of V.21; 0 for a number that is no carrier's.
#[unsafe(no_mangle)]
pub extern "C" fn g3_core_carrier_rate(carrier: u32) -> u32
    ensures { result ≡ rate_of carrier }
{
    if carrier == 1 {
        return 300;
    }
    match speed_of_number(carrier) {
        Some(speed) => bits_a_second(speed),
        None => 0,
    }
}

/// The number of a carrier.
pub(crate) fn carrier_number(carrier: Carrier) -> u32
    ensures { result ≡ carrier_number carrier }
{
    match carrier {
        Carrier::V21 => 1,
        Carrier::Training(speed) => speed_number(speed),
        Carrier::Page(speed) => speed_number(speed),
    }
}

/// Returns whether a carrier is that of a training check: 1, or 0.
pub(crate) fn check_number(carrier: Carrier) -> u32
    ensures { result ≡ check_number carrier }
{
    match carrier {
        Carrier::V21 => 0,
        Carrier::Training(_) => 1,
        Carrier::Page(_) => 0,
    }
}

/// The number of what a station listens for.
pub(crate) fn listens_number(listens: Listening) -> u32
    ensures { result ≡ listens_number listens }
{
    match listens {
        Listening::V21 => 1,
        Listening::Training(_) => 2,
        Listening::V21OrPage(_) => 3,
        Listening::V21ThenPage(_) => 4,
    }
}

/// The number of the carrier that a station listens for beside V.21; 0 for none.
pub(crate) fn listens_carrier(listens: Listening) -> u32
    ensures { result ≡ listens_carrier listens }
{
    match listens {
        Listening::V21 => 0,
        Listening::Training(speed) => speed_number(speed),
        Listening::V21OrPage(speed) | Listening::V21ThenPage(speed) => speed_number(speed),
    }
}

/// The number of a reason that a station had.
fn reason_number(reason: End) -> u32
    ensures { result ≡ reason_number reason }
{
    match reason {
        End::Normal => 1,
        End::NoAnswer => 2,
        End::NotCompatible => 3,
        End::Training => 4,
        End::NoReply => 5,
        End::Unreadable => 6,
        End::StillBusy => 7,
        End::PeerLeft => 8,
        End::BadPage => 9,
        End::PageTooLong => 10,
    }
}

/// The number of why a call ended; 0 of one that goes on.
pub(crate) fn end_number(end: Option<CallEnd>) -> u32
    ensures { result ≡ end_number end }
{
    match end {
        None => 0,
        Some(CallEnd::By(reason)) => reason_number(reason),
        Some(CallEnd::Stopped) => 11,
        Some(CallEnd::LineLost) => 12,
    }
}
