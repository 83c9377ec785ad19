//! What two stations agree on, and what one of them takes.

ghost use Rattle.signals.specs.Agreement.{agreed, lower_speed, allowed, speed_order, common_speed, first_of, after_speed, agreed_coding};
ghost use Rattle.signals.specs.Faults.{number_of_incompatible};
ghost use Rattle.std.specs.List.{find};
ghost use Rattle.std.specs.Prelude.{◌≡◌, IfOk, true, length, List};

use crate::params::{Caps, Modems, PageWidth, Params, Speed, Wish};
use raster::Coding;
use thiserror::Error;

/// The two stations have no way to send the pages between them; `why_not` gives the reason.
#[derive(Clone, Copy, Debug, PartialEq, Eq, Error)]
#[error("the stations are not compatible")]
pub struct NotCompatible;

impl NotCompatible {
    /// Returns the number of the fault among all faults.
    pub fn number(self) -> u8
        ensures { result ≡ number_of_incompatible self }
    {
        28
    }
}

/// The order of the speeds if both stations have V.17.
const V17_ORDER: [Speed; 6] = [
    Speed::V17At14400,
    Speed::V17At12000,
    Speed::V17At9600,
    Speed::V17At7200,
    Speed::V27At4800,
    Speed::V27At2400,
];

/// The order of the speeds if a station has no V.17.
const OTHER_ORDER: [Speed; 4] = [
    Speed::V29At9600,
    Speed::V29At7200,
    Speed::V27At4800,
    Speed::V27At2400,
];

/// The order in which two stations try their speeds.
fn order(ours: Modems, theirs: Modems) -> &'static [Speed]
    ensures { result.now ≡ speed_order ours theirs }
{
    match (ours, theirs) {
        (Modems::V17, Modems::V17) => &V17_ORDER,
        _ => &OTHER_ORDER,
    }
}

/// Whether both have the speed.
fn is_common(ours: Modems, theirs: Modems, speed: Speed) -> bool
    ensures { result ≡ common_speed ours theirs speed }
{
    ours.supports(speed) && theirs.supports(speed)
}

/// The first speed that both have.
fn first_common(ours: Modems, theirs: Modems, speeds: &[Speed]) -> Option<Speed>
    ensures { result ≡ find (common_speed ours theirs) speeds.now }
{
    speeds
        .iter()
        .copied()
        .find(|speed| is_common(ours, theirs, *speed))
}

/// The speeds after a speed; none if it isn't among them.
fn after(speeds: &[Speed], speed: Speed) -> &[Speed]
    ensures { result.now ≡ after_speed speed speeds.now }
{
    for (place, candidate) in speeds.iter().enumerate() {
        if candidate.is(speed) {
            return &speeds[place + 1..];
        }
    }
    &[]
}

/// The code of the pages: T.6 if the caller wishes it and the station offers it, else one-dimensional T.4.
fn coding(caps: &Caps, wish: &Wish) -> Coding
    ensures { result ≡ agreed_coding caps.now wish.now }
{
    match wish.coding {
        Coding::T6 if caps.t6 => Coding::T6,
        _ => Coding::OneDim,
    }
}

/// Returns the parameters by which a caller sends pages of a width to a station, at 7.7 lines a millimetre if `fine`:
/// the fastest speed that both have (V.17 in place of V.29 if both have it), and T.6 if it is wished for and offered.
/// `NotCompatible` if the station doesn't receive, has no error correction, takes no such pages or has no speed in
/// common. ITU-T T.30, 5.3.6.2.
pub fn agree(
    caps: &Caps,
    wish: &Wish,
    width: PageWidth,
    fine: bool,
) -> Result<Params, NotCompatible>
    ensures agreed { result ≡ agreed caps.now wish.now width fine }
    ensures allowed { IfOk result (λ params. allowed caps.now params ≡ true) }
{
    if !caps.receiver
        || !caps.ecm
        || width.pixels() > caps.widest.pixels()
        || (fine && !caps.fine)
    {
        return Err(NotCompatible);
    }
    let speeds = order(wish.modems, caps.modems);
    let Some(speed) = first_common(wish.modems, caps.modems, speeds) else {
        return Err(NotCompatible);
    };
    Ok(Params {
        speed,
        fine,
        width,
        coding: coding(caps, wish),
        small: wish.small,
    })
}

/// Returns the next lower speed that both stations try; None after the lowest one, and after a speed that they don't
/// try.
pub fn lower(caps: &Caps, wish: &Wish, speed: Speed) -> Option<Speed>
    ensures { result ≡ lower_speed caps.now wish.now speed }
{
    if !is_common(wish.modems, caps.modems, speed) {
        return None;
    }
    let below = after(order(wish.modems, caps.modems), speed);
    first_common(wish.modems, caps.modems, below)
}

/// Whether a station takes pages that are sent by these parameters: it has the speed, the width, the lines and the
/// code.
pub fn allows(caps: &Caps, params: &Params) -> bool
    ensures { result ≡ allowed caps.now params.now }
{
    caps.modems.supports(params.speed)
        && params.width.pixels() <= caps.widest.pixels()
        && (!params.fine || caps.fine)
        && (matches!(params.coding, Coding::OneDim) || caps.t6)
}
