//! A frame's content read as a signal.

ghost use Rattle.signals.specs.Reading.{field_bit, late_bit, modems_of, speed_of, widest_of, width_of, page_end_of, caps_of, params_of};
ghost use Rattle.signals.specs.Reading.{read_dcs, read_fcd, read_pps, read_ppr, read_dis, read_fields, read_content};
ghost use Rattle.signals.specs.Signals.{plain_read};
ghost use Rattle.std.specs.Prelude.{◌≡◌, ◌≤◌, length};

use crate::control::Control;
use crate::fault::SignalFault;
use crate::params::{Caps, Modems, PageWidth, Params, Speed};
use crate::signal::{PageEnd, Signal};
use raster::Coding;

/// A bit of the information field, numbered from 1 in order of sending; 0 past the last.
fn bit(fields: &[u8], number: usize) -> bool
    requires { 1 ≤ number }
    ensures { result ≡ field_bit fields.now number }
{
    let place = number - 1;
    match fields.get(place / 8) {
        Some(octet) => (octet >> (place % 8)) & 1 == 1,
        None => false,
    }
}

/// A bit of the fourth octet, which is read only if bit 24 is 1.
fn late(fields: &[u8], number: usize) -> bool
    requires { 1 ≤ number }
    ensures { result ≡ late_bit fields.now number }
{
    bit(fields, 24) && bit(fields, number)
}

/// The modems of bits 11 to 14 of a DIS.
fn modems(bit_11: bool, bit_12: bool, bit_13: bool, bit_14: bool) -> Modems
    ensures { result ≡ modems_of bit_11 bit_12 bit_13 bit_14 }
{
    match (bit_11, bit_12, bit_13, bit_14) {
        (false, true, false, false) => Modems::V27,
        (true, false, false, false) => Modems::V29,
        (true, true, false, false) => Modems::V27V29,
        (true, true, false, true) => Modems::V17,
        _ => Modems::Fallback,
    }
}

/// The speed of bits 11 to 14 of a DCS.
fn speed(bit_11: bool, bit_12: bool, bit_13: bool, bit_14: bool) -> Option<Speed>
    ensures { result ≡ speed_of bit_11 bit_12 bit_13 bit_14 }
{
    match (bit_11, bit_12, bit_13, bit_14) {
        (false, false, false, false) => Some(Speed::V27At2400),
        (false, true, false, false) => Some(Speed::V27At4800),
        (true, true, false, false) => Some(Speed::V29At7200),
        (true, false, false, false) => Some(Speed::V29At9600),
        (true, true, false, true) => Some(Speed::V17At7200),
        (true, false, false, true) => Some(Speed::V17At9600),
        (false, true, false, true) => Some(Speed::V17At12000),
        (false, false, false, true) => Some(Speed::V17At14400),
        _ => None,
    }
}

/// The widest page of bits 17 and 18 of a DIS.
fn widest(bit_17: bool, bit_18: bool) -> PageWidth
    ensures { result ≡ widest_of bit_17 bit_18 }
{
    match (bit_17, bit_18) {
        (false, false) => PageWidth::W1728,
        (true, false) => PageWidth::W2048,
        (_, true) => PageWidth::W2432,
    }
}

/// The width of bits 17 and 18 of a DCS.
fn width(bit_17: bool, bit_18: bool) -> Option<PageWidth>
    ensures { result ≡ width_of bit_17 bit_18 }
{
    match (bit_17, bit_18) {
        (false, false) => Some(PageWidth::W1728),
        (true, false) => Some(PageWidth::W2048),
        (false, true) => Some(PageWidth::W2432),
        (true, true) => None,
    }
}

/// What ends with a block, by the second field of PPS; the first bit of MPS, EOM and EOP is ignored.
#[tactic(auto, unfolding(crate::specs::Reading::page_end_of))]
fn page_end(octet: u8) -> Option<PageEnd>
    ensures { result ≡ page_end_of octet }
{
    match octet {
        0x00 => Some(PageEnd::Null),
        0x4E | 0x4F => Some(PageEnd::Mps),
        0x8E | 0x8F => Some(PageEnd::Eom),
        0x2E | 0x2F => Some(PageEnd::Eop),
        _ => None,
    }
}

/// The capabilities of a DIS.
#[tactic(auto, unfolding(crate::specs::Reading::caps_of))]
fn caps(fields: &[u8]) -> Caps
    ensures { result ≡ caps_of fields.now }
{
    Caps {
        receiver: bit(fields, 10),
        modems: modems(
            bit(fields, 11),
            bit(fields, 12),
            bit(fields, 13),
            bit(fields, 14),
        ),
        fine: bit(fields, 15),
        widest: widest(bit(fields, 17), bit(fields, 18)),
        t6: late(fields, 31),
        ecm: late(fields, 27),
    }
}

/// The parameters of a DCS; None if they are outside what is known.
#[tactic(auto, unfolding(crate::specs::Reading::params_of))]
fn params(fields: &[u8]) -> Option<Params>
    ensures { result ≡ params_of fields.now }
{
    let t6 = late(fields, 31);
    if !late(fields, 27) || (bit(fields, 16) && !t6) {
        return None;
    }
    let speed = speed(
        bit(fields, 11),
        bit(fields, 12),
        bit(fields, 13),
        bit(fields, 14),
    )?;
    let width = width(bit(fields, 17), bit(fields, 18))?;
    Some(Params {
        speed,
        fine: bit(fields, 15),
        width,
        coding: if t6 { Coding::T6 } else { Coding::OneDim },
        small: late(fields, 28),
    })
}

/// A DCS by its information field.
fn dcs(octet: u8, fields: &[u8]) -> Result<Signal<'_>, SignalFault>
    ensures { plain_read result ≡ read_dcs octet fields.now }
{
    if fields.len() < 3 {
        return Err(SignalFault::ShortField);
    }
    match params(fields) {
        Some(params) => Ok(Signal::Dcs(params)),
        None => Ok(Signal::Other(octet)),
    }
}

/// A PPS by its information field.
fn pps(octet: u8, fields: &[u8]) -> Result<Signal<'_>, SignalFault>
    ensures { plain_read result ≡ read_pps octet fields.now }
{
    if fields.len() < 4 {
        return Err(SignalFault::ShortField);
    }
    match page_end(fields[0]) {
        Some(ends) => Ok(Signal::Pps {
            ends,
            page: fields[1],
            block: fields[2],
            last: fields[3],
        }),
        None => Ok(Signal::Other(octet)),
    }
}

/// A PPR by its information field.
fn ppr(fields: &[u8]) -> Result<Signal<'_>, SignalFault>
    ensures { plain_read result ≡ read_ppr fields.now }
{
    if fields.len() < 32 {
        return Err(SignalFault::ShortField);
    }
    let mut map = [0; 32];
    map.copy_from_slice(&fields[..32]);
    Ok(Signal::Ppr(map))
}

/// The signal of a facsimile control field and the information field after it.
#[tactic(auto, unfolding(crate::specs::Reading::read_fields))]
fn signal(octet: u8, fields: &[u8]) -> Result<Signal<'_>, SignalFault>
    ensures { plain_read result ≡ read_fields octet fields.now }
{
    let Some(control) = Control::of_octet(octet) else {
        return Ok(Signal::Other(octet));
    };
    match control {
        Control::Dis if fields.len() < 3 => Err(SignalFault::ShortField),
        Control::Dis => Ok(Signal::Dis(caps(fields))),
        Control::Dcs => dcs(octet, fields),
        Control::Cfr => Ok(Signal::Cfr),
        Control::Ftt => Ok(Signal::Ftt),
        Control::Fcd if fields.len() < 2 => Err(SignalFault::ShortField),
        Control::Fcd => Ok(Signal::Fcd {
            number: fields[0],
            octets: &fields[1..],
        }),
        Control::Rcp => Ok(Signal::Rcp),
        Control::Pps => pps(octet, fields),
        Control::Ppr => ppr(fields),
        Control::Mcf => Ok(Signal::Mcf),
        Control::Rnr => Ok(Signal::Rnr),
        Control::Rr => Ok(Signal::Rr),
        Control::Dcn => Ok(Signal::Dcn),
    }
}

/// Returns the signal that a frame's content says: the octets between two flags, without stuffed bits and check
/// sequence. Octets after a signal's fields are ignored, but in an FCD all are data. `BadAddress` (20) if the address
/// isn't FF, `BadControl` (21) if the control field is neither 03 nor 13, `ShortField` (22) if a field is missing or
/// cut short; the first of these from the front on. ITU-T T.30, 5.3.4 to 5.3.6 and A.4.
#[tactic(auto, unfolding(crate::specs::Reading::read_content))]
pub fn read(content: &[u8]) -> Result<Signal<'_>, SignalFault>
    ensures { plain_read result ≡ read_content content.now }
{
    // A function, since the faults have an order; the law reads_what_is_said joins it to what a content says, which has
    // none.
    if content.is_empty() {
        return Err(SignalFault::ShortField);
    }
    if content[0] != 0xFF {
        return Err(SignalFault::BadAddress);
    }
    if content.len() < 2 {
        return Err(SignalFault::ShortField);
    }
    if content[1] != 0x03 && content[1] != 0x13 {
        return Err(SignalFault::BadControl);
    }
    if content.len() < 3 {
        return Err(SignalFault::ShortField);
    }
    signal(content[2], &content[3..])
}
