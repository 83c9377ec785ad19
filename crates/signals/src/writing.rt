//! A signal written as a frame's content.

ghost use Rattle.signals.specs.Reading.{read_content};
ghost use Rattle.signals.specs.Signals.{plain};
ghost use Rattle.signals.specs.Writing.{IsWritable, content_of, head_of, modems_octet, speed_octet, width_octet, coding_octet, dis_fields};
ghost use Rattle.signals.specs.Writing.{dcs_fields, page_end_octet, written_or};
ghost use Rattle.std.specs.Prelude.{◌≡◌, ◌≤◌, ◌<◌, ◌+◌, ◌++◌, Ok, length};

use crate::control::Control;
use crate::params::{Caps, Modems, PageWidth, Params, Speed};
use crate::signal::{PageEnd, Side, Signal};
use arrayvec::ArrayVec;
use raster::Coding;

/// A bit in its place.
fn placed(bit: bool, value: u8) -> u8
    ensures bit { result ≡ written_or bit value }
    ensures most { result ≤ value }
{
    if bit { value } else { 0 }
}

/// Bits 11 to 14 of a DIS, in their places.
fn modems(modems: Modems) -> u8
    ensures octet { result ≡ modems_octet modems }
    ensures small { result < 0x40 }
{
    match modems {
        Modems::Fallback => 0x00,
        Modems::V27 => 0x08,
        Modems::V29 => 0x04,
        Modems::V27V29 => 0x0C,
        Modems::V17 => 0x2C,
    }
}

/// Bits 11 to 14 of a DCS, in their places.
fn speed(speed: Speed) -> u8
    ensures octet { result ≡ speed_octet speed }
    ensures small { result < 0x40 }
{
    match speed {
        Speed::V27At2400 => 0x00,
        Speed::V27At4800 => 0x08,
        Speed::V29At7200 => 0x0C,
        Speed::V29At9600 => 0x04,
        Speed::V17At7200 => 0x2C,
        Speed::V17At9600 => 0x24,
        Speed::V17At12000 => 0x28,
        Speed::V17At14400 => 0x20,
    }
}

/// Bit 31 of a DCS, in its place.
fn coding(coding: Coding) -> u8
    ensures octet { result ≡ coding_octet coding }
    ensures small { result ≤ 0x40 }
{
    match coding {
        Coding::OneDim => 0x00,
        Coding::T6 => 0x40,
    }
}

/// Bits 17 to 24 of a DIS or a DCS: a width, any length of a page, no time for a row, and a fourth octet.
fn width(width: PageWidth) -> u8
    ensures { result ≡ width_octet width }
{
    // Bits without a meaning here are written as the table has them, unlimited length and 0 ms a row, else as 0;
    // reading ignores them.
    match width {
        PageWidth::W1728 => 0xF8,
        PageWidth::W2048 => 0xF9,
        PageWidth::W2432 => 0xFA,
    }
}

/// The second field of PPS.
fn page_end(ends: PageEnd) -> u8
    ensures { result ≡ page_end_octet ends }
{
    match ends {
        PageEnd::Null => 0x00,
        PageEnd::Mps => 0x4F,
        PageEnd::Eom => 0x8F,
        PageEnd::Eop => 0x2F,
    }
}

/// The information field of a DIS.
#[tactic(auto, unfolding(crate::specs::Writing::dis_fields))]
fn dis(caps: &Caps) -> [u8; 4]
    ensures { result ≡ dis_fields caps.now }
{
    let second = placed(caps.receiver, 0x02) + modems(caps.modems) + placed(caps.fine, 0x40);
    let fourth = placed(caps.ecm, 0x04) + placed(caps.t6, 0x40);
    [0, second, width(caps.widest), fourth]
}

/// The information field of a DCS.
#[tactic(auto, unfolding(crate::specs::Writing::dcs_fields))]
fn dcs(params: &Params) -> [u8; 4]
    ensures { result ≡ dcs_fields params.now }
{
    let second = 0x02 + speed(params.speed) + placed(params.fine, 0x40);
    let fourth = 0x04 + placed(params.small, 0x08) + coding(params.coding);
    [0, second, width(params.width), fourth]
}

/// Appends octets.
fn append(content: &mut ArrayVec<u8, 300>, octets: &[u8])
    requires { length content.old.items + length octets.now ≤ 300 }
    ensures { content.new.items ≡ content.old.items ++ octets.now }
{
    let _all = content.try_extend_from_slice(octets);
}

/// The content of a facsimile control field and the information field after it.
fn content(last: bool, control: u8, fields: &[u8]) -> ArrayVec<u8, 300>
    requires { length fields.now ≤ 297 }
    ensures { result.items ≡ head_of last control ++ fields.now }
{
    let mut content = ArrayVec::new();
    append(
        &mut content,
        &[0xFF, if last { 0x13 } else { 0x03 }, control],
    );
    append(&mut content, fields);
    content
}

/// The content of the frame that says a signal, from a station.
#[tactic(auto, unfolding(crate::specs::Writing::content_of))]
fn content_from(signal: &Signal, side: Side, last: bool) -> ArrayVec<u8, 300>
    requires { IsWritable (plain signal.now) }
    ensures { result.items ≡ content_of (plain signal.now) side last }
{
    // By octets, which code can compute; the law writes_the_tables joins them to the standard's texts bit for bit.
    match signal {
        Signal::Dis(caps) => content(last, Control::Dis.octet(side), &dis(caps)),
        Signal::Dcs(params) => content(last, Control::Dcs.octet(side), &dcs(params)),
        Signal::Cfr => content(last, Control::Cfr.octet(side), &[]),
        Signal::Ftt => content(last, Control::Ftt.octet(side), &[]),
        Signal::Fcd { number, octets } => {
            let mut content = content(last, Control::Fcd.octet(side), &[*number]);
            append(&mut content, octets);
            content
        }
        Signal::Rcp => content(last, Control::Rcp.octet(side), &[]),
        Signal::Pps {
            ends,
            page,
            block,
            last: last_frame,
        } => content(
            last,
            Control::Pps.octet(side),
            &[page_end(*ends), *page, *block, *last_frame],
        ),
        Signal::Ppr(map) => content(last, Control::Ppr.octet(side), map),
        Signal::Mcf => content(last, Control::Mcf.octet(side), &[]),
        Signal::Rnr => content(last, Control::Rnr.octet(side), &[]),
        Signal::Rr => content(last, Control::Rr.octet(side), &[]),
        Signal::Dcn => content(last, Control::Dcn.octet(side), &[]),
        Signal::Other(octet) => content(last, *octet, &[]),
    }
}

/// Returns the content of the frame that says a signal, 3 to 300 octets: FF, the control field, 13 in the last frame of
/// a transmission and 03 in every other, the facsimile control field with the first bit X of the station that sends it,
/// and the information field. An FCD must have 1 to 256 octets of data, and `Other` can't be written, since only its
/// control field is known. Takes no memory. ITU-T T.30, 5.3.4 to 5.3.6 and A.4.
pub fn write(signal: &Signal, side: Side, last: bool) -> ArrayVec<u8, 300>
    requires { IsWritable (plain signal.now) }
    ensures content { result.items ≡ content_of (plain signal.now) side last }
    ensures size { (3 ≤ length result.items) × (length result.items ≤ 300) }
    ensures reads { read_content result.items ≡ Ok (plain signal.now) }
{
    content_from(signal, side, last)
}
