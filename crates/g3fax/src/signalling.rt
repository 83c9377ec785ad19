//! Contents of frames read as signals, and signals written as contents, for C.

ghost use Rattle.g3fax.specs.SignalNumbers.{octet_of, side_of};
ghost use Rattle.g3fax.specs.Pages.{is_set};
ghost use Rattle.g3fax.specs.Signals.{AnswersRead, AnswersWrite, TellsSignal};
ghost use Rattle.g3fax.specs.SignalsMeant.{dis_meant, fcd_meant, meant, meant_as, params_meant, plain_result, ppr_meant, pps_meant};
ghost use Rattle.signals.specs.Reading.{read_content};
ghost use Rattle.signals.specs.Signals.{plain};
ghost use Rattle.signals.specs.Writing.{IsWritable};
ghost use Rattle.std.specs.Prelude.{◌≡◌, IfOk, Ok, length, take};

use crate::beginning::small_of;
use crate::codes::coding_of;
use crate::octets::copy_out;
use crate::signal::{
    G3Block, G3Dis, G3Params, G3Signal, Kind, end_of_number, kind_of, modems_of_number, octets_of,
    speed_of_number, told,
};
use crate::status::{BAD_CHOICE, BAD_LENGTH, NO_ROOM, OK};
use signals::{Caps, PageWidth, Params, Side, Signal, read, write};

/// Tells a signal, and copies its octets to the beginning of a buffer. Returns 103 if that is too small.
fn tell(signal: &Signal, out: &mut G3Signal, buffer: &mut [u8]) -> u32
    ensures { TellsSignal (plain signal.now) out.old out.new buffer.old buffer.new result }
{
    let octets = octets_of(signal);
    if octets.len() > buffer.len() {
        return NO_ROOM;
    }
    buffer[..octets.len()].copy_from_slice(octets);
    *out = told(signal);
    OK
}

/// Reads the content of a frame, its octets without the check sequence, as a signal (ITU-T T.30, 5.3.4 to 5.3.6 and A.4). Tells it by
/// numbers, and copies its octets (an FCD's data, a PPR's 32) to the beginning of a buffer. Octets after a signal's fields are ignored,
/// except in FCD. Returns `G3_BAD_ADDRESS` (20) if the address isn't FF, `G3_BAD_CONTROL` (21) if the control field is neither 03 nor 13,
/// `G3_SHORT_FIELD` (22) if a field is missing or cut short, `G3_NO_ROOM` (103) if the buffer is too small.
#[unsafe(no_mangle)]
pub extern "C" fn g3_core_signal_read(content: &[u8], out: &mut G3Signal, buffer: &mut [u8]) -> u32
    ensures { AnswersRead (read_content content.now) out.old out.new buffer.old buffer.new result }
{
    match read(content) {
        Ok(signal) => tell(&signal, out, buffer),
        Err(fault) => fault.number() as u32,
    }
}

/// The octet of a number.
fn octet_of(number: u32) -> Option<u8>
    ensures { result ≡ octet_of number }
{
    if number < 256 {
        Some(number as u8)
    } else {
        None
    }
}

/// The station of a number.
fn side_of(number: u32) -> Option<Side>
    ensures { result ≡ side_of number }
{
    match number {
        1 => Some(Side::Caller),
        2 => Some(Side::Answerer),
        _ => None,
    }
}

/// What a DIS says that C describes.
pub(crate) fn dis_meant(dis: &G3Dis) -> Option<Caps>
    ensures { result ≡ dis_meant dis.now }
{
    let modems = modems_of_number(dis.modems)?;
    let widest = PageWidth::of_pixels(dis.widest)?;
    Some(Caps {
        receiver: dis.receiver != 0,
        modems,
        fine: dis.fine != 0,
        widest,
        t6: dis.t6 != 0,
        ecm: dis.ecm != 0,
    })
}

/// What a DCS says that C describes.
fn params_meant(dcs: &G3Params) -> Option<Params>
    ensures { result ≡ params_meant dcs.now }
{
    let speed = speed_of_number(dcs.carrier)?;
    let width = PageWidth::of_pixels(dcs.width)?;
    let coding = coding_of(dcs.coding)?;
    let small = small_of(dcs.frame)?;
    Some(Params {
        speed,
        fine: dcs.fine != 0,
        width,
        coding,
        small,
    })
}

/// The PPS that C describes.
fn pps_meant<'a>(pps: &G3Block) -> Result<Signal<'a>, u32>
    ensures meant { plain_result result ≡ pps_meant pps.now }
    ensures writable { IfOk result (λ signal. IsWritable (plain signal)) }
{
    let Some(ends) = end_of_number(pps.ends) else {
        return Err(BAD_CHOICE);
    };
    let Some(page) = octet_of(pps.page) else {
        return Err(BAD_CHOICE);
    };
    let Some(block) = octet_of(pps.block) else {
        return Err(BAD_CHOICE);
    };
    match octet_of(pps.last) {
        Some(last) => Ok(Signal::Pps {
            ends,
            page,
            block,
            last,
        }),
        None => Err(BAD_CHOICE),
    }
}

/// The FCD that C describes: its data are the first of the octets.
fn fcd_meant<'a>(signal: &G3Signal, octets: &'a [u8]) -> Result<Signal<'a>, u32>
    ensures meant { plain_result result ≡ fcd_meant signal.now octets.now }
    ensures writable { IfOk result (λ signal. IsWritable (plain signal)) }
{
    let Some(number) = octet_of(signal.number) else {
        return Err(BAD_CHOICE);
    };
    if signal.length < 1 || signal.length > 256 || signal.length > octets.len() as u64 {
        return Err(BAD_LENGTH);
    }
    Ok(Signal::Fcd {
        number,
        octets: &octets[..signal.length as usize],
    })
}

/// The PPR that C describes: its bits are the first 32 octets.
fn ppr_meant<'a>(signal: &G3Signal, octets: &[u8]) -> Result<Signal<'a>, u32>
    ensures meant { plain_result result ≡ ppr_meant signal.now octets.now }
    ensures writable { IfOk result (λ signal. IsWritable (plain signal)) }
{
    if signal.length != 32 || octets.len() < 32 {
        return Err(BAD_LENGTH);
    }
    let mut map = [0; 32];
    map.copy_from_slice(&octets[..32]);
    Ok(Signal::Ppr(map))
}

/// The signal of a kind that C describes.
fn meant_as<'a>(kind: Kind, signal: &G3Signal, octets: &'a [u8]) -> Result<Signal<'a>, u32>
    ensures meant { plain_result result ≡ meant_as kind signal.now octets.now }
    ensures writable { IfOk result (λ signal. IsWritable (plain signal)) }
{
    match kind {
        Kind::Dis => match dis_meant(&signal.dis) {
            Some(caps) => Ok(Signal::Dis(caps)),
            None => Err(BAD_CHOICE),
        },
        Kind::Dcs => match params_meant(&signal.dcs) {
            Some(params) => Ok(Signal::Dcs(params)),
            None => Err(BAD_CHOICE),
        },
        Kind::Cfr => Ok(Signal::Cfr),
        Kind::Ftt => Ok(Signal::Ftt),
        Kind::Fcd => fcd_meant(signal, octets),
        Kind::Rcp => Ok(Signal::Rcp),
        Kind::Pps => pps_meant(&signal.pps),
        Kind::Ppr => ppr_meant(signal, octets),
        Kind::Mcf => Ok(Signal::Mcf),
        Kind::Rnr => Ok(Signal::Rnr),
        Kind::Rr => Ok(Signal::Rr),
        Kind::Dcn => Ok(Signal::Dcn),
    }
}

/// Returns the signal that C describes. Errors: 104 for an unknown number, 105 for too few or too many octets.
fn meant<'a>(signal: &G3Signal, octets: &'a [u8]) -> Result<Signal<'a>, u32>
    ensures meant { plain_result result ≡ meant signal.now octets.now }
    ensures writable { IfOk result (λ signal. IsWritable (plain signal)) }
{
    match kind_of(signal.kind) {
        Some(kind) => meant_as(kind, signal, octets),
        None => Err(BAD_CHOICE),
    }
}

/// Writes a signal, described by numbers, as the content of a frame (ITU-T T.30, 5.3.4 to 5.3.6 and A.4): sent by station 1, the caller, or
/// 2, the answerer, in the last frame of a transmission or not. Copies it to the beginning of a buffer and tells its number of octets.
/// Returns `G3_BAD_CHOICE` (104) for an unknown number, `G3_BAD_LENGTH` (105) if an FCD hasn't 1 to 256 octets of data or a PPR 32,
/// `G3_NO_ROOM` (103) if the buffer is too small. Takes no memory.
#[unsafe(no_mangle)]
pub extern "C" fn g3_core_signal_write(
    signal: &G3Signal,
    octets: &[u8],
    side: u32,
    last: u32,
    buffer: &mut [u8],
    count: &mut u64,
) -> u32
    ensures answers { AnswersWrite (meant signal.now octets.now) (side_of side) (is_set last) buffer.old buffer.new count.old count.new result }
    ensures reads { result ≡ 0 → IfOk (meant signal.now octets.now) (λ signal. read_content (take count.new buffer.new) ≡ Ok signal) }
{
    let Some(side) = side_of(side) else {
        return BAD_CHOICE;
    };
    match meant(signal, octets) {
        Ok(signal) => copy_out(&write(&signal, side, last != 0), buffer, count),
        Err(status) => status,
    }
}
