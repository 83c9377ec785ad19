//! Signals as structs of numbers, for C.

ghost use Rattle.g3fax.specs.Signals.{bare, dis_told, octets_of, params_told, told};
ghost use Rattle.g3fax.specs.SignalNumbers.{coding_number, end_of_number, frame_number, kind_of, modems_number, modems_of_number};
ghost use Rattle.g3fax.specs.SignalNumbers.{page_end_number, speed_of_number};
ghost use Rattle.signals.specs.Signals.{plain};
ghost use Rattle.std.specs.Prelude.{◌≡◌};

use crate::beginning::modems_of;
use crate::numbers::speed_number;
use page_code::Coding;
use signals::{Caps, Modems, PageEnd, Params, Signal, Speed};

/// What a DIS says of a station, by numbers: 1 for yes, 0 for no.
#[repr(C)]
#[derive(Clone, Copy)]
pub struct G3Dis {
    /// Whether it receives pages.
    pub receiver: u32,
    /// Its modems: 1 for V.27 ter alone, 2 for V.27 ter and V.29, 3 for these and V.17, 4 for V.29 alone, 5 for V.27 ter at 2,400 bits a
    /// second alone.
    pub modems: u32,
    /// Whether it takes pages of 7.7 lines a millimeter.
    pub fine: u32,
    /// The width of its widest page in pixels: 1,728, 2,048 or 2,432.
    pub widest: u32,
    /// Whether it reads the code of T.6.
    pub t6: u32,
    /// Whether it has the error correction mode.
    pub ecm: u32,
}

/// How pages are sent, as a DCS says it, by numbers.
#[repr(C)]
#[derive(Clone, Copy)]
pub struct G3Params {
    /// The carrier of the pages, 2 to 9.
    pub carrier: u32,
    /// 1 if the pages have 7.7 lines a millimeter, otherwise 0.
    pub fine: u32,
    /// The width of the pages in pixels: 1,728, 2,048 or 2,432.
    pub width: u32,
    /// The code of the pages: 1 for T.4 in one dimension, 2 for T.6.
    pub coding: u32,
    /// The octets of data in a frame: 256 or 64.
    pub frame: u32,
}

/// What a PPS says of a block by numbers.
#[repr(C)]
#[derive(Clone, Copy)]
pub struct G3Block {
    /// What ends with the block: 1 for it alone, 2 for a page of the group (MPS), 3 for the group (EOM), 4 for the document (EOP).
    pub ends: u32,
    /// The number of the page modulo 256.
    pub page: u32,
    /// The number of the block in its page modulo 256.
    pub block: u32,
    /// The number of the block's last frame.
    pub last: u32,
}

/// A signal by numbers: its kind, and what it says; what belongs to other kinds is 0.
#[repr(C)]
#[derive(Clone, Copy)]
pub struct G3Signal {
    // one struct for all kinds, since no enum crosses to C; the octets go by a slice of their own
    /// How many octets belong to it: an FCD's data, or the 32 of a PPR's bits.
    pub length: u64,
    /// The kind: 1 for DIS, 2 DCS, 3 CFR, 4 FTT, 5 FCD, 6 RCP, 7 PPS, 8 PPR, 9 MCF, 10 RNR, 11 RR, 12 DCN, 13 for any other.
    pub kind: u32,
    /// What a DIS says.
    pub dis: G3Dis,
    /// What a DCS says.
    pub dcs: G3Params,
    /// What a PPS says.
    pub pps: G3Block,
    /// The number of an FCD's frame.
    pub number: u32,
    /// The facsimile control field of any other signal, one octet.
    pub control: u32,
}

/// The kinds of signals that can be written.
#[derive(Clone, Copy, Debug, PartialEq, Eq)]
pub enum Kind {
    /// DIS.
    Dis,
    /// DCS.
    Dcs,
    /// CFR.
    Cfr,
    /// FTT.
    Ftt,
    /// FCD.
    Fcd,
    /// RCP.
    Rcp,
    /// PPS.
    Pps,
    /// PPR.
    Ppr,
    /// MCF.
    Mcf,
    /// RNR.
    Rnr,
    /// RR.
    Rr,
    /// DCN.
    Dcn,
}

/// The kind of a number.
pub(crate) fn kind_of(number: u32) -> Option<Kind>
    ensures { result ≡ kind_of number }
{
    match number {
        1 => Some(Kind::Dis),
        2 => Some(Kind::Dcs),
        3 => Some(Kind::Cfr),
        4 => Some(Kind::Ftt),
        5 => Some(Kind::Fcd),
        6 => Some(Kind::Rcp),
        7 => Some(Kind::Pps),
        8 => Some(Kind::Ppr),
        9 => Some(Kind::Mcf),
        10 => Some(Kind::Rnr),
        11 => Some(Kind::Rr),
        12 => Some(Kind::Dcn),
        _ => None,
    }
}

/// The number of the modems of a DIS.
fn modems_number(modems: Modems) -> u32
    ensures { result ≡ modems_number modems }
{
    match modems {
        Modems::V27 => 1,
        Modems::V27V29 => 2,
        Modems::V17 => 3,
        Modems::V29 => 4,
        Modems::Fallback => 5,
    }
}

/// The modems of a DIS by their number.
pub(crate) fn modems_of_number(number: u32) -> Option<Modems>
    ensures { result ≡ modems_of_number number }
{
    match number {
        4 => Some(Modems::V29),
        5 => Some(Modems::Fallback),
        _ => modems_of(number),
    }
}

/// The number of a code.
pub(crate) fn coding_number(coding: Coding) -> u32
    ensures { result ≡ coding_number coding }
{
    match coding {
        Coding::OneDim => 1,
        Coding::T6 => 2,
    }
}

/// The octets of data in a frame.
fn frame_number(small: bool) -> u32
    ensures { result ≡ frame_number small }
{
    if small { 64 } else { 256 }
}

/// The speed of the number of a carrier.
pub(crate) fn speed_of_number(number: u32) -> Option<Speed>
    ensures { result ≡ speed_of_number number }
{
    match number {
        2 => Some(Speed::V27At2400),
        3 => Some(Speed::V27At4800),
        4 => Some(Speed::V29At7200),
        5 => Some(Speed::V29At9600),
        6 => Some(Speed::V17At7200),
        7 => Some(Speed::V17At9600),
        8 => Some(Speed::V17At12000),
        9 => Some(Speed::V17At14400),
        _ => None,
    }
}

/// The number of what ends with a block.
fn page_end_number(ends: PageEnd) -> u32
    ensures { result ≡ page_end_number ends }
{
    match ends {
        PageEnd::Null => 1,
        PageEnd::Mps => 2,
        PageEnd::Eom => 3,
        PageEnd::Eop => 4,
    }
}

/// What ends with a block, by its number.
pub(crate) fn end_of_number(number: u32) -> Option<PageEnd>
    ensures { result ≡ end_of_number number }
{
    match number {
        1 => Some(PageEnd::Null),
        2 => Some(PageEnd::Mps),
        3 => Some(PageEnd::Eom),
        4 => Some(PageEnd::Eop),
        _ => None,
    }
}

/// A signal of a kind that says nothing more.
fn bare(kind: u32) -> G3Signal
    ensures { result ≡ bare kind }
{
    G3Signal {
        length: 0,
        kind,
        dis: G3Dis {
            receiver: 0,
            modems: 0,
            fine: 0,
            widest: 0,
            t6: 0,
            ecm: 0,
        },
        dcs: G3Params {
            carrier: 0,
            fine: 0,
            width: 0,
            coding: 0,
            frame: 0,
        },
        pps: G3Block {
            ends: 0,
            page: 0,
            block: 0,
            last: 0,
        },
        number: 0,
        control: 0,
    }
}

/// What a DIS says, by numbers.
fn dis_told(caps: &Caps) -> G3Dis
    ensures { result ≡ dis_told caps.now }
{
    G3Dis {
        receiver: caps.receiver as u32,
        modems: modems_number(caps.modems),
        fine: caps.fine as u32,
        widest: caps.widest.pixels(),
        t6: caps.t6 as u32,
        ecm: caps.ecm as u32,
    }
}

/// How pages are sent, by numbers.
pub(crate) fn params_told(params: &Params) -> G3Params
    ensures { result ≡ params_told params.now }
{
    G3Params {
        carrier: speed_number(params.speed),
        fine: params.fine as u32,
        width: params.width.pixels(),
        coding: coding_number(params.coding),
        frame: frame_number(params.small),
    }
}

/// The octets that come with a signal: an FCD's data, and a PPR's bits.
pub(crate) fn octets_of<'a>(signal: &'a Signal<'a>) -> &'a [u8]
    ensures { result.now ≡ octets_of (plain signal.now) }
{
    match signal {
        Signal::Fcd { octets, .. } => octets,
        Signal::Ppr(map) => map,
        _ => &[],
    }
}

/// What a signal says, by numbers.
pub(crate) fn told(signal: &Signal) -> G3Signal
    ensures { result ≡ told (plain signal.now) }
{
    let length = octets_of(signal).len() as u64;
    match signal {
        Signal::Dis(caps) => G3Signal {
            dis: dis_told(caps),
            ..bare(1)
        },
        Signal::Dcs(params) => G3Signal {
            dcs: params_told(params),
            ..bare(2)
        },
        Signal::Cfr => bare(3),
        Signal::Ftt => bare(4),
        Signal::Fcd { number, .. } => G3Signal {
            length,
            number: *number as u32,
            ..bare(5)
        },
        Signal::Rcp => bare(6),
        Signal::Pps {
            ends,
            page,
            block,
            last,
        } => G3Signal {
            pps: G3Block {
                ends: page_end_number(*ends),
                page: *page as u32,
                block: *block as u32,
                last: *last as u32,
            },
            ..bare(7)
        },
        Signal::Ppr(_) => G3Signal { length, ..bare(8) },
        Signal::Mcf => bare(9),
        Signal::Rnr => bare(10),
        Signal::Rr => bare(11),
        Signal::Dcn => bare(12),
        Signal::Other(octet) => G3Signal {
            control: *octet as u32,
            ..bare(13)
        },
    }
}
