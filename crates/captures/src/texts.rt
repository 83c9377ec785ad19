//! The texts of signals and contents, as `frames` shows them.

ghost use Rattle.captures.specs.Texts.{coding_text, lines_text, marked_frames, modems_text, name_of, page_end_text, signal_text, speed_text, with_name};
ghost use Rattle.signals.specs.Signals.{other, plain};
ghost use Rattle.std.specs.Fmt.{DisplaysOnOk};
ghost use Rattle.std.specs.Prelude.{◌≡◌, cond};

use crate::other_words::other_name;
use faults::ToolFault;
use page_code::Coding;
use raster::packed::{Order, bit_of};
use signals::{Modems, PageEnd, Signal, Speed, read};
use std::fmt;

/// One of two words.
pub(crate) fn either(first: bool, yes: &'static str, no: &'static str) -> &'static str
    ensures { result.now ≡ cond first yes.now no.now }
{
    if first { yes } else { no }
}

/// `fine` for 7.7 lines a millimetre, else `standard`.
pub(crate) fn lines(fine: bool) -> &'static str
    ensures { result.now ≡ lines_text fine }
{
    either(fine, "fine", "standard")
}

/// The modems of a station.
pub(crate) fn modems(modems: Modems) -> &'static str
    ensures { result.now ≡ modems_text modems }
{
    match modems {
        Modems::Fallback => "fallback",
        Modems::V27 => "v27",
        Modems::V29 => "v29",
        Modems::V27V29 => "v27v29",
        Modems::V17 => "v17",
    }
}

/// The modulation and the speed in bits a second.
pub(crate) fn speed(speed: Speed) -> &'static str
    ensures { result.now ≡ speed_text speed }
{
    match speed {
        Speed::V27At2400 => "v27-2400",
        Speed::V27At4800 => "v27-4800",
        Speed::V29At7200 => "v29-7200",
        Speed::V29At9600 => "v29-9600",
        Speed::V17At7200 => "v17-7200",
        Speed::V17At9600 => "v17-9600",
        Speed::V17At12000 => "v17-12000",
        Speed::V17At14400 => "v17-14400",
    }
}

/// The code of pages.
pub(crate) fn coding(coding: Coding) -> &'static str
    ensures { result.now ≡ coding_text coding }
{
    match coding {
        Coding::OneDim => "mh",
        Coding::T6 => "t6",
    }
}

/// What ends with a block.
pub(crate) fn page_end(ends: PageEnd) -> &'static str
    ensures { result.now ≡ page_end_text ends }
{
    match ends {
        PageEnd::Null => "NULL",
        PageEnd::Mps => "MPS",
        PageEnd::Eom => "EOM",
        PageEnd::Eop => "EOP",
    }
}

/// How many frames are marked in a map.
fn marked(map: &[u8; 32]) -> u32
    ensures { result ≡ marked_frames map.now }
{
    let mut count = 0;
    for number in 0u16..256 {
        count += bit_of(Order::LsbFirst, map, number as u128) as u32;
    }
    count
}

/// Another signal, by its facsimile control field in two hex digits.
fn other<W: fmt::Write>(octet: u8, f: &mut fmt::Formatter<W>) -> fmt::Result
    ensures { DisplaysOnOk W.write_str_gives f.old result (Some (signal_text (other octet))) f.new }
{
    write!(f, "other {octet:02x}")
}

/// A signal's name and what it says.
#[derive(Debug, Drop)]
pub struct SignalText<'a>(pub &'a Signal<'a>);

impl fmt::Display for SignalText<'_> {
    ghost use Rattle.std.specs.Prelude.{Some};
    ghost use Rattle.signals.specs.Signals.{plain};
    ghost use Rattle.captures.specs.Texts.{signal_text};

    ghost output = { λ text. Some (signal_text (plain text.0.now)) };

    fn fmt<W: fmt::Write>(&self, f: &mut fmt::Formatter<W>) -> fmt::Result {
        match self.0 {
            Signal::Dis(caps) => write!(
                f,
                "DIS {} {} {} {} {} {}",
                either(caps.receiver, "receiver", "noreceiver"),
                modems(caps.modems),
                lines(caps.fine),
                caps.widest.pixels(),
                either(caps.t6, "t6", "mh"),
                either(caps.ecm, "ecm", "noecm"),
            ),
            Signal::Dcs(params) => write!(
                f,
                "DCS {} {} {} {} {}",
                speed(params.speed),
                lines(params.fine),
                params.width.pixels(),
                coding(params.coding),
                either(params.small, "64", "256"),
            ),
            Signal::Cfr => write!(f, "CFR"),
            Signal::Ftt => write!(f, "FTT"),
            Signal::Fcd { number, octets } => write!(f, "FCD {number} {}", octets.len()),
            Signal::Rcp => write!(f, "RCP"),
            Signal::Pps {
                ends,
                page,
                block,
                last,
            } => write!(
                f,
                "PPS {} page {page} block {block} last {last}",
                page_end(*ends),
            ),
            Signal::Ppr(map) => write!(f, "PPR {}", marked(map)),
            Signal::Mcf => write!(f, "MCF"),
            Signal::Rnr => write!(f, "RNR"),
            Signal::Rr => write!(f, "RR"),
            Signal::Dcn => write!(f, "DCN"),
            Signal::Other(octet) => other(*octet, f),
        }
    }
}

/// What a frame's content says; if it is no signal, `fault` and the number of its fault.
#[derive(Debug, Drop)]
pub struct ContentText<'a>(pub &'a [u8]);

impl fmt::Display for ContentText<'_> {
    ghost use Rattle.std.specs.Prelude.{Some};
    ghost use Rattle.captures.specs.Texts.{content_text};

    ghost output = { λ text. Some (content_text text.0.now) };

    fn fmt<W: fmt::Write>(&self, f: &mut fmt::Formatter<W>) -> fmt::Result {
        match read(self.0) {
            Ok(signal) => write!(f, "{}", SignalText(&signal)),
            Err(fault) => write!(f, "{}", ToolFault::No(fault.number())),
        }
    }
}

/// Returns the name of a frame that is no signal of these stations; empty if it has none, and for their signals.
fn name_of(signal: &Signal<'_>) -> &'static str
    ensures { result.now ≡ name_of (plain signal.now) }
{
    match signal {
        Signal::Other(octet) => other_name(*octet),
        Signal::Dis(_) | Signal::Dcs(_) | Signal::Cfr | Signal::Ftt | Signal::Fcd { .. } => "",
        Signal::Rcp | Signal::Pps { .. } | Signal::Ppr(_) | Signal::Mcf | Signal::Rnr => "",
        Signal::Rr | Signal::Dcn => "",
    }
}

/// Writes a signal, and a name after it, if it isn't empty.
fn with_name<W: fmt::Write>(
    signal: &Signal<'_>,
    name: &str,
    f: &mut fmt::Formatter<W>,
) -> fmt::Result
    ensures { DisplaysOnOk W.write_str_gives f.old result
        (Some (with_name (signal_text (plain signal.now)) name.now)) f.new }
{
    if name.is_empty() {
        return write!(f, "{}", SignalText(signal));
    }
    write!(f, "{} {name}", SignalText(signal))
}

/// What `ContentText` says of a frame's content, and the name of one that is no signal of these stations, if it has one.
#[derive(Debug, Drop)]
pub struct NamedText<'a>(pub &'a [u8]);

impl fmt::Display for NamedText<'_> {
    ghost use Rattle.std.specs.Prelude.{Some};
    ghost use Rattle.captures.specs.Texts.{named_text};

    ghost output = { λ text. Some (named_text text.0.now) };

    fn fmt<W: fmt::Write>(&self, f: &mut fmt::Formatter<W>) -> fmt::Result {
        match read(self.0) {
            Ok(signal) => with_name(&signal, name_of(&signal), f),
            Err(fault) => write!(f, "{}", ToolFault::No(fault.number())),
        }
    }
}
