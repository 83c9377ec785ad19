//! What signals say in words, as `frames --explain` shows it.

ghost use Rattle.faults.specs.Faults.{IsOutside};
ghost use Rattle.captures.specs.SignalWords.{code_words, coding_words, content_words, correction_words, dcs_words, dis_words, frame_after};
ghost use Rattle.captures.specs.SignalWords.{frame_text, is_in_map, is_other, is_read_of_dcs, is_read_of_dis, lines_words, modems_words};
ghost use Rattle.captures.specs.SignalWords.{other_after, others_text, page_end_words, ppr_words, pps_words, receiver_words, speed_words};
ghost use Rattle.captures.specs.Below.{texts_below};
ghost use Rattle.captures.specs.SignalWords.{words_of};
ghost use Rattle.signals.specs.Signals.{plain};
ghost use Rattle.std.specs.Io.KnownBytes.{Appends};
ghost use Rattle.std.specs.Fmt.{decimal};
ghost use Rattle.std.specs.Prelude.{◌≡◌, ◌<◌, ◌+◌, ◌*◌, ◌++◌, ◌∷◌, ◌||◌, [], IfErr, IfOk, OnOk, codes, cond, drop, length};

use crate::other_words::write_named;
use faults::ToolFault;
use page_code::Coding;
use raster::packed::{Order, bit_of};
use signals::{Caps, Modems, PageEnd, Params, Signal, Speed, read};
use std::io::Write;

/// The modems of a station.
fn modems_words(modems: Modems) -> &'static str
    ensures { result.now ≡ modems_words modems }
{
    match modems {
        Modems::Fallback => "V.27 ter at 2400 bit/s",
        Modems::V27 => "V.27 ter",
        Modems::V29 => "V.29",
        Modems::V27V29 => "V.27 ter, V.29",
        Modems::V17 => "V.27 ter, V.29, V.17",
    }
}

/// A modulation and its speed.
fn speed_words(speed: Speed) -> &'static str
    ensures { result.now ≡ speed_words speed }
{
    match speed {
        Speed::V27At2400 => "V.27 ter at 2400 bit/s",
        Speed::V27At4800 => "V.27 ter at 4800 bit/s",
        Speed::V29At7200 => "V.29 at 7200 bit/s",
        Speed::V29At9600 => "V.29 at 9600 bit/s",
        Speed::V17At7200 => "V.17 at 7200 bit/s",
        Speed::V17At9600 => "V.17 at 9600 bit/s",
        Speed::V17At12000 => "V.17 at 12000 bit/s",
        Speed::V17At14400 => "V.17 at 14400 bit/s",
    }
}

/// The lines of pages.
fn lines_words(fine: bool) -> &'static str
    ensures { result.now ≡ lines_words fine }
{
    if fine { "fine lines" } else { "standard lines" }
}

/// Returns the words that say whether T.6 is read too.
fn code_words(t6: bool) -> &'static str
    ensures { result.now ≡ code_words t6 }
{
    if t6 { "T.6" } else { "T.4 one-dimensional" }
}

/// The code of pages.
fn coding_words(coding: Coding) -> &'static str
    ensures { result.now ≡ coding_words coding }
{
    match coding {
        Coding::OneDim => code_words(false),
        Coding::T6 => code_words(true),
    }
}

/// Returns the words that say whether a station receives.
fn receiver_words(receiver: bool) -> &'static str
    ensures { result.now ≡ receiver_words receiver }
{
    if receiver {
        "receives"
    } else {
        "doesn't receive"
    }
}

/// Returns the words that say whether errors are corrected.
fn correction_words(ecm: bool) -> &'static str
    ensures { result.now ≡ correction_words ecm }
{
    if ecm {
        "error correction"
    } else {
        "no error correction"
    }
}

/// What ends with the block of a PPS.
fn page_end_words(ends: PageEnd) -> &'static str
    ensures { result.now ≡ page_end_words ends }
{
    match ends {
        PageEnd::Null => "the page goes on",
        PageEnd::Mps => "the page ends, and another one follows",
        PageEnd::Eom => "the page ends, and another one follows after a new DIS",
        PageEnd::Eop => "the last page ends",
    }
}

/// Writes what a DIS says, without the end of the line.
fn write_dis<W: Write>(caps: Caps, writer: &mut W) -> Result<(), ToolFault>
    ensures text { OnOk result (Appends (W.contents writer.old) (W.contents writer.new) (dis_words caps)) }
    ensures fault { IfErr result IsOutside }
{
    write!(
        writer,
        "    {}; {}; {}; up to {} pixels; {}; {}",
        receiver_words(caps.receiver),
        modems_words(caps.modems),
        lines_words(caps.fine),
        caps.widest.pixels(),
        code_words(caps.t6),
        correction_words(caps.ecm),
    )?;
    Ok(())
}

/// Writes what a DCS says, without the end of the line.
fn write_dcs<W: Write>(params: Params, writer: &mut W) -> Result<(), ToolFault>
    ensures text { OnOk result (Appends (W.contents writer.old) (W.contents writer.new) (dcs_words params)) }
    ensures fault { IfErr result IsOutside }
{
    let octets = if params.small { "64" } else { "256" };
    write!(
        writer,
        "    {}; {}; {} pixels; {}; frames of {octets} octets",
        speed_words(params.speed),
        lines_words(params.fine),
        params.width.pixels(),
        coding_words(params.coding),
    )?;
    Ok(())
}

/// Returns whether a bit of a DIS is read, by its number.
fn is_read_of_dis(number: u128) -> bool
    ensures { result ≡ is_read_of_dis number }
{
    (9 < number && number < 16)
        || number == 17
        || number == 18
        || number == 24
        || number == 27
        || number == 31
}

/// Returns whether a bit of a DCS is read, by its number.
fn is_read_of_dcs(number: u128) -> bool
    ensures { result ≡ is_read_of_dcs number }
{
    (10 < number && number < 19) || number == 24 || number == 27 || number == 28 || number == 31
}

/// Returns whether this bit of the information field of a DCS or DIS is 1 and isn't read.
fn is_other(of_dcs: bool, fields: &[u8], at: u128) -> bool
    requires { at < 8 * length fields.now }
    ensures { result ≡ is_other of_dcs fields.now at }
{
    // up to the end of the field, whatever its extension bits say
    if !bit_of(Order::LsbFirst, fields, at) {
        return false;
    }
    if of_dcs {
        return !is_read_of_dcs(at + 1);
    }
    !is_read_of_dis(at + 1)
}

/// Writes the number of a bit that is 1 and isn't read, after words or a comma.
fn write_other<W: Write>(number: u128, some: bool, writer: &mut W) -> Result<(), ToolFault>
    ensures text { OnOk result (Appends (W.contents writer.old) (W.contents writer.new)
        (cond some (codes ", ") (codes "; other bits ") ++ decimal number)) }
    ensures fault { IfErr result IsOutside }
{
    let before = if some { ", " } else { "; other bits " };
    write!(writer, "{before}{number}")?;
    Ok(())
}

/// Adds this bit to the list of bits that are 1 and not read, if it is one. Returns whether the list has any now.
fn add_other<W: Write>(
    of_dcs: bool,
    fields: &[u8],
    at: u128,
    some: bool,
    writer: &mut W,
) -> Result<bool, ToolFault>
    requires { at < 8 * length fields.now }
    ensures some { IfOk result (λ now. now ≡ (is_other of_dcs fields.now at || some)) }
    ensures text { OnOk result (Appends (W.contents writer.old) (W.contents writer.new) (other_after some of_dcs fields.now at)) }
    ensures fault { IfErr result IsOutside }
{
    if !is_other(of_dcs, fields, at) {
        return Ok(some);
    }
    write_other(at + 1, some, writer)?;
    Ok(true)
}

/// Writes the numbers of the bits that are 1 and not read, if there are any.
fn write_others<W: Write>(of_dcs: bool, fields: &[u8], writer: &mut W) -> Result<(), ToolFault>
    ensures text { OnOk result (Appends (W.contents writer.old) (W.contents writer.new) (others_text of_dcs fields.now)) }
    ensures fault { IfErr result IsOutside }
{
    let mut some = false;
    for at in 0..8 * fields.len() as u128 {
        some = add_other(of_dcs, fields, at, some, writer)?;
    }
    Ok(())
}

/// Writes the numbers of the bits that are 1 and not read, and the end of the line.
fn end_fields<W: Write>(of_dcs: bool, fields: &[u8], writer: &mut W) -> Result<(), ToolFault>
    ensures text { OnOk result (Appends (W.contents writer.old) (W.contents writer.new) (others_text of_dcs fields.now ++ 10 ∷ [])) }
    ensures fault { IfErr result IsOutside }
{
    write_others(of_dcs, fields, writer)?;
    writeln!(writer)?;
    Ok(())
}

/// Writes the line of a PPS.
fn write_pps<W: Write>(
    ends: PageEnd,
    page: u8,
    block: u8,
    last: u8,
    writer: &mut W,
) -> Result<(), ToolFault>
    ensures text { OnOk result (Appends (W.contents writer.old) (W.contents writer.new) (pps_words ends page block last)) }
    ensures fault { IfErr result IsOutside }
{
    let end = page_end_words(ends);
    writeln!(
        writer,
        "    page {page}, block {block}; frames 0 to {last}; {end}"
    )?;
    Ok(())
}

/// Returns whether a frame is marked in the map of a PPR.
pub fn is_in_map(map: &[u8; 32], number: u16) -> bool
    ensures { result ≡ is_in_map map.now number }
{
    number < 256 && bit_of(Order::LsbFirst, map, u128::from(number))
}

/// Writes the number of the first frame of a range, after a space or a comma.
fn write_first<W: Write>(number: u16, some: bool, writer: &mut W) -> Result<(), ToolFault>
    ensures text { OnOk result (Appends (W.contents writer.old) (W.contents writer.new)
        (cond some (codes ", ") (codes " ") ++ decimal number)) }
    ensures fault { IfErr result IsOutside }
{
    let before = if some { ", " } else { " " };
    write!(writer, "{before}{number}")?;
    Ok(())
}

/// Writes what a frame adds to the list of marked frames; `some` if a frame before it is marked.
fn write_marked<W: Write>(
    map: &[u8; 32],
    number: u16,
    some: bool,
    writer: &mut W,
) -> Result<(), ToolFault>
    requires { number < 256 }
    ensures text { OnOk result (Appends (W.contents writer.old) (W.contents writer.new) (frame_after some map.now number)) }
    ensures fault { IfErr result IsOutside }
{
    if !is_in_map(map, number) {
        return Ok(());
    }
    if 0 < number && is_in_map(map, number - 1) {
        if is_in_map(map, number + 1) {
            return Ok(());
        }
        write!(writer, " to {number}")?;
        return Ok(());
    }
    write_first(number, some, writer)
}

/// Writes the frames that are marked in a map.
fn write_map<W: Write>(map: &[u8; 32], writer: &mut W) -> Result<(), ToolFault>
    ensures text { OnOk result (Appends (W.contents writer.old) (W.contents writer.new) (texts_below (frame_text map.now) 256)) }
    ensures fault { IfErr result IsOutside }
{
    let mut some = false;
    // all frames that it marks, also past the last one of its block
    for number in 0u16..256 {
        write_marked(map, number, some, writer)?;
        some = is_in_map(map, number) || some;
    }
    Ok(())
}

/// Writes the line of a PPR.
fn write_ppr<W: Write>(map: &[u8; 32], writer: &mut W) -> Result<(), ToolFault>
    ensures text { OnOk result (Appends (W.contents writer.old) (W.contents writer.new) (ppr_words map.now)) }
    ensures fault { IfErr result IsOutside }
{
    write!(writer, "    again: frames")?;
    write_map(map, writer)?;
    writeln!(writer)?;
    Ok(())
}

/// Returns the information field of a content: what follows the address, the control and the facsimile control field.
fn fields_of(content: &[u8]) -> &[u8]
    ensures { result.now ≡ drop 3 content.now }
{
    content.get(3..).unwrap_or(&[])
}

/// Writes the line of words of a DIS, DCS, PPS or PPR, or of a frame that is none of the stations' signals and has a name; nothing for
/// others. A DIS or DCS lists the bits of this information field that are 1 and not read, by their numbers (T.30, table 2). Errors: `Io` (8) from the writer, `NoMemory` (9).
pub fn write_signal<W: Write>(
    signal: &Signal<'_>,
    fields: &[u8],
    writer: &mut W,
) -> Result<(), ToolFault>
    ensures text { OnOk result (Appends (W.contents writer.old) (W.contents writer.new) (words_of fields.now (plain signal.now))) }
    ensures fault { IfErr result IsOutside }
{
    match signal {
        Signal::Dis(caps) => {
            write_dis(*caps, writer)?;
            end_fields(false, fields, writer)
        }
        Signal::Dcs(params) => {
            write_dcs(*params, writer)?;
            end_fields(true, fields, writer)
        }
        Signal::Pps {
            ends,
            page,
            block,
            last,
        } => write_pps(*ends, *page, *block, *last, writer),
        Signal::Ppr(map) => write_ppr(map, writer),
        Signal::Other(octet) => write_named(*octet, fields, writer),
        Signal::Cfr | Signal::Ftt | Signal::Fcd { .. } | Signal::Rcp => Ok(()),
        Signal::Mcf | Signal::Rnr | Signal::Rr | Signal::Dcn => Ok(()),
    }
}

/// Writes the line of words of a content, as `write_signal` does of its signal.
pub(crate) fn write_words<W: Write>(content: &[u8], writer: &mut W) -> Result<(), ToolFault>
    ensures text { OnOk result (Appends (W.contents writer.old) (W.contents writer.new) (content_words content.now)) }
    ensures fault { IfErr result IsOutside }
{
    match read(content) {
        Ok(signal) => write_signal(&signal, fields_of(content), writer),
        Err(_) => Ok(()),
    }
}
