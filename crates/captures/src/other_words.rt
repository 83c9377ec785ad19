//! What frames that are no signals of these stations say in words, as `frames --explain` shows it: their names, and the digits of some.

ghost use Rattle.captures.specs.OtherWords.{after_name, asking_name, command_name, either_name, line_name, response_name, security_name};
ghost use Rattle.captures.specs.OtherWords.{has_signs, is_shown, name_line, other_name, other_words, sign_after, sign_text, signs_text, signs_words};
ghost use Rattle.faults.specs.Faults.{IsOutside};
ghost use Rattle.std.specs.Io.KnownBytes.{Appends};
ghost use Rattle.std.specs.Prelude.{◌≡◌, ◌<◌, ◌||◌, IfErr, IfOk, OnOk, length};

use faults::ToolFault;
use std::io::Write;

/// Returns the name of a frame by which a station tells what it is, or asks for a page; empty of others.
fn asking_name(octet: u8) -> &'static str
    ensures { result.now ≡ asking_name octet }
{
    match octet {
        0x20 => "NSF",
        0x21 => "NSC",
        0x40 => "CSI",
        0x41 => "CIG",
        0x81 => "DTC",
        0xA1 => "SEP",
        0xC1 => "PWD",
        0x61 => "PSA",
        0xE1 => "CIA",
        0x11 => "ISP",
        _ => "",
    }
}

/// Returns the name of a command before a page; empty of others.
fn command_name(octet: u8) -> &'static str
    ensures { result.now ≡ command_name octet }
{
    match octet {
        0x22 | 0x23 => "NSS",
        0x42 | 0x43 => "TSI",
        0xA2 | 0xA3 => "SID",
        0xC2 | 0xC3 => "SUB",
        0x62 | 0x63 => "TSA",
        0xE2 | 0xE3 => "IRA",
        0x12 | 0x13 => "CTC",
        0x82 | 0x83 => "DCS",
        _ => "",
    }
}

/// Returns the name of a response to such a command, or of what controls the line; empty of others.
fn line_name(octet: u8) -> &'static str
    ensures { result.now ≡ line_name octet }
{
    match octet {
        0xC4 | 0xC5 => "CTR",
        0x24 | 0x25 => "CSA",
        0x1A | 0x1B => "CRP",
        0xEA | 0xEB => "TNR",
        0x6A | 0x6B => "TR",
        0xCA | 0xCB => "FNV",
        _ => "",
    }
}

/// Returns the name of a command after a page; empty of others.
fn after_name(octet: u8) -> &'static str
    ensures { result.now ≡ after_name octet }
{
    match octet {
        0x8E | 0x8F => "EOM",
        0x4E | 0x4F => "MPS",
        0x2E | 0x2F => "EOP",
        0x9E | 0x9F => "PRI-EOM",
        0x5E | 0x5F => "PRI-MPS",
        0x3E | 0x3F => "PRI-EOP",
        0xCE | 0xCF => "EOR",
        0x1E | 0x1F => "EOS",
        0xBE | 0xBF => "PPS",
        _ => "",
    }
}

/// Returns the name of a response to such a command; empty of others.
fn response_name(octet: u8) -> &'static str
    ensures { result.now ≡ response_name octet }
{
    match octet {
        0xCC | 0xCD => "RTP",
        0x4C | 0x4D => "RTN",
        0xAC | 0xAD => "PIP",
        0x2C | 0x2D => "PIN",
        0x6C | 0x6D => "PID",
        0x1C | 0x1D => "ERR",
        0xFC | 0xFD => "FDM",
        _ => "",
    }
}

/// Returns the name of a frame of a call with security (T.30, annexes G and H); empty of others.
fn security_name(octet: u8) -> &'static str
    ensures { result.now ≡ security_name octet }
{
    match octet {
        0xA0 => "DES",
        0x93 => "DEC",
        0x53 => "DER",
        0x9A | 0x9B => "DNK",
        0x4A => "RK",
        0x4B => "TK",
        _ => "",
    }
}

/// Returns the first of two names, unless it is empty.
fn either_name(name: &'static str, other: &'static str) -> &'static str
    ensures { result.now ≡ either_name name.now other.now }
{
    if name.is_empty() { other } else { name }
}

/// Returns the name of a frame by its facsimile control field (T.30, 5.3.6.1, A.4, and annexes G and H); empty if it has none.
pub fn other_name(octet: u8) -> &'static str
    ensures { result.now ≡ other_name octet }
{
    let before = either_name(asking_name(octet), command_name(octet));
    let after = either_name(after_name(octet), response_name(octet));
    let others = either_name(line_name(octet), security_name(octet));
    either_name(before, either_name(others, after))
}

/// Returns whether the information field of a frame is a number or a name by the signs of a telephone.
fn has_signs(octet: u8) -> bool
    ensures { result ≡ has_signs octet }
{
    match octet {
        0x40 | 0x41 | 0x42 | 0x43 => true,
        0xA1 | 0xA2 | 0xA3 | 0xC1 | 0xC2 | 0xC3 => true,
        _ => false,
    }
}

/// Returns a sign of a telephone as text (T.30, table 3), and `?` for any other octet.
fn sign_text(octet: u8) -> &'static str
    ensures { result.now ≡ sign_text octet }
{
    match octet {
        b' ' => " ",
        b'#' => "#",
        b'*' => "*",
        b'+' => "+",
        b'0' => "0",
        b'1' => "1",
        b'2' => "2",
        b'3' => "3",
        b'4' => "4",
        b'5' => "5",
        b'6' => "6",
        b'7' => "7",
        b'8' => "8",
        b'9' => "9",
        _ => "?",
    }
}

/// Writes the sign of a place from the left, unless it is a space before the first other one. Returns whether one has come by now.
fn write_sign<W: Write>(
    fields: &[u8],
    at: usize,
    begun: bool,
    writer: &mut W,
) -> Result<bool, ToolFault>
    requires { at < length fields.now }
    ensures begun { IfOk result (λ now. now ≡ (is_shown fields.now at || begun)) }
    ensures text { OnOk result (Appends (W.contents writer.old) (W.contents writer.new) (sign_after begun fields.now at)) }
    ensures fault { IfErr result IsOutside }
{
    // the last sign is sent first
    let octet = fields[fields.len() - (at + 1)];
    let shown = octet != b' ';
    if !shown && !begun {
        return Ok(false);
    }
    write!(writer, "{}", sign_text(octet))?;
    Ok(true)
}

/// Writes the signs of an information field from the left, without the spaces before the first one. Errors: `Io` (8) from the writer,
/// `NoMemory` (9).
pub fn write_signs<W: Write>(fields: &[u8], writer: &mut W) -> Result<(), ToolFault>
    ensures text { OnOk result (Appends (W.contents writer.old) (W.contents writer.new) (signs_text fields.now)) }
    ensures fault { IfErr result IsOutside }
{
    let mut begun = false;
    for at in 0..fields.len() {
        begun = write_sign(fields, at, begun, writer)?;
    }
    Ok(())
}

/// Writes what follows the name of a frame: the signs of its information field, if it has some.
fn write_number<W: Write>(octet: u8, fields: &[u8], writer: &mut W) -> Result<(), ToolFault>
    ensures text { OnOk result (Appends (W.contents writer.old) (W.contents writer.new) (signs_words octet fields.now)) }
    ensures fault { IfErr result IsOutside }
{
    if !has_signs(octet) {
        return Ok(());
    }
    write!(writer, ": ")?;
    write_signs(fields, writer)
}

/// Writes the line of words of a frame of this name, and nothing if it is empty.
fn write_name<W: Write>(
    name: &str,
    octet: u8,
    fields: &[u8],
    writer: &mut W,
) -> Result<(), ToolFault>
    ensures text { OnOk result (Appends (W.contents writer.old) (W.contents writer.new)
        (name_line name.now octet fields.now)) }
    ensures fault { IfErr result IsOutside }
{
    if name.is_empty() {
        return Ok(());
    }
    write!(writer, "    {name}")?;
    write_number(octet, fields, writer)?;
    writeln!(writer)?;
    Ok(())
}

/// Writes the line of words of a frame that is no signal of these stations, and nothing if it has no name.
pub(crate) fn write_named<W: Write>(
    octet: u8,
    fields: &[u8],
    writer: &mut W,
) -> Result<(), ToolFault>
    ensures text { OnOk result (Appends (W.contents writer.old) (W.contents writer.new) (other_words octet fields.now)) }
    ensures fault { IfErr result IsOutside }
{
    write_name(other_name(octet), octet, fields, writer)
}
