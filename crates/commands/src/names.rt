//! The names of files as lines have them: on one line, whatever octets they have.

ghost use Rattle.commands.specs.Names.{as_octet, as_shown, escaped_after, hex_escape, is_untold, record_name, shown_name};
ghost use Rattle.commands.specs.Names.{untold_name};
ghost use Rattle.std.specs.Prelude.{◌≡◌, ◌++◌, IfOk, OnOk, string_bytes};

use std::alloc::{AllocError, Global};

/// The octet with which a name begins that is in place of one that isn't UTF-8: no file's name has it.
const NO_TEXT: u8 = 0;

/// The octet that begins U+0080 to U+00BF in UTF-8. The first half of these are control characters.
const HIGH: u8 = 0xC2;

/// The digits of an octet.
const DIGITS: &[u8; 16] = b"0123456789abcdef";

/// Returns whether a name is in place of one that isn't UTF-8.
pub fn is_untold(name: &str) -> bool
    ensures { result ≡ is_untold name.now }
{
    match name.as_bytes() {
        [first, ..] => *first == NO_TEXT,
        [] => false,
    }
}

/// Appends an octet as `\xHH`.
fn push_escape(octet: u8, shown: &mut Vec<u8>) -> Result<(), AllocError>
    ensures { OnOk result (shown.new.items ≡ shown.old.items ++ hex_escape octet) }
{
    let high = DIGITS[(octet / 16) as usize];
    let low = DIGITS[(octet % 16) as usize];
    shown.extend_from_slice(&[b'\\', b'x', high, low])?;
    Ok(())
}

/// Appends what a name's octet shows, after the one before it.
fn push_shown(before: u8, octet: u8, shown: &mut Vec<u8>) -> Result<(), AllocError>
    ensures { OnOk result (shown.new.items ≡ shown.old.items ++ as_shown before octet) }
{
    match (before, octet) {
        // it is shown with the octet after it
        (_, HIGH) => {}
        (HIGH, 0..=0x9F) => {
            push_escape(HIGH, shown)?;
            push_escape(octet, shown)?;
        }
        (HIGH, _) => shown.extend_from_slice(&[HIGH, octet])?,
        (_, 0..=31 | 127) => push_escape(octet, shown)?,
        (_, b'\\') => shown.extend_from_slice(b"\\\\")?,
        (_, _) => shown.extend_from_slice(&[octet])?,
    }
    Ok(())
}

/// Returns the octets of a text with its control characters and backslashes escaped.
fn escaped(alloc: Global, text: &str) -> Result<Vec<u8>, AllocError>
    ensures { IfOk result (λ shown. shown.items ≡ escaped_after 0 text.now) }
{
    let mut shown = Vec::new(alloc);
    let mut before = 0;
    for octet in text.as_bytes() {
        push_shown(before, *octet, &mut shown)?;
        before = *octet;
    }
    Ok(shown)
}

/// Returns a file's name as lines have it: each octet of a control character as `\xHH`, a backslash as two. Errors: memory was refused.
pub fn shown_name(alloc: Global, name: &str) -> Result<Vec<u8>, AllocError>
    ensures { IfOk result (λ shown. shown.items ≡ shown_name name.now) }
{
    match name.as_bytes() {
        [NO_TEXT, octets @ ..] => {
            let mut shown = Vec::new(alloc);
            shown.extend_from_slice(octets)?;
            Ok(shown)
        }
        _ => escaped(alloc, name),
    }
}

/// Returns a file's name as lines have it, as text. Errors: memory was refused.
pub fn shown_text(alloc: Global, name: &str) -> Result<String, AllocError> {
    let shown = shown_name(alloc, name)?;
    // only octets of ASCII are added
    let text = str::from_utf8(shown.as_slice()).unwrap_or("a file");
    String::from_str(alloc, text)
}

/// Returns a file's name as records have it: itself, which JSON escapes, or as lines have it if it isn't UTF-8. Errors: memory was refused.
#[tactic(auto, using(crate::proofs::FirstLines::own_name, crate::proofs::FirstLines::shown_in_record, crate::proofs::FirstLines::untold_utf8))]
pub(crate) fn record_name(alloc: Global, name: &str) -> Result<String, AllocError>
    ensures { IfOk result (λ text. string_bytes text ≡ record_name name.now) }
{
    if !is_untold(name) {
        return String::from_str(alloc, name);
    }
    let shown = shown_name(alloc, name)?;
    let Ok(text) = str::from_utf8(shown.as_slice()) else {
        // it is UTF-8, since the name is
        return String::from_str(alloc, "a file");
    };
    String::from_str(alloc, text)
}

/// Appends what an octet shows of a name that isn't UTF-8.
fn push_octet(octet: u8, shown: &mut Vec<u8>) -> Result<(), AllocError>
    ensures { OnOk result (shown.new.items ≡ shown.old.items ++ as_octet octet) }
{
    match octet {
        0..=31 | 127..=255 => push_escape(octet, shown),
        b'\\' => {
            shown.extend_from_slice(b"\\\\")?;
            Ok(())
        }
        _ => {
            shown.extend_from_slice(&[octet])?;
            Ok(())
        }
    }
}

/// Returns what is in place of a name of these octets, which aren't UTF-8: no file has it, and lines have the octets as `\xHH`. Errors:
/// memory was refused.
pub fn untold_name(alloc: Global, octets: &[u8]) -> Result<Vec<u8>, AllocError>
    ensures { IfOk result (λ name. name.items ≡ untold_name octets.now) }
{
    let mut name = Vec::new(alloc);
    name.extend_from_slice(&[NO_TEXT])?;
    for octet in octets {
        push_octet(*octet, &mut name)?;
    }
    Ok(name)
}
