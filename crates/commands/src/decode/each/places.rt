//! Where the pages of a file of `--each` are written: under the folder, at the file's own place.

ghost use Rattle.commands.specs.Places.{has_left_out, is_left_out, left_out_part, left_out_words};
ghost use Rattle.commands.specs.Places.{page_name, part_text, place_under, zeros_before};
ghost use Rattle.serde_json.specs.View.{view};
ghost use Rattle.std.specs.Prelude.{◌≡◌, ◌++◌, IfOk, OnOk, map, string_bytes};

use command_files::files::STANDARD;
use serde_json::Value;
use std::alloc::{AllocError, Global};
use std::path::Path;

/// Appends a part of a file's name, after a slash. The root, `.` and `..` are left out.
fn push_part(place: &mut String, part: &str) -> Result<(), AllocError>
    ensures { OnOk result (string_bytes place.new ≡ string_bytes place.old ++ part_text part.now) }
{
    if part == "/" || part == "." || part == ".." {
        return Ok(());
    }
    place.push_str("/")?;
    place.push_str(part)
}

/// Returns the place of a file's pages under a folder, without their numbers. Errors: memory was refused.
pub(crate) fn place_under(alloc: Global, folder: &str, name: &str) -> Result<String, AllocError>
    ensures { IfOk result (λ place. string_bytes place ≡ place_under folder.now name.now) }
{
    let file = if name == STANDARD { "stdin" } else { name };
    let mut place = String::from_str(alloc, folder)?;
    let mut parts = Path::new(file).components();
    while let Some(part) = parts.next() {
        push_part(&mut place, part.as_os_str())?;
    }
    Ok(place)
}

/// Returns whether a part of a name is the root or `..`, which aren't in the place of a file's pages.
fn is_left_out(part: &str) -> bool
    ensures { result ≡ is_left_out part.now }
{
    part == "/" || part == ".."
}

/// Returns whether a file's name has such a part.
pub(crate) fn has_left_out(name: &str) -> bool
    ensures { result ≡ has_left_out name.now }
{
    let file = if name == STANDARD { "stdin" } else { name };
    let mut parts = Path::new(file).components();
    while let Some(part) = parts.next() {
        if is_left_out(part.as_os_str()) {
            return true;
        }
    }
    false
}

/// Appends a part to others, as text, if it is left out. Errors: memory was refused.
fn add_left_out(alloc: Global, part: &str, parts: &mut Vec<Value>) -> Result<(), AllocError>
    ensures { OnOk result (map view parts.new.items
        ≡ map view parts.old.items ++ left_out_part part.now) }
{
    if !is_left_out(part) {
        return Ok(());
    }
    let text = String::from_str(alloc, part)?;
    if parts.push(Value::String(text)).is_err() {
        return Err(AllocError);
    }
    Ok(())
}

/// Returns the parts of a file's name that are left out, as texts. Errors: memory was refused.
pub(crate) fn left_out_parts(alloc: Global, name: &str) -> Result<Vec<Value>, AllocError>
    ensures { IfOk result (λ parts. map view parts.items ≡ left_out_words name.now) }
{
    let file = if name == STANDARD { "stdin" } else { name };
    let mut left_out = Vec::new(alloc);
    let mut parts = Path::new(file).components();
    while let Some(part) = parts.next() {
        add_left_out(alloc, part.as_os_str(), &mut left_out)?;
    }
    Ok(left_out)
}

/// Returns the zeros with which a page's number has four digits.
fn zeros_before(number: u32) -> &'static str
    ensures { result.now ≡ zeros_before number }
{
    match number {
        0..=9 => "000",
        10..=99 => "00",
        100..=999 => "0",
        _ => "",
    }
}

/// Returns the name of the image of a page of this number. Errors: memory was refused.
pub(crate) fn page_name(alloc: Global, place: &str, number: u32) -> Result<String, AllocError>
    ensures { IfOk result (λ name. string_bytes name ≡ page_name place.now number) }
{
    let zeros = zeros_before(number);
    format!(in alloc; "{place}-{zeros}{number}.pbm")
}
