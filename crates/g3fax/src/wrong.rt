//! Which field of a struct has a number that isn't one of those allowed, for C.

ghost use Rattle.g3fax.specs.Beginning.{caps_of, wish_of};
ghost use Rattle.g3fax.specs.Codes.{coding_of, order_of};
ghost use Rattle.g3fax.specs.Texts.{caps_fields, code_fields, ended, text_by, wish_fields};
ghost use Rattle.g3fax.specs.Wrong.{caps_wrong, code_wrong, wish_wrong};
ghost use Rattle.std.specs.Prelude.{◌≡◌, ◌<◌, ◌↔◌, [], IsSome};

use crate::beginning::{G3Caps, G3Wish, modems_of, small_of};
use crate::codes::{G3Code, coding_of, order_of};
use crate::texts::{caps_fields, code_fields, text_by, wish_fields};
use signals::PageWidth;

/// Returns which field of a code is the first with a number that isn't allowed: 1 for the code, 2 for the bit order; 0 if none is.
fn code_wrong(code: &G3Code) -> u32
    ensures first { result ≡ code_wrong code.now }
    ensures none { (result ≡ 0)
        ↔ (IsSome (coding_of code.now.coding) × IsSome (order_of code.now.order)) }
{
    if coding_of(code.coding).is_none() {
        return 1;
    }
    if order_of(code.order).is_none() {
        return 2;
    }
    0
}

/// Returns which field of an answerer's choices is the first with a number that isn't allowed: 1 for its modems, 2 for its widest page, 3 for
/// the limit; 0 if none is.
fn caps_wrong(caps: &G3Caps) -> u32
    ensures first { result ≡ caps_wrong caps.now }
    ensures none { (result ≡ 0) ↔ (IsSome (caps_of caps.now) × (0 < caps.now.limit)) }
{
    if modems_of(caps.modems).is_none() {
        return 1;
    }
    if PageWidth::of_pixels(caps.widest).is_none() {
        return 2;
    }
    if caps.limit == 0 {
        return 3;
    }
    0
}

/// Returns which field of a caller's wishes is the first with a number that isn't allowed: 1 for its modems, 2 for the code, 3 for the octets
/// of a frame; 0 if none is.
fn wish_wrong(wish: &G3Wish) -> u32
    ensures first { result ≡ wish_wrong wish.now }
    ensures none { (result ≡ 0) ↔ IsSome (wish_of wish.now) }
{
    if modems_of(wish.modems).is_none() {
        return 1;
    }
    if coding_of(wish.coding).is_none() {
        return 2;
    }
    if small_of(wish.frame).is_none() {
        return 3;
    }
    0
}

/// Tells the name of the first field of a code with a number that isn't allowed, and returns its place, as `code_wrong` does; 0 and an empty
/// name if none is, and then no function refuses it by `G3_BAD_CHOICE` (104).
#[unsafe(no_mangle)]
pub extern "C" fn g3_core_code_wrong(code: &G3Code, name: &mut &'static [u8]) -> u32
    ensures first { result ≡ code_wrong code.now }
    ensures name { name.new.now ≡ ended (text_by code_fields [] result) }
    ensures none { (result ≡ 0)
        ↔ (IsSome (coding_of code.now.coding) × IsSome (order_of code.now.order)) }
{
    let place = code_wrong(code);
    *name = text_by(code_fields(), b"\0", place);
    place
}

/// Tells the name of the first field of an answerer's choices with a number that isn't allowed, and returns its place, as `caps_wrong` does;
/// 0 and an empty name if none is, and then `g3_core_answerer_new` doesn't refuse them.
#[unsafe(no_mangle)]
pub extern "C" fn g3_core_caps_wrong(caps: &G3Caps, name: &mut &'static [u8]) -> u32
    ensures first { result ≡ caps_wrong caps.now }
    ensures name { name.new.now ≡ ended (text_by caps_fields [] result) }
    ensures none { (result ≡ 0) ↔ (IsSome (caps_of caps.now) × (0 < caps.now.limit)) }
{
    let place = caps_wrong(caps);
    *name = text_by(caps_fields(), b"\0", place);
    place
}

/// Tells the name of the first field of a caller's wishes with a number that isn't allowed, and returns its place, as `wish_wrong` does; 0
/// and an empty name if none is, and then no function refuses them.
#[unsafe(no_mangle)]
pub extern "C" fn g3_core_wish_wrong(wish: &G3Wish, name: &mut &'static [u8]) -> u32
    ensures first { result ≡ wish_wrong wish.now }
    ensures name { name.new.now ≡ ended (text_by wish_fields [] result) }
    ensures none { (result ≡ 0) ↔ IsSome (wish_of wish.now) }
{
    let place = wish_wrong(wish);
    *name = text_by(wish_fields(), b"\0", place);
    place
}
