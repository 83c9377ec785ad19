//! The pages of answerers handed out, for C.

ghost use Rattle.g3fax.specs.Handles.{OnAnswerer};
ghost use Rattle.g3fax.specs.Taking.{HandsOutPage, HoldsNextPage, NextPage, pages_left};
ghost use Rattle.std.specs.Prelude.{◌≡◌, ◌≢◌, ◌↔◌, [], IsTrue};

use crate::answering::Answering;
use crate::handle::{G3Handle, Kept, opened, room};
use crate::status::{BAD_CHOICE, FULL_HANDLE, NO_MEMORY, NOTHING, OK};
use raster::Page;
use std::alloc::Global;

/// Whether each page that was stored was handed out.
fn has_no_page(answering: &Answering) -> bool
    ensures { IsTrue result ↔ (pages_left answering.now ≡ []) }
{
    if !answering.waiting.is_empty() {
        return false;
    }
    answering
        .timed
        .terminal()
        .station()
        .station()
        .pages()
        .is_empty()
}

/// Hands out the oldest page.
fn hand_out(answering: &mut Answering) -> Page
    requires { pages_left answering.now ≢ [] }
    ensures { HandsOutPage answering.old result answering.new }
{
    if answering.waiting.is_empty() {
        answering.waiting = answering.timed.take_pages();
    }
    answering.tally = answering.tally.with_handed();
    answering.waiting.remove(0)
}

/// Fills an empty handle with the oldest page that was not handed out.
fn next_page(alloc: Global, answering: &mut Answering, out: &mut G3Handle) -> u32
    ensures { NextPage answering.old answering.new out.old.value out.new.value result }
{
    if out.is_full(alloc) {
        return FULL_HANDLE;
    }
    if has_no_page(answering) {
        return NOTHING;
    }
    let Some(mut kept) = room(alloc) else {
        return NO_MEMORY;
    };
    *kept = Kept::Page(hand_out(answering));
    out.put(kept);
    OK
}

/// Fills an empty handle with the oldest page that was not handed out; the answerer is busy from then on.
fn hold_page(alloc: Global, answering: &mut Answering, out: &mut G3Handle) -> u32
    ensures { HoldsNextPage answering.old answering.new out.old.value out.new.value result }
{
    if out.is_full(alloc) {
        return FULL_HANDLE;
    }
    if answering.limit != 1 {
        return BAD_CHOICE;
    }
    if has_no_page(answering) {
        return NOTHING;
    }
    let Some(mut kept) = room(alloc) else {
        return NO_MEMORY;
    };
    if answering.timed.set_busy(true).is_err() {
        return NO_MEMORY;
    }
    *kept = Kept::Page(hand_out(answering));
    out.put(kept);
    OK
}

/// Hands out, in an empty handle, the oldest page that an answerer has stored and that wasn't handed out. Returns `G3_FULL_HANDLE` (102),
/// `G3_NOTHING` (106) if there is none, or `G3_NO_MEMORY` (9).
#[unsafe(no_mangle)]
pub extern "C" fn g3_core_terminal_take_page(
    alloc: Global,
    terminal: &mut G3Handle,
    out: &mut G3Handle,
) -> u32
    ensures next { OnAnswerer (λ old new. NextPage old new out.old.value out.new.value result) terminal.old.value terminal.new.value result }
    ensures out { result ≢ 0 → out.new.value ≡ out.old.value }
{
    opened!(alloc, terminal, Answerer, answering => next_page(alloc, &mut **answering, out))
}

/// Hands out, in an empty handle, the oldest page that an answerer has stored, as `g3_core_terminal_take_page` does, and makes the answerer
/// busy, so that it doesn't confirm the page: it sends RNR until `g3_core_terminal_set_busy` says that it isn't. Returns `G3_FULL_HANDLE` (102),
/// `G3_BAD_CHOICE` (104) if its limit isn't 1, since a page is confirmed at once then, `G3_NOTHING` (106) if there is none, or `G3_NO_MEMORY`
/// (9).
#[unsafe(no_mangle)]
pub extern "C" fn g3_core_terminal_hold(
    alloc: Global,
    terminal: &mut G3Handle,
    out: &mut G3Handle,
) -> u32
    ensures next { OnAnswerer (λ old new. HoldsNextPage old new out.old.value out.new.value result) terminal.old.value terminal.new.value
        result }
    ensures out { result ≢ 0 → out.new.value ≡ out.old.value }
{
    opened!(alloc, terminal, Answerer, answering => hold_page(alloc, &mut **answering, out))
}
