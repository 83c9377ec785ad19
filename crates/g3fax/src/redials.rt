//! Documents that come back after a call, and callers of the pages that are left, for C.

ghost use Rattle.g3fax.specs.Beginning.{IsNewCaller};
ghost use Rattle.g3fax.specs.Documents.{pages_of};
ghost use Rattle.g3fax.specs.Redials.{AnswersFrom, GoesOn, MakesCallerFrom, TakesDocument, station_of};
ghost use Rattle.std.specs.Prelude.{◌≡◌, ◌<◌, ◌≤◌, ◌↔◌, ◌⊎◌, IfErr, IfOk, IsTrue, drop, length};
ghost use Rattle.stations.specs.CallerFields.{AreCallable, Represents};
ghost use Rattle.stations.specs.CallerStep.{Caller as CallerTuple, confirmed};

use crate::beginning::{G3Wish, are_callable, calling, wish_of};
use crate::documents::copied;
use crate::handle::{G3Handle, Kept};
use crate::status::{
    BAD_CHOICE, EMPTY_HANDLE, FULL_HANDLE, NO_MEMORY, NOT_CALLABLE, NOTHING, OK, OTHER_HANDLE,
};
use raster::{Document, Page};
use signals::Wish;
use stations::{CodedDocument, StoppableCaller};
use std::alloc::Global;
use std::mem;
use terminals::TimedTerminal;

/// Returns whether the call of a caller goes on.
fn goes_on(timed: &TimedTerminal<StoppableCaller>) -> bool
    ensures { (t : CallerTuple) → Represents (station_of timed.now).station t
        → IsTrue result ↔ GoesOn timed.now t }
{
    timed.terminal().station().end().is_none()
}

/// Returns the document of a caller, and how many of its first pages are confirmed; the terminal is given up.
fn handed_back(timed: TimedTerminal<StoppableCaller>) -> (CodedDocument, u64)
    ensures document { result.0 ≡ (station_of timed).station.document }
    ensures confirmed { (t : CallerTuple) → Represents (station_of timed).station t
        → result.1 ≡ confirmed t }
{
    let station = timed.into_terminal().into_station().into_station();
    let confirmed = station.confirmed();
    (station.into_coded(), confirmed)
}

/// Hands back the document of a caller whose call has ended, in an empty handle, as `g3_core_caller_new` took it, and tells how many of its
/// first pages are confirmed; the caller's handle is empty then. Takes no memory. Returns `G3_EMPTY_HANDLE` (100); `G3_OTHER_HANDLE` (101),
/// also for an answerer; `G3_FULL_HANDLE` (102); or `G3_NOTHING` (106) if the call goes on. By these both handles stay.
#[unsafe(no_mangle)]
pub extern "C" fn g3_core_terminal_take_document(
    alloc: Global,
    terminal: &mut G3Handle,
    out: &mut G3Handle,
    confirmed: &mut u64,
) -> u32
    ensures { TakesDocument terminal.old.value terminal.new.value out.old.value out.new.value
        confirmed.old confirmed.new result }
{
    let Some(mut kept) = terminal.take(alloc) else {
        return EMPTY_HANDLE;
    };
    let is_full = out.is_full(alloc);
    let status = match &*kept {
        Kept::Caller(_) if is_full => FULL_HANDLE,
        Kept::Caller(calling) if goes_on(&**calling) => NOTHING,
        Kept::Caller(_) => OK,
        _ => OTHER_HANDLE,
    };
    if status != OK {
        terminal.put(kept);
        return status;
    }
    match mem::replace(&mut *kept, Kept::Document(None)) {
        Kept::Caller(calling) => {
            let (document, pages) = handed_back(Box::into_inner(calling));
            *kept = Kept::Document(Some(document));
            *confirmed = pages;
            out.put(kept);
            OK
        }
        other => {
            *kept = other;
            terminal.put(kept);
            OTHER_HANDLE
        }
    }
}

/// Returns a copy of pages of a document, in order, of which there is one. Errors: 9.
fn copied_pages(alloc: Global, pages: &[Page]) -> Result<Document, u32>
    requires { 0 < length pages.now }
    ensures ok { IfOk result (λ copy. copy ≡ pages.now) }
    ensures only { IfErr result (λ status. status ≡ 9) }
{
    let Some((head, others)) = pages.split_first() else {
        return Err(NO_MEMORY);
    };
    // each page of a document has a row, so memory is all that can lack
    let Ok(mut copy) = Document::new(alloc, copied(alloc, head)?) else {
        return Err(NO_MEMORY);
    };
    for page in others {
        if copy.push(copied(alloc, page)?).is_err() {
            return Err(NO_MEMORY);
        }
    }
    Ok(copy)
}

/// Returns the terminal of a new caller of a copy of the pages of a document from one on. Errors: there is none.
fn calling_from(
    alloc: Global,
    document: &Option<CodedDocument>,
    first: u64,
    wish: Wish,
) -> Result<Box<TimedTerminal<StoppableCaller>>, u32>
    ensures ok { IfOk result (λ timed.
        IsNewCaller (drop first (pages_of document.now)) wish timed.value) }
    ensures made { IfOk result (λ timed. AnswersFrom first (pages_of document.now) 0) }
    ensures err { IfErr result (λ status. AnswersFrom first (pages_of document.now) status) }
    ensures no { IfErr result (λ status. 0 < status) }
{
    let Some(whole) = document else {
        return Err(NOTHING);
    };
    let pages = whole.pages();
    if first >= pages.len() as u64 {
        return Err(NOTHING);
    }
    let (_before, rest) = pages.split_at(first as usize);
    if !are_callable(rest) {
        return Err(NOT_CALLABLE);
    }
    let copy = copied_pages(alloc, rest)?;
    let Ok(coded) = whole.with_codes(alloc, copy, first as usize) else {
        return Err(NO_MEMORY);
    };
    calling(alloc, &mut Some(coded), wish)
}

/// Makes the terminal of a caller in an empty handle, which sends the pages of a document from this one on, from 0: those that a call before
/// didn't confirm. They are copied, with their codes, so that nothing is lost if memory is refused. The document moves in, with the pages
/// before, and its handle is empty then. Returns what `g3_core_caller_new` returns; `G3_NOTHING` (106) if it has no such page.
#[unsafe(no_mangle)]
pub extern "C" fn g3_core_caller_new_from(
    alloc: Global,
    out: &mut G3Handle,
    document: &mut G3Handle,
    first: u64,
    wish: &G3Wish,
) -> u32
    ensures { MakesCallerFrom first wish.now out.old.value document.old.value document.new.value
        result out.new.value }
{
    if out.is_full(alloc) {
        return FULL_HANDLE;
    }
    let Some(wish) = wish_of(wish) else {
        return BAD_CHOICE;
    };
    let Some(mut kept) = document.take(alloc) else {
        return EMPTY_HANDLE;
    };
    let made = match &*kept {
        Kept::Document(pages) => calling_from(alloc, pages, first, wish),
        _ => Err(OTHER_HANDLE),
    };
    match made {
        Ok(boxed) => {
            *kept = Kept::Caller(boxed);
            out.put(kept);
            OK
        }
        Err(status) => {
            document.put(kept);
            status
        }
    }
}
