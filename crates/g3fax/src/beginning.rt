//! Terminals of callers and answerers made, for C.

ghost use Rattle.g3fax.specs.Beginning.{AnswersCaller, AnswersDocument, IsNewAnswerer, IsNewCaller, MakesAnswerer, MakesCaller};
ghost use Rattle.g3fax.specs.Beginning.{caps_of, modems_of, small_of, wish_of};
ghost use Rattle.g3fax.specs.Documents.{pages_of};
ghost use Rattle.signals.specs.Agreement.{width_of_pixels};
ghost use Rattle.std.specs.Prelude.{◌≡◌, ◌<◌, ◌↔◌, IfErr, IfOk, IfSome, IsSome, IsTrue, true};
ghost use Rattle.stations.specs.CallerFields.{AreCallable};

use crate::answering::{Answering, Tally};
use crate::codes::coding_of;
use crate::handle::{G3Handle, Kept};
use crate::status::{
    BAD_CHOICE, EMPTY_HANDLE, FULL_HANDLE, NO_MEMORY, NOT_CALLABLE, NOTHING, OK, OTHER_HANDLE,
};
use crate::ticking::{durations, limit_of};
use raster::Page;
use signals::{Caps, Modems, PageWidth, Wish};
use stations::{Caller, CodedDocument, LimitedAnswerer, Limits, StoppableCaller, Turn};
use std::alloc::Global;
use terminals::{Terminal, TimedTerminal, Watched};

/// What an answerer can do: its modems, whether it reads T.6 and takes fine lines, its widest page, and how many pages wait in memory.
#[repr(C)]
#[derive(Clone, Copy)]
pub struct G3Caps {
    /// The fastest modem: 1 for V.27 ter alone, 2 for V.27 ter and V.29, 3 for these and V.17.
    pub modems: u32,
    /// 1 if it reads the code of T.6, otherwise 0.
    pub t6: u32,
    /// 1 if it takes fine lines, 7.7 a millimeter, otherwise 0.
    pub fine: u32,
    /// The width of its widest page in pixels: 1,728, 2,048 or 2,432.
    pub widest: u32,
    /// How many pages the station stores before it is busy; at least 1.
    pub limit: u32,
}

/// What a caller wishes: its modems, the code of its pages, and the octets of data in a frame.
#[repr(C)]
#[derive(Clone, Copy)]
pub struct G3Wish {
    /// The fastest modem: 1 for V.27 ter alone, 2 for V.27 ter and V.29, 3 for these and V.17.
    pub modems: u32,
    /// The code of the pages, if the answerer reads it: 1 for T.4 in one dimension, 2 for T.6.
    pub coding: u32,
    /// The octets of data in a frame: 256 or 64.
    pub frame: u32,
}

/// The modems of a number.
pub(crate) fn modems_of(number: u32) -> Option<Modems>
    ensures { result ≡ modems_of number }
{
    match number {
        1 => Some(Modems::V27),
        2 => Some(Modems::V27V29),
        3 => Some(Modems::V17),
        _ => None,
    }
}

/// Returns whether frames have 64 octets of data, or 256; None for another number.
pub(crate) fn small_of(octets: u32) -> Option<bool>
    ensures { result ≡ small_of octets }
{
    match octets {
        256 => Some(false),
        64 => Some(true),
        _ => None,
    }
}

/// What an answerer can do.
fn caps_of(caps: &G3Caps) -> Option<Caps>
    ensures { result ≡ caps_of caps.now }
{
    let modems = modems_of(caps.modems)?;
    let widest = PageWidth::of_pixels(caps.widest)?;
    Some(Caps {
        receiver: true,
        modems,
        fine: caps.fine != 0,
        widest,
        t6: caps.t6 != 0,
        ecm: true,
    })
}

/// What a caller wishes.
pub(crate) fn wish_of(wish: &G3Wish) -> Option<Wish>
    ensures { result ≡ wish_of wish.now }
{
    let modems = modems_of(wish.modems)?;
    let coding = coding_of(wish.coding)?;
    let small = small_of(wish.frame)?;
    Some(Wish {
        modems,
        coding,
        small,
    })
}

/// The terminal of a new answerer.
fn answering(alloc: Global, caps: Caps, limit: u32) -> Answering
    requires receiver { caps.receiver ≡ true }
    requires ecm { caps.ecm ≡ true }
    requires limit { 0 < limit }
    ensures { IsNewAnswerer caps limit result }
{
    let limits = Limits {
        pages: limit as u64,
        octets: u64::MAX,
    };
    let (station, first) = LimitedAnswerer::new(alloc, caps, limits);
    let terminal = Terminal::new(alloc, station, first);
    let watched = Some(Watched::new(caps));
    Answering {
        timed: TimedTerminal::new(terminal, watched, durations(), limit_of(0)),
        waiting: Vec::new(alloc),
        limit,
        tally: Tally::NONE,
    }
}

/// Makes the terminal of an answerer in an empty handle; it sends DIS first. Returns `G3_FULL_HANDLE` (102), `G3_BAD_CHOICE` (104) if the
/// number of the modems or the width is unknown or the limit is 0, or `G3_NO_MEMORY` (9).
#[unsafe(no_mangle)]
pub extern "C" fn g3_core_answerer_new(alloc: Global, out: &mut G3Handle, caps: &G3Caps) -> u32
    ensures { MakesAnswerer caps.now out.old.value result out.new.value }
{
    if out.is_full(alloc) {
        return FULL_HANDLE;
    }
    let Some(given) = caps_of(caps) else {
        return BAD_CHOICE;
    };
    if caps.limit == 0 {
        return BAD_CHOICE;
    }
    let Ok(boxed) = Box::new(alloc, answering(alloc, given, caps.limit)) else {
        return NO_MEMORY;
    };
    out.fill(alloc, Kept::Answerer(boxed))
}

/// Returns whether a call can have the width of each page.
pub(crate) fn are_callable(pages: &[Page]) -> bool
    ensures { IsTrue result ↔ AreCallable pages.now }
{
    for page in pages {
        if !is_callable(page) {
            return false;
        }
    }
    true
}

/// Returns whether a call can have a page's width.
fn is_callable(page: &Page) -> bool
    ensures { IsTrue result ↔ IsSome (width_of_pixels page.now.width) }
{
    PageWidth::of_pixels(page.width()).is_some()
}

/// Returns the status for making a caller of a document: 0; 106 without a page, 26 if a call can't have the width of a page.
fn test_document(document: &Option<CodedDocument>) -> u32
    ensures { AnswersDocument document.now result }
{
    let Some(pages) = document else {
        return NOTHING;
    };
    if are_callable(pages.pages()) {
        OK
    } else {
        NOT_CALLABLE
    }
}

/// Returns the terminal of a caller in a box of its own. Errors: memory is refused; the document of the caller.
fn boxed(
    alloc: Global,
    timed: TimedTerminal<StoppableCaller>,
) -> Result<Box<TimedTerminal<StoppableCaller>>, CodedDocument>
    ensures ok { IfOk result (λ boxed. boxed.value ≡ timed) }
    ensures err { IfErr result (λ document. document ≡ timed.terminal.speaking.station.station.document) }
{
    match Box::new(alloc, timed) {
        Ok(boxed) => Ok(boxed),
        Err(refused) => {
            let station = refused.value.into_terminal().into_station().into_station();
            Err(station.into_coded())
        }
    }
}

/// Returns the terminal of a new caller of a document. Errors: there is none; then the document stays.
pub(crate) fn calling(
    alloc: Global,
    document: &mut Option<CodedDocument>,
    wish: Wish,
) -> Result<Box<TimedTerminal<StoppableCaller>>, u32>
    ensures ok { IfOk result (λ timed. IsNewCaller (pages_of document.old) wish timed.value) }
    ensures made { IfOk result (λ timed. AnswersDocument document.old 0) }
    ensures err { IfErr result (λ status. (document.new ≡ document.old) × AnswersCaller document.old status) }
    ensures no { IfErr result (λ status. 0 < status) }
{
    let status = test_document(document);
    if status != OK {
        return Err(status);
    }
    let Some(pages) = document.take() else {
        return Err(NOTHING);
    };
    let Ok(caller) = Caller::of_coded(alloc, pages, wish) else {
        return Err(NOT_CALLABLE);
    };
    let terminal = Terminal::new(alloc, StoppableCaller::new(caller), Turn::Silent);
    let timed = TimedTerminal::new(terminal, None, durations(), limit_of(0));
    match boxed(alloc, timed) {
        Ok(made) => Ok(made),
        Err(pages) => {
            *document = Some(pages);
            Err(NO_MEMORY)
        }
    }
}

/// Makes the terminal of a caller in an empty handle. The document moves in, and its handle is empty then. Returns `G3_FULL_HANDLE` (102);
/// `G3_BAD_CHOICE` (104) if the number of the modems, the code or the frame's size is unknown; `G3_EMPTY_HANDLE` (100) or `G3_OTHER_HANDLE`
/// (101) for the document's handle; `G3_NOTHING` (106) if it has no page; `G3_NOT_CALLABLE` (26) if a page isn't 1,728, 2,048 or 2,432
/// pixels wide; or `G3_NO_MEMORY` (9). Whatever it returns above 0, both handles stay as they are.
#[unsafe(no_mangle)]
pub extern "C" fn g3_core_caller_new(
    alloc: Global,
    out: &mut G3Handle,
    document: &mut G3Handle,
    wish: &G3Wish,
) -> u32
    ensures { MakesCaller wish.now out.old.value document.old.value document.new.value result out.new.value }
{
    if out.is_full(alloc) {
        return FULL_HANDLE;
    }
    let Some(wish) = wish_of(wish) else {
        return BAD_CHOICE;
    };
    let Some(mut kept) = document.take(alloc) else {
        return EMPTY_HANDLE;
    };
    let made = match &mut *kept {
        Kept::Document(pages) => calling(alloc, pages, wish),
        _ => Err(OTHER_HANDLE),
    };
    match made {
        Ok(boxed) => {
            *kept = Kept::Caller(boxed);
            out.put(kept);
            OK
        }
        Err(status) => {
            document.put(kept);
            status
        }
    }
}
