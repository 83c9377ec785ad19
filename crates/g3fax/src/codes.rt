//! Coded pages, for C.

ghost use Rattle.g3fax.specs.Codes.{Answers, CodesPage, EndsForm, GivesRead, HasWholeRows, ReadsForm, Tells, TellsEnd, coding_of, order_of};
ghost use Rattle.g3fax.specs.Handles.{Fills, HasPage, OfPage};
ghost use Rattle.g3fax.specs.Pages.{is_set};
ghost use Rattle.page_code.specs.Codings.{code_of, read_rows};
ghost use Rattle.page_code.specs.PageCodes.{AppendsCode};
ghost use Rattle.page_code.specs.RowsSoFar.{AreWholeRows};
ghost use Rattle.raster.specs.Packed.{bits_of};
ghost use Rattle.raster.specs.Pixels.{IsWidth};
ghost use Rattle.std.specs.Prelude.{⊤, [], ◌≡◌, ◌≢◌, ◌<◌, ◌⊎◌, ◌-◌, ◌^◌, IfErr, IfOk, None, length, min};

use crate::handle::{G3Handle, Kept, opened};
use crate::status::{BAD_CHOICE, BAD_WIDTH, FULL_HANDLE, NO_MEMORY, NO_ROWS, OK};
use page_code::{CodesPages, Coding, PageRead};
use raster::packed::Order;
use raster::{MAX_WIDTH, Page};
use std::alloc::{AllocError, Global};

/// The code of a number: 1 is T.4 in one dimension, 2 is T.6.
pub(crate) fn coding_of(number: u32) -> Option<Coding>
    ensures { result ≡ coding_of number }
{
    match number {
        1 => Some(Coding::OneDim),
        2 => Some(Coding::T6),
        _ => None,
    }
}

/// The order of bits in octets of a number: 0 is most significant first, 1 least significant first.
pub(crate) fn order_of(number: u32) -> Option<Order>
    ensures { result ≡ order_of number }
{
    match number {
        0 => Some(Order::MsbFirst),
        1 => Some(Order::LsbFirst),
        _ => None,
    }
}

/// A number of bits in 64 bits, or the greatest such number.
pub(crate) fn in_64_bits(bits: u128) -> u64
    ensures tells { Tells bits result }
    ensures most { result ≡ min bits (2 ^ 64 - 1) }
{
    if bits > u64::MAX as u128 {
        u64::MAX
    } else {
        bits as u64
    }
}

/// Returns the code of a page as octets. Errors: 4 for a page without rows, 9.
fn coded(alloc: Global, page: &Page, coding: Coding, order: Order) -> Result<Vec<u8>, u32>
    ensures ok { IfOk result (λ octets. AppendsCode order (code_of coding page.now.width page.now.rows) [] octets.items) }
    ensures some { IfOk result (λ octets. 0 < length page.now.rows) }
    ensures none { IfErr result (λ status. ((length page.now.rows ≡ 0) × (status ≡ 4)) ⊎ ((0 < length page.now.rows) × (status ≡ 9))) }
{
    if page.rows().is_empty() {
        return Err(NO_ROWS);
    }
    let mut octets = Vec::new(alloc);
    match coding.encode(alloc, page, order, &mut octets) {
        Ok(()) => Ok(octets),
        Err(_) => Err(NO_MEMORY),
    }
}

/// Fills an empty handle with the code of a page.
fn encode(alloc: Global, page: &Page, coding: u32, order: u32, out: &mut G3Handle) -> u32
    ensures { CodesPage (coding_of coding) (order_of order) page.now out.old.value result out.new.value }
{
    if out.is_full(alloc) {
        return FULL_HANDLE;
    }
    let Some(coding) = coding_of(coding) else {
        return BAD_CHOICE;
    };
    let Some(order) = order_of(order) else {
        return BAD_CHOICE;
    };
    match coded(alloc, page, coding, order) {
        Ok(octets) => out.fill(alloc, Kept::Octets(octets)),
        Err(status) => status,
    }
}

/// Codes a page: an empty handle is filled with the octets of its prescribed code, the last one filled with 0 bits. Returns
/// `G3_FULL_HANDLE` (102), `G3_BAD_CHOICE` (104) for an unknown code or order, `G3_NO_ROWS` (4), or `G3_NO_MEMORY` (9).
#[unsafe(no_mangle)]
pub extern "C" fn g3_core_page_encode(
    alloc: Global,
    page: &mut G3Handle,
    coding: u32,
    order: u32,
    out: &mut G3Handle,
) -> u32
    ensures answers { OfPage (λ page. CodesPage (coding_of coding) (order_of order) page out.old.value result out.new.value)
        page.old.value result }
    ensures kept { page.new.value ≡ page.old.value }
    ensures out { result ≢ 0 → out.new.value ≡ out.old.value }
{
    opened!(alloc, page, Page, page => encode(alloc, page, coding, order, out))
}

/// How coded octets are read: their code, their bit order, the width of the page in pixels, and whether its lines are fine.
#[repr(C)]
#[derive(Clone, Copy)]
pub struct G3Code {
    /// 1 for T.4 in one dimension, 2 for T.6.
    pub coding: u32,
    /// 0 if the most significant bit of an octet is first, 1 if the least significant one is.
    pub order: u32,
    /// The width in pixels, 1 to 2,432.
    pub width: u32,
    /// 1 if the lines are fine, otherwise 0.
    pub fine: u32,
}

/// Fills an empty handle with the page that octets begin with.
fn decode(alloc: Global, octets: &[u8], code: &G3Code, out: &mut G3Handle, place: &mut u64) -> u32
    ensures form { ReadsForm code.now (λ page. ⊤) out.old.value result out.new.value }
    ensures gives { Answers code.now (λ coding order. GivesRead code.now.width (is_set code.now.fine)
        (read_rows coding code.now.width (bits_of order octets.now)) result place.new out.new.value) out.old.value result }
{
    if out.is_full(alloc) {
        return FULL_HANDLE;
    }
    let Some(coding) = coding_of(code.coding) else {
        return BAD_CHOICE;
    };
    let Some(order) = order_of(code.order) else {
        return BAD_CHOICE;
    };
    if code.width == 0 || code.width > MAX_WIDTH {
        return BAD_WIDTH;
    }
    match coding.decode(alloc, octets, order, code.width, code.fine != 0) {
        Ok((page, used)) => {
            *place = in_64_bits(used);
            out.fill(alloc, Kept::Page(page))
        }
        Err(fault) => {
            *place = in_64_bits(fault.place);
            fault.kind.number() as u32
        }
    }
}

/// Reads the page that octets begin with into an empty handle; what follows is ignored. Tells how many bits the page has, or the bit where
/// no page can go on; then the status is the number of the refusal, `G3_NO_ROWS` (4) or 10 to 18. Returns `G3_FULL_HANDLE` (102),
/// `G3_BAD_CHOICE` (104) or `G3_BAD_WIDTH` (1) for a wrong form, or `G3_NO_MEMORY` (9).
#[unsafe(no_mangle)]
pub extern "C" fn g3_core_page_decode(
    alloc: Global,
    octets: &[u8],
    code: &G3Code,
    out: &mut G3Handle,
    place: &mut u64,
) -> u32
    ensures form { ReadsForm code.now (λ page. ⊤) out.old.value result out.new.value }
    ensures gives { Answers code.now (λ coding order. GivesRead code.now.width (is_set code.now.fine)
        (read_rows coding code.now.width (bits_of order octets.now)) result place.new out.new.value) out.old.value result }
{
    decode(alloc, octets, code, out, place)
}

/// How reading a page ends.
#[repr(C)]
#[derive(Clone, Copy)]
pub struct G3End {
    /// The number of bits used; or the bit from 0 where no page can go on.
    pub place: u64,
    /// 0 at a page's end, or the number of the refusal, `G3_NO_ROWS` (4) or 10 to 18.
    pub fault: u32,
}

/// Fills an empty handle with rows, and tells how reading them ended.
fn give_rows(alloc: Global, rows: Page, ended: G3End, out: &mut G3Handle, end: &mut G3End) -> u32
    ensures fills { Fills (HasPage (λ page. page ≡ rows)) out.old.value result out.new.value }
    ensures told { result ≡ 0 → end.new ≡ ended }
    ensures untold { result ≢ 0 → end.new ≡ end.old }
    ensures only { out.old.value ≡ None → (result ≡ 0) ⊎ (result ≡ 9) }
{
    let status = out.fill(alloc, Kept::Page(rows));
    if status == OK {
        *end = ended;
    }
    status
}

/// Returns all whole rows that octets begin with, and how reading ends. Errors: memory is refused.
fn salvaged(
    alloc: Global,
    octets: &[u8],
    coding: Coding,
    order: Order,
    code: &G3Code,
) -> Result<(Page, G3End), AllocError>
    requires { IsWidth code.now.width }
    ensures width { IfOk result (λ read. read.0.width ≡ code.now.width) }
    ensures fine { IfOk result (λ read. read.0.fine ≡ is_set code.now.fine) }
    ensures rows { IfOk result (λ read. AreWholeRows coding code.now.width (bits_of order octets.now)
        read.0.rows) }
    ensures end { IfOk result (λ read.
        TellsEnd (read_rows coding code.now.width (bits_of order octets.now)) read.1) }
{
    let width = code.width;
    let fine = code.fine != 0;
    match coding.page(alloc, octets, order, width, fine)? {
        PageRead::Page(_page, used) => {
            let rows = coding.salvage(alloc, octets, order, width, fine)?;
            let place = in_64_bits(used);
            Ok((rows, G3End { place, fault: OK }))
        }
        PageRead::Refused(refused, rows) => {
            let place = in_64_bits(refused.fault.place);
            let fault = refused.fault.kind.number() as u32;
            Ok((rows, G3End { place, fault }))
        }
    }
}

/// Reads all whole rows that octets begin with into an empty handle: of a page that can't be read those before the refused bit, perhaps
/// none. Tells how reading ends: the number and bit of the refusal, or 0 and the bits used. Returns `G3_FULL_HANDLE` (102), `G3_BAD_CHOICE`
/// (104) or `G3_BAD_WIDTH` (1) for a wrong form, or `G3_NO_MEMORY` (9).
#[unsafe(no_mangle)]
pub extern "C" fn g3_core_page_salvage(
    alloc: Global,
    octets: &[u8],
    code: &G3Code,
    out: &mut G3Handle,
    end: &mut G3End,
) -> u32
    ensures form { ReadsForm code.now (HasWholeRows code.now octets.now) out.old.value result out.new.value }
    ensures only { Answers code.now (λ coding order. result ≡ 0) out.old.value result }
    ensures tells { result ≡ 0 → EndsForm code.now octets.now end.new }
    ensures untold { result ≢ 0 → end.new ≡ end.old }
{
    if out.is_full(alloc) {
        return FULL_HANDLE;
    }
    let Some(coding) = coding_of(code.coding) else {
        return BAD_CHOICE;
    };
    let Some(order) = order_of(code.order) else {
        return BAD_CHOICE;
    };
    if code.width == 0 || code.width > MAX_WIDTH {
        return BAD_WIDTH;
    }
    match salvaged(alloc, octets, coding, order, code) {
        Ok((rows, ended)) => give_rows(alloc, rows, ended, out, end),
        Err(_) => NO_MEMORY,
    }
}
