//! What octets are, for C: a page, or pages, that read in one way, or another format.

ghost use Rattle.g3fax.specs.Identifying.{TellsEither, TellsFound, TellsIdentity, bare, end_fault, end_place, fault_number, fault_place, format_name};
ghost use Rattle.g3fax.specs.Identifying.{found_told, in_32, order_number, repaired_rows, said_of, two_dim_told, way_told};
ghost use Rattle.std.specs.Prelude.{◌≡◌};

use crate::codes::in_64_bits;
use crate::signal::coding_number;
use crate::status::{NO_MEMORY, NO_ROOM, OK};
use faults::ToolFault;
use page_code::Coding;
use page_files::{Found, Tried, TwoDim, find_way, two_dim_of};
use raster::packed::Order;
use std::alloc::Global;

/// What octets are, by numbers; what doesn't belong to it is 0.
#[repr(C)]
#[derive(Clone, Copy)]
pub struct G3Found {
    /// The bits of the page's code; or the bit of the fault, from 0.
    pub place: u64,
    /// What they are: 1 a page, or pages, that read in one way; 2 another format; 3 a page of which several widths fit; 4 nothing known; 5 a page
    /// that reads to no end; 6 T.4 in two dimensions, which isn't read.
    pub kind: u32,
    /// The code of the page.
    pub coding: u32,
    /// The order of bits in the octets.
    pub order: u32,
    /// The width of the page in pixels.
    pub width: u32,
    /// The rows of the page, or the whole ones before the fault.
    pub rows: u32,
    /// The fault by which reading ends; 0 at the page's end.
    pub fault: u32,
    /// The rows that repair gives, if it copies none and reading ends by a fault; otherwise 0.
    pub repaired: u32,
    /// How many octets the name of another format has.
    pub length: u32,
}

/// A number in 32 bits, or the greatest such number.
fn in_32_bits(number: usize) -> u32
    ensures { result ≡ in_32 number }
{
    if number > u32::MAX as usize {
        u32::MAX
    } else {
        number as u32
    }
}

/// Returns a width in 32 bits, or the greatest number of these.
fn wide_in_32(width: u128) -> u32
    ensures { result ≡ in_32 width }
{
    if width > u32::MAX as u128 {
        u32::MAX
    } else {
        width as u32
    }
}

/// The number of an order of bits.
fn order_number(order: Order) -> u32
    ensures { result ≡ order_number order }
{
    match order {
        Order::MsbFirst => 0,
        Order::LsbFirst => 1,
    }
}

/// The number of a fault.
fn fault_number(fault: ToolFault) -> u32
    ensures { result ≡ fault_number fault }
{
    match fault {
        ToolFault::No(no) => no as u32,
        ToolFault::AtBit { no, place: _ } => no as u32,
        ToolFault::AtLine(_) => 30,
    }
}

/// The bit of a fault; 0 for a fault that has none.
fn fault_place(fault: ToolFault) -> u128
    ensures { result ≡ fault_place fault }
{
    match fault {
        ToolFault::No(_) => 0,
        ToolFault::AtBit { no: _, place } => place,
        ToolFault::AtLine(_) => 0,
    }
}

/// The number of the fault by which reading ended; 0 at a page's end.
fn end_fault(end: Result<u128, ToolFault>) -> u32
    ensures { result ≡ end_fault end }
{
    match end {
        Ok(_) => 0,
        Err(fault) => fault_number(fault),
    }
}

/// The bits of the page's code, or the bit of the fault.
fn end_place(end: Result<u128, ToolFault>) -> u128
    ensures { result ≡ end_place end }
{
    match end {
        Ok(bits) => bits,
        Err(fault) => fault_place(fault),
    }
}

/// The rows that repair gives; 0 for none.
fn repaired_rows(mended: Option<usize>) -> usize
    ensures { result ≡ repaired_rows mended }
{
    match mended {
        Some(rows) => rows,
        None => 0,
    }
}

/// Tells one way in which octets read, under the number of what they are.
fn way_told(kind: u32, one: &Tried) -> G3Found
    ensures { result ≡ way_told kind one.now }
{
    G3Found {
        place: in_64_bits(end_place(one.end)),
        kind,
        coding: coding_number(one.form.coding),
        order: order_number(one.form.order),
        width: one.form.width,
        rows: in_32_bits(one.rows),
        fault: end_fault(one.end),
        repaired: in_32_bits(repaired_rows(one.mended)),
        length: 0,
    }
}

/// Tells octets that read in no way that is known alone.
fn bare(kind: u32, length: u32) -> G3Found
    ensures { result ≡ bare kind length }
{
    G3Found {
        place: 0,
        kind,
        coding: 0,
        order: 0,
        width: 0,
        rows: 0,
        fault: 0,
        repaired: 0,
        length,
    }
}

/// Tells what octets are by numbers.
fn found_told(what: &Found) -> G3Found
    ensures { result ≡ found_told what.now }
{
    match what {
        Found::Page(one) => way_told(1, one),
        Found::Begun(one) => way_told(5, one),
        Found::Format(name) => bare(2, in_32_bits(name.len())),
        Found::Several => bare(3, 0),
        Found::Nothing => bare(4, 0),
    }
}

/// The name of the format that octets are; none if they are none.
fn format_name(what: &Found) -> &'static str
    ensures { result.now ≡ format_name what.now }
{
    match what {
        Found::Format(name) => *name,
        Found::Page(_) => "",
        Found::Begun(_) => "",
        Found::Several => "",
        Found::Nothing => "",
    }
}

/// Tells what octets are, and copies the name of a format to the beginning of a buffer. Returns 103 if that is too small.
fn tell_found(what: &Found, out: &mut G3Found, format: &mut [u8]) -> u32
    ensures { TellsFound what.now out.old out.new format.old format.new result }
{
    let name = format_name(what).as_bytes();
    if name.len() > format.len() {
        return NO_ROOM;
    }
    format[..name.len()].copy_from_slice(name);
    *out = found_told(what);
    OK
}

/// Returns what octets that are this say of themselves in T.4 in two dimensions, if that is taken for true: they read as no page, and no two
/// rows of T.4 are read.
fn said_of(what: &Found, said: Option<TwoDim>) -> Option<TwoDim>
    ensures { result ≡ said_of what.now said }
{
    match what {
        Found::Begun(one) => match one.form.coding {
            Coding::OneDim => None,
            Coding::T6 => said,
        },
        Found::Nothing => said,
        Found::Page(_) | Found::Format(_) | Found::Several => None,
    }
}

/// Tells octets of T.4 in two dimensions.
fn two_dim_told(said: TwoDim) -> G3Found
    ensures { result ≡ two_dim_told said }
{
    G3Found {
        order: order_number(said.order),
        width: wide_in_32(said.width),
        ..bare(6, 0)
    }
}

/// Tells that octets are T.4 in two dimensions, if they say so; else what they are.
fn tell_either(said: Option<TwoDim>, what: &Found, out: &mut G3Found, format: &mut [u8]) -> u32
    ensures { TellsEither said what.now out.old out.new format.old format.new result }
{
    match said {
        Some(said) => {
            *out = two_dim_told(said);
            OK
        }
        None => tell_found(what, out, format),
    }
}

/// Tells what octets are, as `faxtool identify` finds it: tries them as pages in both codes, both orders of bits and the usual widths.
/// Copies the name of another format to the beginning of a buffer. Returns `G3_NO_ROOM` (103) if the buffer is too small, or `G3_NO_MEMORY` (9).
#[unsafe(no_mangle)]
pub extern "C" fn g3_core_identify(
    alloc: Global,
    octets: &[u8],
    out: &mut G3Found,
    format: &mut [u8],
) -> u32
    ensures { TellsIdentity octets.now out.old out.new format.old format.new result }
{
    match find_way(alloc, octets) {
        Ok(what) => tell_either(said_of(&what, two_dim_of(octets)), &what, out, format),
        Err(_) => NO_MEMORY,
    }
}
