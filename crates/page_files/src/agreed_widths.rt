//! The width on which lines of a page of T.4 agree, whose first line may be damaged (ITU-T T.4, 4.1).

ghost use Rattle.faults.specs.Faults.{IsOutside};
ghost use Rattle.page_files.specs.AgreedWidths.{AgreesOn, LinesAgree, agree, line_after, looked_at, usual_of};
ghost use Rattle.page_files.specs.Identified.{IsAgreed, IsAgreedIn, IsWay};
ghost use Rattle.page_files.specs.PageEnds.{gaps};
ghost use Rattle.raster.specs.Packed.{bits_of};
ghost use Rattle.raster.specs.Pixels.{IsWidth};
ghost use Rattle.std.specs.Prelude.{◌≡◌, ◌≤◌, ◌<◌, ◌*◌, All, IfErr, IfOk, IfSome, drop, length, take};

use crate::identify::{Tried, try_way};
use crate::later_pages::EOL_ZEROS;
use crate::options::PageForm;
use crate::own_widths::row_from;
use crate::zeros::zeros_from;
use faults::ToolFault;
use page_code::Coding;
use run_tables::Order;
use std::alloc::Global;

/// How many octets lines are looked for in: many rows of any page, but few of what is no page.
const LOOKED_AT: usize = 16384;

/// Returns the bit at which the next line begins: after the first EOL from a place on. None if no EOL follows.
fn line_after(octets: &[u8], order: Order, place: u128) -> Option<u128>
    requires { place ≤ 8 * length octets.now }
    ensures line { result ≡ line_after place (gaps 0 (drop place (bits_of order octets.now))) }
    ensures further { IfSome result (λ start. place < start) }
    ensures within { IfSome result (λ start. start ≤ 8 * length octets.now) }
{
    let mut at = place;
    loop {
        match zeros_from(octets, order, at) {
            None => return None,
            Some(zeros) => {
                at += zeros + 1;
                if zeros >= EOL_ZEROS {
                    return Some(at);
                }
            }
        }
    }
}

/// Returns the width that a line says, if it is one of these.
fn usual_of(said: Option<u128>, widths: &[u32]) -> Option<u32>
    requires { All IsWidth widths.now }
    ensures usual { result ≡ usual_of said widths.now }
    ensures page { IfSome result IsWidth }
{
    let Some(width) = said else {
        return None;
    };
    for usual in widths {
        if width == *usual as u128 {
            return Some(*usual);
        }
    }
    None
}

/// Returns the width on which two lines agree, if both say it.
fn agree(before: Option<u32>, said: Option<u32>) -> Option<u32>
    ensures agree { result ≡ agree before said }
    ensures page { IfSome said IsWidth → IfSome result IsWidth }
{
    match (before, said) {
        (Some(one), Some(other)) if one == other => Some(other),
        _ => None,
    }
}

/// Returns the first octets, so many at most.
fn front(octets: &[u8], most: usize) -> &[u8]
    ensures { result.now ≡ take most octets.now }
{
    if most < octets.len() {
        &octets[..most]
    } else {
        octets
    }
}

/// Returns the first of these widths on which two lines agree that follow one another in these octets.
fn width_in(octets: &[u8], order: Order, widths: &[u32]) -> Option<u32>
    requires { All IsWidth widths.now }
    ensures agreed { LinesAgree widths.now (bits_of order octets.now) result }
    ensures page { IfSome result IsWidth }
{
    let mut place = 0;
    let mut before = None;
    loop {
        let Some(start) = line_after(octets, order, place) else {
            return None;
        };
        let said = usual_of(row_from(octets, order, start), widths);
        if let Some(width) = agree(before, said) {
            return Some(width);
        }
        before = said;
        place = start;
    }
}

/// Returns the first of these widths on which two lines of T.4 agree that follow one another at the beginning of octets, in the first 16,384.
pub fn agreed_width(octets: &[u8], order: Order, widths: &[u32]) -> Option<u32>
    requires { All IsWidth widths.now }
    ensures agreed { AgreesOn widths.now order octets.now result }
    ensures page { IfSome result IsWidth }
{
    width_in(front(octets, LOOKED_AT), order, widths)
}

/// Returns the way of T.4 in this order of bits, in the first of these widths on which two lines agree that follow one another, and how far it
/// reads; None if no two do. Errors: `NoMemory` (9).
fn agreed_in(
    alloc: Global,
    octets: &[u8],
    order: Order,
    widths: &[u32],
) -> Result<Option<Tried>, ToolFault>
    requires { All IsWidth widths.now }
    ensures agreed { IfOk result (IsAgreedIn widths.now order octets.now) }
    ensures way { IfOk result (λ agreed. IfSome agreed IsWay) }
    ensures refused { IfErr result IsOutside }
{
    match agreed_width(octets, order, widths) {
        Some(width) => {
            let form = PageForm {
                coding: Coding::OneDim,
                order,
                width,
                fine: false,
            };
            let (tried, _page) = try_way(alloc, octets, form)?;
            Ok(Some(tried))
        }
        None => Ok(None),
    }
}

/// Returns what `agreed_in` does of octets with the most significant bit first, or else with the least. Errors: `NoMemory` (9).
pub(crate) fn agreed_way(
    alloc: Global,
    octets: &[u8],
    widths: &[u32],
) -> Result<Option<Tried>, ToolFault>
    requires { All IsWidth widths.now }
    ensures agreed { IfOk result (IsAgreed widths.now octets.now) }
    ensures way { IfOk result (λ agreed. IfSome agreed IsWay) }
    ensures refused { IfErr result IsOutside }
{
    match agreed_in(alloc, octets, Order::MsbFirst, widths)? {
        Some(one) => Ok(Some(one)),
        None => agreed_in(alloc, octets, Order::LsbFirst, widths),
    }
}
