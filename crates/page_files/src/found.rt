//! What octets are, as far as it decides how they are decoded: a format, or a page that is read in one way.

ghost use Rattle.faults.specs.Faults.{IsOutside};
ghost use Rattle.page_files.specs.Found.{Finds, FindsBy, FindsIn, IsChosen, ReadsSo, others, page_or_several, widths_from};
ghost use Rattle.page_files.specs.Found.{HasBegun, least_rows, HasItsWidth, IsAgreedBy, IsDamaged, IsFurthest, IsMost, best_of, found_by};
ghost use Rattle.page_files.specs.Found.{found_line, said_in};
ghost use Rattle.page_files.specs.declared.found.Found.TheVariants.{Several};
ghost use Rattle.page_files.specs.declared.identify.Tried.{Tried};
ghost use Rattle.page_files.specs.Identified.{AreTwoDim, IsTried, IsWay, fits_one};
ghost use Rattle.page_files.specs.Sources.{IsPageIn};
ghost use Rattle.std.specs.Io.KnownBytes.{Appends};
ghost use Rattle.raster.specs.Pixels.{IsWidth};
ghost use Rattle.std.specs.Prelude.{◌≡◌, ◌++◌, ◌∷◌, ◌↔◌, [], List, All, IfErr, IfOk, IfSome, IsTrue, OnOk, Some, find};

use crate::agreed_widths::agreed_way;
use crate::identify::{
    Fit, Identity, Said, Tried, WIDTHS, fits, format_of, identity_of, least_lines, tell_format,
    tell_tried, try_ways,
};
use crate::own_widths::two_dim_width;
use crate::source::FoundPage;
use faults::{NO_MEMORY, ToolFault};
use page_code::Coding;
use run_tables::Order;
use std::alloc::Global;
use std::io::Write;

/// What octets are.
#[derive(Clone, Copy, Debug, PartialEq, Eq)]
pub enum Found {
    /// They begin as a format of this name.
    Format(&'static str),
    /// They are a page, or pages, that is read in this way.
    Page(Tried),
    /// They read to no page's end, but lines of T.4 agree on the width of this way, or else they begin with rows, most in this way. It is of T.4
    /// if a way of T.4 reads a row.
    Begun(Tried),
    /// They are a page whose width isn't known.
    Several,
    /// They are neither a page nor a known format, and begin with no row in any way.
    Nothing,
}

/// Returns the first way that octets fit so far.
fn first_fit(fit: Fit, octets: &[u8], tried: &[Tried]) -> Option<Tried>
    ensures first { result ≡ find (fits_one fit octets.now) tried.now }
    ensures way { All IsWay tried.now → IfSome result IsWay }
    ensures tried { All (IsTried octets.now) tried.now → IfSome result (IsTried octets.now) }
{
    for one in tried {
        if fits(fit, octets, one) {
            return Some(*one);
        }
    }
    None
}

/// Returns the best way in which octets read as a page: one that ends with them, or without EOFB, or before them, or by `decode --repair`.
fn best_of(octets: &[u8], tried: &[Tried]) -> Option<Tried>
    ensures best { result ≡ best_of octets.now tried.now }
    ensures way { All IsWay tried.now → IfSome result IsWay }
    ensures tried { All (IsTried octets.now) tried.now → IfSome result (IsTried octets.now) }
{
    if let Some(one) = first_fit(Fit::Whole, octets, tried) {
        return Some(one);
    }
    if let Some(one) = first_fit(Fit::NoEofb, octets, tried) {
        return Some(one);
    }
    if let Some(one) = first_fit(Fit::Early, octets, tried) {
        return Some(one);
    }
    first_fit(Fit::Mended, octets, tried)
}

/// The widths that octets say themselves, in T.4 and in T.4 in two dimensions.
#[derive(Clone, Copy)]
struct SaidWidths {
    own: Said,
    two: Said,
}

/// Returns what octets say in this order of bits.
fn said_in(order: Order, said: Said) -> Option<u128>
    ensures { result ≡ said_in order said }
{
    match order {
        Order::MsbFirst => said.msb,
        Order::LsbFirst => said.lsb,
    }
}

/// Returns how many rows are the least by which damaged octets, which say these widths, are known in this code.
fn least_rows(said: SaidWidths, coding: Coding, order: Order) -> usize
    ensures { result ≡ least_rows said coding order }
{
    match coding {
        Coding::OneDim => least_lines(said_in(order, said.own), said_in(order, said.two)),
        Coding::T6 => 1,
    }
}

/// Returns whether a way is one in this code in which octets begin with rows, not too few, and read to no page's end.
fn has_begun(coding: Coding, said: SaidWidths, octets: &[u8], one: &Tried) -> bool
    ensures { IsTrue result ↔ HasBegun coding said octets.now one.now }
{
    one.form.coding == coding
        && fits(Fit::Begun, octets, one)
        && least_rows(said, coding, one.form.order) <= one.rows
}

/// Returns the way that reads more rows: the one that reads the most so far, if there is one, or the next one.
fn more_of(
    coding: Coding,
    said: SaidWidths,
    octets: &[u8],
    most: Option<Tried>,
    one: &Tried,
) -> Option<Tried>
    ensures most { (tried : List Tried) → IsMost coding said octets.now tried most
        → IsMost coding said octets.now (tried ++ one.now ∷ []) result }
    ensures way { IfSome most IsWay → IsWay one.now → IfSome result IsWay }
{
    if !has_begun(coding, said, octets, one) {
        return most;
    }
    match most {
        None => Some(*one),
        Some(before) => {
            if before.rows < one.rows {
                Some(*one)
            } else {
                Some(before)
            }
        }
    }
}

/// Returns the way in this code that reads the most rows of octets that are no page, the first one of several; None if none reads a row.
fn most_in(coding: Coding, said: SaidWidths, octets: &[u8], tried: &[Tried]) -> Option<Tried>
    ensures most { IsMost coding said octets.now tried.now result }
    ensures way { All IsWay tried.now → IfSome result IsWay }
{
    let mut most = None;
    for one in tried {
        most = more_of(coding, said, octets, most, one);
    }
    most
}

/// Returns the way in which octets that are no page read furthest: that of T.4 with the most rows, or else that of T.6.
fn furthest_of(said: SaidWidths, octets: &[u8], tried: &[Tried]) -> Option<Tried>
    ensures furthest { IsFurthest said octets.now tried.now result }
    ensures way { All IsWay tried.now → IfSome result IsWay }
{
    if let Some(one) = most_in(Coding::OneDim, said, octets, tried) {
        return Some(one);
    }
    most_in(Coding::T6, said, octets, tried)
}

/// Returns what octets are by their identity, the best way, and the one in which they are read if they are no page.
fn found_by(identity: Identity, best: Option<Tried>, damaged: Option<Tried>) -> Found
    ensures found { result ≡ found_by identity best damaged }
    ensures width { IfSome best IsWay → IfSome damaged IsWay → HasItsWidth result }
{
    match (identity, best, damaged) {
        (Identity::Known, Some(one), _) => Found::Page(one),
        (Identity::Known, None, _) => Found::Nothing,
        (Identity::Several, _, _) => Found::Several,
        (Identity::Nothing(_), _, Some(one)) => Found::Begun(one),
        (Identity::Nothing(_), _, None) => Found::Nothing,
    }
}

/// Returns the widths that octets say in T.4 in two dimensions.
fn two_dims_said(octets: &[u8]) -> Said
    ensures { AreTwoDim octets.now result.msb result.lsb }
{
    Said {
        msb: two_dim_width(octets, Order::MsbFirst),
        lsb: two_dim_width(octets, Order::LsbFirst),
    }
}

/// Returns the way in which octets that are no page are read: in the width on which lines of T.4 agree, if they do, or else the one in which
/// they read furthest.
fn damaged_way(
    said: SaidWidths,
    agreed: Option<Tried>,
    octets: &[u8],
    tried: &[Tried],
) -> Option<Tried>
    ensures damaged { IsDamaged said octets.now tried.now agreed result }
    ensures way { IfSome agreed IsWay → All IsWay tried.now → IfSome result IsWay }
{
    match agreed {
        Some(one) => Some(one),
        None => furthest_of(said, octets, tried),
    }
}

/// Returns the way in the width on which lines of T.4 agree; it isn't looked for in octets that are known. Errors: `NoMemory` (9).
fn agreed_of(
    alloc: Global,
    identity: Identity,
    octets: &[u8],
    widths: &[u32],
) -> Result<Option<Tried>, ToolFault>
    requires { All IsWidth widths.now }
    ensures agreed { IfOk result (IsAgreedBy identity widths.now octets.now) }
    ensures way { IfOk result (λ agreed. IfSome agreed IsWay) }
    ensures fault { IfErr result IsOutside }
{
    match identity {
        Identity::Nothing(_) => agreed_way(alloc, octets, widths),
        Identity::Known | Identity::Several => Ok(None),
    }
}

/// Returns what octets are by the ways in these widths, and a page that they begin with, if one is read to its end. Errors: `NoMemory` (9).
#[tactic(auto, using(crate::proofs::PagesFound::found_reads))]
fn find_in(
    alloc: Global,
    octets: &[u8],
    widths: &[u32],
) -> Result<(Found, Option<FoundPage>), ToolFault>
    requires { All IsWidth widths.now }
    ensures found { IfOk result (λ read. FindsIn widths.now octets.now read.0) }
    ensures width { IfOk result (λ read. HasItsWidth read.0) }
    ensures reads { IfOk result (λ read. ReadsSo octets.now read.0) }
    ensures page { IfOk result (λ read. IfSome read.1 (IsPageIn octets.now)) }
    ensures fault { IfErr result IsOutside }
{
    if let Some(name) = format_of(octets) {
        return Ok((Found::Format(name), None));
    }
    let (results, own) = try_ways(alloc, octets, widths)?;
    let two = two_dims_said(octets);
    let tried = results.tried;
    let identity = identity_of(None, octets, &tried);
    let best = best_of(octets, &tried);
    let agreed = agreed_of(alloc, identity, octets, widths)?;
    let damaged = damaged_way(SaidWidths { own, two }, agreed, octets, &tried);
    Ok((found_by(identity, best, damaged), results.found))
}

/// Returns what octets are. Errors: `NoMemory` (9).
pub fn find_way(alloc: Global, octets: &[u8]) -> Result<Found, ToolFault>
    ensures found { IfOk result (Finds octets.now) }
    ensures width { IfOk result HasItsWidth }
    ensures reads { IfOk result (ReadsSo octets.now) }
    ensures fault { IfErr result IsOutside }
{
    let (found, _page) = find_in(alloc, octets, &WIDTHS)?;
    Ok(found)
}

/// Appends a width, unless it is this one. Errors: `NoMemory` (9).
fn add_other(other: u32, width: u32, list: &mut Vec<u32>) -> Result<(), ToolFault>
    requires { IsWidth other }
    ensures other { OnOk result (list.new.items ≡ list.old.items ++ others width (other ∷ [])) }
    ensures page { OnOk result (All IsWidth list.old.items → All IsWidth list.new.items) }
    ensures refused { IfErr result IsOutside }
{
    if other == width {
        return Ok(());
    }
    if list.push(other).is_err() {
        return Err(NO_MEMORY);
    }
    Ok(())
}

/// Appends those widths that aren't this one. Errors: `NoMemory` (9).
fn add_others(widths: &[u32], width: u32, list: &mut Vec<u32>) -> Result<(), ToolFault>
    requires { All IsWidth widths.now }
    ensures others { OnOk result (list.new.items ≡ list.old.items ++ others width widths.now) }
    ensures pages { OnOk result (All IsWidth list.old.items → All IsWidth list.new.items) }
    ensures refused { IfErr result IsOutside }
{
    for other in widths {
        add_other(*other, width, list)?;
    }
    Ok(())
}

/// Returns the widths that are tried if this one is likely: it is the first. Errors: `NoMemory` (9).
fn widths_from(alloc: Global, width: u32) -> Result<Vec<u32>, ToolFault>
    requires { IsWidth width }
    ensures widths { IfOk result (λ widths. widths.items ≡ widths_from width) }
    ensures pages { IfOk result (λ widths. All IsWidth widths.items) }
    ensures refused { IfErr result IsOutside }
{
    let mut widths = Vec::new(alloc);
    if widths.push(width).is_err() {
        return Err(NO_MEMORY);
    }
    add_others(&WIDTHS, width, &mut widths)?;
    Ok(widths)
}

/// Returns the best way as a page; of octets that several ways read, none of which is of the likely width, the width isn't known.
fn page_or_several(best: Option<Tried>) -> Found
    ensures page { result ≡ page_or_several best }
    ensures width { IfSome best IsWay → HasItsWidth result }
{
    match best {
        Some(one) => Found::Page(one),
        None => Found::Several,
    }
}

/// Returns what octets are of which several ways read: a page of this width, if one of them has it, and then the page. Errors: `NoMemory`
/// (9).
#[tactic(auto, using(crate::proofs::PagesFound::own_reads))]
fn find_at(
    alloc: Global,
    octets: &[u8],
    width: u32,
) -> Result<(Found, Option<FoundPage>), ToolFault>
    requires { IsWidth width }
    ensures chosen { IfOk result (λ read. IsChosen width octets.now Several read.0) }
    ensures width { IfOk result (λ read. HasItsWidth read.0) }
    ensures reads { IfOk result (λ read. ReadsSo octets.now read.0) }
    ensures page { IfOk result (λ read. IfSome read.1 (IsPageIn octets.now)) }
    ensures fault { IfErr result IsOutside }
{
    let widths = [width];
    let (results, _said) = try_ways(alloc, octets, &widths)?;
    let tried = results.tried;
    let best = best_of(octets, &tried);
    Ok((page_or_several(best), results.found))
}

/// Returns what octets are if this width is likely, and a page that they begin with, if one is read to its end. Errors: `NoMemory` (9).
fn find_near(
    alloc: Global,
    octets: &[u8],
    width: u32,
) -> Result<(Found, Option<FoundPage>), ToolFault>
    requires { IsWidth width }
    ensures found { IfOk result (λ read. FindsBy (Some width) octets.now read.0) }
    ensures width { IfOk result (λ read. HasItsWidth read.0) }
    ensures reads { IfOk result (λ read. ReadsSo octets.now read.0) }
    ensures page { IfOk result (λ read. IfSome read.1 (IsPageIn octets.now)) }
    ensures fault { IfErr result IsOutside }
{
    let widths = widths_from(alloc, width)?;
    let (found, page) = find_in(alloc, octets, widths.as_slice())?;
    match found {
        Found::Several => {
            let (near, its_page) = find_at(alloc, octets, width)?;
            Ok((near, its_page))
        }
        Found::Format(_) | Found::Page(_) | Found::Begun(_) | Found::Nothing => Ok((found, page)),
    }
}

/// Returns what octets are, if a width is likely or if none is: it decides where several ways read, and its ways are tried too. With it
/// comes a page that they begin with, if one is read to its end: mostly the one that they are, so that it need not be read again. Errors:
/// `NoMemory` (9).
pub fn find_way_by(
    alloc: Global,
    octets: &[u8],
    likely: Option<u32>,
) -> Result<(Found, Option<FoundPage>), ToolFault>
    requires { IfSome likely IsWidth }
    ensures found { IfOk result (λ read. FindsBy likely octets.now read.0) }
    ensures width { IfOk result (λ read. HasItsWidth read.0) }
    ensures reads { IfOk result (λ read. ReadsSo octets.now read.0) }
    ensures page { IfOk result (λ read. IfSome read.1 (IsPageIn octets.now)) }
    ensures fault { IfErr result IsOutside }
{
    match likely {
        Some(width) => find_near(alloc, octets, width),
        None => find_in(alloc, octets, &WIDTHS),
    }
}

/// Writes the line of what octets are, as `identify_engine` does; nothing if they begin with no row. Errors: `Io` (8) from the writer,
/// `NoMemory` (9).
pub fn tell_found<W: Write>(octets: &[u8], found: &Found, writer: &mut W) -> Result<(), ToolFault>
    ensures told { OnOk result (Appends (W.contents writer.old) (W.contents writer.new) (found_line octets.now found.now)) }
    ensures fault { IfErr result IsOutside }
{
    match found {
        Found::Format(name) => tell_format(Some(*name), writer),
        Found::Page(one) | Found::Begun(one) => tell_tried(octets, one, writer),
        Found::Several => {
            writeln!(writer, "the width is not known")?;
            Ok(())
        }
        Found::Nothing => Ok(()),
    }
}
