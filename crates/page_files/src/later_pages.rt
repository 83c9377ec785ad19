//! Pages of a file one after another, and which of them is decoded.

ghost use Rattle.page_files.specs.Decodings.{IsKept, RefusesKept};
ghost use Rattle.faults.specs.Faults.{IsOutside};
ghost use Rattle.page_files.specs.LaterPages.{AfterPage, AnswersPage, AnswersReached, IsFrom, IsLater, IsLaterOneDim, IsLaterT6, Reaches};
ghost use Rattle.page_files.specs.LaterPages.{KeepsPage, KeepsReached, RefusesReached, asks_damaged, begins_text, broken_line, pages_line};
ghost use Rattle.page_code.specs.OneDimension.Fronts.{zeros_before};
ghost use Rattle.page_code.specs.PageReaders.{IsPageRefused};
ghost use Rattle.raster.specs.Packed.{bits_of, place_in};
ghost use Rattle.raster.specs.Pixels.{IsWidth};
ghost use Rattle.std.specs.Int.{bit_at};
ghost use Rattle.std.specs.Io.KnownBytes.{Appends};
ghost use Rattle.std.specs.Prelude.{false, None, ◌≡◌, ◌≤◌, ◌<◌, ◌+◌, ◌-◌, ◌*◌, ◌⊎◌, ℕ};
ghost use Rattle.std.specs.Prelude.{◌↔◌, IfErr, IfOk, IfSome, IsTrue, OnErr, OnOk, drop, length};

use crate::answer::{DecodeAnswer, answer_decode};
use crate::coded::read_code;
use crate::decode_records::{told_as, write_begins};
use crate::file_pages::FilePages;
use crate::options::{DecodeOptions, PageForm};
use faults::ToolFault;
use page_code::{Coding, RefusedCode};
use raster::Page;
use raster::packed::{Order, bit_of};
use std::alloc::Global;
use std::io::Write;
use std::mem;

/// What follows some pages of a file.
#[derive(Clone, Copy)]
enum Reached {
    /// Another page.
    Page,
    /// Nothing, or only EOLs and 0 bits: the file has this number of pages.
    End(u32),
    /// The page with this number, counted from 1, can't be read to its end, and where it ends isn't known.
    Broken(u32, ToolFault),
}

/// `FewerPages` (28): the file has fewer pages than the number asked for.
const FEWER_PAGES: ToolFault = ToolFault::No(28);

/// The 0 bits of an EOL without fill (ITU-T T.4, 4.1.2).
pub(crate) const EOL_ZEROS: u128 = 11;

/// Returns the number of 0 bits before the first 1 from a place on; None if no 1 follows.
pub(crate) fn zeros_at(octets: &[u8], order: Order, place: u128) -> Option<u128>
    requires { place ≤ 8 * length octets.now }
    ensures zeros { result ≡ zeros_before (drop place (bits_of order octets.now)) }
    ensures within { IfSome result (λ zeros. place + zeros < 8 * length octets.now) }
{
    let end = 8 * octets.len() as u128;
    let mut at = place;
    while at < end {
        if bit_of(order, octets, at) {
            return Some(at - place);
        }
        at += 1;
    }
    None
}

/// Returns the bit at which the page begins that follows one of T.4 with the first `used` bits: at the last EOL of those there, without its
/// fill; or in the next octet if no EOL is there.
fn later_one_dim(octets: &[u8], order: Order, used: u128) -> Option<u128>
    requires { used ≤ 8 * length octets.now }
    ensures later { IsLaterOneDim used (drop used (bits_of order octets.now)) result }
    ensures within { IfSome result (λ start. start ≤ 8 * length octets.now) }
{
    let end = 8 * octets.len() as u128;
    let mut place = used;
    // An EOL may follow at the next bit, in the next octet or after fill; earlier EOLs, as the seventh of pbmtog3, are passed over.
    let mut start = 8 * used.div_ceil(8);
    while place < end {
        let Some(zeros) = zeros_at(octets, order, place) else {
            return None;
        };
        if zeros < EOL_ZEROS {
            return Some(start);
        }
        start = place + zeros - EOL_ZEROS;
        place += zeros + 1;
    }
    None
}

/// Returns the bit at which the page begins that follows one of T.6, which ends before the octet `from`.
fn later_t6(octets: &[u8], from: usize) -> Option<u128>
    ensures later { IsLaterT6 from octets.now result }
    ensures within { IfSome result (λ start. start ≤ 8 * length octets.now) }
{
    let mut at = from;
    while at < octets.len() {
        // EOFB is filled up to an octet (T.6, 2.4), and no page begins with eight 0 bits
        if octets[at] != 0 {
            return Some(8 * at as u128);
        }
        at += 1;
    }
    None
}

/// Returns the bit at which the page begins that follows the first one, of the first `used` bits; None if none follows. The width isn't
/// used.
pub fn later_in(octets: &[u8], form: PageForm, used: u128) -> Option<u128>
    ensures later { IsLater form octets.now used result }
    ensures within { IfSome result (λ start. start ≤ 8 * length octets.now) }
{
    if used > 8 * octets.len() as u128 {
        return None;
    }
    match form.coding {
        Coding::OneDim => later_one_dim(octets, form.order, used),
        Coding::T6 => later_t6(octets, used.div_ceil(8) as usize),
    }
}

/// Returns an octet with its first `count` bits, one to seven, set to 0.
pub fn without_first(order: Order, octet: u8, count: u32) -> u8
    requires some { 0 < count }
    requires few { count < 8 }
    ensures inside { (k : ℕ) → k < count → bit_at result (place_in order k) ≡ 0 }
    ensures after { (k : ℕ) → count ≤ k → k < 8 → bit_at result (place_in order k) ≡ bit_at octet (place_in order k) }
{
    match order {
        Order::LsbFirst => octet & !(u8::MAX >> (8 - count)),
        Order::MsbFirst => octet & (u8::MAX >> count),
    }
}

/// Passes `pages` pages with what lies between each and the next, and returns what follows. The pages left then begin with the page that
/// follows; or with the last page, if it is one of these; or with the first page that can't be passed, and then `kept` holds how far it was
/// read, otherwise None. Errors: `NoMemory` (9).
fn skip_pages(
    alloc: Global,
    left: &mut FilePages,
    pages: u32,
    mends: bool,
    kept: &mut Option<RefusedCode>,
) -> Result<Reached, ToolFault>
    ensures form { left.new.form ≡ left.old.form }
    ensures reached { IfOk result (λ reached. Reaches mends left.old.form pages left.old.octets left.new.octets reached) }
    ensures known { IfSome kept.new (IsPageRefused left.old.form.coding left.old.form.width
        (bits_of left.old.form.order left.new.octets)) }
    ensures kept { IfOk result (KeepsReached kept.new) }
    ensures refused { IfErr result IsOutside }
{
    *kept = None;
    for before in 0..pages {
        match left.pass(alloc, mends, kept) {
            Ok(true) => {}
            Ok(false) => return Ok(Reached::End(before + 1)),
            Err(fault) => {
                return match *kept {
                    Some(_) => Ok(Reached::Broken(before + 1, fault)),
                    None => Err(fault),
                };
            }
        }
    }
    Ok(Reached::Page)
}

/// Writes the octet at which a page begins, as a line or a record, if asked for and the page isn't the first.
fn tell_begins<W: Write>(
    alloc: Global,
    options: DecodeOptions,
    page: u32,
    octet: usize,
    writer: &mut W,
) -> Result<(), ToolFault>
    ensures told { OnOk result (Appends (W.contents writer.old) (W.contents writer.new)
        (begins_text options.verbose options.records page octet)) }
    ensures fault { IfErr result IsOutside }
{
    if !options.verbose || page <= 1 {
        return Ok(());
    }
    if options.records {
        return write_begins(alloc, page, octet, writer);
    }
    writeln!(writer, "page {page} begins at octet {octet}")?;
    Ok(())
}

/// Writes the line of how many pages a file has.
fn tell_count<W: Write>(count: u32, writer: &mut W) -> Result<(), ToolFault>
    ensures told { OnOk result (Appends (W.contents writer.old) (W.contents writer.new) (pages_line count)) }
    ensures fault { IfErr result IsOutside }
{
    writeln!(writer, "pages in the file: {count}")?;
    Ok(())
}

/// Writes the line of a page that can't be read to its end, with the octet at which it begins.
fn tell_broken<W: Write>(number: u32, octet: usize, writer: &mut W) -> Result<(), ToolFault>
    ensures told { OnOk result (Appends (W.contents writer.old) (W.contents writer.new) (broken_line number octet)) }
    ensures fault { IfErr result IsOutside }
{
    writeln!(
        writer,
        "page {number} begins at octet {octet} and can't be read to its end"
    )?;
    Ok(())
}

/// Returns whether damaged pages are asked for.
pub fn asks_damaged(options: DecodeOptions) -> bool
    ensures { result ≡ asks_damaged options }
{
    options.salvage || options.repair
}

/// Returns whether a fault says nothing of the octets: `Io` (8) or `NoMemory` (9).
fn is_outside(fault: ToolFault) -> bool
    ensures { IsTrue result ↔ IsOutside fault }
{
    matches!(fault, ToolFault::No(8 | 9))
}

/// Decodes octets that begin with the page of this number as `answer_decode` does; if asked for, reports first at which octet of the file
/// they begin, also where they are refused.
fn answer_reached(
    alloc: Global,
    octets: &[u8],
    form: PageForm,
    options: DecodeOptions,
    at: (u32, usize),
    kept: &mut Option<RefusedCode>,
) -> Result<DecodeAnswer, ToolFault>
    requires { IsWidth form.width }
    ensures known { IfSome kept.new (IsPageRefused form.coding form.width (bits_of form.order octets.now)) }
    ensures answered { IfOk result (λ answer.
        AnswersReached form options at.0 at.1 octets.now answer.page answer.told.items answer.end
        ⊎ RefusesReached form options at.0 at.1 octets.now answer.page answer.told.items answer.end) }
    ensures refused { IfErr result IsOutside }
    ensures kept { options.repair ≡ false → IfErr result (IsKept kept.new) }
    ensures kept_rows { options.repair ≡ false → IfOk result (λ answer. IfErr answer.end (IsKept kept.new)) }
{
    let mut begun = Vec::new(alloc);
    let (page, octet) = at;
    *kept = None;
    tell_begins(alloc, options, page, octet, &mut begun)?;
    match answer_decode(alloc, octets, form, options, kept) {
        Ok(decoded) => {
            let DecodeAnswer { page, told, end } = decoded;
            begun.write_all(&told)?;
            Ok(DecodeAnswer {
                page,
                told: begun,
                end,
            })
        }
        Err(fault) if is_outside(fault) => Err(fault),
        Err(fault) => {
            let page = Page::new(alloc, form.width, form.fine)?;
            Ok(DecodeAnswer {
                page,
                told: begun,
                end: Err(fault),
            })
        }
    }
}

/// Decodes page `page`, counted from 1, of octets with pages of `form` one after another, as `answer_decode` decodes the first. The octets
/// then begin with that page, and bits are counted from its first octet on. If the file has fewer pages, reports how many, with
/// `FewerPages` (28). If a page before it can't be read, reports its number, with its fault; but if damaged pages are asked for, it is passed
/// by the mark of its end, if that is found. A refusal is the answer's end. `kept` is that
/// of `answer_decode`. Errors: `NoMemory` (9).
pub fn answer_page(
    alloc: Global,
    octets: &mut Vec<u8>,
    form: PageForm,
    options: DecodeOptions,
    page: u32,
    kept: &mut Option<RefusedCode>,
) -> Result<DecodeAnswer, ToolFault>
    requires { IsWidth form.width }
    ensures known { IfSome kept.new (IsPageRefused form.coding form.width (bits_of form.order octets.new.items)) }
    ensures answered { IfOk result (λ answer.
        AnswersPage form options page octets.old.items octets.new.items answer.page answer.told.items answer.end) }
    ensures refused { IfErr result IsOutside }
    ensures kept { options.repair ≡ false → IfErr result (IsKept kept.new) }
    ensures kept_rows { options.repair ≡ false → IfOk result (λ answer. IfErr answer.end (KeepsPage kept.new)) }
{
    let size = octets.len();
    let mut left = FilePages::new(mem::replace(octets, Vec::new(alloc)), form);
    let mends = asks_damaged(options);
    let found = skip_pages(alloc, &mut left, page.saturating_sub(1), mends, kept);
    *octets = left.into_octets();
    let reached = found?;
    let octet = size.saturating_sub(octets.len());
    let none = Page::new(alloc, form.width, form.fine)?;
    let mut lines = Vec::new(alloc);
    match reached {
        Reached::Page => answer_reached(alloc, octets, form, options, (page, octet), kept),
        Reached::End(count) => {
            tell_count(count, &mut lines)?;
            let told = told_as(alloc, options.records, lines)?;
            let end = Err(FEWER_PAGES);
            Ok(DecodeAnswer {
                page: none,
                told,
                end,
            })
        }
        Reached::Broken(number, fault) => {
            tell_broken(number, octet, &mut lines)?;
            let told = told_as(alloc, options.records, lines)?;
            let end = Err(fault);
            Ok(DecodeAnswer {
                page: none,
                told,
                end,
            })
        }
    }
}
