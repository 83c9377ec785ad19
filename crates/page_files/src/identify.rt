//! What `faxtool identify` says of octets: the format that they begin as, and in which ways they read as a page.

ghost use Rattle.page_files.specs.Answers.{octets_after};
ghost use Rattle.faults.specs.Faults.{IsOutside};
ghost use Rattle.page_files.specs.Identified.{AreOneDimTried, AreTried, AreTwoDim, HasFirstRow, Identifies, IsTried, MendsTo, SaysOwn};
ghost use Rattle.page_files.specs.Identified.{TellsNothing};
ghost use Rattle.page_files.specs.Identified.{has_rows, is_among, is_usual, least_lines, reads_rows, same_order};
ghost use Rattle.page_files.specs.Identified.{TellsIdentity, after_words};
ghost use Rattle.page_files.specs.Identified.{coding_name, count_of, fits, form_of, format_among, format_line, format_of, forms_in};
ghost use Rattle.page_files.specs.Identified.{UnreadBy, identity_of, lacks_eofb, line_of, lines_of, no_page, order_name, own_forms};
ghost use Rattle.page_files.specs.Identified.{tried_line, two_dim_line, two_dim_text, wide_line};
ghost use Rattle.page_files.specs.OwnWidths.{SaysTwoDim};
ghost use Rattle.raster.specs.Packed.{bits_of};
ghost use Rattle.raster.specs.Pixels.{IsWidth};
ghost use Rattle.page_files.specs.Sources.{IsPageIn};
ghost use Rattle.std.specs.Io.KnownBytes.{Appends};
ghost use Rattle.std.specs.Prelude.{◌≡◌, ◌≤◌, ◌++◌, ◌↔◌, ℕ, List, Option, All, IfErr, IfOk, IfSome, IsTrue, OnOk, length, map, option_map};

use crate::agreed_widths::agreed_way;
use crate::coded::read_code;
use crate::options::PageForm;
use crate::own_widths::{first_line, two_dim_width};
use crate::source::{FoundPage, OrderedOctets, Results, turned_lsb};
use crate::unread::tell_unread_by;
use faults::{FaultKind, NO_MEMORY, ToolFault};
use page_code::{Coding, OneDim, RepairedPage};
use raster::MAX_WIDTH;
use run_tables::{BitReader, Order};
use std::alloc::Global;
use std::io::Write;

/// How far octets read in one way.
#[derive(Clone, Copy, Debug, PartialEq, Eq)]
pub struct Tried {
    /// The code, the order of bits and the width in pixels.
    pub form: PageForm,
    /// The number of rows: all of the page, or the whole ones before the fault.
    pub rows: usize,
    /// The number of bits of the page's code, or the fault of the refused bit.
    pub end: Result<u128, ToolFault>,
    /// In T.4, of a page that is refused: the number of its rows, if `decode --repair` reads all of them and copies none.
    pub mended: Option<usize>,
}

/// How far octets fit a way to read them.
#[derive(Clone, Copy)]
pub(crate) enum Fit {
    /// They read to a page's end, and no octet comes after it.
    Whole,
    /// They read to the last row of a page in T.6, and only 0 bits come after it, or none: its EOFB is missing.
    NoEofb,
    /// They read to a page's end, and octets come after it.
    Early,
    /// They are a page that `decode --repair` reads without a copied row, as one with empty runs at the ends of rows.
    Mended,
    /// They read to no page's end, but begin with a row.
    Begun,
}

/// What octets are known to be.
#[derive(Clone, Copy, Debug, PartialEq, Eq)]
pub enum Identity {
    /// A format, or a page whose way to be read is known.
    Known,
    /// A page whose width isn't known: several ways read it, of which none or several end with the octets.
    Several,
    /// Neither a page nor a known format.
    Nothing(ToolFault),
}

/// The widths in pixels that are tried if octets say none themselves: those that a call carries, those of A5 and A6 (ITU-T T.30, table 2),
/// and those of Letter and A4 paper at 200 dots an inch.
pub const WIDTHS: [u32; 7] = [1728, 2048, 2432, 1216, 864, 1700, 1654];

/// A format: the octets that its files begin with, and its name.
#[derive(Clone, Copy)]
struct Format(&'static [u8], &'static str);

/// The name of bits of a line: flags (ITU-T T.30, 5.3.3; 01111110), from any of their bits on.
const LINE_BITS: &str = "bits of a line (HDLC flags)";

/// The formats that are known.
const FORMATS: [Format; 29] = [
    Format(b"II*\0", "TIFF"),
    Format(b"MM\0*", "TIFF"),
    Format(b"II+\0", "BigTIFF"),
    Format(b"MM\0+", "BigTIFF"),
    Format(b"%PDF-", "PDF"),
    Format(b"%!PS", "PostScript"),
    Format(b"\x89PNG\r\n\x1a\n", "PNG"),
    Format(b"P1", "plain PBM"),
    Format(b"P2", "plain PGM"),
    Format(b"P3", "plain PPM"),
    Format(b"P4", "PBM"),
    Format(b"P5", "PGM"),
    Format(b"P6", "PPM"),
    Format(b"P7", "PAM"),
    Format(b"\xff\xd8\xff", "JPEG"),
    Format(b"GIF8", "GIF"),
    Format(b"Sfff", "SFF"),
    Format(b"\xb1h\xde:", "DCX"),
    Format(b"\x1f\x8b\x08", "gzip"),
    Format(b"PK\x03\x04", "ZIP"),
    Format(b"\0\0\x01\0\0\0", "JBIG"),
    Format(b"\x7e\x7e\x7e", LINE_BITS),
    Format(b"\x3f\x3f\x3f", LINE_BITS),
    Format(b"\x9f\x9f\x9f", LINE_BITS),
    Format(b"\xcf\xcf\xcf", LINE_BITS),
    Format(b"\xe7\xe7\xe7", LINE_BITS),
    Format(b"\xf3\xf3\xf3", LINE_BITS),
    Format(b"\xf9\xf9\xf9", LINE_BITS),
    Format(b"\xfc\xfc\xfc", LINE_BITS),
];

/// The name of the first format of a list as which octets begin.
fn format_among(formats: &[Format], octets: &[u8]) -> Option<&'static str>
    ensures { option_map (λ name. name.now) result ≡ format_among (map (λ format. (format.0.now, format.1.now)) formats.now) octets.now }
{
    for format in formats {
        if octets.starts_with(format.0) {
            return Some(format.1);
        }
    }
    None
}

/// Returns the name of the format that octets begin as, if it is known.
pub(crate) fn format_of(octets: &[u8]) -> Option<&'static str>
    ensures { option_map (λ name. name.now) result ≡ format_of octets.now }
{
    format_among(&FORMATS, octets)
}

/// Returns whether a row of T.4 of this width in pixels begins where the first line does. Errors: `NoMemory` (9).
fn has_first_row(alloc: Global, octets: &[u8], order: Order, width: u32) -> Result<bool, ToolFault>
    requires { IsWidth width }
    ensures row { IfOk result (λ has. IsTrue has ↔ HasFirstRow width (bits_of order octets.now)) }
    ensures refused { IfErr result IsOutside }
{
    let start = first_line(octets, order);
    let mut reader = BitReader::at(octets, order, start);
    match reader.read_row_1d(alloc, width) {
        Ok(_row) => Ok(true),
        Err(fault) if fault.is_memory() => Err(NO_MEMORY),
        Err(_fault) => Ok(false),
    }
}

/// Returns the number of rows of a page of T.4, if `decode --repair` reads all of them and copies none. Errors: `NoMemory` (9).
fn mended_rows(alloc: Global, octets: &[u8], form: PageForm) -> Result<Option<usize>, ToolFault>
    requires { IsWidth form.width }
    ensures rows { IfOk result (MendsTo form.order form.width octets.now) }
    ensures refused { IfErr result IsOutside }
{
    // a page with no copied row begins with a row: most ways are refused here, without reading all octets
    if !has_first_row(alloc, octets, form.order, form.width)? {
        return Ok(None);
    }
    match OneDim::repair(alloc, octets, form.order, form.width, form.fine) {
        Ok(RepairedPage { page, repaired }) => {
            if repaired.is_empty() {
                Ok(Some(page.rows().len()))
            } else {
                Ok(None)
            }
        }
        Err(fault) if fault.is_memory() => Err(NO_MEMORY),
        Err(_fault) => Ok(None),
    }
}

/// Reads octets in one way: how far that is, and the page that they begin with, if it is read to its end. Errors: `NoMemory` (9).
#[tactic(auto, using(crate::proofs::RefusedRows::whole_rows))]
pub(crate) fn try_way(
    alloc: Global,
    octets: &[u8],
    form: PageForm,
) -> Result<(Tried, Option<FoundPage>), ToolFault>
    requires { IsWidth form.width }
    ensures tried { IfOk result (λ read. IsTried octets.now read.0) }
    ensures form { IfOk result (λ read. read.0.form ≡ form) }
    ensures page { IfOk result (λ read.
        IfSome read.1 (λ found. IsPageIn octets.now found × (found.form ≡ form))) }
    ensures refused { IfErr result IsOutside }
{
    let mut kept = None;
    match read_code(alloc, octets, form, &mut kept) {
        Ok((page, bits)) => {
            let rows = page.rows().len();
            let end = Ok(bits);
            let mended = None;
            let tried = Tried {
                form,
                rows,
                end,
                mended,
            };
            Ok((tried, Some(FoundPage { form, page, bits })))
        }
        Err(fault) => match kept {
            Some(code) => {
                let rows = code.rows as usize;
                let end = Err(fault);
                let mended = match form.coding {
                    Coding::OneDim => mended_rows(alloc, octets, form)?,
                    Coding::T6 => None,
                };
                let tried = Tried {
                    form,
                    rows,
                    end,
                    mended,
                };
                Ok((tried, None))
            }
            None => Err(fault),
        },
    }
}

/// Reads octets in one code and each of these widths, and appends how far that is. Errors: `NoMemory` (9).
fn try_widths(
    alloc: Global,
    source: &OrderedOctets<'_>,
    coding: Coding,
    widths: &[u32],
    results: &mut Results,
) -> Result<(), ToolFault>
    requires { All IsWidth widths.now }
    ensures forms { OnOk result (map form_of results.new.tried.items
        ≡ map form_of results.old.tried.items ++ forms_in coding source.now.order widths.now) }
    ensures each { OnOk result (All (IsTried source.now.octets) results.old.tried.items
        → All (IsTried source.now.octets) results.new.tried.items) }
    ensures found { OnOk result (IfSome results.old.found (IsPageIn source.now.octets)
        → IfSome results.new.found (IsPageIn source.now.octets)) }
    ensures refused { IfErr result IsOutside }
{
    for width in widths {
        // of all pages one is kept: two at a time are in memory
        let (one, page) = source.read_in(alloc, coding, *width)?;
        results.add(source.octets(), one, page)?;
    }
    Ok(())
}

/// Reads octets in T.4, at the width that they say themselves, if pages can have it, or else in these widths; appends how far that is, and
/// returns their own width. Errors: `NoMemory` (9).
fn try_own(
    alloc: Global,
    source: &OrderedOctets<'_>,
    widths: &[u32],
    results: &mut Results,
) -> Result<Option<u128>, ToolFault>
    requires { All IsWidth widths.now }
    ensures own { IfOk result (SaysOwn source.now.order source.now.octets) }
    ensures forms { IfOk result (λ own. map form_of results.new.tried.items
        ≡ map form_of results.old.tried.items ++ own_forms widths.now source.now.order own) }
    ensures each { OnOk result (All (IsTried source.now.octets) results.old.tried.items
        → All (IsTried source.now.octets) results.new.tried.items) }
    ensures found { OnOk result (IfSome results.old.found (IsPageIn source.now.octets)
        → IfSome results.new.found (IsPageIn source.now.octets)) }
    ensures refused { IfErr result IsOutside }
{
    let own = source.own_width();
    match own {
        None => try_widths(alloc, source, Coding::OneDim, widths, results)?,
        Some(width) if width != 0 && width <= MAX_WIDTH as u128 => {
            let said = [width as u32];
            try_widths(alloc, source, Coding::OneDim, &said, results)?;
        }
        Some(_) => {}
    }
    Ok(own)
}

/// The widths that octets say themselves in T.4, by the order of bits: if the most significant bit is first, and if the least is.
#[derive(Clone, Copy)]
pub(crate) struct Said {
    pub(crate) msb: Option<u128>,
    pub(crate) lsb: Option<u128>,
}

/// Reads octets in T.4, at its own width or in these, in both bit orders, and returns what `try_ways` does. Errors: `NoMemory` (9).
fn try_both(
    alloc: Global,
    msb: &OrderedOctets<'_>,
    lsb: &OrderedOctets<'_>,
    widths: &[u32],
) -> Result<(Results, Said), ToolFault>
    requires widths { All IsWidth widths.now }
    requires msb { msb.now.order ≡ Order.MsbFirst }
    requires lsb { lsb.now ≡ record { octets = msb.now.octets; order = Order.LsbFirst } }
    ensures tried { IfOk result (λ ways.
        AreOneDimTried widths.now msb.now.octets ways.0.tried.items ways.1) }
    ensures found { IfOk result (λ ways. IfSome ways.0.found (IsPageIn msb.now.octets)) }
    ensures refused { IfErr result IsOutside }
{
    let mut results = Results::new(alloc);
    let msb_said = try_own(alloc, msb, widths, &mut results)?;
    let lsb_said = try_own(alloc, lsb, widths, &mut results)?;
    let said = Said {
        msb: msb_said,
        lsb: lsb_said,
    };
    Ok((results, said))
}

/// Reads octets in T.4, at its own width or in these, in both bit orders, and returns what `try_ways` does. Errors: `NoMemory` (9).
pub(crate) fn try_one_dim(
    alloc: Global,
    octets: &[u8],
    widths: &[u32],
) -> Result<(Results, Said), ToolFault>
    requires { All IsWidth widths.now }
    ensures tried { IfOk result (λ ways.
        AreOneDimTried widths.now octets.now ways.0.tried.items ways.1) }
    ensures refused { IfErr result IsOutside }
{
    let turned = turned_lsb(alloc, octets)?;
    let msb = OrderedOctets::of(octets, Order::MsbFirst, &[]);
    let lsb = OrderedOctets::of(octets, Order::LsbFirst, &turned);
    try_both(alloc, &msb, &lsb, widths)
}

/// Reads octets in all ways that are tried: T.4 at its own width, or in these as T.6, both in both bit orders; and returns for each how far
/// it reads: the rows and the bits of the page that the octets begin with, or the fault that `decode` gives and the whole rows before it.
/// Errors: `NoMemory` (9).
pub(crate) fn try_ways(
    alloc: Global,
    octets: &[u8],
    widths: &[u32],
) -> Result<(Results, Said), ToolFault>
    requires { All IsWidth widths.now }
    ensures tried { IfOk result (λ ways. AreTried widths.now octets.now ways.0.tried.items ways.1) }
    ensures found { IfOk result (λ ways. IfSome ways.0.found (IsPageIn octets.now)) }
    ensures refused { IfErr result IsOutside }
{
    let turned = turned_lsb(alloc, octets)?;
    let msb = OrderedOctets::of(octets, Order::MsbFirst, &[]);
    let lsb = OrderedOctets::of(octets, Order::LsbFirst, &turned);
    let (mut results, said) = try_both(alloc, &msb, &lsb, widths)?;
    try_widths(alloc, &msb, Coding::T6, widths, &mut results)?;
    try_widths(alloc, &lsb, Coding::T6, widths, &mut results)?;
    Ok((results, said))
}

/// The name of a code.
fn coding_name(coding: Coding) -> &'static str
    ensures { result.now ≡ coding_name coding }
{
    match coding {
        Coding::OneDim => "T.4",
        Coding::T6 => "T.6",
    }
}

/// The name of an order of bits.
pub(crate) fn order_name(order: Order) -> &'static str
    ensures { result.now ≡ order_name order }
{
    match order {
        Order::MsbFirst => "most significant bit first",
        Order::LsbFirst => "least significant bit first",
    }
}

/// How many octets come after those of a page's code.
pub(crate) fn octets_after(octets: &[u8], bits: u128) -> u128
    ensures { result ≡ octets_after octets.now bits }
{
    (octets.len() as u128).saturating_sub(bits.div_ceil(8))
}

/// Writes the octets after a page, if there are any.
fn tell_after<W: Write>(count: u128, writer: &mut W) -> Result<(), ToolFault>
    ensures told { OnOk result (Appends (W.contents writer.old) (W.contents writer.new) (after_words count)) }
    ensures fault { IfErr result IsOutside }
{
    if count == 0 {
        return Ok(());
    }
    write!(writer, ", {count} octets after it")?;
    Ok(())
}

/// Returns whether a page of T.6, as it was read, is complete except for its EOFB.
fn lacks_eofb(rows: usize, end: Result<u128, ToolFault>) -> bool
    ensures { result ≡ lacks_eofb rows end }
{
    match end {
        Ok(_bits) => false,
        Err(fault) => rows != 0 && matches!(fault.kind(), FaultKind::MissingEofb),
    }
}

/// Writes the line of one way.
pub(crate) fn tell_tried<W: Write>(
    octets: &[u8],
    tried: &Tried,
    writer: &mut W,
) -> Result<(), ToolFault>
    ensures told { OnOk result (Appends (W.contents writer.old) (W.contents writer.new) (tried_line octets.now tried.now)) }
    ensures fault { IfErr result IsOutside }
{
    let coding = coding_name(tried.form.coding);
    let order = order_name(tried.form.order);
    let (width, rows) = (tried.form.width, tried.rows);
    match tried.end {
        Ok(bits) => {
            write!(writer, "{coding}, {order}, width {width}, {rows} rows")?;
            tell_after(octets_after(octets, bits), writer)?;
            writeln!(writer)?;
        }
        Err(_fault) if lacks_eofb(rows, tried.end) => writeln!(
            writer,
            "{coding}, {order}, width {width}, {rows} rows, without EOFB"
        )?,
        Err(fault) => match tried.mended {
            Some(all) => writeln!(
                writer,
                "{coding}, {order}, width {width}, {all} rows, by decode --repair"
            )?,
            None => writeln!(
                writer,
                "{coding}, {order}, width {width}: {fault} after {rows} rows"
            )?,
        },
    }
    Ok(())
}

/// Returns whether octets fit a way so far.
pub(crate) fn fits(fit: Fit, octets: &[u8], tried: &Tried) -> bool
    ensures { result ≡ fits fit octets.now tried.now.rows tried.now.end tried.now.mended }
{
    match (fit, tried.end) {
        (Fit::Whole, Ok(bits)) => octets_after(octets, bits) == 0,
        (Fit::NoEofb, Err(_fault)) => lacks_eofb(tried.rows, tried.end),
        (Fit::Early, Ok(bits)) => octets_after(octets, bits) != 0,
        (Fit::Mended, Err(_fault)) => tried.mended.is_some(),
        (Fit::Begun, Err(_fault)) => tried.rows != 0,
        _ => false,
    }
}

/// Writes the line of a way if octets fit it so far.
fn tell_one<W: Write>(
    fit: Fit,
    octets: &[u8],
    tried: &Tried,
    writer: &mut W,
) -> Result<(), ToolFault>
    ensures told { OnOk result (Appends (W.contents writer.old) (W.contents writer.new) (line_of fit octets.now tried.now)) }
    ensures fault { IfErr result IsOutside }
{
    if fits(fit, octets, tried) {
        tell_tried(octets, tried, writer)?;
    }
    Ok(())
}

/// Writes a line for each way that octets fit so far.
fn tell_those<W: Write>(
    fit: Fit,
    octets: &[u8],
    tried: &[Tried],
    writer: &mut W,
) -> Result<(), ToolFault>
    ensures told { OnOk result (Appends (W.contents writer.old) (W.contents writer.new) (lines_of fit octets.now tried.now)) }
    ensures fault { IfErr result IsOutside }
{
    for one in tried {
        tell_one(fit, octets, one, writer)?;
    }
    Ok(())
}

/// Returns how many ways octets fit so far.
fn count_of(fit: Fit, octets: &[u8], tried: &[Tried]) -> u128
    ensures count { result ≡ count_of fit octets.now tried.now }
    ensures few { result ≤ length tried.now }
{
    let _ways = tried.len(); // shows the proof that the count fits
    let mut count = 0;
    for one in tried {
        if fits(fit, octets, one) {
            count += 1;
        }
    }
    count
}

/// Writes the line of a width that octets say themselves in T.4, if no page can have it since it is too wide.
pub(crate) fn tell_wide<W: Write>(
    order: Order,
    own: Option<u128>,
    writer: &mut W,
) -> Result<(), ToolFault>
    ensures told { OnOk result (Appends (W.contents writer.old) (W.contents writer.new) (wide_line order own)) }
    ensures fault { IfErr result IsOutside }
{
    match own {
        Some(width) if width > MAX_WIDTH as u128 => {
            let order = order_name(order);
            writeln!(writer, "T.4, {order}, width {width}: wider than 2432")?;
        }
        _ => {}
    }
    Ok(())
}

/// Returns whether two orders of bits are the same.
fn is_same_order(order: Order, other: Order) -> bool
    ensures { result ≡ same_order order other }
{
    match (order, other) {
        (Order::MsbFirst, Order::MsbFirst) | (Order::LsbFirst, Order::LsbFirst) => true,
        (Order::MsbFirst, Order::LsbFirst) | (Order::LsbFirst, Order::MsbFirst) => false,
    }
}

/// Returns whether a width that octets say, if they say one, is one of those that are tried where they say none.
fn is_usual(said: Option<u128>) -> bool
    ensures { result ≡ is_usual said }
{
    match said {
        Some(width) => is_among(width, &WIDTHS),
        None => false,
    }
}

/// Returns whether a width is one of these.
fn is_among(width: u128, widths: &[u32]) -> bool
    ensures { result ≡ is_among width widths.now }
{
    for other in widths {
        if width == *other as u128 {
            return true;
        }
    }
    false
}

/// Returns how many rows are the least by which octets are known as T.4 in one order of bits, by the widths that they say in it as T.4 and as
/// T.4 in two dimensions.
pub(crate) fn least_lines(own: Option<u128>, two: Option<u128>) -> usize
    ensures { result ≡ least_lines own two }
{
    if is_usual(own) && !is_usual(two) {
        1
    } else {
        2
    }
}

/// Returns whether a way is one of T.4 in this order of bits that reads so many rows or more.
fn reads_rows(order: Order, least: usize, one: &Tried) -> bool
    ensures { result ≡ reads_rows order least one.now.form.coding one.now.form.order one.now.rows }
{
    match one.form.coding {
        Coding::OneDim => is_same_order(order, one.form.order) && least <= one.rows,
        Coding::T6 => false,
    }
}

/// Returns whether a way of T.4 in this order of bits reads so many rows or more.
fn has_rows(order: Order, least: usize, tried: &[Tried]) -> bool
    ensures { result ≡ has_rows order least tried.now }
{
    for one in tried {
        if reads_rows(order, least, one) {
            return true;
        }
    }
    false
}

/// Writes the line of a page of T.4 in two dimensions of this width.
pub(crate) fn tell_two_dim_of<W: Write>(
    order: Order,
    width: u128,
    writer: &mut W,
) -> Result<(), ToolFault>
    ensures told { OnOk result
        (Appends (W.contents writer.old) (W.contents writer.new) (two_dim_text order width)) }
    ensures fault { IfErr result IsOutside }
{
    let order = order_name(order);
    writeln!(
        writer,
        "T.4 in two dimensions (MR), {order}, width {width}: not read"
    )?;
    Ok(())
}

/// Writes the line of a width that octets say themselves in T.4 in two dimensions, if they say one and aren't known as T.4 in this order of
/// bits, in which they say this width of their own.
fn tell_two_dim_width<W: Write>(
    order: Order,
    own: Option<u128>,
    tried: &[Tried],
    said: Option<u128>,
    writer: &mut W,
) -> Result<(), ToolFault>
    ensures told { OnOk result (Appends (W.contents writer.old) (W.contents writer.new) (two_dim_line order own tried.now said)) }
    ensures fault { IfErr result IsOutside }
{
    let least = least_lines(own, said);
    match said {
        Some(width) if width > 0 && !has_rows(order, least, tried) => {
            tell_two_dim_of(order, width, writer)?;
        }
        _ => {}
    }
    Ok(())
}

/// Writes the line of a page of T.4 in two dimensions, if octets begin as one and aren't known as T.4 in this order of bits, in which they
/// say this width of their own.
pub(crate) fn tell_two_dim<W: Write>(
    octets: &[u8],
    order: Order,
    own: Option<u128>,
    tried: &[Tried],
    writer: &mut W,
) -> Result<(), ToolFault>
    ensures told { OnOk result ((said : Option ℕ) × SaysTwoDim (bits_of order octets.now) said
        × Appends (W.contents writer.old) (W.contents writer.new) (two_dim_line order own tried.now said)) }
    ensures fault { IfErr result IsOutside }
{
    let said = two_dim_width(octets, order);
    tell_two_dim_width(order, own, tried, said, writer)?;
    Ok(())
}

/// Writes the line of a format, if it is known.
pub(crate) fn tell_format<W: Write>(format: Option<&str>, writer: &mut W) -> Result<(), ToolFault>
    ensures told { OnOk result (Appends (W.contents writer.old) (W.contents writer.new)
        (format_line (option_map (λ name. name.now) format.entry))) }
    ensures fault { IfErr result IsOutside }
{
    if let Some(name) = format {
        writeln!(writer, "{name}, by its first octets")?;
    }
    Ok(())
}

/// The fault of octets that read as no page and begin as no known format.
fn no_page(octets: &[u8]) -> ToolFault
    ensures { result ≡ no_page octets.now }
{
    if octets.is_empty() {
        ToolFault::No(7)
    } else {
        ToolFault::No(29)
    }
}

/// Returns what octets are known to be, by the format that they begin as and the ways that they read in.
pub(crate) fn identity_of(format: Option<&str>, octets: &[u8], tried: &[Tried]) -> Identity
    ensures { result ≡ identity_of (option_map (λ name. name.now) format.entry) octets.now tried.now }
{
    let _ways = tried.len(); // shows the proof that the sums fit
    let whole = count_of(Fit::Whole, octets, tried);
    let early = count_of(Fit::Early, octets, tried);
    let other = count_of(Fit::NoEofb, octets, tried) + count_of(Fit::Mended, octets, tried);
    let pages = whole + early + other;
    if format.is_some() {
        Identity::Known
    } else if pages == 0 {
        Identity::Nothing(no_page(octets))
    } else if pages == 1 || whole == 1 {
        Identity::Known
    } else {
        Identity::Several
    }
}

/// Writes what is said of octets that are nothing that is known, and on whose width no lines of T.4 agree: what they are that isn't read, and
/// how far each way came.
fn tell_ways<W: Write>(
    alloc: Global,
    octets: &[u8],
    tried: &[Tried],
    said: Said,
    writer: &mut W,
) -> Result<(), ToolFault>
    ensures told { OnOk result ((unread : List ℕ) × UnreadBy octets.now tried.now said unread
        × Appends (W.contents writer.old) (W.contents writer.new)
        (unread ++ lines_of Fit.Begun octets.now tried.now)) }
    ensures fault { IfErr result IsOutside }
{
    tell_unread_by(alloc, octets, tried, said, writer)?;
    // octets of no fax at all have a few rows of T.6 by chance, so these lines don't say that it is a page
    tell_those(Fit::Begun, octets, tried, writer)?;
    Ok(())
}

/// Writes what is said of octets that are nothing that is known: how far the way came in whose width lines of T.4 agree; or else what
/// `tell_ways` does. Errors: `Io` (8) from the writer, `NoMemory` (9).
fn tell_nothing<W: Write>(
    alloc: Global,
    octets: &[u8],
    tried: &[Tried],
    said: Said,
    writer: &mut W,
) -> Result<(), ToolFault>
    ensures told { OnOk result (TellsNothing octets.now tried.now said
        (W.contents writer.old) (W.contents writer.new)) }
    ensures fault { IfErr result IsOutside }
{
    match agreed_way(alloc, octets, &WIDTHS)? {
        Some(one) => tell_tried(octets, &one, writer),
        None => tell_ways(alloc, octets, tried, said, writer),
    }
}

/// What was found of octets by all ways.
#[derive(Clone, Copy)]
struct TriedWays<'a> {
    tried: &'a [Tried],
    said: Said,
}

/// Writes what is said besides, after the lines of the ways.
fn tell_identity<W: Write>(
    alloc: Global,
    identity: Identity,
    octets: &[u8],
    ways: TriedWays<'_>,
    writer: &mut W,
) -> Result<(), ToolFault>
    ensures told { OnOk result (TellsIdentity octets.now ways.entry.tried.now ways.entry.said identity
        (W.contents writer.old) (W.contents writer.new)) }
    ensures fault { IfErr result IsOutside }
{
    match identity {
        Identity::Known => {}
        Identity::Several => writeln!(writer, "the width is not known")?,
        Identity::Nothing(_fault) => tell_nothing(alloc, octets, ways.tried, ways.said, writer)?,
    }
    Ok(())
}

/// Writes the format that octets begin as, if it is known, and a line for each way in which they read as a page: first those without octets
/// after it, then those without EOFB, then those with octets after it, then those of `decode --repair`. Where several ways read, says that
/// the width isn't known, unless one of them alone ends with the octets. With neither, writes how far the way reads in whose width two lines of
/// T.4 agree; or if none do, a width that no page can have, that it begins as T.4 in two dimensions (if it isn't known as T.4 in this order of
/// bits), that it is T.4 without EOLs, and how far each way reads that has a first row. Then the identity has the fault: `NoPages` (7) if
/// there is no octet, otherwise `Unidentified` (29). Errors: `Io` (8) from the writer, `NoMemory` (9).
pub fn identify_engine<W: Write>(
    alloc: Global,
    octets: &[u8],
    writer: &mut W,
) -> Result<Identity, ToolFault>
    ensures identified { IfOk result (Identifies octets.now (W.contents writer.old) (W.contents writer.new)) }
    ensures refused { IfErr result IsOutside }
{
    // pages are tried even if a format is known, since a page may begin so by chance
    let format = format_of(octets);
    let (results, said) = try_ways(alloc, octets, &WIDTHS)?;
    let tried = results.tried;
    tell_format(format, writer)?;
    tell_those(Fit::Whole, octets, &tried, writer)?;
    tell_those(Fit::NoEofb, octets, &tried, writer)?;
    tell_those(Fit::Early, octets, &tried, writer)?;
    tell_those(Fit::Mended, octets, &tried, writer)?;
    let identity = identity_of(format, octets, &tried);
    let ways = TriedWays {
        tried: &tried,
        said,
    };
    tell_identity(alloc, identity, octets, ways, writer)?;
    Ok(identity)
}
