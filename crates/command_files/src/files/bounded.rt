//! Files of which no more is read than a coded page or a script can need.

ghost use Rattle.faults.specs.Faults.{IsOutside, IsUnread};
ghost use Rattle.raster.specs.Pixels.{IsWidth};
ghost use Rattle.command_files.specs.Bounds.{BeginSo, HavePageWidths};
ghost use Rattle.std.specs.Prelude.{IfErr, IfOk, IfSome};

use crate::context::{Cause, Context, Part};
use crate::files::input::{self, Source};
use crate::files::progress::Watch;
use faults::{TOO_MANY_OCTETS, ToolFault};
use page_code::{CodesPages, Coding, PageRead, code_of, turned_code};
use page_files::{PageForm, WIDTHS, agreed_width, own_width};
use run_tables::Order;
use std::alloc::{AllocError, Global};
use std::io::{ErrorKind, Read};

/// The most octets of a file of coded pages that are read. The longest row that can be read is one of 2,432 pixels in T.6, where each pixel
/// takes 19 bits: a horizontal mode (3), a white run of 1 pixel (6) and a black one of 0 (10). 20,000 rows of 5,776 octets and EOFB are
/// 115,520,003 octets. The rest is for fill.
pub const MOST_CODED: usize = 134_217_728;

/// The most octets of a script.
pub const MOST_SCRIPT: usize = 16_777_216;

/// After how many octets it is looked whether they can be a page's.
const LOOKS: [usize; 3] = [1_048_576, 8_388_608, 67_108_864];

/// How many bits a refused bit lies before the last one if what follows isn't read. A bit that begins fill is refused so too: that of a
/// line of 5 s, the longest of ITU-T T.4, has 168,000 bits at most.
const FAR: u128 = 2_097_152;

/// The ways in which octets are read as a page.
#[derive(Clone, Copy, Debug, PartialEq, Eq)]
pub enum Ways {
    /// This one, and its first page is wanted alone: what follows it is ignored.
    First(PageForm),
    /// This one.
    One(PageForm),
    /// Those that `identify` tries, and those of a width that is likely, if one is.
    Tried(Option<u32>),
    /// One that takes rows anywhere in the octets, as `decode --repair` does.
    Any,
}

impl Ways {
    /// The way in which `decode` reads a page of this form.
    pub fn of(form: PageForm, repair: bool) -> Ways
        requires { IsWidth form.width }
        ensures { HavePageWidths result }
    {
        if repair { Ways::Any } else { Ways::One(form) }
    }
}

/// Returns the octets of the input as coded pages, which are read in these ways. If they are refused in each way long before the last octet
/// read so far, no more are read: it makes no page of them, however many follow. Where the first page is wanted alone and stands in the
/// first `MOST_CODED` octets, these are all. Errors: `Io` (8) if it can't be read; `TooManyOctets` (32) if it has more octets otherwise;
/// `NoMemory` (9).
pub fn read_coded(
    context: &mut Context<'_>,
    input: &str,
    ways: Ways,
    watch: Watch,
) -> Result<Vec<u8>, ToolFault>
    requires { HavePageWidths ways }
    ensures { IfErr result IsUnread }
{
    let mut source = input::open(context, input, Part::Input, watch)?;
    let mut octets = Vec::new(context.alloc());
    let read = read_pieces(context.alloc(), &mut source, ways, &mut octets);
    source.close(context);
    bounded(context, read, Part::Input, MOST_CODED)?;
    Ok(octets)
}

/// Reads a script; its octets go to the context. Errors: `Io` (8) if it can't be read; `TooManyOctets` (32) if it has more than
/// `MOST_SCRIPT` octets; `NoMemory` (9).
pub fn read_script_file(context: &mut Context<'_>, script: &str) -> Result<(), ToolFault>
    ensures { IfErr result IsUnread }
{
    let mut source = input::open(context, script, Part::Script, Watch::Shown)?;
    let mut octets = Vec::new(context.alloc());
    let read = read_script_pieces(&mut source, &mut octets);
    source.close(context);
    bounded(context, read, Part::Script, MOST_SCRIPT)?;
    context.keep_script(octets);
    Ok(())
}

/// Notes that a file has more octets than `most`, unless it was read. Errors: `TooManyOctets` (32), and that of reading.
fn bounded(
    context: &mut Context<'_>,
    read: Result<bool, ToolFault>,
    part: Part,
    most: usize,
) -> Result<(), ToolFault>
    requires { IfErr read IsOutside }
    ensures { IfErr result IsUnread }
{
    match read {
        Ok(true) => Ok(()),
        Ok(false) => {
            context.note_cause(Cause::TooLong(most));
            context.blame(part, ErrorKind::FileTooLarge);
            Err(TOO_MANY_OCTETS)
        }
        Err(fault) => Err(fault),
    }
}

/// Reads a file, and looks at what is read so far from time to time. Returns whether that is what is wanted: it has `MOST_CODED` octets at
/// most, or its first page is wanted alone and is whole in these.
fn read_pieces(
    alloc: Global,
    source: &mut Source<'_>,
    ways: Ways,
    octets: &mut Vec<u8>,
) -> Result<bool, ToolFault>
    requires { HavePageWidths ways }
    ensures { IfErr result IsOutside }
{
    for look in LOOKS {
        read_up_to(source, octets, look)?;
        if octets.len() < look || is_no_page(alloc, octets.as_slice(), ways)? {
            return Ok(true);
        }
    }
    read_up_to(source, octets, MOST_CODED + 1)?;
    if octets.len() <= MOST_CODED {
        return Ok(true);
    }
    octets.truncate(MOST_CODED);
    Ok(begins_with_page(alloc, octets.as_slice(), ways)?)
}

/// Reads a script. Returns whether it has `MOST_SCRIPT` octets at most.
fn read_script_pieces(source: &mut Source<'_>, octets: &mut Vec<u8>) -> Result<bool, ToolFault>
    ensures { IfErr result IsOutside }
{
    read_up_to(source, octets, MOST_SCRIPT + 1)?;
    Ok(octets.len() <= MOST_SCRIPT)
}

/// Reads on until there are so many octets, or the file ends.
fn read_up_to(source: &mut Source<'_>, octets: &mut Vec<u8>, most: usize) -> Result<(), ToolFault>
    ensures { IfErr result IsOutside }
{
    let more = most.saturating_sub(octets.len());
    let mut piece = source.take(more as u64);
    let _count = piece.read_to_end(octets)?;
    Ok(())
}

/// Returns whether the first page is wanted alone, and stands whole in octets. Errors: memory was refused.
fn begins_with_page(alloc: Global, octets: &[u8], ways: Ways) -> Result<bool, AllocError>
    requires { HavePageWidths ways }
    ensures { IfOk result (BeginSo ways octets.now) }
{
    match ways {
        Ways::First(form) => {
            match form
                .coding
                .page(alloc, octets, form.order, form.width, form.fine)?
            {
                PageRead::Page(_, _) => Ok(true),
                PageRead::Refused(_, _) => Ok(false),
            }
        }
        Ways::One(_) | Ways::Tried(_) | Ways::Any => Ok(false),
    }
}

/// Returns whether octets are refused in each of these ways far before their end. Errors: memory was refused.
fn is_no_page(alloc: Global, octets: &[u8], ways: Ways) -> Result<bool, AllocError>
    requires { HavePageWidths ways }
{
    match ways {
        Ways::First(form) | Ways::One(form) => is_refused_early(alloc, octets, form),
        Ways::Tried(likely) => is_tried_in_vain(alloc, octets, likely),
        Ways::Any => Ok(false),
    }
}

/// Returns whether `identify` makes nothing of octets, however many follow: they don't begin with a row of T.4 and an EOL, since `decode
/// --repair` takes rows of T.4 anywhere, are refused in T.6 and T.4 far before their end, and no lines of T.4 agree on a width. Errors: memory
/// was refused.
fn is_tried_in_vain(alloc: Global, octets: &[u8], likely: Option<u32>) -> Result<bool, AllocError>
    requires { IfSome likely IsWidth }
{
    for order in [Order::MsbFirst, Order::LsbFirst] {
        if !is_order_in_vain(alloc, octets, order, likely)? {
            return Ok(false);
        }
    }
    Ok(true)
}

/// Returns the same of one order of bits. Errors: memory was refused.
fn is_order_in_vain(
    alloc: Global,
    octets: &[u8],
    order: Order,
    likely: Option<u32>,
) -> Result<bool, AllocError>
    requires { IfSome likely IsWidth }
{
    if own_width(octets, order).is_some() {
        return Ok(false);
    }
    // turned once for all ways
    let turned = turned_code(alloc, octets, order, Vec::new(alloc))?;
    let (code, first) = code_of(octets, order, &turned);
    for coding in [Coding::T6, Coding::OneDim] {
        if !are_refused_early(alloc, code, coding, first, likely)? {
            return Ok(false);
        }
    }
    Ok(!do_lines_agree(code, first, likely))
}

/// Returns whether lines of T.4 agree on the likely width, if there is one, or on one that is tried.
fn do_lines_agree(octets: &[u8], order: Order, likely: Option<u32>) -> bool
    requires { IfSome likely IsWidth }
{
    if agreed_width(octets, order, &WIDTHS).is_some() {
        return true;
    }
    match likely {
        Some(width) => {
            let widths = [width];
            agreed_width(octets, order, &widths).is_some()
        }
        None => false,
    }
}

/// Returns whether octets are refused far before their end in this code in the likely width, if there is one, and in each that is tried.
/// Errors: memory was refused.
fn are_refused_early(
    alloc: Global,
    octets: &[u8],
    coding: Coding,
    order: Order,
    likely: Option<u32>,
) -> Result<bool, AllocError>
    requires { IfSome likely IsWidth }
{
    if let Some(width) = likely {
        let form = PageForm {
            coding,
            order,
            width,
            fine: false,
        };
        if !is_refused_early(alloc, octets, form)? {
            return Ok(false);
        }
    }
    for width in WIDTHS {
        let form = PageForm {
            coding,
            order,
            width,
            fine: false,
        };
        if !is_refused_early(alloc, octets, form)? {
            return Ok(false);
        }
    }
    Ok(true)
}

fn is_refused_early(alloc: Global, octets: &[u8], form: PageForm) -> Result<bool, AllocError>
    requires { IsWidth form.width }
{
    let PageForm {
        coding,
        order,
        width,
        fine,
    } = form;
    match coding.page(alloc, octets, order, width, fine)? {
        PageRead::Page(_, _) => Ok(false),
        PageRead::Refused(refused, _rows) => {
            Ok(refused.fault.place.saturating_add(FAR) < 8 * octets.len() as u128)
        }
    }
}
