//! The way of decoding a page that is asked for, and what it gives.
ghost use Rattle.page_files.specs.CodedPages.{WritesPage};
ghost use Rattle.page_files.specs.Decodings.{GivesPage, IsKept, KeepsReadTo, RefusesDecoding, RefusesKept, broken_asked};
ghost use Rattle.page_files.specs.Sources.{GivesFound};
ghost use Rattle.faults.specs.Faults.{IsOutside};
ghost use Rattle.page_code.specs.PageReaders.{IsPageRefused};
ghost use Rattle.raster.specs.Packed.{bits_of};
ghost use Rattle.raster.specs.Pixels.{IsWidth};
ghost use Rattle.std.specs.Prelude.{◌≡◌, ◌≢◌, [], ℕ, List, Some, None, IfErr, IfOk, IfSome, length};

use crate::coded::{read_code, read_rows};
use crate::options::PageForm;
use crate::repair::repair_lines;
use crate::repair_t6::repair_t6;
use crate::source::FoundPage;
use faults::ToolFault;
use page_code::{Coding, PageRead, RefusedCode};
use raster::Page;
use std::alloc::Global;

/// What is wanted of a page that can't be read to its end.
#[derive(Clone, Copy, Debug, PartialEq, Eq)]
pub enum Broken {
    /// Nothing: it is a fault.
    Nothing,
    /// The whole rows before the refused bit.
    WholeRows,
    /// In T.4 all rows, where a row that can't be read is a copy of the one before it. In T.6 the whole rows; it is no fault if only EOFB
    /// is missing or broken.
    AllRows,
}

impl Broken {
    /// Returns what `--salvage` or `--repair` asks for; with both, what `--repair` asks for.
    pub fn asked(salvage: bool, repair: bool) -> Broken
        ensures { result ≡ broken_asked salvage repair }
    {
        if repair {
            Broken::AllRows
        } else if salvage {
            Broken::WholeRows
        } else {
            Broken::Nothing
        }
    }
}

/// How far a page was read.
#[derive(Clone, Copy, Debug, PartialEq, Eq)]
pub enum ReadTo {
    /// To the end of its code, which has this number of bits.
    End(u128),
    /// To the bit of this fault; the rest is refused.
    Fault(ToolFault),
    /// Line by line to its end; this number of rows is repaired.
    Lines(usize),
    /// To this bit, after its last row; EOFB is missing or broken.
    NoEnd(u128),
}

/// What decoding a page gives.
#[derive(Debug, Drop)]
pub struct Decoded {
    /// The page; without a row if none can be read.
    pub page: Page,
    /// A line for each repaired row, and one with their number; empty if there is none.
    pub lines: Vec<u8>,
    /// How far the page was read.
    pub read_to: ReadTo,
}

/// Returns the page that octets begin with. If they are refused, `kept` holds how far they were read.
fn decode_whole(
    alloc: Global,
    octets: &[u8],
    form: PageForm,
    kept: &mut Option<RefusedCode>,
) -> Result<Decoded, ToolFault>
    requires { IsWidth form.width }
    ensures known { IfSome kept.new (IsPageRefused form.coding form.width (bits_of form.order octets.now)) }
    ensures given { IfOk result (λ given. (image : List ℕ) → WritesPage given.page (Some []) (Some image)
        → GivesPage Broken.Nothing form octets.now given.read_to (length given.page.rows) image given.lines.items) }
    ensures refused { IfErr result (RefusesKept kept.new form octets.now) }
    ensures kept_rows { IfOk result (λ given. KeepsReadTo kept.new given.read_to) }
{
    let (page, bits) = read_code(alloc, octets, form, kept)?;
    let lines = Vec::new(alloc);
    let read_to = ReadTo::End(bits);
    Ok(Decoded {
        page,
        lines,
        read_to,
    })
}

/// Returns what `decode_page` gives of octets that were read as this page before, unless all rows are asked for.
pub(crate) fn decoded_of(alloc: Global, found: FoundPage) -> Decoded
    ensures given { GivesFound found result.page result.lines.items result.read_to }
    ensures end { KeepsReadTo None result.read_to }
{
    let lines = Vec::new(alloc);
    let read_to = ReadTo::End(found.bits);
    Decoded {
        page: found.page,
        lines,
        read_to,
    }
}

/// Returns the page that octets begin with, or its whole rows before the refused bit; then `kept` holds how far they were read.
fn salvage_rows(
    alloc: Global,
    octets: &[u8],
    form: PageForm,
    kept: &mut Option<RefusedCode>,
) -> Result<Decoded, ToolFault>
    requires { IsWidth form.width }
    ensures known { IfSome kept.new (IsPageRefused form.coding form.width (bits_of form.order octets.now)) }
    ensures given { IfOk result (λ given. (image : List ℕ) → WritesPage given.page (Some []) (Some image)
        → GivesPage Broken.WholeRows form octets.now given.read_to (length given.page.rows) image given.lines.items) }
    ensures refused { IfErr result IsOutside }
    ensures kept_rows { IfOk result (λ given. KeepsReadTo kept.new given.read_to) }
{
    *kept = None;
    let lines = Vec::new(alloc);
    match read_rows(alloc, octets, form)? {
        PageRead::Page(page, bits) => {
            let read_to = ReadTo::End(bits);
            Ok(Decoded {
                page,
                lines,
                read_to,
            })
        }
        // the pixels before the refused bit in its own row are given up
        PageRead::Refused(code, page) => {
            *kept = Some(code);
            let fault = ToolFault::from(code.fault);
            let read_to = ReadTo::Fault(fault);
            Ok(Decoded {
                page,
                lines,
                read_to,
            })
        }
    }
}

/// Decodes octets that begin with a page of this form (1 to 2,432 pixels wide), as `broken` asks: returns the page that `decode_engine`,
/// `salvage_engine`, `repair_engine` or, for T.6, `repair_t6` gives. If the octets are refused and not repaired, `kept` holds how far they
/// were read, otherwise None. Errors: the refusal, at its bit; `NoMemory` (9).
#[tactic(auto, using(crate::proofs::DecodedPages::refused_show, crate::proofs::DecodedPages::refused_kept))]
pub fn decode_page(
    alloc: Global,
    octets: &[u8],
    form: PageForm,
    broken: Broken,
    kept: &mut Option<RefusedCode>,
) -> Result<Decoded, ToolFault>
    requires { IsWidth form.width }
    ensures known { IfSome kept.new (IsPageRefused form.coding form.width (bits_of form.order octets.now)) }
    ensures given { IfOk result (λ given. (image : List ℕ) → WritesPage given.page (Some []) (Some image)
        → GivesPage broken form octets.now given.read_to (length given.page.rows) image given.lines.items) }
    ensures refused { IfErr result (RefusesDecoding broken form octets.now) }
    ensures kept { broken ≢ Broken.AllRows → IfErr result (IsKept kept.new) }
    ensures kept_rows { broken ≢ Broken.AllRows → IfOk result (λ given. KeepsReadTo kept.new given.read_to) }
    ensures kept_none { broken ≡ Broken.AllRows → kept.new ≡ None }
{
    *kept = None;
    match broken {
        Broken::Nothing => decode_whole(alloc, octets, form, kept),
        Broken::WholeRows => salvage_rows(alloc, octets, form, kept),
        Broken::AllRows => match form.coding {
            Coding::OneDim => repair_lines(alloc, octets, form),
            Coding::T6 => repair_t6(alloc, octets, form),
        },
    }
}
