//! What each code of pages does, by its name.

ghost use Rattle.page_code.specs.Codings.{code_of, read_rows};
ghost use Rattle.page_code.specs.PageCodes.{AppendsCode, GivesPage, GivesRows, IsOnlyAnswer, ReadsItsCode, ReadsPage, RefusesPage};
ghost use Rattle.raster.specs.Packed.{bits_of};
ghost use Rattle.raster.specs.Pixels.{IsWidth};
ghost use Rattle.raster.specs.declared.row.Color.{Color};
ghost use Rattle.run_tables.specs.Written.{Appends, KeepsBits};
ghost use Rattle.run_tables.specs.declared.fault.CodeFaultKind.{CodeFaultKind as Kind};
ghost use Rattle.run_tables.specs.declared.fault.CodeFaultKind.TheVariants.{NoMemory};
ghost use Rattle.std.specs.Prelude.{◌≡◌, ◌≢◌, ◌<◌, ◌++◌, ℕ, List, Bool, Result, length, IfOk, IfErr, OnOk, OnErr};

use crate::one_dim::OneDim;
use crate::page::{Progress, are_octets};
use crate::page_reader::{PageRead, read_further, read_to_end, read_whole};
use crate::t6::T6;
use crate::{one_dim, t6};
use raster::packed::Order;
use raster::{Coding, Page};
use run_tables::{BitWriter, CodeFault};
use std::alloc::{AllocError, Global};

/// Writing and reading of pages by the name of their code.
pub trait CodesPages {
    /// Appends the page's prescribed code to the octets, its last octet filled with 0 bits. In one dimension:
    /// EOL, the rows by their own runs with one EOL between two, six EOLs (ITU-T T.4, 4.1); in T.6: the rows
    /// by the prescribed modes, and EOFB (T.6, 2.2). The page must have a row. Errs if memory is refused,
    /// which changes nothing.
    fn encode(
        self,
        alloc: Global,
        page: &Page,
        order: Order,
        out: &mut Vec<u8>,
    ) -> Result<(), AllocError>
        requires { 0 < length page.now.rows };

    /// Reads a page of this width in pixels from the beginning of the octets' bits, and returns it with the
    /// number of bits used; what follows is ignored. Errs at the first bit that fits no page, with the kind
    /// of the bits from there; and with `NoMemory` (9), at bit 0. If the least significant bit comes first,
    /// up to 4 MiB are turned in a copy, which is freed when the page is read.
    fn decode(
        self,
        alloc: Global,
        octets: &[u8],
        order: Order,
        width: u32,
        fine: bool,
    ) -> Result<(Page, u128), CodeFault>
        requires { IsWidth width };

    /// Reads the octets as a page of this width in pixels: returns the page that `decode` returns, or the
    /// refusal with the page of the whole rows before it, which is that of `salvage`. Errs only if memory is
    /// refused.
    fn page(
        self,
        alloc: Global,
        octets: &[u8],
        order: Order,
        width: u32,
        fine: bool,
    ) -> Result<PageRead, AllocError>
        requires { IsWidth width };

    /// Returns the page of all whole rows, of this width in pixels, that the octets' bits spell from the
    /// beginning: the rows before the refused bit of a page that can't be read, none if the first row isn't
    /// whole, 20,000 at most. Errs only if memory is refused.
    fn salvage(
        self,
        alloc: Global,
        octets: &[u8],
        order: Order,
        width: u32,
        fine: bool,
    ) -> Result<Page, AllocError>
        requires { IsWidth width };
}

impl CodesPages for Coding {
    ghost use Rattle.page_code.specs.Codings.{IsLongestIn, ReadsIn};
    ghost use Rattle.page_code.specs.PageReaders.{IsRead};
    ghost use Rattle.page_code.specs.RowsSoFar.{AreWholeRows};
    ghost use Rattle.raster.specs.Octets.{packed};

    #[tactic(auto, unfolding(crate::specs::Codings::code_of))]
    fn encode(
        self,
        alloc: Global,
        page: &Page,
        order: Order,
        out: &mut Vec<u8>,
    ) -> Result<(), AllocError>
        requires { 0 < length page.now.rows }
        ensures ok { OnOk result (AppendsCode order (code_of self page.now.width page.now.rows) out.old.items out.new.items) }
        ensures octets { OnOk result (order ≡ Order.LsbFirst
            → out.new.items ≡ out.old.items ++ packed (code_of self page.now.width page.now.rows)) }
        ensures err { OnErr result (out.new.items ≡ out.old.items) }
    {
        match self {
            Coding::OneDim => OneDim::encode(alloc, page, order, out),
            Coding::T6 => T6::encode(alloc, page, order, out),
        }
    }

    #[tactic(auto, unfolding(crate::specs::Codings::ReadsIn, crate::specs::Codings::IsLongestIn, crate::specs::Codings::read_rows))]
    fn decode(
        self,
        alloc: Global,
        octets: &[u8],
        order: Order,
        width: u32,
        fine: bool,
    ) -> Result<(Page, u128), CodeFault>
        requires { IsWidth width }
        ensures reads { IfOk result (λ read. ReadsPage (ReadsIn self) width fine (bits_of order octets.now) read.0 read.1) }
        ensures only { IsOnlyAnswer (ReadsIn self) width (bits_of order octets.now) result }
        ensures refuses { IfErr result (λ fault. fault.kind ≢ NoMemory
            → RefusesPage (ReadsIn self) (IsLongestIn self) width (bits_of order octets.now) fault) }
        ensures gives { GivesRows (read_rows self width (bits_of order octets.now)) result }
        ensures memory { IfErr result (λ fault. fault.kind ≡ NoMemory → fault.place ≡ 0) }
    {
        match self {
            Coding::OneDim => OneDim::decode(alloc, octets, order, width, fine),
            Coding::T6 => T6::decode(alloc, octets, order, width, fine),
        }
    }

    fn page(
        self,
        alloc: Global,
        octets: &[u8],
        order: Order,
        width: u32,
        fine: bool,
    ) -> Result<PageRead, AllocError>
        requires { IsWidth width }
        ensures { IfOk result (IsRead self width fine (bits_of order octets.now)) }
    {
        let begun = Progress::new(alloc, width, fine);
        read_whole(alloc, self, octets, order, begun)
    }

    fn salvage(
        self,
        alloc: Global,
        octets: &[u8],
        order: Order,
        width: u32,
        fine: bool,
    ) -> Result<Page, AllocError>
        requires { IsWidth width }
        ensures width { IfOk result (λ page. page.width ≡ width) }
        ensures fine { IfOk result (λ page. page.fine ≡ fine) }
        ensures rows { IfOk result (λ page. AreWholeRows self width (bits_of order octets.now) page.rows) }
    {
        let mut to = Progress::new(alloc, width, fine);
        read_further(alloc, self, octets, order, &mut to)?;
        Ok(to.page)
    }
}

/// Writes the rows of a page and its end in one code.
#[inline(always)]
#[tactic(auto, unfolding(crate::specs::Codings::code_of))]
fn write_page(
    coding: Coding,
    alloc: Global,
    page: &Page,
    bits: &mut BitWriter,
) -> Result<(), AllocError>
    ensures ok { OnOk result (Appends (code_of coding page.now.width page.now.rows) bits.old bits.new) }
    ensures err { OnErr result (KeepsBits bits.old bits.new) }
{
    match coding {
        Coding::OneDim => one_dim::write_page(alloc, &page.rows(), bits),
        Coding::T6 => t6::write::write_page(alloc, bits, page),
    }
}

/// Appends the page's code, as `PageCode::encode` of each code does.
#[inline(always)]
pub(crate) fn encode_in(
    coding: Coding,
    alloc: Global,
    page: &Page,
    order: Order,
    out: &mut Vec<u8>,
) -> Result<(), AllocError>
    ensures ok { OnOk result (AppendsCode order (code_of coding page.now.width page.now.rows) out.old.items out.new.items) }
    ensures err { OnErr result (out.new.items ≡ out.old.items) }
{
    are_octets(out);
    let mut bits = BitWriter::after(alloc, out, order)?;
    let start = bits.bits();
    let done = write_page(coding, alloc, page, &mut bits);
    if done.is_err() {
        bits.truncate(start);
    }
    *out = bits.into_octets();
    are_octets(out);
    done
}

/// Reads the page that the octets begin with, as `PageCode::decode` of each code does.
#[inline(always)]
pub(crate) fn decode_in(
    coding: Coding,
    alloc: Global,
    octets: &[u8],
    order: Order,
    width: u32,
    fine: bool,
) -> Result<(Page, u128), CodeFault>
    requires { IsWidth width }
    ensures gives { GivesPage (read_rows coding width (bits_of order octets.now)) width fine result }
    ensures memory { IfErr result (λ fault. fault.kind ≡ NoMemory → fault.place ≡ 0) }
{
    let begun = Progress::new(alloc, width, fine);
    match read_to_end(alloc, coding, octets, order, begun) {
        Ok(answer) => Ok(answer),
        Err(fault) => Err(fault.begun_at(0)),
    }
}

/// Writing and reading of pages in one code: `OneDim` (T.4) and `T6` implement it. A code has no state, so no function has a
/// receiver.
pub trait PageCode {
    // the prescribed code of rows of a width
    ghost code: { ℕ → List (List Color) → List Bool };

    // the bits read as rows of a width, with this number of bits used
    ghost Reads: { ℕ → List Bool → List (List Color) → ℕ → Type 0 };

    // the result of reading bits: rows of a width and the bits used, or the place and the kind of a refusal
    ghost outcome: { ℕ → List Bool → Result (List (List Color) × ℕ) (ℕ × Kind) };

    // bits are refused at a place, after their longest front, with the kind of the bits there
    ghost Longest: { ℕ → List Bool → ℕ → Kind → Type 0 };

    /// Appends the page's prescribed code to the octets, its last octet filled with 0 bits. The page must
    /// have a row. Errs if memory is refused, which changes nothing.
    fn encode(alloc: Global, page: &Page, order: Order, out: &mut Vec<u8>) -> Result<(), AllocError>
        requires { 0 < length page.now.rows }
        ensures ok { OnOk result (AppendsCode order (code page.now.width page.now.rows) out.old.items out.new.items) }
        ensures err { OnErr result (out.new.items ≡ out.old.items) };

    /// Reads a page of this width in pixels from the beginning of the octets' bits, and returns it with the
    /// number of bits used; what follows is ignored. Errs at the first bit that fits no page, with the kind
    /// of the bits from there; and with `NoMemory` (9), at bit 0.
    fn decode(
        alloc: Global,
        octets: &[u8],
        order: Order,
        width: u32,
        fine: bool,
    ) -> Result<(Page, u128), CodeFault>
        requires { IsWidth width }
        ensures reads { IfOk result (λ read. ReadsPage Reads width fine (bits_of order octets.now) read.0 read.1) }
        ensures only { IsOnlyAnswer Reads width (bits_of order octets.now) result }
        ensures refuses { IfErr result (λ fault. fault.kind ≢ NoMemory → RefusesPage Reads Longest width (bits_of order octets.now) fault) }
        ensures gives { GivesRows (outcome width (bits_of order octets.now)) result }
        ensures memory { IfErr result (λ fault. fault.kind ≡ NoMemory → fault.place ≡ 0) };

    /// The law of the code: the code of a page, followed by any bits, reads as the page with the code's
    /// length. Nothing runs.
    // the contract of a function with an empty body: as one of the trait's ghost members its proof would have to be in specs/
    fn reads_its_code()
        ensures { ReadsItsCode code Reads };
}
