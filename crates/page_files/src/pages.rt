//! What is done with images and coded pages: coding, showing and decoding, over any reader and any writer.
ghost use Rattle.page_files.specs.CodedPages.{CodesImage, DecodesPage, RefusesImage, RefusesShow, SalvagesPage, ShowsPage};
ghost use Rattle.page_files.specs.Decodings.{IsKept};
ghost use Rattle.faults.specs.Faults.{IsOutside};
ghost use Rattle.page_code.specs.PageReaders.{IsPageRefused};
ghost use Rattle.raster.specs.Packed.{bits_of};
ghost use Rattle.raster.specs.PbmText.{AppendsSome, ArePagesText};
ghost use Rattle.raster.specs.Pixels.{IsWidth};
ghost use Rattle.std.specs.Prelude.{◌≡◌, ◌<◌, ◌⊎◌, ◌∷◌, [], IfErr, IfOk, IfSome, OnOk, length};

use crate::coded::{read_code, read_image, read_rows, write_code};
use crate::options::PageForm;
use faults::ToolFault;
use page_code::{CodesPages, Coding, PageRead, RefusedCode};
use raster::{Page, write_pbm, write_text};
use run_tables::Order;
use std::alloc::Global;
use std::io::{Read, Write};

/// What was salvaged of a coded page.
#[derive(Clone, Copy, Debug, PartialEq, Eq)]
pub struct Salvage {
    /// How many rows were written.
    pub rows: usize,
    /// The number of bits of the page's code, or the fault of the refused bit.
    pub end: Result<u128, ToolFault>,
}

/// Reads a PBM file of one image, as `read_image` does, and writes its code, as `write_code` does. Nothing is written for a wrong file.
/// Errors: the first fault of the file, `SeveralPages` (27), `Io` (8) from the reader or the writer, `NoMemory` (9).
pub fn code_engine<R: Read, W: Write>(
    alloc: Global,
    reader: &mut R,
    writer: &mut W,
    coding: Coding,
    order: Order,
) -> Result<(), ToolFault>
    ensures coded { OnOk result (IfSome (R.remaining reader.old)
        (CodesImage coding order (W.contents writer.old) (W.contents writer.new))) }
    ensures refused { IfErr result (λ fault. IfSome (R.remaining reader.old) (λ octets. RefusesImage octets fault)) }
    ensures unwritten { IfErr result (λ fault. IsOutside fault ⊎ (writer.new ≡ writer.old)) }
{
    let page = read_image(alloc, reader)?;
    write_code(alloc, &page, coding, order, writer)
}

/// Reads octets that begin with a page of this width (1 to 2,432 pixels), and writes the page as text. Nothing is written for a refused
/// page. Errors: the refusal, at its bit; `Io` (8) from the reader or the writer, `NoMemory` (9).
pub fn show_engine<R: Read, W: Write>(
    alloc: Global,
    reader: &mut R,
    writer: &mut W,
    coding: Coding,
    order: Order,
    width: u32,
) -> Result<(), ToolFault>
    requires { IsWidth width }
    ensures shown { OnOk result (IfSome (R.remaining reader.old)
        (ShowsPage coding order width (W.contents writer.old) (W.contents writer.new))) }
    ensures refused { IfErr result (λ fault. IfSome (R.remaining reader.old) (λ octets. RefusesShow coding order width octets fault)) }
    ensures unwritten { IfErr result (λ fault. IsOutside fault ⊎ (writer.new ≡ writer.old)) }
{
    let mut octets = Vec::new(alloc);
    reader.read_to_end(&mut octets)?;
    let form = PageForm {
        coding,
        order,
        width,
        fine: false,
    };
    show_page(alloc, &octets, form, &mut None, writer)
}

/// Writes the page that octets begin with as text, for a width of 1 to 2,432 pixels. Errors: the refusal, at its bit, and then `kept` holds
/// how far the page was read; `Io` (8) from the writer, `NoMemory` (9).
#[tactic(auto, using(crate::proofs::DecodedPages::refused_show, crate::proofs::DecodedPages::refused_kept))]
pub fn show_page<W: Write>(
    alloc: Global,
    octets: &[u8],
    form: PageForm,
    kept: &mut Option<RefusedCode>,
    writer: &mut W,
) -> Result<(), ToolFault>
    requires { IsWidth form.width }
    ensures shown { OnOk result (ShowsPage form.coding form.order form.width (W.contents writer.old) (W.contents writer.new) octets.now) }
    ensures refused { IfErr result (RefusesShow form.coding form.order form.width octets.now) }
    ensures unwritten { IfErr result (λ fault. IsOutside fault ⊎ (writer.new ≡ writer.old)) }
    ensures known { IfSome kept.new (IsPageRefused form.coding form.width (bits_of form.order octets.now)) }
    ensures kept { IfErr result (IsKept kept.new) }
{
    let (page, _used) = read_code(alloc, octets, form, kept)?;
    write_text(&page, writer)?;
    Ok(())
}

/// Reads octets that begin with a page of this form (1 to 2,432 pixels wide), writes its image as raw PBM, and returns the number of its
/// rows and of the bits of its code. Nothing is written for a refused page. Errors: the refusal, at its bit; `Io` (8) from the reader or
/// the writer, `NoMemory` (9).
pub fn decode_engine<R: Read, W: Write>(
    alloc: Global,
    reader: &mut R,
    writer: &mut W,
    form: PageForm,
) -> Result<(usize, u128), ToolFault>
    requires { IsWidth form.width }
    ensures decoded { IfOk result (λ counts. IfSome (R.remaining reader.old)
        (DecodesPage form.coding form.order form.width form.fine (W.contents writer.old) (W.contents writer.new) counts.0 counts.1)) }
    ensures refused { IfErr result (λ fault. IfSome (R.remaining reader.old) (λ octets.
        RefusesShow form.coding form.order form.width octets fault)) }
    ensures unwritten { IfErr result (λ fault. IsOutside fault ⊎ (writer.new ≡ writer.old)) }
{
    let PageForm {
        coding,
        order,
        width,
        fine,
    } = form;
    let mut octets = Vec::new(alloc);
    reader.read_to_end(&mut octets)?;
    let (page, bits) = coding.decode(alloc, &octets, order, width, fine)?;
    let rows = page.rows().len();
    write_pbm(&[page], writer)?;
    Ok((rows, bits))
}

/// Does what `decode_engine` does. If the page is refused, writes the whole rows before the refused bit as an image of this width, if there
/// are any, and returns their number with the fault. Errors: `Io` (8) from the reader or the writer, `NoMemory` (9).
pub fn salvage_engine<R: Read, W: Write>(
    alloc: Global,
    reader: &mut R,
    writer: &mut W,
    form: PageForm,
) -> Result<Salvage, ToolFault>
    requires { IsWidth form.width }
    ensures salvaged { IfOk result (λ salvage. IfSome (R.remaining reader.old)
        (SalvagesPage form.coding form.order form.width form.fine (W.contents writer.old) (W.contents writer.new) salvage)) }
    ensures fault { IfErr result IsOutside }
{
    let mut octets = Vec::new(alloc);
    reader.read_to_end(&mut octets)?;
    salvage_page(alloc, &octets, form, writer)
}

/// Writes the page that octets begin with, or its whole rows before the refused bit, as `salvage_engine` does.
fn salvage_page<W: Write>(
    alloc: Global,
    octets: &[u8],
    form: PageForm,
    writer: &mut W,
) -> Result<Salvage, ToolFault>
    requires { IsWidth form.width }
    ensures salvaged { IfOk result (λ salvage.
        SalvagesPage form.coding form.order form.width form.fine (W.contents writer.old) (W.contents writer.new) salvage octets.now) }
    ensures fault { IfErr result IsOutside }
{
    match read_rows(alloc, octets, form)? {
        PageRead::Page(page, bits) => {
            let rows = write_some(page, writer)?;
            Ok(Salvage {
                rows,
                end: Ok(bits),
            })
        }
        PageRead::Refused(code, page) => {
            let fault = ToolFault::from(code.fault);
            let rows = write_some(page, writer)?;
            Ok(Salvage {
                rows,
                end: Err(fault),
            })
        }
    }
}

/// Writes a page as a raw PBM image and returns the number of its rows; a page without rows writes nothing.
pub fn write_some<W: Write>(page: Page, writer: &mut W) -> Result<usize, ToolFault>
    ensures rows { IfOk result (λ rows. rows ≡ length page.rows) }
    ensures written { OnOk result (0 < length page.rows →
        AppendsSome (ArePagesText (page ∷ [])) (W.contents writer.old) (W.contents writer.new)) }
    ensures none { OnOk result (length page.rows ≡ 0 → W.contents writer.new ≡ W.contents writer.old) }
    ensures fault { IfErr result IsOutside }
{
    let rows = page.rows().len();
    if rows > 0 {
        write_pbm(&[page], writer)?;
    }
    Ok(rows)
}
