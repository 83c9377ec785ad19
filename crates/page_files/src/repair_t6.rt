//! What `decode --repair` does with a page in the two-dimensional code.
ghost use Rattle.page_files.specs.CodedPages.{WritesPage};
ghost use Rattle.faults.specs.Faults.{IsOutside};
ghost use Rattle.page_files.specs.RepairsT6.{RepairsT6, no_eofb_line};
ghost use Rattle.raster.specs.Pixels.{IsWidth};
ghost use Rattle.std.specs.Io.KnownBytes.{Appends};
ghost use Rattle.std.specs.Prelude.{[], ℕ, List, Some, IfErr, IfOk, OnOk, length};

use crate::decoding::{Decoded, ReadTo};
use crate::options::PageForm;
use faults::{NO_MEMORY, ToolFault};
use page_code::{CodesPages, Coding, RowsToEnd, T6};
use run_tables::CodeFaultKind;
use std::alloc::Global;
use std::io::Write;

/// Writes the line of a page without its EOFB.
fn tell_no_eofb<W: Write>(rows: usize, bit: u128, writer: &mut W) -> Result<(), ToolFault>
    ensures told { OnOk result (Appends (W.contents writer.old) (W.contents writer.new) (no_eofb_line rows bit)) }
    ensures fault { IfErr result IsOutside }
{
    writeln!(
        writer,
        "the page ends without its EOFB after {rows} rows, at bit {bit}"
    )?;
    Ok(())
}

/// Decodes octets that begin with a page of T.6, of the width and lines of `form` (1 to 2,432 pixels). If they are refused, returns the
/// whole rows. It is no fault if no row begins after them, so that only EOFB is missing or broken: then a line says so. Errors: `NoMemory`
/// (9), and `Io` (8).
pub(crate) fn repair_t6(alloc: Global, octets: &[u8], form: PageForm) -> Result<Decoded, ToolFault>
    requires { IsWidth form.width }
    ensures given { IfOk result (λ given. (image : List ℕ) → WritesPage given.page (Some []) (Some image)
        → RepairsT6 form octets.now given.read_to (length given.page.rows) image given.lines.items) }
    ensures refused { IfErr result IsOutside }
{
    let PageForm {
        coding: _,
        order,
        width,
        fine,
    } = form;
    let mut lines = Vec::new(alloc);
    let fault = match Coding::T6.decode(alloc, octets, order, width, fine) {
        Ok((page, bits)) => {
            let read_to = ReadTo::End(bits);
            return Ok(Decoded {
                page,
                lines,
                read_to,
            });
        }
        Err(fault) if fault.kind == CodeFaultKind::NoMemory => return Err(NO_MEMORY),
        Err(fault) => ToolFault::from(fault),
    };
    let RowsToEnd { page, bit, at_end } = T6::rows_to_end(alloc, octets, order, width, fine)?;
    let rows = page.rows().len();
    // ghostscript's faxg4 leaves EOFB out; after a row that can't be read no later one can be
    if at_end && rows > 0 {
        tell_no_eofb(rows, bit, &mut lines)?;
        let read_to = ReadTo::NoEnd(bit);
        return Ok(Decoded {
            page,
            lines,
            read_to,
        });
    }
    let read_to = ReadTo::Fault(fault);
    Ok(Decoded {
        page,
        lines,
        read_to,
    })
}
