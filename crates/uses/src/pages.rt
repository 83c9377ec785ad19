//! Images, rows in one dimension, coded pages, a command, and its faults.

ghost use Rattle.raster.specs.Pixels.{IsWidth};
ghost use Rattle.std.specs.Prelude.{◌≤◌, length};

use faults::{Explained, Known, ToolFault};
use page_code::{CodesPages, Coding, PageReader};
use page_files::code_engine;
use raster::{Page, RasterFault, Row, read_pbm, write_pbm};
use run_tables::{BitReader, BitWriter, CodeFault, Order};
use std::alloc::{AllocError, Global};
use std::io::{Read, Write};

/// Reads the images of a PBM file and writes them again.
pub fn copy_images<R: Read, W: Write>(
    alloc: Global,
    from: &mut R,
    to: &mut W,
) -> Result<(), RasterFault> {
    let document = read_pbm(alloc, from, false)?;
    write_pbm(document.pages(), to)
}

/// The code words of a page's rows, one row after the other with nothing between them.
pub fn code_rows(alloc: Global, page: &Page) -> Result<Vec<u8>, AllocError> {
    let mut writer = BitWriter::new(alloc, Order::MsbFirst);
    let mut changes = Vec::new(alloc);
    for row in page.rows() {
        writer.write_row_1d_in(&row, &mut changes)?;
    }
    Ok(writer.into_octets())
}

/// The rows of a width that the octets begin with, `most` of them at the most. Reading stops at the first bits that are no row.
pub fn decode_rows(
    alloc: Global,
    octets: &[u8],
    width: u32,
    most: u32,
) -> Result<Vec<Row>, AllocError>
    requires { IsWidth width }
{
    let mut reader = BitReader::at(octets, Order::MsbFirst, 0);
    let mut rows = Vec::new(alloc);
    for _ in 0..most {
        let Ok(row) = reader.read_row_1d(alloc, width) else {
            break;
        };
        rows.push(row)?;
    }
    Ok(rows)
}

/// Codes a page of the one-dimensional code anew in T.6.
pub fn recode(alloc: Global, coded: &[u8], width: u32) -> Result<Vec<u8>, CodeFault>
    requires { IsWidth width }
{
    let (page, _bits) = Coding::OneDim.decode(alloc, coded, Order::MsbFirst, width, false)?;
    let mut octets = Vec::new(alloc);
    Coding::T6.encode(alloc, &page, Order::MsbFirst, &mut octets)?;
    Ok(octets)
}

/// Reads a page of T.6 of which only the first octets come, and then all of it: the rows that are whole after the first octets,
/// and the page.
pub fn read_in_two(
    alloc: Global,
    coded: &[u8],
    first: usize,
    width: u32,
) -> Result<(u32, Page), CodeFault>
    requires width { IsWidth width }
    requires first { first ≤ length coded.now }
{
    let mut reader = PageReader::new(alloc, Coding::T6, Order::LsbFirst, width, false);
    reader.read_on(&coded[..first])?;
    let rows = reader.rows();
    let (page, _bits) = reader.finish(coded)?;
    Ok((rows, page))
}

/// What `faxtool code --code mmr` writes for an image that is in memory.
pub fn code_image(alloc: Global, image: &[u8]) -> Result<Vec<u8>, ToolFault> {
    let mut reader = image;
    let mut coded = Vec::new(alloc);
    code_engine(alloc, &mut reader, &mut coded, Coding::T6, Order::MsbFirst)?;
    Ok(coded)
}

/// A fault in words, as `faxtool` says it of a file.
pub fn in_words(alloc: Global, fault: ToolFault, file: &str) -> Result<String, AllocError> {
    let known = Known {
        file,
        reason: None,
        begins: &[],
        row: None,
        expected: None,
        read_as: None,
        line: None,
    };
    format!(in alloc; "{}", Explained { fault, known })
}
