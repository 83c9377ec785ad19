//! How wide the rows of a page of T.4 are by their own runs.

use raster::Color;
use run_tables::{BitReader, Order};

/// The most pixels of a row.
const MOST_PIXELS: u32 = 2432;

/// The most rows of a page.
const MOST_ROWS: u32 = 20_000;

/// How a row ends, as its runs are read up to the next EOL.
#[derive(Clone, Copy)]
enum RowEnd {
    /// At an EOL, after this number of pixels.
    Eol(u32),
    /// There is no row: an EOL comes after an EOL.
    NoRow,
    /// Something is no run, or the octets end.
    Unknown,
}

/// Returns the width that all rows of a page have, 1 to 2,432 pixels, if each of two or more rows ends with an EOL after the same number of
/// pixels; the last one with the EOLs of the page's end.
pub(crate) fn same_width(octets: &[u8], order: Order) -> Option<u32> {
    let mut reader = BitReader::at(octets, order, 0);
    skip_eol(&mut reader)?;
    let mut same = None;
    for row in 0..MOST_ROWS {
        match row_end(&mut reader) {
            RowEnd::Eol(width) => match same {
                Some(other) if other != width => return None,
                _ => same = Some(width),
            },
            RowEnd::NoRow if row > 1 => return same,
            RowEnd::NoRow | RowEnd::Unknown => return None,
        }
        skip_eol(&mut reader)?;
    }
    same
}

/// Reads the runs of a row up to an EOL.
fn row_end(reader: &mut BitReader<'_>) -> RowEnd {
    let mut color = Color::White;
    let mut pixels = 0u32;
    for number in 0..=MOST_PIXELS {
        if reader.starts_with(0, 11) {
            return if number == 0 {
                RowEnd::NoRow
            } else {
                RowEnd::Eol(pixels)
            };
        }
        let Ok(run) = reader.read_run(color) else {
            return RowEnd::Unknown;
        };
        pixels = pixels.saturating_add(run);
        if pixels > MOST_PIXELS {
            return RowEnd::Unknown;
        }
        color = color.other();
    }
    RowEnd::Unknown
}

/// Reads an EOL: eleven or more zeros, and a one. None if there is none.
fn skip_eol(reader: &mut BitReader<'_>) -> Option<()> {
    if !reader.starts_with(0, 11) {
        return None;
    }
    for _bit in 0..u64::MAX {
        match reader.bit() {
            Some(true) => return Some(()),
            Some(false) => {}
            None => return None,
        }
    }
    None
}
