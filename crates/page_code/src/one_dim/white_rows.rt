//! White rows of a page in the one-dimensional code, each known by one number (ITU-T T.4, 4.1).

ghost use Rattle.page_code.specs.OneDimension.WhiteRows.{IsWhiteRow};
ghost use Rattle.page_code.specs.RowsSoFar.{IsFurther, IsReadTo};
ghost use Rattle.raster.specs.Packed.{bits_of};
ghost use Rattle.raster.specs.Pixels.{IsWidth};
ghost use Rattle.run_tables.specs.Numbers.{number_text};
ghost use Rattle.run_tables.specs.Reading.{rest_of};
ghost use Rattle.run_tables.specs.Texts.{begins};
ghost use Rattle.std.specs.Bool.{OnTrue};
ghost use Rattle.std.specs.Prelude.{◌≡◌, ◌≤◌, ◌<◌, OnOk, length, true};

use crate::page::{Progress, push_white};
use raster::packed::Order;
use raster::{Coding, Color, MAX_ROWS};
use run_tables::{BitReader, run_word};
use std::alloc::AllocError;

/// The number of bits of an EOL without fill.
const EOL_BITS: u32 = 12;

/// The bits of an EOL without fill and of a white row after it, as one number, and how many they are.
#[derive(Clone, Copy, Debug, PartialEq, Eq)]
pub(crate) struct WhiteRow {
    number: u64,
    bits: u32,
}

impl WhiteRow {
    /// Those of a row of this width in pixels.
    pub(crate) fn of(width: u32) -> WhiteRow
        requires { IsWidth width }
        ensures { IsWhiteRow width result }
    {
        let (run, length) = run_word(Color::White, width);
        WhiteRow {
            number: (1 << length) + u64::from(run),
            bits: EOL_BITS + length,
        }
    }

    /// Whether they come next, if 57 bits are left.
    #[inline(always)]
    fn is_next(self, reader: &BitReader<'_>) -> bool
        requires some { 0 < self.bits }
        requires few { self.bits ≤ 57 }
        ensures { OnTrue result (begins (number_text self.bits self.number) (rest_of reader.now) ≡ true) }
    {
        reader.has_57() && reader.peek_57() >> (64 - self.bits) == self.number
    }
}

/// Reads on past white rows, as many as come next, if the last row is one by its length: it begins at `last`. Errs if memory
/// is refused.
#[inline(always)]
pub(crate) fn white_rows(
    white: WhiteRow,
    last: u128,
    octets: &[u8],
    order: Order,
    to: &mut Progress,
) -> Result<(), AllocError>
    requires width { IsWidth to.old.page.width }
    requires white { IsWhiteRow to.old.page.width white }
    requires read { IsReadTo Coding.OneDim to.old.page.width (bits_of order octets.now) to.old.page.rows to.old.place }
    ensures further { OnOk result (IsFurther Coding.OneDim (bits_of order octets.now) to.old to.new) }
    ensures more { OnOk result (length to.old.page.rows ≤ length to.new.page.rows) }
{
    let row = white.bits - EOL_BITS;
    if to.place.wrapping_sub(last) != u128::from(row) {
        return Ok(());
    }
    let mut reader = BitReader::at(octets, order, to.place);
    while to.page.rows().len() < MAX_ROWS && white.is_next(&reader) {
        push_white(&mut to.page)?;
        reader.skip(white.bits as usize);
    }
    to.place = reader.place();
    Ok(())
}
