//! Pages in the two-dimensional code (ITU-T T.6, 2.2).

ghost use Rattle.page_code.specs.TwoDimensions.Fronts.{read_page as read_bits};

mod a0;
mod changes;
mod front;
pub(crate) mod lines;
pub(crate) mod mode;
mod mode_table;
pub(crate) mod page_end;
pub(crate) mod read;
pub(crate) mod write;

use crate::coding::{PageCode, decode_in, encode_in};
use raster::packed::Order;
use raster::{Coding, Page};
use run_tables::CodeFault;
use std::alloc::{AllocError, Global};

/// The two-dimensional code of ITU-T T.6, 2.2. A page is written as its rows by the prescribed modes, the
/// first after a white row, and EOFB. It is read as rows by any modes that each move a0 to the right and not
/// past the width, since other software chooses modes differently, and EOFB. Refusals are `NoRows`,
/// `Truncated`, `BadCode`, `Backwards`, `PastEnd`, `EmptyHorizontal`, `Extension`, `MissingEofb` and
/// `TooManyCodedRows`.
#[derive(Clone, Copy, Debug, PartialEq, Eq)]
pub struct T6;

impl PageCode for T6 {
    ghost use Rattle.page_code.specs.TwoDimensions.Code.{page_code};
    ghost use Rattle.page_code.specs.TwoDimensions.Modes.{ReadsAsPage};
    ghost use Rattle.page_code.specs.TwoDimensions.Laws.{IsLongestFront};

    ghost code = { page_code };

    ghost Reads = { ReadsAsPage };

    ghost outcome = { read_bits };

    ghost Longest = { IsLongestFront };

    #[tactic(auto, unfolding(crate::specs::Codings::code_of))]
    fn encode(
        alloc: Global,
        page: &Page,
        order: Order,
        out: &mut Vec<u8>,
    ) -> Result<(), AllocError> {
        encode_in(Coding::T6, alloc, page, order, out)
    }

    fn decode(
        alloc: Global,
        octets: &[u8],
        order: Order,
        width: u32,
        fine: bool,
    ) -> Result<(Page, u128), CodeFault> {
        decode_in(Coding::T6, alloc, octets, order, width, fine)
    }

    fn reads_its_code() {}
}
