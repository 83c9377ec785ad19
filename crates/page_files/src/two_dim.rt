//! What octets say of themselves as a page of T.4 in two dimensions (MR), which isn't read.

ghost use Rattle.faults.specs.Faults.{IsOutside};
ghost use Rattle.page_files.specs.TwoDims.{SaysTwoDims, said_line, two_dim_in};
ghost use Rattle.std.specs.Io.KnownBytes.{Appends};
ghost use Rattle.std.specs.Prelude.{◌≡◌, IfErr, OnOk};

use crate::identify::tell_two_dim_of;
use crate::own_widths::two_dim_width;
use faults::ToolFault;
use run_tables::Order;
use std::io::Write;

/// What octets say of themselves as a page of T.4 in two dimensions.
#[derive(Clone, Copy, Debug, PartialEq, Eq)]
pub struct TwoDim {
    /// The order of bits in which they say it.
    pub order: Order,
    /// The width in pixels, above 0.
    pub width: u128,
}

/// Returns this order of bits with the width that octets say in it, if they say one above 0.
fn two_dim_in(order: Order, said: Option<u128>) -> Option<TwoDim>
    ensures { result ≡ two_dim_in order said }
{
    match said {
        Some(width) if width > 0 => Some(TwoDim { order, width }),
        Some(_) | None => None,
    }
}

/// Returns what octets say of themselves as a page of T.4 in two dimensions: the width of the row after the EOL that they begin with, if the
/// bit between says that this row is in one dimension (ITU-T T.4, 4.2.2), and an EOL or the end comes after it. None if they say nothing.
pub fn two_dim_of(octets: &[u8]) -> Option<TwoDim>
    ensures { SaysTwoDims octets.now result }
{
    let msb = two_dim_width(octets, Order::MsbFirst);
    let lsb = two_dim_width(octets, Order::LsbFirst);
    match two_dim_in(Order::MsbFirst, msb) {
        Some(said) => Some(said),
        None => two_dim_in(Order::LsbFirst, lsb),
    }
}

/// Writes the line of octets that are T.4 in two dimensions, as `identify_engine` does. Errors: `Io` (8) from the writer.
pub fn tell_two_dims<W: Write>(said: TwoDim, writer: &mut W) -> Result<(), ToolFault>
    ensures told { OnOk result
        (Appends (W.contents writer.old) (W.contents writer.new) (said_line said)) }
    ensures fault { IfErr result IsOutside }
{
    tell_two_dim_of(said.order, said.width, writer)
}
