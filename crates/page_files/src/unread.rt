//! What octets that are nothing known are that isn't read.

ghost use Rattle.faults.specs.Faults.{IsOutside};
ghost use Rattle.page_files.specs.Identified.{UnreadBy};
ghost use Rattle.page_files.specs.Unread.{UnreadLines};
ghost use Rattle.std.specs.Io.KnownBytes.{Appends};
ghost use Rattle.std.specs.Prelude.{◌≡◌, ℕ, List, IfErr, OnOk};

use crate::identify::{Said, Tried, WIDTHS, tell_two_dim, tell_wide, try_one_dim};
use crate::no_eols::tell_order;
use faults::ToolFault;
use run_tables::Order;
use std::alloc::Global;
use std::io::Write;

/// Writes the lines of what octets are that isn't read, by the ways that were tried and the widths that they say themselves. Errors: `Io` (8)
/// from the writer, `NoMemory` (9).
pub(crate) fn tell_unread_by<W: Write>(
    alloc: Global,
    octets: &[u8],
    tried: &[Tried],
    said: Said,
    writer: &mut W,
) -> Result<(), ToolFault>
    ensures told { OnOk result ((lines : List ℕ) × UnreadBy octets.now tried.now said lines
        × Appends (W.contents writer.old) (W.contents writer.new) lines) }
    ensures fault { IfErr result IsOutside }
{
    tell_wide(Order::MsbFirst, said.msb, writer)?;
    tell_wide(Order::LsbFirst, said.lsb, writer)?;
    tell_two_dim(octets, Order::MsbFirst, said.msb, tried, writer)?;
    tell_two_dim(octets, Order::LsbFirst, said.lsb, tried, writer)?;
    tell_order(alloc, octets, Order::MsbFirst, writer)?;
    tell_order(alloc, octets, Order::LsbFirst, writer)?;
    Ok(())
}

/// Writes what octets that are nothing known are that isn't read, as `identify_engine` does: a line each. Errors: `Io` (8) from the writer,
/// `NoMemory` (9).
pub fn tell_unread<W: Write>(alloc: Global, octets: &[u8], writer: &mut W) -> Result<(), ToolFault>
    ensures told { OnOk result ((lines : List ℕ) × UnreadLines octets.now lines
        × Appends (W.contents writer.old) (W.contents writer.new) lines) }
    ensures fault { IfErr result IsOutside }
{
    let (results, said) = try_one_dim(alloc, octets, &WIDTHS)?;
    tell_unread_by(alloc, octets, &results.tried, said, writer)?;
    Ok(())
}
