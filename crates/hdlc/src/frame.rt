//! A content written as a frame.

ghost use Rattle.raster.specs.Packed.{bits_of};
ghost use Rattle.raster.specs.declared.packed.Order.TheVariants.{LsbFirst};
ghost use Rattle.run_tables.specs.Written.{Appends};
ghost use Rattle.hdlc.specs.Flags.{flag};
ghost use Rattle.hdlc.specs.Frames.{IsFrame};
ghost use Rattle.hdlc.specs.Stuffing.{IsWaiting, waiting_bits};
ghost use Rattle.hdlc.specs.Writing.{IsWriting, Extends};
ghost use Rattle.std.specs.Prelude.{◌≡◌, ◌≤◌, ◌++◌, List, Bool, length, IfOk, OnOk, OnErr};

use crate::bit_buffer::BitBuffer;
use crate::check_sequence::fcs;
use byteorder::{ByteOrder, LittleEndian};
use run_tables::BitWriter;
use std::alloc::AllocError;

/// Writes the bits of octets, the least significant of each first, with a 0 bit after each fifth 1 bit in a
/// row, after the bits that wait, and returns the bits that wait now.
fn write_octets(
    writer: &mut BitWriter,
    before: BitBuffer,
    octets: &[u8],
) -> Result<BitBuffer, AllocError>
    requires { IsWaiting 32 before }
    ensures keeps { Extends writer.old writer.new }
    ensures waits { IfOk result (IsWaiting 32) }
    ensures ok { IfOk result (λ next. (start bits : List Bool)
        → IsWriting (writer.old.bits ++ waiting_bits before) start bits before.ones
        → IsWriting (writer.new.bits ++ waiting_bits next) start (bits ++ bits_of LsbFirst octets.now) next.ones) }
{
    let mut waiting = before;
    for octet in octets {
        waiting = waiting.with_room(writer)?.with(*octet);
    }
    Ok(waiting)
}

/// Writes a flag.
#[tactic(auto, using(crate::proofs::Extending::steps))]
fn write_flag(writer: &mut BitWriter) -> Result<(), AllocError>
    ensures keeps { Extends writer.old writer.new }
    ensures ok { OnOk result (Appends flag writer.old writer.new) }
{
    writer.push_bits(0x7E, 8)
}

/// Writes a frame. An `Err` may leave a part of it after the old bits.
fn write_all(writer: &mut BitWriter, content: &[u8]) -> Result<(), AllocError>
    requires least { 3 ≤ length content.now }
    requires most { length content.now ≤ 300 }
    ensures keeps { Extends writer.old writer.new }
    ensures ok { OnOk result ((frame : List Bool) × IsFrame content.now frame × (writer.new.bits ≡ writer.old.bits ++ frame)) }
{
    let mut sent = [0; 2];
    LittleEndian::write_u16(&mut sent, fcs(content));
    write_flag(writer)?;
    let first = write_octets(writer, BitBuffer::new(), content)?;
    let last = write_octets(writer, first, &sent)?;
    let _none = last.write(writer)?; // with a 0 bit after five 1 bits that end the check sequence
    write_flag(writer)?;
    Ok(())
}

/// Appends the frame of a content of 3 to 300 octets: a flag, the bits of the content and of its check
/// sequence, low octet first, with a 0 bit after each five 1 bits in a row, and a flag (ISO/IEC 13239, frame
/// structure and transparency; ITU-T T.30, 5.3). Errs if memory is refused, which changes nothing.
pub fn write_frame(content: &[u8], writer: &mut BitWriter) -> Result<(), AllocError>
    requires least { 3 ≤ length content.now }
    requires most { length content.now ≤ 300 }
    ensures ok { OnOk result ((frame : List Bool) × IsFrame content.now frame × Appends frame writer.old writer.new) }
    ensures err { OnErr result (writer.new ≡ writer.old) }
{
    let start = writer.bits();
    if let Err(refused) = write_all(writer, content) {
        writer.truncate(start);
        return Err(refused);
    }
    Ok(())
}
