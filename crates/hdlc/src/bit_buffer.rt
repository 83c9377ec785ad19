//! Stuffed bits on their way to a writer.

ghost use Rattle.hdlc.specs.Stuffing.{stuffed_from, run_after_all, waiting_bits, IsWaiting};
ghost use Rattle.hdlc.specs.Writing.{Extends};
ghost use Rattle.raster.specs.Packed.{bits_of};
ghost use Rattle.raster.specs.declared.packed.Order.TheVariants.{LsbFirst};
ghost use Rattle.std.specs.Prelude.{◌≡◌, ◌++◌, ◌∷◌, [], IfOk};

use crate::stuffing::stuffed;
use run_tables::BitWriter;
use std::alloc::AllocError;

/// How many bits may wait and still leave room for one octet more.
const ROOM: u32 = 22;

/// The bits of a text between two flags that were not written yet, at most 32.
#[derive(Clone, Copy)]
pub struct BitBuffer {
    /// The bits as a number, the first the most significant.
    pub(crate) value: u32,
    /// How many they are.
    pub(crate) count: u32,
    /// How many 1 bits in a row end the text, none to four.
    pub(crate) ones: u8,
}

impl BitBuffer {
    /// No bits, after a flag.
    pub fn new() -> Self
        ensures { result ≡ record { value = 0; count = 0; ones = 0 } }
    {
        BitBuffer {
            value: 0,
            count: 0,
            ones: 0,
        }
    }

    /// The bits, followed by an octet's, the least significant first, with a 0 bit after each fifth 1 bit in
    /// a row.
    pub fn with(self, octet: u8) -> Self
        requires { IsWaiting 22 self }
        ensures waits { IsWaiting 32 result }
        ensures bits { waiting_bits result ≡ waiting_bits self ++ stuffed_from self.ones (bits_of LsbFirst (octet ∷ [])) }
        ensures ones { result.ones ≡ run_after_all self.ones (bits_of LsbFirst (octet ∷ [])) }
    {
        let (value, count) = stuffed(self.ones, octet);
        BitBuffer {
            value: (self.value << count) + value,
            count: self.count + count,
            ones: value.trailing_ones() as u8,
        }
    }

    /// Writes the waiting bits, so that none waits.
    pub fn write(self, writer: &mut BitWriter) -> Result<Self, AllocError>
        requires { IsWaiting 32 self }
        ensures keeps { Extends writer.old writer.new }
        ensures ok { IfOk result (λ next. (next ≡ record self { value = 0; count = 0 })
            × (writer.new.bits ≡ writer.old.bits ++ waiting_bits self)) }
    {
        writer.push_bits(self.value, self.count)?;
        Ok(BitBuffer {
            value: 0,
            count: 0,
            ones: self.ones,
        })
    }

    /// Writes the waiting bits if one octet more has no room.
    pub fn with_room(self, writer: &mut BitWriter) -> Result<Self, AllocError>
        requires { IsWaiting 32 self }
        ensures keeps { Extends writer.old writer.new }
        ensures waits { IfOk result (IsWaiting 22) }
        ensures ones { IfOk result (λ next. next.ones ≡ self.ones) }
        ensures bits { IfOk result (λ next. writer.new.bits ++ waiting_bits next ≡ writer.old.bits ++ waiting_bits self) }
    {
        if self.count <= ROOM {
            return Ok(self);
        }
        self.write(writer)
    }
}
