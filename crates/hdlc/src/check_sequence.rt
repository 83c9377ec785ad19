//! The frame check sequence.

ghost use Rattle.hdlc.specs.Fcs.{fcs_of};
ghost use Rattle.hdlc.specs.Register.{crc_bit, crc_octet, remainders};
ghost use Rattle.raster.specs.Packed.{bits_of};
ghost use Rattle.raster.specs.declared.packed.Order.TheVariants.{LsbFirst};
ghost use Rattle.std.specs.List.{fold};
ghost use Rattle.std.specs.Prelude.{◌≡◌, ◌≤◌, ◌+◌, length, take, drop};

use crate::remainders::REMAINDERS;

/// The table as a slice.
fn remainders() -> &'static [u16]
    ensures { result.now ≡ remainders }
{
    &REMAINDERS
}

/// Adds the eight bits of an octet to a register of 16 bits, the least significant first.
fn crc_octet(register: u16, octet: u8) -> u16
    ensures { result ≡ crc_octet register octet }
{
    let low = (register % 256) as u8 ^ octet;
    (register >> 8) ^ remainders()[low as usize]
}

/// Adds the bits of eight octets from a place on to a register of 16 bits, the least significant of each
/// first.
fn crc_eight(register: u16, octets: &[u8], at: usize) -> u16
    requires { at + 8 ≤ length octets.now }
    ensures { result ≡ fold crc_bit register (bits_of LsbFirst (take 8 (drop at octets.now))) }
{
    let table = remainders();
    let both = register ^ (u16::from(octets[at + 1]) * 256 + u16::from(octets[at]));
    let two = table[octets[at + 7] as usize] ^ table[256 + octets[at + 6] as usize];
    let four = two ^ table[512 + octets[at + 5] as usize] ^ table[768 + octets[at + 4] as usize];
    let six = four ^ table[1024 + octets[at + 3] as usize] ^ table[1280 + octets[at + 2] as usize];
    six ^ table[1536 + (both / 256) as usize] ^ table[1792 + (both % 256) as usize]
}

/// Adds the bits of octets to a register of 16 bits, octet by octet, the least significant of each first.
fn crc_each(register: u16, octets: &[u8]) -> u16
    ensures { result ≡ fold crc_bit register (bits_of LsbFirst octets.now) }
{
    let mut all = register;
    for octet in octets {
        all = crc_octet(all, *octet);
    }
    all
}

/// Returns the frame check sequence of octets, the least significant bit of each first: the complemented
/// remainder of the division by x^16 + x^12 + x^5 + 1, preset to ones. Its low octet is sent first (ISO/IEC
/// 13239, 16-bit frame check sequence; ITU-T T.30, 5.3.7).
pub fn fcs(octets: &[u8]) -> u16
    ensures { result ≡ fcs_of octets.now }
{
    let mut register = 0xFFFF;
    let mut at = 0;
    while octets.len() - at >= 8 {
        register = crc_eight(register, octets, at);
        at += 8;
    }
    0xFFFF - crc_each(register, &octets[at..])
}
