//! Bits of octets, up to 64 at a time.

ghost use Rattle.raster.specs.Packed.{bit_in, place_in, AreAlike};
ghost use Rattle.raster.specs.Words.{bit_of_word, turned_octet, IsWordAt, IsFirstInWord, IsFirstOther};
ghost use Rattle.std.specs.Int.{bit_at, to_be_bytes, w64};
ghost use Rattle.std.specs.Prelude.{ℕ, true, false, ◌≡◌, ◌≤◌, ◌<◌, ◌+◌, ◌-◌, ◌*◌, ◌/◌, ◌%◌, length, nat_eq, slice_index, IfErr, IfOk, IfSome, IsTrue};

use crate::blocks::block_change;
use crate::packed::Order;
use crate::row::Color;
use crate::turned::turned;

/// The octet with its first bit the most significant.
fn first_highest(order: Order, octet: u8) -> u8
    ensures { (k : ℕ) → k < 8 → bit_at result (7 - k) ≡ bit_at octet (place_in order k) }
{
    match order {
        Order::LsbFirst => turned(octet),
        Order::MsbFirst => octet,
    }
}

/// The 64 bits of eight octets, the most significant bit of each octet first.
#[inline(always)]
pub(crate) fn whole_word(octets: &[u8], at: usize) -> u64
    requires { at + 8 ≤ length octets.now }
    ensures { IsWordAt Order.MsbFirst octets.now (8 * at) result }
{
    u64::from_be_bytes([
        octets[at],
        octets[at + 1],
        octets[at + 2],
        octets[at + 3],
        octets[at + 4],
        octets[at + 5],
        octets[at + 6],
        octets[at + 7],
    ])
}

/// The word with the two bits of each pair in the other order.
#[inline(always)]
fn bits_exchanged(word: u64) -> u64
    ensures { (k : ℕ) → k < 64 → bit_of_word result k ≡ bit_of_word word (2 * (k / 2) + (k + 1) % 2) }
{
    word >> 1 & 0x5555_5555_5555_5555 | (word & 0x5555_5555_5555_5555) << 1
}

/// The word with the two pairs of bits of each half octet in the other order.
#[inline(always)]
fn pairs_exchanged(word: u64) -> u64
    ensures { (k : ℕ) → k < 64 → bit_of_word result k ≡ bit_of_word word (4 * (k / 4) + (k + 2) % 4) }
{
    word >> 2 & 0x3333_3333_3333_3333 | (word & 0x3333_3333_3333_3333) << 2
}

/// The word with the two halves of each octet in the other order.
#[inline(always)]
fn halves_exchanged(word: u64) -> u64
    ensures { (k : ℕ) → k < 64 → bit_of_word result k ≡ bit_of_word word (8 * (k / 8) + (k + 4) % 8) }
{
    word >> 4 & 0x0F0F_0F0F_0F0F_0F0F | (word & 0x0F0F_0F0F_0F0F_0F0F) << 4
}

/// The word with the bits of each of its eight octets turned.
#[inline(always)]
fn turned_word(word: u64) -> u64
    ensures { (k : ℕ) → k < 64 → bit_of_word result k ≡ bit_of_word word (8 * (k / 8) + (7 - k % 8)) }
{
    halves_exchanged(pairs_exchanged(bits_exchanged(word)))
}

/// The word with each of its eight octets in an order of bits: turned if the least significant bit comes
/// first.
#[inline(always)]
pub(crate) fn in_order(order: Order, word: u64) -> u64
    ensures { (k : ℕ) → k < 64 → bit_of_word result k ≡ bit_of_word word (8 * (k / 8) + (7 - place_in order k)) }
{
    match order {
        Order::LsbFirst => turned_word(word),
        Order::MsbFirst => word,
    }
}

/// The octet, or 0 past the octets, with its first bit the most significant.
fn octet_or_zero(order: Order, octets: &[u8], at: usize) -> u8
    ensures { (k : ℕ) → k < 8 → nat_eq (bit_at result (7 - k)) 1 ≡ bit_in order octets.now (8 * at + k) }
{
    if at < octets.len() {
        first_highest(order, octets[at])
    } else {
        0
    }
}

/// The bits from an octet on, filled with 0 bits to 64.
#[cold]
fn last_word(order: Order, octets: &[u8], at: usize) -> u64
    requires { at ≤ length octets.now }
    ensures { IsWordAt order octets.now (8 * at) result }
{
    let mut word: u64 = 0;
    for k in 0..8usize {
        word = word << 8 | octet_or_zero(order, octets, at + k) as u64;
    }
    word
}

/// The 64 bits from an octet on; past the octets they are 0.
#[inline(always)]
pub(crate) fn octet_word(order: Order, octets: &[u8], at: usize) -> u64
    requires { at ≤ length octets.now }
    ensures { IsWordAt order octets.now (8 * at) result }
{
    if octets.len() - at < 8 {
        return last_word(order, octets, at);
    }
    in_order(order, whole_word(octets, at))
}

/// The 64 bits that begin within an octet, if fewer than nine octets are left.
#[cold]
fn last_shifted_word(order: Order, octets: &[u8], at: usize, within: u32) -> u64
    requires at { at ≤ length octets.now }
    requires within { within < 8 }
    ensures { IsWordAt order octets.now (8 * at + within) result }
{
    let word = octet_word(order, octets, at);
    let next = octet_or_zero(order, octets, at + 8);
    word << within | next as u64 >> (8 - within)
}

/// The 64 bits that begin within an octet.
#[inline(always)]
pub(crate) fn shifted_word(order: Order, octets: &[u8], at: usize, within: u32) -> u64
    requires at { at ≤ length octets.now }
    requires within { within < 8 }
    ensures { IsWordAt order octets.now (8 * at + within) result }
{
    if octets.len() - at < 9 {
        return last_shifted_word(order, octets, at, within);
    }
    let word = in_order(order, whole_word(octets, at));
    let next = first_highest(order, octets[at + 8]);
    word << within | next as u64 >> (8 - within)
}

/// The bits of eight octets from a bit of the first octet on, 57 to 64 bits.
#[inline(always)]
pub(crate) fn moved_word(order: Order, octets: &[u8], at: usize, within: u32) -> u64
    requires at { at + 8 ≤ length octets.now }
    requires within { within < 8 }
    ensures { (k : ℕ) → within + k < 64 → bit_of_word result k ≡ bit_in order octets.now (8 * at + within + k) }
{
    in_order(order, whole_word(octets, at)) << within
}

/// Writes eight octets over the ones from a place on.
#[inline(always)]
pub(crate) fn put_octets(octets: &mut [u8], at: usize, eight: [u8; 8])
    requires { at + 8 ≤ length octets.old }
    ensures length { length octets.new ≡ length octets.old }
    ensures before { (j : ℕ) → j < at → slice_index octets.new j ≡ slice_index octets.old j }
    ensures inside { (j : ℕ) → j < 8 → slice_index octets.new (at + j) ≡ slice_index eight j }
    ensures after { (j : ℕ) → at + 8 ≤ j → slice_index octets.new j ≡ slice_index octets.old j }
{
    octets[at..at + 8].copy_from_slice(&eight);
}

/// The octets of a word, the most significant first.
#[inline(always)]
pub(crate) fn octets_of(word: u64) -> [u8; 8]
    ensures { result ≡ to_be_bytes w64 word }
{
    word.swap_bytes().to_le_bytes()
}

/// The first `count` bits of a word, followed by 0 bits.
#[inline(always)]
pub(crate) fn first_bits(word: u64, count: u32) -> u64
    ensures inside { (k : ℕ) → k < count → bit_of_word result k ≡ bit_of_word word k }
    ensures after { (k : ℕ) → count ≤ k → k < 64 → bit_of_word result k ≡ false }
{
    if count >= 64 {
        return word;
    }
    word & !(u64::MAX >> count)
}

/// The first place of a word at or after `from` whose bit isn't `bit`, or 64.
#[inline(always)]
pub(crate) fn first_in_word(word: u64, from: u32, bit: bool) -> u32
    requires { from < 64 }
    ensures { IsFirstInWord word from bit result }
{
    let turned = if bit { !word } else { word };
    (turned & (u64::MAX >> from)).leading_zeros()
}

/// The first place of 32 octets, from octet `at` on, whose bit isn't `bit`, or 256.
#[inline(always)]
fn first_in_block(octets: &[u8], at: usize, bit: bool) -> u32
    requires { at + 32 ≤ length octets.now }
    ensures { IsFirstOther octets.now (8 * at) (8 * at + 256) bit (8 * at + result) }
{
    match octets[at..].first_chunk::<32>() {
        Some(block) => block_change(block, Color::of_bit(bit)),
        None => unreachable!(),
    }
}

/// The first place of eight octets, from octet `at` on, whose bit isn't `bit`, or 64; past the octets the
/// bits are 0.
#[inline(always)]
fn first_in_eight(octets: &[u8], at: usize, bit: bool) -> u32
    requires { at ≤ length octets.now }
    ensures { IsFirstOther octets.now (8 * at) (8 * at + 64) bit (8 * at + result) }
{
    let word = octet_word(Order::MsbFirst, octets, at);
    first_in_word(word, 0, bit)
}

/// Looks through whole blocks of 32 octets, from an octet on, for the first place whose bit isn't `bit`.
/// Returns that place or the end; or, as `Err`, the octet after the blocks, if all their bits are `bit`.
#[inline(always)]
fn other_in_blocks(octets: &[u8], from: u32, end: u32, bit: bool) -> Result<u32, u32>
    requires order { 8 * from ≤ end }
    requires within { end ≤ 8 * length octets.now }
    requires small { end ≤ 2432 }
    ensures told { IfOk result (λ place. IsFirstOther octets.now (8 * from) end bit place) }
    ensures low { IfErr result (λ at. from ≤ at) }
    ensures high { IfErr result (λ at. 8 * at ≤ end) }
    ensures before { IfErr result (λ at. (k : ℕ) → 8 * from ≤ k → k < 8 * at → bit_in Order.MsbFirst octets.now k ≡ bit) }
{
    let mut at = from;
    while octets.len() - at as usize >= 32 {
        let place = first_in_block(octets, at as usize, bit);
        if place < 256 || 8 * at + 256 >= end {
            return Ok((8 * at + place).min(end));
        }
        at += 32;
    }
    Err(at)
}

/// The first place of octets, from an octet on, whose bit isn't `bit`, or the end; eight octets at a time.
#[inline(always)]
fn other_in_words(octets: &[u8], from: u32, end: u32, bit: bool) -> u32
    requires order { 8 * from ≤ end }
    requires within { end ≤ 8 * length octets.now }
    requires small { end ≤ 2432 }
    ensures { IsFirstOther octets.now (8 * from) end bit result }
{
    let mut at = from;
    while 8 * at < end {
        let place = first_in_eight(octets, at as usize, bit);
        if place < 64 {
            return (8 * at + place).min(end);
        }
        at += 8;
    }
    end
}

/// The first place of octets, from an octet on, whose bit isn't `bit`, or the end.
#[inline(always)]
fn other_after(octets: &[u8], from: u32, end: u32, bit: bool) -> u32
    requires order { 8 * from ≤ end }
    requires within { end ≤ 8 * length octets.now }
    requires small { end ≤ 2432 }
    ensures { IsFirstOther octets.now (8 * from) end bit result }
{
    match other_in_blocks(octets, from, end, bit) {
        Ok(place) => place,
        Err(at) => other_in_words(octets, at, end, bit),
    }
}

/// The first place of octets, from an octet on, whose bit isn't `bit`, or the end; with a loop for each bit.
fn first_other_after(octets: &[u8], from: u32, end: u32, bit: bool) -> u32
    requires order { 8 * from ≤ end }
    requires within { end ≤ 8 * length octets.now }
    requires small { end ≤ 2432 }
    ensures { IsFirstOther octets.now (8 * from) end bit result }
{
    if bit {
        return other_after(octets, from, end, true);
    }
    other_after(octets, from, end, false)
}

/// The first place of octets, from a place on, whose bit isn't `bit`, or the end.
pub(crate) fn first_other(octets: &[u8], from: u32, end: u32, bit: bool) -> u32
    requires order { from ≤ end }
    requires within { end ≤ 8 * length octets.now }
    requires small { end ≤ 2432 }
    ensures { IsFirstOther octets.now from end bit result }
{
    let word = octet_word(Order::MsbFirst, octets, (from / 8) as usize);
    let place = first_in_word(word, from % 8, bit);
    let base = from - from % 8;
    if place < 64 {
        return (base + place).min(end);
    }
    if base + 64 >= end {
        return end;
    }
    first_other_after(octets, from / 8 + 8, end, bit)
}

/// The word whose bits are all equal to `bit`.
#[inline(always)]
fn word_alike(bit: bool) -> u64
    ensures { (k : ℕ) → k < 64 → bit_of_word result k ≡ bit }
{
    if bit { u64::MAX } else { 0 }
}

/// Whether all bits of eight octets, from octet `at` on, are equal to `bit`.
#[inline(always)]
pub(crate) fn eight_are(octets: &[u8], at: usize, bit: bool) -> bool
    requires { at + 8 ≤ length octets.now }
    ensures { IsTrue result → (k : ℕ) → 8 * at ≤ k → k < 8 * at + 64 → bit_in Order.MsbFirst octets.now k ≡ bit }
{
    whole_word(octets, at) == word_alike(bit)
}

/// Whether all bits of 64 octets, from octet `at` on, are equal to `bit`.
#[inline(always)]
fn block_is(octets: &[u8], at: usize, bit: bool) -> bool
    requires { at + 64 ≤ length octets.now }
    ensures { IsTrue result → (k : ℕ) → 8 * at ≤ k → k < 8 * at + 512 → bit_in Order.MsbFirst octets.now k ≡ bit }
{
    let mut all = true;
    let mut next = 0;
    while next < 64 {
        all = all & eight_are(octets, at + next, bit);
        next += 8;
    }
    all
}

/// Whether the first bits of octets are all equal to `bit`: by whole blocks of 64 octets, the last of which
/// ends with the last whole octet.
#[inline(always)]
fn are_bits(octets: &[u8], count: u32, bit: bool) -> bool
    requires within { count ≤ 8 * length octets.now }
    requires small { count ≤ 2432 }
    ensures { IsTrue result → (k : ℕ) → k < count → bit_in Order.MsbFirst octets.now k ≡ bit }
{
    let whole = (count / 8) as usize;
    if whole < 64 {
        return first_other(octets, 0, count, bit) == count;
    }
    let mut at = 0;
    while at + 64 < whole {
        if !block_is(octets, at, bit) {
            return false;
        }
        at += 64;
    }
    block_is(octets, whole - 64, bit)
        && (count % 8 == 0 || first_other(octets, count - count % 8, count, bit) == count)
}

/// Returns `Some(b)` if the first `count` bits all equal b, except if b is 1 and the last octet is filled in
/// part.
pub(crate) fn bit_of_all(octets: &[u8], count: u32) -> Option<bool>
    requires some { 0 < count }
    requires within { count ≤ 8 * length octets.now }
    requires small { count ≤ 2432 }
    ensures alike { IfSome result (λ bit. AreAlike bit count) }
    ensures all { IfSome result (λ bit. (k : ℕ) → k < count → bit_in Order.MsbFirst octets.now k ≡ bit) }
{
    if octets[0] < 0x80 {
        return if are_bits(octets, count, false) {
            Some(false)
        } else {
            None
        };
    }
    if count % 8 == 0 && are_bits(octets, count, true) {
        Some(true)
    } else {
        None
    }
}
