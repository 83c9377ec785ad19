//! Writing of bits, and of runs and rows by their code words (ITU-T T.4, 4.1.1 and 4.1.2).

ghost use Rattle.raster.specs.Changes.{AreChanges};
ghost use Rattle.raster.specs.Pixels.{IsWidth};
ghost use Rattle.raster.specs.Packed.{bit_in, bits_of, FillsOctets};
ghost use Rattle.raster.specs.Words.{bit_of_word, number_bits};
ghost use Rattle.run_tables.specs.Codes.{run_words, text};
ghost use Rattle.run_tables.specs.Pending.{word_bits, IsClear, IsStored};
ghost use Rattle.run_tables.specs.Written.{Appends, AppendsRow, KeepsBits, MovesOctets, eol};
ghost use Rattle.raster.specs.declared.row.Color.{Color};
ghost use Rattle.std.specs.Prelude.{ℕ, List, ◌≡◌, ◌≤◌, ◌<◌, ◌+◌, ◌-◌, ◌*◌, ◌++◌, ◌∷◌, [], length};
ghost use Rattle.std.specs.Prelude.{slice_index_or, take, IfOk, OnOk, OnErr};

use crate::pair_words::pair_word;
use crate::write_table::run_word;
use raster::packed::{Order, word_at, word_octets};
use raster::{Color, Row, RowRef};
use std::alloc::{AllocError, Global};
use std::marker::Model;
use std::mem;

/// The place at an index, or the width if there is none.
fn place_at(places: &[u32], index: usize, width: u32) -> u32
    ensures { result ≡ slice_index_or places.now index width }
{
    if index < places.len() {
        places[index]
    } else {
        width
    }
}

/// Makes a list at least `room` places long; the new ones are 0.
fn list_room(list: &mut Vec<u32>, room: usize) -> Result<(), AllocError>
    ensures { OnOk result (room ≤ length list.new.items) }
{
    if list.len() < room {
        list.resize(room, 0)?;
    }
    Ok(())
}

/// Makes the list at least `needed` octets long; the new ones are 0.
#[cold]
fn grow(octets: &mut Vec<u8>, needed: usize) -> Result<(), AllocError>
    ensures room { OnOk result (needed ≤ length octets.new.items) }
    ensures same { (order : Order) (k : ℕ) → bit_in order octets.new.items k ≡ bit_in order octets.old.items k }
    ensures err { OnErr result (octets.new.items ≡ octets.old.items) }
{
    if octets.len() < needed {
        octets.resize(needed, 0)?;
    }
    Ok(())
}

/// Makes room for 16 octets after the first `at`.
#[inline(always)]
fn make_room(octets: &mut Vec<u8>, at: usize) -> Result<(), AllocError>
    requires { at ≤ length octets.old.items }
    ensures room { OnOk result (at + 16 ≤ length octets.new.items) }
    ensures same { (order : Order) (k : ℕ) → bit_in order octets.new.items k ≡ bit_in order octets.old.items k }
    ensures err { OnErr result (octets.new.items ≡ octets.old.items) }
{
    if octets.len() - at < 16 {
        grow(octets, at + 256)?;
    }
    Ok(())
}

/// Writes the bits of a word over eight octets, from octet `at` on.
#[inline(always)]
fn put_word(order: Order, octets: &mut Vec<u8>, at: usize, word: u64)
    requires { at + 8 ≤ length octets.old.items }
    ensures { IsStored order octets.old.items octets.new.items at word }
{
    octets[at..at + 8].copy_from_slice(&word_octets(order, word));
}

/// The word's first `count` bits, followed by 0 bits.
fn first_of(word: u64, count: u32) -> u64
    requires { count < 64 }
    ensures same { (k : ℕ) → k < count → bit_of_word result k ≡ bit_of_word word k }
    ensures clear { IsClear count result }
{
    word >> 1 >> (63 - count) << (63 - count) << 1
}

/// Where the word of a writer of `bits` bits begins, at octet `at` or before it, and how many bits the word
/// then holds.
fn last_place(at: usize, bits: u128) -> (usize, u32)
    requires { bits < 8 * at + 64 }
    ensures place { 8 * result.0 + result.1 ≡ bits }
    ensures low { result.0 ≤ at }
    ensures few { result.1 < 64 }
{
    let first = (bits / 8).min(at as u128) as usize;
    (first, (bits - 8 * first as u128) as u32)
}

/// A list of bits that grows at its end, and the order in which octets will hold them. The last bits wait in
/// a word until there are 64.
#[derive(Debug, Drop)]
pub struct BitWriter {
    octets: Vec<u8>,
    order: Order,
    at: usize,
    word: u64,
    filled: u32,
    limit: u32,
}

impl Model for BitWriter {
    ghost use Rattle.raster.specs.Packed.{Bits};
    ghost use Rattle.run_tables.specs.Pending.{held, IsPending};

    ghost Value = { Bits };

    ghost view = { λ w. record { order = w.order; bits = held w.order w.octets.items w.at w.word w.filled } };

    ghost invariant = { λ w. IsPending w.octets.items w.at w.word w.filled w.limit };
}

impl BitWriter {
    /// Makes a writer without bits.
    #[tactic(auto, using(crate::proofs::PendingLemmas::views))]
    pub fn new(alloc: Global, order: Order) -> Self
        ensures { result ≡ record { order = order; bits = [] } }
    {
        BitWriter {
            octets: Vec::new(alloc),
            order,
            at: 0,
            word: 0,
            filled: 0,
            limit: 0,
        }
    }

    /// Takes over the octets of a list, which then has none, and goes on after their bits. Errs if memory is
    /// refused, which changes nothing.
    pub fn after(alloc: Global, octets: &mut Vec<u8>, order: Order) -> Result<BitWriter, AllocError>
        ensures ok { IfOk result (λ writer. writer ≡ record { order = order; bits = bits_of order octets.old.items }) }
        ensures taken { OnOk result (octets.new.items ≡ []) }
        ensures err { OnErr result (octets.new.items ≡ octets.old.items) }
    {
        let at = octets.len();
        make_room(octets, at)?;
        Ok(BitWriter {
            octets: mem::replace(octets, Vec::new(alloc)),
            order,
            at,
            word: 0,
            filled: 0,
            limit: 64,
        })
    }

    /// The number of bits so far.
    #[tactic(auto, using(crate::proofs::PendingLemmas::views))]
    pub fn bits(&self) -> u128
        ensures { result ≡ length self.now.bits }
    {
        8 * self.at as u128 + self.filled as u128
    }

    /// Appends the first bits of a word for which the pending word may have no room.
    #[inline(never)]
    fn push_full(&mut self, all: u64, count: u32) -> Result<(), AllocError>
        requires few { count ≤ 32 }
        requires clear { IsClear count all }
        ensures ok { OnOk result (Appends (word_bits count all) self.old self.new) }
        ensures err { OnErr result (self.new ≡ self.old) }
    {
        make_room(&mut self.octets, self.at)?;
        self.limit = 64;
        let word = self.word | all >> self.filled;
        let filled = self.filled + count;
        if filled < 64 {
            self.word = word;
            self.filled = filled;
            return Ok(());
        }
        put_word(self.order, &mut self.octets, self.at, word);
        self.at += 8;
        self.word = all << (64 - self.filled);
        self.filled = filled - 64;
        Ok(())
    }

    /// Appends a bit. Errs if memory is refused, which changes nothing.
    pub fn push(&mut self, bit: bool) -> Result<(), AllocError>
        ensures ok { OnOk result (Appends (bit ∷ []) self.old self.new) }
        ensures err { OnErr result (self.new ≡ self.old) }
    {
        self.push_bits(bit as u32, 1)
    }

    /// Appends the lowest `count` bits of a number, at most 32, the most significant of them first. Errs if
    /// memory is refused, which changes nothing.
    #[inline(always)]
    pub fn push_bits(&mut self, value: u32, count: u32) -> Result<(), AllocError>
        requires { count ≤ 32 }
        ensures ok { OnOk result (Appends (number_bits count value) self.old self.new) }
        ensures err { OnErr result (self.new ≡ self.old) }
    {
        let all = (value as u64) << 32 << (32 - count);
        let filled = self.filled + count;
        if filled >= self.limit {
            return self.push_full(all, count);
        }
        self.word |= all >> self.filled;
        self.filled = filled;
        Ok(())
    }

    /// Keeps the first `bits` bits and drops the others.
    pub fn truncate(&mut self, bits: u128)
        requires { bits ≤ length self.old.bits }
        ensures { self.new ≡ record self.old { bits = take bits self.old.bits } }
    {
        if self.limit == 0 {
            return; // there are no bits
        }
        put_word(self.order, &mut self.octets, self.at, self.word);
        let (at, filled) = last_place(self.at, bits);
        let word = word_at(self.order, &self.octets, 8 * at as u128);
        self.word = first_of(word, filled);
        self.at = at;
        self.filled = filled;
    }

    /// Moves the whole octets to the end of a list. The last bits, fewer than eight, stay, and the writer
    /// goes on after them in the memory that it has. Errs if memory is refused, which changes nothing.
    pub fn move_octets(&mut self, out: &mut Vec<u8>) -> Result<(), AllocError>
        ensures ok { OnOk result (MovesOctets out.old.items out.new.items self.old self.new) }
        ensures err { OnErr result (out.new.items ≡ out.old.items) }
        ensures kept { OnErr result (self.new ≡ self.old) }
    {
        if self.limit == 0 {
            return Ok(()); // there are no bits
        }
        put_word(self.order, &mut self.octets, self.at, self.word);
        let whole = self.at + (self.filled / 8) as usize;
        out.extend_from_slice(&self.octets[..whole])?;
        let left = self.filled % 8;
        self.word <<= self.filled - left;
        self.filled = left;
        self.at = 0;
        Ok(())
    }

    /// Returns the octets that hold the bits, eight an octet, the last octet filled with 0 bits.
    pub fn into_octets(self) -> Vec<u8>
        ensures { FillsOctets self.order self.bits result.items }
    {
        let BitWriter {
            mut octets,
            order,
            at,
            word,
            filled,
            limit,
        } = self;
        if limit == 0 {
            octets.clear();
            return octets;
        }
        put_word(order, &mut octets, at, word);
        octets.truncate(at + ((filled + 7) / 8) as usize);
        octets
    }

    /// Appends the bits that the digits `0` and `1` write. Errs if memory is refused, which changes nothing.
    pub fn push_digits(&mut self, digits: &[u8]) -> Result<(), AllocError>
        ensures ok { OnOk result (Appends (text digits.now) self.old self.new) }
        ensures err { OnErr result (self.new ≡ self.old) }
    {
        let start = self.bits();
        for digit in digits {
            if let Err(refused) = self.push(*digit == b'1') {
                self.truncate(start);
                return Err(refused);
            }
        }
        Ok(())
    }

    /// Appends the code words of a run of up to 2,623 pixels: the terminating code of a run up to 63, else a
    /// make-up code and the terminating code of the rest (ITU-T T.4, 4.1.1). Errs if memory is refused, which
    /// changes nothing.
    pub fn write_run(&mut self, color: Color, run: u32) -> Result<(), AllocError>
        requires { run ≤ 2623 }
        ensures ok { OnOk result (Appends (run_words color run) self.old self.new) }
        ensures err { OnErr result (self.new ≡ self.old) }
    {
        let (value, count) = run_word(color, run);
        self.push_bits(value, count)
    }

    /// Appends the code words of a black run and the white one after it, each of up to 2,623 pixels: at once where both are below
    /// 64. After an error those of the first may be appended.
    #[inline(always)]
    fn write_two(&mut self, black: u32, white: u32) -> Result<(), AllocError>
        requires black { black ≤ 2623 }
        requires white { white ≤ 2623 }
        ensures ok { OnOk result (Appends (run_words Color.Black black ++ run_words Color.White white) self.old self.new) }
        ensures err { OnErr result (KeepsBits self.old self.new) }
    {
        if black < 64 && white < 64 {
            let both = pair_word(black, white);
            return self.push_bits(both.value(), both.length());
        }
        self.write_run(Color::Black, black)?;
        self.write_run(Color::White, white)
    }

    /// Appends an EOL: eleven 0 bits and a 1 (ITU-T T.4, 4.1.2). Errs if memory is refused, which changes
    /// nothing.
    pub fn write_eol(&mut self) -> Result<(), AllocError>
        ensures ok { OnOk result (Appends eol self.old self.new) }
        ensures err { OnErr result (self.new ≡ self.old) }
    {
        self.push_bits(1, 12)
    }

    /// Appends the code words of the runs that end at a row's changing positions and at its width, white
    /// first. After an error some of them are appended.
    #[inline(always)]
    fn write_runs(&mut self, places: &[u32], width: u32) -> Result<(), AllocError>
        requires wide { IsWidth width }
        requires places { (row : List Color) × AreChanges row places.now × (length row ≡ width) }
        ensures ok { OnOk result ((row : List Color) → AreChanges row places.now → length row ≡ width → AppendsRow row self.old self.new) }
        ensures err { OnErr result (KeepsBits self.old self.new) }
    {
        let last = places.len().saturating_sub(1);
        let mut at = place_at(places, 0, width);
        self.write_run(Color::White, at)?;
        let mut index = 1;
        while index < last {
            let black = places[index];
            let next = places[index + 1];
            self.write_two(black - at, next - black)?;
            at = next;
            index += 2;
        }
        if index < places.len() {
            let black = places[index];
            self.write_run(Color::Black, black - at)?;
            return self.write_run(Color::White, width - black);
        }
        if at < width {
            self.write_run(Color::Black, width - at)?;
        }
        Ok(())
    }

    /// Appends the code words of the row's own runs, white first (ITU-T T.4, 4.1.1). Errs if memory is
    /// refused, which changes nothing.
    pub fn write_row_1d(&mut self, alloc: Global, row: &Row) -> Result<(), AllocError>
        ensures ok { OnOk result (AppendsRow row.now self.old self.new) }
        ensures err { OnErr result (self.new ≡ self.old) }
    {
        let mut changes = Vec::new(alloc);
        self.write_row_1d_in(&row.lent(), &mut changes)
    }

    /// As `write_row_1d`, in the memory of a list, to write many rows one after the other. What is in the
    /// list doesn't matter, before or after.
    pub fn write_row_1d_in(
        &mut self,
        row: &RowRef<'_>,
        changes: &mut Vec<u32>,
    ) -> Result<(), AllocError>
        ensures ok { OnOk result (AppendsRow row.now self.old self.new) }
        ensures err { OnErr result (self.new ≡ self.old) }
    {
        let start = self.bits();
        let width = row.width();
        list_room(changes, width as usize + 64)?;
        let count = row.put_changes(changes);
        if let Err(refused) = self.write_runs(&changes[..count], width) {
            self.truncate(start);
            return Err(refused);
        }
        Ok(())
    }
}
