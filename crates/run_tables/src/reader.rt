//! Reading of bits, and of run codes among them (ITU-T T.4, 4.1.1).

ghost use Rattle.raster.specs.Packed.{bits_of};
ghost use Rattle.raster.specs.Words.{number_bits};
ghost use Rattle.run_tables.specs.CodeReading.{PicksCode, ReadsCode, ReadsRun, ReadsRunCode, ReadsRunWithin, ReadsTwoRuns, count_among, first_runs};
ghost use Rattle.run_tables.specs.CodeReading.{kind_among, runs_among};
ghost use Rattle.run_tables.specs.Codes.{code_word, text};
ghost use Rattle.run_tables.specs.Numbers.{AreFirst, IsFirst64, first_bits, number_text};
ghost use Rattle.run_tables.specs.ReadTables.{entry_for, unpacked};
ghost use Rattle.run_tables.specs.Reading.{rest_of};
ghost use Rattle.run_tables.specs.Texts.{begins, is_cut, pick};
ghost use Rattle.std.specs.Bool.{OnFalse, OnTrue};
ghost use Rattle.std.specs.Prelude.{None, Ok, OnSome, Some, IfNone, IfSome, if◌then◌else◌, is_some, length, slice_get};
ghost use Rattle.std.specs.Prelude.{◌*◌, ◌+◌, ◌^◌, ◌/◌, ◌<◌, ◌≡◌, ◌≤◌, true};

use crate::fault::{CodeFault, CodeFaultKind};
use crate::read_table::{TableEntry, entry};
use crate::table::code_at;
use crate::window::Window;
use raster::Color;
use raster::packed::{Order, bit_of, word_at, word_of_eight};
use std::marker::Model;

/// Which codes of a color are valid at a place.
#[derive(Clone, Copy, Debug, PartialEq, Eq)]
pub enum Among {
    /// All 104 codes.
    AllCodes,
    /// Only the 64 terminating codes, as after a make-up code.
    TerminatingCodes,
}

impl Among {
    /// How many codes these are: the first ones of a color's table.
    fn count(self) -> usize
        ensures count { result ≡ count_among self }
        ensures within { result ≤ 104 }
    {
        match self {
            Among::AllCodes => 104,
            Among::TerminatingCodes => 64,
        }
    }
}

/// A run code (ITU-T T.4, 4.1.1).
#[derive(Clone, Copy, Debug, PartialEq, Eq)]
pub enum RunCode {
    /// A make-up code: a multiple of 64 pixels, 64 to 2,560, with a terminating code to follow.
    MakeUp(u32),
    /// A terminating code: 0 to 63 pixels.
    Terminating(u32),
}

/// The run and the length of the code word of a color that begins the 64 bits of a number; none if no code word
/// does.
#[inline(always)]
pub(crate) fn code_in(color: Color, word: u64) -> Option<TableEntry>
    ensures code { IfSome result (λ code. unpacked code.packed ≡ entry_for color (number_text 13 (word / 2 ^ 51))) }
    ensures some { IfSome result (λ code. 0 < (unpacked code.packed).1) }
    ensures length { IfSome result (λ code. (unpacked code.packed).1 ≤ 13) }
{
    entry(color, (word >> 51) as u32)
}

/// Reads the bits of octets one after the other, in either order.
#[derive(Debug, Drop)]
pub struct BitReader<'a> {
    octets: &'a [u8],
    order: Order,
    /// The octet of the next bit, and the bit's place in it.
    at: usize,
    within: u32,
}

impl<'a> Model for BitReader<'a> {
    ghost use Rattle.std.specs.Prelude.{◌≤◌, ◌<◌, ◌+◌, ◌*◌, length};
    ghost use Rattle.raster.specs.Packed.{bits_of};
    ghost use Rattle.run_tables.specs.Reading.{Reading};

    ghost Value = { Reading };

    ghost view = { λ reader. record { bits = bits_of reader.order reader.octets.now; place = 8 * reader.at + reader.within } };

    ghost invariant = { λ reader. record {
      place : 8 * reader.at + reader.within ≤ 8 * length reader.octets.now;
      bit : reader.within < 8;
    } };
}

impl<'a> BitReader<'a> {
    /// Makes a reader of the octets' bits, eight an octet, at a place from 0.
    pub fn at(octets: &'a [u8], order: Order, place: u128) -> Self
        requires { place ≤ 8 * length octets.now }
        ensures { result ≡ record { bits = bits_of order octets.now; place = place } }
    {
        BitReader {
            octets,
            order,
            at: (place / 8) as usize,
            within: (place % 8) as u32,
        }
    }

    /// The place of the next bit, from 0.
    #[tactic(auto, using(raster::proofs::PackedLemmas::views))]
    pub fn place(&self) -> u128
        ensures place { result ≡ self.now.place }
        ensures within { result ≤ length self.now.bits }
    {
        8 * self.at as u128 + self.within as u128
    }

    /// A second reader of the same bits, at the same place, to look ahead.
    pub fn look_ahead(&self) -> BitReader<'a>
        ensures { result ≡ self.now }
    {
        BitReader {
            octets: self.octets,
            order: self.order,
            at: self.at,
            within: self.within,
        }
    }

    /// The bit `by` places ahead; none past the end.
    #[tactic(auto, using(raster::proofs::PackedLemmas::views))]
    pub fn ahead(&self, by: usize) -> Option<bool>
        ensures bit { result ≡ slice_get self.now.bits (self.now.place + by) }
        ensures within { OnSome result (self.now.place + by < length self.now.bits) }
        ensures past { IfNone result (length self.now.bits ≤ self.now.place + by) }
    {
        let bit = self.within + (by % 8) as u32;
        let further = by / 8 + (bit / 8) as usize;
        if further < self.octets.len() - self.at {
            let place = 8 * (self.at + further) as u128 + (bit % 8) as u128;
            Some(bit_of(self.order, self.octets, place))
        } else {
            None
        }
    }

    /// Reads the next bit; none at the end.
    #[tactic(auto, using(raster::proofs::PackedLemmas::views))]
    pub fn bit(&mut self) -> Option<bool>
        ensures bit { result ≡ slice_get self.old.bits self.old.place }
        ensures after { self.new ≡ record self.old { place = self.old.place + (if is_some result then 1 else 0) } }
    {
        let bit = self.ahead(0)?;
        self.skip(1);
        Some(bit)
    }

    /// Goes on by `count` bits.
    #[tactic(auto, using(raster::proofs::PackedLemmas::views))]
    pub fn skip(&mut self, count: usize)
        requires { self.old.place + count ≤ length self.old.bits }
        ensures { self.new ≡ record self.old { place = self.old.place + count } }
    {
        let bit = self.within + (count % 8) as u32;
        self.at += count / 8 + (bit / 8) as usize;
        self.within = bit % 8;
    }

    /// Whether the bits that are left are the beginning of what the digits `0` and `1` write, or all of it.
    pub fn is_cut_of(&self, digits: &[u8]) -> bool
        ensures { result ≡ begins (rest_of self.now) (text digits.now) }
    {
        for (by, digit) in digits.iter().enumerate() {
            let Some(bit) = self.ahead(by) else {
                return true;
            };
            if (*digit == b'1') != bit {
                return false;
            }
        }
        self.ahead(digits.len()).is_none()
    }

    /// Whether `count` bits are left, at most 256.
    #[tactic(auto, using(raster::proofs::PackedLemmas::views))]
    fn has(&self, count: u32) -> bool
        requires { count ≤ 256 }
        ensures yes { OnTrue result (count ≤ length (rest_of self.now)) }
        ensures no { OnFalse result (length (rest_of self.now) < count) }
    {
        ((self.within + count + 7) / 8) as usize <= self.octets.len() - self.at
    }

    /// Whether 57 bits are left: true if eight octets are, the next bit's octet included.
    #[inline(always)]
    #[tactic(auto, using(raster::proofs::PackedLemmas::views))]
    pub fn has_57(&self) -> bool
        ensures yes { OnTrue result (57 ≤ length (rest_of self.now)) }
        ensures no { OnFalse result (length (rest_of self.now) < 57) }
    {
        self.octets.len() - self.at >= 8
    }

    /// Goes on by `count` bits, at most 64.
    #[inline(always)]
    #[tactic(auto, using(raster::proofs::PackedLemmas::views))]
    pub fn step(&mut self, count: u32)
        requires few { count ≤ 64 }
        requires fits { self.old.place + count ≤ length self.old.bits }
        ensures { self.new ≡ record self.old { place = self.old.place + count } }
    {
        let bit = self.within + count;
        self.at += (bit / 8) as usize;
        self.within = bit % 8;
    }

    /// The next 64 bits as a number, the first the most significant; past the end they are 0.
    #[cold]
    fn peek(&self) -> u64
        ensures { IsFirst64 (rest_of self.now) result }
    {
        let place = 8 * self.at as u128 + self.within as u128;
        word_at(self.order, self.octets, place)
    }

    /// The next 57 bits as the first bits of a number of 64, the first the most significant; past the end
    /// they are 0.
    #[inline(always)]
    pub fn peek_57(&self) -> u64
        ensures { AreFirst 57 (rest_of self.now) result }
    {
        if self.octets.len() - self.at < 8 {
            return self.peek();
        }
        word_of_eight(self.order, self.octets, self.at, self.within)
    }

    /// Whether the lowest `count` bits of a number, 1 to 32, the most significant of them first, begin the
    /// bits that are left. The number must have no other bits.
    pub fn starts_with(&self, value: u32, count: u32) -> bool
        requires some { 0 < count }
        requires most { count ≤ 32 }
        requires small { value < 2 ^ count }
        ensures { result ≡ begins (number_bits count value) (rest_of self.now) }
    {
        let fits = self.has(count);
        if !fits {
            return false;
        }
        self.peek_57() >> (64 - count) == value as u64
    }

    /// The next 13 bits as a number; past the end they are 0.
    fn next_13(&self) -> u32
        ensures below { result < 2 ^ 13 }
        ensures bits { number_text 13 result ≡ first_bits 13 (rest_of self.now) }
    {
        (self.peek_57() >> 51) as u32
    }

    /// The valid code that begins the bits that are left: its run, and its code word's length.
    #[inline(always)]
    fn find_code(&self, color: Color, among: Among) -> Option<(u32, usize)>
        ensures found { IfSome result (λ code. pick (code_word color) (runs_among among) (rest_of self.now) ≡ Some code.0) }
        ensures length { IfSome result (λ code. code.1 ≡ length (code_word color code.0)) }
        ensures fits { IfSome result (λ code. self.now.place + code.1 ≤ length self.now.bits) }
        ensures none { IfNone result (pick (code_word color) (runs_among among) (rest_of self.now) ≡ None) }
    {
        let Some(code) = entry(color, self.next_13()) else {
            return None;
        };
        let (run, length) = (code.run(), code.bits());
        let fits = self.has(length);
        if !fits {
            return None;
        }
        let code = (run, length as usize);
        match among {
            Among::AllCodes => Some(code),
            // after a make-up code only a terminating code is valid: seven 0 bits there are `BadCode`, at a run's
            // beginning they are `Truncated`, the beginning of a make-up code
            Among::TerminatingCodes => { if run >= 64 { None } else { Some(code) } }
        }
    }

    /// Whether the bits that are left are the beginning of one of the first `count` codes of a color's table.
    fn is_cut_code(&self, color: Color, count: usize) -> bool
        requires { count ≤ 104 }
        ensures { result ≡ is_cut (code_word color) (first_runs count) (rest_of self.now) }
    {
        for at in 0..count {
            let code = code_at(color, at);
            if self.is_cut_of(code.1) {
                return true;
            }
        }
        false
    }

    /// The refusal if no valid code begins the bits that are left.
    #[cold]
    fn refusal(&self, color: Color, among: Among) -> CodeFault
        ensures { result ≡ record { place = self.now.place; kind = kind_among color among (rest_of self.now) } }
    {
        // by the valid codes alone, whatever the width: the width is checked once a whole code is there
        let kind = if self.is_cut_among(color, among) {
            CodeFaultKind::Truncated
        } else {
            CodeFaultKind::BadCode
        };
        CodeFault::new(self.place(), kind)
    }

    /// Whether the bits that are left are the beginning of one of the valid codes.
    fn is_cut_among(&self, color: Color, among: Among) -> bool
        ensures { result ≡ is_cut (code_word color) (runs_among among) (rest_of self.now) }
    {
        // all codes are shorter, and most beginnings of a code are found in the table with 0 bits after them
        let long = self.has(14);
        if long {
            return false;
        }
        if self.begins_entry(color, among) {
            return true;
        }
        self.is_cut_code(color, among.count())
    }

    /// Whether the bits that are left, which are fewer than a valid code that the table has for them with 0 bits after them, begin that
    /// code.
    fn begins_entry(&self, color: Color, among: Among) -> bool
        ensures { OnTrue result
            (is_cut (code_word color) (runs_among among) (rest_of self.now) ≡ true) }
    {
        let Some(code) = entry(color, self.next_13()) else {
            return false;
        };
        let run = code.run();
        let whole = self.has(code.bits());
        if whole {
            return false;
        }
        match among {
            Among::AllCodes => true,
            Among::TerminatingCodes => run < 64,
        }
    }

    /// Reads the next code among the valid ones (ITU-T T.4, 4.1.1) and returns its run in pixels. Errs if no
    /// valid code begins the bits that are left: with `Truncated` if they are the beginning of one, also if
    /// no bit is left, else with `BadCode`. An error changes nothing.
    #[inline(always)]
    fn next_code(&mut self, color: Color, among: Among) -> Result<u32, CodeFault>
        ensures reads { ReadsCode color among self.old self.new result }
        ensures picks { PicksCode color among self.old self.new result }
    {
        let Some((run, length)) = self.find_code(color, among) else {
            return Err(self.refusal(color, among));
        };
        self.skip(length);
        Ok(run)
    }

    /// Reads the next run code of a color (ITU-T T.4, 4.1.1). Errs at the reader's place if none of the 104
    /// codes begins the bits that are left: with `Truncated` (11) if they are the beginning of one, also if
    /// no bit is left, else with `BadCode` (10). An error changes nothing.
    pub fn read_code(&mut self, color: Color) -> Result<RunCode, CodeFault>
        ensures { ReadsRunCode color self.old self.new result }
    {
        let run = self.next_code(color, Among::AllCodes)?;
        if run < 64 {
            Ok(RunCode::Terminating(run))
        } else {
            Ok(RunCode::MakeUp(run))
        }
    }

    /// Reads the next run of a color and returns its pixels, 0 to 2,623: one terminating code, or one make-up
    /// code and a terminating code (ITU-T T.4, 4.1.1). Errs as `read_code` does if no code is there; and
    /// after a make-up code, at the bit after it, if no terminating code is there: with `Truncated` (11) if
    /// the bits that are left are the beginning of one, also if no bit is left, else with `BadCode` (10). An
    /// error changes nothing.
    pub fn read_run(&mut self, color: Color) -> Result<u32, CodeFault>
        ensures { ReadsRun color self.old self.new result }
    {
        let mut ahead = self.look_ahead();
        let high = ahead.next_code(color, Among::AllCodes)?;
        if high < 64 {
            *self = ahead;
            return Ok(high);
        }
        let low = ahead.next_code(color, Among::TerminatingCodes)?;
        *self = ahead;
        Ok(high + low)
    }

    /// A run of a color, of at most `room` pixels, if the next 57 bits hold it whole. Else none, and nothing
    /// changed.
    #[inline(always)]
    fn quick_run(&mut self, color: Color, room: u32) -> Option<u32>
        ensures some { IfSome result (λ run. (past : CodeFaultKind) → ReadsRunWithin color room past self.old self.new (Ok run)) }
        ensures most { IfSome result (λ run. run ≤ room) }
        ensures none { IfNone result (self.new ≡ self.old) }
    {
        let mut window = Window::at(self.look_ahead())?;
        let run = window.run(color, room)?;
        *self = window.into_reader();
        Some(run)
    }

    /// Reads two runs, the first of a color and the second of the other one, together of at most `room`
    /// pixels, if the next 57 bits hold both whole after `flag` bits, at most 7, which are skipped (ITU-T T.6,
    /// 2.2.2). Else none, and nothing changed. Flag and runs come from one word.
    #[inline(always)]
    pub fn quick_two_runs_after(&mut self, flag: u32, color: Color, room: u32) -> Option<(u32, u32)>
        requires { flag ≤ 7 }
        ensures some { IfSome result (λ runs. (past : CodeFaultKind)
            → ReadsTwoRuns color room past (record self.old { place = self.old.place + flag }) self.new runs.0 runs.1) }
        ensures most { IfSome result (λ runs. runs.0 + runs.1 ≤ room) }
        ensures none { IfNone result (self.new ≡ self.old) }
    {
        let mut window = Window::at(self.look_ahead())?;
        window.pass(flag);
        // a color that is known as the code is made takes one table, without a choice at each code
        let runs = match color {
            Color::White => window.white_and_black(room)?,
            Color::Black => window.two_runs(Color::Black, Color::White, room)?,
        };
        *self = window.into_reader();
        Some(runs)
    }

    /// `read_run_within` code by code.
    #[cold]
    pub(crate) fn read_run_by_codes(
        &mut self,
        color: Color,
        room: u32,
        past: CodeFaultKind,
    ) -> Result<u32, CodeFault>
        ensures { ReadsRunWithin color room past self.old self.new result }
    {
        let first = self.place();
        let high = self.next_code(color, Among::AllCodes)?;
        if high > room {
            return Err(CodeFault::new(first, past));
        }
        if high < 64 {
            return Ok(high);
        }
        let second = self.place();
        let low = self.next_code(color, Among::TerminatingCodes)?;
        if low > room - high {
            return Err(CodeFault::new(second, past));
        }
        Ok(high + low)
    }

    /// Reads the next run of a color, of at most `room` pixels, as `read_run` does; a code that takes the run
    /// past the room is refused where it begins, with the kind `past`. After an error the reader is somewhere
    /// in the run.
    #[inline(always)]
    pub fn read_run_within(
        &mut self,
        color: Color,
        room: u32,
        past: CodeFaultKind,
    ) -> Result<u32, CodeFault>
        ensures { ReadsRunWithin color room past self.old self.new result }
    {
        match self.quick_run(color, room) {
            Some(run) => Ok(run),
            None => self.read_run_by_codes(color, room, past),
        }
    }
}
