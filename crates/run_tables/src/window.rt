//! Reading of run codes from a word that is held: several of them with one load (ITU-T T.4, 4.1.1).

ghost use Rattle.raster.specs.Pixels.{other};
ghost use Rattle.run_tables.specs.CodeReading.{ReadsRunWithin, ReadsTwoRuns};
ghost use Rattle.run_tables.specs.ReadTables.{pair_black, pair_white};
ghost use Rattle.run_tables.specs.Reading.{Reading, rest_of};
ghost use Rattle.run_tables.specs.Windows.{IsWindow, passed};
ghost use Rattle.run_tables.specs.declared.fault.CodeFaultKind.{CodeFaultKind};
ghost use Rattle.std.specs.Bool.{OnTrue};
ghost use Rattle.std.specs.Prelude.{◌≡◌, ◌≤◌, ◌<◌, ◌+◌, IfNone, IfSome, Ok};

use crate::pair_table::{RunPair, pair_in};
use crate::reader::{BitReader, code_in};
use raster::Color;

/// The next 57 bits of a reader: the number of them that are used, and the others as the first bits of a
/// word.
#[derive(Drop)]
pub(crate) struct Window<'a> {
    reader: BitReader<'a>,
    used: u32,
    word: u64,
}

impl<'a> Window<'a> {
    /// The window at a reader's place; none if fewer than 57 bits are left.
    #[inline(always)]
    pub(crate) fn at(reader: BitReader<'a>) -> Option<Self>
        ensures window { IfSome result (λ window. IsWindow window.reader window.used window.word) }
        ensures place { IfSome result (λ window. passed window.reader window.used ≡ reader.entry) }
        ensures begun { IfSome result (λ window. window.used ≡ 0) }
    {
        let enough = reader.has_57();
        if !enough {
            return None;
        }
        let word = reader.peek_57();
        Some(Window {
            reader,
            used: 0,
            word,
        })
    }

    /// The reader after the used bits.
    #[inline(always)]
    pub(crate) fn into_reader(self) -> BitReader<'a>
        requires { IsWindow self.reader self.used self.word }
        ensures { result ≡ passed self.entry.reader self.entry.used }
    {
        let mut reader = self.reader;
        reader.step(self.used);
        reader
    }

    /// Whether the window holds `count` bits; if it doesn't, it is moved on first.
    #[inline(always)]
    fn holds(&mut self, count: u32) -> bool
        requires window { IsWindow self.old.reader self.old.used self.old.word }
        requires few { count ≤ 57 }
        ensures window { IsWindow self.new.reader self.new.used self.new.word }
        ensures place { passed self.new.reader self.new.used ≡ passed self.old.reader self.old.used }
        ensures enough { OnTrue result (self.new.used + count ≤ 57) }
    {
        if self.used + count <= 57 {
            return true;
        }
        let mut reader = self.reader.look_ahead();
        reader.step(self.used);
        let enough = reader.has_57();
        if !enough {
            return false;
        }
        self.word = reader.peek_57();
        self.reader = reader;
        self.used = 0;
        true
    }

    /// Goes on by `count` bits.
    #[inline(always)]
    pub(crate) fn pass(&mut self, count: u32)
        requires window { IsWindow self.old.reader self.old.used self.old.word }
        requires held { self.old.used + count ≤ 57 }
        ensures window { IsWindow self.new.reader self.new.used self.new.word }
        ensures place { passed self.new.reader self.new.used ≡ passed self.old.reader (self.old.used + count) }
    {
        self.word = self.word << count;
        self.used += count;
    }

    /// The next run of a color, of at most `room` pixels, if 57 bits hold it whole. Else none, and the window
    /// is at the same place.
    #[inline(always)]
    pub(crate) fn run(&mut self, color: Color, room: u32) -> Option<u32>
        requires { IsWindow self.old.reader self.old.used self.old.word }
        ensures window { IsWindow self.new.reader self.new.used self.new.word }
        ensures some { IfSome result (λ run. (past : CodeFaultKind)
            → ReadsRunWithin color room past (passed self.old.reader self.old.used) (passed self.new.reader self.new.used) (Ok run)) }
        ensures most { IfSome result (λ run. run ≤ room) }
        ensures none { IfNone result (passed self.new.reader self.new.used ≡ passed self.old.reader self.old.used) }
    {
        let first = self.holds(13);
        if !first {
            return None;
        }
        let first = code_in(color, self.word)?;
        let high = first.run();
        let bits = first.bits();
        if high > room {
            return None;
        }
        if high < 64 {
            self.pass(bits);
            return Some(high);
        }
        let both = self.holds(26);
        if !both {
            return None;
        }
        let second = code_in(color, self.word << bits)?;
        let low = second.run();
        let more = second.bits();
        if low >= 64 || high + low > room {
            return None;
        }
        self.pass(bits + more);
        Some(high + low)
    }

    /// The next white run and the black one after it, if both are below 64 pixels, their code words have at most 12
    /// bits together, and they are of at most `room` pixels together. Else none, and the window is at the same
    /// place.
    #[inline(always)]
    pub(crate) fn pair(&mut self, room: u32) -> Option<RunPair>
        requires { IsWindow self.old.reader self.old.used self.old.word }
        ensures window { IsWindow self.new.reader self.new.used self.new.word }
        ensures reads { IfSome result (λ pair. (past : CodeFaultKind) → ReadsTwoRuns Color.White room past
            (passed self.old.reader self.old.used) (passed self.new.reader self.new.used) (pair_white pair.packed) (pair_black pair.packed)) }
        ensures some { IfSome result (λ pair. 0 < pair_black pair.packed) }
        ensures most { IfSome result (λ pair. pair_white pair.packed + pair_black pair.packed ≤ room) }
        ensures none { IfNone result (passed self.new.reader self.new.used ≡ passed self.old.reader self.old.used) }
    {
        let held = self.holds(13);
        if !held {
            return None;
        }
        let pair = pair_in(self.word, room)?;
        self.pass(pair.bits());
        Some(pair)
    }

    /// The next white run and the black one after it, together of at most `room` pixels: by one entry, or as
    /// `two_runs`.
    #[inline(always)]
    pub(crate) fn white_and_black(&mut self, room: u32) -> Option<(u32, u32)>
        requires { IsWindow self.old.reader self.old.used self.old.word }
        ensures window { IsWindow self.new.reader self.new.used self.new.word }
        ensures some { IfSome result (λ runs. (past : CodeFaultKind) → ReadsTwoRuns Color.White room past
            (passed self.old.reader self.old.used) (passed self.new.reader self.new.used) runs.0 runs.1) }
        ensures most { IfSome result (λ runs. runs.0 + runs.1 ≤ room) }
    {
        if let Some(pair) = self.pair(room) {
            return Some((pair.white(), pair.black()));
        }
        self.two_runs(Color::White, Color::Black, room)
    }

    /// The next run of a color and that of the other one after it, together of at most `room` pixels, as `run`.
    /// Else none, and the window is somewhere in them.
    #[inline(always)]
    pub(crate) fn two_runs(&mut self, color: Color, next: Color, room: u32) -> Option<(u32, u32)>
        requires window { IsWindow self.old.reader self.old.used self.old.word }
        requires other { next ≡ other color }
        ensures window { IsWindow self.new.reader self.new.used self.new.word }
        ensures some { IfSome result (λ runs. (past : CodeFaultKind)
            → ReadsTwoRuns color room past (passed self.old.reader self.old.used) (passed self.new.reader self.new.used) runs.0 runs.1) }
        ensures most { IfSome result (λ runs. runs.0 + runs.1 ≤ room) }
    {
        let first = self.run(color, room)?;
        let second = self.run(next, room - first)?;
        Some((first, second))
    }
}
