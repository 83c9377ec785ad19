//! The classes of gaps, and how many there were of each.

ghost use Rattle.hdlc.specs.Gaps.{is_class};
ghost use Rattle.hdlc.specs.DeframerParts.{count_in};
ghost use Rattle.hdlc.specs.declared.counts.Class.{Class as AnyClass};
ghost use Rattle.std.specs.Prelude.{◌≡◌, ◌+◌, ◌≤◌, min, cond};

/// The class of a gap: of eight or more bits between two neighbouring flags. It is the first class after
/// `Good` that fits, else `Good` (ISO/IEC 13239, invalid frames).
#[derive(Clone, Copy, Debug, PartialEq, Eq)]
pub enum Class {
    /// A good frame: its content is all octets but the last two.
    Good,
    /// Six 1 bits in a row.
    Aborted,
    /// No whole number of octets without the stuffed bits.
    Ragged,
    /// Fewer than 5 octets, the check sequence included.
    Short,
    /// More than 302 octets, the check sequence included.
    Long,
    /// The last two octets aren't the check sequence of the others.
    Damaged,
}

impl Class {
    /// Whether the class is `Good`.
    pub(crate) fn is_good(self) -> bool
        ensures { result ≡ is_class Class.Good self }
    {
        matches!(self, Class::Good)
    }
}

/// The number of gaps of each class. A count stays at 2^64 - 1 once it is there.
#[derive(Clone, Copy, Debug, PartialEq, Eq)]
pub struct Counts {
    /// Gaps of class `Good`.
    pub good: u64,
    /// Gaps of class `Aborted`.
    pub aborted: u64,
    /// Gaps of class `Ragged`.
    pub ragged: u64,
    /// Gaps of class `Short`.
    pub short: u64,
    /// Gaps of class `Long`.
    pub long: u64,
    /// Gaps of class `Damaged`.
    pub damaged: u64,
}

impl Counts {
    /// No gaps.
    pub(crate) fn zero() -> Counts
        ensures { (class : AnyClass) → count_in result class ≡ 0 }
    {
        Counts {
            good: 0,
            aborted: 0,
            ragged: 0,
            short: 0,
            long: 0,
            damaged: 0,
        }
    }

    /// Counts one gap more of a class.
    pub(crate) fn add(&mut self, class: Class)
        ensures { (each : AnyClass) → count_in self.old each ≤ u64.MAX
            → count_in self.new each ≡ min u64.MAX (count_in self.old each + cond (is_class each class) 1 0) }
    {
        match class {
            Class::Good => self.good = self.good.saturating_add(1),
            Class::Aborted => self.aborted = self.aborted.saturating_add(1),
            Class::Ragged => self.ragged = self.ragged.saturating_add(1),
            Class::Short => self.short = self.short.saturating_add(1),
            Class::Long => self.long = self.long.saturating_add(1),
            Class::Damaged => self.damaged = self.damaged.saturating_add(1),
        }
    }
}
