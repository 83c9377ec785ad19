//! The mode codes of the two-dimensional code, and EOFB (ITU-T T.6, 2.2.2 and 2.4).

ghost use Rattle.page_code.specs.TwoDimensions.Fronts.{mode_word};
ghost use Rattle.page_code.specs.TwoDimensions.Modes.{to_left, to_right, vertical_word};
ghost use Rattle.raster.specs.Words.{number_bits};
ghost use Rattle.run_tables.specs.Codes.{text};
ghost use Rattle.std.specs.Prelude.{◌≡◌, ◌≤◌, ◌+◌};

/// The end of the facsimile block: twice eleven 0 bits and a 1 (ITU-T T.6, 2.4).
pub(crate) const EOFB: &[u8] = b"000000000001000000000001";

/// The number that EOFB is, of 24 bits (ITU-T T.6, 2.4).
pub(crate) const EOFB_NUMBER: u32 = 0x001001;

/// How far a1 is from b1 in a vertical mode: under it, or one to three pixels to its right or its left (ITU-T T.6,
/// 2.2.2).
#[derive(Clone, Copy, Debug, PartialEq, Eq)]
pub(crate) enum Shift {
    /// a1 is just under b1.
    V0,
    /// a1 is 1 pixel to the right of b1.
    VR1,
    /// a1 is 2 pixels to the right of b1.
    VR2,
    /// a1 is 3 pixels to the right of b1.
    VR3,
    /// a1 is 1 pixel to the left of b1.
    VL1,
    /// a1 is 2 pixels to the left of b1.
    VL2,
    /// a1 is 3 pixels to the left of b1.
    VL3,
}

impl Shift {
    /// How far a1 is to the right of b1.
    pub(crate) fn right(self) -> u32
        ensures right { result ≡ to_right self }
        ensures range { result ≤ 3 }
    {
        match self {
            Shift::VR1 => 1,
            Shift::VR2 => 2,
            Shift::VR3 => 3,
            Shift::V0 | Shift::VL1 | Shift::VL2 | Shift::VL3 => 0,
        }
    }

    /// How far a1 is to the left of b1.
    pub(crate) fn left(self) -> u32
        ensures left { result ≡ to_left self }
        ensures range { result ≤ 3 }
    {
        match self {
            Shift::VL1 => 1,
            Shift::VL2 => 2,
            Shift::VL3 => 3,
            Shift::V0 | Shift::VR1 | Shift::VR2 | Shift::VR3 => 0,
        }
    }

    /// How far the pixel 3 to the right of a1 is to the right of b1.
    #[inline(always)]
    pub(crate) fn reach(self) -> u32
        ensures reach { result + to_left self ≡ to_right self + 3 }
        ensures range { result ≤ 6 }
    {
        match self {
            Shift::V0 => 3,
            Shift::VR1 => 4,
            Shift::VR2 => 5,
            Shift::VR3 => 6,
            Shift::VL1 => 2,
            Shift::VL2 => 1,
            Shift::VL3 => 0,
        }
    }

    /// The digits of the mode's code (ITU-T T.6, table 1).
    pub(crate) fn digits(self) -> &'static [u8]
        ensures { text result.now ≡ vertical_word self }
    {
        match self {
            Shift::V0 => b"1",
            Shift::VR1 => b"011",
            Shift::VR2 => b"000011",
            Shift::VR3 => b"0000011",
            Shift::VL1 => b"010",
            Shift::VL2 => b"000010",
            Shift::VL3 => b"0000010",
        }
    }

    /// The number that the mode's code is, and how many bits it has (ITU-T T.6, table 1).
    #[inline(always)]
    fn number(self) -> (u32, u32)
        ensures word { number_bits result.1 result.0 ≡ vertical_word self }
        ensures count { result.1 ≤ 32 }
    {
        match self {
            Shift::V0 => (0b1, 1),
            Shift::VR1 => (0b011, 3),
            Shift::VR2 => (0b000011, 6),
            Shift::VR3 => (0b0000011, 7),
            Shift::VL1 => (0b010, 3),
            Shift::VL2 => (0b000010, 6),
            Shift::VL3 => (0b0000010, 7),
        }
    }
}

/// A mode code; that of horizontal mode is its flag alone (ITU-T T.6, 2.2.2).
#[derive(Clone, Copy, Debug, PartialEq, Eq)]
pub(crate) enum ModeCode {
    Pass,
    Horizontal,
    Vertical(Shift),
}

impl ModeCode {
    /// The digits of the code (ITU-T T.6, table 1).
    pub(crate) fn digits(self) -> &'static [u8]
        ensures { text result.now ≡ mode_word self }
    {
        match self {
            ModeCode::Pass => b"0001",
            ModeCode::Horizontal => b"001",
            ModeCode::Vertical(shift) => shift.digits(),
        }
    }

    /// The number that the code is, and how many bits it has (ITU-T T.6, table 1).
    #[inline(always)]
    pub(crate) fn number(self) -> (u32, u32)
        ensures word { number_bits result.1 result.0 ≡ mode_word self }
        ensures count { result.1 ≤ 32 }
    {
        match self {
            ModeCode::Pass => (0b0001, 4),
            ModeCode::Horizontal => (0b001, 3),
            ModeCode::Vertical(shift) => shift.number(),
        }
    }
}
