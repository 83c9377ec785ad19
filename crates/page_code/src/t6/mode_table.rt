//! The table by which mode codes are read (ITU-T T.6, 2.2.2, table 1): from the next 7 bits to the mode
//! code that begins them and its length.

ghost use Rattle.page_code.specs.TwoDimensions.Fronts.{mode_word, mode_codes};
ghost use Rattle.page_code.specs.TwoDimensions.ModeTable.{mode_entries};
ghost use Rattle.run_tables.specs.Numbers.{number_text};
ghost use Rattle.run_tables.specs.Texts.{pick};
ghost use Rattle.std.specs.Prelude.{◌≡◌, ◌<◌, IfSome, length};

use crate::t6::mode::{ModeCode, Shift};

/// A mode code and how many bits it has, or none and 0.
type Entry = (Option<ModeCode>, u8);

const NONE: Entry = (None, 0);

const PASS: Entry = (Some(ModeCode::Pass), 4);

const HORIZONTAL: Entry = (Some(ModeCode::Horizontal), 3);

const V0: Entry = (Some(ModeCode::Vertical(Shift::V0)), 1);

const VR1: Entry = (Some(ModeCode::Vertical(Shift::VR1)), 3);

const VR2: Entry = (Some(ModeCode::Vertical(Shift::VR2)), 6);

const VR3: Entry = (Some(ModeCode::Vertical(Shift::VR3)), 7);

const VL1: Entry = (Some(ModeCode::Vertical(Shift::VL1)), 3);

const VL2: Entry = (Some(ModeCode::Vertical(Shift::VL2)), 6);

const VL3: Entry = (Some(ModeCode::Vertical(Shift::VL3)), 7);

/// By the number that 7 bits write, the first the most significant.
const BY_7: [Entry; 128] = [
    NONE, NONE, VL3, VR3, VL2, VL2, VR2, VR2, PASS, PASS, PASS, PASS, PASS, PASS, PASS, PASS,
    HORIZONTAL, HORIZONTAL, HORIZONTAL, HORIZONTAL, HORIZONTAL, HORIZONTAL, HORIZONTAL, HORIZONTAL,
    HORIZONTAL, HORIZONTAL, HORIZONTAL, HORIZONTAL, HORIZONTAL, HORIZONTAL, HORIZONTAL, HORIZONTAL,
    VL1, VL1, VL1, VL1, VL1, VL1, VL1, VL1, VL1, VL1, VL1, VL1, VL1, VL1, VL1, VL1, VR1, VR1, VR1,
    VR1, VR1, VR1, VR1, VR1, VR1, VR1, VR1, VR1, VR1, VR1, VR1, VR1, V0, V0, V0, V0, V0, V0, V0,
    V0, V0, V0, V0, V0, V0, V0, V0, V0, V0, V0, V0, V0, V0, V0, V0, V0, V0, V0, V0, V0, V0, V0, V0,
    V0, V0, V0, V0, V0, V0, V0, V0, V0, V0, V0, V0, V0, V0, V0, V0, V0, V0, V0, V0, V0, V0, V0, V0,
    V0, V0, V0, V0, V0, V0, V0, V0, V0,
];

/// The entry of each text of 7 bits.
fn entries() -> &'static [(Option<ModeCode>, u8)]
    ensures { result.now ≡ mode_entries }
{
    &BY_7
}

/// The mode code that begins the 7 bits that a number writes, and how many bits it has; or none.
#[inline(always)]
pub(crate) fn mode_of(next: u32) -> (Option<ModeCode>, u8)
    requires { next < 128 }
    ensures code { result.0 ≡ pick mode_word mode_codes (number_text 7 next) }
    ensures length { IfSome result.0 (λ code. result.1 ≡ length (mode_word code)) }
{
    let entries = entries();
    entries[next as usize]
}
