//! What a reader of rows passed of the row after those that it gave, so that no bit is looked through again at each piece.

ghost use Rattle.page_code.specs.PassedRows.{AreEolsPassed, IsPassedRow};
ghost use Rattle.std.specs.Prelude.{◌+◌, Bool, List, ℕ, drop};

use crate::one_dim::open_row::RunsBefore;

/// The place after EOLs, which is counted from the bit after the first EOL that comes after the rows.
#[derive(Clone, Copy, Debug, PartialEq, Eq)]
pub(crate) struct EolsBefore {
    /// The bit after them.
    pub(crate) at: u128,
    /// How many they are beside the first one, 0 to 5.
    pub(crate) count: u32,
    /// So many 0 bits come after them.
    pub(crate) zeros: u128,
}

/// No EOL beside the first one was passed.
pub(crate) const NO_EOLS: EolsBefore = EolsBefore {
    at: 0,
    count: 0,
    zeros: 0,
};

/// What was passed of the row after the rows that were given. Its places are counted from the bit after these rows.
#[derive(Clone, Copy, Debug, PartialEq, Eq)]
pub(crate) struct PassedRow {
    /// So many 0 bits come first.
    pub(crate) zeros: u128,
    /// What comes after the bit after these, if that ends an EOL.
    pub(crate) eols: EolsBefore,
    /// Whole runs of a row in one dimension come, or a row begins there.
    pub(crate) runs: Option<RunsBefore>,
    /// A row was found there in one dimension, and was read as far as it had come.
    pub(crate) tried: bool,
}

impl PassedRow {
    /// Nothing was passed.
    pub(crate) fn none() -> Self
        ensures { (width count : ℕ) (bits : List Bool) → IsPassedRow width count bits result }
    {
        PassedRow {
            zeros: 0,
            eols: NO_EOLS,
            runs: None,
            tried: false,
        }
    }

    /// What is known after an EOL that begins with this number of 0 bits.
    pub(crate) fn eols_after(&self, zeros: u128) -> EolsBefore
        ensures { (width count : ℕ) (all : List Bool) → IsPassedRow width count all self.now → AreEolsPassed (drop (zeros + 1) all) result }
    {
        if zeros == self.zeros {
            self.eols
        } else {
            NO_EOLS
        }
    }
}
