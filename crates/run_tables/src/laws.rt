//! Laws of the run codes and of rows in one dimension: what their contracts say is proved, and
//! nothing runs.

ghost use Rattle.run_tables.specs.FaultList.{FaultsHaveNumbers};
ghost use Rattle.run_tables.specs.KindLaws.{AreRefusedRows, FrontsGoOn, OneKind, RefusesCodesExactly, RefusesRowsExactly};
ghost use Rattle.run_tables.specs.Laws.{CodesCover, OneCode};
ghost use Rattle.run_tables.specs.RowLaws.{OneFront, ReadsExactly, RefusesAtLongest, RefusesNoRow, RoundTrip, TableWords};

/// At most one code of a color begins any bits.
pub fn one_code()
    ensures { OneCode }
{}

/// Any 13 bits begin with a code of each color, or with eight 0 bits.
pub fn codes_cover()
    ensures { CodesCover }
{}

/// A run and a code word are in a color's table exactly if they are at one of its 104 places.
pub fn table_words()
    ensures { TableWords }
{}

/// A row is read exactly if the bits begin with code words that spell it.
pub fn reads_exactly()
    ensures { ReadsExactly }
{}

/// Bits that are refused begin with no row's code words.
pub fn refuses_no_row()
    ensures { RefusesNoRow }
{}

/// The place of a refusal is the length of the longest front, and its kind is that of the bits after it.
pub fn refuses_at_longest()
    ensures { RefusesAtLongest }
{}

/// Of two fronts of the same bits, one begins the other.
pub fn one_front()
    ensures { OneFront }
{}

/// The code words of a row's own runs, followed by any bits, read as the row.
pub fn round_trip()
    ensures { RoundTrip }
{}

/// One place of a row has one kind of refusal.
pub fn one_kind()
    ensures { OneKind }
{}

/// Reading a code or a run is refused exactly if no code is there, for the reason that the bits there give by
/// the table.
pub fn refuses_codes_exactly()
    ensures { RefusesCodesExactly }
{}

/// A row is refused exactly where it goes no further after whole codes, for the reason that the bits there
/// give by the table: bits begin with a row or have one refusal, and not both.
pub fn refuses_rows_exactly()
    ensures { RefusesRowsExactly }
{}

/// After whole codes of a row some bits complete a row of the width; after a code that passes the width, or
/// bits that begin no code, no bits do.
pub fn fronts_go_on()
    ensures { FrontsGoOn }
{}

/// Refused rows that were coded by hand from the tables.
pub fn refused_rows()
    ensures { AreRefusedRows }
{}

/// A kind of refusal has its number in the list of all faults, and no other.
pub fn faults_have_numbers()
    ensures { FaultsHaveNumbers }
{}
