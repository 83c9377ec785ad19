//! Laws of the definitions. Nothing runs.

ghost use Rattle.signals.specs.Agreement.{AgreedFits, AgreedIsAllowed, BeginsAtMostFiveAbove, GoesDownByOne, LoweredIsAllowed};
ghost use Rattle.signals.specs.Agreement.{WidthsHavePixels};
ghost use Rattle.signals.specs.BitNumbers.{ReadsByNumber, ReadsNoOthers, dcs_numbers, dis_numbers};
ghost use Rattle.signals.specs.Exactly.{AgreesExactly, AllowsExactly, LowerIsSlower, ModemsHaveSpeeds, SpeedsHaveRows, WidthsHaveRows};
ghost use Rattle.signals.specs.Refusals.{RefusesExactly, SendsOctets, ShortOnes};
ghost use Rattle.signals.specs.Saying.{ControlsHaveTexts, ReadsWhatIsSaid};
ghost use Rattle.signals.specs.Sending.{ModemsHaveTexts, PageEndsHaveTexts, SpeedsHaveTexts, WidthsHaveTexts, WritesTheTables};
ghost use Rattle.signals.specs.Training.{TrainingChecksAreGood};
ghost use Rattle.signals.specs.Writing.{ReadsWhatIsWritten, WrittenFitsAFrame};
ghost use Rattle.signals.specs.declared.control.Control.TheVariants.{Dis, Dcs};

/// An octet is read as a facsimile control field exactly if its bits are those of the field's text; an X takes either
/// bit. ITU-T T.30, 5.3.6.1.
pub fn controls_have_texts()
    ensures { ControlsHaveTexts }
{}

/// A content is read as a signal exactly if it says the signal.
pub fn reads_what_is_said()
    ensures { ReadsWhatIsSaid }
{}

/// A content with a known facsimile control field is read as the signal that its information field shows: of a DIS and
/// a DCS by the numbers of bits 10 to 32 in the standard's table. Bits 17 and 18 of a DIS show the width 2,432 also if
/// both are 1; bit 16 of a DCS is taken only beside T.6; bits 25 to 32 count as 0 if bit 24 is 0. The only fault is
/// `ShortField` (22), exactly for fewer than 3 octets in a DIS or a DCS, 2 in an FCD, 4 in a PPS or 32 in a PPR. ITU-T
/// T.30, 5.3.6 and A.4.
pub fn reads_by_number()
    ensures { ReadsByNumber }
{}

/// Two contents of a DIS, or of a DCS, are read alike if they agree in the bits that have a meaning here: every other
/// bit is ignored. ITU-T T.30, 5.3.6.2.
pub fn ignores_other_bits()
    ensures dis { ReadsNoOthers Dis dis_numbers }
    ensures dcs { ReadsNoOthers Dcs dcs_numbers }
{}

/// What is written of a signal, by either station, is read as the signal.
pub fn reads_what_is_written()
    ensures { ReadsWhatIsWritten }
{}

/// What is written of a signal has 3 to 300 octets, as a frame's content may.
pub fn written_fits_a_frame()
    ensures { WrittenFitsAFrame }
{}

/// The bits that are written of a signal, in order of sending, are those of the standard's tables: the address, the
/// control field, the text of the facsimile control field with the station's bit for its X, the 32 bits of a DIS and of
/// a DCS by their numbers, and the text of a PPS's second field. ITU-T T.30, 5.3.4 to 5.3.6 and A.4.
pub fn writes_the_tables()
    ensures { WritesTheTables }
{}

/// The second field of a PPS is known exactly if its bits are those of a page end's text; an X takes either bit. ITU-T
/// T.30, A.4.3.
pub fn page_ends_have_texts()
    ensures { PageEndsHaveTexts }
{}

/// Bits of a DIS and a DCS are read as the speed, the modems and the width whose text they are, and as the fallback's
/// modems if they are the text of no others. ITU-T T.30, 5.3.6.2.
pub fn fields_have_texts()
    ensures speeds { SpeedsHaveTexts }
    ensures modems { ModemsHaveTexts }
    ensures widths { WidthsHaveTexts }
{}

/// A number of pixels leads to the width that has it, and no other number leads to a width.
pub fn widths_have_pixels()
    ensures { WidthsHavePixels }
{}

/// A training check of the whole length, all octets 00, is good.
pub fn training_checks_are_good()
    ensures { TrainingChecksAreGood }
{}

/// What two stations agree on for pages is allowed by the answerer's capabilities, and has the width and the lines of
/// the pages.
pub fn agreed_is_allowed()
    ensures allowed { AgreedIsAllowed }
    ensures fits { AgreedFits }
{}

/// Parameters that a station allows are allowed at the next lower speed that two stations try too.
pub fn lowered_is_allowed()
    ensures { LoweredIsAllowed }
{}

/// At most five of the speeds that two stations try are below the one agreed, and each next lower speed has one less
/// below it.
pub fn speeds_go_down()
    ensures begins { BeginsAtMostFiveAbove }
    ensures by_one { GoesDownByOne }
{}

/// Each speed has its row of the standard's table: the bits of a DCS, the recommendation, the bits a second and the
/// octets of its training check; each width has its bits and its pixels; modems have the speeds of their
/// recommendations. ITU-T T.30, table 2.
pub fn speeds_have_rows()
    ensures speeds { SpeedsHaveRows }
    ensures widths { WidthsHaveRows }
    ensures modems { ModemsHaveSpeeds }
{}

/// Two stations agree exactly if the answerer receives with error correction, takes the width and the lines of the
/// pages, and both try a speed; they agree on the fastest, and on T.6 exactly if it is wished for and offered. A
/// station allows exactly the parameters that it offers.
pub fn agrees_exactly()
    ensures agrees { AgreesExactly }
    ensures allows { AllowsExactly }
{}

/// After a failed training check comes the next slower speed that both stations try; there is none only after the
/// slowest.
pub fn lower_is_slower()
    ensures { LowerIsSlower }
{}

/// A content is refused exactly if an octet of its front is wrong or missing: the fault is that of the first such
/// octet; too few octets after a known facsimile control field are missing ones.
pub fn refuses_exactly()
    ensures exactly { RefusesExactly }
    ensures short { ShortOnes }
{}

/// The octets of each signal that a station sends, written out. ITU-T T.30, 5.3.6 and A.4.
pub fn sends_octets()
    ensures { SendsOctets }
{}
