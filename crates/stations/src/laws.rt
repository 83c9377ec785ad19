//! Laws of the definitions. Nothing runs.

ghost use Rattle.stations.specs.AnswererKeeping.{AnswerersKeep, AnswerersTake, CountsLast};
ghost use Rattle.stations.specs.EndsMean.{AnswerersEndsMean, CallersEndsMean};
ghost use Rattle.stations.specs.Keeping.{CallersKeep, CallersTake};
ghost use Rattle.stations.specs.TurnsMean.{AnswerersAlwaysAnswer, AnswerersHearNothingElse, AnswerersTurnsMean};
ghost use Rattle.stations.specs.TurnsMean.{CallersHearNothingElse, CallersTurnsMean};
ghost use Rattle.stations.specs.Bursts.{CutByCarrier, TurnsCut};
ghost use Rattle.stations.specs.LimitedRuns.{LimitedIsPlain};
ghost use Rattle.stations.specs.LimitedServing.{LimitedServes};
ghost use Rattle.stations.specs.Limiting.{BusyBefore};
ghost use Rattle.stations.specs.Listening.{AnswerersHear, PagesComeWhereHeard, RepliesLeaveEars, RepliesTellWhatIsFirst};
ghost use Rattle.stations.specs.Listening.{SilenceLeavesWhatIsFirst};
ghost use Rattle.stations.specs.Rows.{AnswerersKnowAlways, CallersKnowAlways, FullByRows, KeptOutByRowsAlways, ProgressByRows, StopsAreSaid};
ghost use Rattle.stations.specs.Stopping.{CutsEnd};
ghost use Rattle.stations.specs.Taken.{FrontStays, TakenAndThere};
ghost use Rattle.stations.specs.TurnsShow.{AnswerersShow};
ghost use Rattle.stations.specs.Waits.{AnswerersWait, CallersWait};
ghost use Rattle.stations.specs.Marks.{ListsEndSo, MarksTell, NeighboursDiffer};
ghost use Rattle.stations.specs.Lasting.{CallersEnd, StepsLast};
ghost use Rattle.stations.specs.Left.{StepsSpend};
ghost use Rattle.stations.specs.Sizes.{BlocksAreFew, CallersAreFew, StepsArePlaced};
ghost use Rattle.stations.specs.Limits.{NewIsLimited, StepsKeepLimits, OpenIsLimited};
ghost use Rattle.stations.specs.Runs.{EndedCallerStays, EndedAnswererStays, StoredIsRead, StepsStoreOpen, KeptIsReady, StaysReady};
ghost use Rattle.stations.specs.Laws.{LayersHold, ReadsByGrammar, SignalsArrive, SignalsHold, SpeedsHold};

/// A page whose code a call can carry is cut into blocks of 1 to 256 frames that can be sent; joined they read as the
/// page, and each beginning of them is within the limit of a page.
pub fn layers_hold()
    ensures { LayersHold }
{
    page_code::laws::round_trip();
    partial_page::laws::page_is_cut_into_full_frames();
    partial_page::laws::page_stays_within_limit();
}

/// Octets are read as a page exactly if it is theirs by the grammar of its code.
pub fn reads_by_grammar()
    ensures { ReadsByGrammar }
{
    page_code::laws::reads_exactly();
}

/// At most five speeds are tried below the first, and each next one has one less below it.
pub fn speeds_hold()
    ensures { SpeedsHold }
{
    signals::laws::speeds_go_down();
}

/// A signal that is written is read as the signal.
pub fn signals_arrive()
    ensures { SignalsArrive }
{
    signals::laws::reads_what_is_written();
}

/// What is agreed is allowed and fits the page, and a training check as it is sent is good.
pub fn signals_hold()
    ensures { SignalsHold }
{
    signals::laws::agreed_is_allowed();
    signals::laws::widths_have_pixels();
    signals::laws::training_checks_are_good();
}

/// For any peer each turn with a DCS, a PPS or an RR lowers a number that only a new group, a new block or another RNR
/// sets again: 18 turns with a DCS for a group, 12 with a PPS for a block, of which the first is the whole burst, 3
/// with an RR for an RNR.
pub fn steps_spend()
    ensures { StepsSpend }
{
    speeds_hold();
}

/// Whatever an answerer hears, its open frames hold at most 65,536 octets and its open page at most 8,388,608.
pub fn open_is_limited()
    ensures new { NewIsLimited }
    ensures steps { StepsKeepLimits }
    ensures open { OpenIsLimited }
{}

/// A station that has ended stays as it is and is silent for good, whatever it hears.
pub fn ended_stays()
    ensures caller { EndedCallerStays }
    ensures answerer { EndedAnswererStays }
{}

/// The first FCD that is kept takes the memory for the open frames, which stays until the next DCS that is allowed; no
/// FCD in between takes any.
pub fn stays_ready()
    ensures kept { KeptIsReady }
    ensures stays { StaysReady }
{}

/// Whatever an answerer hears, each page that it stores is read, by the parameters of a DCS that it heard and allows,
/// of octets joined from the data of FCDs that it heard. A step stores at most one page: that of the open page and the
/// open frames.
pub fn stored_is_read()
    ensures steps { StepsStoreOpen }
    ensures runs { StoredIsRead }
{
    page_code::laws::reads_exactly();
}

/// Whatever a caller hears, it transmits at most 18 times for each group that it has begun, 12 times for each block, 3
/// times for each RNR and once more, and has ended once its wait was over more than 12 times for each group, 8 times
/// for each block and twice for each RNR. It begins at most 512 blocks a page.
pub fn callers_end()
    ensures steps { StepsLast }
    ensures runs { CallersEnd }
    ensures placed { StepsArePlaced }
    ensures blocks { BlocksAreFew }
    ensures few { CallersAreFew }
{
    speeds_hold();
}

/// A station that runs ends exactly by the cause of the end: each of the ten ends has its own cause.
pub fn ends_mean()
    ensures caller { CallersEndsMean }
    ensures answerer { AnswerersEndsMean }
{
    partial_page::laws::octets_have_a_block();
    reads_by_grammar();
}

/// In every state an answerer that runs sends MCF, or RNR while busy, for a PPS of the last accepted block, and for RR
/// if a block was accepted and no frame is open; nothing else changes. After each turn a station waits for what may
/// answer it, and the caller has counted the try.
pub fn always_answered()
    ensures always { AnswerersAlwaysAnswer }
    ensures caller { CallersTurnsMean }
    ensures answerer { AnswerersTurnsMean }
{}

/// At an input that the table doesn't name for its state a station is silent, and nothing changes.
pub fn only_named_change()
    ensures caller { CallersHearNothingElse }
    ensures answerer { AnswerersHearNothingElse }
{}

/// A block's mark is the numbers of its page and of its place below 256, and the same again from each 256 on;
/// neighbouring blocks never share a mark. A call's list of blocks ends with the document, with a group, or before a
/// page whose code is too long.
pub fn marks()
    ensures tell { MarksTell }
    ensures neighbours { NeighboursDiffer }
    ensures last { ListsEndSo }
{
    partial_page::laws::octets_have_a_block();
}

/// What a step of a caller may change, field by field, and when; and what it takes from a DIS, an FTT and an MCF.
pub fn callers_keep()
    ensures keep { CallersKeep }
    ensures take { CallersTake }
{}

/// What a step of an answerer may change, field by field, and when; what it takes from a DCS, an FCD and a PPS; and
/// which last frame of a block counts.
pub fn answerers_keep()
    ensures keep { AnswerersKeep }
    ensures take { AnswerersTake }
    ensures counts { CountsLast }
{
    reads_by_grammar();
}

/// A turn of an answerer is one frame at most, and each of its seven signals is sent by one turn alone.
pub fn answerers_show()
    ensures { AnswerersShow }
{}

/// A wait runs in a station exactly if its end does what the wait is for; none runs after the end.
pub fn waits_run()
    ensures caller { CallersWait }
    ensures answerer { AnswerersWait }
{}

/// The bursts of a turn have its items in order, each those of one carrier, and the carrier changes after each. A block
/// is a burst at the message speed and PPS by V.21, DCS is by V.21 and the training check after it, and an answerer
/// sends by V.21.
pub fn bursts_cut()
    ensures items { CutByCarrier }
    ensures turns { TurnsCut }
{}

/// A training check, or an FCD, that does something finds the answerer listening for it at the speed agreed, also where V.21 comes first.
pub fn answerers_hear()
    ensures hear { AnswerersHear }
    ensures after { RepliesLeaveEars }
{}

/// After RNR V.21 comes first, after CFR and PPR a page does, and after the MCF to a new block its end decides; silence leaves what comes
/// first. A caller sends no page where V.21 is to come first.
pub fn first_is_told()
    ensures replies { RepliesTellWhatIsFirst }
    ensures silence { SilenceLeavesWhatIsFirst }
    ensures caller { PagesComeWhereHeard }
{}

/// No step of an answerer depends on the pages that are stored. Pages taken and pages there, joined in order, are what
/// the same inputs store when none are taken, with the same turns.
pub fn taken_and_there()
    ensures steps { FrontStays }
    ensures runs { TakenAndThere }
{}

/// A call that runs ends by what cuts it off, and one that has ended stays as it ended.
pub fn cuts_end()
    ensures { CutsEnd }
{}

/// An answerer that was busy before an input sends RNR in place of MCF, and all else is the same.
pub fn busy_before()
    ensures { BusyBefore }
{}

/// Each step of an answerer with limits leads where some inputs lead one without, so what holds over any inputs holds
/// of it.
pub fn limited_is_plain()
    ensures { LimitedIsPlain }
{}

/// Whatever happens to an answerer with limits, inputs with its pages taken in between, it is where an answerer without limits is after
/// the inputs that the limits let through, with the same pages taken; and at most one page is above a limit.
pub fn limited_serves()
    ensures { LimitedServes }
{
    stored_is_read();
    answerers_keep();
}

/// What each station knows of its group and of the other station, in each state.
pub fn stations_know()
    ensures caller { CallersKnowAlways }
    ensures answerer { AnswerersKnowAlways }
{}

/// When a stop says DCN, when an answerer is full and what it doesn't hear then, and how far a station is, by rows.
pub fn told_by_rows()
    ensures stops { StopsAreSaid }
    ensures full { FullByRows }
    ensures kept_out { KeptOutByRowsAlways }
    ensures progress { ProgressByRows }
{}
