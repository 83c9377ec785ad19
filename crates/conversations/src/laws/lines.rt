//! Laws of one line. Nothing runs.

ghost use Rattle.conversations.specs.FrameLineLaws.{ContentsAreHeard, FramesByOctets, ReadsFramesSent, SaysItsFrames};
ghost use Rattle.conversations.specs.LimitRows.{LimitsByLines};
ghost use Rattle.conversations.specs.LineLaws.{AnswerersFitLines, CallersFitLines, ChannelsHaveNames, KindsHaveNames, ReadsWhatIsSent};
ghost use Rattle.conversations.specs.LineLaws.{SaysOneThing, SentFitsALine};
ghost use Rattle.conversations.specs.LineRows.{CarriersByOctets, EndsByOctets, WordsByOctets};
ghost use Rattle.signals.specs.declared.signal.Side.{Side};
ghost use Rattle.terminals.specs.declared.clock.Clock.{Clock};
ghost use Rattle.terminals.specs.declared.clock.Durations.{Durations};
ghost use Rattle.terminals.specs.declared.stopping.Shown.{Shown};

/// Two carriers have two names, and so do the two kinds of bits.
pub fn names_differ()
    ensures channels { ChannelsHaveNames }
    ensures kinds { KindsHaveNames }
{}

/// The names of carriers and kinds, the words of lines, and what ends an answer, by octets.
pub fn words_by_octets()
    ensures carriers { CarriersByOctets }
    ensures words { WordsByOctets }
    ensures ends { EndsByOctets }
{}

/// When a line finds that a call has lasted as long as it may, worked by hand.
pub fn limits_by_lines()
    ensures { (side : Side) (shown : Shown) (c : Clock) (d : Durations) → LimitsByLines side shown c d }
{}

/// A line says at most one thing, at one time.
pub fn says_one_thing()
    ensures { SaysOneThing }
{}

/// Two stations can be joined by their lines: the words in which a burst is sent, `CARRIER KIND BITS HEX`, say at the other station, after
/// `rx` and a time, its carrier, its kind, its number of bits and its octets, if it has at most 1,599,824 bits. A burst that a terminal
/// sends has as many octets as its bits need.
pub fn reads_what_is_sent()
    ensures reads { ReadsWhatIsSent }
    ensures fits { SentFitsALine }
{}

/// What a line says by the contents of frames is heard as these contents, and no other. A burst by V.21 is sent so as the contents of its
/// frames, and no other, in words that are read, after `rx` and a time, as octets with the same good frames.
pub fn frames_are_heard()
    ensures heard { ContentsAreHeard }
    ensures sent { SaysItsFrames }
    ensures reads { ReadsFramesSent }
{}

/// A frame as it stands in a line, worked by hand.
pub fn frames_by_octets()
    ensures { FramesByOctets }
{}

/// Each burst that a station sends fits a line, so it is read as it was sent.
pub fn bursts_fit_lines()
    ensures caller { CallersFitLines }
    ensures answerer { AnswerersFitLines }
{
    terminals::laws::bursts_are_short();
}
