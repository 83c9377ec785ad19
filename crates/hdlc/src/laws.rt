//! Laws of flags, gaps and frames: calls that do nothing, whose contracts are the laws.

ghost use Rattle.hdlc.specs.Laws.{FlagsStand, FlagForgets, GoodContentsStay, FrameGrows, FrameOctetsGrow, OneFrame};
ghost use Rattle.hdlc.specs.Laws.{NextWaits, NextStands, NewIsIdle, FrameIsHeard};
ghost use Rattle.hdlc.specs.Examples.{AreExamples};

/// The flags of bits are exactly the places where there is a flag.
pub fn flags_stand()
    ensures { FlagsStand }
{}

/// After a flag all else is forgotten: the gaps after it don't depend on what came before.
pub fn flag_forgets()
    ensures { FlagForgets }
{}

/// Bits that follow leave the good contents that there are, and may add more after them.
pub fn good_contents_stay()
    ensures { GoodContentsStay }
{}

/// A frame and up to seven 0 bits, after bits that are empty or end with a flag and at most seven 0 bits,
/// leave such bits, and add the frame's only gap to the gaps and its content alone to the good contents.
pub fn frame_grows()
    ensures { FrameGrows }
{}

/// The octets that hold a frame, filled with 0 bits, leave such bits too, and add its content alone to the
/// good contents.
pub fn frame_octets_grow()
    ensures { FrameOctetsGrow }
{}

/// A content has one frame alone, so every bit that is written is prescribed.
pub fn one_frame()
    ensures { OneFrame }
{}

/// The content that a deframer hands out next is the first good one that it hasn't handed out.
pub fn next_waits()
    ensures { NextWaits }
{}

/// After a content was handed out, a deframer has the state after the same bits with one content more handed
/// out.
pub fn next_stands()
    ensures { NextStands }
{}

/// A deframer that has taken no bits is idle: a frame may follow, and no content waits.
pub fn new_is_idle()
    ensures { NewIsIdle }
{}

/// An idle deframer that is fed the octets of one frame has its content waiting and no other; once that is
/// handed out it is idle again.
pub fn frame_is_heard()
    ensures { FrameIsHeard }
{}

/// Written-out bits, and what the definitions say of them.
pub fn examples()
    ensures { AreExamples }
{}
