//! Laws of the definitions. Nothing runs.

ghost use Rattle.captures.specs.CapturesMean.{BlocksEnd, CapturesMean, FramesAreKept, OthersChangeNothing, ResendsAreTheSame};

/// What is found in 43 sequences of signals, whatever the parameters and data: each end of a PPS, resends, missing frames, blocks and
/// pages, a DCS that is lost or in the middle. Every signal but DCS, FCD, PPS and DCN changes nothing. Which data of an FCD are kept, and
/// what a PPS leaves, and which frames are a resend.
pub fn captures_mean()
    ensures sequences { CapturesMean }
    ensures others { OthersChangeNothing }
    ensures frames { FramesAreKept }
    ensures ends { BlocksEnd }
    ensures resends { ResendsAreTheSame }
{}
