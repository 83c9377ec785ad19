//! What a call is run with.
use page_code::Coding;
use signals::Modems;

/// The options of a call.
#[derive(Clone, Copy, Debug, PartialEq, Eq)]
pub struct CallOptions {
    /// The code of the pages, if the answerer reads it.
    pub coding: Coding,
    /// Frames of 64 octets of data instead of 256.
    pub small: bool,
    /// The modems of both stations.
    pub modems: Modems,
    /// 7.7 lines per millimetre instead of 3.85.
    pub fine: bool,
}
