//! What the words of a station give: how long its waits and its call last, and what a call may have.

/// The lengths of the waits in milliseconds, if given, and of the call; and whether a station says what it hears and until when it waits.
#[derive(Clone, Copy, Debug, PartialEq, Eq)]
pub struct GivenWaits {
    /// T1.
    pub t1: Option<u32>,
    /// T2.
    pub t2: Option<u32>,
    /// T4.
    pub t4: Option<u32>,
    /// T5.
    pub t5: Option<u32>,
    /// True if it says what it hears and until when it waits.
    pub hears: bool,
    /// True if it says its bursts by V.21 as the contents of their frames.
    pub frames: bool,
    /// How late an answer may come in milliseconds, if given.
    pub late: Option<u32>,
    /// The seconds after which the call is stopped, if given.
    pub seconds: Option<u32>,
}

/// What an answerer's call may have, if given.
#[derive(Clone, Copy, Debug, PartialEq, Eq)]
pub struct GivenLimits {
    /// The most pages that are stored.
    pub pages: Option<u32>,
    /// The most octets of their files.
    pub octets: Option<u32>,
}
