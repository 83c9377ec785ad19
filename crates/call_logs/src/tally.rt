//! The counts of a log that is judged.

/// How many frames of a log break a rule.
#[derive(Clone, Copy, Debug, PartialEq, Eq)]
pub struct Tally {
    /// All frames of the log.
    pub frames: usize,
    /// Those that break a rule.
    pub broken: usize,
    /// Those that break a rule that can be read otherwise, and no other before it.
    pub readings: usize,
    /// Those that are no signal, which aren't judged.
    pub unread: usize,
}
