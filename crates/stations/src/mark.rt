//! The last block that was accepted.

use signals::{Mark, PageEnd};

/// The last block that was accepted.
#[derive(Clone, Copy, Debug, PartialEq, Eq)]
pub struct Accepted {
    /// Its mark.
    pub mark: Mark,
    /// What ended with it.
    pub ends: PageEnd,
}
