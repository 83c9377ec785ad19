//! Why octets weren't heard.

use thiserror::Error;

/// Why octets of the line weren't heard, or not all of them.
#[derive(Clone, Copy, Debug, PartialEq, Eq, Drop, Error)]
pub enum HearFault {
    /// Memory was refused before the octets were taken: nothing has changed, and they can be heard again.
    #[error("no memory: nothing was taken")]
    NothingTaken,
    /// The octets were taken, but memory was refused to a step: a frame among them is lost, as on a line.
    #[error("no memory: a frame was lost")]
    FrameLost,
}
