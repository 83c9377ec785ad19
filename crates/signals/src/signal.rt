//! The signals of single frames, and the two stations that send them.

use crate::params::{Caps, Params};

/// What ends with a block: the second field of a PPS. ITU-T T.30, A.4.3.
#[derive(Clone, Copy, Debug, PartialEq, Eq)]
pub enum PageEnd {
    /// The block alone: its page goes on.
    Null,
    /// A page; another one of its group, with the same width and lines, follows.
    Mps,
    /// A page; one of another group follows, for which the stations agree anew.
    Eom,
    /// The last page.
    Eop,
}

/// The two stations of a call.
#[derive(Clone, Copy, Debug, PartialEq, Eq)]
pub enum Side {
    /// The one that called: it sends pages.
    Caller,
    /// The one that was called: it receives them.
    Answerer,
}

/// A signal of one frame. ITU-T T.30, 5.3.6.1 and A.4.
#[derive(Clone, Copy, Debug, PartialEq, Eq)]
pub enum Signal<'a> {
    /// Digital identification signal: what the answerer can do.
    Dis(Caps),
    /// Digital command signal: how pages will be sent.
    Dcs(Params),
    /// Confirmation to receive: the training check was good.
    Cfr,
    /// Failure to train: the training check was bad.
    Ftt,
    /// Facsimile coded data.
    Fcd {
        /// The number of the frame in its block, from 0.
        number: u8,
        /// The frame's octets of the coded page.
        octets: &'a [u8],
    },
    /// Return to control for partial page: the frames of a block are through.
    Rcp,
    /// Partial page signal: a block was sent.
    Pps {
        /// What ends with the block.
        ends: PageEnd,
        /// The number of the page, from 0, modulo 256.
        page: u8,
        /// The number of the block in its page, from 0, modulo 256.
        block: u8,
        /// The number of the block's last frame: its frames less 1.
        last: u8,
    },
    /// Partial page request: 256 bits, the least significant one of the first octet for frame 0; a 1 asks for the
    /// frame.
    Ppr([u8; 32]),
    /// Message confirmation: the block was taken.
    Mcf,
    /// Receive not ready: the block was taken, and the answerer is busy.
    Rnr,
    /// Receive ready: the caller asks if the answerer is ready.
    Rr,
    /// Disconnect: the call is over.
    Dcn,
    /// Any other signal, by its facsimile control field; it can't be written.
    Other(u8),
}
