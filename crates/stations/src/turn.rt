//! Turns, ends and states.

/// What a station transmits after an input.
#[derive(Clone, Copy, Debug, PartialEq, Eq)]
pub enum Turn {
    /// Nothing is sent.
    Silent,
    /// DIS: what the answerer can do.
    Dis,
    /// DCS, then a training check at the message speed.
    Training,
    /// CFR: the training check was good.
    Cfr,
    /// FTT: the training check was bad.
    Ftt,
    /// The FCDs of the present block that the map marks, three RCPs, then PPS. The map is a PPR's: the least
    /// significant bit of the first octet for frame 0.
    Burst([u8; 32]),
    /// PPS of the present block alone, once more.
    Pps,
    /// MCF: the block is accepted.
    Mcf,
    /// PPR with its map: a 1 asks for a frame.
    Ppr([u8; 32]),
    /// RNR in place of MCF, while the answerer is busy.
    Rnr,
    /// RR: the caller asks if the answerer is ready.
    Rr,
    /// DCN: the call is over.
    Dcn,
}

/// Why a call ended.
#[derive(Clone, Copy, Debug, PartialEq, Eq)]
pub enum End {
    /// All pages went over; of an answerer, the caller left after the document's last block was accepted.
    Normal,
    /// T1 was over: no DIS came, or no caller was heard any more.
    NoAnswer,
    /// A DIS came with which nothing can be agreed for the page due.
    NotCompatible,
    /// The training check failed, and there is no lower speed to try.
    Training,
    /// A command had no reply after three tries.
    NoReply,
    /// A block was asked for again by a fourth PPR.
    Unreadable,
    /// T5 was over: the answerer was busy for too long.
    StillBusy,
    /// The other station sent DCN before the end.
    PeerLeft,
    /// An answerer couldn't read a page, or its code was too long.
    BadPage,
    /// The code of a caller's page has more than 8,388,608 octets.
    PageTooLong,
}

/// What the caller waits for.
#[derive(Clone, Copy, Debug, PartialEq, Eq)]
pub enum CallerState {
    /// A DIS.
    WaitDis,
    /// A CFR.
    WaitCfr,
    /// The reply to a block.
    WaitBlock,
    /// The reply to RR.
    WaitReady,
}

/// What the answerer waits for.
#[derive(Clone, Copy, Debug, PartialEq, Eq)]
pub enum AnswererState {
    /// It waits for a DCS.
    PhaseB,
    /// It waits for a training check.
    WaitTraining,
    /// It takes blocks.
    Message,
}
