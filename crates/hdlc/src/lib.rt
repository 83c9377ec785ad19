//! Frames of HDLC as facsimile stations send them (ISO/IEC 13239; ITU-T T.30, 5.3): contents written
//! as bits between flags, and found again in bits that come in any pieces. It uses `raster` and
//! `run_tables`.
#![tactic(auto)]

mod bit_buffer;
mod check_sequence;
mod counts;
mod deframer;
mod flag_finder;
mod frame;
mod gap;
mod gathering;
pub mod laws;
mod octet_buffer;
mod remainders;
mod stuffing;
mod unstuffing;

pub use crate::check_sequence::fcs;
pub use crate::counts::{Class, Counts};
pub use crate::deframer::Deframer;
pub use crate::frame::write_frame;
