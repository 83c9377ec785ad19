//! The library for C: pages and their codes, frames, documents and terminals, behind handles. Each exported function returns a
//! status, 0 if it did what it says; results go out through references.
#![tactic(auto)]

mod agreed;
mod agreeing;
mod answering;
mod beginning;
mod bursts;
mod codes;
mod documents;
mod figures;
mod frames;
mod handle;
mod hearing;
mod identifying;
mod images;
mod kinds;
pub mod laws;
mod loose;
mod next_pages;
mod numbers;
mod octets;
mod pages;
mod pixels;
mod progress;
mod rasters;
mod redials;
mod repairs;
mod row_coders;
mod row_readers;
mod signal;
mod signalling;
mod states;
mod status;
mod taking;
mod texts;
mod ticking;
mod wrong;

pub use crate::answering::Answering;
pub use crate::beginning::{G3Caps, G3Wish};
pub use crate::bursts::G3Burst;
pub use crate::codes::{G3Code, G3End};
pub use crate::figures::G3Figures;
pub use crate::frames::G3Counts;
pub use crate::handle::{G3Handle, Kept};
pub use crate::identifying::G3Found;
pub use crate::pages::G3Size;
pub use crate::progress::G3Progress;
pub use crate::rasters::G3Raster;
pub use crate::signal::{G3Block, G3Dis, G3Params, G3Signal, Kind};
pub use crate::states::G3State;
