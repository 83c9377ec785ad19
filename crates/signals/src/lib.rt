//! The signals of Group 3 fax, read and written, and what two stations agree on: ITU-T T.30, 5.3. It uses `raster` for
//! the bits of octets and the name of a page's code.
#![tactic(auto)]

mod agreement;
mod control;
mod fault;
pub mod laws;
mod mark;
mod params;
mod reading;
mod reason;
mod signal;
mod training;
mod writing;

pub use crate::agreement::{NotCompatible, agree, allows, lower};
pub use crate::fault::SignalFault;
pub use crate::mark::{Mark, Pps};
pub use crate::params::{Caps, Modems, PageWidth, Params, Speed, Wish};
pub use crate::reading::read;
pub use crate::reason::{Reason, why_not};
pub use crate::signal::{PageEnd, Side, Signal};
pub use crate::training::{training_good, training_len};
pub use crate::writing::write;
