//! The changing element a0, from which the next mode is coded or read (ITU-T T.6, 2.2.1).

use raster::Color;

/// The starting changing element a0: its place, whether it is on the coding line yet, and its color.
#[derive(Clone, Copy, Debug, PartialEq, Eq)]
pub(crate) struct A0 {
    pub(crate) place: u32,
    pub(crate) begun: bool,
    pub(crate) color: Color,
}
