//! What was expected where a page is refused.
use raster::Color;

/// What is expected at a refused bit of a page in the one-dimensional code.
#[derive(Clone, Copy, Debug, PartialEq, Eq)]
pub enum Expected {
    /// The code word of a run of this color.
    RunOf(Color),
    /// An EOL, after a whole row.
    Eol,
}
