//! The codes of pages, by name. `page_code` writes and reads them; a DCS names one.

/// The name of a code of pages.
#[derive(Clone, Copy, Debug, PartialEq, Eq)]
pub enum Coding {
    /// The one-dimensional code of ITU-T T.4, 4.1 (MH).
    OneDim,
    /// The two-dimensional code of ITU-T T.6 (MMR).
    T6,
}
