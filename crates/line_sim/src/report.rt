//! The report of a call.

use crate::event::Entry;
use raster::Page;
use stations::End;

/// The final state of a call, with its transcript.
#[derive(Debug, Drop)]
pub struct Report {
    /// The pages that the answerer has stored, in order.
    pub pages: Vec<Page>,
    /// How many pages the caller counts as confirmed.
    pub confirmed: u64,
    /// Why the call ended for the caller, if it has.
    pub caller_end: Option<End>,
    /// Why the call ended for the answerer, if it has.
    pub answerer_end: Option<End>,
    /// In how many events of the transcript a growth was refused.
    pub refused: u64,
    /// How many events of a run found no room for their entry: nothing happened in them. It is 0 for a world that is given its events one
    /// by one, which reports each of these events to its caller and doesn't count them.
    pub left_out: u64,
    /// The entries of the events, in order; an event that found no room for its entry isn't among them.
    pub transcript: Vec<Entry>,
}
