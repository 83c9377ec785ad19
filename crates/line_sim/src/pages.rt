//! Stored pages that are the document's, and are kept once.

ghost use Rattle.line_sim.specs.Live.{HasAgain, whole_call};
ghost use Rattle.std.specs.Prelude.{◌≡◌, ◌+◌, ◌<◌, ◌≤◌, ◌^◌, [], IsTrue, length};

use crate::call::Call;
use raster::{Page, RowRef, Rows};

/// True if two rows have the same pixels.
fn same_row(row: &RowRef<'_>, other: &RowRef<'_>) -> bool
    ensures same { IsTrue result → row.now ≡ other.now }
    ensures told { row.now ≡ other.now → IsTrue result }
{
    row.width() == other.width() && row.octets() == other.octets()
}

/// True if two pages have the same rows.
fn same_rows(rows: &Rows<'_>, others: &Rows<'_>) -> bool
    ensures same { IsTrue result → rows.now ≡ others.now }
    ensures told { rows.now ≡ others.now → IsTrue result }
{
    if rows.len() != others.len() {
        return false;
    }
    for at in 0..rows.len() {
        if !same_row(&rows.row(at), &others.row(at)) {
            return false;
        }
    }
    true
}

/// True if two pages are the same: their widths, whether their lines are fine, and their rows.
fn same_page(page: &Page, other: &Page) -> bool
    ensures same { IsTrue result → page.now ≡ other.now }
    ensures told { page.now ≡ other.now → IsTrue result }
{
    if page.width() != other.width() || page.fine() != other.fine() {
        return false;
    }
    same_rows(&page.rows(), &other.rows())
}

/// True if the answerer keeps one page, and it is the document's at a place.
fn has_again(call: &Call, at: usize) -> bool
    ensures same { IsTrue result → HasAgain call.now at }
    ensures told { HasAgain call.now at → IsTrue result }
    ensures small { IsTrue result → at + 1 < 2 ^ 64 }
{
    let document = call.caller.pages();
    let [stored] = call.answerer.pages() else {
        return false;
    };
    let Some(page) = document.get(at) else {
        return false;
    };
    same_page(stored, page)
}

/// Lets go of the page that the answerer has just stored if it is the document's at this place, and returns the place of the next one. Takes
/// no memory.
pub(crate) fn keep_once(call: &mut Call, same: usize) -> usize
    ensures whole { whole_call result call.new ≡ whole_call same call.old }
    ensures few { same ≤ length call.old.caller.document → result ≤ length call.new.caller.document }
    ensures none { call.old.answerer.pages ≡ [] → call.new.answerer.pages ≡ [] }
    ensures once { HasAgain call.old same → call.new.answerer.pages ≡ [] }
{
    if !has_again(call, same) {
        return same;
    }
    let _page = call.answerer.take_pages();
    same + 1
}
