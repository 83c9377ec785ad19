//! Documents, for C: the pages of a call, in order.

ghost use Rattle.g3fax.specs.Codes.{coding_of};
ghost use Rattle.g3fax.specs.Documents.{AppendsPage, CodesAll, MovesPage, pages_of};
ghost use Rattle.g3fax.specs.Handles.{Fills, HasDocument, OfDocument};
ghost use Rattle.std.specs.Prelude.{◌≡◌, ◌≢◌, IfErr, IfOk, None, length};

use crate::codes::coding_of;
use crate::handle::{G3Handle, Kept, opened};
use crate::status::{BAD_CHOICE, EMPTY_HANDLE, NO_MEMORY, NO_ROWS, NOTHING, OK, OTHER_HANDLE};
use raster::{Document, Page};
use stations::CodedDocument;
use std::alloc::Global;

/// Makes a document without pages in an empty handle. Returns `G3_FULL_HANDLE` (102) or `G3_NO_MEMORY` (9).
#[unsafe(no_mangle)]
pub extern "C" fn g3_core_document_new(alloc: Global, out: &mut G3Handle) -> u32
    ensures { Fills (HasDocument (λ pages. pages ≡ None)) out.old.value result out.new.value }
{
    out.fill(alloc, Kept::Document(None))
}

/// Returns a copy of a page. Errors: 9.
pub(crate) fn copied(alloc: Global, page: &Page) -> Result<Page, u32>
    ensures ok { IfOk result (λ copy. copy ≡ page.now) }
    ensures only { IfErr result (λ status. status ≡ 9) }
{
    let rows = page.rows();
    let mut copy = match Page::new(alloc, page.width(), page.fine()) {
        Ok(copy) => copy,
        Err(fault) => return Err(fault.number() as u32),
    };
    for row in rows {
        if let Err(fault) = copy.push_lent(&row) {
            return Err(fault.number() as u32);
        }
    }
    Ok(copy)
}

/// Appends a copy of a page.
fn append(alloc: Global, document: &mut Option<CodedDocument>, page: &Page) -> u32
    ensures { AppendsPage document.old page.now document.new result }
{
    if page.rows().is_empty() {
        return NO_ROWS;
    }
    // `Document::push` drops its page if memory is refused, so a copy is pushed, and the page in the handle stays until it is done
    let copy = match copied(alloc, page) {
        Ok(copy) => copy,
        Err(status) => return status,
    };
    if let Some(pages) = document {
        return match pages.push(copy) {
            Ok(()) => OK,
            Err(fault) => fault.number() as u32,
        };
    }
    match Document::new(alloc, copy) {
        Ok(pages) => {
            *document = Some(CodedDocument::uncoded(alloc, pages));
            OK
        }
        Err(fault) => fault.number() as u32,
    }
}

/// Moves a page to the end of a document; the page's handle is empty then. Returns `G3_EMPTY_HANDLE` (100) or `G3_OTHER_HANDLE` (101) for
/// either handle, the page's first; `G3_NO_ROWS` (4); `G3_NO_MEMORY` (9). By these both handles stay.
#[unsafe(no_mangle)]
pub extern "C" fn g3_core_document_push(
    alloc: Global,
    document: &mut G3Handle,
    page: &mut G3Handle,
) -> u32
    ensures { MovesPage page.old.value page.new.value document.old.value document.new.value result }
{
    match page.take(alloc) {
        None => EMPTY_HANDLE,
        Some(kept) => {
            let status = match &*kept {
                Kept::Page(pixels) => {
                    opened!(alloc, document, Document, pages => append(alloc, pages, pixels))
                }
                _ => OTHER_HANDLE,
            };
            if status != OK {
                page.put(kept);
            }
            status
        }
    }
}

/// Returns the number of pages.
fn count_pages(document: &Option<CodedDocument>) -> u64
    ensures { result ≡ length (pages_of document.now) }
{
    match document {
        Some(document) => document.pages().len() as u64,
        None => 0,
    }
}

/// Tells how many pages a document has.
#[unsafe(no_mangle)]
pub extern "C" fn g3_core_document_pages(
    alloc: Global,
    document: &mut G3Handle,
    count: &mut u64,
) -> u32
    ensures answers { OfDocument (λ pages. (result ≡ 0) × (count.new ≡ length (pages_of pages))) document.old.value result }
    ensures kept { document.new.value ≡ document.old.value }
    ensures untold { result ≢ 0 → count.new ≡ count.old }
{
    opened!(alloc, document, Document, pages => {
            *count = count_pages(pages);
            OK
        })
}

/// Codes each page of a document.
fn code_all(alloc: Global, document: &mut Option<CodedDocument>, coding: u32) -> u32
    ensures answers { CodesAll (coding_of coding) document.old result }
    ensures kept { document.new ≡ document.old }
{
    let Some(coding) = coding_of(coding) else {
        return BAD_CHOICE;
    };
    let Some(pages) = document else {
        return NOTHING;
    };
    match pages.code(alloc, coding) {
        Ok(()) => OK,
        Err(_) => NO_MEMORY,
    }
}

/// Codes each page of a document now, so that no call which agrees on this code codes one: the document has the codes as long as its pages.
/// Returns `G3_EMPTY_HANDLE` (100), `G3_OTHER_HANDLE` (101), `G3_BAD_CHOICE` (104) for an unknown code, `G3_NOTHING` (106) without a page, or
/// `G3_NO_MEMORY` (9). By any of these the document keeps the codes that it had.
#[unsafe(no_mangle)]
pub extern "C" fn g3_core_document_code(alloc: Global, document: &mut G3Handle, coding: u32) -> u32
    ensures answers { OfDocument (λ pages. CodesAll (coding_of coding) pages result)
        document.old.value result }
    ensures kept { document.new.value ≡ document.old.value }
{
    opened!(alloc, document, Document, pages => code_all(alloc, pages, coding))
}
