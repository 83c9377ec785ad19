//! A document whose pages can be coded before a call, so that several calls code it once.

ghost use Rattle.raster.specs.Packed.{FillsOctets};
ghost use Rattle.raster.specs.Pages.{IsDocument, PushesPage};
ghost use Rattle.raster.specs.Octets.{packed};
ghost use Rattle.raster.specs.declared.packed.Order.TheVariants.{LsbFirst};
ghost use Rattle.std.specs.Prelude.{◌≡◌, ◌<◌, Bool, List, drop, length, map, slice_get, IfOk, IfSome};
ghost use Rattle.stations.specs.CodedDocuments.{AreCodes, IsCodeAt, coded_page};

use page_code::{CodesPages, Coding};
use raster::packed::Order;
use raster::{Document, Page, RasterFault};
use std::alloc::{AllocError, Global};
use std::marker::Model;

/// The octets of a page's code.
#[derive(Debug, Drop)]
struct PageOctets {
    octets: Vec<u8>,
}

impl Model for PageOctets {
    ghost use Rattle.std.specs.Prelude.{List, ℕ};

    ghost Value = { List ℕ };

    ghost view = { λ code. code.octets.items };
}

/// A document, and the codes of its first pages in one coding, as many as were made. Contracts see the document alone: a
/// caller sends the same with the codes as without them.
#[derive(Debug, Drop)]
pub struct CodedDocument {
    document: Document,
    coding: Coding,
    codes: Vec<PageOctets>,
}

impl Model for CodedDocument {
    ghost use Rattle.stations.specs.CodedDocuments.{AreCodes};
    ghost use Rattle.stations.specs.Layers.{Document};

    ghost Value = { Document };

    ghost view = { λ d. d.document };

    ghost invariant = { λ d. AreCodes d.coding d.document d.codes.items };
}

impl CodedDocument {
    /// A document of which no page is coded: a caller codes each page when it is due. Takes no memory.
    pub fn uncoded(alloc: Global, document: Document) -> CodedDocument
        ensures { result ≡ document }
    {
        CodedDocument {
            document,
            coding: Coding::OneDim,
            codes: Vec::new(alloc),
        }
    }

    /// Codes each page of a document. A caller that agrees on another coding codes its pages anew. `AllocError` if memory
    /// is refused.
    pub fn coded(
        alloc: Global,
        document: Document,
        coding: Coding,
    ) -> Result<CodedDocument, AllocError>
        ensures { IfOk result (λ coded. coded ≡ document) }
    {
        let codes = codes_of(alloc, document.pages(), coding)?;
        Ok(CodedDocument {
            document,
            coding,
            codes,
        })
    }

    /// Appends a page, which isn't coded. Errs with `NoRows` if it has no row, and with `NoMemory`; after an error the
    /// document is as it was, and the page is dropped.
    #[tactic(auto, using(crate::proofs::CodedPages::pushed))]
    pub fn push(&mut self, page: Page) -> Result<(), RasterFault>
        ensures { PushesPage self.old page self.new result }
    {
        self.document.push(page)
    }

    /// Codes each page, unless all are coded so; codes in another coding are dropped then. `AllocError` if memory is
    /// refused, and the document keeps the codes that it had.
    pub fn code(&mut self, alloc: Global, coding: Coding) -> Result<(), AllocError>
        ensures { self.new ≡ self.old }
    {
        if coding == self.coding && self.codes.len() == self.document.pages().len() {
            return Ok(());
        }
        self.codes = codes_of(alloc, self.document.pages(), coding)?;
        self.coding = coding;
        Ok(())
    }

    /// Returns a document, whose pages are those of this one from a number on, with copies of their codes. `AllocError`
    /// if memory is refused.
    #[tactic(auto, using(crate::proofs::CodedPages::dropped))]
    pub fn with_codes(
        &self,
        alloc: Global,
        document: Document,
        first: usize,
    ) -> Result<CodedDocument, AllocError>
        requires { document ≡ drop first self.now }
        ensures { IfOk result (λ coded. coded ≡ document) }
    {
        let codes = if first < self.codes.len() {
            let (_before, after) = self.codes.split_at(first);
            copied_codes(alloc, after)?
        } else {
            Vec::new(alloc)
        };
        Ok(CodedDocument {
            document,
            coding: self.coding,
            codes,
        })
    }

    /// The pages in order, borrowed.
    pub fn pages(&self) -> &[Page]
        ensures pages { result.now ≡ self.now }
        ensures document { IsDocument self.now }
    {
        self.document.pages()
    }

    /// The document alone; the codes are dropped.
    pub fn into_document(self) -> Document
        ensures { result ≡ self }
    {
        self.document
    }

    /// The octets of the code of the page at a number, from 0, in a coding, if they were made.
    #[tactic(auto, using(crate::proofs::CodedPages::got))]
    pub(crate) fn made(&self, number: usize, coding: Coding) -> Option<&[u8]>
        ensures { IfSome result (λ octets. IsCodeAt coding self.now number octets.now) }
    {
        if coding != self.coding {
            return None;
        }
        let code = self.codes.get(number)?;
        Some(&code.octets)
    }
}

/// The octets of the code of each page.
fn codes_of(alloc: Global, pages: &[Page], coding: Coding) -> Result<Vec<PageOctets>, AllocError>
    requires { IsDocument pages.now }
    ensures { IfOk result (λ codes. codes.items ≡ map (coded_page coding) pages.now) }
{
    let mut codes = Vec::new(alloc);
    for page in pages {
        let octets = code_page(alloc, coding, page)?;
        codes.push(PageOctets { octets })?;
    }
    Ok(codes)
}

/// A copy of codes.
fn copied_codes(alloc: Global, codes: &[PageOctets]) -> Result<Vec<PageOctets>, AllocError>
    ensures { IfOk result (λ copy. copy.items ≡ codes.now) }
{
    let mut copy = Vec::new(alloc);
    for code in codes {
        let octets = copied(alloc, &code.octets)?;
        copy.push(PageOctets { octets })?;
    }
    Ok(copy)
}

/// The octets of a page's code, the least significant bit of each first.
pub(crate) fn code_page(alloc: Global, coding: Coding, page: &Page) -> Result<Vec<u8>, AllocError>
    requires { 0 < length page.now.rows }
    ensures { IfOk result (λ octets. octets.items ≡ coded_page coding page.now) }
{
    let mut octets = Vec::new(alloc);
    coding.encode(alloc, page, Order::LsbFirst, &mut octets)?;
    are_packed(&octets);
    Ok(octets)
}

/// A copy of octets.
pub(crate) fn copied(alloc: Global, octets: &[u8]) -> Result<Vec<u8>, AllocError>
    ensures { IfOk result (λ copy. copy.items ≡ octets.now) }
{
    let mut copy = Vec::new(alloc);
    copy.extend_from_slice(octets)?;
    Ok(copy)
}

/// Octets that bits fill are the packed bits. Nothing runs.
fn are_packed(octets: &[u8])
    ensures { (bits : List Bool) → FillsOctets LsbFirst bits octets.now → octets.now ≡ packed bits }
{}
