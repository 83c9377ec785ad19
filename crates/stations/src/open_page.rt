//! The page that an answerer has open: its octets so far, which are read as its blocks come.

ghost use Rattle.page_code.specs.PageReaders.{GoesOnTo, IsLike};
ghost use Rattle.partial_page.specs.Store.{joined_frames};
ghost use Rattle.raster.specs.Words.{turned_octet};
ghost use Rattle.std.specs.Prelude.{◌≡◌, ◌+◌, ◌++◌, ◌↔◌, ℕ, List, [], true, IfOk, IsTrue, OnErr, OnOk, length, map};
ghost use Rattle.partial_page.specs.Assembling.{all_there};
ghost use Rattle.stations.specs.BadPages.{IsRefused, front_octets, refused_octets};
ghost use Rattle.stations.specs.Layers.{page_read};
ghost use Rattle.stations.specs.OpenPage.{AppendsTurned, AreReadAlike, IsReaderOf, TakesOctets};

use crate::bad_page::RefusedPage;
use page_code::{PageRead, PageReader, turn_from};
use partial_page::{BlockAssembler, BlockStore, MAX_PAGE_OCTETS};
use raster::Page;
use raster::packed::Order;
use signals::Params;
use std::alloc::{AllocError, Global};
use std::fmt;
use std::marker::Model;

/// The page that is open: how it is sent, its octets so far, and the reader of a beginning of them. The octets are kept
/// as they are read, with the bit that came first as the most significant, so that there is no second copy for that.
#[derive(Drop)]
pub(crate) struct OpenPage {
    alloc: Global,
    params: Params,
    turned: Vec<u8>,
    reader: PageReader,
}

impl Model for OpenPage {
    ghost use Rattle.raster.specs.Words.{turned_octet};
    ghost use Rattle.stations.specs.OpenPage.{IsReaderOf, OpenOctets};
    ghost use Rattle.std.specs.Prelude.{map};

    ghost Value = { OpenOctets };

    ghost view = { λ p. record { params = p.params; octets = map turned_octet p.turned.items } };

    ghost invariant = { λ p. IsReaderOf p.params p.turned.items p.reader };
}

impl fmt::Debug for OpenPage {
    fn fmt<W: fmt::Write>(&self, f: &mut fmt::Formatter<W>) -> fmt::Result {
        f.debug_struct("OpenPage")
            .field("params", &self.params)
            .field("turned", &self.turned)
            .finish()
    }
}

impl OpenPage {
    /// A page with no octets yet, to be read by these parameters. Takes no memory.
    pub(crate) fn new(alloc: Global, params: Params) -> OpenPage
        ensures { result ≡ record { params = params; octets = [] } }
    {
        OpenPage {
            alloc,
            params,
            turned: Vec::new(alloc),
            reader: reader_of(alloc, params),
        }
    }

    /// How the page is sent.
    pub(crate) fn params(&self) -> Params
        ensures { result ≡ self.now.params }
    {
        self.params
    }

    /// How many octets the page has.
    pub(crate) fn octet_count(&self) -> u64
        ensures { result ≡ length self.now.octets }
    {
        self.turned.len() as u64
    }

    /// The page is sent by these parameters from now on; if they change how it is read, it is read anew. Takes no
    /// memory.
    pub(crate) fn agree(&mut self, params: Params)
        ensures { self.new ≡ record self.old { params = params } }
    {
        let alike = are_read_alike(self.params, params);
        self.params = params;
        if alike {
            return;
        }
        self.reader = reader_of(self.alloc, params);
    }

    /// The page has no octets from now on. Takes no memory.
    pub(crate) fn clear(&mut self)
        ensures { self.new ≡ record self.old { octets = [] } }
    {
        self.turned.clear();
        self.reader = reader_of(self.alloc, self.params);
    }

    /// Appends the frames 0 to `last` of a block and reads on; false if the page is then too long. `AllocError` if
    /// memory is refused.
    pub(crate) fn take(&mut self, block: &BlockAssembler, last: u8) -> Result<bool, AllocError>
        requires whole { all_there block.now.frames.frames last ≡ true }
        ensures { TakesOctets self.old self.new result (self.old.octets ++ joined_frames block.now.frames.frames (last + 1)) }
    {
        let start = self.turned.len();
        append_turned(block, last, &mut self.turned)?;
        if self.turned.len() > MAX_PAGE_OCTETS {
            self.turned.truncate(start);
            return Ok(false);
        }
        // Reading block by block spreads the time and the memory that a page takes; no clause asks for it.
        if self.reader.read_on(&self.turned).is_err() {
            self.turned.truncate(start);
            return Err(AllocError);
        }
        Ok(true)
    }

    /// Reads the page from its octets and the frames 0 to `last` of a block; None if they begin with no page, or are
    /// too many. `AllocError` if memory is refused.
    pub(crate) fn finish(
        &mut self,
        block: &BlockAssembler,
        last: u8,
    ) -> Result<Option<Page>, AllocError>
        requires whole { all_there block.now.frames.frames last ≡ true }
        ensures same { self.new ≡ self.old }
        ensures page { IfOk result (λ page.
            page ≡ page_read self.old.params (self.old.octets ++ joined_frames block.now.frames.frames (last + 1))) }
    {
        let start = self.turned.len();
        append_turned(block, last, &mut self.turned)?;
        let read = read_page(&mut self.reader, self.params, &self.turned);
        self.turned.truncate(start);
        read
    }

    /// The page as it is refused: its octets, then the frames of a block from 0 on, up to the first that is missing,
    /// also those after the last one counted. `AllocError` if memory is refused.
    pub(crate) fn refused(&self, store: &BlockStore) -> Result<RefusedPage, AllocError>
        ensures { IfOk result (λ page. IsRefused self.now.params (refused_octets self.now.octets store.now.frames) page) }
    {
        let mut octets = Vec::new(self.alloc);
        octets.extend_from_slice(&self.turned)?;
        turn_from(&mut octets, 0);
        append_front(store, &mut octets)?;
        RefusedPage::new(self.alloc, self.params, octets)
    }
}

/// Appends the frames 0 to `last` of a block, each octet turned. `AllocError` if memory is refused.
fn append_turned(block: &BlockAssembler, last: u8, turned: &mut Vec<u8>) -> Result<(), AllocError>
    requires whole { all_there block.now.frames.frames last ≡ true }
    ensures ok { OnOk result (AppendsTurned turned.old.items turned.new.items (joined_frames block.now.frames.frames (last + 1))) }
    ensures err { OnErr result (turned.new.items ≡ turned.old.items) }
{
    let start = turned.len();
    block.append_to(last, turned)?;
    turn_from(turned, start);
    Ok(())
}

/// Appends the frames from 0 on, up to the first that isn't there. `AllocError` if memory is refused.
fn append_front(store: &BlockStore, octets: &mut Vec<u8>) -> Result<(), AllocError>
    ensures { OnOk result (octets.new.items ≡ octets.old.items ++ front_octets store.now.frames) }
{
    let _ready = store.ready(); // for the proof: what every store keeps to
    for number in 0u16..256 {
        let Some(kept) = store.frame(number as u8) else {
            return Ok(());
        };
        octets.extend_from_slice(kept)?;
    }
    Ok(())
}

/// A reader of pages that are sent by these parameters, from turned octets. Takes no memory.
fn reader_of(alloc: Global, params: Params) -> PageReader
    ensures { (turned : List ℕ) → IsReaderOf params turned result }
{
    let width = params.width.pixels();
    PageReader::new(alloc, params.coding, Order::MsbFirst, width, params.fine)
}

/// Whether pages of these and of other parameters are read alike.
fn are_read_alike(params: Params, other: Params) -> bool
    ensures { IsTrue result ↔ AreReadAlike params other }
{
    params.coding == other.coding
        && params.width.pixels() == other.width.pixels()
        && params.fine == other.fine
}

/// Reads the page that octets begin with, given turned; None if they begin with no page, or are too many.
fn read_page(
    reader: &mut PageReader,
    params: Params,
    turned: &[u8],
) -> Result<Option<Page>, AllocError>
    requires { IsReaderOf params turned.now reader.old }
    ensures page { IfOk result (λ page. page ≡ page_read params (map turned_octet turned.now)) }
    ensures like { IsLike reader.old reader.new }
    ensures goes_on { (all : List ℕ) → GoesOnTo reader.old all → GoesOnTo reader.new all }
{
    if turned.len() > MAX_PAGE_OCTETS {
        return Ok(None);
    }
    match reader.page(turned) {
        Ok(PageRead::Page(page, _used)) => Ok(Some(page)),
        Ok(PageRead::Refused(_refused, _rows)) => Ok(None),
        Err(AllocError) => Err(AllocError),
    }
}
