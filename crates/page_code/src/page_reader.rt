//! Reading of a page whose code comes in pieces.

ghost use Rattle.page_code.specs.Codings.{read_rows};
ghost use Rattle.page_code.specs.PageCodes.{GivesPage, GivesRows, IsOnlyAnswer, ReadsPage, RefusesPage};
ghost use Rattle.page_code.specs.PageReaders.{GoesOnTo, IsLike, IsPassed, IsRead, StandsAfter, StandsAsBefore, StandsFor};
ghost use Rattle.page_code.specs.RowsSoFar.{AreRowsSoFar, AreWholeRows, IsFurther, IsReadTo, ReadsOn};
ghost use Rattle.page_code.specs.TurnedCodes.{AreTurned, IsTurnedCode};
ghost use Rattle.raster.specs.Packed.{bits_of};
ghost use Rattle.raster.specs.Pixels.{IsWidth};
ghost use Rattle.run_tables.specs.declared.fault.CodeFaultKind.TheVariants.{NoMemory};
ghost use Rattle.std.specs.Bool.{OnTrue};
ghost use Rattle.std.specs.Prelude.{◌≡◌, ◌≢◌, [], List, ℕ, IfErr, IfOk, IfSome, OnErr, OnOk, OnSome, length};

use crate::one_dim::open_row::{self, OpenRow};
use crate::page::Progress;
use crate::turned::{code_of, turned_code};
use crate::{one_dim, t6};
use raster::packed::Order;
use raster::{Coding, Page};
use run_tables::CodeFault;
use std::alloc::{AllocError, Global};
use std::marker::Model;
use std::mem;

/// Reads on from the rows read so far to the page's end, and returns how many bits the page uses.
#[inline(always)]
fn read_rows_on(
    alloc: Global,
    coding: Coding,
    octets: &[u8],
    order: Order,
    to: &mut Progress,
) -> Result<u128, CodeFault>
    requires width { IsWidth to.old.page.width }
    requires read { IsReadTo coding to.old.page.width (bits_of order octets.now) to.old.page.rows to.old.place }
    ensures { ReadsOn coding (bits_of order octets.now) to.old to.new result }
{
    match coding {
        Coding::OneDim => one_dim::read_on(alloc, octets, order, to),
        Coding::T6 => t6::read::read_on(alloc, octets, order, to),
    }
}

/// Why octets can't be read as a page, and how many of its rows can.
#[derive(Clone, Copy, Debug, PartialEq, Eq)]
pub struct RefusedCode {
    /// The bit that is refused, from 0, and why; never `NoMemory`.
    pub fault: CodeFault,
    /// The number of whole rows before it: 0 to 20,000.
    pub rows: u32,
    /// The bit after these rows, at which the next row would begin, with its EOL in the one-dimensional code.
    pub row_start: u128,
}

/// The result of reading octets as a page.
#[derive(Debug, Drop)]
pub enum PageRead {
    /// A page, and the number of bits that it uses.
    Page(Page, u128),
    /// No page: the refusal, and the page of the whole rows before it, which may have none.
    Refused(RefusedCode, Page),
}

/// Reads a page whose octets come in pieces. Each call gets all octets so far, and reads on after the whole
/// rows that were read before, which the reader keeps. If the least significant bit comes first, it keeps a
/// turned copy of the octets, 4 MiB at most, until the page ends or is refused.
#[derive(Debug, Drop)]
pub struct PageReader {
    alloc: Global,
    coding: Coding,
    order: Order,
    progress: Progress,
    passed: OpenRow,
    /// Whether the last octets brought a whole row.
    grew: bool,
    count: u32,
    turned: Vec<u8>,
}

impl Model for PageReader {
    ghost use Rattle.page_code.specs.PageReaders.{PageReading};
    ghost use Rattle.raster.specs.Pixels.{IsWidth};

    ghost Value = { PageReading };

    ghost view = { λ reader. record {
      coding = reader.coding;
      order = reader.order;
      page = reader.progress.page;
      place = reader.progress.place;
      passed = reader.passed;
      count = reader.count;
      turned = reader.turned.items;
    } };

    ghost invariant = { λ reader. IsWidth reader.progress.page.width };
}

/// Whether the next bits show that no more rows can be read, whatever comes after them.
#[inline(always)]
fn is_stuck(coding: Coding, octets: &[u8], order: Order, to: &Progress) -> bool
    requires { IsReadTo coding to.now.page.width (bits_of order octets.now) to.now.page.rows to.now.place }
    ensures { OnTrue result (AreRowsSoFar coding to.now.page.width (bits_of order octets.now) (length to.now.page.rows)) }
{
    match coding {
        Coding::OneDim => false,
        Coding::T6 => t6::read::is_stuck(octets, order, to),
    }
}

/// The row after the whole rows, passed on from where it was passed before, if that shows that no more rows
/// can be read. None if the row is whole, or can be: then it is read from its beginning. Only T.4 needs this.
fn pass_on(
    coding: Coding,
    octets: &[u8],
    order: Order,
    to: &Progress,
    before: OpenRow,
) -> Option<OpenRow>
    requires read { IsReadTo coding to.now.page.width (bits_of order octets.now) to.now.page.rows to.now.place }
    requires before { IsPassed coding to.now.page.width (bits_of order octets.now) to.now.page.rows to.now.place before }
    ensures passed { IfSome result (IsPassed coding to.now.page.width (bits_of order octets.now) to.now.page.rows to.now.place) }
    ensures rows { OnSome result (AreRowsSoFar coding to.now.page.width (bits_of order octets.now) (length to.now.page.rows)) }
{
    match coding {
        Coding::OneDim => open_row::pass(octets, order, to, before),
        Coding::T6 => None,
    }
}

/// Reads on, up to the page's end or a refusal. Errs only if memory is refused.
pub(crate) fn read_further(
    alloc: Global,
    coding: Coding,
    octets: &[u8],
    order: Order,
    to: &mut Progress,
) -> Result<(), AllocError>
    requires width { IsWidth to.old.page.width }
    requires read { IsReadTo coding to.old.page.width (bits_of order octets.now) to.old.page.rows to.old.place }
    ensures { OnOk result (IsFurther coding (bits_of order octets.now) to.old to.new
        × AreRowsSoFar coding to.new.page.width (bits_of order octets.now) (length to.new.page.rows)) }
{
    let stuck = is_stuck(coding, octets, order, to);
    if stuck {
        return Ok(());
    }
    match read_rows_on(alloc, coding, octets, order, to) {
        Ok(_) => Ok(()),
        Err(fault) => {
            if fault.is_memory() {
                Err(AllocError)
            } else {
                Ok(())
            }
        }
    }
}

/// Reads on to the page's end: the page, and the bits used.
#[inline(always)]
pub(crate) fn read_to_end(
    alloc: Global,
    coding: Coding,
    octets: &[u8],
    order: Order,
    progress: Progress,
) -> Result<(Page, u128), CodeFault>
    requires width { IsWidth progress.page.width }
    requires read { IsReadTo coding progress.page.width (bits_of order octets.now) progress.page.rows progress.place }
    ensures { GivesPage (read_rows coding progress.page.width (bits_of order octets.now)) progress.page.width progress.page.fine result }
{
    let mut to = progress;
    let used = read_rows_on(alloc, coding, octets, order, &mut to)?;
    Ok((to.page, used))
}

/// Reads on to the page's end or to a refusal. Errs only if memory is refused.
pub(crate) fn read_whole(
    alloc: Global,
    coding: Coding,
    octets: &[u8],
    order: Order,
    progress: Progress,
) -> Result<PageRead, AllocError>
    requires width { IsWidth progress.page.width }
    requires read { IsReadTo coding progress.page.width (bits_of order octets.now) progress.page.rows progress.place }
    ensures { IfOk result (IsRead coding progress.page.width progress.page.fine (bits_of order octets.now)) }
{
    let mut to = progress;
    match read_rows_on(alloc, coding, octets, order, &mut to) {
        Ok(used) => Ok(PageRead::Page(to.page, used)),
        Err(fault) => {
            if fault.is_memory() {
                return Err(AllocError);
            }
            let refused = RefusedCode {
                fault,
                rows: to.page.rows().len() as u32,
                row_start: to.place,
            };
            Ok(PageRead::Refused(refused, to.page))
        }
    }
}

/// As `read_further`, from octets whose first ones are kept turned. Returns the octets that are turned
/// afterwards.
fn read_further_turned(
    alloc: Global,
    coding: Coding,
    octets: &[u8],
    order: Order,
    kept: Vec<u8>,
    to: &mut Progress,
) -> Result<Vec<u8>, AllocError>
    requires width { IsWidth to.old.page.width }
    requires read { IsReadTo coding to.old.page.width (bits_of order octets.now) to.old.page.rows to.old.place }
    requires kept { AreTurned kept.items octets.now }
    ensures read { OnOk result (IsFurther coding (bits_of order octets.now) to.old to.new
        × AreRowsSoFar coding to.new.page.width (bits_of order octets.now) (length to.new.page.rows)) }
    ensures turned { IfOk result (λ turned. IsTurnedCode order octets.now turned.items) }
{
    let turned = turned_code(alloc, octets, order, kept)?;
    let (code, first) = code_of(octets, order, &turned);
    read_further(alloc, coding, code, first, to)?;
    Ok(turned)
}

/// As `read_to_end`, from octets whose first ones are kept turned.
#[inline(always)]
fn read_to_end_turned(
    alloc: Global,
    coding: Coding,
    octets: &[u8],
    order: Order,
    kept: Vec<u8>,
    progress: Progress,
) -> Result<(Page, u128), CodeFault>
    requires width { IsWidth progress.page.width }
    requires read { IsReadTo coding progress.page.width (bits_of order octets.now) progress.page.rows progress.place }
    requires kept { AreTurned kept.items octets.now }
    ensures { GivesPage (read_rows coding progress.page.width (bits_of order octets.now)) progress.page.width progress.page.fine result }
{
    let turned = turned_code(alloc, octets, order, kept)?;
    let (code, first) = code_of(octets, order, &turned);
    read_to_end(alloc, coding, code, first, progress)
}

/// As `read_whole`, from octets whose first ones are kept turned.
fn read_whole_turned(
    alloc: Global,
    coding: Coding,
    octets: &[u8],
    order: Order,
    kept: Vec<u8>,
    progress: Progress,
) -> Result<PageRead, AllocError>
    requires width { IsWidth progress.page.width }
    requires read { IsReadTo coding progress.page.width (bits_of order octets.now) progress.page.rows progress.place }
    requires kept { AreTurned kept.items octets.now }
    ensures { IfOk result (IsRead coding progress.page.width progress.page.fine (bits_of order octets.now)) }
{
    let turned = turned_code(alloc, octets, order, kept)?;
    let (code, first) = code_of(octets, order, &turned);
    read_whole(alloc, coding, code, first, progress)
}

impl PageReader {
    ghost use Rattle.page_code.specs.Codings.{IsLongestIn, ReadsIn};

    /// Makes a reader of pages in this code, order of bits and width in pixels, 1 to 2,432, that has read no
    /// octets. Takes no memory.
    pub fn new(alloc: Global, coding: Coding, order: Order, width: u32, fine: bool) -> PageReader
        requires { IsWidth width }
        ensures coding { result.coding ≡ coding }
        ensures order { result.order ≡ order }
        ensures width { result.page.width ≡ width }
        ensures fine { result.page.fine ≡ fine }
        ensures stands { StandsFor result [] }
    {
        PageReader {
            alloc,
            coding,
            order,
            progress: Progress::new(alloc, width, fine),
            passed: OpenRow::Zeros(0),
            grew: false,
            count: 0,
            turned: Vec::new(alloc),
        }
    }

    /// Reads on in `all`, which must begin with the octets read before, and keeps the whole rows. A fault of
    /// the code isn't reported here. Errs if memory is refused, which leaves the reader at the octets that it
    /// had read.
    pub fn read_on(&mut self, all: &[u8]) -> Result<(), AllocError>
        requires { GoesOnTo self.old all.now }
        ensures like { IsLike self.old self.new }
        ensures ok { OnOk result (StandsFor self.new all.now) }
        ensures kept { OnOk result (length self.new.page.rows ≡ self.new.count) }
        ensures err { OnErr result (StandsAsBefore self.old self.new) }
    {
        // a row that is new is most often whole with the next octets, and isn't passed before
        if !self.grew {
            let passed = pass_on(self.coding, all, self.order, &self.progress, self.passed);
            if let Some(passed) = passed {
                self.passed = passed;
                self.count = self.progress.page.rows().len() as u32;
                return Ok(());
            }
        }
        self.passed = OpenRow::Zeros(0);
        let before = self.progress.page.rows().len();
        let width = self.progress.page.width();
        let fine = self.progress.page.fine();
        let kept = mem::replace(&mut self.turned, Vec::new(self.alloc));
        let read = read_further_turned(
            self.alloc,
            self.coding,
            all,
            self.order,
            kept,
            &mut self.progress,
        );
        let Ok(turned) = read else {
            self.progress = Progress::new(self.alloc, width, fine);
            return Err(AllocError);
        };
        let rows = self.progress.page.rows().len();
        self.count = rows as u32;
        self.grew = rows > before;
        self.turned = turned;
        Ok(())
    }

    /// Returns what `Coding::decode` returns for `all`, which must begin with the octets read before: the
    /// page and the number of bits used, or a refusal. After a page the reader begins anew; after an error it
    /// is at the octets that it had read.
    pub fn finish(&mut self, all: &[u8]) -> Result<(Page, u128), CodeFault>
        requires { GoesOnTo self.old all.now }
        ensures like { IsLike self.old self.new }
        ensures ok { OnOk result (StandsFor self.new []) }
        ensures err { OnErr result (StandsAsBefore self.old self.new) }
        ensures reads { IfOk result (λ read. ReadsPage (ReadsIn self.old.coding) self.old.page.width self.old.page.fine
            (bits_of self.old.order all.now) read.0 read.1) }
        ensures only { IsOnlyAnswer (ReadsIn self.old.coding) self.old.page.width (bits_of self.old.order all.now) result }
        ensures refuses { IfErr result (λ fault. fault.kind ≢ NoMemory
            → RefusesPage (ReadsIn self.old.coding) (IsLongestIn self.old.coding) self.old.page.width
            (bits_of self.old.order all.now) fault) }
        ensures gives { GivesRows (read_rows self.old.coding self.old.page.width (bits_of self.old.order all.now)) result }
        ensures memory { IfErr result (λ fault. fault.kind ≡ NoMemory → fault.place ≡ 0) }
    {
        let width = self.progress.page.width();
        let fine = self.progress.page.fine();
        let begun = Progress::new(self.alloc, width, fine);
        let progress = mem::replace(&mut self.progress, begun);
        self.passed = OpenRow::Zeros(0);
        let kept = mem::replace(&mut self.turned, Vec::new(self.alloc));
        match read_to_end_turned(self.alloc, self.coding, all, self.order, kept, progress) {
            Ok(answer) => {
                self.count = 0;
                Ok(answer)
            }
            Err(fault) => Err(fault.begun_at(0)),
        }
    }

    /// Returns the page that `finish` returns for `all`, which must begin with the octets read before, or its
    /// refusal with the whole rows before it. After a page the reader begins anew; after a refusal it is at
    /// the octets that it had read, also if memory is refused, which is the only error.
    pub fn page(&mut self, all: &[u8]) -> Result<PageRead, AllocError>
        requires { GoesOnTo self.old all.now }
        ensures like { IsLike self.old self.new }
        ensures stands { IfOk result (StandsAfter self.old self.new) }
        ensures err { OnErr result (StandsAsBefore self.old self.new) }
        ensures read { IfOk result (IsRead self.old.coding self.old.page.width self.old.page.fine (bits_of self.old.order all.now)) }
    {
        let width = self.progress.page.width();
        let fine = self.progress.page.fine();
        let begun = Progress::new(self.alloc, width, fine);
        let progress = mem::replace(&mut self.progress, begun);
        self.passed = OpenRow::Zeros(0);
        let kept = mem::replace(&mut self.turned, Vec::new(self.alloc));
        match read_whole_turned(self.alloc, self.coding, all, self.order, kept, progress) {
            Ok(PageRead::Page(page, used)) => {
                self.count = 0;
                Ok(PageRead::Page(page, used))
            }
            Ok(PageRead::Refused(refused, rows)) => Ok(PageRead::Refused(refused, rows)),
            Err(AllocError) => Err(AllocError),
        }
    }

    /// The number of whole rows that the octets read so far spell from their beginning: 0 to 20,000. Takes no
    /// memory.
    pub fn rows(&self) -> u32
        ensures { (octets : List ℕ) → StandsFor self.now octets
            → AreRowsSoFar self.now.coding self.now.page.width (bits_of self.now.order octets) result }
    {
        self.count
    }
}
