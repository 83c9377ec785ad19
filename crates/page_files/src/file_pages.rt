//! The pages of a file one after another, each read where it lies: the time that they take grows with the file alone.

ghost use Rattle.faults.specs.Faults.{IsOutside};
ghost use Rattle.page_files.specs.Answers.{TellsPage};
ghost use Rattle.page_files.specs.CodedPages.{WritesPage};
ghost use Rattle.page_files.specs.Decodings.{GivesPage, IsKept, KeepsReadTo, RefusesDecoding, RefusesKept};
ghost use Rattle.page_files.specs.TurnedPages.{PagesLeft, in_msb, msb_form};
ghost use Rattle.page_files.specs.LaterPages.{AfterMark, AfterPage, BeginsWith, HasNoMark, IsFrom, Passes};
ghost use Rattle.page_files.specs.Marks.{end_of_mark};
ghost use Rattle.page_files.specs.PageEnds.{LacksEnd};
ghost use Rattle.page_files.specs.Sources.{IsPageIn};
ghost use Rattle.page_code.specs.PageReaders.{IsPageRefused};
ghost use Rattle.raster.specs.Packed.{bits_of};
ghost use Rattle.raster.specs.Pixels.{IsWidth};
ghost use Rattle.raster.specs.declared.packed.Order.TheVariants.{MsbFirst};
ghost use Rattle.std.specs.Prelude.{◌≡◌, ◌≢◌, ◌≤◌, ◌<◌, ◌*◌, [], ℕ, List, Some, None, drop, length, slice_index};
ghost use Rattle.std.specs.Prelude.{IfErr, IfNone, IfOk, IfSome, OnErr, true};

use crate::answer::{DecodeAnswer, answer_decoded};
use crate::coded::read_code;
use crate::decoding::{Broken, Decoded, ReadTo, decode_page, decoded_of};
use crate::later_pages::{later_in, without_first};
use crate::marks::end_of_mark;
use crate::options::{DecodeOptions, PageForm};
use crate::page_end::lacks_end;
use crate::source::FoundPage;
use faults::ToolFault;
use page_code::{RefusedCode, turn_from};
use raster::packed::Order;
use std::alloc::Global;
use std::marker::Model;

/// The pages of a file that are left.
#[derive(Drop)]
pub struct FilePages {
    // All octets of the file. The first bit of each is its most significant one, since page_code would turn the rest of the file anew for
    // each page.
    octets: Vec<u8>,
    // The octet at which the first page that is left begins; no octets are moved.
    first: usize,
    form: PageForm,
}

impl Model for FilePages {
    ghost use Rattle.page_files.specs.TurnedPages.{PagesLeft, in_msb};
    ghost use Rattle.raster.specs.Pixels.{IsWidth};
    ghost use Rattle.std.specs.Prelude.{◌≤◌, drop, length};

    ghost Value = { PagesLeft };

    ghost view = { λ p. record { form = p.form; octets = in_msb p.form.order (drop p.first p.octets.items) } };

    ghost invariant = { λ p. record { within : p.first ≤ length p.octets.items; wide : IsWidth p.form.width } };
}

/// Turns octets so that the first bit of each is its most significant one, or back.
fn turn(octets: &mut Vec<u8>, order: Order)
    ensures turned { octets.new.items ≡ in_msb order octets.old.items }
    ensures back { in_msb order octets.new.items ≡ octets.old.items }
{
    match order {
        Order::MsbFirst => {}
        Order::LsbFirst => turn_from(octets, 0),
    }
}

/// Returns how a page is read whose octets are turned.
fn msb_form(form: PageForm) -> PageForm
    ensures { result ≡ msb_form form }
{
    PageForm {
        order: Order::MsbFirst,
        ..form
    }
}

/// Returns the octets from `first` on. That octets are below 256 is said for a proof.
fn left_from(octets: &[u8], first: usize) -> &[u8]
    requires { first ≤ length octets.now }
    ensures left { result.now ≡ drop first octets.now }
    ensures small { (k : ℕ) → slice_index result.now k < 256 }
{
    &octets[first..]
}

/// Reads the page that turned octets begin with, and returns the number of bits of its code. Errors: the refusal, at its bit, and then
/// `kept` holds how far the page was read; `NoMemory` (9).
fn bits_used(
    alloc: Global,
    turned: &[u8],
    form: PageForm,
    kept: &mut Option<RefusedCode>,
) -> Result<u128, ToolFault>
    requires { IsWidth form.width }
    ensures read { IfOk result (BeginsWith (msb_form form) turned.now) }
    ensures none { IfOk result (λ used. kept.new ≡ None) }
    ensures known { IfSome kept.new (IsPageRefused form.coding form.width (bits_of form.order (in_msb form.order turned.now))) }
    ensures refused { IfErr result (RefusesKept kept.new form (in_msb form.order turned.now)) }
{
    match read_code(alloc, turned, msb_form(form), kept) {
        Ok((_page, used)) => Ok(used),
        Err(fault) => Err(fault),
    }
}

/// Decodes the page that turned octets begin with, as `decode_page` does with the octets of the file.
fn decode_left(
    alloc: Global,
    turned: &[u8],
    form: PageForm,
    broken: Broken,
    kept: &mut Option<RefusedCode>,
) -> Result<Decoded, ToolFault>
    requires { IsWidth form.width }
    ensures known { IfSome kept.new (IsPageRefused form.coding form.width (bits_of form.order (in_msb form.order turned.now))) }
    ensures given { IfOk result (λ given. (image : List ℕ) → WritesPage given.page (Some []) (Some image)
        → GivesPage broken form (in_msb form.order turned.now) given.read_to (length given.page.rows) image given.lines.items) }
    ensures refused { IfErr result (RefusesDecoding broken form (in_msb form.order turned.now)) }
    ensures kept { broken ≢ Broken.AllRows → IfErr result (IsKept kept.new) }
    ensures kept_rows { broken ≢ Broken.AllRows → IfOk result (λ given. KeepsReadTo kept.new given.read_to) }
    ensures kept_none { broken ≡ Broken.AllRows → kept.new ≡ None }
{
    match decode_page(alloc, turned, msb_form(form), broken, kept) {
        Ok(decoded) => Ok(decoded),
        Err(fault) => Err(fault),
    }
}

/// Returns the messages about the page that turned octets begin with, as `answer_decoded` does with the octets of the file.
fn answer_left(
    alloc: Global,
    turned: &[u8],
    form: PageForm,
    options: DecodeOptions,
    decoded: Decoded,
) -> Result<DecodeAnswer, ToolFault>
    ensures page { IfOk result (λ answer. answer.page ≡ decoded.page) }
    ensures told { IfOk result (λ answer. TellsPage form options (in_msb form.order turned.now) decoded.read_to
        (length decoded.page.rows) decoded.lines.items answer.told.items answer.end) }
    ensures fault { IfErr result IsOutside }
{
    match answer_decoded(alloc, turned, msb_form(form), options, decoded) {
        Ok(answer) => Ok(answer),
        Err(fault) => Err(fault),
    }
}

/// Returns whether the code of the page that turned octets begin with lacks its end, as `lacks_end` does with the octets of the file.
fn lacks_left(turned: &[u8], form: PageForm, read_to: ReadTo) -> bool
    ensures { LacksEnd form (in_msb form.order turned.now) read_to result }
{
    lacks_end(turned, msb_form(form), read_to)
}

/// Returns the page that was found, if it was read in this form and not all rows are asked for.
fn found_so(found: Option<FoundPage>, form: PageForm, broken: Broken) -> Option<FoundPage>
    ensures { IfSome result (λ page.
        (found ≡ Some page) × (page.form ≡ form) × (broken ≢ Broken.AllRows)) }
{
    match broken {
        Broken::AllRows => None,
        Broken::Nothing | Broken::WholeRows => match found {
            Some(page) if page.form == form => Some(page),
            Some(_) | None => None,
        },
    }
}

/// Sets the bits before this one in its octet to 0, of octets from `first` on, and returns that octet.
fn clear_before(octets: &mut Vec<u8>, first: usize, start: u128) -> usize
    requires within { first ≤ length octets.old.items }
    requires there { start ≤ 8 * length (drop first octets.old.items) }
    ensures from { IsFrom MsbFirst start (drop first octets.old.items) (drop result octets.new.items) }
    ensures within { result ≤ length octets.new.items }
{
    let later = first + (start / 8) as usize;
    let fill = (start % 8) as u32;
    if fill > 0 {
        octets[later] = without_first(Order::MsbFirst, octets[later], fill);
    }
    later
}

impl FilePages {
    /// The pages of a file of these octets, whose pages have this form (1 to 2,432 pixels wide).
    pub fn new(octets: Vec<u8>, form: PageForm) -> FilePages
        requires { IsWidth form.width }
        ensures { result ≡ record { form = form; octets = octets.items } }
    {
        let mut turned = octets;
        turn(&mut turned, form.order);
        FilePages {
            octets: turned,
            first: 0,
            form,
        }
    }

    /// Returns how the pages are read.
    pub fn form(&self) -> PageForm
        ensures form { result ≡ self.now.form }
        ensures wide { IsWidth result.width }
    {
        self.form
    }

    /// Returns the octets that are left.
    pub fn into_octets(self) -> Vec<u8>
        ensures { result.items ≡ self.octets }
    {
        let mut octets = self.octets;
        drop(octets.drain(..self.first));
        turn(&mut octets, self.form.order);
        octets
    }

    /// Decodes the page that the octets left begin with as `broken` asks, and returns what `decode_page` returns of them, with the same
    /// errors and the same `kept`. A page that was found there isn't read again if it was read in this form, unless all rows are asked for.
    pub fn decode(
        &self,
        alloc: Global,
        broken: Broken,
        found: Option<FoundPage>,
        kept: &mut Option<RefusedCode>,
    ) -> Result<Decoded, ToolFault>
        requires { IfSome found (IsPageIn self.now.octets) }
        ensures known { IfSome kept.new (IsPageRefused self.now.form.coding self.now.form.width
            (bits_of self.now.form.order self.now.octets)) }
        ensures given { IfOk result (λ given. (image : List ℕ) → WritesPage given.page (Some []) (Some image)
            → GivesPage broken self.now.form self.now.octets given.read_to (length given.page.rows) image given.lines.items) }
        ensures refused { IfErr result (RefusesDecoding broken self.now.form self.now.octets) }
        ensures kept { broken ≢ Broken.AllRows → IfErr result (IsKept kept.new) }
        ensures kept_rows { broken ≢ Broken.AllRows → IfOk result (λ given. KeepsReadTo kept.new given.read_to) }
        ensures kept_none { broken ≡ Broken.AllRows → kept.new ≡ None }
    {
        if let Some(page) = found_so(found, self.form, broken) {
            *kept = None;
            return Ok(decoded_of(alloc, page));
        }
        let left = left_from(&self.octets, self.first);
        decode_left(alloc, left, self.form, broken, kept)
    }

    /// Returns the page that the octets left begin with, which was decoded so, with the messages about it that `answer_decoded` gives.
    /// Errors: `NoMemory` (9).
    pub fn answer(
        &self,
        alloc: Global,
        options: DecodeOptions,
        decoded: Decoded,
    ) -> Result<DecodeAnswer, ToolFault>
        ensures page { IfOk result (λ answer. answer.page ≡ decoded.page) }
        ensures told { IfOk result (λ answer. TellsPage self.now.form options self.now.octets decoded.read_to (length decoded.page.rows)
            decoded.lines.items answer.told.items answer.end) }
        ensures fault { IfErr result IsOutside }
    {
        let left = left_from(&self.octets, self.first);
        answer_left(alloc, left, self.form, options, decoded)
    }

    /// Returns whether the code of the page that the octets left begin with, which was read so far, lacks its end: RTC in T.4, EOFB in T.6.
    /// That isn't known of one that is refused.
    pub fn lacks_end(&self, read_to: ReadTo) -> bool
        ensures { LacksEnd self.now.form self.now.octets read_to result }
    {
        let left = left_from(&self.octets, self.first);
        lacks_left(left, self.form, read_to)
    }

    /// Goes on to the next page if one follows, and returns whether it did. If none follows, or the page can't be read, nothing is changed.
    /// Errors: the refusal, at its bit, and then `kept` holds how far the page was read; `NoMemory` (9).
    fn skip(&mut self, alloc: Global, kept: &mut Option<RefusedCode>) -> Result<bool, ToolFault>
        ensures form { self.new.form ≡ self.old.form }
        ensures skipped { IfOk result (λ more. AfterPage more self.old.form self.old.octets self.new.octets) }
        ensures none { IfOk result (λ more. kept.new ≡ None) }
        ensures known { IfSome kept.new (IsPageRefused self.old.form.coding self.old.form.width
            (bits_of self.old.form.order self.old.octets)) }
        ensures refused { IfErr result (RefusesKept kept.new self.old.form self.old.octets) }
        ensures stays { OnErr result (self.new ≡ self.old) }
    {
        let left = left_from(&self.octets, self.first);
        // only reading a page to its end shows where the next one begins, in whatever way that is decoded; the page isn't kept
        let used = bits_used(alloc, left, self.form, kept)?;
        let Some(start) = later_in(left, msb_form(self.form), used) else {
            return Ok(false);
        };
        self.first = clear_before(&mut self.octets, self.first, start);
        Ok(true)
    }

    /// Goes on to the next page if one follows the one that the octets left begin with, whose code has this number of bits, and returns
    /// whether it did. If none follows, nothing is changed.
    pub fn pass_read(&mut self, used: u128) -> bool
        requires { BeginsWith self.now.form self.now.octets used }
        ensures form { self.new.form ≡ self.old.form }
        ensures passed { AfterPage result self.old.form self.old.octets self.new.octets }
    {
        let left = left_from(&self.octets, self.first);
        let Some(start) = later_in(left, msb_form(self.form), used) else {
            return false;
        };
        self.first = clear_before(&mut self.octets, self.first, start);
        true
    }

    /// Goes on to the page that follows the mark of the end of the one that the octets left begin with, RTC or EOFB, if one follows, and
    /// returns whether it did. If none follows, nothing is changed; None, and nothing is changed, if the mark isn't found.
    fn skip_marked(&mut self) -> Option<bool>
        ensures form { self.new.form ≡ self.old.form }
        ensures skipped { IfSome result (λ more.
            AfterMark more self.old.form self.old.octets self.new.octets) }
        ensures unmarked { IfNone result (end_of_mark self.old.form self.old.octets ≡ None) }
        ensures stays { IfNone result (self.new ≡ self.old) }
    {
        let left = left_from(&self.octets, self.first);
        let Some(used) = end_of_mark(left, msb_form(self.form)) else {
            return None;
        };
        let Some(start) = later_in(left, msb_form(self.form), used) else {
            return Some(false);
        };
        self.first = clear_before(&mut self.octets, self.first, start);
        Some(true)
    }

    /// Goes on to the next page if one follows, and returns whether it did: as `skip` does, and if damaged pages are asked for, also after one
    /// that can't be read to its end, by the mark of its end. Errors: those of `skip`, if that mark isn't found.
    pub fn pass(
        &mut self,
        alloc: Global,
        mends: bool,
        kept: &mut Option<RefusedCode>,
    ) -> Result<bool, ToolFault>
        ensures form { self.new.form ≡ self.old.form }
        ensures passed { IfOk result (λ more.
            Passes mends more self.old.form self.old.octets self.new.octets) }
        ensures none { IfOk result (λ more. kept.new ≡ None) }
        ensures known { IfSome kept.new (IsPageRefused self.old.form.coding self.old.form.width
            (bits_of self.old.form.order self.old.octets)) }
        ensures refused { IfErr result (RefusesKept kept.new self.old.form self.old.octets) }
        ensures unmarked { IfErr result (λ fault. IfSome kept.new (λ code.
            HasNoMark mends self.old.form self.old.octets)) }
        ensures stays { OnErr result (self.new ≡ self.old) }
    {
        let fault = match self.skip(alloc, kept) {
            Ok(more) => return Ok(more),
            Err(fault) => fault,
        };
        if !mends || kept.is_none() {
            return Err(fault);
        }
        match self.skip_marked() {
            Some(more) => {
                *kept = None;
                Ok(more)
            }
            None => Err(fault),
        }
    }
}
