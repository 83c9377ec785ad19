//! Octets in one order of bits, as they are read in many ways, and what is found so.

ghost use Rattle.faults.specs.Faults.{IsOutside};
ghost use Rattle.page_code.specs.TurnedCodes.{IsTurnedCode};
ghost use Rattle.page_files.specs.Identified.{IsTried, SaysOwn, form_in};
ghost use Rattle.page_files.specs.Sources.{IsPageIn, ends_with, in_order, is_better, page_in_order};
ghost use Rattle.raster.specs.Pixels.{IsWidth};
ghost use Rattle.std.specs.Prelude.{◌≡◌, ◌++◌, ◌∷◌, [], List, ℕ, IfOk, IfErr, IfSome, OnOk, option_map};

use crate::identify::{Tried, octets_after, try_way};
use crate::options::PageForm;
use crate::own_widths::own_width;
use faults::{NO_MEMORY, ToolFault};
use page_code::{Coding, code_of, turned_code};
use raster::Page;
use run_tables::Order;
use std::alloc::{AllocError, Global};
use std::marker::Model;

/// A page that octets begin with.
#[derive(Debug, Drop)]
pub struct FoundPage {
    /// How it was read.
    pub form: PageForm,
    /// The page.
    pub page: Page,
    /// The number of bits of its code.
    pub bits: u128,
}

impl FoundPage {
    /// Returns the same page, of octets in this order of bits.
    fn in_order(self, order: Order) -> FoundPage
        ensures { result ≡ page_in_order order self }
    {
        FoundPage {
            form: PageForm { order, ..self.form },
            page: self.page,
            bits: self.bits,
        }
    }

    /// Returns whether no octet comes after the page's code.
    fn ends_with(&self, octets: &[u8]) -> bool
        ensures { result ≡ ends_with octets.now self.now.bits }
    {
        octets_after(octets, self.bits) == 0
    }
}

/// Returns what `turned_code` gives of octets whose least significant bit is first. Errors: `NoMemory` (9).
pub(crate) fn turned_lsb(alloc: Global, octets: &[u8]) -> Result<Vec<u8>, ToolFault>
    ensures turned { IfOk result (λ turned. IsTurnedCode Order.LsbFirst octets.now turned.items) }
    ensures refused { IfErr result IsOutside }
{
    match turned_code(alloc, octets, Order::LsbFirst, Vec::new(alloc)) {
        Ok(turned) => Ok(turned),
        Err(AllocError) => Err(NO_MEMORY),
    }
}

/// Octets and an order of their bits.
#[derive(Drop)]
pub(crate) struct OrderedOctets<'a> {
    octets: &'a [u8],
    order: Order,
    // Octets of the same bits, and the order in which these have them: they were turned once for all ways.
    code: &'a [u8],
    first: Order,
}

impl<'a> Model for OrderedOctets<'a> {
    ghost use Rattle.page_files.specs.Sources.{SourceBits};
    ghost use Rattle.raster.specs.Packed.{bits_of};
    ghost use Rattle.std.specs.Prelude.{◌≡◌};

    ghost Value = { SourceBits };

    ghost view = { λ s. record { octets = s.octets.now; order = s.order } };

    ghost invariant = { λ s. bits_of s.first s.code.now ≡ bits_of s.order s.octets.now };
}

impl<'a> OrderedOctets<'a> {
    /// Octets in this order of bits, and what `turned_code` gives of them.
    pub(crate) fn of(octets: &'a [u8], order: Order, turned: &'a [u8]) -> OrderedOctets<'a>
        requires { IsTurnedCode order octets.now turned.now }
        ensures { result ≡ record { octets = octets.now; order = order } }
    {
        let (code, first) = code_of(octets, order, turned);
        OrderedOctets {
            octets,
            order,
            code,
            first,
        }
    }

    /// Returns the order of bits.
    pub(crate) fn order(&self) -> Order
        ensures { result ≡ self.now.order }
    {
        self.order
    }

    /// Returns the octets.
    pub(crate) fn octets(&self) -> &'a [u8]
        ensures { result.now ≡ self.now.octets }
    {
        self.octets
    }

    /// Returns the width in pixels that they say of themselves in T.4.
    pub(crate) fn own_width(&self) -> Option<u128>
        ensures { SaysOwn self.now.order self.now.octets result }
    {
        own_width(self.code, self.first)
    }

    /// Reads them in one code and width: how far that is, and the page that they begin with, if it is read to its end. Errors: `NoMemory` (9).
    pub(crate) fn read_in(
        &self,
        alloc: Global,
        coding: Coding,
        width: u32,
    ) -> Result<(Tried, Option<FoundPage>), ToolFault>
        requires { IsWidth width }
        ensures tried { IfOk result (λ read. IsTried self.now.octets read.0) }
        ensures form { IfOk result (λ read. read.0.form ≡ form_in coding self.now.order width) }
        ensures page { IfOk result (λ read. IfSome read.1 (IsPageIn self.now.octets)) }
        ensures refused { IfErr result IsOutside }
    {
        let form = PageForm {
            coding,
            order: self.first,
            width,
            fine: false,
        };
        let (tried, found) = try_way(alloc, self.code, form)?;
        Ok((tried_in(tried, self.order), found_in(found, self.order)))
    }
}

/// Returns the same result of octets in this order of bits.
fn tried_in(tried: Tried, order: Order) -> Tried
    ensures { result ≡ in_order order tried }
{
    Tried {
        form: PageForm {
            order,
            ..tried.form
        },
        ..tried
    }
}

/// Returns the same page, if there is one, of octets in this order of bits.
fn found_in(found: Option<FoundPage>, order: Order) -> Option<FoundPage>
    ensures { result ≡ option_map (page_in_order order) found }
{
    match found {
        Some(page) => Some(page.in_order(order)),
        None => None,
    }
}

/// What was tried so far.
#[derive(Drop)]
pub(crate) struct Results {
    /// How far each way reads, in the order in which they were tried.
    pub(crate) tried: Vec<Tried>,
    /// The page that is kept.
    pub(crate) found: Option<FoundPage>,
}

impl Results {
    /// Nothing was tried.
    pub(crate) fn new(alloc: Global) -> Results
        ensures tried { result.tried.items ≡ [] }
        ensures found { result.found ≡ None }
    {
        Results {
            tried: Vec::new(alloc),
            found: None,
        }
    }

    /// Appends how far octets read in one way more; keeps the page that is read so, if it is better than the one that is kept. Errors:
    /// `NoMemory` (9).
    pub(crate) fn add(
        &mut self,
        octets: &[u8],
        tried: Tried,
        found: Option<FoundPage>,
    ) -> Result<(), ToolFault>
        ensures tried { OnOk result (self.new.tried.items ≡ self.old.tried.items ++ tried ∷ []) }
        ensures found { (octets : List ℕ) → IfSome self.old.found (IsPageIn octets)
            → IfSome found (IsPageIn octets) → IfSome self.new.found (IsPageIn octets) }
        ensures refused { IfErr result IsOutside }
    {
        if let Some(page) = found {
            if is_better(octets, &page, &self.found) {
                self.found = Some(page);
            }
        }
        if self.tried.push(tried).is_err() {
            return Err(NO_MEMORY);
        }
        Ok(())
    }
}

/// Returns whether a page is better than the one that was found before, if there is one: if it alone ends with the octets.
fn is_better(octets: &[u8], page: &FoundPage, before: &Option<FoundPage>) -> bool
    ensures { result ≡ is_better octets.now page.now.bits
        (option_map (λ before. before.bits) before.now) }
{
    match before {
        Some(before) => page.ends_with(octets) && !before.ends_with(octets),
        None => true,
    }
}
