//! What a page of a file is, for programs.

ghost use Rattle.commands.specs.PageFacts.{bits_of, code_word, fault_number, fault_of, lines_word, maybe_count, maybe_words};
ghost use Rattle.commands.specs.PageFacts.{with_content, with_damage, with_way, order_word, page_record, page_records, repaired_in, is_salvaged, bit_of};
ghost use Rattle.raster.specs.Pixels.{IsWidth};
ghost use Rattle.serde_json.specs.View.{members_view, view};
ghost use Rattle.std.specs.Prelude.{◌≡◌, ◌++◌, ◌∷◌, ◌<◌, ◌^◌, [], IfOk, None, OnOk, length, map, false};

use crate::decode::each::pages::PageEnd;
use faults::ToolFault;
use page_code::Coding;
use page_files::{PageForm, ReadTo};
use run_tables::Order;
use serde_json::{Map, Value, put};
use std::alloc::{AllocError, Global};

/// What a page of a file is.
#[derive(Drop)]
pub(crate) struct PageFacts {
    /// How it ends.
    pub(crate) end: PageEnd,
    /// The name of its image, if that was written.
    pub(crate) out: Option<String>,
    /// The rows of its image.
    pub(crate) rows: usize,
    /// The bits of its code, if that was read to its end.
    pub(crate) bits: Option<u128>,
    /// Whether its code lacks its end: RTC or EOFB. That isn't known of a page that is refused.
    pub(crate) lacks_end: bool,
}

impl PageFacts {
    /// A page without an image.
    pub(crate) fn without_image(end: PageEnd) -> PageFacts
        ensures end { result.end ≡ end }
        ensures out { result.out ≡ None }
        ensures rows { result.rows ≡ 0 }
        ensures bits { result.bits ≡ None }
        ensures lacks { result.lacks_end ≡ false }
    {
        PageFacts {
            end,
            out: None,
            rows: 0,
            bits: None,
            lacks_end: false,
        }
    }
}

/// Returns the bits of a page's code, if that was read to its end.
pub(crate) fn bits_of(read_to: ReadTo) -> Option<u128>
    ensures { result ≡ bits_of read_to }
{
    match read_to {
        ReadTo::End(bits) => Some(bits),
        ReadTo::NoEnd(_) | ReadTo::Lines(_) | ReadTo::Fault(_) => None,
    }
}

/// Returns a number, or null.
pub(crate) fn maybe_count(count: Option<u128>) -> Value
    ensures { view result ≡ maybe_count count }
{
    match count {
        Some(count) if count <= u64::MAX as u128 => Value::from(count as u64),
        Some(_) | None => Value::Null,
    }
}

/// Returns a text, or null. Errors: memory was refused.
fn maybe_words(alloc: Global, words: &Option<String>) -> Result<Value, AllocError>
    ensures { IfOk result (λ value. view value ≡ maybe_words words.now) }
{
    match words {
        Some(words) => Ok(Value::String(String::from_str(alloc, words.as_str())?)),
        None => Ok(Value::Null),
    }
}

/// Returns the value of `--code` for a code.
pub(crate) fn code_word(coding: Coding) -> &'static str
    ensures { result.now ≡ code_word coding }
{
    match coding {
        Coding::OneDim => "mh",
        Coding::T6 => "mmr",
    }
}

/// Returns the value of `--order` for an order of bits.
pub(crate) fn order_word(order: Order) -> &'static str
    ensures { result.now ≡ order_word order }
{
    match order {
        Order::MsbFirst => "msb",
        Order::LsbFirst => "lsb",
    }
}

/// Returns what lines are called, by whether they are fine.
fn lines_word(fine: bool) -> &'static str
    ensures { result.now ≡ lines_word fine }
{
    if fine { "fine" } else { "standard" }
}

/// Returns the bit at which a page is refused, if that is its fault.
fn bit_of(fault: Option<ToolFault>) -> Option<u128>
    ensures { result ≡ bit_of fault }
{
    match fault {
        Some(ToolFault::AtBit { no: _, place }) => Some(place),
        Some(ToolFault::AtLine(_) | ToolFault::No(_)) | None => None,
    }
}

impl PageEnd {
    /// Returns the fault with which a page ends, if it does.
    pub(crate) fn fault(self) -> Option<ToolFault>
        ensures { result ≡ fault_of self }
    {
        match self {
            PageEnd::Cut(_, fault) | PageEnd::Lost(fault) | PageEnd::NotWritten(fault) => {
                Some(fault)
            }
            PageEnd::Read | PageEnd::NoEofb | PageEnd::Repaired(_) => None,
        }
    }

    /// Returns how many of a page's rows are repaired.
    fn repaired(self) -> usize
        ensures { result ≡ repaired_in self }
    {
        match self {
            PageEnd::Repaired(rows) => rows,
            PageEnd::Read
            | PageEnd::NoEofb
            | PageEnd::Cut(..)
            | PageEnd::Lost(_)
            | PageEnd::NotWritten(_) => 0,
        }
    }

    /// Returns whether a page's image, of so many rows, has the rows before the refused one.
    fn is_salvaged(self, rows: usize) -> bool
        ensures { result ≡ is_salvaged self rows }
    {
        match self {
            PageEnd::Cut(..) => rows > 0,
            PageEnd::Read
            | PageEnd::NoEofb
            | PageEnd::Repaired(_)
            | PageEnd::Lost(_)
            | PageEnd::NotWritten(_) => false,
        }
    }
}

/// Adds how a page is read: its code, order and lines as options have them, and its width in pixels. Errors: memory was refused.
fn put_way(
    alloc: Global,
    form: PageForm,
    members: &mut Map<String, Value>,
) -> Result<(), AllocError>
    ensures { OnOk result (members_view members.new.entries ≡ with_way form (members_view members.old.entries)) }
{
    let code = String::from_str(alloc, code_word(form.coding))?;
    let lines = String::from_str(alloc, lines_word(form.fine))?;
    let order = String::from_str(alloc, order_word(form.order))?;
    put(members, alloc, "code", Value::String(code))?;
    put(members, alloc, "lines", Value::String(lines))?;
    put(members, alloc, "order", Value::String(order))?;
    put(members, alloc, "width", Value::from(form.width))
}

/// Adds what a page has: its rows, the bits of its code, whether that lacks its end, and the name of its image. Errors: memory was refused.
fn put_content(
    alloc: Global,
    facts: &PageFacts,
    members: &mut Map<String, Value>,
) -> Result<(), AllocError>
    ensures { OnOk result (members_view members.new.entries ≡ with_content facts.now (members_view members.old.entries)) }
{
    let out = maybe_words(alloc, &facts.out)?;
    put(members, alloc, "bits", maybe_count(facts.bits))?;
    put(members, alloc, "missing_end", Value::Bool(facts.lacks_end))?;
    put(members, alloc, "out", out)?;
    put(members, alloc, "rows", Value::from(facts.rows))
}

/// Returns the number of a fault.
fn fault_number(end: PageEnd) -> Option<u128>
    ensures { result ≡ fault_number end }
{
    match end.fault() {
        Some(fault) => Some(fault.kind().number() as u128),
        None => None,
    }
}

/// Adds what is wrong with a page whose image has so many rows. Errors: memory was refused.
fn put_damage(
    alloc: Global,
    end: PageEnd,
    rows: usize,
    members: &mut Map<String, Value>,
) -> Result<(), AllocError>
    ensures { OnOk result (members_view members.new.entries ≡ with_damage end rows (members_view members.old.entries)) }
{
    put(members, alloc, "bit", maybe_count(bit_of(end.fault())))?;
    put(members, alloc, "fault", maybe_count(fault_number(end)))?;
    put(members, alloc, "repaired", Value::from(end.repaired()))?;
    put(
        members,
        alloc,
        "salvaged",
        Value::Bool(end.is_salvaged(rows)),
    )
}

/// Returns the record of a page that was read as this form. Errors: memory was refused.
fn page_record(alloc: Global, form: PageForm, facts: &PageFacts) -> Result<Value, AllocError>
    ensures { IfOk result (λ value. view value ≡ page_record form facts.now) }
{
    let mut members = Map::new(alloc);
    put_way(alloc, form, &mut members)?;
    put_content(alloc, facts, &mut members)?;
    put_damage(alloc, facts.end, facts.rows, &mut members)?;
    Ok(Value::Object(members))
}

/// Returns the records of pages. Errors: memory was refused.
pub(crate) fn page_records(
    alloc: Global,
    form: PageForm,
    pages: &[PageFacts],
) -> Result<Value, AllocError>
    ensures { IfOk result (λ value. view value ≡ page_records form pages.now) }
{
    let mut records = Vec::new(alloc);
    for facts in pages {
        let record = page_record(alloc, form, facts)?;
        if records.push(record).is_err() {
            return Err(AllocError);
        }
    }
    Ok(Value::Array(records))
}
