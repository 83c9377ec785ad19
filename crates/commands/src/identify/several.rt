//! The command `identify` of several files, or with records: a line for each.

ghost use Rattle.commands.specs.Printed.{PrintsAll, PrintsOne};
ghost use Rattle.commands.specs.Several.{bits_in, format_of, is_known, record_with_found, way_of, with_way_found};
ghost use Rattle.commands.specs.SeveralLines.{AreLines, IsSaid, IsSaidSo, IsTextOf, SaysNothing, SaysOctets, first_line, known_record, names_of};
ghost use Rattle.commands.specs.SeveralLines.{or_no_page, said_data, said_text, unread_line};
ghost use Rattle.commands.specs.Damaged.{is_unknown};
ghost use Rattle.faults.specs.Faults.{IsOutside, IsUnread, fault_text};
ghost use Rattle.faults.specs.RecordLines.{record_line};
ghost use Rattle.serde_json.specs.View.{members_view, view};
ghost use Rattle.std.specs.Prelude.{◌≡◌, ◌++◌, List, ℕ, IfErr, IfOk, None, OnOk, Some, codes, option_map, string_bytes};

use crate::damaged::{Unread, format_name, is_damaged_page, is_unknown, unread_of};
use crate::decode::each::facts::{code_word, maybe_count, order_word};
use crate::names::{is_untold, record_name, shown_name};
use crate::words::{context_of_file, words_of_file};
use command_files::command::{Completeness, NO_NAMES, Names, Runs, both};
use command_files::context::Context;
use command_files::files::apart::CommandFiles;
use command_files::files::bounded::{Ways, read_coded};
use command_files::files::printed::{end_print, print};
use command_files::files::progress::Watch;
use faults::{ToolFault, write_record};
use page_files::{
    Found, PageForm, Tried, find_way, tell_found, tell_no_eols, tell_two_dims, tell_unread,
};
use serde_json::{Map, Value, json, put};
use std::alloc::{AllocError, Global};
use std::io::Write;

/// Prints a line for each of several files, of what it is.
#[derive(Debug, PartialEq, Eq, Drop)]
pub struct SeveralCommand {
    /// Whether each line is a record.
    pub records: bool,
    /// The names of the files.
    pub files: Vec<String>,
}

impl Runs for SeveralCommand {
    ghost use Rattle.std.specs.Prelude.{None};
    ghost use Rattle.commands.specs.SeveralLines.{SeveralGives};
    ghost use Rattle.commands.specs.Files.{several_files};

    ghost width = { λ command. None };

    ghost its_files = { several_files };

    ghost gives = { SeveralGives };

    fn names(&self) -> Names<'_> {
        NO_NAMES
    }

    fn add_files(&self, files: &mut CommandFiles<'_>) -> Result<(), AllocError> {
        for name in &self.files {
            files.reads("FILE", name.as_str())?;
        }
        files.prints()
    }

    fn page(&self) -> Option<PageForm> {
        None
    }

    // A file that can't be read doesn't stop the others: its line has the fault.
    fn run(&self, context: &mut Context<'_>) -> Result<Completeness, ToolFault> {
        let mut writer = print(context)?;
        let told = self.tell_files(context, &mut writer);
        let printed = end_print(context, writer, told.is_ok());
        let is_complete = told?;
        printed?;
        Ok(Completeness::of(is_complete))
    }
}

impl SeveralCommand {
    /// Prints the line or the record of each file, each at once, and returns whether it is known what all are. Errors: `Io` (8) from the
    /// writer, `NoMemory` (9).
    fn tell_files<W: Write>(&self, context: &Context<'_>, writer: &mut W) -> Result<bool, ToolFault>
        ensures told { IfOk result
            (PrintsAll (IsSaidSo self.now.records) (names_of self.now)
            (W.contents writer.old) (W.contents writer.new)) }
        ensures fault { IfErr result IsOutside }
    {
        let mut are_known = true;
        for name in &self.files {
            let is_known = tell_file(context, name.as_str(), self.records, writer)?;
            are_known = both(are_known, is_known);
        }
        Ok(are_known)
    }
}

/// What is said of a file, with LF at the end, and whether it is known; its fault in words, if it has one and they are shown.
#[derive(Drop)]
pub(crate) struct Said {
    text: Vec<u8>,
    found: Found,
    unread: Option<Unread>,
    is_known: bool,
    fault: Option<ToolFault>,
    words: Option<String>,
}

impl Said {
    /// What is said of a file that isn't read, and has this fault or none.
    fn of(text: Vec<u8>, fault: Option<ToolFault>, words: Option<String>) -> Said
        ensures nothing { SaysNothing text.items fault result }
        ensures words { result.words ≡ words }
    {
        Said {
            text,
            found: Found::Nothing,
            unread: None,
            is_known: false,
            fault,
            words,
        }
    }
}

/// Returns a line. Errors: `NoMemory` (9).
fn line_of(alloc: Global, words: &str) -> Result<Vec<u8>, ToolFault>
    ensures line { IfOk result (λ line. line.items ≡ words.now ++ codes "\n") }
    ensures fault { IfErr result IsOutside }
{
    let mut text = Vec::new(alloc);
    writeln!(text, "{words}")?;
    Ok(text)
}

/// Prints the line or the record of a file at once, and returns whether it is known what it is. Errors: `Io` (8) from the writer, `NoMemory`
/// (9).
fn tell_file<W: Write>(
    context: &Context<'_>,
    name: &str,
    records: bool,
    writer: &mut W,
) -> Result<bool, ToolFault>
    ensures told { IfOk result
        (PrintsOne (IsSaidSo records) name.now (W.contents writer.old) (W.contents writer.new)) }
    ensures fault { IfErr result IsOutside }
{
    let said = say_or_fault(context, name)?;
    let lines = said_lines(context.alloc(), name, records, &said)?;
    writer.write_all(lines.as_slice())?;
    writer.flush()?;
    Ok(said.is_known)
}

/// Returns what is said of a file, or its fault if it can't be read. Errors: `NoMemory` (9).
fn say_or_fault(context: &Context<'_>, name: &str) -> Result<Said, ToolFault>
    ensures said { IfOk result (IsSaid name.now) }
    ensures fault { IfErr result IsOutside }
{
    if is_untold(name) {
        let text = line_of(context.alloc(), "its name isn't UTF-8")?;
        return Ok(Said::of(text, None, None));
    }
    let mut own = context_of_file(context);
    match say_of(&mut own, name) {
        Ok(said) => Ok(said),
        Err(fault) => say_fault(&own, name, fault),
    }
}

/// Returns the fault of a file that can't be read. Errors: `NoMemory` (9).
fn say_fault(own: &Context<'_>, name: &str, fault: ToolFault) -> Result<Said, ToolFault>
    ensures said { IfOk result (SaysNothing (fault_text fault ++ codes "\n") (Some fault)) }
    ensures fault { IfErr result IsOutside }
{
    let line = format!(in own.alloc(); "{fault}")?;
    let text = line_of(own.alloc(), line.as_str())?;
    let words = words_of_file(own, None, name, fault)?;
    Ok(Said::of(text, Some(fault), words))
}

/// Returns whether it is known what octets are.
fn is_known(found: &Found) -> bool
    ensures { result ≡ is_known found.now }
{
    match found {
        Found::Format(_) | Found::Page(_) => true,
        Found::Begun(_) | Found::Several | Found::Nothing => false,
    }
}

/// Returns what is said of a file. Errors: `Io` (8) if it can't be read, and that is noted; `TooManyOctets` (32); `NoMemory` (9).
fn say_of(own: &mut Context<'_>, name: &str) -> Result<Said, ToolFault>
    ensures said { IfOk result (λ said. (octets : List ℕ) × SaysOctets octets said) }
    ensures fault { IfErr result IsUnread }
{
    let octets = read_coded(own, name, Ways::Tried(None), Watch::Shown)?;
    let said = say_octets(own.alloc(), octets.as_slice())?;
    Ok(said)
}

/// Returns what is said of a file of these octets. Errors: `NoMemory` (9).
fn say_octets(alloc: Global, octets: &[u8]) -> Result<Said, ToolFault>
    ensures said { IfOk result (SaysOctets octets.now) }
    ensures fault { IfErr result IsOutside }
{
    let found = find_way(alloc, octets)?;
    let unread = unread_of(alloc, octets, &found)?;
    let text = text_of(alloc, octets, &found, unread)?;
    let is_known = is_known(&found);
    Ok(Said {
        text,
        found,
        unread,
        is_known,
        fault: None,
        words: None,
    })
}

/// Writes the line of octets that aren't read. Errors: `NoMemory` (9).
fn tell_named(said: Unread, text: &mut Vec<u8>) -> Result<(), ToolFault>
    ensures told { OnOk result (text.new.items ≡ text.old.items ++ unread_line said) }
    ensures fault { IfErr result IsOutside }
{
    match said {
        Unread::TwoDims(said) => tell_two_dims(said, text),
        Unread::NoEols(said) => tell_no_eols(said, text),
    }
}

/// Writes the lines of octets that are this: of unknown ones those that say what isn't read. Errors: `NoMemory` (9).
fn tell_lines(
    alloc: Global,
    octets: &[u8],
    found: &Found,
    text: &mut Vec<u8>,
) -> Result<(), ToolFault>
    ensures told { OnOk result ((lines : List ℕ)
        × AreLines (is_unknown found.now) octets.now found.now lines
        × (text.new.items ≡ text.old.items ++ lines)) }
    ensures fault { IfErr result IsOutside }
{
    if is_unknown(found) {
        return tell_unread(alloc, octets, text);
    }
    tell_found(octets, found, text)
}

/// Returns what is said of octets that are this, and perhaps something that isn't read. Errors: `NoMemory` (9).
fn text_of(
    alloc: Global,
    octets: &[u8],
    found: &Found,
    unread: Option<Unread>,
) -> Result<Vec<u8>, ToolFault>
    ensures text { IfOk result (λ text. IsTextOf octets.now found.now unread text.items) }
    ensures fault { IfErr result IsOutside }
{
    let mut text = Vec::new(alloc);
    if let Some(said) = unread {
        tell_named(said, &mut text)?;
        return Ok(text);
    }
    tell_lines(alloc, octets, found, &mut text)?;
    if text.is_empty() {
        return line_of(alloc, "no page and no known format");
    }
    Ok(text)
}

/// Returns the first line of a text, without its end; nothing if the text isn't UTF-8.
fn first_line(text: &[u8]) -> &str
    ensures { result.now ≡ first_line text.now }
{
    let Ok(all) = str::from_utf8(text) else {
        return "";
    };
    match all.split_once('\n') {
        Some((first, _)) => first,
        None => all,
    }
}

/// Returns what is printed of a file: the first line of what is said of it, after its name, and under it the words of its fault; or a
/// record. Errors: `NoMemory` (9).
fn said_lines(alloc: Global, name: &str, records: bool, said: &Said) -> Result<Vec<u8>, ToolFault>
    ensures told { IfOk result (λ lines. lines.items ≡ said_text records name.now said.now) }
    ensures fault { IfErr result IsOutside }
{
    let mut lines = Vec::new(alloc);
    let what = first_line(said.text.as_slice());
    if records {
        write_said(alloc, name, what, said, &mut lines)?;
        return Ok(lines);
    }
    let shown = shown_name(alloc, name)?;
    lines.extend_from_slice(shown.as_slice())?;
    writeln!(lines, ": {what}")?;
    if let Some(words) = &said.words {
        writeln!(lines, "    {words}")?;
    }
    Ok(lines)
}

/// Writes the record of a file of which this is said, with its fault's number and words if it has one.
fn write_said(
    alloc: Global,
    name: &str,
    what: &str,
    said: &Said,
    lines: &mut Vec<u8>,
) -> Result<(), ToolFault>
    ensures told { OnOk result
        (lines.new.items ≡ lines.old.items ++ record_line (said_data name.now what.now said.now)) }
    ensures fault { IfErr result IsOutside }
{
    let file = record_name(alloc, name)?;
    let made = said_record(alloc, file.as_str(), what, said)?;
    let record = with_found(alloc, made, said.unread, &said.found)?;
    write_record(alloc, &record, lines)
}

/// Returns the record of a file of this name, with its fault's number and words if it has one. Errors: memory was refused.
fn said_record(alloc: Global, file: &str, what: &str, said: &Said) -> Result<Value, AllocError>
    ensures { IfOk result (λ value. view value ≡ known_record file.now what.now
        said.now.is_known said.now.fault (option_map string_bytes said.now.words)) }
{
    let is_known = said.is_known;
    if let (Some(fault), Some(words)) = (said.fault, &said.words) {
        let no = fault.kind().number();
        let words = words.as_str();
        return json!(in alloc; {"fault": no, "file": file, "is": what, "known": is_known, "words": words});
    }
    json!(in alloc; {"file": file, "is": what, "known": is_known})
}

/// Returns a record with what octets are, and perhaps what they are that isn't read. Errors: memory was refused.
fn with_found(
    alloc: Global,
    made: Value,
    unread: Option<Unread>,
    found: &Found,
) -> Result<Value, AllocError>
    ensures { IfOk result (λ value. view value ≡ record_with_found unread found.now (view made)) }
{
    match made {
        Value::Object(mut members) => {
            put_way_found(alloc, way_of(unread, found), &mut members)?;
            let format = format_of(alloc, unread, found)?;
            put(&mut members, alloc, "not_read", format)?;
            Ok(Value::Object(members))
        }
        other => Ok(other),
    }
}

/// Returns the way in which octets are read as a page, if they are one, or a damaged one.
fn way_of(unread: Option<Unread>, found: &Found) -> Option<Tried>
    ensures { result ≡ way_of unread found.now }
{
    if unread.is_some() {
        return None;
    }
    match found {
        Found::Page(way) => Some(*way),
        Found::Begun(way) if is_damaged_page(way) => Some(*way),
        Found::Begun(_) | Found::Format(_) | Found::Several | Found::Nothing => None,
    }
}

/// Returns the name of the format of octets that aren't read, or null. Errors: memory was refused.
fn format_of(alloc: Global, unread: Option<Unread>, found: &Found) -> Result<Value, AllocError>
    ensures { IfOk result (λ value. view value ≡ format_of unread found.now) }
{
    if let Some(said) = unread {
        let name = format_name(said);
        return Ok(Value::String(String::from_str(alloc, name)?));
    }
    match found {
        Found::Format(name) => Ok(Value::String(String::from_str(alloc, name)?)),
        Found::Page(_) | Found::Begun(_) | Found::Several | Found::Nothing => Ok(Value::Null),
    }
}

/// Returns the bits of a page's code, if it is read to its end.
pub(crate) fn bits_in(end: Result<u128, ToolFault>) -> Option<u128>
    ensures { result ≡ bits_in end }
{
    match end {
        Ok(bits) => Some(bits),
        Err(_) => None,
    }
}

/// Adds the way in which octets are read: its code and order as options have them, the page's width in pixels, its rows, as many as `decode
/// --repair` reads if that copies none, and the bits of its code; null if they are no page. Errors: memory was refused.
fn put_way_found(
    alloc: Global,
    way: Option<Tried>,
    members: &mut Map<String, Value>,
) -> Result<(), AllocError>
    ensures { OnOk result (members_view members.new.entries ≡ with_way_found way (members_view members.old.entries)) }
{
    let Some(way) = way else {
        put(members, alloc, "bits", Value::Null)?;
        put(members, alloc, "code", Value::Null)?;
        put(members, alloc, "order", Value::Null)?;
        put(members, alloc, "rows", Value::Null)?;
        return put(members, alloc, "width", Value::Null);
    };
    let code = String::from_str(alloc, code_word(way.form.coding))?;
    let order = String::from_str(alloc, order_word(way.form.order))?;
    let rows = way.mended.unwrap_or(way.rows);
    put(members, alloc, "bits", maybe_count(bits_in(way.end)))?;
    put(members, alloc, "code", Value::String(code))?;
    put(members, alloc, "order", Value::String(order))?;
    put(members, alloc, "rows", Value::from(rows))?;
    put(members, alloc, "width", Value::from(way.form.width))
}
