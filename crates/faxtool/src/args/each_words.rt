//! The words of the commands for many files: `decode --each`, and `identify` of several files.
ghost use Rattle.std.specs.Prelude.{◌≡◌, ◌++◌, ◌||◌, IfOk, MatchResult, OnOk, Some, codes, is_some, map, option_map, string_bytes, true};
ghost use Rattle.clap.specs.Words.{all_of, first_of, found_of, rows_of};
ghost use Rattle.faxtool.specs.Jobs.{HasNoCommand, IsCommandOf, IsFormIn, IsLikelyIn, IsListIn, has_files, has_half_form, has_more, has_one, has_standard, is_named, lists_itself, most_octets_of, most_of};
ghost use Rattle.faxtool.specs.Jobs.{is_for_many, texts_of};

use crate::args::unfit::Unfit;
use crate::args::words::{
    coding_in, decode_options, is_named, number_in, order_in, text_in, width_in,
};
use crate::command::Command;
use clap::ArgMatches;
use commands::decode::each::{EachCommand, NameList};
use commands::identify::several::SeveralCommand;
use page_files::PageForm;
use std::alloc::{AllocError, Global};

/// The most pages of a file, if no number is given.
const MOST_PAGES: u32 = 10_000;

/// The most octets of a file, if no number is given: as many as are read of any.
const MOST_OCTETS: u32 = 134_217_728;

// The values of an argument.
fn texts_in<'b, 'a>(matches: &'b ArgMatches<'a>, id: &str) -> Option<&'b [&'a str]>
    ensures { option_map (λ texts. map (λ text. text.now) texts.now) result ≡ all_of id.now (rows_of (found_of matches.now)) }
{
    matches.get_strs(id)
}

/// Returns whether an argument has more than one value.
pub(crate) fn has_more(matches: &ArgMatches<'_>, id: &str) -> bool
    ensures { result ≡ has_more id.now (rows_of (found_of matches.now)) }
{
    match texts_in(matches, id) {
        Some(texts) => texts.len() > 1,
        None => false,
    }
}

/// Appends copies of texts to names.
fn add_texts(alloc: Global, texts: &[&str], names: &mut Vec<String>) -> Result<(), AllocError>
    ensures { OnOk result (map string_bytes names.new.items ≡ map string_bytes names.old.items ++ map (λ text. text.now) texts.now) }
{
    for text in texts {
        let name = String::from_str(alloc, text)?;
        if names.push(name).is_err() {
            return Err(AllocError);
        }
    }
    Ok(())
}

/// Appends the values of an argument to names.
fn add_names(
    alloc: Global,
    matches: &ArgMatches<'_>,
    id: &str,
    names: &mut Vec<String>,
) -> Result<(), AllocError>
    ensures { OnOk result (map string_bytes names.new.items
        ≡ map string_bytes names.old.items ++ texts_of id.now (rows_of (found_of matches.now))) }
{
    match texts_in(matches, id) {
        Some(texts) => add_texts(alloc, texts, names),
        None => Ok(()),
    }
}

// Whether an option for one page was given.
fn has_one(matches: &ArgMatches<'_>) -> bool
    ensures { result ≡ has_one (rows_of (found_of matches.now)) }
{
    text_in(matches, "page").is_some() || is_named(text_in(matches, "verbose"), "true")
}

/// Returns whether one of these names is that of standard input.
fn is_among(texts: &[&str]) -> bool
    ensures { result ≡ has_standard (map (λ text. text.now) texts.now) }
{
    for text in texts {
        if *text == "-" {
            return true;
        }
    }
    false
}

/// Returns whether a value of an argument is the name of standard input.
fn has_standard(matches: &ArgMatches<'_>, id: &str) -> bool
    ensures { result ≡ has_standard (texts_of id.now (rows_of (found_of matches.now))) }
{
    match texts_in(matches, id) {
        Some(texts) => is_among(texts),
        None => false,
    }
}

/// Returns whether standard input is the list of the names of files, and one of the files that are named.
fn lists_itself(matches: &ArgMatches<'_>) -> bool
    ensures { result ≡ lists_itself (rows_of (found_of matches.now)) }
{
    is_named(text_in(matches, "from"), "-")
        && (has_standard(matches, "file") || has_standard(matches, "out"))
}

// Whether the code was given, and not the width.
pub(crate) fn has_half_form(matches: &ArgMatches<'_>) -> bool
    ensures { result ≡ has_half_form (rows_of (found_of matches.now)) }
{
    text_in(matches, "code").is_some() && text_in(matches, "width").is_none()
}

/// Returns the width that pages are likely to have: the one that is given without a code.
pub(crate) fn likely_in(matches: &ArgMatches<'_>) -> Option<u32>
    ensures { IsLikelyIn (rows_of (found_of matches.now)) result }
{
    match coding_in(matches) {
        Some(_) => None,
        None => width_in(matches),
    }
}

// How pages are read, if that is given.
pub(crate) fn form_in(matches: &ArgMatches<'_>) -> Option<PageForm>
    ensures { IsFormIn (rows_of (found_of matches.now)) result }
{
    let coding = coding_in(matches)?;
    let width = width_in(matches)?;
    Some(PageForm {
        coding,
        order: order_in(matches),
        width,
        fine: is_named(text_in(matches, "fine"), "true"),
    })
}

/// Returns the command that decodes every page of many files, if its options go together.
pub(crate) fn each_command(
    alloc: Global,
    matches: &ArgMatches<'_>,
) -> Result<Result<Command, Unfit>, AllocError>
    requires { is_some (first_of (codes "each") (rows_of (found_of matches.now))) ≡ true }
    ensures { let met = Some (codes "decode", rows_of (found_of matches.now)) in
        IfOk result (λ command. MatchResult command (IsCommandOf met) (λ unfit. HasNoCommand met)) }
{
    let Some(folder) = text_in(matches, "each") else {
        return Ok(Err(Unfit::Missing));
    };
    if has_one(matches) {
        return Ok(Err(Unfit::EachAndOne));
    }
    if has_half_form(matches) {
        return Ok(Err(Unfit::HalfForm));
    }
    if !has_files(matches) {
        return Ok(Err(Unfit::NoFiles));
    }
    if lists_itself(matches) {
        return Ok(Err(Unfit::FileAndFromStandard));
    }
    let mut files = Vec::new(alloc);
    add_names(alloc, matches, "file", &mut files)?;
    add_names(alloc, matches, "out", &mut files)?;
    let list = list_in(alloc, matches)?;
    Ok(Ok(Command::Each(EachCommand {
        form: form_in(matches),
        likely: likely_in(matches),
        fine: is_named(text_in(matches, "fine"), "true"),
        options: decode_options(matches),
        folder: String::from_str(alloc, folder)?,
        files,
        list,
        resume: is_named(text_in(matches, "resume"), "true"),
        most_pages: most_of(number_in(matches, "most-pages")),
        most_octets: most_octets_of(number_in(matches, "most-octets")),
    })))
}

/// Returns the list of files that is asked for. Errors: memory was refused.
fn list_in(alloc: Global, matches: &ArgMatches<'_>) -> Result<Option<NameList>, AllocError>
    ensures { IfOk result (IsListIn (rows_of (found_of matches.now))) }
{
    let Some(file) = text_in(matches, "from") else {
        return Ok(None);
    };
    Ok(Some(NameList {
        file: String::from_str(alloc, file)?,
        null: is_named(text_in(matches, "null"), "true"),
    }))
}

/// Returns the most pages of a file.
fn most_of(given: Option<u32>) -> u32
    ensures { result ≡ most_of given }
{
    given.unwrap_or(MOST_PAGES)
}

/// Returns the most octets of a file.
fn most_octets_of(given: Option<u32>) -> u32
    ensures { result ≡ most_octets_of given }
{
    given.unwrap_or(MOST_OCTETS)
}

/// Returns whether a file was given, or the list of files.
fn has_files(matches: &ArgMatches<'_>) -> bool
    ensures { result ≡ has_files (rows_of (found_of matches.now)) }
{
    text_in(matches, "file").is_some()
        || text_in(matches, "out").is_some()
        || text_in(matches, "from").is_some()
}

/// Returns whether an option for many files was given, which `decode` of one page hasn't.
pub(crate) fn is_for_many(matches: &ArgMatches<'_>) -> bool
    ensures { result ≡ is_for_many (rows_of (found_of matches.now)) }
{
    text_in(matches, "from").is_some()
        || is_named(text_in(matches, "null"), "true")
        || is_named(text_in(matches, "resume"), "true")
        || text_in(matches, "most-pages").is_some()
        || text_in(matches, "most-octets").is_some()
}

/// Returns the command that prints what each of several files is.
pub(crate) fn several_command(
    alloc: Global,
    matches: &ArgMatches<'_>,
) -> Result<Command, AllocError>
    requires { let rows = rows_of (found_of matches.now) in
        (is_named (codes "true") (first_of (codes "json") rows) || has_more (codes "file") rows) ≡ true }
    ensures { IfOk result (IsCommandOf (Some (codes "identify", rows_of (found_of matches.now)))) }
{
    let mut files = Vec::new(alloc);
    add_names(alloc, matches, "file", &mut files)?;
    Ok(Command::Several(SeveralCommand {
        records: is_named(text_in(matches, "json"), "true"),
        files,
    }))
}
