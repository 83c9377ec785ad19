//! What is written of a log that is judged.

ghost use Rattle.call_logs.specs.Reports.{all_found, broken_in, broken_line, broken_record, found_in, reading_text, reason_line};
ghost use Rattle.call_logs.specs.Reports.{side_name, tally_in, tally_line, tally_record};
ghost use Rattle.call_logs.specs.Told.{plain_told};
ghost use Rattle.faults.specs.Faults.{IsOutside};
ghost use Rattle.faults.specs.RecordLines.{record_line};
ghost use Rattle.serde_json.specs.View.{view};
ghost use Rattle.std.specs.Io.KnownBytes.{Appends};
ghost use Rattle.std.specs.Prelude.{◌≡◌, IfErr, IfOk, OnOk, map};

use crate::rule_words::{is_reading, rule_name, rule_reason, rule_words};
use crate::tally::Tally;
use crate::verdicts::Told;
use captures::{ListForm, NamedText, signal_record};
use faults::{ToolFault, write_record};
use referee::Rule;
use serde_json::{Value, json};
use signals::Side;
use std::alloc::{AllocError, Global};
use std::io::Write;

/// Returns the word of a station.
fn side_name(side: Side) -> &'static str
    ensures { result.now ≡ side_name side }
{
    match side {
        Side::Caller => "caller",
        Side::Answerer => "answerer",
    }
}

/// Returns what follows the name of a rule.
fn reading_text(reading: bool) -> &'static str
    ensures { result.now ≡ reading_text reading }
{
    if reading { ", a reading]" } else { "]" }
}

/// Writes the line of a frame that breaks a rule.
fn write_broken<W: Write>(told: &Told<'_, '_>, rule: Rule, writer: &mut W) -> Result<(), ToolFault>
    ensures line { OnOk result (Appends (W.contents writer.old) (W.contents writer.new)
        (broken_line (plain_told told.now) rule)) }
    ensures fault { IfErr result IsOutside }
{
    writeln!(
        writer,
        "{} {} {} {}: {} [{}{}",
        told.number,
        told.frame.at,
        side_name(told.frame.by),
        NamedText(&told.frame.content),
        rule_words(rule),
        rule_name(rule),
        reading_text(is_reading(rule)),
    )?;
    Ok(())
}

/// Writes the line that says why a rule is one.
fn write_reason<W: Write>(rule: Rule, writer: &mut W) -> Result<(), ToolFault>
    ensures line { OnOk result (Appends (W.contents writer.old) (W.contents writer.new)
        (reason_line rule)) }
    ensures fault { IfErr result IsOutside }
{
    writeln!(writer, "    {}", rule_reason(rule))?;
    Ok(())
}

/// Returns the record of a frame that breaks a rule.
fn broken_record(alloc: Global, told: &Told<'_, '_>, rule: Rule) -> Result<Value, AllocError>
    ensures { IfOk result (λ value. view value ≡ broken_record (plain_told told.now) rule) }
{
    let said = signal_record(alloc, &told.signal)?;
    json!(in alloc; {
        "frame": told.number,
        "at": told.frame.at,
        "by": side_name(told.frame.by),
        "said": said,
        "rule": rule_name(rule),
        "reading": is_reading(rule),
    })
}

/// Writes the record of a frame that breaks a rule as a line.
fn write_broken_record<W: Write>(
    alloc: Global,
    told: &Told<'_, '_>,
    rule: Rule,
    writer: &mut W,
) -> Result<(), ToolFault>
    ensures line { OnOk result (Appends (W.contents writer.old) (W.contents writer.new)
        (record_line (broken_record (plain_told told.now) rule))) }
    ensures fault { IfErr result IsOutside }
{
    let record = broken_record(alloc, told, rule)?;
    write_record(alloc, &record, writer)
}

/// Writes a frame that breaks a rule.
fn write_in<W: Write>(
    alloc: Global,
    form: ListForm,
    told: &Told<'_, '_>,
    rule: Rule,
    writer: &mut W,
) -> Result<(), ToolFault>
    ensures text { OnOk result (Appends (W.contents writer.old) (W.contents writer.new)
        (broken_in form (plain_told told.now) rule)) }
    ensures fault { IfErr result IsOutside }
{
    match form {
        ListForm::Plain => write_broken(told, rule, writer),
        ListForm::Explained => {
            write_broken(told, rule, writer)?;
            write_reason(rule, writer)
        }
        ListForm::Records => write_broken_record(alloc, told, rule, writer),
    }
}

/// Writes a frame, if it breaks a rule.
fn write_found<W: Write>(
    alloc: Global,
    form: ListForm,
    told: &Told<'_, '_>,
    rule: Option<Rule>,
    writer: &mut W,
) -> Result<(), ToolFault>
    ensures text { OnOk result (Appends (W.contents writer.old) (W.contents writer.new)
        (found_in form (plain_told told.now) rule)) }
    ensures fault { IfErr result IsOutside }
{
    match rule {
        Some(rule) => write_in(alloc, form, told, rule, writer),
        None => Ok(()),
    }
}

/// Writes each frame that breaks a rule, by the rule that each frame breaks. Errors: `Io` (8) from the writer, `NoMemory` (9).
pub(crate) fn write_all<W: Write>(
    alloc: Global,
    form: ListForm,
    told: &[Told<'_, '_>],
    found: &[Option<Rule>],
    writer: &mut W,
) -> Result<(), ToolFault>
    ensures text { OnOk result (Appends (W.contents writer.old) (W.contents writer.new)
        (all_found form (map plain_told told.now) found.now)) }
    ensures fault { IfErr result IsOutside }
{
    for at in 0..told.len().min(found.len()) {
        write_found(alloc, form, &told[at], found[at], writer)?;
    }
    Ok(())
}

/// Writes the line of the counts.
fn write_tally_line<W: Write>(tally: Tally, writer: &mut W) -> Result<(), ToolFault>
    ensures line { OnOk result (Appends (W.contents writer.old) (W.contents writer.new)
        (tally_line tally)) }
    ensures fault { IfErr result IsOutside }
{
    let Tally {
        frames,
        broken,
        readings,
        unread,
    } = tally;
    writeln!(
        writer,
        "frames {frames} broken {broken} readings {readings} unread {unread}"
    )?;
    Ok(())
}

/// Returns the record of the counts.
fn tally_record(alloc: Global, tally: Tally) -> Result<Value, AllocError>
    ensures { IfOk result (λ value. view value ≡ tally_record tally) }
{
    json!(in alloc; {
        "frames": tally.frames,
        "broken": tally.broken,
        "readings": tally.readings,
        "unread": tally.unread,
    })
}

/// Writes the counts. Errors: `Io` (8) from the writer, `NoMemory` (9).
pub(crate) fn write_tally<W: Write>(
    alloc: Global,
    form: ListForm,
    tally: Tally,
    writer: &mut W,
) -> Result<(), ToolFault>
    ensures text { OnOk result (Appends (W.contents writer.old) (W.contents writer.new)
        (tally_in form tally)) }
    ensures fault { IfErr result IsOutside }
{
    match form {
        ListForm::Plain | ListForm::Explained => write_tally_line(tally, writer),
        ListForm::Records => {
            let record = tally_record(alloc, tally)?;
            write_record(alloc, &record, writer)
        }
    }
}
