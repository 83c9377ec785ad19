//! A call as a picture: the rounds of a ladder, written as SVG.

ghost use Rattle.call_pictures.specs.Pictures.{IsPicture, answerer_foot, answerer_pages, answerer_reason, answerer_side, arrow_text, base_text};
ghost use Rattle.call_pictures.specs.Pictures.{bracket_begin, bracket_line, bracket_middle, bracket_text, bracket_word, caller_foot, caller_pages};
ghost use Rattle.call_pictures.specs.Pictures.{caller_reason, caller_side, end_lines, fate_text, feet_begin, feet_end, feet_lines, gap_text};
ghost use Rattle.call_pictures.specs.Pictures.{head_text, height_of, items_in, joint_text, last_line, mark_text, names_text, own_text, page_mark};
ghost use Rattle.call_pictures.specs.Pictures.{paper_text, picture_text, refused_text, round_text, rounds_text, row_begin, row_label, row_numbers};
ghost use Rattle.call_pictures.specs.Pictures.{row_shape, row_side, row_text, row_words, rows_text, shape_text, sheet_text, size_text};
ghost use Rattle.call_pictures.specs.Pictures.{stations_text, style_text, view_text};
ghost use Rattle.faults.specs.Faults.{IsOutside};
ghost use Rattle.std.specs.Io.KnownBytes.{Appends};
ghost use Rattle.std.specs.Prelude.{◌≡◌, ◌+◌, ◌*◌, length, IfErr, IfOk, OnOk};

use crate::drawn_fields::FieldsText;
use crate::ladder::{Feet, Ladder, Round, Row};
use calls::{ItemText, TurnText, end_word, write_entry};
use faults::{FAILED, ToolFault};
use line_sim::{Entry, Event, Kind};
use stations::{End, Turn};
use std::fmt;
use std::io::Write;

/// The height of a row, in pixels.
const ROW: u64 = 26;

/// What is left free after a round.
const GAP: u64 = 10;

/// Where the first row is.
const TOP: u64 = 72;

/// The sum of two numbers. Errs with `FAILED` (8) if it would be 2^64.
fn plus(number: u64, more: u64) -> Result<u64, ToolFault>
    ensures sum { IfOk result (λ sum. sum ≡ number + more) }
    ensures fault { IfErr result IsOutside }
{
    number.checked_add(more).ok_or(FAILED)
}

/// The product of two numbers. Errs with `FAILED` (8) if it would be 2^64.
fn times(number: u64, times: u64) -> Result<u64, ToolFault>
    ensures product { IfOk result (λ product. product ≡ number * times) }
    ensures fault { IfErr result IsOutside }
{
    number.checked_mul(times).ok_or(FAILED)
}

/// The arrow of an item to the answerer or the caller: with a cross at its end if the item is lost, and broad for several items.
fn arrow(event: Event, is_one: bool) -> &'static str
    ensures { result.now ≡ arrow_text event is_one }
{
    match (event, is_one) {
        (Event::DeliverToAnswerer, true) => "M250 0h280m-9-4l9 4l-9 4",
        (Event::DeliverToAnswerer, false) => "M250-4h266v-4l14 8l-14 8v-4h-266z",
        (Event::DeliverToCaller, true) => "M530 0h-280m9-4l-9 4l9 4",
        (Event::DeliverToCaller, false) => "M530-4h-266v-4l-14 8l14 8v-4h266z",
        (Event::LoseToAnswerer, true) => "M250 0h200m-6-6l12 12m0-12l-12 12",
        (Event::LoseToAnswerer, false) => "M250-4h194v8h-194zm194-2l12 12m0-12l-12 12",
        (Event::LoseToCaller, true) => "M530 0h-200m6-6l-12 12m0-12l12 12",
        (Event::LoseToCaller, false) => "M530-4h-194v8h194zm-194-2l-12 12m0-12l12 12",
        (Event::Spoil, _) => "M250 0h115l10-8l10 16l10-16l10 16l10-8h20",
        _ => "",
    }
}

/// The mark of what happens at a station by itself, on its line.
fn mark(event: Event) -> &'static str
    ensures { result.now ≡ mark_text event }
{
    match event {
        Event::CallerTimeout | Event::CallerT5 => "M244-7h12l-12 14h12z",
        Event::AnswererT1 | Event::AnswererT2 => "M524-7h12l-12 14h12z",
        Event::Busy(true) => "M524-6h12v12h-12zl12 12m0-12l-12 12",
        Event::Busy(false) => "M524-6h12v12h-12z",
        _ => "",
    }
}

/// The lines of a row: an arrow if there is an item, else a mark.
fn shape(row: &Row) -> &'static str
    ensures { result.now ≡ shape_text row.now }
{
    match row.entry.item {
        Some(_) => arrow(row.entry.event, row.times == 1),
        None => mark(row.entry.event),
    }
}

/// The label of what becomes of an item that doesn't come as it was sent.
fn fate_word(event: Event) -> &'static str
    ensures { result.now ≡ fate_text event }
{
    match event {
        Event::LoseToAnswerer | Event::LoseToCaller => " lost",
        Event::Spoil => " spoiled",
        _ => "",
    }
}

/// The label of an event without an item.
fn gap_word(event: Event) -> &'static str
    ensures { result.now ≡ gap_text event }
{
    match event {
        Event::DeliverToAnswerer | Event::DeliverToCaller => "nothing under way",
        Event::LoseToAnswerer | Event::LoseToCaller => "nothing to lose",
        Event::Spoil => "no check to spoil",
        _ => "",
    }
}

/// The label of what happens at a station by itself.
fn own_word(event: Event) -> &'static str
    ensures { result.now ≡ own_text event }
{
    match event {
        Event::CallerTimeout => "time-out",
        Event::CallerT5 => "T5 is over",
        Event::AnswererT1 => "T1 is over",
        Event::AnswererT2 => "T2 is over",
        Event::Busy(true) => "busy",
        Event::Busy(false) => "ready",
        _ => "",
    }
}

/// What is between that and what the station sends then.
fn joint_word(event: Event) -> &'static str
    ensures { result.now ≡ joint_text event }
{
    match event {
        Event::CallerTimeout | Event::CallerT5 | Event::AnswererT1 | Event::AnswererT2 => ", ",
        _ => "",
    }
}

/// The label of a refused growth.
fn refused_word(refused: bool) -> &'static str
    ensures { result.now ≡ refused_text refused }
{
    if refused { " (memory refused)" } else { "" }
}

/// The place and the alignment of the text beside the station that an event acts on.
fn base_word(event: Event) -> &'static str
    ensures { result.now ≡ base_text event }
{
    match event {
        Event::DeliverToCaller | Event::LoseToCaller | Event::CallerTimeout | Event::CallerT5 =>
            "<text class=\"e\" x=\"238\" y=\"4\">",
        _ => "<text x=\"542\" y=\"4\">",
    }
}

/// How many items a row has, if it is more than one.
#[derive(Drop)]
struct TimesText(Option<Kind>, u64);

impl fmt::Display for TimesText {
    ghost use Rattle.std.specs.Prelude.{Some};
    ghost use Rattle.call_pictures.specs.Pictures.{times_text};

    ghost output = { λ text. Some (times_text text.0 text.1) };

    fn fmt<W: fmt::Write>(&self, f: &mut fmt::Formatter<W>) -> fmt::Result {
        match (self.0, self.1) {
            (_, 1) => write!(f, ""),
            (Some(Kind::Fcd(_)), many) => write!(f, "{many} frames from "),
            (_, many) => write!(f, "{many} times "),
        }
    }
}

/// What is written over an arrow: the items, what they set or end, and what becomes of them.
#[derive(Drop)]
struct LabelText(Row);

impl fmt::Display for LabelText {
    ghost use Rattle.std.specs.Prelude.{Some};
    ghost use Rattle.call_pictures.specs.Pictures.{label_text};

    ghost output = { λ text. Some (label_text text.0) };

    fn fmt<W: fmt::Write>(&self, f: &mut fmt::Formatter<W>) -> fmt::Result {
        let entry = self.0.entry;
        let many = TimesText(entry.item, self.0.times);
        match entry.item {
            None => write!(f, "{many}{}", gap_word(entry.event)),
            item => write!(
                f,
                "{many}{}{}{}",
                ItemText(item),
                FieldsText(entry.fields),
                fate_word(entry.event)
            ),
        }
    }
}

/// What is written beside a station: what happens to it, and what it sends then.
#[derive(Drop)]
struct SideText(Entry);

impl fmt::Display for SideText {
    ghost use Rattle.std.specs.Prelude.{Some};
    ghost use Rattle.call_pictures.specs.Pictures.{side_text};

    ghost output = { λ text. Some (side_text text.0) };

    fn fmt<W: fmt::Write>(&self, f: &mut fmt::Formatter<W>) -> fmt::Result {
        let own = own_word(self.0.event);
        let refused = refused_word(self.0.refused);
        match self.0.turn {
            Turn::Silent => write!(f, "{own}{refused}"),
            turn => {
                let joint = joint_word(self.0.event);
                write!(
                    f,
                    "{own}{joint}sends {}{refused}",
                    TurnText(turn, self.0.fcds)
                )
            }
        }
    }
}

/// The numbers of the first event of a row and of its last one.
#[derive(Drop)]
struct NumbersText(u64, u64);

impl fmt::Display for NumbersText {
    ghost use Rattle.std.specs.Prelude.{Some};
    ghost use Rattle.call_pictures.specs.Pictures.{numbers_text};

    ghost output = { λ text. Some (numbers_text text.0 text.1) };

    fn fmt<W: fmt::Write>(&self, f: &mut fmt::Formatter<W>) -> fmt::Result {
        if self.0 == self.1 {
            write!(f, "{}", self.0)
        } else {
            write!(f, "{} to {}", self.0, self.1)
        }
    }
}

/// How often a round comes, if it is more than once.
#[derive(Drop)]
struct RoundsText(u64);

impl fmt::Display for RoundsText {
    ghost use Rattle.std.specs.Prelude.{Some};
    ghost use Rattle.call_pictures.specs.Pictures.{rounds_word};

    ghost output = { λ text. Some (rounds_word text.0) };

    fn fmt<W: fmt::Write>(&self, f: &mut fmt::Formatter<W>) -> fmt::Result {
        match self.0 {
            1 => write!(f, ""),
            many => write!(f, "{many} rounds like this"),
        }
    }
}

/// Begins a row at a height, and its title.
#[tactic(auto, unfolding(crate::specs::Pictures::row_begin))]
fn begin_row<W: Write>(y: u64, writer: &mut W) -> Result<(), ToolFault>
    ensures text { OnOk result (Appends (W.contents writer.old) (W.contents writer.new) (row_begin y)) }
    ensures fault { IfErr result IsOutside }
{
    write!(writer, "<g transform=\"translate(0 {y})\"><title>")?;
    Ok(())
}

/// Ends the title, and writes the lines of a row, a path.
#[tactic(auto, unfolding(crate::specs::Pictures::row_shape))]
fn write_shape<W: Write>(path: &str, writer: &mut W) -> Result<(), ToolFault>
    ensures text { OnOk result (Appends (W.contents writer.old) (W.contents writer.new) (row_shape path.now)) }
    ensures fault { IfErr result IsOutside }
{
    write!(writer, "</title><path d=\"{path}\"/>")?;
    Ok(())
}

/// Writes the numbers of the first event of a row and of its last one.
#[tactic(auto, unfolding(crate::specs::Pictures::row_numbers))]
fn write_numbers<W: Write>(first: u64, last: u64, writer: &mut W) -> Result<(), ToolFault>
    ensures text { OnOk result (Appends (W.contents writer.old) (W.contents writer.new) (row_numbers first last)) }
    ensures fault { IfErr result IsOutside }
{
    let numbers = NumbersText(first, last);
    write!(writer, "<text x=\"24\" y=\"4\">{numbers}</text>")?;
    Ok(())
}

/// Writes what stands over the arrow of a row.
#[tactic(auto, unfolding(crate::specs::Pictures::row_label))]
fn write_label<W: Write>(row: &Row, writer: &mut W) -> Result<(), ToolFault>
    ensures text { OnOk result (Appends (W.contents writer.old) (W.contents writer.new) (row_label row.now)) }
    ensures fault { IfErr result IsOutside }
{
    let label = LabelText(*row);
    write!(
        writer,
        "<text class=\"m\" x=\"390\" y=\"-9\">{label}</text>"
    )?;
    Ok(())
}

/// Writes what stands beside the station of a row, and ends the row.
#[tactic(auto, unfolding(crate::specs::Pictures::row_side))]
fn write_side<W: Write>(entry: &Entry, writer: &mut W) -> Result<(), ToolFault>
    ensures text { OnOk result (Appends (W.contents writer.old) (W.contents writer.new) (row_side entry.now)) }
    ensures fault { IfErr result IsOutside }
{
    let base = base_word(entry.event);
    let side = SideText(*entry);
    writeln!(writer, "{base}{side}</text></g>")?;
    Ok(())
}

/// Writes what comes after the title of a row whose first event has this number, and returns the number of the next one.
#[tactic(auto, unfolding(crate::specs::Pictures::row_words))]
fn write_words<W: Write>(row: &Row, number: u64, writer: &mut W) -> Result<u64, ToolFault>
    ensures text { OnOk result (Appends (W.contents writer.old) (W.contents writer.new) (row_words number row.now)) }
    ensures next { IfOk result (λ next. next ≡ number + row.now.times) }
    ensures fault { IfErr result IsOutside }
{
    let next = plus(number, row.times)?;
    write_shape(shape(row), writer)?;
    write_numbers(number, next.saturating_sub(1), writer)?;
    write_label(row, writer)?;
    write_side(&row.entry, writer)?;
    Ok(next)
}

/// Writes a row at a height, whose first event has this number, and returns the number of the next one.
#[tactic(auto, unfolding(crate::specs::Pictures::row_text))]
fn write_row<W: Write>(row: &Row, y: u64, number: u64, writer: &mut W) -> Result<u64, ToolFault>
    ensures text { OnOk result (Appends (W.contents writer.old) (W.contents writer.new) (row_text y number row.now)) }
    ensures next { IfOk result (λ next. next ≡ number + row.now.times) }
    ensures fault { IfErr result IsOutside }
{
    begin_row(y, writer)?;
    write_entry(number, &row.entry, writer)?;
    write_words(row, number, writer)
}

/// Writes rows from a height and a number on, and returns the number of the next event.
fn write_rows<W: Write>(rows: &[Row], y: u64, number: u64, writer: &mut W) -> Result<u64, ToolFault>
    ensures text { OnOk result (Appends (W.contents writer.old) (W.contents writer.new) (rows_text y number rows.now)) }
    ensures next { IfOk result (λ next. next ≡ number + items_in rows.now) }
    ensures fault { IfErr result IsOutside }
{
    let mut at = y;
    let mut next = number;
    for row in rows {
        next = write_row(row, at, next, writer)?;
        at = plus(at, ROW)?;
    }
    Ok(next)
}

/// Begins the bracket beside rows, at a height.
#[tactic(auto, unfolding(crate::specs::Pictures::bracket_begin))]
fn begin_bracket<W: Write>(y: u64, writer: &mut W) -> Result<(), ToolFault>
    ensures text { OnOk result (Appends (W.contents writer.old) (W.contents writer.new) (bracket_begin y)) }
    ensures fault { IfErr result IsOutside }
{
    write!(writer, "<g transform=\"translate(0 {y})\">")?;
    Ok(())
}

/// Writes the line of a bracket of a height.
#[tactic(auto, unfolding(crate::specs::Pictures::bracket_line))]
fn write_line<W: Write>(height: u64, writer: &mut W) -> Result<(), ToolFault>
    ensures text { OnOk result (Appends (W.contents writer.old) (W.contents writer.new) (bracket_line height)) }
    ensures fault { IfErr result IsOutside }
{
    write!(writer, "<path d=\"M708-16h6v{height}h-6\"/>")?;
    Ok(())
}

/// Begins the text of a bracket, in the middle.
#[tactic(auto, unfolding(crate::specs::Pictures::bracket_middle))]
fn write_middle<W: Write>(middle: u64, writer: &mut W) -> Result<(), ToolFault>
    ensures text { OnOk result (Appends (W.contents writer.old) (W.contents writer.new) (bracket_middle middle)) }
    ensures fault { IfErr result IsOutside }
{
    write!(writer, "<text x=\"722\" y=\"{middle}\" dy=\"-12\">")?;
    Ok(())
}

/// Writes how often the rows of a bracket come, and ends it.
#[tactic(auto, unfolding(crate::specs::Pictures::bracket_word))]
fn write_often<W: Write>(often: u64, writer: &mut W) -> Result<(), ToolFault>
    ensures text { OnOk result (Appends (W.contents writer.old) (W.contents writer.new) (bracket_word often)) }
    ensures fault { IfErr result IsOutside }
{
    let many = RoundsText(often);
    writeln!(writer, "{many}</text></g>")?;
    Ok(())
}

/// Writes the bracket beside this number of rows, which come this often.
#[tactic(auto, unfolding(crate::specs::Pictures::bracket_text))]
fn write_bracket<W: Write>(rows: u64, y: u64, often: u64, writer: &mut W) -> Result<(), ToolFault>
    ensures text { OnOk result (Appends (W.contents writer.old) (W.contents writer.new) (bracket_text y rows often)) }
    ensures fault { IfErr result IsOutside }
{
    let height = times(rows, ROW)?;
    let middle = times(rows, ROW / 2)?;
    begin_bracket(y, writer)?;
    write_line(height, writer)?;
    write_middle(middle, writer)?;
    write_often(often, writer)?;
    Ok(())
}

/// Writes a round from a height and a number on, and returns the number of the next event after all its times.
#[tactic(auto, unfolding(crate::specs::Pictures::round_text))]
fn write_round<W: Write>(
    round: &Round,
    y: u64,
    number: u64,
    writer: &mut W,
) -> Result<u64, ToolFault>
    ensures text { OnOk result (Appends (W.contents writer.old) (W.contents writer.new) (round_text y number round.now)) }
    ensures next { IfOk result (λ next. next ≡ number + items_in round.now.rows.items * round.now.times) }
    ensures fault { IfErr result IsOutside }
{
    let after_one = write_rows(&round.rows, y, number, writer)?;
    write_bracket(round.rows.len() as u64, y, round.times, writer)?;
    let all = times(after_one - number, round.times)?;
    plus(number, all)
}

/// The height of a round.
fn round_height(round: &Round) -> Result<u64, ToolFault>
    ensures height { IfOk result (λ height. height ≡ length round.now.rows.items * 26 + 10) }
    ensures fault { IfErr result IsOutside }
{
    let rows = times(round.rows.len() as u64, ROW)?;
    plus(rows, GAP)
}

/// The height of rounds.
fn height(rounds: &[Round]) -> Result<u64, ToolFault>
    ensures height { IfOk result (λ height. height ≡ height_of rounds.now) }
    ensures fault { IfErr result IsOutside }
{
    let mut height = 0;
    for round in rounds {
        height = plus(height, round_height(round)?)?;
    }
    Ok(height)
}

/// Writes rounds from a height and a number on, and returns the height after them.
fn write_rounds<W: Write>(rounds: &[Round], writer: &mut W) -> Result<(), ToolFault>
    ensures text { OnOk result (Appends (W.contents writer.old) (W.contents writer.new) (rounds_text 72 1 rounds.now)) }
    ensures fault { IfErr result IsOutside }
{
    let mut y = TOP;
    let mut number = 1;
    for round in rounds {
        number = write_round(round, y, number, writer)?;
        y = plus(y, round_height(round)?)?;
    }
    Ok(())
}

/// Begins the picture, with its size.
#[tactic(auto, unfolding(crate::specs::Pictures::size_text))]
fn write_size<W: Write>(height: u64, writer: &mut W) -> Result<(), ToolFault>
    ensures text { OnOk result (Appends (W.contents writer.old) (W.contents writer.new) (size_text height)) }
    ensures fault { IfErr result IsOutside }
{
    write!(
        writer,
        "<svg xmlns=\"http://www.w3.org/2000/svg\" width=\"880\" height=\"{height}\""
    )?;
    Ok(())
}

/// Writes what is seen of the picture, and its letters.
#[tactic(auto, unfolding(crate::specs::Pictures::view_text))]
fn write_view<W: Write>(height: u64, writer: &mut W) -> Result<(), ToolFault>
    ensures text { OnOk result (Appends (W.contents writer.old) (W.contents writer.new) (view_text height)) }
    ensures fault { IfErr result IsOutside }
{
    writeln!(
        writer,
        " viewBox=\"0 0 880 {height}\" font-family=\"sans-serif\" font-size=\"12\">"
    )?;
    Ok(())
}

/// Writes what the picture is, and how it is drawn.
#[tactic(auto, unfolding(crate::specs::Pictures::style_text))]
fn write_style<W: Write>(writer: &mut W) -> Result<(), ToolFault>
    ensures text { OnOk result (Appends (W.contents writer.old) (W.contents writer.new) (style_text)) }
    ensures fault { IfErr result IsOutside }
{
    writeln!(
        writer,
        "<title>A fax call</title><style>path{{fill:none;stroke:black}}.e{{text-anchor:end}}.m{{text-anchor:middle}}</style>"
    )?;
    Ok(())
}

/// Writes white paper.
#[tactic(auto, unfolding(crate::specs::Pictures::paper_text))]
fn write_paper<W: Write>(height: u64, writer: &mut W) -> Result<(), ToolFault>
    ensures text { OnOk result (Appends (W.contents writer.old) (W.contents writer.new) (paper_text height)) }
    ensures fault { IfErr result IsOutside }
{
    writeln!(
        writer,
        "<rect width=\"880\" height=\"{height}\" fill=\"white\"/>"
    )?;
    Ok(())
}

/// Begins the picture, and writes its paper.
#[tactic(auto, unfolding(crate::specs::Pictures::sheet_text))]
fn write_sheet<W: Write>(height: u64, writer: &mut W) -> Result<(), ToolFault>
    ensures text { OnOk result (Appends (W.contents writer.old) (W.contents writer.new) (sheet_text height)) }
    ensures fault { IfErr result IsOutside }
{
    write_size(height, writer)?;
    write_view(height, writer)?;
    write_style(writer)?;
    write_paper(height, writer)?;
    Ok(())
}

/// Writes the names of the stations.
#[tactic(auto, unfolding(crate::specs::Pictures::names_text))]
fn write_names<W: Write>(writer: &mut W) -> Result<(), ToolFault>
    ensures text { OnOk result (Appends (W.contents writer.old) (W.contents writer.new) (names_text)) }
    ensures fault { IfErr result IsOutside }
{
    writeln!(
        writer,
        "<text class=\"m\" x=\"250\" y=\"26\">caller</text><text class=\"m\" x=\"530\" y=\"26\">answerer</text>"
    )?;
    Ok(())
}

/// Writes the caller's line, of this length.
#[tactic(auto, unfolding(crate::specs::Pictures::caller_side))]
fn write_caller_side<W: Write>(length: u64, writer: &mut W) -> Result<(), ToolFault>
    ensures text { OnOk result (Appends (W.contents writer.old) (W.contents writer.new) (caller_side length)) }
    ensures fault { IfErr result IsOutside }
{
    write!(writer, "<path d=\"M250 34v{length}\"/>")?;
    Ok(())
}

/// Writes the answerer's line, of this length.
#[tactic(auto, unfolding(crate::specs::Pictures::answerer_side))]
fn write_answerer_side<W: Write>(length: u64, writer: &mut W) -> Result<(), ToolFault>
    ensures text { OnOk result (Appends (W.contents writer.old) (W.contents writer.new) (answerer_side length)) }
    ensures fault { IfErr result IsOutside }
{
    writeln!(writer, "<path d=\"M530 34v{length}\"/>")?;
    Ok(())
}

/// Writes the stations, with lines of this length.
#[tactic(auto, unfolding(crate::specs::Pictures::stations_text))]
fn write_stations<W: Write>(length: u64, writer: &mut W) -> Result<(), ToolFault>
    ensures text { OnOk result (Appends (W.contents writer.old) (W.contents writer.new) (stations_text length)) }
    ensures fault { IfErr result IsOutside }
{
    write_names(writer)?;
    write_caller_side(length, writer)?;
    write_answerer_side(length, writer)?;
    Ok(())
}

/// Writes what comes before rows of a height.
#[tactic(auto, unfolding(crate::specs::Pictures::head_text))]
fn write_head<W: Write>(height: u64, writer: &mut W) -> Result<(), ToolFault>
    ensures text { OnOk result (Appends (W.contents writer.old) (W.contents writer.new) (head_text height)) }
    ensures fault { IfErr result IsOutside }
{
    let whole = plus(height, 120)?;
    let length = plus(height, 20)?;
    write_sheet(whole, writer)?;
    write_stations(length, writer)?;
    Ok(())
}

/// Begins what a call has left, at a height.
#[tactic(auto, unfolding(crate::specs::Pictures::feet_begin))]
fn begin_feet<W: Write>(y: u64, writer: &mut W) -> Result<(), ToolFault>
    ensures text { OnOk result (Appends (W.contents writer.old) (W.contents writer.new) (feet_begin y)) }
    ensures fault { IfErr result IsOutside }
{
    write!(writer, "<g class=\"m\" transform=\"translate(0 {y})\">")?;
    Ok(())
}

/// Writes why the call ended for the caller, in a word.
#[tactic(auto, unfolding(crate::specs::Pictures::caller_reason))]
fn write_caller_reason<W: Write>(word: &str, writer: &mut W) -> Result<(), ToolFault>
    ensures text { OnOk result (Appends (W.contents writer.old) (W.contents writer.new) (caller_reason word.now)) }
    ensures fault { IfErr result IsOutside }
{
    write!(writer, "<text x=\"250\">{word}</text>")?;
    Ok(())
}

/// Writes how many pages the caller counts as confirmed.
#[tactic(auto, unfolding(crate::specs::Pictures::caller_pages))]
fn write_caller_pages<W: Write>(confirmed: u64, writer: &mut W) -> Result<(), ToolFault>
    ensures text { OnOk result (Appends (W.contents writer.old) (W.contents writer.new) (caller_pages confirmed)) }
    ensures fault { IfErr result IsOutside }
{
    writeln!(
        writer,
        "<text x=\"250\" y=\"16\">pages confirmed: {confirmed}</text>"
    )?;
    Ok(())
}

/// Writes why the call ended for the answerer, in a word.
#[tactic(auto, unfolding(crate::specs::Pictures::answerer_reason))]
fn write_answerer_reason<W: Write>(word: &str, writer: &mut W) -> Result<(), ToolFault>
    ensures text { OnOk result (Appends (W.contents writer.old) (W.contents writer.new) (answerer_reason word.now)) }
    ensures fault { IfErr result IsOutside }
{
    write!(writer, "<text x=\"530\">{word}</text>")?;
    Ok(())
}

/// Writes how many pages the answerer has stored.
#[tactic(auto, unfolding(crate::specs::Pictures::answerer_pages))]
fn write_answerer_pages<W: Write>(pages: usize, writer: &mut W) -> Result<(), ToolFault>
    ensures text { OnOk result (Appends (W.contents writer.old) (W.contents writer.new) (answerer_pages pages)) }
    ensures fault { IfErr result IsOutside }
{
    write!(
        writer,
        "<text x=\"530\" y=\"16\">pages stored: {pages}</text>"
    )?;
    Ok(())
}

/// The mark of stored pages, if there are any: a small page with a corner that is turned down.
fn page_mark(pages: usize) -> &'static str
    ensures { result.now ≡ page_mark pages }
{
    if pages == 0 {
        ""
    } else {
        "<path d=\"M525 22h7l3 3v9h-10zm7 0v3h3\"/>"
    }
}

/// Writes the mark of stored pages, and ends what a call has left.
#[tactic(auto, unfolding(crate::specs::Pictures::feet_end))]
fn end_feet<W: Write>(pages: usize, writer: &mut W) -> Result<(), ToolFault>
    ensures text { OnOk result (Appends (W.contents writer.old) (W.contents writer.new) (feet_end pages)) }
    ensures fault { IfErr result IsOutside }
{
    let mark = page_mark(pages);
    writeln!(writer, "{mark}</g>")?;
    Ok(())
}

/// Writes what the call has left for the caller.
#[tactic(auto, unfolding(crate::specs::Pictures::caller_foot))]
fn write_caller<W: Write>(feet: &Feet, writer: &mut W) -> Result<(), ToolFault>
    ensures text { OnOk result (Appends (W.contents writer.old) (W.contents writer.new) (caller_foot feet.now)) }
    ensures fault { IfErr result IsOutside }
{
    write_caller_reason(end_word(feet.caller_end), writer)?;
    write_caller_pages(feet.confirmed, writer)?;
    Ok(())
}

/// Writes what the call has left for the answerer.
#[tactic(auto, unfolding(crate::specs::Pictures::answerer_foot))]
fn write_answerer<W: Write>(feet: &Feet, writer: &mut W) -> Result<(), ToolFault>
    ensures text { OnOk result (Appends (W.contents writer.old) (W.contents writer.new) (answerer_foot feet.now)) }
    ensures fault { IfErr result IsOutside }
{
    write_answerer_reason(end_word(feet.answerer_end), writer)?;
    write_answerer_pages(feet.pages, writer)?;
    end_feet(feet.pages, writer)?;
    Ok(())
}

/// Writes what a call has left, below rounds of a height.
#[tactic(auto, unfolding(crate::specs::Pictures::feet_lines))]
fn write_feet<W: Write>(feet: &Feet, height: u64, writer: &mut W) -> Result<(), ToolFault>
    ensures text { OnOk result (Appends (W.contents writer.old) (W.contents writer.new) (feet_lines feet.now height)) }
    ensures fault { IfErr result IsOutside }
{
    let y = plus(height, TOP)?;
    begin_feet(y, writer)?;
    write_caller(feet, writer)?;
    write_answerer(feet, writer)?;
    Ok(())
}

/// Writes what a call has left, if it is over.
#[tactic(auto, unfolding(crate::specs::Pictures::end_lines))]
fn write_end<W: Write>(feet: &Option<Feet>, height: u64, writer: &mut W) -> Result<(), ToolFault>
    ensures text { OnOk result (Appends (W.contents writer.old) (W.contents writer.new) (end_lines feet.now height)) }
    ensures fault { IfErr result IsOutside }
{
    let Some(feet) = feet else {
        return Ok(());
    };
    write_feet(feet, height, writer)
}

/// Ends the picture.
#[tactic(auto, unfolding(crate::specs::Pictures::last_line))]
fn end_picture<W: Write>(writer: &mut W) -> Result<(), ToolFault>
    ensures text { OnOk result (Appends (W.contents writer.old) (W.contents writer.new) last_line) }
    ensures fault { IfErr result IsOutside }
{
    writeln!(writer, "</svg>")?;
    Ok(())
}

/// Writes the picture of rounds, and of what the call has left.
#[tactic(auto, unfolding(crate::specs::Pictures::picture_text))]
fn write_all<W: Write>(
    rounds: &[Round],
    feet: &Option<Feet>,
    writer: &mut W,
) -> Result<(), ToolFault>
    ensures text { OnOk result (Appends (W.contents writer.old) (W.contents writer.new) (picture_text rounds.now feet.now)) }
    ensures fault { IfErr result IsOutside }
{
    let height = height(rounds)?;
    write_head(height, writer)?;
    write_rounds(rounds, writer)?;
    write_end(feet, height, writer)?;
    end_picture(writer)
}

/// Writes a call as a picture, SVG: the caller on the left, the answerer on the right, and downwards a row for each event, or one for
/// several equal ones, and at the end what the call has left. The clause says that the rounds drawn have the ladder's events, each once and
/// in order; how they are put together is open. Errs with `FAILED` (8) if the writer fails or a number would be 2^64, and with `NO_MEMORY`
/// (9).
pub fn write_picture<W: Write>(ladder: Ladder, writer: &mut W) -> Result<(), ToolFault>
    ensures picture { OnOk result (IsPicture ladder (W.contents writer.old) (W.contents writer.new)) }
    ensures fault { IfErr result IsOutside }
{
    let (rounds, feet) = ladder.into_rounds()?;
    write_all(&rounds, &feet, writer)?;
    Ok(())
}
