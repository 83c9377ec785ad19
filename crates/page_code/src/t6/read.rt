//! Reading of a page in the two-dimensional code (ITU-T T.6, 2.2).

ghost use Rattle.page_code.specs.RowsSoFar.{AreRowsSoFar, IsFurther, IsReadTo, ReadsOn};
ghost use Rattle.page_code.specs.TwoDimensions.Fronts.{mode_word, mode_codes};
ghost use Rattle.page_code.specs.TwoDimensions.Changes.{AreHeld};
ghost use Rattle.page_code.specs.TwoDimensions.Lines.{FitsLists, StepsBy, line_of};
ghost use Rattle.page_code.specs.TwoDimensions.Modes.{eofb};
ghost use Rattle.page_code.specs.TwoDimensions.Positions.{line_begin, white_line};
ghost use Rattle.page_code.specs.TwoDimensions.Reading.{FindsMode, ReadsHorizontal, ReadsRow, SeesStart, StepsAlong, StepsOn, StepsQuickly};
ghost use Rattle.page_code.specs.TwoDimensions.Reading.{missing_mode};
ghost use Rattle.page_code.specs.TwoDimensions.Writing.{reference_at};
ghost use Rattle.raster.specs.Packed.{bits_of};
ghost use Rattle.raster.specs.Pixels.{IsWidth};
ghost use Rattle.raster.specs.declared.row.Color.{Color};
ghost use Rattle.run_tables.specs.Reading.{Reading, rest_of};
ghost use Rattle.run_tables.specs.Texts.{all_zero, begins, is_cut};
ghost use Rattle.std.specs.Bool.{OnFalse, OnTrue};
ghost use Rattle.std.specs.Prelude.{◌≡◌, ◌≤◌, ◌<◌, ◌+◌, [], List, Err, IfErr, IfNone, IfOk, IfSome, Ok, OnErr, OnOk, false, length, true};

pub(crate) mod one_row;

use crate::page::{Progress, push_white};
use crate::t6::front::{Front, beside_b1, to_a1, under_b1, under_b2};
use crate::t6::lines::Lines;
use crate::t6::mode::{EOFB, EOFB_NUMBER, ModeCode, Shift};
use crate::t6::mode_table::mode_of;
use crate::turned::{code_of, turned_code};
use raster::packed::Order;
use raster::{Coding, MAX_ROWS, Page, Row};
use run_tables::{BitReader, CodeFault, CodeFaultKind};
use std::alloc::{AllocError, Global};

/// The mode codes.
const MODE_CODES: [ModeCode; 9] = [
    ModeCode::Pass,
    ModeCode::Horizontal,
    ModeCode::Vertical(Shift::V0),
    ModeCode::Vertical(Shift::VR1),
    ModeCode::Vertical(Shift::VR2),
    ModeCode::Vertical(Shift::VR3),
    ModeCode::Vertical(Shift::VL1),
    ModeCode::Vertical(Shift::VL2),
    ModeCode::Vertical(Shift::VL3),
];

/// What is found at a place where a row may begin.
enum Start {
    /// A row.
    Row,
    /// EOFB after a row.
    End,
    /// Nothing valid.
    Refused(CodeFaultKind),
}

/// Whether EOFB begins the bits that are left (ITU-T T.6, 2.4).
fn is_at_eofb(reader: &BitReader) -> bool
    ensures { result ≡ begins eofb (rest_of reader.now) }
{
    reader.starts_with(EOFB_NUMBER, 24)
}

/// Whether the bits that are left are only 0 bits, or there are no bits.
fn only_zeros(reader: &BitReader) -> bool
    ensures { result ≡ all_zero (rest_of reader.now) }
{
    let mut ahead = reader.look_ahead();
    while ahead.has_57() {
        let next = ahead.peek_57() >> 7;
        if next != 0 {
            return false;
        }
        ahead.skip(57);
    }
    let last = ahead.peek_57() >> 7;
    if last != 0 {
        return false;
    }
    true
}

/// Whether 57 bits or more are left, and the first eleven of them aren't all 0: then a row begins here, and
/// neither EOFB nor a part of it.
#[inline(always)]
fn begins_row(reader: &BitReader) -> bool
    ensures eofb { OnTrue result (begins eofb (rest_of reader.now) ≡ false) }
    ensures zeros { OnTrue result (all_zero (rest_of reader.now) ≡ false) }
    ensures cut { OnTrue result (begins (rest_of reader.now) eofb ≡ false) }
{
    let enough = reader.has_57();
    if !enough {
        return false;
    }
    let first = reader.peek_57() >> 53;
    if first == 0 {
        return false;
    }
    true
}

/// Whether the next 57 bits after the rows read so far are all 0: then no row begins there and no EOFB, whatever
/// comes after them. So zeros that come in pieces aren't looked through again at each.
pub(crate) fn is_stuck(octets: &[u8], order: Order, to: &Progress) -> bool
    requires { IsReadTo Coding.T6 to.now.page.width (bits_of order octets.now) to.now.page.rows to.now.place }
    ensures { OnTrue result (AreRowsSoFar Coding.T6 to.now.page.width (bits_of order octets.now) (length to.now.page.rows)) }
{
    let _rows = to.page.rows(); // shows the proof that there are 20,000 at most
    let reader = BitReader::at(octets, order, to.place);
    let enough = reader.has_57();
    if !enough {
        return false;
    }
    let next = reader.peek_57() >> 7;
    if next != 0 {
        return false;
    }
    true
}

/// What is found at a place where a row may begin, after `rows` rows, looked for in all ways; `zeros` says whether only 0 bits are left.
#[cold]
#[inline(never)]
fn start_by(reader: &BitReader, rows: usize, zeros: bool) -> Start
    requires { zeros ≡ all_zero (rest_of reader.now) }
    ensures { SeesStart (rest_of reader.now) rows result }
{
    // in this order: EOFB, only 0 bits or nothing, the beginning of EOFB, a row. So no octets at all are `MissingEofb`, and 20,000 rows
    // are read before a 20,001st is refused
    if is_at_eofb(reader) {
        if rows == 0 {
            return Start::Refused(CodeFaultKind::NoRows);
        }
        return Start::End;
    }
    if zeros {
        return Start::Refused(CodeFaultKind::MissingEofb);
    }
    if reader.is_cut_of(EOFB) {
        return Start::Refused(CodeFaultKind::Truncated);
    }
    if rows >= MAX_ROWS {
        return Start::Refused(CodeFaultKind::TooManyCodedRows);
    }
    Start::Row
}

/// What is found at a place where a row may begin, after `rows` rows.
#[inline(always)]
fn start_at(reader: &BitReader, rows: usize) -> Start
    ensures { SeesStart (rest_of reader.now) rows result }
{
    let row = begins_row(reader);
    if row && rows < MAX_ROWS {
        return Start::Row;
    }
    let ahead = reader.look_ahead();
    let zeros = only_zeros(&ahead);
    start_by(&ahead, rows, zeros)
}

/// Whether the bits that are left are the beginning of a mode code.
fn is_cut_mode(reader: &BitReader) -> bool
    ensures { result ≡ is_cut mode_word mode_codes (rest_of reader.now) }
{
    for at in 0..9 {
        if reader.is_cut_of(MODE_CODES[at].digits()) {
            return true;
        }
    }
    false
}

/// The refusal if no mode code begins the bits that are left.
#[cold]
fn no_mode(reader: &BitReader) -> CodeFault
    ensures { result ≡ record { place = reader.now.place; kind = missing_mode (rest_of reader.now) } }
{
    // six 0 bits inside a row are `BadCode`: the extension is no code of a page; 000001 is the beginning of a mode code
    let kind = if reader.starts_with(1, 7) {
        CodeFaultKind::Extension
    } else if is_cut_mode(reader) {
        CodeFaultKind::Truncated
    } else {
        CodeFaultKind::BadCode
    };
    CodeFault::new(reader.place(), kind)
}

/// Reads the next mode code (ITU-T T.6, 2.2.2); none if no mode code begins the bits that are left.
fn next_mode(reader: &mut BitReader) -> Option<ModeCode>
    ensures { FindsMode reader.old reader.new result }
{
    let _start = reader.place(); // shows the proof that it is within the bits
    let (mode, count) = mode_of((reader.peek_57() >> 57) as u32);
    let length = count as usize % 8;
    let Some(code) = mode else {
        return None;
    };
    let Some(_last) = reader.ahead(length - 1) else {
        return None;
    };
    reader.skip(length);
    Some(code)
}

/// One vertical or pass mode that begins the first seven bits of a word. Returns the front after it and how
/// many bits it has; none if there is no such mode or it is refused.
#[inline(always)]
fn quick_step(
    word: u64,
    held: &[u32],
    list: &mut Vec<u32>,
    width: u32,
    front: Front,
) -> Option<(Front, u32)>
    requires fits { FitsLists held.now list.old.items width front }
    requires short { front.from ≤ width }
    ensures fits { IfSome result (λ step. FitsLists held.now list.new.items width step.0) }
    ensures steps { IfSome result (λ step. StepsBy held.now word (line_of list.old.items front) (line_of list.new.items step.0) step.1) }
    ensures none { IfNone result (list.new.items ≡ list.old.items) }
{
    if word >> 63 == 1 {
        return Some((under_b1(held, list, width, front), 1));
    }
    if word >> 62 == 0b01 {
        let next = beside_b1(held, list, width, front, word)?;
        return Some((next, 3));
    }
    if word >> 61 == 0b001 {
        return None;
    }
    let (mode, count) = mode_of((word >> 57) as u32);
    match mode? {
        ModeCode::Pass => Some((under_b2(held, list, width, front), count as u32)),
        ModeCode::Horizontal => None,
        ModeCode::Vertical(shift) => match to_a1(held, list, width, front, shift) {
            Ok(next) => Some((next, count as u32)),
            Err(_) => None,
        },
    }
}

/// The vertical and pass modes of a row that the next 57 bits hold whole, up to another mode. Returns the
/// front after them, and how many bits they have.
#[inline(always)]
pub(crate) fn quick_modes(
    reader: &mut BitReader,
    held: &[u32],
    list: &mut Vec<u32>,
    width: u32,
    start: Front,
) -> (Front, u32)
    requires fits { FitsLists held.now list.old.items width start }
    requires enough { 57 ≤ length (rest_of reader.old) }
    ensures fits { FitsLists held.now list.new.items width result.0 }
    ensures along { (reference : List Color) → AreHeld reference held.now
        → StepsAlong reference reader.old reader.new (line_of list.old.items start) (line_of list.new.items result.0) }
    ensures used { reader.new ≡ record reader.old { place = reader.old.place + result.1 } }
    ensures none { result.1 ≡ 0 → (result.0 ≡ start) × (list.new.items ≡ list.old.items) }
{
    let mut front = start;
    let mut word = reader.peek_57();
    let mut used: u32 = 0;
    while used <= 50 && front.from <= width {
        let Some((next, count)) = quick_step(word, held, list, width, front) else {
            break;
        };
        front = next;
        word = word << count;
        used += count;
    }
    reader.step(used);
    (front, used)
}

/// The two runs of horizontal mode: a0 goes to a2.
fn horizontal(reader: &mut BitReader, lines: &mut Lines) -> Result<(), CodeFault>
    requires { length lines.old.line.pixels < length lines.old.reference }
    ensures runs { ReadsHorizontal (length lines.old.reference) reader.old reader.new lines.old.line lines.new.line result }
    ensures same { lines.new.reference ≡ lines.old.reference }
    ensures stays { OnErr result (lines.new.line ≡ lines.old.line) }
{
    let a0 = lines.a0();
    let other = a0.color.other();
    let room = lines.width() - a0.place;
    let first = reader.read_run_within(a0.color, room, CodeFaultKind::PastEnd)?;
    let after = reader.place();
    let second = reader.read_run_within(other, room - first, CodeFaultKind::PastEnd)?;
    if first + second == 0 {
        return Err(CodeFault::new(after, CodeFaultKind::EmptyHorizontal));
    }
    lines.push_runs(first, second);
    Ok(())
}

/// Horizontal mode, whose flag begins the bits, if its two runs can be read quickly and aren't refused.
/// Returns whether it was read; else nothing changed.
#[inline(always)]
fn quick_horizontal(reader: &mut BitReader, lines: &mut Lines) -> bool
    requires short { length lines.old.line.pixels < length lines.old.reference }
    requires begun { begins (mode_word ModeCode.Horizontal) (rest_of reader.old) ≡ true }
    requires enough { 57 ≤ length (rest_of reader.old) }
    ensures steps { StepsQuickly lines.old.reference reader.old reader.new lines.old.line lines.new.line result }
    ensures same { lines.new.reference ≡ lines.old.reference }
{
    let mut ahead = reader.look_ahead();
    let a0 = lines.a0();
    let room = lines.width() - a0.place;
    let Some((a0a1, a1a2)) = ahead.quick_two_runs_after(3, a0.color, room) else {
        return false;
    };
    if a0a1 + a1a2 == 0 {
        return false;
    }
    lines.push_runs(a0a1, a1a2);
    *reader = ahead;
    true
}

/// Some modes of a row, if they can be read quickly. Returns whether there are any; else nothing changed.
#[inline(always)]
fn quick_part(reader: &mut BitReader, lines: &mut Lines) -> bool
    requires { length lines.old.line.pixels < length lines.old.reference }
    ensures along { StepsAlong lines.old.reference reader.old reader.new lines.old.line lines.new.line }
    ensures same { lines.new.reference ≡ lines.old.reference }
    ensures more { OnTrue result (reader.old.place < reader.new.place) }
    ensures none { OnFalse result ((reader.new ≡ reader.old) × (lines.new.line ≡ lines.old.line)) }
{
    let _start = reader.place(); // shows the proof that it is within the bits
    let enough = reader.has_57();
    if !enough {
        return false;
    }
    if reader.peek_57() >> 61 == 0b001 {
        return quick_horizontal(reader, lines);
    }
    let used = lines.quick_modes(reader);
    used > 0
}

/// Reads one mode of a row (ITU-T T.6, 2.2.2). After an error the reader is somewhere in the mode.
fn take_mode(reader: &mut BitReader, lines: &mut Lines) -> Result<(), CodeFault>
    requires { length lines.old.line.pixels < length lines.old.reference }
    ensures steps { StepsOn lines.old.reference reader.old reader.new lines.old.line lines.new.line
        result }
    ensures same { lines.new.reference ≡ lines.old.reference }
    ensures stays { OnErr result (lines.new.line ≡ lines.old.line) }
{
    let place = reader.place();
    let Some(code) = next_mode(reader) else {
        return Err(no_mode(reader));
    };
    match code {
        ModeCode::Pass => {
            lines.pass();
            Ok(())
        }
        ModeCode::Horizontal => horizontal(reader, lines),
        ModeCode::Vertical(shift) => match lines.vertical(shift) {
            Ok(()) => Ok(()),
            Err(kind) => Err(CodeFault::new(place, kind)),
        },
    }
}

/// As `take_mode`, but an error changes nothing.
#[cold]
fn read_mode(reader: &mut BitReader, lines: &mut Lines) -> Result<(), CodeFault>
    requires { length lines.old.line.pixels < length lines.old.reference }
    ensures steps { StepsOn lines.old.reference reader.old reader.new lines.old.line lines.new.line result }
    ensures same { lines.new.reference ≡ lines.old.reference }
    ensures stays { OnErr result ((reader.new ≡ reader.old) × (lines.new.line ≡ lines.old.line)) }
{
    let mut ahead = reader.look_ahead();
    take_mode(&mut ahead, lines)?;
    *reader = ahead;
    Ok(())
}

/// Reads on in a row, mode by mode (ITU-T T.6, 2.2), until the coding line is whole. After an error the modes before
/// the one that is refused were read.
#[inline(always)]
fn read_modes(reader: &mut BitReader, lines: &mut Lines) -> Result<(), CodeFault>
    ensures along { StepsAlong lines.old.reference reader.old reader.new lines.old.line
        lines.new.line }
    ensures refuses { IfErr result (λ fault. StepsOn lines.old.reference reader.new reader.new
        lines.new.line lines.new.line (Err fault)) }
    ensures short { OnErr result (length lines.new.line.pixels < length lines.new.reference) }
    ensures whole { OnOk result (length lines.new.line.pixels ≡ length lines.new.reference) }
    ensures same { lines.new.reference ≡ lines.old.reference }
{
    let _start = reader.place(); // shows the proof that it is within the bits
    let _width = lines.width(); // shows the proof that there are pixels to read
    while lines.is_short() {
        let done = quick_part(reader, lines);
        if !done {
            read_mode(reader, lines)?;
        }
    }
    Ok(())
}

/// The modes of one row after its reference row (ITU-T T.6, 2.2), until the coding line is whole.
#[inline(always)]
fn read_line(reader: &mut BitReader, lines: &mut Lines) -> Result<(), CodeFault>
    ensures reads { OnOk result (ReadsRow lines.old.reference reader.old reader.new (Ok lines.new.line.pixels)) }
    ensures refuses { IfErr result (λ fault. ReadsRow lines.old.reference reader.old reader.new (Err fault)) }
    ensures whole { OnOk result (length lines.new.line.pixels ≡ length lines.new.reference) }
    ensures same { lines.new.reference ≡ lines.old.reference }
{
    let _width = lines.width(); // shows the proof that there are pixels to read
    lines.begin();
    read_modes(reader, lines)?;
    Ok(())
}

/// Reads on in a row after its reference row, to its end; it is the next one's reference row. After an error the
/// modes before the one that is refused were read.
fn read_row(alloc: Global, reader: &mut BitReader, lines: &mut Lines) -> Result<Row, CodeFault>
    ensures reads { (start : Reading)
        → StepsAlong lines.old.reference start reader.old line_begin lines.old.line
        → ReadsRow lines.old.reference start reader.new result }
    ensures along { OnErr result (StepsAlong lines.old.reference reader.old reader.new
        lines.old.line lines.new.line) }
    ensures next { IfOk result (λ row. lines.new.reference ≡ row) }
    ensures same { OnErr result (lines.new.reference ≡ lines.old.reference) }
{
    let _width = lines.width(); // shows the proof that there are pixels to read
    read_modes(reader, lines)?;
    Ok(lines.row(alloc)?)
}

/// The lines of the row after these, or after a white row.
fn lines_after(alloc: Global, page: &Page) -> Result<Lines, AllocError>
    requires { IsWidth page.now.width }
    ensures { IfOk result (λ lines. lines.reference ≡ reference_at (white_line page.now.width) page.now.rows (length page.now.rows)) }
{
    let rows = page.rows();
    if rows.is_empty() {
        let white = Row::from_valid_runs(alloc, &[page.width()])?;
        return Lines::after(alloc, &white.lent());
    }
    Lines::after(alloc, &rows.row(rows.len() - 1))
}

/// Reads on past rows that V0 alone writes, a 1 bit each: white rows after a white one, as many as the next 57
/// bits begin with.
#[inline(always)]
fn white_rows(lines: &Lines, reader: &mut BitReader, to: &mut Progress) -> Result<(), AllocError>
    requires width { IsWidth to.old.page.width }
    requires place { reader.old.place ≡ to.old.place }
    requires reference { lines.now.reference ≡ reference_at (white_line to.old.page.width) to.old.page.rows (length to.old.page.rows) }
    requires read { IsReadTo Coding.T6 to.old.page.width reader.old.bits to.old.page.rows to.old.place }
    ensures further { OnOk result (IsFurther Coding.T6 reader.old.bits to.old to.new) }
    ensures reader { OnOk result (reader.new ≡ record reader.old { place = to.new.place }) }
    ensures reference { OnOk result (lines.now.reference ≡ reference_at (white_line to.new.page.width) to.new.page.rows (length to.new.page.rows)) }
    ensures more { OnOk result (length to.old.page.rows ≤ length to.new.page.rows) }
{
    let white = lines.follow_white();
    let enough = reader.has_57();
    if !white || !enough {
        return Ok(());
    }
    let room = MAX_ROWS - to.page.rows().len();
    let mut word = reader.peek_57();
    let mut used: usize = 0;
    while word >> 63 == 1 && used < 57 && used < room {
        push_white(&mut to.page)?;
        word = word << 1;
        used += 1;
    }
    reader.skip(used);
    to.place = reader.place();
    Ok(())
}

/// Reads on in the order of the octets, as `read_on`.
fn read_in_order(
    alloc: Global,
    octets: &[u8],
    order: Order,
    to: &mut Progress,
) -> Result<u128, CodeFault>
    requires width { IsWidth to.old.page.width }
    requires read { IsReadTo Coding.T6 to.old.page.width (bits_of order octets.now) to.old.page.rows to.old.place }
    ensures { ReadsOn Coding.T6 (bits_of order octets.now) to.old to.new result }
{
    let mut lines = lines_after(alloc, &to.page)?;
    let mut reader = BitReader::at(octets, order, to.place);
    loop {
        white_rows(&lines, &mut reader, to)?;
        match start_at(&reader, to.page.rows().len()) {
            Start::Row => {}
            Start::End => return Ok(to.place + EOFB.len() as u128),
            Start::Refused(kind) => return Err(CodeFault::new(to.place, kind)),
        }
        read_line(&mut reader, &mut lines)?;
        lines.push_to(&mut to.page)?;
        to.place = reader.place();
    }
}

/// Reads on from the rows read so far to the page's end, and returns how many bits the page uses. After an
/// error the rows before it were read. If the least significant bit comes first, the octets are turned once,
/// so that no word of them is.
pub(crate) fn read_on(
    alloc: Global,
    octets: &[u8],
    order: Order,
    to: &mut Progress,
) -> Result<u128, CodeFault>
    requires width { IsWidth to.old.page.width }
    requires read { IsReadTo Coding.T6 to.old.page.width (bits_of order octets.now) to.old.page.rows to.old.place }
    ensures { ReadsOn Coding.T6 (bits_of order octets.now) to.old to.new result }
{
    let turned = turned_code(alloc, octets, order, Vec::new(alloc))?;
    let (code, first) = code_of(octets, order, &turned);
    read_in_order(alloc, code, first, to)
}
