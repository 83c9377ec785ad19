//! What a picture of a call is drawn from: its events, with equal ones and equal rounds of them kept once.

ghost use Rattle.call_pictures.specs.Ladders.{entries_in, entries_of_round, entries_of_rounds, entries_of_row, entries_of_rows, feet_of};
ghost use Rattle.call_pictures.specs.Ladders.{item_after, repeated};
ghost use Rattle.call_pictures.specs.DrawnFields.{drawn_entry};
ghost use Rattle.faults.specs.Faults.{IsOutside};
ghost use Rattle.std.specs.Prelude.{◌≡◌, ◌+◌, ◌++◌, ◌∷◌, [], length, IfErr, IfOk, IfSome, IsTrue, OnOk, None, Some};

use crate::alike::same_entry;
use crate::drawn_fields::drawn;
use calls::after;
use faults::{FAILED, ToolFault};
use line_sim::{Ending, Entry, Event, Kind};
use stations::{End, Turn};
use std::alloc::{AllocError, Global};
use std::marker::Model;
use std::mem;

/// Events of a call that follow one another and are drawn as one: equal ones, or of frames whose numbers follow one another.
#[derive(Clone, Copy, Debug)]
pub(crate) struct Row {
    /// The first of them.
    pub(crate) entry: Entry,
    /// How many there are.
    pub(crate) times: u64,
}

/// Rows that come one after the other, and then again.
#[derive(Debug, Drop)]
pub(crate) struct Round {
    /// The rows.
    pub(crate) rows: Vec<Row>,
    /// How often they come.
    pub(crate) times: u64,
}

/// What a call has left, as a picture shows it.
#[derive(Clone, Copy, Debug)]
pub(crate) struct Feet {
    /// Why it ended for the caller, if it has.
    pub(crate) caller_end: Option<End>,
    /// How many pages the caller counts as confirmed.
    pub(crate) confirmed: u64,
    /// Why it ended for the answerer, if it has.
    pub(crate) answerer_end: Option<End>,
    /// How many pages the answerer has stored.
    pub(crate) pages: usize,
}

impl Feet {
    /// What a call has left.
    fn of(ending: &Ending) -> Feet
        ensures { result ≡ feet_of ending.now }
    {
        Feet {
            caller_end: ending.caller_end,
            confirmed: ending.confirmed,
            answerer_end: ending.answerer_end,
            pages: ending.pages.len(),
        }
    }
}

/// The item this many places after another in a row: the frame whose number is as much higher, or the same. None where no frame has it.
fn item_after(item: Option<Kind>, places: u64) -> Option<Option<Kind>>
    ensures { IfSome result (λ later. later ≡ item_after places item) }
{
    match item {
        Some(Kind::Fcd(first)) => {
            let number = u64::from(first).checked_add(places)?;
            let number = u8::try_from(number).ok()?;
            Some(Some(Kind::Fcd(number)))
        }
        other => Some(other),
    }
}

impl Row {
    /// The row of one event.
    fn of(entry: &Entry) -> Row
        ensures { entries_of_row result ≡ entry.now ∷ [] }
    {
        Row {
            entry: *entry,
            times: 1,
        }
    }

    /// The row with one event more, if that goes on with it.
    fn with(self, entry: &Entry) -> Option<Row>
        ensures { IfSome result (λ longer. entries_of_row longer ≡ entries_of_row self ++ entry.now ∷ []) }
    {
        let times = self.times.checked_add(1)?;
        let item = item_after(self.entry.item, self.times)?;
        let next = Entry { item, ..self.entry };
        if !same_entry(&next, entry) {
            return None;
        }
        Some(Row {
            entry: self.entry,
            times,
        })
    }
}

/// Adds an event to rows: to the last one, where it goes on with it.
fn add_row(rows: &mut Vec<Row>, entry: &Entry) -> Result<(), AllocError>
    ensures { OnOk result (entries_of_rows rows.new.items ≡ entries_of_rows rows.old.items ++ entry.now ∷ []) }
{
    let Some(last) = rows.pop() else {
        rows.push(Row::of(entry))?;
        return Ok(());
    };
    let Some(longer) = last.with(entry) else {
        rows.push(last)?;
        rows.push(Row::of(entry))?;
        return Ok(());
    };
    rows.push(longer)?;
    Ok(())
}

/// True if two rows are the same.
fn same_row(row: &Row, other: &Row) -> bool
    ensures { IsTrue result → row.now ≡ other.now }
{
    if row.times != other.times {
        return false;
    }
    same_entry(&row.entry, &other.entry)
}

/// True if rows are the same.
fn are_same(rows: &[Row], others: &[Row]) -> bool
    ensures { IsTrue result → rows.now ≡ others.now }
{
    if rows.len() != others.len() {
        return false;
    }
    for place in 0..rows.len() {
        if !same_row(&rows[place], &others[place]) {
            return false;
        }
    }
    true
}

/// How often a round comes with rows that come after it, if they are its own.
fn times_with(round: &Round, rows: &[Row]) -> Option<u64>
    ensures { IfSome result (λ times.
        repeated (entries_of_rows rows.now) times ≡ entries_of_round round.now ++ entries_of_rows rows.now) }
{
    if !are_same(&round.rows, rows) {
        return None;
    }
    let times = round.times.checked_add(1)?;
    Some(times)
}

/// Adds rows to rounds: to the last one, where that has the same rows.
fn add_round(rounds: &mut Vec<Round>, rows: Vec<Row>) -> Result<(), AllocError>
    ensures { OnOk result (entries_of_rounds rounds.new.items ≡ entries_of_rounds rounds.old.items ++ entries_of_rows rows.items) }
{
    let Some(last) = rounds.pop() else {
        rounds.push(Round { rows, times: 1 })?;
        return Ok(());
    };
    let Some(times) = times_with(&last, &rows) else {
        rounds.push(last)?;
        rounds.push(Round { rows, times: 1 })?;
        return Ok(());
    };
    rounds.push(Round { rows, times })?;
    Ok(())
}

/// True if a station begins an exchange.
fn begins_exchange(turn: Turn) -> bool {
    match turn {
        Turn::Dis | Turn::Training | Turn::Burst(_) | Turn::Pps | Turn::Rr | Turn::Dcn => true,
        Turn::Silent | Turn::Cfr | Turn::Ftt | Turn::Mcf | Turn::Ppr(_) | Turn::Rnr => false,
    }
}

/// True if an event is an answer that comes to a caller about which nothing more is known, as in a capture.
fn is_captured_answer(entry: &Entry) -> bool {
    match (entry.event, entry.turn, entry.item) {
        (Event::DeliverToCaller, Turn::Silent, Some(kind)) => !matches!(kind, Kind::Dcn),
        _ => false,
    }
}

/// True if a round ends with an event: a station has begun an exchange in it, or what comes is the answer of one.
fn ends_round(entry: &Entry) -> bool {
    begins_exchange(entry.turn) || is_captured_answer(entry)
}

/// Adds an event to the rows after rounds, and these rows to the rounds if the event ends one.
fn add_event(
    alloc: Global,
    rounds: Vec<Round>,
    rows: Vec<Row>,
    entry: &Entry,
) -> Result<(Vec<Round>, Vec<Row>), AllocError>
    ensures { IfOk result (λ added. entries_in added.0.items added.1.items ≡ entries_in rounds.items rows.items ++ entry.now ∷ []) }
{
    let mut rounds = rounds;
    let mut rows = rows;
    add_row(&mut rows, entry)?;
    if !ends_round(entry) {
        return Ok((rounds, rows));
    }
    add_round(&mut rounds, rows)?;
    Ok((rounds, Vec::new(alloc)))
}

/// What a picture of a call is drawn from: its events, with equal ones and equal rounds of them kept once. It grows with the picture, and
/// not with the call.
#[derive(Debug, Drop)]
pub struct Ladder {
    alloc: Global,
    /// The rounds that are over.
    rounds: Vec<Round>,
    /// The rows of the last one.
    going: Vec<Row>,
    /// How many events there are.
    count: u64,
    /// What the call has left, once it is over.
    feet: Option<Feet>,
}

impl Model for Ladder {
    ghost use Rattle.std.specs.Prelude.{◌≡◌, length};
    ghost use Rattle.call_pictures.specs.Ladders.{Drawn, entries_in};

    ghost Value = { Drawn };

    ghost view = { λ l. record { entries = entries_in l.rounds.items l.going.items; feet = l.feet } };

    ghost invariant = { λ l. l.count ≡ length (entries_in l.rounds.items l.going.items) };
}

impl Ladder {
    /// A ladder before the first event.
    pub fn new(alloc: Global) -> Ladder
        ensures { result ≡ record { entries = []; feet = None } }
    {
        Ladder {
            alloc,
            rounds: Vec::new(alloc),
            going: Vec::new(alloc),
            count: 0,
            feet: None,
        }
    }

    /// Adds the event of a number, as it is drawn. Errs with `FAILED` (8) if that isn't the next number or the call is over, and with
    /// `NO_MEMORY`.
    pub(crate) fn add(&mut self, number: u64, entry: &Entry) -> Result<(), ToolFault>
        ensures added { OnOk result (self.new ≡ record self.old { entries = self.old.entries ++ drawn_entry entry.now ∷ [] }) }
        ensures number { OnOk result (number ≡ length self.old.entries + 1) }
        ensures going { OnOk result (self.old.feet ≡ None) }
        ensures fault { IfErr result IsOutside }
    {
        let count = after(self.count)?;
        if number != count || self.feet.is_some() {
            return Err(FAILED);
        }
        let going = mem::replace(&mut self.going, Vec::new(self.alloc));
        let rounds = mem::replace(&mut self.rounds, Vec::new(self.alloc));
        self.count = 0;
        let (rounds, going) = add_event(self.alloc, rounds, going, &drawn(entry))?;
        self.rounds = rounds;
        self.going = going;
        self.count = count;
        Ok(())
    }

    /// Ends the ladder with what the call has left. Errs with `FAILED` (8) if it was ended before.
    pub(crate) fn end(&mut self, ending: &Ending) -> Result<(), ToolFault>
        ensures ended { OnOk result (self.new ≡ record self.old { feet = Some (feet_of ending.now) }) }
        ensures going { OnOk result (self.old.feet ≡ None) }
        ensures fault { IfErr result IsOutside }
    {
        if self.feet.is_some() {
            return Err(FAILED);
        }
        self.feet = Some(Feet::of(ending));
        Ok(())
    }

    /// The rounds, with the rows of the last one, and what the call has left. Errs with `NO_MEMORY`.
    pub(crate) fn into_rounds(self) -> Result<(Vec<Round>, Option<Feet>), ToolFault>
        ensures all { IfOk result (λ ended. entries_of_rounds ended.0.items ≡ self.entries) }
        ensures feet { IfOk result (λ ended. ended.1 ≡ self.feet) }
        ensures fault { IfErr result IsOutside }
    {
        let Ladder {
            mut rounds,
            going,
            feet,
            ..
        } = self;
        if !going.is_empty() {
            add_round(&mut rounds, going)?;
        }
        Ok((rounds, feet))
    }
}
