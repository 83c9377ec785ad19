//! Compares two events.

ghost use Rattle.std.specs.Prelude.{◌≡◌, IsTrue};

use line_sim::{Entry, Event, Fields, Kind};
use page_code::Coding;
use signals::{PageEnd, PageWidth, Params, Speed};
use stations::Turn;

fn same_event(event: Event, other: Event) -> bool
    ensures { IsTrue result → event ≡ other }
{
    match (event, other) {
        (Event::DeliverToAnswerer, Event::DeliverToAnswerer) => true,
        (Event::DeliverToCaller, Event::DeliverToCaller) => true,
        (Event::LoseToAnswerer, Event::LoseToAnswerer) => true,
        (Event::LoseToCaller, Event::LoseToCaller) => true,
        (Event::Spoil, Event::Spoil) => true,
        (Event::CallerTimeout, Event::CallerTimeout) => true,
        (Event::CallerT5, Event::CallerT5) => true,
        (Event::AnswererT1, Event::AnswererT1) => true,
        (Event::AnswererT2, Event::AnswererT2) => true,
        (Event::Busy(busy), Event::Busy(was)) => busy == was,
        _ => false,
    }
}

fn same_kind(kind: Kind, other: Kind) -> bool
    ensures { IsTrue result → kind ≡ other }
{
    match (kind, other) {
        (Kind::Dis, Kind::Dis) => true,
        (Kind::Dcs, Kind::Dcs) => true,
        (Kind::Training, Kind::Training) => true,
        (Kind::Cfr, Kind::Cfr) => true,
        (Kind::Ftt, Kind::Ftt) => true,
        (Kind::Fcd(number), Kind::Fcd(was)) => number == was,
        (Kind::Rcp, Kind::Rcp) => true,
        (Kind::Pps, Kind::Pps) => true,
        (Kind::Mcf, Kind::Mcf) => true,
        (Kind::Ppr, Kind::Ppr) => true,
        (Kind::Rnr, Kind::Rnr) => true,
        (Kind::Rr, Kind::Rr) => true,
        (Kind::Dcn, Kind::Dcn) => true,
        _ => false,
    }
}

fn same_item(item: Option<Kind>, other: Option<Kind>) -> bool
    ensures { IsTrue result → item ≡ other }
{
    match (item, other) {
        (None, None) => true,
        (Some(kind), Some(was)) => same_kind(kind, was),
        _ => false,
    }
}

fn same_speed(speed: Speed, other: Speed) -> bool
    ensures { IsTrue result → speed ≡ other }
{
    match (speed, other) {
        (Speed::V27At2400, Speed::V27At2400) => true,
        (Speed::V27At4800, Speed::V27At4800) => true,
        (Speed::V29At7200, Speed::V29At7200) => true,
        (Speed::V29At9600, Speed::V29At9600) => true,
        (Speed::V17At7200, Speed::V17At7200) => true,
        (Speed::V17At9600, Speed::V17At9600) => true,
        (Speed::V17At12000, Speed::V17At12000) => true,
        (Speed::V17At14400, Speed::V17At14400) => true,
        _ => false,
    }
}

fn same_width(width: PageWidth, other: PageWidth) -> bool
    ensures { IsTrue result → width ≡ other }
{
    match (width, other) {
        (PageWidth::W1728, PageWidth::W1728) => true,
        (PageWidth::W2048, PageWidth::W2048) => true,
        (PageWidth::W2432, PageWidth::W2432) => true,
        _ => false,
    }
}

fn same_coding(coding: Coding, other: Coding) -> bool
    ensures { IsTrue result → coding ≡ other }
{
    match (coding, other) {
        (Coding::OneDim, Coding::OneDim) => true,
        (Coding::T6, Coding::T6) => true,
        _ => false,
    }
}

fn same_params(params: Params, other: Params) -> bool
    ensures { IsTrue result → params ≡ other }
{
    if !same_speed(params.speed, other.speed) {
        return false;
    }
    if !same_width(params.width, other.width) {
        return false;
    }
    if !same_coding(params.coding, other.coding) {
        return false;
    }
    params.fine == other.fine && params.small == other.small
}

fn same_end(ends: PageEnd, other: PageEnd) -> bool
    ensures { IsTrue result → ends ≡ other }
{
    match (ends, other) {
        (PageEnd::Null, PageEnd::Null) => true,
        (PageEnd::Mps, PageEnd::Mps) => true,
        (PageEnd::Eom, PageEnd::Eom) => true,
        (PageEnd::Eop, PageEnd::Eop) => true,
        _ => false,
    }
}

/// True if fields are drawn alike; false for fields other than those of a DCS and a PPS.
fn same_fields(fields: Fields, other: Fields) -> bool
    ensures { IsTrue result → fields ≡ other }
{
    match (fields, other) {
        (Fields::Nothing, Fields::Nothing) => true,
        (Fields::Dcs(params), Fields::Dcs(others)) => same_params(params, others),
        (
            Fields::Pps {
                ends,
                page: 0,
                block: 0,
                last: 0,
            },
            Fields::Pps {
                ends: other_ends,
                page: 0,
                block: 0,
                last: 0,
            },
        ) => same_end(ends, other_ends),
        _ => false,
    }
}

fn same_map(map: [u8; 32], other: [u8; 32]) -> bool
    ensures { IsTrue result → map ≡ other }
{
    map == other
}

fn same_turn(turn: Turn, other: Turn) -> bool
    ensures { IsTrue result → turn ≡ other }
{
    match (turn, other) {
        (Turn::Silent, Turn::Silent) => true,
        (Turn::Dis, Turn::Dis) => true,
        (Turn::Training, Turn::Training) => true,
        (Turn::Cfr, Turn::Cfr) => true,
        (Turn::Ftt, Turn::Ftt) => true,
        (Turn::Burst(map), Turn::Burst(was)) => same_map(map, was),
        (Turn::Pps, Turn::Pps) => true,
        (Turn::Mcf, Turn::Mcf) => true,
        (Turn::Ppr(map), Turn::Ppr(was)) => same_map(map, was),
        (Turn::Rnr, Turn::Rnr) => true,
        (Turn::Rr, Turn::Rr) => true,
        (Turn::Dcn, Turn::Dcn) => true,
        _ => false,
    }
}

/// True if two events are the same, with all that is shown of them.
pub(crate) fn same_entry(entry: &Entry, other: &Entry) -> bool
    ensures { IsTrue result → entry.now ≡ other.now }
{
    if !same_event(entry.event, other.event) {
        return false;
    }
    if !same_item(entry.item, other.item) {
        return false;
    }
    if !same_fields(entry.fields, other.fields) {
        return false;
    }
    if !same_turn(entry.turn, other.turn) {
        return false;
    }
    entry.fcds == other.fcds && entry.refused == other.refused
}
