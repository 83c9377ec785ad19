//! Calls at size: a page of 257 blocks, and 257 pages of a block each. The page takes a second, and minutes with the checks of `rt try`, so
//! that has to be called with `--seconds 600`.

ghost use Rattle.std.specs.Prelude.{◌≤◌};

use line_sim::{Event, Report, World, WorldFault, run};
use page_code::Coding;
use raster::{Document, Page, RasterFault, Row};
use signals::{Caps, Modems, PageWidth, Signal, Wish};
use stations::{Answerer, AnswererIn, Caller, CallerIn, End, Item, Turn};
use std::alloc::{AllocError, Global};
use std::test::Fail;

const WISH: Wish = Wish {
    modems: Modems::V17,
    coding: Coding::OneDim,
    small: true,
};

const CAPS: Caps = Caps {
    receiver: true,
    modems: Modems::V17,
    fine: true,
    widest: PageWidth::W2432,
    t6: true,
    ecm: true,
};

/// A page of 3,063 rows of 1,216 white and as many black pixels in turn. In one dimension each has an EOL and 1,216 times 000111 010; with
/// six EOLs these are 33,558,300 bits, 4,194,788 octets: 256 blocks of 256 frames of 64 octets, and one of 8.
fn combs(alloc: Global) -> Result<Document, RasterFault> {
    let mut page = Page::new(alloc, 2432, false)?;
    for _ in 0..3_063u32 {
        page.push_row(Row::from_runs(alloc, &[1; 2432])?)?;
    }
    Document::new(alloc, page)
}

/// A page of a white row.
fn white_page(alloc: Global) -> Result<Page, RasterFault> {
    let mut page = Page::new(alloc, 1728, false)?;
    page.push_row(Row::from_runs(alloc, &[1728])?)?;
    Ok(page)
}

/// 257 pages of a white row, each of a block of one frame.
fn white_pages(alloc: Global) -> Result<Document, RasterFault> {
    let mut document = Document::new(alloc, white_page(alloc)?)?;
    for _ in 1..257u32 {
        document.push(white_page(alloc)?)?;
    }
    Ok(document)
}

/// Appends an event a number of times.
fn add(events: &mut Vec<Event>, event: Event, times: u32) -> Result<(), AllocError> {
    for _ in 0..times {
        events.push(event)?;
    }
    Ok(())
}

/// The deliveries of an undisturbed call of 257 blocks, all of them of so many frames but the last: DIS; DCS and the training check; CFR;
/// for each block its frames, three RCP and PPS, and then MCF; DCN.
fn deliveries(alloc: Global, frames: u32, of_the_last: u32) -> Result<Vec<Event>, AllocError>
    requires frames { frames ≤ 256 }
    requires last { of_the_last ≤ 256 }
{
    let mut events = Vec::new(alloc);
    add(&mut events, Event::DeliverToCaller, 1)?;
    add(&mut events, Event::DeliverToAnswerer, 2)?;
    add(&mut events, Event::DeliverToCaller, 1)?;
    for block in 0..257u32 {
        let frames = if block == 256 { of_the_last } else { frames };
        add(&mut events, Event::DeliverToAnswerer, frames + 4)?;
        add(&mut events, Event::DeliverToCaller, 1)?;
    }
    add(&mut events, Event::DeliverToAnswerer, 1)?;
    Ok(events)
}

/// How many pages and rows were stored, and pages confirmed; how many events there were; and whether both ended normally, with no refusal.
type Told = (usize, usize, u64, usize, bool);

/// The rows of all pages.
fn rows_of(pages: &[Page]) -> usize {
    let mut rows = 0usize;
    for page in pages {
        rows = rows.saturating_add(page.rows().len());
    }
    rows
}

fn told(report: &Report) -> Told {
    let normal = Some(End::Normal);
    (
        report.pages.len(),
        rows_of(&report.pages),
        report.confirmed,
        report.transcript.len(),
        (report.caller_end, report.answerer_end) == (normal, normal)
            && (report.refused, report.left_out) == (0, 0),
    )
}

/// 5 deliveries, the 65,544 frames of combs and 5 for each of 257 blocks.
const OF_COMBS: Told = (1, 3_063, 1, 66_834, true);

/// 5 deliveries, and 6 for each of 257 blocks.
const OF_WHITE_PAGES: Told = (257, 257, 257, 1_547, true);

/// What a polite call tells, and how many deliveries it made.
fn polite_call(alloc: Global, document: Document) -> Result<(Told, u64), WorldFault> {
    let mut world = World::new(alloc, document, WISH, CAPS)?;
    let made = world.polite(100_000)?;
    Ok((told(&world.report()), made))
}

#[test]
fn polite_calls_of_257_blocks(rt: HostRuntime) -> Result<(), Fail> {
    let alloc = rt.alloc();
    assert_eq!(rt; polite_call(alloc, combs(alloc)?)?, (OF_COMBS, 66_834));
    assert_eq!(rt;
        polite_call(alloc, white_pages(alloc)?)?,
        (OF_WHITE_PAGES, 1_547)
    );
    Ok(())
}

/// What a run over the deliveries tells.
fn run_over(alloc: Global, document: Document, events: &[Event]) -> Result<Told, WorldFault> {
    Ok(told(&run(alloc, document, WISH, CAPS, events)?))
}

#[test]
fn runs_over_257_blocks(rt: HostRuntime) -> Result<(), Fail> {
    let alloc = rt.alloc();
    let events = deliveries(alloc, 256, 8)?;
    assert_eq!(rt; run_over(alloc, combs(alloc)?, &events)?, OF_COMBS);
    let events = deliveries(alloc, 1, 1)?;
    assert_eq!(rt;
        run_over(alloc, white_pages(alloc)?, &events)?,
        OF_WHITE_PAGES
    );
    Ok(())
}

/// What a world tells after these events.
fn after_events(alloc: Global, document: Document, events: &[Event]) -> Result<Told, WorldFault> {
    let mut world = World::new(alloc, document, WISH, CAPS)?;
    for event in events {
        world.event(*event)?;
    }
    Ok(told(&world.report()))
}

#[test]
fn events_of_257_blocks(rt: HostRuntime) -> Result<(), Fail> {
    let alloc = rt.alloc();
    let events = deliveries(alloc, 1, 1)?;
    let told = after_events(alloc, white_pages(alloc)?, &events)?;
    assert_eq!(rt; told, OF_WHITE_PAGES);
    Ok(())
}

/// The caller's answer to the answerer's turn.
fn caller_hears(caller: &mut Caller, answerer: &Answerer, turn: Turn) -> Result<Turn, AllocError> {
    match answerer.frames(&turn).take_next() {
        Some(Item::Frame { signal, .. }) => caller.step(CallerIn::Heard(signal)),
        _ => Ok(Turn::Silent),
    }
}

/// A training check of the greatest speed.
const TRAINING: [u8; 2700] = [0; 2700];

/// The answerer's last answer to the caller's turn, of at most 260 items.
fn answerer_hears(
    caller: &Caller,
    answerer: &mut Answerer,
    turn: Turn,
) -> Result<Turn, AllocError> {
    let mut answer = Turn::Silent;
    let mut items = caller.frames(&turn);
    for _ in 0..260u32 {
        answer = match items.take_next() {
            Some(Item::Frame { signal, .. }) => answerer.step(AnswererIn::Heard(signal))?,
            Some(Item::Training(_)) => answerer.step(AnswererIn::Training(&TRAINING))?,
            None => return Ok(answer),
        };
    }
    Ok(answer)
}

/// How many turns of the caller there are in a call of both stations without a line, 1,000 at most, up to its end.
fn turns_of(caller: &mut Caller, answerer: &mut Answerer, first: Turn) -> Result<u32, AllocError> {
    let mut turn = first;
    for number in 0..1_000u32 {
        if answerer.end().is_some() {
            return Ok(number);
        }
        let answer = caller_hears(caller, answerer, turn)?;
        turn = answerer_hears(caller, answerer, answer)?;
    }
    Ok(1_000)
}

// The turns of the caller: DCS with the training check, a burst for each block, and DCN.
#[test]
fn stations_alone_have_257_blocks(rt: HostRuntime) -> Result<(), Fail> {
    let alloc = rt.alloc();
    for (document, rows) in [(combs(alloc)?, 3_063), (white_pages(alloc)?, 257)] {
        let mut caller = Caller::new(alloc, document, WISH)?;
        let (mut answerer, first) = Answerer::new(alloc, CAPS);
        assert_eq!(rt; turns_of(&mut caller, &mut answerer, first)?, 259);
        assert_eq!(rt; rows_of(answerer.pages()), rows);
        assert_eq!(rt;
            (caller.end(), answerer.end()),
            (Some(End::Normal), Some(End::Normal))
        );
    }
    Ok(())
}
