//! Each of these programs, run once.

ghost use Rattle.std.specs.Prelude.{};

use crate::calling::{answer, call_picture, call_table, call_text, hears, send};
use crate::frames::{asks_again, confirmation, confirmed_too_early, list_frames, lose_a_frame};
use crate::pages::{code_image, code_rows, copy_images, decode_rows, read_in_two, recode};
use calls::CallOptions;
use hdlc::write_frame;
use page_code::Coding;
use raster::{Document, Page, Row, Rows, read_pbm};
use referee::{Rule, Said, judge};
use run_tables::{BitWriter, Order};
use signals::{Modems, Side, Signal, Wish, read};
use stations::{Caller, End};
use std::alloc::Global;
use std::test::Fail;

/// The frame of an MCF of the answerer.
const MCF: [u8; 8] = [0x7E, 0xDF, 0x47, 0x30, 0x8A, 0xC6, 0xFB, 0x01];

/// A PBM image of one white row of 1,728 pixels: 10 octets of header and 216 octets 00.
fn white_image() -> [u8; 226] {
    let mut image = [0; 226];
    image[..10].copy_from_slice(b"P4\n1728 1\n");
    image
}

/// A page of two white rows of 1,728 pixels.
fn white_page(alloc: Global) -> Result<Page, Fail> {
    let mut page = Page::new(alloc, 1728, false)?;
    for _row in 0..2 {
        page.push_row(Row::from_runs(alloc, &[1728])?)?;
    }
    Ok(page)
}

/// Whether the rows of two pages have the same pixels.
fn are_same(ones: Rows<'_>, others: Rows<'_>) -> bool {
    ones.len() == others.len()
        && ones
            .zip(others)
            .all(|(one, other)| one.octets() == other.octets())
}

#[test]
fn images_are_copied(rt: HostRuntime) -> Result<(), Fail> {
    let image = white_image();
    let mut from = image.as_slice();
    let mut to = Vec::new(rt.alloc());
    copy_images(rt.alloc(), &mut from, &mut to)?;
    assert_eq!(rt; to.as_slice(), image.as_slice());
    Ok(())
}

// A white row is 1728 white (01 0011 011) and 0 white (0011 0101).
#[test]
fn rows_are_read_again(rt: HostRuntime) -> Result<(), Fail> {
    let alloc = rt.alloc();
    let page = white_page(alloc)?;
    let coded = code_rows(alloc, &page)?;
    let rows = decode_rows(alloc, &coded, 1728, 10)?;
    assert_eq!(rt; coded.as_slice(), b"\x4D\x9A\xA6\xCD\x40".as_slice());
    assert_eq!(rt; rows.len(), page.rows().len());
    for (row, like) in rows.iter().zip(page.rows()) {
        assert_eq!(rt; row.octets(), like.octets());
    }
    Ok(())
}

// A white row, 1728 white (01 0011 011) and 0 white (0011 0101), between EOLs; in T.6 it is a bit 1, and EOFB is
// 0000 0000 0001 twice.
#[test]
fn pages_are_coded_anew(rt: HostRuntime) -> Result<(), Fail> {
    let alloc = rt.alloc();
    let coded = [
        0x00, 0x14, 0xD9, 0xA8, 0x00, 0x80, 0x08, 0x00, 0x80, 0x08, 0x00, 0x80, 0x08,
    ];
    let anew = b"\x80\x08\x00\x80".as_slice();
    assert_eq!(rt; recode(alloc, &coded, 1728)?.as_slice(), anew);
    assert_eq!(rt; code_image(alloc, &white_image())?.as_slice(), anew);
    Ok(())
}

#[test]
fn a_page_is_read_in_two(rt: HostRuntime) -> Result<(), Fail> {
    let alloc = rt.alloc();
    let page = white_page(alloc)?;
    let (rows, read) = read_in_two(alloc, b"\x03\x20\x00\x02", 1, 1728)?;
    assert_eq!(rt; rows, 2);
    assert!(rt; are_same(read.rows(), page.rows()));
    Ok(())
}

#[test]
fn frames_are_listed(rt: HostRuntime) -> Result<(), Fail> {
    let alloc = rt.alloc();
    let frame = confirmation(alloc)?;
    assert_eq!(rt;
        frame.as_slice(),
        b"\x7E\xDF\x47\x30\x8A\xC6\xFB\x01".as_slice()
    );
    let (first, rest) = frame.as_slice().split_at(3);
    let contents = list_frames(alloc, &[first, rest])?;
    assert_eq!(rt; contents.len(), 1);
    for content in contents.iter() {
        assert_eq!(rt; content.as_slice(), b"\xFF\x13\x8C".as_slice());
        assert!(rt; !asks_again(content));
    }
    Ok(())
}

#[test]
fn a_ppr_asks_again(rt: HostRuntime) {
    let mut ppr = [0; 35];
    ppr[..4].copy_from_slice(b"\xFF\x13\xBC\x02");
    assert!(rt; asks_again(&ppr));
}

// 600 octets are frames 0, 1 and 2; the map also marks the numbers above the last frame.
#[test]
fn a_lost_frame_is_missing(rt: HostRuntime) -> Result<(), Fail> {
    let alloc = rt.alloc();
    let mut coded = Vec::new(alloc);
    assert_eq!(rt; lose_a_frame(alloc, Vec::new(alloc), 0)?, [255; 32]);
    coded.resize(600, 7)?;
    let mut missing = [255; 32];
    missing[0] = 0b1111_1010;
    assert_eq!(rt; lose_a_frame(alloc, coded, 1)?, missing);
    Ok(())
}

#[test]
fn a_caller_trains(rt: HostRuntime) -> Result<(), Fail> {
    let alloc = rt.alloc();
    let wish = Wish {
        modems: Modems::V17,
        coding: Coding::T6,
        small: false,
    };
    let document = Document::new(alloc, white_page(alloc)?)?;
    let mut caller = Caller::new(alloc, document, wish)?;
    let dis = read(b"\xFF\x13\x80\x00\x6E\xFA\x44")?;
    assert_eq!(rt; hears(&mut caller, dis)?, (1, 2700));
    Ok(())
}

// The first DIS is lost, and the call still ends well.
#[test]
fn a_document_is_sent(rt: HostRuntime) -> Result<(), Fail> {
    let alloc = rt.alloc();
    let page = white_page(alloc)?;
    let document = Document::new(alloc, white_page(alloc)?)?;
    let report = send(alloc, document, 100)?;
    let ended = (report.caller_end, report.pages.len());
    assert_eq!(rt; ended, (Some(End::Normal), 1));
    for stored in report.pages.iter() {
        assert!(rt; are_same(stored.rows(), page.rows()));
    }
    Ok(())
}

// T1 is over, so the caller gives up, and its DCN comes.
#[test]
fn a_script_is_run(rt: HostRuntime) -> Result<(), Fail> {
    let text = call_text(rt.alloc(), b"caller-timeout\nto-answerer\n", &white_image())?;
    assert_eq!(rt;
        text.as_slice(),
        b"1 caller-timeout - DCN\n2 to-answerer DCN -\ncaller no-answer confirmed 0\nanswerer peer-left pages 0\n".as_slice()
    );
    Ok(())
}

/// The options of the calls that are drawn and counted.
const OPTIONS: CallOptions = CallOptions {
    coding: Coding::T6,
    small: false,
    modems: Modems::V17,
    fine: false,
};

#[test]
fn a_call_is_drawn(rt: HostRuntime) -> Result<(), Fail> {
    let script = b"caller-timeout\nto-answerer\n";
    let picture = call_picture(rt.alloc(), script, &white_image(), &OPTIONS)?;
    assert!(rt; picture.as_slice().starts_with(b"<svg xmlns="));
    assert!(rt;
        picture
            .as_slice()
            .ends_with(b"pages stored: 0</text></g>\n</svg>\n")
    );
    Ok(())
}

// DIS, DCS, a training check, CFR, FCD, three RCP, PPS, MCF and DCN come.
#[test]
fn calls_are_counted(rt: HostRuntime) -> Result<(), Fail> {
    let text = call_table(rt.alloc(), &white_image(), &OPTIONS, 0, 1)?;
    let call =
        b"call 0 caller normal confirmed 1 answerer normal pages 1 deliveries 11 lost 0 spoiled 0 again 0\ncalls 1\n";
    assert!(rt; text.as_slice().starts_with(call));
    Ok(())
}

// DCS, a training check, and then FCD of a white row and EOFB, and PPS.
#[test]
fn an_answerer_stores_a_page(rt: HostRuntime) -> Result<(), Fail> {
    let alloc = rt.alloc();
    let mut dcs = BitWriter::new(alloc, Order::LsbFirst);
    write_frame(b"\xFF\x13\x83\x00\x22\xF8\x44", &mut dcs)?;
    let mut page = BitWriter::new(alloc, Order::LsbFirst);
    write_frame(b"\xFF\x03\x06\x00\x01\x10\x00\x01", &mut page)?;
    write_frame(b"\xFF\x13\xBF\x2F\x00\x00\x00", &mut page)?;
    let answered = answer(alloc, &dcs.into_octets(), &[0; 2700], &page.into_octets())?;
    assert_eq!(rt; (answered.pages.len(), answered.ending), (1, None));
    Ok(())
}

// MCF answers a PPS or an RR, T.30 A.4.3, and none was said.
#[test]
fn a_long_call_is_judged(rt: HostRuntime) -> Result<(), Fail> {
    let mcf = Said {
        by: Side::Answerer,
        signal: Signal::Mcf,
    };
    let mut call = Vec::new(rt.alloc());
    for _frame in 0..2000 {
        call.push(mcf)?;
    }
    let found = judge(rt.alloc(), &call)?;
    assert_eq!(rt; found.len(), 2000);
    assert!(rt; found.iter().all(|rule| *rule == Some(Rule::NoCommand)));
    assert!(rt; confirmed_too_early() == Some(Rule::NoCommand));
    Ok(())
}
