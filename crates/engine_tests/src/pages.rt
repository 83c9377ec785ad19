//! What no clause says of images and coded pages: octets that come and go one by one, and readers and writers that fail.

use crate::streams::{Narrow, OneByOne};
use faults::{FAILED, ToolFault};
use page_code::Coding;
use page_files::{
    PageForm, Repair, code_engine, decode_engine, repair_engine, salvage_engine, show_engine,
};
use run_tables::Order;
use std::alloc::Global;
use std::test::Fail;

const IMAGE: [u8; 8] = [0x50, 0x34, 0x0A, 0x38, 0x20, 0x31, 0x0A, 0x30];

const CODE: [u8; 12] = [
    0x00, 0x17, 0xEC, 0x00, 0x40, 0x04, 0x00, 0x40, 0x04, 0x00, 0x40, 0x04,
];

const TEXT: &[u8] = b"..##....\n";

#[test]
fn a_failing_reader_is_fault_8(rt: HostRuntime) {
    let alloc = rt.alloc();
    for given in 0..=IMAGE.len() {
        let mut reader = OneByOne {
            left: &IMAGE[..given],
            fails: true,
        };
        let mut octets = Vec::new(alloc);
        let done = code_engine(
            alloc,
            &mut reader,
            &mut octets,
            Coding::OneDim,
            Order::MsbFirst,
        );
        assert_eq!(rt; done, Err(FAILED), "{given} octets");
    }
}

#[test]
fn a_failing_writer_is_fault_8(rt: HostRuntime) {
    let alloc = rt.alloc();
    for room in 0..TEXT.len() {
        let mut reader = CODE.as_slice();
        let mut writer = Narrow {
            taken: Vec::new(alloc),
            room,
        };
        let done = show_engine(
            alloc,
            &mut reader,
            &mut writer,
            Coding::OneDim,
            Order::MsbFirst,
            8,
        );
        assert_eq!(rt; done, Err(FAILED), "room for {room}");
    }
}

/// The code of an image.
fn coded(alloc: Global, image: &[u8]) -> Result<Vec<u8>, ToolFault> {
    let mut image = OneByOne {
        left: image,
        fails: false,
    };
    let mut code = Narrow {
        taken: Vec::with_capacity(alloc, 100)?,
        room: 100,
    };
    code_engine(
        alloc,
        &mut image,
        &mut code,
        Coding::OneDim,
        Order::MsbFirst,
    )?;
    Ok(code.taken)
}

/// The text of a coded page.
fn shown(alloc: Global, code: &[u8]) -> Result<Vec<u8>, ToolFault> {
    let mut code = OneByOne {
        left: code,
        fails: false,
    };
    let mut text = Narrow {
        taken: Vec::with_capacity(alloc, 100)?,
        room: 100,
    };
    show_engine(
        alloc,
        &mut code,
        &mut text,
        Coding::OneDim,
        Order::MsbFirst,
        8,
    )?;
    Ok(text.taken)
}

#[test]
fn octets_come_and_go_one_by_one(rt: HostRuntime) -> Result<(), Fail> {
    let alloc = rt.alloc();
    assert_eq!(rt; coded(alloc, &IMAGE)?.as_slice(), CODE.as_slice());
    assert_eq!(rt; shown(alloc, &CODE)?.as_slice(), TEXT);
    Ok(())
}

/// The code is EOL (12 bits), a row of white 2, black 2 and white 4 (10 bits), and six EOLs.
#[test]
fn a_code_is_decoded_to_its_image(rt: HostRuntime) -> Result<(), Fail> {
    let alloc = rt.alloc();
    let mut coded = OneByOne {
        left: &CODE,
        fails: false,
    };
    let mut image = Narrow {
        taken: Vec::with_capacity(alloc, 100)?,
        room: 100,
    };
    let told = decode_engine(alloc, &mut coded, &mut image, FORM)?;
    assert_eq!(rt; told, (1, 94));
    assert_eq!(rt; image.taken.as_slice(), IMAGE.as_slice());
    Ok(())
}

// A page of 8 pixels a row.
const FORM: PageForm = PageForm {
    coding: Coding::OneDim,
    order: Order::MsbFirst,
    width: 8,
    fine: false,
};

// Two whole rows, and then a code word of no row: they are written, and the bit of the fault is answered.
#[test]
fn whole_rows_are_salvaged(rt: HostRuntime) -> Result<(), Fail> {
    let alloc = rt.alloc();
    let mut reader = OneByOne {
        left: &[0x2F, 0xF8, 0x10],
        fails: false,
    };
    let mut image = Vec::new(alloc);
    let salvage = salvage_engine(
        alloc,
        &mut reader,
        &mut image,
        PageForm {
            coding: Coding::T6,
            ..FORM
        },
    )?;
    assert_eq!(rt; image.as_slice(), b"P4\n8 2\n00".as_slice());
    let end = Err(ToolFault::AtBit { no: 16, place: 13 });
    assert_eq!(rt; (salvage.rows, salvage.end), (2, end));
    Ok(())
}

// EOL, a row of 2 white, 2 black and 4 white pixels, EOL, 2 white pixels of a row, and two EOLs.
const BROKEN: [u8; 8] = [0x00, 0x17, 0xEC, 0x00, 0x5C, 0x00, 0x40, 0x04];

#[test]
fn rows_are_repaired(rt: HostRuntime) -> Result<(), Fail> {
    let alloc = rt.alloc();
    let mut reader = OneByOne {
        left: &BROKEN,
        fails: false,
    };
    let mut image = Vec::new(alloc);
    let mut lines = Vec::new(alloc);
    let repair = repair_engine(alloc, &mut reader, &mut image, &mut lines, FORM)?;
    assert_eq!(rt; image.as_slice(), b"P4\n8 2\n00".as_slice());
    let said = b"row 2 repaired at bit 38\nrepaired rows: 1\n";
    assert_eq!(rt; lines.as_slice(), said.as_slice());
    let wanted = Repair {
        rows: 2,
        repaired: 1,
    };
    assert_eq!(rt; repair, wanted);
    Ok(())
}

// The second writer takes a number of octets, and then no more.
#[test]
fn a_failing_list_is_fault_8(rt: HostRuntime) {
    let alloc = rt.alloc();
    for room in 0..42usize {
        let mut reader = OneByOne {
            left: &BROKEN,
            fails: false,
        };
        let mut image = Vec::new(alloc);
        let mut lines = Narrow {
            taken: Vec::new(alloc),
            room,
        };
        let done = repair_engine(alloc, &mut reader, &mut image, &mut lines, FORM);
        assert_eq!(rt; done, Err(FAILED), "{room} octets");
    }
}
