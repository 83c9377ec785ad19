//! Engines at size: the largest page, many frames and many pages.

use calls::{CallOptions, call_engine};
use captures::frames_engine;
use faults::ToolFault;
use page_code::Coding;
use page_files::{code_engine, show_engine};
use run_tables::Order;
use signals::Modems;
use std::alloc::{AllocError, Global};
use std::test::Fail;

/// The octets, again and again.
fn repeated(alloc: Global, octets: &[u8], times: u32) -> Result<Vec<u8>, AllocError> {
    let mut all = Vec::new(alloc);
    for _ in 0..times {
        all.extend_from_slice(octets)?;
    }
    Ok(all)
}

/// The image of the largest page, all white.
fn largest_image(alloc: Global) -> Result<Vec<u8>, AllocError> {
    let mut image = Vec::new(alloc);
    image.extend_from_slice(b"P4\n2432 20000\n")?;
    image.resize(6_080_014, 0)?;
    Ok(image)
}

/// The code of that page in one dimension: of each row an EOL, the make-up code of 2,432 and that of no more white pixel; and six EOLs.
fn largest_code(alloc: Global) -> Result<Vec<u8>, AllocError> {
    let mut code = repeated(alloc, &[0x00, 0x10, 0x1D, 0x35], 20_000)?;
    code.extend_from_slice(&[0x00, 0x10, 0x01, 0x00, 0x10, 0x01, 0x00, 0x10, 0x01])?;
    Ok(code)
}

/// What `code` writes of an image.
fn coded(alloc: Global, image: &[u8]) -> Result<Vec<u8>, ToolFault> {
    let mut reader = image;
    let mut code = Vec::new(alloc);
    code_engine(
        alloc,
        &mut reader,
        &mut code,
        Coding::OneDim,
        Order::MsbFirst,
    )?;
    Ok(code)
}

/// What `show` writes of a code.
fn shown(alloc: Global, code: &[u8]) -> Result<Vec<u8>, ToolFault> {
    let mut reader = code;
    let mut text = Vec::new(alloc);
    show_engine(
        alloc,
        &mut reader,
        &mut text,
        Coding::OneDim,
        Order::MsbFirst,
        2432,
    )?;
    Ok(text)
}

/// How many lines of 2,432 `.` a text has, if it has nothing else.
fn white_lines(text: &[u8]) -> Option<usize> {
    for (place, letter) in text.iter().enumerate() {
        let wanted = if place % 2433 == 2432 { b'\n' } else { b'.' };
        if *letter != wanted {
            return None;
        }
    }
    Some(text.len() / 2433)
}

#[test]
fn the_largest_page(rt: HostRuntime) -> Result<(), Fail> {
    let alloc = rt.alloc();
    let code = coded(alloc, &largest_image(alloc)?)?;
    assert!(rt; code == largest_code(alloc)?);
    let text = shown(alloc, &code)?;
    assert_eq!(rt;
        (text.len(), white_lines(&text)),
        (48_660_000, Some(20_000))
    );
    Ok(())
}

/// A message confirmation (MCF) of the answering station.
const FRAME: [u8; 8] = [0x7E, 0xDF, 0x47, 0x30, 0x8A, 0xC6, 0xFB, 0x01];

const COUNTS: &[u8] = b"good 10000 aborted 0 ragged 0 short 0 long 0 damaged 0\n";

// A line for each frame: its number, of 38,894 digits in all, and 12 letters more.
#[test]
fn many_frames(rt: HostRuntime) -> Result<(), Fail> {
    let alloc = rt.alloc();
    let line = repeated(alloc, &FRAME, 10_000)?;
    let mut octets = line.as_slice();
    let mut text = Vec::new(alloc);
    frames_engine(alloc, &mut octets, &mut text, None)?;
    assert_eq!(rt; text.len(), 38_894 + 120_000 + COUNTS.len());
    assert!(rt; text.ends_with(COUNTS));
    Ok(())
}

const OPTIONS: CallOptions = CallOptions {
    coding: Coding::T6,
    small: false,
    modems: Modems::V17,
    fine: false,
};

/// 257 images of a white row of 1,728 pixels, which has 216 octets.
fn white_images(alloc: Global) -> Result<Vec<u8>, AllocError> {
    let mut image = [0; 226];
    image[..10].copy_from_slice(b"P4\n1728 1\n");
    repeated(alloc, &image, 257)
}

// 5 deliveries, and 6 for each page.
#[test]
fn many_pages(rt: HostRuntime) -> Result<(), Fail> {
    let alloc = rt.alloc();
    let images = white_images(alloc)?;
    let mut images = images.as_slice();
    let mut said = b"polite 1547".as_slice();
    let mut text = Vec::new(alloc);
    let pages = call_engine(alloc, &mut said, &mut images, &mut text, &OPTIONS)?;
    assert_eq!(rt; pages.len(), 257);
    assert!(rt; text.ends_with(b"caller normal confirmed 257\nanswerer normal pages 257\n"));
    Ok(())
}
