//! Pixels packed, and made of packed rows, for C.

ghost use Rattle.g3fax.specs.PixelRows.{PacksPixels, UnpacksPixels, octets_out, pixel_before, rows_in, rows_status, to_pack, to_unpack};
ghost use Rattle.g3fax.specs.PixelRows.{AreFilled, SamePixels, TellsOctets};
ghost use Rattle.raster.specs.Pbm.{stride};
ghost use Rattle.std.specs.Int.{bit_at};
ghost use Rattle.std.specs.Prelude.{ℕ, ◌≡◌, ◌≢◌, ◌≤◌, ◌<◌, ◌+◌, ◌-◌, ◌*◌, ◌/◌, ◌%◌, ◌⊎◌, ◌↔◌, All, IsTrue, length, slice_index};
ghost use Rattle.std.specs.Prelude.{if◌then◌else◌, nat_lt};

use crate::status::{BAD_CHOICE, BAD_LENGTH, BAD_WIDTH, NO_ROOM, OK, TOO_MANY_ROWS};
use raster::{MAX_ROWS, MAX_WIDTH};

/// Returns the octet of eight pixels, the first one in its highest bit.
fn octet_of(eight: [u8; 8]) -> u8
    requires { (k : ℕ) → k < 8 → slice_index eight k < 2 }
    ensures { (k : ℕ) → k < 8 → bit_at result (7 - k) ≡ slice_index eight k }
{
    eight[0] * 128
        + eight[1] * 64
        + eight[2] * 32
        + eight[3] * 16
        + eight[4] * 8
        + eight[5] * 4
        + eight[6] * 2
        + eight[7]
}

/// Returns the pixel at a place before this end; 0 from it on.
fn pixel_before(end: usize, pixels: &[u8], at: usize) -> u8
    requires { end ≤ length pixels.now }
    ensures { result ≡ pixel_before end pixels.now at }
{
    if at < end { pixels[at] } else { 0 }
}

/// Returns eight pixels from one on; 0 from the end on.
fn eight_at(end: usize, pixels: &[u8], from: usize) -> [u8; 8]
    requires end { end ≤ length pixels.now }
    requires from { from < end }
    ensures { (k : ℕ) → k < 8 → slice_index result k ≡ pixel_before end pixels.now (from + k) }
{
    if end - from >= 8 {
        return [
            pixels[from],
            pixels[from + 1],
            pixels[from + 2],
            pixels[from + 3],
            pixels[from + 4],
            pixels[from + 5],
            pixels[from + 6],
            pixels[from + 7],
        ];
    }
    [
        pixel_before(end, pixels, from),
        pixel_before(end, pixels, from + 1),
        pixel_before(end, pixels, from + 2),
        pixel_before(end, pixels, from + 3),
        pixel_before(end, pixels, from + 4),
        pixel_before(end, pixels, from + 5),
        pixel_before(end, pixels, from + 6),
        0,
    ]
}

/// Packs the pixels of a row, from one on, from an octet of the buffer on.
fn pack_row(pixels: &[u8], from: usize, width: u32, buffer: &mut [u8], start: usize)
    requires pixels { from + width ≤ length pixels.now }
    requires all { (k : ℕ) → slice_index pixels.now k < 2 }
    requires room { start + stride width ≤ length buffer.old }
    ensures row { (at : ℕ) → at < 8 * stride width
        → bit_at (slice_index buffer.new (start + at / 8)) (7 - at % 8)
        ≡ pixel_before (from + width) pixels.now (from + at) }
    ensures others { (k : ℕ) → (k < start) ⊎ (start + stride width ≤ k)
        → slice_index buffer.new k ≡ slice_index buffer.old k }
    ensures room { length buffer.new ≡ length buffer.old }
{
    let end = from + width as usize;
    for octet in 0..(width as usize + 7) / 8 {
        buffer[start + octet] = octet_of(eight_at(end, pixels, from + 8 * octet));
    }
}

/// Returns whether each octet is a pixel, 0 or 1.
fn are_pixels(octets: &[u8]) -> bool
    ensures { IsTrue result ↔ ((k : ℕ) → slice_index octets.now k < 2) }
{
    let mut all = true;
    for octet in octets {
        all = all & (*octet < 2);
    }
    all
}

/// Returns the pixels of an octet, that of its highest bit first.
fn pixels_of(octet: u8) -> [u8; 8]
    ensures { (k : ℕ) → k < 8 → slice_index result k ≡ bit_at octet (7 - k) }
{
    [
        octet / 128 % 2,
        octet / 64 % 2,
        octet / 32 % 2,
        octet / 16 % 2,
        octet / 8 % 2,
        octet / 4 % 2,
        octet / 2 % 2,
        octet % 2,
    ]
}

/// Puts eight pixels into a buffer, from an octet on.
fn put_eight(eight: [u8; 8], buffer: &mut [u8], start: usize)
    requires { start + 8 ≤ length buffer.old }
    ensures inside { (k : ℕ) → k < 8 → slice_index buffer.new (start + k) ≡ slice_index eight k }
    ensures others { (k : ℕ) → (k < start) ⊎ (start + 8 ≤ k)
        → slice_index buffer.new k ≡ slice_index buffer.old k }
    ensures room { length buffer.new ≡ length buffer.old }
{
    buffer[start..start + 8].copy_from_slice(&eight);
}

/// Makes the pixels of a packed row, from an octet on, from an octet of the buffer on.
fn unpack_row(packed: &[u8], from: usize, width: u32, buffer: &mut [u8], start: usize)
    requires packed { from + stride width ≤ length packed.now }
    requires room { start + width ≤ length buffer.old }
    ensures row { (at : ℕ) → at < width → slice_index buffer.new (start + at)
        ≡ bit_at (slice_index packed.now (from + at / 8)) (7 - at % 8) }
    ensures others { (k : ℕ) → (k < start) ⊎ (start + width ≤ k)
        → slice_index buffer.new k ≡ slice_index buffer.old k }
    ensures room { length buffer.new ≡ length buffer.old }
{
    let whole = width as usize / 8;
    for octet in 0..whole {
        put_eight(pixels_of(packed[from + octet]), buffer, start + 8 * octet);
    }
    for at in 8 * whole..width as usize {
        buffer[start + at] = (packed[from + at / 8] >> (7 - at % 8)) & 1;
    }
}

/// What is read and what is written: the width of the rows, the octets that are read, those of a row among them and among those that are
/// written, and how many octets there is room for.
#[derive(Clone, Copy)]
pub(crate) struct Lengths {
    width: u32,
    octets: usize,
    from: usize,
    to: usize,
    room: usize,
}

/// Returns the status for rows, and tells how many octets are written if there is room, or was none.
fn rows_status(lengths: Lengths, allowed: bool, count: &mut u64) -> u32
    requires from { lengths.width ≢ 0 → 0 < lengths.from }
    requires to { lengths.to ≤ 2432 ⊎ lengths.width ≡ 0 ⊎ 2432 < lengths.width }
    ensures is { result ≡ rows_status lengths allowed }
    ensures tells { TellsOctets lengths result count.old count.new }
    ensures rows { result ≡ 0 → octets_out lengths ≤ lengths.room }
{
    if lengths.width == 0 || lengths.width > MAX_WIDTH {
        return BAD_WIDTH;
    }
    if lengths.octets % lengths.from != 0 {
        return BAD_LENGTH;
    }
    let rows = lengths.octets / lengths.from;
    if rows > MAX_ROWS {
        return TOO_MANY_ROWS;
    }
    let written = rows * lengths.to;
    if written <= lengths.room && !allowed {
        return BAD_CHOICE;
    }
    *count = written as u64;
    if written > lengths.room { NO_ROOM } else { OK }
}

/// Packs rows of pixels.
fn pack_rows(pixels: &[u8], rows: usize, width: u32, buffer: &mut [u8])
    requires all { (k : ℕ) → slice_index pixels.now k < 2 }
    requires pixels { rows * width ≤ length pixels.now }
    requires room { rows * stride width ≤ length buffer.old }
    ensures same { SamePixels width rows pixels.now buffer.new }
    ensures filled { AreFilled width rows buffer.new }
    ensures rest { (k : ℕ) → rows * stride width ≤ k
        → slice_index buffer.new k ≡ slice_index buffer.old k }
    ensures room { length buffer.new ≡ length buffer.old }
{
    let octets = (width as usize + 7) / 8;
    for row in 0..rows {
        pack_row(pixels, row * width as usize, width, buffer, row * octets);
    }
}

/// Makes the pixels of packed rows.
fn unpack_rows(packed: &[u8], rows: usize, width: u32, buffer: &mut [u8])
    requires packed { rows * stride width ≤ length packed.now }
    requires room { rows * width ≤ length buffer.old }
    ensures same { SamePixels width rows buffer.new packed.now }
    ensures rest { (k : ℕ) → rows * width ≤ k
        → slice_index buffer.new k ≡ slice_index buffer.old k }
    ensures room { length buffer.new ≡ length buffer.old }
{
    let octets = (width as usize + 7) / 8;
    for row in 0..rows {
        unpack_row(packed, row * octets, width, buffer, row * width as usize);
    }
}

/// Packs pixels, octets 0 and 1 in whole rows of a width, eight an octet, the first one in the highest bit; the bits that fill a row are 0.
/// Tells how many octets are written, also if there is too little room. Returns `G3_BAD_WIDTH` (1) for a width that isn't 1 to 2,432,
/// `G3_BAD_LENGTH` (105) if the rows aren't whole, `G3_TOO_MANY_ROWS` (3) for more than 20,000, `G3_NO_ROOM` (103), or `G3_BAD_CHOICE` (104)
/// if an octet is neither 0 nor 1; the buffer stays then.
#[unsafe(no_mangle)]
pub extern "C" fn g3_core_pixels_pack(
    pixels: &[u8],
    width: u32,
    buffer: &mut [u8],
    count: &mut u64,
) -> u32
    ensures { PacksPixels (to_pack width (length pixels.now) (length buffer.old)) pixels.now
        buffer.old buffer.new count.old count.new result }
{
    let lengths = Lengths {
        width,
        octets: pixels.len(),
        from: width as usize,
        to: (width as usize + 7) / 8,
        room: buffer.len(),
    };
    let status = rows_status(lengths, are_pixels(pixels), count);
    if status == OK {
        pack_rows(pixels, lengths.octets / lengths.from, width, buffer);
    }
    status
}

/// Makes pixels, octets 0 and 1, of packed rows of a width; the bits that fill a row are ignored. Tells how many octets are written, also if
/// there is too little room. Returns `G3_BAD_WIDTH` (1), `G3_BAD_LENGTH` (105), `G3_TOO_MANY_ROWS` (3) or `G3_NO_ROOM` (103), as
/// `g3_core_pixels_pack` does.
#[unsafe(no_mangle)]
pub extern "C" fn g3_core_pixels_unpack(
    rows: &[u8],
    width: u32,
    buffer: &mut [u8],
    count: &mut u64,
) -> u32
    ensures { UnpacksPixels (to_unpack width (length rows.now) (length buffer.old)) rows.now
        buffer.old buffer.new count.old count.new result }
{
    let lengths = Lengths {
        width,
        octets: rows.len(),
        from: (width as usize + 7) / 8,
        to: width as usize,
        room: buffer.len(),
    };
    let status = rows_status(lengths, true, count);
    if status == OK {
        unpack_rows(rows, lengths.octets / lengths.from, width, buffer);
    }
    status
}
