//! The longest page in the two-dimensional code.

ghost use Rattle.raster.specs.Pixels.{IsWidth};

use page_code::{PageCode, T6};
use raster::packed::Order;
use run_tables::{CodeFault, CodeFaultKind};
use std::alloc::Global;
use std::test::Fail;

/// The rows' number and the bits used, or the refusal.
fn read(alloc: Global, octets: &[u8], order: Order, width: u32) -> Result<(usize, u128), CodeFault>
    requires { IsWidth width }
{
    let (page, used) = T6::decode(alloc, octets, order, width, false)?;
    Ok((page.rows().len(), used))
}

fn refused(place: u128, kind: CodeFaultKind) -> Result<(usize, u128), CodeFault> {
    Err(CodeFault::new(place, kind))
}

#[test]
fn rows_at_most(rt: HostRuntime) -> Result<(), Fail> {
    let alloc = rt.alloc();
    let mut octets = Vec::new(alloc);
    for _ in 0..2500u32 {
        octets.push(0xFF)?;
    }
    assert_eq!(rt;
        read(alloc, &octets, Order::MsbFirst, 8),
        refused(20000, CodeFaultKind::MissingEofb)
    );
    octets.push(0x80)?;
    assert_eq!(rt;
        read(alloc, &octets, Order::MsbFirst, 8),
        refused(20000, CodeFaultKind::TooManyCodedRows)
    );
    Ok(())
}
