//! Writers of text that fail.

use raster::{Page, RasterFault, Row, write_text};
use std::alloc::{AllocError, Global};
use std::io;
use std::io::Write;
use std::test::Fail;

/// A writer that takes a number of octets, one a write, and then fails.
#[derive(Drop)]
pub struct Failing {
    pub taken: Vec<u8>,
    pub room: usize,
}

impl Write for Failing {
    fn write(&mut self, octets: &[u8]) -> io::Result<usize> {
        if octets.is_empty() {
            return Ok(0);
        }
        if self.taken.len() >= self.room {
            return Err(io::Error::from(io::ErrorKind::Other));
        }
        self.taken
            .push(octets[0])
            .map_err(std::alloc::AllocError::from)?;
        Ok(1)
    }

    fn flush(&mut self) -> io::Result<()> {
        Ok(())
    }
}

fn page_of_three(alloc: Global) -> Result<Page, RasterFault> {
    let mut page = Page::new(alloc, 8, false)?;
    for runs in [[2, 2, 4], [0, 8, 0], [5, 0, 3]] {
        page.push_row(Row::from_runs(alloc, &runs)?)?;
    }
    Ok(page)
}

const THREE_ROWS: &str = "..##....\n########\n........\n";

/// Whether the page is written to a writer that takes this many octets, and those that it took.
fn written(alloc: Global, page: &Page, room: usize) -> Result<(bool, Vec<u8>), AllocError> {
    let mut writer = Failing {
        taken: Vec::with_capacity(alloc, 27)?,
        room,
    };
    let is_ok = write_text(page, &mut writer).is_ok();
    Ok((is_ok, writer.taken))
}

#[test]
fn a_failing_writer_is_a_fault(rt: HostRuntime) -> Result<(), Fail> {
    let alloc = rt.alloc();
    let page = page_of_three(alloc)?;
    for room in 0..28 {
        let (is_ok, taken) = written(alloc, &page, room)?;
        assert_eq!(rt; is_ok, room == 27, "room for {room}");
        assert_eq!(rt; taken.as_slice(), &THREE_ROWS.as_bytes()[..room]);
    }
    Ok(())
}
