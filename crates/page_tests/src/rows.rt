//! Rows at size: their changing elements and their runs.

use raster::{RasterFault, Row};
use std::alloc::{AllocError, Global};
use std::process::Abort;
use std::test::Fail;

/// The row that has the changing positions of a row.
fn painted_again(alloc: Global, row: &Row) -> Result<Row, AllocError> {
    let mut places = Vec::new(alloc);
    row.changes(alloc, &mut places)?;
    Row::from_changes(alloc, &places, row.width())
}

/// Asserts that the row of these runs comes back from its changing positions.
fn changes_come_back_of(alloc: Global, rt: &impl Abort, runs: &[u32]) -> Result<(), Fail> {
    let row = Row::from_runs(alloc, runs)?;
    let again = painted_again(alloc, &row)?;
    assert_eq!(rt; again.octets(), row.octets(), "{runs:?}");
    Ok(())
}

const ROWS: [&[u32]; 6] = [
    &[2432],
    &[0, 2432],
    &[0, 8],
    &[13],
    &[2431, 1],
    &[0, 1, 62, 65, 1, 200, 63, 64, 1],
];

#[test]
fn changes_come_back(rt: HostRuntime) -> Result<(), Fail> {
    let alloc = rt.alloc();
    for runs in ROWS {
        changes_come_back_of(alloc, &rt, runs)?;
    }
    changes_come_back_of(alloc, &rt, &[1; 2432])
}

/// The row's own runs.
fn runs_of(alloc: Global, row: &Row) -> Result<Vec<u32>, RasterFault> {
    let mut runs = Vec::new(alloc);
    row.runs(alloc, &mut runs)?;
    Ok(runs)
}

#[test]
fn a_row_of_single_pixels_has_2432_runs(rt: HostRuntime) -> Result<(), Fail> {
    let alloc = rt.alloc();
    let row = Row::from_runs(alloc, &[1; 2432])?;
    let runs = runs_of(alloc, &row)?;
    assert_eq!(rt; runs.as_slice(), [1; 2432].as_slice());
    Ok(())
}
