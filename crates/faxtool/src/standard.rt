//! The descriptors of standard input, output and error.

use std::fs::{File, OpenOptions};
use std::os::fd::AsRawFd;

/// The device that takes the place of a closed descriptor.
const NULL: &str = "/dev/null";

/// Opens the null device for each of the descriptors 0, 1 and 2 that is closed, so that no file of a command gets its number. Like a closed
/// one, the descriptor can't be used: 0 is opened for writing, 1 and 2 for reading.
pub(crate) fn hold_closed(rt: &HostRuntime) -> [Option<File>; 3] {
    [hold_lowest(rt), hold_lowest(rt), hold_lowest(rt)]
}

/// Opens the null device if the lowest closed descriptor is 0, 1 or 2.
fn hold_lowest(rt: &HostRuntime) -> Option<File> {
    let read = File::open(rt, NULL).ok()?;
    match read.as_raw_fd() {
        0 => {
            drop(read);
            OpenOptions::new().write(true).open(rt, NULL).ok()
        }
        1 | 2 => Some(read),
        _ => None,
    }
}
