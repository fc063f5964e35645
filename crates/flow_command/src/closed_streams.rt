//! Standard streams that the caller of the program left closed.

use std::fs::OpenOptions;
use std::os::fd::{AsRawFd, IntoRawFd, RawFd};

// What such a stream leads to.
const NOWHERE: &str = "/dev/null";

// The number of standard input, and that of standard error, which is the last.
const INPUT: RawFd = 0;

const ERRORS: RawFd = 2;

/// Opens a device under the number of each closed standard stream. An opened file gets the least free number, so
/// without this it would get what goes to a standard stream. The stream still cannot be read or written: the device is
/// opened for the other direction.
pub fn hold_closed_streams(rt: &HostRuntime) {
    let mut writes = OpenOptions::new();
    writes.write(true);
    let _input = holds_one(rt, &writes, INPUT);
    let mut reads = OpenOptions::new();
    reads.read(true);
    for _ in INPUT..ERRORS {
        if !holds_one(rt, &reads, ERRORS) {
            return;
        }
    }
}

// Opens the device, and leaves it open if its number is this one or less. It returns whether it did.
fn holds_one(rt: &HostRuntime, how: &OpenOptions, last: RawFd) -> bool {
    match how.open(rt, NOWHERE) {
        Ok(device) if device.as_raw_fd() <= last => {
            let _number = device.into_raw_fd();
            true
        }
        _ => false,
    }
}
