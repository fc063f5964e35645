//! Writes graph files to start from.

use crate::explaining::explain_device;
use crate::refusing::{begins_none, begins_none_of};
use diagnostics::starting_graph;
use flow_core::start_fault::StartFault;
use kinds::KindName;
use std::io::Write;
use std::{fs, io};

/// Writes a graph file with blocks of these kinds, if there is no file yet, and returns the exit status. It always
/// tells why it cannot.
pub fn create_graph(rt: &HostRuntime, path: &str, kinds: &[KindName]) -> u8 {
    let Ok(text) = starting_graph(rt.alloc(), kinds) else {
        return begins_none(rt, StartFault::Memory);
    };
    match write_new(rt, path, text.as_bytes()) {
        Ok(()) => 0,
        Err(error) => {
            let status = begins_none_of(rt, StartFault::NoOutput, path);
            explain_device(rt, path, &error);
            status
        }
    }
}

fn write_new(rt: &HostRuntime, path: &str, text: &[u8]) -> io::Result<()> {
    let mut file = fs::File::create_new(rt, path)?;
    file.write_all(text)
}
