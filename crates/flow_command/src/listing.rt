//! Prints what needs no graph file: the page of kinds, help and the version.

use crate::gone_reader::{NOBODY_READS, OUTPUT, is_gone, tell};
use crate::refusing::begins_none;
use diagnostics::{page_of_kind, page_of_kinds};
use flow_core::start_fault::StartFault;
use kinds::KindName;

/// Prints the page of all kinds, or of one, and returns the exit status.
pub fn print_kinds(rt: &HostRuntime, kind: Option<KindName>) -> u8 {
    let page = match kind {
        Some(kind) => page_of_kind(rt.alloc(), kind),
        None => page_of_kinds(rt.alloc()),
    };
    let Ok(page) = page else {
        return begins_none(rt, StartFault::Memory);
    };
    print_text(rt, page.as_str())
}

/// Prints a text, in one write, and returns the exit status.
pub fn print_text(rt: &HostRuntime, text: &str) -> u8 {
    match print!(rt; "{text}") {
        Ok(()) => 0,
        Err(error) if is_gone(&error) => {
            tell(rt, OUTPUT);
            NOBODY_READS
        }
        Err(_) => begins_none(rt, StartFault::NoOutput),
    }
}
