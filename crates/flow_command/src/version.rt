//! Prints the version, and which processors the program is compiled for.

use crate::listing::print_text;
use crate::refusing::begins_none;
use crate::words::VERSION;
use flow_core::start_fault::StartFault;
use std::env;
use std::path::Path;

// The levels of x86-64 processors. An installed program stands in a folder of such a name; a built program's file name
// ends in it.
const LEVELS: [&str; 2] = ["x86-64-v2", "x86-64-v3"];

/// Prints the version, with the level that the file of the running program is named by, and returns the exit status.
pub fn print_version(rt: &HostRuntime) -> u8 {
    let own = env::current_exe(rt);
    let level = match &own {
        Ok(path) => level_of(path.as_path()),
        Err(_) => None,
    };
    let text = match level {
        Some(level) => format!(in rt.alloc(); "flow {VERSION} ({level})\n"),
        None => format!(in rt.alloc(); "flow {VERSION}\n"),
    };
    match text {
        Ok(text) => print_text(rt, text.as_str()),
        Err(_) => begins_none(rt, StartFault::Memory),
    }
}

// The level that a file is named by, or its folder.
fn level_of(path: Path<'_>) -> Option<&'static str> {
    let name = path.file_name()?;
    let folder = path.parent()?.file_name().unwrap_or("");
    LEVELS
        .iter()
        .copied()
        .find(|level| name.ends_with(level) || folder == *level)
}
