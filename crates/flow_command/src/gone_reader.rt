//! Writes that fail since nobody reads on, as behind `| head`. That is no fault of a run, but ends it.

use crate::refusing::buffered;
use crate::words::Call;
use std::io::{BufWriter, Error, ErrorKind, Write};

/// The exit status then: 128 and the number of the signal, as a shell shows it for a program that a closed pipe ends,
/// like `cat`.
pub const NOBODY_READS: u8 = 141;

/// The name of standard output in messages.
pub const OUTPUT: &str = "standard output";

/// Whether this is why a write failed.
pub fn is_gone(error: &Error) -> bool {
    error.kind() == ErrorKind::BrokenPipe
}

/// Writes out what a command says of its end, and returns the status of the call. If nobody reads standard output any
/// more, it says only that.
pub fn end_of<W: Write + Drop>(
    rt: &HostRuntime,
    call: &Call<'_>,
    status: u8,
    said: BufWriter<W>,
    reason: &Option<Error>,
) -> u8 {
    let mut said = said;
    match reason {
        Some(error) if is_gone(error) => {
            let (_errors, _refusal) = said.into_parts();
            tell_gone(rt, call, OUTPUT)
        }
        _ => {
            let _ = said.flush();
            status
        }
    }
}

/// Tells that nobody reads the stream of this name, unless the words say no, and returns the status of the call.
pub fn tell_gone(rt: &HostRuntime, call: &Call<'_>, name: &str) -> u8 {
    if !call.is_quiet {
        tell(rt, name);
    }
    NOBODY_READS
}

/// Tells that nobody reads the stream of this name.
pub fn tell(rt: &HostRuntime, name: &str) {
    let mut errors = buffered(rt.alloc(), rt.stderr()).writer;
    let _ = write!(errors, "flow: nobody reads {name} any more\n");
    let _ = errors.flush();
}
