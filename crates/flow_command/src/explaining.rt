//! What follows the line of a refusal, if the words ask for it. If memory runs out, nothing does.

ghost use Rattle.std.specs.Prelude.{◌↔◌, IfOk, IsNone};
ghost use Rattle.file_plants.specs.Accepted.{IsAccepted};

use crate::words::Call;
use byte_io::ByteIn;
use diagnostics::{KeptLines, at_device, explain};
use file_plants::{Depth, fault_of};
use flow_runs::serve::Action;
use std::alloc::{AllocError, Global};
use std::io::Error;

/// The exit status of a refusal.
pub const REFUSED: u8 = 1;

/// Shows the place of a mistake in the graph file, and returns whether there is one.
pub fn explain_file(rt: &HostRuntime, call: &Call<'_>, file: &[u8]) -> bool {
    let depth = match call.action {
        Action::Check | Action::Draw(_) => Depth::Graph,
        _ => Depth::Plant,
    };
    match explained(rt.alloc(), call.path, file, depth) {
        Ok(Some(lines)) => {
            let _ = eprint!(rt; "{lines}");
            true
        }
        Ok(None) => false,
        Err(_) => true,
    }
}

// Where and why a graph file of this name is refused, or `None` if it is not.
fn explained(
    alloc: Global,
    name: &str,
    text: &[u8],
    depth: Depth,
) -> Result<Option<String>, AllocError>
    ensures { IfOk result (λ lines. IsNone lines ↔ IsAccepted depth text.now) }
{
    match fault_of(alloc, text, depth)? {
        None => Ok(None),
        Some(fault) => Ok(Some(explain(alloc, name, text, &fault)?)),
    }
}

/// Shows the line of a script that is refused.
pub fn explain_line<I: ByteIn>(rt: &HostRuntime, call: &Call<'_>, input: &KeptLines<I>) {
    if let Ok(Some(lines)) = input.bad_line(rt.alloc(), call.action == Action::Live) {
        let _ = eprint!(rt; "{lines}");
    }
}

/// Says why a device failed.
pub fn explain_device(rt: &HostRuntime, name: &str, error: &Error) {
    if let Ok(reason) = format!(in rt.alloc(); "{error}") {
        explain_end(rt, name, reason.as_str());
    }
}

/// Says why a device, or the thing that a word names, is refused.
pub fn explain_end(rt: &HostRuntime, name: &str, reason: &str) {
    if let Ok(line) = at_device(rt.alloc(), name, reason) {
        let _ = eprint!(rt; "{line}");
    }
}
