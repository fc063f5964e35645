//! What the program says of a refused call: a line in one write.

ghost use Rattle.std.specs.Prelude.{◌≡◌, []};
ghost use Rattle.std.specs.Io.Buffered.{writer_inner, writer_buffer};

use byte_io::WriteEnd;
use diagnostics::shown;
use flow_core::start_fault::StartFault;
use std::alloc::Global;
use std::env::{Env, FillError};
use std::io::{BufWriter, Write};

// The most bytes of a line of a refusal or of a stalled run.
const LONGEST_LINE: usize = 1024;

// Messages do not show a longer word, which is no path either.
const LONGEST_WORD: usize = 4096;

/// A writer behind a buffer. The line of a refusal comes in pieces; the buffer makes them one write, so the line stays
/// whole beside those of other programs. A stalled run may have more lines than the buffer holds, so one may be cut. It
/// asks for no memory later; if none is left now, each piece is a write.
pub fn buffered<W: Write + Copy + Drop>(alloc: Global, writer: W) -> WriteEnd<BufWriter<W>>
    ensures inner { writer_inner result.writer ≡ writer }
    ensures empty { writer_buffer result.writer ≡ [] }
    ensures failures { result.failures ≡ 0 }
{
    let buffer = match BufWriter::with_capacity(alloc, LONGEST_LINE, writer) {
        Ok(buffer) => buffer,
        Err(_) => BufWriter::with_capacity(alloc, 0, writer).unwrap(),
    };
    WriteEnd::new(buffer)
}

/// Tells why no command is begun.
pub fn begins_none(rt: &HostRuntime, fault: StartFault) -> u8 {
    let named = match fault {
        StartFault::NoText => match bad_word(rt.alloc(), rt) {
            Some(word) => naming(rt, fault, ": ", word.as_str()),
            None => None,
        },
        _ => None,
    };
    tell(rt, fault, named)
}

/// Tells that a file keeps a command from beginning, or from ending whole. The path follows the text of the fault.
pub fn begins_none_of(rt: &HostRuntime, fault: StartFault, path: &str) -> u8 {
    let named = match (fault, shown(rt.alloc(), path.as_bytes())) {
        (StartFault::NoFile | StartFault::NoTrace | StartFault::NoOutput, Ok(path))
            if !path.is_empty() => naming(rt, fault, " ", path.as_str()),
        _ => None,
    };
    tell(rt, fault, named)
}

/// The name of a file as it is shown; empty if memory runs out.
pub fn shown_name(alloc: Global, path: &str) -> String {
    match shown(alloc, path.as_bytes()) {
        Ok(name) => name,
        Err(_) => String::new(alloc),
    }
}

// Tells why no command is begun, by the line that names the cause, if there is one.
fn tell(rt: &HostRuntime, fault: StartFault, named: Option<String>) -> u8 {
    match named {
        Some(line) => {
            let _ = eprint!(rt; "{line}");
        }
        None => {
            let text = fault.text();
            let _ = eprint!(rt; "{text}");
        }
    }
    fault.status()
}

// The line of a fault, with its object after it; none if memory runs out.
fn naming(rt: &HostRuntime, fault: StartFault, between: &str, name: &str) -> Option<String> {
    let line = fault.text().trim_end();
    format!(in rt.alloc(); "{line}{between}{name}\n").ok()
}

// The first word that is no UTF-8, as it is shown; none if memory runs out, or if it is too long.
fn bad_word<R: Env>(alloc: Global, rt: &R) -> Option<String> {
    let mut bytes = vec![in alloc; 0u8; LONGEST_WORD].ok()?;
    for number in 0..usize::MAX {
        match rt.arg(number, bytes.as_mut_slice()) {
            Ok(count) => {
                let word = &bytes[..count];
                if std::str::from_utf8(word).is_err() {
                    return shown(alloc, word).ok();
                }
            }
            Err(FillError::TooLong) => {}
            Err(FillError::NotPresent) => return None,
        }
    }
    None
}
