//! The line that says why a command stopped. It takes no memory, so every fault has one.

ghost use Rattle.std.specs.Prelude.{◌≡◌, ◌+◌, ◌-◌, ◌^◌, ◌<◌, ◌++◌, OnOk, OnErr, is_ok, if◌then◌else◌};
ghost use Rattle.std.specs.List.{flat_map};
ghost use Rattle.std.specs.Io.KnownBytes.{Appends};
ghost use Rattle.byte_io.specs.Ends.{AppendsBeginning};
ghost use Rattle.refusal_codes.specs.Texts.{part_text, refusal_text};
ghost use Rattle.script_text.specs.Replies.{line_text};
ghost use Rattle.flow_core.specs.Faults.{fault_line, found_in, stop_line};
ghost use Rattle.flow_core.specs.RawFaults.{raw_fault_line};
ghost use Rattle.flow_core.specs.Serve.{Tries, stream};

use crate::fault::Fault;
use crate::raw_fault::RawFault;
use byte_io::{Broken, ByteOut};
use itoa::Buffer;
use refusal_codes::{RefusalText, TextPart};

/// Writes the line that says why a command stopped, with the `name` of the graph file if that is refused. A failed
/// write does not matter to the command.
pub fn report<E: ByteOut>(fault: &Fault, name: &str, errors: &mut E)
    requires { E.failed errors.old < 2 ^ 64 - 1 }
    ensures { Tries (stream (E.contents errors.old) (E.failed errors.old))
        (stream (E.contents errors.new) (E.failed errors.new)) (fault_line name.now fault.now) }
{
    write_line(fault.refusal_text(), fault.found_in(name), errors);
}

/// Writes the line that says why a run with raw items stopped, with the `name` of the fault's place, if there is one. A
/// failed write does not matter to the run.
pub fn report_raw<E: ByteOut>(fault: &RawFault, name: &str, errors: &mut E)
    requires { E.failed errors.old < 2 ^ 64 - 1 }
    ensures { Tries (stream (E.contents errors.old) (E.failed errors.old))
        (stream (E.contents errors.new) (E.failed errors.new)) (raw_fault_line name.now fault.now) }
{
    write_line(fault.refusal_text(), name, errors);
}

/// Writes the line that says why a command stopped, with this text, found in what has this `name`, if there is one. A
/// failed write does not matter to the command.
pub fn write_line<E: ByteOut>(text: RefusalText<'_>, name: &str, errors: &mut E)
    requires { E.failed errors.old < 2 ^ 64 - 1 }
    ensures { Tries (stream (E.contents errors.old) (E.failed errors.old))
        (stream (E.contents errors.new) (E.failed errors.new)) (stop_line (refusal_text text.entry) name.now) }
{
    match errors.write(b"flow: refused ") {
        Ok(()) => write_parts(errors, text.parts.as_slice(), name),
        Err(_) => {}
    }
}

// Writes the parts of a line and its end, up to the first write that fails.
fn write_parts<E: ByteOut>(errors: &mut E, parts: &[TextPart<'_>], name: &str)
    requires { E.failed errors.old < 2 ^ 64 - 1 }
    ensures { Tries (stream (E.contents errors.old) (E.failed errors.old))
        (stream (E.contents errors.new) (E.failed errors.new)) (flat_map part_text parts.now
        ++ line_text (found_in name.now)) }
{
    for part in parts {
        let Ok(()) = write_part(errors, *part) else {
            return;
        };
    }
    write_end(errors, name);
}

// Writes the end of a line, after the name if there is one.
fn write_end<E: ByteOut>(errors: &mut E, name: &str)
    requires { E.failed errors.old < 2 ^ 64 - 1 }
    ensures { Tries (stream (E.contents errors.old) (E.failed errors.old))
        (stream (E.contents errors.new) (E.failed errors.new)) (line_text (found_in name.now)) }
{
    if name.is_empty() {
        let _ = errors.write(b"\n");
        return;
    }
    if let Ok(()) = errors.write(b" in ") {
        write_name(errors, name);
    }
}

// Writes a name at the end of a line.
fn write_name<E: ByteOut>(errors: &mut E, name: &str)
    requires { E.failed errors.old < 2 ^ 64 - 1 }
    ensures { Tries (stream (E.contents errors.old) (E.failed errors.old))
        (stream (E.contents errors.new) (E.failed errors.new)) (line_text name.now) }
{
    if let Ok(()) = errors.write(name.as_bytes()) {
        let _ = errors.write(b"\n");
    }
}

fn write_part<E: ByteOut>(errors: &mut E, part: TextPart<'_>) -> Result<(), Broken>
    requires { E.failed errors.old < 2 ^ 64 - 1 }
    ensures ok { OnOk result (Appends (E.contents errors.old) (E.contents errors.new) (part_text part.entry)) }
    ensures err { OnErr result (AppendsBeginning (E.contents errors.old) (E.contents errors.new)
        (part_text part.entry)) }
    ensures counted { E.failed errors.new ≡ (if is_ok result then E.failed errors.old else E.failed errors.old + 1) }
{
    match part {
        TextPart::Text(text) => errors.write(text.as_bytes()),
        TextPart::Number(number) => errors.write(Buffer::new().format(number).as_bytes()),
        TextPart::Signed(number) => errors.write(Buffer::new().format(number).as_bytes()),
    }
}
