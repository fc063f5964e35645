//! The call that shows where a graph file is refused.

ghost use Rattle.magbelu_c.specs.CallAnswers.{Answers};
ghost use Rattle.magbelu_c.specs.Explaining.{Accepts, Explains};

use crate::answer::{Answer, badly, well};
use crate::idle::Idle;
use diagnostics::explain;
use flow_core::fault::Fault;
use graph_file::FileFault;
use std::alloc::Global;

/// Tells whether the plant of a graph file can be opened. If not, the output shows the place in the file and what is
/// there, as `flow --explain` does, under this name of the file. The output is empty if memory runs out for it.
#[unsafe(no_mangle)]
pub extern "C" fn magbelu_bytes_explain(
    alloc: Global,
    name: &[u8],
    file: &[u8],
    output: &mut [u8],
    error: &mut [u8],
) -> Answer
    ensures { Answers (Accepts file.now) (Explains file.now) output.old output.new error.old error.new result }
{
    let fault = match Idle::open(alloc, file) {
        Ok(_) => return well(0, &[], output),
        Err(fault) => fault,
    };
    let place = place_in(alloc, name, file, &fault);
    badly(alloc, &Fault::File(fault), place.as_bytes(), output, error)
}

// The lines that show where a file is refused. A name that is not UTF-8 becomes `?`.
fn place_in(alloc: Global, name: &[u8], file: &[u8], fault: &FileFault) -> String {
    let name = std::str::from_utf8(name).unwrap_or("?");
    match explain(alloc, name, file, fault) {
        Ok(lines) => lines,
        Err(_) => String::new(alloc),
    }
}
