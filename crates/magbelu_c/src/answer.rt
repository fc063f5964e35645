//! The answer to a call.

ghost use Rattle.std.specs.Prelude.{◌≡◌};
ghost use Rattle.magbelu_c.specs.CallAnswers.{ToldBadly, ToldRaw, ToldWell};

use crate::shows::show;
use byte_io::WriteEnd;
use flow_core::fault::Fault;
use flow_core::raw_fault::RawFault;
use flow_core::refusal_line::{report, report_raw};
use refusal_codes::Refusal;
use std::alloc::Global;

/// The result of a call. A text that does not fit its buffer is not written, but its length is given.
#[repr(C)]
#[derive(Clone, Copy, Debug, PartialEq, Eq)]
pub struct Answer {
    /// The exit status of the program `flow`: 0; 3 if the run came to rest before its end; 1 for a refusal; 4 if memory
    /// ran out.
    pub status: u32,
    /// The number of the refusal, or 0.
    pub number: u32,
    /// How many bytes the output has.
    pub output_len: usize,
    /// How many bytes the line of a refusal has.
    pub error_len: usize,
}

/// A call was done, and gives a text.
pub(crate) fn well(status: u8, text: &[u8], output: &mut [u8]) -> Answer
    ensures { ToldWell text.now status output.old output.new result }
{
    show(text, output);
    Answer {
        status: u32::from(status),
        number: 0,
        output_len: text.len(),
        error_len: 0,
    }
}

/// A call was not done, and had made a text before.
pub(crate) fn badly(
    alloc: Global,
    fault: &Fault,
    text: &[u8],
    output: &mut [u8],
    error: &mut [u8],
) -> Answer
    ensures { ToldBadly text.now fault.now output.old output.new error.old error.new result }
{
    let mut line = WriteEnd::new(Vec::new(alloc));
    report(fault, "", &mut line);
    show(text, output);
    show(&line.writer, error);
    Answer {
        status: u32::from(fault.status()),
        number: fault.number(),
        output_len: text.len(),
        error_len: line.writer.len(),
    }
}

/// A run with raw items was not done.
pub(crate) fn badly_raw(alloc: Global, fault: &RawFault, error: &mut [u8]) -> Answer
    ensures { ToldRaw fault.now error.old error.new result }
{
    let mut line = WriteEnd::new(Vec::new(alloc));
    report_raw(fault, "", &mut line);
    show(&line.writer, error);
    Answer {
        status: u32::from(fault.status()),
        number: fault.number(),
        output_len: 0,
        error_len: line.writer.len(),
    }
}
