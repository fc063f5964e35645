//! The call that takes raw items, and gives raw items.

ghost use Rattle.std.specs.Prelude.{◌≡◌};
ghost use Rattle.magbelu_c.specs.CallAnswers.{AnswersRun, order_of};

use crate::answer::{Answer, badly_raw, well};
use crate::between::run_between;
use crate::orders::order;
use crate::shows::show;
use crate::tables::{Input, Output};
use std::alloc::Global;

/// Runs the graph of a file to its end, with the bytes of `inputs` fed to sources. It gives what sinks hold: the bytes
/// of all `outputs`, one after the other, and how many each has.
#[unsafe(no_mangle)]
pub extern "C" fn magbelu_bytes_run_items(
    alloc: Global,
    file: &[u8],
    big_endian: u32,
    inputs: &[Input<'_>],
    outputs: &[Output<'_>],
    lens: &mut [u64],
    bytes: &mut [u8],
    error: &mut [u8],
) -> Answer
    ensures { AnswersRun file.now (order_of big_endian) inputs.now outputs.now lens.old lens.new bytes.old bytes.new
        error.old error.new result }
{
    match run_between(alloc, file, order(big_endian), inputs, outputs) {
        Ok(given) => {
            show(&given.lens, lens);
            well(given.status, &given.bytes, bytes)
        }
        Err(fault) => badly_raw(alloc, &fault, error),
    }
}
