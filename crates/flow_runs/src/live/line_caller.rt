//! A caller that makes the calls that lines ask for.

ghost use Rattle.std.specs.Prelude.{◌-◌, ◌^◌, ◌<◌};
ghost use Rattle.kinds.specs.Kind.{meaning_of};
ghost use Rattle.flow_runs.specs.AtDesk.{AtDesk, with_log};
ghost use Rattle.flow_core.specs.Script.{Finishes};

use crate::live::desk_calls::Waiter;
use byte_io::{ByteIn, ByteOut};
use flow_core::script::{ScriptFault, answer_all};
use kinds::Kind;
use script_text::LineSplitter;
use std::alloc::Global;
use std::sync::Wait;
use threads::{Caller, Desk, Gate};

/// Makes the calls that the lines of an input ask for, and writes the reply to each before it reads on. If it cannot go
/// on, it asks for the end of the run, and keeps the reason.
#[derive(Drop)]
pub(crate) struct LineCaller<'a, I: ByteIn, O: ByteOut> {
    pub(crate) input: &'a mut I,
    pub(crate) output: &'a mut O,
    pub(crate) ended: Result<(), ScriptFault>,
}

impl<I: ByteIn, O: ByteOut> Caller<Kind> for LineCaller<'_, I, O> {
    // Nothing is said of an end whose count of failed calls is the greatest.
    ghost ran = { λ old new desk log. I.failed old.input.now < 2 ^ 64 - 1 → O.failed old.output.now < 2 ^ 64 - 1 →
        Finishes (AtDesk meaning_of) desk (with_log desk log) (I.remaining old.input.now) (I.remaining new.input.now)
        (O.contents old.output.now) (O.contents new.output.now) new.ended };

    fn run<G: Gate + Drop, R: Wait>(&mut self, rt: &R, alloc: Global, desk: &mut Desk<Kind, G>) {
        self.ended = answer(rt, alloc, desk, self.input, self.output);
        if self.ended.is_err() {
            desk.stop(rt);
        }
    }
}

// Answers all lines. An end whose count of failed calls is the greatest is not called again.
fn answer<G: Gate + Drop, R: Wait, I: ByteIn, O: ByteOut>(
    rt: &R,
    alloc: Global,
    desk: &mut Desk<Kind, G>,
    input: &mut I,
    output: &mut O,
) -> Result<(), ScriptFault>
    ensures { I.failed input.old < 2 ^ 64 - 1 → O.failed output.old < 2 ^ 64 - 1 →
        Finishes (AtDesk meaning_of) desk.old (with_log desk.old desk.new.log) (I.remaining input.old)
        (I.remaining input.new) (O.contents output.old) (O.contents output.new) result }
{
    if input.failures() == u64::MAX {
        return Err(ScriptFault::Read);
    }
    if output.failures() == u64::MAX {
        return Err(ScriptFault::Write);
    }
    let mut lines = LineSplitter::new(alloc)?;
    answer_all(&Waiter(rt), alloc, desk, &mut lines, input, output)
}
