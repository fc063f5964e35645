//! The command `script`: does the lines of an input one by one, and replies to each that asks something.

ghost use Rattle.std.specs.Prelude.{◌≡◌, ◌+◌, ◌-◌, ◌^◌, ◌<◌, ◌≤◌, suc, [], ◌∷◌, IfOk, IfErr, OnOk};
ghost use Rattle.script_text.specs.Lines.{most_lines};
ghost use Rattle.script_text.specs.Splits.{IsUnfinished};
ghost use Rattle.script_text.specs.Scripts.{said_of};
ghost use Rattle.script_text.specs.Grammar.{Says, IsAskable};
ghost use Rattle.script_text.specs.Commands.{command_seen};
ghost use Rattle.flow_core.specs.Session.{Answers, graph_of, standing_of, in_state, none_kept};
ghost use Rattle.flow_core.specs.Script.{Answered, Stops, Unwritten, Proceeds, Went, Ends, RunEndsIn, Breaks, failed_reads, failed_writes};
ghost use Rattle.flow_core.specs.Serve.{IsScript, StopsScript, reads_in, writes_in};
ghost use Rattle.flow_core.specs.declared.script.ScriptFault.TheVariants.{Memory};

use crate::answerer::Answerer;
use crate::fault::Fault;
use crate::opening::open_plant;
use crate::session::Session;
use block_trait::Block;
use byte_io::{ByteIn, ByteOut};
use plant::Plant;
use refusal_codes::{Refusal, RefusalText, TextPart};
use script_text::{Command, Line, LineSplitter, last_line, next_line};
use std::alloc::{AllocError, Global};
use std::fmt;
use thiserror::Error;

const PIECE: usize = 4096;

/// Why a script stopped.
#[derive(Clone, Copy, Debug, PartialEq, Eq, Error)]
pub enum ScriptFault {
    /// The line of this number, counted from 1, is no command.
    BadLine(u64),
    /// A read failed.
    Read,
    /// A write failed.
    Write,
    /// Memory ran out.
    Memory,
}

impl Refusal for ScriptFault {
    ghost use Rattle.flow_core.specs.Faults.{script_row};

    ghost row = { script_row };

    fn row(&self) -> (u32, &'static str) {
        match self {
            ScriptFault::BadLine(_) => (50, "BadLine"),
            ScriptFault::Read => (51, "Read"),
            ScriptFault::Write => (52, "Write"),
            ScriptFault::Memory => (32, "Memory"),
        }
    }
}

impl ScriptFault {
    ghost use Rattle.refusal_codes.specs.Texts.{refusal_text};
    ghost use Rattle.flow_core.specs.Faults.{script_fault_text};

    /// The text of the fault in parts. It takes no memory.
    pub fn refusal_text(&self) -> RefusalText<'static>
        ensures { refusal_text result ≡ script_fault_text self.now }
    {
        match self {
            ScriptFault::BadLine(number) => RefusalText::of(
                self.row(),
                [
                    TextPart::Text(" "),
                    TextPart::Number(*number),
                    TextPart::Text(""),
                ],
            ),
            ScriptFault::Read | ScriptFault::Write | ScriptFault::Memory => {
                RefusalText::alone(self.row())
            }
        }
    }
}

impl fmt::Display for ScriptFault {
    ghost use Rattle.std.specs.Prelude.{Some};
    ghost use Rattle.flow_core.specs.Faults.{script_fault_text};

    ghost output = { λ fault. Some (script_fault_text fault) };

    fn fmt<W: fmt::Write>(&self, f: &mut fmt::Formatter<W>) -> fmt::Result {
        let text = self.refusal_text();
        write!(f, "{text}")
    }
}

impl From<AllocError> for ScriptFault {
    ghost from_gives = { λ _ e. e ≡ Memory };

    fn from(_refusal: AllocError) -> ScriptFault {
        ScriptFault::Memory
    }
}

/// Does the commands of the input on the plant of a file, and writes the replies. It starts no thread and waits for
/// none.
pub fn run_script<I: ByteIn, O: ByteOut>(
    alloc: Global,
    file: &[u8],
    input: &mut I,
    output: &mut O,
) -> Result<u8, Fault>
    requires reads { I.failed input.old < 2 ^ 64 - 1 }
    requires writes { O.failed output.old < 2 ^ 64 - 1 }
    ensures does { IfOk result (λ status. IsScript file.now (I.remaining input.old) (I.remaining input.new)
        (O.contents output.old) (O.contents output.new) × (status ≡ 0)) }
    ensures does_not { IfErr result (StopsScript file.now (I.remaining input.old) (I.remaining input.new)
        (O.contents output.old) (O.contents output.new)) }
    ensures failed_reads { I.failed input.new ≡ I.failed input.old + reads_in result }
    ensures failed_writes { O.failed output.new ≡ O.failed output.old + writes_in result }
{
    let plant = match open_plant(alloc, file) {
        Ok(plant) => plant,
        Err(fault) => return Err(Fault::File(fault)),
    };
    match script(alloc, plant, input, output) {
        Ok(_done) => Ok(0),
        Err(fault) => Err(Fault::Script(fault)),
    }
}

/// Reads a script to its end, does what its lines say, and writes a reply to each line that asks something. If it stops
/// at a bad line, or because memory ran out at a command, the replies to all lines before that one were written. If a
/// read fails, the replies to all whole lines that were read were written. No bad line takes memory, and no line is
/// read before all memory for lines and jobs is there.
pub fn script<B: Block, I: ByteIn, O: ByteOut>(
    alloc: Global,
    plant: Plant<B>,
    input: &mut I,
    output: &mut O,
) -> Result<Plant<B>, ScriptFault>
    requires reads { I.failed input.old < 2 ^ 64 - 1 }
    requires writes { O.failed output.old < 2 ^ 64 - 1 }
    ensures ends { IfOk result (λ p. RunEndsIn (graph_of B.meaning plant) (standing_of plant (none_kept plant)) p.state
        (I.remaining input.old) (I.remaining input.new) (O.contents output.old) (O.contents output.new)) }
    ensures same { IfOk result (λ p. p ≡ in_state plant p.state) }
    ensures breaks { IfErr result (λ fault. Breaks (Answers (graph_of B.meaning plant))
        (standing_of plant (none_kept plant)) (I.remaining input.old) (I.remaining input.new) (O.contents output.old)
        (O.contents output.new) fault) }
    ensures failed_reads { I.failed input.new ≡ I.failed input.old + failed_reads result }
    ensures failed_writes { O.failed output.new ≡ O.failed output.old + failed_writes result }
{
    let mut session = Session::new(alloc, plant)?;
    let mut lines = LineSplitter::new(alloc)?;
    answer_all(&(), alloc, &mut session, &mut lines, input, output)?;
    Ok(session.into_plant())
}

/// Answers all lines, up to the end of the reader.
pub fn answer_all<H, A: Answerer<H>, I: ByteIn, O: ByteOut>(
    handle: &H,
    alloc: Global,
    session: &mut A,
    lines: &mut LineSplitter,
    input: &mut I,
    output: &mut O,
) -> Result<(), ScriptFault>
    requires none { lines.old ≡ record { rest = []; line = []; taken = 0 } }
    requires reads { I.failed input.old < 2 ^ 64 - 1 }
    requires writes { O.failed output.old < 2 ^ 64 - 1 }
    ensures ends { OnOk result (Ends A.answers session.old session.new (I.remaining input.old) (I.remaining input.new)
        (O.contents output.old) (O.contents output.new)) }
    ensures breaks { IfErr result (λ fault. Breaks A.answers session.old (I.remaining input.old) (I.remaining input.new)
        (O.contents output.old) (O.contents output.new) fault) }
    ensures failed_reads { I.failed input.new ≡ I.failed input.old + failed_reads result }
    ensures failed_writes { O.failed output.new ≡ O.failed output.old + failed_writes result }
{
    let mut buffer = [0; PIECE];
    for _pieces in 0..u64::MAX {
        let Ok(read) = input.read(&mut buffer) else {
            return Err(ScriptFault::Read);
        };
        if read == 0 {
            return answer_last(handle, alloc, session, lines, output);
        }
        lines.push(&buffer[..read]);
        answer_lines(handle, alloc, session, lines, output)?;
    }
    // (among so many pieces there is a bad line: the number of lines is limited, and so is the length of each)
    Err(ScriptFault::Memory)
}

// Answers each line whose end has come.
fn answer_lines<H, A: Answerer<H>, O: ByteOut>(
    handle: &H,
    alloc: Global,
    session: &mut A,
    lines: &mut LineSplitter,
    output: &mut O,
) -> Result<(), ScriptFault>
    requires low { lines.old.taken ≤ most_lines }
    requires writes { O.failed output.old < 2 ^ 64 - 1 }
    ensures went { OnOk result (Went A.answers session.old session.new (O.contents output.old) (O.contents output.new)
        lines.old lines.new) }
    ensures unfinished { OnOk result (IsUnfinished lines.new.rest) }
    ensures stops { IfErr result (λ fault. Stops A.answers session.old (O.contents output.old) (O.contents output.new)
        (said_of lines.old) lines.old.taken fault) }
    ensures failed_reads { failed_reads result ≡ 0 }
    ensures failed_writes { O.failed output.new ≡ O.failed output.old + failed_writes result }
{
    loop {
        match answer_next(handle, alloc, session, lines, output) {
            Ok(true) => {}
            Ok(false) => return Ok(()),
            Err(fault) => return Err(fault),
        }
    }
}

// Answers the next line, if its end has come, and returns whether it has.
fn answer_next<H, A: Answerer<H>, O: ByteOut>(
    handle: &H,
    alloc: Global,
    session: &mut A,
    lines: &mut LineSplitter,
    output: &mut O,
) -> Result<bool, ScriptFault>
    requires low { lines.old.taken ≤ most_lines }
    requires writes { O.failed output.old < 2 ^ 64 - 1 }
    ensures proceeds { IfOk result (λ came. Proceeds A.answers session.old session.new (O.contents output.old)
        (O.contents output.new) lines.old lines.new came) }
    ensures stops { IfErr result (λ fault. Stops A.answers session.old (O.contents output.old) (O.contents output.new)
        (said_of lines.old) lines.old.taken fault) }
    ensures failed_reads { failed_reads result ≡ 0 }
    ensures failed_writes { O.failed output.new ≡ O.failed output.old + failed_writes result }
{
    let number = lines.taken() + 1;
    match next_line(alloc, lines)? {
        None => Ok(false),
        Some(Line::Nothing) => Ok(true),
        Some(Line::Bad) => Err(ScriptFault::BadLine(number)),
        Some(Line::Command(command)) => {
            match answer_command(handle, alloc, session, &command, number, output) {
                Ok(()) => Ok(true),
                Err(fault) => Err(fault),
            }
        }
    }
}

// Answers the line that the end of the bytes ends, if there is one.
fn answer_last<H, A: Answerer<H>, O: ByteOut>(
    handle: &H,
    alloc: Global,
    session: &mut A,
    lines: &LineSplitter,
    output: &mut O,
) -> Result<(), ScriptFault>
    requires low { lines.now.taken ≤ most_lines }
    requires unfinished { IsUnfinished lines.now.rest }
    requires writes { O.failed output.old < 2 ^ 64 - 1 }
    ensures answered { OnOk result (Answered A.answers session.old session.new (O.contents output.old)
        (O.contents output.new) (said_of lines.now [])) }
    ensures stops { IfErr result (λ fault. Stops A.answers session.old (O.contents output.old) (O.contents output.new)
        (λ more. said_of lines.now []) lines.now.taken fault) }
    ensures failed_reads { failed_reads result ≡ 0 }
    ensures failed_writes { O.failed output.new ≡ O.failed output.old + failed_writes result }
{
    let last = lines.taken() + 1;
    match last_line(alloc, lines)? {
        None | Some(Line::Nothing) => Ok(()),
        Some(Line::Bad) => Err(ScriptFault::BadLine(last)),
        Some(Line::Command(command)) => {
            answer_command(handle, alloc, session, &command, last, output)
        }
    }
}

// Does the command in the line of this number, and writes its reply.
fn answer_command<H, A: Answerer<H>, O: ByteOut>(
    handle: &H,
    alloc: Global,
    session: &mut A,
    command: &Command,
    number: u64,
    output: &mut O,
) -> Result<(), ScriptFault>
    requires askable { IsAskable (command_seen command.now) }
    requires writes { O.failed output.old < 2 ^ 64 - 1 }
    ensures answered { OnOk result (Answered A.answers session.old session.new (O.contents output.old)
        (O.contents output.new) (Says (command_seen command.now) ∷ [])) }
    ensures unwritten { IfErr result (λ fault. Unwritten A.answers (command_seen command.now) number session.old
        session.new (O.contents output.old) (O.contents output.new) fault) }
    ensures failed_reads { failed_reads result ≡ 0 }
    ensures failed_writes { O.failed output.new ≡ O.failed output.old + failed_writes result }
{
    let Some(line) = session.answer(handle, alloc, command)? else {
        return Err(ScriptFault::BadLine(number));
    };
    match output.write(&line) {
        Ok(()) => Ok(()),
        Err(_) => Err(ScriptFault::Write),
    }
}
