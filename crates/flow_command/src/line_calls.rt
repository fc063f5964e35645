//! Requests of lines to a run between files, and the replies.

use crate::stops::name_of;
use flow_core::session::calls::value_for;
use flowgraph::{Block, BlockId, Valid};
use kinds::Kind;
use pipeline::{Answer, Closed, Levels, PlantFault, Taken, Told};
use refusal_codes::Refusal;
use request_box::{CallFault, Caller};
use run_stats::Meter;
use script_text::{Command, Line, Reply, parse_line};
use std::alloc::{AllocError, Global};
use std::sync::Wait;
use stream_model::Wanted;

// The number that refuses a line that asks for nothing a stream answers, and the number of a lack of memory.
const BAD_LINE: u32 = 50;

const NO_MEMORY: u32 = 32;

/// A block, as lines name it.
#[derive(Drop)]
struct Named {
    name: String,
    // What it may be set to, if it has a setting.
    setting: Option<Wanted>,
}

/// What lines need to know of the blocks of a graph.
#[derive(Drop)]
pub struct Blocks {
    blocks: Vec<Named>,
}

impl Blocks {
    /// The blocks of this graph.
    pub fn of(alloc: Global, graph: &Valid<Kind>) -> Result<Blocks, AllocError> {
        let mut blocks = Vec::with_capacity(alloc, graph.len())?;
        for block in 0..graph.len() {
            let id = BlockId(block as u32);
            let name = std::str::from_utf8(name_of(graph, id)).unwrap_or("");
            blocks.push(Named {
                name: String::from_str(alloc, name)?,
                setting: graph.block(id).setting(),
            })?;
        }
        Ok(Blocks { blocks })
    }

    // The block of this name.
    fn find(&self, name: &[u8]) -> Option<(BlockId, &Named)> {
        let mut number = 0u32;
        for block in &self.blocks {
            if block.name.as_bytes() == name {
                return Some((BlockId(number), block));
            }
            number = number.saturating_add(1);
        }
        None
    }
}

/// Whether the next line may get an answer.
#[derive(Clone, Copy, Debug, PartialEq, Eq)]
pub enum Said {
    /// It may: this one got its whole answer.
    All,
    /// It may not: the run is over, or was stopped by this one.
    Ended,
}

/// Makes the calls that a line asks for, and adds each reply as a line. The meter is that of the run, if it has one.
pub fn reply_to<R: Wait + Drop>(
    alloc: Global,
    caller: &Caller<R>,
    blocks: &Blocks,
    meter: Option<&Meter<R>>,
    line: &[u8],
    out: &mut Vec<u8>,
) -> Result<Said, AllocError> {
    match line.trim_ascii() {
        b"levels" => return tell_levels(alloc, caller, blocks, out),
        b"stats" => return tell_stats(alloc, blocks, meter, out),
        b"stop" => return added(alloc, caller.stop(), out),
        _ => {}
    }
    match parse_line(alloc, line)? {
        Line::Nothing => Ok(Said::All),
        Line::Command(Command::Close { name }) => match blocks.find(name.bytes()) {
            Some((source, _)) => added(alloc, caller.close(source), out),
            None => refused(alloc, PlantFault::NoSuchBlock, out),
        },
        Line::Command(Command::Set { name, at, numbers }) => match blocks.find(name.bytes()) {
            Some((block, named)) => match value_of(alloc, named, &numbers) {
                Ok(value) => added(alloc, caller.set(block, at, value), out),
                Err(fault) => refused(alloc, fault, out),
            },
            None => refused(alloc, PlantFault::NoSuchBlock, out),
        },
        Line::Command(_) | Line::Bad => add(alloc, Reply::Refused(BAD_LINE), out),
    }
}

// The value of these numbers for the setting of a block.
fn value_of(alloc: Global, block: &Named, numbers: &[i64]) -> Result<settings::Value, PlantFault> {
    match block.setting {
        Some(wanted) => value_for(alloc, wanted, numbers),
        None => Err(PlantFault::NoSetting),
    }
}

// Tells how far each block is, in the order of the file.
fn tell_levels<R: Wait + Drop>(
    alloc: Global,
    caller: &Caller<R>,
    blocks: &Blocks,
    out: &mut Vec<u8>,
) -> Result<Said, AllocError> {
    let mut number = 0u32;
    for block in &blocks.blocks {
        let answer = caller.levels(BlockId(number));
        number = number.saturating_add(1);
        match answer {
            Ok(
                Answer {
                    told: Told::Levels(Ok(levels)),
                    ..
                },
            ) => {
                add_levels(alloc, block.name.as_str(), levels, out)?;
            }
            Ok(_) => {}
            Err(CallFault::Ended) => return Ok(Said::Ended),
            Err(CallFault::Memory) => return Err(AllocError),
        }
    }
    Ok(Said::All)
}

fn add_levels(
    alloc: Global,
    name: &str,
    levels: Levels,
    out: &mut Vec<u8>,
) -> Result<(), AllocError> {
    let Levels {
        taken,
        given,
        waiting,
    } = levels;
    let line = format!(in alloc; "levels {name} {taken} {given} {waiting}\n")?;
    out.extend_from_slice(line.as_bytes())
}

// Tells what each block has done and how long it took, in the order of the file. A run that is not measured refuses it.
fn tell_stats<R: Drop>(
    alloc: Global,
    blocks: &Blocks,
    meter: Option<&Meter<R>>,
    out: &mut Vec<u8>,
) -> Result<Said, AllocError> {
    let Some(meter) = meter else {
        return add(alloc, Reply::Refused(BAD_LINE), out);
    };
    match stats_lines(alloc, blocks, meter) {
        Ok(lines) => {
            out.extend_from_slice(&lines)?;
            Ok(Said::All)
        }
        Err(_) => add(alloc, Reply::Refused(NO_MEMORY), out),
    }
}

// A line for each block: how often it fired, for how many nanoseconds it was at work, and in how many turns.
fn stats_lines<R: Drop>(
    alloc: Global,
    blocks: &Blocks,
    meter: &Meter<R>,
) -> Result<Vec<u8>, AllocError> {
    let stats = meter.stats(alloc)?;
    let mut lines = Vec::new(alloc);
    for (block, figures) in blocks.blocks.iter().zip(&stats.blocks) {
        let name = block.name.as_str();
        let (firings, nanos, turns) = (figures.firings, figures.nanos, figures.turns);
        let line = format!(in alloc; "stats {name} {firings} {nanos} {turns}\n")?;
        lines.extend_from_slice(line.as_bytes())?;
    }
    Ok(lines)
}

// Adds the answer to a call.
fn added(
    alloc: Global,
    answer: Result<Answer, CallFault>,
    out: &mut Vec<u8>,
) -> Result<Said, AllocError> {
    match answer {
        Ok(Answer { told, .. }) => match told {
            Told::Set(Ok(Taken(at))) => add(alloc, Reply::Taken(at), out),
            Told::Closed(Ok(Closed(total))) => add(alloc, Reply::Closed(total), out),
            Told::Set(Err(fault)) | Told::Closed(Err(fault)) | Told::Levels(Err(fault)) => {
                refused(alloc, fault, out)
            }
            Told::Levels(Ok(_)) => Ok(Said::All),
            Told::Stopped => {
                out.extend_from_slice(b"stopped\n")?;
                Ok(Said::Ended)
            }
        },
        Err(CallFault::Ended) => Ok(Said::Ended),
        Err(CallFault::Memory) => add(alloc, Reply::Refused(NO_MEMORY), out),
    }
}

fn refused(alloc: Global, fault: PlantFault, out: &mut Vec<u8>) -> Result<Said, AllocError> {
    match fault {
        PlantFault::Late { floor } => add(alloc, Reply::Late(floor), out),
        fault => add(alloc, Reply::Refused(fault.number()), out),
    }
}

fn add(alloc: Global, reply: Reply<'_>, out: &mut Vec<u8>) -> Result<Said, AllocError> {
    out.extend_from_slice(&reply.to_line(alloc)?)?;
    Ok(Said::All)
}
