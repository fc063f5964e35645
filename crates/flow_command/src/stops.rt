//! Why a run between files stops, and the message about it.

use crate::devices::{Chain, Target};
use crate::ends::{Ends, NamedEnd};
use crate::explaining::{explain_device, explain_end, explain_file};
use crate::gone_reader::{OUTPUT, is_gone};
use crate::words::Call;
use flow_core::fault::Fault;
use flow_core::raw_fault::{EndFault, EndPlace, RawFault};
use flow_core::script::ScriptFault;
use flowgraph::{BlockId, Valid};
use kinds::Kind;
use pipeline::{End, Pipeline, PipelineFault, PlantFault};
use reader_threads::ApartReader;
use std::alloc::AllocError;
use std::io::{Error, ErrorKind};
use threads::RunError;
use writer_threads::ApartWriter;

/// A run between files.
pub type Stream<R> = Pipeline<Kind, ApartReader<Chain, R>, ApartWriter<Target, R>>;

/// Why a run stops.
#[derive(Drop)]
pub enum Stop {
    /// By a fault of the run with raw items, and why a device failed, if one did.
    Raw {
        fault: RawFault,
        reason: Option<Error>,
    },
    /// By a thread.
    Run(RunError),
}

impl From<RawFault> for Stop {
    fn from(fault: RawFault) -> Stop {
        Stop::Raw {
            fault,
            reason: None,
        }
    }
}

impl From<AllocError> for Stop {
    fn from(refusal: AllocError) -> Stop {
        Stop::from(RawFault::from(refusal))
    }
}

/// Why a run stops if a file could not be opened.
pub fn unopened(error: Error, place: EndPlace, fault: EndFault) -> Stop {
    let fault = match error.kind() {
        ErrorKind::OutOfMemory => RawFault::Whole(Fault::Script(ScriptFault::Memory)),
        _ => RawFault::End(place, fault),
    };
    Stop::Raw {
        fault,
        reason: Some(error),
    }
}

/// Why a run stops by a fault of its pipeline.
pub fn stop_of<R: Drop>(run: &Stream<R>, ends: &Ends<'_>, fault: PipelineFault) -> Stop {
    let graph = run.plant.graph();
    let (place, fault, reason) = match fault {
        PipelineFault::Memory | PipelineFault::Joined(_) | PipelineFault::NotJoined(_) =>
            return Stop::from(AllocError),
        PipelineFault::Plant(block, why) => match end_fault(why) {
            Some(fault) => (input_place(run, block), fault, None),
            None => return Stop::from(AllocError),
        },
        PipelineFault::Read(block, error) => (input_place(run, block), EndFault::Read, Some(error)),
        PipelineFault::CutItem(block) => (input_place(run, block), EndFault::CutItem, None),
        PipelineFault::ReadMarks(block, error) => {
            (marks_place(graph, ends, block), EndFault::Read, Some(error))
        }
        PipelineFault::BadMark(block, line) => {
            (
                marks_place(graph, ends, block),
                EndFault::BadLine(line),
                None,
            )
        }
        PipelineFault::MarkPlace(block, line) => {
            (
                marks_place(graph, ends, block),
                EndFault::TagPlace(line),
                None,
            )
        }
        PipelineFault::WriteItems(block, error) => {
            let number = number_of(&ends.outputs, name_of(graph, block));
            (EndPlace::Output(number), EndFault::Write, Some(error))
        }
        PipelineFault::WriteTags(block, error) => {
            let number = number_of(&ends.tags, name_of(graph, block));
            (EndPlace::Tags(number), EndFault::Write, Some(error))
        }
    };
    Stop::Raw {
        fault: RawFault::End(place, fault),
        reason,
    }
}

// The input of a source that was read last.
fn input_place<R: Drop>(run: &Stream<R>, block: BlockId) -> EndPlace {
    match run.ends.get(block.0 as usize) {
        Some(End::Input(input)) => EndPlace::Input(input.reader().number()),
        _ => EndPlace::Input(0),
    }
}

// The input of the marks of a source.
fn marks_place(graph: &Valid<Kind>, ends: &Ends<'_>, block: BlockId) -> EndPlace {
    EndPlace::Marks(number_of(&ends.marks, name_of(graph, block)))
}

/// The name of a block; empty if there is no such block.
pub fn name_of(graph: &Valid<Kind>, block: BlockId) -> &[u8] {
    if (block.0 as usize) < graph.len() {
        graph.name(block)
    } else {
        b""
    }
}

// The number of the word that names a block.
fn number_of(ends: &[NamedEnd<'_>], name: &[u8]) -> usize {
    for (number, end) in ends.iter().enumerate() {
        if end.block.as_bytes() == name {
            return number;
        }
    }
    0
}

// What is wrong at an input, unless memory ran out.
fn end_fault(fault: PlantFault) -> Option<EndFault> {
    match fault {
        PlantFault::NoSuchBlock => Some(EndFault::NoSuchBlock),
        PlantFault::NotSource => Some(EndFault::NotSource),
        PlantFault::NotSink => Some(EndFault::NotSink),
        PlantFault::Closed => Some(EndFault::Closed),
        PlantFault::TapeFull => Some(EndFault::TapeFull),
        _ => None,
    }
}

/// The name of the file or stream whose reader has gone away, if the run stopped for that.
pub fn unread_name<'a>(
    fault: &RawFault,
    reason: &Option<Error>,
    ends: &Ends<'a>,
) -> Option<&'a str> {
    match reason {
        Some(error) if is_gone(error) => {}
        _ => return None,
    }
    let end = match fault {
        RawFault::End(place, _) => end_at(ends, *place)?,
        // (the report of the run)
        RawFault::Whole(_) => return Some(OUTPUT),
    };
    if end.is_standard() {
        Some(OUTPUT)
    } else {
        Some(end.path)
    }
}

/// The place of a fault: the graph file of that name, or the word for an end. It is empty if neither is to blame, or if
/// memory runs out.
pub fn found_in(rt: &HostRuntime, ends: &Ends<'_>, file: &str, fault: &RawFault) -> String {
    let word = match fault {
        RawFault::Whole(fault) => String::from_str(rt.alloc(), fault.found_in(file)).ok(),
        RawFault::End(place, _) => word_at(rt, ends, *place),
    };
    match word {
        Some(word) => word,
        None => String::new(rt.alloc()),
    }
}

// The word for an end; none if memory runs out.
fn word_at(rt: &HostRuntime, ends: &Ends<'_>, place: EndPlace) -> Option<String> {
    let NamedEnd { block, path } = end_at(ends, place)?;
    format!(in rt.alloc(); "{block}={path}").ok()
}

// What the word for an end names.
fn end_at<'a>(ends: &Ends<'a>, place: EndPlace) -> Option<NamedEnd<'a>> {
    let end = match place {
        EndPlace::Input(number) => ends.inputs.get(number),
        EndPlace::Output(number) => ends.outputs.get(number),
        EndPlace::Tags(number) => ends.tags.get(number),
        EndPlace::Marks(number) => ends.marks.get(number),
    };
    end.copied()
}

/// Shows what follows a fault: also why a device failed, if one did.
pub fn explain(
    rt: &HostRuntime,
    call: &Call<'_>,
    file: &[u8],
    fault: &RawFault,
    reason: Option<Error>,
) {
    let (place, fault) = match fault {
        RawFault::Whole(Fault::File(_)) => {
            let _is_refused = explain_file(rt, call, file);
            return;
        }
        // (the report of the run could not be written)
        RawFault::Whole(Fault::Script(ScriptFault::Write)) => {
            if let Some(error) = reason {
                explain_device(rt, OUTPUT, &error);
            }
            return;
        }
        RawFault::Whole(_) => return,
        RawFault::End(place, fault) => (*place, *fault),
    };
    let Some(word) = word_at(rt, &call.ends, place) else {
        return;
    };
    match reason {
        Some(error) => explain_device(rt, word.as_str(), &error),
        None => explain_end(rt, word.as_str(), meaning(fault)),
    }
}

// What is wrong with the thing that a word names.
fn meaning(fault: EndFault) -> &'static str {
    match fault {
        EndFault::NoSuchBlock => "no block of the graph has this name",
        EndFault::NotSource => "the block is no vector_source",
        EndFault::NotSink => "the block is no vector_sink",
        EndFault::Closed => "the source is closed",
        EndFault::TapeFull => "the tape would be longer than its graph allows",
        EndFault::Read => "it cannot be read",
        EndFault::Write => "it cannot be written",
        EndFault::CutItem => "it ends within an item of the source's type",
        EndFault::BadLine(_) => "the line is neither @OFFSET:KEY=VALUE nor until N",
        EndFault::TagPlace(_) =>
            "the offset is less than that of the line above, or of no item of the input",
    }
}
