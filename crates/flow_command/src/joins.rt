//! Joins the blocks of a run to the files that the words name.

use crate::cut::Cut;
use crate::devices::{Chain, Device, Extent, Source, Target};
use crate::ends::{Ends, NamedEnd};
use crate::late_file::LateFile;
use crate::pipes::{Apart, Pipes, may_be_full};
use crate::rest::Rest;
use crate::stops::{Stop, Stream, stop_of, unopened};
use crate::targets::{Targets, make_outputs};
use flow_core::raw_fault::{EndFault, EndPlace};
use flow_core::raw_input::source_named;
use flowgraph::BlockId;
use pipeline::TapePart;
use raw_items::item_size;
use reader_threads::ApartReader;
use std::alloc::{AllocError, Global};
use std::fs;
use std::os::unix::fs::FileTypeExt;
use std::sync::Wait;
use std::thread::Threads;
use writer_threads::{ApartWriter, Lane};

/// When the run opens a pipe.
#[derive(Clone, Copy, Debug, PartialEq, Eq)]
pub enum PipesOpen {
    /// With the other ends: a pipe whose other side no program has opened holds up the run.
    AtOnce,
    /// At its first read, or its first write or flush.
    AtFirstUse,
}

impl PipesOpen {
    // Late if they have threads.
    fn of(are_apart: bool) -> PipesOpen {
        if are_apart {
            PipesOpen::AtFirstUse
        } else {
            PipesOpen::AtOnce
        }
    }
}

/// What a run reads and writes, by block.
#[derive(Drop)]
pub struct Opened {
    pub tapes: Vec<Option<Chain>>,
    pub marks: Vec<Option<Chain>>,
    pub targets: Vec<Option<Targets>>,
}

impl Opened {
    /// Opens what the words name: the inputs, those of marks, and then the outputs. Pipes with a thread are opened
    /// late.
    pub fn of_words<R: Drop>(
        rt: &HostRuntime,
        run: &Stream<R>,
        ends: &Ends<'_>,
        cut: &Cut,
        apart: Apart,
    ) -> Result<Opened, Stop> {
        let pipes = PipesOpen::of(apart.inputs);
        let tapes = open_inputs(rt, run, ends, cut, pipes)?;
        let marks = open_marks(rt, run, ends, pipes)?;
        let targets = make_outputs(rt, run, ends, cut, PipesOpen::of(apart.outputs))?;
        Ok(Opened {
            tapes,
            marks,
            targets,
        })
    }
}

// Opens the inputs of each source, in their order. The run reads of them what the cut says.
fn open_inputs<R: Drop>(
    rt: &HostRuntime,
    run: &Stream<R>,
    ends: &Ends<'_>,
    cut: &Cut,
    pipes: PipesOpen,
) -> Result<Vec<Option<Chain>>, Stop> {
    let mut chains = slots::<Chain>(rt.alloc(), run.plant.graph().len())?;
    for (number, end) in ends.inputs.iter().enumerate() {
        let place = EndPlace::Input(number);
        let source = source_named(run.plant.graph(), place, end.block.as_bytes())?;
        let size = match run.plant.source_type(source) {
            Ok(item) => item_size(item),
            Err(_) => 1,
        };
        let extent = cut.extent(source);
        // (what lies before the extent is passed over as the input is opened)
        let pipes = if extent.from == 0 {
            pipes
        } else {
            PipesOpen::AtOnce
        };
        let device = open(rt, end, place, pipes)?;
        if let Some(slot) = chains.get_mut(source.0 as usize) {
            let mut chain = match slot.take() {
                Some(chain) => chain,
                None => Chain::new(rt.alloc(), size, extent),
            };
            add_input(&mut chain, number, device, place)?;
            *slot = Some(chain);
        }
    }
    Ok(chains)
}

/// Joins each source to its inputs. If there are threads, one reads for each source that may be silent.
pub fn join_inputs<R: Threads + Wait + Copy + Send + 'static>(
    alloc: Global,
    run: &mut Stream<R>,
    ends: &Ends<'_>,
    chains: Vec<Option<Chain>>,
    pipes: &mut Option<Pipes<R>>,
) -> Result<(), Stop> {
    let mut block = 0u32;
    for chain in chains {
        let source = BlockId(block);
        block = block.saturating_add(1);
        let Some(chain) = chain else {
            continue;
        };
        let reader = match pipes {
            Some(pipes) => pipes.reader(alloc, source, chain)?,
            None => ApartReader::Here(chain),
        };
        if let Err(fault) = run.read_from(alloc, source, ends.order, reader) {
            return Err(stop_of(run, ends, fault));
        }
    }
    Ok(())
}

// Opens the inputs of marks of each source, in their order.
fn open_marks<R: Drop>(
    rt: &HostRuntime,
    run: &Stream<R>,
    ends: &Ends<'_>,
    pipes: PipesOpen,
) -> Result<Vec<Option<Chain>>, Stop> {
    let mut marks = slots::<Chain>(rt.alloc(), run.plant.graph().len())?;
    for (number, end) in ends.marks.iter().enumerate() {
        let place = EndPlace::Marks(number);
        let source = source_named(run.plant.graph(), place, end.block.as_bytes())?;
        let device = open(rt, end, place, pipes)?;
        let mut chain = Chain::new(rt.alloc(), 1, Extent::WHOLE);
        add_input(&mut chain, number, device, place)?;
        if let Some(slot) = marks.get_mut(source.0 as usize) {
            *slot = Some(chain);
        }
    }
    Ok(marks)
}

/// Joins each source to the input of its marks. These sources have inputs.
pub fn join_marks<R: Wait + Drop>(
    alloc: Global,
    run: &mut Stream<R>,
    ends: &Ends<'_>,
    cut: &Cut,
    rest: &Rest,
    marks: Vec<Option<Chain>>,
) -> Result<(), Stop> {
    let mut block = 0u32;
    for chain in marks {
        let source = BlockId(block);
        block = block.saturating_add(1);
        let Some(chain) = chain else {
            continue;
        };
        let part = TapePart {
            origin: rest.origin(source),
            goes_on: cut.goes_on,
        };
        if let Err(fault) = run.mark_part(alloc, source, part, ApartReader::Here(chain)) {
            return Err(stop_of(run, ends, fault));
        }
    }
    Ok(())
}

fn add_input(
    chain: &mut Chain,
    number: usize,
    device: Source,
    place: EndPlace,
) -> Result<(), Stop> {
    match chain.push(number, device) {
        Ok(()) => Ok(()),
        Err(error) => Err(unopened(error, place, EndFault::Read)),
    }
}

/// A sink that keeps its items and tags until the run is over. The tags then go to the file of this number.
#[derive(Drop)]
pub struct Kept<R: Drop> {
    pub sink: BlockId,
    pub number: usize,
    pub target: ApartWriter<Target, R>,
}

/// Joins each sink that has an output of items to it, and returns the others. If there are threads, one writes each
/// output that may wait.
pub fn join_outputs<R: Threads + Wait + Copy + Send + 'static>(
    rt: &HostRuntime,
    run: &mut Stream<R>,
    ends: &Ends<'_>,
    rest: &Rest,
    targets: Vec<Option<Targets>>,
    pipes: &mut Option<Pipes<R>>,
) -> Result<Vec<Kept<R>>, Stop> {
    let mut kept = Vec::new(rt.alloc());
    let mut block = 0u32;
    for slot in targets {
        let sink = BlockId(block);
        block = block.saturating_add(1);
        let Some(targets) = slot else {
            continue;
        };
        let number = targets.tags_number;
        let (items, tags) = writers_of(rt, ends, sink, targets, pipes)?;
        match (items, tags) {
            (None, None) => {}
            (None, Some(target)) => {
                kept.reserve(1)?;
                kept.push_reserved(Kept {
                    sink,
                    number,
                    target,
                });
            }
            (items, tags) => {
                let part = rest.part(sink);
                if let Err(fault) = run.write_part(
                    rt.alloc(),
                    sink,
                    part,
                    ends.order,
                    items,
                    tags,
                ) {
                    return Err(stop_of(run, ends, fault));
                }
            }
        }
    }
    Ok(kept)
}

// The writers of a sink: of its items, and of its tags.
fn writers_of<R: Threads + Wait + Copy + Send + 'static>(
    rt: &HostRuntime,
    ends: &Ends<'_>,
    sink: BlockId,
    targets: Targets,
    pipes: &mut Option<Pipes<R>>,
) -> Result<
    (
        Option<ApartWriter<Target, R>>,
        Option<ApartWriter<Target, R>>,
    ),
    AllocError,
> {
    let Targets {
        items,
        tags,
        number,
        tags_number,
    } = targets;
    let items = match items {
        Some(target) => {
            let end = ends.outputs.get(number);
            Some(writer_at(rt, sink, Lane::Items, target, end, pipes)?)
        }
        None => None,
    };
    let tags = match tags {
        Some(target) => {
            let end = ends.tags.get(tags_number);
            Some(writer_at(rt, sink, Lane::Tags, target, end, pipes)?)
        }
        None => None,
    };
    Ok((items, tags))
}

// The writer at an end.
fn writer_at<R: Threads + Wait + Copy + Send + 'static>(
    rt: &HostRuntime,
    sink: BlockId,
    lane: Lane,
    target: Target,
    end: Option<&NamedEnd<'_>>,
    pipes: &mut Option<Pipes<R>>,
) -> Result<ApartWriter<Target, R>, AllocError> {
    match (pipes, end) {
        (Some(pipes), Some(end)) if may_be_full(rt, end) => {
            pipes.writer(rt.alloc(), sink, lane, target)
        }
        _ => Ok(ApartWriter::Here(target)),
    }
}

/// So many empty places.
pub fn slots<T: Drop>(alloc: Global, count: usize) -> Result<Vec<Option<T>>, AllocError> {
    let mut slots = Vec::new(alloc);
    for _ in 0..count {
        slots.reserve(1)?;
        slots.push_reserved(None);
    }
    Ok(slots)
}

fn open(
    rt: &HostRuntime,
    end: &NamedEnd<'_>,
    place: EndPlace,
    pipes: PipesOpen,
) -> Result<Source, Stop> {
    if end.is_standard() {
        return Ok(Device::Standard(rt.reader()));
    }
    if pipes == PipesOpen::AtFirstUse && is_pipe(rt, end.path) {
        let path = String::from_str(rt.alloc(), end.path)?;
        return Ok(Device::File(LateFile::Pipe(*rt, path)));
    }
    match fs::open(rt, end.path) {
        Ok(file) => Ok(Device::File(LateFile::Open(file))),
        Err(error) => Err(unopened(error, place, EndFault::Read)),
    }
}

/// Whether a path leads to a named pipe.
pub fn is_pipe(rt: &HostRuntime, path: &str) -> bool {
    match fs::metadata(rt, path) {
        Ok(found) => found.file_type().is_fifo(),
        Err(_) => false,
    }
}
