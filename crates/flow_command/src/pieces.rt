//! Runs in pieces: threads run slices on what is read, and leave the rest to the run itself.

use crate::cut::Cut;
use crate::devices::Chain;
use crate::ends::Ends;
use crate::joins::Opened;
use crate::later::later_plant;
use crate::lengths::size_at;
use crate::rest::Rest;
use crate::stops::Stop;
use crate::targets::Targets;
use crate::team::Team;
use flow_core::opening::open_stream;
use flowgraph::{BlockId, Valid};
use kinds::Kind;
use plant::Watch;
use slice_threads::{
    Cutting, Feed, Feeds, Given, Job, Left, Marks, Opens, Outlet, Readers, Share, Stride, Tapes,
    run_slices,
};
use std::alloc::{AllocError, Global};
use std::mem;
use std::sync::Wait;
use std::thread::Threads;
use streaming::StreamingPlant;

/// Runs slices on pieces of what is read, as long as there are whole pieces, and writes what they give. It gives back
/// what was read and is in no piece.
pub fn run_pieces<R: Threads + Wait + Copy + Send + 'static, W: Watch>(
    threads: R,
    alloc: Global,
    file: &[u8],
    graph: &Valid<Kind>,
    ends: &Ends<'_>,
    cut: &Cut,
    team: &Team,
    opened: &mut Opened,
    watch: &mut W,
) -> Result<Rest, Stop> {
    let tapes = tapes_of(alloc, graph, cut, team, opened)?;
    let job = job_of(alloc, graph, ends, cut, team)?;
    let files = Files(mem::replace(&mut opened.targets, Vec::new(alloc)));
    let openers = openers(alloc, file, team.jobs)?;
    let left = run_slices(threads, alloc, openers, job, tapes, files, watch)?;
    rest_of(alloc, graph, cut, team, left, opened)
}

// What is left of the run after the pieces.
fn rest_of(
    alloc: Global,
    graph: &Valid<Kind>,
    cut: &Cut,
    team: &Team,
    left: Left<Chain, Files>,
    opened: &mut Opened,
) -> Result<Rest, Stop> {
    let Left {
        feeds,
        readers,
        outlet,
        parts,
        given,
    } = left;
    opened.targets = outlet.0;
    let mut rest = Rest::whole(alloc, graph, cut)?;
    for (at, sink) in team.plan.sinks.iter().enumerate() {
        if let (Some(part), Some(given)) = (parts.get(at), given.get(at)) {
            rest.go_on(sink.block, *given, *part);
        }
    }
    give_back(alloc, feeds, readers, opened, &mut rest)?;
    Ok(rest)
}

// What is read of each source, and by which reader.
fn tapes_of(
    alloc: Global,
    graph: &Valid<Kind>,
    cut: &Cut,
    team: &Team,
    opened: &mut Opened,
) -> Result<Tapes<Chain>, AllocError> {
    let mut may_wait = false;
    let mut feeds = Vec::with_capacity(alloc, team.plan.sources.len())?;
    let mut readers = Vec::with_capacity(alloc, team.plan.sources.len())?;
    for source in &team.plan.sources {
        let Some(tape) = taken(&mut opened.tapes, source.block) else {
            continue;
        };
        let marks = taken(&mut opened.marks, source.block);
        may_wait |= tape.may_be_silent()
            || marks.as_ref().is_some_and(|marks| marks.may_be_silent());
        let stride = Stride {
            source: source.block,
            item_size: size_at(graph, source.block),
            period: source.period,
        };
        let lines = if marks.is_some() {
            Some(Marks::new(alloc))
        } else {
            None
        };
        feeds.push(Feed::new(alloc, stride, lines))?;
        readers.push(Readers { tape, marks })?;
    }
    let cutting = Cutting {
        begins: cut.begins,
        overlap: team.plan.overlap,
        most: team.iterations,
    };
    Ok(Tapes {
        feeds: Feeds::new(feeds, cutting),
        readers,
        may_wait,
    })
}

// The entry of a block.
fn taken<T: Drop>(slots: &mut [Option<T>], block: BlockId) -> Option<T> {
    slots.get_mut(block.0 as usize)?.take()
}

fn put<T: Drop>(slots: &mut [Option<T>], block: BlockId, value: Option<T>) {
    if let Some(slot) = slots.get_mut(block.0 as usize) {
        *slot = value;
    }
}

fn job_of(
    alloc: Global,
    graph: &Valid<Kind>,
    ends: &Ends<'_>,
    cut: &Cut,
    team: &Team,
) -> Result<Job, AllocError> {
    let mut shares = Vec::with_capacity(alloc, team.plan.sinks.len())?;
    for sink in &team.plan.sinks {
        let written = cut.written(sink.block);
        shares.push(Share {
            sink: sink.block,
            item_size: size_at(graph, sink.block),
            period: sink.period,
            drop: sink.drop,
            from: written.origin.saturating_add(written.left_out),
            has_tags: !ends.tags.is_empty(),
        })?;
    }
    Ok(Job {
        order: ends.order,
        shares,
    })
}

// The text of a graph file that is not refused.
#[derive(Drop)]
struct GraphText(Vec<u8>);

impl Opens for GraphText {
    type Block = Kind;

    fn open(&self, alloc: Global, iterations: u64) -> Result<StreamingPlant<Kind>, AllocError> {
        let Ok(plant) = open_stream(alloc, &self.0) else {
            return Err(AllocError);
        };
        match later_plant(alloc, &self.0, plant.graph(), iterations)? {
            Some(later) => Ok(later),
            None => Ok(plant),
        }
    }
}

fn openers(alloc: Global, file: &[u8], count: usize) -> Result<Vec<GraphText>, AllocError> {
    let mut openers = Vec::with_capacity(alloc, count)?;
    for _ in 0..count {
        let mut text = Vec::with_capacity(alloc, file.len())?;
        text.extend_from_slice(file)?;
        openers.push(GraphText(text))?;
    }
    Ok(openers)
}

// Has what was read and is in no piece read again.
fn give_back(
    alloc: Global,
    feeds: Feeds,
    readers: Vec<Readers<Chain>>,
    opened: &mut Opened,
    rest: &mut Rest,
) -> Result<(), AllocError> {
    let first = feeds.first();
    rest.begin_at(first);
    for (feed, readers) in feeds.feeds.into_iter().zip(readers) {
        let stride = feed.stride;
        let Readers { tape, marks } = readers;
        let (unread, unread_marks) = feed.into_rest(alloc)?;
        let (mut tape, mut marks) = (tape, marks);
        tape.give_back(unread);
        let mut lines = 0;
        if let (Some(marks), Some(unread)) = (&mut marks, unread_marks) {
            let (unread, passed) = unread.into_rest();
            marks.give_back(unread);
            lines = passed;
        }
        rest.begin(stride.source, first.saturating_mul(stride.period), lines);
        put(&mut opened.tapes, stride.source, Some(tape));
        put(&mut opened.marks, stride.source, marks);
    }
    Ok(())
}

// The outputs, by block.
#[derive(Drop)]
struct Files(Vec<Option<Targets>>);

impl Outlet for Files {
    type Fault = Stop;

    fn write(&mut self, sink: BlockId, given: &Given) -> Result<(), Stop> {
        match self.0.get_mut(sink.0 as usize) {
            Some(Some(targets)) => targets.write(&given.items, &given.tags),
            _ => Ok(()),
        }
    }
}
