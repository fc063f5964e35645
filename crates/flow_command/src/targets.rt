//! Makes the outputs of a run.

use crate::cut::Cut;
use crate::devices::{Device, StandardOutput, Target, Writer};
use crate::ends::{Ends, NamedEnd};
use crate::joins::{PipesOpen, is_pipe, slots};
use crate::late_file::LateFile;
use crate::lengths::size_at;
use crate::limited::Limited;
use crate::stops::{Stop, Stream, unopened};
use byte_io::write_whole;
use flow_core::raw_fault::{EndFault, EndPlace, RawFault};
use flow_core::raw_input::sink_named;
use flowgraph::Valid;
use kinds::Kind;
use std::fs::{File, OpenOptions};
use std::io::{Seek, SeekFrom};
use std::{fs, io};

/// The writers of a sink, with the numbers of the words that name them.
#[derive(Drop)]
pub struct Targets {
    pub items: Option<Target>,
    pub tags: Option<Target>,
    pub number: usize,
    pub tags_number: usize,
}

impl Targets {
    /// Writes items and the lines of tags, as far as there are outputs for them.
    pub fn write(&mut self, items: &[u8], tags: &[u8]) -> Result<(), Stop> {
        if let Some(target) = &mut self.items {
            if let Err(error) = write_whole(target, items) {
                return Err(unwritten(EndPlace::Output(self.number), error));
            }
        }
        if let Some(target) = &mut self.tags {
            if let Err(error) = write_whole(target, tags) {
                return Err(unwritten(EndPlace::Tags(self.tags_number), error));
            }
        }
        Ok(())
    }
}

// Why a run stops if a write to the output at this place failed.
fn unwritten(place: EndPlace, error: io::Error) -> Stop {
    Stop::Raw {
        fault: RawFault::End(place, EndFault::Write),
        reason: Some(error),
    }
}

/// Makes the outputs of each sink, in their order. If a name is refused it makes no file, so none is emptied.
pub fn make_outputs<R: Drop>(
    rt: &HostRuntime,
    run: &Stream<R>,
    ends: &Ends<'_>,
    cut: &Cut,
    pipes: PipesOpen,
) -> Result<Vec<Option<Targets>>, Stop> {
    test_names(run.plant.graph(), ends)?;
    let mut targets = slots::<Targets>(rt.alloc(), run.plant.graph().len())?;
    for (number, end) in ends.outputs.iter().enumerate() {
        let place = EndPlace::Output(number);
        let sink = sink_named(run.plant.graph(), place, end.block.as_bytes())?;
        let written = cut.written(sink);
        let size = size_at(run.plant.graph(), sink);
        let writer = match written.held {
            Some(held) => resume(rt, end, place, held.items.saturating_mul(size))?,
            None => create(rt, end, place, pipes)?,
        };
        let target = Limited::new(writer, written.most.saturating_mul(size));
        if let Some(slot) = targets.get_mut(sink.0 as usize) {
            *slot = Some(Targets {
                items: Some(target),
                tags: None,
                number,
                tags_number: 0,
            });
        }
    }
    add_tags(rt, run, ends, cut, pipes, &mut targets)?;
    Ok(targets)
}

// Makes the outputs of tags.
fn add_tags<R: Drop>(
    rt: &HostRuntime,
    run: &Stream<R>,
    ends: &Ends<'_>,
    cut: &Cut,
    pipes: PipesOpen,
    targets: &mut [Option<Targets>],
) -> Result<(), Stop> {
    for (number, end) in ends.tags.iter().enumerate() {
        let place = EndPlace::Tags(number);
        let sink = sink_named(run.plant.graph(), place, end.block.as_bytes())?;
        let writer = match cut.written(sink).held {
            Some(held) => resume(rt, end, place, held.tag_bytes)?,
            None => create(rt, end, place, pipes)?,
        };
        let target = Limited::new(writer, u64::MAX);
        if let Some(slot) = targets.get_mut(sink.0 as usize) {
            let (items, items_number) = match slot.take() {
                Some(targets) => (targets.items, targets.number),
                None => (None, 0),
            };
            *slot = Some(Targets {
                items,
                tags: Some(target),
                number: items_number,
                tags_number: number,
            });
        }
    }
    Ok(())
}

// Whether each output names a sink.
fn test_names(graph: &Valid<Kind>, ends: &Ends<'_>) -> Result<(), RawFault> {
    for (number, end) in ends.outputs.iter().enumerate() {
        match sink_named(graph, EndPlace::Output(number), end.block.as_bytes()) {
            Ok(_sink) => {}
            Err(fault) => return Err(fault),
        }
    }
    for (number, end) in ends.tags.iter().enumerate() {
        match sink_named(graph, EndPlace::Tags(number), end.block.as_bytes()) {
            Ok(_sink) => {}
            Err(fault) => return Err(fault),
        }
    }
    Ok(())
}

fn create(
    rt: &HostRuntime,
    end: &NamedEnd<'_>,
    place: EndPlace,
    pipes: PipesOpen,
) -> Result<Writer, Stop> {
    if end.is_standard() {
        return Ok(Device::Standard(StandardOutput(*rt)));
    }
    if pipes == PipesOpen::AtFirstUse && is_pipe(rt, end.path) {
        let path = String::from_str(rt.alloc(), end.path)?;
        return Ok(Device::File(LateFile::Pipe(*rt, path)));
    }
    match fs::create(rt, end.path) {
        Ok(file) => Ok(Device::File(LateFile::Open(file))),
        Err(error) => Err(unopened(error, place, EndFault::Write)),
    }
}

// Opens an output that exists, to continue it after so many bytes. It cuts off what is after these.
fn resume(
    rt: &HostRuntime,
    end: &NamedEnd<'_>,
    place: EndPlace,
    bytes: u64,
) -> Result<Writer, Stop> {
    match reopened(rt, end.path, bytes) {
        Ok(file) => Ok(Device::File(LateFile::Open(file))),
        Err(error) => Err(unopened(error, place, EndFault::Write)),
    }
}

fn reopened(rt: &HostRuntime, path: &str, bytes: u64) -> io::Result<File> {
    let mut options = OpenOptions::new();
    options.write(true).create(true);
    let mut file = options.open(rt, path)?;
    file.set_len(bytes)?;
    file.seek(SeekFrom::Start(bytes))?;
    Ok(file)
}
