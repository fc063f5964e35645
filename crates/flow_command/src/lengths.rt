//! How long the files of a call are.

use crate::ends::{Ends, NamedEnd};
use crate::uncut::Uncut;
use flow_core::raw_fault::EndPlace;
use flow_core::raw_input::source_named;
use flowgraph::{BlockId, Valid};
use kinds::Kind;
use raw_items::item_size;
use std::alloc::{AllocError, Global};
use std::fs;

/// How many bytes the inputs of each block have, up to the first that ends within an item.
pub fn lengths_of_inputs(
    rt: &HostRuntime,
    graph: &Valid<Kind>,
    ends: &Ends<'_>,
) -> Result<Vec<u64>, Uncut> {
    let mut lengths = zeros(rt.alloc(), graph.len())?;
    for (number, end) in ends.inputs.iter().enumerate() {
        // (a bad name or file is refused when it is opened)
        let Ok(source) = source_named(graph, EndPlace::Input(number), end.block.as_bytes()) else {
            continue;
        };
        let Some(found) = length_of(rt, end, Uncut::NoFile(source))? else {
            continue;
        };
        if let Some(length) = lengths.get_mut(source.0 as usize) {
            if *length % size_at(graph, source).max(1) == 0 {
                *length = length.saturating_add(found);
            }
        }
    }
    Ok(lengths)
}

/// Whether all ends that exist are regular files.
pub fn are_files(rt: &HostRuntime, ends: &[NamedEnd<'_>]) -> bool {
    ends.iter().all(|end| match fs::metadata(rt, end.path) {
        Ok(found) => found.is_file() && !end.is_standard(),
        Err(_) => !end.is_standard(),
    })
}

/// How many bytes of whole items the output of a sink has; none if it does not exist.
pub fn length_of_output(
    rt: &HostRuntime,
    graph: &Valid<Kind>,
    ends: &Ends<'_>,
    sink: BlockId,
) -> Result<u64, Uncut> {
    let Some(end) = output_of(graph, ends, sink) else {
        return Err(Uncut::NoOutput(sink));
    };
    let size = size_at(graph, sink).max(1);
    match length_of(rt, end, Uncut::NoFileOut(sink))? {
        Some(length) => Ok(length.saturating_sub(length % size)),
        None => Ok(0),
    }
}

/// The output of a sink, if it has one.
pub fn output_of<'a, 'b>(
    graph: &Valid<Kind>,
    ends: &'b Ends<'a>,
    sink: BlockId,
) -> Option<&'b NamedEnd<'a>> {
    named(graph, &ends.outputs, sink)
}

/// The output of the tags of a sink, if it has one.
pub fn tags_of<'a, 'b>(
    graph: &Valid<Kind>,
    ends: &'b Ends<'a>,
    sink: BlockId,
) -> Option<&'b NamedEnd<'a>> {
    named(graph, &ends.tags, sink)
}

// The first of these ends that is of a block.
fn named<'a, 'b>(
    graph: &Valid<Kind>,
    ends: &'b [NamedEnd<'a>],
    block: BlockId,
) -> Option<&'b NamedEnd<'a>> {
    ends.iter()
        .find(|end| is_block(graph, block, end.block.as_bytes()))
}

/// Whether a source has an input.
pub fn has_input(graph: &Valid<Kind>, ends: &Ends<'_>, source: BlockId) -> bool {
    named(graph, &ends.inputs, source).is_some()
}

/// How long the file at an end is, if it exists. One that is no regular file is refused with this.
pub fn length_of(
    rt: &HostRuntime,
    end: &NamedEnd<'_>,
    refusal: Uncut,
) -> Result<Option<u64>, Uncut> {
    if end.is_standard() {
        return Err(refusal);
    }
    match fs::metadata(rt, end.path) {
        Ok(found) if found.is_file() => Ok(Some(found.len())),
        Ok(_) => Err(refusal),
        Err(_) => Ok(None),
    }
}

fn is_block(graph: &Valid<Kind>, block: BlockId, name: &[u8]) -> bool {
    (block.0 as usize) < graph.len() && graph.name(block) == name
}

/// How many bytes an item of a block has.
pub fn size_at(graph: &Valid<Kind>, block: BlockId) -> u64 {
    if (block.0 as usize) < graph.len() {
        let item = if graph.is_source(block) {
            graph.output_type(block)
        } else {
            graph.input_type(block)
        };
        item_size(item) as u64
    } else {
        1
    }
}

/// So many numbers, all 0.
pub fn zeros(alloc: Global, count: usize) -> Result<Vec<u64>, AllocError> {
    vec![in alloc; 0; count]
}
