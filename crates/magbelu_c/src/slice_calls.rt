//! Calls that tell how the runs of a held plant's graph are cut into slices of time.

ghost use Rattle.std.specs.Prelude.{◌≡◌};
ghost use Rattle.magbelu_c.specs.Slicing.{OnGraph, Plans, Slices, asks_of, no_block, refused};

use crate::cuts::{CutPart, CutSink, CutSource};
use crate::handle::Handle;
use crate::slice_plans::{asks, show_plan, show_slice};
use crate::slicing::{Slicing, not_held};
use std::alloc::Global;

/// Tells the numbers that cut the runs of a graph into slices: how far slices overlap, and how each source is cut, and
/// each sink that keeps its items.
#[unsafe(no_mangle)]
pub extern "C" fn magbelu_bytes_slices(
    alloc: Global,
    plant: &mut Handle,
    tags: u32,
    sources: &mut [CutSource],
    sinks: &mut [CutSink],
) -> Slicing
    ensures { OnGraph plant.old.plant plant.new.plant (λ g. Plans g (asks_of tags) sources.old sources.new sinks.old
        sinks.new result)
        ((sources.new ≡ sources.old) × (sinks.new ≡ sinks.old) × (result ≡ refused 1 55 no_block)) }
{
    let Some(held) = plant.take(alloc) else {
        return not_held();
    };
    let slicing = show_plan(alloc, held.graph(), asks(tags), sources, sinks);
    plant.put(held);
    slicing
}

/// Tells about the slice that begins at an iteration: what it leaves out of the tapes, and, for each sink that keeps
/// its items, how many it drops and where the others stand.
#[unsafe(no_mangle)]
pub extern "C" fn magbelu_bytes_slice(
    alloc: Global,
    plant: &mut Handle,
    tags: u32,
    begins: u64,
    parts: &mut [CutPart],
) -> Slicing
    ensures { OnGraph plant.old.plant plant.new.plant (λ g. Slices g (asks_of tags) begins parts.old parts.new result)
        ((parts.new ≡ parts.old) × (result ≡ refused 1 55 no_block)) }
{
    let Some(held) = plant.take(alloc) else {
        return not_held();
    };
    let slicing = show_slice(alloc, held.graph(), asks(tags), begins, parts);
    plant.put(held);
    slicing
}
