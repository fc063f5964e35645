//! Runs between raw items in memory.

ghost use Rattle.std.specs.Prelude.{◌≡◌, ◌+◌, ◌++◌, ◌⊎◌, Err, IfOk, IfErr, OnOk};
ghost use Rattle.graph_file.specs.Blocks.{drafted};
ghost use Rattle.flow_core.specs.declared.fault.Fault.TheVariants.{Script};
ghost use Rattle.flow_core.specs.declared.script.ScriptFault.TheVariants.{Memory};
ghost use Rattle.flow_core.specs.declared.raw_fault.RawFault.TheVariants.{Whole};
ghost use Rattle.flow_core.specs.RawFeeds.{raw_writes};
ghost use Rattle.flow_core.specs.Session.{in_state};
ghost use Rattle.magbelu_c.specs.Between.{AreFed, AreHeld, AreMisfed, FailsBetween, IsFed, IsMisfed, IsMisnamed, IsTaken, RunsBetween, output_bytes, sink_of};

use crate::idle::Idle;
use crate::tables::{Input, Output};
use byte_io::{ReadEnd, WriteEnd};
use flow_core::command_output::status_of;
use flow_core::fault::Fault;
use flow_core::raw_fault::{EndPlace, RawFault};
use flow_core::raw_input::{sink_named, source_named};
use flow_core::raw_output::{write_items, write_tags};
use flowgraph::{BlockId, Valid};
use kinds::Kind;
use plant::Plant;
use raw_items::ByteOrder;
use std::alloc::{AllocError, Global};

/// What a run gives: the bytes of all outputs, one after the other, and how many each has.
#[derive(Drop)]
pub(crate) struct Given {
    pub(crate) status: u8,
    pub(crate) lens: Vec<u64>,
    pub(crate) bytes: Vec<u8>,
}

/// Runs the graph of a file on these inputs.
pub(crate) fn run_between(
    alloc: Global,
    file: &[u8],
    order: ByteOrder,
    inputs: &[Input<'_>],
    outputs: &[Output<'_>],
) -> Result<Given, RawFault>
    ensures runs { IfOk result (λ given. RunsBetween file.now order inputs.now outputs.now given.lens.items
        given.bytes.items given.status) }
    ensures fails { IfErr result (FailsBetween file.now order inputs.now outputs.now) }
{
    let mut idle = match Idle::open(alloc, file) {
        Ok(idle) => idle,
        Err(fault) => return Err(RawFault::Whole(Fault::File(fault))),
    };
    if let Err(fault) = feed_all(alloc, &mut idle, order, inputs) {
        return Err(fault);
    }
    // A wrong name is refused before the run.
    if let Err(fault) = test_names(idle.graph(), outputs) {
        return Err(fault);
    }
    let plant = match idle.run_to_rest(alloc) {
        Ok(plant) => plant,
        Err(refusal) => return Err(RawFault::from(refusal)),
    };
    match take_all(alloc, &plant, order, outputs) {
        Ok((lens, bytes)) => Ok(Given {
            status: status_of(plant.all_done()),
            lens,
            bytes,
        }),
        Err(fault) => Err(fault),
    }
}

// Feeds the inputs, one after the other.
fn feed_all(
    alloc: Global,
    idle: &mut Idle,
    order: ByteOrder,
    inputs: &[Input<'_>],
) -> Result<(), RawFault>
    ensures same { idle.new ≡ in_state idle.old idle.new.state }
    ensures fed { OnOk result (AreFed (drafted idle.old.graph) order 0 inputs.now idle.old.state idle.new.state) }
    ensures misfed { IfErr result (AreMisfed (drafted idle.old.graph) order 0 inputs.now idle.old.state) }
{
    for (number, input) in inputs.iter().enumerate() {
        if let Err(fault) = feed(alloc, idle, order, number, input) {
            return Err(fault);
        }
    }
    Ok(())
}

fn feed(
    alloc: Global,
    idle: &mut Idle,
    order: ByteOrder,
    number: usize,
    input: &Input<'_>,
) -> Result<(), RawFault>
    ensures same { idle.new ≡ in_state idle.old idle.new.state }
    ensures fed { OnOk result (IsFed (drafted idle.old.graph) order number input.now idle.old.state idle.new.state) }
    ensures misfed { IfErr result (IsMisfed (drafted idle.old.graph) order number input.now idle.old.state) }
{
    match source_named(idle.graph(), EndPlace::Input(number), input.name) {
        Ok(source) => {
            let mut bytes = ReadEnd::new(input.bytes);
            idle.feed_from(alloc, number, source, order, &mut bytes)
        }
        Err(fault) => Err(fault),
    }
}

// Whether each output names a sink.
fn test_names(graph: &Valid<Kind>, outputs: &[Output<'_>]) -> Result<(), RawFault>
    ensures misnamed { IfErr result (IsMisnamed (drafted graph.now) 0 outputs.now) }
{
    for (number, output) in outputs.iter().enumerate() {
        if let Err(fault) = sink_named(graph, EndPlace::Output(number), output.name) {
            return Err(fault);
        }
    }
    Ok(())
}

// What the sinks hold, one after the other, and how many bytes that is for each.
fn take_all(
    alloc: Global,
    plant: &Plant<Kind>,
    order: ByteOrder,
    outputs: &[Output<'_>],
) -> Result<(Vec<u64>, Vec<u8>), RawFault>
    ensures held { IfOk result (λ given. AreHeld (drafted plant.now.graph) plant.now.state order 0 outputs.now
        given.0.items given.1.items) }
    ensures fails { IfErr result (λ fault. (fault ≡ Whole (Script Memory))
        ⊎ IsMisnamed (drafted plant.now.graph) 0 outputs.now fault) }
{
    let mut lens = Vec::new(alloc);
    let mut bytes = WriteEnd::new(Vec::new(alloc));
    for (number, output) in outputs.iter().enumerate() {
        let start = bytes.writer.len();
        if let Err(fault) = take(alloc, plant, order, number, output, &mut bytes) {
            return Err(fault);
        }
        let len = bytes.writer.len() - start;
        if lens.push(len as u64).is_err() {
            return Err(RawFault::from(AllocError));
        }
    }
    Ok((lens, bytes.writer))
}

// Appends what an output takes.
fn take(
    alloc: Global,
    plant: &Plant<Kind>,
    order: ByteOrder,
    number: usize,
    output: &Output<'_>,
    bytes: &mut WriteEnd<Vec<u8>>,
) -> Result<(), RawFault>
    requires { bytes.old.failures ≡ 0 }
    ensures taken { OnOk result (IsTaken (drafted plant.now.graph) plant.now.state order number output.now
        bytes.old.writer.items bytes.new.writer.items) }
    ensures counted { OnOk result (bytes.new.failures ≡ 0) }
    ensures fails { IfErr result (λ fault. (fault ≡ Whole (Script Memory))
        ⊎ (sink_of (drafted plant.now.graph) number output.now ≡ Err fault)) }
{
    let place = EndPlace::Output(number);
    let sink = match sink_named(plant.graph(), place, output.name) {
        Ok(sink) => sink,
        Err(fault) => return Err(fault),
    };
    match write(alloc, plant, order, place, output, sink, bytes) {
        Ok(()) => Ok(()),
        // (a sink is refused only if memory runs out)
        Err(_) => Err(RawFault::from(AllocError)),
    }
}

fn write(
    alloc: Global,
    plant: &Plant<Kind>,
    order: ByteOrder,
    place: EndPlace,
    output: &Output<'_>,
    sink: BlockId,
    bytes: &mut WriteEnd<Vec<u8>>,
) -> Result<(), RawFault>
    requires { bytes.old.failures ≡ 0 }
    ensures written { OnOk result (bytes.new.writer.items ≡ bytes.old.writer.items
        ++ output_bytes (drafted plant.now.graph) plant.now.state order output.now sink) }
    ensures counted { bytes.new.failures ≡ bytes.old.failures + raw_writes result }
{
    if output.tags == 0 {
        write_items(alloc, plant, place, sink, order, bytes)
    } else {
        write_tags(alloc, plant, place, sink, bytes)
    }
}
