//! The trace of a run: Chrome's trace events in JSON. Perfetto and the page chrome://tracing show them, with a track
//! for each block. Names of blocks consist of letters, digits, `_`, `.` and `-`, which need no escape in strings.

ghost use Rattle.std.specs.Prelude.{◌<◌, length};

use crate::tracer::{Deed, Event, Tracer};
use firing_rules::Need;
use flowgraph::{Block, BlockId, Valid};
use itoa::Buffer;
use std::io;
use std::io::Write;
use std::time::Clock;

const THOUSAND: u64 = 1_000;

/// Writes what a tracer has kept of a run of this graph. It takes no memory. Times count from the beginning of the
/// first event.
pub fn write_trace<W: Write, B: Block, R: Clock + Drop>(
    out: &mut W,
    graph: &Valid<B>,
    tracer: &Tracer<R>,
) -> io::Result<()> {
    out.write_all(b"{\"traceEvents\":[")?;
    for block in 0..graph.len() {
        write_comma(out, 0 < block)?;
        write_track(out, graph, BlockId(block as u32))?;
    }
    let beginning = tracer.beginning();
    for number in 0..tracer.kept() {
        if let Some(event) = tracer.event(number) {
            write_event(out, graph, event, beginning)?;
        }
    }
    out.write_all(b"\n],\"displayTimeUnit\":\"ns\",\"otherData\":{\"events\":")?;
    write_number(out, tracer.kept() as u64)?;
    out.write_all(b",\"left_out\":")?;
    write_number(out, tracer.left_out())?;
    out.write_all(b"}}\n")
}

// The track of a block: its name, and its place among the others.
fn write_track<W: Write, B: Block>(out: &mut W, graph: &Valid<B>, block: BlockId) -> io::Result<()>
    requires { block.0 < length graph.now.blocks }
{
    out.write_all(b"\n{\"ph\":\"M\",")?;
    write_place(out, block)?;
    out.write_all(b",\"name\":\"thread_name\",\"args\":{\"name\":\"")?;
    out.write_all(graph.name(block))?;
    out.write_all(b"\"}},\n{\"ph\":\"M\",")?;
    write_place(out, block)?;
    out.write_all(b",\"name\":\"thread_sort_index\",\"args\":{\"sort_index\":")?;
    write_number(out, track_of(block))?;
    out.write_all(b"}}")
}

// A turn or a wait of a block of the graph.
fn write_event<W: Write, B: Block>(
    out: &mut W,
    graph: &Valid<B>,
    event: Event,
    beginning: u64,
) -> io::Result<()> {
    if graph.len() <= event.block.0 as usize {
        return Ok(());
    }
    write_times(out, event, beginning)?;
    out.write_all(b",\"name\":\"")?;
    match event.deed {
        Deed::Fired(firings) => {
            out.write_all(graph.name(event.block))?;
            out.write_all(b"\",\"cat\":\"turn\",\"args\":{\"firings\":")?;
            write_number(out, firings)?;
            out.write_all(b"}}")
        }
        Deed::Waited(need) => {
            write_need(out, graph, event.block, need)?;
            out.write_all(b"\",\"cat\":\"wait\"}")
        }
    }
}

// When an event was; one without an end is an instant.
fn write_times<W: Write>(out: &mut W, event: Event, beginning: u64) -> io::Result<()> {
    out.write_all(match event.ended {
        Some(_) => b",\n{\"ph\":\"X\",".as_slice(),
        None => b",\n{\"ph\":\"i\",\"s\":\"t\",".as_slice(),
    })?;
    write_place(out, event.block)?;
    out.write_all(b",\"ts\":")?;
    write_micros(out, event.began.saturating_sub(beginning))?;
    if let Some(ended) = event.ended {
        out.write_all(b",\"dur\":")?;
        write_micros(out, ended.saturating_sub(event.began))?;
    }
    Ok(())
}

// What a block waits for.
fn write_need<W: Write, B: Block>(
    out: &mut W,
    graph: &Valid<B>,
    block: BlockId,
    need: Need,
) -> io::Result<()>
    requires { block.0 < length graph.now.blocks }
{
    match need {
        Need::Items(port) => match graph.inputs(block).get(port) {
            Some(input) => {
                out.write_all(b"waits for items of ")?;
                write_name(out, graph, input.connection.from)
            }
            None => out.write_all(b"waits to be fed"),
        },
        Need::Room(port) => {
            out.write_all(b"waits for room of ")?;
            write_readers(out, graph, block, port)
        }
    }
}

// The blocks that read an output.
fn write_readers<W: Write, B: Block>(
    out: &mut W,
    graph: &Valid<B>,
    block: BlockId,
    port: usize,
) -> io::Result<()>
    requires { block.0 < length graph.now.blocks }
{
    if graph.outputs(block) <= port {
        return Ok(());
    }
    for (number, reader) in graph.readers(block, port).iter().enumerate() {
        if 0 < number {
            out.write_all(b" and ")?;
        }
        write_name(out, graph, reader.to)?;
    }
    Ok(())
}

// The name of a block, if it is one of the graph.
fn write_name<W: Write, B: Block>(out: &mut W, graph: &Valid<B>, block: BlockId) -> io::Result<()> {
    if (block.0 as usize) < graph.len() {
        out.write_all(graph.name(block))?;
    }
    Ok(())
}

// The track of a block.
fn write_place<W: Write>(out: &mut W, block: BlockId) -> io::Result<()> {
    out.write_all(b"\"pid\":1,\"tid\":")?;
    write_number(out, track_of(block))
}

// The number of a block's track, from 1 on: programs that show tracks may take 0 for none.
fn track_of(block: BlockId) -> u64 {
    u64::from(block.0).saturating_add(1)
}

// A time in microseconds, whole.
fn write_micros<W: Write>(out: &mut W, nanos: u64) -> io::Result<()> {
    write_number(out, nanos / THOUSAND)?;
    let rest = nanos % THOUSAND;
    out.write_all(if rest < 10 {
        b".00".as_slice()
    } else if rest < 100 {
        b".0".as_slice()
    } else {
        b".".as_slice()
    })?;
    write_number(out, rest)
}

fn write_number<W: Write>(out: &mut W, number: u64) -> io::Result<()> {
    let mut buffer = Buffer::new();
    out.write_all(buffer.format(number).as_bytes())
}

fn write_comma<W: Write>(out: &mut W, is_wanted: bool) -> io::Result<()> {
    if is_wanted {
        out.write_all(b",")?;
    }
    Ok(())
}
