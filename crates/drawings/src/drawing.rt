//! Graphs as text in a format.
ghost use Rattle.std.specs.Prelude.{◌≡◌, ◌++◌, IfOk, OnOk};
ghost use Rattle.flowgraph.specs.Flowgraph.{net_of};
ghost use Rattle.kinds.specs.Kind.{meaning_of};
ghost use Rattle.rates.specs.Answer.{AreRates, answer_of, sizes_of};
ghost use Rattle.drawings.specs.Drawings.{drawn_text, blocks_text, connections_text, opening_text, closing_text, block_text, connection_text};
ghost use Rattle.drawings.specs.Parts.{box_seen, arrow_seen};

use crate::parts::{DrawnBlock, DrawnConnection, drawn_block, drawn_connection};
use crate::{dot, mermaid};
use flowgraph::{BlockId, Valid};
use kinds::Kind;
use rates::{BufferCapacities, Rates, capacities};
use std::alloc::{AllocError, Global};

/// The format of a picture.
#[derive(Clone, Copy, Debug, PartialEq, Eq)]
pub enum Format {
    /// The language of Graphviz's `dot`.
    Dot,
    /// A flowchart of Mermaid.
    Mermaid,
}

/// A graph with its rates, as text for a drawing. It fails only if the allocator refuses.
pub fn drawn(
    alloc: Global,
    graph: &Valid<Kind>,
    rates: &Rates,
    format: Format,
) -> Result<Vec<u8>, AllocError>
    requires { AreRates (net_of meaning_of graph.now) rates.now }
    ensures { IfOk result (λ text. text.items ≡ drawn_text format graph.now) }
{
    let sizes = capacities(alloc, graph, rates)?;
    let mut text = Vec::from_slice(alloc, opening(format))?;
    push_blocks(&mut text, graph, rates, format)?;
    push_connections(&mut text, graph, &sizes, format)?;
    text.extend_from_slice(closing(format))?;
    Ok(text)
}

// The blocks, in their order.
fn push_blocks(
    text: &mut Vec<u8>,
    graph: &Valid<Kind>,
    rates: &Rates,
    format: Format,
) -> Result<(), AllocError>
    ensures { OnOk result (text.new.items ≡ text.old.items ++ blocks_text format graph.now (answer_of rates.now)) }
{
    for number in 0..graph.len() {
        let block = drawn_block(graph, rates, BlockId(number as u32));
        push_block(text, format, number, &block)?;
    }
    Ok(())
}

// The connections, in the order of connecting.
fn push_connections(
    text: &mut Vec<u8>,
    graph: &Valid<Kind>,
    sizes: &BufferCapacities,
    format: Format,
) -> Result<(), AllocError>
    ensures { OnOk result (text.new.items ≡ text.old.items ++ connections_text format graph.now (sizes_of sizes.now)) }
{
    graph.recall();
    for (number, connection) in graph.connections().iter().enumerate() {
        let connection = drawn_connection(graph, sizes, *connection);
        push_connection(text, format, number, &connection)?;
    }
    Ok(())
}

// The text before the blocks.
fn opening(format: Format) -> &'static [u8]
    ensures { result.now ≡ opening_text format }
{
    match format {
        Format::Dot => b"digraph {\n  rankdir=LR;\n  node [shape=record];\n",
        Format::Mermaid => b"flowchart LR\n",
    }
}

// The text after the connections.
fn closing(format: Format) -> &'static [u8]
    ensures { result.now ≡ closing_text format }
{
    match format {
        Format::Dot => b"}\n",
        Format::Mermaid => b"",
    }
}

// The block of a number.
fn push_block(
    text: &mut Vec<u8>,
    format: Format,
    number: usize,
    block: &DrawnBlock<'_>,
) -> Result<(), AllocError>
    ensures { OnOk result (text.new.items ≡ text.old.items ++ block_text format number (box_seen block.now)) }
{
    match format {
        Format::Dot => dot::push_block(text, block),
        Format::Mermaid => mermaid::push_block(text, number, block),
    }
}

// The connection of a number.
fn push_connection(
    text: &mut Vec<u8>,
    format: Format,
    number: usize,
    connection: &DrawnConnection<'_>,
) -> Result<(), AllocError>
    ensures { OnOk result (text.new.items ≡ text.old.items ++ connection_text format number
        (arrow_seen connection.now)) }
{
    match format {
        Format::Dot => dot::push_connection(text, connection),
        Format::Mermaid => mermaid::push_connection(text, number, connection),
    }
}
