//! Tells about a graph: its blocks, its connections and its drawing.

ghost use Rattle.std.specs.Prelude.{◌≡◌, IfOk, map};
ghost use Rattle.drawings.specs.Drawings.{drawn_text};
ghost use Rattle.magbelu_c.specs.Listing.{Draws, Links, Lists, format_of, link_row, role_number, type_number, unlisted};

use crate::answer::Answer;
use crate::reply::{Reply, done, no_memory, refusal};
use crate::shows::show;
use drawings::{Format, drawn};
use flowgraph::{BlockId, Connection, Valid};
use kinds::Kind;
use plant::PlantFault;
use rates::balance;
use std::alloc::{AllocError, Global};
use stream_model::{ItemType, Role};

/// A block. The type of a side without ports means nothing.
#[repr(C)]
#[derive(Clone, Copy, Debug, PartialEq, Eq)]
pub struct Listed {
    /// 0; 1 for a refusal.
    pub status: u32,
    /// The number of the refusal, or 0.
    pub number: u32,
    /// 0 for a block that works, 1 for a source, 2 for a sink that keeps its items, 3 for one that drops them.
    pub role: u32,
    /// The type of the items that it takes: 0 for bytes, 1 for shorts, 2 for ints.
    pub input_type: u32,
    /// The type of the items that it gives.
    pub output_type: u32,
    /// How many inputs are connected.
    pub input_count: usize,
    /// How many outputs are connected.
    pub output_count: usize,
    /// How many bytes its name has.
    pub name_len: usize,
    /// How many bytes the name of its kind has.
    pub kind_len: usize,
}

/// A connection.
#[repr(C)]
#[derive(Clone, Copy, Debug, PartialEq, Eq)]
pub struct Link {
    /// The number of the block that it comes from.
    pub from: u32,
    /// The number of the block that it leads to.
    pub to: u32,
    /// The output that it comes from.
    pub out_port: usize,
    /// The input that it leads to.
    pub in_port: usize,
}

/// Tells about a block, and puts its name and that of its kind at the fronts of two buffers if they fit. `NoSuchBlock`
/// if there is no block of this number.
pub(crate) fn show_block(
    graph: &Valid<Kind>,
    number: u32,
    name: &mut [u8],
    kind: &mut [u8],
) -> Listed
    ensures { Lists graph.now number name.old name.new kind.old kind.new result }
{
    if graph.len() <= number as usize {
        return unlisted(refusal(PlantFault::NoSuchBlock));
    }
    let block = BlockId(number);
    let own_name = graph.name(block);
    let own_kind = graph.block(block).name().text().as_bytes();
    show(own_name, name);
    show(own_kind, kind);
    Listed {
        status: 0,
        number: 0,
        role: role_number(graph.role(block)),
        input_type: type_number(graph.input_type(block)),
        output_type: type_number(graph.output_type(block)),
        input_count: graph.inputs(block).len(),
        output_count: graph.outputs(block),
        name_len: own_name.len(),
        kind_len: own_kind.len(),
    }
}

/// Tells nothing of a block, only this reply.
pub(crate) fn unlisted(reply: Reply) -> Listed
    ensures { result ≡ unlisted reply }
{
    Listed {
        status: reply.status,
        number: reply.number,
        role: 0,
        input_type: 0,
        output_type: 0,
        input_count: 0,
        output_count: 0,
        name_len: 0,
        kind_len: 0,
    }
}

fn role_number(role: Role) -> u32
    ensures { result ≡ role_number role }
{
    match role {
        Role::Work => 0,
        Role::Source => 1,
        Role::Keep => 2,
        Role::Discard => 3,
    }
}

fn type_number(item: ItemType) -> u32
    ensures { result ≡ type_number item }
{
    match item {
        ItemType::Byte => 0,
        ItemType::Short => 1,
        ItemType::Int => 2,
    }
}

/// Puts the connections at the front of a table if they fit, and tells how many there are.
pub(crate) fn show_links(alloc: Global, graph: &Valid<Kind>, links: &mut [Link]) -> Reply
    ensures { Links graph.now links.old links.new result }
{
    let Ok(rows) = link_rows(alloc, graph.connections()) else {
        return no_memory();
    };
    show(&rows, links);
    done(0, rows.len() as u64)
}

// A row for each connection.
fn link_rows(alloc: Global, connections: &[Connection]) -> Result<Vec<Link>, AllocError>
    ensures { IfOk result (λ rows. rows.items ≡ map link_row connections.now) }
{
    let mut rows = Vec::with_capacity(alloc, connections.len())?;
    for connection in connections {
        rows.push(Link {
            from: connection.from.0,
            to: connection.to.0,
            out_port: connection.out_port,
            in_port: connection.in_port,
        })?;
    }
    Ok(rows)
}

/// The format of a drawing, by its number: 0 for Graphviz's `dot`, any other for Mermaid.
pub(crate) fn format(number: u32) -> Format
    ensures { result ≡ format_of number }
{
    if number == 0 {
        Format::Dot
    } else {
        Format::Mermaid
    }
}

/// Puts the drawing of a graph, as text in a format, at the front of a buffer if it fits.
pub(crate) fn show_drawing(
    alloc: Global,
    graph: &Valid<Kind>,
    format: Format,
    output: &mut [u8],
) -> Answer
    ensures { Draws graph.now format output.old output.new result }
{
    match drawing_of(alloc, graph, format) {
        Ok(text) => {
            show(&text, output);
            told(0, 0, text.len())
        }
        Err(_) => {
            let reply = no_memory();
            told(reply.status, reply.number, 0)
        }
    }
}

fn drawing_of(alloc: Global, graph: &Valid<Kind>, format: Format) -> Result<Vec<u8>, AllocError>
    ensures { IfOk result (λ text. text.items ≡ drawn_text format graph.now) }
{
    let rates = balance(alloc, graph)?;
    drawn(alloc, graph, &rates, format)
}

/// The result of a call that writes a text of so many bytes, and no line.
pub(crate) fn told(status: u32, number: u32, output_len: usize) -> Answer
    ensures { result ≡ record { status = status; number = number; output_len = output_len; error_len = 0 } }
{
    Answer {
        status,
        number,
        output_len,
        error_len: 0,
    }
}
