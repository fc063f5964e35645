//! Blocks and connections as Graphviz's `dot` reads them.
ghost use Rattle.std.specs.Prelude.{◌≡◌, ◌++◌, OnOk};
ghost use Rattle.drawings.specs.Dot.{block_text, label_text, connection_text, inputs_text, outputs_text, ports_text, port_text};
ghost use Rattle.drawings.specs.Parts.{box_seen, arrow_seen};

use crate::parts::{DrawnBlock, DrawnConnection};
use crate::pieces::{Piece, push_pieces};
use crate::words::{colour, push_lines, type_name};
use std::alloc::AllocError;

/// Writes a block as a record.
pub(crate) fn push_block(out: &mut Vec<u8>, block: &DrawnBlock<'_>) -> Result<(), AllocError>
    ensures { OnOk result (out.new.items ≡ out.old.items ++ block_text (box_seen block.now)) }
{
    push_pieces(
        out,
        &[
            Piece::Text(b"  \""),
            Piece::Text(block.name),
            Piece::Text(b"\" [label=\"{"),
        ],
    )?;
    push_label(out, block)?;
    out.extend_from_slice(b"}\"];\n")
}

// The label of the record: the inputs, the name with the lines below it, and the outputs.
fn push_label(out: &mut Vec<u8>, block: &DrawnBlock<'_>) -> Result<(), AllocError>
    ensures { OnOk result (out.new.items ≡ out.old.items ++ label_text (box_seen block.now)) }
{
    push_inputs(out, block.inputs)?;
    push_lines(out, b"\\n", block)?;
    push_outputs(out, block.outputs)
}

fn push_inputs(out: &mut Vec<u8>, count: usize) -> Result<(), AllocError>
    ensures { OnOk result (out.new.items ≡ out.old.items ++ inputs_text count) }
{
    if count == 0 {
        return Ok(());
    }
    push_ports(out, b"i", count)?;
    out.extend_from_slice(b"|")
}

fn push_outputs(out: &mut Vec<u8>, count: usize) -> Result<(), AllocError>
    ensures { OnOk result (out.new.items ≡ out.old.items ++ outputs_text count) }
{
    if count == 0 {
        return Ok(());
    }
    out.extend_from_slice(b"|")?;
    push_ports(out, b"o", count)
}

// So many ports of a side, from the top down.
fn push_ports(out: &mut Vec<u8>, side: &[u8], count: usize) -> Result<(), AllocError>
    ensures { OnOk result (out.new.items ≡ out.old.items ++ ports_text side.now count) }
{
    for port in 0..count {
        push_port(out, side, port)?;
    }
    out.extend_from_slice(b"}")
}

fn push_port(out: &mut Vec<u8>, side: &[u8], port: usize) -> Result<(), AllocError>
    ensures { OnOk result (out.new.items ≡ out.old.items ++ port_text side.now port) }
{
    let number = Piece::Number(port as u64);
    push_pieces(
        out,
        &[
            Piece::Text(if port == 0 { b"{<" } else { b"|<" }),
            Piece::Text(side),
            number,
            Piece::Text(b"> "),
            number,
        ],
    )
}

/// Writes a connection from port to port.
pub(crate) fn push_connection(
    out: &mut Vec<u8>,
    connection: &DrawnConnection<'_>,
) -> Result<(), AllocError>
    ensures { OnOk result (out.new.items ≡ out.old.items ++ connection_text (arrow_seen connection.now)) }
{
    push_pieces(
        out,
        &[
            Piece::Text(b"  \""),
            Piece::Text(connection.from.name),
            Piece::Text(b"\":o"),
            Piece::Number(connection.from.port as u64),
            Piece::Text(b":e -> \""),
            Piece::Text(connection.to.name),
            Piece::Text(b"\":i"),
            Piece::Number(connection.to.port as u64),
            Piece::Text(b":w [label=\""),
            Piece::Text(type_name(connection.item)),
            Piece::Text(b" "),
            Piece::Number(u64::from(connection.capacity)),
            Piece::Text(b"\", color=\""),
            Piece::Text(colour(connection.item)),
            Piece::Text(b"\"];\n"),
        ],
    )
}
