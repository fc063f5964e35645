//! Blocks and connections as Mermaid reads them.
ghost use Rattle.std.specs.Prelude.{◌≡◌, ◌++◌, OnOk};
ghost use Rattle.drawings.specs.Mermaid.{block_text, connection_text};
ghost use Rattle.drawings.specs.Parts.{box_seen, arrow_seen};

use crate::parts::{DrawnBlock, DrawnConnection};
use crate::pieces::{Piece, push_pieces};
use crate::words::{colour, push_lines, type_name};
use std::alloc::AllocError;

/// Writes the block of a number.
pub(crate) fn push_block(
    out: &mut Vec<u8>,
    number: usize,
    block: &DrawnBlock<'_>,
) -> Result<(), AllocError>
    ensures { OnOk result (out.new.items ≡ out.old.items ++ block_text number (box_seen block.now)) }
{
    push_pieces(
        out,
        &[
            Piece::Text(b"  b"),
            Piece::Number(number as u64),
            Piece::Text(b"[\""),
        ],
    )?;
    push_lines(out, b"<br/>", block)?;
    out.extend_from_slice(b"\"]\n")
}

/// Writes the connection of a number, and the colour of its link.
pub(crate) fn push_connection(
    out: &mut Vec<u8>,
    number: usize,
    connection: &DrawnConnection<'_>,
) -> Result<(), AllocError>
    ensures { OnOk result (out.new.items ≡ out.old.items ++ connection_text number (arrow_seen connection.now)) }
{
    push_pieces(
        out,
        &[
            Piece::Text(b"  b"),
            Piece::Number(u64::from(connection.from.block.0)),
            Piece::Text(b" -->|\""),
            Piece::Number(connection.from.port as u64),
            Piece::Text(b" to "),
            Piece::Number(connection.to.port as u64),
            Piece::Text(b": "),
            Piece::Text(type_name(connection.item)),
            Piece::Text(b" "),
            Piece::Number(u64::from(connection.capacity)),
            Piece::Text(b"\"| b"),
            Piece::Number(u64::from(connection.to.block.0)),
            Piece::Text(b"\n  linkStyle "),
            Piece::Number(number as u64),
            Piece::Text(b" stroke:"),
            Piece::Text(colour(connection.item)),
            Piece::Text(b"\n"),
        ],
    )
}
