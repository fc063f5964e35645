//! The words that all formats have for blocks and types.
ghost use Rattle.std.specs.Prelude.{◌≡◌, ◌++◌, OnOk};
ghost use Rattle.drawings.specs.Parts.{box_seen};
ghost use Rattle.drawings.specs.Words as words;
ghost use Rattle.drawings.specs.Words.{lines_text, note_text, firings_text, type_text};

use crate::parts::{DrawnBlock, Note};
use crate::pieces::{Piece, push_pieces};
use std::alloc::AllocError;
use stream_model::ItemType;

/// Writes the name of a block, its kind, the note about it and how often it fires, each on a line.
pub(crate) fn push_lines(
    out: &mut Vec<u8>,
    line_end: &[u8],
    block: &DrawnBlock<'_>,
) -> Result<(), AllocError>
    ensures { OnOk result (out.new.items ≡ out.old.items ++ lines_text line_end.now (box_seen block.now)) }
{
    push_pieces(
        out,
        &[
            Piece::Text(block.name),
            Piece::Text(line_end),
            Piece::Text(block.kind),
        ],
    )?;
    push_note(out, line_end, block.note)?;
    push_firings(out, line_end, block.firings)
}

// Writes the note about a block, after a line end.
fn push_note(out: &mut Vec<u8>, line_end: &[u8], note: Note) -> Result<(), AllocError>
    ensures { OnOk result (out.new.items ≡ out.old.items ++ note_text line_end.now note) }
{
    let (word, number, unit) = match note {
        Note::Nothing => return Ok(()),
        Note::Value(value) => (b"value ".as_slice(), Piece::Signed(value), b"".as_slice()),
        Note::Taps(count) => (
            b"".as_slice(),
            Piece::Number(count as u64),
            b" taps".as_slice(),
        ),
        Note::Count(count) => (b"n ".as_slice(), Piece::Number(count), b"".as_slice()),
    };
    push_pieces(
        out,
        &[
            Piece::Text(line_end),
            Piece::Text(word),
            number,
            Piece::Text(unit),
        ],
    )
}

// Writes how often a block fires in an iteration, if that is known, after a line end.
fn push_firings(out: &mut Vec<u8>, line_end: &[u8], firings: Option<u32>) -> Result<(), AllocError>
    ensures { OnOk result (out.new.items ≡ out.old.items ++ firings_text line_end.now firings) }
{
    match firings {
        Some(count) => push_pieces(
            out,
            &[
                Piece::Text(line_end),
                Piece::Text(b"q "),
                Piece::Number(u64::from(count)),
            ],
        ),
        None => Ok(()),
    }
}

/// The name of a type.
pub(crate) fn type_name(item: ItemType) -> &'static [u8]
    ensures { result.now ≡ type_text item }
{
    match item {
        ItemType::Byte => b"byte",
        ItemType::Short => b"short",
        ItemType::Int => b"int",
    }
}

/// The colour of a type.
pub(crate) fn colour(item: ItemType) -> &'static [u8]
    ensures { result.now ≡ words.colour item }
{
    match item {
        ItemType::Byte => b"#9C27B0",
        ItemType::Short => b"#C8A000",
        ItemType::Int => b"#009688",
    }
}
