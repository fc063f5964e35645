//! Shows a place of a text as compilers do: where it is, its line, and a mark below the place.
ghost use Rattle.std.specs.Prelude.{◌≤◌, length};

use crate::looks::{Look, put_shown};
use crate::tokens::{Span, part, rest};
use itoa::Buffer;
use std::alloc::{AllocError, Global};

// How many bytes of a longer line are shown before the place, and in all.
const SHOWN_BEFORE: usize = 40;

const SHOWN: usize = 120;
// A line is shown from its beginning if the place is not farther than this.
const NEAR_BEGIN: usize = 80;

/// What is wrong at a place of a text.
#[derive(Drop)]
pub(crate) struct Finding {
    pub place: usize,
    pub message: String,
}

/// The text that a place is shown in.
#[derive(Clone, Copy)]
pub(crate) struct Source<'a> {
    pub name: &'a str,
    pub text: &'a [u8],
    /// The number of its first line.
    pub first_line: u64,
    /// How its lines are shown.
    pub look: Look,
}

/// A line of a text, without its line end, and a place in it or at its end. Lines and columns count from 1; columns
/// count characters.
#[derive(Clone, Copy)]
pub(crate) struct Position {
    pub line: usize,
    pub column: usize,
    pub span: Span,
    pub place: usize,
}

// The shown part of a line.
#[derive(Clone, Copy)]
struct Excerpt {
    before: Span,
    behind: Span,
    is_cut_before: bool,
    is_cut_behind: bool,
}

/// The lines that show a place of a text.
pub(crate) fn framed(
    alloc: Global,
    source: &Source<'_>,
    finding: &Finding,
) -> Result<String, AllocError> {
    let mut out = String::new(alloc);
    match put_frame(&mut out, source, finding) {
        Ok(()) => Ok(out),
        Err(refusal) => Err(refusal),
    }
}

// (Nothing here is owned, so no early return drops anything. Each such drop costs the prover.)
fn put_frame(out: &mut String, source: &Source<'_>, finding: &Finding) -> Result<(), AllocError> {
    let position = position_of(source.text, finding.place);
    let line = source
        .first_line
        .saturating_add(position.line.saturating_sub(1) as u64);
    let mut digits = Buffer::new();
    let number = digits.format(line);
    put_spaces(out, number.len())?;
    out.push_str("--> ")?;
    put_shown(out, source.name.as_bytes(), Look::Word)?;
    put_place(out, number, position.column)?;
    put_spaces(out, number.len())?;
    out.push_str(" |\n")?;
    out.push_str(number)?;
    out.push_str(" |")?;
    let excerpt = excerpt_of(source.text, position);
    put_excerpt(out, source, excerpt)?;
    put_spaces(out, number.len())?;
    out.push_str(" | ")?;
    put_before(out, source, excerpt, true)?;
    out.push_str("^ ")?;
    out.push_str(finding.message.as_str())?;
    out.push_str("\n")
}

fn put_place(out: &mut String, line: &str, column: usize) -> Result<(), AllocError> {
    out.push_str(":")?;
    out.push_str(line)?;
    out.push_str(":")?;
    out.push_str(Buffer::new().format(column))?;
    out.push_str("\n")
}

fn put_spaces(out: &mut String, count: usize) -> Result<(), AllocError> {
    for _ in 0..count {
        out.push(' ')?;
    }
    Ok(())
}

// Writes the shown part of a line, after a space if it is not empty, and the line's end.
fn put_excerpt(out: &mut String, source: &Source<'_>, excerpt: Excerpt) -> Result<(), AllocError> {
    if excerpt.before.start < excerpt.behind.end {
        out.push(' ')?;
    }
    put_before(out, source, excerpt, false)?;
    put_shown(out, part(source.text, excerpt.behind), source.look)?;
    if excerpt.is_cut_behind {
        out.push_str("...")?;
    }
    out.push_str("\n")
}

// Writes the shown part of a line before the place, or as much blank.
fn put_before(
    out: &mut String,
    source: &Source<'_>,
    excerpt: Excerpt,
    is_blank: bool,
) -> Result<(), AllocError> {
    if excerpt.is_cut_before {
        out.push_str(if is_blank { "   " } else { "..." })?;
    }
    let look = if is_blank {
        source.look.blank()
    } else {
        source.look
    };
    put_shown(out, part(source.text, excerpt.before), look)
}

/// Where a place is; the end of the text if the place is beyond it.
pub(crate) fn position_of(text: &[u8], place: usize) -> Position
    ensures { result.place ≤ length text.now }
{
    let place = place.min(text.len());
    let before = Span {
        start: 0,
        end: place,
    };
    let mut line = 1usize;
    let mut column = 1usize;
    let mut start = 0usize;
    for (number, byte) in part(text, before).iter().enumerate() {
        if *byte == b'\n' {
            line = line.saturating_add(1);
            column = 1;
            start = number.saturating_add(1);
        } else if !continues(*byte) {
            column = column.saturating_add(1);
        }
    }
    Position {
        line,
        column,
        span: Span {
            start,
            end: line_end(text, place),
        },
        place,
    }
}

// Where the line at a place ends.
fn line_end(text: &[u8], place: usize) -> usize {
    let mut end = text.len();
    for (number, byte) in rest(text, place).iter().enumerate() {
        if *byte == b'\n' {
            end = place.saturating_add(number);
            break;
        }
    }
    let last = Span {
        start: end.saturating_sub(1),
        end,
    };
    if part(text, last) == b"\r".as_slice() && place < end {
        last.start
    } else {
        end
    }
}

/// Whether a byte is not the first of a character.
pub(crate) fn continues(byte: u8) -> bool {
    byte & 0xC0 == 0x80
}

// The shown part of a line.
fn excerpt_of(text: &[u8], position: Position) -> Excerpt {
    let Position { span, place, .. } = position;
    let is_far = place.saturating_sub(span.start) > NEAR_BEGIN;
    let from = if is_far {
        begin_of(text, place.saturating_sub(SHOWN_BEFORE))
    } else {
        span.start
    };
    let cut = from.saturating_add(SHOWN).max(place);
    let to = if cut < span.end {
        begin_of(text, cut)
    } else {
        span.end
    };
    Excerpt {
        before: Span {
            start: from,
            end: place,
        },
        behind: Span {
            start: place,
            end: to,
        },
        is_cut_before: is_far,
        is_cut_behind: to < span.end,
    }
}

// The first place from this one on at which a character begins. A character has at most four bytes.
fn begin_of(text: &[u8], from: usize) -> usize {
    for (number, byte) in rest(text, from).iter().enumerate() {
        if !continues(*byte) || number == 4 {
            return from.saturating_add(number);
        }
    }
    text.len()
}
