//! The place of a fault in numbers, for callers that show it in their own way.

use crate::frame::{Finding, Position, continues, position_of};
use crate::tokens::{Mark, Span, next_token, part, rest};

/// The word of a graph file at which it is refused, and why. Lines and columns count from 1, columns and lengths
/// characters.
#[derive(Drop)]
pub struct Place {
    pub line: usize,
    pub column: usize,
    /// As far as the word stands on that line; 1 where no word stands there.
    pub length: usize,
    /// What stands there, and what may.
    pub message: String,
}

/// The place in a text at which something is wrong.
pub(crate) fn place_in(text: &[u8], finding: Finding) -> Place {
    let position = position_of(text, finding.place);
    Place {
        line: position.line,
        column: position.column,
        length: length_of(text, position),
        message: finding.message,
    }
}

// How many characters the word at a position has.
fn length_of(text: &[u8], position: Position) -> usize {
    let word = Span {
        start: position.place,
        end: word_end(text, position.place).min(position.span.end),
    };
    let mut length = 0usize;
    for byte in part(text, word) {
        if !continues(*byte) {
            length = length.saturating_add(1);
        }
    }
    length.max(1)
}

// Where the word ends that begins at a place. A point is a part of it, as in a number or a key.
fn word_end(text: &[u8], place: usize) -> usize {
    let mut end = place;
    for _ in 0..rest(text, place).len() {
        match next_token(text, end) {
            Some(token) if token.whole.start == end && is_of_word(token.mark) => {
                end = token.whole.end;
            }
            _ => break,
        }
    }
    end
}

fn is_of_word(mark: Mark) -> bool {
    matches!(mark, Mark::Word | Mark::Dot)
}
