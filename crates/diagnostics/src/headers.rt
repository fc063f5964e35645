//! Headers of arrays of tables with one bracket in place of two.

use crate::entries::entries_of;
use crate::tokens::{Mark, Span, next_token, part};
use std::alloc::{AllocError, Global};

/// The array of tables whose header is in the line of a place, with one bracket.
pub(crate) fn single_header(text: &[u8], place: usize) -> Option<&'static str> {
    let open = next_token(text, line_begin(text, place))?;
    let word = next_token(text, open.whole.end)?;
    let close = next_token(text, word.whole.end)?;
    if (open.mark, close.mark) != (Mark::OpenArray, Mark::Close) {
        return None;
    }
    array_named(part(text, word.inner))
}

/// The array of tables whose header is in the line of a place, and where an earlier header of it has one bracket.
pub(crate) fn single_before(
    alloc: Global,
    text: &[u8],
    place: usize,
) -> Result<Option<(&'static str, usize)>, AllocError> {
    let Some(name) = double_header(text, place) else {
        return Ok(None);
    };
    for entry in &entries_of(alloc, text)? {
        let is_header = entry.start == entry.value && entry.start < place;
        if is_header && single_header(text, entry.start) == Some(name) {
            return Ok(Some((name, entry.start)));
        }
    }
    Ok(None)
}

// The array of tables whose correct header is in the line of a place.
fn double_header(text: &[u8], place: usize) -> Option<&'static str> {
    let open = next_token(text, line_begin(text, place))?;
    let second = next_token(text, open.whole.end)?;
    let word = next_token(text, second.whole.end)?;
    if (open.mark, second.mark) != (Mark::OpenArray, Mark::OpenArray) {
        return None;
    }
    array_named(part(text, word.inner))
}

fn array_named(word: &[u8]) -> Option<&'static str> {
    ["block", "connect", "feed"]
        .iter()
        .copied()
        .find(|name| name.as_bytes() == word)
}

// Where the line of a place begins.
fn line_begin(text: &[u8], place: usize) -> usize {
    let before = Span {
        start: 0,
        end: place,
    };
    let mut begin = 0usize;
    for (number, byte) in part(text, before).iter().enumerate() {
        if *byte == b'\n' {
            begin = number.saturating_add(1);
        }
    }
    begin
}
