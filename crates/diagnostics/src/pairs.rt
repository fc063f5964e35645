//! The keys of a table inside another one, such as a tag's, each with its places in the text.

use crate::tokens::{Mark, Span, blank_end, next_token, part, rest};
use std::alloc::{AllocError, Global};

/// A key of such a table.
#[derive(Clone, Copy)]
pub(crate) struct Pair {
    /// Its word without quotes.
    pub key: Span,
    /// Where it begins.
    pub start: usize,
    /// Where its value begins.
    pub value: usize,
}

/// The keys of the table that begins at a place: one in braces, or one below a header.
pub(crate) fn pairs_of(alloc: Global, text: &[u8], table: usize) -> Result<Vec<Pair>, AllocError> {
    let mut pairs = Vec::new(alloc);
    match put_pairs(&mut pairs, text, table) {
        Ok(()) => Ok(pairs),
        Err(refusal) => Err(refusal),
    }
}

/// The pair of a key.
pub(crate) fn pair_of(text: &[u8], pairs: &[Pair], key: &str) -> Option<Pair> {
    for pair in pairs {
        if part(text, pair.key) == key.as_bytes() {
            return Some(*pair);
        }
    }
    None
}

fn put_pairs(pairs: &mut Vec<Pair>, text: &[u8], table: usize) -> Result<(), AllocError> {
    let Some(first) = next_token(text, table) else {
        return Ok(());
    };
    let is_inline = first.mark == Mark::OpenTable;
    // The brackets of the table itself, and how many of those in it are open.
    let own = if is_inline { 1usize } else { 0 };
    let mut depth = 1usize;
    let mut before = first;
    for _ in 0..rest(text, table).len() {
        let Some(token) = next_token(text, before.whole.end) else {
            break;
        };
        match token.mark {
            // (the next header)
            Mark::OpenArray if depth == 0 && before.mark == Mark::Newline => break,
            Mark::OpenArray | Mark::OpenTable => depth = depth.saturating_add(1),
            Mark::Close => depth = depth.saturating_sub(1),
            Mark::Equals if depth == own => {
                pairs.reserve(1)?;
                pairs.push_reserved(Pair {
                    key: before.inner,
                    start: before.whole.start,
                    value: blank_end(text, token.whole.end),
                });
            }
            _ => {}
        }
        if is_inline && depth == 0 {
            break;
        }
        before = token;
    }
    Ok(())
}
