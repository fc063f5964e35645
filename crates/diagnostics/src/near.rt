//! Names that may have been meant.

use std::alloc::{AllocError, Global};
use strsim::levenshtein;

// A longer word is close to no name.
const LONGEST: usize = 40;

/// The first of the names that take the fewest edits from a word, if these are few.
pub fn near_name<'a>(
    alloc: Global,
    word: &str,
    names: &[&'a str],
) -> Result<Option<&'a str>, AllocError> {
    if word.len() > LONGEST {
        return Ok(None);
    }
    let mut least = 1 + word.len() / 3;
    let mut near = None;
    for name in names {
        let edits = levenshtein(alloc, word, name)?;
        if edits < least || (edits == least && near.is_none() && edits < word.len()) {
            least = edits;
            near = Some(*name);
        }
    }
    Ok(near)
}

/// The hint at a name that may be meant.
pub(crate) fn hint(alloc: Global, word: &str, names: &[&str]) -> Result<String, AllocError> {
    match near_name(alloc, word, names)? {
        Some(name) => format!(in alloc; "; is `{name}` meant?"),
        None => Ok(String::new(alloc)),
    }
}
