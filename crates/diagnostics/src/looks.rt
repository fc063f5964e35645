//! Texts of files and scripts as they are shown, without what a terminal would hide or obey.

use crate::tokens::{Span, part, rest};
use std::alloc::{AllocError, Global};

/// How a text is shown.
#[derive(Clone, Copy)]
pub(crate) enum Look {
    /// Each character is made visible.
    Word,
    /// Tabs stay tabs, as in the line of a file.
    Line,
    /// As many spaces as a word would have characters.
    WordBlank,
    /// As many spaces as a line would have characters, with its tabs.
    LineBlank,
}

impl Look {
    /// The look of the blank below a text.
    pub fn blank(self) -> Look {
        match self {
            Look::Word | Look::WordBlank => Look::WordBlank,
            Look::Line | Look::LineBlank => Look::LineBlank,
        }
    }

    fn keeps_tabs(self) -> bool {
        matches!(self, Look::Line | Look::LineBlank)
    }

    fn is_blank(self) -> bool {
        matches!(self, Look::WordBlank | Look::LineBlank)
    }
}

/// Appends bytes as they are shown: bytes that are not UTF-8 as `\xNN`, and invisible characters as their escapes.
pub(crate) fn put_shown(out: &mut String, bytes: &[u8], look: Look) -> Result<(), AllocError> {
    let mut from = 0usize;
    for _ in 0..bytes.len() {
        let left = rest(bytes, from);
        match std::str::from_utf8(left) {
            Ok(text) => return put_text(out, text, look),
            Err(error) => {
                let good = Span {
                    start: 0,
                    end: error.valid_up_to(),
                };
                if let Ok(text) = std::str::from_utf8(part(left, good)) {
                    put_text(out, text, look)?;
                }
                if let Some(byte) = left.get(good.end) {
                    put_byte(out, *byte, look)?;
                }
                from = from.saturating_add(good.end).saturating_add(1);
            }
        }
    }
    Ok(())
}

fn put_text(out: &mut String, text: &str, look: Look) -> Result<(), AllocError> {
    for letter in text.chars() {
        put_letter(out, letter, look)?;
    }
    Ok(())
}

fn put_letter(out: &mut String, letter: char, look: Look) -> Result<(), AllocError> {
    if letter == '\t' && look.keeps_tabs() {
        out.push(letter)
    } else if letter.is_ascii_control() {
        put_byte(out, letter as u8, look)
    } else if is_hidden(letter) {
        for escape in letter.escape_unicode() {
            put_seen(out, escape, look)?;
        }
        Ok(())
    } else {
        put_seen(out, letter, look)
    }
}

fn put_byte(out: &mut String, byte: u8, look: Look) -> Result<(), AllocError> {
    for escape in byte.escape_ascii() {
        put_seen(out, char::from(escape), look)?;
    }
    Ok(())
}

fn put_seen(out: &mut String, letter: char, look: Look) -> Result<(), AllocError> {
    out.push(if look.is_blank() { ' ' } else { letter })
}

// Whether a character beyond ASCII is a control or a space, has no width, or changes the direction of the text after
// it.
fn is_hidden(letter: char) -> bool {
    matches!(
        letter,
        '\u{80}'..='\u{a0}'
            | '\u{ad}'
            | '\u{61c}'
            | '\u{1680}'
            | '\u{180e}'
            | '\u{2000}'..='\u{200f}'
            | '\u{2028}'..='\u{202f}'
            | '\u{205f}'..='\u{206f}'
            | '\u{3000}'
            | '\u{feff}'
            | '\u{fff9}'..='\u{fffb}'
            | '\u{e0000}'..='\u{e007f}'
    )
}

/// Bytes, shown as a word.
pub fn shown(alloc: Global, bytes: &[u8]) -> Result<String, AllocError> {
    let mut out = String::new(alloc);
    match put_shown(&mut out, bytes, Look::Word) {
        Ok(()) => Ok(out),
        Err(refusal) => Err(refusal),
    }
}
