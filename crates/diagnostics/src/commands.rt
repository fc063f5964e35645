//! The lines that scripts may have, and where a bad line is bad.

use crate::expected::KEY_TEXT;
use crate::tokens::{Span, part, rest};
use script_text::{Line, parse_line};
use std::alloc::{AllocError, Global};

/// The words of the commands of a script.
pub(crate) const COMMANDS: [&str; 11] = [
    "feed", "close", "set", "step", "claim", "commit", "abandon", "read", "why", "quiet", "settle",
];

/// The commands of a live run.
pub(crate) const CALLS: [&str; 4] = ["feed", "close", "set", "read"];

// The form of a field after the word of a command.
#[derive(Clone, Copy)]
enum Form {
    Name,
    // Where a setting begins.
    At,
    // The item that a read begins at.
    From,
    Max,
    // One of the numbers of a setting, up to the end of the line.
    Number,
    // An item, or, after all items, a tag; up to the end of the line.
    Given,
}

/// The form of a command's line.
pub(crate) fn grammar(word: &[u8]) -> Option<&'static str> {
    match word {
        b"feed" => Some("feed NAME ITEM.. @OFFSET:KEY=VALUE.."),
        b"close" => Some("close NAME"),
        b"set" => Some("set NAME AT NUMBER.., where AT is an item or now"),
        b"step" => Some("step NAME MAX, where MAX is 1 to 4294967295"),
        b"claim" => Some("claim NAME MAX, where MAX is 1 to 4294967295"),
        b"commit" => Some("commit NAME"),
        b"abandon" => Some("abandon NAME"),
        b"read" => Some("read NAME FROM MAX, where MAX is 1 to 4294967295"),
        b"why" => Some("why NAME"),
        b"quiet" => Some("quiet"),
        b"settle" => Some("settle"),
        _ => None,
    }
}

// The fields after the word of a command.
fn forms_of(word: &[u8]) -> &'static [Form] {
    match word {
        b"feed" => &[Form::Name, Form::Given],
        b"set" => &[Form::Name, Form::At, Form::Number],
        b"step" | b"claim" => &[Form::Name, Form::Max],
        b"read" => &[Form::Name, Form::From, Form::Max],
        b"close" | b"commit" | b"abandon" | b"why" => &[Form::Name],
        _ => &[],
    }
}

/// The first field of a line that begins at or after a place; an empty one at the end if none is left.
pub(crate) fn field_from(line: &[u8], from: usize) -> Span {
    let start = spaces_end(line, from);
    let mut end = start;
    for byte in rest(line, start) {
        if *byte == b' ' {
            break;
        }
        end = end.saturating_add(1);
    }
    Span { start, end }
}

fn spaces_end(line: &[u8], from: usize) -> usize {
    let mut end = from;
    for byte in rest(line, from) {
        if *byte != b' ' {
            break;
        }
        end = end.saturating_add(1);
    }
    end
}

/// Where a line is bad. For a part of a tag, also the part's name and form.
#[derive(Clone, Copy)]
pub(crate) struct Bad {
    pub place: usize,
    pub part: Option<(&'static str, &'static str)>,
}

/// The first field of a command's line that may not stand there; of a tag, its first bad part. If fields are missing,
/// it is the command's word.
pub(crate) fn bad_part(alloc: Global, line: &[u8]) -> Result<Bad, AllocError> {
    let word = field_from(line, 0);
    let forms = forms_of(part(line, word));
    let mut from = word.end;
    let mut has_tags = false;
    for number in 0..line.len() {
        let field = field_from(line, from);
        if field.start == field.end {
            break;
        }
        let bytes = part(line, field);
        let is_good = match form_at(forms, number) {
            Some(form) => fits(alloc, form, has_tags, bytes)?,
            None => false,
        };
        if !is_good {
            return bad_field(alloc, field.start, bytes, form_at(forms, number));
        }
        has_tags = has_tags || bytes.starts_with(b"@");
        from = field.end;
    }
    Ok(whole(word.start))
}

fn whole(place: usize) -> Bad {
    Bad { place, part: None }
}

// Where the field that begins at a place is bad.
fn bad_field(
    alloc: Global,
    start: usize,
    field: &[u8],
    form: Option<Form>,
) -> Result<Bad, AllocError> {
    match (form, field) {
        (Some(Form::Given), [b'@', tag @ ..]) => bad_tag(alloc, start.saturating_add(1), tag),
        _ => Ok(whole(start)),
    }
}

// The bad part of a tag; the tag itself if it lacks a part. The tag's text after `@` begins at `start`.
fn bad_tag(alloc: Global, start: usize, tag: &[u8]) -> Result<Bad, AllocError> {
    let offset = before(tag, b':');
    let from_key = rest(tag, offset.len().saturating_add(1));
    let key = before(from_key, b'=');
    let value = rest(from_key, key.len().saturating_add(1));
    let key_start = start.saturating_add(offset.len()).saturating_add(1);
    if offset.len() == tag.len() {
        return Ok(whole(start.saturating_sub(1)));
    }
    if !is_line_of(alloc, [b"feed a @", offset, b":a=0"])? {
        return Ok(named(start, "OFFSET", "a whole number from 0"));
    }
    if !is_line_of(alloc, [b"feed a @0:", key, b"=0"])? {
        return Ok(named(key_start, "KEY", KEY_TEXT));
    }
    let value_start = key_start.saturating_add(key.len()).saturating_add(1);
    if !is_line_of(alloc, [b"feed a @0:a=", value, b""])? {
        return Ok(named(value_start, "VALUE", "a whole number"));
    }
    Ok(whole(start.saturating_sub(1)))
}

fn named(place: usize, name: &'static str, shape: &'static str) -> Bad {
    Bad {
        place,
        part: Some((name, shape)),
    }
}

// The text before the first `mark`, or all of it if there is none.
fn before(text: &[u8], mark: u8) -> &[u8] {
    for (end, byte) in text.iter().enumerate() {
        if *byte == mark {
            return part(text, Span { start: 0, end });
        }
    }
    text
}

// The form of the field of this number, if a line may have so many.
fn form_at(forms: &[Form], number: usize) -> Option<Form> {
    match (forms.get(number), forms.last()) {
        (Some(form), _) => Some(*form),
        (None, Some(Form::Number)) => Some(Form::Number),
        (None, Some(Form::Given)) => Some(Form::Given),
        (None, _) => None,
    }
}

// Whether a field has a form: whether a line with this field and other good ones is good.
fn fits(alloc: Global, form: Form, has_tags: bool, field: &[u8]) -> Result<bool, AllocError> {
    let (before, behind) = match form {
        Form::Name => ("why ", ""),
        Form::At => ("set a ", " 0"),
        Form::From => ("read a ", " 1"),
        Form::Max => ("step a ", ""),
        Form::Number => ("set a 0 ", ""),
        Form::Given if has_tags => ("feed a @0:a=0 ", ""),
        Form::Given => ("feed a ", ""),
    };
    is_line_of(alloc, [before.as_bytes(), field, behind.as_bytes()])
}

// Whether these texts, one after the other, are the line of a command.
fn is_line_of(alloc: Global, parts: [&[u8]; 3]) -> Result<bool, AllocError> {
    let mut line = Vec::new(alloc);
    match put_parts(&mut line, &parts) {
        Ok(()) => is_command(alloc, &line),
        Err(refusal) => Err(refusal),
    }
}

fn is_command(alloc: Global, line: &[u8]) -> Result<bool, AllocError> {
    match parse_line(alloc, line)? {
        Line::Command(_) => Ok(true),
        Line::Nothing | Line::Bad => Ok(false),
    }
}

fn put_parts(line: &mut Vec<u8>, parts: &[&[u8]]) -> Result<(), AllocError> {
    for part in parts {
        line.extend_from_slice(part)?;
    }
    Ok(())
}
