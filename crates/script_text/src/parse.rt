//! Lines as commands.
ghost use Rattle.std.specs.Prelude.{◌≡◌, ◌≢◌, ◌↔◌, [], ◌∷◌, IsTrue, IsSome, IfOk, OnErr, IfSome, IfNone, None};
ghost use Rattle.std.specs.Option.{option_map};
ghost use Rattle.items.specs.Name.{name_of};
ghost use Rattle.script_text.specs.Fields.{fields_of};
ghost use Rattle.script_text.specs.Grammar.{SaysList, says, parsed_line, command_of, feed_of, close_of, set_of, claim_of, commit_of, abandon_of, step_of, read_of, why_of, quiet_of, settle_of, name_alone, name_and_max, only_two, place_of, integers_of, given_of, marks_of, mark_of, mark_at, with_items};
ghost use Rattle.script_text.specs.Numbers.{max_of, integer_of};
ghost use Rattle.script_text.specs.Commands.{line_seen, command_seen, marks_seen, mark_seen};

use crate::bytes::{begins_with, cut_at, next_field};
use crate::name::block_name;
use crate::numerals::{parse_integer, parse_natural};
use crate::{Command, Line};
use items::{BlockName, Mark, TagKey};
use std::alloc::{AllocError, Global};

/// So many bytes a line may have, without what ends it.
pub(crate) const LONGEST_LINE: usize = 65536;

/// What a line says, without what ends it. Memory is asked for only where it is a command with numbers or marks.
#[tactic(auto, unfolding(crate::specs::Grammar::parsed_line))]
pub fn parse_line(alloc: Global, line: &[u8]) -> Result<Line, AllocError>
    ensures ok { IfOk result (λ l. line_seen l ≡ parsed_line line.now) }
    ensures err { OnErr result (SaysList (parsed_line line.now)) }
{
    if line.len() > LONGEST_LINE {
        return Ok(Line::Bad);
    }
    if begins_with(line, b'#') {
        return Ok(Line::Nothing);
    }
    let Some((word, fields)) = next_field(line) else {
        return Ok(Line::Nothing);
    };
    match parse_command(alloc, word, fields)? {
        Some(command) => Ok(Line::Command(command)),
        None => Ok(Line::Bad),
    }
}

// The command that the first field and those behind it are.
fn parse_command(alloc: Global, word: &[u8], fields: &[u8]) -> Result<Option<Command>, AllocError>
    ensures ok { IfOk result (λ command. option_map command_seen command ≡ command_of word.now (fields_of fields.now)) }
    ensures err { OnErr result (SaysList (says (command_of word.now (fields_of fields.now)))) }
{
    if word == b"feed".as_slice() {
        parse_feed(alloc, fields)
    } else if word == b"close".as_slice() {
        Ok(parse_close(fields))
    } else if word == b"set".as_slice() {
        parse_set(alloc, fields)
    } else if word == b"claim".as_slice() {
        Ok(parse_claim(fields))
    } else if word == b"commit".as_slice() {
        Ok(parse_commit(fields))
    } else if word == b"abandon".as_slice() {
        Ok(parse_abandon(fields))
    } else if word == b"step".as_slice() {
        Ok(parse_step(fields))
    } else if word == b"read".as_slice() {
        Ok(parse_read(fields))
    } else if word == b"why".as_slice() {
        Ok(parse_why(fields))
    } else if word == b"quiet".as_slice() {
        Ok(parse_quiet(fields))
    } else if word == b"settle".as_slice() {
        Ok(parse_settle(fields))
    } else {
        Ok(None)
    }
}

fn parse_feed(alloc: Global, fields: &[u8]) -> Result<Option<Command>, AllocError>
    ensures ok { IfOk result (λ command. option_map command_seen command ≡ feed_of (fields_of fields.now)) }
    ensures err { OnErr result (SaysList (says (feed_of (fields_of fields.now)))) }
{
    let Some((name, given)) = next_field(fields) else {
        return Ok(None);
    };
    let Some(name) = block_name(name) else {
        return Ok(None);
    };
    if !are_given(given) {
        return Ok(None);
    }
    let Some((items, marks)) = parse_items(alloc, given)? else {
        return Ok(None);
    };
    let Some(marks) = parse_marks(alloc, marks)? else {
        return Ok(None);
    };
    Ok(Some(Command::Feed { name, items, marks }))
}

fn parse_close(fields: &[u8]) -> Option<Command>
    ensures { option_map command_seen result ≡ close_of (fields_of fields.now) }
{
    let name = parse_name_alone(fields)?;
    Some(Command::Close { name })
}

fn parse_set(alloc: Global, fields: &[u8]) -> Result<Option<Command>, AllocError>
    ensures ok { IfOk result (λ command. option_map command_seen command ≡ set_of (fields_of fields.now)) }
    ensures err { OnErr result (SaysList (says (set_of (fields_of fields.now)))) }
{
    let Some((name, rest)) = next_field(fields) else {
        return Ok(None);
    };
    let Some((place, numbers)) = next_field(rest) else {
        return Ok(None);
    };
    if next_field(numbers).is_none() {
        return Ok(None);
    }
    let Some(name) = block_name(name) else {
        return Ok(None);
    };
    let Some(at) = parse_place(place) else {
        return Ok(None);
    };
    if !are_integers(numbers) {
        return Ok(None);
    }
    let Some(numbers) = parse_integers(alloc, numbers)? else {
        return Ok(None);
    };
    Ok(Some(Command::Set { name, at, numbers }))
}

fn parse_claim(fields: &[u8]) -> Option<Command>
    ensures { option_map command_seen result ≡ claim_of (fields_of fields.now) }
{
    let (name, max) = parse_name_and_max(fields)?;
    Some(Command::Claim { name, max })
}

fn parse_commit(fields: &[u8]) -> Option<Command>
    ensures { option_map command_seen result ≡ commit_of (fields_of fields.now) }
{
    let name = parse_name_alone(fields)?;
    Some(Command::Commit { name })
}

fn parse_abandon(fields: &[u8]) -> Option<Command>
    ensures { option_map command_seen result ≡ abandon_of (fields_of fields.now) }
{
    let name = parse_name_alone(fields)?;
    Some(Command::Abandon { name })
}

fn parse_step(fields: &[u8]) -> Option<Command>
    ensures { option_map command_seen result ≡ step_of (fields_of fields.now) }
{
    let (name, max) = parse_name_and_max(fields)?;
    Some(Command::Step { name, max })
}

fn parse_read(fields: &[u8]) -> Option<Command>
    ensures { option_map command_seen result ≡ read_of (fields_of fields.now) }
{
    let (name, rest) = next_field(fields)?;
    let (from, max) = two_fields(rest)?;
    read_command(name, from, max)
}

fn read_command(name: &[u8], from: &[u8], max: &[u8]) -> Option<Command>
    ensures { option_map command_seen result ≡ read_of (name.now ∷ from.now ∷ max.now ∷ []) }
{
    let name = block_name(name)?;
    let from = parse_natural(from, u64::MAX)?;
    let max = parse_max(max)?;
    Some(Command::Read { name, from, max })
}

fn parse_why(fields: &[u8]) -> Option<Command>
    ensures { option_map command_seen result ≡ why_of (fields_of fields.now) }
{
    let name = parse_name_alone(fields)?;
    Some(Command::Why { name })
}

fn parse_quiet(fields: &[u8]) -> Option<Command>
    ensures { option_map command_seen result ≡ quiet_of (fields_of fields.now) }
{
    if next_field(fields).is_some() {
        return None;
    }
    Some(Command::Quiet)
}

fn parse_settle(fields: &[u8]) -> Option<Command>
    ensures { option_map command_seen result ≡ settle_of (fields_of fields.now) }
{
    if next_field(fields).is_some() {
        return None;
    }
    Some(Command::Settle)
}

// The name that is the only field.
fn parse_name_alone(fields: &[u8]) -> Option<BlockName>
    ensures { result ≡ name_alone (fields_of fields.now) }
{
    let (name, rest) = next_field(fields)?;
    if next_field(rest).is_some() {
        return None;
    }
    block_name(name)
}

// The name and the number that are the only fields.
fn parse_name_and_max(fields: &[u8]) -> Option<(BlockName, u32)>
    ensures { result ≡ name_and_max (fields_of fields.now) }
{
    let (name, max) = two_fields(fields)?;
    let name = block_name(name)?;
    let max = parse_max(max)?;
    Some((name, max))
}

// The two fields that are the only ones.
fn two_fields(fields: &[u8]) -> Option<(&[u8], &[u8])>
    ensures { option_map (λ two. (two.0.now, two.1.now)) result ≡ only_two (fields_of fields.now) }
{
    let (first, rest) = next_field(fields)?;
    let (second, rest) = next_field(rest)?;
    if next_field(rest).is_some() {
        return None;
    }
    Some((first, second))
}

// Where a setting begins to hold.
fn parse_place(field: &[u8]) -> Option<Option<u64>>
    ensures { result ≡ place_of field.now }
{
    if field == b"now".as_slice() {
        return Some(None);
    }
    let item = parse_natural(field, u64::MAX)?;
    Some(Some(item))
}

// How many at most: at least one.
fn parse_max(field: &[u8]) -> Option<u32>
    ensures { result ≡ max_of field.now }
{
    let max = parse_natural(field, u64::from(u32::MAX))?;
    if max == 0 {
        return None;
    }
    Some(max as u32)
}

// Whether the fields are items and then marks. So a bad line is told apart before memory is asked for.
fn are_given(fields: &[u8]) -> bool
    ensures { IsTrue result ↔ IsSome (given_of (fields_of fields.now)) }
{
    let mut rest = fields;
    while let Some((field, after)) = next_field(rest) {
        if begins_with(field, b'@') {
            return are_marks(rest);
        }
        if parse_integer(field).is_none() {
            return false;
        }
        rest = after;
    }
    true
}

fn are_marks(fields: &[u8]) -> bool
    ensures { IsTrue result ↔ IsSome (marks_of (fields_of fields.now)) }
{
    let mut rest = fields;
    while let Some((field, after)) = next_field(rest) {
        if parse_mark(field).is_none() {
            return false;
        }
        rest = after;
    }
    true
}

fn are_integers(fields: &[u8]) -> bool
    ensures { IsTrue result ↔ IsSome (integers_of (fields_of fields.now)) }
{
    let mut rest = fields;
    while let Some((field, after)) = next_field(rest) {
        if parse_integer(field).is_none() {
            return false;
        }
        rest = after;
    }
    true
}

// The items at the front, and the fields behind them, which begin with a mark if there are any.
fn parse_items(alloc: Global, fields: &[u8]) -> Result<Option<(Vec<i64>, &[u8])>, AllocError>
    ensures some { OnErr result (fields_of fields.now ≢ []) }
    ensures none { IfOk result (λ found. IfNone found (given_of (fields_of fields.now) ≡ None)) }
    ensures items { IfOk result (λ found. IfSome found (λ given.
        given_of (fields_of fields.now) ≡ with_items given.0.items (marks_of (fields_of given.1.now)))) }
{
    let mut items = Vec::new(alloc);
    let mut rest = fields;
    while let Some((field, after)) = next_field(rest) {
        if begins_with(field, b'@') {
            break;
        }
        let Some(item) = parse_integer(field) else {
            return Ok(None);
        };
        items.push(item)?;
        rest = after;
    }
    Ok(Some((items, rest)))
}

// The numbers that the fields are.
fn parse_integers(alloc: Global, fields: &[u8]) -> Result<Option<Vec<i64>>, AllocError>
    ensures { IfOk result (λ numbers. option_map (λ v. v.items) numbers ≡ integers_of (fields_of fields.now)) }
{
    let mut numbers = Vec::new(alloc);
    let mut rest = fields;
    while let Some((field, after)) = next_field(rest) {
        let Some(number) = parse_integer(field) else {
            return Ok(None);
        };
        numbers.push(number)?;
        rest = after;
    }
    Ok(Some(numbers))
}

// The marks that the fields are.
fn parse_marks(alloc: Global, fields: &[u8]) -> Result<Option<Vec<Mark>>, AllocError>
    ensures ok { IfOk result (λ marks. option_map (λ v. marks_seen v.items) marks ≡ marks_of (fields_of fields.now)) }
    ensures some { OnErr result (fields_of fields.now ≢ []) }
{
    let mut marks = Vec::new(alloc);
    let mut rest = fields;
    while let Some((field, after)) = next_field(rest) {
        let Some(mark) = parse_mark(field) else {
            return Ok(None);
        };
        marks.push(mark)?;
        rest = after;
    }
    Ok(Some(marks))
}

/// The mark that a field is.
pub(crate) fn parse_mark(field: &[u8]) -> Option<Mark>
    ensures { option_map mark_seen result ≡ mark_of field.now }
{
    if !begins_with(field, b'@') {
        return None;
    }
    let (offset, rest) = cut_at(&field[1..], b':')?;
    let (key, value) = cut_at(rest, b'=')?;
    let offset = parse_natural(offset, u64::MAX)?;
    let key = parse_key(key)?;
    mark_with(offset, key, value)
}

fn mark_with(offset: u64, key: TagKey, value: &[u8]) -> Option<Mark>
    ensures { option_map mark_seen result ≡ mark_at offset key (integer_of value.now) }
{
    let value = parse_integer(value)?;
    Some(Mark { offset, key, value })
}

fn parse_key(bytes: &[u8]) -> Option<TagKey>
    ensures { result ≡ name_of 16 bytes.now }
{
    TagKey::new(bytes)
}
