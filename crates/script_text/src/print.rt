//! Numbers, items and tags as text, written at the end of a vector.
ghost use Rattle.std.specs.Prelude.{◌≡◌, ◌++◌, map, OnOk};
ghost use Rattle.std.specs.List.{flat_map};
ghost use Rattle.std.specs.Fmt.{decimal, signed_decimal};
ghost use Rattle.items.specs.Items.{numbers_of};
ghost use Rattle.script_text.specs.Replies.{item_text, tag_line, tag_text, tag_value_text, held_text};
ghost use Rattle.script_text.specs.Printed.{tag_seen, tags_seen};

use items::{Items, Tag};
use itoa::Buffer;
use numbers::Number;
use std::alloc::AllocError;

/// Writes the number's digits at the end.
pub fn push_natural(out: &mut Vec<u8>, number: u64) -> Result<(), AllocError>
    ensures { OnOk result (out.new.items ≡ out.old.items ++ decimal number) }
{
    let mut digits = Buffer::new();
    out.extend_from_slice(digits.format(number).as_bytes())
}

/// Writes the number at the end, behind a minus sign if it is negative.
pub fn push_integer(out: &mut Vec<u8>, number: i64) -> Result<(), AllocError>
    ensures { OnOk result (out.new.items ≡ out.old.items ++ signed_decimal number) }
{
    let mut digits = Buffer::new();
    out.extend_from_slice(digits.format(number).as_bytes())
}

/// Writes a word and a number behind it.
pub fn push_counted(out: &mut Vec<u8>, word: &[u8], count: u64) -> Result<(), AllocError>
    ensures { OnOk result (out.new.items ≡ out.old.items ++ (word.now ++ decimal count)) }
{
    out.extend_from_slice(word)?;
    push_natural(out, count)
}

/// Writes a word and a name behind it.
pub fn push_named(out: &mut Vec<u8>, word: &[u8], name: &[u8]) -> Result<(), AllocError>
    ensures { OnOk result (out.new.items ≡ out.old.items ++ (word.now ++ name.now)) }
{
    out.extend_from_slice(word)?;
    out.extend_from_slice(name)
}

/// Writes what a sink holds: how many firings, and items, and tags.
pub fn push_held(
    out: &mut Vec<u8>,
    held: u64,
    items: &Items,
    tags: &[Tag],
) -> Result<(), AllocError>
    ensures { OnOk result (out.new.items ≡ out.old.items ++ held_text held (numbers_of items.now)
        (tags_seen tags.now)) }
{
    push_natural(out, held)?;
    push_items(out, items)?;
    push_tags(out, tags)
}

/// Writes the items at the end, each behind a space.
pub fn push_items(out: &mut Vec<u8>, items: &Items) -> Result<(), AllocError>
    ensures { OnOk result (out.new.items ≡ out.old.items ++ flat_map item_text (numbers_of items.now)) }
{
    match items {
        Items::Byte(numbers) => push_numbers(out, numbers),
        Items::Short(numbers) => push_numbers(out, numbers),
        Items::Int(numbers) => push_numbers(out, numbers),
    }
}

fn push_numbers<T: Number>(out: &mut Vec<u8>, numbers: &[T]) -> Result<(), AllocError>
    ensures { OnOk result (out.new.items ≡ out.old.items ++ flat_map item_text (map T.number numbers.now)) }
{
    for number in numbers {
        out.push(b' ')?;
        push_integer(out, number.widen())?;
    }
    Ok(())
}

/// Writes the tags at the end, each behind a space.
pub fn push_tags(out: &mut Vec<u8>, tags: &[Tag]) -> Result<(), AllocError>
    ensures { OnOk result (out.new.items ≡ out.old.items ++ flat_map tag_text (tags_seen tags.now)) }
{
    for tag in tags {
        push_tag(out, tag)?;
    }
    Ok(())
}

fn push_tag(out: &mut Vec<u8>, tag: &Tag) -> Result<(), AllocError>
    ensures { OnOk result (out.new.items ≡ out.old.items ++ tag_text (tag_seen tag.now)) }
{
    out.extend_from_slice(b" @")?;
    push_natural(out, tag.offset)?;
    out.push(b':')?;
    push_tag_value(out, tag)
}

/// Writes a line for each tag at the end: `@`, its offset, a colon, its key, `=`, its value, `/` and its source. It
/// fails only where the allocator refuses.
pub fn push_tag_lines(out: &mut Vec<u8>, tags: &[Tag]) -> Result<(), AllocError>
    ensures { OnOk result (out.new.items ≡ out.old.items ++ flat_map tag_line (tags_seen tags.now)) }
{
    for tag in tags {
        push_tag_line(out, tag)?;
    }
    Ok(())
}

fn push_tag_line(out: &mut Vec<u8>, tag: &Tag) -> Result<(), AllocError>
    ensures { OnOk result (out.new.items ≡ out.old.items ++ tag_line (tag_seen tag.now)) }
{
    out.push(b'@')?;
    push_natural(out, tag.offset)?;
    out.push(b':')?;
    push_tag_value(out, tag)?;
    out.push(b'\n')?;
    Ok(())
}

// What stands behind the colon.
fn push_tag_value(out: &mut Vec<u8>, tag: &Tag) -> Result<(), AllocError>
    ensures { OnOk result (out.new.items ≡ out.old.items ++ tag_value_text (tag_seen tag.now)) }
{
    out.extend_from_slice(tag.key.bytes())?;
    out.push(b'=')?;
    push_integer(out, tag.value)?;
    out.push(b'/')?;
    push_natural(out, u64::from(tag.source))
}
