//! Tags as text.

ghost use Rattle.std.specs.Prelude.{◌≡◌, map, IfOk};
ghost use Rattle.std.specs.List.{flat_map};
ghost use Rattle.items.specs.Tags.{tag_of};
ghost use Rattle.script_text.specs.Replies.{tag_line};

use items::Tag;
use script_text::push_tag_lines;
use std::alloc::{AllocError, Global};

/// A line for each tag: `@`, its offset, a colon, its key, `=`, its value, `/` and its source. It fails only if the
/// allocator refuses.
pub fn tag_lines(alloc: Global, tags: &[Tag]) -> Result<Vec<u8>, AllocError>
    ensures { IfOk result (λ text. text.items ≡ flat_map tag_line (map tag_of tags.now)) }
{
    let mut text = Vec::new(alloc);
    push_tag_lines(&mut text, tags)?;
    Ok(text)
}
