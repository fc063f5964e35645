//! Lines that say a mark each.
ghost use Rattle.std.specs.Prelude.{◌≡◌};
ghost use Rattle.std.specs.Option.{option_map};
ghost use Rattle.script_text.specs.Commands.{mark_seen};
ghost use Rattle.script_text.specs.MarkLines.{line_mark};

use crate::bytes::cut_at;
use crate::numerals::parse_natural;
use crate::parse::{LONGEST_LINE, parse_mark};
use items::Mark;

const SLASH: u8 = b'/';

/// The mark that a line says, as it stands in a line of a script or where tags are written, with the source of the tag
/// behind it, which is passed over.
pub fn parse_mark_line(line: &[u8]) -> Option<Mark>
    ensures { option_map mark_seen result ≡ line_mark line.now }
{
    if line.len() > LONGEST_LINE {
        return None;
    }
    match cut_at(line, SLASH) {
        Some((mark, source)) => {
            parse_natural(source, u64::from(u32::MAX))?;
            parse_mark(mark)
        }
        None => parse_mark(line),
    }
}
