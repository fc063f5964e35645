//! What a line of marks says.

ghost use Rattle.std.specs.Prelude.{◌≡◌, Some};
ghost use Rattle.std.specs.Option.{option_map};
ghost use Rattle.script_text.specs.Commands.{mark_seen};
ghost use Rattle.script_text.specs.Numbers.{natural_of, within};
ghost use Rattle.pipeline.specs.MarkLines.{item_of, mark_held, saying_of, saying_seen, until_of};

use items::Mark;
use script_text::parse_mark_line;

// A longer line says nothing that it may.
const LONGEST_LINE: usize = 65_536;

/// What a line says. It counts the items of the whole tape.
#[derive(Clone, Copy, Debug)]
pub enum MarkLine {
    /// A mark on an item.
    Mark(Mark),
    /// No mark on an item below this one comes any more.
    Until(u64),
}

impl MarkLine {
    /// What a line without its end says, if it may: a mark, or `until` and the number of an item.
    pub fn parse(line: &[u8]) -> Option<MarkLine>
        ensures { option_map saying_seen result ≡ saying_of line.now }
    {
        if let Some(item) = parse_until(line) {
            return Some(MarkLine::Until(item));
        }
        match parse_mark_line(line) {
            Some(mark) => Some(MarkLine::Mark(mark)),
            None => None,
        }
    }

    /// The item that it speaks of. No later line speaks of one before it.
    pub fn item(&self) -> u64
        ensures { result ≡ item_of (saying_seen self.now) }
    {
        match self {
            MarkLine::Mark(mark) => mark.offset,
            MarkLine::Until(item) => *item,
        }
    }

    // The mark, if it is one.
    pub(crate) fn mark(&self) -> Option<Mark>
        ensures { option_map mark_seen result ≡ mark_held (Some (saying_seen self.now)) }
    {
        match self {
            MarkLine::Mark(mark) => Some(*mark),
            MarkLine::Until(_) => None,
        }
    }
}

// The item of `until N`.
fn parse_until(line: &[u8]) -> Option<u64>
    ensures { result ≡ until_of line.now }
{
    if line.len() > LONGEST_LINE {
        return None;
    }
    let digits = line.strip_prefix(b"until ")?;
    parse_natural(digits, u64::MAX)
}

// The number that the digits spell, if it is at most this.
fn parse_natural(digits: &[u8], most: u64) -> Option<u64>
    ensures { result ≡ within 0 most (natural_of digits.now) }
{
    if digits.len() == 0 {
        return None;
    }
    let mut number = 0;
    for digit in digits {
        if !digit.is_ascii_digit() {
            return None;
        }
        if number > most / 10 {
            return None;
        }
        let value = u64::from(*digit - b'0');
        if value > most - 10 * number {
            return None;
        }
        number = 10 * number + value;
    }
    Some(number)
}
