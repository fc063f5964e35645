//! Scripts, line by line, as what the lines say.
ghost use Rattle.std.specs.Prelude.{◌≡◌, ◌-◌, ◌^◌, ◌<◌, ◌≤◌, ◌⊎◌, [], ◌∷◌, suc, length, IfOk, IfSome, OnErr};
ghost use Rattle.std.specs.Option.{option_map, option_to_list};
ghost use Rattle.script_text.specs.Lines.{lines_of, longest_line};
ghost use Rattle.script_text.specs.Splits.{IsUnfinished, TakesLine, KeepsBytes};
ghost use Rattle.script_text.specs.Grammar.{Parsed, SaysList, parsed_from, SaysAskable};
ghost use Rattle.script_text.specs.Commands.{line_seen};
ghost use Rattle.script_text.specs.Scripts.{Continues, StopsAtList};

use crate::{FirstLine, Line, LineSplitter, parse_line};
use std::alloc::{AllocError, Global};

const MOST_LINES: u64 = 4294967295;

/// Takes the next line, where its end has come, and returns what it says. A line that is too long is reported and
/// stays. An `Err` has taken it too, which is a command with numbers or marks; what says a line to be bad needs no
/// memory.
pub fn next_line(alloc: Global, lines: &mut LineSplitter) -> Result<Option<Line>, AllocError>
    requires { lines.old.taken < 2 ^ 64 - 1 }
    ensures ok { IfOk result (λ line. Continues (option_map line_seen line) lines.old lines.new) }
    ensures askable { IfOk result (λ line. IfSome line (λ l. SaysAskable (line_seen l))) }
    ensures err { OnErr result (TakesLine lines.old lines.new) }
    ensures list { OnErr result (StopsAtList lines.old) }
    ensures moves { TakesLine lines.old lines.new ⊎ KeepsBytes lines.old lines.new }
{
    match lines.take_line() {
        FirstLine::Whole => {
            if lines.taken() > MOST_LINES {
                Ok(Some(Line::Bad))
            } else {
                Ok(Some(parse_line(alloc, lines.line())?))
            }
        }
        FirstLine::TooLong => Ok(Some(Line::Bad)),
        FirstLine::Unfinished => Ok(None),
    }
}

/// What the last line says, at the end of the bytes, if there is one. An `Err` is for a command with numbers or marks.
pub fn last_line(alloc: Global, lines: &LineSplitter) -> Result<Option<Line>, AllocError>
    requires { IsUnfinished lines.now.rest }
    ensures says { IfOk result (λ line.
        option_to_list (option_map line_seen line) ≡ parsed_from (suc lines.now.taken) (lines_of lines.now.rest)) }
    ensures askable { IfOk result (λ line. IfSome line (λ l. SaysAskable (line_seen l))) }
    ensures list { OnErr result ((said : Parsed) × SaysList said × (said ∷ []
        ≡ parsed_from (suc lines.now.taken) (lines_of lines.now.rest))) }
{
    let Some(line) = lines.last_line() else {
        return Ok(None);
    };
    if lines.taken() >= MOST_LINES {
        return Ok(Some(Line::Bad));
    }
    Ok(Some(parse_line(alloc, line)?))
}
