//! The text of a refusal, in parts, so that it can be written without memory.
ghost use Rattle.std.specs.Prelude.{◌≡◌, ◌++◌};
ghost use Rattle.std.specs.List.{flat_map};
ghost use Rattle.refusal_codes.specs.Texts.{head, part_text, refusal_text};

use std::fmt;

/// A part of a text.
#[derive(Clone, Copy, Debug)]
pub enum TextPart<'a> {
    /// A text as it is.
    Text(&'a str),
    /// A number in decimal.
    Number(u64),
    /// A number in decimal, with its sign where it is negative.
    Signed(i64),
}

/// A text in parts, one behind the other. Where it has fewer, the last ones are empty.
#[derive(Clone, Copy, Debug)]
pub struct RefusalText<'a> {
    pub parts: [TextPart<'a>; 9],
}

/// No part.
pub const EMPTY: TextPart<'static> = TextPart::Text("");

/// What stands between two words.
pub const SPACE: TextPart<'static> = TextPart::Text(" ");

impl<'a> RefusalText<'a> {
    /// The number of a refusal, and its name.
    pub fn alone(row: (u32, &'static str)) -> RefusalText<'static>
        ensures { refusal_text result ≡ head (row.entry.0, row.entry.1.now) }
    {
        RefusalText::headed(row, [EMPTY; 6])
    }

    /// The number of a refusal, its name, and these parts behind them.
    pub fn of(row: (u32, &'static str), rest: [TextPart<'a>; 3]) -> RefusalText<'a>
        ensures { refusal_text result ≡ head (row.entry.0, row.entry.1.now) ++ flat_map part_text rest.entry }
    {
        let [first, second, third] = rest;
        RefusalText::headed(row, [first, second, third, EMPTY, EMPTY, EMPTY])
    }

    /// The number of a refusal, its name, and up to six parts behind them.
    pub fn headed(row: (u32, &'static str), rest: [TextPart<'a>; 6]) -> RefusalText<'a>
        ensures { refusal_text result ≡ head (row.entry.0, row.entry.1.now) ++ flat_map part_text rest.entry }
    {
        let (number, name) = row;
        let [first, second, third, fourth, fifth, sixth] = rest;
        RefusalText {
            parts: [
                TextPart::Number(u64::from(number)),
                SPACE,
                TextPart::Text(name),
                first,
                second,
                third,
                fourth,
                fifth,
                sixth,
            ],
        }
    }
}

impl fmt::Display for TextPart<'_> {
    ghost use Rattle.std.specs.Prelude.{Some};

    ghost output = { λ part. Some (part_text part) };

    fn fmt<W: fmt::Write>(&self, f: &mut fmt::Formatter<W>) -> fmt::Result {
        match self {
            TextPart::Text(text) => write!(f, "{text}"),
            TextPart::Number(number) => write!(f, "{number}"),
            TextPart::Signed(number) => write!(f, "{number}"),
        }
    }
}

impl fmt::Display for RefusalText<'_> {
    ghost use Rattle.std.specs.Prelude.{Some};

    ghost output = { λ text. Some (refusal_text text) };

    fn fmt<W: fmt::Write>(&self, f: &mut fmt::Formatter<W>) -> fmt::Result {
        for part in self.parts.as_slice() {
            write!(f, "{part}")?;
        }
        Ok(())
    }
}
