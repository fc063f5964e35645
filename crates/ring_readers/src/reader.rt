//! Readers of a ring.
ghost use Rattle.std.specs.Prelude.{◌≡◌};

use std::marker::Model;

/// A reader of a ring: its number, from 0 in the order in which the ring's readers were added.
#[derive(Clone, Copy, Debug, PartialEq, Eq)]
pub struct Reader(usize);

impl Model for Reader {
    ghost use Rattle.std.specs.Prelude.{ℕ};

    ghost Value = { ℕ };

    ghost view = { λ r. r.0 };

    ghost inverse = { λ n. record { 0 = n } };
}

impl Reader {
    /// The reader of a number.
    pub fn numbered(number: usize) -> Reader
        ensures { result ≡ number }
    {
        Reader(number)
    }

    pub(crate) fn number(self) -> usize
        ensures { result ≡ self }
    {
        self.0
    }
}

/// Where a reader of a ring stands.
#[derive(Clone, Copy, Debug)]
pub struct ReaderState {
    /// How many items it has taken.
    pub place: u64,
    /// How many items it sees up to each one, that one included.
    pub history: u32,
    /// Whether the ring waits for it.
    pub live: bool,
}
