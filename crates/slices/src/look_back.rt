//! How far back blocks look.
ghost use Rattle.std.specs.Prelude.{◌≡◌, ℕ, Bool, false};
ghost use Rattle.stream_model.specs.Meaning.{Meaning};
ghost use Rattle.slices.specs.LookBack.{is_forgetful, back_of, start_of, tags_back_of, tags_start_of, HasLookBack, HasPlaces};

use crate::MOST_FIRINGS;
use block_trait::Block;

/// How far back a block looks.
#[derive(Clone, Copy, Debug, PartialEq, Eq)]
pub enum LookBack {
    /// A firing reads the items that it takes and so many before them.
    Items(u64),
    /// The stream comes so many items late.
    Delay(u64),
    /// So many first items are left out.
    Skip(u64),
    /// What a firing gives depends on all items that ever came.
    Everything,
}

impl LookBack {
    /// Whether the block forgets what came long ago.
    pub fn is_forgetful(self) -> bool
        ensures { result ≡ is_forgetful self }
    {
        match self {
            LookBack::Items(_) | LookBack::Delay(_) | LookBack::Skip(_) => true,
            LookBack::Everything => false,
        }
    }

    /// How many items a firing reads before those at its own place.
    pub(crate) fn back(self) -> u64
        ensures { result ≡ back_of self }
    {
        match self {
            LookBack::Items(count) | LookBack::Delay(count) => count,
            LookBack::Skip(_) | LookBack::Everything => 0,
        }
    }

    /// How many firings give nothing.
    pub(crate) fn start(self) -> u64
        ensures { result ≡ start_of self }
    {
        match self {
            LookBack::Skip(count) => count,
            LookBack::Items(_) | LookBack::Delay(_) | LookBack::Everything => 0,
        }
    }

    /// How many items before those at its own place have tags that go to what a firing gives. By the block's rate these
    /// are `nearest`.
    pub(crate) fn tags_back(self, nearest: u64) -> u64
        ensures { result ≡ tags_back_of self nearest }
    {
        match self {
            LookBack::Items(_) => nearest,
            LookBack::Delay(count) => count,
            LookBack::Skip(_) | LookBack::Everything => 0,
        }
    }

    /// How many firings come before those whose tags may be right. Tags on skipped items go to the first item that is
    /// given, so that one is not right.
    pub(crate) fn tags_start(self) -> u64
        ensures { result ≡ tags_start_of self }
    {
        match self {
            LookBack::Skip(count) => count.min(MOST_FIRINGS) + 1,
            LookBack::Items(_) | LookBack::Delay(_) | LookBack::Everything => 0,
        }
    }
}

/// A block that tells how far back it looks, and that can go on from where it stands.
pub trait Forgets: Block {
    ghost use Rattle.slices.specs.declared.look_back.LookBack.{LookBack};

    /// How far back the block looks.
    ghost looks_back: { Self → LookBack };

    /// What it goes on as after so many firings.
    ghost later: { Self → ℕ → Meaning };

    /// How far back the block looks.
    fn look_back(&self) -> LookBack
        ensures { result ≡ looks_back self.now };

    /// The block that goes on where this one stands after so many firings. One that does not count them goes on
    /// unchanged.
    fn after(self, firings: u64) -> Self
        ensures { Self.meaning result ≡ later self firings };

    /// Whether its output depends on how many firings came before.
    ghost counting: { Self → Bool };

    /// Whether its output depends on how many firings came before.
    fn counts(&self) -> bool
        ensures { result ≡ counting self.now };

    /// If not, it goes on unchanged.
    ghost stays: { (b : Self) → counting b ≡ false → (c : ℕ) → later b c ≡ Self.meaning b };

    /// It looks no further back: the block that goes on after some firings gives what this one would have given, as
    /// soon as its inputs are right from there on.
    ghost forgets: { (b : Self) → HasLookBack (Self.meaning b) (later b) (looks_back b) };

    /// Its tags reach no further back either: they are right as soon as those of its inputs are right from there on.
    ghost places: { (b : Self) → HasPlaces (Self.meaning b) (looks_back b) };
}
