//! The trait of all blocks.

ghost use Rattle.std.specs.Prelude.{◌≡◌, ◌<◌, ◌^◌, ◌+◌, IfOk, Option, List, ℤ, true};
ghost use Rattle.std.specs.Option.{option_map};
ghost use Rattle.stream_model.specs.Meaning.{Meaning, IsLawful};
ghost use Rattle.stream_model.specs.Settings as model;
ghost use Rattle.settings.specs.Values.{value_of};
ghost use Rattle.block_trait.specs.Shape.{IsShape, IsPlacedBy};
ghost use Rattle.block_trait.specs.Work.{CanWork, HasWorked, IsWorkOf};

use crate::placing::Placing;
use crate::shape::{Pace, Setting, Shape};
use items::Items;
use settings::{Held, Taps, Value};
use std::alloc::{AllocError, Global};
use stream_model::{Role, Shift, Signature, Wanted};
use tags::place;

/// A block of a flowgraph.
///
/// What it means is its ghost member `meaning`: its ports, counts and equation over whole streams. The methods return
/// the parts of the meaning, and `work` does some firings of it over windows of the streams. Counts are base firings:
/// one firing is one use of the equation. Inputs are numbered from 0; of a source, input 0 is its tape.
pub trait Block: Eq + Drop {
    /// What the block means.
    ghost meaning: { Self → Meaning };

    /// Where the block puts tags, if its pace is `Placed`. A block with another pace uses `ByPace`.
    type Places: Placing<Self>;

    /// Everything of the block but its equation, with the pace of an input. The other methods read it. It takes no
    /// memory.
    fn shape(&self, input: usize) -> Shape<'_>
        ensures shape { IsShape (meaning self.now) input result }
        ensures placed { IsPlacedBy (meaning self.now) (Self.Places.place_of self.now) input result.pace };

    /// What the block does with streams.
    final fn role(&self) -> Role
        ensures { result ≡ (meaning self.now).role }
    {
        self.shape(0).role
    }

    /// How many inputs may be used, and the type of their items.
    final fn inputs(&self) -> Signature
        ensures { result ≡ (meaning self.now).inputs }
    {
        self.shape(0).inputs
    }

    /// How many outputs may be used, and the type of their items.
    final fn outputs(&self) -> Signature
        ensures { result ≡ (meaning self.now).outputs }
    {
        self.shape(0).outputs
    }

    /// How many items of an input a firing takes, and how many it gives on each output. A block that shifts its stream
    /// has no rate.
    final fn rate(&self, input: usize) -> Option<(u64, u64)>
        ensures { result ≡ (meaning self.now).rate input }
    {
        match self.shape(input).pace {
            Pace::Rate(taken, given) | Pace::Turns(taken, given, _) | Pace::Placed(taken, given) =>
                { Some((taken, given)) }
            Pace::Skip(_) | Pace::Delay(_) => None,
        }
    }

    /// How a block without a rate moves its stream.
    final fn shift(&self) -> Shift
        ensures { result ≡ (meaning self.now).shift }
    {
        match self.shape(0).pace {
            Pace::Rate(_, _) | Pace::Turns(_, _, _) | Pace::Placed(_, _) => Shift::No,
            Pace::Skip(count) => Shift::Skip(count),
            Pace::Delay(count) => Shift::Delay(count),
        }
    }

    /// How many items of an input the first `firings` firings take.
    final fn taken(&self, input: usize, firings: u64) -> u64
        requires { (meaning self.now).taken input firings < 2 ^ 63 }
        ensures { result ≡ (meaning self.now).taken input firings }
    {
        self.shape(input).pace.taken(firings)
    }

    /// How many items the first `firings` firings give on each output.
    final fn given(&self, firings: u64) -> u64
        requires { (meaning self.now).given firings < 2 ^ 63 }
        ensures { result ≡ (meaning self.now).given firings }
    {
        self.shape(0).pace.given(firings)
    }

    /// Where a tag on an item of an input goes.
    final fn place(&self, input: usize, offset: u64) -> u64
        requires { (meaning self.now).place input offset < 2 ^ 63 }
        ensures { result ≡ (meaning self.now).place input offset }
    {
        match self.shape(input).pace {
            Pace::Rate(taken, given) => place(taken, given, offset),
            Pace::Turns(taken, given, before) => offset / taken * given + before + offset % taken,
            Pace::Placed(_, _) => Self::Places::place(self, input, offset),
            Pace::Skip(count) => offset.saturating_sub(count),
            Pace::Delay(count) => offset + count,
        }
    }

    /// After how many firings the block ends by itself; none where it does not.
    final fn limit(&self) -> Option<u64>
        ensures { result ≡ (meaning self.now).limit }
    {
        self.shape(0).limit
    }

    /// How many items of the past a firing reads, the current one included.
    final fn history(&self) -> u32
        ensures { result ≡ (meaning self.now).history }
    {
        self.shape(0).history
    }

    /// What the block's setting may be, where it has one.
    final fn setting(&self) -> Option<Wanted>
        ensures { result ≡ (meaning self.now).setting }
    {
        match self.shape(0).setting {
            Setting::Fixed => None,
            Setting::Number(least, greatest, _) => Some(Wanted::Number(least, greatest)),
            Setting::Taps(own) => Some(Wanted::Taps(own.len() as u32)),
        }
    }

    /// A copy of the block's own parameter, which a setting may replace, if it has one. It fails only where the
    /// allocator refuses, and only of taps.
    final fn own(&self, alloc: Global) -> Result<Option<Value>, AllocError>
        ensures { IfOk result (λ own. option_map value_of own ≡ (meaning self.now).own) }
    {
        Ok(match self.shape(0).setting {
            Setting::Fixed => None,
            Setting::Number(_, _, own) => Some(Value::Number(own)),
            Setting::Taps(own) => Some(Value::Taps(Taps::new(Vec::from_slice(alloc, own)?))),
        })
    }

    /// The state word before the first firing.
    final fn start(&self) -> u64
        ensures { result ≡ (meaning self.now).start }
    {
        self.shape(0).start
    }

    /// Does firings `first` to below `first + count`: writes what they give into the empty places `out`, one for each
    /// used output, and returns the state word after them. `state` is the word before them, `windows` has for each used
    /// input the items that they take behind the past that they read, and `held` the settings in force over these
    /// items. It takes no memory, and no place loses any.
    fn work(
        &self,
        state: u64,
        first: u64,
        count: u64,
        windows: &[Items],
        held: &[Held],
        out: &mut [Items],
    ) -> u64
        requires { CanWork (meaning self.now) first count state windows.now held.now out.old }
        ensures items { HasWorked (meaning self.now) first count state windows.now held.now out.old out.new }
        ensures word { (ts : List model.Held) (xs : List (List ℤ)) → IsWorkOf (meaning self.now) ts xs first count state
            windows.now held.now
            → result ≡ (meaning self.now).word ts xs (first + count) };

    /// The laws that the runtime rests on.
    ghost lawful: { (b : Self) → IsLawful (meaning b) };

    /// Blocks that are equal mean the same.
    ghost same: { (a b : Self) → Self.Eq.eq a b ≡ true → meaning a ≡ meaning b };
}
