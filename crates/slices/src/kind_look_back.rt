//! How far back each kind of block looks.
ghost use Rattle.std.specs.Prelude.{◌≡◌};
ghost use Rattle.kinds.specs.Kind.{meaning_of};
ghost use Rattle.slices.specs.Kinds.{shown_by};

use crate::look_back::{Forgets, LookBack};
use block_trait::{Block, Shift};
use kinds::Kind;

/// The most bits of a register. A descrambler's block does not tell how many its register has.
const MOST_BITS: u64 = 32;

/// How far back a block looks, if its shift and its history show it.
fn shown(block: &Kind) -> LookBack
    ensures { result ≡ shown_by (meaning_of block.now).shift (meaning_of block.now).history }
{
    match block.shift() {
        Shift::No => LookBack::Items(u64::from(block.history()).saturating_sub(1)),
        Shift::Skip(count) => LookBack::Skip(count),
        Shift::Delay(count) => LookBack::Delay(count),
    }
}

impl Forgets for Kind {
    ghost use Rattle.slices.specs.Kinds.{look_back_of, later_of, counts_of};
    ghost use Rattle.slices.specs.Forgetting.{look_back_of-holds, counts_of-holds};
    ghost use Rattle.slices.specs.Placing.{look_back_of-places};

    ghost looks_back = { look_back_of };

    ghost later = { later_of };

    ghost counting = { counts_of };

    fn look_back(&self) -> LookBack {
        match self {
            Kind::SampleAndHold(_)
            | Kind::Pattern(_)
            | Kind::Counter(_)
            | Kind::DiffEncoder(_)
            | Kind::Scrambler(_)
            | Kind::StateMachine(_) => LookBack::Everything,
            Kind::Descrambler(_) => LookBack::Items(MOST_BITS),
            _ => shown(self),
        }
    }

    fn after(self, firings: u64) -> Kind {
        match self {
            Kind::Head(head) => Kind::Head(head.after(firings)),
            Kind::AdditiveScrambler(scrambler) => {
                Kind::AdditiveScrambler(scrambler.after(firings))
            }
            kind => kind,
        }
    }

    fn counts(&self) -> bool {
        match self {
            Kind::Head(_) | Kind::AdditiveScrambler(_) => true,
            _ => false,
        }
    }

    ghost stays = { counts_of-holds };

    ghost forgets = { look_back_of-holds };

    ghost places = { look_back_of-places };
}
