//! What one filter does otherwise than another: whether it gives fewer items than it takes, or more.
ghost use Rattle.std.specs.Prelude.{◌≡◌, ◌≤◌, ℕ, ℤ, List, length};
ghost use Rattle.stream_model.specs.declared.vocabulary.ItemType.{ItemType};
ghost use Rattle.stream_model.specs.Meaning.{Meaning, IsLawful};
ghost use Rattle.block_parameters.specs.declared.fault.Parameter.{Parameter};
ghost use Rattle.block_trait.specs.Fill.{IsSingle};
ghost use Rattle.fir_blocks.specs.Filters.{IsFilter};

use crate::polyphase::Polyphase;
use block_parameters::Parameter;

/// What the rate of a filter is.
pub trait FilterRate: Drop {
    /// What a filter means, by the type of its items, its taps, its rate and its shift.
    ghost equation: { ItemType → List ℤ → ℕ → ℕ → Meaning };

    /// The parameter that the rate is.
    ghost named: { Parameter };

    /// The parameter that the rate is.
    fn name() -> Parameter
        ensures { result ≡ named };

    /// How such a filter goes over its items.
    fn polyphase(taps: &[i16], rate: u64, shift: u32) -> Polyphase
        requires some_taps { 1 ≤ length taps.now }
        requires few_taps { length taps.now ≤ 256 }
        requires some { 1 ≤ rate }
        requires few { rate ≤ 1024 }
        requires shifts { shift ≤ 31 }
        ensures { (t : ItemType) → IsFilter (equation t taps.now rate shift) t taps.now result };

    /// It has one input and one output.
    ghost single: { (t : ItemType) (taps : List ℤ) (rate shift : ℕ) → IsSingle (equation t taps rate shift) };

    /// The laws that the runtime rests on.
    ghost lawful: { (t : ItemType) (taps : List ℤ) (rate shift : ℕ) → 1 ≤ length taps → 1 ≤ rate → rate ≤ 1024 → IsLawful (equation t taps rate shift) };
}
