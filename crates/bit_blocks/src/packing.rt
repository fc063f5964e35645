//! What packing and unpacking do otherwise.
ghost use Rattle.std.specs.Prelude.{◌≡◌, ◌≤◌, ◌*◌, ℕ, ℤ, List, pos, map, length};
ghost use Rattle.stream_model.specs.Meaning.{Meaning, IsLawful};
ghost use Rattle.bit_blocks.specs.Packed.{IsPacking};

/// Which way a block goes between `k` bits and a byte.
pub trait Packing: Drop {
    /// What a block means by its `k`.
    ghost equation: { ℕ → Meaning };

    /// How many bytes a firing takes.
    ghost taken: { ℕ → ℕ };

    /// How many it gives.
    ghost given: { ℕ → ℕ };

    /// What is made of some bytes.
    ghost makes: { ℕ → List ℤ → List ℤ };

    /// How many bytes a firing takes, and how many it gives.
    fn pace(k: u32) -> (u64, u64)
        ensures taken { result.0 ≡ taken k }
        ensures given { result.1 ≡ given k };

    /// Writes what is made of the bytes.
    fn make(k: u32, bytes: &[u8], out: &mut [u8])
        requires some { 1 ≤ k }
        requires few { k ≤ 8 }
        requires lengths { taken k * length out.old ≡ given k * length bytes.now }
        ensures { map pos out.new ≡ makes k (map pos bytes.now) };

    /// What is made is the equation, at this pace.
    ghost packed: { (k : ℕ) → 1 ≤ k → IsPacking (equation k) (taken k) (given k) (makes k) };

    /// The laws that the runtime rests on.
    ghost lawful: { (k : ℕ) → 1 ≤ k → k ≤ 8 → IsLawful (equation k) };
}
