//! Where a tag goes when its stream changes its rate.
ghost use Rattle.std.specs.Prelude.{◌≡◌, ◌<◌, ◌^◌};
ghost use Rattle.stream_model.specs.Tags.{place_at_rate};

/// Where a tag on input item `offset` goes at a block that takes `taken` items for each `given` that it gives:
/// `offset * given / taken` to the nearest whole number; ties round up. Offsets count items from 0. It takes no memory.
#[tactic(auto, using(crate::proofs::Rounding::same_rate, crate::proofs::Rounding::rounds_down, crate::proofs::Rounding::rounds_up))]
pub fn place(taken: u64, given: u64, offset: u64) -> u64
    requires rate { 0 < taken }
    requires fits { place_at_rate taken given offset < 2 ^ 64 }
    ensures { result ≡ place_at_rate taken given offset }
{
    // The common case, without two long divisions.
    if taken == given {
        return offset;
    }
    let product = u128::from(offset) * u128::from(given);
    let taken = u128::from(taken);
    let (whole, rest) = (product / taken, product % taken);
    let rounded = if 2 * rest < taken { whole } else { whole + 1 };
    rounded as u64
}
