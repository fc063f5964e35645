//! The block that keeps `m` of each `n` items.
ghost use Rattle.std.specs.Prelude.{◌≡◌, ◌<◌, ◌≤◌, ◌+◌, ◌*◌, ◌/◌, ◌%◌, ◌⊎◌, ◌↔◌, length, map, IsOk, IfOk, IsErrOf};
ghost use Rattle.kind_model.specs.Rates.{IsKept, keep_m_in_n};
ghost use Rattle.stream_model.specs.Lists.{item, listed};

use block_parameters::{ParamFault, Parameter};
use block_trait::{Batch, Block, ByPace, Held, Shape, Single, ports, work_single};
use item_dispatch::{LaneWork, make_items};
use items::{ItemType, Items};
use lane_kernels::SimdLane;

/// Of each `n` items the `m` from item `offset` on, as GNU Radio's `keep_m_in_n`. There `offset` may be any number
/// below `n`: here the items that are kept lie whole in the `n`.
#[derive(Debug, Drop, PartialEq, Eq)]
pub struct KeepMInN {
    item: ItemType,
    m: u64,
    n: u64,
    offset: u64,
    ghost kept: { IsKept m n offset },
}

impl KeepMInN {
    ghost use Rattle.rate_blocks.specs.Framed.{keep_m_in_n_of};

    /// The block with an `m` of 1 to 1,024, an `n` of `m` to 1,024 and an `offset` of 0 to `n - m`; `BadParameter`
    /// names the first that is outside, in this order.
    pub fn new(item: ItemType, m: u64, n: u64, offset: u64) -> Result<KeepMInN, ParamFault>
        ensures meaning { IfOk result (λ block. keep_m_in_n_of block ≡ keep_m_in_n item m n offset) }
        ensures range { IsOk result ↔ IsKept m n offset }
        ensures bad_m { IsErrOf result (ParamFault.BadParameter Parameter.M) ↔ ((m < 1) ⊎ (1024 < m)) }
        ensures bad_n { IsErrOf result (ParamFault.BadParameter Parameter.N)
            ↔ ((1 ≤ m) × (m ≤ 1024) × ((n < m) ⊎ (1024 < n))) }
        ensures bad_offset { IsErrOf result (ParamFault.BadParameter Parameter.Offset)
            ↔ ((1 ≤ m) × (m ≤ n) × (n ≤ 1024) × (n < offset + m)) }
    {
        if m < 1 || 1_024 < m {
            return Err(ParamFault::BadParameter(Parameter::M));
        }
        if n < m || 1_024 < n {
            return Err(ParamFault::BadParameter(Parameter::N));
        }
        if n - m < offset {
            return Err(ParamFault::BadParameter(Parameter::Offset));
        }
        Ok(KeepMInN { item, m, n, offset })
    }
}

// The items that are kept of some rounds.
#[derive(Drop)]
struct Kept {
    rounds: usize,
    /// How many items of a round are kept.
    m: usize,
    /// How many items a round has.
    n: usize,
    /// How many items of a round come before those kept.
    offset: usize,
    ghost kept: { IsKept m n offset },
}

// Copies what is kept of each round. A caller that names `m` gets code for it.
#[inline(always)]
fn copy_kept<T: SimdLane>(kept: &Kept, m: usize, items: &[T], out: &mut [T])
    requires m { m ≡ kept.now.m }
    requires taken { length items.now ≡ kept.now.n * kept.now.rounds }
    requires given { length out.old ≡ kept.now.m * kept.now.rounds }
    ensures { map T.number out.new ≡ listed (length out.old) (λ k. item (map T.number items.now)
        (k / kept.now.m * kept.now.n + kept.now.offset + k % kept.now.m)) }
{
    let (rounds, n, offset) = (kept.rounds, kept.n, kept.offset);
    for k in 0..rounds {
        let from = k * n + offset;
        let at = k * m;
        out[at..at + m].copy_from_slice(&items[from..from + m]);
    }
}

impl LaneWork for Kept {
    ghost can_make = { λ b t xs count. (length xs ≡ b.n * b.rounds) × (count ≡ b.m * b.rounds) };

    ghost makes = { λ b t xs count. listed count (λ k. item xs (k / b.m * b.n + b.offset + k % b.m)) };

    fn make<T: SimdLane>(&self, items: &[T], out: &mut [T]) {
        match self.m {
            1 => copy_kept(self, 1, items, out),
            2 => copy_kept(self, 2, items, out),
            3 => copy_kept(self, 3, items, out),
            4 => copy_kept(self, 4, items, out),
            8 => copy_kept(self, 8, items, out),
            m => copy_kept(self, m, items, out),
        }
    }
}

impl Single for KeepMInN {
    ghost use Rattle.std.specs.Prelude.{refl};
    ghost use Rattle.rate_blocks.specs.Framed.{keep_m_in_n_of};

    ghost equation = { keep_m_in_n_of };

    fn fill(&self, batch: &Batch<'_>, out: &mut Items) -> u64 {
        let kept = Kept {
            rounds: batch.count as usize,
            m: self.m as usize,
            n: self.n as usize,
            offset: self.offset as usize,
        };
        make_items(&kept, batch.window, (self.m * batch.count) as usize, out);
        0
    }

    ghost single = { λ b. record { in_least = refl; in_most = refl; out_least = refl; out_most = refl } };
}

impl Block for KeepMInN {
    ghost use Rattle.rate_blocks.specs.Framed.{keep_m_in_n_of, keep_m_in_n_of-lawful, keep_m_in_n_of-same};

    ghost meaning = { keep_m_in_n_of };

    type Places = ByPace;

    fn shape(&self, _input: usize) -> Shape<'_> {
        Shape::at_rate(ports(1, self.item), ports(1, self.item), self.n, self.m)
    }

    fn work(
        &self,
        state: u64,
        first: u64,
        count: u64,
        windows: &[Items],
        held: &[Held],
        out: &mut [Items],
    ) -> u64 {
        work_single(self, state, first, count, windows, held, out)
    }

    ghost lawful = { keep_m_in_n_of-lawful };

    ghost same = { keep_m_in_n_of-same };
}
