//! Blocks that put bits into bytes or take them out.
ghost use Rattle.std.specs.Prelude.{◌≡◌, ◌≤◌, ◌↔◌, IsOk, IfOk, IfErr};

use crate::packing::Packing;
use block_parameters::{ParamFault, Parameter};
use block_trait::{Batch, Block, ByPace, Held, Shape, Single, ports, work_single};
use item_dispatch::{ByteWork, make_bytes};
use items::{ItemType, Items};
use std::marker::PhantomData;

/// A block that goes between `k` bits and a byte. `P` says which way.
#[derive(Drop)]
#[derive_where(Debug, PartialEq, Eq)]
pub struct KBits<P> {
    k: u32,
    #[derive_where(skip)]
    kind: PhantomData<P>,
    ghost some: { 1 ≤ k },
    ghost few: { k ≤ 8 },
}

impl<P: Packing> KBits<P> {
    ghost use Rattle.bit_blocks.specs.Kinds.{k_bits_of};

    /// The block with this `k`; `BadParameter` outside 1 to 8.
    pub fn new(k: u32) -> Result<KBits<P>, ParamFault>
        ensures meaning { IfOk result (λ block. k_bits_of P.equation block ≡ P.equation k) }
        ensures range { IsOk result ↔ ((1 ≤ k) × (k ≤ 8)) }
        ensures err { IfErr result (λ fault. fault ≡ ParamFault.BadParameter Parameter.K) }
    {
        if k < 1 || 8 < k {
            return Err(ParamFault::BadParameter(Parameter::K));
        }
        Ok(KBits {
            k,
            kind: PhantomData,
        })
    }
}

impl<P: Packing> ByteWork for KBits<P> {
    ghost use Rattle.std.specs.Prelude.{length, ◌*◌};

    ghost can_make = { λ b xs count. P.taken b.k * count ≡ P.given b.k * length xs };

    ghost makes = { λ b xs count. P.makes b.k xs };

    fn make(&self, items: &[u8], out: &mut [u8]) {
        P::make(self.k, items, out);
    }
}

impl<P: Packing> Single for KBits<P> {
    ghost use Rattle.bit_blocks.specs.Kinds.{k_bits_of};
    ghost use Rattle.bit_blocks.specs.Packed.{packing-single};

    ghost equation = { k_bits_of P.equation };

    fn fill(&self, batch: &Batch<'_>, out: &mut Items) -> u64 {
        let (_taken, given) = P::pace(self.k);
        make_bytes(self, batch.window, (given * batch.count) as usize, out);
        0
    }

    ghost single = { λ b. packing-single (P.packed b.k b.some) };
}

impl<P: Packing> Block for KBits<P> {
    ghost use Rattle.std.proofs.Common.{ap};
    ghost use Rattle.block_trait.specs.SameItem.{same_number};
    ghost use Rattle.bit_blocks.specs.Kinds.{k_bits_of};

    ghost meaning = { k_bits_of P.equation };

    type Places = ByPace;

    fn shape(&self, _input: usize) -> Shape<'_> {
        let (taken, given) = P::pace(self.k);
        let bytes = ports(1, ItemType::Byte);
        Shape::at_rate(bytes, bytes, taken, given)
    }

    fn work(
        &self,
        state: u64,
        first: u64,
        count: u64,
        windows: &[Items],
        held: &[Held],
        out: &mut [Items],
    ) -> u64 {
        work_single(self, state, first, count, windows, held, out)
    }

    ghost lawful = { λ b. P.lawful b.k b.some b.few };

    ghost same = { λ a b e. ap P.equation (same_number a.k b.k e) };
}
