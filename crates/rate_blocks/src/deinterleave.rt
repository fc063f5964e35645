//! The block that gives an item to each output in turn.
ghost use Rattle.std.specs.Prelude.{◌≡◌, ◌≤◌, ◌<◌, ◌^◌, ◌↔◌, All, [], length, map, IsOk, IfOk, IfErr};
ghost use Rattle.kind_model.specs.Rates.{deinterleave};

use crate::port_count::PortCount;
use block_parameters::{ParamFault, Parameter};
use block_trait::{Block, ByPace, Held, Shape, ports};
use item_dispatch::{AppendWork, append_items};
use items::{ItemType, Items};
use lane_kernels::SimdLane;

/// An item to each output in turn, as GNU Radio's `deinterleave` with a block size of 1.
#[derive(Debug, Drop, PartialEq, Eq)]
pub struct Deinterleave {
    item: ItemType,
    ports: PortCount,
}

impl Deinterleave {
    ghost use Rattle.rate_blocks.specs.Mux.{deinterleave_of};

    /// The block with this number of outputs, all of them used; `BadParameter` outside 1 to 16.
    pub fn new(item: ItemType, ports: u64) -> Result<Deinterleave, ParamFault>
        ensures meaning { IfOk result (λ block. deinterleave_of block ≡ deinterleave item ports) }
        ensures range { IsOk result ↔ ((1 ≤ ports) × (ports ≤ 16)) }
        ensures err { IfErr result (λ fault. fault ≡ ParamFault.BadParameter Parameter.Ports) }
    {
        Ok(Deinterleave {
            item,
            ports: PortCount::new(ports)?,
        })
    }
}

// One item of each `step`, the one at place `at`.
#[derive(Drop)]
struct EachOf {
    step: usize,
    at: usize,
}

impl AppendWork for EachOf {
    ghost use Rattle.std.specs.Prelude.{◌≡◌, ◌*◌, ◌<◌, length};
    ghost use Rattle.lane_kernels.specs.Streams.{deinterleaved};

    ghost can_make = { λ b t xs count. (length xs ≡ b.step * count) × (b.at < b.step) };

    ghost makes = { λ b t xs count. deinterleaved count b.step b.at xs };

    fn append<T: SimdLane>(&self, items: &[T], _count: usize, out: &mut Vec<T>) {
        lane_kernels::deinterleave(items, self.step, self.at, out);
    }
}

impl Block for Deinterleave {
    ghost use Rattle.block_trait.specs.SameItem.{same_sized};
    ghost use Rattle.rate_blocks.specs.Mux.{deinterleave_of, deinterleave_of-lawful};
    ghost use Rattle.kind_model.specs.Rates.{deinterleave};

    ghost meaning = { deinterleave_of };

    type Places = ByPace;

    fn shape(&self, _input: usize) -> Shape<'_> {
        let outputs = ports(self.ports.value as u32, self.item);
        Shape::at_rate(ports(1, self.item), outputs, self.ports.value, 1)
    }

    fn work(
        &self,
        _state: u64,
        _first: u64,
        count: u64,
        windows: &[Items],
        _held: &[Held],
        out: &mut [Items],
    ) -> u64 {
        let step = self.ports.value as usize;
        for at in 0..out.len() {
            append_items(
                &EachOf { step, at },
                &windows[0],
                count as usize,
                &mut out[at],
            );
        }
        0
    }

    ghost lawful = { deinterleave_of-lawful };

    ghost same = { λ a b. same_sized deinterleave a.item b.item a.ports.value b.ports.value };
}
