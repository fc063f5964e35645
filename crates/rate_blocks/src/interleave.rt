//! The block that gives an item of each input in turn.
ghost use Rattle.std.specs.Prelude.{◌≡◌, ◌≤◌, ◌^◌, ◌↔◌, IsOk, IfOk, IfErr};
ghost use Rattle.kind_model.specs.Rates.{interleave};

use crate::port_count::PortCount;
use block_parameters::{ParamFault, Parameter};
use block_trait::{Block, ByPace, Held, Shape, ports};
use item_dispatch::{InputWork, append_inputs};
use items::{ItemType, Items};
use lane_kernels::SimdLane;

/// An item of each input in turn, as GNU Radio's `interleave` with a block size of 1.
#[derive(Debug, Drop, PartialEq, Eq)]
pub struct Interleave {
    item: ItemType,
    ports: PortCount,
}

impl Interleave {
    ghost use Rattle.rate_blocks.specs.Mux.{interleave_of};

    /// The block with this number of inputs, all of them used; `BadParameter` outside 1 to 16.
    pub fn new(item: ItemType, ports: u64) -> Result<Interleave, ParamFault>
        ensures meaning { IfOk result (λ block. interleave_of block ≡ interleave item ports) }
        ensures range { IsOk result ↔ ((1 ≤ ports) × (ports ≤ 16)) }
        ensures err { IfErr result (λ fault. fault ≡ ParamFault.BadParameter Parameter.Ports) }
    {
        Ok(Interleave {
            item,
            ports: PortCount::new(ports)?,
        })
    }
}

// So many items of each input, one of each in turn.
#[derive(Drop)]
struct Rounds {
    count: usize,
}

impl InputWork for Rounds {
    ghost use Rattle.std.specs.Prelude.{◌≡◌, ◌*◌, All, length};
    ghost use Rattle.lane_kernels.specs.Streams.{interleaved};

    ghost can_make = { λ b t xs total. (total ≡ length xs * b.count) × All (λ x. length x ≡ b.count) xs };

    ghost makes = { λ b t xs total. interleaved b.count xs };

    fn append<T: SimdLane>(&self, inputs: &[&[T]], _total: usize, out: &mut Vec<T>) {
        lane_kernels::interleave(inputs, self.count, out);
    }
}

impl Block for Interleave {
    ghost use Rattle.block_trait.specs.SameItem.{same_sized};
    ghost use Rattle.rate_blocks.specs.Mux.{interleave_of, interleave_of-lawful};
    ghost use Rattle.kind_model.specs.Rates.{interleave};

    ghost meaning = { interleave_of };

    type Places = ByPace;

    fn shape(&self, _input: usize) -> Shape<'_> {
        let inputs = ports(self.ports.value as u32, self.item);
        Shape::at_rate(inputs, ports(1, self.item), 1, self.ports.value)
    }

    fn work(
        &self,
        _state: u64,
        _first: u64,
        count: u64,
        windows: &[Items],
        _held: &[Held],
        out: &mut [Items],
    ) -> u64 {
        let total = self.ports.value * count;
        let rounds = Rounds {
            count: count as usize,
        };
        append_inputs(&rounds, windows, total as usize, &mut out[0]);
        0
    }

    ghost lawful = { interleave_of-lawful };

    ghost same = { λ a b. same_sized interleave a.item b.item a.ports.value b.ports.value };
}
