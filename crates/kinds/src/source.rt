//! The source of a tape.
ghost use Rattle.std.specs.Prelude.{◌≡◌};
ghost use Rattle.kind_model.specs.Ends.{vector_source};

use block_trait::{Batch, Block, ByPace, Held, Role, Shape, Single, ports, work_single};
use items::{ItemType, Items};

/// The tape that the block is fed, item for item. As GNU Radio's `vector_source_x`, but it starts empty and does not
/// repeat.
#[derive(Debug, Drop, PartialEq, Eq)]
pub struct VectorSource {
    item: ItemType,
}

impl VectorSource {
    ghost use Rattle.kinds.specs.Ends.{source_meaning};

    /// The source of items of this type.
    pub fn new(item: ItemType) -> VectorSource
        ensures { source_meaning result ≡ vector_source item }
    {
        VectorSource { item }
    }
}

impl Single for VectorSource {
    ghost use Rattle.std.specs.Prelude.{refl};
    ghost use Rattle.kinds.specs.Ends.{source_meaning};

    ghost equation = { source_meaning };

    fn fill(&self, batch: &Batch<'_>, out: &mut Items) -> u64 {
        out.push_slice(batch.window);
        0
    }

    ghost single = { λ b. record { in_least = refl; in_most = refl; out_least = refl; out_most = refl } };
}

impl Block for VectorSource {
    ghost use Rattle.kind_model.specs.Ends.{vector_source};
    ghost use Rattle.kind_laws.specs.Ends.{vector_source-lawful};
    ghost use Rattle.block_trait.specs.SameItem.{same_item};
    ghost use Rattle.kinds.specs.Ends.{source_meaning};

    ghost meaning = { source_meaning };

    type Places = ByPace;

    fn shape(&self, _input: usize) -> Shape<'_> {
        Shape {
            role: Role::Source,
            ..Shape::at_rate(ports(0, self.item), ports(1, self.item), 1, 1)
        }
    }

    fn work(
        &self,
        state: u64,
        first: u64,
        count: u64,
        windows: &[Items],
        held: &[Held],
        out: &mut [Items],
    ) -> u64 {
        work_single(self, state, first, count, windows, held, out)
    }

    ghost lawful = { λ b. vector_source-lawful b.item };

    ghost same = { λ a b e i. vector_source (same_item a.item b.item e i) };
}
