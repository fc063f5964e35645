//! The sinks.
ghost use Rattle.std.specs.Prelude.{◌≡◌};

use block_trait::{Block, ByPace, Held, Role, Shape, ports};
use items::{ItemType, Items};

/// A sink that keeps its input or drops it. `work` writes nothing.
#[derive(Debug, Drop, PartialEq, Eq)]
pub struct Sink<const KEEPS: bool> {
    item: ItemType,
}

/// A sink that keeps all items and tags of its input, which `Plant::read` shows; as GNU Radio's `vector_sink_x`.
pub type VectorSink = Sink<true>;

/// A sink that drops its input, as GNU Radio's `null_sink`.
pub type NullSink = Sink<false>;

impl<const KEEPS: bool> Sink<KEEPS> {
    ghost use Rattle.kinds.specs.Ends.{sink_of};

    /// The sink of items of this type.
    pub fn new(item: ItemType) -> Sink<KEEPS>
        ensures { sink_of KEEPS result.item ≡ sink_of KEEPS item }
    {
        Sink { item }
    }
}

impl<const KEEPS: bool> Block for Sink<KEEPS> {
    ghost use Rattle.block_trait.specs.SameItem.{same_item};
    ghost use Rattle.kinds.specs.Ends.{sink_of, sink_of-lawful};

    ghost meaning = { λ b. sink_of KEEPS b.item };

    type Places = ByPace;

    fn shape(&self, _input: usize) -> Shape<'_> {
        let role = if KEEPS { Role::Keep } else { Role::Discard };
        Shape {
            role,
            ..Shape::at_rate(ports(1, self.item), ports(0, self.item), 1, 1)
        }
    }

    fn work(
        &self,
        _state: u64,
        _first: u64,
        _count: u64,
        _windows: &[Items],
        _held: &[Held],
        _out: &mut [Items],
    ) -> u64 {
        0
    }

    ghost lawful = { λ b. sink_of-lawful KEEPS b.item };

    ghost same = { λ a b e i. sink_of KEEPS (same_item a.item b.item e i) };
}
