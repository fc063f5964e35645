//! The work of firings as it is stored, and the end of a block.
ghost use Rattle.std.specs.Prelude.{◌≡◌, ◌+◌, map};
ghost use Rattle.items.specs.Items.{numbers_of};
ghost use Rattle.flowgraph.specs.Flowgraph.{net_of};
ghost use Rattle.plant_laws.specs.Changes.{with_released};
ghost use Rattle.plant_storage.specs.Stores.{stored_in};
ghost use Rattle.plant_storage.specs.Lending.{KeepsRoom, KeepsAllRoom};
ghost use Rattle.plant_storage.specs.Delivery.{CanDeliver, CanRelease, delivered};

use crate::firing_range::FiringRange;
use crate::outputs::give_all;
use crate::readers::{leave, take};
use crate::sinks::collect;
use block_trait::Block;
use flowgraph::{BlockId, Valid};
use items::Items;
use plant_storage::Stores;

/// Stores the work of `count` firings of a block, from `first` on: gives their items and the tags that they bring to
/// the outputs that are still read, takes what they took from the inputs, and keeps the state word after them. It takes
/// no memory.
pub fn deliver<B: Block>(
    stores: &mut Stores,
    graph: &Valid<B>,
    block: BlockId,
    first: u64,
    count: u32,
    windows: &[Items],
    outputs: &[Items],
    word: u64,
)
    requires { CanDeliver (net_of B.meaning graph.now) stores.old block.0 first count windows.now outputs.now }
    ensures stored { stored_in stores.new
        ≡ delivered (net_of B.meaning graph.now) (stored_in stores.old) block.0 first (first + count)
        (map numbers_of windows.now) (map numbers_of outputs.now) word }
    ensures handed { stores.new.handed ≡ stores.old.handed }
    ensures room { KeepsRoom (net_of B.meaning graph.now) block.0 stores.old stores.new }
{
    graph.recall();
    let firings = FiringRange::new(block, first, count);
    collect(&mut stores.sinks, &stores.buffers, graph, firings, windows);
    give_all(
        &mut stores.buffers,
        &mut stores.brought,
        &stores.handed,
        graph,
        firings,
        outputs,
    );
    take(&mut stores.buffers, graph, firings);
    stores.words[block.0 as usize] = word;
}

/// No buffer waits for a block any longer: what only it would have read may go.
pub fn release<B: Block>(stores: &mut Stores, graph: &Valid<B>, block: BlockId)
    requires { CanRelease (net_of B.meaning graph.now) (stored_in stores.old) block.0 }
    ensures stored { stored_in stores.new ≡ with_released (net_of B.meaning graph.now) (stored_in stores.old) block.0 }
    ensures handed { stores.new.handed ≡ stores.old.handed }
    ensures words { stores.new.words ≡ stores.old.words }
    ensures room { KeepsAllRoom stores.old stores.new }
{
    leave(&mut stores.buffers, graph, block);
}
