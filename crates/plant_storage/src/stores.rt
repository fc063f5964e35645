//! All that is stored, block by block.

ghost use Rattle.std.specs.Prelude.{◌≡◌, ◌<◌, ◌≤◌, [], length, map, min, IfOk, IfSome, None, ◌+◌};
ghost use Rattle.ring_readers.specs.State.{most_kept, slowest_of};
ghost use Rattle.stream_model.specs.Tags.{tags_within};
ghost use Rattle.stream_model.specs.Network.{nothing_within};
ghost use Rattle.flowgraph.specs.Flowgraph.{net_of};
ghost use Rattle.plant_laws.specs.Stored.{buffers_in, buffer_at};
ghost use Rattle.plant_laws.specs.Opening.{stored_opening};

use crate::intake::Intake;
use crate::opening::{all_handed, buffers, sinks, words};
use crate::stored::Stored;
use block_trait::Block;
use buffers::Buffer;
use flowgraph::{BlockId, Valid};
use recordings::Recording;
use std::alloc::{AllocError, Global};
use std::fmt;
use tags::Tag;

/// What a plant stores, block by block.
pub struct Stores {
    /// Tapes and settings.
    pub handed: Vec<Intake>,
    /// The state words behind the committed firings.
    pub words: Vec<u64>,
    /// The buffer of each used output.
    pub buffers: Vec<Vec<Buffer>>,
    /// What the sinks that keep their items have collected.
    pub sinks: Vec<Recording>,
    /// A place for the tags that a commit brings to one output.
    pub brought: Vec<Tag>,
}

// By hand, so that no crate above proves the drop of each part again.
impl Drop for Stores {
    fn drop(self) {
        let Stores {
            handed,
            words,
            buffers,
            sinks,
            brought,
        } = self;
        drop(handed);
        drop(words);
        drop(buffers);
        drop(sinks);
        drop(brought);
    }
}

impl fmt::Debug for Stores {
    fn fmt<W: fmt::Write>(&self, f: &mut fmt::Formatter<W>) -> fmt::Result {
        f.debug_struct("Stores").finish_non_exhaustive()
    }
}

impl Stores {
    ghost use Rattle.plant_storage.specs.Stores.{stored_in, handed_of};
    ghost use Rattle.plant_storage.specs.Opening.{HaveCapacities};
    ghost use Rattle.plant_storage.specs.SourceTapes.{is_own};

    /// What is stored before anything happens. The capacities are those of the used outputs of each block, in items,
    /// and a tape may come to hold `longest` items, and is `alone` the plant's or shared with copies. It fails only
    /// where the allocator refuses.
    pub fn open<B: Block>(
        alloc: Global,
        graph: &Valid<B>,
        capacities: &[Vec<u32>],
        longest: u64,
        alone: bool,
    ) -> Result<Stores, AllocError>
        requires { HaveCapacities (net_of B.meaning graph.now) (map (λ row. row.items) capacities.now) }
        ensures stored { IfOk result (λ s. stored_in s ≡ stored_opening (net_of B.meaning graph.now)
            (map (λ row. row.items) capacities.now)) }
        ensures handed { IfOk result (λ s. map handed_of s.handed.items
            ≡ map (λ _. nothing_within longest) (net_of B.meaning graph.now).nodes) }
        ensures brought { IfOk result (λ s. s.brought.items ≡ []) }
        ensures alone { IfOk result (λ s. map (λ h. is_own h.tape) s.handed.items
            ≡ map (λ _. alone) (net_of B.meaning graph.now).nodes) }
    {
        Ok(Stores {
            handed: all_handed(alloc, graph, longest, alone)?,
            words: words(alloc, graph)?,
            buffers: buffers(alloc, graph, capacities)?,
            sinks: sinks(alloc, graph)?,
            brought: Vec::new(alloc),
        })
    }

    /// How much the buffer of an output keeps.
    pub fn kept(&self, block: BlockId, port: usize) -> Stored
        requires { port < length (buffers_in (stored_in self.now).buffers block.0) }
        ensures items { result.items ≡ length (buffer_at (stored_in self.now) block.0 port).ring.kept }
        ensures tags { let buffer = buffer_at (stored_in self.now) block.0 port in
            result.tags ≡ length (tags_within 0 buffer.ring.written buffer.tags) }
        ensures all { let ring = (buffer_at (stored_in self.now) block.0 port).ring in result.items
            ≡ min ring.written (most_kept ring.capacity ring.greatest) }
        ensures near { let ring = (buffer_at (stored_in self.now) block.0 port).ring in IfSome (slowest_of ring.readers)
            (λ place. ring.written ≤ place + ring.capacity) }
        ensures none { slowest_of (buffer_at (stored_in self.now) block.0 port).ring.readers ≡ None → result.tags ≡ 0 }
    {
        let buffer = &self.buffers[block.0 as usize][port];
        Stored {
            items: buffer.items(),
            tags: buffer.tags_kept(),
        }
    }
}
