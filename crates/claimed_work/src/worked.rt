//! What comes of jobs.
ghost use Rattle.std.specs.Prelude.{◌≡◌, ◌<◌, length, map};
ghost use Rattle.std.specs.Arc.{arc_value};
ghost use Rattle.stream_model.specs.Network.{used_outputs};
ghost use Rattle.items.specs.Items.{numbers_of};
ghost use Rattle.settings.specs.Values.{held_of};
ghost use Rattle.flowgraph.specs.Flowgraph.{net_of};
ghost use Rattle.claimed_work.specs.Jobs.{WasFed, AreTaken, AreGiven, IsDone, job_in};

use crate::claimed::Claimed;
use crate::lent::Lent;
use block_trait::Block;
use flowgraph::BlockId;
use std::fmt;
use std::marker::Model;

/// A job that was done. Its outputs and its word are those of its block on its own windows, by its type.
#[derive(Drop)]
pub struct Worked<B: Block> {
    pub(crate) claimed: Claimed<B>,
    pub(crate) next: u64,
}

impl<B: Block> fmt::Debug for Worked<B> {
    fn fmt<W: fmt::Write>(&self, f: &mut fmt::Formatter<W>) -> fmt::Result {
        f.debug_struct("Worked").finish_non_exhaustive()
    }
}

impl<B: Block> Model for Worked<B> {
    ghost use Rattle.std.specs.Prelude.{length, map, ◌<◌, ◌≡◌};
    ghost use Rattle.stream_model.specs.Network.{used_outputs};
    ghost use Rattle.items.specs.Items.{numbers_of};
    ghost use Rattle.claimed_work.specs.Jobs.{WorkedState, IsWorked, job_in};
    ghost use Rattle.std.specs.Arc.{arc_value};
    ghost use Rattle.flowgraph.specs.Flowgraph.{net_of};

    ghost Value = { WorkedState B };

    ghost view = { λ w. record {
      graph = arc_value w.claimed.graph;
      job = job_in w.claimed;
      outputs = map numbers_of w.claimed.lent.outputs.items;
      word = w.next;
    } };

    ghost invariant = { λ w. let own = w.claimed in let net = net_of B.meaning (arc_value own.graph) in
        (own.block.0 < length (arc_value own.graph).blocks) × (length own.lent.outputs.items
        ≡ used_outputs net own.block.0)
        × IsWorked net (job_in own) own.lent.windows.items own.lent.outputs.items w.next };
}

impl<B: Block> Worked<B> {
    /// What was claimed, with what its firings gave.
    pub fn claimed(&self) -> &Claimed<B>
        ensures graph { arc_value result.now.graph ≡ self.now.graph }
        ensures job { job_in result.now ≡ self.now.job }
        ensures types { AreTaken (net_of B.meaning self.now.graph) self.now.job.block result.now.lent.windows.items }
    {
        &self.claimed
    }

    /// The block.
    pub fn block(&self) -> BlockId
        ensures value { result.0 ≡ self.now.job.block }
        ensures inside { result.0 < length self.now.graph.blocks }
    {
        self.claimed.block
    }

    /// The state word after the firings.
    pub fn next_word(&self) -> u64
        ensures { result ≡ self.now.word }
    {
        self.next
    }

    /// What it was given is what its block can be given, and what it made is what the firings give. The call is there
    /// for what its contract says.
    pub fn recall(&self)
        ensures outputs { self.now.job.outputs ≡ used_outputs (net_of B.meaning self.now.graph) self.now.job.block }
        ensures fed { WasFed (net_of B.meaning self.now.graph) self.now.job }
        ensures done { IsDone (net_of B.meaning self.now.graph) self.now.job self.now.outputs self.now.word }
        ensures every { length self.now.outputs ≡ self.now.job.outputs }
    {
        let _ = &self.claimed;
    }

    /// What the job was lent, with what its firings gave.
    pub fn into_lent(self) -> Lent
        ensures windows { map numbers_of result.windows.items ≡ self.job.windows }
        ensures held { map held_of result.held.items ≡ self.job.held }
        ensures outputs { map numbers_of result.outputs.items ≡ self.outputs }
        ensures taken { AreTaken (net_of B.meaning self.graph) self.job.block result.windows.items }
        ensures given { AreGiven (net_of B.meaning self.graph) self.job.block result.outputs.items }
    {
        self.claimed.lent
    }
}
