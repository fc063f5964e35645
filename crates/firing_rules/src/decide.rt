//! What a claim decides.

ghost use Rattle.std.specs.Prelude.{◌≡◌, ◌+◌, ◌^◌, ◌<◌, max};
ghost use Rattle.stream_model.specs.Network.{used_outputs};
ghost use Rattle.stream_model.specs.Claims as claims;
ghost use Rattle.stream_model.specs.Machine.{output_counts};
ghost use Rattle.stream_laws.specs.Firings.{limit_allows};
ghost use Rattle.firing_rules.specs.Situation.{net_seen, state_seen, node_seen, counts_seen};
ghost use Rattle.firing_rules.specs.Decision.{answer_of, rests, waits};

use crate::decision::{Decision, Need};
use crate::progress::Tapes;
use crate::situation::Situation;
use block_trait::Block;

impl<B: Block, T: Tapes> Situation<'_, B, T> {
    /// What a claim of at most `max` firings decides.
    pub(crate) fn decide(&self, max: u32) -> Decision
        ensures { let counts = counts_seen B.meaning self.now in
            result ≡ answer_of counts.firings (claims.decide (node_seen B.meaning self.now) counts max) }
    {
        let own = self.own();
        if own.done {
            return Decision::Done;
        }
        if 0 < own.claimed {
            return Decision::Busy;
        }
        if self.is_unread() {
            return Decision::Ended;
        }
        self.fire_or_wait(own.firings, max)
    }

    // Whether the block has outputs, and nobody reads any of them any more.
    fn is_unread(&self) -> bool
        ensures { result ≡ claims.is_unread (counts_seen B.meaning self.now) }
    {
        let outputs = self.outputs();
        for port in 0..outputs {
            if !self.is_abandoned(port) {
                return false;
            }
        }
        0 < outputs
    }

    // Whether each reader of an output is done.
    fn is_abandoned(&self, port: usize) -> bool
        requires { port < used_outputs (net_seen B.meaning self.now) self.now.block }
        ensures { result ≡ claims.is_abandoned (output_counts (net_seen B.meaning self.now) self.now.capacities
            (state_seen self.now) self.now.block port) }
    {
        let readers = self.readers(port);
        for connection in readers {
            if !self.progress(connection.to).done {
                return false;
            }
        }
        true
    }

    // What a claim decides for a block that has no claim in flight and still has readers: how many firings fit, else
    // whether any ever will, else what the next firing lacks.
    fn fire_or_wait(&self, first: u64, max: u32) -> Decision
        requires first { first ≡ (counts_seen B.meaning self.now).firings }
        requires few { first < 2 ^ 62 }
        ensures { let n = node_seen B.meaning self.now in
            let counts = counts_seen B.meaning self.now in
            result ≡ answer_of counts.firings (claims.fires_or_waits n counts (claims.most n counts max)) }
    {
        self.recall();
        let next = first + 1;
        let bound = self.asked(first, max);
        if bound < next {
            return Decision::Ended;
        }
        let supply = self.supply(next, bound);
        if supply.over {
            return Decision::Ended;
        }
        if let Some(port) = supply.fit.lacking {
            return Decision::Waiting(Need::Items(port));
        }
        let room = self.room(next, supply.fit.allowed);
        if let Some(port) = room.lacking {
            return Decision::Waiting(Need::Room(port));
        }
        // At least one fits, so only a claim of zero firings comes to nothing.
        if max == 0 {
            return Decision::Done;
        }
        Decision::Claimed {
            first,
            count: (room.allowed - first) as u32,
        }
    }

    // The firing up to which a claim may go by the block's limit alone: at most `most` firings from the first on, and
    // at least one.
    fn asked(&self, first: u64, most: u32) -> u64
        requires { first < 2 ^ 62 }
        ensures { result ≡ limit_allows (node_seen B.meaning self.now).meaning.limit (first + max most 1) }
    {
        let firings = first + u64::from(most.max(1));
        match self.graph.limit(self.block) {
            Some(limit) => limit.min(firings),
            None => firings,
        }
    }

    /// Whether the block is done or would wait.
    pub(crate) fn rests(&self) -> bool
        ensures { result ≡ rests (net_seen B.meaning self.now) self.now.capacities (state_seen self.now)
            self.now.block }
    {
        self.own().done || waits(self.decide(1))
    }
}

fn waits(decision: Decision) -> bool
    ensures { result ≡ waits decision }
{
    match decision {
        Decision::Waiting(_) => true,
        Decision::Claimed { .. } | Decision::Done | Decision::Ended | Decision::Busy => false,
    }
}
