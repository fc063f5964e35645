//! How many firings of a block fit, and what the next one lacks if it does not fit.

ghost use Rattle.std.specs.Prelude.{◌≡◌, ℕ, ◌≤◌, ◌<◌, min, map, nat_le, not, Some, None, ◌&&◌, ◌||◌, if◌then◌else◌};
ghost use Rattle.std.specs.Option.{option_or};
ghost use Rattle.stream_model.specs.Network.{used_outputs};
ghost use Rattle.stream_model.specs.Claims as claims;
ghost use Rattle.stream_model.specs.Machine.{output_counts};
ghost use Rattle.stream_laws.specs.Firings as allow;
ghost use Rattle.firing_rules.specs.Situation.{net_seen, state_seen, node_seen, counts_seen};
ghost use Rattle.firing_rules.specs.Fits.{Tells};

use crate::counts::Input;
use crate::progress::Tapes;
use crate::situation::Situation;
use block_trait::Block;

/// How many firings fit on one side of a block.
#[derive(Clone, Copy)]
pub(crate) struct Fit {
    /// The number of firings that each port allows, at most as many as asked for.
    pub allowed: u64,
    /// The lowest port that lacks what the next firing needs.
    pub lacking: Option<usize>,
}

impl Fit {
    // No port was looked at yet.
    fn of(bound: u64) -> Fit
        ensures allowed { result.allowed ≡ bound }
        ensures lacking { result.lacking ≡ None }
        ensures tells { (k : ℕ) → k ≤ bound → Tells k result }
    {
        Fit {
            allowed: bound,
            lacking: None,
        }
    }

    // The same with one more port, which allows so many.
    fn with(self, port: usize, allowed: u64, next: u64) -> Fit
        requires { Tells next self }
        ensures tells { Tells next result }
        ensures allowed { result.allowed ≡ min self.allowed allowed }
        ensures lacking { result.lacking ≡ option_or self.lacking (if nat_le next allowed then None else Some port) }
    {
        let lacking = if next <= allowed { None } else { Some(port) };
        Fit {
            allowed: self.allowed.min(allowed),
            lacking: self.lacking.or(lacking),
        }
    }
}

/// How many firings the items on a block's inputs allow.
#[derive(Clone, Copy)]
pub(crate) struct Supply {
    pub fit: Fit,
    /// Whether an ended input lacks items for the next firing.
    pub over: bool,
}

impl Supply {
    // The same with one more input, which allows so many.
    fn with(self, port: usize, input: Input, allowed: u64, next: u64) -> Supply
        requires { Tells next self.fit }
        ensures tells { Tells next result.fit }
        ensures allowed { result.fit.allowed ≡ min self.fit.allowed allowed }
        ensures lacking { result.fit.lacking ≡ option_or self.fit.lacking
            (if nat_le next allowed then None else Some port) }
        ensures over { result.over ≡ (self.over || (input.ended && not (nat_le next allowed))) }
    {
        Supply {
            fit: self.fit.with(port, allowed, next),
            over: self.over || input.ended && allowed < next,
        }
    }
}

impl<B: Block, T: Tapes> Situation<'_, B, T> {
    /// How many of `bound` firings the items on each input allow, and what firing `next` lacks.
    pub(crate) fn supply(&self, next: u64, bound: u64) -> Supply
        requires { next ≤ bound }
        ensures allowed { result.fit.allowed ≡ allow.items_allow (node_seen B.meaning self.now) 0
            (map (λ i. i.written) (counts_seen B.meaning self.now).inputs) bound }
        ensures lacking { result.fit.lacking ≡ claims.lacks_items (node_seen B.meaning self.now) next 0
            (counts_seen B.meaning self.now).inputs }
        ensures over { result.over ≡ claims.lacks_for_good (node_seen B.meaning self.now) next 0
            (counts_seen B.meaning self.now).inputs }
        ensures tells { Tells next result.fit }
    {
        self.recall();
        let mut supply = Supply {
            fit: Fit::of(bound),
            over: false,
        };
        for port in 0..self.inputs() {
            let input = self.input(port);
            let allowed = self.allowed(port, input.written);
            supply = supply.with(port, input, allowed, next);
        }
        supply
    }

    /// How many of `bound` firings each output has room for, and what firing `next` lacks.
    pub(crate) fn room(&self, next: u64, bound: u64) -> Fit
        requires { next ≤ bound }
        ensures allowed { result.allowed ≡ allow.room_allows (node_seen B.meaning self.now)
            (counts_seen B.meaning self.now).outputs bound }
        ensures lacking { result.lacking ≡ claims.lacks_room (node_seen B.meaning self.now) next 0
            (counts_seen B.meaning self.now).outputs }
        ensures tells { Tells next result }
    {
        self.recall();
        let mut fit = Fit::of(bound);
        for port in 0..self.outputs() {
            let allowed = self.room_at(port, fit.allowed);
            fit = fit.with(port, allowed, next);
        }
        fit
    }

    // How many of `bound` firings fit before each live reader of an output.
    fn room_at(&self, port: usize, bound: u64) -> u64
        requires { port < used_outputs (net_seen B.meaning self.now) self.now.block }
        ensures value { let output = output_counts (net_seen B.meaning self.now) self.now.capacities
            (state_seen self.now) self.now.block port in
            result ≡ allow.readers_allow (node_seen B.meaning self.now) output.capacity output.readers bound }
        ensures within { result ≤ bound }
    {
        let capacity = self.capacity(port);
        let readers = self.readers(port);
        let mut least = bound;
        for connection in readers {
            let reader = self.reader(connection);
            if !reader.done {
                least = self.fitting(reader.taken + u64::from(capacity), least);
            }
        }
        least
    }
}
