//! A graph of kinds, from its feeds to its end.

ghost use Rattle.std.specs.Prelude.{◌≡◌, ◌≤◌, true, false, map, vec_len, None, IfOk, IfErr};
ghost use Rattle.std.specs.Arc.{arc_value};
ghost use Rattle.std.specs.Option.{option_map};
ghost use Rattle.stream_model.specs.Machine as machine;
ghost use Rattle.stream_model.specs.Machine.{close_of, feed_of, is_idle, set_of};
ghost use Rattle.items.specs.Items.{type_of, numbers_of};
ghost use Rattle.flowgraph.specs.Flowgraph.{net_of};
ghost use Rattle.kinds.specs.Kind.{meaning_of};
ghost use Rattle.kinds.specs.declared.kind.Kind.{Kind};
ghost use Rattle.plant_storage.specs.Stores.{mark_of};
ghost use Rattle.plant.specs.Answers.{Answered, AnsweredAlways, reply_of};
ghost use Rattle.settings.specs.Values.{value_of};
ghost use Rattle.plant.specs.Opening.{opening_plant};
ghost use Rattle.plant.specs.Plant.{PlantState};
ghost use Rattle.scheduling.specs.declared.run_options.Threading.TheVariants.{Adaptive};
ghost use Rattle.call_history.specs.History.{noted_by};
ghost use Rattle.call_history.specs.Logs.{AreLogs};
ghost use Rattle.threads.specs.Live.{HaveReturned, LiveRunEndsIn, GivesBackLive};
ghost use Rattle.call_history.specs.Reached.{opening_of};
ghost use Rattle.threads.specs.Outcomes.{RunEndsIn, GivesBack, IsSo, handed_of};
ghost use Rattle.closing.specs.Closing.{with_all_closed};

use closing::close_all;
use flowgraph::{BlockId, Valid};
use items::{Items, Mark};
use kinds::Kind;
use plant::{Closed, Fed, Plant, PlantFault, Taken, Unwatched, Watch};
use settings::Value;
use std::alloc::{AllocError, Global};
use std::fmt;
use std::marker::Model;
use std::sync::Wait;
use std::thread::Threads;
use std::time::Clock;
use threads::{
    Caller, Finished, Gate, Open, Outcome, RunFault, RunOptions, Running, launch_with, live_with,
    run_with,
};

/// A plant of kinds with no claim in flight, which is fed and then run in threads. It is for graphs whose whole input
/// is known at the start: `from_graph`, `feed`, and `run`, or `start` and `wait`. A contract sees the plant.
#[derive(Drop)]
pub struct TopBlock {
    plant: Plant<Kind>,
}

impl fmt::Debug for TopBlock {
    fn fmt<W: fmt::Write>(&self, f: &mut fmt::Formatter<W>) -> fmt::Result {
        f.debug_struct("TopBlock").finish_non_exhaustive()
    }
}

impl Model for TopBlock {
    ghost Value = { PlantState Kind };

    ghost view = { λ t. t.plant };

    ghost invariant = { λ t. is_idle t.plant.state ≡ true };
}

impl TopBlock {
    /// The top block of a graph, with nothing fed, as by `Plant::open`. It fails only if the allocator refuses, and
    /// then returns the graph.
    pub fn from_graph(
        alloc: Global,
        graph: Valid<Kind>,
    ) -> Result<TopBlock, (Valid<Kind>, AllocError)>
        ensures opens { IfOk result (λ top. top ≡ opening_plant meaning_of graph) }
        ensures back { IfErr result (λ refusal. refusal.0 ≡ graph) }
    {
        match Plant::open(alloc, graph) {
            Ok(plant) => Ok(TopBlock { plant }),
            Err(refusal) => Err(refusal),
        }
    }

    /// The top block of a plant that has no claim in flight, however far its blocks are.
    pub fn from_plant(plant: Plant<Kind>) -> TopBlock
        requires { is_idle plant.state ≡ true }
        ensures { result ≡ plant }
    {
        TopBlock { plant }
    }

    /// The plant.
    pub fn plant(&self) -> &Plant<Kind>
        ensures { result.now ≡ self.now }
    {
        &self.plant
    }

    /// Appends items to a source's tape, with marks on them, as `Plant::feed` does, with its refusals.
    pub fn feed(&mut self, source: BlockId, items: Items, marks: &[Mark]) -> Result<Fed, PlantFault>
        ensures { Answered (feed_of (net_of meaning_of self.old.graph) self.old.state source.0 (type_of items)
            (numbers_of items) (map mark_of marks.now)) self.old self.new (reply_of (λ f. machine.Fed f.0) result) }
    {
        self.plant.feed(source, items, marks)
    }

    /// Closes a source's tape, as `Plant::close` does, with its refusals: nothing more can be fed. A run closes all
    /// that are open.
    pub fn close(&mut self, source: BlockId) -> Result<Closed, PlantFault>
        ensures { AnsweredAlways (close_of (net_of meaning_of self.old.graph) self.old.state source.0) self.old self.new
            (reply_of (λ c. machine.Closed c.0) result) }
    {
        self.plant.close(source)
    }

    /// Sets the value of a block's setting from item `at` of its first input on, or from the first that it has not
    /// taken, as `Plant::set` does, with its refusals.
    pub fn set(
        &mut self,
        block: BlockId,
        at: Option<u64>,
        value: Value,
    ) -> Result<Taken, PlantFault>
        ensures { Answered (set_of (net_of meaning_of self.old.graph) self.old.state block.0 at (value_of value))
            self.old self.new (reply_of (λ t. machine.Taken t.0) result) }
    {
        self.plant.set(block, at, value)
    }

    /// Closes each source that is open, starts a run in as many threads as the work is worth, and returns: `start_with`
    /// by the default options.
    pub fn start<R: Threads + Wait + Clock + Copy + Send + 'static>(
        self,
        rt: R,
        alloc: Global,
    ) -> Result<Running<Kind, Open>, RunFault<Kind>>
        ensures ok { IfOk result (λ r. r ≡ record {
          handed = handed_of (with_all_closed meaning_of self);
          asked = false;
          most = 1024;
          gate = None;
        }) }
        ensures err { IfErr result (GivesBack meaning_of ⟦<Kind as PartialEq>⟧.eq
            (handed_of (with_all_closed meaning_of self))) }
    {
        self.start_with(rt, alloc, RunOptions::default())
    }

    /// Closes each source that is open, starts a run as these options say, and returns. Fails with `RunFault::Memory`
    /// or `RunFault::Thread`, which return the plant with its sources closed.
    pub fn start_with<
        G: Gate + Drop + Send + Sync + 'static,
        R: Threads + Wait + Clock + Copy + Send + 'static,
    >(
        self,
        rt: R,
        alloc: Global,
        options: RunOptions<G>,
    ) -> Result<Running<Kind, G>, RunFault<Kind>>
        ensures ok { IfOk result (λ r. r ≡ record {
          handed = handed_of (with_all_closed meaning_of self);
          asked = false;
          most = options.turns.most;
          gate = option_map arc_value options.gate;
        }) }
        ensures err { IfErr result (GivesBack meaning_of ⟦<Kind as PartialEq>⟧.eq
            (handed_of (with_all_closed meaning_of self))) }
    {
        let TopBlock { mut plant } = self;
        close_all(&mut plant);
        launch_with(rt, alloc, plant, options)
    }

    /// Closes each source that is open, runs the plant in as many threads as the work is worth, and waits for its end,
    /// which is never `Stopped`: `run_with` by the default options.
    pub fn run<R: Threads + Wait + Clock + Copy + Send + 'static>(
        self,
        rt: R,
        alloc: Global,
    ) -> Result<Outcome<Kind>, RunFault<Kind>>
        ensures ok { IfOk result (RunEndsIn meaning_of ⟦<Kind as PartialEq>⟧.eq
            (handed_of (with_all_closed meaning_of self)) false) }
        ensures err { IfErr result (GivesBack meaning_of ⟦<Kind as PartialEq>⟧.eq
            (handed_of (with_all_closed meaning_of self))) }
        ensures told { IfErr result (IsSo true false) }
    {
        let options: RunOptions<Open> = RunOptions::default();
        self.run_with(rt, alloc, options, &mut Unwatched)
    }

    /// Closes each open source, runs the plant as these options say, and waits for its end, which is never `Stopped`.
    /// It answers `Outcome::Done` if all blocks came to their end, as in each graph of balanced rates, and `Stalled` if
    /// none can act before. It calls `watch.show` after each pause, only now and then while the run is on one thread,
    /// and `watch.end` at the end. It fails with `RunFault::Memory` if memory ran out, before the run or for a claim,
    /// and with `RunFault::Thread` if each block has a thread and one could not be started; both return the plant with
    /// its sources closed. `RunFault::Foreign` should never come.
    pub fn run_with<
        G: Gate + Drop + Send + Sync + 'static,
        R: Threads + Wait + Clock + Copy + Send + 'static,
        W: Watch,
    >(
        self,
        rt: R,
        alloc: Global,
        options: RunOptions<G>,
        watch: &mut W,
    ) -> Result<Outcome<Kind>, RunFault<Kind>>
        ensures ok { IfOk result (RunEndsIn meaning_of ⟦<Kind as PartialEq>⟧.eq
            (handed_of (with_all_closed meaning_of self)) false) }
        ensures err { IfErr result (GivesBack meaning_of ⟦<Kind as PartialEq>⟧.eq
            (handed_of (with_all_closed meaning_of self))) }
        ensures told { options.threading ≡ Adaptive → IfErr result (IsSo true false) }
    {
        let TopBlock { mut plant } = self;
        close_all(&mut plant);
        run_with(rt, alloc, plant, options, watch)
    }

    /// Runs the plant as these options say, beside a thread for each of at most 16 callers, and waits until all callers
    /// have returned and the plant has come to rest. Open sources stay open: callers feed and close them. A run that
    /// comes to rest while one is open and still read is `Stalled`. One that a caller stops before all blocks are done
    /// is `Stopped`. One in which all blocks are done is `Done`. Once all callers have returned, it calls `watch.show`
    /// after each pause, and then `watch.end`. It fails with `RunFault::Memory` if memory ran out, before the run or
    /// for a claim, and with `RunFault::Thread` if the thread of a caller, or where each block has one that of a block,
    /// could not be started; both return the plant as the calls left it, without the callers. `RunFault::Foreign`
    /// should never come.
    pub fn run_live<
        G: Gate + Drop + Send + Sync,
        C: Caller<Kind> + Drop + Send,
        R: Threads + Wait + Clock + Sync,
        W: Watch,
    >(
        self,
        rt: &R,
        alloc: Global,
        callers: Vec<C>,
        options: RunOptions<G>,
        watch: &mut W,
    ) -> Result<Finished<Kind, C>, RunFault<Kind>>
        requires { vec_len callers ≤ 16 }
        ensures ends { IfOk result (λ f. LiveRunEndsIn meaning_of ⟦<Kind as PartialEq>⟧.eq (opening_of self)
            (map noted_by f.history.items) f.outcome) }
        ensures logs { IfOk result (λ f. AreLogs (map (λ l. map noted_by l.items) f.logs.items)
            (map noted_by f.history.items)) }
        ensures callers { IfOk result (λ f. vec_len f.callers ≡ vec_len callers) }
        ensures logged { IfOk result (λ f. vec_len f.logs ≡ vec_len callers) }
        ensures ran { IfOk result (λ f. HaveReturned C.ran self.graph callers.items f.callers.items
            (map (λ l. map noted_by l.items) f.logs.items)) }
        ensures turns { IfOk result (λ f. f.turns ≡ options.turns) }
        ensures err { IfErr result (GivesBackLive meaning_of ⟦<Kind as PartialEq>⟧.eq (opening_of self)) }
    {
        let TopBlock { plant } = self;
        live_with(rt, alloc, plant, callers, options, watch)
    }
}
