//! From a graph file to a plant that is fed.

ghost use Rattle.std.specs.Prelude.{◌≡◌, ◌↔◌, Ok, IfOk, IfErr, OnOk, OnErr, IsErrOf, map, length, ◌<◌};
ghost use Rattle.plant_storage.specs.Stores as stores;
ghost use Rattle.plant.specs.Plant.{ForgetsNone};
ghost use Rattle.graph_file.specs.Refusals.{IsRefused, told};
ghost use Rattle.graph_file.specs.Blocks.{drafted};
ghost use Rattle.graph_file.specs.Feeds.{fed};
ghost use Rattle.graph_file.specs.File.{seen};
ghost use Rattle.file_plants.specs.Opening.{opened, opened_with, opened_of, streamed, feed_now, after_feed, after_feeds, mark_of, told_feed, FeedCopies};

use crate::taking::TakesFeeds;
use flowgraph::Valid;
use graph_file::{Feed, File, FileFault, FileMark};
use items::Mark;
use kinds::Kind;
use plant::Plant;
use plant_faults::PlantFault;
use std::alloc::{AllocError, Global};
use streaming::StreamingPlant;

/// What opens plants: a graph file that was read.
pub trait OpensPlants: Sized {
    /// The plant of the file's graph, with its feeds on the tapes, in their order, and its sources open; or why the
    /// graph as a whole is refused, or the first refused feed, or out of memory.
    fn open(self, alloc: Global) -> Result<Plant<Kind>, FileFault>;

    /// Like `open`, for a plant that streams. Its tapes may come to hold as many items as the graph's greatest gain
    /// allows.
    fn stream(self, alloc: Global) -> Result<StreamingPlant<Kind>, FileFault>;
}

impl OpensPlants for File {
    fn open(self, alloc: Global) -> Result<Plant<Kind>, FileFault>
        ensures ok { IfOk result (λ plant. opened (seen self) ≡ Ok (opened_of plant)) }
        ensures refused { IfErr result (IsRefused (opened (seen self))) }
    {
        let (graph, feeds) = self.validate(alloc)?;
        plant_fed(alloc, graph, &feeds)
    }

    fn stream(self, alloc: Global) -> Result<StreamingPlant<Kind>, FileFault>
        ensures ok { IfOk result (λ plant. streamed (seen self) ≡ Ok (opened_of plant.plant)) }
        ensures none { IfOk result (λ plant. ForgetsNone plant.kept) }
        ensures refused { IfErr result (IsRefused (streamed (seen self))) }
    {
        let (graph, feeds) = self.validate(alloc)?;
        plant_fed(alloc, graph, &feeds)
    }
}

// The plant of a valid graph with these feeds on its tapes.
fn plant_fed<P: TakesFeeds>(
    alloc: Global,
    graph: Valid<Kind>,
    feeds: &[Feed],
) -> Result<P, FileFault>
    ensures ok { IfOk result (λ p. opened_with P.longest (drafted graph) (map fed feeds.now)
        ≡ Ok (opened_of (P.plant p))) }
    ensures whole { IfOk result P.whole }
    ensures refused { IfErr result (IsRefused (opened_with P.longest (drafted graph) (map fed feeds.now))) }
{
    let mut plant = P::open(alloc, graph)?;
    match take_feeds(alloc, &mut plant, feeds) {
        Ok(()) => Ok(plant),
        Err(fault) => Err(fault),
    }
}

// Feeds a plant, in order, up to the first feed that is refused.
fn take_feeds<P: TakesFeeds>(alloc: Global, plant: &mut P, feeds: &[Feed]) -> Result<(), FileFault>
    ensures ok { let old = P.plant plant.old in OnOk result (after_feeds (drafted old.graph) 0 old.state
        (map fed feeds.now) ≡ Ok (P.plant plant.new).state) }
    ensures rest { OnOk result (P.plant plant.new ≡ record (P.plant plant.old) { state = (P.plant plant.new).state }) }
    ensures whole { OnOk result (P.whole plant.old → P.whole plant.new) }
    ensures refused { let old = P.plant plant.old in IfErr result (IsRefused
        (after_feeds (drafted old.graph) 0 old.state (map fed feeds.now))) }
{
    for (number, feed) in feeds.iter().enumerate() {
        if let Err(fault) = take_feed(alloc, plant, number, feed) {
            return Err(fault);
        }
    }
    Ok(())
}

// Feeds a plant. Marks may lie before all items. They are copied only if the feed names a source.
fn take_feed<P: TakesFeeds>(
    alloc: Global,
    plant: &mut P,
    number: usize,
    feed: &Feed,
) -> Result<(), FileFault>
    ensures ok { let old = P.plant plant.old in OnOk result (after_feed number
        (feed_now (drafted old.graph) old.state (fed feed.now)) ≡ Ok (P.plant plant.new).state) }
    ensures rest { OnOk result (P.plant plant.new ≡ record (P.plant plant.old) { state = (P.plant plant.new).state }) }
    ensures whole { OnOk result (P.whole plant.old → P.whole plant.new) }
    ensures refused { let old = P.plant plant.old in IfErr result (IsRefused
        (after_feed number (feed_now (drafted old.graph) old.state (fed feed.now)))) }
    ensures memory { let old = P.plant plant.old in IsErrOf result FileFault.Memory
        → FeedCopies (drafted old.graph) old.state (fed feed.now) }
{
    let Some(source) = plant.graph().find(&feed.source) else {
        return Err(feed_fault(number, PlantFault::NoSuchBlock));
    };
    if let Err(fault) = plant.source_type(source) {
        return Err(feed_fault(number, fault));
    }
    let marks = marks_of(alloc, &feed.marks)?;
    match plant.feed_numbers(alloc, source, &feed.items, &marks) {
        Ok(_) => Ok(()),
        Err(fault) => Err(feed_fault(number, fault)),
    }
}

// The marks of a file. If there are none, it asks for no memory.
fn marks_of(alloc: Global, marks: &[FileMark]) -> Result<Vec<Mark>, AllocError>
    ensures ok { IfOk result (λ taken. map stores.mark_of taken.items ≡ map mark_of marks.now) }
    ensures copies { OnErr result (0 < length marks.now) }
{
    let mut taken = Vec::with_capacity(alloc, marks.len())?;
    for mark in marks {
        taken.push_reserved(placed(mark));
    }
    Ok(taken)
}

// A mark of a file. One before the first item counts as one after the end of every tape.
fn placed(mark: &FileMark) -> Mark
    ensures { stores.mark_of result ≡ mark_of mark.now }
{
    Mark {
        offset: u64::try_from(mark.at).unwrap_or(u64::MAX),
        key: mark.key,
        value: mark.value,
    }
}

// How a refusal of a feed, counted from 0, is reported.
fn feed_fault(feed: usize, fault: PlantFault) -> FileFault
    ensures told { told result ≡ told_feed feed fault }
    ensures memory { (result ≡ FileFault.Memory) ↔ (fault ≡ PlantFault.Memory) }
{
    match fault {
        PlantFault::Memory => FileFault::Memory,
        fault => FileFault::Feed { feed, fault },
    }
}
