//! What was handed to a plant, and how far it was, as it was at one moment.

ghost use Rattle.std.specs.Prelude.{◌≡◌, ◌<◌, ◌^◌, ◌↔◌, length, map, true, All, IsTrue, IfOk};
ghost use Rattle.std.specs.Arc.{arc_value};
ghost use Rattle.firing_rules.specs.State.{progress_of};
ghost use Rattle.flowgraph.specs.Agreeing.{graphs_agree};
ghost use Rattle.flowgraph.specs.Flowgraph.{net_of};
ghost use Rattle.plant_storage.specs.Stores.{IsWhole, handed_of};
ghost use Rattle.plant.specs.Plant.{ForgetsNone, plant_of, spans_in};

use crate::parts::Parts;
use firing_rules::{Firings, Progress};
use flowgraph::{Block, BlockId, Valid};
use plant_storage::{Intake, IntakeCopy};
use std::alloc::{AllocError, Global};
use std::fmt;
use std::marker::Model;
use std::sync::Arc;

/// What a plant was handed, as it was at one moment: its graph, the tapes of its sources, whether they are closed, and
/// the settings. It shares the graph and the tapes with the plant, so no item is copied. While it lives, the next feed
/// of a source copies the tape, once.
#[derive(Drop)]
pub struct Handed<B: Block> {
    graph: Arc<Valid<B>, Global>,
    blocks: Vec<IntakeCopy>,
}

impl<B: Block> fmt::Debug for Handed<B> {
    fn fmt<W: fmt::Write>(&self, f: &mut fmt::Formatter<W>) -> fmt::Result {
        f.debug_struct("Handed").finish_non_exhaustive()
    }
}

impl<B: Block> Model for Handed<B> {
    ghost use Rattle.std.specs.Arc.{arc_value};
    ghost use Rattle.plant.specs.Handed.{HandedState};

    ghost Value = { HandedState B };

    ghost view = { λ h. record { graph = arc_value h.graph; handed = h.blocks.items } };
}

/// What a plant was handed, and how far each of its blocks was, at one moment.
#[derive(Drop)]
pub struct Opening<B: Block> {
    handed: Handed<B>,
    progress: Vec<Progress>,
}

impl<B: Block> fmt::Debug for Opening<B> {
    fn fmt<W: fmt::Write>(&self, f: &mut fmt::Formatter<W>) -> fmt::Result {
        f.debug_struct("Opening").finish_non_exhaustive()
    }
}

impl<B: Block> Model for Opening<B> {
    ghost use Rattle.std.specs.Prelude.{map};
    ghost use Rattle.firing_rules.specs.State.{progress_of};
    ghost use Rattle.plant.specs.Handed.{OpeningState};

    ghost Value = { OpeningState B };

    ghost view = { λ o. record { graph = o.handed.graph; state = record { handed = o.handed.handed; progress = map progress_of o.progress.items } } };
}

impl<B: Block> Opening<B> {
    /// Whether another plant began with the same: an equal graph, the same tapes, closed marks and settings, and each
    /// block as far. Graphs that are equal like that are one network. It looks at each item once, and takes no memory.
    pub fn agrees(&self, other: &Opening<B>) -> bool
        ensures nets { IsTrue result → net_of B.meaning self.now.graph ≡ net_of B.meaning other.now.graph }
        ensures same { IsTrue result ↔ ((graphs_agree B.eq self.now.graph other.now.graph ≡ true)
            × (self.now.state ≡ other.now.state)) }
    {
        same_progress(&self.progress, &other.progress)
            && same_copies(&self.handed.blocks, &other.handed.blocks)
            && self.handed.graph.agrees(&other.handed.graph)
    }
}

impl<B: Block> Parts<B> {
    /// What was handed to the plant.
    pub fn handed(&self, alloc: Global) -> Result<Handed<B>, AllocError>
        requires { ForgetsNone (spans_in self.now).firsts }
        ensures graph { IfOk result (λ h. h.graph ≡ (plant_of self.now).graph) }
        ensures handed { IfOk result (λ h. h.handed ≡ (plant_of self.now).state.handed) }
    {
        Ok(Handed {
            graph: Arc::try_clone(&self.graph)?,
            blocks: copies(alloc, &self.stores.handed)?,
        })
    }

    /// Whether that is what was handed to the plant.
    pub fn agrees(&self, handed: &Handed<B>) -> bool
        requires { ForgetsNone (spans_in self.now).firsts }
        ensures nets { IsTrue result → net_of B.meaning (plant_of self.now).graph ≡ net_of B.meaning handed.now.graph }
        ensures same { let plant = plant_of self.now in
            IsTrue result ↔ ((graphs_agree B.eq plant.graph handed.now.graph ≡ true)
            × (handed.now.handed ≡ plant.state.handed)) }
    {
        are_of(&handed.blocks, &self.stores.handed) && self.graph.agrees(&handed.graph)
    }

    /// What was handed to the plant, and how far it is.
    pub fn opening(&self, alloc: Global) -> Result<Opening<B>, AllocError>
        requires long { length self.now.firings ≡ length (plant_of self.now).graph.blocks }
        requires whole { ForgetsNone (spans_in self.now).firsts }
        ensures graph { IfOk result (λ o. o.graph ≡ (plant_of self.now).graph) }
        ensures state { IfOk result (λ o. o.state ≡ (plant_of self.now).state) }
    {
        Ok(Opening {
            handed: self.handed(alloc)?,
            progress: progress_in(alloc, &self.firings, self.graph.len())?,
        })
    }
}

// A copy of what each block was handed.
fn copies(alloc: Global, handed: &[Intake]) -> Result<Vec<IntakeCopy>, AllocError>
    requires { All IsWhole handed.now }
    ensures { IfOk result (λ copies. copies.items ≡ map handed_of handed.now) }
{
    let mut copies = Vec::with_capacity(alloc, handed.len())?;
    for intake in handed {
        copies.push_reserved(IntakeCopy::of(alloc, intake)?);
    }
    Ok(copies)
}

// Whether the copies are of what the blocks were handed.
fn are_of(copies: &[IntakeCopy], handed: &[Intake]) -> bool
    requires { All IsWhole handed.now }
    ensures { IsTrue result ↔ (copies.now ≡ map handed_of handed.now) }
{
    let mut rest = copies;
    for intake in handed {
        let Some((copy, others)) = rest.split_first() else {
            return false;
        };
        if !copy.agrees(intake) {
            return false;
        }
        rest = others;
    }
    rest.is_empty()
}

// Whether the copies are of the same.
fn same_copies(one: &[IntakeCopy], other: &[IntakeCopy]) -> bool
    ensures { IsTrue result ↔ (one.now ≡ other.now) }
{
    if one.len() != other.len() {
        return false;
    }
    for (block, copy) in one.iter().enumerate() {
        if !copy.is_same(&other[block]) {
            return false;
        }
    }
    true
}

// How far each of so many blocks is.
fn progress_in(alloc: Global, firings: &Firings, blocks: usize) -> Result<Vec<Progress>, AllocError>
    requires many { blocks ≡ length firings.now }
    requires small { blocks < 2 ^ 32 }
    ensures { IfOk result (λ progress. map progress_of progress.items ≡ firings.now) }
{
    let mut progress = Vec::with_capacity(alloc, blocks)?;
    for block in 0..blocks {
        progress.push_reserved(firings.progress(BlockId(block as u32)));
    }
    Ok(progress)
}

// Whether the blocks are as far.
fn same_progress(one: &[Progress], other: &[Progress]) -> bool
    ensures { IsTrue result ↔ (map progress_of one.now ≡ map progress_of other.now) }
{
    one == other
}
