//! The tapes of a plant's sources, as firings look at them.

ghost use Rattle.std.specs.Prelude.{◌≡◌, map};
ghost use Rattle.plant_storage.specs.Stores.{handed_of};
ghost use Rattle.firing_rules.specs.State.{tape_of};

use firing_rules::{Tape, Tapes};
use flowgraph::BlockId;
use plant_storage::{Intake, Stores};

/// The tapes of the sources of a plant.
#[derive(Clone, Copy)]
pub struct SourceTapes<'a> {
    handed: &'a [Intake],
}

impl<'a> SourceTapes<'a> {
    /// What is stored of it.
    pub fn of(stores: &'a Stores) -> SourceTapes<'a>
        ensures { result.handed.now ≡ stores.now.handed.items }
    {
        SourceTapes {
            handed: &stores.handed,
        }
    }
}

impl Tapes for SourceTapes<'_> {
    ghost tapes = { λ tapes. map tape_of (map handed_of tapes.handed.now) };

    fn tape(&self, block: BlockId) -> Tape {
        counts_of(&self.handed[block.0 as usize])
    }
}

/// What claims ask about the tape of a block.
pub fn counts_of(intake: &Intake) -> Tape
    ensures { result ≡ tape_of (handed_of intake.now) }
{
    Tape {
        length: intake.tape.len(),
        closed: intake.closed,
    }
}
