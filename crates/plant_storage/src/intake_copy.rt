//! What a block was handed, as it was at one moment.

ghost use Rattle.std.specs.Arc.{arc_value};
ghost use Rattle.std.specs.Prelude.{◌≡◌, ◌↔◌, map, IsTrue, IfOk};
ghost use Rattle.settings.specs.Values.{held_of};
ghost use Rattle.plant_laws.specs.Stored.{settings_from};
ghost use Rattle.plant_storage.specs.Stores.{IsWhole, handed_of, settings_in};

use crate::intake::Intake;
use crate::tape::Tape;
use recordings::RecentSettings;
use settings::Held;
use std::alloc::{AllocError, Global};
use std::fmt;
use std::marker::Model;
use std::sync::Arc;

/// What a block was handed, as it was at one moment. The tape is shared, so that no item of it is copied. A contract
/// sees it as the machine has it.
pub struct IntakeCopy {
    tape: Arc<Tape, Global>,
    closed: bool,
    settings: Vec<Held>,
    longest: u64,
}

// By hand, so that no crate above proves the drop of each part again.
impl Drop for IntakeCopy {
    fn drop(self) {
        let IntakeCopy {
            tape,
            closed: _,
            settings,
            longest: _,
        } = self;
        drop(tape);
        drop(settings);
    }
}

impl fmt::Debug for IntakeCopy {
    fn fmt<W: fmt::Write>(&self, f: &mut fmt::Formatter<W>) -> fmt::Result {
        f.debug_struct("IntakeCopy").finish_non_exhaustive()
    }
}

impl Model for IntakeCopy {
    ghost use Rattle.std.specs.Prelude.{map, ◌≡◌};
    ghost use Rattle.std.specs.Arc.{arc_value};
    ghost use Rattle.stream_model.specs.Network.{Handed};
    ghost use Rattle.settings.specs.Values.{held_of};

    ghost Value = { Handed };

    ghost view = { λ c. let tape = arc_value c.tape in record { tape = tape.items; tags = tape.marks; closed = c.closed; settings = map held_of c.settings.items; longest = c.longest } };

    ghost invariant = { λ c. (arc_value c.tape).from ≡ 0 };
}

impl IntakeCopy {
    /// A copy of what a block was handed. It takes memory for the settings, and for a tape that is not shared, and
    /// fails only where the allocator refuses.
    pub fn of(alloc: Global, intake: &Intake) -> Result<IntakeCopy, AllocError>
        requires { IsWhole intake.now }
        ensures { IfOk result (λ copy. copy ≡ handed_of intake.now) }
    {
        Ok(IntakeCopy {
            tape: intake.tape.share(alloc)?,
            closed: intake.closed,
            settings: settings_of(alloc, &intake.timeline)?,
            longest: intake.longest,
        })
    }

    /// Whether the block was handed the same: the items of its tape, the tags in the order of feeding, whether it is
    /// closed, how long it may come to be, and the settings.
    pub fn agrees(&self, intake: &Intake) -> bool
        requires { IsWhole intake.now }
        ensures { IsTrue result ↔ (self.now ≡ handed_of intake.now) }
    {
        self.closed == intake.closed
            && self.longest == intake.longest
            && are_settings(&self.settings, &intake.timeline)
            && self.tape.is_same(&intake.tape)
    }

    /// Whether another copy is of the same.
    pub fn is_same(&self, other: &IntakeCopy) -> bool
        ensures { IsTrue result ↔ (self.now ≡ other.now) }
    {
        self.closed == other.closed
            && self.longest == other.longest
            && same_settings(&self.settings, &other.settings)
            && self.tape.is_same(&other.tape)
    }
}

// A copy of the settings of a block, none where it has no setting.
fn settings_of(alloc: Global, timeline: &Option<RecentSettings>) -> Result<Vec<Held>, AllocError>
    requires { settings_from timeline.now ≡ 0 }
    ensures { IfOk result (λ settings. map held_of settings.items ≡ settings_in timeline.now) }
{
    match timeline {
        Some(timeline) => timeline.copy(alloc),
        None => Ok(Vec::new(alloc)),
    }
}

// Whether these are the settings of a block.
fn are_settings(settings: &[Held], timeline: &Option<RecentSettings>) -> bool
    requires { settings_from timeline.now ≡ 0 }
    ensures { IsTrue result ↔ (map held_of settings.now ≡ settings_in timeline.now) }
{
    match timeline {
        Some(timeline) => timeline.is_same_as(settings),
        None => settings.is_empty(),
    }
}

// Whether two lists of settings are the same.
fn same_settings(one: &[Held], other: &[Held]) -> bool
    ensures { IsTrue result ↔ (map held_of one.now ≡ map held_of other.now) }
{
    let mut rest = other;
    for held in one {
        let Some((first, others)) = rest.split_first() else {
            return false;
        };
        if !held.is_same(first.at, &first.value) {
            return false;
        }
        rest = others;
    }
    rest.is_empty()
}
