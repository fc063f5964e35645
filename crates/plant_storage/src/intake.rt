//! What a block was handed.

ghost use Rattle.std.specs.Prelude.{◌≡◌, ◌≤◌, length, map, true, IsOk, IsSome, IfOk, OnOk, OnErr};
ghost use Rattle.std.specs.List.{Any};
ghost use Rattle.std.specs.Option.{option_map};
ghost use Rattle.stream_model.specs.Network.{nothing_within};
ghost use Rattle.items.specs.Items.{type_of, numbers_of};
ghost use Rattle.settings.specs.Values.{value_of};
ghost use Rattle.settings.specs.Timelines.{held_at};
ghost use Rattle.plant_laws.specs.Stored.{no_tape, settings_from};
ghost use Rattle.plant_laws.specs.Changes.{with_settings_to};
ghost use Rattle.plant_laws.specs.Opening.{own_settings};
ghost use Rattle.plant_storage.specs.Marks.{mark_of};
ghost use Rattle.plant_storage.specs.SourceTapes.{tape_in, is_own};
ghost use Rattle.plant_storage.specs.Stores.{handed_of, tape_of, settings_in, HasForgotten, HasForgottenSettings, HasOneMore, IsAsBefore, IsFed, IsSet};

use crate::source_tape::SourceTape;
use items::{ItemType, Items, Mark};
use recordings::RecentSettings;
use settings::Value;
use std::alloc::{AllocError, Global};

/// What a block was handed: a source's tape, and settings.
#[derive(Debug, Drop)]
pub struct Intake {
    pub tape: SourceTape,
    /// Whether the tape is closed.
    pub closed: bool,
    /// The settings, where the block has one.
    pub timeline: Option<RecentSettings>,
    /// The most items that the tape may come to hold.
    pub longest: u64,
}

impl Intake {
    /// Nothing yet: an open tape without items, which is `alone` its owner's or shared with copies, and no settings.
    /// The block's own parameter, if it has a setting, is in force. It fails only where the allocator refuses.
    pub fn new(
        alloc: Global,
        item: ItemType,
        own: Option<Value>,
        longest: u64,
        alone: bool,
    ) -> Result<Intake, AllocError>
        ensures handed { IfOk result (λ intake. handed_of intake ≡ nothing_within longest) }
        ensures tape { IfOk result (λ intake. tape_of intake ≡ record no_tape { item = item }) }
        ensures timeline { IfOk result (λ intake. intake.timeline ≡ own_settings (option_map value_of own)) }
        ensures alone { IfOk result (λ intake. is_own intake.tape ≡ alone) }
    {
        let timeline = match own {
            Some(value) => Some(RecentSettings::new(alloc, value)),
            None => None,
        };
        Ok(Intake {
            tape: SourceTape::new(alloc, item, alone)?,
            closed: false,
            timeline,
            longest,
        })
    }

    /// Puts items at the end of the tape, with each mark as a tag of the source. A tape that is shared is copied first.
    /// An `Err` changes nothing.
    pub fn feed(&mut self, source: u32, items: &Items, marks: &[Mark]) -> Result<(), AllocError>
        requires { type_of items.now ≡ (tape_in self.old.tape).item }
        ensures ok { OnOk result (IsFed source (numbers_of items.now) (map mark_of marks.now) self.old self.new) }
        ensures err { OnErr result (IsAsBefore self.old self.new) }
    {
        self.tape.feed(source, items, marks)
    }

    /// The items of the tape before `to` are forgotten, and the tags on them. It takes no memory.
    pub fn forget(&mut self, to: u64)
        requires own { is_own self.old.tape ≡ true }
        requires kept { (tape_in self.old.tape).from ≤ to }
        requires within { to ≤ length (tape_in self.old.tape).items }
        ensures { HasForgotten to self.old self.new }
    {
        self.tape.forget(to);
    }

    /// The settings that no item from `to` on is read with are forgotten. It takes no memory.
    pub fn forget_settings(&mut self, to: u64)
        requires { settings_from self.old.timeline ≤ to }
        ensures { HasForgottenSettings to self.old self.new }
    {
        forget_settings_in(&mut self.timeline, to);
    }

    /// Sets what is in force from an item on. An `Err` changes nothing, and comes only where there is no setting of
    /// that item yet.
    pub fn set(&mut self, at: u64, value: Value) -> Result<(), AllocError>
        requires some { IsSome self.old.timeline }
        requires unread { settings_from self.old.timeline ≤ at }
        ensures ok { OnOk result (IsSet (held_at at (value_of value)) self.old self.new) }
        ensures err { OnErr result (IsAsBefore self.old self.new) }
        ensures replaces { Any (λ h. h.at ≡ at) (settings_in self.old.timeline) → IsOk result }
    {
        set_in(&mut self.timeline, at, value)
    }
}

// Forgets the settings that no item from `to` on is read with.
fn forget_settings_in(timeline: &mut Option<RecentSettings>, to: u64)
    requires { settings_from timeline.old ≤ to }
    ensures { timeline.new ≡ with_settings_to to timeline.old }
{
    if let Some(settings) = timeline {
        settings.forget(to);
    }
}

// Sets a value from an item on.
fn set_in(timeline: &mut Option<RecentSettings>, at: u64, value: Value) -> Result<(), AllocError>
    requires some { IsSome timeline.old }
    requires unread { settings_from timeline.old ≤ at }
    ensures ok { OnOk result (HasOneMore (held_at at (value_of value)) timeline.old timeline.new) }
    ensures err { OnErr result (timeline.new ≡ timeline.old) }
    ensures replaces { Any (λ h. h.at ≡ at) (settings_in timeline.old) → IsOk result }
{
    match timeline {
        Some(settings) => settings.set(at, value),
        None => unreachable!(),
    }
}
