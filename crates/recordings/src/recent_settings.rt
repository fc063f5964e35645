//! The settings of a block, of which those that no later item reads may be forgotten.

ghost use Rattle.std.specs.Prelude.{◌≡◌, ◌+◌, ◌≤◌, ◌↔◌, [], length, map, IsOk, IsTrue, IfOk, OnOk, OnErr};
ghost use Rattle.std.specs.List.{Any};
ghost use Rattle.stream_model.specs.Settings as model;
ghost use Rattle.settings.specs.Values.{value_of, held_of};
ghost use Rattle.settings.specs.Timelines.{held_at, kept_from};

use crate::past::Past;
use settings::{Held, Timeline, Value};
use std::alloc::{AllocError, Global};
use std::fmt;
use std::marker::Model;

/// The settings of a block, of which those may be forgotten that no item reads from one on. A contract sees all of
/// them, and which is the first item at which they may still be read.
#[derive(Drop)]
pub struct RecentSettings {
    // Each setting with its item, in the order of the calls.
    made: Past<Value, u64>,
    from: u64,
    timeline: Timeline,
}

impl fmt::Debug for RecentSettings {
    fn fmt<W: fmt::Write>(&self, f: &mut fmt::Formatter<W>) -> fmt::Result {
        f.debug_struct("RecentSettings").finish_non_exhaustive()
    }
}

impl Model for RecentSettings {
    ghost use Rattle.recordings.specs.Recent.{SettingsState, ArePastSettings, settings_made};

    ghost Value = { SettingsState };

    ghost view = { λ r. record {
      own = r.timeline.own;
      settings = settings_made r.made.pieces;
      from = r.from;
    } };

    ghost invariant = { λ r. ArePastSettings r.timeline.own (settings_made r.made.pieces) r.from r.timeline.settings };
}

impl RecentSettings {
    /// No settings: the block's own parameter is in force at each item. It takes no memory.
    pub fn new(alloc: Global, own: Value) -> RecentSettings
        ensures own { result.own ≡ value_of own }
        ensures settings { result.settings ≡ [] }
        ensures from { result.from ≡ 0 }
    {
        RecentSettings {
            made: Past::new(),
            from: 0,
            timeline: Timeline::new(alloc, own),
        }
    }

    /// How many settings are in memory: all that may still be read, and of those made before the first item that may
    /// read them at most one. It was in force at that item as others were forgotten, and stays until `forget`, even
    /// where that very item is set then.
    pub fn in_memory(&self) -> usize
        ensures read { length (kept_from (model.setting_at self.now.own self.now.settings self.now.from).at
            self.now.settings) ≤ result }
        ensures past { result ≤ 1 + length (kept_from self.now.from self.now.settings) }
        ensures made { result ≤ length self.now.settings }
    {
        self.timeline.len()
    }

    /// Makes `held` what is in force from item `from` on to below item `to`: the setting in force at `from`, then those
    /// made after it. It takes no memory where `held` has enough, and fails only where the allocator refuses; what
    /// `held` then has is unspecified.
    pub fn copy_between(
        &self,
        alloc: Global,
        from: u64,
        to: u64,
        held: &mut Vec<Held>,
    ) -> Result<(), AllocError>
        requires { self.now.from ≤ from }
        ensures { OnOk result (
            map held_of held.new.items ≡ model.between self.now.own self.now.settings from to) }
    {
        match self.timeline.copy_between(alloc, from, to, held) {
            Ok(()) => Ok(()),
            Err(_) => Err(AllocError),
        }
    }

    /// Whether `held` is what is in force from item `from` on to below item `to`.
    pub fn is_between(&self, from: u64, to: u64, held: &[Held]) -> bool
        requires { self.now.from ≤ from }
        ensures { IsTrue result ↔ (map held_of held.now ≡ model.between self.now.own self.now.settings from to) }
    {
        self.timeline.is_between(from, to, held)
    }

    /// A copy of all settings by their items, of which none may be forgotten. It fails only where the allocator
    /// refuses.
    pub fn copy(&self, alloc: Global) -> Result<Vec<Held>, AllocError>
        requires { self.now.from ≡ 0 }
        ensures { IfOk result (λ copy. map held_of copy.items ≡ self.now.settings) }
    {
        self.timeline.copy(alloc)
    }

    /// Whether `held` are all the settings by their items, of which none may be forgotten.
    pub fn is_same_as(&self, held: &[Held]) -> bool
        requires { self.now.from ≡ 0 }
        ensures { IsTrue result ↔ (map held_of held.now ≡ self.now.settings) }
    {
        self.timeline.is_same_as(held)
    }

    /// Sets the value from item `at` on. An `Err` changes nothing, and comes only where the allocator refuses memory
    /// for a setting of an item that has none yet.
    pub fn set(&mut self, at: u64, value: Value) -> Result<(), AllocError>
        requires { self.old.from ≤ at }
        ensures own { self.new.own ≡ self.old.own }
        ensures from { self.new.from ≡ self.old.from }
        ensures ok { OnOk result (
            self.new.settings ≡ model.put_setting (held_at at (value_of value)) self.old.settings) }
        ensures err { OnErr result (self.new ≡ self.old) }
        ensures replaces { Any (λ h. h.at ≡ at) self.old.settings → IsOk result }
    {
        let made = self.made.and(&value, &at);
        match self.timeline.set(at, value, 0) {
            Ok(()) => {
                self.made = made;
                Ok(())
            }
            Err(_) => Err(AllocError),
        }
    }

    /// The settings that no item from `to` on reads are forgotten. It takes no memory.
    pub fn forget(&mut self, to: u64)
        requires { self.old.from ≤ to }
        ensures own { self.new.own ≡ self.old.own }
        ensures settings { self.new.settings ≡ self.old.settings }
        ensures from { self.new.from ≡ to }
    {
        self.timeline.prune(to);
        self.from = to;
    }
}
