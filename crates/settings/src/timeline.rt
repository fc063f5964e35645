//! The settings of one block over its items.
ghost use Rattle.std.specs.Prelude.{◌≡◌, ◌+◌, ◌≤◌, ◌<◌, ◌↔◌, [], ◌∷◌, ◌++◌, take, map, length, max, IsTrue, IsOk, IfOk, OnOk, OnErr, IsErrOf, IsOkUnless};
ghost use Rattle.std.specs.List.{Any};
ghost use Rattle.stream_model.specs.Settings as model;
ghost use Rattle.settings.specs.Values.{value_of, held_of, placed};
ghost use Rattle.settings.specs.Timelines.{held_at, kept_from, ReadsAs};

use crate::{Held, SettingFault, Value};
use std::alloc::{AllocError, Global};
use std::collections::BTreeMap;
use std::collections::btree_map::Range;
use std::marker::Model;

/// The settings of one block. A contract sees the block's own parameter and the settings by their
/// items: a setting that a later call replaces is not kept.
#[derive(Debug, Drop)]
pub struct Timeline {
    // The block's own parameter, in force from item 0 on.
    own: Value,
    // The values, by the items from which on they are in force.
    settings: BTreeMap<u64, Value>,
}

impl Model for Timeline {
    ghost use Rattle.std.specs.Prelude.{map};
    ghost use Rattle.stream_model.specs.Settings.{IsRising};
    ghost use Rattle.settings.specs.Values.{value_of, placed};
    ghost use Rattle.settings.specs.Timelines.{Settings};

    ghost Value = { Settings };

    ghost view = { λ t. record { own = value_of t.own; settings = map placed t.settings.entries } };

    ghost invariant = { λ t. IsRising (map placed t.settings.entries) };
}

impl Timeline {
    /// No settings: the block's own parameter is in force at each item. It takes no memory.
    pub fn new(alloc: Global, own: Value) -> Timeline
        ensures own { result.own ≡ value_of own }
        ensures settings { result.settings ≡ [] }
    {
        Timeline {
            own,
            settings: BTreeMap::new(alloc),
        }
    }

    /// How many settings are kept: at most one of each item.
    pub fn len(&self) -> usize
        ensures value { result ≡ length self.now.settings }
        ensures rising { model.IsRising self.now.settings }
    {
        self.settings.len()
    }

    /// Whether no setting is kept.
    pub fn is_empty(&self) -> bool
        ensures { IsTrue result ↔ (self.now.settings ≡ []) }
    {
        self.settings.is_empty()
    }

    /// The value in force at the item: that of the last setting made up to it, or the block's own parameter.
    pub fn in_force(&self, item: u64) -> &Value
        ensures { value_of result.now ≡ model.in_force self.now.own self.now.settings item }
    {
        self.setting_at(item).1
    }

    /// What is in force from item `from` on to below item `to`: the setting in force at `from`, then
    /// those made after it, as copies. `Memory` only where the allocator refuses one. Other settings are not looked at.
    pub fn between(&self, alloc: Global, from: u64, to: u64) -> Result<Vec<Held>, SettingFault>
        ensures value { IfOk result (λ held.
            map held_of held.items ≡ model.between self.now.own self.now.settings from to) }
        ensures memory { IsOkUnless result SettingFault.Memory }
    {
        let mut held = Vec::new(alloc);
        self.copy_between(alloc, from, to, &mut held)?;
        Ok(held)
    }

    /// Makes `held` what is in force from item `from` on to below item `to`, as `between` returns it, in the memory
    /// that it has where that is enough. `Memory` only where the allocator refuses; what `held` then has is
    /// unspecified.
    pub fn copy_between(
        &self,
        alloc: Global,
        from: u64,
        to: u64,
        held: &mut Vec<Held>,
    ) -> Result<(), SettingFault>
        ensures value { OnOk result (
            map held_of held.new.items ≡ model.between self.now.own self.now.settings from to) }
        ensures memory { IsOkUnless result SettingFault.Memory }
    {
        let (at, value) = self.setting_at(from);
        put(alloc, held, 0, at, value)?;
        put_all(alloc, held, 1, self.made_between(from, to))?;
        Ok(())
    }

    /// Whether `held` is what is in force from item `from` on to below item `to`.
    pub fn is_between(&self, from: u64, to: u64, held: &[Held]) -> bool
        ensures { IsTrue result ↔ (map held_of held.now ≡ model.between self.now.own self.now.settings from to) }
    {
        let Some((first, others)) = held.split_first() else {
            return false;
        };
        let (at, value) = self.setting_at(from);
        first.is_same(at, value) && are_same(others, self.made_between(from, to))
    }

    /// A copy of all settings by their items. It fails only where the allocator refuses.
    pub fn copy(&self, alloc: Global) -> Result<Vec<Held>, AllocError>
        ensures { IfOk result (λ copy. map held_of copy.items ≡ self.now.settings) }
    {
        let mut copy = Vec::with_capacity(alloc, self.settings.len())?;
        put_all(alloc, &mut copy, 0, self.settings.range(..))?;
        Ok(copy)
    }

    /// Whether `held` are all the settings by their items.
    pub fn is_same_as(&self, held: &[Held]) -> bool
        ensures { IsTrue result ↔ (map held_of held.now ≡ self.now.settings) }
    {
        are_same(held, self.settings.range(..))
    }

    /// Sets the value from item `at` on. `Late` where that is below `floor`, before any memory is asked for. `Memory`
    /// only where the allocator refuses, and not where a setting of the same item is replaced.
    pub fn set(&mut self, at: u64, value: Value, floor: u64) -> Result<(), SettingFault>
        ensures own { self.new.own ≡ self.old.own }
        ensures ok { OnOk result (
            self.new.settings ≡ model.put_setting (held_at at (value_of value)) self.old.settings) }
        ensures err { OnErr result (self.new ≡ self.old) }

        ensures late { IsErrOf result (SettingFault.Late floor) ↔ (at < floor) }
        ensures memory { floor ≤ at → IsOkUnless result SettingFault.Memory }
        ensures replaces { floor ≤ at → Any (λ h. h.at ≡ at) self.old.settings → IsOk result }
    {
        if at < floor {
            return Err(SettingFault::Late { floor });
        }
        match self.settings.insert(at, value) {
            Ok(_) => Ok(()),
            Err(_) => Err(SettingFault::Memory),
        }
    }

    /// Drops the settings that no item from `before` on reads, which are those made before the one in force there. It
    /// takes no memory.
    pub fn prune(&mut self, before: u64)
        ensures own { self.new.own ≡ self.old.own }
        ensures settings { self.new.settings ≡ kept_from
            (model.setting_at self.old.own self.old.settings before).at self.old.settings }
        ensures reads { ReadsAs self.new before self.old.settings }
    {
        let (first, _) = self.setting_at(before);
        forget_below(&mut self.settings, first);
    }

    // The setting in force at the item: where it is made, and its value.
    fn setting_at(&self, item: u64) -> (u64, &Value)
        ensures { held_at result.0 (value_of result.1.now) ≡ model.setting_at self.now.own self.now.settings item }
    {
        match self.settings.range(..=item).next_back() {
            Some((at, value)) => (*at, value),
            None => (0, &self.own),
        }
    }

    // The settings made after item `from` and before item `to`.
    fn made_between(&self, from: u64, to: u64) -> Range<'_, u64, Value>
        ensures { model.setting_at self.now.own self.now.settings from ∷ map placed result ≡
            model.between self.now.own self.now.settings from to }
    {
        if to <= from {
            return self.settings.range(0..0);
        }
        self.settings.range(from + 1..to)
    }
}

// Takes out what is set below an item. It takes no memory.
fn forget_below(settings: &mut BTreeMap<u64, Value>, first: u64)
    requires { model.IsRising (map placed settings.old.entries) }
    ensures { map placed settings.new.entries ≡ kept_from first (map placed settings.old.entries) }
{
    while let Some((at, _)) = settings.first_key_value() {
        if first <= *at {
            return;
        }
        let _ = settings.pop_first();
    }
}

// Makes what `held` has from a place on these settings, in the memory that it has where that is enough.
fn put_all(
    alloc: Global,
    held: &mut Vec<Held>,
    place: usize,
    settings: Range<'_, u64, Value>,
) -> Result<(), AllocError>
    requires { place ≤ length held.old.items }
    ensures { OnOk result (
        map held_of held.new.items ≡ take place (map held_of held.old.items) ++ map placed settings.entry) }
{
    let mut count = place;
    for (at, value) in settings {
        put(alloc, held, count, *at, value)?;
        count += 1;
    }
    held.truncate(count);
    Ok(())
}

// Puts a setting at the place, which is there or comes next.
fn put(
    alloc: Global,
    held: &mut Vec<Held>,
    place: usize,
    at: u64,
    value: &Value,
) -> Result<(), AllocError>
    requires { place ≤ length held.old.items }
    ensures value { OnOk result (
        take (place + 1) (map held_of held.new.items)
        ≡ take place (map held_of held.old.items) ++ held_at at (value_of value.now) ∷ []) }
    ensures length { OnOk result (length held.new.items ≡ max (place + 1) (length held.old.items)) }
{
    if place < held.len() {
        held[place].copy_from(alloc, at, value)?;
    } else {
        held.push(Held {
            at,
            value: value.copy(alloc)?,
        })?;
    }
    Ok(())
}

// Whether `held` are these settings.
fn are_same(held: &[Held], settings: Range<'_, u64, Value>) -> bool
    ensures { IsTrue result ↔ (map held_of held.now ≡ map placed settings.entry) }
{
    let mut rest = held;
    for (at, value) in settings {
        let Some((first, others)) = rest.split_first() else {
            return false;
        };
        if !first.is_same(*at, value) {
            return false;
        }
        rest = others;
    }
    rest.is_empty()
}
