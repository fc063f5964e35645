//! Values of settings.

ghost use Rattle.std.specs.Prelude.{◌≡◌, ◌↔◌, IsTrue, IfOk, OnOk, OnErr, is_ok, true};
ghost use Rattle.settings.specs.Values.{value_of, held_of, is_number};
ghost use Rattle.settings.specs.Timelines.{held_at};

use std::alloc::{AllocError, Global};
use std::marker::Model;

/// The taps of a filter. The first is multiplied with the newest item.
#[derive(Debug, Drop)]
pub struct Taps {
    taps: Vec<i16>,
}

impl Model for Taps {
    ghost use Rattle.std.specs.Prelude.{List, ℤ};

    ghost Value = { List ℤ };

    ghost view = { λ t. t.taps.items };
}

impl Taps {
    /// These taps, however many. It takes no memory; a block takes only as many as it was made with.
    pub fn new(taps: Vec<i16>) -> Taps
        ensures { result ≡ taps.items }
    {
        Taps { taps }
    }

    /// All taps, in their order.
    pub fn as_slice(&self) -> &[i16]
        ensures { result.now ≡ self.now }
    {
        &self.taps
    }

    /// Whether the taps are the same.
    pub fn is_same(&self, other: &Taps) -> bool
        ensures { IsTrue result ↔ (self.now ≡ other.now) }
    {
        self.taps == other.taps
    }

    /// Makes these taps the same as the others, in the memory that they have where that is enough. An `Err` changes
    /// nothing.
    pub fn copy_from(&mut self, other: &Taps) -> Result<(), AllocError>
        ensures ok { OnOk result (self.new ≡ other.now) }
        ensures err { OnErr result (self.new ≡ self.old) }
    {
        let more = other.taps.len().saturating_sub(self.taps.len());
        self.taps.reserve(more)?;
        self.taps.clear();
        self.taps.extend_from_slice(&other.taps)
    }

    /// A copy of the taps. It fails only where the allocator refuses.
    pub fn copy(&self, alloc: Global) -> Result<Taps, AllocError>
        ensures { IfOk result (λ taps. taps ≡ self.now) }
    {
        Ok(Taps {
            taps: Vec::from_slice(alloc, &self.taps)?,
        })
    }
}

/// What a setting sets: one number, or the taps of a filter.
#[derive(Debug, Drop)]
pub enum Value {
    /// A number. The block that is set says its range.
    Number(i64),
    /// The taps of a filter.
    Taps(Taps),
}

impl Value {
    /// Whether the values are the same.
    pub fn is_same(&self, other: &Value) -> bool
        ensures { IsTrue result ↔ (value_of self.now ≡ value_of other.now) }
    {
        match (self, other) {
            (Value::Number(number), Value::Number(other)) => number == other,
            (Value::Taps(taps), Value::Taps(other)) => taps.is_same(other),
            _ => false,
        }
    }

    /// Makes this value the same as the other, in the memory that it has where that is enough. An `Err` changes
    /// nothing.
    pub fn copy_from(&mut self, alloc: Global, other: &Value) -> Result<(), AllocError>
        ensures ok { OnOk result (value_of self.new ≡ value_of other.now) }
        ensures err { OnErr result (value_of self.new ≡ value_of self.old) }
    {
        if let (Value::Taps(taps), Value::Taps(other)) = (&mut *self, other) {
            return taps.copy_from(other);
        }
        *self = other.copy(alloc)?;
        Ok(())
    }

    /// A copy of the value. It fails only where the allocator refuses, and never of a number.
    pub fn copy(&self, alloc: Global) -> Result<Value, AllocError>
        ensures same { IfOk result (λ value. value_of value ≡ value_of self.now) }
        ensures number { is_number self.now ≡ true → is_ok result ≡ true }
    {
        Ok(match self {
            Value::Number(number) => Value::Number(*number),
            Value::Taps(taps) => Value::Taps(taps.copy(alloc)?),
        })
    }
}

/// A value that is in force from an input item on, counted from 0.
#[derive(Debug, Drop)]
pub struct Held {
    pub at: u64,
    pub value: Value,
}

impl Held {
    /// Whether it is the value that is in force, from this item on.
    pub fn is_same(&self, at: u64, value: &Value) -> bool
        ensures { IsTrue result ↔ (held_of self.now ≡ held_at at (value_of value.now)) }
    {
        self.at == at && self.value.is_same(value)
    }

    /// Makes this setting one of the value at the item, in the memory that it has where that is enough. An `Err`
    /// changes nothing.
    pub fn copy_from(&mut self, alloc: Global, at: u64, value: &Value) -> Result<(), AllocError>
        ensures ok { OnOk result (held_of self.new ≡ held_at at (value_of value.now)) }
        ensures err { OnErr result (held_of self.new ≡ held_of self.old) }
    {
        self.value.copy_from(alloc, value)?;
        self.at = at;
        Ok(())
    }
}
