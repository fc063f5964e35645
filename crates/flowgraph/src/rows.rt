//! Rows of items in one vector.
ghost use Rattle.std.specs.Prelude.{◌≡◌, ◌<◌, ◌++◌, [], ◌∷◌, length, slice_index_or, IfOk, OnOk};
ghost use Rattle.flowgraph.specs.Rows.{rows_of};

use std::alloc::{AllocError, Global};
use std::marker::Model;

/// Where a row begins and ends.
#[derive(Clone, Copy)]
pub struct Span {
    from: usize,
    to: usize,
}

/// Rows of items, one behind the other in one vector. A contract sees the list of the rows.
#[derive(Drop)]
pub struct Rows<T> {
    items: Vec<T>,
    spans: Vec<Span>,
}

impl<T> Model for Rows<T> {
    ghost use Rattle.std.specs.Prelude.{List};

    ghost Value = { List (List T) };

    ghost use Rattle.flowgraph.specs.Rows.{rows_of, AreRows};

    ghost view = { λ r. rows_of r.items.items r.spans.items };

    ghost invariant = { λ r. AreRows r.items.items r.spans.items };
}

impl<T> Rows<T> {
    /// No rows.
    pub fn new(alloc: Global) -> Rows<T>
        ensures { result ≡ [] }
    {
        Rows {
            items: Vec::new(alloc),
            spans: Vec::new(alloc),
        }
    }

    /// The items of a row.
    pub fn row(&self, row: usize) -> &[T]
        requires { row < length self.now }
        ensures { result.now ≡ slice_index_or self.now row [] }
    {
        let span = self.spans[row];
        &self.items[span.from..span.to]
    }
}

impl<T: Copy> Rows<T> {
    /// Adds a row. It fails only where the allocator refuses.
    pub fn push(&mut self, row: &[T]) -> Result<(), AllocError>
        ensures { OnOk result (self.new ≡ self.old ++ row.now ∷ []) }
    {
        self.spans.reserve(1)?;
        let from = self.items.len();
        self.items.extend_from_slice(row)?;
        let to = self.items.len();
        self.spans.push(Span { from, to })?;
        Ok(())
    }
}
