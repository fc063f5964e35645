//! The turn goes from one thread to the next, in the order of the pieces. The thread that has it writes.

ghost use Rattle.std.specs.Prelude.{◌≡◌, ◌+◌, OnOk, IfOk};
ghost use Rattle.slice_threads.specs.Cutting.{counted};

use crate::piece::{Given, Share};
use flowgraph::BlockId;
use std::alloc::{AllocError, Global};

/// Takes what the slices give.
pub trait Outlet {
    type Fault: From<AllocError> + Send + Drop;

    /// Writes what a sink is given next.
    fn write(&mut self, sink: BlockId, given: &Given) -> Result<(), Self::Fault>;
}

/// What a slice made of the piece of this number, with so many iterations: what each sink is given.
#[derive(Drop)]
pub(crate) struct Made {
    pub(crate) number: u64,
    pub(crate) iterations: u64,
    pub(crate) given: Vec<Given>,
}

/// The outlet, and what was written to it.
#[derive(Drop)]
pub(crate) struct Turn<O> {
    pub(crate) outlet: O,
    /// The number of the piece whose turn it is. Those before it are written.
    pub(crate) next: u64,
    /// How many iterations the written pieces have.
    pub(crate) iterations: u64,
    /// How many items of these each sink was given.
    pub(crate) given: Vec<u64>,
}

impl<O: Outlet + Drop> Turn<O> {
    /// The turn for so many sinks, with nothing written.
    pub(crate) fn new(alloc: Global, outlet: O, sinks: usize) -> Result<Turn<O>, AllocError>
        ensures next { IfOk result (λ turn. turn.next ≡ 0) }
        ensures iterations { IfOk result (λ turn. turn.iterations ≡ 0) }
    {
        Ok(Turn {
            outlet,
            next: 0,
            iterations: 0,
            given: vec![in alloc; 0; sinks]?,
        })
    }

    /// Writes what the slice made of the piece whose turn it is. If that fails, the turn must not be given on.
    pub(crate) fn write(&mut self, shares: &[Share], made: &Made) -> Result<(), O::Fault>
        requires own { made.now.number ≡ self.old.next }
        ensures next { OnOk result (self.new.next ≡ counted (self.old.next + 1)) }
        ensures iterations { OnOk result (self.new.iterations ≡ counted (self.old.iterations + made.now.iterations)) }
    {
        let (next, iterations) = (self.next, self.iterations);
        self.write_all(shares, &made.given)?;
        self.next = next.saturating_add(1);
        self.iterations = iterations.saturating_add(made.iterations);
        Ok(())
    }

    fn write_all(&mut self, shares: &[Share], made: &[Given]) -> Result<(), O::Fault> {
        for ((given, share), count) in made.iter().zip(shares).zip(&mut self.given) {
            self.outlet.write(share.sink, given)?;
            let items = given.items.len() as u64 / share.item_size.max(1);
            *count = count.saturating_add(items);
        }
        Ok(())
    }
}
