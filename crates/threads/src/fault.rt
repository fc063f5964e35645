//! What may stop a run in threads.

ghost use Rattle.std.specs.Prelude.{◌≡◌, Some};
ghost use Rattle.threads.specs.Fault.{error_of, row_of, text_of};

use flowgraph::Block;
use plant::Plant;
use refusal_codes::Refusal;
use std::fmt;

/// Why a run did not come to its end. A returned plant has what was handed to it, after `live` by its callers too, and
/// no claim in flight. It may be run again.
#[derive(Debug, Drop)]
pub enum RunFault<B: Block> {
    /// Out of memory before the run, or for a claim during it.
    Memory(Plant<B>),
    /// A thread could not be started. Those that were started have been stopped.
    Thread(Plant<B>),
    /// The plant that the threads left does not hold what was handed in, has a claim in flight, or fits no outcome.
    /// This should never happen.
    Foreign,
}

/// Why a run in threads failed: a `RunFault` without the plant that it gives back.
#[derive(Clone, Copy, Debug, PartialEq, Eq)]
pub enum RunError {
    /// Out of memory.
    Memory,
    /// A thread could not be started.
    Thread,
    /// What came back is not what was handed in.
    Foreign,
}

impl<B: Block> RunFault<B> {
    /// The fault without the plant that it gives back.
    pub fn error(&self) -> RunError
        ensures { result ≡ error_of self.now }
    {
        match self {
            RunFault::Memory(_) => RunError::Memory,
            RunFault::Thread(_) => RunError::Thread,
            RunFault::Foreign => RunError::Foreign,
        }
    }
}

impl<B: Block> Refusal for RunFault<B> {
    ghost row = { λ fault. row_of (error_of fault) };

    fn row(&self) -> (u32, &'static str) {
        self.error().row()
    }
}

impl Refusal for RunError {
    ghost row = { row_of };

    fn row(&self) -> (u32, &'static str) {
        match self {
            RunError::Memory => (60, "Memory"),
            RunError::Thread => (61, "Thread"),
            RunError::Foreign => (62, "Foreign"),
        }
    }
}

impl<B: Block> fmt::Display for RunFault<B> {
    ghost output = { λ fault. Some (text_of (error_of fault)) };

    fn fmt<W: fmt::Write>(&self, f: &mut fmt::Formatter<W>) -> fmt::Result {
        write!(f, "{}", self.error())
    }
}

impl fmt::Display for RunError {
    ghost output = { λ fault. Some (text_of fault) };

    fn fmt<W: fmt::Write>(&self, f: &mut fmt::Formatter<W>) -> fmt::Result {
        f.write_str(match self {
            RunError::Memory => "out of memory",
            RunError::Thread => "a thread could not be started",
            RunError::Foreign => "what came back is not what was handed in",
        })
    }
}
