//! Reports on a graph and on a run, line by line.
ghost use Rattle.std.specs.Prelude.{◌≡◌, ◌++◌, IfOk, OnOk};

use crate::print::{push_counted, push_held, push_named};
use items::{Items, Tag};
use std::alloc::{AllocError, Global};
use std::fmt;

/// A line of the report on a graph that was checked, or on a run at its end.
#[derive(Clone, Copy)]
pub enum Report<'a> {
    /// The graph has so many blocks.
    Blocks(u64),
    /// The graph has so many connections.
    Connections(u64),
    /// Some firings of each block leave every connection as it was.
    Balanced,
    /// No firings do.
    Uneven,
    /// A number that the balance needs is above the limits.
    TooLarge,
    /// The block of this name fires so often in an iteration.
    Firings {
        name: &'a [u8],
        count: u32,
    },
    /// What the sink of this name holds: how many firings, and all of the items, with their tags.
    Sink {
        name: &'a [u8],
        held: u64,
        items: &'a Items,
        tags: &'a [Tag],
    },
    /// All blocks are done.
    Done,
    /// Not all blocks are done, and none can act.
    Stalled,
}

impl fmt::Debug for Report<'_> {
    fn fmt<W: fmt::Write>(&self, f: &mut fmt::Formatter<W>) -> fmt::Result {
        f.debug_struct("Report").finish_non_exhaustive()
    }
}

impl Report<'_> {
    ghost use Rattle.script_text.specs.Printed.{reported};
    ghost use Rattle.script_text.specs.Replies.{line_text};

    /// The report as a line.
    pub fn to_line(&self, alloc: Global) -> Result<Vec<u8>, AllocError>
        ensures { IfOk result (λ line. line.items ≡ line_text (reported self.now)) }
    {
        let mut line = Vec::new(alloc);
        self.push_text(&mut line)?;
        line.push(b'\n')?;
        Ok(line)
    }

    fn push_text(&self, out: &mut Vec<u8>) -> Result<(), AllocError>
        ensures { OnOk result (out.new.items ≡ out.old.items ++ reported self.now) }
    {
        match self {
            Report::Blocks(count) => push_counted(out, b"blocks ", *count),
            Report::Connections(count) => push_counted(out, b"connections ", *count),
            Report::Balanced => out.extend_from_slice(b"rates balanced"),
            Report::Uneven => out.extend_from_slice(b"rates uneven"),
            Report::TooLarge => out.extend_from_slice(b"rates too_large"),
            Report::Firings { name, count } => {
                push_named(out, b"q ", name)?;
                push_counted(out, b" ", u64::from(*count))
            }
            Report::Sink {
                name,
                held,
                items,
                tags,
            } => {
                push_named(out, b"sink ", name)?;
                out.push(b' ')?;
                push_held(out, *held, items, tags)
            }
            Report::Done => out.extend_from_slice(b"done"),
            Report::Stalled => out.extend_from_slice(b"stalled"),
        }
    }
}
