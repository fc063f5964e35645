//! Replies, and their text.
ghost use Rattle.std.specs.Prelude.{◌≡◌, ◌++◌, IfOk, OnOk};

use crate::print::{push_counted, push_held, push_named};
use items::{Items, Tag};
use std::alloc::{AllocError, Global};
use std::fmt;

/// What a command is answered.
#[derive(Clone, Copy)]
pub enum Reply<'a> {
    /// A source was fed, and has so many items.
    Fed(u64),
    /// A source's tape was ended, with so many items.
    Closed(u64),
    /// A setting was placed, from this item on.
    Taken(u64),
    /// The block claimed so many firings, from this one on.
    Claimed {
        first: u64,
        count: u32,
    },
    /// The block is done.
    Done,
    /// The block has a claim in flight.
    Busy,
    /// The block waits for items on an input.
    WaitingItems(usize),
    /// The block waits for room behind an output.
    WaitingRoom(usize),
    /// The block fired so often.
    Did(u32),
    /// The block's claim was given up.
    Abandoned,
    /// What a sink holds: how many firings, and some of the items, with their tags.
    Piece {
        held: u64,
        items: &'a Items,
        tags: &'a [Tag],
    },
    /// The call was refused, by the number of the reason.
    Refused(u32),
    /// The setting came too late: items below this one are no longer open.
    Late(u64),
    /// The block waits for items on an input, of the block of this name.
    WaitsItems {
        port: usize,
        writer: &'a [u8],
    },
    /// The block waits for room behind an output, which the block of this name has not read.
    WaitsRoom {
        port: usize,
        reader: &'a [u8],
    },
    /// The block is a source that waits to be fed.
    WaitsFeed,
    /// The block waits for nothing.
    Ready,
    /// Whether no block can act.
    Quiet(bool),
    /// No block can act any more: whether each is done.
    Settled(bool),
}

impl fmt::Debug for Reply<'_> {
    fn fmt<W: fmt::Write>(&self, f: &mut fmt::Formatter<W>) -> fmt::Result {
        f.debug_struct("Reply").finish_non_exhaustive()
    }
}

impl Reply<'_> {
    ghost use Rattle.script_text.specs.Printed.{printed};
    ghost use Rattle.script_text.specs.Replies.{line_text};

    /// The reply as a line.
    pub fn to_line(&self, alloc: Global) -> Result<Vec<u8>, AllocError>
        ensures { IfOk result (λ line. line.items ≡ line_text (printed self.now)) }
    {
        let mut line = Vec::new(alloc);
        self.push_text(&mut line)?;
        line.push(b'\n')?;
        Ok(line)
    }

    fn push_text(&self, out: &mut Vec<u8>) -> Result<(), AllocError>
        ensures { OnOk result (out.new.items ≡ out.old.items ++ printed self.now) }
    {
        match self {
            Reply::Fed(total) => push_counted(out, b"fed ", *total),
            Reply::Closed(total) => push_counted(out, b"closed ", *total),
            Reply::Taken(at) => push_counted(out, b"taken ", *at),
            Reply::Claimed { first, count } => {
                push_counted(out, b"claimed ", *first)?;
                push_counted(out, b" ", u64::from(*count))
            }
            Reply::Done => out.extend_from_slice(b"done"),
            Reply::Busy => out.extend_from_slice(b"busy"),
            Reply::WaitingItems(port) => push_counted(out, b"waiting items ", *port as u64),
            Reply::WaitingRoom(port) => push_counted(out, b"waiting room ", *port as u64),
            Reply::Did(count) => push_counted(out, b"did ", u64::from(*count)),
            Reply::Abandoned => out.extend_from_slice(b"abandoned"),
            Reply::Piece { held, items, tags } => {
                out.extend_from_slice(b"read ")?;
                push_held(out, *held, items, tags)
            }
            Reply::Refused(code) => push_counted(out, b"refused ", u64::from(*code)),
            Reply::Late(floor) => push_counted(out, b"refused 27 ", *floor),
            Reply::WaitsItems { port, writer } => {
                push_counted(out, b"waits items ", *port as u64)?;
                push_named(out, b" of ", writer)
            }
            Reply::WaitsRoom { port, reader } => {
                push_counted(out, b"waits room ", *port as u64)?;
                push_named(out, b" for ", reader)
            }
            Reply::WaitsFeed => out.extend_from_slice(b"waits feed"),
            Reply::Ready => out.extend_from_slice(b"ready"),
            Reply::Quiet(true) => out.extend_from_slice(b"quiet yes"),
            Reply::Quiet(false) => out.extend_from_slice(b"quiet no"),
            Reply::Settled(true) => out.extend_from_slice(b"settled done"),
            Reply::Settled(false) => out.extend_from_slice(b"settled quiet"),
        }
    }
}
