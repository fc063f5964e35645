//! The tapes of all sources. Pieces are cut off them side by side.

ghost use Rattle.std.specs.Prelude.{◌≡◌, ◌<◌, ◌≤◌, ◌+◌, ◌↔◌, All, IsTrue, IfOk, OnOk};
ghost use Rattle.slice_threads.specs.Cutting.{counted, first_of, front_of, part_of, longest_of, AreParts, CutsAlike, HasWhole};

use crate::feed::Feed;
use crate::marks::Known;
use crate::piece::{Piece, Share};
use crate::reading::{Readers, read_once};
use crate::room::Room;
use pipeline::StreamPart;
use std::alloc::{AllocError, Global};
use std::io;
use std::io::Read;

// The most bytes of marks that are read at once.
const MARKS: usize = 4_096;

/// What is to be read next.
#[derive(Clone, Copy, Debug, PartialEq, Eq)]
pub enum Want {
    /// The tape of the feed with this number.
    Tape(usize),
    /// The marks of that feed.
    Marks(usize),
    /// Nothing: a piece of full length is there.
    Nothing,
    /// Nothing: there will be no whole piece.
    Never,
}

/// How tapes are cut.
#[derive(Clone, Copy, Debug, PartialEq, Eq)]
pub struct Cutting {
    /// The iteration of the whole tapes at which the first piece begins: the first one, or one after the overlap.
    pub begins: u64,
    /// How many iterations before its own a piece has, as far as they exist.
    pub overlap: u64,
    /// How many iterations of its own a piece has at most.
    pub most: u64,
}

/// What was read of the tapes of all sources.
#[derive(Drop)]
pub struct Feeds {
    pub feeds: Vec<Feed>,
    /// The iteration at which the next piece begins.
    pub begins: u64,
    /// How many iterations before its own a piece has, as far as they exist.
    pub overlap: u64,
    /// How many iterations of its own a piece has at most.
    pub most: u64,
}

impl Feeds {
    /// Nothing was read. The tapes begin with the first piece, or with the overlap before it.
    pub fn new(feeds: Vec<Feed>, cutting: Cutting) -> Feeds
        ensures feeds { result.feeds ≡ feeds }
        ensures begins { result.begins ≡ cutting.begins }
        ensures overlap { result.overlap ≡ cutting.overlap }
        ensures most { result.most ≡ cutting.most }
    {
        Feeds {
            feeds,
            begins: cutting.begins,
            overlap: cutting.overlap,
            most: cutting.most,
        }
    }

    // How many iterations the next piece has before its own.
    fn front(&self) -> u64
        ensures { result ≡ front_of self.now.begins self.now.overlap }
    {
        self.begins.min(self.overlap)
    }

    /// The iteration of the whole tapes that the feeds' contents begin at.
    pub fn first(&self) -> u64
        ensures { result ≡ first_of self.now.begins self.now.overlap }
    {
        self.begins.saturating_sub(self.front())
    }

    /// How many items all sources give in an iteration.
    pub fn period(&self) -> u64 {
        let mut period: u64 = 0;
        for feed in &self.feeds {
            period = period.saturating_add(feed.stride.period);
        }
        period
    }

    /// Moves what the feeds hold into these rooms, one for each.
    pub(crate) fn go_on_in(&mut self, rooms: Vec<Room>) -> Result<(), AllocError>
        ensures { CutsAlike self.old self.new }
    {
        for (feed, room) in self.feeds.iter_mut().zip(rooms) {
            feed.go_on_in(room)?;
        }
        Ok(())
    }

    // How many iterations a piece of full length has.
    fn longest(&self) -> u64
        ensures { result ≡ longest_of self.now }
    {
        self.front().saturating_add(self.most)
    }

    /// What is to be read next, for a piece of full length.
    pub fn want(&mut self) -> Result<Want, AllocError>
        ensures { CutsAlike self.old self.new }
    {
        let mut least = self.longest();
        let mut shortest = None;
        for (at, feed) in self.feeds.iter().enumerate() {
            let there = feed.iterations();
            if there < least {
                least = there;
                shortest = Some(at);
            }
        }
        // (without sources nothing is ever read)
        if self.feeds.is_empty() {
            return Ok(Want::Never);
        }
        let first = self.first();
        for (at, feed) in self.feeds.iter_mut().enumerate() {
            match feed.known(first, least)? {
                Known::All => {}
                Known::Some => return Ok(Want::Marks(at)),
                Known::Never => return Ok(Want::Never),
            }
        }
        match shortest {
            Some(at) if self.is_over(at) => Ok(Want::Never),
            Some(at) => Ok(Want::Tape(at)),
            None => Ok(Want::Nothing),
        }
    }

    fn is_over(&self, at: usize) -> bool {
        match self.feeds.get(at) {
            Some(feed) => feed.is_over(),
            None => true,
        }
    }

    /// How many bytes of what is wanted a piece can use at most.
    pub(crate) fn missing(&self, want: Want) -> usize {
        match want {
            Want::Tape(at) => match self.feeds.get(at) {
                Some(feed) => feed.missing(self.longest()),
                None => 0,
            },
            Want::Marks(_) => usize::MAX,
            Want::Nothing | Want::Never => 0,
        }
    }

    /// Reads once what is wanted, by the reader of its feed.
    pub(crate) fn read<F: Read>(
        &mut self,
        want: Want,
        readers: &mut [Readers<F>],
    ) -> Result<(), AllocError>
        ensures { CutsAlike self.old self.new }
    {
        let most = self.longest();
        match want {
            Want::Tape(at) => match (self.feeds.get_mut(at), readers.get_mut(at)) {
                (Some(feed), Some(readers)) => feed.read(most, &mut readers.tape),
                _ => Ok(()),
            },
            Want::Marks(at) => match readers.get_mut(at) {
                Some(
                    Readers {
                        marks: Some(marks),
                        ..
                    },
                ) => self.read_marks(want, marks),
                _ => Ok(()),
            },
            Want::Nothing | Want::Never => Ok(()),
        }
    }

    fn read_marks<F: Read>(&mut self, want: Want, reader: &mut F) -> Result<(), AllocError>
        ensures { CutsAlike self.old self.new }
    {
        let mut room = [0; MARKS];
        match read_once(reader, &mut room) {
            Ok(count) => self.take(want, &room[..count.min(MARKS)], None),
            Err(error) => self.take(want, &[], Some(error)),
        }
    }

    /// What was wanted was read: these bytes, or none if no more can be read. A failure says that a read failed.
    pub fn take(
        &mut self,
        want: Want,
        bytes: &[u8],
        failure: Option<io::Error>,
    ) -> Result<(), AllocError>
        ensures { CutsAlike self.old self.new }
    {
        let (Want::Tape(at) | Want::Marks(at)) = want else {
            return Ok(());
        };
        let Some(feed) = self.feeds.get_mut(at) else {
            return Ok(());
        };
        match (want, &mut feed.marks) {
            (Want::Marks(_), Some(marks)) if bytes.is_empty() => marks.end(failure),
            (Want::Marks(_), Some(marks)) => marks.push(bytes),
            _ if bytes.is_empty() => {
                feed.end(failure);
                Ok(())
            }
            _ => feed.push(bytes),
        }
    }

    /// How many iterations of its own the next piece may have. All sources have their items.
    pub fn there(&self) -> u64
        ensures few { result ≤ self.now.most }
        ensures whole { All (HasWhole (front_of self.now.begins self.now.overlap) result) self.now.feeds.items }
    {
        let mut least = self.longest();
        for feed in &self.feeds {
            least = least.min(feed.iterations());
        }
        least.saturating_sub(self.front())
    }

    /// Cuts off a piece with so many iterations of its own, which must be there. The sinks were given so many items of
    /// the pieces before.
    pub fn cut(
        &mut self,
        alloc: Global,
        iterations: u64,
        shares: &[Share],
        given: &[u64],
    ) -> Result<Piece, AllocError>
        ensures first { IfOk result (λ piece. piece.first ≡ first_of self.old.begins self.old.overlap) }
        ensures parts { IfOk result (λ piece. AreParts self.old.begins self.old.overlap shares.now given.now
            piece.parts.items) }
        ensures begins { OnOk result (self.new.begins ≡ counted (self.old.begins + iterations)) }
        ensures overlap { self.new.overlap ≡ self.old.overlap }
        ensures most { self.new.most ≡ self.old.most }
    {
        let (first, front) = (self.first(), self.front());
        let parts = self.parts(alloc, shares, given)?;
        self.begins = self.begins.saturating_add(iterations);
        let kept = self.front();
        let all = front.saturating_add(iterations);
        let mut tapes = Vec::with_capacity(alloc, self.feeds.len())?;
        for feed in &mut self.feeds {
            tapes.push(feed.cut(alloc, first, all, kept)?)?;
        }
        Ok(Piece {
            first,
            tapes,
            parts,
        })
    }

    /// The parts of their streams that a run on what is there gives the sinks, after so many items that they were given
    /// before.
    pub fn parts(
        &self,
        alloc: Global,
        shares: &[Share],
        given: &[u64],
    ) -> Result<Vec<StreamPart>, AllocError>
        ensures { IfOk result (λ parts. AreParts self.now.begins self.now.overlap shares.now given.now parts.items) }
    {
        let mut parts = Vec::with_capacity(alloc, shares.len())?;
        for (at, share) in shares.iter().enumerate() {
            let before = given.get(at).copied().unwrap_or(0);
            parts.push(self.part(share, before))?;
        }
        Ok(parts)
    }

    // The part of its stream that a run on what is there gives a sink. The sink was given so many items before.
    fn part(&self, share: &Share, before: u64) -> StreamPart
        ensures { result ≡ part_of self.now.begins self.now.overlap share.now before }
    {
        let origin = self.first().saturating_mul(share.period);
        let drop = if self.begins < self.overlap {
            share.from.saturating_add(before)
        } else if self.begins == 0 {
            0
        } else {
            share.drop
        };
        StreamPart {
            origin,
            drop: drop.max(share.from.saturating_sub(origin)),
        }
    }

    /// Whether the next piece begins within the overlap, and so leaves out what those before gave. These must then be
    /// done before it is cut.
    pub fn awaits_all(&self) -> bool
        ensures { IsTrue result ↔ ((0 < self.now.begins) × (self.now.begins < self.now.overlap)) }
    {
        0 < self.begins && self.begins < self.overlap
    }
}
