//! What was read of the tape of a source. Pieces are cut off it.

ghost use Rattle.std.specs.Prelude.{◌≡◌, ◌++◌, ◌-◌, ◌*◌, take, length, [], None, IfOk, OnOk, OnErr};
ghost use Rattle.slice_threads.specs.Cutting.{counted, bytes_of, piece_of, left_of, iterations_in};

use crate::marks::{Known, Marks};
use crate::piece::Tape;
use crate::room::Room;
use crate::unread::Unread;
use flowgraph::BlockId;
use std::alloc::{AllocError, Global};
use std::io::Read;
use std::{io, mem};

/// How the tape of a source is cut.
#[derive(Clone, Copy, Debug, PartialEq, Eq)]
pub struct Stride {
    pub source: BlockId,
    /// How many bytes an item has.
    pub item_size: u64,
    /// How many items the source gives in an iteration.
    pub period: u64,
}

/// What was read of the tape of a source, and of its marks, from the first item on that a later piece needs.
#[derive(Drop)]
pub struct Feed {
    pub stride: Stride,
    /// The bytes of the tape.
    pub room: Room,
    // The room for what the next piece needs of this one.
    spare: Room,
    // Whether no more can be read, and why, if a read failed.
    is_over: bool,
    failure: Option<io::Error>,
    /// Its marks, if it has any.
    pub marks: Option<Marks>,
}

impl Feed {
    /// Nothing was read.
    pub fn new(alloc: Global, stride: Stride, marks: Option<Marks>) -> Feed
        ensures stride { result.stride ≡ stride }
        ensures room { result.room ≡ [] }
        ensures marks { result.marks ≡ marks }
    {
        Feed {
            stride,
            room: Room::new(alloc),
            spare: Room::new(alloc),
            is_over: false,
            failure: None,
            marks,
        }
    }

    /// Moves what it holds into this room.
    pub(crate) fn go_on_in(&mut self, room: Room) -> Result<(), AllocError>
        ensures room { self.new.room ≡ self.old.room }
        ensures stride { self.new.stride ≡ self.old.stride }
    {
        let mut room = room;
        room.clear();
        room.push(self.room.bytes())?;
        self.spare = mem::replace(&mut self.room, room);
        Ok(())
    }

    /// Reads once, for so many iterations.
    pub(crate) fn read<F: Read>(
        &mut self,
        iterations: u64,
        reader: &mut F,
    ) -> Result<(), AllocError>
        ensures stride { self.new.stride ≡ self.old.stride }
    {
        let most = self.missing(iterations);
        match self.room.read(reader, most)? {
            Ok(0) => self.end(None),
            Ok(_) => {}
            Err(error) => self.end(Some(error)),
        }
        Ok(())
    }

    /// How many bytes are missing from so many iterations.
    pub(crate) fn missing(&self, iterations: u64) -> usize
        ensures { result ≡ bytes_of self.now.stride iterations - length self.now.room }
    {
        self.bytes_of(iterations)
            .saturating_sub(self.room.bytes().len())
    }

    /// These bytes of the tape were read. It fails only if the allocator refuses.
    pub(crate) fn push(&mut self, bytes: &[u8]) -> Result<(), AllocError>
        ensures ok { OnOk result (self.new.room ≡ self.old.room ++ bytes.now) }
        ensures err { OnErr result (self.new.room ≡ self.old.room) }
        ensures stride { self.new.stride ≡ self.old.stride }
    {
        self.room.push(bytes)
    }

    /// No more of the tape can be read. A failure says that a read failed.
    pub(crate) fn end(&mut self, failure: Option<io::Error>)
        ensures room { self.new.room ≡ self.old.room }
        ensures stride { self.new.stride ≡ self.old.stride }
    {
        self.is_over = true;
        self.failure = failure;
    }

    pub(crate) fn is_over(&self) -> bool {
        self.is_over
    }

    // How many bytes so many iterations have.
    fn bytes_of(&self, iterations: u64) -> usize
        ensures { result ≡ bytes_of self.now.stride iterations }
    {
        let items = iterations.saturating_mul(self.stride.period);
        let bytes = items.saturating_mul(self.stride.item_size);
        bytes as usize
    }

    /// How many whole iterations are there.
    pub(crate) fn iterations(&self) -> u64
        ensures { result ≡ iterations_in self.now.stride self.now.room }
    {
        (self.room.bytes().len() / self.bytes_of(1).max(1)) as u64
    }

    /// Whether all marks on so many iterations are known. The first is `begins`, of the whole tape. If more has to be
    /// read, it drops the marks before them. Without iterations it asks for no marks.
    pub(crate) fn known(&mut self, begins: u64, iterations: u64) -> Result<Known, AllocError>
        ensures room { self.new.room ≡ self.old.room }
        ensures stride { self.new.stride ≡ self.old.stride }
    {
        let end = begins.saturating_add(iterations);
        let Some(marks) = &mut self.marks else {
            return Ok(Known::All);
        };
        if iterations == 0 {
            return Ok(Known::All);
        }
        let known = marks.known(end.saturating_mul(self.stride.period))?;
        if known == Known::Some {
            marks.forget(begins.saturating_mul(self.stride.period));
        }
        Ok(known)
    }

    /// Cuts off `iterations` iterations, the first of which is `begins` of the whole tape, and keeps `kept` of them for
    /// the next piece.
    pub(crate) fn cut(
        &mut self,
        alloc: Global,
        begins: u64,
        iterations: u64,
        kept: u64,
    ) -> Result<Tape, AllocError>
        ensures source { IfOk result (λ tape. tape.source ≡ self.old.stride.source) }
        ensures piece { IfOk result (λ tape. tape.room ≡ take (piece_of self.old.stride iterations self.old.room)
            self.old.room) }
        ensures origin { IfOk result (λ tape. tape.origin ≡ counted (begins * self.old.stride.period)) }
        ensures marked { IfOk result (λ tape. self.old.marks ≡ None → tape.marks ≡ None) }
        ensures left { OnOk result (self.new.room ≡ left_of self.old.stride iterations kept self.old.room) }
        ensures stride { self.new.stride ≡ self.old.stride }
    {
        let end = begins.saturating_add(iterations);
        let period = self.stride.period;
        let room = self.cut_bytes(alloc, iterations, kept)?;
        let mut lines = None;
        if let Some(marks) = &mut self.marks {
            let (first, behind) = (begins.saturating_mul(period), end.saturating_mul(period));
            lines = Some(marks.lines(alloc, first, behind)?);
            marks.forget(end.saturating_sub(kept).saturating_mul(period));
        }
        Ok(Tape {
            source: self.stride.source,
            room,
            origin: begins.saturating_mul(period),
            marks: lines,
        })
    }

    // Cuts off the bytes of so many iterations. It keeps the bytes of the last ones, and what follows.
    fn cut_bytes(&mut self, alloc: Global, iterations: u64, kept: u64) -> Result<Room, AllocError>
        ensures piece { IfOk result (λ room. room ≡ take (piece_of self.old.stride iterations self.old.room)
            self.old.room) }
        ensures left { OnOk result (self.new.room ≡ left_of self.old.stride iterations kept self.old.room) }
        ensures stride { self.new.stride ≡ self.old.stride }
        ensures marks { self.new.marks ≡ self.old.marks }
    {
        let count = self.bytes_of(iterations).min(self.room.bytes().len());
        let from = count.saturating_sub(self.bytes_of(kept));
        let mut next = mem::replace(&mut self.spare, Room::new(alloc));
        next.clear();
        next.push(&self.room.bytes()[from..])?;
        let mut room = mem::replace(&mut self.room, next);
        room.truncate(count);
        Ok(room)
    }

    /// What was read of the tape and of the marks, and is in no piece except as overlap.
    pub fn into_rest(self, alloc: Global) -> Result<(Unread, Option<Marks>), AllocError>
        ensures bytes { IfOk result (λ rest. rest.0.bytes.items ≡ self.room) }
        ensures marks { IfOk result (λ rest. rest.1 ≡ self.marks) }
    {
        let Feed {
            room,
            failure,
            marks,
            ..
        } = self;
        let mut bytes = Vec::with_capacity(alloc, room.bytes().len())?;
        bytes.extend_from_slice(room.bytes())?;
        Ok((Unread { bytes, failure }, marks))
    }
}
