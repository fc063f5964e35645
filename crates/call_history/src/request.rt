//! What callers ask of a plant, and what it responds.

ghost use Rattle.std.specs.Prelude.{◌≡◌, Some, false, true, IfErr, IfOk};
ghost use Rattle.std.specs.Arc.{arc_value};
ghost use Rattle.std.specs.Option.{option_map};
ghost use Rattle.stream_model.specs.Machine.{read_of};
ghost use Rattle.flowgraph.specs.Flowgraph.{net_of};
ghost use Rattle.plant.specs.Answers.{Answered, AnsweredBy, piece_reply, reply_of};
ghost use Rattle.call_history.specs.History.{asked_by, said_by, said_of};
ghost use Rattle.call_history.specs.Request.{IsReady, asked_of, block_of, fits, now_at, response_reply, tells};

use crate::entry::{Answer, Call, Feed, Setting, in_arc};
use flowgraph::{Block, BlockId};
use plant::{Closed, Fed, Piece, Plant, PlantFault, Taken};
use settings::Value;
use std::alloc::{AllocError, Global};
use std::sync::Arc;

/// A call of a caller, with what a plant takes of it.
#[derive(Drop)]
pub enum Request {
    /// Of a source.
    Feed(Arc<Feed, Global>),
    /// Of a source.
    Close(BlockId),
    /// Of a block with a setting, with a copy of the value, which the plant takes.
    Set(Arc<Setting, Global>, Value),
    /// Of a sink, from this item on, at most so many.
    Read(BlockId, u64, u64),
}

/// What a plant responds to a caller.
#[derive(Drop)]
pub enum Response {
    /// To a feed.
    Fed(Fed),
    /// To a close.
    Closed(Closed),
    /// To a set.
    Taken(Taken),
    /// To a read.
    Piece(Arc<Piece, Global>),
    /// To any: the call was refused, or out of memory, and changed nothing.
    Refused(PlantFault),
}

impl Request {
    /// The block that it is about.
    pub fn block(&self) -> BlockId
        ensures { result.0 ≡ block_of self.now }
    {
        match self {
            Request::Feed(feed) => feed.source,
            Request::Set(setting, _) => setting.block,
            Request::Close(block) | Request::Read(block, ..) => *block,
        }
    }

    /// The call, as it is noted.
    pub fn to_call(&self) -> Result<Call, AllocError>
        ensures { IfOk result (λ call. asked_by call ≡ asked_of self.now) }
    {
        Ok(match self {
            Request::Feed(feed) => Call::Feed(Arc::try_clone(feed)?),
            Request::Close(source) => Call::Close(*source),
            Request::Set(setting, _) => Call::Set(Arc::try_clone(setting)?),
            Request::Read(sink, from, max) => Call::Read(*sink, *from, *max),
        })
    }

    /// Has a plant respond, and returns the call, as it is noted, with the response.
    pub fn ask<B: Block>(self, alloc: Global, plant: &mut Plant<B>) -> (Call, Response)
        requires { IsReady self }
        ensures call { asked_by result.0 ≡ asked_of self }
        ensures answered { Answered (now_at B.meaning plant.old (asked_of self)) plant.old plant.new
            (response_reply result.1) }
        ensures fits { fits self result.1 ≡ true }
    {
        match self {
            Request::Feed(feed) => {
                let fed = plant.feed_from(feed.source, &feed.items, &feed.marks);
                match fed {
                    Ok(fed) => (Call::Feed(feed), Response::Fed(fed)),
                    Err(fault) => (Call::Feed(feed), Response::Refused(fault)),
                }
            }
            Request::Close(source) => match plant.close(source) {
                Ok(closed) => (Call::Close(source), Response::Closed(closed)),
                Err(fault) => (Call::Close(source), Response::Refused(fault)),
            },
            Request::Set(setting, value) => {
                let taken = plant.set(setting.block, setting.at, value);
                match taken {
                    Ok(taken) => (Call::Set(setting), Response::Taken(taken)),
                    Err(fault) => (Call::Set(setting), Response::Refused(fault)),
                }
            }
            Request::Read(sink, from, max) => match shown(alloc, plant, sink, from, max) {
                Ok(piece) => (Call::Read(sink, from, max), Response::Piece(piece)),
                Err(fault) => (Call::Read(sink, from, max), Response::Refused(fault)),
            },
        }
    }
}

// What a sink shows, as several may hold it.
fn shown<B: Block>(
    alloc: Global,
    plant: &Plant<B>,
    sink: BlockId,
    from: u64,
    max: u64,
) -> Result<Arc<Piece, Global>, PlantFault>
    ensures { AnsweredBy (read_of (net_of B.meaning plant.now.graph) plant.now.state sink.0 from max)
        (reply_of (λ p. piece_reply (arc_value p)) result) }
{
    let piece = plant.read(alloc, sink, from, max)?;
    Ok(in_arc(alloc, piece)?)
}

impl Response {
    /// The response, as it is noted in the history and once more in the log of a desk. `Err` for out of memory, and
    /// where memory for a piece lacks.
    pub fn to_answers(&self) -> Result<(Answer, Answer), AllocError>
        ensures first { IfOk result (λ answers. Some (said_by answers.0)
            ≡ option_map said_of (response_reply self.now)) }
        ensures second { IfOk result (λ answers. Some (said_by answers.1)
            ≡ option_map said_of (response_reply self.now)) }
        ensures err { IfErr result (λ _. tells (response_reply self.now) ≡ false) }
    {
        Ok((self.to_answer()?, self.to_answer()?))
    }

    // The response, as it is noted.
    fn to_answer(&self) -> Result<Answer, AllocError>
        ensures ok { IfOk result (λ answer. Some (said_by answer) ≡ option_map said_of (response_reply self.now)) }
        ensures err { IfErr result (λ _. tells (response_reply self.now) ≡ false) }
    {
        match self {
            Response::Fed(fed) => Ok(Answer::Fed(fed.0)),
            Response::Closed(closed) => Ok(Answer::Closed(closed.0)),
            Response::Taken(taken) => Ok(Answer::Taken(taken.0)),
            Response::Piece(piece) => Ok(Answer::Piece(Arc::try_clone(piece)?)),
            Response::Refused(PlantFault::Memory) => Err(AllocError),
            Response::Refused(fault) => Ok(Answer::Refused(*fault)),
        }
    }
}
