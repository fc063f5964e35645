//! A plant with the claims that the lines of a script made.

ghost use Rattle.std.specs.Prelude.{◌≡◌, ◌<◌, length, map, false, position, bytes_eq, replicate, None, IfOk, IfSome};
ghost use Rattle.std.specs.Option.{option_map};
ghost use Rattle.flowgraph.specs.Flowgraph.{net_of};
ghost use Rattle.flowgraph.specs.Fault.{id};
ghost use Rattle.script_text.specs.Grammar.{IsAskable};
ghost use Rattle.script_text.specs.Commands.{command_seen};
ghost use Rattle.flow_core.specs.Session.{graph_of, standing, standing_of, in_state, in_standing, none_kept, kept_in, name_in, Answers, AnswersOn, IsAnswered, KeepsJobs};

pub mod calls;
mod claims;
mod settle;
pub(crate) mod waits;

use crate::answerer::Answerer;
use crate::session::calls::{close, feed, read, refused, set, step};
use crate::session::claims::{abandon, claim, commit};
use crate::session::settle::settle_all;
use crate::session::waits::why;
use block_trait::Block;
use items::BlockName;
use plant::{BlockId, Job, Plant, PlantFault, Valid};
use script_text::{Command, Reply};
use std::alloc::{AllocError, Global};
use std::fmt;
use std::marker::Model;

/// A plant, and for each block the job that a line has claimed, until a line gives it back. Contracts see the plant,
/// and for which blocks a job is kept.
#[derive(Drop)]
pub struct Session<B: Block> {
    plant: Plant<B>,
    jobs: Vec<Option<Job<B>>>,
}

impl<B: Block> fmt::Debug for Session<B> {
    fn fmt<W: fmt::Write>(&self, f: &mut fmt::Formatter<W>) -> fmt::Result {
        f.debug_struct("Session").finish_non_exhaustive()
    }
}

impl<B: Block> Model for Session<B> {
    ghost use Rattle.flowgraph.specs.Flowgraph.{net_of};
    ghost use Rattle.flow_core.specs.Session.{SessionState, KeepsJobs, kept_in};

    ghost Value = { SessionState B };

    ghost view = { λ s. record { plant = s.plant; kept = kept_in s.jobs.items } };

    ghost invariant = { λ s. KeepsJobs (net_of B.meaning s.plant.graph) s.plant.graph s.plant.state s.jobs.items };
}

impl<B: Block> Session<B> {
    /// A session that begins. Claims that are in flight on the plant belong to others.
    pub fn new(alloc: Global, plant: Plant<B>) -> Result<Session<B>, AllocError>
        ensures { IfOk result (λ session. session ≡ record { plant = plant; kept = none_kept plant }) }
    {
        let count = plant.graph().len();
        let jobs = no_jobs(alloc, count)?;
        Ok(Session { plant, jobs })
    }

    /// The plant. Claims that lines did not give back stay in flight.
    pub fn into_plant(self) -> Plant<B>
        ensures { result ≡ self.plant }
    {
        self.plant
    }
}

impl<B: Block> Answerer<()> for Session<B> {
    ghost answers = { λ c old new line. IsAnswered (B.meaning) c old new line };

    /// Makes the call that a command asks for, and returns its reply as a line.
    fn answer(
        &mut self,
        _handle: &(),
        alloc: Global,
        command: &Command,
    ) -> Result<Option<Vec<u8>>, AllocError> {
        match self.line_for(alloc, command) {
            Ok(line) => Ok(Some(line)),
            Err(refusal) => Err(refusal),
        }
    }
}

impl<B: Block> Session<B> {
    // The line that answers a command.
    fn line_for(&mut self, alloc: Global, command: &Command) -> Result<Vec<u8>, AllocError>
        requires { IsAskable (command_seen command.now) }
        ensures same { self.new ≡ in_standing self.old (standing self.new) }
        ensures answers { IfOk result (λ line. Answers (graph_of B.meaning self.old.plant) (command_seen command.now)
            (standing self.old) (standing self.new) line.items) }
    {
        let Some(name) = name_of(command) else {
            return answer_all(alloc, &mut self.plant, &self.jobs, command);
        };
        match find(self.plant.graph(), name) {
            Some(block) => answer_on(alloc, &mut self.plant, &mut self.jobs, block, command),
            None => refused(alloc, PlantFault::NoSuchBlock),
        }
    }
}

// Places for so many jobs.
fn no_jobs<B: Block>(alloc: Global, count: usize) -> Result<Vec<Option<Job<B>>>, AllocError>
    ensures { IfOk result (λ jobs. jobs.items ≡ replicate count None) }
{
    let mut jobs = Vec::new(alloc);
    for _ in 0..count {
        jobs.push(None)?;
    }
    Ok(jobs)
}

// The name in a command.
fn name_of(command: &Command) -> Option<&BlockName>
    ensures { option_map (λ name. name.now) result ≡ name_in (command_seen command.now) }
{
    match command {
        Command::Feed { name, .. }
        | Command::Close { name }
        | Command::Set { name, .. }
        | Command::Claim { name, .. }
        | Command::Commit { name }
        | Command::Abandon { name }
        | Command::Step { name, .. }
        | Command::Read { name, .. }
        | Command::Why { name } => Some(name),
        Command::Quiet | Command::Settle => None,
    }
}

/// The number of the block of this name.
pub fn find<B: Block>(graph: &Valid<B>, name: &BlockName) -> Option<BlockId>
    ensures named { option_map (λ block. block.0) result ≡ position (bytes_eq name.now) graph.now.names }
    ensures inside { IfSome result (λ block. block.0 < length graph.now.blocks) }
{
    find_named(graph, name.bytes())
}

/// The number of the block with this name. The text may be one that no command can have.
pub(crate) fn find_named<B: Block>(graph: &Valid<B>, name: &[u8]) -> Option<BlockId>
    ensures named { option_map (λ block. block.0) result ≡ position (bytes_eq name.now) graph.now.names }
    ensures inside { IfSome result (λ block. block.0 < length graph.now.blocks) }
{
    graph.recall();
    graph.find(name)
}

// Does a command on all blocks. Commands that name a block are not among these.
fn answer_all<B: Block>(
    alloc: Global,
    plant: &mut Plant<B>,
    jobs: &[Option<Job<B>>],
    command: &Command,
) -> Result<Vec<u8>, AllocError>
    requires all { name_in (command_seen command.now) ≡ None }
    requires jobs { KeepsJobs (net_of B.meaning plant.old.graph) plant.old.graph plant.old.state jobs.now }
    ensures same { plant.new ≡ in_state plant.old plant.new.state }
    ensures jobs { KeepsJobs (net_of B.meaning plant.new.graph) plant.new.graph plant.new.state jobs.now }
    ensures answers { let old = standing_of plant.old (kept_in jobs.now) in
        IfOk result (λ line. AnswersOn (graph_of B.meaning plant.old) 0 (command_seen command.now) old
        (standing_of plant.new (kept_in jobs.now)) line.items) }
{
    match command {
        Command::Quiet => Reply::Quiet(plant.quiet()).to_line(alloc),
        Command::Settle => settle_all(alloc, plant, jobs),
        Command::Feed { .. }
        | Command::Close { .. }
        | Command::Set { .. }
        | Command::Claim { .. }
        | Command::Commit { .. }
        | Command::Abandon { .. }
        | Command::Step { .. }
        | Command::Read { .. }
        | Command::Why { .. } => unreachable!(),
    }
}

// Makes the call on a block that a command asks for.
fn answer_on<B: Block>(
    alloc: Global,
    plant: &mut Plant<B>,
    jobs: &mut [Option<Job<B>>],
    block: BlockId,
    command: &Command,
) -> Result<Vec<u8>, AllocError>
    requires askable { IsAskable (command_seen command.now) }
    requires inside { block.0 < length plant.old.graph.blocks }
    requires jobs { KeepsJobs (net_of B.meaning plant.old.graph) plant.old.graph plant.old.state jobs.old }
    ensures same { plant.new ≡ in_state plant.old plant.new.state }
    ensures jobs { KeepsJobs (net_of B.meaning plant.new.graph) plant.new.graph plant.new.state jobs.new }
    ensures answers { let old = standing_of plant.old (kept_in jobs.old) in
        IfOk result (λ line. AnswersOn (graph_of B.meaning plant.old) block.0 (command_seen command.now) old
        (standing_of plant.new (kept_in jobs.new)) line.items) }
{
    plant.recall();
    match command {
        Command::Feed { items, marks, .. } => feed(alloc, plant, block, items, marks),
        Command::Close { .. } => close(alloc, plant, block),
        Command::Set { at, numbers, .. } => set(alloc, plant, block, *at, numbers),
        Command::Claim { max, .. } => claim(alloc, plant, jobs, block, *max),
        Command::Commit { .. } => commit(alloc, plant, jobs, block),
        Command::Abandon { .. } => abandon(alloc, plant, jobs, block),
        Command::Step { max, .. } => step(alloc, plant, block, *max),
        Command::Read { from, max, .. } => read(alloc, plant, block, *from, u64::from(*max)),
        Command::Why { .. } => why(alloc, plant, block),
        Command::Quiet => Reply::Quiet(plant.quiet()).to_line(alloc),
        Command::Settle => settle_all(alloc, plant, jobs),
    }
}
