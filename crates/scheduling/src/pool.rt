//! A pool of threads that act for all blocks: which blocks may act, which of them are heavy, and which threads sleep.
//! What it decides by is `policy`.

ghost use Rattle.std.specs.Prelude.{◌≤◌};

use crate::habit::{Habit, NextStep, Sort};
use crate::number_set::{NUMBERS, NumberSet};
use crate::turns::Turns;
use crate::waiting::share_of;
use crate::woken::Woken;
use flowgraph::{Block, BlockId, Valid};
use std::alloc::{AllocError, Global};

// What is known of a block.
#[derive(Clone, Copy)]
struct Post {
    // Whom its progress concerns: who reads what it gives, and who gives what it reads.
    near: NumberSet,
    habit: Habit,
}

/// Which blocks may act, and which threads sleep.
#[derive(Drop)]
pub struct Pool {
    posts: Vec<Post>,
    // Blocks that may be able to act.
    ready: NumberSet,
    heavy: NumberSet,
    // Blocks that are done, or at work outside of the lock.
    taken: NumberSet,
    // Those of them that are at work.
    out: NumberSet,
    asleep: NumberSet,
    // Threads that were called and have not come yet.
    called: NumberSet,
    // The light block from which on the next one is looked for.
    at: usize,
}

impl Pool {
    /// No pool.
    pub fn none(alloc: Global) -> Pool {
        Pool::of(Vec::new(alloc), NumberSet::new())
    }

    /// All blocks may act, and of these it is known that they are heavy.
    pub fn new<B: Block>(
        alloc: Global,
        graph: &Valid<B>,
        turns: Turns,
        heavy: NumberSet,
    ) -> Result<Pool, AllocError> {
        let mut posts = Vec::new(alloc);
        for (block, _) in (0..u32::MAX).zip(0..graph.len()) {
            posts.push(post_of(graph, BlockId(block), turns))?;
        }
        let mut pool = Pool::of(posts, heavy);
        pool.all_ready();
        Ok(pool)
    }

    fn of(posts: Vec<Post>, heavy: NumberSet) -> Pool {
        Pool {
            posts,
            ready: NumberSet::new(),
            heavy,
            taken: NumberSet::new(),
            out: NumberSet::new(),
            asleep: NumberSet::new(),
            called: NumberSet::new(),
            at: 0,
        }
    }

    /// All blocks look again.
    pub fn all_ready(&mut self) {
        for block in 0..self.posts.len() {
            self.ready.add(block);
        }
    }

    /// A thread is here, and sleeps no longer.
    pub fn is_here(&mut self, thread: usize) {
        self.asleep.remove(thread);
        self.called.remove(thread);
    }

    /// A thread sleeps from here on.
    pub fn sleeps(&mut self, thread: usize) {
        self.asleep.add(thread);
    }

    /// All that sleep are woken.
    pub fn wake_all(&mut self, woken: &mut Woken) {
        for thread in 0..NUMBERS {
            if self.asleep.has(thread) {
                woken.add(thread);
            }
        }
        self.asleep = NumberSet::new();
    }

    /// More can be done at a block than it was found to wait for: somebody is to look.
    pub fn wake(&mut self, block: BlockId, woken: &mut Woken) {
        self.ready.add(block.0 as usize);
        self.call(woken);
    }

    /// One more thread is called, unless one that was called has not come yet. Where none sleeps, one more is wanted.
    pub fn call(&mut self, woken: &mut Woken) {
        if !self.called.is_empty() {
            return;
        }
        match self.asleep.next(0) {
            Some(thread) => {
                self.asleep.remove(thread);
                self.called.add(thread);
                woken.add(thread);
            }
            None => woken.wants = true,
        }
    }

    /// Whether somebody works outside of the lock.
    pub fn some_work(&self) -> bool {
        !self.out.is_empty()
    }

    // Whether heavy blocks are worked outside of the lock: one alone could not be worked beside another.
    fn splits(&self) -> bool {
        2 <= self.heavy.count()
    }

    /// The next block, in their order, that is stepped under the lock.
    pub fn next_light(&mut self) -> Option<BlockId> {
        let mut blocks = self.ready.without(&self.taken);
        if self.splits() {
            blocks = blocks.without(&self.heavy);
        }
        let block = blocks.next(self.at)?;
        self.at = block.saturating_add(1);
        Some(number_of(block))
    }

    /// The next block, in their order, whose work is done outside of the lock.
    pub fn next_heavy(&self, from: usize) -> Option<BlockId> {
        if !self.splits() {
            return None;
        }
        let blocks = self.ready.among(&self.heavy).without(&self.taken);
        match blocks.next(from) {
            Some(block) => Some(number_of(block)),
            None => None,
        }
    }

    /// How many firings a turn of a block outside of the lock has at most.
    pub fn share(&self, block: BlockId) -> u32
        ensures { 1 ≤ result }
    {
        match self.posts.get(block.0 as usize) {
            Some(post) => post.habit.share(),
            None => 1,
        }
    }

    /// The next step of a block under the lock, which begins.
    pub fn begins(&mut self, block: BlockId) -> NextStep {
        match self.posts.get_mut(block.0 as usize) {
            Some(post) => post.habit.steps(),
            None => NextStep::shortest(),
        }
    }

    /// A block went on. It may go on further.
    pub fn went_on(&mut self, block: BlockId) {
        if let Some(post) = self.posts.get(block.0 as usize) {
            self.ready.add_all(&post.near);
        }
        self.ready.add(block.0 as usize);
    }

    /// A block cannot act.
    pub fn waits(&mut self, block: BlockId) {
        self.ready.remove(block.0 as usize);
    }

    /// A block is done.
    pub fn leaves(&mut self, block: BlockId) {
        self.went_on(block);
        self.ready.remove(block.0 as usize);
        self.taken.add(block.0 as usize);
    }

    /// Firings of a block were claimed, and their work is done outside of the lock. One more thread is called if
    /// another heavy block may act.
    pub fn goes(&mut self, block: BlockId, woken: &mut Woken) {
        self.taken.add(block.0 as usize);
        self.out.add(block.0 as usize);
        if self.next_heavy(0).is_some() {
            self.call(woken);
        }
    }

    /// They were committed.
    pub fn comes(&mut self, block: BlockId) {
        self.taken.remove(block.0 as usize);
        self.out.remove(block.0 as usize);
        self.went_on(block);
    }

    /// A timed step of so many firings took so long.
    pub fn stepped(&mut self, block: BlockId, firings: u32, nanos: u64) {
        let sort = match self.posts.get_mut(block.0 as usize) {
            Some(post) => post.habit.stepped(firings, nanos),
            None => None,
        };
        self.sort(block, sort);
    }

    /// A turn of so many firings outside of the lock took so long, and its claim and its commit `held`.
    pub fn worked(&mut self, block: BlockId, firings: u32, nanos: u64, held: u64) {
        let sort = match self.posts.get_mut(block.0 as usize) {
            Some(post) => post.habit.worked(firings, nanos, held),
            None => None,
        };
        self.sort(block, sort);
    }

    // What a block turned out to be, if it showed.
    fn sort(&mut self, block: BlockId, sort: Option<Sort>) {
        match sort {
            Some(Sort::Heavy) => self.heavy.add(block.0 as usize),
            Some(Sort::Light) => self.heavy.remove(block.0 as usize),
            None => {}
        }
    }
}

fn number_of(block: usize) -> BlockId {
    BlockId(u32::try_from(block).unwrap_or(u32::MAX))
}

fn post_of<B: Block>(graph: &Valid<B>, block: BlockId, turns: Turns) -> Post {
    let mut near = NumberSet::new();
    let mut share = 1;
    if (block.0 as usize) < graph.len() {
        share = share_of(graph, block, turns);
        for port in 0..graph.outputs(block) {
            for connection in graph.readers(block, port) {
                near.add(connection.to.0 as usize);
            }
        }
        for input in graph.inputs(block) {
            near.add(input.connection.from.0 as usize);
        }
    }
    Post {
        near,
        habit: Habit::new(share),
    }
}
