//! Threads that do jobs.

use crate::worth::{Habit, Rounds, pays};
use crossbeam_channel::{Receiver, Sender, bounded};
use flowgraph::{Block, BlockId, Valid};
use scheduling::policy::{LOOKS, processors};
use scheduling::{Turns, share_of};
use std::alloc::{AllocError, Global};
use std::hint::spin_loop;
use std::sync::Wait;
use std::thread::{JoinHandle, Threads};
use std::time::{Clock, Duration, Instant};
use std::{fmt, thread};
use streaming::{Headway, Helpers, Job, Step, Watch, Worked};

// The most firings that are given away at once, if buffers hold so many.
const MOST_FIRINGS: u32 = 65_536;

/// Threads as helpers: one for each processor except the caller's, and no more than there are other blocks. They sleep
/// while there is nothing to do.
#[derive(Drop)]
pub struct HelperThreads<B: Block, R: Drop> {
    rt: R,
    // What the threads do next. They end once it is gone.
    jobs: Sender<Job<B>, Global>,
    works: Receiver<Worked<B>, Global>,
    threads: Vec<JoinHandle<()>>,
    // How many jobs they have now, and had in all.
    out: usize,
    given: u64,
    habits: Vec<Habit>,
    // Whether it pays to call them.
    are_called: bool,
    rounds: Rounds,
    is_timed: bool,
    // When the timed step began.
    began: Option<Instant>,
}

impl<B: Block, R: Drop> fmt::Debug for HelperThreads<B, R> {
    fn fmt<W: fmt::Write>(&self, f: &mut fmt::Formatter<W>) -> fmt::Result {
        f.debug_struct("HelperThreads").finish_non_exhaustive()
    }
}

impl<
    B: Block + Send + Sync + 'static,
    R: Threads + Wait + Clock + Copy + Send + 'static,
> HelperThreads<B, R>
where
    B::Places: Send + Sync + 'static,
{
    /// Starts threads for a graph. If one cannot be started, those before it help, or nobody. It fails only if the
    /// allocator refuses memory before the first thread.
    pub fn start(
        rt: R,
        alloc: Global,
        graph: &Valid<B>,
    ) -> Result<HelperThreads<B, R>, AllocError> {
        let most = processors(&rt).min(graph.len()).saturating_sub(1);
        let habits = habits_of(alloc, graph)?;
        let (jobs, todo) = bounded(alloc, most)?;
        let (sender, works) = bounded(alloc, most.saturating_mul(2))?;
        let mut threads = Vec::with_capacity(alloc, most)?;
        for _ in 0..most {
            match started(rt, &todo, &sender) {
                Ok(Some(handle)) => threads.push(handle)?,
                _ => break,
            }
        }
        Ok(HelperThreads {
            rt,
            jobs,
            works,
            threads,
            out: 0,
            given: 0,
            habits,
            are_called: false,
            rounds: Rounds::new(),
            is_timed: false,
            began: None,
        })
    }

    /// Ends the threads, and waits for them.
    pub fn finish(self) {
        let HelperThreads {
            rt,
            jobs,
            threads,
            ..
        } = self;
        drop(jobs);
        for handle in threads {
            handle.join(&rt);
        }
    }
}

// One more thread, if one can be started.
fn started<B: Block + Send + Sync + 'static, R: Threads + Wait + Clock + Copy + Send + 'static>(
    rt: R,
    todo: &Receiver<Job<B>, Global>,
    sender: &Sender<Worked<B>, Global>,
) -> Result<Option<JoinHandle<()>>, AllocError>
where
    B::Places: Send + Sync + 'static,
{
    let (todo, sender) = (todo.clone()?, sender.clone()?);
    Ok(thread::spawn(&rt, move || work(&rt, &todo, &sender)).ok())
}

// Does jobs until no more can come.
fn work<B: Block, R: Wait>(
    rt: &R,
    todo: &Receiver<Job<B>, Global>,
    works: &Sender<Worked<B>, Global>,
) {
    for _ in rt.forever() {
        match next(rt, todo) {
            Some(job) => {
                if works.send(rt, job.work()).is_err() {
                    return;
                }
            }
            None => return,
        }
    }
}

// The next message. It looks for one a while before it sleeps. There is none once nobody can send one.
fn next<T: Drop, R: Wait>(rt: &R, from: &Receiver<T, Global>) -> Option<T> {
    for _ in 0..LOOKS {
        if !from.is_empty() {
            if let Ok(message) = from.try_recv(rt) {
                return Some(message);
            }
        }
        spin_loop();
    }
    from.recv(rt).ok()
}

fn habits_of<B: Block>(alloc: Global, graph: &Valid<B>) -> Result<Vec<Habit>, AllocError> {
    let turns = Turns::new(MOST_FIRINGS).unwrap_or_default();
    let mut habits = Vec::with_capacity(alloc, graph.len())?;
    for block in 0..graph.len() {
        habits.push(Habit::new(share_of(graph, BlockId(block as u32), turns)))?;
    }
    Ok(habits)
}

impl<B: Block, R: Drop> HelperThreads<B, R> {
    /// How many jobs were given to the threads.
    pub fn given(&self) -> u64 {
        self.given
    }

    // Notes how long a step of so many firings of a block took.
    fn measure(&mut self, block: BlockId, firings: u32, nanos: u64) {
        if let Some(habit) = self.habits.get_mut(block.0 as usize) {
            habit.stepped(firings, nanos);
        }
    }
}

impl<B: Block, R: Clock + Drop> Watch for HelperThreads<B, R> {
    fn pause(&self) -> Option<Duration> {
        None
    }

    fn show(&mut self, _headway: Headway) {}

    fn begins(&mut self, _block: BlockId) {
        if self.is_timed {
            self.began = Instant::now(&self.rt).ok();
        }
    }

    fn stepped(&mut self, block: BlockId, step: Step) {
        if !self.is_timed {
            return;
        }
        if let (Step::Did(firings), Some(began)) = (step, self.began) {
            if let Ok(now) = Instant::now(&self.rt) {
                let span = now.saturating_duration_since(began);
                let nanos = u64::try_from(span.as_nanos()).unwrap_or(u64::MAX);
                self.measure(block, firings, nanos);
            }
        }
    }

    fn end(&mut self) {}
}

impl<B: Block, R: Wait + Clock + Drop> Helpers<Job<B>, Worked<B>> for HelperThreads<B, R> {
    fn begins_round(&mut self) -> u32 {
        if self.is_timed {
            self.are_called = !self.threads.is_empty() && pays(&self.habits);
        }
        self.is_timed = self.rounds.begins(self.are_called);
        Rounds::first_firings(self.are_called)
    }

    fn are_called(&self) -> bool {
        self.are_called
    }

    fn share(&mut self, block: BlockId) -> Option<u32> {
        self.habits.get(block.0 as usize)?.share()
    }

    fn give(&mut self, job: Job<B>) -> Result<(), Job<B>> {
        match self.habits.get(job.block().0 as usize) {
            Some(habit) if habit.is_worth(job.count()) => {}
            _ => return Err(job),
        }
        match self.jobs.try_send(&self.rt, job) {
            Ok(()) => {
                self.out = self.out.saturating_add(1);
                self.given = self.given.saturating_add(1);
                Ok(())
            }
            Err(refused) => Err(refused.into_inner()),
        }
    }

    fn done(&mut self) -> Option<Worked<B>> {
        if self.out == 0 {
            return None;
        }
        let work = self.works.try_recv(&self.rt).ok()?;
        self.out -= 1;
        Some(work)
    }

    fn wait(&mut self) -> Option<Worked<B>> {
        if self.out == 0 {
            return None;
        }
        self.out -= 1;
        next(&self.rt, &self.works)
    }
}
