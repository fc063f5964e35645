//! How a run between files goes on to its end.

use crate::ends::Ends;
use crate::onlookers::{Alone, Onlookers};
use crate::pipes::Pipes;
use crate::rest::Rest;
use crate::speaking::{Speech, lines_of};
use crate::stops::{Stop, Stream, stop_of};
use crate::words::Call;
use helper_threads::HelperThreads;
use kinds::Kind;
use pipeline::{AllReady, Ended, NoRequests, PipelineFault, Readiness, Requests};
use std::alloc::{AllocError, Global};
use std::sync::Wait;
use std::thread::Threads;
use std::time::{Clock, CpuClock};
use streaming::{Helpers, Job, Unwatched, Watch, Worked};
use threads::GatedWatch;

/// Lets the run go on to its end, and shows how far it is. It returns how the run ended. If an input ended within an
/// item, it also returns why the first such input is refused.
pub fn go<R: Threads + Wait + Clock + CpuClock + Copy + Send + Sync + 'static, W: Watch>(
    threads: R,
    rt: &HostRuntime,
    run: &mut Stream<R>,
    call: &Call<'_>,
    rest: &Rest,
    pipes: &mut Option<Pipes<R>>,
    speech: Option<Speech>,
    looks: &mut Onlookers<'_, R, W>,
) -> Result<(Ended, Option<Stop>), Stop> {
    let ended = run_on(
        threads,
        rt.alloc(),
        run,
        &call.ends,
        rest,
        pipes,
        speech,
        looks,
    );
    looks.watch.end();
    ended
}

// The run, with lines if it has some.
fn run_on<R: Threads + Wait + Clock + CpuClock + Copy + Send + Sync + 'static, W: Watch>(
    threads: R,
    alloc: Global,
    run: &mut Stream<R>,
    ends: &Ends<'_>,
    rest: &Rest,
    pipes: &mut Option<Pipes<R>>,
    speech: Option<Speech>,
    looks: &mut Onlookers<'_, R, W>,
) -> Result<(Ended, Option<Stop>), Stop> {
    let Some(speech) = speech else {
        return run_piped(threads, alloc, run, ends, rest, pipes, looks);
    };
    let Some(pipes) = pipes else {
        // (a live run has them)
        return Err(Stop::from(AllocError));
    };
    run_spoken(threads, alloc, run, ends, rest, pipes, speech, looks)
}

// The run without requests. Threads read its inputs and write its outputs, if there are such threads.
fn run_piped<R: Threads + Wait + Clock + CpuClock + Copy + Send + Sync + 'static, W: Watch>(
    threads: R,
    alloc: Global,
    run: &mut Stream<R>,
    ends: &Ends<'_>,
    rest: &Rest,
    pipes: &mut Option<Pipes<R>>,
    looks: &mut Onlookers<'_, R, W>,
) -> Result<(Ended, Option<Stop>), Stop> {
    let mut nobody = NoRequests::new();
    match pipes {
        Some(pipes) => run_helped(threads, alloc, run, ends, rest, pipes, &mut nobody, looks),
        None => run_helped(
            threads,
            alloc,
            run,
            ends,
            rest,
            &mut AllReady,
            &mut nobody,
            looks,
        ),
    }
}

// The run with lines that make requests. When it is over, each answered line has its reply.
fn run_spoken<R: Threads + Wait + Clock + CpuClock + Copy + Send + Sync + 'static, W: Watch>(
    threads: R,
    alloc: Global,
    run: &mut Stream<R>,
    ends: &Ends<'_>,
    rest: &Rest,
    pipes: &mut Pipes<R>,
    speech: Speech,
    looks: &mut Onlookers<'_, R, W>,
) -> Result<(Ended, Option<Stop>), Stop> {
    let observer = looks.share_observer()?;
    let (mut requests, lines) = lines_of(threads, alloc, run, &pipes.readers, observer, speech)?;
    let ended = run_helped(threads, alloc, run, ends, rest, pipes, &mut requests, looks);
    drop(requests);
    lines.finish();
    ended
}

// The run, with a helper thread for each other processor, which works if that pays. A measured run has none, so its
// times are those of one thread.
fn run_helped<
    R: Threads + Wait + Clock + CpuClock + Copy + Send + Sync + 'static,
    Q: Readiness,
    C: Requests,
    W: Watch,
>(
    threads: R,
    alloc: Global,
    run: &mut Stream<R>,
    ends: &Ends<'_>,
    rest: &Rest,
    readiness: &mut Q,
    requests: &mut C,
    looks: &mut Onlookers<'_, R, W>,
) -> Result<(Ended, Option<Stop>), Stop> {
    if looks.observer.is_some() {
        return run_alone(alloc, run, ends, rest, readiness, requests, looks);
    }
    let mut helpers = HelperThreads::start(threads, alloc, run.plant.graph())?;
    let ended = run_cut(
        alloc,
        run,
        ends,
        rest,
        &mut helpers,
        readiness,
        requests,
        looks.watch,
    );
    helpers.finish();
    ended
}

// The run on one thread. It tells the observer of its steps.
fn run_alone<R: Wait + Clock + CpuClock + Drop, Q: Readiness, C: Requests, W: Watch>(
    alloc: Global,
    run: &mut Stream<R>,
    ends: &Ends<'_>,
    rest: &Rest,
    readiness: &mut Q,
    requests: &mut C,
    looks: &mut Onlookers<'_, R, W>,
) -> Result<(Ended, Option<Stop>), Stop> {
    let mut nobody = Unwatched;
    let mut alone = Alone::new(GatedWatch::new(looks.observer.take(), &mut nobody));
    run_cut(
        alloc,
        run,
        ends,
        rest,
        &mut alone,
        readiness,
        requests,
        looks.watch,
    )
}

// The run. An input that ends within an item counts as ending with the item before.
fn run_cut<
    R: Wait + Drop,
    H: Helpers<Job<Kind>, Worked<Kind>>,
    Q: Readiness,
    C: Requests,
    W: Watch,
>(
    alloc: Global,
    run: &mut Stream<R>,
    ends: &Ends<'_>,
    rest: &Rest,
    helpers: &mut H,
    readiness: &mut Q,
    requests: &mut C,
    watch: &mut W,
) -> Result<(Ended, Option<Stop>), Stop> {
    let mut cut = None;
    // (each time except the last closes a source)
    for _ in 0..=run.plant.graph().len() {
        match run.run_asked(alloc, helpers, readiness, requests, watch) {
            Ok(ended) => return Ok((ended, cut)),
            Err(PipelineFault::CutItem(source)) => {
                if cut.is_none() {
                    cut = Some(stop_of(run, ends, PipelineFault::CutItem(source)));
                }
                // (it was open)
                let _ = run.plant.close(source);
            }
            Err(fault) => return Err(stop_of(run, ends, rest.counted(fault))),
        }
    }
    Err(Stop::from(AllocError))
}
