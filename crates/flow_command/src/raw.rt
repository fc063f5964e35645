//! Runs between files and pipes of raw items, read and written as the items come.

use crate::cut::Cut;
use crate::ends::Ends;
use crate::going::go;
use crate::gone_reader::tell_gone;
use crate::joins::{Kept, Opened, join_inputs, join_marks, join_outputs};
use crate::later::later_plant;
use crate::onlookers::Onlookers;
use crate::overwriting::ReportStream;
use crate::pieces::run_pieces;
use crate::pipes::{Apart, Pipes};
use crate::refusing::{buffered, shown_name};
use crate::rest::Rest;
use crate::slice_report::part_text;
use crate::slicing::cut_of;
use crate::speaking::{Speech, speech_for};
use crate::stops::{Stop, Stream, explain, found_in, stop_of, unread_name};
use crate::stretch::Stretch;
use crate::team::{Team, team_for};
use crate::uncut::{Uncut, refuse_cut};
use crate::words::Call;
use byte_io::write_whole;
use flow_core::command_output::status_of;
use flow_core::fault::Fault;
use flow_core::opening::open_stream;
use flow_core::raw_fault::{EndFault, EndPlace, RawFault};
use flow_core::refusal_line::report_raw;
use flow_core::reports::stream_report;
use flow_core::script::ScriptFault;
use flow_core::stalls::explain_stall;
use flow_runs::fault::ServeFault;
use flow_runs::serve::{Action, Verbosity};
use flowgraph::BlockId;
use kinds::Kind;
use pipeline::{End, Ended, Pipeline, Settled};
use script_text::push_tag_lines;
use std::alloc::{AllocError, Global};
use std::io;
use std::io::Write;
use std::sync::Wait;
use std::thread::Threads;
use std::time::{Clock, CpuClock};
use streaming::{StreamingPlant, Watch};

/// Runs a graph file between files. It opens all of them before it reads the first.
pub fn run_raw<R: Threads + Wait + Clock + CpuClock + Copy + Send + Sync + 'static, W: Watch>(
    threads: R,
    rt: &HostRuntime,
    call: &Call<'_>,
    report: ReportStream,
    file: &[u8],
    looks: &mut Onlookers<'_, R, W>,
) -> u8 {
    let speech = match call.action {
        Action::Live => match speech_for(rt, call) {
            Ok(speech) => Some(speech),
            Err(status) => return status,
        },
        _ => None,
    };
    let run = match opened::<R>(rt, file) {
        Ok(run) => run,
        Err(stop) => return tell_stop(rt, call, file, stop),
    };
    let part = match part_of(threads, rt, call, file, &run) {
        Ok(part) => part,
        Err(uncut) => return refuse_cut(rt, call, run.plant.graph(), uncut),
    };
    let mut errors = buffered(rt.alloc(), rt.stderr());
    match stream(threads, rt, call, report, run, &part, speech, looks) {
        Ok(None) => status_of(true),
        Ok(Some(stalled)) => {
            if call.verbosity() == Verbosity::WithNotes {
                explain_stall(rt.alloc(), &stalled.plant, &mut errors);
            }
            status_of(false)
        }
        Err(stop) => tell_stop(rt, call, file, stop),
    }
}

// The part of a run, and how it is run in pieces, if it is.
#[derive(Drop)]
struct Part<'a> {
    file: &'a [u8],
    cut: Cut,
    team: Option<Team>,
}

fn part_of<'a, R: Threads + Copy>(
    threads: R,
    rt: &HostRuntime,
    call: &Call<'_>,
    file: &'a [u8],
    run: &Stream<R>,
) -> Result<Part<'a>, Uncut> {
    let cut = cut_of(rt, &run.plant, &call.ends, call.stretch)?;
    let team = team_for(threads, rt, call, &run.plant)?;
    Ok(Part { file, cut, team })
}

// Tells why the run stopped, and returns the exit status.
fn tell_stop(rt: &HostRuntime, call: &Call<'_>, file: &[u8], stop: Stop) -> u8 {
    let (fault, reason) = match stop {
        Stop::Raw { fault, reason } => (fault, reason),
        Stop::Run(error) => return tell_failed(rt, ServeFault::Run(error)),
    };
    let status = match unread_name(&fault, &reason, &call.ends) {
        Some(name) => tell_gone(rt, call, name),
        None => {
            let place = found_in(rt, &call.ends, call.path, &fault);
            let name = shown_name(rt.alloc(), place.as_str());
            let mut errors = buffered(rt.alloc(), rt.stderr());
            report_raw(&fault, name.as_str(), &mut errors);
            let _ = errors.writer.flush();
            fault.status()
        }
    };
    if call.explains {
        explain(rt, call, file, &fault, reason);
    }
    status
}

// Tells that a thread failed, and returns the exit status.
fn tell_failed(rt: &HostRuntime, fault: ServeFault) -> u8 {
    let mut errors = buffered(rt.alloc(), rt.stderr());
    fault.report("", &mut errors);
    let _ = errors.writer.flush();
    fault.status()
}

// Runs, and returns the run if it stalled. An input that ended within an item is told last, since all that came of the
// items before stands.
fn stream<R: Threads + Wait + Clock + CpuClock + Copy + Send + Sync + 'static, W: Watch>(
    threads: R,
    rt: &HostRuntime,
    call: &Call<'_>,
    report: ReportStream,
    run: Stream<R>,
    part: &Part<'_>,
    speech: Option<Speech>,
    looks: &mut Onlookers<'_, R, W>,
) -> Result<Option<Stream<R>>, Stop> {
    let mut run = run;
    let apart = Apart::of(rt, call, part.team.is_some());
    let mut pipes = pipes_for(threads, rt, call, &run, apart)?;
    let (rest, kept) = join(
        threads,
        rt,
        call,
        &mut run,
        part,
        apart,
        &mut pipes,
        looks.watch,
    )?;
    close_others(&mut run);
    let ended = match go(
        threads, rt, &mut run, call, &rest, &mut pipes, speech, looks,
    ) {
        Ok(ended) => match write_kept(rt, &run, kept) {
            Ok(()) => Ok(ended),
            Err(stop) => Err(stop),
        },
        Err(stop) => Err(stop),
    };
    let (ended, stop) = written_out(pipes, &run, &call.ends, ended)?;
    tell(rt, &run, call, &part.cut, &rest, report, ended)?;
    match (stop, ended) {
        (Some(stop), _) => Err(stop),
        (None, Ended::Settled(Settled::Done) | Ended::Stopped) => Ok(None),
        (None, Ended::Settled(Settled::Quiet)) => Ok(Some(run)),
    }
}

// The threads of a run, if it has any.
fn pipes_for<R: Threads + Wait + Copy + Send + 'static>(
    threads: R,
    rt: &HostRuntime,
    call: &Call<'_>,
    run: &Stream<R>,
    apart: Apart,
) -> Result<Option<Pipes<R>>, AllocError> {
    if apart.inputs {
        Ok(Some(Pipes::new(threads, rt, call, run, apart)?))
    } else {
        Ok(None)
    }
}

// Waits until all is written, and ends the threads. If the run went well so far, it fails by what was not written.
fn written_out<R: Threads + Wait + Copy + Send + 'static, T: Drop>(
    pipes: Option<Pipes<R>>,
    run: &Stream<R>,
    ends: &Ends<'_>,
    ended: Result<T, Stop>,
) -> Result<T, Stop> {
    let written = match pipes {
        Some(pipes) => pipes.finish(),
        None => Ok(()),
    };
    match (ended, written) {
        (Ok(_), Err(fault)) => Err(stop_of(run, ends, fault)),
        (ended, _) => ended,
    }
}

// Opens all ends, runs the pieces, if there are any, and joins the blocks to the rest. There the blocks go on where
// they stand.
fn join<R: Threads + Wait + Clock + Copy + Send + Sync + 'static, W: Watch>(
    threads: R,
    rt: &HostRuntime,
    call: &Call<'_>,
    run: &mut Stream<R>,
    part: &Part<'_>,
    apart: Apart,
    pipes: &mut Option<Pipes<R>>,
    watch: &mut W,
) -> Result<(Rest, Vec<Kept<R>>), Stop> {
    let ends = &call.ends;
    let mut opened = Opened::of_words(rt, run, ends, &part.cut, apart)?;
    let rest = match &part.team {
        Some(team) => run_pieces(
            threads,
            rt.alloc(),
            part.file,
            run.plant.graph(),
            ends,
            &part.cut,
            team,
            &mut opened,
            watch,
        )?,
        None => Rest::whole(rt.alloc(), run.plant.graph(), &part.cut)?,
    };
    let Opened {
        tapes,
        marks,
        targets,
    } = opened;
    if let Some(later) = later_plant(rt.alloc(), part.file, run.plant.graph(), rest.first())? {
        *run = run_of(rt.alloc(), later)?;
    }
    join_inputs(rt.alloc(), run, ends, tapes, pipes)?;
    join_marks(rt.alloc(), run, ends, &part.cut, &rest, marks)?;
    let kept = join_outputs(rt, run, ends, &rest, targets, pipes)?;
    Ok((rest, kept))
}

fn opened<R: Wait + Drop>(rt: &HostRuntime, file: &[u8]) -> Result<Stream<R>, Stop> {
    let plant = match open_stream(rt.alloc(), file) {
        Ok(plant) => plant,
        Err(fault) => return Err(Stop::from(RawFault::Whole(Fault::File(fault)))),
    };
    run_of(rt.alloc(), plant)
}

// The run of a plant with nothing joined.
fn run_of<R: Wait + Drop>(alloc: Global, plant: StreamingPlant<Kind>) -> Result<Stream<R>, Stop> {
    match Pipeline::new(alloc, plant) {
        Ok(run) => Ok(run),
        Err((_, refusal)) => Err(Stop::from(refusal)),
    }
}

// Closes the sources that no input feeds.
fn close_others<R: Drop>(run: &mut Stream<R>) {
    let mut block = 0u32;
    for _ in 0..run.plant.graph().len() {
        if let Some(End::Open) = run.ends.get(block as usize) {
            // (only a source can be closed)
            let _ = run.plant.close(BlockId(block));
        }
        block = block.saturating_add(1);
    }
}

// Writes the tags of sinks whose items were kept.
fn write_kept<R: Wait + Drop>(
    rt: &HostRuntime,
    run: &Stream<R>,
    kept: Vec<Kept<R>>,
) -> Result<(), Stop> {
    let mut lines = Vec::new(rt.alloc());
    for Kept {
        sink,
        number,
        target,
    } in kept {
        let mut target = target;
        let Ok(piece) = run.plant.peek(rt.alloc(), sink, u64::MAX) else {
            return Err(Stop::from(AllocError));
        };
        lines.clear();
        push_tag_lines(&mut lines, &piece.tags)?;
        if let Err(error) = write_flushed(&mut target, &lines) {
            return Err(Stop::Raw {
                fault: RawFault::End(EndPlace::Tags(number), EndFault::Write),
                reason: Some(error),
            });
        }
    }
    Ok(())
}

// (the flush opens a pipe that nothing was written to)
fn write_flushed<W: Write>(target: &mut W, bytes: &[u8]) -> io::Result<()> {
    write_whole(target, bytes)?;
    target.flush()
}

// Tells how the run ended.
fn tell<R: Drop>(
    rt: &HostRuntime,
    run: &Stream<R>,
    call: &Call<'_>,
    cut: &Cut,
    rest: &Rest,
    report: ReportStream,
    ended: Ended,
) -> Result<(), Stop> {
    let text = match ended {
        Ended::Settled(settled) if call.stretch == Stretch::Whole && !rest.has_pieces() => {
            stream_report(rt.alloc(), &run.plant, settled)?
        }
        _ => part_text(rt.alloc(), &run.plant, cut, rest, ended)?,
    };
    let written = match report {
        ReportStream::Output => write_whole(&mut std::io::writer(rt), &text),
        ReportStream::Errors => write_whole(&mut rt.stderr(), &text),
    };
    match written {
        Ok(()) => Ok(()),
        Err(error) => Err(Stop::Raw {
            fault: RawFault::Whole(Fault::Script(ScriptFault::Write)),
            reason: Some(error),
        }),
    }
}
