//! The command `flow`: does what the words of a call ask for, between files and the standard streams.
#![tactic(auto)]

mod call;
mod closed_streams;
mod creating;
mod cut;
mod devices;
mod end_words;
mod ends;
mod explaining;
mod going;
mod gone_reader;
mod held;
mod joins;
mod kind_words;
mod late_file;
mod later;
mod lengths;
mod limited;
mod line_calls;
mod line_thread;
mod listing;
mod measuring;
mod onlookers;
mod overwriting;
mod pace;
mod periodic;
mod pieces;
mod pipes;
mod raw;
mod refusing;
mod rest;
mod slice;
mod slice_report;
mod slicing;
mod speaking;
mod stops;
mod stretch;
mod talk;
mod targets;
mod team;
mod terminal;
mod tracing;
mod uncut;
mod version;
mod waits;
mod words;

use crate::closed_streams::hold_closed_streams;
use crate::creating::create_graph;
use crate::explaining::{REFUSED, explain_device, explain_file, explain_line};
use crate::gone_reader::end_of;
use crate::listing::{print_kinds, print_text};
use crate::measuring::{measured_for, tell_times};
use crate::onlookers::Onlookers;
use crate::overwriting::{ReportStream, report_stream};
use crate::periodic::Periodic;
use crate::raw::run_raw;
use crate::refusing::{begins_none, begins_none_of, buffered, shown_name};
use crate::slice_report::tell_slices;
use crate::terminal::Terminal;
use crate::tracing::{tell_trace, trace_file_for};
use crate::version::print_version;
use crate::words::{Asked, Call, asked_by, refusal_of};
use byte_io::{ReadEnd, WriteEnd};
use clap::error::ErrorKind;
use diagnostics::{KeptLines, Noted};
use flow_core::start_fault::StartFault;
use flow_runs::serve::serve;
use plant::Watch;
use run_stats::Observer;
use std::alloc::Global;
use std::io::IsTerminal;
use std::sync::{Arc, Wait};
use std::thread::Threads;
use std::time::{Clock, CpuClock};
use std::{env, fs};

/// Does what the words of the call ask for, and returns its exit status. `threads` is the same runtime as `rt`, with
/// permission to start threads. Only `main` may hand that on.
pub fn obey<R: Threads + Wait + Clock + CpuClock + Copy + Send + Sync + 'static>(
    threads: R,
    rt: &HostRuntime,
) -> u8 {
    hold_closed_streams(rt);
    let arguments = match env::args(rt) {
        Ok(arguments) => arguments,
        Err(error) => return begins_none(rt, StartFault::of_words(error.kind())),
    };
    let Ok(words) = arguments.collect::<Vec<String>>(rt.alloc()) else {
        return begins_none(rt, StartFault::Memory);
    };
    match asked_by(rt.alloc(), &words, rt.stderr().is_terminal()) {
        Ok(Asked::Kinds(kind)) => print_kinds(rt, kind),
        Ok(Asked::New(path, kinds)) => create_graph(rt, path, &kinds),
        Ok(Asked::Call(call)) => match report_stream(rt, &call) {
            Ok(report) => run(threads, rt, call, report),
            Err(fault) => refuse(rt, &refusal_of(rt.alloc(), fault)),
        },
        Err(error) => answer(rt, &error),
    }
}

// Prints help or the version, if the words ask for that, or else what is wrong with them.
fn answer(rt: &HostRuntime, error: &clap::Error) -> u8 {
    if error.use_stderr() {
        return refuse(rt, error);
    }
    if error.kind() == ErrorKind::DisplayVersion {
        return print_version(rt);
    }
    match format!(in rt.alloc(); "{error}") {
        Ok(text) => print_text(rt, text.as_str()),
        Err(_) => begins_none(rt, StartFault::Memory),
    }
}

// Says what is wrong with the words.
fn refuse(rt: &HostRuntime, error: &clap::Error) -> u8 {
    let fault = StartFault::of_call(error.kind() == ErrorKind::OutOfMemory);
    if fault == StartFault::BadWords {
        // Its text ends its last line.
        let _ = eprint!(rt; "{error}");
    }
    begins_none(rt, fault)
}

fn run<R: Threads + Wait + Clock + CpuClock + Copy + Send + Sync + 'static>(
    threads: R,
    rt: &HostRuntime,
    call: Call<'_>,
    report: ReportStream,
) -> u8 {
    // (a run that writes items or tags to a terminal would write into its progress line)
    let is_shared = call.ends.use_output() && rt.stdout().is_terminal();
    let may_show = call.may_show(rt.stderr().is_terminal() && !is_shared);
    let mut terminal = Terminal::new(rt, rt.stderr(), may_show);
    let file = match fs::read(rt, call.path) {
        Ok(file) => file,
        Err(error) => {
            let status = begins_none_of(rt, StartFault::of_file(error.kind()), call.path);
            if call.explains {
                explain_device(rt, call.path, &error);
            }
            return status;
        }
    };
    let Ok((measured, observer)) = measured_for(threads, rt.alloc(), &call, &file) else {
        return begins_none(rt, StartFault::Memory);
    };
    let trace_file = match trace_file_for(rt, &call, &measured) {
        Ok(trace_file) => trace_file,
        Err(status) => return status,
    };
    let mut watch = Periodic::new(rt, &measured, call.stats, call.every, &mut terminal);
    let status = if call.ends.are_none() {
        serve_file(threads, rt, &call, &file, observer, &mut watch)
    } else {
        let mut looks = Onlookers {
            watch: &mut watch,
            observer,
        };
        run_raw(threads, rt, &call, report, &file, &mut looks)
    };
    let status = tell_trace(rt, &call, &measured, trace_file, status);
    tell_times(rt, &call, &measured, status)
}

// Does what the words ask for with a graph file, between the standard streams.
fn serve_file<R: Threads + Wait + Clock + CpuClock + Copy + Send + Sync + 'static, W: Watch>(
    threads: R,
    rt: &HostRuntime,
    call: &Call<'_>,
    file: &[u8],
    observer: Option<Arc<Observer<R>, Global>>,
    watch: &mut W,
) -> u8 {
    let reader = ReadEnd::new(Noted::new(rt.reader()));
    let mut input = KeptLines::new(rt.alloc(), reader, call.explains);
    let mut output = WriteEnd::new(Noted::new(std::io::writer(rt)));
    let mut errors = buffered(rt.alloc(), rt.stderr());
    let name = shown_name(rt.alloc(), call.path);
    let status = serve(
        threads,
        rt.alloc(),
        call.action,
        call.verbosity(),
        name.as_str(),
        file,
        &mut input,
        &mut output,
        &mut errors,
        observer,
        watch,
    );
    let status = end_of(rt, call, status, errors.writer, &output.writer.reason);
    let status = tell_slices(rt, call, file, status);
    if call.explains {
        if status == REFUSED && !explain_file(rt, call, file) {
            explain_line(rt, call, &input);
        }
        if let Some(error) = &input.inner.reader.reason {
            explain_device(rt, "standard input", error);
        }
        if let Some(error) = &output.writer.reason {
            explain_device(rt, "standard output", error);
        }
    }
    status
}
