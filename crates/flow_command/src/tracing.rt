//! The trace of a run, if the words ask for one.

use crate::explaining::explain_device;
use crate::gone_reader::{is_gone, tell_gone};
use crate::measuring::came_to_rest;
use crate::refusing::{begins_none, begins_none_of, buffered};
use crate::words::Call;
use flow_core::start_fault::StartFault;
use flow_runs::serve::Verbosity;
use run_stats::Measured;
use std::fs::File;
use std::io::{BufWriter, Write};
use std::time::Clock;
use std::{fs, io};

// How many bytes of a trace are written at once.
const PIECE: usize = 65_536;

/// The file of a trace, with the memory for a piece of it.
pub type TraceFile = BufWriter<File>;

/// Makes the file of the trace that a call asks for, if its run is observed. If it cannot be made, it tells so and
/// returns the status of the call.
pub fn trace_file_for<R: Clock + Copy>(
    rt: &HostRuntime,
    call: &Call<'_>,
    measured: &Option<Measured<R>>,
) -> Result<Option<TraceFile>, u8> {
    let (Some(_), Some(trace)) = (measured, call.trace) else {
        return Ok(None);
    };
    match fs::create(rt, trace.path) {
        Ok(file) => match BufWriter::with_capacity(rt.alloc(), PIECE, file) {
            Ok(file) => Ok(Some(file)),
            Err(_) => Err(begins_none(rt, StartFault::Memory)),
        },
        Err(error) => Err(refuse(rt, call, trace.path, &error)),
    }
}

/// Writes the trace of a run that came to rest with this status, and returns the status of the call.
pub fn tell_trace<R: Clock + Copy>(
    rt: &HostRuntime,
    call: &Call<'_>,
    measured: &Option<Measured<R>>,
    file: Option<TraceFile>,
    status: u8,
) -> u8 {
    let (Some(measured), Some(trace), Some(file)) = (measured, call.trace, file) else {
        return status;
    };
    if !came_to_rest(status) {
        return status;
    }
    match write(measured, file) {
        Ok(()) => {
            tell_left_out(rt, call, measured);
            status
        }
        Err(error) => refuse(rt, call, trace.path, &error),
    }
}

// Writes a trace. It does not retry what a failed write left over.
fn write<R: Clock + Copy>(measured: &Measured<R>, file: TraceFile) -> io::Result<()> {
    let mut file = file;
    let written = match measured.trace(&mut file) {
        Ok(()) => file.flush(),
        Err(error) => Err(error),
    };
    let (_file, _left) = file.into_parts();
    written
}

// Says how many turns and waits a trace lacks, if it does.
fn tell_left_out<R: Clock + Copy>(rt: &HostRuntime, call: &Call<'_>, measured: &Measured<R>) {
    let (left_out, count) = measured.left_out();
    if 0 < left_out && call.verbosity() == Verbosity::WithNotes {
        let mut errors = buffered(rt.alloc(), rt.stderr()).writer;
        let _ = write!(
            errors,
            "flow: trace: the last {left_out} of {count} turns and waits are left out\n"
        );
        let _ = errors.flush();
    }
}

// Tells that a trace could not be written, and returns the status of the call.
fn refuse(rt: &HostRuntime, call: &Call<'_>, path: &str, error: &io::Error) -> u8 {
    let status = if is_gone(error) {
        tell_gone(rt, call, path)
    } else {
        begins_none_of(rt, StartFault::of_trace(error.kind()), path)
    };
    if call.explains {
        explain_device(rt, path, error);
    }
    status
}
