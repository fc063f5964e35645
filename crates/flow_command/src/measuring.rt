//! Where the time of a run went, if the words ask for it.

use crate::gone_reader::NOBODY_READS;
use crate::refusing::begins_none;
use crate::words::Call;
use flow_core::fault::NO_MEMORY;
use flow_core::opening::open_plant;
use flow_core::start_fault::StartFault;
use flowgraph::Valid;
use kinds::Kind;
use refusal_codes::Refusal;
use run_stats::{Looks, Measured, Observer};
use std::alloc::{AllocError, Global};
use std::io::Write;
use std::sync::Arc;
use std::time::Clock;

// The status of a run that came to rest before all blocks were done.
const STALLED: u8 = 3;

/// Whether a run came to rest, by its status. Its report is written after that.
pub fn came_to_rest(status: u8) -> bool {
    status == 0 || status == STALLED || status == NOBODY_READS
}

/// The observer of a call's run, and the part of it that the run has.
pub type ForRun<R> = (Option<Measured<R>>, Option<Arc<Observer<R>, Global>>);

/// The observer of a call's run, if the words ask for one and the file is not refused.
pub fn measured_for<R: Clock + Copy>(
    clock: R,
    alloc: Global,
    call: &Call<'_>,
    file: &[u8],
) -> Result<ForRun<R>, AllocError> {
    if !call.is_measured() {
        return Ok((None, None));
    }
    let looks = Looks {
        at_times: call.stats.is_some(),
        at_events: match call.trace {
            Some(trace) => Some(trace.size),
            None => None,
        },
    };
    let Some(graph) = graph_of(alloc, file)? else {
        return Ok((None, None));
    };
    let measured = Measured::new(alloc, clock, looks, graph)?;
    let observer = measured.observer()?;
    Ok((Some(measured), Some(observer)))
}

// The graph of a file; none if the file or one of its feeds is refused. The run tells that.
fn graph_of(alloc: Global, file: &[u8]) -> Result<Option<Arc<Valid<Kind>, Global>>, AllocError> {
    match open_plant(alloc, file) {
        Ok(plant) => Ok(Some(plant.share_graph()?)),
        Err(fault) if fault.number() == NO_MEMORY => Err(AllocError),
        Err(_) => Ok(None),
    }
}

/// Writes what was measured of a run that came to rest with this status, and returns the status of the call.
pub fn tell_times<R: Clock + Copy>(
    rt: &HostRuntime,
    call: &Call<'_>,
    measured: &Option<Measured<R>>,
    status: u8,
) -> u8 {
    let (Some(measured), Some(form)) = (measured, call.stats) else {
        return status;
    };
    if !came_to_rest(status) {
        return status;
    }
    match measured.report(rt.alloc(), form) {
        Ok(text) => {
            let mut errors = rt.stderr();
            let _ = errors.write_all(&text);
            status
        }
        Err(_) => begins_none(rt, StartFault::Memory),
    }
}
