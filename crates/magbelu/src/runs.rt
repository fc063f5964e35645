//! Running a graph in as many threads as the work is worth, or with a thread for each block: to its end, or live, with
//! callers that feed, set and read meanwhile.

pub use run_stats::{
    Deed, Event, Figures, Form, Looks, Measured, Meter, Observer, Stats, Tracer, Waited,
    json_report, text_report, write_trace,
};
pub use threads::{
    Answer, Call, Caller, CallerId, Desk, Entry, Feed, Finished, Gate, GatedWatch, Open, Outcome,
    RunError, RunFault, RunOptions, Running, Setting, Threading, Turns, launch_with, live_with,
    run_with,
};
pub use top_block::{TopBlock, close_all};
