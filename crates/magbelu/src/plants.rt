//! A plant runs a graph call by call: feed, set, step, read. Between a claim and its commit a block works apart from
//! the plant. A plant that streams forgets what was taken of it, so it runs in constant memory for as long as it is
//! fed. A pipeline does so between readers and writers. Threads may help it, and callers on any threads may ask it
//! meanwhile.

pub use helper_threads::HelperThreads;
pub use pipeline::{
    AllReady, Answer, End, Ended, Input, NoRequests, Output, Pipeline, PipelineFault, Readiness,
    Request, Requests, Told,
};
pub use plant::{
    BlockNeed, Claim, Closed, Did, Fed, Handed, Headway, Job, Need, Opening, Piece, Plant,
    PlantFault, Settled, SinkView, Step, Stored, Taken, Unwatched, Watch, Worked, source_type,
};
pub use request_box::{Bell, CallFault, Caller, RequestBox, request_box};
pub use streaming::{Appended, Helpers, Levels, NoHelpers, StreamingPlant};
