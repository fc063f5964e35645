//! Where the time of a run goes, block by block. One gate counts and measures; its reports are text or JSON. Another
//! gate keeps each turn and each wait, and writes a trace of them.
#![tactic(auto)]

mod blame;
pub mod figures;
mod flow_of_items;
mod json;
pub mod measured;
pub mod meter;
pub mod observer;
mod table;
mod text;
mod trace;
pub mod tracer;
mod units;

pub use figures::{Figures, Stats, Waited};
pub use json::json_report;
pub use measured::{Form, Looks, Measured};
pub use meter::Meter;
pub use observer::Observer;
pub use text::text_report;
pub use trace::write_trace;
pub use tracer::{Deed, Event, Tracer};
