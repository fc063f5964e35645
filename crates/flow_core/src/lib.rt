//! What the program `flow` does with a graph file and its standard streams on one thread, over any source and sink of
//! bytes.
//!
//! ```text
//! let status = run_alone(alloc, file, &mut output, &mut watch)?;
//! ```
//!
//! - `check`, `draw`, `run` and `script` are the commands. Each opens the file (`opening`) and writes its output
//!   (`command_output`).
//! - `script` takes lines one by one, and an `answerer` replies to each. A `session` holds a plant, and has a module
//!   for each sort of command.
//! - `turn` says how much is done at once, and `reports` has the texts.
//! - `fault`, `raw_fault` and `start_fault` say why a command stopped. `refusal_line` writes that without memory.
//!   `stalls` explains why a run came to rest.
//! - `raw_input` and `raw_output` feed and write raw items in memory, for the library for C. `tag_text` writes tags as
//!   lines.
//!
//! What runs in threads belongs to `flow_runs`. Arguments, files and the terminal belong to `flow_command`.
#![tactic(auto)]

pub mod answerer;
pub mod check;
pub mod command_output;
pub mod draw;
pub mod fault;
pub mod opening;
pub mod raw_fault;
pub mod raw_input;
pub mod raw_output;
pub mod refusal_line;
pub mod reports;
pub mod run;
pub mod script;
pub mod session;
pub mod stalls;
pub mod start_fault;
pub mod tag_text;
pub mod turn;
