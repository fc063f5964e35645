//! Magbelu from C: what c/magbelu.h declares. No call has a `requires`, since nothing holds a C caller to one.
//!
//! ```c
//! struct magbelu_answer answer = magbelu_bytes_run(file, file_len, output, output_room, error, error_room);
//! ```
//!
//! A call takes pointers with their lengths, refuses wrong ones (54 and on), and makes one call of the libraries below.
//! `calls` has whole runs of a file, `raw_calls` and `between` runs between raw items, `held_calls` the calls of a
//! plant behind a `handle`, `draining` and `levels` those of a streaming one. `graph_calls` tells what its graph is,
//! and `slice_calls` how runs of its graph are cut into slices of time. `kernels` has arithmetic over slices of memory.
//! No call starts a thread. Between two calls only what a handle holds is kept.
#![tactic(auto)]

pub mod answer;
mod any_plant;
mod between;
mod block_calls;
pub mod block_rates;
pub mod block_setting;
pub mod calls;
pub mod cuts;
mod draining;
pub mod explaining;
pub mod fault_place;
pub mod graph_calls;
pub mod handle;
pub mod held_calls;
mod idle;
pub mod kernels;
mod later;
pub mod levels;
pub mod listing;
mod loose;
mod orders;
pub mod piece;
pub mod raw_calls;
pub mod reply;
mod rooms;
mod shows;
pub mod slice_calls;
mod slice_plans;
pub mod slicing;
pub mod tables;
mod tagging;
