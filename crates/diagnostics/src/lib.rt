//! Explains a refusal of a graph file or of a script's line: the place in the text, what was found there, and what may
//! stand there.
//!
//! ```text
//! flow: refused 44 UnknownKind block 1
//!  --> graph.toml:7:8
//!   |
//! 7 | kind = "add_cnst"
//!   |        ^ there is no kind `add_cnst`; is `add_const` meant?
//! ```
//!
//! [`explain`] reads the file again, with the places of its tables and keys (`document`, `entries`, `tokens`), and
//! finds what the fault is about. `table_faults`, `graph_faults`, `feed_faults` and `tag_faults` have a function for
//! each fault. `expected` says what may stand at a key, `near` which name was meant, `headers` which brackets, and
//! `gnu_radio` what replaces a name of GNU Radio. `frame` prints the place, and [`place_of`] returns it in numbers
//! (`places`). [`page_of_kinds`] prints the ranges of the parameters of all kinds, with a line about each kind
//! (`about`). [`starting_graph`] writes a graph file with blocks of some kinds. [`KeptLines`] keeps the lines of a
//! script so that a bad one can be explained, and [`Noted`] keeps a device with the reason why it failed. No contract
//! says what is printed; tests do.
#![tactic(auto)]

mod about;
mod commands;
mod document;
mod entries;
mod expected;
pub mod explained;
mod feed_faults;
mod frame;
mod gnu_radio;
mod graph_faults;
mod headers;
pub mod kinds_page;
pub mod lines;
pub mod looks;
mod loops;
pub mod near;
pub mod noted;
mod pairs;
pub mod places;
mod ports;
pub mod starting;
mod table_faults;
mod tag_faults;
mod tokens;

pub use explained::{explain, place_of};
pub use kinds_page::{page_of_kind, page_of_kinds};
pub use lines::KeptLines;
pub use looks::shown;
pub use near::near_name;
pub use noted::{Noted, at_device};
pub use places::Place;
pub use starting::{is_link, starting_graph};
