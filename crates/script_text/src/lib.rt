//! The text of scripts: lines, the commands that they spell, and the replies that are printed.
#![tactic(auto)]

mod bytes;
pub mod command;
mod mark_line;
mod name;
mod numerals;
pub mod parse;
mod print;
pub mod reply;
pub mod report;
pub mod script;
pub mod splitter;

pub use command::{Command, Line};
pub use mark_line::parse_mark_line;
pub use parse::parse_line;
pub use print::push_tag_lines;
pub use reply::Reply;
pub use report::Report;
pub use script::{last_line, next_line};
pub use splitter::{FirstLine, LineSplitter};
