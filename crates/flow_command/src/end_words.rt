//! The words that name files of raw items, and how to run between them.

use super::words::flag;
use clap::builder::ValueParser;
use clap::{Arg, ArgAction};
use std::alloc::{AllocError, Global};

// The most threads that run slices.
const MOST_JOBS: u64 = 1024;

/// A word that excludes those for files of raw items.
pub fn without_ends<'a>(word: Arg<'a>) -> Result<Arg<'a>, AllocError> {
    let word = word.conflicts_with("input")?;
    let word = word.conflicts_with("marks")?;
    let word = word.conflicts_with("output")?;
    word.conflicts_with("tags")
}

/// The words for files of raw items.
pub fn with_files<'a>(
    alloc: Global,
    run: clap::Command<'a>,
) -> Result<clap::Command<'a>, clap::Error> {
    let run = run.arg(flag(
        alloc,
        "big-endian",
        "Raw items have their highest byte first",
    ))?;
    let input = ends(alloc, "input", "Feeds the raw items of a file to a source").short('i');
    let run = run.arg(input)?;
    let marks = ends(
        alloc,
        "marks",
        "Puts tags on the items of an input, a line each",
    );
    let run = run.arg(marks)?;
    let output = ends(alloc, "output", "Writes the items of a sink to a file, raw").short('o');
    let run = run.arg(output)?;
    let tags = ends(
        alloc,
        "tags",
        "Writes the tags of a sink to a file, a line each",
    );
    Ok(run.arg(tags)?)
}

/// The words for a part of a run, which exclude one another, and for runs in pieces.
pub fn with_parts<'a>(
    alloc: Global,
    run: clap::Command<'a>,
) -> Result<clap::Command<'a>, clap::Error> {
    let slice = part(alloc, "slice", "Runs only slice J of N of the input")?;
    let slice = slice.value_name("J/N").conflicts_with("from")?;
    let slice = slice.conflicts_with("items")?.conflicts_with("resume")?;
    let run = run.arg(slice)?;
    let from = part(
        alloc,
        "from",
        "Writes the items of each output from this one on",
    )?;
    let from = from
        .value_name("ITEM")
        .value_parser(ValueParser::Unsigned(0, u64::MAX));
    let run = run.arg(from.conflicts_with("resume")?)?;
    let items = part(alloc, "items", "Writes so many items of each output")?;
    let items = items
        .value_name("COUNT")
        .value_parser(ValueParser::Unsigned(0, u64::MAX));
    let items = items.conflicts_with("marks")?.conflicts_with("tags")?;
    let run = run.arg(items.conflicts_with("resume")?)?;
    let resume = part(alloc, "resume", "Continues the outputs from where they end")?;
    let run = run.arg(resume.action(ArgAction::SetTrue))?;
    Ok(run.arg(jobs(alloc)?)?)
}

// A word for a part of a run.
fn part<'a>(alloc: Global, name: &'a str, help: &'a str) -> Result<Arg<'a>, AllocError> {
    let part = Arg::new(alloc, name)
        .long(name)
        .action(ArgAction::Set)
        .help(help);
    part.requires_arg("input")
}

// The word that says how many threads run slices.
fn jobs<'a>(alloc: Global) -> Result<Arg<'a>, AllocError> {
    let jobs = part(alloc, "jobs", "Runs slices on so many threads")?;
    let jobs = jobs
        .value_name("N")
        .value_parser(ValueParser::Unsigned(1, MOST_JOBS));
    let jobs = jobs.conflicts_with("one-thread")?;
    jobs.conflicts_with("stats")?.conflicts_with("trace")
}

// A word for files, each with its block. A block's name may begin with a dash.
fn ends<'a>(alloc: Global, name: &'a str, help: &'a str) -> Arg<'a> {
    Arg::new(alloc, name)
        .long(name)
        .action(ArgAction::Append)
        .allow_hyphen_values(true)
        .value_name("BLOCK=PATH")
        .help(help)
}

/// The words for the lines and replies of a live run between files.
pub fn with_lines<'a>(
    alloc: Global,
    live: clap::Command<'a>,
) -> Result<clap::Command<'a>, clap::Error> {
    let control = Arg::new(alloc, "control")
        .long("control")
        .action(ArgAction::Set)
        .value_name("PATH")
        .help("Takes the commands from a file or pipe");
    let live = live.arg(control)?;
    let replies = Arg::new(alloc, "replies")
        .long("replies")
        .action(ArgAction::Set)
        .value_name("PATH")
        .help("Writes the replies to a file or pipe");
    Ok(live.arg(replies)?)
}
