//! Words that name kinds of blocks, and the commands that take them.

use super::ends::EndsFault;
use clap::{Arg, ArgAction};
use diagnostics::{is_link, near_name, shown};
use kinds::KindName;
use std::alloc::{AllocError, Global};

/// Why words that `clap` took ask for nothing.
#[derive(Drop)]
pub enum WordFault {
    /// They name no ends of a run.
    Ends(EndsFault),
    /// A word is no kind, or none that may stand there. This text says so.
    NoKind(String),
}

impl From<AllocError> for WordFault {
    fn from(_refusal: AllocError) -> WordFault {
        WordFault::Ends(EndsFault::Memory)
    }
}

/// The kinds of a chain.
pub fn links_in(alloc: Global, words: &[&str]) -> Result<Vec<KindName>, WordFault> {
    let mut kinds = Vec::new(alloc);
    for word in words {
        let kind = kind_in(alloc, word)?;
        if !is_link(kind) {
            return Err(WordFault::NoKind(end_text(alloc, kind)?));
        }
        if kinds.push(kind).is_err() {
            return Err(WordFault::from(AllocError));
        }
    }
    Ok(kinds)
}

// The message about a kind that belongs at an end of a graph.
fn end_text(alloc: Global, kind: KindName) -> Result<String, AllocError> {
    let name = kind.text();
    format!(in alloc; "a graph begins and ends by itself, and '{name}' is the kind of an end")
}

/// The kind of a name.
pub fn kind_in(alloc: Global, word: &str) -> Result<KindName, WordFault> {
    match KindName::named(word) {
        Some(kind) => Ok(kind),
        None => Err(WordFault::NoKind(no_kind_text(alloc, word)?)),
    }
}

// The message about a word that is no kind, with the name of the kind closest to it.
fn no_kind_text(alloc: Global, word: &str) -> Result<String, AllocError> {
    let mut names = Vec::new(alloc);
    for kind in KindName::all() {
        names.push(kind.text())?;
    }
    let near = near_name(alloc, word, &names)?;
    let word = shown(alloc, word.as_bytes())?;
    match near {
        Some(name) => format!(in alloc;
            "there is no kind '{word}'\n\n  tip: a similar kind exists: '{name}'"
        ),
        None => format!(in alloc; "there is no kind '{word}'"),
    }
}

/// The command that prints kinds.
pub fn kinds_command<'a>(alloc: Global) -> Result<clap::Command<'a>, clap::Error> {
    let kind = Arg::new(alloc, "KIND")
        .action(ArgAction::Set)
        .help("The kind that is printed alone");
    let kinds = clap::Command::new(alloc, "kinds").about(
        "Prints all kinds of blocks, with their parameters",
    );
    Ok(kinds.arg(kind)?)
}

/// The command that writes a graph file to start from.
pub fn new_command<'a>(alloc: Global) -> Result<clap::Command<'a>, clap::Error> {
    let file = Arg::new(alloc, "FILE")
        .required(true)
        .action(ArgAction::Set)
        .help("The graph file that is made");
    let new = clap::Command::new(alloc, "new")
        .about("Writes a graph file to start from")
        .arg(file)?;
    let kinds = Arg::new(alloc, "KIND")
        .action(ArgAction::Append)
        .num_args(0..)
        .help("The kinds of the blocks between its source and its sink");
    Ok(new.arg(kinds)?)
}
