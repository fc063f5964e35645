//! A call of a command on a graph file.

ghost use Rattle.std.specs.Prelude.{◌≡◌, ◌&&◌, ◌||◌, not, if◌then◌else◌, is_some};
ghost use Rattle.flow_core.specs.declared.stalls.Verbosity.TheVariants.{WithNotes, Quiet};

use super::ends::{Ends, EndsFault};
use super::slice::Slice;
use super::stretch::Stretch;
use super::talk::Talk;
use clap::ArgMatches;
use drawings::Format;
use flow_runs::serve::{Action, Verbosity};
use flow_runs::threading::Threading;
use run_stats::Form;
use std::alloc::Global;

/// What a call asks for of a graph file.
#[derive(Drop)]
pub struct Call<'a> {
    pub action: Action,
    pub path: &'a str,
    pub is_quiet: bool,
    /// Whether a refusal is explained.
    pub explains: bool,
    /// The form of the report of times, if one is wanted.
    pub stats: Option<Form>,
    /// The seconds between two reports of times while the run goes on, if these are wanted.
    pub every: Option<u64>,
    /// The trace of the run, if one is wanted.
    pub trace: Option<Trace<'a>>,
    pub ends: Ends<'a>,
    /// Where the lines of a live run come from, and where its replies go.
    pub talk: Talk<'a>,
    /// The part of the whole run that this one does.
    pub stretch: Stretch,
    /// How many threads run slices, if the words say.
    pub jobs: Option<usize>,
    /// Whether the report tells how the graph is cut into slices.
    pub tells_slices: bool,
}

/// Where a trace goes, and how many turns and waits it has room for.
#[derive(Clone, Copy, Debug, PartialEq, Eq)]
pub struct Trace<'a> {
    pub path: &'a str,
    pub size: usize,
}

impl Call<'_> {
    /// Whether a run may show its progress: on a terminal, unless the words say no.
    pub fn may_show(&self, is_terminal: bool) -> bool
        ensures { result ≡ (is_terminal && not self.now.is_quiet) }
    {
        is_terminal && !self.is_quiet
    }

    /// Whether the run is measured or traced. If so, a run between files has one thread.
    pub fn is_measured(&self) -> bool
        ensures { result ≡ (is_some self.now.stats || is_some self.now.trace) }
    {
        self.stats.is_some() || self.trace.is_some()
    }

    /// Whether to write lines that no command asks for. The words may say no.
    pub fn verbosity(&self) -> Verbosity
        ensures { result ≡ (if self.now.is_quiet then Quiet else WithNotes) }
    {
        if self.is_quiet {
            Verbosity::Quiet
        } else {
            Verbosity::WithNotes
        }
    }
}

/// The call of a command on a graph file, by words that `clap` took. On a terminal a refusal is explained, unless the
/// words say no.
pub fn call_in<'a>(
    alloc: Global,
    name: &str,
    inner: &ArgMatches<'a>,
    is_terminal: bool,
) -> Result<Call<'a>, EndsFault> {
    let Some(path) = inner.get_str("FILE") else {
        return Err(EndsFault::Memory);
    };
    let trace = trace_of(inner, path)?;
    let stretch = stretch_of(inner)?;
    let talk = talk_of(name, inner);
    match Ends::of_words(alloc, inner, path) {
        Ok(ends) => talking(Call {
            action: action_of(name, inner),
            path,
            is_quiet: inner.get_flag("quiet"),
            explains: explains(inner.get_str("explain"), is_terminal),
            stats: form_of(inner.get_str("stats")),
            every: inner.get_one::<u64>("stats-every"),
            trace,
            ends,
            talk,
            stretch,
            jobs: inner.get_one::<usize>("jobs"),
            tells_slices: inner.get_flag("slices"),
        }),
        Err(fault) => Err(fault),
    }
}

// Where lines come from, and where replies go.
fn talk_of<'a>(name: &str, inner: &ArgMatches<'a>) -> Talk<'a> {
    if name != "live" {
        return Talk {
            control: None,
            replies: None,
        };
    }
    Talk {
        control: inner.get_str("control"),
        replies: inner.get_str("replies"),
    }
}

// The call, unless a standard stream would have both lines or replies, and items. A live run without files of items has
// no lines of its own, and no times.
fn talking(call: Call<'_>) -> Result<Call<'_>, EndsFault> {
    if call.action != Action::Live {
        return Ok(call);
    }
    if call.ends.are_none() {
        if !call.talk.is_standard() {
            return Err(EndsFault::LinesAlone);
        }
        if call.is_measured() {
            return Err(EndsFault::TimesAlone);
        }
        return Ok(call);
    }
    if call.talk.control.is_none() && call.ends.use_input() {
        return Err(EndsFault::LinesAmongItems);
    }
    if call.talk.replies.is_none() && call.ends.use_output() {
        return Err(EndsFault::RepliesAmongItems);
    }
    Ok(call)
}

// The trace that words ask for, if any. It may not be the graph file at this path.
fn trace_of<'a>(inner: &ArgMatches<'a>, file: &str) -> Result<Option<Trace<'a>>, EndsFault> {
    let Some(path) = inner.get_str("trace") else {
        return Ok(None);
    };
    if path == "-" {
        return Err(EndsFault::TraceToStream);
    }
    if path == file {
        return Err(EndsFault::FileTwice);
    }
    // (that it is a number is known of words that were taken)
    let size = inner.get_one::<usize>("trace-size").unwrap_or(1);
    Ok(Some(Trace { path, size }))
}

// The part of a run that the words name.
fn stretch_of(inner: &ArgMatches<'_>) -> Result<Stretch, EndsFault> {
    if let Some(word) = inner.get_str("slice") {
        return match Slice::of_word(word) {
            Some(slice) => Ok(Stretch::Slice(slice)),
            None => Err(EndsFault::NoSlice),
        };
    }
    if inner.get_flag("resume") {
        return Ok(Stretch::Resumed);
    }
    match (inner.get_one::<u64>("from"), inner.get_one::<u64>("items")) {
        (None, None) => Ok(Stretch::Whole),
        (from, most) => Ok(Stretch::Items {
            from: from.unwrap_or(0),
            most: most.unwrap_or(u64::MAX),
        }),
    }
}

fn action_of(name: &str, inner: &ArgMatches<'_>) -> Action {
    match name {
        "check" if inner.get_flag("feeds") => Action::CheckFeeds,
        "check" => Action::Check,
        "draw" => Action::Draw(format_of(inner.get_str("format"))),
        "run" if inner.get_flag("one-thread") => Action::RunAlone,
        "run" if inner.get_flag("thread-per-block") => Action::Run(Threading::PerBlock),
        "run" => Action::Run(Threading::Adaptive),
        "live" => Action::Live,
        _ => Action::Script,
    }
}

// The format of a picture. No other words are taken.
fn format_of(word: Option<&str>) -> Format {
    match word {
        Some("mermaid") => Format::Mermaid,
        _ => Format::Dot,
    }
}

// Whether a refusal is explained. No other words are taken.
fn explains(word: Option<&str>, is_terminal: bool) -> bool {
    match word {
        Some("always") => true,
        Some("never") => false,
        _ => is_terminal,
    }
}

// The form of a report of times, if one is asked for. No other words are taken.
fn form_of(word: Option<&str>) -> Option<Form> {
    match word {
        Some("json") => Some(Form::Json),
        Some(_) => Some(Form::Text),
        None => None,
    }
}
