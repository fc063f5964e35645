//! What the words of the program ask for.

pub use super::call::Call;
use super::call::call_in;
use super::end_words::{with_files, with_lines, with_parts, without_ends};
use super::ends::EndsFault;
use super::kind_words::{WordFault, kind_in, kinds_command, links_in, new_command};
use clap::builder::ValueParser;
use clap::error::ErrorKind;
use clap::{Arg, ArgAction, ArgMatches};
use diagnostics::{near_name, shown};
use kinds::KindName;
use std::alloc::{AllocError, Global};

/// The version of the program.
pub const VERSION: &str = "0.1.0";

// How many turns and waits a trace has room for unless the words say another number, and at most.
const USUAL_TRACE: &str = "100000";

const LONGEST_TRACE: u64 = 10_000_000;

// The most seconds between two reports of times: a day.
const LONGEST_PAUSE: u64 = 86_400;

/// What the words ask for.
#[derive(Drop)]
pub enum Asked<'a> {
    /// Print the page of all kinds, or of one.
    Kinds(Option<KindName>),
    /// Write a graph file to start from at this path, with blocks of these kinds.
    New(&'a str, Vec<KindName>),
    /// Do something with a graph file.
    Call(Call<'a>),
}

/// What the words ask for, without the first. On a terminal a refusal is explained, unless the words say no.
pub fn asked_by<'a>(
    alloc: Global,
    words: &'a [String],
    is_terminal: bool,
) -> Result<Asked<'a>, clap::Error> {
    let mut flow = commands(alloc)?;
    match flow.try_get_matches_from_mut(words) {
        Ok(matches) => match asked_in(alloc, &matches, is_terminal) {
            Ok(asked) => Ok(asked),
            Err(WordFault::Ends(fault)) => Err(error_of(&mut flow, fault)),
            Err(WordFault::NoKind(text)) => match flow.error(
                ErrorKind::InvalidValue,
                text.as_str(),
            ) {
                Ok(error) => Err(error),
                Err(refusal) => Err(clap::Error::from(refusal)),
            },
        },
        Err(error) if error.kind() == ErrorKind::InvalidSubcommand => Err(unknown_command(
            alloc, &mut flow, words, error,
        )),
        Err(error) => Err(error),
    }
}

// The message about a word that is no command: the command closest to it, which may be less close than `clap` asks for.
fn unknown_command(
    alloc: Global,
    flow: &mut clap::Command<'_>,
    words: &[String],
    error: clap::Error,
) -> clap::Error {
    match tip(alloc, flow, words) {
        Ok(Some(text)) => match flow.error(ErrorKind::InvalidSubcommand, text.as_str()) {
            Ok(error) => error,
            Err(refusal) => clap::Error::from(refusal),
        },
        Ok(None) => error,
        Err(refusal) => clap::Error::from(refusal),
    }
}

// The message about the first word that is no command, if a command is close to it.
fn tip(
    alloc: Global,
    flow: &clap::Command<'_>,
    words: &[String],
) -> Result<Option<String>, AllocError> {
    let mut names = Vec::new(alloc);
    for command in flow.get_subcommands() {
        names.push(command.get_name())?;
    }
    for word in words.iter().skip(1) {
        let word = word.as_str();
        if !names.contains(&word) {
            let near = near_name(alloc, word, &names)?;
            return match near {
                Some(name) => tip_text(alloc, word, name),
                None => Ok(None),
            };
        }
    }
    Ok(None)
}

// The message about a word, with the name of the command closest to it.
fn tip_text(alloc: Global, word: &str, name: &str) -> Result<Option<String>, AllocError> {
    let word = shown(alloc, word.as_bytes())?;
    let text = format!(in alloc;
        "unrecognized subcommand '{word}'\n\n  tip: a similar subcommand exists: '{name}'"
    )?;
    Ok(Some(text))
}

// What words ask for that `clap` took.
fn asked_in<'a>(
    alloc: Global,
    matches: &ArgMatches<'a>,
    is_terminal: bool,
) -> Result<Asked<'a>, WordFault> {
    // (that a command is there, and its file, is known of words that were taken)
    match matches.subcommand() {
        Some(("kinds", inner)) => match inner.get_str("KIND") {
            Some(word) => match kind_in(alloc, word) {
                Ok(kind) => Ok(Asked::Kinds(Some(kind))),
                Err(fault) => Err(fault),
            },
            None => Ok(Asked::Kinds(None)),
        },
        Some(("new", inner)) => new_in(alloc, inner),
        Some((name, inner)) => match call_in(alloc, name, inner, is_terminal) {
            Ok(call) => Ok(Asked::Call(call)),
            Err(fault) => Err(WordFault::Ends(fault)),
        },
        None => Err(WordFault::Ends(EndsFault::Memory)),
    }
}

// The graph file to start from that words ask for.
fn new_in<'a>(alloc: Global, inner: &ArgMatches<'a>) -> Result<Asked<'a>, WordFault> {
    let Some(path) = inner.get_str("FILE") else {
        return Err(WordFault::Ends(EndsFault::Memory));
    };
    match links_in(alloc, inner.get_strs("KIND").unwrap_or(&[])) {
        Ok(kinds) => Ok(Asked::New(path, kinds)),
        Err(fault) => Err(fault),
    }
}

/// The message about words whose ends are refused like this.
pub fn refusal_of(alloc: Global, fault: EndsFault) -> clap::Error {
    match commands(alloc) {
        Ok(mut flow) => error_of(&mut flow, fault),
        Err(error) => error,
    }
}

// The message of `clap` about words that name no ends.
fn error_of(flow: &mut clap::Command<'_>, fault: EndsFault) -> clap::Error {
    let said = match fault.text() {
        Some(text) => flow.error(ErrorKind::ValueValidation, text),
        None => Err(AllocError),
    };
    match said {
        Ok(error) => error,
        Err(refusal) => clap::Error::from(refusal),
    }
}

// The words that the program knows. (Here and below a value is made where it is handed on, so no early return has
// another to drop.)
fn commands<'a>(alloc: Global) -> Result<clap::Command<'a>, clap::Error> {
    let flow = bare_flow(alloc)?;
    let flow = with_reports(alloc, flow)?;
    with_runs(alloc, flow)
}

fn bare_flow<'a>(alloc: Global) -> Result<clap::Command<'a>, clap::Error> {
    // (The built file has another name.)
    Ok(
        clap::Command::new(alloc, "flow")
            .bin_name("flow")?
            .version(VERSION)
            .about("Runs a flowgraph that a file describes")
            .subcommand_required(true),
    )
}

// The commands that run nothing.
fn with_reports<'a>(
    alloc: Global,
    flow: clap::Command<'a>,
) -> Result<clap::Command<'a>, clap::Error> {
    let flow = with_command(flow, check_command(alloc))?;
    let flow = with_command(flow, draw_command(alloc))?;
    let flow = with_command(flow, kinds_command(alloc))?;
    with_command(flow, new_command(alloc))
}

// The commands that run something.
fn with_runs<'a>(alloc: Global, flow: clap::Command<'a>) -> Result<clap::Command<'a>, clap::Error> {
    let flow = with_command(flow, run_command(alloc))?;
    let flow = with_command(flow, live_command(alloc))?;
    with_command(flow, script_command(alloc))
}

fn with_command<'a>(
    flow: clap::Command<'a>,
    command: Result<clap::Command<'a>, clap::Error>,
) -> Result<clap::Command<'a>, clap::Error> {
    match command {
        Ok(command) => Ok(flow.subcommand(command)?),
        Err(error) => Err(error),
    }
}

fn check_command<'a>(alloc: Global) -> Result<clap::Command<'a>, clap::Error> {
    let check = subcommand(alloc, "check", "Reads the graph and reports on it")?;
    let feeds = flag(alloc, "feeds", "Tests the feeds too, as a run would");
    let check = check.arg(feeds)?;
    let slices = flag(
        alloc,
        "slices",
        "Tells how a run is cut into slices of time",
    );
    Ok(check.arg(slices)?)
}

fn draw_command<'a>(alloc: Global) -> Result<clap::Command<'a>, clap::Error> {
    let draw = subcommand(
        alloc,
        "draw",
        "Writes the graph as text from which a picture is made",
    )?;
    let format = Arg::new(alloc, "format")
        .long("format")
        .value_name("FORMAT")
        .value_parser(["dot", "mermaid"].as_slice())
        .default_value("dot")
        .help("The language of the text");
    Ok(draw.arg(format)?)
}

fn run_command<'a>(alloc: Global) -> Result<clap::Command<'a>, clap::Error> {
    let run = subcommand(
        alloc,
        "run",
        "Runs the graph and prints what its sinks hold",
    )?;
    let run = run.arg(quiet(alloc))?;
    let run = with_threading(alloc, run)?;
    let run = with_stats(alloc, run)?;
    let run = with_trace(alloc, run)?;
    with_parts(alloc, with_files(alloc, run)?)
}

// Threading options. They exclude one another. Between files a run has one thread, and helpers.
fn with_threading<'a>(
    alloc: Global,
    run: clap::Command<'a>,
) -> Result<clap::Command<'a>, clap::Error> {
    let one = flag(alloc, "one-thread", "Runs all blocks on one thread");
    let run = run.arg(one.conflicts_with("thread-per-block")?)?;
    let each = flag(
        alloc,
        "thread-per-block",
        "Runs each block in a thread of its own",
    );
    Ok(run.arg(without_ends(each)?)?)
}

// The words for a report of times.
fn with_stats<'a>(alloc: Global, run: clap::Command<'a>) -> Result<clap::Command<'a>, clap::Error> {
    let stats = Arg::new(alloc, "stats")
        .long("stats")
        .value_name("FORM")
        .num_args(0..=1)
        .require_equals(true)
        .default_missing_value("text")
        .value_parser(["text", "json"].as_slice())
        .help("Tells where the time of the run went");
    let run = run.arg(stats)?;
    let every = Arg::new(alloc, "stats-every")
        .long("stats-every")
        .action(ArgAction::Set)
        .value_name("SECONDS")
        .value_parser(ValueParser::Unsigned(1, LONGEST_PAUSE))
        .help("Tells it while the run goes on too, after so many seconds each");
    Ok(run.arg(every.requires_arg("stats")?)?)
}

// The words for a trace.
fn with_trace<'a>(alloc: Global, run: clap::Command<'a>) -> Result<clap::Command<'a>, clap::Error> {
    let trace = Arg::new(alloc, "trace")
        .long("trace")
        .action(ArgAction::Set)
        .value_name("PATH")
        .help("Writes each turn and each wait of a block to a file, as a trace");
    let run = run.arg(trace)?;
    let size = Arg::new(alloc, "trace-size")
        .long("trace-size")
        .action(ArgAction::Set)
        .value_name("N")
        .value_parser(ValueParser::Unsigned(1, LONGEST_TRACE))
        .default_value(USUAL_TRACE)
        .help("Keeps at most N turns and waits in the trace");
    Ok(run.arg(size.requires_arg("trace")?)?)
}

fn live_command<'a>(alloc: Global) -> Result<clap::Command<'a>, clap::Error> {
    let live = subcommand(
        alloc,
        "live",
        "Runs the graph while the commands of standard input are done",
    )?;
    let live = live.arg(quiet(alloc))?;
    let live = with_stats(alloc, live)?;
    let live = with_trace(alloc, live)?;
    with_lines(alloc, with_files(alloc, live)?)
}

fn script_command<'a>(alloc: Global) -> Result<clap::Command<'a>, clap::Error> {
    subcommand(
        alloc,
        "script",
        "Runs the commands of standard input on the graph",
    )
}

// The word that turns off all that is written beside the report.
fn quiet<'a>(alloc: Global) -> Arg<'a> {
    flag(
        alloc,
        "quiet",
        "Shows neither progress nor why a run stalled",
    )
    .short('q')
}

/// A word that stands for itself.
pub fn flag<'a>(alloc: Global, name: &'a str, help: &'a str) -> Arg<'a> {
    Arg::new(alloc, name)
        .long(name)
        .action(ArgAction::SetTrue)
        .help(help)
}

// A subcommand that takes a graph file, with its line of help.
fn subcommand<'a>(
    alloc: Global,
    name: &'a str,
    help: &'a str,
) -> Result<clap::Command<'a>, clap::Error> {
    let file = Arg::new(alloc, "FILE")
        .required(true)
        .action(ArgAction::Set)
        .help("The graph file");
    let command = clap::Command::new(alloc, name).about(help).arg(file)?;
    Ok(command.arg(explain(alloc))?)
}

// The word that says when a refusal is explained.
fn explain<'a>(alloc: Global) -> Arg<'a> {
    Arg::new(alloc, "explain")
        .long("explain")
        .value_name("WHEN")
        .num_args(0..=1)
        .require_equals(true)
        .default_value("auto")
        .default_missing_value("always")
        .value_parser(["auto", "always", "never"].as_slice())
        .help("Shows where the fault is; automatic on a terminal")
}
