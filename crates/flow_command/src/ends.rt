//! The files that the words of a run name for its sources and sinks.

ghost use Rattle.std.specs.Prelude.{◌≡◌, ◌↔◌, IsTrue, codes, vec_len};

use clap::ArgMatches;
use raw_items::ByteOrder;
use std::alloc::{AllocError, AllocFailed, Global};

/// A block, and the path of the file that feeds it or that it is written to.
#[derive(Clone, Copy)]
pub struct NamedEnd<'a> {
    pub block: &'a str,
    pub path: &'a str,
}

impl NamedEnd<'_> {
    /// Whether it is a standard stream.
    pub fn is_standard(&self) -> bool
        ensures { IsTrue result ↔ (self.now.path.now ≡ codes "-") }
    {
        self.path == "-"
    }

    // Whether what is written there stays there.
    fn is_kept(&self) -> bool {
        !self.is_standard() && self.path != "/dev/null"
    }
}

/// The files of a run: of raw items and of the marks on them, and of outputs of items and tags.
#[derive(Drop)]
pub struct Ends<'a> {
    pub order: ByteOrder,
    pub inputs: Vec<NamedEnd<'a>>,
    pub marks: Vec<NamedEnd<'a>>,
    pub outputs: Vec<NamedEnd<'a>>,
    pub tags: Vec<NamedEnd<'a>>,
}

/// Why words name no ends.
#[derive(Clone, Copy, Debug, PartialEq, Eq)]
pub enum EndsFault {
    /// A word has no `=`.
    NoPath,
    /// A block is named twice.
    BlockTwice,
    /// A standard stream is named twice.
    StreamTwice,
    /// A file is named for two outputs, or for an output and for an input.
    FileTwice,
    /// Marks are named for a block without an input.
    NoInput,
    /// A trace would go to standard output, which has the report of the run.
    TraceToStream,
    /// A trace would go to the file or pipe that is standard output.
    TraceOntoReport,
    /// Items, tags or a trace would go to the file or pipe that is standard error, which tells how the run ended.
    OntoErrors,
    /// Standard input would have the lines of a live run, and items or marks.
    LinesAmongItems,
    /// Standard output would have the replies of a live run, and items or tags.
    RepliesAmongItems,
    /// Lines or replies have a file of their own in a live run without files of items.
    LinesAlone,
    /// Times or a trace are wanted of a live run without files of items.
    TimesAlone,
    /// A word for a slice is no `J/N` with J from 1 to N.
    NoSlice,
    /// Memory ran out.
    Memory,
}

impl EndsFault {
    /// What is wrong with the words; nothing if memory ran out.
    pub fn text(self) -> Option<&'static str> {
        match self {
            EndsFault::NoPath => Some("a word for a file is no BLOCK=PATH"),
            EndsFault::BlockTwice => Some("two files are named for what one block holds"),
            EndsFault::StreamTwice => Some("a standard stream is named twice"),
            EndsFault::FileTwice => Some("a file that is written is named twice"),
            EndsFault::NoInput => Some("marks are named for a block without an input"),
            EndsFault::TraceToStream => Some("a trace goes to a file, and '-' is none"),
            EndsFault::TraceOntoReport => Some(
                "a trace would go to standard output, which has the report of the run",
            ),
            EndsFault::OntoErrors => Some(
                "items, tags or a trace would go to standard error, which tells how the run ended",
            ),
            EndsFault::LinesAmongItems => Some(
                "standard input has the lines of a live run, unless --control names a file",
            ),
            EndsFault::RepliesAmongItems => Some(
                "standard output has the replies of a live run, unless --replies names a file",
            ),
            EndsFault::LinesAlone => Some("--control and --replies go with files of raw items"),
            EndsFault::TimesAlone => Some(
                "--stats and --trace of a live run go with files of raw items",
            ),
            EndsFault::NoSlice => Some("a word for a slice is no J/N with J from 1 to N"),
            EndsFault::Memory => None,
        }
    }
}

impl From<AllocError> for EndsFault {
    fn from(_refusal: AllocError) -> EndsFault {
        EndsFault::Memory
    }
}

impl<T: Drop> From<AllocFailed<T>> for EndsFault {
    fn from(_refusal: AllocFailed<T>) -> EndsFault {
        EndsFault::Memory
    }
}

impl<'a> Ends<'a> {
    /// The ends that the words of a call name, beside the path of the graph file.
    pub fn of_words(
        alloc: Global,
        matches: &ArgMatches<'a>,
        file: &str,
    ) -> Result<Ends<'a>, EndsFault> {
        let order = if matches.get_flag("big-endian") {
            ByteOrder::Big
        } else {
            ByteOrder::Little
        };
        let mut ends = Ends {
            order,
            inputs: Vec::new(alloc),
            marks: Vec::new(alloc),
            outputs: Vec::new(alloc),
            tags: Vec::new(alloc),
        };
        match ends.fill(alloc, matches, file) {
            Ok(()) => Ok(ends),
            Err(fault) => Err(fault),
        }
    }

    // Adds the ends of all words. (It owns nothing that an early return would have to drop: each such return costs the
    // prover.)
    fn fill(
        &mut self,
        alloc: Global,
        matches: &ArgMatches<'a>,
        file: &str,
    ) -> Result<(), EndsFault> {
        add_ends(&mut self.inputs, matches.get_strs("input"))?;
        add_ends(&mut self.marks, matches.get_strs("marks"))?;
        add_ends(&mut self.outputs, matches.get_strs("output"))?;
        add_ends(&mut self.tags, matches.get_strs("tags"))?;
        if self.names_block_twice(alloc)? {
            return Err(EndsFault::BlockTwice);
        }
        if !self.marks_have_inputs(alloc)? {
            return Err(EndsFault::NoInput);
        }
        if 1 < self.standard_inputs() || 1 < self.standard_outputs() {
            return Err(EndsFault::StreamTwice);
        }
        if self.writes_twice(alloc, file)? {
            return Err(EndsFault::FileTwice);
        }
        Ok(())
    }

    // Whether two files are named for the marks, the items or the tags of one block.
    fn names_block_twice(&self, alloc: Global) -> Result<bool, AllocError> {
        if names_twice(alloc, &self.marks)? || names_twice(alloc, &self.outputs)? {
            return Ok(true);
        }
        names_twice(alloc, &self.tags)
    }

    // Whether each block that has marks has an input.
    fn marks_have_inputs(&self, alloc: Global) -> Result<bool, AllocError> {
        let fed = sorted_blocks(alloc, &self.inputs)?;
        Ok(self.marks.iter().all(|end| is_among(&fed, end.block)))
    }

    // Whether a file would be written by two outputs, or read and written.
    fn writes_twice(&self, alloc: Global, file: &str) -> Result<bool, AllocError> {
        let mut written = Vec::new(alloc);
        for end in self.outputs.iter().chain(self.tags.iter()) {
            if end.is_kept() {
                written.reserve(1)?;
                written.push_reserved(end.path);
            }
        }
        written.sort_unstable();
        if stand_side_by_side(&written) || is_among(&written, file) {
            return Ok(true);
        }
        let mut read = self.inputs.iter().chain(self.marks.iter());
        Ok(read.any(|end| is_among(&written, end.path)))
    }

    /// Whether there are none.
    pub fn are_none(&self) -> bool
        ensures { IsTrue result ↔ ((vec_len self.now.inputs ≡ 0) × (vec_len self.now.marks ≡ 0)
            × (vec_len self.now.outputs ≡ 0) × (vec_len self.now.tags ≡ 0)) }
    {
        self.inputs.is_empty()
            && self.marks.is_empty()
            && self.outputs.is_empty()
            && self.tags.is_empty()
    }

    /// Whether more than one source has inputs.
    pub fn feed_several(&self) -> bool {
        match self.inputs.first() {
            Some(first) => self.inputs.iter().any(|end| end.block != first.block),
            None => false,
        }
    }

    /// Whether standard input has items or marks.
    pub fn use_input(&self) -> bool {
        0 < self.standard_inputs()
    }

    /// Whether standard output has items or tags.
    pub fn use_output(&self) -> bool {
        0 < self.standard_outputs()
    }

    fn standard_inputs(&self) -> usize {
        standard_ends(&self.inputs).saturating_add(standard_ends(&self.marks))
    }

    fn standard_outputs(&self) -> usize {
        standard_ends(&self.outputs).saturating_add(standard_ends(&self.tags))
    }
}

// Adds the ends of words, each split at its first `=`.
fn add_ends<'a>(ends: &mut Vec<NamedEnd<'a>>, words: Option<&[&'a str]>) -> Result<(), EndsFault> {
    let Some(words) = words else {
        return Ok(());
    };
    for word in words {
        let Some((block, path)) = word.split_once('=') else {
            return Err(EndsFault::NoPath);
        };
        ends.reserve(1)?;
        ends.push_reserved(NamedEnd { block, path });
    }
    Ok(())
}

// Whether two ends are of one block.
fn names_twice(alloc: Global, ends: &[NamedEnd<'_>]) -> Result<bool, AllocError> {
    let blocks = sorted_blocks(alloc, ends)?;
    Ok(stand_side_by_side(&blocks))
}

// The blocks of ends, in the order of their names.
fn sorted_blocks<'a>(alloc: Global, ends: &[NamedEnd<'a>]) -> Result<Vec<&'a str>, AllocError> {
    let mut blocks = Vec::new(alloc);
    for end in ends {
        blocks.reserve(1)?;
        blocks.push_reserved(end.block);
    }
    blocks.sort_unstable();
    Ok(blocks)
}

/// Whether two equal ones stand side by side.
pub fn stand_side_by_side<T: PartialEq>(sorted: &[T]) -> bool {
    for pair in sorted.windows(2) {
        if let [first, second] = pair {
            if first == second {
                return true;
            }
        }
    }
    false
}

// Whether a name is one of these, which are sorted.
fn is_among(names: &[&str], name: &str) -> bool {
    names.binary_search(&name).is_ok()
}

// How many ends are the standard stream.
fn standard_ends(ends: &[NamedEnd<'_>]) -> usize {
    let mut count = 0usize;
    for end in ends {
        if end.is_standard() {
            count = count.saturating_add(1);
        }
    }
    count
}
