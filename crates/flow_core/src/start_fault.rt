//! Why the program does not begin a command.

ghost use Rattle.std.specs.Prelude.{◌≡◌};
ghost use Rattle.flow_core.specs.Starts.{start_text, start_status, words_fault, call_fault, file_fault, trace_fault};

use std::io::ErrorKind;

/// Why no command begins.
#[derive(Clone, Copy, Debug, PartialEq, Eq)]
pub enum StartFault {
    /// A word is no UTF-8.
    NoText,
    /// The words ask for nothing that the program does. The parser of words has a text for that.
    BadWords,
    /// The graph file could not be read.
    NoFile,
    /// The file of a trace could not be made, or a write to it failed after the run.
    NoTrace,
    /// Standard output did not take what a command without a graph file prints.
    NoOutput,
    /// Memory ran out.
    Memory,
}

impl StartFault {
    /// Why the words could not be read.
    pub fn of_words(kind: ErrorKind) -> StartFault
        ensures { result ≡ words_fault kind }
    {
        match kind {
            ErrorKind::InvalidData => StartFault::NoText,
            _ => StartFault::Memory,
        }
    }

    /// Why the words make no call.
    pub fn of_call(is_out_of_memory: bool) -> StartFault
        ensures { result ≡ call_fault is_out_of_memory }
    {
        if is_out_of_memory {
            StartFault::Memory
        } else {
            StartFault::BadWords
        }
    }

    /// Why the file of a trace could not be made.
    pub fn of_trace(kind: ErrorKind) -> StartFault
        ensures { result ≡ trace_fault kind }
    {
        match kind {
            ErrorKind::OutOfMemory => StartFault::Memory,
            _ => StartFault::NoTrace,
        }
    }

    /// Why the graph file could not be read.
    pub fn of_file(kind: ErrorKind) -> StartFault
        ensures { result ≡ file_fault kind }
    {
        match kind {
            ErrorKind::OutOfMemory => StartFault::Memory,
            _ => StartFault::NoFile,
        }
    }

    /// The text of the fault, with the end of its line; empty for bad words.
    pub fn text(self) -> &'static str
        ensures { result.now ≡ start_text self }
    {
        match self {
            StartFault::NoText => "error: a word is no UTF-8\n",
            StartFault::BadWords => "",
            StartFault::NoFile => "flow: refused 51 Read\n",
            StartFault::NoTrace => "flow: refused 52 Write trace\n",
            StartFault::NoOutput => "flow: refused 52 Write\n",
            StartFault::Memory => "flow: refused 32 Memory\n",
        }
    }

    /// The exit status for the fault: 2 for words, 4 for memory and devices.
    pub fn status(self) -> u8
        ensures { result ≡ start_status self }
    {
        match self {
            StartFault::NoText | StartFault::BadWords => 2,
            StartFault::NoFile | StartFault::NoTrace | StartFault::NoOutput | StartFault::Memory =>
                4,
        }
    }
}
