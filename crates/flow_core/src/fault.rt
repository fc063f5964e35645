//! Why the program stops, and how it says so.

ghost use Rattle.std.specs.Prelude.{◌≡◌};
ghost use Rattle.flow_core.specs.declared.fault.Fault.TheVariants.{File, Script};
ghost use Rattle.flow_core.specs.declared.script.ScriptFault.TheVariants.{Memory};

use crate::script::ScriptFault;
use graph_file::FileFault;
use refusal_codes::{Refusal, RefusalText};
use std::alloc::AllocError;
use std::fmt;
use thiserror::Error;

/// The number by which a file reports that memory ran out.
pub const NO_MEMORY: u32 = 32;

/// Why a command stopped. Its text is the number of the refusal, its name, and what the name does not say.
#[derive(Debug, Drop, Error)]
pub enum Fault {
    /// The graph file is refused.
    File(FileFault),
    /// A line is refused, or a device or memory failed.
    Script(ScriptFault),
}

impl Refusal for Fault {
    ghost use Rattle.flow_core.specs.Faults.{row_of};

    ghost row = { row_of };

    fn row(&self) -> (u32, &'static str) {
        match self {
            Fault::File(fault) => fault.row(),
            Fault::Script(fault) => fault.row(),
        }
    }
}

impl Fault {
    ghost use Rattle.refusal_codes.specs.Texts.{refusal_text};
    ghost use Rattle.flow_core.specs.Faults.{fault_text, file_of, status_of};

    /// The exit status for the fault: 4 for memory and devices, 1 for every other refusal.
    pub fn status(&self) -> u8
        ensures { result ≡ status_of self.now }
    {
        match self {
            Fault::File(fault) if fault.number() == NO_MEMORY => 4,
            Fault::File(_) | Fault::Script(ScriptFault::BadLine(_)) => 1,
            Fault::Script(ScriptFault::Read | ScriptFault::Write | ScriptFault::Memory) => 4,
        }
    }

    /// The place of the fault: this name of the graph file, or nothing if the file is not to blame.
    pub fn found_in<'a>(&self, name: &'a str) -> &'a str
        ensures { result.now ≡ file_of name.now self.now }
    {
        match self {
            Fault::File(_) => name,
            Fault::Script(_) => "",
        }
    }

    /// The text of the fault in parts. It takes no memory.
    pub fn refusal_text(&self) -> RefusalText<'_>
        ensures { refusal_text result ≡ fault_text self.now }
    {
        match self {
            Fault::File(fault) => fault.refusal_text(),
            Fault::Script(fault) => fault.refusal_text(),
        }
    }
}

impl From<FileFault> for Fault {
    ghost from_gives = { λ fault e. e ≡ File fault };

    fn from(fault: FileFault) -> Fault {
        Fault::File(fault)
    }
}

impl From<ScriptFault> for Fault {
    ghost from_gives = { λ fault e. e ≡ Script fault };

    fn from(fault: ScriptFault) -> Fault {
        Fault::Script(fault)
    }
}

impl From<AllocError> for Fault {
    ghost from_gives = { λ _ e. e ≡ Script Memory };

    fn from(_refusal: AllocError) -> Fault {
        Fault::Script(ScriptFault::Memory)
    }
}

impl fmt::Display for Fault {
    ghost use Rattle.std.specs.Prelude.{Some};
    ghost use Rattle.flow_core.specs.Faults.{fault_text};

    ghost output = { λ fault. Some (fault_text fault) };

    fn fmt<W: fmt::Write>(&self, f: &mut fmt::Formatter<W>) -> fmt::Result {
        let text = self.refusal_text();
        write!(f, "{text}")
    }
}
