//! A call that tells where a graph file is refused.

ghost use Rattle.std.specs.Prelude.{◌≡◌};
ghost use Rattle.magbelu_c.specs.FaultPlaces.{TellsFault, TellsPlace, nowhere};

use crate::idle::Idle;
use crate::shows::show;
use diagnostics::{Place, place_of};
use flow_core::fault::Fault;
use graph_file::FileFault;
use refusal_codes::Refusal;
use std::alloc::Global;

/// Where a graph file is refused. Lines and columns count from 1, columns and lengths characters.
#[repr(C)]
#[derive(Clone, Copy, Debug, PartialEq, Eq)]
pub struct FaultPlace {
    /// 0; 1 for a refusal; 4 where memory ran out.
    pub status: u32,
    /// The number of the refusal, or 0.
    pub number: u32,
    /// The line, or 0 where nothing is refused or memory ran out.
    pub line: usize,
    /// The first character of the word that is at fault.
    pub column: usize,
    /// How many characters it has on that line; 1 where no word stands there.
    pub length: usize,
    /// How many bytes the reason has.
    pub why_len: usize,
}

/// Tells whether the plant of a graph file can be opened. Where it cannot, the place in the file is told, and the
/// reason is put at the front of a buffer, where it fits. Both are left out where memory runs out for them.
#[unsafe(no_mangle)]
pub extern "C" fn magbelu_bytes_place(alloc: Global, file: &[u8], why: &mut [u8]) -> FaultPlace
    ensures { TellsPlace file.now why.old why.new result }
{
    let fault = match Idle::open(alloc, file) {
        Ok(_) => return nowhere(),
        Err(fault) => fault,
    };
    let place = place_in(alloc, file, &fault);
    told(&Fault::File(fault), &place, why)
}

// The place at which a file is refused, or none, with no reason, where memory runs out.
fn place_in(alloc: Global, file: &[u8], fault: &FileFault) -> Place {
    match place_of(alloc, file, fault) {
        Ok(place) => place,
        Err(_) => Place {
            line: 0,
            column: 0,
            length: 0,
            message: String::new(alloc),
        },
    }
}

// A fault, and the place of it, with the reason in a buffer.
fn told(fault: &Fault, place: &Place, why: &mut [u8]) -> FaultPlace
    ensures { TellsFault fault.now why.old why.new result }
{
    let reason = place.message.as_bytes();
    show(reason, why);
    FaultPlace {
        status: u32::from(fault.status()),
        number: fault.number(),
        line: place.line,
        column: place.column,
        length: place.length,
        why_len: reason.len(),
    }
}

// Nothing is refused.
fn nowhere() -> FaultPlace
    ensures { result ≡ nowhere }
{
    FaultPlace {
        status: 0,
        number: 0,
        line: 0,
        column: 0,
        length: 0,
        why_len: 0,
    }
}
