//! The tape of a source, and who has it.

ghost use Rattle.std.specs.Prelude.{◌≡◌, ◌≤◌, length, map, true, IfOk, OnOk, OnErr};
ghost use Rattle.std.specs.Arc.{arc_value};
ghost use Rattle.items.specs.Items.{type_of, numbers_of};
ghost use Rattle.plant_storage.specs.Marks.{mark_of};
ghost use Rattle.plant_storage.specs.Tapes.{blank_tape, longer_tape, shorter_tape};
ghost use Rattle.plant_storage.specs.SourceTapes.{tape_in, is_own};

use crate::tape::Tape;
use items::{ItemType, Items, Mark};
use std::alloc::{AllocError, Global};
use std::ops::Deref;
use std::sync::Arc;

/// The tape of a source. A plant that forgets has it alone, so that forgetting takes no memory; else it is shared with
/// the copies that are made of it, until either is fed.
#[derive(Debug, Drop)]
pub enum SourceTape {
    /// A copy of it has memory of its own.
    Own(Tape),
    /// A copy shares it.
    Shared(Arc<Tape, Global>),
}

impl Deref for SourceTape {
    ghost use Rattle.std.specs.Prelude.{◌≡◌};
    ghost use Rattle.plant_storage.specs.SourceTapes.{tape_in};

    type Target = Tape;

    ghost deref_gives = { λ source tape. tape ≡ tape_in source };

    fn deref(&self) -> &Tape
        ensures { result.now ≡ tape_in self.now }
    {
        match self {
            SourceTape::Own(tape) => tape,
            SourceTape::Shared(shared) => shared,
        }
    }
}

impl SourceTape {
    /// A tape without items, which is to be its owner's alone or not. It takes no memory in the first case, and fails
    /// only where the allocator refuses.
    pub fn new(alloc: Global, item: ItemType, own: bool) -> Result<SourceTape, AllocError>
        ensures blank { IfOk result (λ source. tape_in source ≡ blank_tape item) }
        ensures own { IfOk result (λ source. is_own source ≡ own) }
    {
        let tape = Tape::new(alloc, item);
        if own {
            Ok(SourceTape::Own(tape))
        } else {
            Ok(SourceTape::Shared(shared(alloc, tape)?))
        }
    }

    /// Puts items at its end, with each mark as a tag of the source. One that is shared is copied first. An `Err`
    /// changes nothing.
    pub fn feed(&mut self, source: u32, items: &Items, marks: &[Mark]) -> Result<(), AllocError>
        requires { type_of items.now ≡ (tape_in self.old).item }
        ensures ok { OnOk result (tape_in self.new ≡ longer_tape (tape_in self.old) source (numbers_of items.now)
            (map mark_of marks.now)) }
        ensures err { OnErr result (tape_in self.new ≡ tape_in self.old) }
        ensures own { is_own self.new ≡ is_own self.old }
    {
        match self {
            SourceTape::Own(tape) => tape.feed(source, items, marks),
            SourceTape::Shared(tape) => feed_shared(tape, source, items, marks),
        }
    }

    /// Its items before `to` are forgotten, and the tags on them. It takes no memory.
    pub fn forget(&mut self, to: u64)
        requires own { is_own self.old ≡ true }
        requires kept { (tape_in self.old).from ≤ to }
        requires within { to ≤ length (tape_in self.old).items }
        ensures tape { tape_in self.new ≡ shorter_tape (tape_in self.old) to }
        ensures own { is_own self.new ≡ true }
    {
        match self {
            SourceTape::Own(tape) => tape.forget(to),
            SourceTape::Shared(_) => unreachable!(),
        }
    }

    /// The tape, to be shared: a copy of it where it is its owner's alone. It fails only where the allocator refuses.
    pub fn share(&self, alloc: Global) -> Result<Arc<Tape, Global>, AllocError>
        ensures { IfOk result (λ shared. arc_value shared ≡ tape_in self.now) }
    {
        match self {
            SourceTape::Own(tape) => shared(alloc, tape.copy(alloc)?),
            SourceTape::Shared(shared) => Arc::try_clone(shared),
        }
    }
}

// A tape that may be shared from now on.
fn shared(alloc: Global, tape: Tape) -> Result<Arc<Tape, Global>, AllocError>
    ensures { IfOk result (λ shared. arc_value shared ≡ tape) }
{
    match Arc::new(alloc, tape) {
        Ok(shared) => Ok(shared),
        Err(_) => Err(AllocError),
    }
}

// Puts items and marks on a tape, which is copied first where another has it too.
fn feed_shared(
    tape: &mut Arc<Tape, Global>,
    source: u32,
    items: &Items,
    marks: &[Mark],
) -> Result<(), AllocError>
    requires { type_of items.now ≡ (arc_value tape.old).item }
    ensures ok { OnOk result (arc_value tape.new ≡ longer_tape (arc_value tape.old) source (numbers_of items.now)
        (map mark_of marks.now)) }
    ensures err { OnErr result (arc_value tape.new ≡ arc_value tape.old) }
{
    Arc::make_mut(tape)?.feed(source, items, marks)
}
