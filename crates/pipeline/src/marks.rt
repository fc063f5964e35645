//! The marks of a source, read as lines.

ghost use Rattle.std.specs.Prelude.{◌≡◌, ℕ, ◌≤◌, true, false, [], None, Some, IsSome, IfErr, IfOk, OnOk, OnErr};
ghost use Rattle.std.specs.List.{All};
ghost use Rattle.std.specs.Option.{option_map};
ghost use Rattle.stream_model.specs.Tags as model;
ghost use Rattle.script_text.specs.Commands.{mark_seen, marks_seen};
ghost use Rattle.pipeline.specs.Faults.{IsOfMarks, NotesMarks};
ghost use Rattle.pipeline.specs.MarkFaults.{AreGivenTo, IsBefore, IsBehind, IsGivenTo, IsWithin, KeepsGiven, NameFirst, NamesFirst, Never, Passes, Reaches};
ghost use Rattle.pipeline.specs.Marks.{AreOver, AreRead, FindsMarks, GivesTo, IsOver, IsRead, have_failed, unread};
ghost use Rattle.pipeline.specs.Parts.{mark_behind};

use crate::fault::PipelineFault;
use crate::intake::PIECE;
use crate::part::TapePart;
use crate::tracked::Tracked;
use flowgraph::BlockId;
use items::Mark;
use script_text::LineSplitter;
use std::alloc::{AllocError, Global};
use std::io::Read;
use std::marker::Model;

/// A reader whose lines are marks, or say up to which item all marks were there, in the order of their items.
#[derive(Drop)]
pub struct MarkReader<R> {
    pub(crate) reader: Tracked<R>,
    // Where it puts the bytes of a piece.
    pub(crate) piece: Box<[u8; PIECE]>,
    // Makes lines of its bytes.
    pub(crate) lines: LineSplitter,
    // The mark of the line that was taken last, if it is not fed yet.
    pub(crate) held: Option<Mark>,
    // Whether the reader has no more.
    pub(crate) is_over: bool,
    // The number of the line that was taken last, from 1.
    pub(crate) line: u64,
    // Its item on the whole tape. The next line may not be of an item before it.
    pub(crate) least: u64,
    // The part of the whole tape that the source is fed.
    pub(crate) part: TapePart,
}

impl<R> Model for MarkReader<R> {
    ghost use Rattle.std.specs.Prelude.{◌≡◌, true, false, [], None};
    ghost use Rattle.std.specs.Prelude.{if◌then◌else◌};
    ghost use Rattle.std.specs.Option.{option_map};
    ghost use Rattle.std.specs.Io.KnownBytes.{IsAtEnd};
    ghost use Rattle.script_text.specs.Commands.{mark_seen};
    ghost use Rattle.pipeline.specs.Marks.{Marking};

    ghost Value = { Marking R };

    ghost view = { λ m. record {
      reader = m.reader.reader;
      has_failed = m.reader.has_failed;
      rest = (if m.is_over then [] else m.lines.rest);
      taken = m.lines.taken;
      held = option_map mark_seen m.held;
      is_over = m.is_over;
      line = m.line;
      least = m.least;
      part = m.part;
    } };
}

impl<R: Drop> MarkReader<R> {
    /// A reader that was not read yet, for the marks of this part of a whole tape.
    pub(crate) fn new(alloc: Global, part: TapePart, reader: R) -> Result<MarkReader<R>, AllocError>
        ensures { IfOk result (λ marks. marks ≡ unread part reader) }
    {
        let piece = Box::new(alloc, [0; PIECE])?;
        let lines = LineSplitter::new(alloc)?;
        Ok(MarkReader {
            reader: Tracked::new(reader),
            piece,
            lines,
            held: None,
            is_over: false,
            line: 0,
            least: 0,
            part,
        })
    }
}

impl<R: Read> MarkReader<R> {
    // Appends the marks on items of the part below `end` that were not given yet. None of them may lie on an item below
    // `start`. It reads as far as it has to.
    fn take_below(
        &mut self,
        source: BlockId,
        start: u64,
        end: u64,
        marks: &mut Vec<Mark>,
    ) -> Result<(), PipelineFault>
        ensures ok { OnOk result (GivesTo R.remaining self.old self.new (marks_seen marks.old.items)
            (marks_seen marks.new.items)) }
        ensures given_to { OnOk result (IsGivenTo end self.new) }
        ensures within { OnOk result (All (IsWithin start end) (marks_seen marks.old.items)
            → All (IsWithin start end) (marks_seen marks.new.items)) }
        ensures err { OnErr result (IsRead R.remaining self.old self.new) }
        ensures fault { IfErr result (IsOfMarks source) }
        ensures stays { OnOk result (self.new.has_failed ≡ self.old.has_failed) }
        ensures noted { IfErr result (NotesMarks self.old.has_failed self.new.has_failed) }
        ensures first { IfErr result (NamesFirst R.remaining (IsBefore start self.old) self.old self.new) }
    {
        for _marks in 0..u64::MAX {
            if !self.take_one(source, start, end, marks)? {
                return Ok(());
            }
        }
        // No memory holds so many marks.
        Err(PipelineFault::Memory)
    }

    // Appends the next mark if it lies on an item below `end`, and tells whether it does. It refuses one below `start`.
    fn take_one(
        &mut self,
        source: BlockId,
        start: u64,
        end: u64,
        marks: &mut Vec<Mark>,
    ) -> Result<bool, PipelineFault>
        ensures ok { OnOk result (GivesTo R.remaining self.old self.new (marks_seen marks.old.items)
            (marks_seen marks.new.items)) }
        ensures given_to { IfOk result (λ more. more ≡ false → IsGivenTo end self.new) }
        ensures within { OnOk result (All (IsWithin start end) (marks_seen marks.old.items)
            → All (IsWithin start end) (marks_seen marks.new.items)) }
        ensures err { OnErr result (IsRead R.remaining self.old self.new) }
        ensures fault { IfErr result (IsOfMarks source) }
        ensures stays { OnOk result (self.new.has_failed ≡ self.old.has_failed) }
        ensures noted { IfErr result (NotesMarks self.old.has_failed self.new.has_failed) }
        ensures first { IfErr result (NamesFirst R.remaining (IsBefore start self.old) self.old self.new) }
    {
        self.find_own(source, Some(end))?;
        let Some(mark) = self.held else {
            return Ok(false);
        };
        let own = behind(self.part.origin, mark);
        if own.offset < start {
            return Err(PipelineFault::MarkPlace(source, self.line));
        }
        if end <= own.offset {
            return Ok(false);
        }
        marks.reserve(1)?;
        marks.push_reserved(own);
        self.held = None;
        Ok(true)
    }

    // Refuses a mark that is left behind the last item, if the tape ends there.
    fn end(&mut self, source: BlockId) -> Result<(), PipelineFault>
        ensures ok { OnOk result (GivesTo R.remaining self.old self.new [] []) }
        ensures over { OnOk result (self.new.part.goes_on ≡ false → IsOver self.new) }
        ensures err { OnErr result (IsRead R.remaining self.old self.new) }
        ensures fault { IfErr result (IsOfMarks source) }
        ensures stays { OnOk result (self.new.has_failed ≡ self.old.has_failed) }
        ensures noted { IfErr result (NotesMarks self.old.has_failed self.new.has_failed) }
        ensures first { IfErr result (NamesFirst R.remaining (IsBehind self.old) self.old self.new) }
    {
        if self.part.goes_on {
            return Ok(());
        }
        self.find_own(source, None)?;
        if self.held.is_some() {
            return Err(PipelineFault::MarkPlace(source, self.line));
        }
        Ok(())
    }

    // Unless a mark is held, reads up to the next one that is not before the part, or as far as `find` does. It passes
    // over marks before the part.
    fn find_own(&mut self, source: BlockId, end: Option<u64>) -> Result<(), PipelineFault>
        ensures ok { OnOk result (GivesTo R.remaining self.old self.new [] []) }
        ensures reaches { OnOk result (self.new.held ≡ None → Reaches end self.new) }
        ensures over { OnOk result (self.new.held ≡ None → self.new.is_over ≡ true → IsOver self.new) }
        ensures own { OnOk result ((mark : model.Mark) → self.new.held ≡ Some mark
            → self.old.part.origin ≤ mark.offset) }
        ensures keeps { OnOk result (KeepsGiven self.old self.new) }
        ensures same { (n : ℕ) → end ≡ Some n → IsGivenTo n self.old → self.new ≡ self.old }
        ensures err { OnErr result (IsRead R.remaining self.old self.new) }
        ensures fault { IfErr result (IsOfMarks source) }
        ensures stays { OnOk result (self.new.has_failed ≡ self.old.has_failed) }
        ensures noted { IfErr result (NotesMarks self.old.has_failed self.new.has_failed) }
        ensures first { IfErr result (NamesFirst R.remaining Never self.old self.new) }
    {
        for _marks in 0..u64::MAX {
            self.find(source, end)?;
            if !self.pass() {
                return Ok(());
            }
        }
        // No reader gives so many marks.
        Err(PipelineFault::Memory)
    }

    // Passes over the held mark if it lies before the part, and tells whether it does.
    fn pass(&mut self) -> bool
        ensures passed { result ≡ true → Passes self.old self.new }
        ensures own { result ≡ false → (mark : model.Mark) → self.old.held ≡ Some mark
            → self.old.part.origin ≤ mark.offset }
        ensures same { result ≡ false → self.new ≡ self.old }
    {
        let Some(mark) = self.held else {
            return false;
        };
        if self.part.origin <= mark.offset {
            return false;
        }
        self.held = None;
        true
    }
}

// A mark, by the number of its item from item `origin` on.
fn behind(origin: u64, mark: Mark) -> Mark
    ensures { mark_seen result ≡ mark_behind origin (mark_seen mark) }
{
    Mark {
        offset: mark.offset.saturating_sub(origin),
        key: mark.key,
        value: mark.value,
    }
}

/// Appends the marks on items of the part from `start` to below `end` that were not given yet, if there is a reader of
/// marks.
pub(crate) fn find_marks<R: Read>(
    marks: &mut Option<MarkReader<R>>,
    source: BlockId,
    start: u64,
    end: u64,
    found: &mut Vec<Mark>,
) -> Result<(), PipelineFault>
    requires none { found.old.items ≡ [] }
    ensures ok { OnOk result (FindsMarks R.remaining marks.old marks.new (marks_seen found.new.items)) }
    ensures given_to { OnOk result (AreGivenTo end marks.new) }
    ensures within { OnOk result (All (IsWithin start end) (marks_seen found.new.items)) }
    ensures err { OnErr result (AreRead R.remaining marks.old marks.new) }
    ensures some { OnErr result (IsSome marks.new) }
    ensures fault { IfErr result (IsOfMarks source) }
    ensures stays { OnOk result (have_failed marks.new ≡ have_failed marks.old) }
    ensures noted { IfErr result (NotesMarks (have_failed marks.old) (have_failed marks.new)) }
    ensures first { IfErr result (NameFirst R.remaining (IsBefore start) marks.old marks.new) }
{
    match marks {
        Some(reader) => reader.take_below(source, start, end, found),
        None => Ok(()),
    }
}

/// Refuses a mark that is left behind the last item, if there is a reader of marks and the tape ends there.
pub(crate) fn end_marks<R: Read>(
    marks: &mut Option<MarkReader<R>>,
    source: BlockId,
) -> Result<(), PipelineFault>
    ensures ok { OnOk result (FindsMarks R.remaining marks.old marks.new []) }
    ensures over { OnOk result (AreOver marks.new) }
    ensures err { OnErr result (AreRead R.remaining marks.old marks.new) }
    ensures some { OnErr result (IsSome marks.new) }
    ensures fault { IfErr result (IsOfMarks source) }
    ensures stays { OnOk result (have_failed marks.new ≡ have_failed marks.old) }
    ensures noted { IfErr result (NotesMarks (have_failed marks.old) (have_failed marks.new)) }
    ensures first { IfErr result (NameFirst R.remaining IsBehind marks.old marks.new) }
{
    match marks {
        Some(reader) => reader.end(source),
        None => Ok(()),
    }
}
