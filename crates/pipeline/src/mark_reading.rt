//! The lines of marks, taken one by one.

ghost use Rattle.std.specs.Prelude.{◌≡◌, ℕ, suc, true, false, [], None, Some, IsSome, IfErr, OnOk, OnErr};
ghost use Rattle.std.specs.Option.{option_map};
ghost use Rattle.std.specs.Io.KnownBytes.{IsAtEnd};
ghost use Rattle.script_text.specs.Splits.{IsUnfinished};
ghost use Rattle.pipeline.specs.Faults.{IsOfMarks, NotesMarks};
ghost use Rattle.pipeline.specs.MarkFaults.{IsGivenTo, KeepsGiven, NamesFirst, Never, Reaches, Refuses};
ghost use Rattle.pipeline.specs.MarkLines.{mark_held, saying_seen};
ghost use Rattle.pipeline.specs.Marks.{Follows, Gives, IsOver, IsRead};

use crate::fault::PipelineFault;
use crate::intake::PIECE;
use crate::mark_line::MarkLine;
use crate::marks::MarkReader;
use flowgraph::BlockId;
use script_text::FirstLine;
use std::io::Read;

impl<R: Read> MarkReader<R> {
    // Unless a mark is held, reads up to the next one, or to a line by which all marks below item `end` of the part
    // were there, or to the end of the reader.
    pub(crate) fn find(&mut self, source: BlockId, end: Option<u64>) -> Result<(), PipelineFault>
        ensures ok { OnOk result (Gives R.remaining self.old self.new []) }
        ensures reaches { OnOk result (self.new.held ≡ None → Reaches end self.new) }
        ensures over { OnOk result (self.new.held ≡ None → self.new.is_over ≡ true → IsOver self.new) }
        ensures keeps { OnOk result (KeepsGiven self.old self.new) }
        ensures same { (n : ℕ) → end ≡ Some n → IsGivenTo n self.old → self.new ≡ self.old }
        ensures err { OnErr result (IsRead R.remaining self.old self.new) }
        ensures fault { IfErr result (IsOfMarks source) }
        ensures stays { OnOk result (self.new.has_failed ≡ self.old.has_failed) }
        ensures noted { IfErr result (NotesMarks self.old.has_failed self.new.has_failed) }
        ensures first { IfErr result (NamesFirst R.remaining Never self.old self.new) }
    {
        for _pieces in 0..u64::MAX {
            if self.held.is_some() || self.is_over || self.reaches(end) {
                return Ok(());
            }
            self.read_on(source)?;
        }
        // No reader gives so many pieces without a line.
        Err(PipelineFault::Memory)
    }

    // Whether the lines that were taken say that all marks below item `end` of the part were there.
    fn reaches(&self, end: Option<u64>) -> bool
        ensures yes { result ≡ true → Reaches end self.now }
        ensures no { result ≡ false → self.now.is_over ≡ false → Reaches end self.now → ⊥ }
    {
        match (end, self.least.checked_sub(self.part.origin)) {
            (Some(end), Some(least)) => end <= least,
            _ => false,
        }
    }

    // Takes the next line, or reads a piece if its end has not come.
    fn read_on(&mut self, source: BlockId) -> Result<(), PipelineFault>
        requires goes_on { self.old.is_over ≡ false }
        requires none { self.old.held ≡ None }
        ensures ok { OnOk result (Gives R.remaining self.old self.new []) }
        ensures keeps { OnOk result (KeepsGiven self.old self.new) }
        ensures err { OnErr result (IsRead R.remaining self.old self.new) }
        ensures fault { IfErr result (IsOfMarks source) }
        ensures stays { OnOk result (self.new.has_failed ≡ self.old.has_failed) }
        ensures noted { IfErr result (NotesMarks self.old.has_failed self.new.has_failed) }
        ensures first { IfErr result (NamesFirst R.remaining Never self.old self.new) }
    {
        let taken = self.lines.taken();
        if taken == u64::MAX {
            return Err(PipelineFault::Memory);
        }
        let number = taken + 1;
        match self.lines.take_line() {
            FirstLine::Whole => {
                let said = MarkLine::parse(self.lines.line());
                self.hold(source, number, said)
            }
            FirstLine::TooLong => Err(PipelineFault::BadMark(source, number)),
            FirstLine::Unfinished => self.read_piece(source, number),
        }
    }

    // Reads once, for the line of this number.
    fn read_piece(&mut self, source: BlockId, number: u64) -> Result<(), PipelineFault>
        requires goes_on { self.old.is_over ≡ false }
        requires none { self.old.held ≡ None }
        requires unfinished { IsUnfinished self.old.rest }
        requires next { number ≡ suc self.old.taken }
        ensures ok { OnOk result (Gives R.remaining self.old self.new []) }
        ensures keeps { OnOk result (KeepsGiven self.old self.new) }
        ensures err { OnErr result (IsRead R.remaining self.old self.new) }
        ensures fault { IfErr result (IsOfMarks source) }
        ensures stays { OnOk result (self.new.has_failed ≡ self.old.has_failed) }
        ensures noted { IfErr result (NotesMarks self.old.has_failed self.new.has_failed) }
        ensures first { IfErr result (NamesFirst R.remaining Never self.old self.new) }
    {
        let piece: &mut [u8; PIECE] = &mut self.piece;
        let count = match self.reader.read(piece) {
            Ok(count) => count,
            Err(error) => return Err(PipelineFault::ReadMarks(source, error)),
        };
        if count == 0 {
            return self.end_lines(source, number);
        }
        self.lines.push(&piece[..count]);
        Ok(())
    }

    // Takes the line of this number. It ends with the bytes, since the reader is at its end.
    fn end_lines(&mut self, source: BlockId, number: u64) -> Result<(), PipelineFault>
        requires goes_on { self.old.is_over ≡ false }
        requires none { self.old.held ≡ None }
        requires unfinished { IsUnfinished self.old.rest }
        requires at_end { IsAtEnd (R.remaining self.old.reader) }
        requires next { number ≡ suc self.old.taken }
        ensures ok { OnOk result (Gives R.remaining self.old self.new []) }
        ensures keeps { OnOk result (KeepsGiven self.old self.new) }
        ensures err { OnErr result (IsRead R.remaining self.old self.new) }
        ensures fault { IfErr result (IsOfMarks source) }
        ensures stays { OnOk result (self.new.has_failed ≡ self.old.has_failed) }
        ensures noted { IfErr result (NotesMarks self.old.has_failed self.new.has_failed) }
        ensures first { IfErr result (NamesFirst R.remaining Never self.old self.new) }
    {
        self.is_over = true;
        match self.lines.last_line() {
            Some(line) => {
                let said = MarkLine::parse(line);
                self.hold(source, number, said)
            }
            None => Ok(()),
        }
    }

    // Minds what a line says, and holds its mark.
    fn hold(
        &mut self,
        source: BlockId,
        line: u64,
        said: Option<MarkLine>,
    ) -> Result<(), PipelineFault>
        ensures some { OnOk result (IsSome said) }
        ensures ok { OnOk result (self.new ≡ record self.old {
          held = mark_held (option_map saying_seen said);
          line = line;
          least = self.new.least;
        }) }
        ensures follows { OnOk result (Follows self.old.least (option_map saying_seen said) self.new.least) }
        ensures err { OnErr result (self.new ≡ self.old) }
        ensures fault { IfErr result (IsOfMarks source) }
        ensures refused { IfErr result (Refuses self.old.least line (option_map saying_seen said)) }
    {
        let Some(said) = said else {
            return Err(PipelineFault::BadMark(source, line));
        };
        if said.item() < self.least {
            return Err(PipelineFault::MarkPlace(source, line));
        }
        self.line = line;
        self.least = said.item();
        self.held = said.mark();
        Ok(())
    }
}
