//! Where bytes come from and where they go. A failed call is counted, so that a caller can tell that one failed.
ghost use Rattle.std.specs.Prelude.{◌≡◌, ℕ, ◌+◌, ◌-◌, ◌^◌, ◌<◌, ◌≤◌, List, Option, length, is_ok, if◌then◌else◌, OnOk, OnErr, IfOk};
ghost use Rattle.std.specs.Io.KnownBytes.{Appends, Keeps, ReadConsumes};
ghost use Rattle.byte_io.specs.Ends.{AppendsBeginning};

use std::io;
use std::io::{ErrorKind, Read, Write};

/// A read or a write failed.
#[derive(Clone, Copy, Debug, PartialEq, Eq)]
pub struct Broken;

/// A source of bytes.
pub trait ByteIn {
    // The bytes that are left, where the type says.
    ghost remaining: { Self → Option (List ℕ) };

    // How many reads failed.
    ghost failed: { Self → ℕ };

    /// Reads some bytes into the front of the buffer, and says how many. A failed read takes none.
    fn read(&mut self, buffer: &mut [u8]) -> Result<usize, Broken>
        requires { failed self.old < 2 ^ 64 - 1 }
        ensures bound { IfOk result (λ n. n ≤ length buffer.new) }
        ensures bytes { ReadConsumes (remaining self.old) (remaining self.new) result buffer.new }
        ensures counted { failed self.new ≡ (if is_ok result then failed self.old else failed self.old + 1) };

    /// How many reads failed.
    fn failures(&self) -> u64
        ensures { result ≡ failed self.now };
}

/// A place that bytes go to.
pub trait ByteOut {
    // The bytes that were written, where the type says.
    ghost contents: { Self → Option (List ℕ) };

    // How many writes failed.
    ghost failed: { Self → ℕ };

    /// Writes the piece, all of it. A failed write may have written a beginning.
    fn write(&mut self, piece: &[u8]) -> Result<(), Broken>
        requires { failed self.old < 2 ^ 64 - 1 }
        ensures ok { OnOk result (Appends (contents self.old) (contents self.new) piece.now) }
        ensures err { OnErr result (AppendsBeginning (contents self.old) (contents self.new) piece.now) }
        ensures counted { failed self.new ≡ (if is_ok result then failed self.old else failed self.old + 1) };

    /// How many writes failed.
    fn failures(&self) -> u64
        ensures { result ≡ failed self.now };
}

/// A reader as a source of bytes. No failed read is tried again, an interrupted one neither.
#[derive(Debug, Drop)]
pub struct ReadEnd<R> {
    pub reader: R,
    pub failures: u64,
}

impl<R: Read> ReadEnd<R> {
    /// The reader, of which no read failed.
    pub fn new(reader: R) -> ReadEnd<R>
        ensures { result ≡ record { reader = reader; failures = 0 } }
    {
        ReadEnd {
            reader,
            failures: 0,
        }
    }
}

impl<R: Read> ByteIn for ReadEnd<R> {
    ghost remaining = { λ s. R.remaining s.reader };

    ghost failed = { λ s. s.failures };

    fn read(&mut self, buffer: &mut [u8]) -> Result<usize, Broken> {
        match self.reader.read(buffer) {
            Ok(n) => Ok(n),
            Err(_) => {
                self.failures += 1;
                Err(Broken)
            }
        }
    }

    fn failures(&self) -> u64 {
        self.failures
    }
}

/// A writer as a place for bytes. A write that takes nothing failed. No failed write is tried again, an interrupted one
/// neither.
#[derive(Debug, Drop)]
pub struct WriteEnd<W> {
    pub writer: W,
    pub failures: u64,
}

impl<W: Write> WriteEnd<W> {
    /// The writer, of which no write failed.
    pub fn new(writer: W) -> WriteEnd<W>
        ensures { result ≡ record { writer = writer; failures = 0 } }
    {
        WriteEnd {
            writer,
            failures: 0,
        }
    }

    /// Hands on what the writer still holds back. A flush that failed is counted as a write that failed.
    pub fn flush(&mut self) -> Result<(), Broken>
        requires { self.old.failures < 2 ^ 64 - 1 }
        ensures kept { Keeps (W.contents self.old.writer) (W.contents self.new.writer) }
        ensures counted { self.new.failures ≡ (if is_ok result then self.old.failures else self.old.failures + 1) }
    {
        match self.writer.flush() {
            Ok(()) => Ok(()),
            Err(_) => {
                self.failures += 1;
                Err(Broken)
            }
        }
    }
}

impl<W: Write> ByteOut for WriteEnd<W> {
    ghost contents = { λ s. W.contents s.writer };

    ghost failed = { λ s. s.failures };

    fn write(&mut self, piece: &[u8]) -> Result<(), Broken> {
        match write_whole(&mut self.writer, piece) {
            Ok(()) => Ok(()),
            Err(_) => {
                self.failures += 1;
                Err(Broken)
            }
        }
    }

    fn failures(&self) -> u64 {
        self.failures
    }
}

/// Writes all of the piece. A write that takes nothing failed. No failed write is tried again, an interrupted one
/// neither, and before it a beginning may have been written.
pub fn write_whole<W: Write>(writer: &mut W, piece: &[u8]) -> io::Result<()>
    ensures ok { OnOk result (Appends (W.contents writer.old) (W.contents writer.new) piece.now) }
    ensures err { OnErr result (AppendsBeginning (W.contents writer.old) (W.contents writer.new) piece.now) }
{
    let mut done = 0;
    while done < piece.len() {
        let n = writer.write(&piece[done..])?;
        if n == 0 {
            return Err(io::Error::from(ErrorKind::WriteZero));
        }
        done += n;
    }
    Ok(())
}
