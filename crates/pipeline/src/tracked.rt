//! Readers that know whether a read of them failed.

ghost use Rattle.std.specs.Prelude.{◌≡◌, true, false, is_ok, if◌then◌else◌};
ghost use Rattle.std.specs.Io.{ReadsAtMost};
ghost use Rattle.std.specs.Io.KnownBytes.{ReadConsumes};

use std::io;
use std::io::Read;

/// A reader, and whether a read of it failed. Only `read` reads it, so no failure passes unseen.
#[derive(Drop)]
pub struct Tracked<R> {
    reader: R,
    has_failed: bool,
}

impl<R> Tracked<R> {
    /// A reader that was not read.
    pub(crate) fn new(reader: R) -> Tracked<R>
        ensures { result ≡ record { reader = reader; has_failed = false } }
    {
        Tracked {
            reader,
            has_failed: false,
        }
    }

    /// The reader.
    pub(crate) fn reader(&self) -> &R
        ensures { result.now ≡ self.now.reader }
    {
        &self.reader
    }
}

impl<R: Read> Tracked<R> {
    /// Reads once.
    pub(crate) fn read(&mut self, buf: &mut [u8]) -> io::Result<usize>
        ensures bound { ReadsAtMost result buf.new }
        ensures bytes { ReadConsumes (R.remaining self.old.reader) (R.remaining self.new.reader) result buf.new }
        ensures noted { self.new.has_failed ≡ (if is_ok result then self.old.has_failed else true) }
    {
        match self.reader.read(buf) {
            Ok(count) => Ok(count),
            Err(error) => {
                self.has_failed = true;
                Err(error)
            }
        }
    }
}
