//! A writer with a limit.

ghost use Rattle.std.specs.Prelude.{◌≤◌};

use std::io;
use std::io::Write;

/// A writer that passes on at most so many bytes, and leaves out the rest.
#[derive(Drop)]
pub struct Limited<W> {
    most: u64,
    writer: W,
}

impl<W> Limited<W> {
    /// The writer, with this limit of bytes.
    pub fn new(writer: W, most: u64) -> Limited<W> {
        Limited { most, writer }
    }
}

impl<W: Write> Write for Limited<W> {
    fn write(&mut self, buf: &[u8]) -> io::Result<usize> {
        let most = at_most(buf.len(), self.most);
        if most == 0 {
            return Ok(buf.len());
        }
        let count = self.writer.write(&buf[..most])?;
        self.most = self.most.saturating_sub(count as u64);
        Ok(count)
    }

    fn flush(&mut self) -> io::Result<()> {
        self.writer.flush()
    }
}

// The least of both.
fn at_most(count: usize, most: u64) -> usize
    ensures { result ≤ count }
{
    count.min(usize::try_from(most).unwrap_or(usize::MAX))
}
