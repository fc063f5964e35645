//! Devices, with the reason why one failed.
ghost use Rattle.std.specs.Prelude.{◌≡◌, None};

use crate::looks::shown;
use std::alloc::{AllocError, Global};
use std::io::{Error, Read, Result, Write};

/// A reader or a writer that notes why it failed last.
#[derive(Drop)]
pub struct Noted<D> {
    pub device: D,
    pub reason: Option<Error>,
}

impl<D> Noted<D> {
    /// The device. It has not failed.
    pub fn new(device: D) -> Noted<D>
        ensures { result ≡ record { device = device; reason = None } }
    {
        Noted {
            device,
            reason: None,
        }
    }
}

impl<R: Read> Read for Noted<R> {
    ghost remaining = { λ s. R.remaining s.device };

    fn read(&mut self, buf: &mut [u8]) -> Result<usize> {
        match self.device.read(buf) {
            Ok(count) => Ok(count),
            Err(error) => {
                self.reason = Some(error);
                Err(error)
            }
        }
    }
}

impl<W: Write> Write for Noted<W> {
    ghost contents = { λ s. W.contents s.device };

    fn write(&mut self, buf: &[u8]) -> Result<usize> {
        match self.device.write(buf) {
            Ok(count) => Ok(count),
            Err(error) => {
                self.reason = Some(error);
                Err(error)
            }
        }
    }

    fn flush(&mut self) -> Result<()> {
        match self.device.flush() {
            Ok(()) => Ok(()),
            Err(error) => {
                self.reason = Some(error);
                Err(error)
            }
        }
    }
}

/// The line that names a device or a word of a call, and says why it failed or is refused.
pub fn at_device(
    alloc: Global,
    name: &str,
    reason: &str,
) -> std::result::Result<String, AllocError> {
    let name = shown(alloc, name.as_bytes())?;
    format!(in alloc; " --> {name}: {reason}\n")
}
