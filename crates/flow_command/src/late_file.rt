//! Files that are opened when they are first used.

use std::fs::File;
use std::io::{Read, Write};
use std::{fs, io};

/// A file, or a pipe of this path that is not opened yet. Opening a pipe waits until a program opens its other side, so
/// it is left to the first read, or to the first write or flush.
#[derive(Drop)]
pub enum LateFile {
    Open(File),
    Pipe(HostRuntime, String),
}

impl LateFile {
    /// Whether a read may wait, as on a pipe or a terminal: the file is not known to be a regular one.
    pub fn may_be_silent(&self) -> bool {
        match self {
            LateFile::Open(file) => match file.metadata() {
                Ok(found) => !found.is_file(),
                Err(_) => true,
            },
            LateFile::Pipe(..) => true,
        }
    }
}

impl Read for LateFile {
    fn read(&mut self, buf: &mut [u8]) -> io::Result<usize> {
        let opened = match self {
            LateFile::Open(file) => return file.read(buf),
            LateFile::Pipe(rt, path) => fs::open(rt, path.as_str())?,
        };
        let mut file = opened;
        let read = file.read(buf);
        *self = LateFile::Open(file);
        read
    }
}

impl Write for LateFile {
    fn write(&mut self, buf: &[u8]) -> io::Result<usize> {
        let opened = match self {
            LateFile::Open(file) => return file.write(buf),
            LateFile::Pipe(rt, path) => fs::create(rt, path.as_str())?,
        };
        let mut file = opened;
        let written = file.write(buf);
        *self = LateFile::Open(file);
        written
    }

    fn flush(&mut self) -> io::Result<()> {
        let opened = match self {
            LateFile::Open(file) => return file.flush(),
            LateFile::Pipe(rt, path) => fs::create(rt, path.as_str())?,
        };
        *self = LateFile::Open(opened);
        Ok(())
    }
}
