//! What was read and is in no piece.

use std::io;

/// Bytes that were read, and why the read after them failed, if it did. Whoever reads on in place of the pieces gets
/// these first.
#[derive(Drop)]
pub struct Unread {
    pub bytes: Vec<u8>,
    pub failure: Option<io::Error>,
}
