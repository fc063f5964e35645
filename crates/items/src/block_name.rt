//! Names of blocks.
ghost use Rattle.std.specs.Prelude.{◌≡◌, ◌↔◌, IsSome, IfSome};
ghost use Rattle.items.specs.Name.{IsName};

use crate::is_name;
use std::marker::Model;

/// How many bytes a name has at most.
const MOST: usize = 32;

/// The name of a block: 1 to 32 bytes, each an ASCII letter, a digit, `_`, `.` or `-`. A contract sees it as its bytes.
#[derive(Debug, Drop)]
pub struct BlockName {
    bytes: [u8; MOST],
    len: usize,
}

impl Model for BlockName {
    ghost use Rattle.std.specs.Prelude.{ℕ, ◌≤◌, List, take};
    ghost use Rattle.items.specs.Name.{IsName};

    ghost Value = { List ℕ };

    ghost view = { λ n. take n.len n.bytes };

    ghost invariant = { λ n. (n.len ≤ 32) × IsName 32 (take n.len n.bytes) };
}

impl BlockName {
    /// The name of these bytes, or `None` where they are no name of 1 to 32 bytes. It takes no memory.
    pub fn new(bytes: &[u8]) -> Option<BlockName>
        ensures variant { IsSome result ↔ IsName 32 bytes.now }
        ensures value { IfSome result (λ name. name ≡ bytes.now) }
    {
        if !is_name(bytes, MOST) {
            return None;
        }
        let mut places = [0; MOST];
        places[..bytes.len()].copy_from_slice(bytes);
        Some(BlockName {
            bytes: places,
            len: bytes.len(),
        })
    }

    /// The name's bytes.
    pub fn bytes(&self) -> &[u8]
        ensures value { result.now ≡ self.now }
        ensures name { IsName 32 self.now }
    {
        &self.bytes[..self.len]
    }
}
