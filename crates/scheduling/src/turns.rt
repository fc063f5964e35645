//! How much a worker does in one turn.

ghost use Rattle.std.specs.Prelude.{◌≡◌, ◌≤◌, Some, None, if◌then◌else◌, ◌&&◌, nat_le};
ghost use Rattle.std.specs.Option.{option_map};

/// How many firings a worker claims at most in one turn: it takes the lock, commits what it did and claims anew,
/// releases the lock, and works. A worker also claims no more than half of a buffer that its block fills or empties,
/// but at least one firing. Whatever it moves, a turn costs some microseconds for the lock and for waking others. So
/// long turns suit cheap blocks with large buffers. With short turns a stop takes effect sooner. What the sinks hold
/// does not depend on it.
#[derive(Clone, Copy, Debug)]
pub struct Turns {
    most: u32,
    ghost some: { 1 ≤ most },
    ghost few: { most ≤ 65536 },
}

/// The firings of a turn by default.
const USUAL: u32 = 1024;
/// The most firings of a turn.
const MOST: u32 = 65_536;

impl Turns {
    /// Turns of at most so many firings, from 1 to 65,536; `None` for any other number.
    pub fn new(most: u32) -> Option<Turns>
        ensures { option_map (λ turns. turns.most) result ≡ (if nat_le 1 most && nat_le most 65536 then Some
            most else None) }
    {
        if 1 <= most && most <= MOST {
            Some(Turns { most })
        } else {
            None
        }
    }

    /// How many firings it is at most.
    pub fn most(self) -> u32
        ensures value { result ≡ self.most }
        ensures some { 1 ≤ result }
        ensures few { result ≤ 65536 }
    {
        self.most
    }
}

impl Default for Turns {
    /// At most 1,024 firings.
    fn default() -> Turns
        ensures { result.most ≡ 1024 }
    {
        Turns { most: USUAL }
    }
}
