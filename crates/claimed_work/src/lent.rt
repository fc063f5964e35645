//! What a job is lent.
ghost use Rattle.std.specs.Prelude.{◌≡◌, [], vec_capacity};

use items::Items;
use settings::Held;
use std::alloc::Global;

/// What a job is lent: the windows on its inputs, the settings over them, and an empty place for the items of each used
/// output, with room for them.
#[derive(Debug, Drop)]
pub struct Lent {
    pub windows: Vec<Items>,
    pub held: Vec<Held>,
    pub outputs: Vec<Items>,
}

impl Lent {
    /// Nothing yet. It takes no memory.
    pub fn new(alloc: Global) -> Lent
        ensures windows { result.windows.items ≡ [] }
        ensures held { result.held.items ≡ [] }
        ensures outputs { result.outputs.items ≡ [] }
        ensures memory { (vec_capacity result.windows ≡ 0) × (vec_capacity result.held ≡ 0)
            × (vec_capacity result.outputs ≡ 0) }
    {
        Lent {
            windows: Vec::new(alloc),
            held: Vec::new(alloc),
            outputs: Vec::new(alloc),
        }
    }
}
