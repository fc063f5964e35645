//! How a run in threads ends.

ghost use Rattle.std.specs.Prelude.{◌≡◌};
ghost use Rattle.threads.specs.Outcomes.{plant_in};

use flowgraph::Block;
use plant::Plant;

/// How a run came to its end, with the plant. The plant has what was handed in, after `live` also what callers fed,
/// closed and set, and no claim in flight.
#[derive(Debug, Drop)]
pub enum Outcome<B: Block> {
    /// Each block is done, and each sink holds its whole stream.
    Done(Plant<B>),
    /// A stop was asked for before each block was done.
    Stopped(Plant<B>),
    /// Some block is not done, and none can act: the rates are not balanced, or a source is open.
    Stalled(Plant<B>),
}

impl<B: Block> Outcome<B> {
    /// The plant, however the run ended.
    pub fn into_plant(self) -> Plant<B>
        ensures { result ≡ plant_in self }
    {
        let (Outcome::Done(plant) | Outcome::Stopped(plant) | Outcome::Stalled(plant)) = self;
        plant
    }
}
