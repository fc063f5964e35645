//! The end of what a plant is fed.
#![tactic(auto)]

ghost use Rattle.std.specs.Prelude.{◌≡◌, true};
ghost use Rattle.stream_model.specs.Machine.{is_idle};
ghost use Rattle.kinds.specs.Kind.{meaning_of};
ghost use Rattle.closing.specs.Closing.{with_all_closed};

use flowgraph::BlockId;
use kinds::Kind;
use plant::Plant;

/// Closes each tape that is open. It takes no memory, makes no claim, and cannot fail.
pub fn close_all(plant: &mut Plant<Kind>)
    ensures closed { plant.new ≡ with_all_closed meaning_of plant.old }
    ensures idle { is_idle plant.old.state ≡ true → is_idle plant.new.state ≡ true }
{
    for block in 0..plant.graph().len() {
        let _ = plant.close(BlockId(block as u32));
    }
}
