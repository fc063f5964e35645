//! What calls test before they act.

ghost use Rattle.std.specs.Prelude.{◌≡◌, ◌&&◌, nat_le, nat_lt, map};
ghost use Rattle.stream_model.specs.Machine.{is_wanted};
ghost use Rattle.settings.specs.Values.{value_of};
ghost use Rattle.std.specs.List.{list_all};
ghost use Rattle.stream_model.specs.Numbers.{types_agree};
ghost use Rattle.flowgraph.specs.Flowgraph.{net_of};
ghost use Rattle.plant_storage.specs.Stores.{mark_of};
ghost use Rattle.plant.specs.Answers.{source_type_of};
ghost use Rattle.plant.specs.Setting.{fault_in, setting_fault};

use flowgraph::{Block, BlockId, Valid};
use items::{ItemType, Mark};
use plant_faults::PlantFault;
use settings::Value;
use stream_model::{Role, Wanted};

/// The type of the items that a source gives and is fed. Other blocks are refused as by `feed`.
pub fn source_type<B: Block>(graph: &Valid<B>, block: BlockId) -> Result<ItemType, PlantFault>
    ensures { result ≡ source_type_of (net_of B.meaning graph.now) block.0 }
{
    if graph.len() <= block.0 as usize {
        return Err(PlantFault::NoSuchBlock);
    }
    match graph.block(block).role() {
        Role::Source => Ok(graph.block(block).outputs().item),
        Role::Work | Role::Keep | Role::Discard => Err(PlantFault::NotSource),
    }
}

/// Whether two types of items are one.
pub fn same_type(one: ItemType, other: ItemType) -> bool
    ensures { result ≡ types_agree one other }
{
    one == other
}

/// Whether each mark lies on an item from `first` to below `end`.
pub fn fit(marks: &[Mark], first: u64, end: u64) -> bool
    ensures { result ≡ list_all (λ m. nat_le first m.offset && nat_lt m.offset end) (map mark_of marks.now) }
{
    for mark in marks {
        if mark.offset < first || end <= mark.offset {
            return false;
        }
    }
    true
}

/// Whether a block takes this value as its setting.
pub fn wanted<B: Block>(graph: &Valid<B>, block: BlockId, value: &Value) -> Result<(), PlantFault>
    ensures { fault_in result ≡ setting_fault (net_of B.meaning graph.now) block.0 (value_of value.now) }
{
    if graph.len() <= block.0 as usize {
        return Err(PlantFault::NoSuchBlock);
    }
    match graph.block(block).setting() {
        Some(wanted) => {
            if takes(wanted, value) {
                Ok(())
            } else {
                Err(PlantFault::WrongSetting)
            }
        }
        None => Err(PlantFault::NoSetting),
    }
}

// Whether a value is of the sort, range and length of a setting.
fn takes(wanted: Wanted, value: &Value) -> bool
    ensures { result ≡ is_wanted wanted (value_of value.now) }
{
    match (wanted, value) {
        (Wanted::Number(least, greatest), Value::Number(number)) => {
            least <= *number && *number <= greatest
        }
        (Wanted::Taps(count), Value::Taps(taps)) => taps.as_slice().len() == count as usize,
        (Wanted::Number(_, _), Value::Taps(_)) | (Wanted::Taps(_), Value::Number(_)) => false,
    }
}
