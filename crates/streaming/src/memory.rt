//! How much is in memory of what sources were fed, of what sinks have taken, and of settings.

ghost use Rattle.std.specs.Prelude.{◌-◌, ◌+◌, ◌*◌, ◌<◌, ◌≡◌, ◌≤◌, length, true, Some, slice_index_or};
ghost use Rattle.stream_model.specs.Settings as model;
ghost use Rattle.stream_model.specs.Network.{handed_at, node_at, role_at, is_keeper, is_source};
ghost use Rattle.stream_model.specs.Tags.{tags_within};
ghost use Rattle.machine_laws.specs.Sound.{fired};
ghost use Rattle.tags.specs.TagList.{tags_from};
ghost use Rattle.settings.specs.Timelines.{kept_from};
ghost use Rattle.flowgraph.specs.Flowgraph.{net_of};
ghost use Rattle.plant.specs.Plant.{IsRight, plant_of, spans_in};
ghost use Rattle.streaming.specs.Streaming.{tags_into};

use flowgraph::{Block, BlockId};
use plant::Parts;
use stream_model::Role;

/// How many items are in memory of what a source was fed, or of what a sink has taken: all that are kept, and at most
/// twice as many.
pub(crate) fn items_in_memory<B: Block>(parts: &Parts<B>, block: BlockId) -> usize
    requires { IsRight B.meaning parts.now }
    ensures source { let plant = plant_of parts.now in let net = net_of B.meaning plant.graph in block.0 < length
        net.nodes → is_source (role_at net block.0) ≡ true →
        result ≤ 2 * (length (handed_at plant.state.handed block.0).tape - slice_index_or
        (spans_in parts.now).firsts.tapes block.0 0) }
    ensures sink { let plant = plant_of parts.now in let net = net_of B.meaning plant.graph in block.0 < length
        net.nodes → is_keeper (role_at net block.0) ≡ true →
        result ≤ 2 * (fired plant.state block.0 - slice_index_or (spans_in parts.now).firsts.sinks block.0 0) }
    ensures of_source { let plant = plant_of parts.now in let net = net_of B.meaning plant.graph in block.0 < length
        net.nodes → is_source (role_at net block.0) ≡ true →
        length (handed_at plant.state.handed block.0).tape - slice_index_or (spans_in parts.now).firsts.tapes block.0
        0 ≤ result }
    ensures of_sink { let plant = plant_of parts.now in let net = net_of B.meaning plant.graph in block.0 < length
        net.nodes → is_keeper (role_at net block.0) ≡ true →
        fired plant.state block.0 - slice_index_or (spans_in parts.now).firsts.sinks block.0 0 ≤ result }
{
    parts.graph.recall();
    let at = block.0 as usize;
    if parts.graph.len() <= at {
        return 0;
    }
    match parts.graph.role(block) {
        Role::Source => parts.stores.handed[at].tape.recording().in_memory(),
        Role::Keep => parts.stores.sinks[at].in_memory(),
        Role::Work | Role::Discard => 0,
    }
}

/// How many of their tags are in memory: just those on items that are kept.
pub(crate) fn tags_in_memory<B: Block>(parts: &Parts<B>, block: BlockId) -> usize
    requires { IsRight B.meaning parts.now }
    ensures source { let plant = plant_of parts.now in let net = net_of B.meaning plant.graph in block.0 < length
        net.nodes → is_source (role_at net block.0) ≡ true →
        result ≡ length (tags_from (slice_index_or (spans_in parts.now).firsts.tapes block.0 0)
        (handed_at plant.state.handed block.0).tags) }
    ensures sink { let plant = plant_of parts.now in let net = net_of B.meaning plant.graph in block.0 < length
        net.nodes → is_keeper (role_at net block.0) ≡ true →
        result ≡ length (tags_within (slice_index_or (spans_in parts.now).firsts.sinks block.0 0)
        (fired plant.state block.0) (tags_into net plant.state block.0)) }
{
    parts.graph.recall();
    let at = block.0 as usize;
    if parts.graph.len() <= at {
        return 0;
    }
    match parts.graph.role(block) {
        Role::Source => parts.stores.handed[at].tape.recording().tags_in_memory(),
        Role::Keep => parts.stores.sinks[at].tags_in_memory(),
        Role::Work | Role::Discard => 0,
    }
}

/// How many settings of a block are in memory: all that may still be read, no more than were made, and at most one made
/// before the first item that may read them.
pub(crate) fn settings_in_memory<B: Block>(parts: &Parts<B>, block: BlockId) -> usize
    requires { IsRight B.meaning parts.now }
    ensures read { let plant = plant_of parts.now in let net = net_of B.meaning plant.graph in let
        made = (handed_at plant.state.handed block.0).settings in
        (own : model.Value) → block.0 < length net.nodes → (node_at net block.0).meaning.own ≡ Some own →
        length (kept_from (model.setting_at own made (slice_index_or (spans_in parts.now).firsts.settings block.0 0)).at
        made) ≤ result }
    ensures made { result ≤ length (handed_at (plant_of parts.now).state.handed block.0).settings }
    ensures past { result ≤ 1 + length (kept_from (slice_index_or (spans_in parts.now).firsts.settings block.0 0)
        (handed_at (plant_of parts.now).state.handed block.0).settings) }
{
    let Some(intake) = parts.stores.handed.get(block.0 as usize) else {
        return 0;
    };
    match &intake.timeline {
        Some(settings) => settings.in_memory(),
        None => 0,
    }
}
