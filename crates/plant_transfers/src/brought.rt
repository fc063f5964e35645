//! The tags that firings bring to an output.
ghost use Rattle.std.specs.Prelude.{◌≡◌, ◌+◌, ◌++◌, ◌^◌, ◌<◌, ◌≤◌, ℕ, [], length, map, slice_index_or, All, true};
ghost use Rattle.std.specs.Vec.{vec_len, vec_capacity};
ghost use Rattle.stream_model.specs.declared.vocabulary.Policy.TheVariants as policies;
ghost use Rattle.stream_model.specs.Tags.{tags_within};
ghost use Rattle.stream_model.specs.Network.{node_at, writers_of, taken_by, moved, chosen};
ghost use Rattle.stream_laws.specs.Tags.{brought, tags_taken};
ghost use Rattle.items.specs.Tags.{tag_of};
ghost use Rattle.flowgraph.specs.Flowgraph.{net_of};
ghost use Rattle.plant_laws.specs.Changes.{tags_waiting, tags_brought};
ghost use Rattle.plant_transfers.specs.Rows.{rows_of};
ghost use Rattle.plant_transfers.specs.Steps.{stored_with, CanRead};

use crate::firing_range::FiringRange;
use crate::inputs::tags_on;
use block_trait::{Block, Pace, Role};
use buffers::Buffer;
use flowgraph::{BlockId, Policy, Valid};
use items::Tag;
use plant_storage::Intake;

/// Puts the tags that the firings bring to an output in the place of what the list has. It takes no memory.
pub(crate) fn bring<B: Block>(
    list: &mut Vec<Tag>,
    handed: &[Intake],
    buffers: &[Vec<Buffer>],
    graph: &Valid<B>,
    firings: FiringRange,
    port: usize,
)
    requires reads { CanRead (net_of B.meaning graph.now) (stored_with handed.now
        (rows_of (λ row. row.items) buffers.now)) firings.block.0 firings.first firings.next }
    requires tapes { firings.block.0 < length handed.now }
    requires room { length (tags_brought (net_of B.meaning graph.now)
        (stored_with handed.now (rows_of (λ row. row.items) buffers.now)) firings.block.0 port firings.first
        firings.next) ≤ vec_capacity list.old }
    ensures tags { map tag_of list.new.items ≡ tags_brought (net_of B.meaning graph.now)
        (stored_with handed.now (rows_of (λ row. row.items) buffers.now)) firings.block.0 port firings.first
        firings.next }
    ensures capacity { vec_capacity list.new ≡ vec_capacity list.old }
{
    list.clear();
    match graph.role(firings.block) {
        Role::Source => {
            let tape = handed[firings.block.0 as usize].tape.recording();
            append(list, tape.tags(firings.first, firings.next));
        }
        Role::Work | Role::Keep | Role::Discard => {
            bring_chosen(list, buffers, graph, firings, port);
        }
    }
}

// Appends those of the tags on the inputs' items that the block's policy chooses for an output.
fn bring_chosen<B: Block>(
    list: &mut Vec<Tag>,
    buffers: &[Vec<Buffer>],
    graph: &Valid<B>,
    firings: FiringRange,
    port: usize,
)
    requires reads { CanRead (net_of B.meaning graph.now) (stored_with [] (rows_of (λ row. row.items) buffers.now))
        firings.block.0 firings.first firings.next }
    requires empty { list.old.items ≡ [] }
    requires room { length (brought (node_at (net_of B.meaning graph.now) firings.block.0) port firings.first
        firings.next (tags_waiting (net_of B.meaning graph.now) (stored_with []
        (rows_of (λ row. row.items) buffers.now)) firings.block.0)) ≤ vec_capacity list.old }
    ensures tags { map tag_of list.new.items ≡ brought (node_at (net_of B.meaning graph.now) firings.block.0) port
        firings.first firings.next (tags_waiting (net_of B.meaning graph.now)
        (stored_with [] (rows_of (λ row. row.items) buffers.now)) firings.block.0) }
    ensures capacity { vec_capacity list.new ≡ vec_capacity list.old }
{
    match graph.options(firings.block).policy {
        Policy::All => bring_all(list, buffers, graph, firings),
        Policy::One => {
            if port < graph.inputs(firings.block).len() {
                bring_from(list, buffers, graph, firings, port);
            }
        }
        Policy::None => {}
    }
}

// Appends the tags on the items of each input.
fn bring_all<B: Block>(
    list: &mut Vec<Tag>,
    buffers: &[Vec<Buffer>],
    graph: &Valid<B>,
    firings: FiringRange,
)
    requires reads { CanRead (net_of B.meaning graph.now) (stored_with [] (rows_of (λ row. row.items) buffers.now))
        firings.block.0 firings.first firings.next }
    requires empty { list.old.items ≡ [] }
    requires room { let n = node_at (net_of B.meaning graph.now) firings.block.0 in
        let waiting = tags_waiting (net_of B.meaning graph.now) (stored_with []
        (rows_of (λ row. row.items) buffers.now)) firings.block.0 in
        length (chosen policies.All n 0 0 (tags_taken n 0 firings.first firings.next waiting)) ≤ vec_capacity list.old }
    ensures tags { let n = node_at (net_of B.meaning graph.now) firings.block.0 in
        let waiting = tags_waiting (net_of B.meaning graph.now) (stored_with []
        (rows_of (λ row. row.items) buffers.now)) firings.block.0 in
        map tag_of list.new.items ≡ chosen policies.All n 0 0 (tags_taken n 0 firings.first firings.next waiting) }
    ensures capacity { vec_capacity list.new ≡ vec_capacity list.old }
{
    for port in 0..graph.inputs(firings.block).len() {
        bring_from(list, buffers, graph, firings, port);
    }
}

// Appends the tags on the items of an input, each where the block moves it.
#[inline(always)]
fn bring_from<B: Block>(
    list: &mut Vec<Tag>,
    buffers: &[Vec<Buffer>],
    graph: &Valid<B>,
    firings: FiringRange,
    port: usize,
)
    requires reads { CanRead (net_of B.meaning graph.now) (stored_with [] (rows_of (λ row. row.items) buffers.now))
        firings.block.0 firings.first firings.next }
    requires port { port < length (writers_of (net_of B.meaning graph.now) firings.block.0) }
    requires room { let n = node_at (net_of B.meaning graph.now) firings.block.0 in
        let waiting = tags_waiting (net_of B.meaning graph.now) (stored_with []
        (rows_of (λ row. row.items) buffers.now)) firings.block.0 in
        vec_len list.old + length (tags_within (taken_by n port firings.first) (taken_by n port firings.next)
        (slice_index_or waiting port [])) ≤ vec_capacity list.old }
    ensures tags { let n = node_at (net_of B.meaning graph.now) firings.block.0 in
        let waiting = tags_waiting (net_of B.meaning graph.now) (stored_with []
        (rows_of (λ row. row.items) buffers.now)) firings.block.0 in
        map tag_of list.new.items ≡ map tag_of list.old.items ++ moved n port
        (tags_within (taken_by n port firings.first) (taken_by n port firings.next) (slice_index_or waiting port [])) }
    ensures capacity { vec_capacity list.new ≡ vec_capacity list.old }
{
    let tags = tags_on(buffers, graph, firings, port);
    append_moved(list, graph, firings.block, port, tags);
}

// Appends tags of an input, each where the block moves it.
fn append_moved<B: Block>(
    list: &mut Vec<Tag>,
    graph: &Valid<B>,
    block: BlockId,
    port: usize,
    tags: &[Tag],
)
    requires block { block.0 < length graph.now.blocks }
    requires places { All (λ t. (node_at (net_of B.meaning graph.now) block.0).meaning.place port t.offset < 2 ^ 63)
        tags.now }
    requires room { vec_len list.old + length tags.now ≤ vec_capacity list.old }
    ensures tags { map tag_of list.new.items ≡ map tag_of list.old.items
        ++ moved (node_at (net_of B.meaning graph.now) block.0) port (map tag_of tags.now) }
    ensures capacity { vec_capacity list.new ≡ vec_capacity list.old }
{
    if keeps_places(graph, block, port) {
        append(list, tags);
        return;
    }
    let own = graph.block(block);
    for tag in tags {
        list.push_reserved(Tag {
            offset: own.place(port, tag.offset),
            ..*tag
        });
    }
}

// Whether it is seen at once that a tag stays on the item of its number: the block gives as many items as it takes of
// the input.
fn keeps_places<B: Block>(graph: &Valid<B>, block: BlockId, port: usize) -> bool
    requires { block.0 < length graph.now.blocks }
    ensures { result ≡ true → (s : ℕ) → (node_at (net_of B.meaning graph.now) block.0).meaning.place port s ≡ s }
{
    match graph.pace(block, port) {
        Pace::Rate(taken, given) => taken == given,
        Pace::Turns(_, _, _) | Pace::Placed(_, _) | Pace::Skip(_) | Pace::Delay(_) => false,
    }
}

fn append(list: &mut Vec<Tag>, tags: &[Tag])
    requires { vec_len list.old + length tags.now ≤ vec_capacity list.old }
    ensures tags { list.new.items ≡ list.old.items ++ tags.now }
    ensures capacity { vec_capacity list.new ≡ vec_capacity list.old }
{
    for tag in tags {
        list.push_reserved(*tag);
    }
}
