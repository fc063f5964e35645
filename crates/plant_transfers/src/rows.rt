//! Changes of one buffer among those of all blocks.
ghost use Rattle.std.specs.Prelude.{◌≡◌, ◌+◌, ◌^◌, ◌<◌, ◌≤◌, [], length, map, All, slice_index_or};
ghost use Rattle.items.specs.Items.{type_of, numbers_of};
ghost use Rattle.items.specs.Tags.{tag_of};
ghost use Rattle.ring_readers.specs.State.{IsLive, unread_of, room_of};
ghost use Rattle.plant_laws.specs.Stored.{buffer_in};
ghost use Rattle.plant_laws.specs.Changes.{pushed, advanced, released};
ghost use Rattle.plant_transfers.specs.Rows.{rows_of, outputs_of, state_in, with_buffer, OthersStay, HasNoLessRoom};

use buffers::Buffer;
use flowgraph::{BlockId, Input};
use items::{Items, Tag};
use ring_readers::Reader;

/// Writes items to an output, and tags at or behind the first of them.
pub(crate) fn push(
    buffers: &mut [Vec<Buffer>],
    block: BlockId,
    port: usize,
    items: &Items,
    tags: &[Tag],
)
    requires block { block.0 < length buffers.old }
    requires port { port < length (slice_index_or (rows_of (λ row. row.items) buffers.old) block.0 []) }
    requires same_type { type_of items.now ≡ (state_in (rows_of (λ row. row.items) buffers.old) block.0 port).item }
    requires room { length (numbers_of items.now) ≤ room_of (state_in (rows_of (λ row. row.items) buffers.old) block.0
        port).ring }
    requires small { (state_in (rows_of (λ row. row.items) buffers.old) block.0 port).ring.written + length
        (numbers_of items.now) < 2 ^ 62 }
    requires tags_room { length tags.now ≤ (state_in (rows_of (λ row. row.items) buffers.old) block.0 port).spare }
    requires tags_ahead { All (λ t. (state_in (rows_of (λ row. row.items) buffers.old) block.0
        port).ring.written ≤ t.offset) tags.now }
    ensures outputs { outputs_of (λ row. row.items) buffers.new
        ≡ with_buffer (outputs_of (λ row. row.items) buffers.old) block.0 port
        (λ buffer. pushed buffer (numbers_of items.now) (map tag_of tags.now)) }
    ensures others { OthersStay block.0 port (rows_of (λ row. row.items) buffers.old)
        (rows_of (λ row. row.items) buffers.new) }
{
    let row = &mut buffers[block.0 as usize];
    row[port].push(items, tags);
}

/// The input's reader takes its next `count` items.
pub(crate) fn advance(buffers: &mut [Vec<Buffer>], input: &Input, count: usize)
    requires live { IsLive (buffer_in (outputs_of (λ row. row.items) buffers.old) input.now.connection.from.0
        input.now.connection.out_port).ring input.now.reader }
    requires unread { count ≤ unread_of (buffer_in (outputs_of (λ row. row.items) buffers.old)
        input.now.connection.from.0 input.now.connection.out_port).ring input.now.reader }
    ensures outputs { outputs_of (λ row. row.items) buffers.new
        ≡ with_buffer (outputs_of (λ row. row.items) buffers.old) input.now.connection.from.0
        input.now.connection.out_port (λ buffer. advanced buffer input.now.reader count) }
    ensures room { HasNoLessRoom (rows_of (λ row. row.items) buffers.old) (rows_of (λ row. row.items) buffers.new) }
{
    let row = &mut buffers[input.connection.from.0 as usize];
    row[input.connection.out_port].advance(Reader::numbered(input.reader), count);
}

/// The buffer waits for the input's reader no longer.
pub(crate) fn release(buffers: &mut [Vec<Buffer>], input: &Input)
    requires { IsLive (buffer_in (outputs_of (λ row. row.items) buffers.old) input.now.connection.from.0
        input.now.connection.out_port).ring input.now.reader }
    ensures outputs { outputs_of (λ row. row.items) buffers.new
        ≡ with_buffer (outputs_of (λ row. row.items) buffers.old) input.now.connection.from.0
        input.now.connection.out_port (λ buffer. released buffer input.now.reader) }
    ensures room { HasNoLessRoom (rows_of (λ row. row.items) buffers.old) (rows_of (λ row. row.items) buffers.new) }
{
    let row = &mut buffers[input.connection.from.0 as usize];
    row[input.connection.out_port].drop_reader(Reader::numbered(input.reader));
}
