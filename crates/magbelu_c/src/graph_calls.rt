//! Calls about the graph of a held plant. Each takes the plant from behind the handle, and puts it back.

ghost use Rattle.std.specs.Prelude.{◌≡◌, length};
ghost use Rattle.magbelu_c.specs.AnyPlants.{plant_of};
ghost use Rattle.magbelu_c.specs.BlockRates.{TellsFirings, TellsRates, unrated};
ghost use Rattle.magbelu_c.specs.BlockSettings.{TellsSetting, unset};
ghost use Rattle.magbelu_c.specs.Listing.{Draws, Links, Lists, format_of, told, unlisted};
ghost use Rattle.magbelu_c.specs.Replies.{OnHeld, done, not_open};
ghost use Rattle.magbelu_c.specs.Rooms.{Rooms};
ghost use Rattle.magbelu_c.specs.Slicing.{OnGraph};

use crate::answer::Answer;
use crate::block_rates::{BlockRates, show_firings, show_rates, unrated};
use crate::block_setting::{BlockSetting, show_setting, unset};
use crate::handle::Handle;
use crate::listing::{Link, Listed, format, show_block, show_drawing, show_links, told, unlisted};
use crate::reply::{Reply, done, not_open};
use crate::rooms::show_rooms;
use std::alloc::Global;

/// Tells how many blocks there are.
#[unsafe(no_mangle)]
pub extern "C" fn magbelu_bytes_block_count(alloc: Global, plant: &mut Handle) -> Reply
    ensures { OnHeld plant.old.plant plant.new.plant (λ p p' r. (p' ≡ p)
        × (r ≡ done 0 (length (plant_of p).graph.blocks))) result }
{
    let Some(held) = plant.take(alloc) else {
        return not_open();
    };
    let count = held.graph().len();
    plant.put(held);
    done(0, count as u64)
}

/// Tells about the block of a number, with its name and that of its kind.
#[unsafe(no_mangle)]
pub extern "C" fn magbelu_bytes_block(
    alloc: Global,
    plant: &mut Handle,
    number: u32,
    name: &mut [u8],
    kind: &mut [u8],
) -> Listed
    ensures { OnGraph plant.old.plant plant.new.plant (λ g. Lists g number name.old name.new kind.old kind.new result)
        ((name.new ≡ name.old) × (kind.new ≡ kind.old) × (result ≡ unlisted not_open)) }
{
    let Some(held) = plant.take(alloc) else {
        return unlisted(not_open());
    };
    let listed = show_block(held.graph(), number, name, kind);
    plant.put(held);
    listed
}

/// Tells the connections, in the order of the file.
#[unsafe(no_mangle)]
pub extern "C" fn magbelu_bytes_connections(
    alloc: Global,
    plant: &mut Handle,
    links: &mut [Link],
) -> Reply
    ensures { OnGraph plant.old.plant plant.new.plant (λ g. Links g links.old links.new result)
        ((links.new ≡ links.old) × (result ≡ not_open)) }
{
    let Some(held) = plant.take(alloc) else {
        return not_open();
    };
    let reply = show_links(alloc, held.graph(), links);
    plant.put(held);
    reply
}

/// Gives the drawing of the graph, as `flow draw` writes it.
#[unsafe(no_mangle)]
pub extern "C" fn magbelu_bytes_draw(
    alloc: Global,
    plant: &mut Handle,
    mermaid: u32,
    output: &mut [u8],
) -> Answer
    ensures { OnGraph plant.old.plant plant.new.plant (λ g. Draws g (format_of mermaid) output.old output.new result)
        ((output.new ≡ output.old) × (result ≡ told 1 55 0)) }
{
    let Some(held) = plant.take(alloc) else {
        let reply = not_open();
        return told(reply.status, reply.number, 0);
    };
    let answer = show_drawing(alloc, held.graph(), format(mermaid), output);
    plant.put(held);
    answer
}

/// Tells how many items the buffer of each connection has room for, in the order of the file.
#[unsafe(no_mangle)]
pub extern "C" fn magbelu_bytes_rooms(alloc: Global, plant: &mut Handle, rooms: &mut [u64]) -> Reply
    ensures { OnGraph plant.old.plant plant.new.plant (λ g. Rooms g rooms.old rooms.new result)
        ((rooms.new ≡ rooms.old) × (result ≡ not_open)) }
{
    let Some(held) = plant.take(alloc) else {
        return not_open();
    };
    let reply = show_rooms(alloc, held.graph(), rooms);
    plant.put(held);
    reply
}

/// Tells what may be set of the block of a number, and the block's own value.
#[unsafe(no_mangle)]
pub extern "C" fn magbelu_bytes_setting(
    alloc: Global,
    plant: &mut Handle,
    number: u32,
    taps: &mut [i16],
) -> BlockSetting
    ensures { OnGraph plant.old.plant plant.new.plant (λ g. TellsSetting g number taps.old taps.new result)
        ((taps.new ≡ taps.old) × (result ≡ unset not_open)) }
{
    let Some(held) = plant.take(alloc) else {
        return unset(not_open());
    };
    let setting = show_setting(held.graph(), number, taps);
    plant.put(held);
    setting
}

/// Tells what a firing of the block of a number takes of each connected input, and what it gives on each output.
#[unsafe(no_mangle)]
pub extern "C" fn magbelu_bytes_rates(
    alloc: Global,
    plant: &mut Handle,
    number: u32,
    takes: &mut [u64],
) -> BlockRates
    ensures { OnGraph plant.old.plant plant.new.plant (λ g. TellsRates g number takes.old takes.new result)
        ((takes.new ≡ takes.old) × (result ≡ unrated not_open)) }
{
    let Some(held) = plant.take(alloc) else {
        return unrated(not_open());
    };
    let rates = show_rates(alloc, held.graph(), number, takes);
    plant.put(held);
    rates
}

/// Tells how often each block fires in an iteration, in the order of the file.
#[unsafe(no_mangle)]
pub extern "C" fn magbelu_bytes_firings(
    alloc: Global,
    plant: &mut Handle,
    firings: &mut [u32],
) -> Reply
    ensures { OnGraph plant.old.plant plant.new.plant (λ g. TellsFirings g firings.old firings.new result)
        ((firings.new ≡ firings.old) × (result ≡ not_open)) }
{
    let Some(held) = plant.take(alloc) else {
        return not_open();
    };
    let reply = show_firings(alloc, held.graph(), firings);
    plant.put(held);
    reply
}
