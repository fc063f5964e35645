//! The setting of a block.

ghost use Rattle.std.specs.Prelude.{◌≡◌, ℤ};
ghost use Rattle.magbelu_c.specs.BlockSettings.{TellsSetting, number_told, taps_told, unset};

use crate::reply::{Reply, done, refusal};
use crate::shows::show;
use block_trait::{Block, Setting};
use flowgraph::{BlockId, Valid};
use kinds::Kind;
use plant::PlantFault;

/// The setting of a block, and the block's own value, which is in force until another is set.
#[repr(C)]
#[derive(Clone, Copy, Debug, PartialEq, Eq)]
pub struct BlockSetting {
    /// 0; 1 for a refusal.
    pub status: u32,
    /// The number of the refusal, or 0.
    pub number: u32,
    /// 0 if nothing may be set, 1 for a number, 2 for taps.
    pub what: u32,
    /// The least number that may be set.
    pub least: i64,
    /// The greatest number that may be set.
    pub most: i64,
    /// The block's own number.
    pub value: i64,
    /// How many taps there are.
    pub count: usize,
}

/// Tells what may be set of the block of a number. It puts the block's own taps at the front of a buffer if they fit.
/// `NoSuchBlock` if there is no block of this number.
pub(crate) fn show_setting(graph: &Valid<Kind>, number: u32, taps: &mut [i16]) -> BlockSetting
    ensures { TellsSetting graph.now number taps.old taps.new result }
{
    if graph.len() <= number as usize {
        return unset(refusal(PlantFault::NoSuchBlock));
    }
    match graph.block(BlockId(number)).shape(0).setting {
        Setting::Fixed => unset(done(0, 0)),
        Setting::Number(least, most, own) => number_told(least, most, own),
        Setting::Taps(own) => {
            show(own, taps);
            taps_told(own.len())
        }
    }
}

/// Tells that nothing may be set, with this reply.
pub(crate) fn unset(reply: Reply) -> BlockSetting
    ensures { result ≡ unset reply }
{
    BlockSetting {
        status: reply.status,
        number: reply.number,
        what: 0,
        least: 0,
        most: 0,
        value: 0,
        count: 0,
    }
}

// A number may be set.
fn number_told(least: i64, most: i64, own: i64) -> BlockSetting
    ensures { result ≡ number_told least most own }
{
    BlockSetting {
        status: 0,
        number: 0,
        what: 1,
        least,
        most,
        value: own,
        count: 0,
    }
}

// So many taps may be set.
fn taps_told(count: usize) -> BlockSetting
    ensures { result ≡ taps_told count }
{
    BlockSetting {
        status: 0,
        number: 0,
        what: 2,
        least: 0,
        most: 0,
        value: 0,
        count,
    }
}
