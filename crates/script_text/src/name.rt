//! Names of blocks.
ghost use Rattle.std.specs.Prelude.{◌≡◌};
ghost use Rattle.script_text.specs.Grammar.{block_of};

use items::BlockName;

/// The name of these bytes, or `None` where they are no name of 1 to 32 bytes.
pub(crate) fn block_name(bytes: &[u8]) -> Option<BlockName>
    ensures { result ≡ block_of bytes.now }
{
    BlockName::new(bytes)
}
