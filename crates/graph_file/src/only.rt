//! The tests of a table that may have only some keys.
ghost use Rattle.std.specs.Prelude.{◌≡◌};
ghost use Rattle.toml.specs.View.{table_view};
ghost use Rattle.kind_schema.specs.Tables as tables;
ghost use Rattle.graph_file.specs.Connections as connections;

use kind_schema::table::{has_only, keys_fault};
use kind_schema::{Key, KeyFault};
use toml::Table;

/// What is wrong with a table that may have only the known keys, up to the last tested key.
pub(crate) fn only_fault(table: &Table, known: &[Key], tested: &[Key]) -> Option<KeyFault>
    ensures { result ≡ connections.only_fault (tables.has_only known.now (table_view table.now))
        (tables.keys_fault (table_view table.now) tested.now) }
{
    if has_only(table, known) {
        keys_fault(table, tested)
    } else {
        Some(KeyFault::UnknownKey)
    }
}
