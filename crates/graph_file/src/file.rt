//! A graph file, read.
ghost use Rattle.std.specs.Prelude.{◌≡◌, map, Ok, Some, IfOk, OnOk, IfErr, IsUtf8, IsErrOf};
ghost use Rattle.toml.specs.Parse.{parse_document};
ghost use Rattle.toml.specs.Errors.{IsBlank};
ghost use Rattle.toml.specs.View.{table_view};
ghost use Rattle.graph_file.specs.Refusals.{IsRefused};
ghost use Rattle.graph_file.specs.Blocks.{drafted};
ghost use Rattle.kinds.specs.Kind.{meaning_of};
ghost use Rattle.graph_file.specs.File.{file_of, file_in, graph_in, meanings_of, seen, GraphTakes, FileTakes};

use crate::blocks::{add_blocks, blocks_of};
use crate::connections::add_connections;
use crate::fault::{FileFault, FilePlace, table_fault};
use crate::feed::Feed;
use crate::feeds::read_feeds;
use crate::only::only_fault;
use flowgraph::Graph;
use kind_schema::Key;
use kind_schema::table::values_at;
use kinds::Kind;
use std::alloc::Global;
use toml::Table;

/// A graph, and what its sources are fed, in the order of the file.
#[derive(Debug, Drop)]
pub struct File {
    /// The graph, not yet tested as a whole.
    pub graph: Graph<Kind>,
    /// The feeds. Whether the sources take them is not yet known.
    pub feeds: Vec<Feed>,
}

/// The graph and the feeds of a graph file, or why it is refused, or out of memory. The first reason counts: the text
/// (UTF-8, then TOML), the keys of the document, then each block, each connection and each feed in turn. `validate`
/// says whether the graph is valid, and `open` whether sources take the feeds.
pub fn read_graph(alloc: Global, text: &[u8]) -> Result<File, FileFault>
    ensures ok { IfOk result (λ file. IsUtf8 text.now × (file_of (parse_document text.now) ≡ Ok (seen file))) }
    ensures refused { IsUtf8 text.now → IfErr result (IsRefused (file_of (parse_document text.now))) }
    ensures encoding { ¬ (IsUtf8 text.now) → IsErrOf result FileFault.Syntax }
    ensures memory { IsErrOf result FileFault.Memory → ¬ IsBlank text.now }
{
    let Ok(text) = std::str::from_utf8(text) else {
        return Err(FileFault::Syntax);
    };
    match toml::table_from_str(alloc, text) {
        Ok(table) => file_of(alloc, &table),
        Err(error) if error.is_memory() => Err(FileFault::Memory),
        Err(_) => Err(FileFault::Syntax),
    }
}

/// Reads the blocks of an accepted graph file once more, in the order of the file.
pub fn read_blocks(alloc: Global, text: &[u8]) -> Result<Vec<Kind>, FileFault>
    ensures ok { IfOk result (λ blocks. IsUtf8 text.now × (meanings_of (parse_document text.now)
        ≡ Ok (map meaning_of blocks.items))) }
    ensures refused { IsUtf8 text.now → IfErr result (IsRefused (meanings_of (parse_document text.now))) }
    ensures encoding { ¬ (IsUtf8 text.now) → IsErrOf result FileFault.Syntax }
{
    let Ok(text) = std::str::from_utf8(text) else {
        return Err(FileFault::Syntax);
    };
    match toml::table_from_str(alloc, text) {
        Ok(table) => blocks_of(alloc, values_at(&table, Key::Block)),
        Err(error) if error.is_memory() => Err(FileFault::Memory),
        Err(_) => Err(FileFault::Syntax),
    }
}

// What a document says.
fn file_of(alloc: Global, table: &Table) -> Result<File, FileFault>
    ensures ok { IfOk result (λ file. file_in (table_view table.now) ≡ Ok (seen file)) }
    ensures refused { IfErr result (IsRefused (file_in (table_view table.now))) }
    ensures memory { IsErrOf result FileFault.Memory → FileTakes (table_view table.now) }
{
    let keys = [Key::Block, Key::Connect, Key::Feed];
    if let Some(fault) = only_fault(table, &keys, &keys) {
        return Err(table_fault(FilePlace::Top, fault));
    }
    let graph = match graph_of(alloc, table) {
        Ok(graph) => graph,
        Err(fault) => return Err(fault),
    };
    match read_feeds(alloc, values_at(table, Key::Feed)) {
        Ok(feeds) => Ok(File { graph, feeds }),
        Err(fault) => Err(fault),
    }
}

// The graph of a document.
fn graph_of(alloc: Global, table: &Table) -> Result<Graph<Kind>, FileFault>
    ensures ok { IfOk result (λ graph. graph_in (table_view table.now) ≡ Ok (drafted graph)) }
    ensures refused { IfErr result (IsRefused (graph_in (table_view table.now))) }
    ensures memory { IsErrOf result FileFault.Memory → GraphTakes (table_view table.now) }
{
    let blocks = values_at(table, Key::Block);
    let mut graph = Graph::new(alloc);
    if let Err(fault) = add_blocks(alloc, &mut graph, blocks) {
        return Err(fault);
    }
    match add_connections(&mut graph, blocks, values_at(table, Key::Connect)) {
        Ok(()) => Ok(graph),
        Err(fault) => Err(fault),
    }
}
