//! A graph file to start from.

use crate::expected::default_text;
use block_parameters::Parameter;
use items::ItemType;
use kind_schema::{ItemTypes, Range, parameters_of, types_of};
use kinds::KindName;
use std::alloc::{AllocError, Global};

const HEAD: &str =
    "# `flow check` tests this graph, `flow run` runs it on what is fed below, and `flow kinds KIND` tells of a kind.\n";

const FEED: &str = "\n[[feed]]\nsource = \"src\"\nitems = [0, 1, 2, 3, 4, 5, 6, 7]\n";

/// Whether blocks of the kind have inputs and outputs, so that one may stand in a chain.
pub fn is_link(kind: KindName) -> bool {
    !matches!(
        kind,
        KindName::VectorSource | KindName::VectorSink | KindName::NullSink
    )
}

/// The text of a graph file to start from: a source, a block of each of these kinds, one after the other, and a sink.
/// Required parameters have small values. If a kind does not take the item type that comes, a `convert` stands before
/// it. A block that needs two inputs takes the same items at both.
pub fn starting_graph(alloc: Global, kinds: &[KindName]) -> Result<String, AllocError> {
    let mut chain = Chain {
        blocks: String::new(alloc),
        connects: String::new(alloc),
        last: String::new(alloc),
        count: 0,
        item: first_type(kinds),
    };
    chain.push(alloc, KindName::VectorSource, "src")?;
    for kind in kinds {
        if let Some(wanted) = other_type(*kind, chain.item) {
            chain.convert(alloc, wanted)?;
        }
        let name = chain.name_of(alloc, *kind)?;
        chain.push(alloc, *kind, name.as_str())?;
    }
    chain.push(alloc, KindName::VectorSink, "out")?;
    chain.text(alloc)
}

// A chain of blocks, as the tables of a graph file.
#[derive(Drop)]
struct Chain {
    blocks: String,
    connects: String,
    // The name of the last block.
    last: String,
    count: u32,
    // The type of the items that it gives.
    item: ItemType,
}

impl Chain {
    // The name of the next block: that of its kind, and a number. No two blocks have the same number.
    fn name_of(&self, alloc: Global, kind: KindName) -> Result<String, AllocError> {
        let kind = kind.text();
        let number = self.count;
        format!(in alloc; "{kind}_{number}")
    }

    // Adds a block of a kind after the last one.
    fn push(&mut self, alloc: Global, kind: KindName, name: &str) -> Result<(), AllocError> {
        self.begin(alloc, kind, name)?;
        for (parameter, range) in parameters_of(kind) {
            if default_text(*parameter).is_empty() {
                push_entry(&mut self.blocks, parameter.text(), value_of(*range))?;
            }
            if *parameter == Parameter::To {
                self.item = ItemType::Short;
            }
        }
        if gives_bytes(kind) {
            self.item = ItemType::Byte;
        }
        Ok(())
    }

    // Adds a block that converts items to another type.
    fn convert(&mut self, alloc: Global, to: ItemType) -> Result<(), AllocError> {
        let name = self.name_of(alloc, KindName::Convert)?;
        self.begin(alloc, KindName::Convert, name.as_str())?;
        push_entry(&mut self.blocks, "to", type_value(to))?;
        self.item = to;
        Ok(())
    }

    // Adds the head of a block's table, and the connections to it.
    fn begin(&mut self, alloc: Global, kind: KindName, name: &str) -> Result<(), AllocError> {
        let last = self.last.as_str();
        if !last.is_empty() {
            let text = format!(in alloc; "\n[[connect]]\nfrom = \"{last}\"\nto = \"{name}\"\n")?;
            self.connects.push_str(text.as_str())?;
            if has_two_inputs(kind) {
                self.connects.push_str(text.as_str())?;
                self.connects.push_str("to_port = 1\n")?;
            }
        }
        let of = kind.text();
        let text = format!(in alloc; "\n[[block]]\nname = \"{name}\"\nkind = \"{of}\"\n")?;
        self.blocks.push_str(text.as_str())?;
        if types_of(kind) != ItemTypes::Bytes {
            push_entry(&mut self.blocks, "type", type_value(self.item))?;
        }
        self.last = String::from_str(alloc, name)?;
        self.count = self.count.saturating_add(1);
        Ok(())
    }

    // The graph file.
    fn text(&self, alloc: Global) -> Result<String, AllocError> {
        let mut text = String::from_str(alloc, HEAD)?;
        text.push_str(self.blocks.as_str())?;
        text.push_str(self.connects.as_str())?;
        text.push_str(FEED)?;
        Ok(text)
    }
}

// The type of the items that a chain of these kinds begins with.
fn first_type(kinds: &[KindName]) -> ItemType {
    match kinds.first() {
        Some(kind) if types_of(*kind) == ItemTypes::Bytes => ItemType::Byte,
        _ => ItemType::Short,
    }
}

// The item type that a block of a kind takes in place of this one, if it does not take this one.
fn other_type(kind: KindName, item: ItemType) -> Option<ItemType> {
    match (types_of(kind), item) {
        (ItemTypes::Bytes, ItemType::Short | ItemType::Int) => Some(ItemType::Byte),
        (ItemTypes::Wide, ItemType::Byte) => Some(ItemType::Short),
        _ => None,
    }
}

// Whether a block of the kind gives bytes, whatever it takes.
fn gives_bytes(kind: KindName) -> bool {
    matches!(
        kind,
        KindName::BinarySlicer | KindName::UlawEncode | KindName::AlawEncode | KindName::Viterbi
    )
}

// Whether a block of the kind needs two inputs.
fn has_two_inputs(kind: KindName) -> bool {
    matches!(kind, KindName::SampleAndHold)
}

fn type_value(item: ItemType) -> &'static str {
    match item {
        ItemType::Byte => "\"byte\"",
        ItemType::Short => "\"short\"",
        ItemType::Int => "\"int\"",
    }
}

// A value in this range. It fits whatever values other parameters have by this function.
fn value_of(range: Range) -> &'static str {
    match range {
        Range::Type => "\"short\"",
        // (a range that begins above 2 is that of the bits of a checksum)
        Range::Number(least, _) if 2 < least => "8",
        Range::Number(least, _) if 1 < least => "2",
        Range::Item
        | Range::Short
        | Range::Number(_, _)
        | Range::Register(_)
        | Range::High
        | Range::AtLeast(_, _)
        | Range::ItemBits
        | Range::Steps => "1",
        Range::Long(_) => "4",
        Range::Switch
        | Range::KeptOffset
        | Range::ValuesOffset
        | Range::Threshold
        | Range::State
        | Range::KnownState => "0",
        Range::Period => "2",
        Range::BitOrder => "\"msb_first\"",
        Range::Code => "\"1\"",
        Range::Items | Range::TargetItems | Range::Taps | Range::Bytes | Range::Lengths => "[1]",
        Range::Places
        | Range::States
        | Range::Outputs
        | Range::FewStates
        | Range::NumbersOfOutputs => "[0]",
    }
}

fn push_entry(text: &mut String, key: &str, value: &str) -> Result<(), AllocError> {
    text.push_str(key)?;
    text.push_str(" = ")?;
    text.push_str(value)?;
    text.push_str("\n")
}
