//! GNU Radio's names for blocks and parameters of graph files. Blocks have the names of Companion and of Python.

use crate::tokens::{Span, part, rest};
use block_parameters::Parameter;
use kind_schema::{Key, keys_of};
use kinds::KindName;
use std::alloc::{AllocError, Global};

/// What a graph file has in place of a block of GNU Radio.
#[derive(Clone, Copy)]
pub(crate) enum Stands {
    Kind(KindName),
    /// A connection: the block passes its items on.
    Connection,
}

// The beginnings of block names in Companion and in Python.
const MODULES: [&[u8]; 10] = [
    b"blocks_",
    b"blocks.",
    b"digital_",
    b"digital.",
    b"filter_",
    b"filter.",
    b"analog_",
    b"analog.",
    b"vocoder_",
    b"vocoder.",
];

// The blocks whose kind has another name, without the types of their items.
const KINDS: [(&[u8], KindName); 15] = [
    (b"file_source", KindName::VectorSource),
    (b"file_sink", KindName::VectorSink),
    (b"rail", KindName::Clip),
    (b"min", KindName::Minimum),
    (b"max", KindName::Maximum),
    (b"map", KindName::MapBb),
    (b"chunks_to_symbols", KindName::Table),
    (b"char_to_short", KindName::Convert),
    (b"short_to_char", KindName::Convert),
    (b"moving_average", KindName::MovingSum),
    (b"fir_filter", KindName::Fir),
    (b"interp_fir_filter", KindName::InterpFir),
    (b"vector_insert", KindName::Insert),
    (b"streams_to_stream", KindName::Interleave),
    (b"stream_to_streams", KindName::Deinterleave),
];

// The blocks that pass their items on.
const CONNECTIONS: [&[u8]; 3] = [b"copy", b"throttle", b"throttle2"];

// The parameters whose key has another name, and how their values differ.
const KEYS: [(&[u8], Key, &str); 29] = [
    (b"id", Key::Name, ""),
    (b"minoutbuf", Key::Capacity, ""),
    (b"const", Key::Parameter(Parameter::Value), ""),
    (b"k", Key::Parameter(Parameter::Value), ""),
    (b"mute", Key::Parameter(Parameter::On), ""),
    (b"lo", Key::Parameter(Parameter::Low), ""),
    (b"hi", Key::Parameter(Parameter::High), ""),
    (b"symbol_table", Key::Parameter(Parameter::Values), ""),
    (b"vector", Key::Parameter(Parameter::Values), ""),
    (b"data", Key::Parameter(Parameter::Values), ""),
    (b"periodicity", Key::Parameter(Parameter::Period), ""),
    (b"decim", Key::Parameter(Parameter::Decimation), ""),
    (b"decim", Key::Parameter(Parameter::N), ""),
    (b"interp", Key::Parameter(Parameter::Interpolation), ""),
    (b"interp", Key::Parameter(Parameter::N), ""),
    (b"num_items", Key::Parameter(Parameter::N), ""),
    (b"delay", Key::Parameter(Parameter::N), ""),
    (b"dly", Key::Parameter(Parameter::N), ""),
    (b"num_streams", Key::Parameter(Parameter::Ports), ""),
    (b"num_ports", Key::Parameter(Parameter::Ports), ""),
    (b"endianness", Key::Parameter(Parameter::Order), ""),
    (b"bits_per_chunk", Key::Parameter(Parameter::Bits), ""),
    (b"num_bits", Key::Parameter(Parameter::Bits), ""),
    (
        b"len",
        Key::Parameter(Parameter::Bits),
        ", which is one more",
    ),
    (b"initial_value", Key::Parameter(Parameter::Init), ""),
    (b"init_state", Key::Parameter(Parameter::Init), ""),
    (
        b"seed",
        Key::Parameter(Parameter::Init),
        ", with the bits in reverse order",
    ),
    (b"access_code", Key::Parameter(Parameter::Code), ""),
    (b"poly", Key::Parameter(Parameter::Polynomial), ""),
];

// The parameters of a source that are fed here.
const FED: [&[u8]; 3] = [b"vector", b"data", b"items"];

/// What a graph file has in place of the GNU Radio block of a name.
pub(crate) fn stands_for(name: &[u8]) -> Option<Stands> {
    let stem = without_types(without_module(name));
    if CONNECTIONS.iter().any(|other| *other == stem) {
        return Some(Stands::Connection);
    }
    for (other, kind) in &KINDS {
        if *other == stem {
            return Some(Stands::Kind(*kind));
        }
    }
    match std::str::from_utf8(stem) {
        Ok(text) => Some(Stands::Kind(KindName::named(text)?)),
        Err(_) => None,
    }
}

/// The hint about a key of a block of a kind, if the key is the name of a GNU Radio parameter; else empty.
pub(crate) fn key_hint(alloc: Global, kind: KindName, name: &[u8]) -> Result<String, AllocError> {
    if kind == KindName::VectorSource && FED.iter().any(|other| *other == name) {
        return String::from_str(alloc, "; its items stand in a table [[feed]]");
    }
    match (key_for(kind, name), std::str::from_utf8(name)) {
        (Some((key, difference)), Ok(name)) => {
            let key = key.text();
            format!(in alloc; "; GNU Radio's `{name}` is `{key}` here{difference}")
        }
        _ => Ok(String::new(alloc)),
    }
}

// The key that a block of a kind has for the GNU Radio parameter of a name, and how its value differs.
fn key_for(kind: KindName, name: &[u8]) -> Option<(Key, &'static str)> {
    let keys = keys_of(kind);
    for (other, key, difference) in &KEYS {
        if *other == name && keys.contains(key) {
            return Some((*key, *difference));
        }
    }
    None
}

fn without_module(name: &[u8]) -> &[u8] {
    for module in &MODULES {
        if name.starts_with(module) {
            return rest(name, module.len());
        }
    }
    name
}

// A name without the letters at its end that say its item types, like `vxx` or `bb`.
fn without_types(name: &[u8]) -> &[u8] {
    let mut end = name.len();
    for (number, byte) in name.iter().enumerate() {
        if *byte == b'_' {
            end = number;
        }
    }
    let types = rest(name, end.saturating_add(1));
    if types.len() <= 3 && types.iter().all(|byte| is_type(*byte)) {
        part(name, Span { start: 0, end })
    } else {
        name
    }
}

fn is_type(byte: u8) -> bool {
    matches!(byte, b'b' | b's' | b'i' | b'f' | b'c' | b'v' | b'x')
}
