//! The keys of each kind.
ghost use Rattle.std.specs.Prelude.{◌≡◌, ◌≤◌, ◌+◌, ◌++◌, length, map};
ghost use Rattle.arrayvec.specs.ArrayVec.{array_vec_len};
ghost use Rattle.kind_schema.specs.Kinds.{keys_of, options_of, type_keys};
ghost use Rattle.kind_schema.specs.Ranges.{parameter};

use crate::key::Key;
use crate::kind_parameters::{parameters_of, types_of};
use crate::range::{ItemTypes, Range};
use arrayvec::ArrayVec;
use block_parameters::Parameter;
use kinds::KindName;

/// The keys of a block.
pub type Keys = ArrayVec<Key, 16>;

/// The keys of a block of the kind, in the order of their tests. It takes no memory.
pub fn keys_of(kind: KindName) -> Keys
    ensures { result.items ≡ keys_of kind }
{
    let mut keys = Keys::new();
    push_keys(&mut keys, &[Key::Name, Key::Kind]);
    push_keys(&mut keys, type_keys(types_of(kind)));
    push_parameters(&mut keys, parameters_of(kind));
    push_keys(&mut keys, options_of(kind));
    keys
}

fn type_keys(types: ItemTypes) -> &'static [Key]
    ensures keys { result.now ≡ type_keys types }
    ensures few { length result.now ≤ 1 }
{
    match types {
        ItemTypes::Bytes => &[],
        ItemTypes::Any | ItemTypes::Wide => &[Key::Parameter(Parameter::ItemType)],
    }
}

// The keys that are no parameters.
fn options_of(kind: KindName) -> &'static [Key]
    ensures options { result.now ≡ options_of kind }
    ensures few { length result.now ≤ 3 }
{
    match kind {
        KindName::VectorSource => &[Key::Capacity],
        KindName::VectorSink | KindName::NullSink => &[],
        _ => &[Key::Tags, Key::Multiple, Key::Capacity],
    }
}

fn push_keys(keys: &mut Keys, more: &[Key])
    requires room { array_vec_len keys.old + length more.now ≤ 16 }
    ensures items { keys.new.items ≡ keys.old.items ++ more.now }
    ensures len { array_vec_len keys.new ≡ array_vec_len keys.old + length more.now }
{
    for key in more {
        keys.push(*key);
    }
}

fn push_parameters(keys: &mut Keys, rows: &[(Parameter, Range)])
    requires room { array_vec_len keys.old + length rows.now ≤ 16 }
    ensures items { keys.new.items ≡ keys.old.items ++ map (λ row. parameter row.0) rows.now }
    ensures len { array_vec_len keys.new ≡ array_vec_len keys.old + length rows.now }
{
    for row in rows {
        keys.push(Key::Parameter(row.0));
    }
}
