//! Makes the blocks that have a list as a parameter.
ghost use Rattle.std.specs.Prelude.{◌≡◌, Ok, IfOk, IfErr, true, false};
ghost use Rattle.toml.specs.View.{table_view};
ghost use Rattle.kinds.specs.Kind.{meaning_of};
ghost use Rattle.kind_schema.specs.Kinds.{made_of};
ghost use Rattle.kind_schema.specs.Reading.{IsBad};
ghost use Rattle.stream_model.specs.declared.vocabulary.ItemType.TheVariants as types;
ghost use Rattle.kinds.specs.declared.kind_name.KindName.TheVariants as kinds;

use crate::parameter_values::{numbers, small, target, wide};
use block_parameters::{ParamFault, Parameter};
use fir_blocks::{Fir, InterpFir};
use items::ItemType;
use kinds::Kind;
use math_blocks::{MapBb, Table as ByteTable};
use rate_blocks::{Insert, Pattern, Permute, StreamMux};
use std::alloc::Global;
use toml::Table;

pub(crate) fn make_map_bb(alloc: Global, table: &Table) -> Result<Kind, ParamFault>
    ensures ok { IfOk result (λ block. made_of kinds.MapBb types.Byte (table_view table.now) ≡ Ok (meaning_of block)) }
    ensures bad { IfErr result (IsBad true (made_of kinds.MapBb types.Byte (table_view table.now))) }
{
    let map = numbers(table, Parameter::Map);
    match MapBb::new(alloc, &map) {
        Ok(block) => Ok(Kind::MapBb(block)),
        Err(fault) => Err(fault),
    }
}

pub(crate) fn make_table(alloc: Global, table: &Table) -> Result<Kind, ParamFault>
    ensures ok { IfOk result (λ block. made_of kinds.Table types.Byte (table_view table.now) ≡ Ok (meaning_of block)) }
    ensures bad { IfErr result (IsBad true (made_of kinds.Table types.Byte (table_view table.now))) }
{
    let to = target(table)?;
    let values = numbers(table, Parameter::Values);
    match ByteTable::new(alloc, to, &values) {
        Ok(block) => Ok(Kind::Table(block)),
        Err(fault) => Err(fault),
    }
}

pub(crate) fn make_fir(alloc: Global, item: ItemType, table: &Table) -> Result<Kind, ParamFault>
    ensures ok { IfOk result (λ block. made_of kinds.Fir item (table_view table.now) ≡ Ok (meaning_of block)) }
    ensures bad { IfErr result (IsBad true (made_of kinds.Fir item (table_view table.now))) }
{
    let taps = numbers(table, Parameter::Taps);
    match Fir::new(
        alloc,
        item,
        &taps,
        wide(table, Parameter::Decimation),
        small(table, Parameter::Shift),
    ) {
        Ok(block) => Ok(Kind::Fir(block)),
        Err(fault) => Err(fault),
    }
}

pub(crate) fn make_interp_fir(
    alloc: Global,
    item: ItemType,
    table: &Table,
) -> Result<Kind, ParamFault>
    ensures ok { IfOk result (λ block. made_of kinds.InterpFir item (table_view table.now) ≡ Ok (meaning_of block)) }
    ensures bad { IfErr result (IsBad true (made_of kinds.InterpFir item (table_view table.now))) }
{
    let taps = numbers(table, Parameter::Taps);
    match InterpFir::new(
        alloc,
        item,
        &taps,
        wide(table, Parameter::Interpolation),
        small(table, Parameter::Shift),
    ) {
        Ok(block) => Ok(Kind::InterpFir(block)),
        Err(fault) => Err(fault),
    }
}

pub(crate) fn make_stream_mux(item: ItemType, table: &Table) -> Result<Kind, ParamFault>
    ensures ok { IfOk result (λ block. made_of kinds.StreamMux item (table_view table.now) ≡ Ok (meaning_of block)) }
    ensures bad { IfErr result (IsBad false (made_of kinds.StreamMux item (table_view table.now))) }
{
    let lengths = numbers(table, Parameter::Lengths);
    match StreamMux::new(item, &lengths) {
        Ok(block) => Ok(Kind::StreamMux(block)),
        Err(fault) => Err(fault),
    }
}

pub(crate) fn make_insert(alloc: Global, item: ItemType, table: &Table) -> Result<Kind, ParamFault>
    ensures ok { IfOk result (λ block. made_of kinds.Insert item (table_view table.now) ≡ Ok (meaning_of block)) }
    ensures bad { IfErr result (IsBad true (made_of kinds.Insert item (table_view table.now))) }
{
    let values = numbers(table, Parameter::Values);
    let (period, offset) = (
        wide(table, Parameter::Period),
        wide(table, Parameter::Offset),
    );
    match Insert::new(alloc, item, &values, period, offset) {
        Ok(block) => Ok(Kind::Insert(block)),
        Err(fault) => Err(fault),
    }
}

pub(crate) fn make_pattern(alloc: Global, item: ItemType, table: &Table) -> Result<Kind, ParamFault>
    ensures ok { IfOk result (λ block. made_of kinds.Pattern item (table_view table.now) ≡ Ok (meaning_of block)) }
    ensures bad { IfErr result (IsBad true (made_of kinds.Pattern item (table_view table.now))) }
{
    let values = numbers(table, Parameter::Values);
    match Pattern::new(alloc, item, &values) {
        Ok(block) => Ok(Kind::Pattern(block)),
        Err(fault) => Err(fault),
    }
}

pub(crate) fn make_permute(alloc: Global, item: ItemType, table: &Table) -> Result<Kind, ParamFault>
    ensures ok { IfOk result (λ block. made_of kinds.Permute item (table_view table.now) ≡ Ok (meaning_of block)) }
    ensures bad { IfErr result (IsBad true (made_of kinds.Permute item (table_view table.now))) }
{
    let places = numbers(table, Parameter::Places);
    match Permute::new(alloc, item, &places) {
        Ok(block) => Ok(Kind::Permute(block)),
        Err(fault) => Err(fault),
    }
}
