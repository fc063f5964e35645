//! Makes the blocks that check and code from the parameters of a table.
ghost use Rattle.std.specs.Prelude.{◌≡◌, Ok, None, Some, IfOk, IfErr, true};
ghost use Rattle.toml.specs.View.{table_view};
ghost use Rattle.kinds.specs.Kind.{meaning_of};
ghost use Rattle.kind_schema.specs.Kinds.{checksum_at, made_of};
ghost use Rattle.kind_schema.specs.Reading.{IsBad};
ghost use Rattle.kind_schema.specs.Tables.{order_at};
ghost use Rattle.stream_model.specs.declared.vocabulary.ItemType.TheVariants as types;
ghost use Rattle.kinds.specs.declared.kind_name.KindName.TheVariants as kinds;
ghost use Rattle.kind_schema.specs.declared.key.Key.TheVariants as key;

use crate::parameter_values::{bit_order, count, known, long_numbers, small, wide};
use block_parameters::{ParamFault, Parameter};
use code_blocks::{Checksum, CrcAppend, CrcCheck, StateMachine, Trellis, Viterbi};
use items::ItemType;
use kinds::Kind;
use std::alloc::Global;
use toml::Table;

// The checksum that a table describes, with any numbers.
fn checksum(table: &Table) -> Result<Checksum, ParamFault>
    ensures ok { IfOk result (λ rule. rule ≡ checksum_at (table_view table.now)) }
    ensures order { IfOk result (λ rule. order_at (table_view table.now) (key.Parameter Parameter.Order)
        ≡ Some rule.order) }
    ensures err { IfErr result (λ fault. (fault ≡ ParamFault.BadParameter Parameter.Order)
        × (order_at (table_view table.now) (key.Parameter Parameter.Order) ≡ None)) }
{
    Ok(Checksum {
        order: bit_order(table)?,
        bits: small(table, Parameter::Bits),
        polynomial: count(table, Parameter::Polynomial),
        init: count(table, Parameter::Init),
        final_xor: count(table, Parameter::FinalXor),
    })
}

pub(crate) fn make_crc_append(alloc: Global, table: &Table) -> Result<Kind, ParamFault>
    ensures ok { IfOk result (λ block. made_of kinds.CrcAppend types.Byte (table_view table.now)
        ≡ Ok (meaning_of block)) }
    ensures bad { IfErr result (IsBad true (made_of kinds.CrcAppend types.Byte (table_view table.now))) }
{
    let rule = checksum(table)?;
    match CrcAppend::new(alloc, wide(table, Parameter::N), rule) {
        Ok(block) => Ok(Kind::CrcAppend(block)),
        Err(fault) => Err(fault),
    }
}

pub(crate) fn make_crc_check(alloc: Global, table: &Table) -> Result<Kind, ParamFault>
    ensures ok { IfOk result (λ block. made_of kinds.CrcCheck types.Byte (table_view table.now)
        ≡ Ok (meaning_of block)) }
    ensures bad { IfErr result (IsBad true (made_of kinds.CrcCheck types.Byte (table_view table.now))) }
{
    let rule = checksum(table)?;
    match CrcCheck::new(alloc, wide(table, Parameter::N), rule) {
        Ok(block) => Ok(Kind::CrcCheck(block)),
        Err(fault) => Err(fault),
    }
}

pub(crate) fn make_state_machine(alloc: Global, table: &Table) -> Result<Kind, ParamFault>
    ensures ok { IfOk result (λ block. made_of kinds.StateMachine types.Byte (table_view table.now)
        ≡ Ok (meaning_of block)) }
    ensures bad { IfErr result (IsBad true (made_of kinds.StateMachine types.Byte (table_view table.now))) }
{
    let (symbols, start) = (
        small(table, Parameter::Symbols),
        small(table, Parameter::Init),
    );
    let next = long_numbers(table, Parameter::Next);
    let output = long_numbers(table, Parameter::Output);
    match StateMachine::new(alloc, symbols, &next, &output, start) {
        Ok(block) => Ok(Kind::StateMachine(block)),
        Err(fault) => Err(fault),
    }
}

pub(crate) fn make_viterbi(alloc: Global, item: ItemType, table: &Table) -> Result<Kind, ParamFault>
    ensures ok { IfOk result (λ block. made_of kinds.Viterbi item (table_view table.now) ≡ Ok (meaning_of block)) }
    ensures bad { IfErr result (IsBad true (made_of kinds.Viterbi item (table_view table.now))) }
{
    let next = long_numbers(table, Parameter::Next);
    let output = long_numbers(table, Parameter::Output);
    let trellis = Trellis {
        symbols: small(table, Parameter::Symbols),
        next: &next,
        outputs: small(table, Parameter::Outputs),
        output: &output,
        steps: small(table, Parameter::Steps),
        start: known(table, Parameter::Start),
        end: known(table, Parameter::End),
    };
    match Viterbi::new(alloc, item, &trellis) {
        Ok(block) => Ok(Kind::Viterbi(block)),
        Err(fault) => Err(fault),
    }
}
