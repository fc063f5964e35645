//! The values of parameters, in the types that blocks are made of.
ghost use Rattle.std.specs.Prelude.{◌≡◌, Some, None, IfOk, IfErr, take};
ghost use Rattle.toml.specs.View.{table_view};
ghost use Rattle.kind_schema.specs.Tables as tables;
ghost use Rattle.kind_schema.specs.declared.key.Key.TheVariants as key;

use crate::key::Key;
use crate::table::{count_at, first_numbers_at, number_at, order_at, small_at, type_at};
use arrayvec::ArrayVec;
use block_parameters::{ParamFault, Parameter};
use items::ItemType;
use kind_model::BitOrder;
use toml::Table;

pub(crate) fn number(table: &Table, parameter: Parameter) -> i64
    ensures { result ≡ tables.number_at (table_view table.now) (key.Parameter parameter) }
{
    number_at(table, Key::Parameter(parameter))
}

pub(crate) fn count(table: &Table, parameter: Parameter) -> u64
    ensures { result ≡ tables.count_at (table_view table.now) (key.Parameter parameter) }
{
    count_at(table, Key::Parameter(parameter))
}

pub(crate) fn small(table: &Table, parameter: Parameter) -> u32
    ensures { result ≡ tables.small_at (table_view table.now) (key.Parameter parameter) }
{
    small_at(table, Key::Parameter(parameter))
}

/// The whole number at a parameter, as 64 bits.
pub(crate) fn wide(table: &Table, parameter: Parameter) -> u64
    ensures { result ≡ tables.small_at (table_view table.now) (key.Parameter parameter) }
{
    u64::from(small(table, parameter))
}

/// The state at a parameter; none if the number is less than 0.
pub(crate) fn known(table: &Table, parameter: Parameter) -> Option<u32>
    ensures { result ≡ tables.known_at (table_view table.now) (key.Parameter parameter) }
{
    (number(table, parameter) >= 0).then_some(small(table, parameter))
}

/// The list at a parameter, cut off at a length that is too long for every kind.
pub(crate) fn numbers(table: &Table, parameter: Parameter) -> ArrayVec<i64, 257>
    ensures { result.items ≡ take 257 (tables.numbers_at (table_view table.now) (key.Parameter parameter)) }
{
    first_numbers_at(table, Key::Parameter(parameter))
}

/// The list at a parameter, cut off at a length that is too long for a table of a machine.
pub(crate) fn long_numbers(table: &Table, parameter: Parameter) -> ArrayVec<i64, 4097>
    ensures { result.items ≡ take 4097 (tables.numbers_at (table_view table.now) (key.Parameter parameter)) }
{
    first_numbers_at(table, Key::Parameter(parameter))
}

/// The type that a converter gives.
pub(crate) fn target(table: &Table) -> Result<ItemType, ParamFault>
    ensures ok { IfOk result (λ to. tables.type_at (table_view table.now) (key.Parameter Parameter.To) ≡ Some to) }
    ensures err { IfErr result (λ fault. (fault ≡ ParamFault.BadParameter Parameter.To)
        × (tables.type_at (table_view table.now) (key.Parameter Parameter.To) ≡ None)) }
{
    match type_at(table, Key::Parameter(Parameter::To)) {
        Some(to) => Ok(to),
        None => Err(ParamFault::BadParameter(Parameter::To)),
    }
}

/// The order in which bits are taken or given.
pub(crate) fn bit_order(table: &Table) -> Result<BitOrder, ParamFault>
    ensures ok { IfOk result (λ order. tables.order_at (table_view table.now) (key.Parameter Parameter.Order)
        ≡ Some order) }
    ensures err { IfErr result (λ fault. (fault ≡ ParamFault.BadParameter Parameter.Order)
        × (tables.order_at (table_view table.now) (key.Parameter Parameter.Order) ≡ None)) }
{
    match order_at(table, Key::Parameter(Parameter::Order)) {
        Some(order) => Ok(order),
        None => Err(ParamFault::BadParameter(Parameter::Order)),
    }
}
