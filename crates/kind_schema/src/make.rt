//! Makes the block of a kind from the parameters of a table.
ghost use Rattle.std.specs.Prelude.{◌≡◌, Ok, IfOk, IfErr, false};
ghost use Rattle.toml.specs.View.{table_view};
ghost use Rattle.kinds.specs.Kind.{meaning_of};
ghost use Rattle.kind_schema.specs.Kinds.{keeps_list, made, made_of};
ghost use Rattle.kind_schema.specs.Reading.{IsBad, IsRegisterOf, IsBadRegister};
ghost use Rattle.stream_model.specs.declared.vocabulary.ItemType.TheVariants as types;
ghost use Rattle.kinds.specs.declared.kind_name.KindName.TheVariants as kinds;

use crate::code::{code_of, is_code};
use crate::key::Key;
use crate::make_codes::{make_crc_append, make_crc_check, make_state_machine, make_viterbi};
use crate::make_lists::{
    make_fir, make_insert, make_interp_fir, make_map_bb, make_pattern, make_permute,
    make_stream_mux, make_table,
};
use crate::parameter_values::{bit_order, count, number, small, target, wide};
use crate::table::{text_at, type_at};
use bit_blocks::{
    AdditiveScrambler, CorrelateAccessCode, Descrambler, DiffDecoder, DiffEncoder, PackKBits,
    PackedToUnpacked, Register, RepackBits, Scrambler, UnpackKBits, UnpackedToPacked,
};
use block_parameters::{ParamFault, Parameter};
use items::ItemType;
use kinds::{Kind, KindName, NullSink, VectorSink, VectorSource};
use math_blocks::{
    Abs, Add, AddConst, AlawEncode, And, AndConst, BinarySlicer, Clip, Convert, Divide,
    DivideConst, Maximum, Minimum, MovingSum, Multiply, MultiplyConst, Mute, Not, Or, OrConst,
    SampleAndHold, Scale, Sub, UlawEncode, Xor, XorConst,
};
use rate_blocks::{
    Argmax, Counter, Deinterleave, Delay, FrameMaximum, FrameMinimum, Head, Integrate, Interleave,
    KeepMInN, KeepOneInN, Repeat, SkipHead,
};
use std::alloc::Global;
use toml::Table;

/// The block of a kind with the parameters of a table.
pub(crate) fn make(alloc: Global, kind: KindName, table: &Table) -> Result<Kind, ParamFault>
    ensures ok { IfOk result (λ block. made kind (table_view table.now) ≡ Ok (meaning_of block)) }
    ensures bad { IfErr result (IsBad (keeps_list kind) (made kind (table_view table.now))) }
{
    match type_at(table, Key::Parameter(Parameter::ItemType)) {
        Some(item) => make_of(alloc, kind, item, table),
        None => Err(ParamFault::BadParameter(Parameter::ItemType)),
    }
}

// The block of a kind on items of a type.
fn make_of(alloc: Global, kind: KindName, item: ItemType, table: &Table) -> Result<Kind, ParamFault>
    ensures ok { IfOk result (λ block. made_of kind item (table_view table.now) ≡ Ok (meaning_of block)) }
    ensures bad { IfErr result (IsBad (keeps_list kind) (made_of kind item (table_view table.now))) }
{
    match kind {
        KindName::VectorSource => Ok(Kind::VectorSource(VectorSource::new(item))),
        KindName::VectorSink => Ok(Kind::VectorSink(VectorSink::new(item))),
        KindName::NullSink => Ok(Kind::NullSink(NullSink::new(item))),
        KindName::AddConst => Ok(Kind::AddConst(AddConst::new(
            item,
            number(table, Parameter::Value),
        )?)),
        KindName::MultiplyConst => Ok(Kind::MultiplyConst(MultiplyConst::new(
            item,
            number(table, Parameter::Value),
        )?)),
        KindName::DivideConst => Ok(Kind::DivideConst(DivideConst::new(
            item,
            number(table, Parameter::Value),
        )?)),
        KindName::Scale => Ok(Kind::Scale(Scale::new(
            item,
            number(table, Parameter::Factor),
            small(table, Parameter::Shift),
        )?)),
        KindName::AndConst => Ok(Kind::AndConst(AndConst::new(
            item,
            number(table, Parameter::Value),
        )?)),
        KindName::OrConst => Ok(Kind::OrConst(OrConst::new(
            item,
            number(table, Parameter::Value),
        )?)),
        KindName::XorConst => Ok(Kind::XorConst(XorConst::new(
            item,
            number(table, Parameter::Value),
        )?)),
        KindName::Clip => make_clip(item, table),
        KindName::Abs => Ok(Kind::Abs(Abs::new(item))),
        KindName::Mute => Ok(Kind::Mute(Mute::new(item, number(table, Parameter::On))?)),
        KindName::Sub => Ok(Kind::Sub(Sub::new(item))),
        KindName::Multiply => Ok(Kind::Multiply(Multiply::new(item))),
        KindName::Divide => Ok(Kind::Divide(Divide::new(item))),
        KindName::Minimum => Ok(Kind::Minimum(Minimum::new(item))),
        KindName::Maximum => Ok(Kind::Maximum(Maximum::new(item))),
        KindName::Add => Ok(Kind::Add(Add::new(item))),
        KindName::And => Ok(Kind::And(And::new(item))),
        KindName::Or => Ok(Kind::Or(Or::new(item))),
        KindName::Xor => Ok(Kind::Xor(Xor::new(item))),
        KindName::SampleAndHold => Ok(Kind::SampleAndHold(SampleAndHold::new(item))),
        KindName::Not => Ok(Kind::Not(Not::new(item))),
        KindName::MapBb => make_map_bb(alloc, table),
        KindName::Table => make_table(alloc, table),
        KindName::Convert => Ok(Kind::Convert(Convert::new(item, target(table)?))),
        KindName::BinarySlicer => Ok(Kind::BinarySlicer(BinarySlicer::new(
            item,
            number(table, Parameter::Threshold),
        )?)),
        KindName::UlawEncode => Ok(Kind::UlawEncode(UlawEncode::new(item))),
        KindName::AlawEncode => Ok(Kind::AlawEncode(AlawEncode::new(item))),
        KindName::MovingSum => Ok(Kind::MovingSum(MovingSum::new(
            item,
            small(table, Parameter::Length),
        )?)),
        KindName::Fir => make_fir(alloc, item, table),
        KindName::InterpFir => make_interp_fir(alloc, item, table),
        KindName::PackKBits => Ok(Kind::PackKBits(PackKBits::new(small(table, Parameter::K))?)),
        KindName::UnpackKBits => Ok(Kind::UnpackKBits(UnpackKBits::new(small(
            table,
            Parameter::K,
        ))?)),
        KindName::RepackBits => make_repack_bits(table),
        KindName::PackedToUnpacked => make_packed_to_unpacked(item, table),
        KindName::UnpackedToPacked => make_unpacked_to_packed(item, table),
        KindName::DiffEncoder => Ok(Kind::DiffEncoder(DiffEncoder::new(small(
            table,
            Parameter::Modulus,
        ))?)),
        KindName::DiffDecoder => Ok(Kind::DiffDecoder(DiffDecoder::new(small(
            table,
            Parameter::Modulus,
        ))?)),
        KindName::Scrambler => make_scrambler(table),
        KindName::Descrambler => make_descrambler(table),
        KindName::AdditiveScrambler => make_additive_scrambler(table),
        KindName::CorrelateAccessCode => make_correlate_access_code(table),
        KindName::CrcAppend => make_crc_append(alloc, table),
        KindName::CrcCheck => make_crc_check(alloc, table),
        KindName::StateMachine => make_state_machine(alloc, table),
        KindName::Viterbi => make_viterbi(alloc, item, table),
        KindName::KeepOneInN => Ok(Kind::KeepOneInN(KeepOneInN::new(
            item,
            wide(table, Parameter::N),
        )?)),
        KindName::KeepMInN => make_keep_m_in_n(item, table),
        KindName::Integrate => Ok(Kind::Integrate(Integrate::new(
            item,
            wide(table, Parameter::N),
        )?)),
        KindName::FrameMinimum => Ok(Kind::FrameMinimum(FrameMinimum::new(
            item,
            wide(table, Parameter::N),
        )?)),
        KindName::FrameMaximum => Ok(Kind::FrameMaximum(FrameMaximum::new(
            item,
            wide(table, Parameter::N),
        )?)),
        KindName::Argmax => Ok(Kind::Argmax(Argmax::new(item, wide(table, Parameter::N))?)),
        KindName::Repeat => Ok(Kind::Repeat(Repeat::new(item, wide(table, Parameter::N))?)),
        KindName::Insert => make_insert(alloc, item, table),
        KindName::Pattern => make_pattern(alloc, item, table),
        KindName::Counter => Ok(Kind::Counter(Counter::new(item, wide(table, Parameter::N))?)),
        KindName::Permute => make_permute(alloc, item, table),
        KindName::Interleave => Ok(Kind::Interleave(Interleave::new(
            item,
            wide(table, Parameter::Ports),
        )?)),
        KindName::Deinterleave => Ok(Kind::Deinterleave(Deinterleave::new(
            item,
            wide(table, Parameter::Ports),
        )?)),
        KindName::StreamMux => make_stream_mux(item, table),
        KindName::Head => Ok(Kind::Head(Head::new(item, count(table, Parameter::N))?)),
        KindName::SkipHead => Ok(Kind::SkipHead(SkipHead::new(item, count(table, Parameter::N))?)),
        KindName::Delay => Ok(Kind::Delay(Delay::new(item, wide(table, Parameter::N))?)),
    }
}

fn make_clip(item: ItemType, table: &Table) -> Result<Kind, ParamFault>
    ensures ok { IfOk result (λ block. made_of kinds.Clip item (table_view table.now) ≡ Ok (meaning_of block)) }
    ensures bad { IfErr result (IsBad false (made_of kinds.Clip item (table_view table.now))) }
{
    let low = number(table, Parameter::Low);
    let high = number(table, Parameter::High);
    match Clip::new(item, low, high) {
        Ok(block) => Ok(Kind::Clip(block)),
        Err(fault) => Err(fault),
    }
}

fn make_keep_m_in_n(item: ItemType, table: &Table) -> Result<Kind, ParamFault>
    ensures ok { IfOk result (λ block. made_of kinds.KeepMInN item (table_view table.now) ≡ Ok (meaning_of block)) }
    ensures bad { IfErr result (IsBad false (made_of kinds.KeepMInN item (table_view table.now))) }
{
    let (m, n) = (wide(table, Parameter::M), wide(table, Parameter::N));
    match KeepMInN::new(item, m, n, wide(table, Parameter::Offset)) {
        Ok(block) => Ok(Kind::KeepMInN(block)),
        Err(fault) => Err(fault),
    }
}

fn make_repack_bits(table: &Table) -> Result<Kind, ParamFault>
    ensures ok { IfOk result (λ block. made_of kinds.RepackBits types.Byte (table_view table.now)
        ≡ Ok (meaning_of block)) }
    ensures bad { IfErr result (IsBad false (made_of kinds.RepackBits types.Byte (table_view table.now))) }
{
    let order = bit_order(table)?;
    match RepackBits::new(
        small(table, Parameter::K),
        small(table, Parameter::L),
        order,
    ) {
        Ok(block) => Ok(Kind::RepackBits(block)),
        Err(fault) => Err(fault),
    }
}

fn make_packed_to_unpacked(item: ItemType, table: &Table) -> Result<Kind, ParamFault>
    ensures ok { IfOk result (λ block. made_of kinds.PackedToUnpacked item (table_view table.now)
        ≡ Ok (meaning_of block)) }
    ensures bad { IfErr result (IsBad false (made_of kinds.PackedToUnpacked item (table_view table.now))) }
{
    let order = bit_order(table)?;
    match PackedToUnpacked::new(item, small(table, Parameter::Bits), order) {
        Ok(block) => Ok(Kind::PackedToUnpacked(block)),
        Err(fault) => Err(fault),
    }
}

fn make_unpacked_to_packed(item: ItemType, table: &Table) -> Result<Kind, ParamFault>
    ensures ok { IfOk result (λ block. made_of kinds.UnpackedToPacked item (table_view table.now)
        ≡ Ok (meaning_of block)) }
    ensures bad { IfErr result (IsBad false (made_of kinds.UnpackedToPacked item (table_view table.now))) }
{
    let order = bit_order(table)?;
    match UnpackedToPacked::new(item, small(table, Parameter::Bits), order) {
        Ok(block) => Ok(Kind::UnpackedToPacked(block)),
        Err(fault) => Err(fault),
    }
}

fn make_correlate_access_code(table: &Table) -> Result<Kind, ParamFault>
    ensures ok { IfOk result (λ block. made_of kinds.CorrelateAccessCode types.Byte (table_view table.now)
        ≡ Ok (meaning_of block)) }
    ensures bad { IfErr result (IsBad false (made_of kinds.CorrelateAccessCode types.Byte (table_view table.now))) }
{
    let text = text_at(table, Key::Parameter(Parameter::Code)).as_bytes();
    if !is_code(text) {
        return Err(ParamFault::BadParameter(Parameter::Code));
    }
    let (code, length) = (code_of(text), text.len() as u32);
    match CorrelateAccessCode::new(code, length, small(table, Parameter::Threshold)) {
        Ok(block) => Ok(Kind::CorrelateAccessCode(block)),
        Err(fault) => Err(fault),
    }
}

fn make_scrambler(table: &Table) -> Result<Kind, ParamFault>
    ensures ok { IfOk result (λ block. made_of kinds.Scrambler types.Byte (table_view table.now)
        ≡ Ok (meaning_of block)) }
    ensures bad { IfErr result (IsBad false (made_of kinds.Scrambler types.Byte (table_view table.now))) }
{
    match register(table) {
        Ok(register) => Ok(Kind::Scrambler(Scrambler::new(register))),
        Err(fault) => Err(fault),
    }
}

fn make_descrambler(table: &Table) -> Result<Kind, ParamFault>
    ensures ok { IfOk result (λ block. made_of kinds.Descrambler types.Byte (table_view table.now)
        ≡ Ok (meaning_of block)) }
    ensures bad { IfErr result (IsBad false (made_of kinds.Descrambler types.Byte (table_view table.now))) }
{
    match register(table) {
        Ok(register) => Ok(Kind::Descrambler(Descrambler::new(register))),
        Err(fault) => Err(fault),
    }
}

fn make_additive_scrambler(table: &Table) -> Result<Kind, ParamFault>
    ensures ok { IfOk result (λ block. made_of kinds.AdditiveScrambler types.Byte (table_view table.now)
        ≡ Ok (meaning_of block)) }
    ensures bad { IfErr result (IsBad false (made_of kinds.AdditiveScrambler types.Byte (table_view table.now))) }
{
    match register(table) {
        Ok(register) => Ok(Kind::AdditiveScrambler(AdditiveScrambler::new(register))),
        Err(fault) => Err(fault),
    }
}

// The shift register of a table's parameters.
fn register(table: &Table) -> Result<Register, ParamFault>
    ensures ok { IfOk result (IsRegisterOf (table_view table.now)) }
    ensures err { IfErr result (IsBadRegister (table_view table.now)) }
{
    Register::new(
        small(table, Parameter::Bits),
        count(table, Parameter::Mask),
        count(table, Parameter::Init),
    )
}
