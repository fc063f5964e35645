//! Blocks of bits: packing, differences and scrambling.
#![tactic(auto)]

pub mod additive_scrambler;
mod code;
mod code_search;
pub mod correlate_access_code;
pub mod descrambler;
pub mod diff_decoder;
pub mod diff_encoder;
mod jump;
pub mod k_bits;
mod modulus;
pub mod pack_k_bits;
pub mod packed_to_unpacked;
mod packing;
pub mod register;
pub mod register_block;
pub mod repack_bits;
pub mod repacking;
pub mod scrambler;
mod scrambling;
mod sums;
pub mod unpack_k_bits;
pub mod unpacked_to_packed;

pub use additive_scrambler::AdditiveScrambler;
pub use correlate_access_code::CorrelateAccessCode;
pub use descrambler::Descrambler;
pub use diff_decoder::DiffDecoder;
pub use diff_encoder::DiffEncoder;
pub use k_bits::KBits;
pub use kind_model::BitOrder;
pub use pack_k_bits::PackKBits;
pub use packed_to_unpacked::PackedToUnpacked;
pub use register::Register;
pub use register_block::RegisterBlock;
pub use repack_bits::RepackBits;
pub use repacking::Repacking;
pub use scrambler::Scrambler;
pub use unpack_k_bits::UnpackKBits;
pub use unpacked_to_packed::UnpackedToPacked;
