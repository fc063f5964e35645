//! Worked rows of the kinds of bits.

ghost use Rattle.std.specs.Prelude.{◌≡◌, ◌-ℤ◌, pos, [], ◌∷◌, ◌++◌, replicate};
ghost use Rattle.stream_model.specs.declared.vocabulary.ItemType.TheVariants.{Byte, Short, Int};
ghost use Rattle.worked_rows.specs.Kinds.{numbers, output_of, output_in_cuts};
ghost use Rattle.kind_model.specs.Bits.{pack_k_bits, unpack_k_bits, diff_encoder, diff_decoder, scrambler, descrambler, additive_scrambler};
ghost use Rattle.kind_model.specs.declared.vocabulary.BitOrder.TheVariants.{MsbFirst, LsbFirst};
ghost use Rattle.kind_model.specs.BitStreams.{repack_bits, packed_to_unpacked, unpacked_to_packed, correlate_access_code};

/// The rows, each with what it is about above its clauses.
pub fn rows()
    // Four lowest bits in a byte, the first the highest.
    ensures packs_whole { output_of (pack_k_bits 4)
        (numbers (0 ∷ 1 ∷ 0 ∷ 1 ∷ 129 ∷ 0 ∷ 0 ∷ 0 ∷ []) ∷ []) 0 ≡ numbers (5 ∷ 8 ∷ []) }
    ensures packs_cut { output_in_cuts (pack_k_bits 4)
        [] (numbers (0 ∷ 1 ∷ 0 ∷ 1 ∷ 129 ∷ 0 ∷ 0 ∷ 0 ∷ []) ∷ []) 0 ≡ numbers (5 ∷ 8 ∷ []) }

    // The four lowest bits of a byte, the highest first.
    ensures unpacks_whole { output_of (unpack_k_bits 4) (numbers (245 ∷ 8 ∷ []) ∷ []) 0
        ≡ numbers (0 ∷ 1 ∷ 0 ∷ 1 ∷ 1 ∷ 0 ∷ 0 ∷ 0 ∷ []) }
    ensures unpacks_cut { output_in_cuts (unpack_k_bits 4) [] (numbers (245 ∷ 8 ∷ []) ∷ []) 0
        ≡ numbers (0 ∷ 1 ∷ 0 ∷ 1 ∷ 1 ∷ 0 ∷ 0 ∷ 0 ∷ []) }

    // A sum modulo 4, and its differences, which are the items again.
    ensures codes_differences_encoded { output_of (diff_encoder 4) (numbers (1 ∷ 2 ∷ 3 ∷ 1 ∷ []) ∷ []) 0
        ≡ numbers (1 ∷ 3 ∷ 2 ∷ 3 ∷ []) }
    ensures codes_differences_encoded_cut { output_in_cuts (diff_encoder 4) [] (numbers (1 ∷ 2 ∷ 3 ∷ 1 ∷ []) ∷ []) 0
        ≡ numbers (1 ∷ 3 ∷ 2 ∷ 3 ∷ []) }
    ensures codes_differences_decoded { output_of (diff_decoder 4) (numbers (1 ∷ 3 ∷ 2 ∷ 3 ∷ []) ∷ []) 0
        ≡ numbers (1 ∷ 2 ∷ 3 ∷ 1 ∷ []) }
    ensures codes_differences_decoded_cut { output_in_cuts (diff_decoder 4) [] (numbers (1 ∷ 3 ∷ 2 ∷ 3 ∷ []) ∷ []) 0
        ≡ numbers (1 ∷ 2 ∷ 3 ∷ 1 ∷ []) }

    // Each output is the input with the outputs one and three places before it.
    ensures scrambles_whole { output_of (scrambler 3 5 1) (numbers (1 ∷ 0 ∷ 0 ∷ 1 ∷ []) ∷ []) 0
        ≡ numbers (0 ∷ 0 ∷ 1 ∷ 0 ∷ []) }
    ensures scrambles_cut { output_in_cuts (scrambler 3 5 1) [] (numbers (1 ∷ 0 ∷ 0 ∷ 1 ∷ []) ∷ []) 0
        ≡ numbers (0 ∷ 0 ∷ 1 ∷ 0 ∷ []) }

    // And this undoes it.
    ensures descrambles_whole { output_of (descrambler 3 5 1) (numbers (0 ∷ 0 ∷ 1 ∷ 0 ∷ []) ∷ []) 0
        ≡ numbers (1 ∷ 0 ∷ 0 ∷ 1 ∷ []) }
    ensures descrambles_cut { output_in_cuts (descrambler 3 5 1) [] (numbers (0 ∷ 0 ∷ 1 ∷ 0 ∷ []) ∷ []) 0
        ≡ numbers (1 ∷ 0 ∷ 0 ∷ 1 ∷ []) }

    // On zeros: what the shift register gives by itself.
    ensures scrambles_additively_whole { output_of (additive_scrambler 3 5 1) (numbers (0 ∷ 0 ∷ 0 ∷ 0 ∷ []) ∷ []) 0
        ≡ numbers (1 ∷ 1 ∷ 0 ∷ 1 ∷ []) }
    ensures scrambles_additively_cut { output_in_cuts (additive_scrambler 3 5 1) [] (numbers (0 ∷ 0 ∷ 0 ∷ 0 ∷ []) ∷ [])
        0
        ≡ numbers (1 ∷ 1 ∷ 0 ∷ 1 ∷ []) }

    // The state word before the first firing is the number of the register.
    ensures begins_with_its_register_scrambler { (scrambler 3 5 6).word [] (numbers (1 ∷ []) ∷ []) 0 ≡ 6 }
    ensures begins_with_its_register_descrambler { (descrambler 3 5 6).word [] (numbers (1 ∷ []) ∷ []) 0 ≡ 6 }
    ensures begins_with_its_register_additive { (additive_scrambler 32 1 4294967295).word [] (numbers (1 ∷ []) ∷ []) 0
        ≡ 4294967295 }

    // 10110010 01111000 11000001 is 101 100 100 111 100 011 000 001. A byte that fills no whole round gives nothing.
    ensures repacks_highest_first { output_of (repack_bits 8 3 MsbFirst) (numbers (178 ∷ 120 ∷ 193 ∷ 255 ∷ []) ∷ []) 0
        ≡ numbers (5 ∷ 4 ∷ 4 ∷ 7 ∷ 4 ∷ 3 ∷ 0 ∷ 1 ∷ []) }
    ensures repacks_highest_first_cut { output_in_cuts (repack_bits 8 3 MsbFirst) []
        (numbers (178 ∷ 120 ∷ 193 ∷ 255 ∷ []) ∷ []) 0
        ≡ numbers (5 ∷ 4 ∷ 4 ∷ 7 ∷ 4 ∷ 3 ∷ 0 ∷ 1 ∷ []) }

    // From the lowest bit on they are 010 011 010 001 111 010 000 011, and the first bit counts 1.
    ensures repacks_lowest_first { output_of (repack_bits 8 3 LsbFirst) (numbers (178 ∷ 120 ∷ 193 ∷ []) ∷ []) 0
        ≡ numbers (2 ∷ 6 ∷ 2 ∷ 4 ∷ 7 ∷ 2 ∷ 0 ∷ 6 ∷ []) }

    // The two lowest bits of three bytes, 01 10 11, are 011 011.
    ensures repacks_lowest_bits { output_of (repack_bits 2 3 MsbFirst) (numbers (253 ∷ 2 ∷ 7 ∷ []) ∷ []) 0
        ≡ numbers (3 ∷ 3 ∷ []) }

    // The bits of -2 and of 4,660, four at a time, and all of them at once.
    ensures unpacks_shorts { output_of (packed_to_unpacked Short 4 MsbFirst) (((pos 0 -ℤ pos 2) ∷ pos 4660 ∷ []) ∷ []) 0
        ≡ numbers (15 ∷ 15 ∷ 15 ∷ 14 ∷ 1 ∷ 2 ∷ 3 ∷ 4 ∷ []) }
    ensures unpacks_whole_shorts { output_of (packed_to_unpacked Short 16 MsbFirst) (((pos 0 -ℤ pos 2) ∷ []) ∷ []) 0
        ≡ (pos 0 -ℤ pos 2) ∷ [] }

    // From the lowest bit on they are 0111 1111 1111 1111 and 0010 1100 0100 1000; the first bit of an output is the
    // highest here, too.
    ensures unpacks_shorts_cut { output_in_cuts (packed_to_unpacked Short 4 LsbFirst) []
        (((pos 0 -ℤ pos 2) ∷ pos 4660 ∷ []) ∷ []) 0
        ≡ numbers (7 ∷ 15 ∷ 15 ∷ 15 ∷ 2 ∷ 12 ∷ 4 ∷ 8 ∷ []) }

    // And back: only the lowest bits of an item count.
    ensures packs_shorts { output_of (unpacked_to_packed Short 4 MsbFirst)
        (((pos 0 -ℤ pos 1) ∷ pos 31 ∷ pos 15 ∷ pos 14 ∷ pos 1 ∷ []) ∷ []) 0
        ≡ (pos 0 -ℤ pos 2) ∷ [] }
    ensures packs_shorts_cut { output_in_cuts (unpacked_to_packed Short 4 LsbFirst) []
        (numbers (2 ∷ 12 ∷ 4 ∷ 8 ∷ []) ∷ []) 0 ≡ numbers (4660 ∷ []) }
    ensures packs_ints { output_of (unpacked_to_packed Int 16 MsbFirst) (numbers (65535 ∷ 65534 ∷ []) ∷ []) 0
        ≡ (pos 0 -ℤ pos 2) ∷ [] }
    ensures packs_bytes { output_of (unpacked_to_packed Byte 1 LsbFirst)
        (numbers (1 ∷ 0 ∷ 1 ∷ 0 ∷ 0 ∷ 0 ∷ 0 ∷ 1 ∷ []) ∷ []) 0 ≡ numbers (133 ∷ []) }

    // The code 101 ends at the third item, so that the fourth has the flag, 64 items later. With one wrong bit a code
    // is found in other places, too.
    ensures finds_code { output_of (correlate_access_code 5 3 0) ((numbers (1 ∷ 0 ∷ 1 ∷ 1 ∷ 0 ∷ [])
        ++ replicate 64 (pos 0)) ∷ []) 0
        ≡ replicate 64 (pos 0) ++ numbers (1 ∷ 0 ∷ 1 ∷ 3 ∷ 0 ∷ []) }
    ensures finds_code_cut { output_in_cuts (correlate_access_code 5 3 0) []
        ((numbers (1 ∷ 0 ∷ 1 ∷ 1 ∷ 0 ∷ []) ++ replicate 64 (pos 0)) ∷ []) 0
        ≡ replicate 64 (pos 0) ++ numbers (1 ∷ 0 ∷ 1 ∷ 3 ∷ 0 ∷ []) }

    // Before the first item are zeros, but no flag stands at fewer items than the code has.
    ensures finds_zeros { output_of (correlate_access_code 0 3 0) (numbers (1 ∷ 1 ∷ 1 ∷ 1 ∷ 1 ∷ []) ∷ []) 0
        ≡ numbers (0 ∷ 0 ∷ 0 ∷ 2 ∷ 2 ∷ []) }
{}
