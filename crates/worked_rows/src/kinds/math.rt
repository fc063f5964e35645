//! Worked rows of the kinds of arithmetic, logic, tables and conversion.

ghost use Rattle.std.specs.Prelude.{◌≡◌, pos, negsuc, [], ◌∷◌};
ghost use Rattle.stream_model.specs.declared.vocabulary.ItemType.TheVariants.{Byte, Short, Int};
ghost use Rattle.stream_model.specs.Settings.{Number};
ghost use Rattle.stream_model.specs.Network.{fires, stream_from};
ghost use Rattle.worked_rows.specs.Kinds.{numbers, set_at, alone, output_of, output_under, output_in_cuts};
ghost use Rattle.kind_model.specs.Math.{add_const, multiply_const, divide_const, divide, binary_slicer, ulaw_encode, alaw_encode, and_const, or_const, xor_const, scale, add, multiply, sub, minimum, maximum, and_of, or_of, xor_of, sample_and_hold, not_of, abs, clip, mute, map_bb, table, convert, moving_sum};

/// The rows, each with what it is about above its clauses.
pub fn rows()
    // 250 and 1 plus 10: the sum wraps.
    ensures adds_a_constant_whole { output_of (add_const Byte (pos 10)) (numbers (250 ∷ 1 ∷ []) ∷ []) 0
        ≡ numbers (4 ∷ 11 ∷ []) }
    ensures adds_a_constant_cut { output_in_cuts (add_const Byte (pos 10)) [] (numbers (250 ∷ 1 ∷ []) ∷ []) 0
        ≡ numbers (4 ∷ 11 ∷ []) }

    // A value that is set holds from its item on, and a later one at the same item replaces it.
    ensures sets_a_constant_last { output_under (add_const Byte (pos 10))
        (set_at 1 (Number (pos 20)) ∷ set_at 1 (Number (pos 30)) ∷ []) (numbers (0 ∷ 0 ∷ []) ∷ []) 0
        ≡ numbers (10 ∷ 30 ∷ []) }
    ensures sets_a_constant_later { output_under (add_const Byte (pos 10))
        (set_at 5 (Number (pos 20)) ∷ []) (numbers (0 ∷ 1 ∷ 2 ∷ 3 ∷ 4 ∷ 5 ∷ 6 ∷ 7 ∷ 8 ∷ 9 ∷ []) ∷ []) 0
        ≡ numbers (10 ∷ 11 ∷ 12 ∷ 13 ∷ 14 ∷ 25 ∷ 26 ∷ 27 ∷ 28 ∷ 29 ∷ []) }
    ensures sets_a_constant_cut { output_in_cuts (add_const Byte (pos 10))
        (set_at 5 (Number (pos 20)) ∷ []) (numbers (0 ∷ 1 ∷ 2 ∷ 3 ∷ 4 ∷ 5 ∷ 6 ∷ 7 ∷ 8 ∷ 9 ∷ []) ∷ []) 0
        ≡ numbers (10 ∷ 11 ∷ 12 ∷ 13 ∷ 14 ∷ 25 ∷ 26 ∷ 27 ∷ 28 ∷ 29 ∷ []) }

    // Four base firings make one: of ten items eight are taken.
    ensures fires_in_multiples_firings { fires (record (alone (add_const Byte (pos 0))) { multiple = 4 })
        (10 ∷ []) ≡ 2 }
    ensures fires_in_multiples_items { stream_from (record (alone (add_const Byte (pos 0))) { multiple = 4 }) []
        (numbers (1 ∷ 2 ∷ 3 ∷ 4 ∷ 5 ∷ 6 ∷ 7 ∷ 8 ∷ 9 ∷ 10 ∷ []) ∷ []) 0
        ≡ numbers (1 ∷ 2 ∷ 3 ∷ 4 ∷ 5 ∷ 6 ∷ 7 ∷ 8 ∷ []) }

    // Three times 100, modulo 256.
    ensures multiplies_whole { output_of (multiply_const Byte (pos 3)) (numbers (100 ∷ []) ∷ []) 0
        ≡ numbers (44 ∷ []) }
    ensures multiplies_cut { output_in_cuts (multiply_const Byte (pos 3)) [] (numbers (100 ∷ []) ∷ []) 0
        ≡ numbers (44 ∷ []) }

    // Over -2, without what is behind the point; over 0, and the least short over -1.
    ensures divides_by_a_constant_whole { output_of (divide_const Short (negsuc 1))
        ((pos 7 ∷ negsuc 6 ∷ negsuc 32767 ∷ []) ∷ []) 0
        ≡ negsuc 2 ∷ pos 3 ∷ pos 16384 ∷ [] }
    ensures divides_by_a_constant_none { output_of (divide_const Int (pos 0)) ((pos 7 ∷ negsuc 6 ∷ []) ∷ []) 0
        ≡ pos 0 ∷ pos 0 ∷ [] }
    ensures divides_by_a_constant_least { output_of (divide_const Short (negsuc 0)) ((negsuc 32767 ∷ []) ∷ []) 0
        ≡ negsuc 32767 ∷ [] }
    ensures divides_by_a_constant_set { output_under (divide_const Byte (pos 2))
        (set_at 1 (Number (pos 3)) ∷ []) (numbers (9 ∷ 10 ∷ []) ∷ []) 0 ≡ numbers (4 ∷ 3 ∷ []) }
    ensures divides_by_a_constant_cut { output_in_cuts (divide_const Byte (pos 3)) [] (numbers (100 ∷ 2 ∷ []) ∷ []) 0
        ≡ numbers (33 ∷ 0 ∷ []) }

    // The bits of 12 and 10 as numbers of one, and of -1 and 5.
    ensures joins_constant_bits_and { output_of (and_const Byte (pos 10)) (numbers (12 ∷ 255 ∷ []) ∷ []) 0
        ≡ numbers (8 ∷ 10 ∷ []) }
    ensures joins_constant_bits_or { output_of (or_const Byte (pos 10)) (numbers (12 ∷ 0 ∷ []) ∷ []) 0
        ≡ numbers (14 ∷ 10 ∷ []) }
    ensures joins_constant_bits_xor { output_in_cuts (xor_const Byte (pos 10)) [] (numbers (12 ∷ 255 ∷ []) ∷ []) 0
        ≡ numbers (6 ∷ 245 ∷ []) }
    ensures joins_constant_bits_signed { output_of (xor_const Short (negsuc 0)) ((pos 5 ∷ negsuc 32767 ∷ []) ∷ []) 0
        ≡ negsuc 5 ∷ pos 32767 ∷ [] }
    ensures joins_constant_bits_set { output_under (and_const Byte (pos 15))
        (set_at 1 (Number (pos 240)) ∷ []) (numbers (170 ∷ 170 ∷ []) ∷ []) 0
        ≡ numbers (10 ∷ 160 ∷ []) }

    // Times 3, halved: a half is rounded upwards, and a number past the range is saturated.
    ensures scales_whole { output_of (scale Short (pos 3) 1) ((pos 1 ∷ negsuc 0 ∷ pos 30000 ∷ []) ∷ []) 0
        ≡ pos 2 ∷ negsuc 0 ∷ pos 32767 ∷ [] }
    ensures scales_cut { output_in_cuts (scale Short (pos 3) 1)
        [] ((pos 1 ∷ negsuc 0 ∷ pos 30000 ∷ []) ∷ []) 0 ≡ pos 2 ∷ negsuc 0 ∷ pos 32767 ∷ [] }

    // Item by item, as far as both inputs go.
    ensures adds_inputs_two { output_of (add Byte)
        (numbers (1 ∷ 2 ∷ 3 ∷ 4 ∷ []) ∷ numbers (10 ∷ 20 ∷ 30 ∷ 40 ∷ []) ∷ []) 0
        ≡ numbers (11 ∷ 22 ∷ 33 ∷ 44 ∷ []) }
    ensures adds_inputs_uneven { output_of (add Byte)
        (numbers (1 ∷ 2 ∷ 3 ∷ []) ∷ numbers (1 ∷ 2 ∷ 3 ∷ 4 ∷ 5 ∷ []) ∷ []) 0
        ≡ numbers (2 ∷ 4 ∷ 6 ∷ []) }
    ensures adds_inputs_cut { output_in_cuts (add Byte)
        [] (numbers (1 ∷ 2 ∷ 3 ∷ []) ∷ numbers (1 ∷ 2 ∷ 3 ∷ 4 ∷ 5 ∷ []) ∷ []) 0
        ≡ numbers (2 ∷ 4 ∷ 6 ∷ []) }

    // Products wrap; of one input they are its items.
    ensures multiplies_inputs_whole { output_of (multiply Byte)
        (numbers (2 ∷ 16 ∷ []) ∷ numbers (3 ∷ 16 ∷ []) ∷ numbers (5 ∷ 1 ∷ []) ∷ []) 0
        ≡ numbers (30 ∷ 0 ∷ []) }
    ensures multiplies_inputs_signed { output_of (multiply Short)
        ((negsuc 32767 ∷ pos 200 ∷ []) ∷ (negsuc 0 ∷ pos 200 ∷ []) ∷ []) 0
        ≡ negsuc 32767 ∷ negsuc 25535 ∷ [] }
    ensures multiplies_inputs_one { output_of (multiply Byte) (numbers (7 ∷ []) ∷ []) 0 ≡ numbers (7 ∷ []) }
    ensures multiplies_inputs_cut { output_in_cuts (multiply Byte)
        [] (numbers (2 ∷ 3 ∷ []) ∷ numbers (4 ∷ 5 ∷ []) ∷ []) 0 ≡ numbers (8 ∷ 15 ∷ []) }

    // The first input less the others; of one input its negative.
    ensures subtracts_inputs_whole { output_of (sub Byte)
        (numbers (10 ∷ 3 ∷ []) ∷ numbers (3 ∷ 10 ∷ []) ∷ numbers (1 ∷ 0 ∷ []) ∷ []) 0
        ≡ numbers (6 ∷ 249 ∷ []) }
    ensures subtracts_inputs_one { output_of (sub Short) ((pos 5 ∷ negsuc 32767 ∷ []) ∷ []) 0
        ≡ negsuc 4 ∷ negsuc 32767 ∷ [] }
    ensures subtracts_inputs_cut { output_in_cuts (sub Byte)
        [] (numbers (10 ∷ 3 ∷ []) ∷ numbers (3 ∷ 10 ∷ []) ∷ []) 0 ≡ numbers (7 ∷ 249 ∷ []) }

    // The first input over the second, and that over the third.
    ensures divides_inputs_whole { output_of (divide Short)
        ((pos 100 ∷ negsuc 99 ∷ []) ∷ (pos 7 ∷ pos 7 ∷ []) ∷ (pos 3 ∷ negsuc 2 ∷ []) ∷ []) 0
        ≡ pos 4 ∷ pos 4 ∷ [] }
    ensures divides_inputs_none { output_of (divide Byte) (numbers (7 ∷ 9 ∷ []) ∷ numbers (0 ∷ 4 ∷ []) ∷ []) 0
        ≡ numbers (0 ∷ 2 ∷ []) }
    ensures divides_inputs_least { output_of (divide Int) ((negsuc 2147483647 ∷ []) ∷ (negsuc 0 ∷ []) ∷ []) 0
        ≡ negsuc 2147483647 ∷ [] }
    ensures divides_inputs_one { output_of (divide Short) ((negsuc 8 ∷ []) ∷ []) 0 ≡ negsuc 8 ∷ [] }
    ensures divides_inputs_cut { output_in_cuts (divide Byte)
        [] (numbers (200 ∷ 6 ∷ []) ∷ numbers (3 ∷ 7 ∷ []) ∷ []) 0 ≡ numbers (66 ∷ 0 ∷ []) }

    // Item by item, below 0 too.
    ensures chooses_the_least { output_of (minimum Short)
        ((pos 3 ∷ negsuc 6 ∷ []) ∷ (negsuc 1 ∷ negsuc 5 ∷ []) ∷ (pos 0 ∷ pos 9 ∷ []) ∷ []) 0
        ≡ negsuc 1 ∷ negsuc 6 ∷ [] }
    ensures chooses_the_greatest { output_of (maximum Short)
        ((pos 3 ∷ negsuc 6 ∷ []) ∷ (negsuc 1 ∷ negsuc 5 ∷ []) ∷ (pos 0 ∷ negsuc 8 ∷ []) ∷ []) 0
        ≡ pos 3 ∷ negsuc 5 ∷ [] }
    ensures chooses_in_cuts { output_in_cuts (minimum Byte)
        [] (numbers (1 ∷ 9 ∷ []) ∷ numbers (2 ∷ 8 ∷ []) ∷ []) 0 ≡ numbers (1 ∷ 8 ∷ []) }

    // The bits of 12 and 10, and all bits of a number turned.
    ensures joins_bits_and { output_of (and_of Byte) (numbers (12 ∷ []) ∷ numbers (10 ∷ []) ∷ []) 0
        ≡ numbers (8 ∷ []) }
    ensures joins_bits_or { output_of (or_of Byte) (numbers (12 ∷ []) ∷ numbers (10 ∷ []) ∷ []) 0
        ≡ numbers (14 ∷ []) }
    ensures joins_bits_xor { output_of (xor_of Byte) (numbers (12 ∷ []) ∷ numbers (10 ∷ []) ∷ []) 0
        ≡ numbers (6 ∷ []) }
    ensures joins_bits_not { output_of (not_of Byte) (numbers (0 ∷ 255 ∷ 12 ∷ []) ∷ []) 0
        ≡ numbers (255 ∷ 0 ∷ 243 ∷ []) }
    ensures joins_bits_not_signed { output_of (not_of Short) ((pos 0 ∷ negsuc 0 ∷ pos 32767 ∷ []) ∷ []) 0
        ≡ negsuc 0 ∷ pos 0 ∷ negsuc 32767 ∷ [] }
    ensures joins_bits_and_signed { output_of (and_of Short)
        ((negsuc 0 ∷ negsuc 1 ∷ []) ∷ (negsuc 32767 ∷ pos 7 ∷ []) ∷ []) 0
        ≡ negsuc 32767 ∷ pos 6 ∷ [] }

    // 0 at first, and then what stood where the second input last had another number than 0.
    ensures holds_whole { output_of (sample_and_hold Byte) (numbers (7 ∷ 8 ∷ 9 ∷ 10 ∷ []) ∷ numbers
        (0 ∷ 1 ∷ 0 ∷ 255 ∷ []) ∷ []) 0
        ≡ numbers (0 ∷ 8 ∷ 8 ∷ 10 ∷ []) }
    ensures holds_below_zero { output_of (sample_and_hold Short)
        ((negsuc 0 ∷ pos 5 ∷ negsuc 32767 ∷ []) ∷ (negsuc 32767 ∷ pos 0 ∷ pos 0 ∷ []) ∷ []) 0
        ≡ negsuc 0 ∷ negsuc 0 ∷ negsuc 0 ∷ [] }
    ensures holds_in_cuts { output_in_cuts (sample_and_hold Int)
        [] ((pos 70000 ∷ negsuc 1 ∷ pos 3 ∷ []) ∷ (pos 1 ∷ negsuc 0 ∷ pos 0 ∷ []) ∷ []) 0
        ≡ pos 70000 ∷ negsuc 1 ∷ negsuc 1 ∷ [] }
    ensures holds_bits { (sample_and_hold Byte).word [] (numbers (7 ∷ 8 ∷ []) ∷ numbers (1 ∷ 0 ∷ []) ∷ []) 2 ≡ 7 }
    ensures holds_bits_below_zero { (sample_and_hold Short).word [] ((negsuc 1 ∷ []) ∷ (pos 1 ∷ []) ∷ []) 1 ≡ 65534 }

    // The least short has no positive that is a short.
    ensures drops_the_sign { output_of (abs Short) ((pos 5 ∷ negsuc 4 ∷ negsuc 32767 ∷ []) ∷ []) 0
        ≡ pos 5 ∷ pos 5 ∷ negsuc 32767 ∷ [] }
    ensures drops_the_sign_cut { output_in_cuts (abs Byte) [] (numbers (0 ∷ 255 ∷ []) ∷ []) 0
        ≡ numbers (0 ∷ 255 ∷ []) }

    // From -2 to 3.
    ensures clips_whole { output_of (clip Short (negsuc 1) (pos 3))
        ((negsuc 2 ∷ negsuc 1 ∷ pos 0 ∷ pos 3 ∷ pos 4 ∷ []) ∷ []) 0
        ≡ negsuc 1 ∷ negsuc 1 ∷ pos 0 ∷ pos 3 ∷ pos 3 ∷ [] }
    ensures clips_cut { output_in_cuts (clip Byte (pos 2) (pos 3)) [] (numbers (1 ∷ 9 ∷ []) ∷ []) 0
        ≡ numbers (2 ∷ 3 ∷ []) }

    // Zeros from the item at which it is set to 1, until it is set to 0.
    ensures mutes_whole { output_of (mute Byte (pos 1)) (numbers (7 ∷ 8 ∷ []) ∷ []) 0 ≡ numbers (0 ∷ 0 ∷ []) }
    ensures mutes_under_settings { output_under (mute Byte (pos 0))
        (set_at 1 (Number (pos 1)) ∷ set_at 3 (Number (pos 0)) ∷ []) (numbers (5 ∷ 6 ∷ 7 ∷ 8 ∷ []) ∷ []) 0
        ≡ numbers (5 ∷ 0 ∷ 0 ∷ 8 ∷ []) }
    ensures mutes_in_cuts { output_in_cuts (mute Byte (pos 0))
        (set_at 1 (Number (pos 1)) ∷ set_at 3 (Number (pos 0)) ∷ []) (numbers (5 ∷ 6 ∷ 7 ∷ 8 ∷ []) ∷ []) 0
        ≡ numbers (5 ∷ 0 ∷ 0 ∷ 8 ∷ []) }

    // Bytes past the end get the last number.
    ensures gives_numbers_whole { output_of (table Short (negsuc 2 ∷ pos 300 ∷ []))
        (numbers (0 ∷ 1 ∷ 2 ∷ 255 ∷ []) ∷ []) 0
        ≡ negsuc 2 ∷ pos 300 ∷ pos 300 ∷ pos 300 ∷ [] }
    ensures gives_numbers_cut { output_in_cuts (table Int (pos 70000 ∷ negsuc 0 ∷ [])) [] (numbers (1 ∷ 0 ∷ []) ∷ []) 0
        ≡ negsuc 0 ∷ pos 70000 ∷ [] }

    // At the threshold, above it and below.
    ensures slices_whole { output_of (binary_slicer Short (pos 5)) ((pos 5 ∷ pos 6 ∷ pos 4 ∷ negsuc 32767 ∷ []) ∷ []) 0
        ≡ numbers (1 ∷ 1 ∷ 0 ∷ 0 ∷ []) }
    ensures slices_cut { output_in_cuts (binary_slicer Int (negsuc 0)) [] ((negsuc 1 ∷ negsuc 0 ∷ []) ∷ []) 0
        ≡ numbers (0 ∷ 1 ∷ []) }

    // At 0 and beside it, in the segments between, at the ends, and an int that is no short.
    ensures encodes_by_the_mu_law { output_of (ulaw_encode Short)
        ((pos 0 ∷ negsuc 0 ∷ pos 123 ∷ pos 124 ∷ negsuc 1123 ∷ pos 32767 ∷ negsuc 32767 ∷ []) ∷ []) 0
        ≡ numbers (255 ∷ 127 ∷ 240 ∷ 239 ∷ 76 ∷ 128 ∷ 0 ∷ []) }
    ensures encodes_by_the_mu_law_cut { output_in_cuts (ulaw_encode Int) [] ((pos 70000 ∷ negsuc 69999 ∷ []) ∷ []) 0
        ≡ numbers (128 ∷ 0 ∷ []) }
    ensures encodes_by_the_a_law { output_of (alaw_encode Short)
        ((pos 0 ∷ negsuc 0 ∷ negsuc 7 ∷ pos 255 ∷ pos 256 ∷ negsuc 1007 ∷ pos 32767 ∷ negsuc 32767 ∷ []) ∷ []) 0
        ≡ numbers (213 ∷ 85 ∷ 85 ∷ 218 ∷ 197 ∷ 122 ∷ 170 ∷ 42 ∷ []) }
    ensures encodes_by_the_a_law_cut { output_in_cuts (alaw_encode Int) [] ((pos 70000 ∷ negsuc 69999 ∷ []) ∷ []) 0
        ≡ numbers (170 ∷ 42 ∷ []) }

    // Bytes past the end of the table stay.
    ensures looks_up_whole { output_of (map_bb (numbers (5 ∷ 6 ∷ [])))
        (numbers (0 ∷ 1 ∷ 2 ∷ 255 ∷ []) ∷ []) 0 ≡ numbers (5 ∷ 6 ∷ 2 ∷ 255 ∷ []) }
    ensures looks_up_cut { output_in_cuts (map_bb (numbers (5 ∷ 6 ∷ [])))
        [] (numbers (0 ∷ 1 ∷ 2 ∷ 255 ∷ []) ∷ []) 0 ≡ numbers (5 ∷ 6 ∷ 2 ∷ 255 ∷ []) }

    // To the number that has the same lowest bits.
    ensures converts_short_to_byte { output_of (convert Short Byte)
        ((negsuc 0 ∷ pos 256 ∷ pos 300 ∷ []) ∷ []) 0 ≡ numbers (255 ∷ 0 ∷ 44 ∷ []) }
    ensures converts_int_to_short { output_of (convert Int Short) ((pos 40000 ∷ negsuc 39999 ∷ []) ∷ []) 0
        ≡ negsuc 25535 ∷ pos 25536 ∷ [] }
    ensures converts_widened { output_of (convert Short Int) ((negsuc 32767 ∷ pos 32767 ∷ []) ∷ []) 0
        ≡ negsuc 32767 ∷ pos 32767 ∷ [] }

    // The last three items, with zeros before the first.
    ensures sums_the_last_whole { output_of (moving_sum Byte 3) (numbers (1 ∷ 2 ∷ 3 ∷ 4 ∷ 200 ∷ 100 ∷ []) ∷ []) 0
        ≡ numbers (1 ∷ 3 ∷ 6 ∷ 9 ∷ 207 ∷ 48 ∷ []) }
    ensures sums_the_last_cut { output_in_cuts (moving_sum Byte 3)
        [] (numbers (1 ∷ 2 ∷ 3 ∷ 4 ∷ 200 ∷ 100 ∷ []) ∷ []) 0
        ≡ numbers (1 ∷ 3 ∷ 6 ∷ 9 ∷ 207 ∷ 48 ∷ []) }
{}
