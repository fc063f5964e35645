//! Worked rows of the kinds that change a rate, take turns or move a stream.

ghost use Rattle.std.specs.Prelude.{◌≡◌, pos, negsuc, [], ◌∷◌, map};
ghost use Rattle.stream_model.specs.declared.vocabulary.ItemType.TheVariants.{Byte, Short};
ghost use Rattle.stream_model.specs.Lists.{numbers_from};
ghost use Rattle.worked_rows.specs.Kinds.{numbers, output_of, output_in_cuts, firings_of};
ghost use Rattle.kind_model.specs.Rates.{keep_one_in_n, keep_m_in_n, insert, permute, frame_minimum, frame_maximum, argmax, pattern, counter, integrate, repeat, interleave, deinterleave, head, skiphead, delay, stream_mux};

/// The rows, each with what it is about above its clauses.
pub fn rows()
    // The last of three; the item after two whole firings is never taken.
    ensures keeps_one_whole { output_of (keep_one_in_n Byte 3)
        (numbers (1 ∷ 2 ∷ 3 ∷ 4 ∷ 5 ∷ 6 ∷ 7 ∷ []) ∷ []) 0 ≡ numbers (3 ∷ 6 ∷ []) }
    ensures keeps_one_cut { output_in_cuts (keep_one_in_n Byte 3)
        [] (numbers (1 ∷ 2 ∷ 3 ∷ 4 ∷ 5 ∷ 6 ∷ 7 ∷ []) ∷ []) 0 ≡ numbers (3 ∷ 6 ∷ []) }
    ensures keeps_one_firings { firings_of (keep_one_in_n Byte 3) (numbers (1 ∷ 2 ∷ 3 ∷ 4 ∷ 5 ∷ 6 ∷ 7 ∷ []) ∷ [])
        ≡ 2 }

    // Two of four, after one that is left out; the last firing has not its items.
    ensures keeps_some_whole { output_of (keep_m_in_n Byte 2 4 1)
        (numbers (1 ∷ 2 ∷ 3 ∷ 4 ∷ 5 ∷ 6 ∷ 7 ∷ 8 ∷ 9 ∷ 10 ∷ []) ∷ []) 0 ≡ numbers (2 ∷ 3 ∷ 6 ∷ 7 ∷ []) }
    ensures keeps_some_cut { output_in_cuts (keep_m_in_n Byte 2 4 1)
        [] (numbers (1 ∷ 2 ∷ 3 ∷ 4 ∷ 5 ∷ 6 ∷ 7 ∷ 8 ∷ 9 ∷ 10 ∷ []) ∷ []) 0 ≡ numbers (2 ∷ 3 ∷ 6 ∷ 7 ∷ []) }

    // All of three, and the last of three.
    ensures keeps_all { output_of (keep_m_in_n Byte 3 3 0) (numbers (1 ∷ 2 ∷ 3 ∷ 4 ∷ []) ∷ []) 0
        ≡ numbers (1 ∷ 2 ∷ 3 ∷ []) }
    ensures keeps_the_last { output_of (keep_m_in_n Byte 1 3 2) (numbers (1 ∷ 2 ∷ 3 ∷ 4 ∷ []) ∷ []) 0
        ≡ numbers (3 ∷ []) }

    // A tag goes to the nearest item (ties round up): at one item for four, at two for one, at two for four, at five
    // for three, and at three for three.
    ensures places_by_rate_down { (keep_one_in_n Byte 4).place 0 1 ≡ 0 }
    ensures places_by_rate_up { (keep_one_in_n Byte 4).place 0 2 ≡ 1 }
    ensures places_by_rate_repeated { (repeat Byte 2).place 0 1 ≡ 2 }
    ensures places_by_rate_kept { (keep_m_in_n Byte 2 4 1).place 0 3 ≡ 2 }
    ensures places_by_rate_inserted { (insert Byte (numbers (9 ∷ 8 ∷ [])) 5 1).place 0 1 ≡ 2 }
    ensures places_by_rate_permuted { (permute Byte (2 ∷ 0 ∷ 1 ∷ [])).place 0 1 ≡ 1 }

    // Sums of two; a rest is left.
    ensures integrates_whole { output_of (integrate Byte 2) (numbers (200 ∷ 100 ∷ 5 ∷ 6 ∷ 7 ∷ []) ∷ []) 0
        ≡ numbers (44 ∷ 11 ∷ []) }
    ensures integrates_cut { output_in_cuts (integrate Byte 2) [] (numbers (200 ∷ 100 ∷ 5 ∷ 6 ∷ 7 ∷ []) ∷ []) 0
        ≡ numbers (44 ∷ 11 ∷ []) }

    // The least and the greatest of three, and where the first of the greatest is; what is no whole frame stays.
    ensures chooses_the_least { output_of (frame_minimum Short 3)
        ((pos 4 ∷ negsuc 1 ∷ pos 9 ∷ pos 5 ∷ pos 6 ∷ pos 7 ∷ pos 1 ∷ []) ∷ []) 0 ≡ negsuc 1 ∷ pos 5 ∷ [] }
    ensures chooses_the_greatest { output_of (frame_maximum Short 3)
        ((pos 4 ∷ negsuc 1 ∷ pos 9 ∷ negsuc 4 ∷ negsuc 5 ∷ negsuc 6 ∷ pos 1 ∷ []) ∷ []) 0 ≡ pos 9 ∷ negsuc 4 ∷ [] }
    ensures chooses_in_cuts { output_in_cuts (frame_maximum Byte 2) [] (numbers (1 ∷ 2 ∷ 9 ∷ 3 ∷ 5 ∷ []) ∷ []) 0
        ≡ numbers (2 ∷ 9 ∷ []) }
    ensures tells_places_whole { output_of (argmax Short 3)
        ((pos 4 ∷ negsuc 1 ∷ pos 9 ∷ negsuc 4 ∷ pos 8 ∷ pos 8 ∷ []) ∷ []) 0 ≡ pos 2 ∷ pos 1 ∷ [] }
    ensures tells_places_cut { output_in_cuts (argmax Byte 2) [] (numbers (3 ∷ 3 ∷ 0 ∷ 9 ∷ []) ∷ []) 0
        ≡ numbers (0 ∷ 1 ∷ []) }

    // Three values again and again, and numbers modulo 3, whatever comes.
    ensures repeats_a_pattern_whole { output_of (pattern Byte (numbers (7 ∷ 8 ∷ 9 ∷ [])))
        (numbers (1 ∷ 1 ∷ 1 ∷ 1 ∷ 1 ∷ []) ∷ []) 0
        ≡ numbers (7 ∷ 8 ∷ 9 ∷ 7 ∷ 8 ∷ []) }
    ensures repeats_a_pattern_cut { output_in_cuts (pattern Byte (numbers (7 ∷ 8 ∷ []))) []
        (numbers (0 ∷ 5 ∷ 0 ∷ []) ∷ []) 0
        ≡ numbers (7 ∷ 8 ∷ 7 ∷ []) }
    ensures counts_whole { output_of (counter Byte 3) (numbers (9 ∷ 9 ∷ 9 ∷ 9 ∷ []) ∷ []) 0
        ≡ numbers (0 ∷ 1 ∷ 2 ∷ 0 ∷ []) }
    ensures counts_cut { output_in_cuts (counter Byte 2) [] (numbers (5 ∷ 6 ∷ 7 ∷ []) ∷ []) 0
        ≡ numbers (0 ∷ 1 ∷ 0 ∷ []) }

    // Two values in each five, after the first of them.
    ensures inserts_whole { output_of (insert Byte (numbers (9 ∷ 8 ∷ [])) 5 1)
        (numbers (1 ∷ 2 ∷ 3 ∷ 4 ∷ 5 ∷ 6 ∷ 7 ∷ []) ∷ []) 0 ≡ numbers (1 ∷ 9 ∷ 8 ∷ 2 ∷ 3 ∷ 4 ∷ 9 ∷ 8 ∷ 5 ∷ 6 ∷ []) }
    ensures inserts_cut { output_in_cuts (insert Byte (numbers (9 ∷ 8 ∷ [])) 5 1)
        [] (numbers (1 ∷ 2 ∷ 3 ∷ 4 ∷ 5 ∷ 6 ∷ 7 ∷ []) ∷ []) 0 ≡ numbers (1 ∷ 9 ∷ 8 ∷ 2 ∷ 3 ∷ 4 ∷ 9 ∷ 8 ∷ 5 ∷ 6 ∷ []) }

    // The values first, and last.
    ensures inserts_first { output_of (insert Byte (numbers (9 ∷ [])) 3 0) (numbers (1 ∷ 2 ∷ 3 ∷ 4 ∷ []) ∷ []) 0
        ≡ numbers (9 ∷ 1 ∷ 2 ∷ 9 ∷ 3 ∷ 4 ∷ []) }
    ensures inserts_last { output_of (insert Byte (numbers (9 ∷ [])) 3 2) (numbers (1 ∷ 2 ∷ 3 ∷ 4 ∷ []) ∷ []) 0
        ≡ numbers (1 ∷ 2 ∷ 9 ∷ 3 ∷ 4 ∷ 9 ∷ []) }

    // The last of three to the front; a rest is left.
    ensures permutes_whole { output_of (permute Byte (2 ∷ 0 ∷ 1 ∷ []))
        (numbers (1 ∷ 2 ∷ 3 ∷ 4 ∷ 5 ∷ 6 ∷ 7 ∷ []) ∷ []) 0 ≡ numbers (3 ∷ 1 ∷ 2 ∷ 6 ∷ 4 ∷ 5 ∷ []) }
    ensures permutes_cut { output_in_cuts (permute Byte (2 ∷ 0 ∷ 1 ∷ []))
        [] (numbers (1 ∷ 2 ∷ 3 ∷ 4 ∷ 5 ∷ 6 ∷ 7 ∷ []) ∷ []) 0 ≡ numbers (3 ∷ 1 ∷ 2 ∷ 6 ∷ 4 ∷ 5 ∷ []) }

    // Each item twice.
    ensures repeats_whole { output_of (repeat Byte 2) (numbers (7 ∷ 8 ∷ []) ∷ []) 0
        ≡ numbers (7 ∷ 7 ∷ 8 ∷ 8 ∷ []) }
    ensures repeats_cut { output_in_cuts (repeat Byte 2) [] (numbers (7 ∷ 8 ∷ []) ∷ []) 0
        ≡ numbers (7 ∷ 7 ∷ 8 ∷ 8 ∷ []) }

    // An item of each in turn, as long as all have one.
    ensures interleaves_whole { output_of (interleave Byte 2)
        (numbers (1 ∷ 2 ∷ 3 ∷ []) ∷ numbers (10 ∷ 20 ∷ []) ∷ []) 0
        ≡ numbers (1 ∷ 10 ∷ 2 ∷ 20 ∷ []) }
    ensures interleaves_cut { output_in_cuts (interleave Byte 2)
        [] (numbers (1 ∷ 2 ∷ 3 ∷ []) ∷ numbers (10 ∷ 20 ∷ []) ∷ []) 0
        ≡ numbers (1 ∷ 10 ∷ 2 ∷ 20 ∷ []) }

    // An item for each in turn; a rest is left.
    ensures deinterleaves_first { output_of (deinterleave Byte 3)
        (numbers (1 ∷ 2 ∷ 3 ∷ 4 ∷ 5 ∷ 6 ∷ 7 ∷ []) ∷ []) 0 ≡ numbers (1 ∷ 4 ∷ []) }
    ensures deinterleaves_second { output_of (deinterleave Byte 3)
        (numbers (1 ∷ 2 ∷ 3 ∷ 4 ∷ 5 ∷ 6 ∷ 7 ∷ []) ∷ []) 1 ≡ numbers (2 ∷ 5 ∷ []) }
    ensures deinterleaves_third { output_of (deinterleave Byte 3)
        (numbers (1 ∷ 2 ∷ 3 ∷ 4 ∷ 5 ∷ 6 ∷ 7 ∷ []) ∷ []) 2 ≡ numbers (3 ∷ 6 ∷ []) }
    ensures deinterleaves_third_cut { output_in_cuts (deinterleave Byte 3)
        [] (numbers (1 ∷ 2 ∷ 3 ∷ 4 ∷ 5 ∷ 6 ∷ 7 ∷ []) ∷ []) 2 ≡ numbers (3 ∷ 6 ∷ []) }

    // The first three of a hundred; a tag stays where it is.
    ensures begins_whole { output_of (head Byte 3) (map pos (numbers_from 1 100) ∷ []) 0
        ≡ numbers (1 ∷ 2 ∷ 3 ∷ []) }
    ensures begins_place { (head Byte 3).place 0 2 ≡ 2 }

    // All but the first two; a tag on one of these goes to the first that is left.
    ensures skips_whole { output_of (skiphead Byte 2) (numbers (7 ∷ 8 ∷ 9 ∷ []) ∷ []) 0
        ≡ numbers (9 ∷ []) }
    ensures skips_cut { output_in_cuts (skiphead Byte 2) [] (numbers (7 ∷ 8 ∷ 9 ∷ []) ∷ []) 0
        ≡ numbers (9 ∷ []) }
    ensures skips_place_left_out { (skiphead Byte 2).place 0 0 ≡ 0 }
    ensures skips_place_kept { (skiphead Byte 2).place 0 2 ≡ 0 }

    // Two zeros, then the input; a tag moves with its item.
    ensures delays_whole { output_of (delay Byte 2) (numbers (7 ∷ 8 ∷ []) ∷ []) 0
        ≡ numbers (0 ∷ 0 ∷ 7 ∷ 8 ∷ []) }
    ensures delays_cut { output_in_cuts (delay Byte 2) [] (numbers (7 ∷ 8 ∷ []) ∷ []) 0
        ≡ numbers (0 ∷ 0 ∷ 7 ∷ 8 ∷ []) }
    ensures delays_place { (delay Byte 2).place 0 1 ≡ 3 }

    // Two items of the one input, one of the other, in whole rounds; a tag stays on its item.
    ensures muxes_whole { output_of (stream_mux Byte (2 ∷ 1 ∷ []))
        (numbers (1 ∷ 2 ∷ 3 ∷ 4 ∷ 5 ∷ []) ∷ numbers (10 ∷ 20 ∷ 30 ∷ []) ∷ []) 0
        ≡ numbers (1 ∷ 2 ∷ 10 ∷ 3 ∷ 4 ∷ 20 ∷ []) }
    ensures muxes_cut { output_in_cuts (stream_mux Byte (2 ∷ 1 ∷ []))
        [] (numbers (1 ∷ 2 ∷ 3 ∷ 4 ∷ 5 ∷ []) ∷ numbers (10 ∷ 20 ∷ 30 ∷ []) ∷ []) 0
        ≡ numbers (1 ∷ 2 ∷ 10 ∷ 3 ∷ 4 ∷ 20 ∷ []) }
    ensures muxes_place_first { (stream_mux Byte (2 ∷ 1 ∷ [])).place 0 3 ≡ 4 }
    ensures muxes_place_second { (stream_mux Byte (2 ∷ 1 ∷ [])).place 1 1 ≡ 5 }
    ensures muxes_place_past { (stream_mux Byte (2 ∷ 1 ∷ [])).place 0 4 ≡ 6 }
{}
