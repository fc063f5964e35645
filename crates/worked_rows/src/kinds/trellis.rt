//! Worked rows of the kind that finds which symbols took a machine through metrics.

ghost use Rattle.std.specs.Prelude.{◌≡◌, ◌++◌, [], ◌∷◌, None, Some, negsuc, pos};
ghost use Rattle.stream_model.specs.declared.vocabulary.ItemType.TheVariants.{Byte, Short};
ghost use Rattle.worked_rows.specs.Kinds.{numbers, output_of, output_in_cuts};
ghost use Rattle.worked_rows.specs.Trellis.{convolved, summed, distances};
ghost use Rattle.kind_model.specs.Trellis.{viterbi};

/// The rows, each with what it is about above its clauses.
pub fn rows()
    // From state 0 the bits 1 0 1 give 3 1 0.
    ensures decodes_whole { output_of (viterbi Byte (convolved 3 (Some 0) None)) (distances (3 ∷ 1 ∷ 0 ∷ []) ∷ []) 0
        ≡ numbers (1 ∷ 0 ∷ 1 ∷ []) }

    // Two paths of three steps lead from state 0 to state 0: the bits 0 0 0 give 0 0 0, and 1 0 0 give 3 1 3. What came
    // is nearer to the second, and then to the first. What fills no block gives nothing.
    ensures mends_whole { output_of (viterbi Byte (convolved 3 (Some 0) (Some 0)))
        (distances (3 ∷ 1 ∷ 2 ∷ 0 ∷ 1 ∷ 0 ∷ 3 ∷ []) ∷ []) 0 ≡ numbers (1 ∷ 0 ∷ 0 ∷ 0 ∷ 0 ∷ 0 ∷ []) }
    ensures mends_cut { output_in_cuts (viterbi Byte (convolved 3 (Some 0) (Some 0))) []
        (distances (3 ∷ 1 ∷ 2 ∷ 0 ∷ 1 ∷ 0 ∷ 3 ∷ []) ∷ []) 0 ≡ numbers (1 ∷ 0 ∷ 0 ∷ 0 ∷ 0 ∷ 0 ∷ []) }

    // Two paths lead from state 0 to state 2: the bits 0 0 1 by the rows 0, 0 and 1, and 1 0 1 by the rows 1, 4 and 3.
    // The first costs 1 + 0 + 4, and the second 0 + 1 + 4: their last rows decide.
    ensures ties_by_last_rows { output_of (viterbi Byte (convolved 3 (Some 0) (Some 2)))
        (numbers (1 ∷ 9 ∷ 9 ∷ 0 ∷ 0 ∷ 1 ∷ 9 ∷ 9 ∷ 4 ∷ 9 ∷ 9 ∷ 4 ∷ []) ∷ []) 0
        ≡ numbers (0 ∷ 0 ∷ 1 ∷ []) }

    // The rows 1, 2, 5 and 6 cost the least, and lead to the states 2, 0, 3 and 1: the lowest last state decides, with
    // the bit 0 of row 2.
    ensures ties_by_last_states { output_of (viterbi Byte (convolved 1 None None)) (numbers (5 ∷ 5 ∷ 1 ∷ 1 ∷ []) ∷ []) 0
        ≡ numbers (0 ∷ []) }

    // State 0 leads to the states 0 and 2, and so no path of one step to state 1.
    ensures none_without_paths { output_of (viterbi Byte (convolved 1 (Some 0) (Some 1))) (distances (3 ∷ 1 ∷ []) ∷ [])
        0 ≡ numbers (0 ∷ 0 ∷ []) }

    // Output 0 costs -1, 2 and 0, and output 1 costs 0, -3 and -1. The outputs 0 1 1 cost the least, by the bits 0 1 0
    // from state 0 or 1 1 0 from state 1. Of those that end in 0, the outputs 0 1 0 cost -4, by the bits 0 1 1 from
    // state 0, and the outputs 1 1 0 cost -3.
    ensures decodes_below_zero { output_of (viterbi Short (summed 3 None None))
        ((negsuc 0 ∷ pos 0 ∷ pos 2 ∷ negsuc 2 ∷ pos 0 ∷ negsuc 0 ∷ []) ∷ []) 0 ≡ numbers (0 ∷ 1 ∷ 0 ∷ []) }
    ensures decodes_from_a_state { output_of (viterbi Short (summed 3 (Some 1) None))
        ((negsuc 0 ∷ pos 0 ∷ pos 2 ∷ negsuc 2 ∷ pos 0 ∷ negsuc 0 ∷ []) ∷ []) 0 ≡ numbers (1 ∷ 1 ∷ 0 ∷ []) }
    ensures decodes_to_a_state { output_of (viterbi Short (summed 3 (Some 0) (Some 0)))
        ((negsuc 0 ∷ pos 0 ∷ pos 2 ∷ negsuc 2 ∷ pos 0 ∷ negsuc 0 ∷ []) ∷ []) 0 ≡ numbers (0 ∷ 1 ∷ 1 ∷ []) }
{}
