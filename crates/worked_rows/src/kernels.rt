//! Worked rows of the kernels' definitions.

ghost use Rattle.std.specs.Prelude.{◌≡◌, pos, negsuc, [], ◌∷◌, replicate};
ghost use Rattle.stream_model.specs.declared.vocabulary.ItemType.TheVariants.{Int};
ghost use Rattle.kind_model.specs.Kernels.{dot, fir_row, scale_sat, diff_decode};

/// The rows, each with what it is about above its clauses.
pub fn rows()
    // The longest dot of the least numbers is exact: 2 to the 54th.
    ensures longest_dot { dot (replicate 256 (negsuc 32767)) (replicate 256 (negsuc 2147483647))
        ≡ pos 18014398509481984 }

    // And as one item of a filter's row, over 2 to the 31st.
    ensures longest_row { fir_row Int (replicate 256 (negsuc 32767)) (replicate 256 (negsuc 2147483647)) 31
        ≡ pos 8388608 ∷ [] }

    // The least factor turns the ends of the range round: one fits, the other is saturated.
    ensures scales_ends_fits { scale_sat Int (negsuc 2147483647 ∷ []) (negsuc 32767) 31 ≡ pos 32768 ∷ [] }
    ensures scales_ends_saturated { scale_sat Int (pos 2147483647 ∷ []) (negsuc 32767) 0
        ≡ negsuc 2147483647 ∷ [] }

    // A difference is never negative.
    ensures decodes_differences_small { diff_decode 4 (pos 3) (pos 1 ∷ pos 3 ∷ []) ≡ pos 2 ∷ pos 2 ∷ [] }
    ensures decodes_differences_full { diff_decode 256 (pos 255) (pos 0 ∷ []) ≡ pos 1 ∷ [] }
{}
