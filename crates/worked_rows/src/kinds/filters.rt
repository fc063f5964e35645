//! Worked rows of the filters with taps.

ghost use Rattle.std.specs.Prelude.{◌≡◌, pos, negsuc, [], ◌∷◌};
ghost use Rattle.stream_model.specs.declared.vocabulary.ItemType.TheVariants.{Short};
ghost use Rattle.stream_model.specs.Settings.{Taps};
ghost use Rattle.worked_rows.specs.Kinds.{numbers, set_at, output_of, output_under, output_in_cuts};
ghost use Rattle.kind_model.specs.Filters.{fir, interp_fir};

/// The rows, each with what it is about above its clauses.
pub fn rows()
    // Three taps, with zeros before the first item.
    ensures filters_whole { output_of (fir Short (numbers (1 ∷ 2 ∷ 3 ∷ [])) 1 0)
        (numbers (1 ∷ 0 ∷ 0 ∷ 4 ∷ []) ∷ []) 0 ≡ numbers (1 ∷ 2 ∷ 3 ∷ 4 ∷ []) }
    ensures filters_cut { output_in_cuts (fir Short (numbers (1 ∷ 2 ∷ 3 ∷ [])) 1 0)
        [] (numbers (1 ∷ 0 ∷ 0 ∷ 4 ∷ []) ∷ []) 0 ≡ numbers (1 ∷ 2 ∷ 3 ∷ 4 ∷ []) }

    // Every second item of the sums of two neighbours.
    ensures decimates_whole { output_of (fir Short (numbers (1 ∷ 1 ∷ [])) 2 0)
        (numbers (1 ∷ 2 ∷ 3 ∷ 4 ∷ []) ∷ []) 0 ≡ numbers (1 ∷ 5 ∷ []) }
    ensures decimates_cut { output_in_cuts (fir Short (numbers (1 ∷ 1 ∷ [])) 2 0)
        [] (numbers (1 ∷ 2 ∷ 3 ∷ 4 ∷ []) ∷ []) 0 ≡ numbers (1 ∷ 5 ∷ []) }

    // Two items for one: the first and third tap make the one branch, the second the other.
    ensures interpolates_whole { output_of (interp_fir Short (numbers (1 ∷ 2 ∷ 3 ∷ [])) 2 0)
        (numbers (10 ∷ 20 ∷ []) ∷ []) 0 ≡ numbers (10 ∷ 20 ∷ 50 ∷ 40 ∷ []) }
    ensures interpolates_cut { output_in_cuts (interp_fir Short (numbers (1 ∷ 2 ∷ 3 ∷ [])) 2 0)
        [] (numbers (10 ∷ 20 ∷ []) ∷ []) 0 ≡ numbers (10 ∷ 20 ∷ 50 ∷ 40 ∷ []) }

    // A half is rounded upwards.
    ensures rounds_whole { output_of (fir Short (numbers (1 ∷ [])) 1 1) ((pos 3 ∷ negsuc 2 ∷ []) ∷ []) 0
        ≡ pos 2 ∷ negsuc 0 ∷ [] }
    ensures rounds_cut { output_in_cuts (fir Short (numbers (1 ∷ [])) 1 1)
        [] ((pos 3 ∷ negsuc 2 ∷ []) ∷ []) 0 ≡ pos 2 ∷ negsuc 0 ∷ [] }

    // A sum past the range gives its end.
    ensures saturates_whole { output_of (fir Short (numbers (32767 ∷ [])) 1 0)
        ((pos 2 ∷ negsuc 1 ∷ []) ∷ []) 0 ≡ pos 32767 ∷ negsuc 32767 ∷ [] }
    ensures saturates_cut { output_in_cuts (fir Short (numbers (32767 ∷ [])) 1 0)
        [] ((pos 2 ∷ negsuc 1 ∷ []) ∷ []) 0 ≡ pos 32767 ∷ negsuc 32767 ∷ [] }

    // Taps that are set hold from the item on: the past is read through the new ones too.
    ensures sets_taps_one_tap { output_under (fir Short (numbers (1 ∷ [])) 2 0)
        (set_at 3 (Taps (numbers (10 ∷ []))) ∷ []) (numbers (1 ∷ 2 ∷ 3 ∷ 4 ∷ 5 ∷ 6 ∷ []) ∷ []) 0
        ≡ numbers (1 ∷ 3 ∷ 50 ∷ []) }
    ensures sets_taps_one_tap_cut { output_in_cuts (fir Short (numbers (1 ∷ [])) 2 0)
        (set_at 3 (Taps (numbers (10 ∷ []))) ∷ []) (numbers (1 ∷ 2 ∷ 3 ∷ 4 ∷ 5 ∷ 6 ∷ []) ∷ []) 0
        ≡ numbers (1 ∷ 3 ∷ 50 ∷ []) }
    ensures sets_taps_two_taps { output_under (fir Short (numbers (1 ∷ 1 ∷ [])) 1 0)
        (set_at 2 (Taps (pos 1 ∷ negsuc 0 ∷ [])) ∷ []) (numbers (5 ∷ 5 ∷ 5 ∷ 5 ∷ []) ∷ []) 0
        ≡ numbers (5 ∷ 10 ∷ 0 ∷ 0 ∷ []) }
    ensures sets_taps_two_taps_cut { output_in_cuts (fir Short (numbers (1 ∷ 1 ∷ [])) 1 0)
        (set_at 2 (Taps (pos 1 ∷ negsuc 0 ∷ [])) ∷ []) (numbers (5 ∷ 5 ∷ 5 ∷ 5 ∷ []) ∷ []) 0
        ≡ numbers (5 ∷ 10 ∷ 0 ∷ 0 ∷ []) }
{}
