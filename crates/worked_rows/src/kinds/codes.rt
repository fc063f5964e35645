//! Worked rows of the kinds that check and code frames and symbols.

ghost use Rattle.std.specs.Prelude.{◌≡◌, ◌++◌, [], ◌∷◌};
ghost use Rattle.worked_rows.specs.Kinds.{numbers, output_of, output_in_cuts};
ghost use Rattle.worked_rows.specs.Codes.{digits, crc_8, crc_10, crc_16, crc_16_arc, crc_24, crc_32};
ghost use Rattle.kind_model.specs.Codes.{crc_append, crc_check, state_machine};

/// The rows, each with what it is about above its clauses.
pub fn rows()
    // The check values of the catalogues, which are the checksums of "123456789".
    ensures checks_8_bits { output_of (crc_append 9 crc_8) (digits ∷ []) 0 ≡ digits ++ numbers (244 ∷ []) }
    ensures checks_10_bits { output_of (crc_append 9 crc_10) (digits ∷ []) 0 ≡ digits ++ numbers (1 ∷ 153 ∷ []) }
    ensures checks_16_bits { output_of (crc_append 9 crc_16) (digits ∷ []) 0 ≡ digits ++ numbers (41 ∷ 177 ∷ []) }
    ensures checks_16_bits_lowest_first { output_of (crc_append 9 crc_16_arc) (digits ∷ []) 0 ≡ digits
        ++ numbers (61 ∷ 187 ∷ []) }
    ensures checks_24_bits { output_of (crc_append 9 crc_24) (digits ∷ []) 0 ≡ digits ++ numbers (33 ∷ 207 ∷ 2 ∷ []) }
    ensures checks_32_bits { output_of (crc_append 9 crc_32) (digits ∷ []) 0 ≡ digits
        ++ numbers (38 ∷ 57 ∷ 244 ∷ 203 ∷ []) }

    // By the polynomial x^8 + x^2 + x + 1 the remainder of 1 is 7 and that of 2 is 14. What fills no frame gives
    // nothing.
    ensures appends_whole { output_of (crc_append 1 crc_8) (numbers (1 ∷ 2 ∷ []) ∷ []) 0
        ≡ numbers (1 ∷ 7 ∷ 2 ∷ 14 ∷ []) }
    ensures appends_cut { output_in_cuts (crc_append 1 crc_8) [] (numbers (1 ∷ 2 ∷ []) ∷ []) 0
        ≡ numbers (1 ∷ 7 ∷ 2 ∷ 14 ∷ []) }
    ensures appends_to_whole_frames { output_of (crc_append 2 crc_8) (numbers (0 ∷ 2 ∷ 1 ∷ []) ∷ []) 0
        ≡ numbers (0 ∷ 2 ∷ 14 ∷ []) }

    // A frame with its checksum is right, and one with another is wrong.
    ensures checks_whole { output_of (crc_check 1 crc_8) (numbers (1 ∷ 7 ∷ 2 ∷ 7 ∷ 2 ∷ []) ∷ []) 0
        ≡ numbers (1 ∷ 0 ∷ []) }
    ensures checks_cut { output_in_cuts (crc_check 1 crc_8) [] (numbers (1 ∷ 7 ∷ 2 ∷ 7 ∷ 2 ∷ []) ∷ []) 0
        ≡ numbers (1 ∷ 0 ∷ []) }
    ensures checks_both_bytes { output_of (crc_check 9 crc_16_arc)
        ((digits ++ numbers (61 ∷ 187 ∷ []) ++ digits ++ numbers (61 ∷ 186 ∷ []) ++ digits
        ++ numbers (60 ∷ 187 ∷ [])) ∷ []) 0
        ≡ numbers (1 ∷ 0 ∷ 0 ∷ []) }

    // The convolutional code of the polynomials 1 + D^2 and 1 + D + D^2, whose state is the last two bits, the newest
    // the highest.
    ensures convolves_whole { output_of (state_machine 2 (0 ∷ 2 ∷ 0 ∷ 2 ∷ 1 ∷ 3 ∷ 1 ∷ 3 ∷ [])
        (numbers (0 ∷ 3 ∷ 3 ∷ 0 ∷ 1 ∷ 2 ∷ 2 ∷ 1 ∷ [])) 0)
        (numbers (1 ∷ 0 ∷ 1 ∷ 1 ∷ 0 ∷ 0 ∷ []) ∷ []) 0 ≡ numbers (3 ∷ 1 ∷ 0 ∷ 2 ∷ 2 ∷ 3 ∷ []) }
    ensures convolves_cut { output_in_cuts (state_machine 2 (0 ∷ 2 ∷ 0 ∷ 2 ∷ 1 ∷ 3 ∷ 1 ∷ 3 ∷ [])
        (numbers (0 ∷ 3 ∷ 3 ∷ 0 ∷ 1 ∷ 2 ∷ 2 ∷ 1 ∷ [])) 0)
        [] (numbers (1 ∷ 0 ∷ 1 ∷ 1 ∷ 0 ∷ 0 ∷ []) ∷ []) 0 ≡ numbers (3 ∷ 1 ∷ 0 ∷ 2 ∷ 2 ∷ 3 ∷ []) }

    // Sums modulo 3 from 2 on, where an item counts modulo 3.
    ensures sums_from_a_state { output_of (state_machine 3 (0 ∷ 1 ∷ 2 ∷ 1 ∷ 2 ∷ 0 ∷ 2 ∷ 0 ∷ 1 ∷ [])
        (numbers (0 ∷ 1 ∷ 2 ∷ 1 ∷ 2 ∷ 0 ∷ 2 ∷ 0 ∷ 1 ∷ [])) 2)
        (numbers (0 ∷ 1 ∷ 5 ∷ 255 ∷ []) ∷ []) 0 ≡ numbers (2 ∷ 0 ∷ 2 ∷ 2 ∷ []) }

    // The state word before the first item is the first state.
    ensures begins_in_its_state { (state_machine 2 (0 ∷ 1 ∷ 1 ∷ 0 ∷ []) (numbers (0 ∷ 1 ∷ 1 ∷ 0 ∷ [])) 1).word []
        (numbers (1 ∷ []) ∷ []) 0 ≡ 1 }
{}
