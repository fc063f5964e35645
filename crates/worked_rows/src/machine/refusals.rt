//! Runs whose calls are refused.
#![tactic(auto, unfolding(crate::specs::Runs::worked_rows))]

ghost use Rattle.std.specs.Prelude.{◌≡◌, List, ℤ, length, pos, [], ◌∷◌, codes};
ghost use Rattle.stream_model.specs.declared.vocabulary.ItemType.TheVariants.{Byte, Short};
ghost use Rattle.stream_model.specs.Settings.{Number, Taps};
ghost use Rattle.stream_model.specs.Network.{opening_within};
ghost use Rattle.stream_model.specs.Machine.{Fed, Closed, Taken, Done, WaitingItems, Did, Refused, Late, feed_of};
ghost use Rattle.worked_rows.specs.Runs.{byte_source, chain, through, plus_ten, with_first_tape, Feed, Close, SetAt, SetNow, Claim, Commit, Abandon, Step, Read, byte_feed, marked_feed, mark, own_capacities, replies_of, replies_to};
ghost use Rattle.worked_rows.specs.Kinds.{numbers, alone};
ghost use Rattle.kind_model.specs.Ends.{null_sink};
ghost use Rattle.kind_model.specs.Filters.{fir};

/// The rows, each with what it is about above its clauses.
pub fn rows()
    // Each call that cannot be answered has its number. Feeding 256 to a source of bytes is feeding
    // another type.
    ensures refuses { replies_of (plus_ten 4096)
        (byte_feed 2 (1 ∷ []) ∷ Feed 0 Short (numbers (256 ∷ [])) []
        ∷ marked_feed 0 (1 ∷ []) (mark 5 (codes "k") (pos 1) ∷ [])
        ∷ Read 1 0 1 ∷ Read 2 1 1 ∷ SetNow 0 (Number (pos 1)) ∷ SetNow 1 (Number (pos 300))
        ∷ Step 9 1 ∷ Commit 1 ∷ Step 0 1 ∷ Close 0 ∷ Close 0 ∷ Step 0 1 ∷ [])
        ≡ Refused 21 ∷ Refused 24 ∷ Refused 25 ∷ Refused 22 ∷ Refused 31 ∷ Refused 28 ∷ Refused 29
        ∷ Refused 20 ∷ Refused 30 ∷ WaitingItems 0 ∷ Closed 0 ∷ Refused 23 ∷ Done ∷ [] }

    // Where several refusals fit, the first in a fixed order is answered: no such block, then what the
    // block is not, then the value, and a late setting last; a fed type before a closed tape, and that
    // before a mark. Marks right before and right behind the fed items are refused.
    ensures refuses_in_order { replies_of (plus_ten 4096)
        (byte_feed 9 (1 ∷ []) ∷ Close 9 ∷ Close 1 ∷ SetAt 9 0 (Number (pos 1))
        ∷ Claim 9 1 ∷ Read 9 0 1
        ∷ byte_feed 0 (1 ∷ 2 ∷ []) ∷ marked_feed 0 (3 ∷ []) (mark 1 (codes "k") (pos 1) ∷ [])
        ∷ marked_feed 0 (3 ∷ []) (mark 3 (codes "k") (pos 1) ∷ [])
        ∷ marked_feed 0 (3 ∷ []) (mark 2 (codes "k") (pos 1) ∷ []) ∷ Step 0 9 ∷ Step 1 1
        ∷ SetAt 1 0 (Number (pos 256)) ∷ SetAt 1 5 (Taps []) ∷ SetAt 1 0 (Number (pos 1))
        ∷ Close 0 ∷ Feed 0 Short (numbers (1 ∷ [])) []
        ∷ marked_feed 0 (1 ∷ []) (mark 9 (codes "k") (pos 1) ∷ [])
        ∷ Read 0 0 1 ∷ Read 2 1 1 ∷ Abandon 1 ∷ [])
        ≡ Refused 20 ∷ Refused 20 ∷ Refused 21 ∷ Refused 20 ∷ Refused 20 ∷ Refused 20
        ∷ Fed 2 ∷ Refused 25 ∷ Refused 25 ∷ Fed 3 ∷ Did 3 ∷ Did 1 ∷ Refused 29 ∷ Refused 29 ∷ Late 1
        ∷ Closed 3 ∷ Refused 24 ∷ Refused 23 ∷ Refused 22 ∷ Refused 31 ∷ Refused 30 ∷ [] }

    // A sink that drops its input cannot be read.
    ensures refuses_to_read_what_is_dropped { replies_of (chain (byte_source ∷ alone (null_sink Byte) ∷ []))
        (byte_feed 0 (1 ∷ 2 ∷ []) ∷ Step 0 9 ∷ Step 1 9 ∷ Read 1 0 9 ∷ [])
        ≡ Fed 2 ∷ Did 2 ∷ Did 2 ∷ Refused 22 ∷ [] }

    // A list of taps has to be as long as the filter's own.
    ensures refuses_other_lengths { replies_of (through Short (alone (fir Short (numbers (1 ∷ 1 ∷ [])) 1 0)))
        (SetNow 1 (Taps (numbers (1 ∷ []))) ∷ SetNow 1 (Taps (numbers (1 ∷ 2 ∷ 3 ∷ [])))
        ∷ SetNow 1 (Number (pos 1)) ∷ SetNow 1 (Taps (numbers (1 ∷ 2 ∷ []))) ∷ [])
        ≡ Refused 29 ∷ Refused 29 ∷ Refused 29 ∷ Taken 0 ∷ [] }

    // A tape takes 4,294,967,296 items, and not one more.
    ensures fills_a_tape_last { (tape : List ℤ) → length tape ≡ 4294967295 →
        (feed_of (plus_ten 4096) (with_first_tape tape) 0 Byte (pos 7 ∷ []) []).0 ≡ Fed 4294967296 }
    ensures fills_a_tape_above { (tape : List ℤ) → length tape ≡ 4294967295 →
        (feed_of (plus_ten 4096) (with_first_tape tape) 0 Byte (pos 7 ∷ pos 8 ∷ []) []).0 ≡ Refused 26 }

    // Where tapes may come to hold three items, a tape takes three, and not one more.
    ensures fills_a_short_tape { replies_to (plus_ten 4096) (own_capacities (plus_ten 4096))
        (opening_within 3 (plus_ten 4096))
        (byte_feed 0 (1 ∷ 2 ∷ 3 ∷ 4 ∷ []) ∷ byte_feed 0 (1 ∷ 2 ∷ []) ∷ byte_feed 0 (3 ∷ 4 ∷ []) ∷ byte_feed 0 (3 ∷ [])
        ∷ byte_feed 0 (4 ∷ []) ∷ Step 0 9 ∷ byte_feed 0 (4 ∷ []) ∷ Close 0 ∷ [])
        ≡ Refused 26 ∷ Fed 2 ∷ Refused 26 ∷ Fed 3 ∷ Refused 26 ∷ Did 3 ∷ Refused 26 ∷ Closed 3 ∷ [] }
{}
