//! Runs with settings.
#![tactic(auto, unfolding(crate::specs::Runs::worked_rows))]

ghost use Rattle.std.specs.Prelude.{◌≡◌, pos, negsuc, false, [], ◌∷◌};
ghost use Rattle.stream_model.specs.declared.vocabulary.ItemType.TheVariants.{Short};
ghost use Rattle.stream_model.specs.Settings.{Number, Taps};
ghost use Rattle.stream_model.specs.Machine.{Fed, Closed, Taken, Abandoned, Done, Busy, Did, Piece, Late};
ghost use Rattle.worked_rows.specs.Runs.{through, plus_ten, Feed, Close, SetAt, SetNow, Claim, Commit, Abandon, Step, Read, byte_feed, claim_reply, plain_claim, replies_of};
ghost use Rattle.worked_rows.specs.Kinds.{numbers, alone, set_at};
ghost use Rattle.kind_model.specs.Filters.{fir};

/// The rows, each with what it is about above its clauses.
pub fn rows()
    // Of two settings at one item the later call holds, and the item before keeps the block's own
    // number.
    ensures sets_twice { replies_of (plus_ten 4096)
        (SetAt 1 1 (Number (pos 20)) ∷ SetAt 1 1 (Number (pos 30)) ∷ byte_feed 0 (0 ∷ 0 ∷ [])
        ∷ Step 0 9 ∷ Step 1 9 ∷ Step 2 9 ∷ Read 2 0 9 ∷ [])
        ≡ Taken 1 ∷ Taken 1 ∷ Fed 2 ∷ Did 2 ∷ Did 2 ∷ Did 2
        ∷ Piece 0 2 (numbers (10 ∷ 30 ∷ [])) [] false ∷ [] }

    // While items 2 to 4 are claimed, a setting at 4 comes too late and one at 5 does not.
    ensures sets_behind_a_claim { replies_of (plus_ten 4096)
        (byte_feed 0 (0 ∷ 1 ∷ 2 ∷ 3 ∷ 4 ∷ 5 ∷ 6 ∷ 7 ∷ 8 ∷ 9 ∷ []) ∷ Step 0 10 ∷ Step 1 2 ∷ Claim 1 3
        ∷ SetAt 1 4 (Number (pos 99)) ∷ SetAt 1 5 (Number (pos 20)) ∷ Claim 1 1 ∷ Commit 1
        ∷ Step 1 9 ∷ Step 2 10 ∷ Read 2 0 10 ∷ [])
        ≡ Fed 10 ∷ Did 10 ∷ Did 2 ∷ plain_claim 1 2 (2 ∷ 3 ∷ 4 ∷ []) 10
        ∷ Late 5 ∷ Taken 5 ∷ Busy ∷ Did 3 ∷ Did 5 ∷ Did 10
        ∷ Piece 0 10
        (numbers (10 ∷ 11 ∷ 12 ∷ 13 ∷ 14 ∷ 25 ∷ 26 ∷ 27 ∷ 28 ∷ 29 ∷ [])) [] false ∷ [] }

    // A filter reads the past through its new taps too.
    ensures sets_taps { replies_of (through Short (alone (fir Short (numbers (1 ∷ 1 ∷ [])) 1 0)))
        (SetAt 1 2 (Taps (pos 1 ∷ negsuc 0 ∷ [])) ∷ Feed 0 Short (numbers (5 ∷ 5 ∷ 5 ∷ 5 ∷ [])) []
        ∷ Step 0 9 ∷ Step 1 9 ∷ Step 2 9 ∷ Read 2 0 9 ∷ [])
        ≡ Taken 2 ∷ Fed 4 ∷ Did 4 ∷ Did 4 ∷ Did 4
        ∷ Piece 0 4 (numbers (5 ∷ 10 ∷ 0 ∷ 0 ∷ [])) [] false ∷ [] }

    // A setting at item 3 holds from the first firing that begins there or later: with two items in a
    // firing, from item 4.
    ensures sets_between_firings { replies_of (through Short (alone (fir Short (numbers (1 ∷ [])) 2 0)))
        (SetAt 1 3 (Taps (numbers (10 ∷ [])))
        ∷ Feed 0 Short (numbers (1 ∷ 2 ∷ 3 ∷ 4 ∷ 5 ∷ 6 ∷ [])) []
        ∷ Step 0 9 ∷ Step 1 9 ∷ Step 2 9 ∷ Read 2 0 9 ∷ [])
        ≡ Taken 3 ∷ Fed 6 ∷ Did 6 ∷ Did 3 ∷ Did 3
        ∷ Piece 0 3 (numbers (1 ∷ 3 ∷ 50 ∷ [])) [] false ∷ [] }

    // A setting without a place takes the first item that is still open: behind the items of the
    // firings that are committed, and of those that are claimed.
    ensures sets_now_committed { replies_of (through Short (alone (fir Short (numbers (1 ∷ [])) 2 0)))
        (Feed 0 Short (numbers (1 ∷ 2 ∷ 3 ∷ 4 ∷ 5 ∷ 6 ∷ [])) [] ∷ Step 0 9 ∷ Step 1 1
        ∷ SetNow 1 (Taps (numbers (10 ∷ []))) ∷ Step 1 9 ∷ Step 2 9 ∷ Read 2 0 9 ∷ [])
        ≡ Fed 6 ∷ Did 6 ∷ Did 1 ∷ Taken 2 ∷ Did 2 ∷ Did 3
        ∷ Piece 0 3 (numbers (1 ∷ 30 ∷ 50 ∷ [])) [] false ∷ [] }
    ensures sets_now_claimed { replies_of (through Short (alone (fir Short (numbers (1 ∷ [])) 2 0)))
        (Feed 0 Short (numbers (1 ∷ 2 ∷ 3 ∷ 4 ∷ 5 ∷ 6 ∷ [])) [] ∷ Step 0 9 ∷ Step 1 1 ∷ Claim 1 1
        ∷ SetNow 1 (Taps (numbers (10 ∷ []))) ∷ Commit 1 ∷ Step 1 9 ∷ Step 2 9 ∷ Read 2 0 9 ∷ [])
        ≡ Fed 6 ∷ Did 6 ∷ Did 1
        ∷ claim_reply 1 1 1 (numbers (3 ∷ 4 ∷ []) ∷ []) (set_at 0 (Taps (numbers (1 ∷ []))) ∷ []) 0
        ∷ Taken 4 ∷ Did 1 ∷ Did 1 ∷ Did 3
        ∷ Piece 0 3 (numbers (1 ∷ 3 ∷ 50 ∷ [])) [] false ∷ [] }

    // A block that is done takes settings still.
    ensures sets_a_done_block { replies_of (plus_ten 4096)
        (Close 0 ∷ Step 0 1 ∷ Step 1 1 ∷ SetAt 1 9 (Number (pos 20)) ∷ [])
        ≡ Closed 0 ∷ Done ∷ Done ∷ Taken 9 ∷ [] }

    // In force is the setting with the greatest place, whichever call came last: one at item 5, and then one
    // at item 3.
    ensures sets_before_a_setting { replies_of (plus_ten 4096)
        (SetAt 1 5 (Number (pos 20)) ∷ SetAt 1 3 (Number (pos 30))
        ∷ byte_feed 0 (0 ∷ 0 ∷ 0 ∷ 0 ∷ 0 ∷ 0 ∷ 0 ∷ []) ∷ Step 0 9 ∷ Step 1 9 ∷ Step 2 9 ∷ Read 2 0 9 ∷ [])
        ≡ Taken 5 ∷ Taken 3 ∷ Fed 7 ∷ Did 7 ∷ Did 7 ∷ Did 7
        ∷ Piece 0 7 (numbers (10 ∷ 10 ∷ 10 ∷ 30 ∷ 30 ∷ 20 ∷ 20 ∷ [])) [] false ∷ [] }

    // A claim brings the setting in force at its first item, with the place where it was made, and those made
    // behind it up to its end: a setting at the item behind the last is not among them.
    ensures claims_settings { replies_of (plus_ten 4096)
        (SetAt 1 1 (Number (pos 20)) ∷ SetAt 1 2 (Number (pos 30)) ∷ SetAt 1 4 (Number (pos 40))
        ∷ byte_feed 0 (0 ∷ 1 ∷ 2 ∷ 3 ∷ 4 ∷ 5 ∷ []) ∷ Step 0 9 ∷ Step 1 1
        ∷ Claim 1 3 ∷ Abandon 1 ∷ Step 1 2 ∷ Claim 1 1 ∷ Commit 1 ∷ Claim 1 9 ∷ [])
        ≡ Taken 1 ∷ Taken 2 ∷ Taken 4 ∷ Fed 6 ∷ Did 6 ∷ Did 1
        ∷ claim_reply 1 1 3 (numbers (1 ∷ 2 ∷ 3 ∷ []) ∷ [])
        (set_at 1 (Number (pos 20)) ∷ set_at 2 (Number (pos 30)) ∷ []) 0 ∷ Abandoned ∷ Did 2
        ∷ claim_reply 1 3 1 (numbers (3 ∷ []) ∷ []) (set_at 2 (Number (pos 30)) ∷ []) 0 ∷ Did 1
        ∷ claim_reply 1 4 2 (numbers (4 ∷ 5 ∷ []) ∷ []) (set_at 4 (Number (pos 40)) ∷ []) 0 ∷ [] }
{}
