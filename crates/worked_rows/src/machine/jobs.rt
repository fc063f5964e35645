//! Runs where work is apart from its claim.
#![tactic(auto, unfolding(crate::specs::Runs::worked_rows))]

ghost use Rattle.std.specs.Prelude.{◌≡◌, pos, true, false, [], ◌∷◌, map};
ghost use Rattle.stream_model.specs.declared.vocabulary.ItemType.TheVariants.{Byte};
ghost use Rattle.stream_model.specs.declared.vocabulary.Policy.TheVariants as policies;
ghost use Rattle.stream_model.specs.Lists.{numbers_from};
ghost use Rattle.stream_model.specs.Settings.{Number};
ghost use Rattle.stream_model.specs.Network.{State};
ghost use Rattle.stream_model.specs.Machine.{Job, Busy, is_quiet, Fed, Taken, WaitingItems, Did, Abandoned, Piece, Refused, foreign, commit_of, abandon_of};
ghost use Rattle.worked_rows.specs.Runs.{through, plus_ten, own_capacities, two_readers, sum_of_two, SetAt, Claim, Commit, Abandon, Step, Read, byte_feed, claim_reply, plain_claim, job_at, replies_of, state_after};
ghost use Rattle.worked_rows.specs.Kinds.{numbers, alone, set_at};
ghost use Rattle.kind_model.specs.Math.{add_const, moving_sum};
ghost use Rattle.kind_model.specs.Bits.{diff_encoder};

/// The rows, each with what it is about above its clauses.
pub fn rows()
    // Two claims are in flight, and the later one is committed first. A second commit of the first
    // finds none.
    ensures commits_in_any_order { replies_of (two_readers 4096 (add_const Byte (pos 1)) (add_const Byte (pos 2)))
        (byte_feed 0 (5 ∷ 6 ∷ []) ∷ Step 0 2
        ∷ Claim 1 2 ∷ Claim 2 2 ∷ Commit 2 ∷ Commit 1 ∷ Commit 1 ∷ [])
        ≡ Fed 2 ∷ Did 2 ∷ plain_claim 1 0 (5 ∷ 6 ∷ []) 1 ∷ plain_claim 2 0 (5 ∷ 6 ∷ []) 2
        ∷ Did 2 ∷ Did 2 ∷ Refused foreign ∷ [] }

    // A copy of the first job of that run is refused after it, and the state stays.
    ensures refuses_a_copy { let net = two_readers 4096 (add_const Byte (pos 1)) (add_const Byte (pos 2)) in
        let claimed : State = state_after net (byte_feed 0 (5 ∷ 6 ∷ []) ∷ Step 0 2
        ∷ Claim 1 2 ∷ Claim 2 2 ∷ []) in
        let committed : State = state_after net (byte_feed 0 (5 ∷ 6 ∷ []) ∷ Step 0 2
        ∷ Claim 1 2 ∷ Claim 2 2 ∷ Commit 2 ∷ Commit 1 ∷ []) in
        commit_of net committed true (job_at net claimed 1) ≡ (Refused foreign, committed) }

    // A claim that is given up is gone: it cannot be given up again, and its items are claimed anew.
    ensures abandons_a_claim { replies_of (plus_ten 4096)
        (byte_feed 0 (5 ∷ 6 ∷ []) ∷ Step 0 2
        ∷ Claim 1 2 ∷ Abandon 1 ∷ Abandon 1 ∷ Claim 1 1 ∷ Commit 1 ∷ [])
        ≡ Fed 2 ∷ Did 2 ∷ plain_claim 1 0 (5 ∷ 6 ∷ []) 10 ∷ Abandoned ∷ Refused foreign
        ∷ plain_claim 1 0 (5 ∷ []) 10 ∷ Did 1 ∷ [] }

    // A job that was given up and claimed again is committed by either copy.
    ensures commits_an_equal_job { let net = plus_ten 4096 in
        let claimed : State = state_after net (byte_feed 0 (5 ∷ 6 ∷ []) ∷ Step 0 2
        ∷ Claim 1 2 ∷ []) in
        let again : State = state_after net (byte_feed 0 (5 ∷ 6 ∷ []) ∷ Step 0 2
        ∷ Claim 1 2 ∷ Abandon 1 ∷ Claim 1 2 ∷ []) in
        (commit_of net again true (job_at net claimed 1)).0 ≡ Did 2 }

    // Under a setting that was made in between, the old copy is refused, and the claim in flight
    // stays: it is committed.
    ensures refuses_an_outdated_job_old { let net = plus_ten 4096 in
        let claimed : State = state_after net (byte_feed 0 (5 ∷ 6 ∷ []) ∷ Step 0 2
        ∷ Claim 1 2 ∷ []) in
        let again : State = state_after net (byte_feed 0 (5 ∷ 6 ∷ []) ∷ Step 0 2
        ∷ Claim 1 2 ∷ Abandon 1 ∷ SetAt 1 0 (Number (pos 99)) ∷ Claim 1 2 ∷ []) in
        commit_of net again true (job_at net claimed 1) ≡ (Refused foreign, again) }
    ensures refuses_an_outdated_job_new { replies_of (plus_ten 4096) (byte_feed 0 (5 ∷ 6 ∷ []) ∷ Step 0 2
        ∷ Claim 1 2 ∷ Abandon 1 ∷ SetAt 1 0 (Number (pos 99)) ∷ Claim 1 2 ∷ Commit 1 ∷ [])
        ≡ Fed 2 ∷ Did 2 ∷ plain_claim 1 0 (5 ∷ 6 ∷ []) 10 ∷ Abandoned ∷ Taken 0
        ∷ plain_claim 1 0 (5 ∷ 6 ∷ []) 99 ∷ Did 2 ∷ [] }

    // A job that agrees in all else, but holds a block that is not the network's own, is refused, and
    // the state stays.
    ensures refuses_another_block { let net = plus_ten 4096 in
        let claimed : State = state_after net (byte_feed 0 (5 ∷ 6 ∷ []) ∷ Step 0 2
        ∷ Claim 1 2 ∷ []) in
        (commit_of net claimed false (job_at net claimed 1) ≡ (Refused foreign, claimed))
        × (abandon_of net claimed false (job_at net claimed 1) ≡ (Refused foreign, claimed)) }

    // A window begins with the past that the block reads, zeros before the first item.
    ensures claims_with_the_past { replies_of (through Byte (alone (moving_sum Byte 3)))
        (byte_feed 0 (1 ∷ 2 ∷ 3 ∷ 4 ∷ 200 ∷ 100 ∷ []) ∷ Step 0 9
        ∷ Claim 1 1 ∷ Commit 1 ∷ Step 1 1 ∷ Claim 1 9 ∷ Commit 1 ∷ Step 2 9 ∷ Read 2 0 9 ∷ [])
        ≡ Fed 6 ∷ Did 6
        ∷ claim_reply 1 0 1 (numbers (0 ∷ 0 ∷ 1 ∷ []) ∷ []) [] 0 ∷ Did 1 ∷ Did 1
        ∷ claim_reply 1 2 4 (numbers (1 ∷ 2 ∷ 3 ∷ 4 ∷ 200 ∷ 100 ∷ []) ∷ []) [] 0 ∷ Did 4 ∷ Did 6
        ∷ Piece 0 6 (numbers (1 ∷ 3 ∷ 6 ∷ 9 ∷ 207 ∷ 48 ∷ [])) [] false ∷ [] }

    // A job has the state word of the firings before it: here the last output.
    ensures claims_with_the_state { replies_of (through Byte (alone (diff_encoder 4)))
        (byte_feed 0 (1 ∷ 2 ∷ 3 ∷ 1 ∷ []) ∷ Step 0 9
        ∷ Claim 1 2 ∷ Commit 1 ∷ Claim 1 9 ∷ Commit 1 ∷ Step 2 9 ∷ Read 2 0 9 ∷ [])
        ≡ Fed 4 ∷ Did 4 ∷ claim_reply 1 0 2 (numbers (1 ∷ 2 ∷ []) ∷ []) [] 0 ∷ Did 2
        ∷ claim_reply 1 2 2 (numbers (3 ∷ 1 ∷ []) ∷ []) [] 3 ∷ Did 2 ∷ Did 4
        ∷ Piece 0 4 (numbers (1 ∷ 3 ∷ 2 ∷ 3 ∷ [])) [] false ∷ [] }

    // A claim counts firings, and its window the items of all of their base firings, four in each.
    ensures claims_in_multiples { replies_of (through Byte (record (alone (add_const Byte (pos 10))) { multiple = 4 }))
        (byte_feed 0 (numbers_from 1 10) ∷ Step 0 10 ∷ Step 1 1
        ∷ Claim 1 8 ∷ Commit 1 ∷ Claim 1 1 ∷ [])
        ≡ Fed 10 ∷ Did 10 ∷ Did 1
        ∷ claim_reply 1 1 1 (numbers (5 ∷ 6 ∷ 7 ∷ 8 ∷ []) ∷ []) (set_at 0 (Number (pos 10)) ∷ []) 0
        ∷ Did 1 ∷ WaitingItems 0 ∷ [] }

    // Each input has its window, of as many items as the shorter input allows.
    ensures claims_on_each_input { replies_of (sum_of_two policies.All)
        (byte_feed 0 (1 ∷ 2 ∷ 3 ∷ []) ∷ byte_feed 1 (10 ∷ 20 ∷ [])
        ∷ Step 0 9 ∷ Step 1 9 ∷ Claim 2 9 ∷ [])
        ≡ Fed 3 ∷ Fed 2 ∷ Did 3 ∷ Did 2
        ∷ claim_reply 2 0 2 (numbers (1 ∷ 2 ∷ []) ∷ numbers (10 ∷ 20 ∷ []) ∷ []) [] 0 ∷ [] }

    // While a block has a claim in flight it is busy, be it for one firing, and the plant is not quiet. Once it is
    // committed, and the sink has taken the item, the plant is.
    ensures is_busy_with_a_claim_busy { replies_of (plus_ten 4096)
        (byte_feed 0 (5 ∷ []) ∷ Step 0 2 ∷ Claim 1 1 ∷ Claim 1 1 ∷ Step 1 1 ∷ [])
        ≡ Fed 1 ∷ Did 1 ∷ plain_claim 1 0 (5 ∷ []) 10 ∷ Busy ∷ Busy ∷ [] }
    ensures is_busy_with_a_claim_claimed { is_quiet (plus_ten 4096) (own_capacities (plus_ten 4096))
        (state_after (plus_ten 4096) (byte_feed 0 (5 ∷ []) ∷ Step 0 2 ∷ Claim 1 1 ∷ [])) ≡ false }
    ensures is_busy_with_a_claim_committed { is_quiet (plus_ten 4096) (own_capacities (plus_ten 4096))
        (state_after (plus_ten 4096)
        (byte_feed 0 (5 ∷ []) ∷ Step 0 2 ∷ Claim 1 1 ∷ Commit 1 ∷ Step 2 1 ∷ [])) ≡ true }

    // A job that differs from the claim in flight in one thing is refused: the used outputs, the first firing, the
    // count, an item of a window, a value in force, the state word.
    ensures refuses_another_job { let net = plus_ten 4096 in
        let claimed : State = state_after net (byte_feed 0 (5 ∷ 6 ∷ []) ∷ Step 0 2 ∷ Claim 1 2 ∷ []) in
        let job : Job = job_at net claimed 1 in
        map (λ (j : Job). (commit_of net claimed true j).0)
        (record job { outputs = 2 } ∷ record job { first = 1 } ∷ record job { count = 1 }
        ∷ record job { windows = numbers (5 ∷ 7 ∷ []) ∷ [] } ∷ record job { held = set_at 0 (Number (pos 11)) ∷ [] }
        ∷ record job { word = 1 } ∷ job ∷ [])
        ≡ Refused foreign ∷ Refused foreign ∷ Refused foreign ∷ Refused foreign ∷ Refused foreign
        ∷ Refused foreign ∷ Did 2 ∷ [] }
{}
