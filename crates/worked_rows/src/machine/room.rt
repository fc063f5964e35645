//! Runs where the items, the room or the limit decide how much a step does.
#![tactic(auto, unfolding(crate::specs::Runs::worked_rows))]

ghost use Rattle.std.specs.Prelude.{◌≡◌, pos, true, false, [], ◌∷◌, ◌++◌};
ghost use Rattle.stream_model.specs.declared.vocabulary.ItemType.TheVariants.{Byte};
ghost use Rattle.stream_model.specs.declared.vocabulary.Policy.TheVariants as policies;
ghost use Rattle.stream_model.specs.Lists.{numbers_from};
ghost use Rattle.stream_model.specs.Machine.{Fed, Closed, Done, WaitingItems, WaitingRoom, Did, Piece, is_quiet, is_all_done};
ghost use Rattle.worked_rows.specs.Runs.{node, sum_of_two, byte_source, byte_sink, chain, arrow, network, plus_ten, two_readers, sum_with, through, times, own_capacities, Close, Step, Read, byte_feed, replies_of, state_after, firings_in};
ghost use Rattle.worked_rows.specs.Kinds.{numbers, alone};
ghost use Rattle.kind_model.specs.Ends.{vector_source};
ghost use Rattle.kind_model.specs.Math.{add_const, add, not_of};
ghost use Rattle.kind_model.specs.Rates.{head, keep_one_in_n, repeat, deinterleave, skiphead, delay};

/// The rows, each with what it is about above its clauses.
pub fn rows()
    // Two bytes through a block that adds 10: the first sum wraps.
    ensures adds_ten { replies_of (plus_ten 4096)
        (byte_feed 0 (250 ∷ 1 ∷ []) ∷ Step 0 8 ∷ Step 1 8 ∷ Step 2 8 ∷ Read 2 0 8 ∷ [])
        ≡ Fed 2 ∷ Did 2 ∷ Did 2 ∷ Did 2 ∷ Piece 0 2 (numbers (4 ∷ 11 ∷ [])) [] false ∷ [] }

    // The row above, fed in pieces and stepped one item at a time.
    ensures adds_ten_in_pieces { replies_of (plus_ten 4096)
        (byte_feed 0 (250 ∷ []) ∷ Step 0 1 ∷ Step 1 1 ∷ byte_feed 0 (1 ∷ []) ∷ Step 2 1
        ∷ Step 0 1 ∷ Step 1 1 ∷ Step 2 1 ∷ Step 2 1 ∷ Read 2 0 8 ∷ [])
        ≡ Fed 1 ∷ Did 1 ∷ Did 1 ∷ Fed 2 ∷ Did 1 ∷ Did 1 ∷ Did 1 ∷ Did 1 ∷ WaitingItems 0
        ∷ Piece 0 2 (numbers (4 ∷ 11 ∷ [])) [] false ∷ [] }

    // Ten bytes through two buffers of four: each step does what items and room allow, and a block
    // whose input has ended is done.
    ensures fills_and_ends_replies { replies_of (plus_ten 4)
        (byte_feed 0 (numbers_from 1 10) ∷ Step 0 100 ∷ Step 0 1 ∷ Step 1 3 ∷ Step 0 100 ∷ Step 1 9
        ∷ Step 1 1 ∷ Step 2 9 ∷ Close 0 ∷ Step 0 100
        ∷ Step 1 9 ∷ Step 2 9 ∷ Step 0 9 ∷ Step 0 1 ∷ Step 1 9 ∷ Step 1 1 ∷ Step 2 9 ∷ Step 2 1
        ∷ Read 2 8 9 ∷ [])
        ≡ Fed 10 ∷ Did 4 ∷ WaitingRoom 0 ∷ Did 3 ∷ Did 3 ∷ Did 1
        ∷ WaitingRoom 0 ∷ Did 4 ∷ Closed 10 ∷ Did 1
        ∷ Did 4 ∷ Did 4 ∷ Did 2 ∷ Done ∷ Did 2 ∷ Done ∷ Did 2 ∷ Done
        ∷ Piece 8 10 (numbers (19 ∷ 20 ∷ [])) [] true ∷ [] }
    // before the read
    ensures fills_and_ends_quiet { let net = plus_ten 4 in let st = state_after net
        (byte_feed 0 (numbers_from 1 10) ∷ Step 0 100 ∷ Step 0 1 ∷ Step 1 3 ∷ Step 0 100 ∷ Step 1 9
        ∷ Step 1 1 ∷ Step 2 9 ∷ Close 0 ∷ Step 0 100
        ∷ Step 1 9 ∷ Step 2 9 ∷ Step 0 9 ∷ Step 0 1 ∷ Step 1 9 ∷ Step 1 1 ∷ Step 2 9 ∷ Step 2 1
        ∷ []) in
        (is_quiet net (own_capacities net) st ≡ true) × (is_all_done st ≡ true) }

    // The slower of two readers decides how far the source may go.
    ensures waits_for_the_slower_reader { replies_of (two_readers 4 (not_of Byte) (not_of Byte))
        (byte_feed 0 (numbers_from 1 10) ∷ Step 0 100 ∷ Step 0 1 ∷ Step 1 4 ∷ Step 0 1 ∷ Step 2 1
        ∷ Step 0 100 ∷ [])
        ≡ Fed 10 ∷ Did 4 ∷ WaitingRoom 0 ∷ Did 4 ∷ WaitingRoom 0 ∷ Did 1 ∷ Did 1 ∷ [] }

    // One input brings every second item of the other: the source comes to 7 and the sum to 3, and
    // then each block waits for another.
    ensures stalls_replies { replies_of (sum_with 4 (alone (keep_one_in_n Byte 2)))
        (byte_feed 0 (numbers_from 1 20) ∷ Step 0 9 ∷ Step 2 9 ∷ Step 1 9
        ∷ Step 0 9 ∷ Step 2 9 ∷ Step 1 9 ∷ Step 0 9 ∷ Step 3 9
        ∷ Step 0 1 ∷ Step 1 1 ∷ Step 2 1 ∷ Step 3 1 ∷ Read 3 0 9 ∷ [])
        ≡ Fed 20 ∷ Did 4 ∷ Did 2 ∷ Did 2 ∷ Did 2 ∷ Did 1 ∷ Did 1 ∷ Did 1 ∷ Did 3
        ∷ WaitingRoom 0 ∷ WaitingItems 1 ∷ WaitingItems 0 ∷ WaitingItems 0
        ∷ Piece 0 3 (numbers (3 ∷ 6 ∷ 9 ∷ [])) [] false ∷ [] }
    ensures stalls_stalled { let net = sum_with 4 (alone (keep_one_in_n Byte 2)) in
        let st = state_after net
        (byte_feed 0 (numbers_from 1 20) ∷ Step 0 9 ∷ Step 2 9 ∷ Step 1 9
        ∷ Step 0 9 ∷ Step 2 9 ∷ Step 1 9 ∷ Step 0 9 ∷ Step 3 9
        ∷ []) in
        (firings_in st ≡ 7 ∷ 3 ∷ 3 ∷ 3 ∷ [])
        × (is_quiet net (own_capacities net) st ≡ true) × (is_all_done st ≡ false) }

    // Where both inputs of the sum bring every second item, nothing stalls: the fifth byte is never
    // taken.
    ensures ends_in_balance { replies_of
        (network (node (vector_source Byte) 4 ∷ alone (add Byte) ∷ alone (keep_one_in_n Byte 2)
        ∷ alone (keep_one_in_n Byte 2) ∷ byte_sink ∷ [])
        (arrow 0 3 0 ∷ arrow 3 1 0 ∷ arrow 0 2 0 ∷ arrow 2 1 1 ∷ arrow 1 4 0 ∷ []))
        (byte_feed 0 (numbers_from 1 5) ∷ Close 0
        ∷ Step 0 9 ∷ Step 2 9 ∷ Step 3 9 ∷ Step 1 9 ∷ Step 0 9 ∷ Step 4 9
        ∷ Step 0 9 ∷ Step 2 9 ∷ Step 3 9 ∷ Step 1 9 ∷ Step 4 9 ∷ Read 4 0 9 ∷ [])
        ≡ Fed 5 ∷ Closed 5 ∷ Did 4 ∷ Did 2 ∷ Did 2 ∷ Did 2 ∷ Did 1 ∷ Did 2
        ∷ Done ∷ Done ∷ Done ∷ Done ∷ Done
        ∷ Piece 0 2 (numbers (4 ∷ 8 ∷ [])) [] true ∷ [] }

    // A reader that is done holds up nobody: a short stream ends the sum, and the long one goes on to
    // its sink.
    ensures goes_on_without_a_done_reader { replies_of
        (network (byte_source ∷ node (vector_source Byte) 4 ∷ alone (add Byte)
        ∷ byte_sink ∷ byte_sink ∷ [])
        (arrow 0 2 0 ∷ arrow 1 2 1 ∷ arrow 2 3 0 ∷ arrow 1 4 0 ∷ []))
        (byte_feed 0 (1 ∷ 2 ∷ 3 ∷ []) ∷ byte_feed 1 (numbers_from 1 100) ∷ Close 0 ∷ Close 1
        ∷ Step 0 9 ∷ Step 1 9 ∷ Step 2 9 ∷ Step 4 9 ∷ Step 1 9 ∷ Step 4 9 ∷ Step 1 1
        ∷ Step 0 1 ∷ Step 2 1 ∷ Step 3 9 ∷ Step 3 1
        ∷ times 24 (Step 1 9 ∷ Step 4 9 ∷ []) ++ Step 1 1 ∷ Step 4 1
        ∷ Read 3 0 9 ∷ Read 4 0 100 ∷ [])
        ≡ Fed 3 ∷ Fed 100 ∷ Closed 3 ∷ Closed 100
        ∷ Did 3 ∷ Did 4 ∷ Did 3 ∷ Did 4 ∷ Did 3 ∷ Did 3 ∷ WaitingRoom 0
        ∷ Done ∷ Done ∷ Did 3 ∷ Done
        ∷ times 23 (Did 4 ∷ Did 4 ∷ []) ++ Did 1 ∷ Did 1 ∷ Done ∷ Done
        ∷ Piece 0 3 (numbers (2 ∷ 4 ∷ 6 ∷ [])) [] true
        ∷ Piece 0 100 (numbers (numbers_from 1 100)) [] true ∷ [] }

    // A block that skips three items beside a sum: buffers of 1 item each stall, and buffers of 4 and
    // 1 items are enough to go on to the end.
    ensures goes_on_past_a_skip_small { replies_of (sum_with 1 (node (skiphead Byte 3) 1))
        (byte_feed 0 (numbers_from 1 10) ∷ Close 0
        ∷ times 2 (Step 0 9 ∷ Step 2 9 ∷ Step 1 9 ∷ Step 3 9 ∷ []) ++ Read 3 0 9 ∷ [])
        ≡ Fed 10 ∷ Closed 10 ∷ Did 1 ∷ Did 1 ∷ WaitingItems 1 ∷ WaitingItems 0
        ∷ WaitingRoom 0 ∷ WaitingItems 0 ∷ WaitingItems 1 ∷ WaitingItems 0
        ∷ Piece 0 0 [] [] false ∷ [] }
    ensures goes_on_past_a_skip_enough { replies_of (sum_with 4 (node (skiphead Byte 3) 1))
        (byte_feed 0 (numbers_from 1 10) ∷ Close 0
        ∷ times 8 (Step 0 9 ∷ Step 2 9 ∷ Step 1 9 ∷ Step 3 9 ∷ []) ++ Read 3 0 9 ∷ [])
        ≡ Fed 10 ∷ Closed 10 ∷ Did 4 ∷ Did 4 ∷ Did 1 ∷ Did 1
        ∷ times 6 (Did 1 ∷ Did 1 ∷ Did 1 ∷ Did 1 ∷ []) ++ Done ∷ Done ∷ Done ∷ Done
        ∷ Piece 0 7 (numbers (5 ∷ 7 ∷ 9 ∷ 11 ∷ 13 ∷ 15 ∷ 17 ∷ [])) [] true ∷ [] }

    // A block that delays by two gives its zeros before anything has come.
    ensures delays_before_items_come { replies_of (sum_with 1 (node (delay Byte 2) 3))
        (Step 2 9 ∷ byte_feed 0 (1 ∷ 2 ∷ 3 ∷ []) ∷ Close 0
        ∷ times 4 (Step 0 9 ∷ Step 2 9 ∷ Step 1 9 ∷ Step 3 9 ∷ []) ++ Read 3 0 9 ∷ [])
        ≡ Did 2 ∷ Fed 3 ∷ Closed 3
        ∷ times 3 (Did 1 ∷ Did 1 ∷ Did 1 ∷ Did 1 ∷ []) ++ Done ∷ Done ∷ Done ∷ Done
        ∷ Piece 0 3 (numbers (1 ∷ 2 ∷ 4 ∷ [])) [] true ∷ [] }

    // Three items and no more: then nobody reads the source, and the sink has its whole stream.
    ensures ends_at_its_limit { replies_of (through Byte (alone (head Byte 3)))
        (byte_feed 0 (numbers_from 1 100) ∷ Step 0 10 ∷ Step 1 10 ∷ Step 1 1
        ∷ Step 0 1 ∷ Step 2 5 ∷ Step 2 1 ∷ Read 2 0 9 ∷ [])
        ≡ Fed 100 ∷ Did 10 ∷ Did 3 ∷ Done ∷ Done ∷ Did 3 ∷ Done
        ∷ Piece 0 3 (numbers (1 ∷ 2 ∷ 3 ∷ [])) [] true ∷ [] }

    // A source, three items for one, and every second of them: buffers of 2 and 6 items are enough to
    // go on.
    ensures goes_on_in_small_buffers { replies_of (chain (node (vector_source Byte) 2 ∷ node (repeat Byte 3) 6
        ∷ alone (keep_one_in_n Byte 2) ∷ byte_sink ∷ []))
        (byte_feed 0 (numbers_from 1 10) ∷ Step 0 9 ∷ Step 1 9 ∷ Step 1 1
        ∷ Step 0 9 ∷ Step 1 9 ∷ Step 2 9 ∷ Step 1 9 ∷ [])
        ≡ Fed 10 ∷ Did 2 ∷ Did 2 ∷ WaitingItems 0 ∷ Did 2 ∷ WaitingRoom 0 ∷ Did 3 ∷ Did 2 ∷ [] }

    // Four items in a firing: ten items are two firings.
    ensures steps_in_multiples { replies_of (through Byte (record (alone (add_const Byte (pos 10))) { multiple = 4 }))
        (byte_feed 0 (numbers_from 1 10) ∷ Step 0 10 ∷ Step 1 8 ∷ Step 2 9 ∷ Read 2 6 9 ∷ [])
        ≡ Fed 10 ∷ Did 10 ∷ Did 2 ∷ Did 8 ∷ Piece 6 8 (numbers (17 ∷ 18 ∷ [])) [] false ∷ [] }

    // Each output has its own room: with one item unread on either, the block waits, for the lowest
    // such output.
    ensures waits_for_each_output { replies_of
        (network (byte_source ∷ node (deinterleave Byte 2) 1 ∷ byte_sink ∷ byte_sink ∷ [])
        (arrow 0 1 0 ∷ arrow 1 2 0 ∷ record (arrow 1 3 0) { out_port = 1 } ∷ []))
        (byte_feed 0 (numbers_from 1 6) ∷ Step 0 9 ∷ Step 1 9
        ∷ Step 1 1 ∷ Step 2 9 ∷ Step 1 1 ∷ Step 3 9 ∷ Step 1 9 ∷ Step 2 9 ∷ Step 3 9
        ∷ Read 2 0 9 ∷ Read 3 0 9 ∷ [])
        ≡ Fed 6 ∷ Did 6 ∷ Did 1
        ∷ WaitingRoom 0 ∷ Did 1 ∷ WaitingRoom 1 ∷ Did 1 ∷ Did 1 ∷ Did 1 ∷ Did 1
        ∷ Piece 0 2 (numbers (1 ∷ 3 ∷ [])) [] false
        ∷ Piece 0 2 (numbers (2 ∷ 4 ∷ [])) [] false ∷ [] }

    // A block is done where nobody reads any of its outputs, and goes on while one of them is read.
    ensures goes_on_for_a_live_output { replies_of
        (network (byte_source ∷ alone (deinterleave Byte 2) ∷ alone (head Byte 1) ∷ byte_sink
        ∷ alone (head Byte 2) ∷ byte_sink ∷ [])
        (arrow 0 1 0 ∷ arrow 1 2 0 ∷ record (arrow 1 4 0) { out_port = 1 }
        ∷ arrow 2 3 0 ∷ arrow 4 5 0 ∷ []))
        (byte_feed 0 (numbers_from 1 6) ∷ Step 0 9 ∷ Step 1 1 ∷ Step 2 9 ∷ Step 2 1
        ∷ Step 1 1 ∷ Step 4 9 ∷ Step 4 1 ∷ Step 1 1 ∷ Step 0 1 ∷ Step 5 9 ∷ Read 5 0 9 ∷ [])
        ≡ Fed 6 ∷ Did 6 ∷ Did 1 ∷ Did 1 ∷ Done
        ∷ Did 1 ∷ Did 2 ∷ Done ∷ Done ∷ Done ∷ Did 2
        ∷ Piece 0 2 (numbers (2 ∷ 4 ∷ [])) [] false ∷ [] }

    // A block with a limit waits while items lack and firings are left of it.
    ensures waits_before_its_limit { replies_of (through Byte (alone (head Byte 3)))
        (byte_feed 0 (1 ∷ []) ∷ Step 0 9 ∷ Step 1 9 ∷ Step 1 9 ∷ byte_feed 0 (2 ∷ 3 ∷ 4 ∷ []) ∷ Step 0 9
        ∷ Step 1 9 ∷ Step 1 9 ∷ [])
        ≡ Fed 1 ∷ Did 1 ∷ Did 1 ∷ WaitingItems 0 ∷ Fed 4 ∷ Did 3 ∷ Did 2 ∷ Done ∷ [] }

    // A block waits for the lowest input that lacks items.
    ensures waits_for_the_lowest_input { replies_of (sum_of_two policies.All)
        (Step 2 1 ∷ byte_feed 0 (1 ∷ []) ∷ Step 0 9 ∷ Step 2 1 ∷ byte_feed 1 (1 ∷ []) ∷ Step 1 9 ∷ Step 2 9
        ∷ byte_feed 1 (1 ∷ []) ∷ Step 1 9 ∷ Step 2 1 ∷ [])
        ≡ WaitingItems 0 ∷ Fed 1 ∷ Did 1 ∷ WaitingItems 1 ∷ Fed 1 ∷ Did 1 ∷ Did 1
        ∷ Fed 2 ∷ Did 1 ∷ WaitingItems 0 ∷ [] }
{}
