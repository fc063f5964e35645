//! Worked rows of rates and capacities. Where nothing else is said, blocks have bytes and the default
//! capacity of 4,096.

ghost use Rattle.std.specs.Prelude.{◌≡◌, ◌≤◌, ℕ, [], ◌∷◌, true, false};
ghost use Rattle.stream_model.specs.declared.vocabulary.ItemType.TheVariants.{Byte};
ghost use Rattle.kind_model.specs.Ends.{vector_source};
ghost use Rattle.worked_rows.specs.Kinds.{numbers};
ghost use Rattle.kind_model.specs.Math.{add, not_of};
ghost use Rattle.kind_model.specs.Rates.{keep_one_in_n, repeat, head, skiphead, delay, stream_mux};
ghost use Rattle.stream_model.specs.Machine.{Piece};
ghost use Rattle.graph_model.specs.Rates.{Balanced, Uneven, TooLarge, balance_of, capacities_of};
ghost use Rattle.worked_rows.specs.Rates.{sized, plain, source, sink, into, link, chain, around, joined, uneven_beside, beside, shown};

/// The rows, each with what it is about above its clauses.
pub fn rows()
    // Three items for one, and then one for two: two firings of the first two blocks meet three of
    // the others, and the buffers hold what these give. The source and the first block have a
    // capacity of 1.
    ensures balances_a_chain_firings { balance_of (chain (sized 1 (vector_source Byte) ∷ sized 1 (repeat Byte 3)
        ∷ plain (keep_one_in_n Byte 2) ∷ sink ∷ [])) ≡ Balanced (2 ∷ 2 ∷ 3 ∷ 3 ∷ []) }
    ensures balances_a_chain_capacities { capacities_of (chain (sized 1 (vector_source Byte) ∷ sized 1 (repeat Byte 3)
        ∷ plain (keep_one_in_n Byte 2) ∷ sink ∷ [])) (Balanced (2 ∷ 2 ∷ 3 ∷ 3 ∷ []))
        ≡ (2 ∷ []) ∷ (6 ∷ []) ∷ (4096 ∷ []) ∷ [] ∷ [] }

    // A stream is joined with one item in two of itself: there is no balance, and no buffer grows.
    ensures finds_no_balance_uneven { balance_of (joined (sized 4 (vector_source Byte)) (add Byte)
        (plain (keep_one_in_n Byte 2))) ≡ Uneven }
    ensures finds_no_balance_capacities { capacities_of (joined (sized 4 (vector_source Byte)) (add Byte)
        (plain (keep_one_in_n Byte 2))) Uneven ≡ (4 ∷ []) ∷ (4096 ∷ []) ∷ (4096 ∷ []) ∷ [] ∷ [] }

    // With one in two on both ways there is one. The blocks are the source, the join, the two that
    // keep one in two, and the sink.
    ensures balances_a_join_firings { balance_of (record {
      nodes = sized 4 (vector_source Byte) ∷ plain (add Byte) ∷ plain (keep_one_in_n Byte 2)
          ∷ plain (keep_one_in_n Byte 2) ∷ sink ∷ [];
      connections = link 0 3 ∷ into 3 1 0 ∷ link 0 2 ∷ into 2 1 1 ∷ link 1 4 ∷ [];
    })
        ≡ Balanced (2 ∷ 1 ∷ 1 ∷ 1 ∷ 1 ∷ []) }

    // Four base firings in one.
    ensures balances_a_multiple_firings { balance_of
        (chain (source ∷ record (plain (not_of Byte)) { multiple = 4 } ∷ sink ∷ []))
        ≡ Balanced (4 ∷ 1 ∷ 4 ∷ []) }

    // Each connected part has its own least numbers: the second does not fire more often for the
    // first.
    ensures balances_parts_firings { balance_of (record {
      nodes = source ∷ source ∷ plain (keep_one_in_n Byte 3) ∷ plain (keep_one_in_n Byte 2)
          ∷ sink ∷ sink ∷ [];
      connections = link 0 2 ∷ link 2 4 ∷ link 1 3 ∷ link 3 5 ∷ [];
    })
        ≡ Balanced (3 ∷ 2 ∷ 1 ∷ 1 ∷ 1 ∷ 1 ∷ []) }
    ensures balances_parts_empty { balance_of (record { nodes = []; connections = [] }) ≡ Balanced [] }

    // One in 1,048,576 asks for too many firings of the source.
    ensures finds_too_many_firings_answer { balance_of (chain (source ∷ plain (keep_one_in_n Byte 1024)
        ∷ plain (keep_one_in_n Byte 1024) ∷ sink ∷ [])) ≡ TooLarge }

    // Each input has its own rate: two items of the first, one of the second, three out.
    ensures balances_a_mux_firings { balance_of (record {
      nodes = source ∷ source ∷ plain (stream_mux Byte (2 ∷ 1 ∷ [])) ∷ sink ∷ [];
      connections = into 0 2 0 ∷ into 1 2 1 ∷ link 2 3 ∷ [];
    })
        ≡ Balanced (2 ∷ 1 ∷ 1 ∷ 3 ∷ []) }

    // A stream is joined with all but its first three items: the source runs four items ahead of the
    // join before there is something to join. The source and the block that skips have a capacity of 1.
    ensures makes_room_for_a_skip_firings { balance_of (joined (sized 1 (vector_source Byte)) (add Byte)
        (sized 1 (skiphead Byte 3))) ≡ Balanced (1 ∷ 1 ∷ 1 ∷ 1 ∷ []) }
    ensures makes_room_for_a_skip_capacities { capacities_of (joined (sized 1 (vector_source Byte)) (add Byte)
        (sized 1 (skiphead Byte 3))) (Balanced (1 ∷ 1 ∷ 1 ∷ 1 ∷ []))
        ≡ (4 ∷ []) ∷ (4096 ∷ []) ∷ (1 ∷ []) ∷ [] ∷ [] }

    // And with itself, two zeros before it: the block that delays gives these first, and one item
    // more.
    ensures makes_room_for_a_delay_firings { balance_of (joined (sized 1 (vector_source Byte)) (add Byte)
        (sized 1 (delay Byte 2))) ≡ Balanced (1 ∷ 1 ∷ 1 ∷ 1 ∷ []) }
    ensures makes_room_for_a_delay_capacities { capacities_of (joined (sized 1 (vector_source Byte)) (add Byte)
        (sized 1 (delay Byte 2))) (Balanced (1 ∷ 1 ∷ 1 ∷ 1 ∷ []))
        ≡ (1 ∷ []) ∷ (4096 ∷ []) ∷ (3 ∷ []) ∷ [] ∷ [] }

    // A chain with a shift is balanced, and a limit plays no part.
    ensures balances_shifts_delayed { balance_of (around (delay Byte 2)) ≡ Balanced (1 ∷ 1 ∷ 1 ∷ []) }
    ensures balances_shifts_skipped { balance_of (around (skiphead Byte 2)) ≡ Balanced (1 ∷ 1 ∷ 1 ∷ []) }
    ensures balances_shifts_ended { balance_of (around (head Byte 0)) ≡ Balanced (1 ∷ 1 ∷ 1 ∷ []) }

    // A delay gives its zeros at once, and each of them may become several items.
    ensures delays_up_to_the_limit_longest { balance_of (around (delay Byte 65536)) ≡ Balanced (1 ∷ 1 ∷ 1 ∷ []) }
    ensures delays_up_to_the_limit_repeated { balance_of (chain (source ∷ plain (delay Byte 65536)
        ∷ plain (repeat Byte 2) ∷ sink ∷ [])) ≡ TooLarge }

    // A ratio above the limit ends the search at once, also where the connections do not hold: its denominator as its
    // numerator, 1,048,576 each. Where the ratios are small, connections that do not hold are reported before counts
    // that are too many: of the two denominators 1,021 and 1,019 a whole solution takes 1,040,399.
    ensures tells_too_large_from_uneven_denominator { balance_of (uneven_beside (keep_one_in_n Byte 1024)
        (keep_one_in_n Byte 1024)) ≡ TooLarge }
    ensures tells_too_large_from_uneven_numerator { balance_of (uneven_beside (repeat Byte 1024) (repeat Byte 1024))
        ≡ TooLarge }
    ensures tells_too_large_from_uneven_small { balance_of (uneven_beside (repeat Byte 1024) (keep_one_in_n Byte 1024))
        ≡ Uneven }
    ensures tells_too_large_from_uneven_uneven_first { balance_of (record {
      nodes = source ∷ plain (add Byte) ∷ plain (keep_one_in_n Byte 2) ∷ sink
          ∷ plain (keep_one_in_n Byte 1021) ∷ plain (keep_one_in_n Byte 1019) ∷ sink ∷ sink ∷ [];
      connections = into 0 1 0 ∷ link 0 2 ∷ into 2 1 1 ∷ link 1 3 ∷ link 0 4 ∷ link 0 5 ∷ link 4 6 ∷ link 5 7 ∷ [];
    }) ≡ Uneven }
    ensures tells_too_large_from_uneven_whole { balance_of (beside (keep_one_in_n Byte 1021) (keep_one_in_n Byte 1019))
        ≡ TooLarge }
    ensures tells_too_large_from_uneven_within { balance_of (beside (keep_one_in_n Byte 255) (keep_one_in_n Byte 257))
        ≡ Balanced (65535 ∷ 257 ∷ 255 ∷ 257 ∷ 255 ∷ []) }
{}

/// Every skip of at most 65,536 items is balanced, and one longer is not. The first is shown for
/// all of them at once: to compute it for the longest would take a step for each iteration.
pub fn skips_up_to_the_limit()
    ensures above { balance_of (around (skiphead Byte 65537)) ≡ TooLarge }
    ensures up_to { (n : ℕ) → n ≤ 65536 →
        balance_of (around (skiphead Byte n)) ≡ Balanced (1 ∷ 1 ∷ 1 ∷ []) }
{}

/// What the joins with a block that shifts show at the end, in buffers that hold no more than is
/// needed: after 24 and 12 rounds of steps. With one item less for the skip nothing comes out.
pub fn joins_shifted_streams()
    ensures skipped { shown
        (joined (sized 1 (vector_source Byte)) (add Byte) (sized 1 (skiphead Byte 3)))
        ((4 ∷ []) ∷ (4096 ∷ []) ∷ (1 ∷ []) ∷ [] ∷ []) 24
        (numbers (1 ∷ 2 ∷ 3 ∷ 4 ∷ 5 ∷ 6 ∷ 7 ∷ 8 ∷ 9 ∷ 10 ∷ [])) 3
        ≡ Piece 0 7 (numbers (5 ∷ 7 ∷ 9 ∷ 11 ∷ 13 ∷ 15 ∷ 17 ∷ [])) [] true }
    ensures stalled { shown
        (joined (sized 1 (vector_source Byte)) (add Byte) (sized 1 (skiphead Byte 3)))
        ((3 ∷ []) ∷ (4096 ∷ []) ∷ (1 ∷ []) ∷ [] ∷ []) 24
        (numbers (1 ∷ 2 ∷ 3 ∷ 4 ∷ 5 ∷ 6 ∷ 7 ∷ 8 ∷ 9 ∷ 10 ∷ [])) 3 ≡ Piece 0 0 [] [] false }
    ensures delayed { shown
        (joined (sized 1 (vector_source Byte)) (add Byte) (sized 1 (delay Byte 2)))
        ((1 ∷ []) ∷ (4096 ∷ []) ∷ (3 ∷ []) ∷ [] ∷ []) 12 (numbers (1 ∷ 2 ∷ 3 ∷ [])) 3
        ≡ Piece 0 3 (numbers (1 ∷ 2 ∷ 4 ∷ [])) [] true }
{}
