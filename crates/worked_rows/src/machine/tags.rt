//! Runs with tags.
#![tactic(auto, unfolding(crate::specs::Runs::worked_rows))]

ghost use Rattle.std.specs.Prelude.{◌≡◌, List, ℕ, pos, negsuc, false, [], ◌∷◌, ◌++◌, map, codes};
ghost use Rattle.stream_model.specs.declared.vocabulary.Policy.TheVariants as policies;
ghost use Rattle.stream_model.specs.declared.vocabulary.ItemType.TheVariants.{Byte};
ghost use Rattle.stream_model.specs.Machine.{Reply, Fed, Did, Piece};
ghost use Rattle.worked_rows.specs.Runs.{byte_source, byte_sink, chain, two_beside, arrow, network, through, sum_of_two, thinned_sum, plus_ten, Step, Read, byte_feed, marked_feed, mark, tag, steps, full_replies, replies_of};
ghost use Rattle.worked_rows.specs.Kinds.{numbers, alone};
ghost use Rattle.kind_model.specs.Math.{add};
ghost use Rattle.kind_model.specs.Rates.{stream_mux, keep_one_in_n, skiphead, delay, repeat};

/// The rows, each with what it is about above its clauses.
pub fn rows()
    // Every fourth item: a tag goes to the nearest item of the output (ties round up), and shows once
    // that item is there.
    ensures thins_tags { replies_of (through Byte (alone (keep_one_in_n Byte 4)))
        (marked_feed 0 (1 ∷ 2 ∷ 3 ∷ 4 ∷ [])
        (mark 1 (codes "k") (pos 5) ∷ mark 2 (codes "k") (pos 6) ∷ [])
        ∷ Step 0 9 ∷ Step 1 9 ∷ Step 2 9 ∷ Read 2 0 9
        ∷ byte_feed 0 (5 ∷ 6 ∷ 7 ∷ 8 ∷ []) ∷ Step 0 9 ∷ Step 1 9 ∷ Step 2 9 ∷ Read 2 0 9 ∷ [])
        ≡ Fed 4 ∷ Did 4 ∷ Did 1 ∷ Did 1
        ∷ Piece 0 1 (numbers (4 ∷ [])) (tag 0 (codes "k") (pos 5) 0 ∷ []) false
        ∷ Fed 8 ∷ Did 4 ∷ Did 1 ∷ Did 1
        ∷ Piece 0 2 (numbers (4 ∷ 8 ∷ []))
        (tag 0 (codes "k") (pos 5) 0 ∷ tag 1 (codes "k") (pos 6) 0 ∷ []) false ∷ [] }

    // Two sources, added and thinned: tags of both on one item are in order of key, value and source,
    // and doubles stay. The sum is made at once, or one item and then three.
    ensures joins_tags { let replies : List ℕ → List Reply = λ cuts. replies_of thinned_sum
        (marked_feed 0 (1 ∷ 2 ∷ 3 ∷ 4 ∷ [])
        (mark 1 (codes "b") (pos 1) ∷ mark 2 (codes "a") (pos 7) ∷ mark 2 (codes "a") (pos 7) ∷ [])
        ∷ marked_feed 1 (10 ∷ 20 ∷ 30 ∷ 40 ∷ []) (mark 1 (codes "a") (pos 7) ∷ [])
        ∷ Step 0 9 ∷ Step 1 9 ∷ [] ++ steps 2 cuts ++ Step 3 9 ∷ Step 4 9 ∷ Read 4 0 9 ∷ []) in
        let wanted : List ℕ → List Reply = λ cuts.
        Fed 4 ∷ Fed 4 ∷ Did 4 ∷ Did 4 ∷ [] ++ full_replies cuts ++ Did 2 ∷ Did 2
        ∷ Piece 0 2 (numbers (22 ∷ 44 ∷ []))
        (tag 1 (codes "a") (pos 7) 0 ∷ tag 1 (codes "a") (pos 7) 0
        ∷ tag 1 (codes "a") (pos 7) 1 ∷ tag 1 (codes "b") (pos 1) 0 ∷ []) false ∷ [] in
        let cuts = (4 ∷ []) ∷ (1 ∷ 3 ∷ []) ∷ [] in
        map replies cuts ≡ map wanted cuts }

    // Under the policy `All` the tags of both inputs go on, and a read shows those on its items. Any
    // cut of the sum's three items gives the same.
    ensures lets_all_tags_through { let replies : List ℕ → List Reply = λ cuts. replies_of (sum_of_two policies.All)
        (marked_feed 0 (1 ∷ 2 ∷ 3 ∷ [])
        (mark 1 (codes "b") (pos 1) ∷ mark 1 (codes "a") (pos 7) ∷ mark 1 (codes "a") (pos 7) ∷ [])
        ∷ marked_feed 1 (10 ∷ 20 ∷ 30 ∷ [])
        (mark 1 (codes "a") (pos 7) ∷ mark 2 (codes "c") (negsuc 4) ∷ [])
        ∷ Step 0 9 ∷ Step 1 9 ∷ [] ++ steps 2 cuts
        ++ Step 3 2 ∷ Read 3 0 9 ∷ Step 3 1 ∷ Read 3 2 1 ∷ []) in
        let wanted : List ℕ → List Reply = λ cuts.
        Fed 3 ∷ Fed 3 ∷ Did 3 ∷ Did 3 ∷ [] ++ full_replies cuts ++ Did 2
        ∷ Piece 0 2 (numbers (11 ∷ 22 ∷ []))
        (tag 1 (codes "a") (pos 7) 0 ∷ tag 1 (codes "a") (pos 7) 0
        ∷ tag 1 (codes "a") (pos 7) 1 ∷ tag 1 (codes "b") (pos 1) 0 ∷ []) false
        ∷ Did 1 ∷ Piece 2 3 (numbers (33 ∷ [])) (tag 2 (codes "c") (negsuc 4) 1 ∷ []) false ∷ [] in
        let cuts = (3 ∷ []) ∷ (1 ∷ 2 ∷ []) ∷ (2 ∷ 1 ∷ []) ∷ (1 ∷ 1 ∷ 1 ∷ []) ∷ [] in
        map replies cuts ≡ map wanted cuts }

    // Under the policy `None` no tag goes on.
    ensures lets_no_tag_through { let replies : List ℕ → List Reply = λ cuts. replies_of (sum_of_two policies.None)
        (marked_feed 0 (1 ∷ 2 ∷ 3 ∷ [])
        (mark 1 (codes "b") (pos 1) ∷ mark 1 (codes "a") (pos 7) ∷ mark 1 (codes "a") (pos 7) ∷ [])
        ∷ marked_feed 1 (10 ∷ 20 ∷ 30 ∷ [])
        (mark 1 (codes "a") (pos 7) ∷ mark 2 (codes "c") (negsuc 4) ∷ [])
        ∷ Step 0 9 ∷ Step 1 9 ∷ [] ++ steps 2 cuts
        ++ Step 3 2 ∷ Read 3 0 9 ∷ Step 3 1 ∷ Read 3 2 1 ∷ []) in
        let wanted : List ℕ → List Reply = λ cuts.
        Fed 3 ∷ Fed 3 ∷ Did 3 ∷ Did 3 ∷ [] ++ full_replies cuts ++ Did 2
        ∷ Piece 0 2 (numbers (11 ∷ 22 ∷ [])) [] false
        ∷ Did 1 ∷ Piece 2 3 (numbers (33 ∷ [])) [] false ∷ [] in
        let cuts = (3 ∷ []) ∷ (1 ∷ 2 ∷ []) ∷ (2 ∷ 1 ∷ []) ∷ (1 ∷ 1 ∷ 1 ∷ []) ∷ [] in
        map replies cuts ≡ map wanted cuts }

    // Two zeros come first, and the tag moves with its item.
    ensures delays_tags { replies_of (through Byte (alone (delay Byte 2)))
        (marked_feed 0 (7 ∷ 8 ∷ []) (mark 1 (codes "k") (pos 5) ∷ [])
        ∷ Step 0 9 ∷ Step 1 9 ∷ Step 2 9 ∷ Read 2 0 9 ∷ [])
        ≡ Fed 2 ∷ Did 2 ∷ Did 4 ∷ Did 4
        ∷ Piece 0 4 (numbers (0 ∷ 0 ∷ 7 ∷ 8 ∷ [])) (tag 3 (codes "k") (pos 5) 0 ∷ []) false ∷ [] }

    // The first two items are left out, and their tags go to the first that is given.
    ensures skips_with_tags { replies_of (through Byte (alone (skiphead Byte 2)))
        (marked_feed 0 (7 ∷ 8 ∷ 9 ∷ [])
        (mark 0 (codes "k") (pos 5) ∷ mark 2 (codes "k") (pos 6) ∷ [])
        ∷ Step 0 9 ∷ Step 1 9 ∷ Step 2 9 ∷ Read 2 0 9 ∷ [])
        ≡ Fed 3 ∷ Did 3 ∷ Did 3 ∷ Did 1
        ∷ Piece 0 1 (numbers (9 ∷ []))
        (tag 0 (codes "k") (pos 5) 0 ∷ tag 0 (codes "k") (pos 6) 0 ∷ []) false ∷ [] }

    // A tag on an item that is given twice stands on the first of the two.
    ensures repeats_with_tags { replies_of (through Byte (alone (repeat Byte 2)))
        (marked_feed 0 (7 ∷ 8 ∷ []) (mark 1 (codes "k") (pos 5) ∷ [])
        ∷ Step 0 9 ∷ Step 1 9 ∷ Step 2 9 ∷ Read 2 0 9 ∷ [])
        ≡ Fed 2 ∷ Did 2 ∷ Did 2 ∷ Did 4
        ∷ Piece 0 4 (numbers (7 ∷ 7 ∷ 8 ∷ 8 ∷ [])) (tag 2 (codes "k") (pos 5) 0 ∷ []) false ∷ [] }

    // An output that enters both inputs of a sum brings each of its tags twice.
    ensures doubles_tags { replies_of (network (byte_source ∷ alone (add Byte) ∷ byte_sink ∷ [])
        (arrow 0 1 0 ∷ arrow 0 1 1 ∷ arrow 1 2 0 ∷ []))
        (marked_feed 0 (7 ∷ 8 ∷ []) (mark 1 (codes "k") (pos 5) ∷ [])
        ∷ Step 0 9 ∷ Step 1 9 ∷ Step 2 9 ∷ Read 2 0 9 ∷ [])
        ≡ Fed 2 ∷ Did 2 ∷ Did 2 ∷ Did 2
        ∷ Piece 0 2 (numbers (14 ∷ 16 ∷ []))
        (tag 1 (codes "k") (pos 5) 0 ∷ tag 1 (codes "k") (pos 5) 0 ∷ []) false ∷ [] }

    // A read gives as many items as are asked for, and the tags on these; from the end on there are
    // none.
    ensures reads_a_piece { replies_of (plus_ten 4096)
        (marked_feed 0 (1 ∷ 2 ∷ 3 ∷ [])
        (mark 0 (codes "k") (pos 5) ∷ mark 1 (codes "k") (pos 6) ∷ mark 2 (codes "k") (pos 7) ∷ [])
        ∷ Step 0 9 ∷ Step 1 9 ∷ Step 2 9 ∷ Read 2 1 1 ∷ Read 2 3 9 ∷ [])
        ≡ Fed 3 ∷ Did 3 ∷ Did 3 ∷ Did 3
        ∷ Piece 1 3 (numbers (12 ∷ [])) (tag 1 (codes "k") (pos 6) 0 ∷ []) false
        ∷ Piece 3 3 [] [] false ∷ [] }

    // Keys are ordered by their bytes, a beginning first: `a`, `ab`, `b`. A source's tags are in order, whatever the
    // order of its marks.
    ensures orders_tags_keys { replies_of (chain (byte_source ∷ byte_sink ∷ []))
        (marked_feed 0 (1 ∷ [])
        (mark 0 (codes "b") (pos 1) ∷ mark 0 (codes "ab") (pos 1) ∷ mark 0 (codes "a") (pos 1) ∷ [])
        ∷ Step 0 9 ∷ Step 1 9 ∷ Read 1 0 9 ∷ [])
        ≡ Fed 1 ∷ Did 1 ∷ Did 1 ∷ Piece 0 1 (numbers (1 ∷ []))
        (tag 0 (codes "a") (pos 1) 0 ∷ tag 0 (codes "ab") (pos 1) 0 ∷ tag 0 (codes "b") (pos 1) 0 ∷ [])
        false ∷ [] }
    ensures orders_tags_offsets { replies_of (chain (byte_source ∷ byte_sink ∷ []))
        (marked_feed 0 (1 ∷ 2 ∷ []) (mark 1 (codes "a") (pos 1) ∷ mark 0 (codes "z") (pos 2) ∷ [])
        ∷ Step 0 9 ∷ Step 1 9 ∷ Read 1 0 9 ∷ [])
        ≡ Fed 2 ∷ Did 2 ∷ Did 2 ∷ Piece 0 2 (numbers (1 ∷ 2 ∷ []))
        (tag 0 (codes "z") (pos 2) 0 ∷ tag 1 (codes "a") (pos 1) 0 ∷ []) false ∷ [] }

    // Under the policy `One` the tags of each input go to the output of its number, and to no other.
    ensures lets_tags_through_by_port { replies_of (two_beside policies.One)
        (marked_feed 0 (1 ∷ 2 ∷ []) (mark 0 (codes "a") (pos 1) ∷ [])
        ∷ marked_feed 1 (10 ∷ 20 ∷ []) (mark 1 (codes "b") (pos 2) ∷ [])
        ∷ Step 0 9 ∷ Step 1 9 ∷ Step 2 9 ∷ Step 3 9 ∷ Step 4 9 ∷ Read 3 0 9 ∷ Read 4 0 9 ∷ [])
        ≡ Fed 2 ∷ Fed 2 ∷ Did 2 ∷ Did 2 ∷ Did 2 ∷ Did 2 ∷ Did 2
        ∷ Piece 0 2 (numbers (1 ∷ 2 ∷ [])) (tag 0 (codes "a") (pos 1) 0 ∷ []) false
        ∷ Piece 0 2 (numbers (10 ∷ 20 ∷ [])) (tag 1 (codes "b") (pos 2) 1 ∷ []) false ∷ [] }

    // Two items of the first input and one of the second in a round: a tag stays on its item. That on the fifth item
    // of the first waits for the next round.
    ensures muxes_tags { replies_of (network
        (byte_source ∷ byte_source ∷ alone (stream_mux Byte (2 ∷ 1 ∷ [])) ∷ byte_sink ∷ [])
        (arrow 0 2 0 ∷ arrow 1 2 1 ∷ arrow 2 3 0 ∷ []))
        (marked_feed 0 (1 ∷ 2 ∷ 3 ∷ 4 ∷ 5 ∷ [])
        (mark 3 (codes "k") (pos 1) ∷ mark 4 (codes "k") (pos 2) ∷ [])
        ∷ marked_feed 1 (10 ∷ 20 ∷ 30 ∷ []) (mark 1 (codes "k") (pos 3) ∷ [])
        ∷ Step 0 9 ∷ Step 1 9 ∷ Step 2 9 ∷ Step 3 9 ∷ Read 3 0 9 ∷ [])
        ≡ Fed 5 ∷ Fed 3 ∷ Did 5 ∷ Did 3 ∷ Did 2 ∷ Did 6
        ∷ Piece 0 6 (numbers (1 ∷ 2 ∷ 10 ∷ 3 ∷ 4 ∷ 20 ∷ []))
        (tag 4 (codes "k") (pos 1) 0 ∷ tag 5 (codes "k") (pos 3) 1 ∷ []) false ∷ [] }
{}
