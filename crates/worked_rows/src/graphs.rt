//! Worked rows of the refusals of graphs. Where nothing else is said, blocks have bytes and the
//! default capacity of 4,096.

ghost use Rattle.std.specs.Prelude.{◌≡◌, [], ◌∷◌, Some, None, replicate};
ghost use Rattle.stream_model.specs.declared.vocabulary.ItemType.TheVariants.{Byte, Short};
ghost use Rattle.stream_model.specs.declared.vocabulary.Policy.TheVariants.{One, All};
ghost use Rattle.kind_model.specs.Ends.{vector_sink};
ghost use Rattle.kind_model.specs.Math.{add, not_of};
ghost use Rattle.kind_model.specs.Rates.{repeat, head};
ghost use Rattle.graph_model.specs.Gains.{longest_within_gain};
ghost use Rattle.graph_model.specs.Graphs.{In, Out, BadName, BadMultiple, BadCapacity, DuplicateName, InputTaken, PortGap, TypeMismatch, Loop, TooFewPorts, OneToOne, Gain, PortRange, UnknownBlock, TooLarge, add_fault, connect_fault, graph_fault};
ghost use Rattle.worked_rows.specs.Runs.{two_through};
ghost use Rattle.worked_rows.specs.Rates.{sized, plain, source, sink, into, link, chain, around};

/// The rows, each with what it is about above its clauses.
pub fn rows()
    // Three times 1,024 items for one are too many: the last of the three blocks is named. With 16 in
    // its place it is the limit itself.
    ensures refuses_gain_above { graph_fault (chain (source ∷ plain (repeat Byte 1024) ∷ plain (repeat Byte 1024)
        ∷ plain (repeat Byte 1024) ∷ sink ∷ [])) ≡ Some (Gain 3) }
    ensures refuses_gain_limit { graph_fault (chain (source ∷ plain (repeat Byte 1024) ∷ plain (repeat Byte 1024)
        ∷ plain (repeat Byte 16) ∷ sink ∷ [])) ≡ None }

    // A tape may hold 2 to the 61st items where no block gives more than it takes, a third of that where
    // one gives three for one, and 2 to the 37th where the gain is at its limit. Side by side blocks do
    // not multiply: of 4 and 2 the greater counts.
    ensures limits_tapes_at_no_gain { longest_within_gain (chain (source ∷ plain (not_of Byte) ∷ sink ∷ []))
        ≡ 2305843009213693952 }
    ensures limits_tapes_at_three { longest_within_gain (chain (source ∷ plain (repeat Byte 3) ∷ sink ∷ []))
        ≡ 768614336404564650 }
    ensures limits_tapes_at_the_limit { longest_within_gain (chain (source ∷ plain (repeat Byte 1024) ∷ plain
        (repeat Byte 1024)
        ∷ plain (repeat Byte 16) ∷ sink ∷ [])) ≡ 137438953472 }
    ensures limits_tapes_side_by_side { longest_within_gain (record {
      nodes = source ∷ plain (repeat Byte 4) ∷ plain (repeat Byte 2) ∷ sink ∷ sink ∷ [];
      connections = link 0 1 ∷ link 0 2 ∷ link 1 3 ∷ link 2 4 ∷ [];
    }) ≡ 576460752303423488 }

    // The source and the second block to the first, the first to the second: the first is the lower
    // of the two.
    ensures refuses_loops_lowest { graph_fault (record {
      nodes = source ∷ plain (add Byte) ∷ plain (not_of Byte) ∷ sink ∷ [];
      connections = into 0 1 0 ∷ into 2 1 1 ∷ link 1 2 ∷ link 2 3 ∷ [];
    }) ≡ Some (Loop 1) }

    // Input 1 is used and input 0 is not.
    ensures refuses_gaps_lowest { graph_fault (record {
      nodes = source ∷ plain (add Byte) ∷ sink ∷ [];
      connections = into 0 1 1 ∷ link 1 2 ∷ [];
    }) ≡ Some (PortGap 1 In 0) }

    // A block without its connections has too few ports, and a graph without blocks is valid.
    ensures refuses_few_ports_alone { graph_fault (record { nodes = source ∷ []; connections = [] })
        ≡ Some (TooFewPorts 0) }
    ensures refuses_few_ports_empty { graph_fault (record { nodes = []; connections = [] }) ≡ None }

    // Tags go from one port to one port only where as many inputs as outputs are used.
    ensures refuses_unequal_ports_two_to_one { graph_fault (record {
      nodes = source ∷ record (plain (add Byte)) { policy = One } ∷ sink ∷ [];
      connections = into 0 1 0 ∷ into 0 1 1 ∷ link 1 2 ∷ [];
    }) ≡ Some (OneToOne 1) }
    ensures refuses_unequal_ports_one_to_one { graph_fault (record {
      nodes = source ∷ record (plain (add Byte)) { policy = One } ∷ sink ∷ [];
      connections = into 0 1 0 ∷ link 1 2 ∷ [];
    }) ≡ None }

    // A second connection to an input, another type, a port or a block that is not there.
    ensures refuses_connections_taken { connect_fault (chain (source ∷ sink ∷ [])) (link 0 1) ≡ Some (InputTaken 1 0) }
    ensures refuses_connections_mismatch { connect_fault (record {
      nodes = source ∷ plain (vector_sink Short) ∷ [];
      connections = [];
    }) (link 0 1)
        ≡ Some (TypeMismatch 1 0) }
    ensures refuses_connections_range { connect_fault (chain (source ∷ sink ∷ [])) (into 0 1 1)
        ≡ Some (PortRange 1 In 1) }
    ensures refuses_connections_range_first { connect_fault (chain (source ∷ sink ∷ [])) (into 1 0 1)
        ≡ Some (PortRange 1 Out 0) }
    ensures refuses_connections_unknown { connect_fault (chain (source ∷ sink ∷ [])) (link 0 2) ≡ Some UnknownBlock }
    ensures refuses_connections_good { connect_fault (record { nodes = source ∷ sink ∷ []; connections = [] })
        (link 0 1) ≡ None }

    // A name of no bytes, a multiple of a sink or of a block that ends by itself, no capacity, a name
    // that another block has.
    ensures refuses_blocks_name { add_fault [] (record { nodes = []; connections = [] }) [] source ≡ Some BadName }
    ensures refuses_blocks_sink { add_fault [] (record { nodes = []; connections = [] }) (97 ∷ [])
        (record sink { multiple = 2 }) ≡ Some BadMultiple }
    ensures refuses_blocks_head { add_fault [] (record { nodes = []; connections = [] }) (97 ∷ [])
        (record (plain (head Byte 3)) { multiple = 2 }) ≡ Some BadMultiple }
    ensures refuses_blocks_capacity { add_fault [] (record { nodes = []; connections = [] }) (97 ∷ [])
        (sized 0 (not_of Byte)) ≡ Some BadCapacity }
    ensures refuses_blocks_duplicate { add_fault ((97 ∷ []) ∷ []) (record { nodes = source ∷ []; connections = [] })
        (97 ∷ []) sink ≡ Some DuplicateName }
    ensures refuses_blocks_good { add_fault ((97 ∷ []) ∷ []) (record { nodes = source ∷ []; connections = [] })
        (98 ∷ []) (record (plain (not_of Byte)) { multiple = 64 }) ≡ None }

    // The multiple of a block does not count in the gain.
    ensures leaves_multiples_out_of_the_gain { graph_fault (chain (source ∷ record (plain (repeat Byte 1024)) {
      multiple = 64;
    }
        ∷ plain (repeat Byte 1024) ∷ plain (repeat Byte 16) ∷ sink ∷ [])) ≡ None }

    // A block whose input 1 and output 1 are used alone: the gap of the inputs is named.
    ensures names_a_gap_of_inputs_first { graph_fault (record {
      nodes = source ∷ two_through All ∷ sink ∷ [];
      connections = into 0 1 1 ∷ record { from = 1; out_port = 1; to = 2; in_port = 0 } ∷ [];
    }) ≡ Some (PortGap 1 In 0) }

    // Each limit at its end, and one beyond: 256 blocks, 1,024 connections, 16 ports, a multiple of 64, a name
    // of 32 bytes, a capacity of 65,536.
    ensures keeps_limits_blocks { add_fault [] (record { nodes = replicate 255 source; connections = [] }) (97 ∷ [])
        sink ≡ None }
    ensures keeps_limits_blocks_more { add_fault [] (record { nodes = replicate 256 source; connections = [] })
        (97 ∷ []) sink
        ≡ Some TooLarge }
    ensures keeps_limits_connections { connect_fault (record {
      nodes = source ∷ sink ∷ sink ∷ [];
      connections = replicate 1023 (link 0 2);
    })
        (link 0 1) ≡ None }
    ensures keeps_limits_connections_more { connect_fault (record {
      nodes = source ∷ sink ∷ sink ∷ [];
      connections = replicate 1024 (link 0 2);
    })
        (link 0 1) ≡ Some TooLarge }
    ensures keeps_limits_ports { connect_fault (record { nodes = source ∷ plain (add Byte) ∷ []; connections = [] })
        (into 0 1 15) ≡ None }
    ensures keeps_limits_ports_more { connect_fault (record {
      nodes = source ∷ plain (add Byte) ∷ [];
      connections = [];
    }) (into 0 1 16)
        ≡ Some (PortRange 1 In 16) }
    ensures keeps_limits_multiple { add_fault [] (record { nodes = []; connections = [] }) (97 ∷ [])
        (record (plain (not_of Byte)) { multiple = 65 }) ≡ Some BadMultiple }
    ensures keeps_limits_name { add_fault [] (record { nodes = []; connections = [] }) (replicate 32 97) sink ≡ None }
    ensures keeps_limits_name_more { add_fault [] (record { nodes = []; connections = [] }) (replicate 33 97) sink
        ≡ Some BadName }
    ensures keeps_limits_capacity { add_fault [] (record { nodes = []; connections = [] }) (97 ∷ [])
        (sized 65536 (not_of Byte)) ≡ None }
    ensures keeps_limits_capacity_more { add_fault [] (record { nodes = []; connections = [] }) (97 ∷ [])
        (sized 65537 (not_of Byte))
        ≡ Some BadCapacity }
{}
