ghost use Rattle.std.specs.Prelude.{◌≡◌, ◌∷◌, ◌++◌, [], codes};
ghost use Rattle.install_order.specs.Tables.{put, copy};
ghost use Rattle.graph_view.specs.Dot.{dot_of};
ghost use Rattle.graph_view.specs.Nodes.{row};

/// Two graphs of docs/RECOVERY.md, with their nodes, as they are printed.
pub fn graphs_are_worked_out()
    // the copy reads the version that the last put destroys, so it goes before the put that wrote it
    ensures put_copy_put { dot_of (row 2 (2 ∷ []) (1 ∷ []) ∷ row 1 (1 ∷ []) [] ∷ row 3 (3 ∷ []) (0 ∷ []) ∷ [])
        (put 1 0 ∷ copy 2 0 1 ∷ put 3 0 ∷ []) ≡
        codes "digraph write_graph {\n"
        ++ codes "  subgraph cluster_2 { label=\"flushes 1\"; 2; }\n"
        ++ codes "  subgraph cluster_1 { label=\"flushes nothing\"; 1; }\n"
        ++ codes "  subgraph cluster_3 { label=\"flushes 0\"; 3; }\n"
        ++ codes "  1 -> 3 [label=\"write-write\", style=dashed];\n"
        ++ codes "  2 -> 1 [label=\"lost version\", style=dotted];\n"
        ++ codes "  2 -> 3 [label=\"read-write\"];\n"
        ++ codes "}\n" }
    // the version of 1 that the second copy reads is lost, so both copies are one node
    ensures copy_there_and_back_put { dot_of (row 1 (1 ∷ 2 ∷ []) (0 ∷ []) ∷ row 3 (3 ∷ []) (1 ∷ []) ∷ [])
        (copy 1 0 1 ∷ copy 2 1 0 ∷ put 3 1 ∷ []) ≡
        codes "digraph write_graph {\n"
        ++ codes "  subgraph cluster_1 { label=\"flushes 0\"; 1; 2; }\n"
        ++ codes "  subgraph cluster_3 { label=\"flushes 1\"; 3; }\n"
        ++ codes "  1 -> 2 [label=\"read-write\"];\n"
        ++ codes "  1 -> 3 [label=\"write-write\", style=dashed];\n"
        ++ codes "  2 -> 1 [label=\"lost version\", style=dotted];\n"
        ++ codes "  2 -> 3 [label=\"read-write\"];\n"
        ++ codes "}\n" }
{}
