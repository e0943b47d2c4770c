ghost use Rattle.std.specs.Prelude.{◌≡◌, ℕ, List, true};
ghost use Rattle.target_graph.specs.Graph.{IsRanked, HasCycle, has_cycle};

/// A graph whose ranks rise along each target has no cycle of any length.
pub fn ranked_has_no_cycle()
    ensures { (graph : List (List ℕ)) (ranks : List ℕ) → IsRanked ranks graph → HasCycle graph → ⊥ }
{}

/// If `has_cycle` is true of a graph, then a path leads from some vertex back to itself.
pub fn cycle_is_a_path()
    ensures { (graph : List (List ℕ)) → has_cycle graph ≡ true → HasCycle graph }
{}
