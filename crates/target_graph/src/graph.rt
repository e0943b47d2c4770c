ghost use Rattle.std.specs.Prelude.{◌≡◌, ◌<◌, length, map, All};
ghost use Rattle.target_graph.specs.Graph.{targets_of, IsGraph};

use std::marker::Model;

/// A directed graph: a list of targets for each vertex. Vertices are numbered from 0. Contracts see
/// it as a list of lists of targets.
#[derive(Debug, Drop)]
pub struct Graph {
    targets: Vec<Vec<usize>>,
}

impl Model for Graph {
    ghost use Rattle.std.specs.Prelude.{ℕ, List, map};
    ghost use Rattle.target_graph.specs.Graph.{IsGraph};

    ghost Value = { List (List ℕ) };

    ghost view = { λ graph. map (λ list. list.items) graph.targets.items };

    ghost invariant = { λ graph. IsGraph (map (λ list. list.items) graph.targets.items) };
}

impl Graph {
    /// Creates a graph from the lists of targets: the list at index `v` has the targets of vertex
    /// `v`. Each target must be less than the number of lists. It allocates no memory.
    pub fn new(targets: Vec<Vec<usize>>) -> Graph
        requires { IsGraph (map (λ list. list.items) targets.items) }
        ensures { result ≡ map (λ list. list.items) targets.items }
    {
        Graph { targets }
    }

    /// Returns the number of vertices.
    pub(crate) fn len(&self) -> usize
        ensures { result ≡ length self.now }
    {
        self.targets.len()
    }

    /// Returns the targets of a vertex.
    pub(crate) fn targets(&self, vertex: usize) -> &[usize]
        requires { vertex < length self.now }
        ensures targets { result.now ≡ targets_of self.now vertex }
        ensures vertices { All (λ target. target < length self.now) result.now }
    {
        self.targets[vertex].as_slice()
    }
}
