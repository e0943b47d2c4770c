ghost use Rattle.std.specs.Prelude.{◌≡◌, ℕ, true, ◌<◌, length, map, IfOk, IfSome, IsNone};
ghost use Rattle.std.specs.Option.{is_none};
ghost use Rattle.target_graph.specs.Graph.{IsRanked, leads, has_cycle};
ghost use Rattle.target_graph.specs.Search.{rank_in, stage_of, open_in, IsPartRanked, IsVisited};

use crate::graph::Graph;
use batch_ids::OutOfMemory;
use std::alloc::Global;

/// The search's state of a vertex.
#[derive(Clone, Copy, PartialEq, Eq, Debug)]
enum Mark {
    /// Not visited yet.
    New,
    /// On the path from the start of the search to the current vertex.
    Open,
    /// Done, with this rank.
    Ranked(usize),
}

impl Mark {
    fn rank(self) -> usize
        ensures { result ≡ rank_in self }
    {
        match self {
            Mark::New => 0,
            Mark::Open => 0,
            Mark::Ranked(rank) => rank,
        }
    }
}

/// Returns a rank for each vertex, such that ranks rise along each target. Each rank is less than
/// the number of vertices. Returns `None` if the graph has a cycle.
///
/// It takes time proportional to the number of vertices and targets, and memory proportional to the
/// number of vertices. The call stack is as deep as the longest path that it follows has vertices.
///
/// # Errors
///
/// `OutOfMemory` if memory is refused.
pub fn ranks(alloc: Global, graph: &Graph) -> Result<Option<Vec<usize>>, OutOfMemory>
    ensures ranked { IfOk result (λ found. IfSome found (λ ranks. IsRanked ranks.items graph.now)) }
    ensures cycle { IfOk result (λ found. is_none found ≡ has_cycle graph.now) }
{
    let mut marks = vec![in alloc; Mark::New; graph.len()]?;
    let mut rest = graph.len();
    for vertex in 0..graph.len() {
        if let Mark::New = marks[vertex] {
            match visit(graph, vertex, marks.as_mut_slice(), rest) {
                Some(now) => rest = now,
                None => return Ok(None),
            }
        }
    }
    let found = ranks_in(alloc, &marks)?;
    Ok(Some(found))
}

// Ranks a vertex and all vertices that it leads to, from the highest free rank down. Returns how
// many vertices have no rank afterwards, or `None` if the graph has a cycle.
fn visit(graph: &Graph, vertex: usize, marks: &mut [Mark], left: usize) -> Option<usize>
    requires ranked { IsPartRanked graph.now marks.old left }
    requires within { vertex < length graph.now }
    requires new { stage_of marks.old vertex ≡ 0 }
    requires opens { (v : ℕ) → stage_of marks.old v ≡ 1 → leads graph.now (open_in marks.old) v vertex ≡ true }
    ensures cycle { IsNone result → has_cycle graph.now ≡ true }
    ensures ranked { IfSome result (λ rest. IsPartRanked graph.now marks.new rest) }
    ensures visited { IfSome result (λ rest. IsVisited marks.old marks.new) }
    ensures reached { IfSome result (λ rest. 1 < stage_of marks.new vertex) }
{
    marks[vertex] = Mark::Open;
    let mut rest = left;
    for target in graph.targets(vertex) {
        let target = *target;
        match marks[target] {
            Mark::New => {
                rest = visit(graph, target, marks, rest)?;
            }
            Mark::Open => return None,
            Mark::Ranked(_) => {}
        }
    }
    rest -= 1;
    marks[vertex] = Mark::Ranked(rest);
    Some(rest)
}

fn ranks_in(alloc: Global, marks: &[Mark]) -> Result<Vec<usize>, OutOfMemory>
    ensures { IfOk result (λ ranks. ranks.items ≡ map rank_in marks.now) }
{
    marks.iter().map(|mark| mark.rank()).collect(alloc)
}
