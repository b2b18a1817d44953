// Uses of the search from another crate, over any graph, and its tests.
#![tactic(auto)]

ghost use Rattle.std.specs.Prelude.{◌≡◌, ℕ, ◌<◌, ◌≤◌, length};
ghost use Rattle.search.specs.Paths.{Edge, Walk};
ghost use Rattle.search.specs.Marks.{Clear};
ghost use Rattle.search_tests.specs.Uses.{AllLinked, AllNear};

use refusal::Refusal;
use search::{Graph, Marks};

// Two nodes, and whether a path leads from the one to the other.
#[derive(Clone, Copy)]
pub struct Pair {
    pub from: u8,
    pub to: u8,
    pub linked: bool,
}

// Answers each pair, with one search a pair under one guard.
pub fn link<G: Graph>(graph: &G, pairs: &mut [Pair], marks: &mut [u8]) -> Result<(), Refusal>
    ensures answer { AllLinked (Edge (G.slots graph.now) (G.leads graph.now)) (length marks.old) pairs.old pairs.new result }
    ensures clear { Clear marks.new }
{
    let mut guard = Marks::over(marks);
    guard.check_len()?;
    for pair in pairs.iter_mut() {
        guard.follow(graph, pair.from)?;
        pair.linked = guard.is_marked(pair.to);
    }
    Ok(())
}

// Reads a mark for each of the first 32 nodes after one search; the start counts as reached.
pub fn reach<G: Graph>(
    graph: &G,
    from: u8,
    near: &mut [bool; 32],
    marks: &mut [u8],
) -> Result<(), Refusal>
    ensures answer { AllNear (Edge (G.slots graph.now) (G.leads graph.now)) from (length marks.old) near.old near.new result }
    ensures clear { Clear marks.new }
{
    let mut guard = Marks::over(marks);
    guard.follow(graph, from)?;
    for (node, near) in near.iter_mut().enumerate() {
        let node = node as u8;
        *near = node == from || guard.is_marked(node);
    }
    Ok(())
}

#[cfg(test)]
mod tests;
