ghost use Rattle.std.specs.Prelude.{◌≡◌, ◌<◌, ◌^◌, length, IfOk};
ghost use Rattle.psa_chains.specs.Chains.{AllStand, AreComponents};
ghost use Rattle.psa_chains.specs.Searching.{AllClosed, RanksAre};

use crate::Reference;
use crate::search::{Mark, Search};
use sqlite_items::Items;
use std::alloc::{AllocError, Global};

/// The components of a graph: nodes between which chains lead both ways share a rank, and no
/// reference leads to a node of a higher rank.
#[derive(Debug, Drop)]
pub struct Components {
    /// The rank of each node's component.
    pub ranks: Items<usize>,
    /// The nodes by rank: each reference leads to a node before, or to one of the same rank.
    pub order: Items<u32>,
}

/// The components of a graph, found along paths that are contracted where they come back to
/// themselves (after Purdom and Munro), in a time that grows as the number of nodes and references.
/// Nothing calls itself: the search keeps its own stack.
pub fn find_components(alloc: Global, graph: &[Items<Reference>]) -> Result<Components, AllocError>
    requires stand { AllStand graph.now }
    requires few { length graph.now < 2 ^ 32 }
    ensures { IfOk result (λ made. AreComponents graph.now made.ranks made.order) }
{
    let mut search = Search::new(alloc, graph.len())?;
    for node in 0..graph.len() as u32 {
        let mark = search.marks.as_slice()[node as usize];
        if let Mark::New = mark {
            search.enter(graph, node)?;
            search.explore(graph)?;
        }
    }
    Ok(Components {
        ranks: ranks_of(alloc, search.marks.as_slice())?,
        order: search.order,
    })
}

/// The ranks of nodes that were left.
fn ranks_of(alloc: Global, marks: &[Mark]) -> Result<Items<usize>, AllocError>
    requires { AllClosed marks.now }
    ensures { IfOk result (λ ranks. RanksAre marks.now ranks) }
{
    let mut ranks = Items::new(alloc);
    for mark in marks {
        match mark {
            Mark::Closed(rank) => ranks.push(*rank)?,
            Mark::New | Mark::Open(_) => unreachable!(),
        }
    }
    Ok(ranks)
}
