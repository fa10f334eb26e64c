ghost use Rattle.std.specs.Prelude.{◌≡◌, ◌<◌, length, IfOk};
ghost use Rattle.psa_graph.specs.Truths.{IsGraph};
ghost use Rattle.psa_graph.specs.Needs.{HoldsOfSides, IsMarked, AreNeeds};

use crate::graph::{Graph, GraphNode};
use sqlite_items::Items;
use std::alloc::{AllocError, Global};

/// Marks the places that a node names.
fn mark_sides(needed: &mut Items<bool>, node: GraphNode)
    requires { HoldsOfSides (λ side. side < length needed.old) node }
    ensures { IsMarked node needed.old needed.new }
{
    match node {
        GraphNode::Constant(_) => {}
        GraphNode::Literal { .. } => {}
        GraphNode::And(left, right) => {
            needed.set(left as usize, true);
            needed.set(right as usize, true);
        }
        GraphNode::Or(left, right) => {
            needed.set(left as usize, true);
            needed.set(right as usize, true);
        }
    }
}

/// For each place of a graph, whether the root needs it: the root itself, and what a needed node names.
/// Sides stand before their node, so one pass from the last place to the first marks all.
pub fn needed_places(alloc: Global, graph: &Graph) -> Result<Items<bool>, AllocError>
    requires { IsGraph graph.now }
    ensures { IfOk result (λ needed. AreNeeds graph.now needed) }
{
    let nodes = graph.nodes.as_slice();
    let mut needed = Items::from_vec(vec![in alloc; false; nodes.len()]?);
    needed.set(graph.root as usize, true);
    let mut left = nodes.len();
    while left > 0 {
        left -= 1;
        if needed.as_slice()[left] {
            mark_sides(&mut needed, nodes[left]);
        }
    }
    Ok(needed)
}
