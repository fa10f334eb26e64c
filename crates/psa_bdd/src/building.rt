ghost use Rattle.std.specs.Prelude.{◌≡◌, ◌≤◌, ◌<◌, ◌+◌, ◌-◌, ◌*◌, ℕ, Bool, true, length, IfOk, OnOk};
ghost use Rattle.psa_nodes.specs.declared.node.Kind.TheVariants.{Bdd};
ghost use Rattle.psa_nodes.specs.declared.node.TheConstants.{MAX_RANKS};
ghost use Rattle.psa_nodes.specs.Readings.{stands, truth};
ghost use Rattle.psa_nodes.specs.Nodes.{IsBounded, IsOnly};
ghost use Rattle.psa_nodes.specs.Progress.{IsCall};
ghost use Rattle.psa_graph.specs.Truths.{literal_truth, graph_truth, place_truth, IsGraph};
ghost use Rattle.psa_graph.specs.Needs.{AreNeeds, HoldsOfSidesAt};
ghost use Rattle.psa_bdd.specs.Building.{IsCofactorOf, IsCofactorOfPlace, IsDiagramOf, IsBuilt};

use crate::combine::{and, or};
use psa_graph::{Graph, GraphNode, needed_places};
use psa_nodes::{NodeError, NodeId, NodeTable, Steps};
use sqlite_items::Items;
use std::alloc::Global;
use std::sync::ledger::Ledger;

/// The diagram of a literal.
fn build_literal(table: &mut NodeTable, rank: u32, occurs: bool) -> Result<NodeId, NodeError>
    requires { rank < MAX_RANKS }
    ensures diagram { IfOk result
        (λ id. IsDiagramOf (literal_truth rank occurs) table.new.nodes id.0) }
    ensures call { IsCall (IsCofactorOf (literal_truth rank occurs)) 0 table.old table.new result }
    ensures entries { OnOk result (table.new.entries ≡ table.old.entries) }
{
    table.check();
    if occurs {
        table.bdd_node(rank, NodeId::TRUE, NodeId::FALSE)
    } else {
        table.bdd_node(rank, NodeId::FALSE, NodeId::TRUE)
    }
}

/// The diagram of the node of a graph at a place, by those of the places that it names. A place that is not needed
/// has the false terminal, which nothing reads.
fn build_place<L: Ledger>(
    table: &mut NodeTable,
    graph: &Graph,
    place: usize,
    needed: bool,
    built: &[NodeId],
    steps: &mut Steps<L>,
) -> Result<NodeId, NodeError>
    requires graph { IsGraph graph.now }
    requires width { graph.now.width ≤ MAX_RANKS }
    requires bounded { IsBounded table.old.nodes }
    requires place { place < length graph.now.nodes }
    requires sides { needed ≡ true
        → HoldsOfSidesAt (IsBuilt graph.now table.old.nodes built.now) graph.now place }
    ensures diagram { needed ≡ true → IfOk result
        (λ id. IsDiagramOf (place_truth graph.now place) table.new.nodes id.0) }
    ensures call { IsCall (IsCofactorOfPlace graph.now) 0 table.old table.new result }
    ensures turns { OnOk result
        (steps.new + 2 * length table.old.entries ≡ steps.old + 2 * length table.new.entries) }
{
    table.check();
    if !needed {
        return Ok(NodeId::FALSE);
    }
    match graph.nodes.as_slice()[place] {
        GraphNode::Constant(state) => Ok(if state { NodeId::TRUE } else { NodeId::FALSE }),
        GraphNode::Literal { rank, occurs } => build_literal(table, rank, occurs),
        GraphNode::And(left, right) => {
            and(table, built[left as usize], built[right as usize], steps)
        }
        GraphNode::Or(left, right) => {
            or(table, built[left as usize], built[right as usize], steps)
        }
    }
}

/// The diagram of a graph, by those of the needed places, which are made from the first to the last.
fn build_needed<L: Ledger>(
    alloc: Global,
    table: &mut NodeTable,
    graph: &Graph,
    needed: &[bool],
    steps: &mut Steps<L>,
) -> Result<NodeId, NodeError>
    requires graph { IsGraph graph.now }
    requires width { graph.now.width ≤ MAX_RANKS }
    requires bounded { IsBounded table.old.nodes }
    requires needed { AreNeeds graph.now needed.now }
    ensures built { IfOk result
        (λ id. IsDiagramOf (graph_truth graph.now) table.new.nodes id.0) }
    ensures call { IsCall (IsCofactorOfPlace graph.now) 0 table.old table.new result }
    ensures turns { OnOk result
        (steps.new + 2 * length table.old.entries ≡ steps.old + 2 * length table.new.entries) }
{
    table.check();
    let mut built = Items::new(alloc);
    for place in 0..graph.nodes.len() {
        let need = needed[place];
        let id = build_place(table, graph, place, need, built.as_slice(), steps)?;
        built.push(id)?;
    }
    Ok(built.as_slice()[graph.root as usize])
}

/// The decision diagram of a graph's truth (Bryant). Only the diagrams of the nodes that the root needs are made,
/// children first. Each new node reads as a cofactor of the truth of a node of the graph.
/// Full only where the table has a limit and as many nodes. The recursion is that of `and` and `or`, at most
/// `MAX_RANKS` deep; the table stays bounded (`call.progress.bounded`).
/// Each result that is remembered on the way costs two turns, and nothing else does.
pub fn build<L: Ledger>(
    alloc: Global,
    table: &mut NodeTable,
    graph: &Graph,
    steps: &mut Steps<L>,
) -> Result<NodeId, NodeError>
    requires graph { IsGraph graph.now }
    requires width { graph.now.width ≤ MAX_RANKS }
    requires bounded { IsBounded table.old.nodes }
    ensures built { IfOk result (λ id. (stands Bdd 0 table.new.nodes id.0 ≡ true)
        × ((s : ℕ → Bool) → truth table.new.nodes id.0 s ≡ graph_truth graph.now s)
        × IsOnly Bdd table.new.nodes id.0) }
    ensures call { IsCall (IsCofactorOfPlace graph.now) 0 table.old table.new result }
    ensures two_turns { OnOk result
        (steps.new + 2 * length table.old.entries ≡ steps.old + 2 * length table.new.entries) }
    ensures turns { OnOk result (steps.new ≤ steps.old + 32
        * (length table.new.entries - length table.old.entries + length graph.now.nodes + 1)) }
{
    table.check();
    let needed = needed_places(alloc, graph)?;
    build_needed(alloc, table, graph, needed.as_slice(), steps)
}
