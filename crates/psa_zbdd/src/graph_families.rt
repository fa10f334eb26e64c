ghost use Rattle.std.specs.Prelude.{ℕ, ◌≡◌, ◌≤◌, ◌<◌, ◌+◌, ◌-◌, ◌*◌, Bool, true, length, IfOk, OnOk};
ghost use Rattle.psa_graph.specs.Truths.{literal_truth, graph_truth, place_truth, IsGraph};
ghost use Rattle.psa_nodes.specs.declared.node.Kind.TheVariants.{Zbdd};
ghost use Rattle.psa_nodes.specs.declared.node.TheConstants.{MAX_RANKS};
ghost use Rattle.psa_nodes.specs.Readings.{has, stands};
ghost use Rattle.psa_nodes.specs.Families.{IsProductMember};
ghost use Rattle.psa_nodes.specs.Nodes.{IsBounded};
ghost use Rattle.psa_nodes.specs.Progress.{IsCall};
ghost use Rattle.psa_nodes.specs.Tails.{either, IsMember, AreTailsOf};
ghost use Rattle.psa_graph.specs.Needs.{AreNeeds, HoldsOfSidesAt};
ghost use Rattle.psa_zbdd.specs.FamilyProducts.{IsProductSource};
ghost use Rattle.psa_zbdd.specs.GraphFamilies.{IsFamilyOfCutSets, IsSignedImplicant, IsGraphProduct, IsCoverAt, IsCovered, IsReducedAt};

use crate::products::product;
use psa_families::{minimal_sets, positive_part, union};
use psa_graph::{Graph, GraphNode, needed_places};
use psa_nodes::{NodeError, NodeId, NodeTable, Steps};
use sqlite_items::Items;
use std::alloc::Global;
use std::sync::ledger::Ledger;

/// The family of a literal: itself alone, and none where its event may not occur.
fn literal_family(
    table: &mut NodeTable,
    rank: u32,
    occurs: bool,
    limit: u8,
) -> Result<NodeId, NodeError>
    requires { rank < MAX_RANKS }
    ensures family { (width : ℕ) → rank < width → IfOk result
        (λ id. IsCoverAt width limit (literal_truth rank occurs) table.new.nodes id.0) }
    ensures call { (width : ℕ) → rank < width
        → IsCall (AreTailsOf (IsSignedImplicant width limit (literal_truth rank occurs)))
        0 table.old table.new result }
    ensures entries { OnOk result (table.new.entries ≡ table.old.entries) }
{
    table.check();
    if !occurs {
        return table.zbdd_node(2 * rank + 1, NodeId::UNIT, NodeId::EMPTY);
    }
    if limit == 0 {
        return Ok(NodeId::EMPTY);
    }
    table.zbdd_node(2 * rank, NodeId::UNIT, NodeId::EMPTY)
}

/// The products of a member of each of two families, without those that include another.
fn both_families<L: Ledger>(
    table: &mut NodeTable,
    left: NodeId,
    right: NodeId,
    limit: u8,
    steps: &mut Steps<L>,
) -> Result<NodeId, NodeError>
    requires left { stands Zbdd 0 table.old.nodes left.0 ≡ true }
    requires right { stands Zbdd 0 table.old.nodes right.0 ≡ true }
    requires bounded { IsBounded table.old.nodes }
    ensures family { IfOk result (λ id. IsReducedAt
        (IsProductMember (has table.old.nodes left.0) (has table.old.nodes right.0) limit)
        table.new.nodes id.0) }
    ensures call { IsCall
        (AreTailsOf (IsProductSource (has table.old.nodes left.0) (has table.old.nodes right.0) limit))
        0 table.old table.new result }
    ensures six_turns { OnOk result
        (steps.new + 6 * length table.old.entries ≤ steps.old + 6 * length table.new.entries) }
{
    table.check();
    let all = product(table, left, right, limit, steps)?;
    minimal_sets(table, all, steps)
}

/// The members of either of two families, without those that include another.
fn either_family<L: Ledger>(
    table: &mut NodeTable,
    left: NodeId,
    right: NodeId,
    steps: &mut Steps<L>,
) -> Result<NodeId, NodeError>
    requires left { stands Zbdd 0 table.old.nodes left.0 ≡ true }
    requires right { stands Zbdd 0 table.old.nodes right.0 ≡ true }
    requires bounded { IsBounded table.old.nodes }
    ensures family { IfOk result (λ id. IsReducedAt
        (IsMember (either (has table.old.nodes left.0) (has table.old.nodes right.0)))
        table.new.nodes id.0) }
    ensures call { IsCall
        (AreTailsOf (IsMember (either (has table.old.nodes left.0) (has table.old.nodes right.0))))
        0 table.old table.new result }
    ensures six_turns { OnOk result
        (steps.new + 6 * length table.old.entries ≤ steps.old + 6 * length table.new.entries) }
{
    table.check();
    let all = union(table, left, right, steps)?;
    minimal_sets(table, all, steps)
}

/// The family of the node of a graph at a place, by those of the places that it names. A place that is not
/// needed has the empty family, which nothing reads.
fn place_family<L: Ledger>(
    table: &mut NodeTable,
    graph: &Graph,
    place: usize,
    needed: bool,
    families: &[NodeId],
    limit: u8,
    steps: &mut Steps<L>,
) -> Result<NodeId, NodeError>
    requires graph { IsGraph graph.now }
    requires width { graph.now.width ≤ MAX_RANKS }
    requires bounded { IsBounded table.old.nodes }
    requires place { place < length graph.now.nodes }
    requires sides { needed ≡ true
        → HoldsOfSidesAt (IsCovered graph.now limit table.old.nodes families.now) graph.now place }
    ensures family { needed ≡ true → IfOk result (λ id.
        IsCoverAt graph.now.width limit (place_truth graph.now place) table.new.nodes id.0) }
    ensures call { IsCall (AreTailsOf (IsGraphProduct graph.now limit)) 0 table.old table.new result }
    ensures six_turns { OnOk result
        (steps.new + 6 * length table.old.entries ≤ steps.old + 6 * length table.new.entries) }
{
    table.check();
    if !needed {
        return Ok(NodeId::EMPTY);
    }
    match graph.nodes.as_slice()[place] {
        GraphNode::Constant(state) => Ok(if state { NodeId::UNIT } else { NodeId::EMPTY }),
        GraphNode::Literal { rank, occurs } => literal_family(table, rank, occurs, limit),
        GraphNode::And(left, right) => both_families(
            table,
            families[left as usize],
            families[right as usize],
            limit,
            steps,
        ),
        GraphNode::Or(left, right) => either_family(
            table,
            families[left as usize],
            families[right as usize],
            steps,
        ),
    }
}

/// The family of the root of a graph, by those of the needed places, which are made from the first to the last.
fn root_family<L: Ledger>(
    alloc: Global,
    table: &mut NodeTable,
    graph: &Graph,
    needed: &[bool],
    limit: u8,
    steps: &mut Steps<L>,
) -> Result<NodeId, NodeError>
    requires graph { IsGraph graph.now }
    requires width { graph.now.width ≤ MAX_RANKS }
    requires bounded { IsBounded table.old.nodes }
    requires needed { AreNeeds graph.now needed.now }
    ensures family { IfOk result
        (λ id. IsCoverAt graph.now.width limit (graph_truth graph.now) table.new.nodes id.0) }
    ensures call { IsCall (AreTailsOf (IsGraphProduct graph.now limit)) 0 table.old table.new result }
    ensures six_turns { OnOk result
        (steps.new + 6 * length table.old.entries ≤ steps.old + 6 * length table.new.entries) }
{
    table.check();
    let mut families = Items::new(alloc);
    for place in 0..graph.nodes.len() {
        let need = needed[place];
        let id = place_family(table, graph, place, need, families.as_slice(), limit, steps)?;
        families.push(id)?;
    }
    Ok(families.as_slice()[graph.root as usize])
}

/// The minimal cut sets of at most `limit` events of a graph's truth, whether it is monotone or not, straight
/// from its nodes: a node that the root needs becomes a family of signed products, a literal itself, a
/// conjunction the products of both families within the limit, a disjunction the members of either, each
/// without what includes another member. Last the literals of events that do not occur are dropped.
/// Full only where the table has a limit and as many nodes. The recursion is that of the operations on families,
/// at most `MAX_LITERAL_NUMBERS` deep; the table stays bounded (`call.progress.bounded`).
/// Each result that is remembered on the way costs at most six turns, and nothing else does.
/// The members of each new node are tails of products of the graph, so no node of a decision diagram is made.
pub fn minimal_of_graph<L: Ledger>(
    alloc: Global,
    table: &mut NodeTable,
    graph: &Graph,
    limit: u8,
    steps: &mut Steps<L>,
) -> Result<NodeId, NodeError>
    requires graph { IsGraph graph.now }
    requires width { graph.now.width ≤ MAX_RANKS }
    requires bounded { IsBounded table.old.nodes }
    ensures minimal { IfOk result
        (λ id. IsFamilyOfCutSets (graph_truth graph.now) limit table.new.nodes id.0) }
    ensures call { IsCall (AreTailsOf (IsGraphProduct graph.now limit)) 0 table.old table.new result }
    ensures six_turns { OnOk result
        (steps.new + 6 * length table.old.entries ≤ steps.old + 6 * length table.new.entries) }
    ensures turns { OnOk result (steps.new ≤ steps.old + 32
        * (length table.new.entries - length table.old.entries + length graph.now.nodes + 1)) }
{
    table.check();
    let needed = needed_places(alloc, graph)?;
    let family = root_family(alloc, table, graph, needed.as_slice(), limit, steps)?;
    let positive = positive_part(table, family, steps)?;
    minimal_sets(table, positive, steps)
}
