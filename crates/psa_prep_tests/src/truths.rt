ghost use Rattle.std.specs.Prelude.{◌≡◌, ◌≤◌, ◌<◌, true, IfOk, IfSome, length};
ghost use Rattle.psa_model.specs.Standing.{target_stands};
ghost use Rattle.psa_nodes.specs.declared.node.TheConstants.{MAX_RANKS};
ghost use Rattle.psa_nodes.specs.Nodes.{IsBounded};
ghost use Rattle.psa_graph.specs.Truths.{IsGraph};
ghost use Rattle.psa_prep_tests.specs.Studies.{IsStudy};

use crate::studies::Study;
use psa_bdd::build;
use psa_graph::{Graph, GraphNode};
use psa_model::{EventNumber, Ranks, Target};
use psa_nodes::{NodeError, NodeId, NodeTable, Steps, TERMINALS};
use psa_prep::{RankError, prepare, rank};
use psa_text::OutOfMemory;
use std::alloc::Global;
use std::sync::ledger::Ledger;

/// The ranks of a target, and its graph.
#[derive(Drop)]
pub struct Ranked {
    pub ranks: Ranks,
    pub graph: Graph,
}

/// The ranks and the graph of a target.
pub fn rank_target(alloc: Global, study: &Study, target: &Target) -> Result<Ranked, RankError>
    requires study { IsStudy study.now.expanded study.now.targets }
    requires target { target_stands study.now.expanded.model target.now ≡ true }
    ensures graph { IfOk result (λ ranked. IsGraph ranked.graph) }
    ensures width { IfOk result (λ ranked. ranked.graph.width ≤ MAX_RANKS) }
{
    let ranks = rank(alloc, &study.expanded, target)?;
    let graph = prepare(alloc, &study.expanded, target, &ranks)?;
    Ok(Ranked { ranks, graph })
}

/// Whether the set has the rank, one bit a rank.
fn has(set: u32, rank: u32) -> bool {
    (set >> (rank % 32)) % 2 == 1
}

/// The truth at a place that was told before.
fn told(values: &[bool], place: u64) -> bool {
    match values.get(place as usize) {
        Some(value) => *value,
        None => false,
    }
}

/// The truth of a graph in a set of ranks.
pub fn graph_value(alloc: Global, graph: &Graph, set: u32) -> Result<bool, OutOfMemory> {
    let mut values: Vec<bool> = Vec::new(alloc);
    for node in graph.nodes.as_slice() {
        let value = match node {
            GraphNode::Constant(state) => *state,
            GraphNode::Literal { rank, occurs } => has(set, *rank) == *occurs,
            GraphNode::And(left, right) => {
                told(values.as_slice(), *left) && told(values.as_slice(), *right)
            }
            GraphNode::Or(left, right) => {
                told(values.as_slice(), *left) || told(values.as_slice(), *right)
            }
        };
        values.push(value)?;
    }
    Ok(told(values.as_slice(), graph.root))
}

/// The truth of a decision diagram in a set of ranks; None where a node is not there.
pub fn diagram_value<L: Ledger>(
    table: &NodeTable,
    root: NodeId,
    set: u32,
    steps: &mut Steps<L>,
) -> Option<bool> {
    let mut id = root;
    for _rank in 0..32 {
        if id.0 < TERMINALS {
            return Some(id == NodeId::TRUE);
        }
        if id.0 - TERMINALS >= table.len() {
            return None;
        }
        let node = table.node(id, steps);
        id = if has(set, node.var) { node.hi } else { node.lo };
    }
    None
}

/// The decision diagram of a target's graph.
pub fn diagram<L: Ledger>(
    alloc: Global,
    table: &mut NodeTable,
    ranked: &Ranked,
    steps: &mut Steps<L>,
) -> Result<NodeId, NodeError>
    requires graph { IsGraph ranked.now.graph }
    requires width { ranked.now.graph.width ≤ MAX_RANKS }
    requires bounded { IsBounded table.old.nodes }
    ensures { IsBounded table.new.nodes }
{
    build(alloc, table, &ranked.graph, steps)
}
