ghost use Rattle.std.specs.Prelude.{◌≡◌, ◌<◌, ◌^◌, ℕ, Bool, true, [], length, IfOk};
ghost use Rattle.psa_graph.specs.Truths.{IsGraph, graph_truth, place_truth};
ghost use Rattle.psa_model.specs.Parts.{IsPart};
ghost use Rattle.psa_model.specs.Ranks.{ranks_of};
ghost use Rattle.psa_model.specs.Standing.{target_stands};
ghost use Rattle.psa_model.specs.Targets.{truth_by_rank};
ghost use Rattle.psa_model.specs.Truth.{IsResolved};
ghost use Rattle.psa_prep.specs.Index.{IsIndex};
ghost use Rattle.psa_prep.specs.Lowering.{AreRanks};
ghost use Rattle.psa_prep.specs.Nodes.{IsBlank};
ghost use Rattle.psa_prep.specs.Paths.{ArePaths, IsStarted, IsTask};
ghost use Rattle.psa_prep.specs.Preparing.{MadeTarget};

use crate::EventIndex;
use crate::builder::Builder;
use crate::lowering::{Context, lower_gate};
use crate::pairs::Signs;
use crate::paths::{Task, lower_paths};
use crate::states::HouseStates;
use psa_graph::Graph;
use psa_model::{EventNumber, Expanded, GateId, MAX_DEPTH, Path, Ranks, Target};
use psa_text::{Items, OutOfMemory};
use std::alloc::Global;
use std::collections::HashMap;

/// The truth of a target over the ranks of its events, as a shared graph of conjunctions and
/// disjunctions of literals: negation is pushed down to the events, constants are taken out, equal nodes
/// are one. Each gate is prepared once for each sign and list of house states, each collected formula
/// once for each list of house states, and equal lists are one, in whatever order their states were set;
/// the work recurses at most 501 levels deep.
pub fn prepare(
    alloc: Global,
    expanded: &Expanded,
    target: &Target,
    ranks: &Ranks,
) -> Result<Graph, OutOfMemory>
    requires resolved { IsResolved expanded.now.model }
    requires events { length expanded.now.events < 2 ^ 32 }
    requires target { target_stands expanded.now.model target.now ≡ true }
    requires ranks { ranks.now ≡ ranks_of expanded.now target.now }
    ensures graph { IfOk result (λ graph. IsGraph graph) }
    ensures width { IfOk result (λ graph. graph.width ≡ length ranks.now) }
    ensures truth { IfOk result (λ graph. (s : ℕ → Bool)
        → graph_truth graph s ≡ truth_by_rank expanded.now target.now ranks.now s) }
    ensures parts { IfOk result (λ graph. (place : ℕ) → place < length graph.nodes
        → IsPart expanded.now target.now (place_truth graph place)) }
{
    let index = EventIndex::of(alloc, expanded)?;
    prepare_by_index(alloc, expanded, &index, target, ranks)
}

/// The graph of a target by the index of its model.
pub fn prepare_by_index(
    alloc: Global,
    expanded: &Expanded,
    index: &EventIndex,
    target: &Target,
    ranks: &Ranks,
) -> Result<Graph, OutOfMemory>
    requires resolved { IsResolved expanded.now.model }
    requires events { length expanded.now.events < 2 ^ 32 }
    requires index { IsIndex expanded.now index.now }
    requires target { target_stands expanded.now.model target.now ≡ true }
    requires ranks { ranks.now ≡ ranks_of expanded.now target.now }
    ensures graph { IfOk result (λ graph. IsGraph graph) }
    ensures width { IfOk result (λ graph. graph.width ≡ length ranks.now) }
    ensures truth { IfOk result (λ graph. (s : ℕ → Bool)
        → graph_truth graph s ≡ truth_by_rank expanded.now target.now ranks.now s) }
    ensures parts { IfOk result (λ graph. (place : ℕ) → place < length graph.nodes
        → IsPart expanded.now target.now (place_truth graph place)) }
{
    let by_event = rank_map(alloc, ranks.as_slice())?;
    let task = Task {
        alloc,
        expanded,
        target,
        index,
        ranks: &by_event,
    };
    let mut builder = Builder::new(alloc, ranks.len() as u32)?;
    let root = lower_target(&mut builder, &task)?;
    let nodes = Items::from_slice(alloc, builder.nodes.as_slice())?;
    Ok(Graph {
        nodes,
        root,
        width: builder.width,
    })
}

/// The rank of each ranked event.
fn rank_map(alloc: Global, ranks: &[EventNumber]) -> Result<HashMap<u32, u32>, OutOfMemory>
    requires { length ranks.now < 2 ^ 32 }
    ensures { IfOk result (AreRanks ranks.now) }
{
    let mut map = HashMap::new(alloc);
    let mut left = ranks.len();
    while left > 0 {
        left -= 1;
        map.insert(ranks[left].0, left as u32)?;
    }
    Ok(map)
}

/// The place of a node that reads as the target.
fn lower_target(builder: &mut Builder, task: &Task) -> Result<u64, OutOfMemory>
    requires resolved { IsResolved task.now.expanded.now.model }
    requires target { target_stands task.now.expanded.now.model task.now.target.now ≡ true }
    requires task { IsTask task.now }
    requires blank { IsBlank (length (ranks_of task.now.expanded.now task.now.target.now))
        builder.old }
    ensures { IfOk result (MadeTarget task.now builder.new) }
{
    match task.target {
        Target::TopEvent(gate) => lower_top(builder, task, *gate),
        Target::Sequence { paths, .. } => lower_sequence(builder, task, paths.as_slice()),
    }
}

/// The place of a node that reads as a top event.
fn lower_top(builder: &mut Builder, task: &Task, gate: GateId) -> Result<u64, OutOfMemory>
    requires resolved { IsResolved task.now.expanded.now.model }
    requires is { task.now.target.now ≡ Target.TopEvent gate }
    requires stands { gate.0 < length task.now.expanded.now.model.gates }
    requires task { IsTask task.now }
    requires started { IsStarted task.now [] builder.old }
    ensures { IfOk result (MadeTarget task.now builder.new) }
{
    let states = HouseStates::new(task.alloc);
    let context = Context {
        alloc: task.alloc,
        expanded: task.expanded,
        target: task.target,
        index: task.index,
        ranks: task.ranks,
        states: &states,
        state: 0,
    };
    let pair = lower_gate(builder, &context, gate, Signs::yes(), MAX_DEPTH + 1)?;
    Ok(pair.yes)
}

/// The place of a node that reads as a sequence.
fn lower_sequence(builder: &mut Builder, task: &Task, paths: &[Path]) -> Result<u64, OutOfMemory>
    requires resolved { IsResolved task.now.expanded.now.model }
    requires paths { ArePaths task.now paths.now }
    requires task { IsTask task.now }
    requires started { IsStarted task.now [] builder.old }
    ensures { IfOk result (MadeTarget task.now builder.new) }
{
    let mut states = HouseStates::new(task.alloc);
    let pair = lower_paths(builder, task, &mut states, paths)?;
    Ok(pair.yes)
}
