ghost use Rattle.std.specs.Prelude.{◌≡◌, ◌<◌, ◌≤◌, ◌+◌, ◌*◌, ◌^◌, true, List, Option, length, IfOk, OnOk};
ghost use Rattle.psa_number.specs.Ends.{Ends};
ghost use Rattle.psa_nodes.specs.declared.node.TheConstants.{MAX_RANKS};
ghost use Rattle.psa_nodes.specs.Nodes.{IsBounded};
ghost use Rattle.psa_nodes.specs.Progress.{IsCall};
ghost use Rattle.psa_model.specs.Ranks.{ranks_of};
ghost use Rattle.psa_model.specs.Standing.{target_stands};
ghost use Rattle.psa_model.specs.Truth.{IsResolved};
ghost use Rattle.psa_prep.specs.Index.{IsIndex};
ghost use Rattle.psa_outcome.specs.Origins.{Origin, is_by_graph};
ghost use Rattle.psa_sections.specs.ProductNodes.{analysis_by, IsNodeOfProducts};

use psa_bdd::build;
use psa_model::{Algorithm, Expanded, Mode, Ranks, Settings, Target};
use psa_nodes::{NodeError, NodeId, NodeTable, Steps};
use psa_prep::{EventIndex, prepare_by_index};
use psa_prime::primes_of_bdd;
use psa_zbdd::{minimal_of_bdd, minimal_of_graph};
use std::alloc::Global;
use std::sync::ledger::Ledger;

/// Whether products come straight from the graph, with no decision diagram.
fn is_by_graph(settings: &Settings) -> bool
    ensures { result ≡ is_by_graph settings.now.algorithm settings.now.mode }
{
    match (settings.algorithm, settings.mode) {
        (Algorithm::Zbdd, Mode::CutSets) => true,
        (Algorithm::Zbdd, Mode::Primes) | (Algorithm::Bdd, _) => false,
    }
}

/// The node of a target's products within the order limit: its minimal cut sets (Rauzy) or its prime implicants
/// (Coudert and Madre), read from the target's decision diagram; or, where the settings ask for minimal cut sets by
/// families alone, its minimal cut sets straight from its graph.
/// Each new node has its origin in the target, and so has the triple that a full table refuses.
/// Full only where the table has a limit and as many nodes; the table stays bounded (`call.progress.bounded`).
/// Each result that is remembered on the way costs at most six turns, and nothing else does.
pub fn products_of_target<L: Ledger>(
    alloc: Global,
    table: &mut NodeTable,
    settings: &Settings,
    expanded: &Expanded,
    index: &EventIndex,
    target: &Target,
    ranks: &Ranks,
    steps: &mut Steps<L>,
) -> Result<NodeId, NodeError>
    requires resolved { IsResolved expanded.now.model }
    requires events { length expanded.now.events < 2 ^ 32 }
    requires index { IsIndex expanded.now index.now }
    requires target { target_stands expanded.now.model target.now ≡ true }
    requires ranks { ranks.now ≡ ranks_of expanded.now target.now }
    requires few { length ranks.now ≤ MAX_RANKS }
    requires bounded { IsBounded table.old.nodes }
    ensures products { (values : Option (List Ends)) → IfOk result
        (λ id. IsNodeOfProducts (analysis_by settings.now expanded.now values) target.now
        table.new id.0) }
    ensures call { (values : Option (List Ends)) → IsCall
        (Origin (analysis_by settings.now expanded.now values) target.now) 0
        table.old table.new result }
    ensures six_turns { OnOk result
        (steps.new + 6 * length table.old.entries ≤ steps.old + 6 * length table.new.entries) }
{
    table.check();
    let graph = prepare_by_index(alloc, expanded, index, target, ranks)?;
    if is_by_graph(settings) {
        return minimal_of_graph(alloc, table, &graph, settings.limit_order, steps);
    }
    let root = build(alloc, table, &graph, steps)?;
    match settings.mode {
        Mode::CutSets => minimal_of_bdd(table, root, settings.limit_order, steps),
        Mode::Primes => primes_of_bdd(table, root, settings.limit_order, steps),
    }
}
