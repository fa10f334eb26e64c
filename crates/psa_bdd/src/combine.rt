ghost use Rattle.std.specs.Prelude.{◌≡◌, ◌≤◌, ◌+◌, ◌-◌, ◌*◌, ◌^◌, ◌<◌, true, length, IfOk, OnOk};
ghost use Rattle.psa_nodes.specs.declared.node.Kind.TheVariants.{Bdd};
ghost use Rattle.psa_nodes.specs.declared.node.Operation.{Operation};
ghost use Rattle.psa_nodes.specs.declared.node.TheConstants.MemoKey.{NO_LIMIT};
ghost use Rattle.psa_nodes.specs.Readings.{stands, truth};
ghost use Rattle.psa_nodes.specs.Nodes.{IsBounded};
ghost use Rattle.psa_nodes.specs.Table.{IsTable, Lacks};
ghost use Rattle.psa_nodes.specs.Progress.{IsCall, IsResult};
ghost use Rattle.psa_bdd.specs.Combined.{operation_of, key_of, IsCofactors, IsCombining, IsReady};

use crate::connective::Connective;
use crate::sides::split;
use psa_nodes::{NodeError, NodeId, NodeTable, Steps};
use std::sync::ledger::Ledger;

/// Makes the node of the sides of a result, and remembers it.
fn finish(
    table: &mut NodeTable,
    connective: Connective,
    left: NodeId,
    right: NodeId,
    var: u32,
    hi: NodeId,
    lo: NodeId,
) -> Result<NodeId, NodeError>
    requires table { IsTable table.old }
    requires ready { IsReady connective table.old.nodes left.0 right.0 var hi.0 lo.0 }
    requires absent { Lacks table.old.entries (key_of connective left right) }
    ensures combined { IfOk result
        (λ id. IsResult (operation_of connective) NO_LIMIT table.new.nodes left.0 right.0 id.0) }
    ensures call { IsCall
        (IsCofactors connective (truth table.old.nodes left.0) (truth table.old.nodes right.0))
        (2 * var) table.old table.new result }
    ensures entered { OnOk result (length table.new.entries ≡ length table.old.entries + 1) }
{
    let id = table.bdd_node(var, hi, lo)?;
    table.remember(connective.key(left, right), id)?;
    Ok(id)
}

/// The connective of two diagrams, by recursion over the least of their variables. Each result is remembered.
fn combine<L: Ledger>(
    table: &mut NodeTable,
    connective: Connective,
    left: NodeId,
    right: NodeId,
    steps: &mut Steps<L>,
) -> Result<NodeId, NodeError>
    requires left { stands Bdd 0 table.old.nodes left.0 ≡ true }
    requires right { stands Bdd 0 table.old.nodes right.0 ≡ true }
    requires bounded { IsBounded table.old.nodes }
    ensures combined { IfOk result
        (λ id. IsResult (operation_of connective) NO_LIMIT table.new.nodes left.0 right.0 id.0) }
    ensures call { IsCombining connective left right table.old table.new result }
    ensures turns { OnOk result
        (steps.new + 2 * length table.old.entries ≡ steps.old + 2 * length table.new.entries) }
{
    table.check();
    if let Some(id) = connective.trivial(left, right) {
        return Ok(id);
    }
    if let Some(id) = table.remembered(&connective.key(left, right)) {
        return Ok(id);
    }
    let sides = split(table, left, right, steps);
    let hi = combine(table, connective, sides.left_hi, sides.right_hi, steps)?;
    let lo = combine(table, connective, sides.left_lo, sides.right_lo, steps)?;
    finish(table, connective, left, right, sides.var, hi, lo)
}

/// The conjunction of two diagrams (Bryant): the node that is true where both are.
/// Full only where the table has a limit and as many nodes. The recursion is at most as deep as the operands
/// have variables, of which there are at most `MAX_RANKS`; the table stays so bounded (`call.progress.bounded`).
/// Each result that is remembered on the way costs two turns, and nothing else does.
pub fn and<L: Ledger>(
    table: &mut NodeTable,
    left: NodeId,
    right: NodeId,
    steps: &mut Steps<L>,
) -> Result<NodeId, NodeError>
    requires left { stands Bdd 0 table.old.nodes left.0 ≡ true }
    requires right { stands Bdd 0 table.old.nodes right.0 ≡ true }
    requires bounded { IsBounded table.old.nodes }
    ensures conjunction { IfOk result
        (λ id. IsResult Operation.And NO_LIMIT table.new.nodes left.0 right.0 id.0) }
    ensures call { IsCombining Connective.And left right table.old table.new result }
    ensures two_turns { OnOk result
        (steps.new + 2 * length table.old.entries ≡ steps.old + 2 * length table.new.entries) }
    ensures turns { OnOk result
        (steps.new ≤ steps.old + 8 * (length table.new.entries - length table.old.entries + 1)) }
{
    combine(table, Connective::And, left, right, steps)
}

/// The disjunction of two diagrams (Bryant): the node that is true where one of them is.
/// Full only where the table has a limit and as many nodes. The recursion is at most as deep as the operands
/// have variables, of which there are at most `MAX_RANKS`; the table stays so bounded (`call.progress.bounded`).
/// Each result that is remembered on the way costs two turns, and nothing else does.
pub fn or<L: Ledger>(
    table: &mut NodeTable,
    left: NodeId,
    right: NodeId,
    steps: &mut Steps<L>,
) -> Result<NodeId, NodeError>
    requires left { stands Bdd 0 table.old.nodes left.0 ≡ true }
    requires right { stands Bdd 0 table.old.nodes right.0 ≡ true }
    requires bounded { IsBounded table.old.nodes }
    ensures disjunction { IfOk result
        (λ id. IsResult Operation.Or NO_LIMIT table.new.nodes left.0 right.0 id.0) }
    ensures call { IsCombining Connective.Or left right table.old table.new result }
    ensures two_turns { OnOk result
        (steps.new + 2 * length table.old.entries ≡ steps.old + 2 * length table.new.entries) }
    ensures turns { OnOk result
        (steps.new ≤ steps.old + 8 * (length table.new.entries - length table.old.entries + 1)) }
{
    combine(table, Connective::Or, left, right, steps)
}
