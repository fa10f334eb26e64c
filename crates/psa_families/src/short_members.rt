ghost use Rattle.std.specs.Prelude.{◌≡◌, ◌≤◌, ◌+◌, ◌*◌, true, length, IfOk, OnOk};
ghost use Rattle.psa_nodes.specs.declared.node.Kind.TheVariants.{Zbdd};
ghost use Rattle.psa_nodes.specs.declared.node.Operation.{Operation};
ghost use Rattle.psa_nodes.specs.declared.node.TheConstants.NodeId.{UNIT};
ghost use Rattle.psa_nodes.specs.Readings.{has, stands, level};
ghost use Rattle.psa_nodes.specs.Nodes.{IsBounded};
ghost use Rattle.psa_nodes.specs.Progress.{IsCall, IsResult};
ghost use Rattle.psa_nodes.specs.Tails.{IsMember, AreTailsOf};
ghost use Rattle.psa_families.specs.Operands.{ArePositive};

use psa_nodes::{MemoKey, NodeError, NodeId, NodeTable, Operation, Steps, remember_family};
use std::sync::ledger::Ledger;

/// The members of at most `limit` literals of a family of products of events that occur: its product, within
/// the limit, with the family of the empty set. It is remembered as that product.
/// Full only where the table has a limit and as many nodes. The recursion is at most as deep as the family has
/// variables. Each result that is remembered on the way costs at most two turns, and nothing else does.
/// The members of each new node are tails of members of the family.
pub fn within<L: Ledger>(
    table: &mut NodeTable,
    family: NodeId,
    limit: u8,
    steps: &mut Steps<L>,
) -> Result<NodeId, NodeError>
    requires family { stands Zbdd 0 table.old.nodes family.0 ≡ true }
    requires positive { ArePositive (has table.old.nodes family.0) }
    requires bounded { IsBounded table.old.nodes }
    ensures short { IfOk result
        (λ id. IsResult Operation.Product limit table.new.nodes family.0 UNIT.0 id.0) }
    ensures call { IsCall (AreTailsOf (IsMember (has table.old.nodes family.0)))
        (level table.old.nodes family.0) table.old table.new result }
    ensures two_turns { OnOk result
        (steps.new + 2 * length table.old.entries ≤ steps.old + 2 * length table.new.entries) }
{
    table.check();
    if family.is_terminal() {
        return Ok(family);
    }
    let key = MemoKey {
        operation: Operation::Product,
        left: family,
        right: NodeId::UNIT,
        limit,
    };
    if let Some(id) = table.remembered(&key) {
        return Ok(id);
    }
    let node = table.node(family, steps);
    let lo = within(table, node.lo, limit, steps)?;
    if limit == 0 {
        return remember_family(table, key, node.var, NodeId::EMPTY, lo);
    }
    let hi = within(table, node.hi, limit - 1, steps)?;
    remember_family(table, key, node.var, hi, lo)
}
