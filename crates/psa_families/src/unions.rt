ghost use Rattle.std.specs.Prelude.{◌≡◌, ◌≤◌, ◌+◌, ◌-◌, ◌*◌, true, length, IfSome, IfNone, IfOk, OnOk};
ghost use Rattle.psa_nodes.specs.declared.node.Kind.TheVariants.{Zbdd};
ghost use Rattle.psa_nodes.specs.declared.node.Operation.{Operation};
ghost use Rattle.psa_nodes.specs.Readings.{has, stands, IsTerminal};
ghost use Rattle.psa_nodes.specs.Nodes.{IsBounded};
ghost use Rattle.psa_nodes.specs.declared.node.TheConstants.MemoKey.{NO_LIMIT};
ghost use Rattle.psa_nodes.specs.Progress.{IsCall, IsResult};
ghost use Rattle.psa_nodes.specs.Tails.{either, IsMember, AreTailsOf};
ghost use Rattle.psa_nodes.specs.Progress.{pair_level};
ghost use Rattle.psa_families.specs.Sides.{IsTrivial};

use crate::sides::split;
use psa_nodes::{MemoKey, NodeError, NodeId, NodeTable, Operation, Steps, remember_family};
use std::sync::ledger::Ledger;

/// The union where both families are one, or one is empty, whatever the table.
fn trivial(left: NodeId, right: NodeId) -> Option<NodeId>
    ensures found { IfSome result (λ id. IsTrivial Operation.Union left.0 right.0 id.0) }
    ensures inner { IfNone result (¬ (IsTerminal left.0 × IsTerminal right.0)) }
{
    if left == right {
        return Some(left);
    }
    if left == NodeId::EMPTY {
        return Some(right);
    }
    if right == NodeId::EMPTY {
        return Some(left);
    }
    None
}

/// The union of two families (Minato): the sets of either.
/// Full only where the table has a limit and as many nodes. The recursion is at most as deep as the operands
/// have variables, of which there are at most `MAX_LITERAL_NUMBERS`; the table stays so bounded
/// (`call.progress.bounded`). Each result that is remembered on the way costs at most two turns, and nothing
/// else does.
/// The members of each new node are tails of members of the operands.
pub fn union<L: Ledger>(
    table: &mut NodeTable,
    left: NodeId,
    right: NodeId,
    steps: &mut Steps<L>,
) -> Result<NodeId, NodeError>
    requires left { stands Zbdd 0 table.old.nodes left.0 ≡ true }
    requires right { stands Zbdd 0 table.old.nodes right.0 ≡ true }
    requires bounded { IsBounded table.old.nodes }
    ensures union { IfOk result
        (λ id. IsResult Operation.Union NO_LIMIT table.new.nodes left.0 right.0 id.0) }
    ensures call { IsCall
        (AreTailsOf (IsMember (either (has table.old.nodes left.0) (has table.old.nodes right.0))))
        (pair_level table.old.nodes left.0 right.0) table.old table.new result }
    ensures two_turns { OnOk result
        (steps.new + 2 * length table.old.entries ≤ steps.old + 2 * length table.new.entries) }
{
    table.check();
    if let Some(id) = trivial(left, right) {
        return Ok(id);
    }
    let key = MemoKey {
        operation: Operation::Union,
        left,
        right,
        limit: MemoKey::NO_LIMIT,
    };
    if let Some(id) = table.remembered(&key) {
        return Ok(id);
    }
    let sides = split(table, left, right, steps);
    let hi = union(table, sides.left_hi, sides.right_hi, steps)?;
    let lo = union(table, sides.left_lo, sides.right_lo, steps)?;
    remember_family(table, key, sides.var, hi, lo)
}
