ghost use Rattle.std.specs.Prelude.{◌≡◌, ◌≤◌, ◌+◌, ◌*◌, true, length, IfSome, IfNone, IfOk, OnOk};
ghost use Rattle.psa_nodes.specs.declared.node.Kind.TheVariants.{Zbdd};
ghost use Rattle.psa_nodes.specs.declared.node.Operation.{Operation};
ghost use Rattle.psa_nodes.specs.Readings.{has, stands, IsTerminal};
ghost use Rattle.psa_nodes.specs.Nodes.{IsBounded};
ghost use Rattle.psa_nodes.specs.declared.node.TheConstants.MemoKey.{NO_LIMIT};
ghost use Rattle.psa_nodes.specs.Progress.{IsCall, IsResult};
ghost use Rattle.psa_nodes.specs.Tails.{IsMember, AreTailsOf};
ghost use Rattle.psa_nodes.specs.Progress.{pair_level};
ghost use Rattle.psa_families.specs.Sides.{IsTrivial};

use crate::sides::split;
use psa_nodes::{MemoKey, NodeError, NodeId, NodeTable, Operation, Steps, remember_family};
use std::sync::ledger::Ledger;

/// What remains where both families are one, one is empty, or the right one is the empty set alone, whatever
/// the table.
fn trivial(left: NodeId, right: NodeId) -> Option<NodeId>
    ensures found { IfSome result (λ id. IsTrivial Operation.Without left.0 right.0 id.0) }
    ensures inner { IfNone result (¬ (IsTerminal left.0 × IsTerminal right.0)) }
{
    if left == right {
        return Some(NodeId::EMPTY);
    }
    if left == NodeId::EMPTY {
        return Some(NodeId::EMPTY);
    }
    if right == NodeId::EMPTY {
        return Some(left);
    }
    if right == NodeId::UNIT {
        return Some(NodeId::EMPTY);
    }
    None
}

/// The members of the left family that include no member of the right one (subset removal, Rauzy).
/// Full only where the table has a limit and as many nodes. The recursion is at most as deep as the operands
/// have variables, of which there are at most `MAX_LITERAL_NUMBERS`; the table stays so bounded
/// (`call.progress.bounded`). Each result that is remembered on the way costs at most two turns, and nothing
/// else does.
/// The members of each new node are tails of members of the left family.
pub fn without<L: Ledger>(
    table: &mut NodeTable,
    left: NodeId,
    right: NodeId,
    steps: &mut Steps<L>,
) -> Result<NodeId, NodeError>
    requires left { stands Zbdd 0 table.old.nodes left.0 ≡ true }
    requires right { stands Zbdd 0 table.old.nodes right.0 ≡ true }
    requires bounded { IsBounded table.old.nodes }
    ensures remaining { IfOk result
        (λ id. IsResult Operation.Without NO_LIMIT table.new.nodes left.0 right.0 id.0) }
    ensures call { IsCall (AreTailsOf (IsMember (has table.old.nodes left.0)))
        (pair_level table.old.nodes left.0 right.0) table.old table.new result }
    ensures two_turns { OnOk result
        (steps.new + 2 * length table.old.entries ≤ steps.old + 2 * length table.new.entries) }
{
    table.check();
    if let Some(id) = trivial(left, right) {
        return Ok(id);
    }
    let key = MemoKey {
        operation: Operation::Without,
        left,
        right,
        limit: MemoKey::NO_LIMIT,
    };
    if let Some(id) = table.remembered(&key) {
        return Ok(id);
    }
    let sides = split(table, left, right, steps);
    let both = without(table, sides.left_hi, sides.right_hi, steps)?;
    let hi = without(table, both, sides.right_lo, steps)?;
    let lo = without(table, sides.left_lo, sides.right_lo, steps)?;
    remember_family(table, key, sides.var, hi, lo)
}
