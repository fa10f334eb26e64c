ghost use Rattle.std.specs.Prelude.{◌≡◌, ◌≤◌, ◌+◌, ◌*◌, true, length, IfSome, IfNone, IfOk, OnOk};
ghost use Rattle.psa_nodes.specs.declared.node.Kind.TheVariants.{Zbdd};
ghost use Rattle.psa_nodes.specs.declared.node.Operation.{Operation};
ghost use Rattle.psa_nodes.specs.declared.node.TheConstants.MemoKey.{NO_LIMIT};
ghost use Rattle.psa_nodes.specs.Readings.{has, stands, IsInner};
ghost use Rattle.psa_nodes.specs.Nodes.{IsBounded};
ghost use Rattle.psa_nodes.specs.Progress.{IsCall, IsResult};
ghost use Rattle.psa_nodes.specs.Tails.{IsMember, AreTailsOf};
ghost use Rattle.psa_nodes.specs.Progress.{pair_level};
ghost use Rattle.psa_families.specs.Operands.{AreApart, IsTrivialDifference};

use crate::sides::split;
use psa_nodes::{MemoKey, NodeError, NodeId, NodeTable, Operation, Steps, remember_family};
use std::sync::ledger::Ledger;

/// The difference where both families are one, or one is a terminal, whatever the table. A right family that has
/// the empty set beside others would have sets that include another.
fn trivial(left: NodeId, right: NodeId) -> Option<NodeId>
    ensures found { IfSome result (λ id. IsTrivialDifference left.0 right.0 id.0) }
    ensures inner { IfNone result (IsInner left.0 × IsInner right.0) }
{
    if left == right {
        return Some(NodeId::EMPTY);
    }
    if left == NodeId::EMPTY {
        return Some(NodeId::EMPTY);
    }
    if right == NodeId::EMPTY {
        return Some(left);
    }
    if right == NodeId::UNIT {
        return Some(NodeId::EMPTY);
    }
    if left == NodeId::UNIT {
        return Some(left);
    }
    None
}

/// The members of the left family that are none of the right one, where no set of either includes another of the
/// right one: so they are those that include none of it, and are remembered as such.
/// Full only where the table has a limit and as many nodes. The recursion is at most as deep as the operands
/// have variables. Each result that is remembered on the way costs two turns, and nothing else does.
/// The members of each new node are tails of members of the left family.
pub fn difference<L: Ledger>(
    table: &mut NodeTable,
    left: NodeId,
    right: NodeId,
    steps: &mut Steps<L>,
) -> Result<NodeId, NodeError>
    requires left { stands Zbdd 0 table.old.nodes left.0 ≡ true }
    requires right { stands Zbdd 0 table.old.nodes right.0 ≡ true }
    requires bounded { IsBounded table.old.nodes }
    requires apart { AreApart (has table.old.nodes left.0) (has table.old.nodes right.0) }
    requires own { AreApart (has table.old.nodes right.0) (has table.old.nodes right.0) }
    ensures difference { IfOk result
        (λ id. IsResult Operation.Without NO_LIMIT table.new.nodes left.0 right.0 id.0) }
    ensures call { IsCall (AreTailsOf (IsMember (has table.old.nodes left.0)))
        (pair_level table.old.nodes left.0 right.0) table.old table.new result }
    ensures two_turns { OnOk result
        (steps.new + 2 * length table.old.entries ≡ steps.old + 2 * length table.new.entries) }
{
    table.check();
    if let Some(id) = trivial(left, right) {
        return Ok(id);
    }
    let key = MemoKey {
        operation: Operation::Without,
        left,
        right,
        limit: MemoKey::NO_LIMIT,
    };
    if let Some(id) = table.remembered(&key) {
        return Ok(id);
    }
    let sides = split(table, left, right, steps);
    let hi = difference(table, sides.left_hi, sides.right_hi, steps)?;
    let lo = difference(table, sides.left_lo, sides.right_lo, steps)?;
    remember_family(table, key, sides.var, hi, lo)
}
