ghost use Rattle.std.specs.Prelude.{◌≡◌, ◌≤◌, ◌+◌, ◌*◌, true, length, IfOk, OnOk};
ghost use Rattle.psa_nodes.specs.declared.node.Kind.TheVariants.{Zbdd};
ghost use Rattle.psa_nodes.specs.declared.node.Operation.{Operation};
ghost use Rattle.psa_nodes.specs.declared.node.TheConstants.MemoKey.{NO_RIGHT, NO_LIMIT};
ghost use Rattle.psa_nodes.specs.Readings.{has, stands, level};
ghost use Rattle.psa_nodes.specs.Nodes.{IsBounded};
ghost use Rattle.psa_nodes.specs.Families.{IsPositivePart};
ghost use Rattle.psa_nodes.specs.Progress.{IsCall, IsResult};
ghost use Rattle.psa_nodes.specs.Tails.{AreTailsOf};

use crate::unions::union;
use psa_nodes::{MemoKey, NodeError, NodeId, NodeTable, Operation, Steps, remember_family};
use std::sync::ledger::Ledger;

/// The members of a family with their literals of events that do not occur dropped.
/// Full only where the table has a limit and as many nodes. The recursion is at most as deep as the family has
/// variables, of which there are at most `MAX_LITERAL_NUMBERS`; the table stays so bounded
/// (`call.progress.bounded`). Each result that is remembered on the way costs at most two turns, and nothing
/// else does.
/// The members of each new node are tails of members of the result.
pub fn positive_part<L: Ledger>(
    table: &mut NodeTable,
    root: NodeId,
    steps: &mut Steps<L>,
) -> Result<NodeId, NodeError>
    requires root { stands Zbdd 0 table.old.nodes root.0 ≡ true }
    requires bounded { IsBounded table.old.nodes }
    ensures positive { IfOk result
        (λ id. IsResult Operation.Positive NO_LIMIT table.new.nodes root.0 NO_RIGHT.0 id.0) }
    ensures call { IsCall (AreTailsOf (IsPositivePart (has table.old.nodes root.0)))
        (level table.old.nodes root.0) table.old table.new result }
    ensures two_turns { OnOk result
        (steps.new + 2 * length table.old.entries ≤ steps.old + 2 * length table.new.entries) }
{
    table.check();
    if root.is_terminal() {
        return Ok(root);
    }
    let key = MemoKey {
        operation: Operation::Positive,
        left: root,
        right: MemoKey::NO_RIGHT,
        limit: MemoKey::NO_LIMIT,
    };
    if let Some(id) = table.remembered(&key) {
        return Ok(id);
    }
    let node = table.node(root, steps);
    let lo = positive_part(table, node.lo, steps)?;
    let hi = positive_part(table, node.hi, steps)?;
    if node.var % 2 == 1 {
        // the event does not occur: its literal is dropped
        let either = union(table, hi, lo, steps)?;
        return remember_family(table, key, node.var, NodeId::EMPTY, either);
    }
    remember_family(table, key, node.var, hi, lo)
}
