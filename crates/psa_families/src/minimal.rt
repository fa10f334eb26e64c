ghost use Rattle.std.specs.Prelude.{◌≡◌, ◌≤◌, ◌+◌, ◌*◌, true, length, IfOk, OnOk};
ghost use Rattle.psa_nodes.specs.declared.node.Kind.TheVariants.{Zbdd};
ghost use Rattle.psa_nodes.specs.declared.node.Operation.{Operation};
ghost use Rattle.psa_nodes.specs.declared.node.TheConstants.MemoKey.{NO_RIGHT, NO_LIMIT};
ghost use Rattle.psa_nodes.specs.Readings.{has, stands, level};
ghost use Rattle.psa_nodes.specs.Nodes.{IsBounded};
ghost use Rattle.psa_nodes.specs.Progress.{IsCall, IsResult};
ghost use Rattle.psa_nodes.specs.Tails.{IsMember, AreTailsOf};

use crate::subset_removal::without;
use psa_nodes::{MemoKey, NodeError, NodeId, NodeTable, Operation, Steps, remember_family};
use std::sync::ledger::Ledger;

/// The members of a family that include no other member.
/// Full only where the table has a limit and as many nodes. The recursion is at most as deep as the family has
/// variables, of which there are at most `MAX_LITERAL_NUMBERS`; the table stays so bounded
/// (`call.progress.bounded`). Each result that is remembered on the way costs at most two turns, and nothing
/// else does.
/// The members of each new node are tails of members of the family.
pub fn minimal_sets<L: Ledger>(
    table: &mut NodeTable,
    root: NodeId,
    steps: &mut Steps<L>,
) -> Result<NodeId, NodeError>
    requires root { stands Zbdd 0 table.old.nodes root.0 ≡ true }
    requires bounded { IsBounded table.old.nodes }
    ensures minimal { IfOk result
        (λ id. IsResult Operation.MinimalSets NO_LIMIT table.new.nodes root.0 NO_RIGHT.0 id.0) }
    ensures call { IsCall (AreTailsOf (IsMember (has table.old.nodes root.0)))
        (level table.old.nodes root.0) table.old table.new result }
    ensures two_turns { OnOk result
        (steps.new + 2 * length table.old.entries ≤ steps.old + 2 * length table.new.entries) }
{
    table.check();
    if root.is_terminal() {
        return Ok(root);
    }
    let key = MemoKey {
        operation: Operation::MinimalSets,
        left: root,
        right: MemoKey::NO_RIGHT,
        limit: MemoKey::NO_LIMIT,
    };
    if let Some(id) = table.remembered(&key) {
        return Ok(id);
    }
    let node = table.node(root, steps);
    let lo = minimal_sets(table, node.lo, steps)?;
    let high = minimal_sets(table, node.hi, steps)?;
    let hi = without(table, high, lo, steps)?;
    remember_family(table, key, node.var, hi, lo)
}
