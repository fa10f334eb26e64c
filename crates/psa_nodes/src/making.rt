ghost use Rattle.std.specs.Prelude.{◌≡◌, ◌+◌, length, IfOk, OnOk};
ghost use Rattle.psa_nodes.specs.Readings.{has, joined};
ghost use Rattle.psa_nodes.specs.Table.{IsTable, Lacks};
ghost use Rattle.psa_nodes.specs.Progress.{IsCall, IsResult};
ghost use Rattle.psa_nodes.specs.Tails.{IsMember, AreTailsOf};
ghost use Rattle.psa_nodes.specs.Making.{IsReady};

use crate::node::{MemoKey, NodeError, NodeId};
use crate::table::NodeTable;

/// Makes the family of the sides of a result, the sets with a variable and those without it, and remembers it by
/// its key. Full only where the table has a limit and as many nodes.
pub fn remember_family(
    table: &mut NodeTable,
    key: MemoKey,
    var: u32,
    hi: NodeId,
    lo: NodeId,
) -> Result<NodeId, NodeError>
    requires table { IsTable table.old }
    requires ready { IsReady table.old.nodes key var hi.0 lo.0 }
    requires absent { Lacks table.old.entries key }
    ensures made { IfOk result (λ id.
        IsResult key.operation key.limit table.new.nodes key.left.0 key.right.0 id.0) }
    ensures call { IsCall
        (AreTailsOf (IsMember (joined var (has table.old.nodes hi.0) (has table.old.nodes lo.0))))
        var table.old table.new result }
    ensures entered { OnOk result (length table.new.entries ≡ length table.old.entries + 1) }
{
    let id = table.zbdd_node(var, hi, lo)?;
    table.remember(key, id)?;
    Ok(id)
}
