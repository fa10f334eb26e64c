ghost use Rattle.std.specs.Prelude.{◌≡◌, ◌≤◌, ◌<◌, ◌+◌, ◌*◌, true, Some, List};
ghost use Rattle.psa_nodes.specs.declared.node.Kind.TheVariants.{Bdd};
ghost use Rattle.psa_nodes.specs.declared.node.Node.{Node};
ghost use Rattle.psa_nodes.specs.declared.node.TheConstants.{MAX_RANKS};
ghost use Rattle.psa_nodes.specs.Readings.{node_at, stands, IsInner};
ghost use Rattle.psa_nodes.specs.Nodes.{AllFit, IsBounded};
ghost use Rattle.psa_nodes.specs.Progress.{pair_level};
ghost use Rattle.psa_bdd.specs.Combined.{IsSplit};

use psa_nodes::{Node, NodeId, NodeTable, Steps};
use std::sync::ledger::Ledger;

/// The sides of two diagrams by the least of their variables.
#[derive(Clone, Copy)]
pub struct Sides {
    pub var: u32,
    pub left_hi: NodeId,
    pub left_lo: NodeId,
    pub right_hi: NodeId,
    pub right_lo: NodeId,
}

/// The sides of a diagram by a variable that is not past its own.
fn sides_at(id: NodeId, node: Node, var: u32) -> (NodeId, NodeId)
    requires { var ≤ node.var }
    ensures { (ns : List Node) → AllFit ns → node_at ns id.0 ≡ Some node → node.kind ≡ Bdd
        → IsSplit ns var id.0 result.0.0 result.1.0 }
{
    if node.var == var {
        (node.hi, node.lo)
    } else {
        (id, id)
    }
}

/// Splits two diagrams, neither a terminal; this reads their nodes, two turns.
pub fn split<L: Ledger>(
    table: &NodeTable,
    left: NodeId,
    right: NodeId,
    steps: &mut Steps<L>,
) -> Sides
    requires left { stands Bdd 0 table.now.nodes left.0 ≡ true }
    requires right { stands Bdd 0 table.now.nodes right.0 ≡ true }
    requires inner { IsInner left.0 × IsInner right.0 }
    requires bounded { IsBounded table.now.nodes }
    ensures left { IsSplit table.now.nodes result.var left.0 result.left_hi.0 result.left_lo.0 }
    ensures right { IsSplit table.now.nodes result.var right.0 result.right_hi.0 result.right_lo.0 }
    ensures left_stands { stands Bdd result.var table.now.nodes left.0 ≡ true }
    ensures right_stands { stands Bdd result.var table.now.nodes right.0 ≡ true }
    ensures least { 2 * result.var ≡ pair_level table.now.nodes left.0 right.0 }
    ensures bound { result.var < MAX_RANKS }
    ensures turns { steps.new ≡ steps.old + 2 }
{
    let first = table.node(left, steps);
    let second = table.node(right, steps);
    let var = first.var.min(second.var);
    let (left_hi, left_lo) = sides_at(left, first, var);
    let (right_hi, right_lo) = sides_at(right, second, var);
    Sides {
        var,
        left_hi,
        left_lo,
        right_hi,
        right_lo,
    }
}
