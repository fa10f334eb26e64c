ghost use Rattle.std.specs.Prelude.{◌≡◌, ◌≤◌, ◌+◌, true, Some, IfSome, IfNone, List};
ghost use Rattle.psa_nodes.specs.declared.node.Kind.TheVariants.{Zbdd};
ghost use Rattle.psa_nodes.specs.declared.node.Node.{Node};
ghost use Rattle.psa_nodes.specs.Readings.{node_at, stands, IsTerminal, IsInner};
ghost use Rattle.psa_nodes.specs.Nodes.{AllFit, IsBounded};
ghost use Rattle.psa_families.specs.Sides.{IsSplit, AreSides, OneIsInner, IsLeast};

use psa_nodes::{Node, NodeId, NodeTable, Steps};
use std::sync::ledger::Ledger;

/// The sides of two families by the least of their variables.
#[derive(Clone, Copy)]
pub struct Sides {
    pub var: u32,
    pub left_hi: NodeId,
    pub left_lo: NodeId,
    pub right_hi: NodeId,
    pub right_lo: NodeId,
}

/// The node of a family, in one turn; None for a terminal.
fn read<L: Ledger>(table: &NodeTable, id: NodeId, steps: &mut Steps<L>) -> Option<Node>
    requires { stands Zbdd 0 table.now.nodes id.0 ≡ true }
    ensures node { IfSome result (λ n. node_at table.now.nodes id.0 ≡ Some n) }
    ensures terminal { IfNone result (IsTerminal id.0) }
    ensures turns { steps.new ≤ steps.old + 1 }
    ensures inner_turn { IsInner id.0 → steps.new ≡ steps.old + 1 }
{
    if id.is_terminal() {
        return None;
    }
    Some(table.node(id, steps))
}

/// The lesser of the variables of two nodes; a terminal is past all variables.
fn least_variable(left: Option<Node>, right: Option<Node>) -> u32
    requires { OneIsInner left right }
    ensures { IsLeast left right result }
{
    match left {
        Some(first) => match right {
            Some(second) => first.var.min(second.var),
            None => first.var,
        },
        None => match right {
            Some(second) => second.var,
            None => unreachable!(),
        },
    }
}

/// The sides of a family by a variable that is not past its own: a terminal and a later node have no set with
/// it.
fn sides_at(id: NodeId, node: Option<Node>, var: u32) -> (NodeId, NodeId)
    requires terminal { IfNone node (IsTerminal id.0) }
    requires before { IfSome node (λ n. var ≤ n.var) }
    ensures { (ns : List Node) → AllFit ns → stands Zbdd 0 ns id.0 ≡ true
        → IfSome node (λ n. node_at ns id.0 ≡ Some n) → IsSplit ns var id.0 result.0.0 result.1.0 }
{
    let Some(node) = node else {
        return (NodeId::EMPTY, id);
    };
    if node.var == var {
        (node.hi, node.lo)
    } else {
        (NodeId::EMPTY, id)
    }
}

/// Splits two families, not both terminals; this reads their nodes, one turn each.
pub fn split<L: Ledger>(
    table: &NodeTable,
    left: NodeId,
    right: NodeId,
    steps: &mut Steps<L>,
) -> Sides
    requires left { stands Zbdd 0 table.now.nodes left.0 ≡ true }
    requires right { stands Zbdd 0 table.now.nodes right.0 ≡ true }
    requires inner { ¬ (IsTerminal left.0 × IsTerminal right.0) }
    requires bounded { IsBounded table.now.nodes }
    ensures sides { AreSides table.now.nodes left right result }
    ensures turns { steps.new ≤ steps.old + 2 }
    ensures inner_turns { IsInner left.0 × IsInner right.0 → steps.new ≡ steps.old + 2 }
{
    table.check();
    let first = read(table, left, steps);
    let second = read(table, right, steps);
    let var = least_variable(first, second);
    let (left_hi, left_lo) = sides_at(left, first, var);
    let (right_hi, right_lo) = sides_at(right, second, var);
    Sides {
        var,
        left_hi,
        left_lo,
        right_hi,
        right_lo,
    }
}
