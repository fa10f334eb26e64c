ghost use Rattle.std.specs.Prelude.{◌≡◌, ◌≤◌, ◌+◌, ◌*◌, true, length, IfSome, IfNone, IfOk, OnOk};
ghost use Rattle.psa_logic.specs.Products.{is_positive};
ghost use Rattle.psa_nodes.specs.declared.node.Kind.TheVariants.{Zbdd};
ghost use Rattle.psa_nodes.specs.declared.node.Operation.{Operation};
ghost use Rattle.psa_nodes.specs.Readings.{has, stands, IsTerminal};
ghost use Rattle.psa_nodes.specs.Nodes.{IsBounded};
ghost use Rattle.psa_nodes.specs.Progress.{IsCall, IsResult};
ghost use Rattle.psa_nodes.specs.Tails.{AreTailsOf};
ghost use Rattle.psa_zbdd.specs.FamilyProducts.{IsProductSource, IsTrivialProduct, SidesStand, IsHighSide, left_family, right_family, weight};
ghost use Rattle.psa_nodes.specs.Progress.{pair_level};

use crate::clearing::cleared;
use psa_families::{Sides, split, union};
use psa_nodes::{MemoKey, NodeError, NodeId, NodeTable, Operation, Steps, remember_family};
use std::sync::ledger::Ledger;

/// The product where a family is empty, or both are the family of the empty set, whatever the table and the
/// limit.
fn trivial(left: NodeId, right: NodeId) -> Option<NodeId>
    ensures found { IfSome result (λ id. IsTrivialProduct left.0 right.0 id.0) }
    ensures inner { IfNone result (¬ (IsTerminal left.0 × IsTerminal right.0)) }
{
    if left == NodeId::EMPTY {
        return Some(NodeId::EMPTY);
    }
    if right == NodeId::EMPTY {
        return Some(NodeId::EMPTY);
    }
    if left == NodeId::UNIT {
        if right == NodeId::UNIT {
            return Some(NodeId::UNIT);
        }
    }
    None
}

/// How many literals of events that occur may stand beside this one, None where it may not be taken.
fn limit_after(var: u32, limit: u8) -> Option<u8>
    ensures rest { IfSome result (λ rest. limit ≡ rest + weight var) }
    ensures none { IfNone result ((is_positive var ≡ true) × (limit ≡ 0)) }
{
    if var % 2 == 1 {
        return Some(limit);
    }
    if limit == 0 {
        return None;
    }
    Some(limit - 1)
}

/// The product of two families (Minato): the unions of a member of each that hold no literal with its opposite
/// and at most `limit` literals of events that occur.
/// Full only where the table has a limit and as many nodes. The recursion is at most as deep as the operands
/// have variables, of which there are at most `MAX_LITERAL_NUMBERS`; the table stays so bounded
/// (`call.progress.bounded`). Each result that is remembered on the way costs at most six turns, and nothing
/// else does.
/// The members of each new node are tails of members of the operands or of the product.
#[cycle(product)]
pub fn product<L: Ledger>(
    table: &mut NodeTable,
    left: NodeId,
    right: NodeId,
    limit: u8,
    steps: &mut Steps<L>,
) -> Result<NodeId, NodeError>
    requires left { stands Zbdd 0 table.old.nodes left.0 ≡ true }
    requires right { stands Zbdd 0 table.old.nodes right.0 ≡ true }
    requires bounded { IsBounded table.old.nodes }
    ensures product { IfOk result
        (λ id. IsResult Operation.Product limit table.new.nodes left.0 right.0 id.0) }
    ensures call { IsCall
        (AreTailsOf (IsProductSource (has table.old.nodes left.0) (has table.old.nodes right.0) limit))
        (pair_level table.old.nodes left.0 right.0) table.old table.new result }
    ensures six_turns { OnOk result
        (steps.new + 6 * length table.old.entries ≤ steps.old + 6 * length table.new.entries) }
{
    table.check();
    if let Some(id) = trivial(left, right) {
        return Ok(id);
    }
    let key = MemoKey {
        operation: Operation::Product,
        left,
        right,
        limit,
    };
    if let Some(id) = table.remembered(&key) {
        return Ok(id);
    }
    let sides = split(table, left, right, steps);
    let lo = product(table, sides.left_lo, sides.right_lo, limit, steps)?;
    let hi = with_variable(table, sides, limit, steps)?;
    remember_family(table, key, sides.var, hi, lo)
}

/// The side with the variable of the product of two families: the unions of a left member with it and any right
/// one, and of a left one without it and a right one with it, none with the opposite literal.
#[cycle(product)]
fn with_variable<L: Ledger>(
    table: &mut NodeTable,
    sides: Sides,
    limit: u8,
    steps: &mut Steps<L>,
) -> Result<NodeId, NodeError>
    requires sides { SidesStand table.old.nodes sides }
    requires bounded { IsBounded table.old.nodes }
    ensures side { IfOk result
        (λ id. IsHighSide table.old.nodes table.new.nodes sides limit id.0) }
    ensures call { IsCall
        (AreTailsOf (IsProductSource (left_family table.old.nodes sides) (right_family table.old.nodes sides) limit))
        (sides.var + 1) table.old table.new result }
    ensures six_turns { OnOk result
        (steps.new + 6 * length table.old.entries ≤ steps.old + 4 + 6 * length table.new.entries) }
{
    table.check();
    let Some(rest) = limit_after(sides.var, limit) else {
        return Ok(NodeId::EMPTY);
    };
    let clear = cleared(table, sides, steps);
    if clear.left_hi == NodeId::EMPTY {
        // only right members have the variable, so no union is made for the left ones
        return product(table, clear.left_lo, clear.right_hi, rest, steps);
    }
    let any = union(table, clear.right_hi, clear.right_lo, steps)?;
    let first = product(table, clear.left_hi, any, rest, steps)?;
    let second = product(table, clear.left_lo, clear.right_hi, rest, steps)?;
    union(table, first, second, steps)
}
