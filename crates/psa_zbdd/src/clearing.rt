ghost use Rattle.std.specs.Prelude.{◌≡◌, ◌≤◌, ◌+◌, true};
ghost use Rattle.psa_nodes.specs.declared.node.Kind.TheVariants.{Zbdd};
ghost use Rattle.psa_nodes.specs.Readings.{stands};
ghost use Rattle.psa_zbdd.specs.FamilyProducts.{IsClear, SidesStand, AreClearSides};

use psa_families::Sides;
use psa_nodes::{NodeId, NodeTable, Steps};
use std::sync::ledger::Ledger;

/// The members of a family that go with a variable past which it stands: where the variable is the literal of
/// an event that occurs, those without the opposite literal, the next one. This takes at most one turn.
fn clear_side<L: Ledger>(table: &NodeTable, id: NodeId, var: u32, steps: &mut Steps<L>) -> NodeId
    requires { stands Zbdd (var + 1) table.now.nodes id.0 ≡ true }
    ensures clear { IsClear table.now.nodes var id.0 result.0 }
    ensures turns { steps.new ≤ steps.old + 1 }
{
    table.check();
    if var % 2 == 1 {
        return id;
    }
    if id.is_terminal() {
        return id;
    }
    let node = table.node(id, steps);
    if node.var == var + 1 { node.lo } else { id }
}

/// What goes with the variable of four sides; this takes at most four turns.
pub fn cleared<L: Ledger>(table: &NodeTable, sides: Sides, steps: &mut Steps<L>) -> Sides
    requires { SidesStand table.now.nodes sides }
    ensures clear { AreClearSides table.now.nodes sides result }
    ensures turns { steps.new ≤ steps.old + 4 }
{
    let var = sides.var;
    Sides {
        var,
        left_hi: clear_side(table, sides.left_hi, var, steps),
        left_lo: clear_side(table, sides.left_lo, var, steps),
        right_hi: clear_side(table, sides.right_hi, var, steps),
        right_lo: clear_side(table, sides.right_lo, var, steps),
    }
}
