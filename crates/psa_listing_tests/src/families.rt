ghost use Rattle.std.specs.Prelude.{◌≡◌, ◌≤◌, ℕ, true, List, length};
ghost use Rattle.psa_nodes.specs.declared.node.Kind.TheVariants.{Zbdd};
ghost use Rattle.psa_nodes.specs.Readings.{has, stands};

use psa_nodes::{Kind, MAX_LITERAL_NUMBERS, NodeError, NodeId, NodeTable, Steps, TERMINALS};
use std::process::Abort;
use std::sync::ledger::Ledger;

/// The small families are of literal numbers below this: three events that occur, two that do not.
pub const LITERALS: u32 = 5;

/// The bit of a literal in the number of a product: the first literal has the highest. So of products with as
/// many literals the one that stands first in a report has the greatest number.
pub fn bit_of(literal: u32) -> u32 {
    16_u32.wrapping_shr(literal)
}

/// Stops unless an id is a terminal or a node of a family with a variable of at least `from`.
pub fn expect_family<L: Ledger>(
    rt: &impl Abort,
    table: &NodeTable,
    from: u32,
    id: NodeId,
    steps: &mut Steps<L>,
)
    ensures { stands Zbdd from table.now.nodes id.0 ≡ true }
{
    let nodes = table.len();
    if id.0 < TERMINALS {
        return;
    }
    assert!(rt; id.0 - TERMINALS < nodes);
    let node = table.node(id, steps);
    assert!(rt; node.kind == Kind::Zbdd);
    assert!(rt; from <= node.var);
}

/// The family of a literal with the sets of `hi`, and of the sets of `lo`.
fn joined<L: Ledger>(
    rt: &impl Abort,
    table: &mut NodeTable,
    literal: u32,
    hi: NodeId,
    lo: NodeId,
    steps: &mut Steps<L>,
) -> Result<NodeId, NodeError> {
    assert!(rt; literal < MAX_LITERAL_NUMBERS);
    expect_family(rt, table, literal + 1, hi, steps);
    expect_family(rt, table, literal + 1, lo, steps);
    table.zbdd_node(literal, hi, lo)
}

/// The family of the products over the last `left` literals whose bits are set in `members`.
pub fn small_family<L: Ledger>(
    rt: &impl Abort,
    table: &mut NodeTable,
    left: u32,
    members: u32,
    steps: &mut Steps<L>,
) -> Result<NodeId, NodeError> {
    if left == 0 {
        return Ok(if members & 1 == 1 {
            NodeId::UNIT
        } else {
            NodeId::EMPTY
        });
    }
    let literal = LITERALS.wrapping_sub(left);
    let with = members.wrapping_shr(bit_of(literal));
    let hi = small_family(rt, table, left - 1, with, steps)?;
    let lo = small_family(rt, table, left - 1, members, steps)?;
    joined(rt, table, literal, hi, lo, steps)
}

/// The family of one product of so many literals, every second one of an event that does not occur.
pub fn long_family<L: Ledger>(
    rt: &impl Abort,
    table: &mut NodeTable,
    literals: u32,
    steps: &mut Steps<L>,
) -> Result<NodeId, NodeError> {
    let mut family = NodeId::UNIT;
    for rank in (0..literals).rev() {
        let literal = rank.wrapping_mul(2).wrapping_add(rank % 2);
        family = joined(rt, table, literal, family, NodeId::EMPTY, steps)?;
    }
    Ok(family)
}

/// Stops unless no member of the family has more than `limit` literals.
pub fn expect_order<L: Ledger>(
    rt: &impl Abort,
    table: &NodeTable,
    family: NodeId,
    limit: u8,
    steps: &mut Steps<L>,
)
    requires { stands Zbdd 0 table.now.nodes family.0 ≡ true }
    ensures { (set : List ℕ) → has table.now.nodes family.0 set ≡ true → length set ≤ limit }
{
    if family.is_terminal() {
        return;
    }
    let node = table.node(family, steps);
    assert!(rt; 0 < limit);
    expect_order(rt, table, node.hi, limit - 1, steps);
    expect_order(rt, table, node.lo, limit, steps);
}
