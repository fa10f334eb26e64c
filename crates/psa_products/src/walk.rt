ghost use Rattle.std.specs.Prelude.{◌≡◌, ◌↔◌, ◌<◌, ◌≤◌, ◌+◌, ◌-◌, true, false, [], ◌∷◌, IsTrue, IfSome, IfNone};
ghost use Rattle.psa_nodes.specs.declared.node.Kind.TheVariants.{Zbdd};
ghost use Rattle.psa_nodes.specs.Readings.{node_at, has, stands};
ghost use Rattle.psa_nodes.specs.Sizes.{HasMember};
ghost use Rattle.psa_nodes.specs.Table.{IsTable};
ghost use Rattle.psa_model.specs.Literals.{literals_of};
ghost use Rattle.psa_products.specs.Members.{sized, passes};
ghost use Rattle.psa_products.specs.Walks.{to_come, steps_up, IsWalk};

use crate::product::literal_with;
use arrayvec::ArrayVec;
use psa_model::{MAX_ORDER, Product};
use psa_nodes::{Node, NodeId, NodeTable, Steps};
use std::sync::ledger::Ledger;

/// A walk through the members of a family: for each number of literals from 0 to `limit` a pass through the diagram,
/// the side with the literal first. A pass enters only sides that hold a member of the right size.
#[derive(Drop)]
pub(crate) struct Walk<'a> {
    table: &'a NodeTable,
    root: NodeId,
    limit: u8,
    /// The nodes whose literal was taken, from the root on.
    taken: ArrayVec<Node, MAX_ORDER>,
    /// Their literals.
    product: Product,
    /// How many literals are still to be taken in this pass.
    left: u8,
    /// The family whose members of `left` literals come next.
    at: NodeId,
}

/// Whether a family has a member of `size` literals.
fn has_member<L: Ledger>(table: &NodeTable, family: NodeId, size: u8, steps: &mut Steps<L>) -> bool
    requires family { stands Zbdd 0 table.now.nodes family.0 ≡ true }
    requires size { size < 64 }
    ensures member { IsTrue result ↔ HasMember (has table.now.nodes family.0) size }
    ensures table { IsTable table.now }
{
    table.sizes(family, steps) >> size & 1 == 1
}

impl<'a> Walk<'a> {
    /// A walk through the members of at most `limit` literals.
    pub(crate) fn new(table: &'a NodeTable, root: NodeId, limit: u8) -> Walk<'a>
        requires root { stands Zbdd 0 table.now.nodes root.0 ≡ true }
        requires limit { limit ≤ MAX_ORDER }
        ensures walk { IsWalk result }
        ensures table { IsTable table.now }
        ensures to_come { to_come result ≡ passes table.now.nodes root.0 0 (limit + 1) }
    {
        table.check();
        Walk {
            table,
            root,
            limit,
            taken: ArrayVec::new(),
            product: Product::new(),
            left: 0,
            at: root,
        }
    }

    /// Whether the low side has no member that is to come, so that the walk takes the literal of the node at `at`.
    fn takes<L: Ledger>(&self, node: &Node, steps: &mut Steps<L>) -> bool
        requires hi { stands Zbdd 0 self.now.table.now.nodes node.now.hi.0 ≡ true }
        requires left { self.now.left < 64 }
        ensures yes { IsTrue result → (0 < self.now.left) × HasMember (has self.now.table.now.nodes node.now.hi.0) (self.now.left - 1) }
        ensures no { result ≡ false → 0 < self.now.left → HasMember (has self.now.table.now.nodes node.now.hi.0) (self.now.left - 1) → ⊥ }
    {
        if self.left == 0 {
            return false;
        }
        has_member(self.table, node.hi, self.left - 1, steps)
    }

    /// Goes one node down, where the family at `at` has a member to come and is no terminal.
    fn step_down<L: Ledger>(&mut self, steps: &mut Steps<L>)
        requires walk { IsWalk self.old }
        requires member { HasMember (has self.old.table.now.nodes self.old.at.0) self.old.left }
        requires inner { self.old.at.0 ≡ 1 → ⊥ }
        ensures walk { IsWalk self.new }
        ensures member { HasMember (has self.new.table.now.nodes self.new.at.0) self.new.left }
        ensures same { to_come self.new ≡ to_come self.old }
        ensures lower { self.new.at.0 < self.old.at.0 }
    {
        let node = self.table.node(self.at, steps);
        if self.takes(&node, steps) {
            self.taken.push(node);
            self.product.push(literal_with(node.var));
            self.left -= 1;
            self.at = node.hi;
        } else {
            self.at = node.lo;
        }
    }

    /// Goes down to the end of the first member to come.
    fn descend<L: Ledger>(&mut self, steps: &mut Steps<L>)
        requires walk { IsWalk self.old }
        requires member { HasMember (has self.old.table.now.nodes self.old.at.0) self.old.left }
        ensures walk { IsWalk self.new }
        ensures same { to_come self.new ≡ to_come self.old }
        ensures end { (self.new.at.0 ≡ 1) × (self.new.left ≡ 0) }
    {
        while self.at.0 != NodeId::UNIT.0 {
            self.step_down(steps);
        }
    }

    /// Goes on where no member of the family at `at` is to come: to the low side of the node taken last, or to the
    /// next pass; false after the last pass.
    fn step_up(&mut self) -> bool
        requires walk { IsWalk self.old }
        requires none { sized self.old.table.now.nodes self.old.at.0 self.old.left ≡ [] }
        ensures walk { IsWalk self.new }
        ensures same { to_come self.new ≡ to_come self.old }
        ensures falls { IsTrue result → steps_up self.new < steps_up self.old }
        ensures end { result ≡ false → to_come self.new ≡ [] }
    {
        if let Some(node) = self.taken.pop() {
            self.product.pop();
            self.left += 1;
            self.at = node.lo;
            return true;
        }
        if self.left == self.limit {
            return false;
        }
        self.left += 1;
        self.at = self.root;
        true
    }

    /// Goes up to a family with a member to come; false where none is.
    fn rise<L: Ledger>(&mut self, steps: &mut Steps<L>) -> bool
        requires walk { IsWalk self.old }
        ensures walk { IsWalk self.new }
        ensures same { to_come self.new ≡ to_come self.old }
        ensures member { IsTrue result → HasMember (has self.new.table.now.nodes self.new.at.0) self.new.left }
        ensures end { result ≡ false → to_come self.new ≡ [] }
    {
        while !has_member(self.table, self.at, self.left, steps) {
            if !self.step_up() {
                return false;
            }
        }
        true
    }

    /// The literals of the member given last.
    pub(crate) fn product(&self) -> &Product
        ensures { result.now ≡ self.now.product }
    {
        &self.product
    }

    /// Goes to the next member, whose literals are those taken; false where none is left.
    pub(crate) fn advance<L: Ledger>(&mut self, steps: &mut Steps<L>) -> bool
        requires walk { IsWalk self.old }
        ensures walk { IsWalk self.new }
        ensures some { IsTrue result →
            to_come self.old ≡ literals_of self.new.product.items ∷ to_come self.new }
        ensures none { result ≡ false → (to_come self.old ≡ []) × (to_come self.new ≡ []) }
    {
        if !self.rise(steps) {
            return false;
        }
        self.descend(steps);
        self.at = NodeId::EMPTY;
        true
    }
}
