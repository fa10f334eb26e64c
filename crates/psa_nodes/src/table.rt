ghost use Rattle.std.specs.Prelude.{◌≡◌, ◌≢◌, ◌⊎◌, ◌+◌, ◌++◌, ◌∷◌, ◌↔◌, true, [], length, reverse, IsTrue, IsSome, IfSome, IfNone, IfOk, IfErr, OnOk, OnErr};
ghost use Rattle.psa_logic.specs.Sets.{Has};
ghost use Rattle.psa_nodes.specs.Readings.{node_at, stands};
ghost use Rattle.psa_nodes.specs.Nodes.{IsNew, IsReduced};
ghost use Rattle.psa_nodes.specs.Readings.{has, node_reading};
ghost use Rattle.psa_nodes.specs.Sizes.{AreSized, IsSizedAs, TellsSizes};
ghost use Rattle.psa_nodes.specs.Table.{table_of, IsRight, Lacks, IsTable, MakesNode};

use crate::node::{Kind, MemoKey, Node, NodeError, NodeId, TERMINALS};
use crate::steps::Steps;
use indexmap::{IndexMap, IndexSet};
use std::alloc::{AllocError, Global};
use std::marker::Model;
use std::sync::ledger::Ledger;

/// The nodes, each triple of kind, variable and children once, and the remembered results of operations.
/// Contracts see the nodes newest first, the entries oldest first, the limit on the number of nodes, and
/// the triple that was refused last.
#[derive(Drop)]
pub struct NodeTable {
    nodes: IndexSet<Node>,
    /// Of each node of a zero-suppressed diagram the sizes of its members, in the order of the nodes.
    sizes: Vec<u64>,
    memo: IndexMap<MemoKey, NodeId>,
    limit: Option<u64>,
    refused: Option<Node>,
}

impl Model for NodeTable {
    ghost use Rattle.std.specs.Prelude.{reverse};
    ghost use Rattle.psa_nodes.specs.Table.{Table, IsStored, table_of};

    ghost Value = { Table };

    ghost view = { λ t. table_of (reverse t.nodes.keys) t.memo.entries t.limit t.refused };

    ghost invariant = { λ t.
        IsStored (reverse t.sizes.items)
        (table_of (reverse t.nodes.keys) t.memo.entries t.limit t.refused) };
}

/// The node's place in the set, if it is there.
fn place(nodes: &IndexSet<Node>, node: Node) -> Option<NodeId>
    ensures found { IfSome result (λ id. node_at (reverse nodes.now.keys) id.0 ≡ Some node) }
    ensures absent { IfNone result (IsNew (reverse nodes.now.keys) node) }
{
    let _small = nodes.len();
    let (index, _) = nodes.get_full(&node)?;
    Some(NodeId(index as u64 + TERMINALS))
}

/// Adds the node where it is not in the set, by one look-up, with the sizes of its members.
fn add(
    nodes: &mut IndexSet<Node>,
    sizes: &mut Vec<u64>,
    node: Node,
    of_members: u64,
) -> Result<NodeId, NodeError>
    ensures at { IfOk result (λ id. node_at (reverse nodes.new.keys) id.0 ≡ Some node) }
    ensures added { IfOk result (λ _. (reverse nodes.new.keys ≡ reverse nodes.old.keys)
        ⊎ ((reverse nodes.new.keys ≡ node ∷ reverse nodes.old.keys)
        × IsNew (reverse nodes.old.keys) node)) }
    ensures sized { AreSized (reverse nodes.old.keys) (reverse sizes.old.items)
        → IsSizedAs node.kind (node_reading (reverse nodes.old.keys) node).as_family of_members
        → AreSized (reverse nodes.new.keys) (reverse sizes.new.items) }
    ensures err { OnErr result ((reverse nodes.new.keys ≡ reverse nodes.old.keys)
        × IsNew (reverse nodes.old.keys) node) }
    ensures memory { IfErr result (λ e. e ≡ NodeError.Memory) }
{
    let Ok((index, is_new)) = nodes.insert_full(node) else {
        return Err(NodeError::Memory);
    };
    let _small = nodes.len();
    let id = NodeId(index as u64 + TERMINALS);
    if !is_new {
        return Ok(id);
    }
    match sizes.push(of_members) {
        Ok(()) => Ok(id),
        Err(_) => {
            nodes.pop();
            Err(NodeError::Memory)
        }
    }
}

impl NodeTable {
    /// A table with no nodes, no entries, no limit and no refused triple.
    pub fn new(alloc: Global) -> NodeTable
        ensures { result ≡ table_of [] [] None None }
    {
        NodeTable {
            nodes: IndexSet::new(alloc),
            sizes: Vec::new(alloc),
            memo: IndexMap::new(alloc),
            limit: None,
            refused: None,
        }
    }

    /// Drops all nodes and entries and the refused triple, and sets the limit on the number of nodes.
    /// The memory is kept for the nodes to come.
    pub fn restart(&mut self, limit: Option<u64>)
        ensures { self.new ≡ table_of [] [] limit None }
    {
        self.nodes.clear();
        self.sizes.clear();
        self.memo.clear();
        self.limit = limit;
        self.refused = None;
    }

    /// The number of nodes, terminals not counted.
    pub fn len(&self) -> u64
        ensures len { result ≡ length self.now.nodes }
        ensures table { IsTable self.now }
    {
        self.nodes.len() as u64
    }

    /// Whether there are no nodes but the terminals.
    pub fn is_empty(&self) -> bool
        ensures { IsTrue result ↔ (length self.now.nodes ≡ 0) }
    {
        self.len() == 0
    }

    /// The number of remembered entries.
    pub fn entries(&self) -> u64
        ensures entries { result ≡ length self.now.entries }
        ensures table { IsTable self.now }
    {
        self.memo.len() as u64
    }

    /// The triple that was refused last, since the table was made or restarted.
    pub fn refused(&self) -> Option<Node>
        ensures refused { result ≡ self.now.refused }
        ensures table { IsTable self.now }
    {
        self.refused
    }

    /// The node at `id`. Each call counts one turn on `steps`.
    pub fn node<L: Ledger>(&self, id: NodeId, steps: &mut Steps<L>) -> Node
        requires { IsSome (node_at self.now.nodes id.0) }
        ensures node { node_at self.now.nodes id.0 ≡ Some result }
        ensures turn { steps.new ≡ steps.old + 1 }
        ensures table { IsTable self.now }
    {
        steps.tick();
        match self.nodes.get_index((id.0 - TERMINALS) as usize) {
            Some(node) => *node,
            None => unreachable!(),
        }
    }

    /// How many literals the members of a family have: bit k is set exactly where a member has k literals, for
    /// each k below 64. Each call counts one turn on `steps`.
    pub fn sizes<L: Ledger>(&self, id: NodeId, steps: &mut Steps<L>) -> u64
        requires { stands Kind.Zbdd 0 self.now.nodes id.0 ≡ true }
        ensures sizes { TellsSizes (has self.now.nodes id.0) result }
        ensures turn { steps.new ≡ steps.old + 1 }
        ensures table { IsTable self.now }
    {
        steps.tick();
        self.member_sizes(id)
    }

    /// The sizes of the members of a family, with no turn.
    fn member_sizes(&self, id: NodeId) -> u64
        requires { stands Kind.Zbdd 0 self.now.nodes id.0 ≡ true }
        ensures sizes { TellsSizes (has self.now.nodes id.0) result }
        ensures table { IsTable self.now }
    {
        let sizes = &self.sizes;
        if id.0 < TERMINALS {
            // no member, or the empty set
            return id.0;
        }
        sizes[(id.0 - TERMINALS) as usize]
    }

    /// The sizes of the members of a triple's family: those of `hi` with one literal more, and those of `lo`.
    fn node_sizes(&self, node: Node) -> u64
        requires hi { stands node.kind (node.var + 1) self.now.nodes node.hi.0 ≡ true }
        requires lo { stands node.kind (node.var + 1) self.now.nodes node.lo.0 ≡ true }
        ensures { IsSizedAs node.kind (node_reading self.now.nodes node).as_family result }
    {
        self.check();
        match node.kind {
            Kind::Bdd => 0,
            Kind::Zbdd => self.member_sizes(node.hi) << 1 | self.member_sizes(node.lo),
        }
    }

    /// Tells that the table is well formed, and does nothing.
    pub fn check(&self)
        ensures { IsTable self.now }
    {
        let _nodes = &self.nodes;
    }

    /// Whether as many nodes stand as the limit allows.
    fn is_full(&self) -> bool
        ensures { IsTrue result ↔ (self.now.limit ≡ Some (length self.now.nodes)) }
    {
        match self.limit {
            Some(limit) => limit <= self.nodes.len() as u64,
            None => false,
        }
    }

    /// The node of this triple, which is reduced.
    fn enter(&mut self, node: Node) -> Result<NodeId, NodeError>
        requires hi { stands node.kind (node.var + 1) self.old.nodes node.hi.0 ≡ true }
        requires lo { stands node.kind (node.var + 1) self.old.nodes node.lo.0 ≡ true }
        requires reduced { IsReduced node.kind node.hi.0 node.lo.0 }
        ensures made { MakesNode node self.old self.new result }
        ensures table { IsTable self.new }
    {
        if !self.is_full() {
            let sizes = self.node_sizes(node);
            return add(&mut self.nodes, &mut self.sizes, node, sizes);
        }
        match place(&self.nodes, node) {
            Some(id) => Ok(id),
            None => {
                self.refused = Some(node);
                Err(NodeError::Full)
            }
        }
    }

    /// The binary decision diagram that reads as `hi` where `var` is in the set, else as `lo` (Bryant).
    /// Full exactly where a new node is needed and the table has as many as its limit.
    pub fn bdd_node(&mut self, var: u32, hi: NodeId, lo: NodeId) -> Result<NodeId, NodeError>
        requires hi { stands Kind.Bdd (var + 1) self.old.nodes hi.0 ≡ true }
        requires lo { stands Kind.Bdd (var + 1) self.old.nodes lo.0 ≡ true }
        ensures made { MakesNode (record { kind = Kind.Bdd; var = var; hi = hi; lo = lo })
            self.old self.new result }
        ensures table { IsTable self.new }
    {
        self.check();
        if hi == lo {
            return Ok(lo);
        }
        self.enter(Node {
            kind: Kind::Bdd,
            var,
            hi,
            lo,
        })
    }

    /// The zero-suppressed diagram of the sets of `hi`, each with `var`, and the sets of `lo` (Minato).
    /// Full exactly where a new node is needed and the table has as many as its limit.
    pub fn zbdd_node(&mut self, var: u32, hi: NodeId, lo: NodeId) -> Result<NodeId, NodeError>
        requires hi { stands Kind.Zbdd (var + 1) self.old.nodes hi.0 ≡ true }
        requires lo { stands Kind.Zbdd (var + 1) self.old.nodes lo.0 ≡ true }
        ensures made { MakesNode (record { kind = Kind.Zbdd; var = var; hi = hi; lo = lo })
            self.old self.new result }
        ensures table { IsTable self.new }
    {
        self.check();
        if hi == NodeId::EMPTY {
            return Ok(lo);
        }
        self.enter(Node {
            kind: Kind::Zbdd,
            var,
            hi,
            lo,
        })
    }

    /// The remembered result of an operation; None exactly where the key is not there.
    pub fn remembered(&self, key: &MemoKey) -> Option<NodeId>
        ensures found { IfSome result (λ answer. Has self.now.entries (key.now, answer)) }
        ensures right { IfSome result (λ answer. IsRight self.now.nodes key.now answer) }
        ensures absent { IfNone result (Lacks self.now.entries key.now) }
        ensures table { IsTable self.now }
    {
        self.memo.get(key).copied()
    }

    /// Remembers the right result of an operation.
    pub fn remember(&mut self, key: MemoKey, answer: NodeId) -> Result<(), AllocError>
        requires right { IsRight self.old.nodes key answer }
        requires absent { Lacks self.old.entries key }
        ensures ok { OnOk result (self.new
            ≡ record self.old { entries = self.old.entries ++ (key, answer) ∷ [] }) }
        ensures err { OnErr result (self.new ≡ self.old) }
        ensures table { IsTable self.new }
    {
        self.memo.insert(key, answer)?;
        Ok(())
    }
}
