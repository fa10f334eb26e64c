ghost use Rattle.std.specs.Prelude.{◌≡◌, ◌<◌, true, reverse, length, IfOk, IfSome, OnOk};
ghost use Rattle.psa_graph.specs.Truths.{literal_truth, truth_at, node_truth, IsNodeBehind};
ghost use Rattle.psa_prep.specs.Nodes.{nodes_of, joins, IsBuilt, Placed, JoinsAt, Joined, known_of, Remembers, with_more, IsBlank};
ghost use Rattle.psa_prep.specs.Places.{IsAdded};

use crate::pairs::{Pair, Signs};
use indexmap::{IndexMap, IndexSet};
use psa_graph::GraphNode;
use psa_text::OutOfMemory;
use std::alloc::Global;

/// The place of the node that is false at every set.
pub const FALSE: u64 = 0;

/// The place of the node that is true at every set.
pub const TRUE: u64 = 1;

/// What was prepared: a gate or a collected formula, under a list of house states by its number.
#[derive(Clone, Copy, Debug, PartialEq, Eq, Hash)]
pub enum Prepared {
    Gate { id: u32, state: u64 },
    Formula { id: u32, state: u64 },
}

/// The nodes for what was prepared, and for which signs there are any.
#[derive(Clone, Copy)]
pub struct Known {
    pub signs: Signs,
    pub pair: Pair,
}

impl Known {
    /// The same, with nodes for more signs.
    pub fn with(self, signs: Signs, pair: Pair) -> Known
        ensures { result ≡ with_more self signs pair }
    {
        Known {
            signs: Signs {
                yes: self.signs.yes || signs.yes,
                no: self.signs.no || signs.no,
            },
            pair: Pair {
                yes: if signs.yes { pair.yes } else { self.pair.yes },
                no: if signs.no { pair.no } else { self.pair.no },
            },
        }
    }
}

/// A graph while it is made: each node once, and the places of what was prepared.
/// The first two nodes are the constants.
#[derive(Drop)]
pub struct Builder {
    pub nodes: IndexSet<GraphNode>,
    pub memo: IndexMap<Prepared, Known>,
    /// The number of ranks.
    pub width: u32,
}

/// Adds the node where it is not in the set, by one look-up.
fn add(nodes: &mut IndexSet<GraphNode>, node: GraphNode) -> Result<u64, OutOfMemory>
    ensures { IfOk result (IsAdded node (reverse nodes.old.keys) (reverse nodes.new.keys)) }
{
    let (index, _) = nodes.insert_full(node)?;
    let _small = nodes.len();
    Ok(index as u64)
}

/// The place of a conjunction or disjunction that needs no node of its own.
fn known_join(both: bool, left: u64, right: u64) -> Option<u64>
    ensures { IfSome result (JoinsAt both left right) }
{
    let (neutral, absorbing) = if both { (TRUE, FALSE) } else { (FALSE, TRUE) };
    if left == absorbing {
        return Some(left);
    }
    if right == absorbing {
        return Some(right);
    }
    if left == neutral {
        return Some(right);
    }
    if right == neutral {
        return Some(left);
    }
    if left == right {
        return Some(left);
    }
    None
}

/// The node of a conjunction or disjunction, its places in order.
fn join_node(both: bool, left: u64, right: u64) -> GraphNode
    ensures { Joined both left right result }
{
    let (low, high) = if left < right {
        (left, right)
    } else {
        (right, left)
    };
    if both {
        GraphNode::And(low, high)
    } else {
        GraphNode::Or(low, high)
    }
}

impl Builder {
    /// A graph with the two constants alone.
    pub fn new(alloc: Global, width: u32) -> Result<Builder, OutOfMemory>
        ensures { IfOk result (IsBlank width) }
    {
        let mut nodes = IndexSet::new(alloc);
        add(&mut nodes, GraphNode::Constant(false))?;
        add(&mut nodes, GraphNode::Constant(true))?;
        Ok(Builder {
            nodes,
            memo: IndexMap::new(alloc),
            width,
        })
    }

    /// The place of a node that names places before it.
    fn place(&mut self, node: GraphNode) -> Result<u64, OutOfMemory>
        requires built { IsBuilt self.old }
        requires behind { IsNodeBehind self.old.width (length (nodes_of self.old)) node }
        ensures { IfOk result (Placed true
            (node_truth (truth_at (nodes_of self.old)) node) self.old self.new) }
    {
        add(&mut self.nodes, node)
    }

    /// The literal of a rank, where it is asked for.
    pub fn literal(&mut self, asked: bool, rank: u32, occurs: bool) -> Result<u64, OutOfMemory>
        requires built { IsBuilt self.old }
        requires rank { rank < self.old.width }
        ensures { IfOk result (Placed asked
            (literal_truth rank occurs) self.old self.new) }
    {
        if asked {
            self.place(GraphNode::Literal { rank, occurs })
        } else {
            Ok(FALSE)
        }
    }

    /// What is known of a subject: no sign where it was not prepared.
    pub fn recall(&self, subject: &Prepared) -> Known
        ensures { result ≡ known_of self.now subject.now }
    {
        match self.memo.get(subject) {
            Some(known) => *known,
            None => Known {
                signs: Signs::none(),
                pair: Pair::constant(false),
            },
        }
    }

    /// Remembers what is known of a subject.
    pub fn remember(&mut self, subject: Prepared, known: Known) -> Result<(), OutOfMemory>
        ensures { OnOk result (Remembers subject known self.old self.new) }
    {
        self.memo.insert(subject, known)?;
        Ok(())
    }

    /// The conjunction or disjunction of the nodes at two places, where it is asked for.
    /// Constants are taken out.
    pub fn join(
        &mut self,
        asked: bool,
        both: bool,
        left: u64,
        right: u64,
    ) -> Result<u64, OutOfMemory>
        requires built { IsBuilt self.old }
        requires left { left < length (nodes_of self.old) }
        requires right { right < length (nodes_of self.old) }
        ensures { IfOk result (Placed asked
            (λ s. joins both (truth_at (nodes_of self.old) left s)
            (truth_at (nodes_of self.old) right s)) self.old self.new) }
    {
        if !asked {
            return Ok(FALSE);
        }
        match known_join(both, left, right) {
            Some(place) => Ok(place),
            None => self.place(join_node(both, left, right)),
        }
    }
}
