ghost use Rattle.std.specs.Prelude.{◌≡◌, ◌↔◌, IsTrue};
ghost use Rattle.psa_nodes.specs.Readings.{IsTerminal};

use std::alloc::{AllocError, AllocFailed};

/// The number of terminals. Their ids come before those of all nodes.
pub const TERMINALS: u64 = 2;

/// The variables of binary decision diagrams, ranks of events, are below this. The operations on diagrams
/// recurse at most as deep as their operands have variables.
pub const MAX_RANKS: u32 = 2_048;

/// The variables of zero-suppressed diagrams, literal numbers, are below this: two for each rank.
pub const MAX_LITERAL_NUMBERS: u32 = 4_096;

/// The name of a node in its table. The first two are the terminals: of binary decision diagrams false and
/// true, of zero-suppressed ones the empty family and the family of the empty set alone.
#[derive(Clone, Copy, Debug, Default, PartialEq, Eq, Hash)]
pub struct NodeId(pub u64);

impl NodeId {
    /// The decision diagram that is false at every set.
    pub const FALSE: NodeId = NodeId(0);

    /// The decision diagram that is true at every set.
    pub const TRUE: NodeId = NodeId(1);

    /// The family of no sets.
    pub const EMPTY: NodeId = NodeId(0);

    /// The family of the empty set alone.
    pub const UNIT: NodeId = NodeId(1);

    /// Whether this is one of the two terminals.
    pub fn is_terminal(self) -> bool
        ensures { IsTrue result ↔ IsTerminal self.0 }
    {
        self.0 < TERMINALS
    }
}

/// The kind of a diagram: a binary decision diagram (Bryant) is a truth, a zero-suppressed one (Minato) a
/// family of sets.
#[derive(Clone, Copy, Debug, Default, PartialEq, Eq, Hash)]
pub enum Kind {
    #[default]
    Bdd,
    Zbdd,
}

/// A node with its children: `hi` where the variable is in the set, `lo` where it is not.
/// The variable of a binary decision diagram is a rank. That of a zero-suppressed diagram is a literal number:
/// twice the rank for an event that occurs, one more for one that does not.
#[derive(Clone, Copy, Debug, Default, PartialEq, Eq, Hash)]
pub struct Node {
    pub kind: Kind,
    pub var: u32,
    pub hi: NodeId,
    pub lo: NodeId,
}

/// The operations whose results the table remembers.
#[derive(Clone, Copy, Debug, PartialEq, Eq, Hash)]
pub enum Operation {
    /// Conjunction of two truths.
    And,
    /// Disjunction of two truths.
    Or,
    /// The members of either family.
    Union,
    /// The consistent unions of a member of each family, with at most `limit` literals of occurring events.
    Product,
    /// The members of the left family that include no member of the right one.
    Without,
    /// Each member with its literals of events that do not occur dropped.
    Positive,
    /// The members that include no other member.
    MinimalSets,
    /// The minimal cut sets of a truth with at most `limit` events.
    MinimalOfBdd,
    /// The prime implicants of a truth with at most `limit` literals.
    Primes,
}

/// What a result is remembered by. An operation of one node has `right` `NO_RIGHT`, one without a limit
/// `limit` `NO_LIMIT`.
#[derive(Clone, Copy, Debug, PartialEq, Eq, Hash)]
pub struct MemoKey {
    pub operation: Operation,
    pub left: NodeId,
    pub right: NodeId,
    pub limit: u8,
}

impl MemoKey {
    /// The right operand of an operation of one node.
    pub const NO_RIGHT: NodeId = NodeId(0);

    /// The limit of an operation without one.
    pub const NO_LIMIT: u8 = 0;
}

/// Why a node was not made.
#[derive(Clone, Copy, Debug, PartialEq, Eq, thiserror::Error)]
pub enum NodeError {
    /// A new node was needed, and the table has as many as its limit.
    #[error("node limit")]
    Full,
    /// Memory was wanted.
    #[error("out of memory")]
    Memory,
}

impl From<AllocError> for NodeError {
    ghost use Rattle.psa_nodes.specs.declared.node.NodeError.TheVariants.{Memory};

    ghost from_gives = { λ _ e. e ≡ Memory };

    fn from(_error: AllocError) -> NodeError {
        NodeError::Memory
    }
}

impl<T: Drop> From<AllocFailed<T>> for NodeError {
    ghost use Rattle.psa_nodes.specs.declared.node.NodeError.TheVariants.{Memory};

    ghost from_gives = { λ _ e. e ≡ Memory };

    fn from(_error: AllocFailed<T>) -> NodeError {
        NodeError::Memory
    }
}
