ghost use Rattle.std.specs.Prelude.{◌≡◌, IfSome, IfNone};
ghost use Rattle.psa_nodes.specs.Readings.{IsInner};
ghost use Rattle.psa_bdd.specs.Combined.{operation_of, dominant_of, neutral_of, key_of, IsTrivial};

use psa_nodes::{MemoKey, NodeId, Operation};

/// A connective of two truths.
#[derive(Clone, Copy)]
pub enum Connective {
    And,
    Or,
}

impl Connective {
    /// The operation by which the table remembers its results.
    fn operation(self) -> Operation
        ensures { result ≡ operation_of self }
    {
        match self {
            Connective::And => Operation::And,
            Connective::Or => Operation::Or,
        }
    }

    /// The terminal that decides the result alone.
    fn dominant(self) -> NodeId
        ensures { result ≡ dominant_of self }
    {
        match self {
            Connective::And => NodeId::FALSE,
            Connective::Or => NodeId::TRUE,
        }
    }

    /// The terminal that leaves the other operand as the result.
    fn neutral(self) -> NodeId
        ensures { result ≡ neutral_of self }
    {
        match self {
            Connective::And => NodeId::TRUE,
            Connective::Or => NodeId::FALSE,
        }
    }

    /// What the result is remembered by, the same for both orders of the operands.
    pub fn key(self, left: NodeId, right: NodeId) -> MemoKey
        ensures { result ≡ key_of self left right }
    {
        let operation = self.operation();
        if left.0 <= right.0 {
            MemoKey {
                operation,
                left,
                right,
                limit: MemoKey::NO_LIMIT,
            }
        } else {
            MemoKey {
                operation,
                left: right,
                right: left,
                limit: MemoKey::NO_LIMIT,
            }
        }
    }

    /// The result where an operand is a terminal or both are one node, whatever the table.
    pub fn trivial(self, left: NodeId, right: NodeId) -> Option<NodeId>
        ensures found { IfSome result (λ id. IsTrivial self left.0 right.0 id.0) }
        ensures inner { IfNone result (IsInner left.0 × IsInner right.0) }
    {
        let dominant = self.dominant();
        let neutral = self.neutral();
        if left == right {
            return Some(left);
        }
        if left == dominant {
            return Some(dominant);
        }
        if right == dominant {
            return Some(dominant);
        }
        if left == neutral {
            return Some(right);
        }
        if right == neutral {
            return Some(left);
        }
        None
    }
}
