use crate::{BranchId, FormulaId, FunctionalId, HouseId, InitiatingId, RuleId, SequenceId};
use psa_text::{Items, Text};

/// An instruction of an event tree.
#[derive(Drop)]
pub enum Instruction {
    /// A formula that the path collects.
    Collect(FormulaId),
    /// The state of a house event for the formulas collected after this on the same path.
    SetHouse(HouseId, bool),
    Block(Items<Instruction>),
    Rule(RuleId),
    /// One instruction where the test is true, and at most one where it is not.
    If(Test, Items<Instruction>, Items<Instruction>),
}

/// A test of the walk under way.
#[derive(Drop)]
pub enum Test {
    /// The walk is that of this initiating event.
    Initiating(InitiatingId),
    /// The last fork taken at a functional event of this name took the path of this state.
    Functional { name: Text, state: Text },
    All(Items<Test>),
    Any(Items<Test>),
    /// None of the tests, of which there is one.
    Not(Items<Test>),
}

/// Instructions, and where the walk goes after them.
#[derive(Drop)]
#[cycle(branch)]
pub struct Branch {
    pub instructions: Items<Instruction>,
    pub end: BranchEnd,
}

/// Where a walk goes behind instructions: over a fork at a functional event, to a sequence, or on at a
/// named branch.
#[derive(Drop)]
#[cycle(branch)]
pub enum BranchEnd {
    Fork(FunctionalId, Items<ForkPath>),
    Sequence(SequenceId),
    Branch(BranchId),
}

/// A path of a fork: the state of its functional event, and the branch taken.
#[derive(Drop)]
#[cycle(branch)]
pub struct ForkPath {
    pub state: Text,
    pub branch: Branch,
}
