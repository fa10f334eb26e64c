use sqlite_items::Items;

/// A node of a graph. The places of a conjunction or disjunction stand before its own.
#[derive(Clone, Copy, Debug, PartialEq, Eq, Hash)]
pub enum GraphNode {
    /// True at every set of events, or at none.
    Constant(bool),
    /// True where the event with this rank occurs, or where it does not.
    Literal { rank: u32, occurs: bool },
    /// True where the nodes at both places are.
    And(u64, u64),
    /// True where the node at one of the places is.
    Or(u64, u64),
}

/// A truth of sets of ranked events as a shared graph.
#[derive(Drop)]
pub struct Graph {
    /// The nodes, children first.
    pub nodes: Items<GraphNode>,
    /// The place of the node whose truth is the graph's.
    pub root: u64,
    /// The number of ranks; those of literals are below it.
    pub width: u32,
}
