/// Definitions that share name spaces; gates, basic events and house events are one family.
#[derive(Clone, Copy, Debug, PartialEq, Eq, Hash)]
pub enum Family {
    Events,
    Parameters,
    FaultTrees,
    Components,
    Groups,
    EventTrees,
    InitiatingEvents,
    FunctionalEvents,
    Sequences,
    Branches,
    Rules,
}

/// Where a name of a family stands.
#[derive(Clone, Copy, Debug, PartialEq, Eq, Hash)]
pub enum Scope {
    /// In the whole model, where `within` is 0.
    Whole,
    /// Directly in the container of the number `within`.
    Inside,
    /// Among what groups define, where `within` is 0.
    Grouped,
}

/// A name of a family in a scope.
#[derive(Clone, Copy, Debug, PartialEq, Eq, Hash)]
pub struct Key<'a> {
    pub scope: Scope,
    pub family: Family,
    pub within: u32,
    pub name: &'a [u8],
}
