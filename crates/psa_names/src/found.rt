use psa_text::Items;

/// What a name stands for.
#[derive(Clone, Copy, Debug, PartialEq, Eq)]
pub enum Sense {
    /// The definition at this place of the draft.
    Definition(u32),
    /// The basic event with this number among those that groups define, in document order.
    OfGroup(u32),
}

/// What the names in a draft stand for, each found once.
#[derive(Drop)]
pub struct Found {
    /// For each reference in a definition, in document order of the definitions and of the elements in
    /// them: of a group first its members that are paths.
    pub references: Items<Sense>,
    /// For each member of a group, in document order.
    pub members: Items<Sense>,
}
