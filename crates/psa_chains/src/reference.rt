/// A reference of a definition to another.
#[derive(Clone, Copy, Debug, PartialEq, Eq)]
pub struct Reference {
    /// How deep the reference stands in the definition, 1 where it is directly in it.
    pub level: u32,
    /// The place of the definition that is named.
    pub target: u32,
}
