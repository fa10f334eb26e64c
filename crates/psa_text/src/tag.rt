use crate::{Attribute, Items, Text};

/// What a start tag or an empty tag says.
#[derive(Debug, Drop)]
pub struct Tag {
    pub name: Text,
    pub attributes: Items<Attribute>,
}
