use crate::{Items, Text};

/// The tree of a model file: one element, the root.
#[derive(Debug, Drop)]
pub struct Document {
    pub root: Element,
}

/// An element with its attributes and the elements directly in it, both in document order.
/// `line` is the line of its tag's first byte, counted from 1.
#[derive(Debug, Drop)]
pub struct Element {
    pub tag: Text,
    pub line: u32,
    pub attributes: Items<Attribute>,
    pub children: Items<Element>,
}

/// An attribute of an element, with its value as XML 1.0 normalizes it.
#[derive(Debug, Drop)]
pub struct Attribute {
    pub name: Text,
    pub value: Text,
}
