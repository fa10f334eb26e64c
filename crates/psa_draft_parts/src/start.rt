use psa_text::{Element, Items, Text};
use std::alloc::Global;

/// The walk over the elements of one file.
#[derive(Drop)]
pub struct Reader {
    pub alloc: Global,
    /// The number of elements that began before.
    pub number: u32,
}

/// What stands around an element.
#[derive(Drop)]
pub struct Around {
    /// The place of its file among the files.
    pub file: u32,
    /// The names of the containers around it, from the outside.
    pub container: Items<Text>,
    /// Whether a component around it is private.
    pub is_private: bool,
}

/// An element by itself, with what stands around it.
#[derive(Clone, Copy)]
pub struct StartTag<'a, 'e> {
    pub around: &'a Around,
    pub element: &'e Element,
    /// The number of elements of its file that begin before it.
    pub number: u32,
}
