// Texts, lists, and the element tree of a model file.
#![tactic(auto)]

mod builder;
pub mod laws;
pub mod limits;
mod scanner;
mod tag;
mod text;
mod tree;

pub use scanner::Scanner;
pub use scanner::error::{TextError, TextFault, TextKind};
pub use sqlite_items::Items;
pub use std::alloc::AllocError as OutOfMemory;
pub use text::Text;
pub use tree::{Attribute, Document, Element};
