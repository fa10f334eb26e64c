//! Chains of references between definitions: which definition is the first that a chain leads back
//! to, and how deep each is. The definitions are numbers, from 0, and the graph is a list: at each
//! place what the definition there refers to.
#![tactic(auto)]

mod chain;
mod component;
mod cycles;
mod depth;
mod reference;
mod search;

pub use chain::{ChainFault, chain_fault};
pub use component::{Components, find_components};
pub use cycles::first_on_cycle;
pub use depth::{depths, first_deeper};
pub use reference::Reference;
