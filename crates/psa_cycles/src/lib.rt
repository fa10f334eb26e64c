//! The checks of cycles and depths of a draft, over what was found of its names: no definition
//! reaches itself by its references, and none is deeper than `MAX_DEPTH`.
#![tactic(auto)]

mod bodies;
mod check;
mod definitions;
mod graph;
mod instructions;
mod levels;

pub use check::check_chains;
