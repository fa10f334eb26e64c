//! The shared binary graph of a target: conjunctions and disjunctions of literals, children first.
#![tactic(auto)]

mod graph;
mod marking;

pub use graph::{Graph, GraphNode};
pub use marking::needed_places;
