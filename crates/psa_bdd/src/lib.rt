//! Binary decision diagrams over the shared node table: conjunction and disjunction (Bryant's apply, with
//! remembered results), and the diagram of a graph.
#![tactic(auto)]

mod building;
mod combine;
mod connective;
mod sides;

pub use building::build;
pub use combine::{and, or};
