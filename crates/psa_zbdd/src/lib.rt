//! Minimal cut sets over the shared node table: of a decision diagram (Rauzy), and straight from a graph, by the
//! product of families (Minato).
#![tactic(auto)]

mod clearing;
mod cut_sets;
mod graph_families;
mod products;

pub use cut_sets::minimal_of_bdd;
pub use graph_families::minimal_of_graph;
pub use products::product;
