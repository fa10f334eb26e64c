//! What the names of a draft stand for, and its first fault of names, of references and of groups.
#![tactic(auto)]

mod asked;
mod bodies;
mod duplicates;
mod families;
mod forks;
mod found;
mod grouped;
mod groups;
mod levels;
mod lookup;
mod members;
mod names;
mod notes;
mod numbers;
mod pass;
mod paths;
mod placed;
mod references;
mod search;
mod states;
mod table;

pub use found::find_names;
