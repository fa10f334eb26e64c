//! The expansion of common cause groups: the events of a model that occur or not by themselves.
#![tactic(auto)]

mod expansion;
mod subsets;

pub use expansion::expand;
