//! The preparation of a target: the ranks of its events, and its truth as a shared binary graph.
#![tactic(auto)]

mod builder;
mod connectives;
mod counting;
mod event_index;
mod events;
mod lowering;
mod pairs;
mod paths;
mod preparing;
mod ranking;
mod states;

pub use event_index::EventIndex;
pub use preparing::{prepare, prepare_by_index};
pub use ranking::{RankError, rank, rank_by_index};
