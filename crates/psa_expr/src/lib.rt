//! The interval of each event's quantity, at a mission time.
#![tactic(auto)]

mod counts;
mod error;
mod evaluation;
mod events;
mod groups;
mod operations;
mod parameters;
mod terms;

pub use error::ValueError;
pub use events::evaluate;
