//! Which events carry the rare-event sum: for each event of a target, in how many of the kept products it
//! stands, and the sum of their bounds.
#![tactic(auto)]

mod run;
mod section;
mod share;
mod text;

pub use run::share_words;
pub use section::write_shares;
