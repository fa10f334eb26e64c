//! The products of a family, one after another in the order of a report, and their bounds and totals. No
//! call takes memory.
#![tactic(auto)]

mod bounds;
mod lister;
mod listing;
mod partial;
mod product;
mod rule;
mod totals;
mod walk;

pub use bounds::bound;
pub use lister::Lister;
pub use listing::Listing;
pub use partial::Bounds;
pub use product::common_length;
pub use rule::Rule;
pub use totals::Totals;
