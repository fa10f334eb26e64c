//! Where names stand: the numbers of containers, and the first place of each name in each space.
#![tactic(auto)]

mod containers;
mod key;
mod places;

pub use containers::Containers;
pub use key::{Family, Key, Scope};
pub use places::Places;
