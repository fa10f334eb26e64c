//! Operations on families of sets over the shared node table: union (Minato), subset removal and difference,
//! minimal sets (Rauzy), short members and positive parts, by recursion with remembered results. The minimal cut
//! sets and the prime implicants stand on them.
#![tactic(auto)]

mod differences;
mod minimal;
mod positive;
mod short_members;
mod sides;
mod subset_removal;
mod unions;

pub use differences::difference;
pub use minimal::minimal_sets;
pub use positive::positive_part;
pub use short_members::within;
pub use sides::{Sides, split};
pub use subset_removal::without;
pub use unions::union;
