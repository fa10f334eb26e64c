//! The lines of a report, and the line that tells a fault of a model. No call takes memory.
#![tactic(auto)]

mod error;
mod faults;
mod head;
mod intervals;
mod line;
mod lines;
mod names;
mod pieces;
mod products;
mod targets;
mod totals;
mod units;

pub use error::WriteFault;
pub use faults::write_fault;
pub use head::write_head;
pub use intervals::put_interval;
pub use lines::ProductLines;
pub use names::put_ranked;
pub use pieces::put_all;
pub use products::write_product;
pub use targets::write_target;
pub use totals::write_totals;
