//! The sections of a report: the products of each target in the run's node table, and the section's text.
#![tactic(auto)]

mod products;
mod report;
mod section;

pub use products::products_of_target;
pub use report::{ReportError, write_report};
pub use section::{counted_bound, least_end, product_bound, reaches, write_section};
