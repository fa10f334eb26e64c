//! Tests of the products of families in the order of a report.
#![tactic(auto)]

#[cfg(test)]
mod families;
#[cfg(test)]
mod listings;
