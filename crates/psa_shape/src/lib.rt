//! The check of shape: the first fault of the elements of a model's files, by the element table.
#![tactic(auto)]

mod attributes;
mod checks;
mod contents;
mod elements;
mod rows;
mod rules;
mod table;
mod values;

pub use checks::check_shape;
