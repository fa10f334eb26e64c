//! What the names of a draft stand for, the first fault of names, and the model of a draft without one:
//! definitions in specs/, laws and worked examples, and what is found of names.
#![tactic(auto)]

mod error;
mod examples;
mod found;
mod laws;

pub use error::CheckError;
pub use examples::{
    a_condition_names_a_functional_event, a_cycle_leads_over_two_files,
    a_gate_is_defined_elsewhere, a_group_defines_its_members, components_are_private,
    the_innermost_container_is_searched_first, the_model_of_a_condition,
};
pub use found::{Found, Sense};
pub use laws::{leads_is_a_chain, more_levels_change_nothing};
