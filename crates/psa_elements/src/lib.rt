//! The element table of the model format, and what it makes of the trees of files: the first fault of
//! shape, and the draft of what the elements say: definitions in specs/, laws and worked examples.
#![tactic(auto)]

mod error;
mod examples;
mod laws;
mod limits;

pub use error::ReadError;
pub use examples::{
    a_group_has_members_and_factors, attribute_faults_come_in_order, bounds_are_on_the_arguments,
    components_have_containers, conditionals_have_one_or_two_instructions, event_trees_hold_forks,
    names_have_no_dot, one_gate_has_three_definitions, roles_are_by_place, stray_if_is_unknown,
};
pub use laws::tags_are_apart;
pub use limits::{MAX_DIGITS, MAX_NAME};
