//! How a run ends, as definitions in specs/: the outcome of an input, from which target a node of the
//! run's table comes, what each status leaves, and what is loaded. Laws and worked examples.
#![tactic(auto)]

mod examples;
mod laws;
mod loaded;
mod status;

pub use examples::{
    a_certain_top_event_is_unity, a_stray_if_is_the_first_fault,
    an_event_without_value_is_a_fault_of_quantities, events_of_a_group_by_rank, the_sample_of_two,
};
pub use laws::{
    analyses_are_by_their_settings, fault_lines_are_determined, inputs_have_one_outcome,
    inputs_have_one_report, intervals_of_a_report_hold_exact_values, origins_pass_to_children,
};
pub use loaded::{LoadError, Loaded};
pub use status::Status;
