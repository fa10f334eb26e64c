//! The report of a model, and again after each edit of a list: house events get other states, basic
//! events other probabilities.
#![tactic(auto)]

mod examples;
mod laws;
mod status;

pub use examples::{
    bad_lines, lines_of_bytes, members_and_quantities, met_house_events, states_of_lines,
    the_five_lines, words_that_are_asked,
};
pub use laws::{
    an_undone_edit_leaves_the_report, each_text_of_edits_has_one_text,
    edited_models_have_an_analysis, edits_keep_what_is_loaded, probabilities_change_no_truth,
    unmet_house_events_change_no_truth,
};
pub use status::WhatIfStatus;
