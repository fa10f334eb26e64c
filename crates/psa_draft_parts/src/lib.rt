//! What elements inside definitions say: formulas, expressions, conditions, instructions and groups of a
//! draft.
#![tactic(auto)]

mod attributes;
mod conditions;
mod counting;
mod expressions;
mod formulas;
mod groups;
mod lists;
mod rows;
mod start;
mod steps;

pub use attributes::{is_private, own_name, place_of, reference, reference_by, text_at, value_at};
pub use counting::pass_over;
pub use expressions::first_expression;
pub use formulas::{formula_in, state_in};
pub use groups::group;
pub use lists::{keep_first, push_found};
pub use rows::{
    DefinitionRow, EndRow, Inside, PlainRow, definition_row, end_row, event_tree_row,
    instruction_row,
};
pub use start::{Around, Reader, StartTag};
pub use steps::{instruction, instructions};
