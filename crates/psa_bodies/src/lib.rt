//! What each definition of a draft becomes in a model: the numbers that names are replaced by, and what is
//! made with them of expressions, formulas, instructions and branches, and of a whole definition.
#![tactic(auto)]

mod branches;
mod collected;
mod conditions;
mod contents;
mod context;
mod counting;
mod cursor;
mod definitions;
mod expressions;
mod formulas;
mod instructions;
mod joining;
mod names;
mod numbering;
mod numbers;
mod trees;
mod walks;

pub use collected::Collected;
pub use contents::{ContentsOrder, order_contents};
pub use context::{Context, context_of};
pub use cursor::Cursor;
pub use definitions::{
    make_basic_event, make_fault_tree, make_functional_event, make_gate, make_house_event,
    make_initiating_event, make_parameter,
};
pub use expressions::resolve_expression;
pub use joining::join_in_order;
pub use numbering::number_definitions;
pub use numbers::{Numbered, Numbers, basic_of_sense, same_kind, skip_reference};
pub use trees::{number_of, places_of_kind};
pub use walks::{make_event_tree, make_named_branch, make_rule, make_sequence};
