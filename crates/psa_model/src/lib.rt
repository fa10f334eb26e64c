//! The data of a safety model, and what they mean: the truth of formulas, targets, ranks, products and
//! the text of a report, as definitions in specs/.
#![tactic(auto)]

pub mod bracket_laws;
mod draft;
pub mod event_laws;
pub mod examples;
mod expanded;
mod expression;
mod fault;
mod formula;
mod ids;
pub mod laws;
mod limits;
mod model;
pub mod model_laws;
pub mod part_laws;
pub mod path_laws;
mod product;
mod settings;
pub mod standing_laws;
mod targets;
pub mod value_laws;
mod walks;

pub use draft::{
    DefinitionKind, Draft, DraftBody, DraftBranch, DraftBranchEnd, DraftDefinition,
    DraftExpression, DraftFactor, DraftForkPath, DraftFormula, DraftGroup, DraftInstruction,
    DraftReference, DraftTest, EventKind,
};
pub use expanded::{Expanded, ExpandedEvent};
pub use expression::{Expression, ExpressionOperator};
pub use fault::{FaultKind, ModelFault};
pub use formula::{Connective, Formula, MAX_COUNTED_ARGUMENTS};
pub use ids::{
    BranchId, EventId, EventNumber, FaultTreeId, FormulaId, FunctionalId, GateId, GroupId, HouseId,
    InitiatingId, ParameterId, Place, RuleId, SequenceId, TreeId,
};
pub use limits::{
    MAX_EVENTS, MAX_FILES, MAX_INSTRUCTIONS, MAX_MEMBERS, MAX_NESTING, MAX_PATHS, MAX_SAMPLE,
    MAX_SIZE, MAX_VALUE_LEVELS, MIN_MEMBERS, MIN_SAMPLE,
};
pub use model::{
    BasicEvent, EventTree, Factor, FaultTree, Functional, Gate, Group, GroupModel, House,
    Initiating, MAX_DEPTH, Model, NamedBranch, Parameter, RuleDefinition, Sequence, Valued,
};
pub use product::{Literal, MAX_COUNT, MAX_ORDER, Product};
pub use settings::{Algorithm, Input, Mode, Settings};
pub use targets::{Path, PathStep, Ranks, Target, Targets, Values};
pub use walks::{Branch, BranchEnd, ForkPath, Instruction, Test};
