ghost use Rattle.std.specs.Prelude.{◌≡◌, [], ◌∷◌};
ghost use Rattle.std.specs.List.{find};
ghost use Rattle.std.specs.Option.{option_map};
ghost use Rattle.psa_elements.specs.ElementTable.{ends, expressions, formulas, has_tag, in_event_tree, instructions, tests};
ghost use Rattle.psa_elements.specs.ElementTable as table;
ghost use Rattle.psa_draft_parts.specs.Rows.{group_rows, row_of_definition, row_of_end, row_of_expression, row_of_formula, row_of_group, row_of_instruction, row_of_plain, row_of_test, model_data_rows, rows_of};

use psa_model::{Connective, EventKind, ExpressionOperator};

/// An element that says a formula. The kind of an `event` is `Any`, whatever its type says.
#[derive(Clone, Copy)]
pub enum FormulaRow {
    Event(EventKind),
    Constant,
    Connective(Connective),
}

/// An element that says an expression.
#[derive(Clone, Copy)]
pub enum ExpressionRow {
    Float,
    Int,
    Parameter,
    MissionTime,
    Operation(ExpressionOperator),
}

/// An element that says a test of a walk.
#[derive(Clone, Copy)]
pub enum TestRow {
    Initiating,
    Functional,
    All,
    Any,
    Not,
}

/// An element that says an instruction.
#[derive(Clone, Copy)]
pub enum InstructionRow {
    Collect,
    SetHouse,
    Block,
    Rule,
    If,
}

/// An element that says where a walk goes behind instructions.
#[derive(Clone, Copy)]
pub enum EndRow {
    Fork,
    Sequence,
    Branch,
}

/// An element directly in a common cause group.
#[derive(Clone, Copy)]
pub enum GroupRow {
    Members,
    Distribution,
    Factor,
    Factors,
}

/// A definition that no definition stands in. Those of `model-data` are public.
#[derive(Clone, Copy)]
pub enum PlainRow {
    Gate,
    BasicEvent,
    HouseEvent,
    Parameter,
    PublicBasicEvent,
    PublicHouseEvent,
    PublicParameter,
    Group,
    InitiatingEvent,
    FunctionalEvent,
    Sequence,
    Branch,
    Rule,
}

/// A definition, or the `model-data` around some.
#[derive(Clone, Copy)]
pub enum DefinitionRow {
    Plain(PlainRow),
    FaultTree,
    Component,
    ModelData,
    EventTree,
}

/// Where definitions stand: in the root of a file, in a fault tree or component, or in `model-data`.
#[derive(Clone, Copy)]
pub enum Inside {
    Root,
    Container,
    ModelData,
}

/// The formula that a tag is, None where it is none.
pub fn formula_row(tag: &str) -> Option<FormulaRow>
    ensures { option_map row_of_formula result ≡ find (has_tag tag.now) formulas }
{
    match tag {
        "gate" => Some(FormulaRow::Event(EventKind::Gate)),
        "basic-event" => Some(FormulaRow::Event(EventKind::Basic)),
        "house-event" => Some(FormulaRow::Event(EventKind::House)),
        "event" => Some(FormulaRow::Event(EventKind::Any)),
        "constant" => Some(FormulaRow::Constant),
        "and" => Some(FormulaRow::Connective(Connective::And)),
        "or" => Some(FormulaRow::Connective(Connective::Or)),
        "not" => Some(FormulaRow::Connective(Connective::Not)),
        "xor" => Some(FormulaRow::Connective(Connective::Xor)),
        "iff" => Some(FormulaRow::Connective(Connective::Iff)),
        "nand" => Some(FormulaRow::Connective(Connective::Nand)),
        "nor" => Some(FormulaRow::Connective(Connective::Nor)),
        "imply" => Some(FormulaRow::Connective(Connective::Imply)),
        "atleast" => Some(FormulaRow::Connective(Connective::Atleast)),
        "cardinality" => Some(FormulaRow::Connective(Connective::Cardinality)),
        _ => None,
    }
}

/// The expression that a tag is, None where it is none.
pub fn expression_row(tag: &str) -> Option<ExpressionRow>
    ensures { option_map row_of_expression result ≡ find (has_tag tag.now) expressions }
{
    match tag {
        "float" => Some(ExpressionRow::Float),
        "int" => Some(ExpressionRow::Int),
        "parameter" => Some(ExpressionRow::Parameter),
        "system-mission-time" => Some(ExpressionRow::MissionTime),
        "neg" => Some(ExpressionRow::Operation(ExpressionOperator::Neg)),
        "add" => Some(ExpressionRow::Operation(ExpressionOperator::Add)),
        "sub" => Some(ExpressionRow::Operation(ExpressionOperator::Sub)),
        "mul" => Some(ExpressionRow::Operation(ExpressionOperator::Mul)),
        "div" => Some(ExpressionRow::Operation(ExpressionOperator::Div)),
        "exponential" => Some(ExpressionRow::Operation(ExpressionOperator::Exponential)),
        _ => None,
    }
}

/// The test that a tag is, None where it is none.
pub fn test_row(tag: &str) -> Option<TestRow>
    ensures { option_map row_of_test result ≡ find (has_tag tag.now) tests }
{
    match tag {
        "test-initiating-event" => Some(TestRow::Initiating),
        "test-functional-event" => Some(TestRow::Functional),
        "and" => Some(TestRow::All),
        "or" => Some(TestRow::Any),
        "not" => Some(TestRow::Not),
        _ => None,
    }
}

/// The instruction that a tag is, None where it is none.
pub fn instruction_row(tag: &str) -> Option<InstructionRow>
    ensures { option_map row_of_instruction result ≡ find (has_tag tag.now) instructions }
{
    match tag {
        "collect-formula" => Some(InstructionRow::Collect),
        "set-house-event" => Some(InstructionRow::SetHouse),
        "block" => Some(InstructionRow::Block),
        "rule" => Some(InstructionRow::Rule),
        "if" => Some(InstructionRow::If),
        _ => None,
    }
}

/// The end of a branch that a tag is, None where it is none.
pub fn end_row(tag: &str) -> Option<EndRow>
    ensures { option_map row_of_end result ≡ find (has_tag tag.now) ends }
{
    match tag {
        "fork" => Some(EndRow::Fork),
        "sequence" => Some(EndRow::Sequence),
        "branch" => Some(EndRow::Branch),
        _ => None,
    }
}

/// What a tag is directly in a common cause group, None where it is nothing.
pub fn group_row(tag: &str) -> Option<GroupRow>
    ensures { option_map row_of_group result ≡ find (has_tag tag.now)
        group_rows }
{
    match tag {
        "members" => Some(GroupRow::Members),
        "distribution" => Some(GroupRow::Distribution),
        "factor" => Some(GroupRow::Factor),
        "factors" => Some(GroupRow::Factors),
        _ => None,
    }
}

/// The definition that a tag is in an event tree, None where it is none.
pub fn event_tree_row(tag: &str) -> Option<PlainRow>
    ensures { option_map row_of_plain result ≡ find (has_tag tag.now) in_event_tree }
{
    match tag {
        "define-functional-event" => Some(PlainRow::FunctionalEvent),
        "define-sequence" => Some(PlainRow::Sequence),
        "define-branch" => Some(PlainRow::Branch),
        _ => None,
    }
}

/// The definition that a tag is in a fault tree or component, None where it is none.
pub fn container_row(tag: &str) -> Option<DefinitionRow>
    ensures { option_map row_of_definition result ≡ find (has_tag tag.now) table.in_container }
{
    match tag {
        "define-gate" => Some(DefinitionRow::Plain(PlainRow::Gate)),
        "define-basic-event" => Some(DefinitionRow::Plain(PlainRow::BasicEvent)),
        "define-house-event" => Some(DefinitionRow::Plain(PlainRow::HouseEvent)),
        "define-parameter" => Some(DefinitionRow::Plain(PlainRow::Parameter)),
        "define-CCF-group" => Some(DefinitionRow::Plain(PlainRow::Group)),
        "define-component" => Some(DefinitionRow::Component),
        _ => None,
    }
}

/// The definition that a tag is in the root of a file, None where it is none.
pub fn root_row(tag: &str) -> Option<DefinitionRow>
    ensures { option_map row_of_definition result ≡ find (has_tag tag.now) table.in_root }
{
    match tag {
        "define-fault-tree" => Some(DefinitionRow::FaultTree),
        "model-data" => Some(DefinitionRow::ModelData),
        "define-CCF-group" => Some(DefinitionRow::Plain(PlainRow::Group)),
        "define-event-tree" => Some(DefinitionRow::EventTree),
        "define-initiating-event" => Some(DefinitionRow::Plain(PlainRow::InitiatingEvent)),
        "define-rule" => Some(DefinitionRow::Plain(PlainRow::Rule)),
        _ => None,
    }
}

/// The definition that a tag is in `model-data`, None where it is none.
pub fn model_data_row(tag: &str) -> Option<DefinitionRow>
    ensures { option_map row_of_definition result ≡ find (has_tag tag.now) model_data_rows }
{
    match tag {
        "define-basic-event" => Some(DefinitionRow::Plain(PlainRow::PublicBasicEvent)),
        "define-house-event" => Some(DefinitionRow::Plain(PlainRow::PublicHouseEvent)),
        "define-parameter" => Some(DefinitionRow::Plain(PlainRow::PublicParameter)),
        _ => None,
    }
}

/// The definition that a tag is in a place, None where it is none.
pub fn definition_row(inside: Inside, tag: &str) -> Option<DefinitionRow>
    ensures { option_map row_of_definition result ≡ find (has_tag tag.now) (rows_of inside) }
{
    match inside {
        Inside::Root => root_row(tag),
        Inside::Container => container_row(tag),
        Inside::ModelData => model_data_row(tag),
    }
}
