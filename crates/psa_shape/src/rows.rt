ghost use Rattle.std.specs.Prelude.{◌≡◌, [], ◌∷◌, find};
ghost use Rattle.std.specs.Option.{option_map};
ghost use Rattle.psa_elements.specs.ElementTable.{has_tag, tag_of};
ghost use Rattle.psa_shape.specs.TableRows.{row_of, rows_of};
ghost use Rattle.psa_shape.specs.declared.rows.Rows.TheVariants as variant;

use psa_model::{Connective, ExpressionOperator};

/// A row of the element table: an element by its meaning. Where one tag has several meanings by
/// the element around it there are several rows.
#[derive(Clone, Copy)]
pub enum Row {
    OpsaMef,
    Label,
    Attributes,
    Attribute,
    DefineFaultTree,
    DefineComponent,
    ModelData,
    DefineGate,
    DefineBasicEvent,
    DefineHouseEvent,
    DefineParameter,
    /// A definition of `model-data`, which is never private; so the next two.
    PublicBasicEvent,
    PublicHouseEvent,
    PublicParameter,
    DefineGroup,
    Members,
    Distribution,
    Factors,
    Factor,
    DefineInitiatingEvent,
    DefineEventTree,
    DefineFunctionalEvent,
    DefineSequence,
    DefineBranch,
    DefineRule,
    InitialState,
    Fork,
    Path,
    ToSequence,
    ToBranch,
    ToEventTree,
    CollectFormula,
    SetHouseEvent,
    Block,
    Rule,
    IfInstruction,
    TestInitiatingEvent,
    TestFunctionalEvent,
    AllTests,
    AnyTest,
    NotTest,
    Gate,
    BasicEvent,
    HouseEvent,
    Event,
    Constant,
    Connective(Connective),
    Float,
    Int,
    Parameter,
    MissionTime,
    Operator(ExpressionOperator),
}

/// Rows that may stand at one place among the children of an element.
#[derive(Clone, Copy)]
pub enum Rows {
    /// `label` and `attributes`.
    Labels,
    InRoot,
    InContainer,
    InModelData,
    InEventTree,
    Formulas,
    Expressions,
    Instructions,
    Tests,
    Ends,
    /// `factor` and `factors`.
    AnyFactors,
    Factor,
    Members,
    Distribution,
    BasicEvent,
    Constant,
    InitialState,
    ToEventTree,
    Path,
    Attribute,
}

/// The row that a tag has among these rows.
pub fn row_among(rows: Rows, tag: &str) -> Option<Row>
    ensures { option_map row_of result ≡ find (has_tag tag.now) (rows_of rows) }
{
    match rows {
        Rows::Labels => label_row(tag),
        Rows::InRoot => root_row(tag),
        Rows::InContainer => container_row(tag),
        Rows::InModelData => model_data_row(tag),
        Rows::InEventTree => event_tree_row(tag),
        Rows::Formulas => formula_row(tag),
        Rows::Expressions => expression_row(tag),
        Rows::Instructions => instruction_row(tag),
        Rows::Tests => test_row(tag),
        Rows::Ends => end_row(tag),
        Rows::AnyFactors => any_factors_row(tag),
        Rows::Factor => only_row(tag, "factor", Row::Factor),
        Rows::Members => only_row(tag, "members", Row::Members),
        Rows::Distribution => only_row(tag, "distribution", Row::Distribution),
        Rows::BasicEvent => only_row(tag, "basic-event", Row::BasicEvent),
        Rows::Constant => only_row(tag, "constant", Row::Constant),
        Rows::InitialState => only_row(tag, "initial-state", Row::InitialState),
        Rows::ToEventTree => only_row(tag, "event-tree", Row::ToEventTree),
        Rows::Path => only_row(tag, "path", Row::Path),
        Rows::Attribute => only_row(tag, "attribute", Row::Attribute),
    }
}

/// The one row that may stand, where the tag is its own.
fn only_row(tag: &str, own: &str, row: Row) -> Option<Row>
    requires { own.now ≡ tag_of (row_of row) }
    ensures { option_map row_of result ≡ find (has_tag tag.now) (row_of row ∷ []) }
{
    if own == tag { Some(row) } else { None }
}

fn label_row(tag: &str) -> Option<Row>
    ensures { option_map row_of result ≡ find (has_tag tag.now) (rows_of variant.Labels) }
{
    match tag {
        "label" => Some(Row::Label),
        "attributes" => Some(Row::Attributes),
        _ => None,
    }
}

fn root_row(tag: &str) -> Option<Row>
    ensures { option_map row_of result ≡ find (has_tag tag.now) (rows_of variant.InRoot) }
{
    match tag {
        "define-fault-tree" => Some(Row::DefineFaultTree),
        "model-data" => Some(Row::ModelData),
        "define-CCF-group" => Some(Row::DefineGroup),
        "define-event-tree" => Some(Row::DefineEventTree),
        "define-initiating-event" => Some(Row::DefineInitiatingEvent),
        "define-rule" => Some(Row::DefineRule),
        _ => None,
    }
}

fn container_row(tag: &str) -> Option<Row>
    ensures { option_map row_of result ≡ find (has_tag tag.now) (rows_of variant.InContainer) }
{
    match tag {
        "define-gate" => Some(Row::DefineGate),
        "define-basic-event" => Some(Row::DefineBasicEvent),
        "define-house-event" => Some(Row::DefineHouseEvent),
        "define-parameter" => Some(Row::DefineParameter),
        "define-CCF-group" => Some(Row::DefineGroup),
        "define-component" => Some(Row::DefineComponent),
        _ => None,
    }
}

fn model_data_row(tag: &str) -> Option<Row>
    ensures { option_map row_of result ≡ find (has_tag tag.now) (rows_of variant.InModelData) }
{
    match tag {
        "define-basic-event" => Some(Row::PublicBasicEvent),
        "define-house-event" => Some(Row::PublicHouseEvent),
        "define-parameter" => Some(Row::PublicParameter),
        _ => None,
    }
}

fn event_tree_row(tag: &str) -> Option<Row>
    ensures { option_map row_of result ≡ find (has_tag tag.now) (rows_of variant.InEventTree) }
{
    match tag {
        "define-functional-event" => Some(Row::DefineFunctionalEvent),
        "define-sequence" => Some(Row::DefineSequence),
        "define-branch" => Some(Row::DefineBranch),
        _ => None,
    }
}

fn formula_row(tag: &str) -> Option<Row>
    ensures { option_map row_of result ≡ find (has_tag tag.now) (rows_of variant.Formulas) }
{
    match tag {
        "gate" => Some(Row::Gate),
        "basic-event" => Some(Row::BasicEvent),
        "house-event" => Some(Row::HouseEvent),
        "event" => Some(Row::Event),
        "constant" => Some(Row::Constant),
        "and" => Some(Row::Connective(Connective::And)),
        "or" => Some(Row::Connective(Connective::Or)),
        "not" => Some(Row::Connective(Connective::Not)),
        "xor" => Some(Row::Connective(Connective::Xor)),
        "iff" => Some(Row::Connective(Connective::Iff)),
        "nand" => Some(Row::Connective(Connective::Nand)),
        "nor" => Some(Row::Connective(Connective::Nor)),
        "imply" => Some(Row::Connective(Connective::Imply)),
        "atleast" => Some(Row::Connective(Connective::Atleast)),
        "cardinality" => Some(Row::Connective(Connective::Cardinality)),
        _ => None,
    }
}

fn expression_row(tag: &str) -> Option<Row>
    ensures { option_map row_of result ≡ find (has_tag tag.now) (rows_of variant.Expressions) }
{
    match tag {
        "float" => Some(Row::Float),
        "int" => Some(Row::Int),
        "parameter" => Some(Row::Parameter),
        "system-mission-time" => Some(Row::MissionTime),
        "neg" => Some(Row::Operator(ExpressionOperator::Neg)),
        "add" => Some(Row::Operator(ExpressionOperator::Add)),
        "sub" => Some(Row::Operator(ExpressionOperator::Sub)),
        "mul" => Some(Row::Operator(ExpressionOperator::Mul)),
        "div" => Some(Row::Operator(ExpressionOperator::Div)),
        "exponential" => Some(Row::Operator(ExpressionOperator::Exponential)),
        _ => None,
    }
}

fn instruction_row(tag: &str) -> Option<Row>
    ensures { option_map row_of result ≡ find (has_tag tag.now) (rows_of variant.Instructions) }
{
    match tag {
        "collect-formula" => Some(Row::CollectFormula),
        "set-house-event" => Some(Row::SetHouseEvent),
        "block" => Some(Row::Block),
        "rule" => Some(Row::Rule),
        "if" => Some(Row::IfInstruction),
        _ => None,
    }
}

fn test_row(tag: &str) -> Option<Row>
    ensures { option_map row_of result ≡ find (has_tag tag.now) (rows_of variant.Tests) }
{
    match tag {
        "test-initiating-event" => Some(Row::TestInitiatingEvent),
        "test-functional-event" => Some(Row::TestFunctionalEvent),
        "and" => Some(Row::AllTests),
        "or" => Some(Row::AnyTest),
        "not" => Some(Row::NotTest),
        _ => None,
    }
}

fn end_row(tag: &str) -> Option<Row>
    ensures { option_map row_of result ≡ find (has_tag tag.now) (rows_of variant.Ends) }
{
    match tag {
        "fork" => Some(Row::Fork),
        "sequence" => Some(Row::ToSequence),
        "branch" => Some(Row::ToBranch),
        _ => None,
    }
}

fn any_factors_row(tag: &str) -> Option<Row>
    ensures { option_map row_of result ≡ find (has_tag tag.now) (rows_of variant.AnyFactors) }
{
    match tag {
        "factor" => Some(Row::Factor),
        "factors" => Some(Row::Factors),
        _ => None,
    }
}
