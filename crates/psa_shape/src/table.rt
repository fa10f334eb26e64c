//! The element table. (The names are those of the Open-PSA Model Exchange Format 2.0d; which
//! attributes and children an element may have, their order and number are this project's own.)
ghost use Rattle.std.specs.Prelude.{◌≡◌, [], find, flat_map, map, if◌then◌else◌};
ghost use Rattle.std.specs.Option.{option_map};
ghost use Rattle.psa_elements.specs.ElementTable as definition;
ghost use Rattle.psa_shape.specs.TableRows.{row_of};
ghost use Rattle.psa_shape.specs.TableRules.{seen_rule, seen_content, seen_part, rows_by};

use crate::rows::{Row, Rows, row_among};
use crate::rules::{Allowed, AttributeName, AttributeRule, Content, Part, Rule, Words};
use psa_model::{Connective, ExpressionOperator, MAX_COUNTED_ARGUMENTS};

/// An attribute that must stand.
macro_rules! required {
    ($name:ident, $allowed:expr) => {
        AttributeRule {
            name: AttributeName::$name,
            is_required: true,
            allowed: $allowed,
        }
    };
}

/// An attribute that may stand.
macro_rules! optional {
    ($name:ident, $allowed:expr) => {
        AttributeRule {
            name: AttributeName::$name,
            is_required: false,
            allowed: $allowed,
        }
    };
}

const NAME: AttributeRule = required!(Name, Allowed::Name);

const REFERENCE: AttributeRule = required!(Name, Allowed::Reference);

const ROLE: AttributeRule = optional!(Role, Allowed::OneOf(Words::Roles));

const PUBLIC_ROLE: AttributeRule = optional!(Role, Allowed::OneOf(Words::PublicRole));

const UNIT: AttributeRule = optional!(Unit, Allowed::AnyText);

const MODEL: AttributeRule = required!(Model, Allowed::OneOf(Words::GroupModels));

const LEVEL: AttributeRule = optional!(Level, Allowed::Digits);

const EVENT_TREE: AttributeRule = optional!(EventTree, Allowed::Name);

const FUNCTIONAL_EVENT: AttributeRule = required!(FunctionalEvent, Allowed::Name);

const STATE: AttributeRule = required!(State, Allowed::Name);

const EVENT_TYPE: AttributeRule = optional!(Type, Allowed::OneOf(Words::EventTypes));

const MIN: AttributeRule = required!(Min, Allowed::Digits);

const MAX: AttributeRule = required!(Max, Allowed::Digits);

const TRUTH: AttributeRule = required!(Value, Allowed::OneOf(Words::States));

const DECIMAL: AttributeRule = required!(Value, Allowed::Decimal);

const WHOLE: AttributeRule = required!(Value, Allowed::Whole);

const ANY_NAME: AttributeRule = required!(Name, Allowed::AnyText);

const ANY_VALUE: AttributeRule = required!(Value, Allowed::AnyText);

const ANY_TYPE: AttributeRule = optional!(Type, Allowed::AnyText);

/// A part of the children, as the table writes it.
macro_rules! part {
    (exactly, $number:literal, $rows:ident) => {
        Part {
            rows: Rows::$rows,
            least: $number,
            most: Some($number),
        }
    };
    (at_least, $least:literal, $rows:ident) => {
        Part {
            rows: Rows::$rows,
            least: $least,
            most: None,
        }
    };
    (at_most, $most:literal, $rows:ident) => {
        Part {
            rows: Rows::$rows,
            least: 0,
            most: Some($most),
        }
    };
    (from_to, $least:literal, $most:expr, $rows:ident) => {
        Part {
            rows: Rows::$rows,
            least: $least,
            most: Some($most),
        }
    };
}

/// The rule of an element that may have a `label` and `attributes`.
macro_rules! labelled {
    ([$($attribute:expr),*] $order:ident [$($bound:ident($($what:tt)*)),*]) => {
        Rule {
            attributes: Some(&[$($attribute),*]),
            is_labelled: true,
            content: Content::$order(&[$(part!($bound, $($what)*)),*]),
        }
    };
}

/// The rule of an element that may not.
macro_rules! unlabelled {
    ([$($attribute:expr),*] $order:ident [$($bound:ident($($what:tt)*)),*]) => {
        Rule {
            attributes: Some(&[$($attribute),*]),
            is_labelled: false,
            content: Content::$order(&[$(part!($bound, $($what)*)),*]),
        }
    };
}

/// The rule of a row: the element table.
pub fn rule_of(row: Row) -> Rule
    ensures { seen_rule result ≡ definition.rule_of (row_of row) }
{
    match row {
        // All attributes of the root are passed over.
        Row::OpsaMef => Rule {
            attributes: None,
            ..labelled!([] InAnyOrder [at_least(0, InRoot)])
        },
        Row::Label => unlabelled!([] InAnyOrder []),
        Row::Attributes => unlabelled!([] InAnyOrder [at_least(0, Attribute)]),
        Row::Attribute => unlabelled!([ANY_NAME, ANY_VALUE, ANY_TYPE] InAnyOrder []),
        Row::DefineFaultTree => labelled!([NAME] InAnyOrder [at_least(0, InContainer)]),
        Row::DefineComponent => labelled!([NAME, ROLE] InAnyOrder [at_least(0, InContainer)]),
        Row::ModelData => labelled!([] InAnyOrder [at_least(0, InModelData)]),
        Row::DefineGate => labelled!([NAME, ROLE] InAnyOrder [exactly(1, Formulas)]),
        Row::DefineBasicEvent => labelled!([NAME, ROLE] InAnyOrder [at_most(1, Expressions)]),
        Row::DefineHouseEvent => labelled!([NAME, ROLE] InAnyOrder [at_most(1, Constant)]),
        Row::DefineParameter => labelled!([NAME, ROLE, UNIT] InAnyOrder [exactly(1, Expressions)]),
        Row::PublicBasicEvent =>
            labelled!([NAME, PUBLIC_ROLE] InAnyOrder [at_most(1, Expressions)]),
        Row::PublicHouseEvent => labelled!([NAME, PUBLIC_ROLE] InAnyOrder [at_most(1, Constant)]),
        Row::PublicParameter => {
            labelled!([NAME, PUBLIC_ROLE, UNIT] InAnyOrder [exactly(1, Expressions)])
        }
        Row::DefineGroup => labelled!(
            [NAME, MODEL] InAnyOrder [
                exactly(1, Members), exactly(1, Distribution), at_least(0, AnyFactors)
            ]
        ),
        Row::Members => unlabelled!([] InAnyOrder [at_least(1, BasicEvent)]),
        Row::Distribution => unlabelled!([] InAnyOrder [exactly(1, Expressions)]),
        Row::Factors => unlabelled!([] InAnyOrder [at_least(0, Factor)]),
        Row::Factor => unlabelled!([LEVEL] InAnyOrder [exactly(1, Expressions)]),
        Row::DefineInitiatingEvent => labelled!([NAME, EVENT_TREE] InAnyOrder []),
        Row::DefineEventTree => labelled!(
            [NAME] InAnyOrder [at_least(0, InEventTree), exactly(1, InitialState)]
        ),
        Row::DefineFunctionalEvent => labelled!([NAME] InAnyOrder []),
        Row::DefineSequence => labelled!(
            [NAME] InThisOrder [at_least(0, Instructions), at_most(1, ToEventTree)]
        ),
        Row::DefineBranch => labelled!(
            [NAME] InThisOrder [at_least(0, Instructions), exactly(1, Ends)]
        ),
        Row::DefineRule => labelled!([NAME] InAnyOrder [at_least(1, Instructions)]),
        Row::InitialState => unlabelled!(
            [] InThisOrder [at_least(0, Instructions), exactly(1, Ends)]
        ),
        Row::Fork => unlabelled!([FUNCTIONAL_EVENT] InAnyOrder [at_least(1, Path)]),
        Row::Path => unlabelled!(
            [STATE] InThisOrder [at_least(0, Instructions), exactly(1, Ends)]
        ),
        Row::ToSequence => unlabelled!([NAME] InAnyOrder []),
        Row::ToBranch => unlabelled!([NAME] InAnyOrder []),
        Row::ToEventTree => unlabelled!([NAME] InAnyOrder []),
        Row::CollectFormula => unlabelled!([] InAnyOrder [exactly(1, Formulas)]),
        Row::SetHouseEvent => unlabelled!([REFERENCE] InAnyOrder [exactly(1, Constant)]),
        Row::Block => unlabelled!([] InAnyOrder [at_least(0, Instructions)]),
        Row::Rule => unlabelled!([NAME] InAnyOrder []),
        Row::IfInstruction => unlabelled!(
            [] InThisOrder [exactly(1, Tests), from_to(1, 2, Instructions)]
        ),
        Row::TestInitiatingEvent => unlabelled!([NAME] InAnyOrder []),
        Row::TestFunctionalEvent => unlabelled!([NAME, STATE] InAnyOrder []),
        Row::AllTests => unlabelled!([] InAnyOrder [at_least(1, Tests)]),
        Row::AnyTest => unlabelled!([] InAnyOrder [at_least(1, Tests)]),
        Row::NotTest => unlabelled!([] InAnyOrder [exactly(1, Tests)]),
        Row::Gate => unlabelled!([REFERENCE] InAnyOrder []),
        Row::BasicEvent => unlabelled!([REFERENCE] InAnyOrder []),
        Row::HouseEvent => unlabelled!([REFERENCE] InAnyOrder []),
        Row::Event => unlabelled!([REFERENCE, EVENT_TYPE] InAnyOrder []),
        Row::Constant => unlabelled!([TRUTH] InAnyOrder []),
        Row::Connective(connective) => connective_rule(connective),
        Row::Float => unlabelled!([DECIMAL] InAnyOrder []),
        Row::Int => unlabelled!([WHOLE] InAnyOrder []),
        Row::Parameter => unlabelled!([REFERENCE, UNIT] InAnyOrder []),
        Row::MissionTime => unlabelled!([UNIT] InAnyOrder []),
        Row::Operator(operator) => operator_rule(operator),
    }
}

/// The rows of connectives.
fn connective_rule(connective: Connective) -> Rule
    ensures { seen_rule result ≡ definition.connective_rule connective }
{
    match connective {
        Connective::And => unlabelled!([] InAnyOrder [at_least(1, Formulas)]),
        Connective::Or => unlabelled!([] InAnyOrder [at_least(1, Formulas)]),
        Connective::Nand => unlabelled!([] InAnyOrder [at_least(1, Formulas)]),
        Connective::Nor => unlabelled!([] InAnyOrder [at_least(1, Formulas)]),
        Connective::Not => unlabelled!([] InAnyOrder [exactly(1, Formulas)]),
        Connective::Xor => unlabelled!([] InAnyOrder [exactly(2, Formulas)]),
        Connective::Iff => unlabelled!([] InAnyOrder [exactly(2, Formulas)]),
        Connective::Imply => unlabelled!([] InAnyOrder [exactly(2, Formulas)]),
        Connective::Atleast => unlabelled!(
            [MIN] InAnyOrder [from_to(1, MAX_COUNTED_ARGUMENTS, Formulas)]
        ),
        Connective::Cardinality => unlabelled!(
            [MIN, MAX] InAnyOrder [from_to(1, MAX_COUNTED_ARGUMENTS, Formulas)]
        ),
    }
}

/// The rows of operators.
fn operator_rule(operator: ExpressionOperator) -> Rule
    ensures { seen_rule result ≡ definition.operator_rule operator }
{
    match operator {
        ExpressionOperator::Neg => unlabelled!([] InAnyOrder [exactly(1, Expressions)]),
        ExpressionOperator::Add => unlabelled!([] InAnyOrder [at_least(1, Expressions)]),
        ExpressionOperator::Mul => unlabelled!([] InAnyOrder [at_least(1, Expressions)]),
        ExpressionOperator::Sub => unlabelled!([] InAnyOrder [at_least(2, Expressions)]),
        ExpressionOperator::Div => unlabelled!([] InAnyOrder [at_least(2, Expressions)]),
        ExpressionOperator::Exponential => unlabelled!([] InAnyOrder [exactly(2, Expressions)]),
    }
}

/// The parts of a content.
pub fn parts_of(content: Content) -> &'static [Part]
    ensures { map seen_part result.now ≡ definition.parts_of (seen_content content) }
{
    match content {
        Content::InAnyOrder(parts) => parts,
        Content::InThisOrder(parts) => parts,
    }
}

/// The row that a tag has inside an element with this rule.
pub fn row_inside(rule: &Rule, tag: &str) -> Option<Row>
    ensures { option_map row_of result
        ≡ find (definition.has_tag tag.now) (rows_by (seen_rule rule.now)) }
{
    match label_inside(rule, tag) {
        Some(row) => Some(row),
        None => row_in_parts(parts_of(rule.content), tag),
    }
}

/// The row of `label` or `attributes`, where the rule lets these stand.
fn label_inside(rule: &Rule, tag: &str) -> Option<Row>
    ensures { option_map row_of result
        ≡ find (definition.has_tag tag.now)
        (if rule.now.is_labelled then definition.label_rows else []) }
{
    if rule.is_labelled {
        row_among(Rows::Labels, tag)
    } else {
        None
    }
}

/// The row that a tag has in the first part that has one.
fn row_in_parts(parts: &[Part], tag: &str) -> Option<Row>
    ensures { option_map row_of result
        ≡ find (definition.has_tag tag.now)
        (flat_map (λ part. part.rows) (map seen_part parts.now)) }
{
    for part in parts {
        if let Some(row) = row_among(part.rows, tag) {
            return Some(row);
        }
    }
    None
}
