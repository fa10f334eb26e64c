//! What a row of the element table says of its element.
ghost use Rattle.std.specs.Prelude.{◌≡◌};
ghost use Rattle.std.specs.List.{list_any};
ghost use Rattle.std.specs.Str.{bytes_eq};
ghost use Rattle.psa_shape.specs.TableRules.{text_of, words_of};

use crate::rows::Rows;

/// The names of attributes.
#[derive(Clone, Copy)]
pub enum AttributeName {
    Name,
    Value,
    Type,
    Role,
    Unit,
    Model,
    Level,
    EventTree,
    FunctionalEvent,
    State,
    Min,
    Max,
}

/// The words of which an attribute's value is one.
#[derive(Clone, Copy)]
pub enum Words {
    Roles,
    PublicRole,
    GroupModels,
    EventTypes,
    States,
}

/// What an attribute may be.
#[derive(Clone, Copy)]
pub enum Allowed {
    AnyText,
    Name,
    /// A name or a path.
    Reference,
    OneOf(Words),
    /// A number by its digits alone.
    Digits,
    Decimal,
    /// A decimal without point and exponent.
    Whole,
}

/// An attribute that an element may have.
#[derive(Clone, Copy)]
pub struct AttributeRule {
    pub name: AttributeName,
    pub is_required: bool,
    pub allowed: Allowed,
}

/// Some children: from `least` to `most` elements of these rows, or any number from `least` on.
#[derive(Clone, Copy)]
pub struct Part {
    pub rows: Rows,
    pub least: u32,
    pub most: Option<u32>,
}

/// The parts of an element's children.
#[derive(Clone, Copy)]
pub enum Content {
    InAnyOrder(&'static [Part]),
    InThisOrder(&'static [Part]),
}

/// The attributes of an element in order, None where all are passed over; whether `label` and
/// `attributes` may stand anywhere among its children; and its other children.
#[derive(Clone, Copy)]
pub struct Rule {
    pub attributes: Option<&'static [AttributeRule]>,
    pub is_labelled: bool,
    pub content: Content,
}

impl AttributeName {
    /// The name as it stands in a tag.
    pub fn text(self) -> &'static str
        ensures { result.now ≡ text_of self }
    {
        match self {
            AttributeName::Name => "name",
            AttributeName::Value => "value",
            AttributeName::Type => "type",
            AttributeName::Role => "role",
            AttributeName::Unit => "unit",
            AttributeName::Model => "model",
            AttributeName::Level => "level",
            AttributeName::EventTree => "event-tree",
            AttributeName::FunctionalEvent => "functional-event",
            AttributeName::State => "state",
            AttributeName::Min => "min",
            AttributeName::Max => "max",
        }
    }
}

impl Words {
    /// Whether the text is one of the words.
    pub fn has(self, text: &str) -> bool
        ensures { result ≡ list_any (bytes_eq text.now) (words_of self) }
    {
        match self {
            Words::Roles => text == "public" || text == "private",
            Words::PublicRole => text == "public",
            Words::GroupModels => text == "beta-factor" || text == "MGL" || text == "alpha-factor",
            Words::EventTypes => text == "gate" || text == "basic-event" || text == "house-event",
            Words::States => text == "true" || text == "false",
        }
    }
}
