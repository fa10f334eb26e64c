ghost use Rattle.std.specs.Prelude.{◌≡◌, IfOk, codes, true};
ghost use Rattle.std.specs.Option.{option_map};
ghost use Rattle.psa_elements.specs.DraftReading as reading;
ghost use Rattle.psa_elements.specs.ShapeFaults.{number_in, value_in as value_of};
ghost use Rattle.psa_draft_parts.specs.Sayings.{is_short};
ghost use Rattle.psa_draft_parts.specs.Starts.{start_of};

use crate::start::StartTag;
use psa_model::{Connective, DraftReference, EventKind, GroupModel, Place};
use psa_number::{Decimal, read_decimal};
use psa_text::{Attribute, OutOfMemory, Text};
use std::alloc::Global;

/// The value of the first attribute of this name, None where it doesn't stand.
fn value_in<'a>(attributes: &'a [Attribute], name: &str) -> Option<&'a str>
    ensures { option_map (λ value. value.now) result ≡ value_of attributes.now name.now }
{
    for attribute in attributes {
        if attribute.name.as_str() == name {
            return Some(attribute.value.as_str());
        }
    }
    None
}

/// The value of an attribute of an element, None where it doesn't stand.
pub fn value_at<'e>(start: &StartTag<'_, 'e>, name: &str) -> Option<&'e str>
    ensures { option_map (λ value. value.now) result
        ≡ value_of (start_of start.now).attributes name.now }
{
    value_in(start.element.attributes.as_slice(), name)
}

/// The value of an attribute of an element, empty where it doesn't stand.
pub fn text_at<'e>(start: &StartTag<'_, 'e>, name: &str) -> &'e str
    ensures { result.now ≡ reading.text_in (start_of start.now) name.now }
{
    match value_at(start, name) {
        Some(value) => value,
        None => "",
    }
}

/// Where an element begins.
pub fn place_of(start: &StartTag) -> Place
    ensures { result ≡ reading.place_of (start_of start.now) }
{
    Place {
        file: start.around.file,
        line: start.element.line,
    }
}

/// The name that an element has, as a text of its own.
pub fn own_name(alloc: Global, start: &StartTag) -> Result<Text, OutOfMemory>
    ensures { IfOk result (λ name. name ≡ reading.own_name (start_of start.now)) }
{
    Text::from_str(alloc, text_at(start, "name"))
}

/// The name that an attribute gives, as a reference.
pub fn reference_by(
    alloc: Global,
    by: &str,
    start: &StartTag,
) -> Result<DraftReference, OutOfMemory>
    ensures { IfOk result
        (λ reference. reference ≡ reading.reference_by by.now (start_of start.now)) }
{
    Ok(DraftReference {
        name: Text::from_str(alloc, text_at(start, by))?,
        place: place_of(start),
        tag: start.number,
    })
}

/// The name of an element, as a reference.
pub fn reference(alloc: Global, start: &StartTag) -> Result<DraftReference, OutOfMemory>
    ensures { IfOk result (λ reference. reference ≡ reading.reference (start_of start.now)) }
{
    reference_by(alloc, "name", start)
}

/// Whether an attribute has this value.
pub fn has_value(start: &StartTag, name: &str, value: &str) -> bool
    ensures { result ≡ reading.has_value (start_of start.now) name.now value.now }
{
    text_at(start, name) == value
}

/// The kind of event that an `event` asks for by its type.
pub fn event_kind(start: &StartTag) -> EventKind
    ensures { result ≡ reading.event_kind (start_of start.now) }
{
    if has_value(start, "type", "gate") {
        EventKind::Gate
    } else if has_value(start, "type", "basic-event") {
        EventKind::Basic
    } else if has_value(start, "type", "house-event") {
        EventKind::House
    } else {
        EventKind::Any
    }
}

/// The model of a common cause group.
pub fn group_model(start: &StartTag) -> GroupModel
    ensures { result ≡ reading.group_model (start_of start.now) }
{
    if has_value(start, "model", "beta-factor") {
        GroupModel::Beta
    } else if has_value(start, "model", "MGL") {
        GroupModel::Mgl
    } else {
        GroupModel::Alpha
    }
}

/// The number that a value spells, 0 where it spells none.
pub fn decimal_in(start: &StartTag) -> Decimal
    ensures { result ≡ reading.decimal_in (start_of start.now) }
{
    match read_decimal(text_at(start, "value").as_bytes()) {
        Ok(decimal) => decimal,
        Err(_fault) => Decimal::from_whole(0),
    }
}

/// Whether an element is private: by its own role, or without one by the component around it.
pub fn is_private(start: &StartTag) -> bool
    ensures { result ≡ reading.is_private (start_of start.now) }
{
    match value_at(start, "role") {
        Some(role) => role == "private",
        None => start.around.is_private,
    }
}

/// The number that an attribute of few digits spells, 0 where it doesn't stand.
fn number_at(start: &StartTag, name: &str) -> u32
    requires { is_short name.now (start_of start.now).attributes ≡ true }
    ensures { result ≡ number_in (start_of start.now).attributes name.now }
{
    text_at(start, name).parse::<u32>().unwrap_or(0)
}

/// The level of a factor, where it is given.
pub fn level_in(start: &StartTag) -> Option<u32>
    requires { is_short (codes "level") (start_of start.now).attributes ≡ true }
    ensures { result ≡ reading.level_in (start_of start.now) }
{
    match value_at(start, "level") {
        Some(_level) => Some(number_at(start, "level")),
        None => None,
    }
}

/// The least number of arguments that make a connective true, 0 where `min` has no meaning.
pub fn least_of(operator: Connective, start: &StartTag) -> u32
    requires { is_short (codes "min") (start_of start.now).attributes ≡ true }
    ensures { result ≡ reading.least_of operator (start_of start.now) }
{
    match operator {
        Connective::Atleast => number_at(start, "min"),
        Connective::Cardinality => number_at(start, "min"),
        _ => 0,
    }
}

/// The greatest number of arguments that make a connective true, 0 where `max` has no meaning.
pub fn most_of(operator: Connective, start: &StartTag) -> u32
    requires { is_short (codes "max") (start_of start.now).attributes ≡ true }
    ensures { result ≡ reading.most_of operator (start_of start.now) }
{
    match operator {
        Connective::Cardinality => number_at(start, "max"),
        _ => 0,
    }
}
