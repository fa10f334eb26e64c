//! The number and order of the children of an element.
ghost use Rattle.std.specs.Prelude.{◌≡◌, ◌&&◌, length, count_by, map, nat_le, not};
ghost use Rattle.std.specs.List.{filter, list_all};
ghost use Rattle.psa_elements.specs.ElementTable as rows;
ghost use Rattle.psa_elements.specs.ShapeFaults as definition;
ghost use Rattle.psa_shape.specs.TableRows.{row_of};
ghost use Rattle.psa_shape.specs.TableRules.{seen_rule, seen_content, seen_part, text_of};
ghost use Rattle.psa_shape.specs.FoundFaults.{counted, counts_in, passes, well_shaped_by};
ghost use Rattle.psa_shape.specs.FoundFaults.{HasNumbers, SpellsNumber};
ghost use Rattle.psa_text.specs.declared.tree.Element.TheViews.{out-Element};

use crate::attributes::value_in;
use crate::rows::{Row, Rows, row_among};
use crate::rules::{AttributeName, Content, Part, Rule};
use crate::table::parts_of;
use crate::values::number_of;
use psa_model::Connective;
use psa_text::{Attribute, Element};

/// Whether the children have their number and order, and the bounds of `min` and `max`.
pub fn is_well_shaped(row: Row, rule: &Rule, given: &[Attribute], children: &[Element]) -> bool
    requires { HasNumbers (row_of row) given.now }
    ensures { result
        ≡ well_shaped_by (seen_rule rule.now) (row_of row) given.now (counted children.now) }
{
    have_numbers(parts_of(rule.content), children)
        && have_order(rule.content, children)
        && has_bounds(row, given, children)
}

/// Whether a child is a `label` or `attributes`, which count neither in number nor in order.
fn is_label(child: &Element) -> bool
    ensures { result ≡ definition.is_label (out-Element child.now).tag }
{
    row_among(Rows::Labels, child.tag.as_str()).is_some()
}

/// Whether a child is one of a part.
fn is_in_part(part: Part, child: &Element) -> bool
    ensures { result ≡ definition.is_in_part (seen_part part) (out-Element child.now).tag }
{
    row_among(part.rows, child.tag.as_str()).is_some()
}

/// How many children are of a part.
fn count_in(part: Part, children: &[Element]) -> usize
    ensures { result ≡ count_by (counts_in (seen_part part)) children.now }
{
    children
        .iter()
        .filter(|child| !is_label(child) && is_in_part(part, child))
        .count()
}

/// Whether so many children of a part may stand.
fn is_allowed(part: Part, count: usize) -> bool
    ensures { result ≡ (nat_le part.least count && definition.is_at_most count part.most) }
{
    let is_at_most = match part.most {
        None => true,
        Some(most) => count <= most as usize,
    };
    part.least as usize <= count && is_at_most
}

/// Whether a part has its number of children.
fn has_number(part: Part, children: &[Element]) -> bool
    ensures { result ≡ definition.has_number (counted children.now) (seen_part part) }
{
    if part.least == 0 && part.most.is_none() {
        return true;
    }
    is_allowed(part, count_in(part, children))
}

/// Whether each part has its number of children.
fn have_numbers(parts: &[Part], children: &[Element]) -> bool
    ensures { result
        ≡ list_all (definition.has_number (counted children.now)) (map seen_part parts.now) }
{
    for part in parts {
        if !has_number(*part, children) {
            return false;
        }
    }
    true
}

/// Whether the children have their order.
fn have_order(content: Content, children: &[Element]) -> bool
    ensures { result ≡ definition.has_order (seen_content content) (counted children.now) }
{
    match content {
        Content::InAnyOrder(_) => true,
        Content::InThisOrder(parts) => stand_in_order(parts, children),
    }
}

/// Whether the children are those of the first part, then those of the next, and nothing else.
fn stand_in_order(parts: &[Part], children: &[Element]) -> bool
    ensures { result
        ≡ definition.stand_in_order (map seen_part parts.now) (counted children.now) }
{
    let mut rest = children;
    for part in parts {
        rest = behind_part(*part, rest);
    }
    are_labels(rest)
}

/// Whether a child at the front is dropped with those of a part.
fn is_dropped(part: Part, child: &Element) -> bool
    ensures { result ≡ passes (seen_part part) child.now }
{
    is_label(child) || is_in_part(part, child)
}

/// What is left when the children of a part at the front are dropped.
fn behind_part(part: Part, children: &[Element]) -> &[Element]
    ensures { counted result.now
        ≡ definition.behind_part (seen_part part) (counted children.now) }
{
    for (place, child) in children.iter().enumerate() {
        if !is_dropped(part, child) {
            return children.split_at(place).1;
        }
    }
    &[]
}

/// Whether no child counts.
fn are_labels(children: &[Element]) -> bool
    ensures { result
        ≡ list_all (λ child. definition.is_label (out-Element child).tag) children.now }
{
    children.iter().all(|child| is_label(child))
}

/// How many children count.
fn count_of(children: &[Element]) -> usize
    ensures { result
        ≡ length (filter
        (λ child. not (definition.is_label (out-Element child).tag)) children.now) }
{
    children.iter().filter(|child| !is_label(child)).count()
}

/// Whether the number of arguments is within the bounds of `min` and `max`.
fn has_bounds(row: Row, given: &[Attribute], children: &[Element]) -> bool
    requires { HasNumbers (row_of row) given.now }
    ensures { result
        ≡ definition.has_bounds (row_of row) given.now (length (counted children.now)) }
{
    match row {
        Row::Connective(connective) => is_within_bounds(connective, given, count_of(children)),
        _ => true,
    }
}

/// Whether a connective has its number of arguments by `min` and `max`.
fn is_within_bounds(connective: Connective, given: &[Attribute], count: usize) -> bool
    requires { HasNumbers (rows.connective connective) given.now }
    ensures { result ≡ definition.has_bounds (rows.connective connective) given.now count }
{
    match connective {
        Connective::Atleast => number_in(given, AttributeName::Min) <= count,
        Connective::Cardinality => {
            let most = number_in(given, AttributeName::Max);
            number_in(given, AttributeName::Min) <= most && most <= count
        }
        _ => true,
    }
}

/// The number that an attribute spells, 0 where it does not stand.
fn number_in(given: &[Attribute], name: AttributeName) -> usize
    requires { SpellsNumber given.now (text_of name) }
    ensures { result ≡ definition.number_in given.now (text_of name) }
{
    match value_in(given, name.text()) {
        Some(value) => number_of(value.as_bytes()) as usize,
        None => 0,
    }
}
