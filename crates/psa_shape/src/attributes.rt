//! The first fault of the attributes of an element.
ghost use Rattle.std.specs.Prelude.{◌≡◌, [], map, filter_map};
ghost use Rattle.std.specs.List.{list_any, slice_get};
ghost use Rattle.std.specs.Option.{option_map, option_copied};
ghost use Rattle.std.specs.Str.{bytes_eq};
ghost use Rattle.psa_model.specs.declared.fault.FaultKind.TheVariants.{BadAttribute};
ghost use Rattle.psa_elements.specs.ShapeFaults as definition;
ghost use Rattle.psa_shape.specs.TableRules.{seen_attribute, seen_rule};
ghost use Rattle.psa_shape.specs.FoundFaults.{own_faults_by, seen_fault};

use crate::rules::{AttributeRule, Rule};
use crate::values::value_fault;
use psa_model::FaultKind;
use psa_text::Attribute;

/// What is wrong with an element by itself: the kind of fault, and the name that it prints.
#[derive(Clone, Copy)]
pub struct ElementFault<'a> {
    pub kind: FaultKind,
    pub name: &'a str,
}

/// The first fault of an element's attributes, by its rule.
pub fn own_fault<'a>(rule: &Rule, tag: &'a str, given: &'a [Attribute]) -> Option<ElementFault<'a>>
    ensures { option_map seen_fault result
        ≡ slice_get (own_faults_by (seen_rule rule.now) tag.now given.now) 0 }
{
    match rule.attributes {
        Some(rules) => attribute_fault(rules, tag, given),
        None => None,
    }
}

/// The first fault of attributes: as they stand, then those that are missing, then their values.
fn attribute_fault<'a>(
    rules: &'static [AttributeRule],
    tag: &'a str,
    given: &'a [Attribute],
) -> Option<ElementFault<'a>>
    ensures { option_map seen_fault result
        ≡ slice_get
        (definition.attribute_faults tag.now (map seen_attribute rules.now) given.now) 0 }
{
    if let Some(name) = unknown_or_repeated(rules, given) {
        return Some(bad_attribute(name));
    }
    if let Some(name) = missing(rules, given) {
        return Some(bad_attribute(name));
    }
    wrong_value(rules, tag, given)
}

/// A fault that prints the name of an attribute.
fn bad_attribute(name: &str) -> ElementFault<'_>
    ensures { seen_fault result ≡ (BadAttribute, name.now) }
{
    ElementFault {
        kind: FaultKind::BadAttribute,
        name,
    }
}

/// Whether an attribute has the name.
fn is_given(given: &[Attribute], name: &str) -> bool
    ensures { result ≡ list_any (definition.has_name name.now) given.now }
{
    given.iter().any(|one| one.name.as_str() == name)
}

/// Whether a rule has the name.
fn is_known(rules: &[AttributeRule], name: &str) -> bool
    ensures { result
        ≡ list_any (λ rule. bytes_eq rule.name name.now) (map seen_attribute rules.now) }
{
    for rule in rules {
        if rule.name.text() == name {
            return true;
        }
    }
    false
}

/// The first name that no rule has, or that stands before.
fn unknown_or_repeated<'a>(rules: &[AttributeRule], given: &'a [Attribute]) -> Option<&'a str>
    ensures { option_copied result
        ≡ slice_get
        (definition.unknown_or_repeated (map seen_attribute rules.now) [] given.now) 0 }
{
    for (place, one) in given.iter().enumerate() {
        let name = one.name.as_str();
        if !is_known(rules, name) || is_given(&given[..place], name) {
            return Some(name);
        }
    }
    None
}

/// The first required name that does not stand.
fn missing(rules: &'static [AttributeRule], given: &[Attribute]) -> Option<&'static str>
    ensures { option_copied result
        ≡ slice_get (definition.missing (map seen_attribute rules.now) given.now) 0 }
{
    for rule in rules {
        if rule.is_required && !is_given(given, rule.name.text()) {
            return Some(rule.name.text());
        }
    }
    None
}

/// The value of the attribute of this name.
pub fn value_in<'a>(given: &'a [Attribute], name: &str) -> Option<&'a str>
    ensures { option_copied result ≡ definition.value_in given.now name.now }
{
    for one in given {
        if one.name.as_str() == name {
            return Some(one.value.as_str());
        }
    }
    None
}

/// The first value that is wrong, in the order of the rules.
fn wrong_value<'a>(
    rules: &'static [AttributeRule],
    tag: &'a str,
    given: &'a [Attribute],
) -> Option<ElementFault<'a>>
    ensures { option_map seen_fault result
        ≡ slice_get
        (filter_map (definition.wrong_value tag.now given.now) (map seen_attribute rules.now))
        0 }
{
    for rule in rules {
        if let Some(fault) = wrong_by(*rule, tag, given) {
            return Some(fault);
        }
    }
    None
}

/// The fault of the value that a rule is on.
fn wrong_by<'a>(
    rule: AttributeRule,
    tag: &'a str,
    given: &'a [Attribute],
) -> Option<ElementFault<'a>>
    ensures { option_map seen_fault result
        ≡ definition.wrong_value tag.now given.now (seen_attribute rule) }
{
    let value = value_in(given, rule.name.text())?;
    let kind = value_fault(rule.allowed, value)?;
    Some(ElementFault {
        kind,
        name: printed(kind, tag, rule.name.text()),
    })
}

/// The name that the fault of a value prints: a bad name the tag, every other the attribute.
fn printed<'a>(kind: FaultKind, tag: &'a str, name: &'a str) -> &'a str
    ensures { result.now ≡ definition.printed kind tag.now name.now }
{
    match kind {
        FaultKind::BadName => tag,
        _ => name,
    }
}
