//! The walk over the elements of a file.
ghost use Rattle.std.specs.Prelude.{◌≡◌, flat_map, map};
ghost use Rattle.psa_text.specs.declared.tree.Element.TheViews.{out-Element};
ghost use Rattle.psa_model.specs.declared.fault.FaultKind.TheVariants.{UnknownElement};
ghost use Rattle.psa_elements.specs.ShapeFaults as definition;
ghost use Rattle.psa_shape.specs.TableRows.{row_of};
ghost use Rattle.psa_shape.specs.TableRules.{seen_rule};
ghost use Rattle.psa_shape.specs.FoundFaults.{Finds, Tells, seen_fault, child_faults_by};

use crate::attributes::{ElementFault, own_fault};
use crate::contents::is_well_shaped;
use crate::rows::Row;
use crate::rules::Rule;
use crate::table::{row_inside, rule_of};
use psa_elements::ReadError;
use psa_model::{FaultKind, ModelFault};
use psa_text::{Element, Text};
use std::alloc::Global;

/// A fault at a line of a file.
pub fn fault(alloc: Global, file: u32, line: u32, found: ElementFault) -> ReadError
    ensures { Tells result (λ f. f ≡ definition.fault_at file line (seen_fault found.entry)) }
{
    match Text::from_str(alloc, found.name) {
        Ok(name) => ReadError::Fault(ModelFault {
            kind: found.kind,
            file,
            line,
            name,
        }),
        Err(_) => ReadError::Memory,
    }
}

/// An element that has no row where it stands.
pub fn unknown(alloc: Global, file: u32, element: &Element) -> ReadError
    ensures { Tells result (λ f. f
        ≡ definition.fault_at file (out-Element element.now).line
        (UnknownElement, (out-Element element.now).tag)) }
{
    let found = ElementFault {
        kind: FaultKind::UnknownElement,
        name: element.tag.as_str(),
    };
    fault(alloc, file, element.line, found)
}

/// The first fault of an element of a row: of its attributes, of its children, then of their number
/// and order.
#[cycle(element)]
pub fn check_element(alloc: Global, file: u32, row: Row, element: &Element) -> Result<(), ReadError>
    ensures { Finds ((definition.element_faults file element.now).faults (row_of row)) result }
{
    let rule = rule_of(row);
    let given = element.attributes.as_slice();
    let children = element.children.as_slice();
    if let Some(found) = own_fault(&rule, element.tag.as_str(), given) {
        return Err(fault(alloc, file, element.line, found));
    }
    check_children(alloc, file, &rule, children)?;
    if !is_well_shaped(row, &rule, given, children) {
        let found = ElementFault {
            kind: FaultKind::BadShape,
            name: element.tag.as_str(),
        };
        return Err(fault(alloc, file, element.line, found));
    }
    Ok(())
}

/// The first fault of the children of an element with this rule, one after another.
#[cycle(element)]
fn check_children(
    alloc: Global,
    file: u32,
    rule: &Rule,
    children: &[Element],
) -> Result<(), ReadError>
    ensures { Finds
        (flat_map (child_faults_by file (seen_rule rule.now))
        (map (definition.element_faults file) children.now)) result }
{
    for child in children {
        match row_inside(rule, child.tag.as_str()) {
            Some(row) => check_element(alloc, file, row, child)?,
            None => return Err(unknown(alloc, file, child)),
        }
    }
    Ok(())
}
