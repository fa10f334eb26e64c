ghost use Rattle.std.specs.Prelude.{◌≡◌, ◌+◌, [], ◌∷◌, Some, IfOk, OnOk};
ghost use Rattle.psa_elements.specs.DraftReading.{formula_in as formula_in_readings, formula_of, state_in as state_of_readings};
ghost use Rattle.psa_elements.specs.ElementTable.{constant, formulas, connective as connective_row};
ghost use Rattle.psa_draft_parts.specs.Sayings.{IsReadable, inside_among, reading_among, reading_as, size_of};
ghost use Rattle.psa_draft_parts.specs.Events.{event_as};
ghost use Rattle.psa_draft_parts.specs.Starts.{around_of, start_of};

use crate::attributes::{event_kind, has_value, least_of, most_of, reference};
use crate::counting::pass_over;
use crate::lists::{keep_first, push_found};
use crate::rows::{FormulaRow, formula_row};
use crate::start::{Around, Reader, StartTag};
use psa_model::{Connective, DraftFormula, EventKind};
use psa_text::{Element, Items, OutOfMemory};
use std::alloc::Global;

/// The formula that an element says, None where it says none.
#[cycle(formula)]
pub fn formula(
    reader: &mut Reader,
    around: &Around,
    element: &Element,
) -> Result<Option<DraftFormula>, OutOfMemory>
    requires { IsReadable reader.old.number element.now }
    ensures counted { OnOk result (reader.new.number ≡ reader.old.number + size_of element.now) }
    ensures said { IfOk result (λ found. found ≡ formula_of
        (reading_among formulas (around_of around.now) reader.old.number element.now)) }
{
    let start = StartTag {
        around,
        element,
        number: reader.number,
    };
    match formula_row(element.tag.as_str()) {
        Some(FormulaRow::Connective(operator)) => {
            Ok(Some(connective(reader, operator, around, element)?))
        }
        Some(FormulaRow::Event(kind)) => {
            pass_over(reader, element);
            Ok(Some(event(reader.alloc, kind, &start)?))
        }
        Some(FormulaRow::Constant) => {
            pass_over(reader, element);
            Ok(Some(DraftFormula::Constant(has_value(&start, "value", "true"))))
        }
        None => {
            pass_over(reader, element);
            Ok(None)
        }
    }
}

/// The connective of the formulas in an element.
#[cycle(formula)]
fn connective(
    reader: &mut Reader,
    operator: Connective,
    around: &Around,
    element: &Element,
) -> Result<DraftFormula, OutOfMemory>
    requires { IsReadable reader.old.number element.now }
    ensures counted { OnOk result (reader.new.number ≡ reader.old.number + size_of element.now) }
    ensures said { IfOk result (λ found. Some found ≡ formula_of
        (reading_as (connective_row operator) (around_of around.now) reader.old.number
        element.now)) }
{
    let start = StartTag {
        around,
        element,
        number: reader.number,
    };
    reader.number += 1;
    let children = element.children.as_slice();
    let mut arguments = Items::new(reader.alloc);
    for child in children {
        let argument = formula(reader, around, child)?;
        push_found(&mut arguments, argument)?;
    }
    Ok(DraftFormula::Connective {
        operator,
        min: least_of(operator, &start),
        max: most_of(operator, &start),
        arguments,
    })
}

/// The event that an element refers to, of this kind or by its type.
fn event(alloc: Global, kind: EventKind, start: &StartTag) -> Result<DraftFormula, OutOfMemory>
    ensures { IfOk result (λ found. found ≡ event_as kind (start_of start.now)) }
{
    let kind = match kind {
        EventKind::Any => event_kind(start),
        _ => kind,
    };
    Ok(DraftFormula::Event(kind, reference(alloc, start)?))
}

/// The one formula in an element: the first, or false where there is none. The element itself is
/// counted too.
pub fn formula_in(
    reader: &mut Reader,
    around: &Around,
    element: &Element,
) -> Result<DraftFormula, OutOfMemory>
    requires { IsReadable reader.old.number element.now }
    ensures counted { OnOk result (reader.new.number ≡ reader.old.number + size_of element.now) }
    ensures said { IfOk result (λ found. found ≡ formula_in_readings
        (inside_among formulas (around_of around.now) reader.old.number element.now)) }
{
    reader.number += 1;
    let children = element.children.as_slice();
    let mut first = None;
    for child in children {
        let found = formula(reader, around, child)?;
        keep_first(&mut first, found);
    }
    Ok(first.unwrap_or(DraftFormula::Constant(false)))
}

/// The state that a `constant` in an element gives, false without one. The element itself is counted
/// too.
pub fn state_in(reader: &mut Reader, around: &Around, element: &Element) -> bool
    requires { IsReadable reader.old.number element.now }
    ensures counted { reader.new.number ≡ reader.old.number + size_of element.now }
    ensures said { result ≡ state_of_readings
        (inside_among (constant ∷ []) (around_of around.now) reader.old.number element.now) }
{
    reader.number += 1;
    let children = element.children.as_slice();
    let mut state = false;
    for child in children {
        let found = is_true_constant(reader, around, child);
        state = state || found;
    }
    state
}

/// Whether an element is the constant true.
fn is_true_constant(reader: &mut Reader, around: &Around, element: &Element) -> bool
    requires { IsReadable reader.old.number element.now }
    ensures counted { reader.new.number ≡ reader.old.number + size_of element.now }
    ensures said { result ≡ state_of_readings
        (reading_among (constant ∷ []) (around_of around.now) reader.old.number element.now
        ∷ []) }
{
    let start = StartTag {
        around,
        element,
        number: reader.number,
    };
    pass_over(reader, element);
    element.tag.as_str() == "constant" && has_value(&start, "value", "true")
}
