ghost use Rattle.std.specs.Prelude.{◌≡◌, ◌+◌, Some, IfOk, OnOk, slice_get};
ghost use Rattle.psa_elements.specs.DraftReading.{expression_in as expression_in_readings, expression_of, expressions_in};
ghost use Rattle.psa_elements.specs.ElementTable.{expressions, operator as operator_row};
ghost use Rattle.psa_draft_parts.specs.Sayings.{IsReadable, inside_among, reading_among, reading_as, size_of};
ghost use Rattle.psa_draft_parts.specs.Starts.{around_of};

use crate::attributes::{decimal_in, reference};
use crate::counting::pass_over;
use crate::lists::{keep_first, push_found};
use crate::rows::{ExpressionRow, expression_row};
use crate::start::{Around, Reader, StartTag};
use psa_model::{DraftExpression, ExpressionOperator};
use psa_text::{Element, Items, OutOfMemory};

/// The expression that an element says, None where it says none.
#[cycle(expression)]
pub fn expression(
    reader: &mut Reader,
    around: &Around,
    element: &Element,
) -> Result<Option<DraftExpression>, OutOfMemory>
    requires { IsReadable reader.old.number element.now }
    ensures counted { OnOk result (reader.new.number ≡ reader.old.number + size_of element.now) }
    ensures said { IfOk result (λ found. found ≡ expression_of
        (reading_among expressions (around_of around.now) reader.old.number element.now)) }
{
    let start = StartTag {
        around,
        element,
        number: reader.number,
    };
    match expression_row(element.tag.as_str()) {
        Some(ExpressionRow::Operation(operator)) => {
            Ok(Some(operation(reader, operator, around, element)?))
        }
        Some(ExpressionRow::Float) => {
            pass_over(reader, element);
            Ok(Some(DraftExpression::Number(decimal_in(&start))))
        }
        Some(ExpressionRow::Int) => {
            pass_over(reader, element);
            Ok(Some(DraftExpression::Number(decimal_in(&start))))
        }
        Some(ExpressionRow::Parameter) => {
            pass_over(reader, element);
            Ok(Some(DraftExpression::Parameter(reference(reader.alloc, &start)?)))
        }
        Some(ExpressionRow::MissionTime) => {
            pass_over(reader, element);
            Ok(Some(DraftExpression::MissionTime))
        }
        None => {
            pass_over(reader, element);
            Ok(None)
        }
    }
}

/// The operation on the expressions in an element.
#[cycle(expression)]
fn operation(
    reader: &mut Reader,
    operator: ExpressionOperator,
    around: &Around,
    element: &Element,
) -> Result<DraftExpression, OutOfMemory>
    requires { IsReadable reader.old.number element.now }
    ensures counted { OnOk result (reader.new.number ≡ reader.old.number + size_of element.now) }
    ensures said { IfOk result (λ found. Some found ≡ expression_of
        (reading_as (operator_row operator) (around_of around.now) reader.old.number
        element.now)) }
{
    reader.number += 1;
    let children = element.children.as_slice();
    let mut arguments = Items::new(reader.alloc);
    for child in children {
        let argument = expression(reader, around, child)?;
        push_found(&mut arguments, argument)?;
    }
    Ok(DraftExpression::Operation {
        operator,
        arguments,
    })
}

/// The first expression in an element, None where there is none. The element itself is counted too.
pub fn first_expression(
    reader: &mut Reader,
    around: &Around,
    element: &Element,
) -> Result<Option<DraftExpression>, OutOfMemory>
    requires { IsReadable reader.old.number element.now }
    ensures counted { OnOk result (reader.new.number ≡ reader.old.number + size_of element.now) }
    ensures said { IfOk result (λ found. found ≡ slice_get (expressions_in
        (inside_among expressions (around_of around.now) reader.old.number element.now)) 0) }
{
    reader.number += 1;
    let children = element.children.as_slice();
    let mut first = None;
    for child in children {
        let found = expression(reader, around, child)?;
        keep_first(&mut first, found);
    }
    Ok(first)
}

/// The one expression in an element: the first, or the mission time where there is none. The element
/// itself is counted too.
pub fn expression_in(
    reader: &mut Reader,
    around: &Around,
    element: &Element,
) -> Result<DraftExpression, OutOfMemory>
    requires { IsReadable reader.old.number element.now }
    ensures counted { OnOk result (reader.new.number ≡ reader.old.number + size_of element.now) }
    ensures said { IfOk result (λ found. found ≡ expression_in_readings
        (inside_among expressions (around_of around.now) reader.old.number element.now)) }
{
    let first = first_expression(reader, around, element)?;
    Ok(first.unwrap_or(DraftExpression::MissionTime))
}
