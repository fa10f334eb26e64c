ghost use Rattle.std.specs.Prelude.{IfOk, map};
ghost use Rattle.std.specs.List.{flat_map};
ghost use Rattle.psa_names.specs.Outlines.{expression_outline};
ghost use Rattle.psa_names.specs.Chains.{references_in};
ghost use Rattle.psa_names.specs.Resolved.{resolved_expression};
ghost use Rattle.psa_bodies.specs.Reading.{Reads};

use crate::cursor::Cursor;
use crate::numbers::{Numbers, next_id};
use psa_model::{DefinitionKind, DraftExpression, Expression, ParameterId};
use psa_text::{Items, OutOfMemory};
use std::alloc::Global;

/// An expression with the places of its parameters. It calls itself as deep as the expression is.
#[cycle(expression)]
pub fn resolve_expression(
    alloc: Global,
    numbers: &Numbers,
    cursor: &mut Cursor,
    expression: &DraftExpression,
) -> Result<Expression, OutOfMemory>
    ensures { IfOk result (Reads numbers.now cursor.old cursor.new
        (references_in (expression_outline expression.now))
        (λ entries from. resolved_expression entries from expression.now)) }
{
    match expression {
        DraftExpression::Number(decimal) => Ok(Expression::Number(*decimal)),
        DraftExpression::Parameter(_) => {
            let id = next_id(numbers, cursor, DefinitionKind::Parameter);
            Ok(Expression::Parameter(ParameterId(id)))
        }
        DraftExpression::MissionTime => Ok(Expression::MissionTime),
        DraftExpression::Operation {
            operator,
            arguments,
        } => {
            let arguments = resolve_expressions(alloc, numbers, cursor, arguments.as_slice())?;
            Ok(Expression::Operation {
                operator: *operator,
                arguments,
            })
        }
    }
}

/// Expressions in order.
#[cycle(expression)]
fn resolve_expressions(
    alloc: Global,
    numbers: &Numbers,
    cursor: &mut Cursor,
    expressions: &[DraftExpression],
) -> Result<Items<Expression>, OutOfMemory>
    ensures { IfOk result (Reads numbers.now cursor.old cursor.new
        (flat_map (λ one. references_in (expression_outline one)) expressions.now)
        (λ entries from. map (resolved_expression entries from) expressions.now)) }
{
    let mut made = Items::new(alloc);
    for expression in expressions {
        made.push(resolve_expression(alloc, numbers, cursor, expression)?)?;
    }
    Ok(made)
}
