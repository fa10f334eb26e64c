ghost use Rattle.std.specs.Prelude.{◌≡◌, true, map, IfOk};
ghost use Rattle.std.specs.List.{list_all};
ghost use Rattle.psa_model.specs.declared.expression.Expression.TheVariants as expression_form;
ghost use Rattle.psa_model.specs.Values.{all_computed, value_within};
ghost use Rattle.psa_expr.specs.Answers.{AllRight, Answered, interval_at, is_enough};

use crate::operations::{Computed, operate};
use crate::parameters::{Known, record_value, value_of};
use psa_model::{Expression, Model, ParameterId};
use psa_number::{Decimal, Interval, NumberFault, interval_of};
use psa_text::{Items, OutOfMemory};
use sqlite_items::at;
use std::alloc::Global;

/// What expressions are evaluated in: a model, at a mission time.
#[derive(Clone, Copy)]
pub struct Setting<'a> {
    pub model: &'a Model,
    pub mission: Decimal,
}

/// The interval of an expression of at most `depth` levels. The recursion is at most so deep, and each
/// parameter is evaluated at most once.
#[cycle(evaluation)]
pub fn expression_value(
    alloc: Global,
    setting: &Setting,
    known: &mut Known,
    expression: &Expression,
    depth: u32,
) -> Result<Computed, OutOfMemory>
    requires within { value_within depth setting.now.model.now expression.now ≡ true }
    requires right { AllRight setting.now.mission setting.now.model.now known.old }
    ensures { IfOk result (Answered setting.now.mission setting.now.model.now
        (is_enough setting.now.model.now expression.now)
        (interval_at setting.now.mission setting.now.model.now expression.now) known.new) }
{
    match expression {
        Expression::Number(decimal) => Ok(Ok(interval_of(*decimal))),
        Expression::Parameter(id) => parameter_value(alloc, setting, known, *id, depth),
        Expression::MissionTime => Ok(Ok(interval_of(setting.mission))),
        Expression::Operation {
            operator,
            arguments,
        } => {
            let arguments = arguments.as_slice();
            match argument_values(alloc, setting, known, arguments, depth - 1)? {
                Ok(values) => Ok(operate(*operator, values.as_slice())),
                Err(fault) => Ok(Err(fault)),
            }
        }
    }
}

/// The interval of a parameter, evaluated where it is not known.
#[cycle(evaluation)]
fn parameter_value(
    alloc: Global,
    setting: &Setting,
    known: &mut Known,
    id: ParameterId,
    depth: u32,
) -> Result<Computed, OutOfMemory>
    requires within { value_within depth setting.now.model.now (expression_form.Parameter id) ≡ true }
    requires right { AllRight setting.now.mission setting.now.model.now known.old }
    ensures { IfOk result (Answered setting.now.mission setting.now.model.now
        (is_enough setting.now.model.now (expression_form.Parameter id))
        (interval_at setting.now.mission setting.now.model.now (expression_form.Parameter id)) known.new) }
{
    if let Some(value) = value_of(known, id) {
        return Ok(Ok(value));
    }
    match at(setting.model.parameters.as_slice(), id.0 as usize) {
        Some(parameter) => {
            match expression_value(alloc, setting, known, &parameter.expression, depth - 1)? {
                Ok(value) => {
                    record_value(known, id, value);
                    Ok(Ok(value))
                }
                Err(fault) => Ok(Err(fault)),
            }
        }
        None => Ok(Err(NumberFault::NotDecimal)),
    }
}

/// The intervals of expressions from left to right, or the fault of the first that has one.
#[cycle(evaluation)]
fn argument_values(
    alloc: Global,
    setting: &Setting,
    known: &mut Known,
    arguments: &[Expression],
    depth: u32,
) -> Result<Result<Items<Interval>, NumberFault>, OutOfMemory>
    requires within { list_all (λ g. is_enough setting.now.model.now g depth) arguments.now ≡ true }
    requires right { AllRight setting.now.mission setting.now.model.now known.old }
    ensures { IfOk result (Answered setting.now.mission setting.now.model.now
        (λ n. list_all (λ g. is_enough setting.now.model.now g n) arguments.now)
        (λ n. all_computed (map (λ g. interval_at setting.now.mission setting.now.model.now g n) arguments.now))
        known.new) }
{
    let mut values = Items::new(alloc);
    for argument in arguments {
        match expression_value(alloc, setting, known, argument, depth)? {
            Ok(value) => values.push(value)?,
            Err(fault) => return Ok(Err(fault)),
        }
    }
    Ok(Ok(values))
}
