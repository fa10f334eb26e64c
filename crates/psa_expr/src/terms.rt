ghost use Rattle.std.specs.Prelude.{◌≡◌, ◌≤◌, ◌<◌, ◌+◌, ◌==◌, ◌∷◌, [], true, map, find, option_copied, IfOk};
ghost use Rattle.std.specs.List.{list_all};
ghost use Rattle.psa_model.specs.declared.expression.Expression.TheVariants as expression_form;
ghost use Rattle.psa_model.specs.Expansion.{factor_at};
ghost use Rattle.psa_model.specs.Values.{all_computed, on_values};
ghost use Rattle.psa_expr.specs.Answers.{AllRight, interval_at};
ghost use Rattle.psa_expr.specs.Small.{is_small};
ghost use Rattle.psa_expr.specs.Terms.{Settled, has_values, own_levels, term_expression};

use crate::evaluation::{Setting, expression_value};
use crate::operations::{Computed, operate, operate_on_two, whole};
use crate::parameters::Known;
use psa_model::{ExpressionOperator, Factor, Group, MAX_DEPTH, MAX_NESTING};
use psa_number::{Interval, NumberFault};
use psa_text::{Items, OutOfMemory};
use std::alloc::Global;

/// A part of the quantity of a group's subsets.
#[derive(Clone, Copy, Drop)]
pub enum Term {
    /// A whole number.
    Whole(u32),
    /// The distribution of the group.
    Distribution,
    /// The factor of a level.
    Factor(u32),
    /// 1 less the factor of a level.
    Remainder(u32),
    /// The factor of a level times the level.
    Weighted(u32),
}

/// The factor of a level.
fn factor_of(group: &Group, level: u32) -> Option<&Factor>
    ensures { option_copied result ≡ find (λ factor. factor.level == level) group.now.factors }
{
    group
        .factors
        .as_slice()
        .iter()
        .find(|factor| factor.level == level)
}

/// The interval of the factor of a level.
fn factor_value(
    alloc: Global,
    setting: &Setting,
    known: &mut Known,
    group: &Group,
    level: u32,
) -> Result<Computed, OutOfMemory>
    requires values { has_values setting.now.model.now group.now ≡ true }
    requires right { AllRight setting.now.mission setting.now.model.now known.old }
    ensures { IfOk result (Settled setting.now.mission setting.now.model.now own_levels
        (interval_at setting.now.mission setting.now.model.now (factor_at group.now level)) known.new) }
{
    match factor_of(group, level) {
        Some(factor) => {
            expression_value(
                alloc,
                setting,
                known,
                &factor.expression,
                MAX_NESTING + MAX_DEPTH,
            )
        }
        None => Ok(Ok(whole(0))),
    }
}

/// The interval of a part of a quantity.
fn term_value(
    alloc: Global,
    setting: &Setting,
    known: &mut Known,
    group: &Group,
    term: Term,
) -> Result<Computed, OutOfMemory>
    requires small { is_small term ≡ true }
    requires values { has_values setting.now.model.now group.now ≡ true }
    requires right { AllRight setting.now.mission setting.now.model.now known.old }
    ensures { IfOk result (Settled setting.now.mission setting.now.model.now (own_levels + 1)
        (interval_at setting.now.mission setting.now.model.now (term_expression group.now term)) known.new) }
{
    match term {
        Term::Whole(value) => Ok(Ok(whole(value))),
        Term::Distribution => {
            let depth = MAX_NESTING + MAX_DEPTH;
            expression_value(alloc, setting, known, &group.distribution, depth)
        }
        Term::Factor(level) => factor_value(alloc, setting, known, group, level),
        Term::Remainder(level) => {
            let factor = factor_value(alloc, setting, known, group, level)?;
            Ok(operate_on_two(ExpressionOperator::Sub, Ok(whole(1)), factor))
        }
        Term::Weighted(level) => {
            let factor = factor_value(alloc, setting, known, group, level)?;
            Ok(operate_on_two(ExpressionOperator::Mul, Ok(whole(level)), factor))
        }
    }
}

/// The intervals of parts from left to right, or the fault of the first that has one.
fn term_values(
    alloc: Global,
    setting: &Setting,
    known: &mut Known,
    group: &Group,
    terms: &[Term],
) -> Result<Result<Items<Interval>, NumberFault>, OutOfMemory>
    requires small { list_all is_small terms.now ≡ true }
    requires values { has_values setting.now.model.now group.now ≡ true }
    requires right { AllRight setting.now.mission setting.now.model.now known.old }
    ensures { IfOk result (Settled setting.now.mission setting.now.model.now (own_levels + 1)
        (λ n. all_computed (map (λ term. interval_at setting.now.mission setting.now.model.now
        (term_expression group.now term) n) terms.now)) known.new) }
{
    let mut values = Items::new(alloc);
    for term in terms {
        match term_value(alloc, setting, known, group, *term)? {
            Ok(value) => values.push(value)?,
            Err(fault) => return Ok(Err(fault)),
        }
    }
    Ok(Ok(values))
}

/// An operation on parts: all parts are computed before it begins.
pub fn operation_value(
    alloc: Global,
    setting: &Setting,
    known: &mut Known,
    group: &Group,
    operator: ExpressionOperator,
    terms: &[Term],
) -> Result<Computed, OutOfMemory>
    requires small { list_all is_small terms.now ≡ true }
    requires values { has_values setting.now.model.now group.now ≡ true }
    requires right { AllRight setting.now.mission setting.now.model.now known.old }
    ensures { IfOk result (Settled setting.now.mission setting.now.model.now (own_levels + 2)
        (interval_at setting.now.mission setting.now.model.now
        (expression_form.Operation operator (map (term_expression group.now) terms.now))) known.new) }
{
    match term_values(alloc, setting, known, group, terms)? {
        Ok(values) => Ok(operate(operator, values.as_slice())),
        Err(fault) => Ok(Err(fault)),
    }
}
