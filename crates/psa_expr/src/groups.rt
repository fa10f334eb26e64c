ghost use Rattle.std.specs.Prelude.{◌≡◌, ◌==◌, ◌≤◌, ◌+◌, ◌-◌, ◌++◌, ◌∷◌, [], suc, true, map, IfOk, OnOk, if◌then◌else◌};
ghost use Rattle.std.specs.List.{list_all, range_with_len};
ghost use Rattle.psa_model.specs.Expansion.{alpha_quantity, beta_quantity, choose, mgl_quantity, quantity_of};
ghost use Rattle.psa_expr.specs.Answers.{AllRight, interval_at};
ghost use Rattle.psa_expr.specs.Groups.{alpha_divisor_of, mgl_terms};
ghost use Rattle.psa_expr.specs.Small.{is_small};
ghost use Rattle.psa_expr.specs.Terms.{Settled, has_values, own_levels};

use crate::counts::choices;
use crate::evaluation::Setting;
use crate::operations::{Computed, operate_on_two, whole};
use crate::parameters::Known;
use crate::terms::{Term, operation_value};
use psa_model::{ExpressionOperator, Group, GroupModel, MAX_MEMBERS};
use psa_text::{Items, OutOfMemory};
use std::alloc::Global;

/// The interval of the quantity of each subset of a size, of so many members. (The formulas of the beta
/// factor, of multiple Greek letters and of the alpha factor are those of the Open-PSA Model Exchange
/// Format 2.0d, for a non-staggered test scheme.)
pub fn group_value(
    alloc: Global,
    setting: &Setting,
    known: &mut Known,
    group: &Group,
    count: u8,
    size: u8,
) -> Result<Computed, OutOfMemory>
    requires few { count ≤ MAX_MEMBERS }
    requires within { size ≤ count }
    requires values { has_values setting.now.model.now group.now ≡ true }
    requires right { AllRight setting.now.mission setting.now.model.now known.old }
    ensures { IfOk result (Settled setting.now.mission setting.now.model.now (own_levels + 4)
        (interval_at setting.now.mission setting.now.model.now
        (quantity_of group.now.model group.now count size)) known.new) }
{
    match group.model {
        GroupModel::Beta => beta_value(alloc, setting, known, group, count, size),
        GroupModel::Mgl => mgl_value(alloc, setting, known, group, count, size),
        GroupModel::Alpha => alpha_value(alloc, setting, known, group, count, size),
    }
}

/// The quantity by the beta factor.
fn beta_value(
    alloc: Global,
    setting: &Setting,
    known: &mut Known,
    group: &Group,
    count: u8,
    size: u8,
) -> Result<Computed, OutOfMemory>
    requires values { has_values setting.now.model.now group.now ≡ true }
    requires right { AllRight setting.now.mission setting.now.model.now known.old }
    ensures { IfOk result (Settled setting.now.mission setting.now.model.now (own_levels + 4)
        (interval_at setting.now.mission setting.now.model.now
        (beta_quantity group.now count size)) known.new) }
{
    let share = beta_share(count, size);
    let terms = [share, Term::Distribution];
    operation_value(
        alloc,
        setting,
        known,
        group,
        ExpressionOperator::Mul,
        &terms,
    )
}

/// The part of the distribution that a subset of a size has by the beta factor.
fn beta_share(count: u8, size: u8) -> Term
    ensures { result ≡ (if size == 1 then Term.Remainder count else Term.Factor count) }
{
    let level = u32::from(count);
    if size == 1 {
        Term::Remainder(level)
    } else {
        Term::Factor(level)
    }
}

/// The quantity by multiple Greek letters.
fn mgl_value(
    alloc: Global,
    setting: &Setting,
    known: &mut Known,
    group: &Group,
    count: u8,
    size: u8,
) -> Result<Computed, OutOfMemory>
    requires few { count ≤ MAX_MEMBERS }
    requires within { size ≤ count }
    requires values { has_values setting.now.model.now group.now ≡ true }
    requires right { AllRight setting.now.mission setting.now.model.now known.old }
    ensures { IfOk result (Settled setting.now.mission setting.now.model.now (own_levels + 4)
        (interval_at setting.now.mission setting.now.model.now
        (mgl_quantity group.now count size)) known.new) }
{
    let terms = factors_of_size(alloc, count, size)?;
    let operator = ExpressionOperator::Mul;
    let product = operation_value(alloc, setting, known, group, operator, terms.as_slice())?;
    let divisor = whole(subsets_with_a_member(count, size));
    Ok(operate_on_two(ExpressionOperator::Div, product, Ok(divisor)))
}

/// The factors of the quantity by multiple Greek letters, and the distribution.
fn factors_of_size(alloc: Global, count: u8, size: u8) -> Result<Items<Term>, OutOfMemory>
    requires { size ≤ count }
    ensures terms { IfOk result (λ terms. terms ≡ mgl_terms count size) }
    ensures small { IfOk result (λ terms. list_all is_small terms ≡ true) }
{
    let mut terms = Items::new(alloc);
    for more in 0..size.saturating_sub(1) {
        terms.push(Term::Factor(u32::from(more) + 2))?;
    }
    push_remainder(&mut terms, count, size)?;
    terms.push(Term::Distribution)?;
    Ok(terms)
}

/// Adds 1 less the next factor, except for all members.
fn push_remainder(terms: &mut Items<Term>, count: u8, size: u8) -> Result<(), OutOfMemory>
    ensures { OnOk result (terms.new ≡ terms.old
        ++ (if size == count then [] else Term.Remainder (suc size) ∷ [])) }
{
    if size == count {
        Ok(())
    } else {
        terms.push(Term::Remainder(u32::from(size) + 1))
    }
}

/// The quantity by the alpha factor.
fn alpha_value(
    alloc: Global,
    setting: &Setting,
    known: &mut Known,
    group: &Group,
    count: u8,
    size: u8,
) -> Result<Computed, OutOfMemory>
    requires few { count ≤ MAX_MEMBERS }
    requires within { size ≤ count }
    requires values { has_values setting.now.model.now group.now ≡ true }
    requires right { AllRight setting.now.mission setting.now.model.now known.old }
    ensures { IfOk result (Settled setting.now.mission setting.now.model.now (own_levels + 4)
        (interval_at setting.now.mission setting.now.model.now
        (alpha_quantity group.now count size)) known.new) }
{
    let level = u32::from(size);
    let terms = [Term::Whole(level), Term::Factor(level), Term::Distribution];
    match operation_value(
        alloc,
        setting,
        known,
        group,
        ExpressionOperator::Mul,
        &terms,
    )? {
        Ok(share) => {
            let divisor = alpha_divisor(alloc, setting, known, group, count, size)?;
            Ok(operate_on_two(ExpressionOperator::Div, Ok(share), divisor))
        }
        Err(fault) => Ok(Err(fault)),
    }
}

/// What the quantity by the alpha factor is divided by.
fn alpha_divisor(
    alloc: Global,
    setting: &Setting,
    known: &mut Known,
    group: &Group,
    count: u8,
    size: u8,
) -> Result<Computed, OutOfMemory>
    requires few { count ≤ MAX_MEMBERS }
    requires values { has_values setting.now.model.now group.now ≡ true }
    requires right { AllRight setting.now.mission setting.now.model.now known.old }
    ensures { IfOk result (Settled setting.now.mission setting.now.model.now (own_levels + 3)
        (interval_at setting.now.mission setting.now.model.now
        (alpha_divisor_of group.now count size)) known.new) }
{
    let terms = weighted_factors(alloc, count)?;
    let operator = ExpressionOperator::Add;
    let sum = operation_value(alloc, setting, known, group, operator, terms.as_slice())?;
    let subsets = whole(subsets_with_a_member(count, size));
    Ok(operate_on_two(ExpressionOperator::Mul, Ok(subsets), sum))
}

/// The factor of each level times the level.
fn weighted_factors(alloc: Global, count: u8) -> Result<Items<Term>, OutOfMemory>
    ensures terms { IfOk result (λ terms.
        terms ≡ map (λ level. Term.Weighted level) (range_with_len 1 count)) }
    ensures small { IfOk result (λ terms. list_all is_small terms ≡ true) }
{
    let mut terms = Items::new(alloc);
    for smaller in 0..count {
        terms.push(Term::Weighted(u32::from(smaller) + 1))?;
    }
    Ok(terms)
}

/// How many subsets of a size hold a given one of so many members.
fn subsets_with_a_member(count: u8, size: u8) -> u32
    requires { count ≤ MAX_MEMBERS }
    ensures exact { result ≡ choose (count - 1) (size - 1) }
    ensures small { result ≤ 256 }
{
    choices(
        u32::from(count.saturating_sub(1)),
        u32::from(size.saturating_sub(1)),
    )
}
