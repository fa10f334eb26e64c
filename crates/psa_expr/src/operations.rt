ghost use Rattle.std.specs.Prelude.{◌≡◌, ◌≤◌, ◌∷◌, []};
ghost use Rattle.psa_model.specs.Values.{all_computed, folded_ends, interval_operation, on_values};
ghost use Rattle.psa_expr.specs.Combined.{combined, whole_ends};

use psa_model::ExpressionOperator;
use psa_number::{
    Decimal, Interval, MAX_DECIMAL, NumberFault, add, div, exponential, interval_of, mul, neg, sub,
};

/// An interval, or why an operation refuses.
pub type Computed = Result<Interval, NumberFault>;

/// An operation that is folded over its arguments.
#[derive(Clone, Copy)]
enum Folded {
    Sum,
    Difference,
    Product,
    Quotient,
}

/// An operation on the values of its arguments, folded from left to right.
pub fn operate(operator: ExpressionOperator, values: &[Interval]) -> Computed
    ensures { result ≡ interval_operation operator values.now }
{
    match operator {
        ExpressionOperator::Neg => negate(values),
        ExpressionOperator::Add => fold_values(Folded::Sum, values),
        ExpressionOperator::Sub => fold_values(Folded::Difference, values),
        ExpressionOperator::Mul => fold_values(Folded::Product, values),
        ExpressionOperator::Div => fold_values(Folded::Quotient, values),
        ExpressionOperator::Exponential => distribute(values),
    }
}

/// The negative of the only value.
fn negate(values: &[Interval]) -> Computed
    ensures { result ≡ interval_operation ExpressionOperator.Neg values.now }
{
    match values {
        [value] => Ok(neg(*value)),
        _ => Err(NumberFault::NotDecimal),
    }
}

/// The exponential distribution at the only two values, a rate and a time.
fn distribute(values: &[Interval]) -> Computed
    ensures { result ≡ interval_operation ExpressionOperator.Exponential values.now }
{
    match values {
        [rate, time] => exponential(*rate, *time),
        _ => Err(NumberFault::NotDecimal),
    }
}

/// The first value, and each further one by the operation, up to the first fault.
fn fold_values(folded: Folded, values: &[Interval]) -> Computed
    ensures { result ≡ folded_ends (combined folded) values.now }
{
    if values.len() == 0 {
        return Err(NumberFault::NotDecimal);
    }
    let mut value = values[0];
    for place in 1..values.len() {
        value = match combine(folded, value, values[place]) {
            Ok(next) => next,
            Err(fault) => return Err(fault),
        };
    }
    Ok(value)
}

/// One step of a fold.
fn combine(folded: Folded, left: Interval, right: Interval) -> Computed
    ensures { result ≡ combined folded left right }
{
    match folded {
        Folded::Sum => add(left, right),
        Folded::Difference => sub(left, right),
        Folded::Product => mul(left, right),
        Folded::Quotient => div(left, right),
    }
}

/// The interval that is a whole number.
pub fn whole(value: u32) -> Interval
    requires { value ≤ MAX_DECIMAL }
    ensures { result ≡ whole_ends value }
{
    interval_of(Decimal::from_whole(value))
}

/// An operation on two values, or the fault of the first that has one.
pub fn operate_on_two(operator: ExpressionOperator, left: Computed, right: Computed) -> Computed
    ensures { result ≡ on_values operator (all_computed (left ∷ right ∷ [])) }
{
    match left {
        Ok(left) => match right {
            Ok(right) => operate(operator, &[left, right]),
            Err(fault) => Err(fault),
        },
        Err(fault) => Err(fault),
    }
}
