ghost use Rattle.std.specs.Prelude.{◌≡◌, ◌||◌, not, true, length, IfOk};
ghost use Rattle.psa_model.specs.Formulas.{of_two, is_same};
ghost use Rattle.psa_prep.specs.Connectives.{AreOperands, MakesWhole, MakesOf, IsPartly, gathers};
ghost use Rattle.psa_prep.specs.Lowering.{world_of, argument_signs, both_signs};
ghost use Rattle.psa_prep.specs.Pairs.{swapped};
ghost use Rattle.psa_prep.specs.Sound.{IsSound};

use crate::builder::Builder;
use crate::counting::{at_least, cardinality};
use crate::lowering::Context;
use crate::pairs::{Pair, Signs, join_pair};
use psa_model::{Connective, Formula};
use psa_text::OutOfMemory;

/// A connective, and the nodes of its arguments.
#[derive(Clone, Copy)]
pub struct Operands<'a> {
    pub operator: Connective,
    pub min: u32,
    pub max: u32,
    pub arguments: &'a [Formula],
    pub pairs: &'a [Pair],
}

/// The nodes of a connective by those of its arguments (connectives of the Open-PSA Model Exchange
/// Format 2.0d). Negation is pushed down: the opposite is made of the opposites of the arguments.
pub fn connect(
    builder: &mut Builder,
    context: &Context,
    operands: &Operands,
    signs: Signs,
) -> Result<Pair, OutOfMemory>
    requires operands { AreOperands context.now operands.now builder.old
        (λ i. argument_signs operands.now.operator i signs) }
    requires sound { IsSound (world_of context.now) builder.old }
    ensures { IfOk result (MakesWhole context.now operands.now signs builder.old builder.new) }
{
    match operands.operator {
        Connective::And => gather(builder, context, operands, signs, true),
        Connective::Or => gather(builder, context, operands, signs, false),
        Connective::Not => none_of(builder, context, operands, signs, true),
        Connective::Nand => none_of(builder, context, operands, signs, true),
        Connective::Nor => none_of(builder, context, operands, signs, false),
        Connective::Xor => differ(builder, context, operands, signs),
        Connective::Iff => {
            let pair = differ(builder, context, operands, signs.swapped())?;
            Ok(pair.swapped())
        }
        Connective::Imply => imply(builder, context, operands, signs),
        Connective::Atleast => at_least(builder, context, operands, signs, operands.min),
        Connective::Cardinality => cardinality(builder, context, operands, signs),
    }
}

/// The opposite of the conjunction, or of the disjunction, of the arguments.
fn none_of(
    builder: &mut Builder,
    context: &Context,
    operands: &Operands,
    signs: Signs,
    both: bool,
) -> Result<Pair, OutOfMemory>
    requires operands { AreOperands context.now operands.now builder.old
        (λ i. swapped signs) }
    requires sound { IsSound (world_of context.now) builder.old }
    ensures { IfOk result (MakesOf context.now operands.now
        (λ values. not (gathers both values)) signs builder.old builder.new) }
{
    let pair = gather(builder, context, operands, signs.swapped(), both)?;
    Ok(pair.swapped())
}

/// The conjunction, or the disjunction, of the arguments. They are joined from the last to the first: ranks
/// ascend from the left, so the diagram of the arguments from a place on stands in that of one more.
fn gather(
    builder: &mut Builder,
    context: &Context,
    operands: &Operands,
    signs: Signs,
    both: bool,
) -> Result<Pair, OutOfMemory>
    requires operands { AreOperands context.now operands.now builder.old (λ i. signs) }
    requires sound { IsSound (world_of context.now) builder.old }
    ensures { IfOk result (MakesOf context.now operands.now (gathers both) signs
        builder.old builder.new) }
{
    let mut pair = Pair::constant(both);
    for place in (0..operands.pairs.len()).rev() {
        pair = join_pair(builder, signs, both, operands.pairs[place], pair)?;
    }
    Ok(pair)
}

/// Exactly one of two arguments.
fn differ(
    builder: &mut Builder,
    context: &Context,
    operands: &Operands,
    signs: Signs,
) -> Result<Pair, OutOfMemory>
    requires two { length operands.now.arguments.now ≡ 2 }
    requires operands { AreOperands context.now operands.now builder.old
        (λ i. both_signs) }
    requires part { IsPartly context.now operands.now (of_two (λ a b. not (is_same a b))) }
    requires sound { IsSound (world_of context.now) builder.old }
    ensures { IfOk result (MakesOf context.now operands.now
        (of_two (λ a b. not (is_same a b))) signs builder.old builder.new) }
{
    match operands.pairs {
        [left, right] => {
            let first = join_pair(builder, signs, true, *left, right.swapped())?;
            let second = join_pair(builder, signs, true, left.swapped(), *right)?;
            join_pair(builder, signs, false, first, second)
        }
        _ => unreachable!(),
    }
}

/// The second argument wherever the first is true.
fn imply(
    builder: &mut Builder,
    context: &Context,
    operands: &Operands,
    signs: Signs,
) -> Result<Pair, OutOfMemory>
    requires two { length operands.now.arguments.now ≡ 2 }
    requires operands { AreOperands context.now operands.now builder.old
        (λ i. argument_signs Connective.Imply i signs) }
    requires part { IsPartly context.now operands.now (of_two (λ a b. not a || b)) }
    requires sound { IsSound (world_of context.now) builder.old }
    ensures { IfOk result (MakesOf context.now operands.now
        (of_two (λ a b. not a || b)) signs builder.old builder.new) }
{
    match operands.pairs {
        [left, right] => join_pair(builder, signs, false, left.swapped(), *right),
        _ => unreachable!(),
    }
}
