ghost use Rattle.std.specs.Prelude.{◌≡◌, ◌<◌, ◌≤◌, ◌+◌, ◌&&◌, ◌^◌, length, nat_le, IfOk};
ghost use Rattle.psa_model.specs.Formulas.{count_true};
ghost use Rattle.psa_prep.specs.Connectives.{AreOperands, MakesOf, IsPartly};
ghost use Rattle.psa_prep.specs.Counting.{IsRow, MakesRow, MakesCount, first_pairs};
ghost use Rattle.psa_prep.specs.Lowering.{world_of, both_signs};
ghost use Rattle.psa_prep.specs.Sound.{IsSound};

use crate::builder::Builder;
use crate::connectives::Operands;
use crate::lowering::Context;
use crate::pairs::{Pair, Signs, join_pair};
use psa_text::OutOfMemory;
use sqlite_items::at;
use std::alloc::Global;

/// From `min` to `max` of the arguments.
pub fn cardinality(
    builder: &mut Builder,
    context: &Context,
    operands: &Operands,
    signs: Signs,
) -> Result<Pair, OutOfMemory>
    requires operands { AreOperands context.now operands.now builder.old (λ i. both_signs) }
    requires max { operands.now.max + 1 < 2 ^ 32 }
    requires part { IsPartly context.now operands.now (λ values.
        nat_le operands.now.min (count_true values)
        && nat_le (count_true values) operands.now.max) }
    requires sound { IsSound (world_of context.now) builder.old }
    ensures { IfOk result (MakesOf context.now operands.now (λ values.
        nat_le operands.now.min (count_true values)
        && nat_le (count_true values) operands.now.max) signs builder.old builder.new) }
{
    let low = at_least(builder, context, operands, signs, operands.min)?;
    let high = at_least(
        builder,
        context,
        operands,
        signs.swapped(),
        operands.max + 1,
    )?;
    join_pair(builder, signs, true, low, high.swapped())
}

/// At least `bound` of the arguments, by rows from the last argument to the first: ranks ascend from the
/// left, so the diagrams of a row stand in those of the row before its place. The work and the nodes are
/// in proportion to the arguments times the bound.
pub fn at_least(
    builder: &mut Builder,
    context: &Context,
    operands: &Operands,
    signs: Signs,
    bound: u32,
) -> Result<Pair, OutOfMemory>
    requires operands { AreOperands context.now operands.now builder.old (λ i. signs) }
    requires sound { IsSound (world_of context.now) builder.old }
    ensures { IfOk result (MakesOf context.now operands.now
        (λ values. nat_le bound (count_true values)) signs builder.old builder.new) }
{
    let bound = bound as usize;
    let mut row = first_row(context.alloc, bound)?;
    for place in (0..operands.pairs.len()).rev() {
        row = next_row(builder, context, operands, signs, place, row.as_slice())?;
    }
    match at(row.as_slice(), bound) {
        Some(pair) => Ok(*pair),
        None => unreachable!(),
    }
}

/// For each count up to the bound, whether at least so many of no arguments are true.
fn first_row(alloc: Global, bound: usize) -> Result<Vec<Pair>, OutOfMemory>
    ensures { IfOk result (λ row. row.items ≡ first_pairs bound) }
{
    let mut row = Vec::new(alloc);
    row.push(Pair::constant(true))?;
    for _count in 0..bound {
        row.push(Pair::constant(false))?;
    }
    Ok(row)
}

/// The row of the arguments after a place, with the one at the place.
fn next_row(
    builder: &mut Builder,
    context: &Context,
    operands: &Operands,
    signs: Signs,
    place: usize,
    row: &[Pair],
) -> Result<Vec<Pair>, OutOfMemory>
    requires place { place < length operands.now.pairs.now }
    requires operands { AreOperands context.now operands.now builder.old (λ i. signs) }
    requires row { IsRow context.now operands.now signs (length row.now) (place + 1)
        builder.old row.now }
    requires some { 0 < length row.now }
    requires sound { IsSound (world_of context.now) builder.old }
    ensures { IfOk result (λ next. MakesRow context.now operands.now signs (length row.now) place
        (length row.now) builder.old builder.new next.items) }
{
    let mut next = Vec::with_capacity(context.alloc, row.len())?;
    next.push(Pair::constant(true))?;
    for count in 1..row.len() {
        let here = next_count(builder, context, operands, signs, place, count, row)?;
        next.push(here)?;
    }
    Ok(next)
}

/// At least `count` of the arguments from a place on: the one at it and one less of those after, or as
/// many of those after. What the arguments before the place are too few for is not made.
fn next_count(
    builder: &mut Builder,
    context: &Context,
    operands: &Operands,
    signs: Signs,
    place: usize,
    count: usize,
    row: &[Pair],
) -> Result<Pair, OutOfMemory>
    requires place { place < length operands.now.pairs.now }
    requires some { 0 < count }
    requires count { count < length row.now }
    requires operands { AreOperands context.now operands.now builder.old (λ i. signs) }
    requires row { IsRow context.now operands.now signs (length row.now) (place + 1)
        builder.old row.now }
    requires sound { IsSound (world_of context.now) builder.old }
    ensures { IfOk result (MakesCount context.now operands.now signs (length row.now) place count
        builder.old builder.new) }
{
    if count + place + 1 < row.len() {
        return Ok(row[count]);
    }
    let with = join_pair(builder, signs, true, operands.pairs[place], row[count - 1])?;
    join_pair(builder, signs, false, with, row[count])
}
