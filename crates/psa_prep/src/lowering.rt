ghost use Rattle.std.specs.Prelude.{◌≡◌, ◌≤◌, ℕ, suc, true, Some, IfOk};
ghost use Rattle.std.specs.List.{slice_get, list_all};
ghost use Rattle.psa_model.specs.declared.formula.Formula.{Formula as Formulas};
ghost use Rattle.psa_model.specs.declared.formula.Formula.TheVariants as variant;
ghost use Rattle.psa_model.specs.declared.model.TheConstants.{MAX_DEPTH as depth_limit};
ghost use Rattle.psa_model.specs.Parts.{Meets};
ghost use Rattle.psa_model.specs.Truth.{within};
ghost use Rattle.psa_prep.specs.Lowering.{IsContext, world_of, houses_of, Makes, MakesAll, argument_signs};
ghost use Rattle.psa_prep.specs.Sound.{IsSound};

use crate::EventIndex;
use crate::builder::{Builder, Prepared};
use crate::connectives::{Operands, connect};
use crate::events::lower_basic;
use crate::pairs::{Pair, Signs};
use crate::states::HouseStates;
use psa_model::{Connective, Expanded, Formula, GateId, Target};
use psa_text::OutOfMemory;
use sqlite_items::at;
use std::alloc::Global;
use std::collections::HashMap;

/// What a formula is prepared under.
#[derive(Clone, Copy)]
pub struct Context<'a> {
    pub alloc: Global,
    pub expanded: &'a Expanded,
    pub target: &'a Target,
    pub index: &'a EventIndex,
    /// The rank of each ranked event.
    pub ranks: &'a HashMap<u32, u32>,
    pub states: &'a HouseStates,
    /// The number of the house states in force.
    pub state: u64,
}

/// The nodes of a formula of at most `depth` levels, for the signs that are asked for.
#[cycle(lowering)]
pub fn lower(
    builder: &mut Builder,
    context: &Context,
    formula: &Formula,
    signs: Signs,
    depth: u32,
) -> Result<Pair, OutOfMemory>
    requires within { within depth context.now.expanded.now.model formula.now ≡ true }
    requires depth { depth ≤ suc depth_limit }
    requires meets { Meets context.now.expanded.now context.now.target.now
        (houses_of context.now) formula.now }
    requires context { IsContext context.now }
    requires sound { IsSound (world_of context.now) builder.old }
    ensures { IfOk result (Makes context.now formula.now signs builder.old builder.new) }
{
    match formula {
        Formula::Gate(id) => lower_gate(builder, context, *id, signs, depth),
        Formula::Basic(id) => lower_basic(builder, context, *id, signs),
        Formula::House(id) => Ok(Pair::constant(
            context.states.state(context.expanded, context.state, *id),
        )),
        Formula::Constant(value) => Ok(Pair::constant(*value)),
        Formula::Connective {
            operator,
            min,
            max,
            arguments,
        } => {
            let arguments = arguments.as_slice();
            let pairs = lower_all(builder, context, *operator, arguments, signs, depth - 1)?;
            let made = pairs.as_slice();
            let operands = Operands {
                operator: *operator,
                min: *min,
                max: *max,
                arguments,
                pairs: made,
            };
            connect(builder, context, &operands, signs)
        }
    }
}

/// The nodes of a gate, once for each sign and list of house states.
#[cycle(lowering)]
pub fn lower_gate(
    builder: &mut Builder,
    context: &Context,
    id: GateId,
    signs: Signs,
    depth: u32,
) -> Result<Pair, OutOfMemory>
    requires within { within depth context.now.expanded.now.model (variant.Gate id) ≡ true }
    requires depth { depth ≤ suc depth_limit }
    requires meets { Meets context.now.expanded.now context.now.target.now
        (houses_of context.now) (variant.Gate id) }
    requires context { IsContext context.now }
    requires sound { IsSound (world_of context.now) builder.old }
    ensures { IfOk result (Makes context.now (variant.Gate id) signs builder.old builder.new) }
{
    let subject = Prepared::Gate {
        id: id.0,
        state: context.state,
    };
    let known = builder.recall(&subject);
    let missing = signs.without(known.signs);
    if missing.is_none() {
        return Ok(known.pair);
    }
    match at(context.expanded.model.gates.as_slice(), id.0 as usize) {
        Some(gate) => {
            let pair = lower(builder, context, &gate.formula, missing, depth - 1)?;
            let known = known.with(missing, pair);
            builder.remember(subject, known)?;
            Ok(known.pair)
        }
        None => unreachable!(),
    }
}

/// The nodes of the arguments of a connective, of at most `depth` levels each.
#[cycle(lowering)]
fn lower_all(
    builder: &mut Builder,
    context: &Context,
    operator: Connective,
    arguments: &[Formula],
    signs: Signs,
    depth: u32,
) -> Result<Vec<Pair>, OutOfMemory>
    requires within { list_all (λ g. within depth context.now.expanded.now.model g) arguments.now
        ≡ true }
    requires depth { depth ≤ depth_limit }
    requires meets { (place : ℕ) (one : Formulas) → slice_get arguments.now place ≡ Some one
        → Meets context.now.expanded.now context.now.target.now (houses_of context.now) one }
    requires context { IsContext context.now }
    requires sound { IsSound (world_of context.now) builder.old }
    ensures { IfOk result (λ pairs. MakesAll context.now operator arguments.now signs
        builder.old builder.new pairs.items) }
{
    let mut pairs = Vec::with_capacity(context.alloc, arguments.len())?;
    for (place, argument) in arguments.iter().enumerate() {
        let asked = asked_of(operator, place, signs);
        let pair = lower(builder, context, argument, asked, depth)?;
        pairs.push(pair)?;
    }
    Ok(pairs)
}

/// What is asked of the argument at a place of a connective, where signs are asked of the connective.
fn asked_of(operator: Connective, place: usize, signs: Signs) -> Signs
    ensures { result ≡ argument_signs operator place signs }
{
    match operator {
        Connective::And | Connective::Or | Connective::Atleast => signs,
        Connective::Not | Connective::Nand | Connective::Nor => signs.swapped(),
        Connective::Xor | Connective::Iff | Connective::Cardinality => Signs::both(),
        Connective::Imply => { if place == 0 { signs.swapped() } else { signs } }
    }
}
