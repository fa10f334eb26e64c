ghost use Rattle.std.specs.Prelude.{◌≡◌, ◌<◌, length, IfOk};
ghost use Rattle.psa_model.specs.declared.formula.Formula.TheVariants as variant;
ghost use Rattle.psa_model.specs.Parts.{Meets};
ghost use Rattle.psa_prep.specs.Lowering.{IsContext, Makes, MakesEvent, world_of, houses_of};
ghost use Rattle.psa_prep.specs.Sound.{IsSound};

use crate::builder::Builder;
use crate::lowering::Context;
use crate::pairs::{Pair, Signs, join_pair};
use psa_model::EventId;
use psa_text::OutOfMemory;

/// The nodes of a basic event: it occurs where one of its expanded events does. They are joined from the
/// last to the first, as arguments are.
pub fn lower_basic(
    builder: &mut Builder,
    context: &Context,
    id: EventId,
    signs: Signs,
) -> Result<Pair, OutOfMemory>
    requires stands { id.0 < length context.now.expanded.now.model.basics }
    requires meets { Meets context.now.expanded.now context.now.target.now
        (houses_of context.now) (variant.Basic id) }
    requires context { IsContext context.now }
    requires sound { IsSound (world_of context.now) builder.old }
    ensures { IfOk result (Makes context.now (variant.Basic id) signs builder.old builder.new) }
{
    let mut pair = Pair::constant(false);
    let events = context.index.get(id);
    for place in (0..events.len()).rev() {
        let literal = lower_event(builder, context, events[place], signs)?;
        pair = join_pair(builder, signs, false, literal, pair)?;
    }
    Ok(pair)
}

/// The nodes of an expanded event by its rank; one without a rank never occurs.
fn lower_event(
    builder: &mut Builder,
    context: &Context,
    event: u32,
    signs: Signs,
) -> Result<Pair, OutOfMemory>
    requires context { IsContext context.now }
    requires sound { IsSound (world_of context.now) builder.old }
    ensures { IfOk result (MakesEvent context.now event signs builder.old builder.new) }
{
    match context.ranks.get(&event) {
        Some(rank) => {
            let yes = builder.literal(signs.yes, *rank, true)?;
            let no = builder.literal(signs.no, *rank, false)?;
            Ok(Pair { yes, no })
        }
        None => Ok(Pair::constant(false)),
    }
}
