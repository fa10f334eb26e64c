ghost use Rattle.std.specs.Prelude.{◌≡◌, ◌<◌, ◌^◌, length, IfOk};
ghost use Rattle.psa_chains.specs.Chains.{AllStand};
ghost use Rattle.psa_chains.specs.Answers.{IsAnswer};

use crate::{Reference, depths, find_components, first_deeper, first_on_cycle};
use sqlite_items::Items;
use std::alloc::{AllocError, Global};

/// What is wrong with chains of references, with the place of the first definition where it is.
#[derive(Clone, Copy, Debug, PartialEq, Eq)]
pub enum ChainFault {
    /// A chain leads from the definition at this place back to it.
    Cycle(u32),
    /// The definition at this place is deeper than the limit.
    TooDeep(usize),
}

/// The first definition on a cycle; where none is, the first that is deeper than the limit; where
/// all is well, `None`. `nested` says of each definition how deep its elements stand at most, 1
/// where all are directly in it. The time grows as the number of definitions and references. (The
/// limit of depth and the order of the two are this project's own.)
pub fn chain_fault(
    alloc: Global,
    graph: &[Items<Reference>],
    nested: &[u32],
    limit: u64,
) -> Result<Option<ChainFault>, AllocError>
    requires stand { AllStand graph.now }
    requires few { length graph.now < 2 ^ 32 }
    requires nested { length nested.now ≡ length graph.now }
    ensures { IfOk result (IsAnswer limit graph.now nested.now) }
{
    let components = find_components(alloc, graph)?;
    if let Some(place) = first_on_cycle(graph, &components) {
        return Ok(Some(ChainFault::Cycle(place)));
    }
    let depths = depths(alloc, graph, nested, &components)?;
    match first_deeper(depths.as_slice(), limit) {
        Some(place) => Ok(Some(ChainFault::TooDeep(place))),
        None => Ok(None),
    }
}
