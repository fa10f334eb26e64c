ghost use Rattle.std.specs.Prelude.{◌≡◌, ◌≤◌, ◌<◌, ◌+◌, ◌-◌, ◌^◌, ℕ, length, get_or, IfOk, IfSome, IfNone};
ghost use Rattle.psa_chains.specs.Chains.{AllStand, AreComponents, HasNoCycle, targets};
ghost use Rattle.psa_chains.specs.Depths.{AreDepths, AreBelow, depth_by};

use crate::{Components, Reference};
use sqlite_items::Items;
use std::alloc::{AllocError, Global};

/// The depths of the definitions of a graph without cycles. A definition is as deep as its own
/// elements are nested, and at each reference as deep as the reference stands and the definition
/// that it names.
pub fn depths(
    alloc: Global,
    graph: &[Items<Reference>],
    nested: &[u32],
    components: &Components,
) -> Result<Items<u64>, AllocError>
    requires stand { AllStand graph.now }
    requires few { length graph.now < 2 ^ 32 }
    requires nested { length nested.now ≡ length graph.now }
    requires components { AreComponents graph.now components.now.ranks components.now.order }
    requires acyclic { HasNoCycle graph.now }
    ensures { IfOk result (λ depths. AreDepths graph.now nested.now depths) }
{
    let mut depths = Items::from_vec(vec![in alloc; 0u64; graph.len()]?);
    for node in components.order.as_slice() {
        let place = *node as usize;
        let depth = depth_of(graph[place].as_slice(), nested[place], depths.as_slice());
        depths.set(place, depth);
    }
    Ok(depths)
}

/// How deep a definition is, by the depths of those that it refers to.
fn depth_of(references: &[Reference], nested: u32, depths: &[u64]) -> u64
    requires stand { (k : ℕ) → k < length references.now
        → get_or (targets references.now) k 0 < length depths.now }
    requires below { AreBelow (2 ^ 64 - 2 ^ 32) depths.now }
    ensures exact { result ≡ depth_by depths.now nested references.now }
    ensures bound { (bound : ℕ) → AreBelow bound depths.now → result ≤ bound + 2 ^ 32 }
{
    let mut depth = u64::from(nested);
    for reference in references {
        depth = depth.max(u64::from(reference.level) + depths[reference.target as usize]);
    }
    depth
}

/// The first place whose depth is above the limit, `None` where none is.
pub fn first_deeper(depths: &[u64], limit: u64) -> Option<usize>
    ensures some { IfSome result (λ place. limit < get_or depths.now place 0) }
    ensures first { IfSome result (λ place. (earlier : ℕ) → earlier < place
        → get_or depths.now earlier 0 ≤ limit) }
    ensures none { IfNone result ((place : ℕ) → get_or depths.now place 0 ≤ limit) }
{
    for (place, depth) in depths.iter().enumerate() {
        if *depth > limit {
            return Some(place);
        }
    }
    None
}
