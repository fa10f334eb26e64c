ghost use Rattle.std.specs.Prelude.{◌<◌, ◌^◌, ℕ, length, get_or, IfSome, IfNone};
ghost use Rattle.std.specs.Bool.{MatchBool};
ghost use Rattle.psa_chains.specs.Chains.{AllStand, AreComponents, HasNoCycle, IsFirstCyclic, LeadsToRank, targets};

use crate::{Components, Reference};
use sqlite_items::Items;

/// The first place from which a chain of at least one reference leads back to it, `None` where
/// there is none: a place is on a cycle exactly where a reference of it leads to a place of its own
/// rank.
pub fn first_on_cycle(graph: &[Items<Reference>], components: &Components) -> Option<u32>
    requires stand { AllStand graph.now }
    requires few { length graph.now < 2 ^ 32 }
    requires components { AreComponents graph.now components.now.ranks components.now.order }
    ensures some { IfSome result (IsFirstCyclic graph.now) }
    ensures none { IfNone result (HasNoCycle graph.now) }
{
    let ranks = components.ranks.as_slice();
    for node in 0..graph.len() as u32 {
        if leads_to_rank(graph[node as usize].as_slice(), ranks, ranks[node as usize]) {
            return Some(node);
        }
    }
    None
}

/// Whether a reference leads to a node of this rank.
fn leads_to_rank(references: &[Reference], ranks: &[usize], rank: usize) -> bool
    requires { (k : ℕ) → k < length references.now
        → get_or (targets references.now) k 0 < length ranks.now }
    ensures { MatchBool result (LeadsToRank ranks.now references.now rank)
        (¬ (LeadsToRank ranks.now references.now rank)) }
{
    for reference in references {
        if ranks[reference.target as usize] == rank {
            return true;
        }
    }
    false
}
