ghost use Rattle.std.specs.Prelude.{◌≡◌, ◌≢◌, [], ℕ, get_or, IfOk};
ghost use Rattle.std.specs.List.{flat_map};
ghost use Rattle.psa_bodies.specs.Joining.{AreApart};

use psa_model::Formula;
use psa_text::{Items, OutOfMemory};
use std::alloc::Global;
use std::mem;

/// The formulas of these lists, one list after another in this order.
pub fn join_in_order(
    alloc: Global,
    lists: Vec<Items<Formula>>,
    sequence: &[u32],
) -> Result<Items<Formula>, OutOfMemory>
    requires apart { AreApart sequence.now }
    ensures { IfOk result (λ formulas. formulas
        ≡ flat_map (λ place. get_or lists.items place []) sequence.now) }
{
    let mut left = lists;
    let mut formulas = Items::new(alloc);
    for place in sequence {
        formulas.append(take_list(alloc, &mut left, *place))?;
    }
    Ok(formulas)
}

/// Takes a list out; none stays in its place.
fn take_list(alloc: Global, lists: &mut Vec<Items<Formula>>, place: u32) -> Items<Formula>
    ensures list { result ≡ get_or lists.old.items place [] }
    ensures others { (other : ℕ) → other ≢ place
        → get_or lists.new.items other [] ≡ get_or lists.old.items other [] }
{
    let place = place as usize;
    if place < lists.len() {
        mem::replace(&mut lists[place], Items::new(alloc))
    } else {
        Items::new(alloc)
    }
}
