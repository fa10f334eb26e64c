ghost use Rattle.std.specs.Prelude.{◌≡◌, ◌≤◌, ◌+◌, ◌-◌, count_by};
ghost use Rattle.std.specs.List.{range_with_len};
ghost use Rattle.psa_model.specs.Models.{levels_of};
ghost use Rattle.psa_names.specs.GroupRules.{has_level, has_levels, level_in};

use psa_model::{DraftFactor, GroupModel};

/// The level of a factor, where it has one, in a group of so many members.
fn level_of(model: GroupModel, members: u32, factor: &DraftFactor) -> Option<u32>
    ensures { result ≡ level_in model members factor.now }
{
    match model {
        GroupModel::Beta => Some(factor.level.unwrap_or(members)),
        GroupModel::Mgl => factor.level,
        GroupModel::Alpha => factor.level,
    }
}

/// Whether a factor has this level.
fn is_at(model: GroupModel, members: u32, level: u32, factor: &DraftFactor) -> bool
    ensures { result ≡ has_level model members level factor.now }
{
    match level_of(model, members, factor) {
        Some(its) => its == level,
        None => false,
    }
}

/// The number of factors that have this level.
fn count_at(model: GroupModel, members: u32, level: u32, factors: &[DraftFactor]) -> usize
    ensures { result ≡ count_by (has_level model members level) factors.now }
{
    factors
        .iter()
        .filter(|factor| is_at(model, members, level, factor))
        .count()
}

/// The least level of a group of so many members; the greatest is their number.
fn first_level(model: GroupModel, members: u32) -> u32
    requires { 2 ≤ members }
    ensures levels { levels_of model members ≡ range_with_len result (members + 1 - result) }
    ensures within { result ≤ members }
{
    match model {
        GroupModel::Beta => members,
        GroupModel::Mgl => 2,
        GroupModel::Alpha => 1,
    }
}

/// Whether a group of so many members has one factor for each level of its model, and no other.
pub fn have_levels(model: GroupModel, members: u32, factors: &[DraftFactor]) -> bool
    requires some { 2 ≤ members }
    requires few { members ≤ 8 }
    ensures { result ≡ has_levels model members factors.now }
{
    let first = first_level(model, members);
    let last = members + 1;
    if factors.len() != (last - first) as usize {
        return false;
    }
    for level in first..last {
        if count_at(model, members, level, factors) != 1 {
            return false;
        }
    }
    true
}
