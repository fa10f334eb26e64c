ghost use Rattle.std.specs.Prelude.{◌≡◌, ◌<◌, ◌∷◌, ◌++◌, ◌&&◌, [], All, None, Some, length, map, not, true, IfOk};
ghost use Rattle.std.specs.Option.{option_map};
ghost use Rattle.psa_model.specs.Drafts.{are_ascending, has_body, position_of};
ghost use Rattle.psa_model.specs.declared.fault.FaultKind.TheVariants as fault;
ghost use Rattle.psa_spaces.specs.Paths.{IsPath, path_at};
ghost use Rattle.psa_names.specs.Found.{member_meanings};
ghost use Rattle.psa_names.specs.GroupRules.{has_no_expression, is_basic_event};
ghost use Rattle.psa_names.specs.NameFaults.{bad_groups};
ghost use Rattle.psa_names.specs.Outlines.{Entries, entry_of};
ghost use Rattle.psa_names.specs.PlacedFaults.{earliest, fault_of};
ghost use Rattle.psa_lookup.specs.Members.{AreMembersOf, can_belong, is_bad_group, may_join, may_stand, senses_of_members};
ghost use Rattle.psa_lookup.specs.Senses.{IsNames, IsPass, names_entries, names_paths};
ghost use Rattle.psa_lookup.specs.Sooner.{placed_fault};
ghost use Rattle.psa_lookup.specs.Tables.{table_entries};

use crate::levels::have_levels;
use crate::members::Members;
use crate::names::{Names, find_event};
use crate::pass::Pass;
use crate::placed::Placed;
use crate::table::Table;
use psa_model::{
    DefinitionKind, DraftBody, DraftDefinition, DraftGroup, DraftReference, FaultKind, MAX_MEMBERS,
    MIN_MEMBERS,
};
use psa_names::Sense;
use psa_text::OutOfMemory;
use sqlite_items::at;
use std::alloc::Global;

/// Whether a definition is a basic event without an expression.
fn is_plain_event(one: &DraftDefinition) -> bool
    ensures { result ≡ (is_basic_event one.now.kind && has_no_expression one.now.body) }
{
    matches!(one.kind, DefinitionKind::BasicEvent) && matches!(one.body, DraftBody::Value(None))
}

/// Whether what a member stands for is a basic event without an expression.
fn is_fit(table: &Table, sense: Sense) -> bool
    ensures { result ≡ can_belong (table_entries table.now) sense }
{
    match sense {
        Sense::Definition(place) => match at(table.definitions, place as usize) {
            Some(one) => is_plain_event(one),
            None => false,
        },
        Sense::OfGroup(_) => true,
    }
}

/// Adds a member of a group in a container to those of the groups before it, and answers whether it
/// may belong to the group.
fn add_member(
    names: &Names,
    within: u32,
    member: &DraftReference,
    members: &mut Members,
) -> Result<bool, OutOfMemory>
    requires names { IsNames names.now }
    requires stands { within < length (names_paths names.now) }
    ensures right { IfOk result (λ right. right ≡ may_join (names_entries names.now) members.old
        (senses_of_members (names_entries names.now) (path_at (names_paths names.now) within)
        (member.now ∷ []))) }
    ensures added { IfOk result (λ right. right ≡ true → map Some members.new
        ≡ map Some members.old ++ senses_of_members (names_entries names.now)
        (path_at (names_paths names.now) within) (member.now ∷ [])) }
{
    let Some(sense) = find_event(names, within, member.name.as_bytes()) else {
        return Ok(false);
    };
    if !is_fit(&names.table, sense) {
        return Ok(false);
    }
    members.add(sense)
}

/// Adds the members of a group in a container to those of the groups before it, until one may not
/// belong to the group; answers whether all may.
fn add_members(
    names: &Names,
    within: u32,
    added: &[DraftReference],
    members: &mut Members,
) -> Result<bool, OutOfMemory>
    requires names { IsNames names.now }
    requires stands { within < length (names_paths names.now) }
    ensures right { IfOk result (λ right. right ≡ may_join (names_entries names.now) members.old
        (senses_of_members (names_entries names.now) (path_at (names_paths names.now) within)
        added.now)) }
    ensures added { IfOk result (λ right. right ≡ true → map Some members.new
        ≡ map Some members.old ++ senses_of_members (names_entries names.now)
        (path_at (names_paths names.now) within) added.now) }
{
    for member in added {
        if !add_member(names, within, member, members)? {
            return Ok(false);
        }
    }
    Ok(true)
}

/// Adds the members of a group in a container to those of the groups before it, and answers whether
/// the group is allowed behind them. The number of members and the levels are looked at first, so that
/// no time goes into what a group has too much of.
fn add_group(
    names: &Names,
    within: u32,
    group: &DraftGroup,
    members: &mut Members,
) -> Result<bool, OutOfMemory>
    requires names { IsNames names.now }
    requires stands { within < length (names_paths names.now) }
    ensures allowed { IfOk result (λ allowed. allowed ≡ may_stand (names_entries names.now)
        members.old (path_at (names_paths names.now) within) group.now) }
    ensures added { IfOk result (λ allowed. allowed ≡ true → map Some members.new
        ≡ map Some members.old ++ senses_of_members (names_entries names.now)
        (path_at (names_paths names.now) within) group.now.members) }
{
    let count = group.members.len();
    if count < MIN_MEMBERS || count > MAX_MEMBERS {
        return Ok(false);
    }
    if !have_levels(group.model, count as u32, group.factors.as_slice()) {
        return Ok(false);
    }
    add_members(names, within, group.members.as_slice(), members)
}

/// Adds the members of a definition to those of the groups before it, and answers whether it is no
/// group, or allowed behind them.
fn add_definition(
    names: &Names,
    within: u32,
    definition: &DraftDefinition,
    members: &mut Members,
) -> Result<bool, OutOfMemory>
    requires names { IsNames names.now }
    requires within { IsPath (names_paths names.now) within definition.now.container }
    requires body { has_body definition.now.kind definition.now.body ≡ true }
    ensures allowed { IfOk result (λ allowed. (before : Entries)
        → AreMembersOf (names_entries names.now) before members.old
        → not allowed ≡ is_bad_group (names_entries names.now) before (entry_of definition.now)) }
    ensures added { IfOk result (λ allowed. allowed ≡ true → (before : Entries)
        → AreMembersOf (names_entries names.now) before members.old
        → AreMembersOf (names_entries names.now) (before ++ entry_of definition.now ∷ []) members.new) }
{
    match &definition.body {
        DraftBody::Group(group) => add_group(names, within, group, members),
        _ => Ok(true),
    }
}

/// The fault of a group that is not allowed.
fn group_fault(definition: &DraftDefinition) -> Placed<'_>
    ensures { placed_fault result ≡ fault_of fault.BadGroup (entry_of definition.now) }
{
    Placed {
        kind: FaultKind::BadGroup,
        place: definition.place,
        tag: definition.tag,
        name: &definition.name,
    }
}

/// Adds the members of the groups of a draft, in order, to the first group that is not allowed behind
/// those before it; answers its fault.
fn add_groups<'a>(
    names: &Names<'a>,
    members: &mut Members,
) -> Result<Option<Placed<'a>>, OutOfMemory>
    requires names { IsNames names.now }
    requires bodies { All (λ one. has_body one.kind one.body ≡ true)
        names.now.table.definitions.now }
    requires ascending { are_ascending (map position_of names.now.table.definitions.now) ≡ true }
    requires none { members.old ≡ [] }
    ensures first { IfOk result
        (λ first. option_map placed_fault first ≡ earliest (bad_groups (names_entries names.now))) }
    ensures added { IfOk result (λ first. first ≡ None
        → AreMembersOf (names_entries names.now) (names_entries names.now) members.new) }
{
    let numbers = names.table.numbered.numbers.as_slice();
    let definitions = names.table.definitions;
    for (place, definition) in definitions.iter().enumerate() {
        if !add_definition(names, numbers[place], definition, members)? {
            return Ok(Some(group_fault(definition)));
        }
    }
    Ok(None)
}

/// Goes along the groups of a draft, in order, to the first that is not allowed behind those before it.
pub fn check_groups<'a>(alloc: Global, names: &Names<'a>) -> Result<Pass<'a>, OutOfMemory>
    requires names { IsNames names.now }
    requires bodies { All (λ one. has_body one.kind one.body ≡ true)
        names.now.table.definitions.now }
    requires ascending { are_ascending (map position_of names.now.table.definitions.now) ≡ true }
    ensures { IfOk result (λ pass. IsPass (names_entries names.now) pass
        (bad_groups (names_entries names.now)) (member_meanings (names_entries names.now))) }
{
    let mut members = Members::new(alloc);
    let first = add_groups(names, &mut members)?;
    let senses = members.senses(alloc)?;
    Ok(Pass { senses, first })
}
