ghost use Rattle.std.specs.Prelude.{◌≡◌, ◌==◌, ◌++◌, ℕ, false, get_or, IfOk, OnOk, ◌||◌};
ghost use Rattle.std.specs.List.{flat_map, list_any};
ghost use Rattle.psa_assembly.specs.Values.{has_member, is_among, valued_by};

use psa_bodies::{Numbered, Numbers, same_kind};
use psa_model::{DefinitionKind, EventId, Group, GroupId, Valued};
use psa_text::{Items, OutOfMemory};
use sqlite_items::at;
use std::alloc::Global;

/// The groups, and the basic events that are no members of these groups, in document order.
pub fn values_in_order(
    alloc: Global,
    numbers: &Numbers,
    groups: &[Group],
) -> Result<Items<Valued>, OutOfMemory>
    ensures { IfOk result (λ order. order
        ≡ flat_map (valued_by (λ id. list_any (has_member id) groups.now)) numbers.now.definitions) }
{
    let marks = mark_groups(alloc, groups)?;
    let mut order = Items::new(alloc);
    for numbered in numbers.definitions.as_slice() {
        push_valued(&mut order, marks.as_slice(), *numbered)?;
    }
    Ok(order)
}

/// Adds a definition where it is a group, or a basic event that is not marked.
fn push_valued(
    order: &mut Items<Valued>,
    marks: &[bool],
    numbered: Numbered,
) -> Result<(), OutOfMemory>
    ensures { OnOk result (order.new
        ≡ order.old ++ valued_by (λ id. get_or marks.now id false) numbered) }
{
    if same_kind(numbered.kind, DefinitionKind::Group) {
        return order.push(Valued::Group(GroupId(numbered.id)));
    }
    let basic = same_kind(numbered.kind, DefinitionKind::BasicEvent);
    if basic && !is_marked(marks, numbered.id) {
        order.push(Valued::Basic(EventId(numbered.id)))
    } else {
        Ok(())
    }
}

/// Whether a basic event is marked.
fn is_marked(marks: &[bool], id: u32) -> bool
    ensures { result ≡ get_or marks.now id false }
{
    match at(marks, id as usize) {
        Some(mark) => *mark,
        None => false,
    }
}

/// Marks of the members of groups, by the numbers of the basic events.
fn mark_groups(alloc: Global, groups: &[Group]) -> Result<Items<bool>, OutOfMemory>
    ensures { IfOk result (λ marks. (id : ℕ)
        → get_or marks id false ≡ list_any (has_member id) groups.now) }
{
    let mut marks = Items::new(alloc);
    for group in groups {
        mark_members(&mut marks, group.members.as_slice())?;
    }
    Ok(marks)
}

/// Marks these basic events.
fn mark_members(marks: &mut Items<bool>, members: &[EventId]) -> Result<(), OutOfMemory>
    ensures { OnOk result ((id : ℕ)
        → get_or marks.new id false ≡ (get_or marks.old id false || is_among id members.now)) }
{
    for member in members {
        mark_member(marks, *member)?;
    }
    Ok(())
}

/// Marks a basic event, behind marks of those before it.
fn mark_member(marks: &mut Items<bool>, member: EventId) -> Result<(), OutOfMemory>
    ensures { OnOk result ((id : ℕ)
        → get_or marks.new id false ≡ (get_or marks.old id false || (member.0 == id))) }
{
    let place = member.0 as usize;
    while marks.len() <= place {
        marks.push(false)?;
    }
    marks.set(place, true);
    Ok(())
}
