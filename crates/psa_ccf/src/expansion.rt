ghost use Rattle.std.specs.Prelude.{◌≡◌, ◌≤◌, ◌++◌, All, length, map, IfOk, OnOk};
ghost use Rattle.std.specs.List.{flat_map, range_with_len};
ghost use Rattle.psa_model.specs.Expansion.{events_of_group, events_of_valued, expanded_of};
ghost use Rattle.psa_ccf.specs.Sizes.{subsets_among, subsets_of_size};

use crate::subsets::push_subsets_of_size;
use psa_model::{Expanded, ExpandedEvent, Group, GroupId, GroupModel, MAX_MEMBERS, Model, Valued};
use psa_text::{Items, OutOfMemory};
use sqlite_items::at;
use std::alloc::Global;

/// The model with its events, in document order of their definitions. The events of a common cause
/// group stand at the place of the group: with `on` one for each subset of its members that fails
/// together, by size and then in lexicographic order of the places of members, and without it one for
/// each member. (The models of common cause failures are those of the Open-PSA Model Exchange Format
/// 2.0d.) On want of memory the model is dropped.
pub fn expand(alloc: Global, model: Model, on: bool) -> Result<Expanded, OutOfMemory>
    requires { All (λ group. length group.members ≤ MAX_MEMBERS) model.groups }
    ensures { IfOk result (λ expanded. expanded ≡ expanded_of on model) }
{
    let mut events = Items::new(alloc);
    for valued in model.order.as_slice() {
        push_valued(&mut events, &model, on, *valued)?;
    }
    Ok(Expanded { model, events })
}

/// Adds the events of a basic event or a group.
fn push_valued(
    events: &mut Items<ExpandedEvent>,
    model: &Model,
    on: bool,
    valued: Valued,
) -> Result<(), OutOfMemory>
    requires { All (λ group. length group.members ≤ MAX_MEMBERS) model.now.groups }
    ensures { OnOk result (events.new ≡ events.old ++ events_of_valued model.now on valued) }
{
    match valued {
        Valued::Basic(id) => events.push(ExpandedEvent::Basic(id)),
        Valued::Group(id) => match at(model.groups.as_slice(), id.0 as usize) {
            Some(group) => push_group(events, on, id, group),
            None => Ok(()),
        },
    }
}

/// Adds the events of a group, with expansion or without.
fn push_group(
    events: &mut Items<ExpandedEvent>,
    on: bool,
    id: GroupId,
    group: &Group,
) -> Result<(), OutOfMemory>
    requires { length group.now.members ≤ MAX_MEMBERS }
    ensures { OnOk result (events.new ≡ events.old ++ events_of_group on id group.now) }
{
    let count = group.members.len() as u8;
    if on {
        push_subsets(events, id, group.model, count)
    } else {
        push_members(events, id, count)
    }
}

/// Adds an event for each of so many members.
fn push_members(
    events: &mut Items<ExpandedEvent>,
    id: GroupId,
    count: u8,
) -> Result<(), OutOfMemory>
    ensures { OnOk result (events.new ≡ events.old
        ++ map (λ place. ExpandedEvent.Member id place) (range_with_len 0 count)) }
{
    for place in 0..count {
        events.push(ExpandedEvent::Member(id, place))?;
    }
    Ok(())
}

/// Adds an event for each subset of so many members that fails together.
fn push_subsets(
    events: &mut Items<ExpandedEvent>,
    id: GroupId,
    model: GroupModel,
    count: u8,
) -> Result<(), OutOfMemory>
    requires { count ≤ MAX_MEMBERS }
    ensures { OnOk result (events.new ≡ events.old
        ++ map (λ subset. ExpandedEvent.Shared id subset) (subsets_among model count)) }
{
    match model {
        GroupModel::Beta => {
            push_subsets_of_size(events, id, 1, count)?;
            push_subsets_of_size(events, id, count, count)
        }
        GroupModel::Mgl => push_subsets_of_all_sizes(events, id, count),
        GroupModel::Alpha => push_subsets_of_all_sizes(events, id, count),
    }
}

/// Adds an event for each subset of so many members, by size.
fn push_subsets_of_all_sizes(
    events: &mut Items<ExpandedEvent>,
    id: GroupId,
    count: u8,
) -> Result<(), OutOfMemory>
    requires { count ≤ MAX_MEMBERS }
    ensures { OnOk result (events.new ≡ events.old
        ++ map (λ subset. ExpandedEvent.Shared id subset)
        (flat_map (subsets_of_size count) (range_with_len 1 count))) }
{
    for smaller in 0..count {
        push_subsets_of_size(events, id, smaller + 1, count)?;
    }
    Ok(())
}
