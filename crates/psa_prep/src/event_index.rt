ghost use Rattle.std.specs.Prelude.{◌≡◌, ◌==◌, ◌<◌, ◌^◌, ◌&&◌, length, IfOk, OnOk, [], unwrap_or};
ghost use Rattle.std.specs.List.{slice_get};
ghost use Rattle.psa_model.specs.Events.{covers, members_at, is_in_subset};
ghost use Rattle.psa_prep.specs.Index.{IsIndex, empties, ends_with, Notes};

use psa_model::{EventId, Expanded, ExpandedEvent, GroupId};
use psa_text::{Items, OutOfMemory};
use sqlite_items::at;
use std::alloc::Global;
use std::marker::Model;

/// The numbers of the expanded events that make each basic event occur, ascending.
#[derive(Drop)]
pub struct EventIndex {
    lists: Vec<Items<u32>>,
}

impl Model for EventIndex {
    ghost use Rattle.std.specs.Prelude.{List, ℕ};

    ghost Value = { List (List ℕ) };

    ghost view = { λ index. index.lists.items };
}

impl EventIndex {
    /// The index of a model, common cause groups expanded or not. Each expanded event is looked at once.
    pub fn of(alloc: Global, expanded: &Expanded) -> Result<EventIndex, OutOfMemory>
        requires { length expanded.now.events < 2 ^ 32 }
        ensures { IfOk result (λ index. IsIndex expanded.now index) }
    {
        let mut lists = empty_lists(alloc, expanded.model.basics.len())?;
        for (number, event) in expanded.events.as_slice().iter().enumerate() {
            note_event(&mut lists, expanded, *event, number as u32)?;
        }
        Ok(EventIndex { lists })
    }

    /// The numbers of the events that make the basic event occur; none where there is no such basic event.
    pub fn get(&self, event: EventId) -> &[u32]
        ensures { result.now ≡ unwrap_or (slice_get self.now event.0) [] }
    {
        match at(self.lists.as_slice(), event.0 as usize) {
            Some(list) => list.as_slice(),
            None => &[],
        }
    }
}

/// So many empty lists.
fn empty_lists(alloc: Global, number: usize) -> Result<Vec<Items<u32>>, OutOfMemory>
    ensures { IfOk result (λ lists. lists.items ≡ empties number) }
{
    let mut lists = Vec::with_capacity(alloc, number)?;
    for _made in 0..number {
        lists.push(Items::new(alloc))?;
    }
    Ok(lists)
}

/// Notes the number of an expanded event for the basic events that it makes occur.
fn note_event(
    lists: &mut Vec<Items<u32>>,
    expanded: &Expanded,
    event: ExpandedEvent,
    number: u32,
) -> Result<(), OutOfMemory>
    ensures { OnOk result (Notes number (λ basic. covers expanded.now.model basic event)
        lists.old.items lists.new.items) }
{
    match event {
        ExpandedEvent::Basic(id) => note(lists, id, number),
        ExpandedEvent::Member(group, place) => {
            match at(members(expanded, group), place as usize) {
                Some(id) => note(lists, *id, number),
                None => Ok(()),
            }
        }
        ExpandedEvent::Shared(group, subset) => {
            note_subset(lists, members(expanded, group), subset, number)
        }
    }
}

/// The members of a group.
fn members(expanded: &Expanded, group: GroupId) -> &[EventId]
    ensures { result.now ≡ members_at expanded.now.model group.0 }
{
    match at(expanded.model.groups.as_slice(), group.0 as usize) {
        Some(group) => group.members.as_slice(),
        None => &[],
    }
}

/// Notes the number for the members that the subset holds: bit i is for the member at place i.
fn note_subset(
    lists: &mut Vec<Items<u32>>,
    members: &[EventId],
    subset: u8,
    number: u32,
) -> Result<(), OutOfMemory>
    ensures { OnOk result (Notes number (λ basic. is_in_subset basic subset members.now)
        lists.old.items lists.new.items) }
{
    let mut bits = subset;
    for id in members {
        note_where(lists, *id, number, bits % 2 == 1)?;
        bits /= 2;
    }
    Ok(())
}

/// Notes the number for the basic event where it is in the subset.
fn note_where(
    lists: &mut Vec<Items<u32>>,
    id: EventId,
    number: u32,
    is_in: bool,
) -> Result<(), OutOfMemory>
    ensures { OnOk result (Notes number (λ basic. is_in && (id.0 == basic))
        lists.old.items lists.new.items) }
{
    if is_in {
        note(lists, id, number)
    } else {
        Ok(())
    }
}

/// Notes the number for the basic event where it is not the last one noted.
fn note(lists: &mut Vec<Items<u32>>, id: EventId, number: u32) -> Result<(), OutOfMemory>
    ensures { OnOk result (Notes number (λ basic. id.0 == basic)
        lists.old.items lists.new.items) }
{
    let place = id.0 as usize;
    if place < lists.len() {
        let list = &mut lists[place];
        if !is_last(list.as_slice(), number) {
            list.push(number)?;
        }
    }
    Ok(())
}

/// Whether the number is the last of the list.
fn is_last(list: &[u32], number: u32) -> bool
    ensures { result ≡ ends_with list.now number }
{
    list.len() > 0 && list[list.len() - 1] == number
}
