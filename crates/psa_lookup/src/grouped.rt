ghost use Rattle.std.specs.Prelude.{◌≡◌, ◌+◌, ◌<◌, ◌^◌, ◌&&◌, ◌∷◌, [], length, map, not, sum, is_some, IfOk, OnOk};
ghost use Rattle.std.specs.List.{position_from};
ghost use Rattle.std.specs.Str.{bytes_eq};
ghost use Rattle.psa_model.specs.PathNames.{Text, is_path};
ghost use Rattle.psa_spaces.specs.Addresses.{place_of};
ghost use Rattle.psa_spaces.specs.Paths.{path_at};
ghost use Rattle.psa_names.specs.Found.{defined_by_groups};
ghost use Rattle.psa_names.specs.Meanings.{definition_named, members_of};
ghost use Rattle.psa_names.specs.NameSpaces.{events};
ghost use Rattle.psa_lookup.specs.Grouping.{absent_names, first_grouped, grouped_address};
ghost use Rattle.psa_lookup.specs.Tables.{IsTable, table_entries};

use crate::paths::joins_names;
use crate::search::find_named;
use crate::table::Table;
use psa_model::{DraftBody, DraftReference};
use psa_spaces::{Family, Key, Places, Scope};
use psa_text::OutOfMemory;
use std::alloc::Global;

/// The names of the basic events that groups define: the first number of each, and how many there are.
#[derive(Drop)]
pub struct Grouped<'a> {
    pub places: Places<'a>,
    pub count: u32,
}

/// Whether a member of a group inside this container is an event that the group defines.
fn is_absent(table: &Table, within: u32, name: &[u8]) -> bool
    requires table { IsTable table.now }
    requires stands { within < length table.now.numbered.containers }
    ensures { result ≡ (not (is_path name.now)
        && not (is_some (definition_named (table_entries table.now) events
        (path_at table.now.numbered.containers within) name.now))) }
{
    !joins_names(name) && find_named(table, Family::Events, within, name).is_none()
}

/// The members of a group; none of another body.
pub fn group_members(body: &DraftBody) -> &[DraftReference]
    ensures { result.now ≡ members_of body.now }
{
    match body {
        DraftBody::Group(group) => group.members.as_slice(),
        DraftBody::Nothing
        | DraftBody::Formula(_)
        | DraftBody::Value(_)
        | DraftBody::State(_)
        | DraftBody::Start(_)
        | DraftBody::Steps(..)
        | DraftBody::Walk(_) => &[],
    }
}

/// Notes a member of a group if the group defines it.
fn note_member<'a>(
    table: &Table,
    grouped: &mut Grouped<'a>,
    within: u32,
    member: &'a DraftReference,
) -> Result<(), OutOfMemory>
    requires table { IsTable table.now }
    requires stands { within < length table.now.numbered.containers }
    requires few { grouped.old.count + 1 < 2 ^ 32 }
    ensures count { OnOk result (grouped.new.count ≡ grouped.old.count
        + length (absent_names (table_entries table.now)
        (path_at table.now.numbered.containers within) (member.now ∷ []))) }
    ensures places { OnOk result ((name : Text)
        → place_of grouped.new.places (grouped_address name)
        ≡ first_grouped (place_of grouped.old.places (grouped_address name)) grouped.old.count name
        (absent_names (table_entries table.now)
        (path_at table.now.numbered.containers within) (member.now ∷ []))) }
{
    let name = member.name.as_bytes();
    if !is_absent(table, within, name) {
        return Ok(());
    }
    let key = Key {
        scope: Scope::Grouped,
        family: Family::Events,
        within: 0,
        name,
    };
    grouped.places.note(key, grouped.count)?;
    grouped.count += 1;
    Ok(())
}

/// Notes the members of a group that it defines.
fn note_members<'a>(
    table: &Table,
    grouped: &mut Grouped<'a>,
    within: u32,
    members: &'a [DraftReference],
) -> Result<(), OutOfMemory>
    requires table { IsTable table.now }
    requires stands { within < length table.now.numbered.containers }
    requires few { grouped.old.count + length members.now < 2 ^ 32 }
    ensures count { OnOk result (grouped.new.count ≡ grouped.old.count
        + length (absent_names (table_entries table.now)
        (path_at table.now.numbered.containers within) members.now)) }
    ensures places { OnOk result ((name : Text)
        → place_of grouped.new.places (grouped_address name)
        ≡ first_grouped (place_of grouped.old.places (grouped_address name)) grouped.old.count name
        (absent_names (table_entries table.now)
        (path_at table.now.numbered.containers within) members.now)) }
{
    for member in members {
        note_member(table, grouped, within, member)?;
    }
    Ok(())
}

/// The names of the basic events that the groups of a draft define.
pub fn group_names<'a>(alloc: Global, table: &Table<'a>) -> Result<Grouped<'a>, OutOfMemory>
    requires table { IsTable table.now }
    requires few { sum (map (λ one. length (members_of one.body)) table.now.definitions.now)
        < 2 ^ 32 }
    ensures { IfOk result (λ grouped. (name : Text)
        → place_of grouped.places (grouped_address name)
        ≡ position_from (λ one. bytes_eq one name) 0 (defined_by_groups (table_entries table.now))) }
{
    let mut grouped = Grouped {
        places: Places::new(alloc),
        count: 0,
    };
    let numbers = table.numbered.numbers.as_slice();
    let definitions = table.definitions;
    for (place, definition) in definitions.iter().enumerate() {
        let members = group_members(&definition.body);
        note_members(table, &mut grouped, numbers[place], members)?;
    }
    Ok(grouped)
}
