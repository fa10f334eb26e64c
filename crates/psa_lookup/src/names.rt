ghost use Rattle.std.specs.Prelude.{◌≡◌, ◌<◌, [], Bool, List, true, length};
ghost use Rattle.std.specs.Option.{option_map};
ghost use Rattle.psa_spaces.specs.Paths.{IsPath, Path, path_at};
ghost use Rattle.psa_names.specs.Meanings.{definition, in_whole_model, meaning_of, meaning_of_event, one_directly_in, scope_of, tree_of};
ghost use Rattle.psa_names.specs.declared.found.Sense.TheVariants.{OfGroup};
ghost use Rattle.psa_names.specs.Outlines.{Entries, entry_of};
ghost use Rattle.psa_lookup.specs.Asking.{asked_reference};
ghost use Rattle.psa_lookup.specs.Keys.{has_inside, has_whole};
ghost use Rattle.psa_lookup.specs.Members.{sense_of};
ghost use Rattle.psa_lookup.specs.Senses.{IsAroundIn, IsNames, IsNumberOf, Means, names_entries, names_paths};
ghost use Rattle.psa_lookup.specs.Tables.{IsTable, meant, table_entries};

use crate::asked::{Asked, Asks};
use crate::families::{family_of, is_inner};
use crate::paths::joins_names;
use crate::search::find_named;
use crate::table::Table;
use psa_model::{DefinitionKind, DraftDefinition};
use psa_names::Sense;
use psa_spaces::{Family, Key, Places, Scope};

/// The table of a draft's names, and the events that its groups define.
#[derive(Drop)]
pub struct Names<'a> {
    pub table: Table<'a>,
    pub grouped: Places<'a>,
}

/// The number of the container in which the search for a definition's references begins, and that of
/// the event tree that it is or stands in.
#[derive(Clone, Copy)]
pub struct Around {
    pub scope: u32,
    pub tree: Option<u32>,
}

/// Where the names in a definition are searched, by the number of its container.
pub fn around_of(table: &Table, definition: &DraftDefinition, number: u32) -> Around
    requires table { IsTable table.now }
    requires number { IsPath table.now.numbered.containers number definition.now.container }
    ensures { IsAroundIn table.now.numbered.containers result (entry_of definition.now) }
{
    Around {
        scope: scope_number(definition, number),
        tree: tree_number(table, definition, number),
    }
}

/// The number of the container in which the search for a definition's references begins.
fn scope_number(definition: &DraftDefinition, number: u32) -> u32
    ensures { (paths : List Path) → IsPath paths 0 []
        → IsPath paths number definition.now.container
        → IsPath paths result (scope_of (entry_of definition.now)) }
{
    if is_inner(family_of(definition.kind)) {
        0
    } else {
        number
    }
}

/// The number of the event tree that a definition is or stands in.
fn tree_number(table: &Table, definition: &DraftDefinition, number: u32) -> Option<u32>
    requires table { IsTable table.now }
    requires number { IsPath table.now.numbered.containers number definition.now.container }
    ensures { IsNumberOf table.now.numbered.containers result (tree_of (entry_of definition.now)) }
{
    if definition.kind == DefinitionKind::EventTree {
        table
            .numbered
            .containers
            .find(0, definition.name.as_bytes())
    } else {
        Some(number)
    }
}

/// The event that a name stands for inside a container.
pub fn find_event(names: &Names, within: u32, name: &[u8]) -> Option<Sense>
    requires names { IsNames names.now }
    requires stands { within < length (names_paths names.now) }
    ensures means { Means (names_entries names.now) result
        (meaning_of_event (names_entries names.now) (path_at (names_paths names.now) within) name.now) }
    ensures first { result ≡ sense_of (names_entries names.now)
        (meaning_of_event (names_entries names.now) (path_at (names_paths names.now) within) name.now) }
{
    if let Some(place) = find_named(&names.table, Family::Events, within, name) {
        return Some(Sense::Definition(place));
    }
    if joins_names(name) {
        return None;
    }
    let key = Key {
        scope: Scope::Grouped,
        family: Family::Events,
        within: 0,
        name,
    };
    group_sense(names.grouped.get(key))
}

/// The definition of a family with this name in the whole model.
fn find_whole(table: &Table, family: Family, name: &[u8]) -> Option<u32>
    requires table { IsTable table.now }
    requires whole { (private : Bool) → has_whole family private ≡ true }
    ensures { result ≡ in_whole_model (table_entries table.now) (meant family) name.now }
{
    table.places.get(Key {
        scope: Scope::Whole,
        family,
        within: 0,
        name,
    })
}

/// The definition of a family with this name in an event tree.
fn find_in_tree(table: &Table, family: Family, tree: Option<u32>, name: &[u8]) -> Option<u32>
    requires table { IsTable table.now }
    requires inner { (contained : Bool) → has_inside family contained ≡ true }
    ensures { (path : Path) → IsNumberOf table.now.numbered.containers tree path
        → result ≡ one_directly_in (table_entries table.now) (meant family) path name.now }
{
    let Some(within) = tree else {
        return None;
    };
    table.places.get(Key {
        scope: Scope::Inside,
        family,
        within,
        name,
    })
}

/// What a place of a definition stands for.
fn definition_sense(place: Option<u32>) -> Option<Sense>
    ensures { (entries : Entries) → Means entries result (option_map definition place) }
{
    match place {
        Some(place) => Some(Sense::Definition(place)),
        None => None,
    }
}

/// What a number among those that groups define stands for.
fn group_sense(number: Option<u32>) -> Option<Sense>
    ensures { result ≡ option_map OfGroup number }
{
    match number {
        Some(number) => Some(Sense::OfGroup(number)),
        None => None,
    }
}

/// What a reference in a definition stands for, by where its names are searched.
pub fn find_sense(
    names: &Names,
    definition: &DraftDefinition,
    around: Around,
    asked: Asked,
) -> Option<Sense>
    requires names { IsNames names.now }
    requires around { IsAroundIn (names_paths names.now) around (entry_of definition.now) }
    ensures { Means (names_entries names.now) result
        (meaning_of (names_entries names.now) (entry_of definition.now) (asked_reference asked.entry)) }
{
    let table = &names.table;
    let name = asked.written.name.as_bytes();
    match asked.asks {
        Asks::Event(_) => find_event(names, around.scope, name),
        Asks::Parameter => {
            definition_sense(find_named(table, Family::Parameters, around.scope, name))
        }
        Asks::EventTree => definition_sense(find_whole(table, Family::EventTrees, name)),
        Asks::Rule => definition_sense(find_whole(table, Family::Rules, name)),
        Asks::InitiatingEvent => {
            definition_sense(find_whole(table, Family::InitiatingEvents, name))
        }
        Asks::FunctionalEventAnywhere => {
            definition_sense(find_whole(table, Family::FunctionalEvents, name))
        }
        Asks::Sequence => {
            definition_sense(find_in_tree(table, Family::Sequences, around.tree, name))
        }
        Asks::Branch => definition_sense(find_in_tree(table, Family::Branches, around.tree, name)),
        Asks::FunctionalEvent => {
            definition_sense(find_in_tree(table, Family::FunctionalEvents, around.tree, name))
        }
    }
}
