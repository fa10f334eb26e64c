ghost use Rattle.std.specs.Prelude.{◌≡◌, ◌<◌, true, length};
ghost use Rattle.psa_model.specs.PathNames.{is_path, name_parts};
ghost use Rattle.psa_spaces.specs.Paths.{path_at};
ghost use Rattle.psa_names.specs.Meanings.{by_path, by_scope, definition_named};
ghost use Rattle.psa_names.specs.NameSpaces as space;
ghost use Rattle.psa_lookup.specs.Tables.{IsTable, meant, table_entries};

use crate::paths::{joins_names, split_first};
use crate::table::Table;
use psa_spaces::{Family, Key, Scope};

/// The place of the definition directly in the container that a path names.
fn find_path(table: &Table, family: Family, name: &[u8]) -> Option<u32>
    requires table { IsTable table.now }
    requires scoped { space.is_scoped (meant family) ≡ true }
    requires path { is_path name.now ≡ true }
    ensures { result ≡ by_path (table_entries table.now) (meant family) (name_parts name.now) }
{
    let mut within = 0;
    let mut rest = name;
    while let Some((part, more)) = split_first(rest) {
        let Some(inner) = table.numbered.containers.find(within, part) else {
            return None;
        };
        within = inner;
        rest = more;
    }
    table.places.get(Key {
        scope: Scope::Inside,
        family,
        within,
        name: rest,
    })
}

/// The place of the definition of this name directly in the innermost container that has one, from one
/// outwards, else of the public one: a look-up for each of these containers.
fn find_outwards(table: &Table, family: Family, innermost: u32, name: &[u8]) -> Option<u32>
    requires table { IsTable table.now }
    requires scoped { space.is_scoped (meant family) ≡ true }
    requires stands { innermost < length table.now.numbered.containers }
    ensures { result ≡ by_scope (table_entries table.now) (meant family)
        (path_at table.now.numbered.containers innermost) name.now }
{
    let mut within = innermost;
    while let Some(outer) = table.numbered.containers.around(within) {
        let key = Key {
            scope: Scope::Inside,
            family,
            within,
            name,
        };
        if let Some(place) = table.places.get(key) {
            return Some(place);
        }
        within = outer;
    }
    table.places.get(Key {
        scope: Scope::Whole,
        family,
        within: 0,
        name,
    })
}

/// The place of the definition that a name or path stands for inside a container.
pub fn find_named(table: &Table, family: Family, within: u32, name: &[u8]) -> Option<u32>
    requires table { IsTable table.now }
    requires scoped { space.is_scoped (meant family) ≡ true }
    requires stands { within < length table.now.numbered.containers }
    ensures { result ≡ definition_named (table_entries table.now) (meant family)
        (path_at table.now.numbered.containers within) name.now }
{
    if joins_names(name) {
        find_path(table, family, name)
    } else {
        find_outwards(table, family, within, name)
    }
}
