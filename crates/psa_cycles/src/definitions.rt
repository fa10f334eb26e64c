ghost use Rattle.std.specs.Prelude.{◌≡◌, ◌∷◌, [], OnOk};
ghost use Rattle.psa_model.specs.Drafts.{body_contents};
ghost use Rattle.psa_model.specs.PathNames.{is_path as has_dot};
ghost use Rattle.psa_names.specs.Meanings.{members_of as members_in};
ghost use Rattle.psa_names.specs.Outlines.{entry_of, joined};
ghost use Rattle.psa_cycles.specs.Levels.{HasRoom, elements_of, members_of_paths, with_outlines};

use crate::bodies::push_body;
use crate::levels::Levels;
use psa_model::{DefinitionKind, DraftBody, DraftDefinition, DraftReference};
use psa_text::OutOfMemory;

/// Adds the elements of a definition: of a group first its members that are paths; of an event tree
/// its initial state, with the contents inside.
pub fn push_definition(levels: &mut Levels, definition: &DraftDefinition) -> Result<(), OutOfMemory>
    requires { HasRoom 1 (body_contents definition.now.body) }
    ensures { OnOk result (levels.new
        ≡ with_outlines 0 (joined (elements_of (entry_of definition.now))) levels.old) }
{
    push_members(levels, members_of(&definition.body))?;
    match definition.kind {
        DefinitionKind::EventTree => {
            levels.push_plain(1);
            push_body(levels, &definition.body, 1)
        }
        _ => push_body(levels, &definition.body, 0),
    }
}

/// The members of a group, of another body none.
fn members_of(body: &DraftBody) -> &[DraftReference]
    ensures { result.now ≡ members_in body.now }
{
    match body {
        DraftBody::Group(group) => group.members.as_slice(),
        _ => &[],
    }
}

/// Adds the members of a group that are paths.
fn push_members(levels: &mut Levels, members: &[DraftReference]) -> Result<(), OutOfMemory>
    ensures { OnOk result (levels.new
        ≡ with_outlines 0 (joined (members_of_paths members.now)) levels.old) }
{
    for member in members {
        push_member(levels, member)?;
    }
    Ok(())
}

/// Adds a member of a group where it is a path.
fn push_member(levels: &mut Levels, member: &DraftReference) -> Result<(), OutOfMemory>
    ensures { OnOk result (levels.new
        ≡ with_outlines 0 (joined (members_of_paths (member.now ∷ []))) levels.old) }
{
    if is_path(member.name.as_bytes()) {
        levels.push_naming(1)
    } else {
        Ok(())
    }
}

/// Whether a name is a path: two or more names joined by dots.
fn is_path(name: &[u8]) -> bool
    ensures { result ≡ has_dot name.now }
{
    name.contains(&b'.')
}
