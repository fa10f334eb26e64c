ghost use Rattle.std.specs.Prelude.{◌≡◌, ◌≢◌, ◌<◌, ◌+◌, ◌^◌, ◌++◌, ◌∷◌, [], ℕ, take, drop, length, None, IfOk, OnOk, slice_index};
ghost use Rattle.std.specs.Option.{option_to_list};
ghost use Rattle.std.specs.List.{range_with_len};
ghost use Rattle.psa_model.specs.Drafts.{IsDraft, member_count as members_in};
ghost use Rattle.psa_names.specs.Outlines.{entries_of};
ghost use Rattle.psa_names.specs.Found.{IsFound};
ghost use Rattle.psa_names.specs.Ids.{kind_number};
ghost use Rattle.psa_names.specs.NameFaults.{name_fault};
ghost use Rattle.psa_bodies.specs.Numbering.{AreNumbers};
ghost use Rattle.psa_bodies.specs.Counts.{Counted, group_senses};

use crate::cursor::Cursor;
use crate::numbers::{Numbered, Numbers};
use psa_model::{DefinitionKind, Draft, DraftBody, DraftDefinition};
use psa_names::{Found, Sense};
use psa_text::{Items, OutOfMemory};
use std::alloc::Global;

/// The number of kinds of definitions.
const KINDS: usize = 13;

/// The places in the model of all that names stand for.
pub fn number_definitions(
    alloc: Global,
    draft: &Draft,
    found: &Found,
) -> Result<Numbers, OutOfMemory>
    requires draft { IsDraft draft.now }
    requires faultless { name_fault draft.now ≡ None }
    requires found { IsFound draft.now found.now }
    ensures { IfOk result (AreNumbers (entries_of draft.now)) }
{
    let mut counts = Items::from_slice(alloc, &[0u32; KINDS])?;
    let mut members = Cursor::new(found.members.as_slice());
    let mut definitions = Items::new(alloc);
    let mut of_groups = Items::new(alloc);
    for definition in draft.definitions.as_slice() {
        let numbered = number_definition(&mut counts, definition);
        definitions.push(numbered)?;
        let count = member_count(definition);
        number_members(&mut counts, &mut of_groups, &mut members, count)?;
    }
    Ok(Numbers {
        definitions,
        of_groups,
    })
}

/// The number of a definition, which is then counted.
fn number_definition(counts: &mut Items<u32>, definition: &DraftDefinition) -> Numbered
    requires kinds { length counts.old ≡ KINDS }
    requires few { slice_index counts.old (kind_number definition.now.kind) + 1 < 2 ^ 32 }
    ensures number { result ≡ record {
      kind = definition.now.kind;
      id = slice_index counts.old (kind_number definition.now.kind);
    } }
    ensures counted { Counted (kind_number definition.now.kind) 1 counts.old counts.new }
{
    Numbered {
        kind: definition.kind,
        id: count_more(counts, definition.kind),
    }
}

/// The number of the group's members, where a definition is a group.
fn member_count(definition: &DraftDefinition) -> usize
    ensures { result ≡ members_in definition.now.body }
{
    match &definition.body {
        DraftBody::Group(group) => group.members.len(),
        _ => 0,
    }
}

/// Numbers the basic events that a group defines: those of its members that stand for such an event.
fn number_members(
    counts: &mut Items<u32>,
    of_groups: &mut Items<u32>,
    members: &mut Cursor,
    count: usize,
) -> Result<(), OutOfMemory>
    requires kinds { length counts.old ≡ KINDS }
    requires few { slice_index counts.old 2 + count < 2 ^ 32 }
    ensures numbers { OnOk result (of_groups.new ≡ of_groups.old
        ++ range_with_len (slice_index counts.old 2) (group_senses (take count members.old))) }
    ensures counted { OnOk result
        (Counted 2 (group_senses (take count members.old)) counts.old counts.new) }
    ensures rest { OnOk result (members.new ≡ drop count members.old) }
{
    for _ in 0..count {
        number_member(counts, of_groups, members.next())?;
    }
    Ok(())
}

/// Numbers the basic event that a member stands for, where its group defines it.
fn number_member(
    counts: &mut Items<u32>,
    of_groups: &mut Items<u32>,
    sense: Option<Sense>,
) -> Result<(), OutOfMemory>
    requires kinds { length counts.old ≡ KINDS }
    requires few { slice_index counts.old 2 + 1 < 2 ^ 32 }
    ensures numbers { OnOk result (of_groups.new ≡ of_groups.old
        ++ range_with_len (slice_index counts.old 2) (group_senses (option_to_list sense))) }
    ensures counted { OnOk result
        (Counted 2 (group_senses (option_to_list sense)) counts.old counts.new) }
{
    match sense {
        Some(Sense::OfGroup(_)) => of_groups.push(count_more(counts, DefinitionKind::BasicEvent)),
        Some(Sense::Definition(_)) => Ok(()),
        None => Ok(()),
    }
}

/// The number of those of a kind so far; one more is counted.
fn count_more(counts: &mut Items<u32>, kind: DefinitionKind) -> u32
    requires kinds { length counts.old ≡ KINDS }
    requires few { slice_index counts.old (kind_number kind) + 1 < 2 ^ 32 }
    ensures number { result ≡ slice_index counts.old (kind_number kind) }
    ensures counted { Counted (kind_number kind) 1 counts.old counts.new }
{
    count_at(counts, place_of(kind))
}

/// The place of a kind among all kinds.
fn place_of(kind: DefinitionKind) -> usize
    ensures place { result ≡ kind_number kind }
    ensures inside { result < KINDS }
{
    kind as usize
}

/// The count at a place, where one more is then counted.
fn count_at(counts: &mut Items<u32>, place: usize) -> u32
    requires inside { place < length counts.old }
    requires few { slice_index counts.old place + 1 < 2 ^ 32 }
    ensures number { result ≡ slice_index counts.old place }
    ensures counted { Counted place 1 counts.old counts.new }
{
    let number = counts.as_slice()[place];
    counts.set(place, number + 1);
    number
}
