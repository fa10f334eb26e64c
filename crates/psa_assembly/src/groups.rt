ghost use Rattle.std.specs.Prelude.{◌≡◌, ◌<◌, ◌^◌, ◌++◌, ◌∷◌, [], ℕ, map, take, drop, length, filter_map, IfOk, OnOk};
ghost use Rattle.std.specs.List.{flat_map};
ghost use Rattle.std.specs.Option.{option_map, option_to_list};
ghost use Rattle.psa_model.specs.declared.draft.DefinitionKind.TheVariants as kind_of;
ghost use Rattle.psa_model.specs.declared.draft.DraftBody.TheVariants as body_of;
ghost use Rattle.psa_model.specs.PathNames.{is_path as is_path_name};
ghost use Rattle.psa_names.specs.Outlines.{Entries, entry_of, entries_of};
ghost use Rattle.psa_names.specs.ModelOfDraft.{by_level, factor_of, group_of, member_ids};
ghost use Rattle.psa_assembly.specs.Groups.{event_of_group, factor_references, ids_of, names_of_groups, path_references, with_factor};
ghost use Rattle.psa_bodies.specs.Made.{IsContext, IsMade};
ghost use Rattle.psa_bodies.specs.Numbering.{AreNumbers};
ghost use Rattle.psa_bodies.specs.Reading.{Reads};

use psa_bodies::{Context, Cursor, Numbers, basic_of_sense, resolve_expression, skip_reference};
use psa_model::{
    BasicEvent, DraftDefinition, DraftFactor, DraftGroup, DraftReference, EventId, Factor, Group,
    MAX_MEMBERS, Place,
};
use psa_names::Sense;
use psa_text::{Items, OutOfMemory, Text};
use std::alloc::Global;

/// The group of a definition with these members.
pub fn make_group(
    alloc: Global,
    context: &Context,
    cursor: &mut Cursor,
    definition: &DraftDefinition,
    group: &DraftGroup,
    members: Items<EventId>,
) -> Result<Group, OutOfMemory>
    requires context { IsContext context.now }
    requires kind { definition.now.kind ≡ kind_of.Group }
    requires body { definition.now.body ≡ body_of.Group group.now }
    requires few { length group.now.members < 2 ^ 32 }
    requires members { members ≡ map (λ id. record { 0 = id })
        (member_ids (entries_of context.now.draft.now) (entry_of definition.now)) }
    ensures { IfOk result (IsMade context.now.draft.now definition.now cursor.old cursor.new
        (λ entries from. group_of entries from)) }
{
    let name = Text::from_str(alloc, definition.name.as_str())?;
    let count = group.members.len() as u32;
    skip_paths(context.numbers, cursor, group.members.as_slice());
    let distribution = resolve_expression(alloc, context.numbers, cursor, &group.distribution)?;
    let factors = group.factors.as_slice();
    let factors = resolve_factors(alloc, context.numbers, cursor, factors, count)?;
    Ok(Group {
        name,
        place: definition.place,
        model: group.model,
        members,
        distribution,
        factors: Items::from_vec(factors),
    })
}

/// Passes over the references of the members that are paths.
fn skip_paths(numbers: &Numbers, cursor: &mut Cursor, members: &[DraftReference])
    ensures { Reads {A = ℕ} numbers.now cursor.old cursor.new (flat_map path_references members.now)
        (λ entries from. 0) 0 }
{
    for member in members {
        skip_path(numbers, cursor, member);
    }
}

/// Passes over the reference of a member, where it is a path.
fn skip_path(numbers: &Numbers, cursor: &mut Cursor, member: &DraftReference)
    ensures { Reads {A = ℕ} numbers.now cursor.old cursor.new (path_references member.now)
        (λ entries from. 0) 0 }
{
    if is_path(&member.name) {
        skip_reference(numbers, cursor);
    }
}

/// Whether a name is a path: it has a dot.
fn is_path(name: &Text) -> bool
    ensures { result ≡ is_path_name name.now }
{
    for byte in name.as_bytes() {
        if *byte == b'.' {
            return true;
        }
    }
    false
}

/// The basic events that the next members stand for.
pub fn resolve_members(
    alloc: Global,
    numbers: &Numbers,
    members: &mut Cursor,
    count: usize,
) -> Result<Items<EventId>, OutOfMemory>
    ensures ids { IfOk result (λ made. (entries : Entries) → AreNumbers entries numbers.now
        → made ≡ ids_of entries (take count members.old)) }
    ensures rest { OnOk result (members.new ≡ drop count members.old) }
{
    let mut made = Items::new(alloc);
    for _ in 0..count {
        push_member(numbers, &mut made, members.next())?;
    }
    Ok(made)
}

/// Adds the basic events that a group at a place defines: its members that stand for no definition.
pub fn push_events(
    alloc: Global,
    basics: &mut Items<BasicEvent>,
    members: &[DraftReference],
    senses: &[Sense],
    place: Place,
) -> Result<(), OutOfMemory>
    ensures { OnOk result (basics.new ≡ basics.old
        ++ map (event_of_group place) (names_of_groups members.now senses.now)) }
{
    let mut left = Cursor::new(senses);
    for member in members {
        push_event(alloc, basics, member, left.next(), place)?;
    }
    Ok(())
}

/// Adds the basic event of a member's name, where a group defines it.
fn push_event(
    alloc: Global,
    basics: &mut Items<BasicEvent>,
    member: &DraftReference,
    sense: Option<Sense>,
    place: Place,
) -> Result<(), OutOfMemory>
    ensures { OnOk result (basics.new ≡ basics.old
        ++ map (event_of_group place) (names_of_groups (member.now ∷ []) (option_to_list sense))) }
{
    match sense {
        Some(Sense::OfGroup(_)) => basics.push(BasicEvent {
            name: Text::from_str(alloc, member.name.as_str())?,
            place,
            expression: None,
        }),
        Some(Sense::Definition(_)) => Ok(()),
        None => Ok(()),
    }
}

/// Adds the basic event that a member stands for.
fn push_member(
    numbers: &Numbers,
    made: &mut Items<EventId>,
    sense: Option<Sense>,
) -> Result<(), OutOfMemory>
    ensures { OnOk result ((entries : Entries) → AreNumbers entries numbers.now
        → made.new ≡ made.old ++ ids_of entries (option_to_list sense)) }
{
    match sense {
        Some(sense) => match basic_of_sense(numbers, sense) {
            Some(id) => made.push(EventId(id)),
            None => Ok(()),
        },
        None => Ok(()),
    }
}

/// Factors by level; a factor without a level has the number of members.
fn resolve_factors(
    alloc: Global,
    numbers: &Numbers,
    cursor: &mut Cursor,
    factors: &[DraftFactor],
    members: u32,
) -> Result<Vec<Factor>, OutOfMemory>
    ensures { IfOk result (λ made. Reads numbers.now cursor.old cursor.new
        (flat_map factor_references factors.now)
        (λ entries from. by_level (map (factor_of entries from members) factors.now)) made.items) }
{
    let mut made = Vec::new(alloc);
    for factor in factors {
        let expression = resolve_expression(alloc, numbers, cursor, &factor.expression)?;
        let level = factor.level.unwrap_or(members);
        place_factor(&mut made, Factor { level, expression })?;
    }
    Ok(made)
}

/// Puts a factor behind those of its level and of lower ones; one of another level than those of groups
/// is let go.
fn place_factor(factors: &mut Vec<Factor>, factor: Factor) -> Result<(), OutOfMemory>
    ensures { OnOk result (factors.new.items ≡ with_factor factors.old.items factor) }
{
    let level = factor.level;
    if level == 0 || level > MAX_MEMBERS as u32 {
        return Ok(());
    }
    let place = factors.iter().filter(|one| one.level <= level).count();
    factors.insert(place, factor)?;
    Ok(())
}
