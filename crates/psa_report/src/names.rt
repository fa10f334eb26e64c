ghost use Rattle.std.specs.Prelude.{◌≡◌, [], codes, map, if◌then◌else◌};
ghost use Rattle.std.specs.List.{slice_get};
ghost use Rattle.psa_model.specs.Events.{members_at};
ghost use Rattle.psa_model.specs.Names.{basic_name, event_text, held_members, member_name as name_of_member, name_in, ranked_text};
ghost use Rattle.psa_report.specs.Joined.{separated};
ghost use Rattle.psa_report.specs.Pieces.{Writes};

use crate::WriteFault;
use crate::pieces::put_one;
use psa_model::{EventId, EventNumber, Expanded, ExpandedEvent, GroupId, Model};
use psa_ports::Sink;

/// The name of a basic event, empty where it does not stand.
fn basic(model: &Model, event: EventId) -> &str
    ensures { result.now ≡ basic_name model.now event.0 }
{
    match model.basics.get(event.0 as usize) {
        Some(basic) => basic.name.as_str(),
        None => "",
    }
}

/// The members of a group, none where it does not stand.
fn members(model: &Model, group: GroupId) -> &[EventId]
    ensures { result.now ≡ members_at model.now group.0 }
{
    match model.groups.get(group.0 as usize) {
        Some(group) => group.members.as_slice(),
        None => &[],
    }
}

/// The name of the member at a place of a group, empty where it does not stand.
fn member(model: &Model, group: GroupId, place: u8) -> &str
    ensures { result.now
        ≡ name_of_member model.now (slice_get (members_at model.now group.0) place) }
{
    match members(model, group).get(place as usize) {
        Some(id) => basic(model, *id),
        None => "",
    }
}

/// Writes the text of the event with a rank.
pub fn put_ranked<S: Sink>(
    out: &mut S,
    expanded: &Expanded,
    ranks: &[EventNumber],
    rank: u32,
) -> Result<(), WriteFault>
    ensures { Writes (S.written out.old) (S.written out.new) (S.faults out.old) (S.faults out.new)
        (ranked_text expanded.now ranks.now rank) result }
{
    match ranks.get(rank as usize) {
        Some(number) => put_numbered(out, expanded, *number),
        None => put_one(out, ""),
    }
}

/// Writes the text of an expanded event by its number.
fn put_numbered<S: Sink>(
    out: &mut S,
    expanded: &Expanded,
    number: EventNumber,
) -> Result<(), WriteFault>
    ensures { Writes (S.written out.old) (S.written out.new) (S.faults out.old) (S.faults out.new)
        (name_in (event_text expanded.now.model) expanded.now.events number.0) result }
{
    match expanded.events.get(number.0 as usize) {
        Some(event) => put_event(out, &expanded.model, *event),
        None => put_one(out, ""),
    }
}

/// Writes the text of an expanded event: the name of a basic event, or the names of a subset's members between
/// `[` and `]`.
fn put_event<S: Sink>(out: &mut S, model: &Model, event: ExpandedEvent) -> Result<(), WriteFault>
    ensures { Writes (S.written out.old) (S.written out.new) (S.faults out.old) (S.faults out.new)
        (event_text model.now event) result }
{
    match event {
        ExpandedEvent::Basic(id) => put_one(out, basic(model, id)),
        ExpandedEvent::Member(group, place) => put_one(out, member(model, group, place)),
        ExpandedEvent::Shared(group, subset) => {
            put_one(out, "[")?;
            put_held(out, model, members(model, group), subset)?;
            put_one(out, "]")
        }
    }
}

/// The text where it is shown, else none.
fn shown(is_shown: bool, text: &str) -> &str
    ensures { result.now ≡ (if is_shown then text.now else []) }
{
    if is_shown { text } else { "" }
}

/// What stands before the next name: a space once one is shown.
fn separator_after(is_shown: bool, separator: &'static str) -> &'static str
    ensures { result.now ≡ (if is_shown then codes " " else separator.now) }
{
    if is_shown { " " } else { separator }
}

/// Writes the names of the members that a subset holds, joined by one space.
fn put_held<S: Sink>(
    out: &mut S,
    model: &Model,
    members: &[EventId],
    subset: u8,
) -> Result<(), WriteFault>
    ensures { Writes (S.written out.old) (S.written out.new) (S.faults out.old) (S.faults out.new)
        (separated [] (map (λ id. basic_name model.now id.0) (held_members subset members.now)))
        result }
{
    let mut separator = "";
    let mut left = subset;
    for member in members {
        let is_held = left % 2 == 1;
        put_one(out, shown(is_held, separator))?;
        put_one(out, shown(is_held, basic(model, *member)))?;
        separator = separator_after(is_held, separator);
        left /= 2;
    }
    Ok(())
}
