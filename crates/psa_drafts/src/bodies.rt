ghost use Rattle.std.specs.Prelude.{◌≡◌, ◌+◌, ◌++◌, [], ◌∷◌, IfOk, OnOk, slice_get};
ghost use Rattle.std.specs.List.{filter_map};
ghost use Rattle.std.specs.Option.{option_or, option_to_list};
ghost use Rattle.psa_elements.specs.DraftReading.{event_tree_of as event_tree_reading, instruction_of, instructions_in, link_of};
ghost use Rattle.psa_model.specs.declared.draft.DraftBody.TheVariants.{Start, Steps};
ghost use Rattle.psa_elements.specs.ElementTable as table;
ghost use Rattle.psa_drafts.specs.Bodies.{body_of, rows_in};
ghost use Rattle.psa_draft_parts.specs.Sayings.{IsReadable, inside_among, reading_among, size_of, start_tag};
ghost use Rattle.psa_draft_parts.specs.Starts.{around_of};

use crate::branches::branch;
use psa_draft_parts::{
    Around, PlainRow, Reader, StartTag, first_expression, formula_in, group, instruction,
    instruction_row, instructions, keep_first, pass_over, push_found, reference, reference_by,
    state_in, value_at,
};
use psa_model::{DraftBody, DraftInstruction, DraftReference};
use psa_text::{Element, Items, OutOfMemory};

/// What the definition of an element of this row says. The element itself is counted too.
pub fn body(
    reader: &mut Reader,
    row: PlainRow,
    around: &Around,
    element: &Element,
) -> Result<DraftBody, OutOfMemory>
    requires { IsReadable reader.old.number element.now }
    ensures counted { OnOk result (reader.new.number ≡ reader.old.number + size_of element.now) }
    ensures said { IfOk result (λ found. found ≡ body_of row
        (start_tag (around_of around.now) reader.old.number element.now)
        (inside_among (rows_in row) (around_of around.now) reader.old.number element.now)) }
{
    match row {
        PlainRow::Gate => Ok(DraftBody::Formula(formula_in(reader, around, element)?)),
        PlainRow::HouseEvent => Ok(DraftBody::State(state_in(reader, around, element))),
        PlainRow::PublicHouseEvent => Ok(DraftBody::State(state_in(reader, around, element))),
        PlainRow::Group => Ok(DraftBody::Group(group(reader, around, element)?)),
        PlainRow::InitiatingEvent => start_body(reader, around, element),
        PlainRow::FunctionalEvent => {
            pass_over(reader, element);
            Ok(DraftBody::Nothing)
        }
        PlainRow::Sequence => steps_body(reader, around, element),
        PlainRow::Branch => Ok(DraftBody::Walk(branch(reader, around, element)?)),
        PlainRow::Rule => Ok(DraftBody::Steps(instructions(reader, around, element)?, None)),
        _ => Ok(DraftBody::Value(first_expression(reader, around, element)?)),
    }
}

/// What an initiating event says: its event tree.
fn start_body(
    reader: &mut Reader,
    around: &Around,
    element: &Element,
) -> Result<DraftBody, OutOfMemory>
    requires { IsReadable reader.old.number element.now }
    ensures counted { OnOk result (reader.new.number ≡ reader.old.number + size_of element.now) }
    ensures said { IfOk result (λ found. found ≡ Start (event_tree_reading
        (start_tag (around_of around.now) reader.old.number element.now))) }
{
    let start = StartTag {
        around,
        element,
        number: reader.number,
    };
    pass_over(reader, element);
    match value_at(&start, "event-tree") {
        Some(_name) => Ok(DraftBody::Start(Some(reference_by(
            reader.alloc,
            "event-tree",
            &start,
        )?))),
        None => Ok(DraftBody::Start(None)),
    }
}

/// What a sequence says: its instructions, and the event tree that it links to.
fn steps_body(
    reader: &mut Reader,
    around: &Around,
    element: &Element,
) -> Result<DraftBody, OutOfMemory>
    requires { IsReadable reader.old.number element.now }
    ensures counted { OnOk result (reader.new.number ≡ reader.old.number + size_of element.now) }
    ensures said { IfOk result (λ found.
        let inside = inside_among (table.instructions ++ table.to_event_tree ∷ [])
        (around_of around.now) reader.old.number element.now
        in found ≡ Steps (instructions_in inside) (slice_get (filter_map link_of inside) 0)) }
{
    reader.number += 1;
    let mut instructions = Items::new(reader.alloc);
    let mut link: Option<DraftReference> = None;
    let children = element.children.as_slice();
    for child in children {
        steps_part(reader, around, child, &mut instructions, &mut link)?;
    }
    Ok(DraftBody::Steps(instructions, link))
}

/// Adds what an element in a sequence says to its instructions and its link.
fn steps_part(
    reader: &mut Reader,
    around: &Around,
    element: &Element,
    instructions: &mut Items<DraftInstruction>,
    link: &mut Option<DraftReference>,
) -> Result<(), OutOfMemory>
    requires { IsReadable reader.old.number element.now }
    ensures counted { OnOk result (reader.new.number ≡ reader.old.number + size_of element.now) }
    ensures said { OnOk result (instructions.new ≡ instructions.old ++ option_to_list
        (instruction_of (reading_among (table.instructions ++ table.to_event_tree ∷ [])
        (around_of around.now) reader.old.number element.now))) }
    ensures linked { OnOk result (link.new ≡ option_or link.old (link_of
        (reading_among (table.instructions ++ table.to_event_tree ∷ []) (around_of around.now)
        reader.old.number element.now))) }
{
    let start = StartTag {
        around,
        element,
        number: reader.number,
    };
    let tag = element.tag.as_str();
    if let Some(row) = instruction_row(tag) {
        let found = instruction(reader, row, around, element)?;
        return push_found(instructions, found);
    }
    pass_over(reader, element);
    if tag != "event-tree" {
        return Ok(());
    }
    let found = reference(reader.alloc, &start)?;
    keep_first(link, Some(found));
    Ok(())
}
