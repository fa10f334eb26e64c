ghost use Rattle.std.specs.Prelude.{◌≡◌, ◌+◌, ◌++◌, [], ◌∷◌, Some, IfOk, OnOk};
ghost use Rattle.std.specs.List.{filter_map};
ghost use Rattle.std.specs.Option.{option_or, option_to_list};
ghost use Rattle.psa_elements.specs.DraftReading.{branch_in, end_of, instruction_of, path_of};
ghost use Rattle.psa_elements.specs.ElementTable.{ends, instructions as instruction_rows, path as path_row};
ghost use Rattle.psa_draft_parts.specs.Rows.{row_of_end};
ghost use Rattle.psa_draft_parts.specs.Sayings.{IsReadable, inside_among, reading_among, reading_as, size_of, start_tag};
ghost use Rattle.psa_draft_parts.specs.Starts.{around_of};

use psa_draft_parts::{
    Around, EndRow, Reader, StartTag, end_row, instruction, instruction_row, keep_first, pass_over,
    place_of, push_found, reference, reference_by, text_at,
};
use psa_model::{DraftBranch, DraftBranchEnd, DraftForkPath, DraftInstruction};
use psa_text::{Element, Items, OutOfMemory, Text};

/// The instructions and the end that the elements in an element say; without an end, that is a
/// sequence of the element's name. The element itself is counted too.
#[cycle(branch)]
pub fn branch(
    reader: &mut Reader,
    around: &Around,
    element: &Element,
) -> Result<DraftBranch, OutOfMemory>
    requires { IsReadable reader.old.number element.now }
    ensures counted { OnOk result (reader.new.number ≡ reader.old.number + size_of element.now) }
    ensures said { IfOk result (λ found. found ≡ branch_in
        (start_tag (around_of around.now) reader.old.number element.now)
        (inside_among (instruction_rows ++ ends) (around_of around.now) reader.old.number
        element.now)) }
{
    let start = StartTag {
        around,
        element,
        number: reader.number,
    };
    reader.number += 1;
    let mut instructions = Items::new(reader.alloc);
    let mut end: Option<DraftBranchEnd> = None;
    let children = element.children.as_slice();
    for child in children {
        branch_part(reader, around, child, &mut instructions, &mut end)?;
    }
    match end {
        Some(end) => Ok(DraftBranch { instructions, end }),
        None => {
            let end = DraftBranchEnd::Sequence(reference(reader.alloc, &start)?);
            Ok(DraftBranch { instructions, end })
        }
    }
}

/// Adds what an element in a branch says to its instructions and its end.
#[cycle(branch)]
fn branch_part(
    reader: &mut Reader,
    around: &Around,
    element: &Element,
    instructions: &mut Items<DraftInstruction>,
    end: &mut Option<DraftBranchEnd>,
) -> Result<(), OutOfMemory>
    requires { IsReadable reader.old.number element.now }
    ensures counted { OnOk result (reader.new.number ≡ reader.old.number + size_of element.now) }
    ensures said { OnOk result (instructions.new ≡ instructions.old ++ option_to_list
        (instruction_of (reading_among (instruction_rows ++ ends) (around_of around.now)
        reader.old.number element.now))) }
    ensures ended { OnOk result (end.new ≡ option_or end.old (end_of
        (reading_among (instruction_rows ++ ends) (around_of around.now) reader.old.number
        element.now))) }
{
    let tag = element.tag.as_str();
    if let Some(row) = instruction_row(tag) {
        let found = instruction(reader, row, around, element)?;
        return push_found(instructions, found);
    }
    if let Some(row) = end_row(tag) {
        let found = branch_end(reader, row, around, element)?;
        keep_first(end, Some(found));
        return Ok(());
    }
    pass_over(reader, element);
    Ok(())
}

/// The end of a branch that an element of this row says.
#[cycle(branch)]
fn branch_end(
    reader: &mut Reader,
    row: EndRow,
    around: &Around,
    element: &Element,
) -> Result<DraftBranchEnd, OutOfMemory>
    requires { IsReadable reader.old.number element.now }
    ensures counted { OnOk result (reader.new.number ≡ reader.old.number + size_of element.now) }
    ensures said { IfOk result (λ found. Some found ≡ end_of
        (reading_as (row_of_end row) (around_of around.now) reader.old.number element.now)) }
{
    let start = StartTag {
        around,
        element,
        number: reader.number,
    };
    let paths = fork_paths(reader, around, element)?;
    match row {
        EndRow::Fork => Ok(DraftBranchEnd::Fork(
            reference_by(reader.alloc, "functional-event", &start)?,
            paths,
        )),
        EndRow::Sequence => Ok(DraftBranchEnd::Sequence(reference(reader.alloc, &start)?)),
        EndRow::Branch => Ok(DraftBranchEnd::Branch(reference(reader.alloc, &start)?)),
    }
}

/// The paths in an element. The element itself is counted too.
#[cycle(branch)]
fn fork_paths(
    reader: &mut Reader,
    around: &Around,
    element: &Element,
) -> Result<Items<DraftForkPath>, OutOfMemory>
    requires { IsReadable reader.old.number element.now }
    ensures counted { OnOk result (reader.new.number ≡ reader.old.number + size_of element.now) }
    ensures said { IfOk result (λ found. found ≡ filter_map path_of
        (inside_among (path_row ∷ []) (around_of around.now) reader.old.number element.now)) }
{
    reader.number += 1;
    let children = element.children.as_slice();
    let mut paths = Items::new(reader.alloc);
    for child in children {
        let found = fork_path(reader, around, child)?;
        push_found(&mut paths, found)?;
    }
    Ok(paths)
}

/// The path that an element says, None where it says none.
#[cycle(branch)]
fn fork_path(
    reader: &mut Reader,
    around: &Around,
    element: &Element,
) -> Result<Option<DraftForkPath>, OutOfMemory>
    requires { IsReadable reader.old.number element.now }
    ensures counted { OnOk result (reader.new.number ≡ reader.old.number + size_of element.now) }
    ensures said { IfOk result (λ found. found ≡ path_of (reading_among (path_row ∷ [])
        (around_of around.now) reader.old.number element.now)) }
{
    let start = StartTag {
        around,
        element,
        number: reader.number,
    };
    if element.tag.as_str() != "path" {
        pass_over(reader, element);
        return Ok(None);
    }
    Ok(Some(DraftForkPath {
        state: Text::from_str(reader.alloc, text_at(&start, "state"))?,
        place: place_of(&start),
        tag: start.number,
        branch: branch(reader, around, element)?,
    }))
}
