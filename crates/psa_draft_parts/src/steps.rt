ghost use Rattle.std.specs.Prelude.{◌≡◌, ◌+◌, ◌++◌, [], ◌∷◌, IfOk, OnOk};
ghost use Rattle.psa_elements.specs.DraftReading.{conditional as conditional_of, instruction_of, instructions_in, test_of};
ghost use Rattle.std.specs.List.{filter_map};
ghost use Rattle.std.specs.Option.{option_or, option_to_list};
ghost use Rattle.psa_elements.specs.ElementTable.{instructions as instruction_rows, tests};
ghost use Rattle.psa_draft_parts.specs.Rows.{row_of_instruction};
ghost use Rattle.psa_draft_parts.specs.Sayings.{IsReadable, inside_among, reading_among, reading_as, size_of};
ghost use Rattle.psa_draft_parts.specs.Starts.{around_of};

use crate::attributes::reference;
use crate::conditions::condition;
use crate::counting::pass_over;
use crate::formulas::{formula_in, state_in};
use crate::lists::{keep_first, push_found};
use crate::rows::{InstructionRow, instruction_row, test_row};
use crate::start::{Around, Reader, StartTag};
use psa_model::{DraftInstruction, DraftTest};
use psa_text::{Element, Items, OutOfMemory};
use std::alloc::Global;

/// The instruction that an element of this row says; an `if` without a test or an instruction says
/// none.
#[cycle(instruction)]
pub fn instruction(
    reader: &mut Reader,
    row: InstructionRow,
    around: &Around,
    element: &Element,
) -> Result<Option<DraftInstruction>, OutOfMemory>
    requires { IsReadable reader.old.number element.now }
    ensures counted { OnOk result (reader.new.number ≡ reader.old.number + size_of element.now) }
    ensures said { IfOk result (λ found. found ≡ instruction_of
        (reading_as (row_of_instruction row) (around_of around.now) reader.old.number
        element.now)) }
{
    let start = StartTag {
        around,
        element,
        number: reader.number,
    };
    match row {
        InstructionRow::Collect => Ok(Some(DraftInstruction::Collect(formula_in(
            reader, around, element,
        )?))),
        InstructionRow::SetHouse => {
            let state = state_in(reader, around, element);
            Ok(Some(DraftInstruction::SetHouse(reference(reader.alloc, &start)?, state)))
        }
        InstructionRow::Block => Ok(Some(DraftInstruction::Block(instructions(
            reader, around, element,
        )?))),
        InstructionRow::Rule => {
            pass_over(reader, element);
            Ok(Some(DraftInstruction::Rule(reference(reader.alloc, &start)?)))
        }
        InstructionRow::If => conditional(reader, around, element),
    }
}

/// The instructions in an element. The element itself is counted too.
#[cycle(instruction)]
pub fn instructions(
    reader: &mut Reader,
    around: &Around,
    element: &Element,
) -> Result<Items<DraftInstruction>, OutOfMemory>
    requires { IsReadable reader.old.number element.now }
    ensures counted { OnOk result (reader.new.number ≡ reader.old.number + size_of element.now) }
    ensures said { IfOk result (λ found. found ≡ instructions_in
        (inside_among instruction_rows (around_of around.now) reader.old.number element.now)) }
{
    reader.number += 1;
    let children = element.children.as_slice();
    let mut all = Items::new(reader.alloc);
    for child in children {
        let found = instruction_at(reader, around, child)?;
        push_found(&mut all, found)?;
    }
    Ok(all)
}

/// The instruction that an element says, None where it says none.
#[cycle(instruction)]
fn instruction_at(
    reader: &mut Reader,
    around: &Around,
    element: &Element,
) -> Result<Option<DraftInstruction>, OutOfMemory>
    requires { IsReadable reader.old.number element.now }
    ensures counted { OnOk result (reader.new.number ≡ reader.old.number + size_of element.now) }
    ensures said { IfOk result (λ found. found ≡ instruction_of
        (reading_among instruction_rows (around_of around.now) reader.old.number element.now)) }
{
    match instruction_row(element.tag.as_str()) {
        Some(row) => instruction(reader, row, around, element),
        None => {
            pass_over(reader, element);
            Ok(None)
        }
    }
}

/// What an `if` says: its test, its first instruction, and the others.
#[cycle(instruction)]
fn conditional(
    reader: &mut Reader,
    around: &Around,
    element: &Element,
) -> Result<Option<DraftInstruction>, OutOfMemory>
    requires { IsReadable reader.old.number element.now }
    ensures counted { OnOk result (reader.new.number ≡ reader.old.number + size_of element.now) }
    ensures said { IfOk result (λ found.
        let inside = inside_among (tests ++ instruction_rows) (around_of around.now)
        reader.old.number element.now
        in found ≡ instruction_of
        (conditional_of (filter_map test_of inside) (instructions_in inside))) }
{
    reader.number += 1;
    let children = element.children.as_slice();
    let mut test: Option<DraftTest> = None;
    let mut inside = Items::new(reader.alloc);
    for child in children {
        conditional_part(reader, around, child, &mut test, &mut inside)?;
    }
    match test {
        Some(test) => if_of(reader.alloc, test, inside),
        None => Ok(None),
    }
}

/// Adds what an element in an `if` says to its test and its instructions.
#[cycle(instruction)]
fn conditional_part(
    reader: &mut Reader,
    around: &Around,
    element: &Element,
    test: &mut Option<DraftTest>,
    inside: &mut Items<DraftInstruction>,
) -> Result<(), OutOfMemory>
    requires { IsReadable reader.old.number element.now }
    ensures counted { OnOk result (reader.new.number ≡ reader.old.number + size_of element.now) }
    ensures tested { OnOk result (test.new ≡ option_or test.old (test_of
        (reading_among (tests ++ instruction_rows) (around_of around.now) reader.old.number
        element.now))) }
    ensures said { OnOk result (inside.new ≡ inside.old ++ option_to_list (instruction_of
        (reading_among (tests ++ instruction_rows) (around_of around.now) reader.old.number
        element.now))) }
{
    if let Some(row) = test_row(element.tag.as_str()) {
        let found = condition(reader, row, around, element)?;
        keep_first(test, Some(found));
        return Ok(());
    }
    let found = instruction_at(reader, around, element)?;
    push_found(inside, found)
}

/// An `if` of a test and instructions, None without an instruction.
fn if_of(
    alloc: Global,
    test: DraftTest,
    inside: Items<DraftInstruction>,
) -> Result<Option<DraftInstruction>, OutOfMemory>
    ensures { IfOk result
        (λ found. found ≡ instruction_of (conditional_of (test ∷ []) inside)) }
{
    if inside.is_empty() {
        return Ok(None);
    }
    let mut others = inside;
    let mut first = Items::new(alloc);
    first.push(others.remove(0))?;
    Ok(Some(DraftInstruction::If(test, first, others)))
}
