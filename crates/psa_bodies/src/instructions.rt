ghost use Rattle.std.specs.Prelude.{◌≡◌, ◌<◌, ◌+◌, ◌^◌, ◌∷◌, [], map, IfOk};
ghost use Rattle.std.specs.List.{flat_map};
ghost use Rattle.psa_names.specs.Outlines.{formula_outline, instruction_outline};
ghost use Rattle.psa_names.specs.Chains.{references_in};
ghost use Rattle.psa_names.specs.Collected.{collected_by, resolved_instruction};
ghost use Rattle.psa_bodies.specs.Collecting.{Collects, formula_number, listed};

use crate::collected::Collected;
use crate::conditions::resolve_test;
use crate::cursor::Cursor;
use crate::formulas::resolve_formula;
use crate::numbers::{Numbers, next_id};
use psa_model::{
    DefinitionKind, DraftFormula, DraftInstruction, FormulaId, HouseId, Instruction, RuleId,
};
use psa_text::{Items, OutOfMemory};
use std::alloc::Global;

/// An instruction with the places of what its names stand for, and the formulas that it collects. It
/// calls itself as deep as the instruction is.
#[cycle(instruction)]
pub fn resolve_instruction(
    alloc: Global,
    numbers: &Numbers,
    cursor: &mut Cursor,
    collected: &mut Collected,
    instruction: &DraftInstruction,
) -> Result<Instruction, OutOfMemory>
    ensures { IfOk result (Collects numbers.now cursor.old cursor.new collected.old collected.new
        (references_in (instruction_outline instruction.now)) (collected_by instruction.now)
        (λ entries from. resolved_instruction entries from instruction.now)) }
{
    match instruction {
        DraftInstruction::Collect(formula) => {
            let id = collect_formula(alloc, numbers, cursor, collected, formula)?;
            Ok(Instruction::Collect(id))
        }
        DraftInstruction::SetHouse(_, state) => {
            let id = next_id(numbers, cursor, DefinitionKind::HouseEvent);
            Ok(Instruction::SetHouse(HouseId(id), *state))
        }
        DraftInstruction::Block(inside) => {
            let inside = inside.as_slice();
            let inside = resolve_instructions(alloc, numbers, cursor, collected, inside)?;
            Ok(Instruction::Block(inside))
        }
        DraftInstruction::Rule(_) => {
            let id = next_id(numbers, cursor, DefinitionKind::Rule);
            Ok(Instruction::Rule(RuleId(id)))
        }
        DraftInstruction::If(test, first, second) => {
            let test = resolve_test(alloc, numbers, cursor, test)?;
            let first = first.as_slice();
            let first = resolve_instructions(alloc, numbers, cursor, collected, first)?;
            let second = second.as_slice();
            let second = resolve_instructions(alloc, numbers, cursor, collected, second)?;
            Ok(Instruction::If(test, first, second))
        }
    }
}

/// Instructions in order.
#[cycle(instruction)]
pub fn resolve_instructions(
    alloc: Global,
    numbers: &Numbers,
    cursor: &mut Cursor,
    collected: &mut Collected,
    instructions: &[DraftInstruction],
) -> Result<Items<Instruction>, OutOfMemory>
    ensures { IfOk result (Collects numbers.now cursor.old cursor.new collected.old collected.new
        (flat_map (λ one. references_in (instruction_outline one)) instructions.now)
        (flat_map collected_by instructions.now)
        (λ entries from. listed (map (resolved_instruction entries from) instructions.now))) }
{
    let mut made = Items::new(alloc);
    for instruction in instructions {
        made.push(resolve_instruction(alloc, numbers, cursor, collected, instruction)?)?;
    }
    Ok(made)
}

/// Collects a formula, and gives its number.
fn collect_formula(
    alloc: Global,
    numbers: &Numbers,
    cursor: &mut Cursor,
    collected: &mut Collected,
    formula: &DraftFormula,
) -> Result<FormulaId, OutOfMemory>
    ensures { IfOk result (Collects numbers.now cursor.old cursor.new collected.old collected.new
        (references_in (formula_outline formula.now)) (formula.now ∷ [])
        (λ entries from. formula_number)) }
{
    let number = collected.next;
    let formula = resolve_formula(alloc, numbers, cursor, formula)?;
    collected.formulas.push(formula)?;
    collected.next = number_behind(number);
    Ok(FormulaId(number))
}

/// The next number, where there is one.
fn number_behind(number: u32) -> u32
    ensures { number + 1 < 2 ^ 32 → result ≡ number + 1 }
{
    if number < u32::MAX {
        number + 1
    } else {
        number
    }
}
