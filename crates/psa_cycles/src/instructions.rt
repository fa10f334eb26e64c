ghost use Rattle.std.specs.Prelude.{◌≡◌, ◌+◌, OnOk, map};
ghost use Rattle.psa_model.specs.Drafts.{instruction_contents, together};
ghost use Rattle.psa_names.specs.Outlines.{instruction_outline, joined};
ghost use Rattle.psa_cycles.specs.Levels.{HasRoom, with_outline, with_outlines};

use crate::levels::{Levels, push_formula, push_test};
use psa_model::DraftInstruction;
use psa_text::OutOfMemory;

/// Adds the elements of instructions inside so many others. This calls itself as deep as a body
/// nests.
#[cycle(instructing)]
pub fn push_instructions(
    levels: &mut Levels,
    instructions: &[DraftInstruction],
    around: u32,
) -> Result<(), OutOfMemory>
    requires { HasRoom around (together (map instruction_contents instructions.now)) }
    ensures { OnOk result (levels.new
        ≡ with_outlines around (joined (map instruction_outline instructions.now)) levels.old) }
{
    for instruction in instructions {
        push_instruction(levels, instruction, around)?;
    }
    Ok(())
}

/// Adds the elements of one instruction. `set-house-event` holds a `constant`.
#[cycle(instructing)]
fn push_instruction(
    levels: &mut Levels,
    instruction: &DraftInstruction,
    around: u32,
) -> Result<(), OutOfMemory>
    requires { HasRoom around (instruction_contents instruction.now) }
    ensures { OnOk result
        (levels.new ≡ with_outline around (instruction_outline instruction.now) levels.old) }
{
    match instruction {
        DraftInstruction::Collect(formula) => {
            levels.push_plain(around + 1);
            push_formula(levels, formula, around + 1)
        }
        DraftInstruction::SetHouse(_, _) => {
            levels.push_naming(around + 1)?;
            levels.push_plain(around + 2);
            Ok(())
        }
        DraftInstruction::Block(inside) => {
            levels.push_plain(around + 1);
            push_instructions(levels, inside.as_slice(), around + 1)
        }
        DraftInstruction::Rule(_) => levels.push_naming(around + 1),
        DraftInstruction::If(test, first, second) => {
            levels.push_plain(around + 1);
            push_test(levels, test, around + 1)?;
            push_instructions(levels, first.as_slice(), around + 1)?;
            push_instructions(levels, second.as_slice(), around + 1)
        }
    }
}
