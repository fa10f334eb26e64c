ghost use Rattle.std.specs.Prelude.{◌≡◌, ◌-◌, ◌∷◌, [], ◌<◌, ◌≤◌, Some, IfOk};
ghost use Rattle.psa_model.specs.Paths.{carried, with_step};
ghost use Rattle.psa_walk.specs.Walks.{Carries};

use crate::conditions::holds;
use crate::travelled::Travelled;
use crate::walk::{Stop, Walk};
use psa_model::{Instruction, PathStep};
use sqlite_items::at;

/// Carries out instructions on a path where `left` may be, and gives how many then still may.
/// A block in a block counts, so this calls itself at most as deep as `left`.
#[cycle(carrying)]
pub fn carry_out_all(
    walk: &Walk,
    travelled: &mut Travelled,
    instructions: &[Instruction],
    left: u32,
) -> Result<u32, Stop>
    ensures carried { Carries
        (carried left walk.now.model.now walk.now.initiating.0 instructions.now travelled.old)
        result travelled.new }
    ensures left { IfOk result (λ rest. rest ≤ left) }
{
    let mut rest = left;
    for instruction in instructions {
        rest = carry_out(walk, travelled, instruction, rest)?;
    }
    Ok(rest)
}

/// Carries out one instruction.
#[cycle(carrying)]
fn carry_out(
    walk: &Walk,
    travelled: &mut Travelled,
    instruction: &Instruction,
    left: u32,
) -> Result<u32, Stop>
    ensures carried { Carries
        (carried left walk.now.model.now walk.now.initiating.0 (instruction.now ∷ []) travelled.old)
        result travelled.new }
    ensures left { IfOk result (λ rest. rest ≤ left) }
{
    if left == 0 {
        return Err(Stop::LongPath);
    }
    match instruction {
        Instruction::Collect(id) => take_step(travelled, PathStep::Collect(*id), left),
        Instruction::SetHouse(house, state) => take_step(
            travelled,
            PathStep::Set(*house, *state),
            left,
        ),
        Instruction::Block(inner) => carry_out_all(walk, travelled, inner.as_slice(), left - 1),
        Instruction::Rule(id) => match at(walk.model.rules.as_slice(), id.0 as usize) {
            Some(rule) => carry_out_all(walk, travelled, rule.instructions.as_slice(), left - 1),
            None => Ok(left - 1),
        },
        Instruction::If(test, first, second) => {
            if holds(test, walk.initiating, travelled) {
                carry_out_all(walk, travelled, first.as_slice(), left - 1)
            } else {
                carry_out_all(walk, travelled, second.as_slice(), left - 1)
            }
        }
    }
}

/// Takes a step, which is one instruction.
fn take_step(travelled: &mut Travelled, step: PathStep, left: u32) -> Result<u32, Stop>
    requires { 0 < left }
    ensures carried { Carries
        (Some (record { left = left - 1; along = with_step travelled.old step }))
        result travelled.new }
    ensures left { IfOk result (λ rest. rest ≤ left) }
{
    travelled.push(step)?;
    Ok(left - 1)
}
