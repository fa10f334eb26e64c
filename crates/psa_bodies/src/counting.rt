ghost use Rattle.std.specs.Prelude.{◌≡◌, ◌<◌, ◌≤◌, ◌^◌, length};
ghost use Rattle.std.specs.List.{flat_map};
ghost use Rattle.psa_model.specs.declared.draft.DraftBranchEnd.TheViews.{out-DraftBranchEnd};
ghost use Rattle.psa_names.specs.Collected.{branch_collected, collected_by, collected_in, end_collected};

use psa_model::{
    DraftBody, DraftBranch, DraftBranchEnd, DraftForkPath, DraftInstruction, MAX_NESTING,
};

/// The number of formulas that a definition collects.
pub fn count_collected(body: &DraftBody) -> u32
    requires few { length (collected_in body.now) < 2 ^ 32 }
    ensures { result ≡ length (collected_in body.now) }
{
    match body {
        DraftBody::Steps(instructions, _) => count_instructions(instructions.as_slice()),
        DraftBody::Walk(branch) => count_branch(branch, MAX_NESTING),
        _ => 0,
    }
}

/// The number of formulas that an instruction collects. It calls itself as deep as the instruction is.
#[cycle(instruction)]
fn count_instruction(instruction: &DraftInstruction) -> u32
    requires few { length (collected_by instruction.now) < 2 ^ 32 }
    ensures { result ≡ length (collected_by instruction.now) }
{
    match instruction {
        DraftInstruction::Collect(_) => 1,
        DraftInstruction::Block(inside) => count_instructions(inside.as_slice()),
        DraftInstruction::If(_, first, second) => {
            count_instructions(first.as_slice()) + count_instructions(second.as_slice())
        }
        DraftInstruction::SetHouse(_, _) => 0,
        DraftInstruction::Rule(_) => 0,
    }
}

/// The number of formulas that instructions collect.
#[cycle(instruction)]
fn count_instructions(instructions: &[DraftInstruction]) -> u32
    requires few { length (flat_map collected_by instructions.now) < 2 ^ 32 }
    ensures { result ≡ length (flat_map collected_by instructions.now) }
{
    let mut count = 0;
    for instruction in instructions {
        count += count_instruction(instruction);
    }
    count
}

/// The number of formulas that a branch collects in which at most `depth` branches stand in one
/// another. It calls itself so deep at most.
#[cycle(branch)]
fn count_branch(branch: &DraftBranch, depth: u32) -> u32
    requires few { length (branch_collected depth branch.now) < 2 ^ 32 }
    ensures { result ≡ length (branch_collected depth branch.now) }
{
    if depth == 0 {
        return 0;
    }
    count_instructions(branch.instructions.as_slice()) + count_end(&branch.end, depth - 1)
}

/// The number of formulas that are collected where a branch leads.
#[cycle(branch)]
fn count_end(end: &DraftBranchEnd, depth: u32) -> u32
    requires few { length (end_collected (λ b. branch_collected depth b)
        (out-DraftBranchEnd end.now)) < 2 ^ 32 }
    ensures { result ≡ length (end_collected (λ b. branch_collected depth b)
        (out-DraftBranchEnd end.now)) }
{
    match end {
        DraftBranchEnd::Fork(_, paths) => count_paths(paths.as_slice(), depth),
        DraftBranchEnd::Sequence(_) => 0,
        DraftBranchEnd::Branch(_) => 0,
    }
}

/// The number of formulas that are collected on the paths of a fork.
#[cycle(branch)]
fn count_paths(paths: &[DraftForkPath], depth: u32) -> u32
    requires few { length (flat_map (λ path. branch_collected depth path.branch) paths.now) < 2 ^ 32 }
    ensures { result ≡ length (flat_map (λ path. branch_collected depth path.branch) paths.now) }
{
    let mut count = 0;
    for path in paths {
        count += count_branch(&path.branch, depth);
    }
    count
}
