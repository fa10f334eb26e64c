ghost use Rattle.std.specs.Prelude.{◌≡◌, ◌≤◌, true, map, IfOk};
ghost use Rattle.std.specs.List.{flat_map};
ghost use Rattle.psa_model.specs.declared.draft.DraftBranchEnd.TheViews.{out-DraftBranchEnd};
ghost use Rattle.psa_model.specs.Drafts.{branch_contents, end_contents, path_contents, together};
ghost use Rattle.psa_names.specs.Outlines.{branch_outlines, end_outline};
ghost use Rattle.psa_names.specs.Chains.{references_in};
ghost use Rattle.psa_names.specs.Collected.{branch_collected, end_collected};
ghost use Rattle.psa_bodies.specs.Collecting.{Collects};
ghost use Rattle.psa_bodies.specs.Branches.{
  branch_value,
  end_value,
  path_formulas,
  path_references,
  path_value,
  paths_value,
};

use crate::collected::Collected;
use crate::cursor::Cursor;
use crate::instructions::resolve_instructions;
use crate::numbers::{Numbers, next_id};
use psa_model::{
    Branch, BranchEnd, BranchId, DefinitionKind, DraftBranch, DraftBranchEnd, DraftForkPath,
    ForkPath, FunctionalId, MAX_NESTING, SequenceId,
};
use psa_text::{Items, OutOfMemory, Text};
use std::alloc::Global;

/// A branch in which at most `depth` branches stand in one another, with the places of what its names
/// stand for, and the formulas that it collects. It calls itself so deep at most.
#[cycle(branch)]
pub fn resolve_branch(
    alloc: Global,
    numbers: &Numbers,
    cursor: &mut Cursor,
    collected: &mut Collected,
    branch: &DraftBranch,
    depth: u32,
) -> Result<Branch, OutOfMemory>
    requires shallow { (branch_contents depth branch.now).has_numbers ≡ true }
    requires within { depth ≤ MAX_NESTING }
    ensures { IfOk result (Collects numbers.now cursor.old cursor.new collected.old collected.new
        (flat_map references_in (branch_outlines depth branch.now))
        (branch_collected depth branch.now)
        (λ entries from. branch_value depth entries from branch.now)) }
{
    let instructions = branch.instructions.as_slice();
    let instructions = resolve_instructions(alloc, numbers, cursor, collected, instructions)?;
    let end = resolve_end(alloc, numbers, cursor, collected, &branch.end, depth - 1)?;
    Ok(Branch { instructions, end })
}

/// Where a branch leads.
#[cycle(branch)]
fn resolve_end(
    alloc: Global,
    numbers: &Numbers,
    cursor: &mut Cursor,
    collected: &mut Collected,
    end: &DraftBranchEnd,
    depth: u32,
) -> Result<BranchEnd, OutOfMemory>
    requires shallow { (end_contents (λ b. branch_contents depth b)
        (out-DraftBranchEnd end.now)).has_numbers ≡ true }
    requires within { depth ≤ MAX_NESTING }
    ensures { IfOk result (Collects numbers.now cursor.old cursor.new collected.old collected.new
        (references_in (end_outline (λ b. branch_outlines depth b) (out-DraftBranchEnd end.now)))
        (end_collected (λ b. branch_collected depth b) (out-DraftBranchEnd end.now))
        (λ entries from. end_value depth entries from (out-DraftBranchEnd end.now))) }
{
    match end {
        DraftBranchEnd::Fork(_, paths) => {
            let id = next_id(numbers, cursor, DefinitionKind::FunctionalEvent);
            let paths = paths.as_slice();
            let paths = resolve_paths(alloc, numbers, cursor, collected, paths, depth)?;
            Ok(BranchEnd::Fork(FunctionalId(id), paths))
        }
        DraftBranchEnd::Sequence(_) => {
            let id = next_id(numbers, cursor, DefinitionKind::Sequence);
            Ok(BranchEnd::Sequence(SequenceId(id)))
        }
        DraftBranchEnd::Branch(_) => {
            let id = next_id(numbers, cursor, DefinitionKind::Branch);
            Ok(BranchEnd::Branch(BranchId(id)))
        }
    }
}

/// The paths of a fork in order.
#[cycle(branch)]
fn resolve_paths(
    alloc: Global,
    numbers: &Numbers,
    cursor: &mut Cursor,
    collected: &mut Collected,
    paths: &[DraftForkPath],
    depth: u32,
) -> Result<Items<ForkPath>, OutOfMemory>
    requires shallow { (together (map (path_contents (λ b. branch_contents depth b))
        paths.now)).has_numbers ≡ true }
    requires within { depth ≤ MAX_NESTING }
    ensures { IfOk result (Collects numbers.now cursor.old cursor.new collected.old collected.new
        (flat_map (path_references depth) paths.now) (flat_map (path_formulas depth) paths.now)
        (λ entries from. paths_value depth entries from paths.now)) }
{
    let mut made = Items::new(alloc);
    for path in paths {
        made.push(resolve_path(alloc, numbers, cursor, collected, path, depth)?)?;
    }
    Ok(made)
}

/// A path of a fork.
#[cycle(branch)]
fn resolve_path(
    alloc: Global,
    numbers: &Numbers,
    cursor: &mut Cursor,
    collected: &mut Collected,
    path: &DraftForkPath,
    depth: u32,
) -> Result<ForkPath, OutOfMemory>
    requires shallow { (branch_contents depth path.now.branch).has_numbers ≡ true }
    requires within { depth ≤ MAX_NESTING }
    ensures { IfOk result (Collects numbers.now cursor.old cursor.new collected.old collected.new
        (path_references depth path.now) (path_formulas depth path.now)
        (λ entries from. path_value depth entries from path.now)) }
{
    let branch = resolve_branch(alloc, numbers, cursor, collected, &path.branch, depth)?;
    Ok(ForkPath {
        state: Text::from_str(alloc, path.state.as_str())?,
        branch,
    })
}
