ghost use Rattle.std.specs.Prelude.{◌≡◌, ◌≤◌, ◌+◌, OnOk, map};
ghost use Rattle.psa_model.specs.Drafts.{body_contents, branch_contents, end_contents, expression_contents, path_contents, together};
ghost use Rattle.psa_model.specs.declared.draft.DraftBody.TheVariants as body_form;
ghost use Rattle.psa_model.specs.declared.draft.DraftBranchEnd.TheViews.{out-DraftBranchEnd};
ghost use Rattle.psa_names.specs.Outlines.{body_outlines, branch_outlines, end_outline, group_outlines, joined, link_outlines, plain};
ghost use Rattle.psa_cycles.specs.Levels.{HasRoom, with_outline, with_outlines};

use crate::instructions::push_instructions;
use crate::levels::{Levels, push_expression, push_formula};
use psa_model::{
    DraftBody, DraftBranch, DraftBranchEnd, DraftForkPath, DraftGroup, DraftReference, MAX_NESTING,
};
use psa_text::OutOfMemory;

/// Adds the elements of a body inside so many others: none, or the element of an event tree's
/// initial state.
pub fn push_body(levels: &mut Levels, body: &DraftBody, around: u32) -> Result<(), OutOfMemory>
    requires few { around ≤ 1 }
    requires room { HasRoom around (body_contents body.now) }
    ensures { OnOk result
        (levels.new ≡ with_outlines around (joined (body_outlines body.now)) levels.old) }
{
    match body {
        DraftBody::Nothing => Ok(()),
        DraftBody::Formula(formula) => push_formula(levels, formula, around),
        DraftBody::Value(value) => match value {
            Some(expression) => push_expression(levels, expression, around),
            None => Ok(()),
        },
        DraftBody::State(_) => Ok(()),
        DraftBody::Group(group) => push_group(levels, group, around),
        DraftBody::Start(tree) => push_link(levels, tree, around),
        DraftBody::Steps(instructions, link) => {
            push_instructions(levels, instructions.as_slice(), around)?;
            push_link(levels, link, around)
        }
        DraftBody::Walk(branch) => push_branch(levels, branch, around, MAX_NESTING),
    }
}

/// Adds the distribution and the factors of a group.
fn push_group(levels: &mut Levels, group: &DraftGroup, around: u32) -> Result<(), OutOfMemory>
    requires { HasRoom around (body_contents (body_form.Group group.now)) }
    ensures { OnOk result
        (levels.new ≡ with_outlines around (joined (group_outlines group.now)) levels.old) }
{
    push_expression(levels, &group.distribution, around)?;
    for factor in group.factors.as_slice() {
        push_expression(levels, &factor.expression, around)?;
    }
    Ok(())
}

/// Adds the event tree that is named, where one is.
fn push_link(
    levels: &mut Levels,
    link: &Option<DraftReference>,
    around: u32,
) -> Result<(), OutOfMemory>
    requires { around ≤ 1 }
    ensures { OnOk result
        (levels.new ≡ with_outlines around (joined (link_outlines link.now)) levels.old) }
{
    match link {
        Some(_) => levels.push_naming(around + 1),
        None => Ok(()),
    }
}

/// Adds the elements of a branch in which at most `depth` branches stand in one another: it calls
/// itself so deep at most.
#[cycle(branching)]
fn push_branch(
    levels: &mut Levels,
    branch: &DraftBranch,
    around: u32,
    depth: u32,
) -> Result<(), OutOfMemory>
    requires { HasRoom around (branch_contents depth branch.now) }
    ensures { OnOk result
        (levels.new ≡ with_outlines around (joined (branch_outlines depth branch.now)) levels.old) }
{
    if depth == 0 {
        return Ok(());
    }
    push_instructions(levels, branch.instructions.as_slice(), around)?;
    push_end(levels, &branch.end, around, depth - 1)
}

/// Adds what ends a branch.
#[cycle(branching)]
fn push_end(
    levels: &mut Levels,
    end: &DraftBranchEnd,
    around: u32,
    depth: u32,
) -> Result<(), OutOfMemory>
    requires { HasRoom around
        (end_contents (λ below. branch_contents depth below) (out-DraftBranchEnd end.now)) }
    ensures { OnOk result (levels.new ≡ with_outline around
        (end_outline (λ below. branch_outlines depth below) (out-DraftBranchEnd end.now))
        levels.old) }
{
    levels.push_naming(around + 1)?;
    match end {
        DraftBranchEnd::Fork(_, paths) => {
            push_paths(levels, paths.as_slice(), around + 1, depth)
        }
        DraftBranchEnd::Sequence(_) => Ok(()),
        DraftBranchEnd::Branch(_) => Ok(()),
    }
}

/// Adds the paths of a fork, each an element around its branch.
#[cycle(branching)]
fn push_paths(
    levels: &mut Levels,
    paths: &[DraftForkPath],
    around: u32,
    depth: u32,
) -> Result<(), OutOfMemory>
    requires { HasRoom around
        (together (map (path_contents (λ below. branch_contents depth below)) paths.now)) }
    ensures { OnOk result (levels.new ≡ with_outlines around
        (joined (map (λ path. plain (branch_outlines depth path.branch)) paths.now)) levels.old) }
{
    for path in paths {
        levels.push_plain(around + 1);
        push_branch(levels, &path.branch, around + 1, depth)?;
    }
    Ok(())
}
