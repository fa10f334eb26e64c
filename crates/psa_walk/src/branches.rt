ghost use Rattle.std.specs.Prelude.{◌≡◌, OnOk};
ghost use Rattle.std.specs.List.{slice_get};
ghost use Rattle.psa_model.specs.Paths.{
  arrivals,
  below,
  end_arrivals,
  fork_arrivals,
  link_arrivals,
  linked_arrivals,
  sequence_arrivals,
};
ghost use Rattle.psa_model.specs.declared.walks.BranchEnd.TheViews.{out-BranchEnd};
ghost use Rattle.psa_walk.specs.Walks.{Gathers};

use crate::gathered::Gathered;
use crate::instructions::carry_out_all;
use crate::travelled::Travelled;
use crate::walk::{Stop, Walk};
use psa_model::{Branch, BranchEnd, ForkPath, Functional, Sequence, SequenceId, TreeId};
use sqlite_items::at;

/// Walks a branch, with at most `depth` branches on each way: it calls itself so deep at most.
#[cycle(walking)]
pub fn walk_branch<'a>(
    walk: &Walk<'a>,
    travelled: &mut Travelled<'a>,
    gathered: &mut Gathered,
    branch: &'a Branch,
    left: u32,
    depth: u32,
) -> Result<(), Stop>
    ensures gathered { Gathers
        (arrivals depth walk.now.model.now walk.now.initiating.0 left branch.now travelled.old)
        gathered.old result gathered.new }
    ensures back { OnOk result (travelled.new ≡ travelled.old) }
{
    if depth == 0 {
        return Ok(());
    }
    let steps = travelled.len();
    let rest = carry_out_all(walk, travelled, branch.instructions.as_slice(), left)?;
    walk_end(walk, travelled, gathered, &branch.end, rest, depth - 1)?;
    travelled.back_to(steps);
    Ok(())
}

/// Goes where a branch leads.
#[cycle(walking)]
fn walk_end<'a>(
    walk: &Walk<'a>,
    travelled: &mut Travelled<'a>,
    gathered: &mut Gathered,
    end: &'a BranchEnd,
    left: u32,
    depth: u32,
) -> Result<(), Stop>
    ensures gathered { Gathers
        (end_arrivals walk.now.model.now walk.now.initiating.0
        (below depth walk.now.model.now walk.now.initiating.0)
        left travelled.old (out-BranchEnd end.now))
        gathered.old result gathered.new }
    ensures back { OnOk result (travelled.new ≡ travelled.old) }
{
    let model = walk.model;
    match end {
        BranchEnd::Fork(functional, paths) => {
            match at(model.functionals.as_slice(), functional.0 as usize) {
                Some(event) => walk_fork(
                    walk,
                    travelled,
                    gathered,
                    event,
                    paths.as_slice(),
                    left,
                    depth,
                ),
                None => Ok(()),
            }
        }
        BranchEnd::Sequence(id) => match at(model.sequences.as_slice(), id.0 as usize) {
            Some(sequence) => walk_sequence(walk, travelled, gathered, *id, sequence, left, depth),
            None => Ok(()),
        },
        BranchEnd::Branch(id) => match at(model.branches.as_slice(), id.0 as usize) {
            Some(named) => walk_branch(walk, travelled, gathered, &named.branch, left, depth),
            None => Ok(()),
        },
    }
}

/// Goes into the paths of a fork in order.
#[cycle(walking)]
fn walk_fork<'a>(
    walk: &Walk<'a>,
    travelled: &mut Travelled<'a>,
    gathered: &mut Gathered,
    event: &'a Functional,
    paths: &'a [ForkPath],
    left: u32,
    depth: u32,
) -> Result<(), Stop>
    ensures gathered { Gathers
        (fork_arrivals (below depth walk.now.model.now walk.now.initiating.0)
        left travelled.old paths.now event.now)
        gathered.old result gathered.new }
    ensures back { OnOk result (travelled.new ≡ travelled.old) }
{
    for path in paths {
        travelled.take_fork(&event.name, &path.state)?;
        walk_branch(walk, travelled, gathered, &path.branch, left, depth)?;
        travelled.leave_fork();
    }
    Ok(())
}

/// Carries out a sequence's instructions; the path then arrives, or goes on in the linked event tree.
#[cycle(walking)]
fn walk_sequence<'a>(
    walk: &Walk<'a>,
    travelled: &mut Travelled<'a>,
    gathered: &mut Gathered,
    id: SequenceId,
    sequence: &'a Sequence,
    left: u32,
    depth: u32,
) -> Result<(), Stop>
    ensures gathered { Gathers
        (sequence_arrivals walk.now.model.now walk.now.initiating.0
        (below depth walk.now.model.now walk.now.initiating.0)
        id left travelled.old sequence.now)
        gathered.old result gathered.new }
    ensures back { OnOk result (travelled.new ≡ travelled.old) }
{
    let steps = travelled.len();
    let rest = carry_out_all(walk, travelled, sequence.instructions.as_slice(), left)?;
    walk_link(walk, travelled, gathered, id, sequence.link, rest, depth)?;
    travelled.back_to(steps);
    Ok(())
}

/// The path arrives at a sequence without a link; else it goes on.
#[cycle(walking)]
fn walk_link<'a>(
    walk: &Walk<'a>,
    travelled: &mut Travelled<'a>,
    gathered: &mut Gathered,
    id: SequenceId,
    link: Option<TreeId>,
    left: u32,
    depth: u32,
) -> Result<(), Stop>
    ensures gathered { Gathers
        (link_arrivals walk.now.model.now
        (below depth walk.now.model.now walk.now.initiating.0)
        id link left travelled.old)
        gathered.old result gathered.new }
    ensures back { OnOk result (travelled.new ≡ travelled.old) }
{
    match link {
        Some(tree) => follow_link(walk, travelled, gathered, tree, left, depth),
        None => gathered.arrive(id, travelled),
    }
}

/// Follows a link, which counts as an instruction.
#[cycle(walking)]
fn follow_link<'a>(
    walk: &Walk<'a>,
    travelled: &mut Travelled<'a>,
    gathered: &mut Gathered,
    tree: TreeId,
    left: u32,
    depth: u32,
) -> Result<(), Stop>
    ensures gathered { Gathers
        (linked_arrivals (below depth walk.now.model.now walk.now.initiating.0)
        (slice_get walk.now.model.now.event_trees tree.0) left travelled.old)
        gathered.old result gathered.new }
    ensures back { OnOk result (travelled.new ≡ travelled.old) }
{
    if left == 0 {
        return Err(Stop::LongPath);
    }
    match at(walk.model.event_trees.as_slice(), tree.0 as usize) {
        Some(event_tree) => walk_branch(
            walk,
            travelled,
            gathered,
            &event_tree.start,
            left - 1,
            depth,
        ),
        None => Ok(()),
    }
}
