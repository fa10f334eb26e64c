ghost use Rattle.std.specs.Prelude.{◌≡◌, ◌++◌, map, IfOk, OnOk};
ghost use Rattle.psa_names.specs.Outlines.{ForkState, branch_states, entry_of, states_of};
ghost use Rattle.psa_lookup.specs.Repeats.{least_from, least_state};
ghost use Rattle.psa_lookup.specs.States.{first_spot, fork_states, path_states};

use crate::states::{FirstStates, State};
use psa_model::{
    DraftBody, DraftBranch, DraftBranchEnd, DraftDefinition, DraftForkPath, DraftReference,
    MAX_NESTING,
};
use psa_text::OutOfMemory;
use std::alloc::Global;

/// Adds the states of the forks in a branch, nested at most so many levels: it calls itself so deep at
/// most.
#[cycle(forks)]
fn push_branch<'a>(
    states: &mut Vec<State<'a>>,
    branch: &'a DraftBranch,
    levels: u32,
) -> Result<(), OutOfMemory>
    ensures { OnOk result (fork_states states.new.items
        ≡ fork_states states.old.items ++ branch_states levels branch.now) }
{
    if levels == 0 {
        return Ok(());
    }
    match &branch.end {
        DraftBranchEnd::Fork(fork, paths) => push_paths(states, fork, paths.as_slice(), levels - 1),
        DraftBranchEnd::Sequence(_) => Ok(()),
        DraftBranchEnd::Branch(_) => Ok(()),
    }
}

/// Adds the paths of a fork, each with the states on it.
#[cycle(forks)]
fn push_paths<'a>(
    states: &mut Vec<State<'a>>,
    fork: &'a DraftReference,
    paths: &'a [DraftForkPath],
    levels: u32,
) -> Result<(), OutOfMemory>
    ensures { OnOk result (fork_states states.new.items
        ≡ fork_states states.old.items ++ path_states levels fork.now paths.now) }
{
    for path in paths {
        states.push(State { fork, path })?;
        push_branch(states, &path.branch, levels)?;
    }
    Ok(())
}

/// The states of the forks in a body, in place of those of another.
pub fn collect_states<'a>(
    states: &mut Vec<State<'a>>,
    body: &'a DraftBody,
) -> Result<(), OutOfMemory>
    ensures { OnOk result (fork_states states.new.items ≡ states_of body.now) }
{
    states.clear();
    match body {
        DraftBody::Walk(branch) => push_branch(states, branch, MAX_NESTING),
        _ => Ok(()),
    }
}

/// Notes each of some states.
fn note_states<'a>(first: &mut FirstStates<'a>, states: &[State<'a>]) -> Result<(), OutOfMemory>
    ensures { OnOk result ((other : ForkState) → first_spot first.new other
        ≡ least_from other (first_spot first.old other) (fork_states states.now)) }
{
    for state in states {
        first.note(*state)?;
    }
    Ok(())
}

/// The first position of each state of the forks in some definitions.
pub fn first_states(
    alloc: Global,
    definitions: &[DraftDefinition],
) -> Result<FirstStates<'_>, OutOfMemory>
    ensures { IfOk result (λ first. (state : ForkState) → first_spot first state
        ≡ least_state (map entry_of definitions.now) state) }
{
    let mut first = FirstStates::new(alloc);
    let mut states = Vec::new(alloc);
    for definition in definitions {
        collect_states(&mut states, &definition.body)?;
        note_states(&mut first, states.as_slice())?;
    }
    Ok(first)
}
