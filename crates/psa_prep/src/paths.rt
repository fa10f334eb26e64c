ghost use Rattle.std.specs.Prelude.{◌≡◌, ◌≤◌, ◌<◌, ◌+◌, ℕ, Some, length, IfOk};
ghost use Rattle.std.specs.List.{slice_get};
ghost use Rattle.psa_model.specs.declared.formula.Formula.{Formula as Formulas};
ghost use Rattle.psa_model.specs.Parts.{Meets};
ghost use Rattle.psa_model.specs.Truth.{IsResolved};
ghost use Rattle.psa_prep.specs.Paths.{ArePaths, IsTask, IsPath, IsStarted, PathSoFar, Stepped, MadeAt, MadeFormula, path_truth, paths_truth, changes_of, task_world};
ghost use Rattle.psa_prep.specs.Sound.{state_houses};

use crate::EventIndex;
use crate::builder::{Builder, Prepared};
use crate::lowering::{Context, lower};
use crate::pairs::{Pair, Signs, join_pair};
use crate::states::HouseStates;
use psa_model::{Expanded, FormulaId, MAX_DEPTH, Path, PathStep, Target};
use psa_text::OutOfMemory;
use sqlite_items::at;
use std::alloc::Global;
use std::collections::HashMap;

/// What a target is prepared under.
#[derive(Clone, Copy)]
pub struct Task<'a> {
    pub alloc: Global,
    pub expanded: &'a Expanded,
    pub target: &'a Target,
    pub index: &'a EventIndex,
    /// The rank of each ranked event.
    pub ranks: &'a HashMap<u32, u32>,
}

/// How far a path was prepared: the nodes of what it collected, and the number of its house states.
#[derive(Clone, Copy)]
pub struct Progress {
    pub pair: Pair,
    pub number: u64,
}

/// The nodes of a sequence: all that some path collected.
pub fn lower_paths(
    builder: &mut Builder,
    task: &Task,
    states: &mut HouseStates,
    paths: &[Path],
) -> Result<Pair, OutOfMemory>
    requires resolved { IsResolved task.now.expanded.now.model }
    requires task { IsTask task.now }
    requires paths { ArePaths task.now paths.now }
    requires started { IsStarted task.now (changes_of states.old) builder.old }
    ensures { IfOk result (MadeAt task.now (paths_truth task.now paths.now)
        (changes_of states.old) (changes_of states.new) builder.old builder.new) }
{
    let mut pair = Pair::constant(false);
    for path in paths {
        let one = lower_path(builder, task, states, path.as_slice())?;
        pair = join_pair(builder, Signs::yes(), false, pair, one)?;
    }
    Ok(pair)
}

/// The nodes of all that a path collected. A house state holds for the formulas collected after it on
/// the same path.
fn lower_path(
    builder: &mut Builder,
    task: &Task,
    states: &mut HouseStates,
    path: &[PathStep],
) -> Result<Pair, OutOfMemory>
    requires resolved { IsResolved task.now.expanded.now.model }
    requires task { IsTask task.now }
    requires path { IsPath task.now path.now }
    requires started { IsStarted task.now (changes_of states.old) builder.old }
    ensures { IfOk result (MadeAt task.now (path_truth task.now path.now)
        (changes_of states.old) (changes_of states.new) builder.old builder.new) }
{
    let mut progress = Progress {
        pair: Pair::constant(true),
        number: 0,
    };
    for place in 0..path.len() {
        progress = lower_step(builder, task, states, path, place, progress)?;
    }
    Ok(progress.pair)
}

/// Prepares the step at a place of a path.
fn lower_step(
    builder: &mut Builder,
    task: &Task,
    states: &mut HouseStates,
    path: &[PathStep],
    place: usize,
    progress: Progress,
) -> Result<Progress, OutOfMemory>
    requires resolved { IsResolved task.now.expanded.now.model }
    requires task { IsTask task.now }
    requires path { IsPath task.now path.now }
    requires place { place < length path.now }
    requires so_far { PathSoFar task.now path.now place (changes_of states.old) builder.old progress }
    ensures { IfOk result (Stepped task.now path.now (place + 1)
        (changes_of states.old) (changes_of states.new) builder.old builder.new) }
{
    match path[place] {
        PathStep::Collect(id) => {
            let one = lower_collected(builder, task, states, progress.number, id)?;
            let pair = join_pair(builder, Signs::yes(), true, progress.pair, one)?;
            Ok(Progress {
                pair,
                number: progress.number,
            })
        }
        PathStep::Set(house, state) => {
            let number = states.set(task.expanded, progress.number, house, state)?;
            Ok(Progress {
                pair: progress.pair,
                number,
            })
        }
    }
}

/// The nodes of a collected formula, once for each list of house states.
fn lower_collected(
    builder: &mut Builder,
    task: &Task,
    states: &HouseStates,
    number: u64,
    id: FormulaId,
) -> Result<Pair, OutOfMemory>
    requires resolved { IsResolved task.now.expanded.now.model }
    requires task { IsTask task.now }
    requires stands { id.0 < length task.now.expanded.now.model.formulas }
    requires meets { (one : Formulas)
        → slice_get task.now.expanded.now.model.formulas id.0 ≡ Some one
        → Meets task.now.expanded.now task.now.target.now
        (state_houses (task_world task.now (changes_of states.now)) number) one }
    requires number { number ≤ length (changes_of states.now) }
    requires started { IsStarted task.now (changes_of states.now) builder.old }
    ensures { IfOk result (MadeFormula task.now (changes_of states.now) number id
        builder.old builder.new) }
{
    let subject = Prepared::Formula {
        id: id.0,
        state: number,
    };
    let known = builder.recall(&subject);
    let missing = Signs::yes().without(known.signs);
    if missing.is_none() {
        return Ok(known.pair);
    }
    match at(task.expanded.model.formulas.as_slice(), id.0 as usize) {
        Some(formula) => {
            let context = Context {
                alloc: task.alloc,
                expanded: task.expanded,
                target: task.target,
                index: task.index,
                ranks: task.ranks,
                states,
                state: number,
            };
            let pair = lower(builder, &context, formula, missing, MAX_DEPTH)?;
            let known = known.with(missing, pair);
            builder.remember(subject, known)?;
            Ok(known.pair)
        }
        None => unreachable!(),
    }
}
