ghost use Rattle.std.specs.Prelude.{◌≡◌, ◌++◌, ◌≤◌, ◌^◌, None, Some, length, IfOk, IfErr, OnOk};
ghost use Rattle.psa_model.specs.PathFaults.{walk_fault, walk_fault_at};
ghost use Rattle.psa_model.specs.PathTargets.{targets_of, sequence_targets, arrived_in};
ghost use Rattle.psa_model.specs.Paths.{paths_of};
ghost use Rattle.psa_walk.specs.declared.listing.WalkError.TheVariants as error;
ghost use Rattle.psa_walk.specs.Answers.{Tells, GoesOn, Fails};

use crate::branches::walk_branch;
use crate::gathered::Gathered;
use crate::groups::list_sequences;
use crate::tops::top_events;
use crate::travelled::Travelled;
use crate::walk::{Stop, Walk};
use psa_model::{
    FaultKind, Initiating, InitiatingId, MAX_DEPTH, MAX_INSTRUCTIONS, MAX_PATHS, Model, ModelFault,
    Targets,
};
use psa_text::{OutOfMemory, Text};
use sqlite_items::at;
use std::alloc::Global;
use thiserror::Error;

/// Why there are no targets.
#[derive(Debug, Drop, Error)]
pub enum WalkError {
    /// The first fault of the model's paths.
    #[error("fault of the paths")]
    Fault(ModelFault),
    /// Memory was wanted.
    #[error("out of memory")]
    Memory,
}

impl From<OutOfMemory> for WalkError {
    ghost from_gives = { λ _ e. e ≡ error.Memory };

    fn from(_error: OutOfMemory) -> WalkError {
        WalkError::Memory
    }
}

/// A fault of an initiating event's paths.
fn fault(alloc: Global, kind: FaultKind, initiating: &Initiating) -> WalkError
    ensures { Tells result (λ f. f ≡ walk_fault_at kind initiating.now) }
{
    match Text::from_str(alloc, initiating.name.as_str()) {
        Ok(name) => WalkError::Fault(ModelFault {
            kind,
            file: initiating.place.file,
            line: initiating.place.line,
            name,
        }),
        Err(_) => WalkError::Memory,
    }
}

/// Walks an initiating event where `left` paths may arrive, lists its sequences, and gives how many
/// then still may.
fn walk_event(
    alloc: Global,
    model: &Model,
    place: u32,
    initiating: &Initiating,
    left: u32,
    targets: &mut Targets,
) -> Result<u32, WalkError>
    ensures listed { OnOk result (targets.new
        ≡ targets.old
        ++ sequence_targets place (arrived_in (paths_of model.now place initiating.now))) }
    ensures goes_on { IfOk result
        (λ rest. GoesOn left rest initiating.now (paths_of model.now place initiating.now)) }
    ensures fails { IfErr result
        (λ e. Tells e (λ f. Fails left initiating.now (paths_of model.now place initiating.now) f)) }
{
    let Some(tree) = initiating.tree else {
        return Ok(left);
    };
    let Some(tree) = at(model.event_trees.as_slice(), tree.0 as usize) else {
        return Ok(left);
    };
    let walk = Walk {
        model,
        initiating: InitiatingId(place),
    };
    let mut travelled = Travelled::new(alloc);
    let mut gathered = Gathered::new(alloc, left);
    match walk_branch(
        &walk,
        &mut travelled,
        &mut gathered,
        &tree.start,
        MAX_INSTRUCTIONS,
        MAX_DEPTH,
    ) {
        Ok(()) => {}
        Err(Stop::LongPath) => return Err(fault(alloc, FaultKind::LongPath, initiating)),
        Err(Stop::TooManyPaths) => return Err(fault(alloc, FaultKind::TooManyPaths, initiating)),
        Err(Stop::Memory) => return Err(WalkError::Memory),
    }
    let rest = gathered.left();
    list_sequences(alloc, targets, InitiatingId(place), gathered.into_arrived())?;
    Ok(rest)
}

/// The targets of a model: its top events in document order, then for each initiating event its
/// sequences in the order of their first path, each with all its paths in order (event trees of the
/// Open-PSA Model Exchange Format 2.0d; an initiating event without an event tree has none).
///
/// A fault is answered exactly where a path would carry out more than `MAX_INSTRUCTIONS` instructions,
/// blocks, rules, conditionals and links counted each time, or more than `MAX_PATHS` paths would
/// arrive, over all initiating events: the first in the order of the walk, with the line and name of
/// the initiating event. Want of memory is answered as `Memory`.
///
/// Branches are walked at most `MAX_DEPTH` deep, and instructions in one another at most
/// `MAX_INSTRUCTIONS` deep: so deep do the calls nest, whatever the model is, beside formulas and tests,
/// which nest as deep as they are written.
pub fn targets(alloc: Global, model: &Model) -> Result<Targets, WalkError>
    requires gates { length model.now.gates ≤ 2 ^ 32 }
    requires initiatings { length model.now.initiatings ≤ 2 ^ 32 }
    ensures targets { IfOk result (λ targets. targets ≡ targets_of model.now) }
    ensures sound { OnOk result (walk_fault model.now ≡ None) }
    ensures fault { IfErr result (λ e. Tells e (λ f. walk_fault model.now ≡ Some f)) }
{
    let mut targets = top_events(alloc, model)?;
    let mut left = MAX_PATHS;
    for (place, initiating) in model.initiatings.as_slice().iter().enumerate() {
        left = walk_event(alloc, model, place as u32, initiating, left, &mut targets)?;
    }
    Ok(targets)
}
