ghost use Rattle.std.specs.Prelude.{◌≡◌, ◌<◌, ◌≤◌, ◌^◌, true, Some, length, IfOk, IfErr, ◌∷◌, []};
ghost use Rattle.std.specs.List.{list_all, flat_map};
ghost use Rattle.psa_model.specs.declared.formula.Formula.TheVariants as variant;
ghost use Rattle.psa_model.specs.declared.limits.TheConstants.{MAX_EVENTS as event_limit};
ghost use Rattle.psa_model.specs.Ranks.{visits, ranks_of, target_visits};
ghost use Rattle.psa_model.specs.RankFaults.{too_many_events};
ghost use Rattle.psa_model.specs.Standing.{target_stands, step_stands};
ghost use Rattle.psa_model.specs.Truth.{within, IsResolved};
ghost use Rattle.psa_prep.specs.declared.ranking.RankError.TheVariants as error;
ghost use Rattle.psa_prep.specs.declared.ranking.Stop.TheVariants as stop;
ghost use Rattle.psa_prep.specs.Index.{IsIndex};
ghost use Rattle.psa_prep.specs.Ranking.{Tells, fault_of, IsSound, Agrees, RankedOr, RanksListOr, RanksMoreOr, step_visits};

use crate::EventIndex;
use psa_model::{
    EventNumber, Expanded, FaultKind, Formula, FormulaId, GateId, MAX_DEPTH, MAX_EVENTS,
    ModelFault, Path, PathStep, Place, Ranks, Target,
};
use psa_text::{Items, OutOfMemory, Text};
use sqlite_items::at;
use std::alloc::{AllocFailed, Global};
use std::collections::HashSet;
use thiserror::Error;

/// Why there are no ranks.
#[derive(Debug, Drop, Error)]
pub enum RankError {
    /// The target has too many ranked events.
    #[error("too many events")]
    Fault(ModelFault),
    /// Memory was wanted.
    #[error("out of memory")]
    Memory,
}

impl From<OutOfMemory> for RankError {
    ghost from_gives = { λ _ e. e ≡ error.Memory };

    fn from(_error: OutOfMemory) -> RankError {
        RankError::Memory
    }
}

/// Why a walk stops.
#[derive(Clone, Copy, Debug, PartialEq, Eq, Error)]
pub enum Stop {
    /// An event too many would have a rank.
    #[error("too many events")]
    TooManyEvents,
    /// Memory was wanted.
    #[error("out of memory")]
    Memory,
}

impl From<OutOfMemory> for Stop {
    ghost from_gives = { λ _ e. e ≡ stop.Memory };

    fn from(_error: OutOfMemory) -> Stop {
        Stop::Memory
    }
}

impl<T: Drop> From<AllocFailed<T>> for Stop {
    ghost from_gives = { λ _ e. e ≡ stop.Memory };

    fn from(_error: AllocFailed<T>) -> Stop {
        Stop::Memory
    }
}

/// The ranks given so far.
#[derive(Drop)]
pub struct Ranking {
    /// The events by rank.
    pub ranks: Items<EventNumber>,
    /// The numbers of these events.
    pub seen: HashSet<u32>,
    /// The gates that were walked and left.
    pub entered: HashSet<u32>,
    /// The collected formulas that were walked and left.
    pub collected: HashSet<u32>,
}

/// What is walked: a model with the events of its basic events.
#[derive(Clone, Copy)]
pub struct Walk<'a> {
    pub expanded: &'a Expanded,
    pub index: &'a EventIndex,
}

/// The events of a target by rank: in the order of their first visit where its formulas are unfolded
/// from left to right, those of a sequence by its paths in order (this project's own).
/// Each gate and each collected formula is entered once; the walk recurses at most 501 levels deep.
///
/// A fault is answered exactly where the target has more than `MAX_EVENTS` events, with the place and
/// name of its gate or sequence. Want of memory is answered as `Memory`.
pub fn rank(alloc: Global, expanded: &Expanded, target: &Target) -> Result<Ranks, RankError>
    requires resolved { IsResolved expanded.now.model }
    requires events { length expanded.now.events < 2 ^ 32 }
    requires target { target_stands expanded.now.model target.now ≡ true }
    ensures ranks { IfOk result (λ ranks. ranks ≡ ranks_of expanded.now target.now) }
    ensures few { IfOk result (λ ranks. length ranks ≤ event_limit) }
    ensures fault { IfErr result (λ e. Tells e
        (λ f. too_many_events expanded.now target.now ≡ Some f)) }
{
    let index = EventIndex::of(alloc, expanded)?;
    rank_by_index(alloc, expanded, &index, target)
}

/// The ranks of a target by the index of its model.
pub fn rank_by_index(
    alloc: Global,
    expanded: &Expanded,
    index: &EventIndex,
    target: &Target,
) -> Result<Ranks, RankError>
    requires resolved { IsResolved expanded.now.model }
    requires index { IsIndex expanded.now index.now }
    requires target { target_stands expanded.now.model target.now ≡ true }
    ensures ranks { IfOk result (λ ranks. ranks ≡ ranks_of expanded.now target.now) }
    ensures few { IfOk result (λ ranks. length ranks ≤ event_limit) }
    ensures fault { IfErr result (λ e. Tells e
        (λ f. too_many_events expanded.now target.now ≡ Some f)) }
{
    let walk = Walk { expanded, index };
    let mut ranking = Ranking {
        ranks: Items::new(alloc),
        seen: HashSet::new(alloc),
        entered: HashSet::new(alloc),
        collected: HashSet::new(alloc),
    };
    match rank_target(&walk, &mut ranking, target) {
        Ok(()) => Ok(ranking.ranks),
        Err(Stop::TooManyEvents) => Err(fault(alloc, expanded, target)),
        Err(Stop::Memory) => Err(RankError::Memory),
    }
}

/// The fault of a target with too many events.
fn fault(alloc: Global, expanded: &Expanded, target: &Target) -> RankError
    requires target { target_stands expanded.now.model target.now ≡ true }
    requires many { event_limit < length (ranks_of expanded.now target.now) }
    ensures { Tells result (λ f. too_many_events expanded.now target.now ≡ Some f) }
{
    let (place, name) = match target {
        Target::TopEvent(gate) => match at(expanded.model.gates.as_slice(), gate.0 as usize) {
            Some(gate) => (gate.place, gate.name.as_str()),
            None => unreachable!(),
        },
        Target::Sequence { sequence, .. } => {
            match at(expanded.model.sequences.as_slice(), sequence.0 as usize) {
                Some(sequence) => (sequence.place, sequence.name.as_str()),
                None => unreachable!(),
            }
        }
    };
    fault_at(alloc, place, name)
}

/// The fault at a place, with a copy of the name.
fn fault_at(alloc: Global, place: Place, name: &str) -> RankError
    ensures { Tells result (λ f. f ≡ fault_of (place, name.now)) }
{
    match Text::from_str(alloc, name) {
        Ok(name) => RankError::Fault(ModelFault {
            kind: FaultKind::TooManyEvents,
            file: place.file,
            line: place.line,
            name,
        }),
        Err(_) => RankError::Memory,
    }
}

/// Walks a target.
fn rank_target(walk: &Walk, ranking: &mut Ranking, target: &Target) -> Result<(), Stop>
    requires resolved { IsResolved walk.now.expanded.now.model }
    requires index { IsIndex walk.now.expanded.now walk.now.index.now }
    requires target { target_stands walk.now.expanded.now.model target.now ≡ true }
    requires sound { IsSound walk.now.expanded.now ranking.old }
    ensures { RanksListOr walk.now.expanded.now
        (target_visits walk.now.expanded.now target.now)
        ranking.old ranking.new result }
{
    match target {
        Target::TopEvent(gate) => rank_gate(walk, ranking, *gate, MAX_DEPTH + 1),
        Target::Sequence { paths, .. } => rank_paths(walk, ranking, paths.as_slice()),
    }
}

/// Walks the formulas that paths collected, path by path.
fn rank_paths(walk: &Walk, ranking: &mut Ranking, paths: &[Path]) -> Result<(), Stop>
    requires resolved { IsResolved walk.now.expanded.now.model }
    requires index { IsIndex walk.now.expanded.now walk.now.index.now }
    requires sound { IsSound walk.now.expanded.now ranking.old }
    ensures { RanksListOr walk.now.expanded.now
        (flat_map (λ path. flat_map (step_visits walk.now.expanded.now) path) paths.now)
        ranking.old ranking.new result }
{
    for path in paths {
        rank_path(walk, ranking, path.as_slice())?;
    }
    Ok(())
}

/// Walks the formulas that a path collected, in their order.
fn rank_path(walk: &Walk, ranking: &mut Ranking, path: &[PathStep]) -> Result<(), Stop>
    requires resolved { IsResolved walk.now.expanded.now.model }
    requires index { IsIndex walk.now.expanded.now walk.now.index.now }
    requires sound { IsSound walk.now.expanded.now ranking.old }
    ensures { RanksListOr walk.now.expanded.now
        (flat_map (step_visits walk.now.expanded.now) path.now)
        ranking.old ranking.new result }
{
    for step in path {
        rank_step(walk, ranking, *step)?;
    }
    Ok(())
}

/// Walks the formula that a step collects.
fn rank_step(walk: &Walk, ranking: &mut Ranking, step: PathStep) -> Result<(), Stop>
    requires resolved { IsResolved walk.now.expanded.now.model }
    requires index { IsIndex walk.now.expanded.now walk.now.index.now }
    requires sound { IsSound walk.now.expanded.now ranking.old }
    ensures { RanksListOr walk.now.expanded.now
        (step_visits walk.now.expanded.now step)
        ranking.old ranking.new result }
{
    match step {
        PathStep::Collect(id) => rank_collected(walk, ranking, id),
        PathStep::Set(_, _) => Ok(()),
    }
}

/// Walks a collected formula where it was not walked before.
fn rank_collected(walk: &Walk, ranking: &mut Ranking, id: FormulaId) -> Result<(), Stop>
    requires resolved { IsResolved walk.now.expanded.now.model }
    requires index { IsIndex walk.now.expanded.now walk.now.index.now }
    requires sound { IsSound walk.now.expanded.now ranking.old }
    ensures { RanksListOr walk.now.expanded.now
        (step_visits walk.now.expanded.now (PathStep.Collect id))
        ranking.old ranking.new result }
{
    if ranking.collected.contains(&id.0) {
        return Ok(());
    }
    match at(walk.expanded.model.formulas.as_slice(), id.0 as usize) {
        Some(formula) => {
            rank_formula(walk, ranking, formula, MAX_DEPTH)?;
            ranking.collected.insert(id.0)?;
            Ok(())
        }
        None => Ok(()),
    }
}

/// Walks a formula of at most `depth` levels.
#[cycle(ranking)]
fn rank_formula(
    walk: &Walk,
    ranking: &mut Ranking,
    formula: &Formula,
    depth: u32,
) -> Result<(), Stop>
    requires within { within depth walk.now.expanded.now.model formula.now ≡ true }
    requires index { IsIndex walk.now.expanded.now walk.now.index.now }
    requires sound { IsSound walk.now.expanded.now ranking.old }
    ensures { RankedOr walk.now.expanded.now
        (λ n. within n walk.now.expanded.now.model formula.now)
        (λ n. visits n walk.now.expanded.now formula.now) ranking.old ranking.new result }
{
    match formula {
        Formula::Gate(id) => rank_gate(walk, ranking, *id, depth),
        Formula::Basic(id) => rank_events(ranking, walk.index.get(*id)),
        Formula::House(_) => Ok(()),
        Formula::Constant(_) => Ok(()),
        Formula::Connective { arguments, .. } => {
            rank_formulas(walk, ranking, arguments.as_slice(), depth - 1)
        }
    }
}

/// Walks a gate where it was not walked before.
#[cycle(ranking)]
fn rank_gate(walk: &Walk, ranking: &mut Ranking, id: GateId, depth: u32) -> Result<(), Stop>
    requires within { within depth walk.now.expanded.now.model (variant.Gate id) ≡ true }
    requires index { IsIndex walk.now.expanded.now walk.now.index.now }
    requires sound { IsSound walk.now.expanded.now ranking.old }
    ensures { RankedOr walk.now.expanded.now
        (λ n. within n walk.now.expanded.now.model (variant.Gate id))
        (λ n. visits n walk.now.expanded.now (variant.Gate id))
        ranking.old ranking.new result }
{
    if ranking.entered.contains(&id.0) {
        return Ok(());
    }
    match at(walk.expanded.model.gates.as_slice(), id.0 as usize) {
        Some(gate) => {
            rank_formula(walk, ranking, &gate.formula, depth - 1)?;
            ranking.entered.insert(id.0)?;
            Ok(())
        }
        None => Ok(()),
    }
}

/// Walks formulas of at most `depth` levels in their order.
#[cycle(ranking)]
fn rank_formulas(
    walk: &Walk,
    ranking: &mut Ranking,
    formulas: &[Formula],
    depth: u32,
) -> Result<(), Stop>
    requires within { list_all (λ g. within depth walk.now.expanded.now.model g) formulas.now
        ≡ true }
    requires index { IsIndex walk.now.expanded.now walk.now.index.now }
    requires sound { IsSound walk.now.expanded.now ranking.old }
    ensures { RankedOr walk.now.expanded.now
        (λ n. list_all (λ g. within n walk.now.expanded.now.model g) formulas.now)
        (λ n. flat_map (λ g. visits n walk.now.expanded.now g) formulas.now)
        ranking.old ranking.new result }
{
    for formula in formulas {
        rank_formula(walk, ranking, formula, depth)?;
    }
    Ok(())
}

/// Gives the next ranks to those of the events that have none.
fn rank_events(ranking: &mut Ranking, events: &[u32]) -> Result<(), Stop>
    requires { Agrees ranking.old }
    ensures { RanksMoreOr events.now ranking.old ranking.new result }
{
    for event in events {
        rank_event(ranking, *event)?;
    }
    Ok(())
}

/// Gives the next rank to the event where it has none.
fn rank_event(ranking: &mut Ranking, event: u32) -> Result<(), Stop>
    requires { Agrees ranking.old }
    ensures { RanksMoreOr (event ∷ []) ranking.old ranking.new result }
{
    if !ranking.seen.insert(event)? {
        return Ok(());
    }
    if ranking.ranks.len() >= MAX_EVENTS {
        return Err(Stop::TooManyEvents);
    }
    ranking.ranks.push(EventNumber(event))?;
    Ok(())
}
