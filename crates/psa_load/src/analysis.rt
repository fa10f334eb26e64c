ghost use Rattle.std.specs.Prelude.{◌≡◌, ◌<◌, ◌^◌, true, Err, Ok, IfOk, None, OnOk, Some, length, map};
ghost use Rattle.std.specs.List.{list_all};
ghost use Rattle.psa_model.specs.declared.fault.ModelFault.{ModelFault};
ghost use Rattle.psa_model.specs.Models.{IsModel, IsOfSize};
ghost use Rattle.psa_model.specs.Quantities.{has_quantities};
ghost use Rattle.psa_model.specs.RankFaults.{rank_fault};
ghost use Rattle.psa_model.specs.Ranks.{ranks_of};
ghost use Rattle.psa_model.specs.Standing.{target_stands};
ghost use Rattle.psa_model.specs.Truth.{IsResolved};
ghost use Rattle.psa_expr.specs.Events.{HaveValues};
ghost use Rattle.psa_outcome.specs.Analyses.{analysis_of_model, with_quantities};
ghost use Rattle.psa_outcome.specs.Loading.{IsLoaded};
ghost use Rattle.psa_load.specs.declared.analysis.AnalysisError.TheVariants as error;
ghost use Rattle.psa_load.specs.Errors.{rank_error, value_error, walk_error};

use psa_ccf::expand;
use psa_expr::{ValueError, evaluate};
use psa_model::{Expanded, Model, ModelFault, Ranks, Settings, Target, Values};
use psa_outcome::Loaded;
use psa_prep::{EventIndex, RankError, rank_by_index};
use psa_text::{Items, OutOfMemory};
use psa_walk::{WalkError, targets};
use std::alloc::Global;
use thiserror::Error;

/// Why a model has no analysis.
#[derive(Debug, Drop, Error)]
pub enum AnalysisError {
    /// Its first fault.
    #[error("the model has a fault")]
    Fault(ModelFault),
    /// Memory was wanting.
    #[error("out of memory")]
    Memory,
}

impl From<OutOfMemory> for AnalysisError {
    ghost from_gives = { λ _ e. e ≡ error.Memory };

    fn from(_error: OutOfMemory) -> AnalysisError {
        AnalysisError::Memory
    }
}

impl From<WalkError> for AnalysisError {
    ghost from_gives = { λ found e. e ≡ walk_error found };

    fn from(error: WalkError) -> AnalysisError {
        match error {
            WalkError::Fault(fault) => AnalysisError::Fault(fault),
            WalkError::Memory => AnalysisError::Memory,
        }
    }
}

impl From<RankError> for AnalysisError {
    ghost from_gives = { λ found e. e ≡ rank_error found };

    fn from(error: RankError) -> AnalysisError {
        match error {
            RankError::Fault(fault) => AnalysisError::Fault(fault),
            RankError::Memory => AnalysisError::Memory,
        }
    }
}

impl From<ValueError> for AnalysisError {
    ghost from_gives = { λ found e. e ≡ value_error found };

    fn from(error: ValueError) -> AnalysisError {
        match error {
            ValueError::Fault(fault) => AnalysisError::Fault(fault),
            ValueError::Memory => AnalysisError::Memory,
        }
    }
}

/// What a report needs of a model: its targets, its events, with common cause groups expanded where the
/// settings ask for that, the ranks of each target's events, and where quantities are asked for the
/// intervals of the events. Or the first fault: of the paths through event trees, else of a target with
/// too many events, else of a value.
pub fn analyse_model(
    alloc: Global,
    settings: Settings,
    model: Model,
) -> Result<Loaded, AnalysisError>
    requires promised { IsModel model }
    requires few { IsOfSize model }
    ensures loaded { IfOk result IsLoaded }
    ensures settings { IfOk result (λ loaded. loaded.settings ≡ settings) }
    ensures model { IfOk result (λ loaded. loaded.expanded.model ≡ model) }
    ensures fault { (found : ModelFault) → result ≡ Err (error.Fault found)
        → analysis_of_model settings model ≡ Err found }
{
    let targets = targets(alloc, &model)?;
    let expanded = expand(alloc, model, settings.ccf)?;
    let ranks = rank_targets(alloc, &expanded, targets.as_slice())?;
    let values = asked_values(alloc, &settings, &expanded)?;
    Ok(Loaded {
        settings,
        expanded,
        targets,
        ranks,
        values,
    })
}

/// The ranks of the events of each target, or the fault of the first target with too many.
fn rank_targets(
    alloc: Global,
    expanded: &Expanded,
    targets: &[Target],
) -> Result<Items<Ranks>, AnalysisError>
    requires resolved { IsResolved expanded.now.model }
    requires few { length expanded.now.events < 2 ^ 32 }
    requires stand { list_all (target_stands expanded.now.model) targets.now ≡ true }
    ensures ranks { IfOk result (λ ranks. ranks ≡ map (ranks_of expanded.now) targets.now) }
    ensures sound { OnOk result (rank_fault expanded.now targets.now ≡ None) }
    ensures fault { (found : ModelFault) → result ≡ Err (error.Fault found)
        → rank_fault expanded.now targets.now ≡ Some found }
{
    let index = EventIndex::of(alloc, expanded)?;
    let mut ranks = Items::new(alloc);
    for target in targets {
        ranks.push(rank_by_index(alloc, expanded, &index, target)?)?;
    }
    Ok(ranks)
}

/// The intervals of the events where the settings ask for quantities, or the first fault of a value.
fn asked_values(
    alloc: Global,
    settings: &Settings,
    expanded: &Expanded,
) -> Result<Option<Values>, AnalysisError>
    requires { HaveValues expanded.now.model }
    ensures values { IfOk result (λ values. with_quantities settings.now expanded.now
        ≡ Ok (record { settings = settings.now; expanded = expanded.now; values = values })) }
    ensures fault { (found : ModelFault) → result ≡ Err (error.Fault found)
        → with_quantities settings.now expanded.now ≡ Err found }
{
    if !asks_quantities(settings) {
        return Ok(None);
    }
    Ok(Some(evaluate(alloc, expanded, settings.mission)?))
}

/// Whether the settings ask for quantities: a cutoff or a total.
fn asks_quantities(settings: &Settings) -> bool
    ensures { result ≡ has_quantities settings.now }
{
    settings.cut_off.is_some() || settings.rare_event || settings.mcub
}
