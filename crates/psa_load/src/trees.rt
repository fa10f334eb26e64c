ghost use Rattle.std.specs.Prelude.{◌≡◌, ◌≤◌, All, Err, Ok, IfOk, None, OnOk, Some, length};
ghost use Rattle.psa_text.specs.declared.limits.TheConstants.{MAX_DEPTH, MAX_ELEMENTS};
ghost use Rattle.psa_text.specs.Tree.{depth};
ghost use Rattle.psa_text.specs.TreeSize.{elements_in};
ghost use Rattle.psa_model.specs.declared.fault.ModelFault.{ModelFault};
ghost use Rattle.psa_model.specs.Drafts.{IsDraft};
ghost use Rattle.psa_model.specs.Models.{IsModel, IsOfSize};
ghost use Rattle.psa_elements.specs.DraftReading.{draft_of};
ghost use Rattle.psa_elements.specs.ShapeFaults.{shape_fault};
ghost use Rattle.psa_names.specs.ModelOfDraft.{model_of};
ghost use Rattle.psa_names.specs.NameFaults.{name_fault};
ghost use Rattle.psa_model.specs.declared.limits.TheConstants.{MAX_FILES};
ghost use Rattle.psa_outcome.specs.Analyses.{analysis_of};
ghost use Rattle.psa_outcome.specs.Loading.{IsLoaded, loaded_analysis};
ghost use Rattle.psa_load.specs.declared.analysis.AnalysisError.TheVariants as error;
ghost use Rattle.psa_load.specs.Files.{roots_of};
ghost use Rattle.psa_load.specs.TreeErrors.{check_error, read_error};

use crate::analysis::{AnalysisError, analyse_model};
use psa_checks::{CheckError, resolve};
use psa_model::{Draft, Model, Settings};
use psa_outcome::Loaded;
use psa_reader::{ReadError, read_model};
use psa_text::{Document, Items};
use std::alloc::Global;

impl From<ReadError> for AnalysisError {
    ghost from_gives = { λ found e. e ≡ read_error found };

    fn from(error: ReadError) -> AnalysisError {
        match error {
            ReadError::Fault(fault) => AnalysisError::Fault(fault),
            ReadError::Memory => AnalysisError::Memory,
        }
    }
}

impl From<CheckError> for AnalysisError {
    ghost from_gives = { λ found e. e ≡ check_error found };

    fn from(error: CheckError) -> AnalysisError {
        match error {
            CheckError::Fault(fault) => AnalysisError::Fault(fault),
            CheckError::Memory => AnalysisError::Memory,
        }
    }
}

/// What a report needs of the trees of a model's files, which are dropped before targets are found; or
/// the first fault: of shape, else of names, else of the model.
pub fn analyse_documents(
    alloc: Global,
    settings: Settings,
    documents: Items<Document>,
) -> Result<Loaded, AnalysisError>
    requires few { length documents ≤ MAX_FILES }
    requires small { All (λ document. elements_in document.root ≤ MAX_ELEMENTS) documents }
    requires flat { All (λ document. depth document.root ≤ MAX_DEPTH) documents }
    ensures loaded { IfOk result IsLoaded }
    ensures settings { IfOk result (λ loaded. loaded.settings ≡ settings) }
    ensures analysed { IfOk result
        (λ loaded. analysis_of settings (roots_of documents) ≡ Ok (loaded_analysis loaded)) }
    ensures fault { (found : ModelFault) → result ≡ Err (error.Fault found)
        → analysis_of settings (roots_of documents) ≡ Err found }
{
    let draft = read_draft(alloc, documents)?;
    let model = resolve_draft(alloc, draft)?;
    analyse_model(alloc, settings, model)
}

/// The draft of trees, which are dropped.
fn read_draft(alloc: Global, documents: Items<Document>) -> Result<Draft, AnalysisError>
    requires few { length documents ≤ MAX_FILES }
    requires small { All (λ document. elements_in document.root ≤ MAX_ELEMENTS) documents }
    requires flat { All (λ document. depth document.root ≤ MAX_DEPTH) documents }
    ensures sound { OnOk result (shape_fault (roots_of documents) ≡ None) }
    ensures draft { IfOk result (λ draft. draft ≡ draft_of (roots_of documents)) }
    ensures promised { IfOk result IsDraft }
    ensures fault { (found : ModelFault) → result ≡ Err (error.Fault found)
        → shape_fault (roots_of documents) ≡ Some found }
{
    Ok(read_model(alloc, &documents)?)
}

/// The model of a draft, which is dropped.
fn resolve_draft(alloc: Global, draft: Draft) -> Result<Model, AnalysisError>
    requires { IsDraft draft }
    ensures sound { OnOk result (name_fault draft ≡ None) }
    ensures model { IfOk result (λ model. model ≡ model_of draft) }
    ensures promised { IfOk result IsModel }
    ensures size { IfOk result IsOfSize }
    ensures fault { (found : ModelFault) → result ≡ Err (error.Fault found)
        → name_fault draft ≡ Some found }
{
    Ok(resolve(alloc, &draft)?)
}
