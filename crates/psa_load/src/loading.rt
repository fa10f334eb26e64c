ghost use Rattle.std.specs.Prelude.{◌≡◌, ◌+◌, ◌-◌, ◌*◌, ◌^◌, ◌≤◌, All, Err, Ok, IsTrue, IfOk, length};
ghost use Rattle.psa_outcome.specs.Causes.{IsSample, opened_files, told_of};
ghost use Rattle.psa_outcome.specs.Loading.{IsInput, IsLoaded, LoadOutcome, loaded_analysis};
ghost use Rattle.psa_model.specs.declared.fault.ModelFault.{ModelFault};
ghost use Rattle.psa_model.specs.declared.limits.TheConstants.{MAX_FILES};
ghost use Rattle.psa_text.specs.declared.limits.TheConstants.{MAX_DEPTH, MAX_ELEMENTS};
ghost use Rattle.psa_text.specs.Tree.{depth};
ghost use Rattle.psa_text.specs.TreeSize.{elements_in};
ghost use Rattle.psa_outcome.specs.Analyses.{analysis_of};
ghost use Rattle.psa_load.specs.declared.document.TheConstants.{MAX_READS};
ghost use Rattle.psa_load.specs.declared.analysis.AnalysisError.TheVariants as error;
ghost use Rattle.psa_load.specs.Files.{roots_of};
ghost use Rattle.psa_load.specs.Loads.{load_error};

use crate::analysis::AnalysisError;
use crate::copies::copy_settings;
use crate::input::input_documents;
use crate::trees::analyse_documents;
use psa_model::Settings;
use psa_outcome::{LoadError, Loaded};
use psa_ports::Folder;
use psa_text::{Document, Items};
use std::alloc::Global;

impl From<AnalysisError> for LoadError {
    ghost from_gives = { λ found e. e ≡ load_error found };

    fn from(error: AnalysisError) -> LoadError {
        match error {
            AnalysisError::Fault(fault) => LoadError::Bad(fault),
            AnalysisError::Memory => LoadError::Memory,
        }
    }
}

/// What a report needs of the files or the sample that the settings name: the model with its events,
/// targets, ranks and, where quantities are asked for, intervals. Or its first fault: the text fault of
/// the first file that has one, else that of shape, of names, of the paths through event trees, of a
/// target with too many events, of a value. `Read` is answered with the number of a file that could not
/// be opened or read, from 0, and only where the folder's count of faults rose in this call. Each file
/// is opened once, and read at most 67,108,865 times.
pub fn load<F: Folder>(
    alloc: Global,
    settings: &Settings,
    files: &mut F,
) -> Result<Loaded, LoadError>
    requires input { IsInput settings.now.input }
    requires allowed { All (λ name. IsTrue (F.allows files.old name))
        (opened_files settings.now.input) }
    requires room { F.opens files.old ≤ 2 ^ 64 - 18 }

    ensures outcome { LoadOutcome settings.now
        (told_of settings.now.input (F.texts files.old)) (F.rest files.new)
        (F.opens files.new - F.opens files.old) (F.faults files.old, F.faults files.new) result }

    ensures later { F.faults files.old ≤ F.faults files.new }
    ensures opens { F.opens files.new
        ≤ F.opens files.old + length (opened_files settings.now.input) }
    ensures reads { F.reads files.new
        ≤ F.reads files.old + MAX_READS * (F.opens files.new - F.opens files.old) }
    ensures unopened { IsSample settings.now.input → files.new ≡ files.old }
{
    let documents = input_documents(alloc, files, &settings.input)?;
    Ok(analyse_input(alloc, settings, documents)?)
}

/// What a report needs of trees, by a copy of the settings.
fn analyse_input(
    alloc: Global,
    settings: &Settings,
    documents: Items<Document>,
) -> Result<Loaded, AnalysisError>
    requires few { length documents ≤ MAX_FILES }
    requires small { All (λ document. elements_in document.root ≤ MAX_ELEMENTS) documents }
    requires flat { All (λ document. depth document.root ≤ MAX_DEPTH) documents }
    ensures loaded { IfOk result IsLoaded }
    ensures settings { IfOk result (λ loaded. loaded.settings ≡ settings.now) }
    ensures analysed { IfOk result
        (λ loaded. analysis_of settings.now (roots_of documents) ≡ Ok (loaded_analysis loaded)) }
    ensures fault { (found : ModelFault) → result ≡ Err (error.Fault found)
        → analysis_of settings.now (roots_of documents) ≡ Err found }
{
    let settings = copy_settings(alloc, settings)?;
    analyse_documents(alloc, settings, documents)
}
