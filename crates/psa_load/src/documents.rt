ghost use Rattle.std.specs.Prelude.{◌≡◌, ◌+◌, ◌-◌, ◌*◌, ◌^◌, ◌≤◌, ℕ, suc, All, Err, IsTrue, IfOk, length};
ghost use Rattle.psa_text.specs.declared.limits.TheConstants.{MAX_DEPTH, MAX_ELEMENTS};
ghost use Rattle.psa_model.specs.declared.limits.TheConstants.{MAX_FILES};
ghost use Rattle.psa_text.specs.Tree.{depth};
ghost use Rattle.psa_text.specs.TreeSize.{elements_in};
ghost use Rattle.psa_ports.specs.Counts.{Rose};
ghost use Rattle.psa_outcome.specs.declared.loaded.LoadError.TheVariants as error;
ghost use Rattle.psa_outcome.specs.Inputs.{text_fault_kind};
ghost use Rattle.psa_load.specs.declared.document.TheConstants.{MAX_READS};
ghost use Rattle.psa_load.specs.declared.document.DocumentError.TheVariants as document;
ghost use Rattle.psa_load.specs.Files.{FilesAnswer, IsErrorOf};

use crate::document::{DocumentError, read_document};
use psa_model::{FaultKind, ModelFault};
use psa_outcome::LoadError;
use psa_ports::Folder;
use psa_text::{Document, Items, Text, TextFault, TextKind};
use std::alloc::Global;

/// The trees of the files of these names, in their order, or the first fault of a text, with the place
/// of its file among the names, from 0; no file behind it is opened. `Read` is answered with the place
/// of a file that could not be opened or read, and only where the folder's count of faults rose in this
/// call. Each file is opened once, and read at most 67,108,865 times.
pub fn read_documents<F: Folder>(
    alloc: Global,
    files: &mut F,
    names: &[Text],
) -> Result<Items<Document>, LoadError>
    requires allowed { All (λ name. IsTrue (F.allows files.old name)) names.now }
    requires few { length names.now ≤ MAX_FILES }
    requires room { F.opens files.old ≤ 2 ^ 64 - 18 }

    ensures answer { FilesAnswer names.now (F.texts files.old) (F.rest files.new) result }
    ensures number { IfOk result (λ documents. length documents ≡ length names.now) }
    ensures flat { IfOk result (All (λ document. depth document.root ≤ MAX_DEPTH)) }
    ensures small { IfOk result (All (λ document. elements_in document.root ≤ MAX_ELEMENTS)) }

    ensures cause { (number : ℕ) → result ≡ Err (error.Read number)
        → Rose (F.faults files.old) (F.faults files.new) }
    ensures place { (number : ℕ) → result ≡ Err (error.Read number)
        → F.opens files.old + suc number ≡ F.opens files.new }

    ensures later { F.faults files.old ≤ F.faults files.new }
    ensures opens { F.opens files.new ≤ F.opens files.old + length names.now }
    ensures reads { F.reads files.new
        ≤ F.reads files.old + MAX_READS * (F.opens files.new - F.opens files.old) }
    ensures texts { F.texts files.new ≡ F.texts files.old }
{
    let mut documents = Items::new(alloc);
    for (number, name) in names.iter().enumerate() {
        match read_document(alloc, files, name.as_str()) {
            Ok(document) => {
                if documents.push(document).is_err() {
                    return Err(LoadError::Memory);
                }
            }
            Err(error) => return Err(file_error(alloc, number as u32, error)),
        }
    }
    Ok(documents)
}

/// The error of the file with this number.
pub(crate) fn file_error(alloc: Global, number: u32, error: DocumentError) -> LoadError
    ensures { IsErrorOf number error result }
{
    match error {
        DocumentError::Fault(fault) => file_fault(alloc, number, fault),
        DocumentError::Read => LoadError::Read(number),
        DocumentError::Memory => LoadError::Memory,
    }
}

/// The fault of the text of the file with this number.
fn file_fault(alloc: Global, file: u32, fault: TextFault) -> LoadError
    ensures { IsErrorOf file (document.Fault fault) result }
{
    match Text::from_str(alloc, "") {
        Ok(name) => LoadError::Bad(ModelFault {
            kind: fault_kind(fault.kind),
            file,
            line: fault.line,
            name,
        }),
        Err(_) => LoadError::Memory,
    }
}

/// The kind of a text's fault as one of a model's.
fn fault_kind(kind: TextKind) -> FaultKind
    ensures { result ≡ text_fault_kind kind }
{
    match kind {
        TextKind::LongFile => FaultKind::LongFile,
        TextKind::BadMarkup => FaultKind::BadMarkup,
        TextKind::LongToken => FaultKind::LongToken,
        TextKind::BadNesting => FaultKind::BadNesting,
    }
}
