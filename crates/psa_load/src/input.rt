ghost use Rattle.std.specs.Prelude.{◌≡◌, ◌+◌, ◌-◌, ◌*◌, ◌^◌, ◌≤◌, ◌∷◌, [], ℕ, suc, All, Err, IsTrue, IfOk, IsErrOf, List, Option, Some, length};
ghost use Rattle.psa_model.specs.declared.limits.TheConstants.{MAX_SAMPLE, MIN_SAMPLE};
ghost use Rattle.psa_text.specs.declared.limits.TheConstants.{MAX_DEPTH, MAX_ELEMENTS};
ghost use Rattle.psa_text.specs.Tree.{depth};
ghost use Rattle.psa_text.specs.TreeSize.{elements_in};
ghost use Rattle.psa_ports.specs.Counts.{Rose};
ghost use Rattle.psa_outcome.specs.declared.loaded.LoadError.TheVariants as error;
ghost use Rattle.psa_outcome.specs.Causes.{IsFiles, IsSample, names_of, opened_files, sample_name, told_of};
ghost use Rattle.psa_outcome.specs.Loading.{IsInput};
ghost use Rattle.psa_load.specs.declared.document.TheConstants.{MAX_READS};
ghost use Rattle.psa_load.specs.declared.document.DocumentError.TheVariants as document;
ghost use Rattle.psa_load.specs.Documents.{DocumentAnswers};
ghost use Rattle.psa_load.specs.Files.{FilesAnswer};
ghost use Rattle.psa_load.specs.Samples.{sample_files};

use crate::document::DocumentError;
use crate::documents::{file_error, read_documents};
use crate::sample::sample_text;
use psa_model::Input;
use psa_outcome::LoadError;
use psa_ports::Folder;
use psa_text::{Document, Items, OutOfMemory, Scanner};
use std::alloc::Global;

/// The trees of the files of an input, or of the sample, or the first fault of a text, or the number of
/// a file that could not be read.
pub(crate) fn input_documents<F: Folder>(
    alloc: Global,
    files: &mut F,
    input: &Input,
) -> Result<Items<Document>, LoadError>
    requires input { IsInput input.now }
    requires allowed { All (λ name. IsTrue (F.allows files.old name)) (opened_files input.now) }
    requires room { F.opens files.old ≤ 2 ^ 64 - 18 }

    ensures answer { FilesAnswer (names_of input.now) (told_of input.now (F.texts files.old))
        (F.rest files.new) result }
    ensures number { IfOk result (λ documents. length documents ≡ length (names_of input.now)) }
    ensures flat { IfOk result (All (λ document. depth document.root ≤ MAX_DEPTH)) }
    ensures small { IfOk result (All (λ document. elements_in document.root ≤ MAX_ELEMENTS)) }

    ensures files { (number : ℕ) → result ≡ Err (error.Read number) → IsFiles input.now }
    ensures cause { (number : ℕ) → result ≡ Err (error.Read number)
        → Rose (F.faults files.old) (F.faults files.new) }
    ensures place { (number : ℕ) → result ≡ Err (error.Read number)
        → F.opens files.old + suc number ≡ F.opens files.new }

    ensures later { F.faults files.old ≤ F.faults files.new }
    ensures opens { F.opens files.new ≤ F.opens files.old + length (opened_files input.now) }
    ensures reads { F.reads files.new
        ≤ F.reads files.old + MAX_READS * (F.opens files.new - F.opens files.old) }
    ensures unopened { IsSample input.now → files.new ≡ files.old }
{
    match input {
        Input::Files(names) => read_documents(alloc, files, names.as_slice()),
        Input::Sample(n) => sample_documents(alloc, *n),
    }
}

/// The tree of the sample model of a size, as the only one, or the first fault of its text.
fn sample_documents(alloc: Global, n: u32) -> Result<Items<Document>, LoadError>
    requires least { MIN_SAMPLE ≤ n }
    requires most { n ≤ MAX_SAMPLE }
    ensures answer { (rest : Option (List ℕ))
        → FilesAnswer (sample_name ∷ []) (Some (sample_files n)) rest result }
    ensures number { IfOk result (λ documents. length documents ≡ 1) }
    ensures flat { IfOk result (All (λ document. depth document.root ≤ MAX_DEPTH)) }
    ensures small { IfOk result (All (λ document. elements_in document.root ≤ MAX_ELEMENTS)) }
    ensures told { (number : ℕ) → result ≡ Err (error.Read number) → ⊥ }
{
    match sample_document(alloc, n) {
        Ok(document) => match alone(alloc, document) {
            Ok(documents) => Ok(documents),
            Err(_) => Err(LoadError::Memory),
        },
        Err(error) => Err(file_error(alloc, 0, error)),
    }
}

/// One document.
fn alone(alloc: Global, document: Document) -> Result<Items<Document>, OutOfMemory>
    ensures { IfOk result (λ documents. documents ≡ document ∷ []) }
{
    let mut documents = Items::new(alloc);
    documents.push(document)?;
    Ok(documents)
}

/// The tree of the sample model of a size, or the first fault of its text.
fn sample_document(alloc: Global, n: u32) -> Result<Document, DocumentError>
    requires least { MIN_SAMPLE ≤ n }
    requires most { n ≤ MAX_SAMPLE }
    ensures answer { (rest : Option (List ℕ))
        → DocumentAnswers (sample_files n) sample_name rest result }
    ensures flat { IfOk result (λ document. depth document.root ≤ MAX_DEPTH) }
    ensures small { IfOk result (λ document. elements_in document.root ≤ MAX_ELEMENTS) }
    ensures told { IsErrOf result document.Read → ⊥ }
{
    let text = sample_text(alloc, n)?;
    let mut scanner = Scanner::new(alloc);
    scanner.feed(text.as_bytes())?;
    Ok(scanner.finish()?)
}
