ghost use Rattle.std.specs.Prelude.{◌≡◌, ◌+◌, ◌≤◌, [], IsTrue, IfOk, MatchOption, ⊤};
ghost use Rattle.std.specs.Prelude.{IsErrOf};
ghost use Rattle.psa_text.specs.declared.limits.TheConstants.{MAX_DEPTH, MAX_ELEMENTS};
ghost use Rattle.psa_text.specs.Tree.{depth};
ghost use Rattle.psa_text.specs.TreeSize.{elements_in};
ghost use Rattle.psa_ports.specs.Counts.{Rose, one_more};
ghost use Rattle.psa_load.specs.declared.document.DocumentError.TheVariants as error;
ghost use Rattle.psa_load.specs.declared.document.TheConstants.{MAX_READS};
ghost use Rattle.psa_load.specs.Documents.{DocumentAnswers, Reads, text_error};

use psa_ports::{Failed, Folder};
use psa_text::{Document, OutOfMemory, Scanner, TextError, TextFault};
use std::alloc::Global;
use thiserror::Error;

/// The most reads of a file: each but the last gives a byte at least, and a byte more than a text may
/// have ends them.
pub const MAX_READS: u64 = 67_108_865;

/// The bytes that one read asks for.
const PIECE: usize = 16_384;

/// Why a file has no tree.
#[derive(Debug, Drop, Error)]
pub enum DocumentError {
    /// The first fault of its text.
    #[error("the text has a fault")]
    Fault(TextFault),
    /// It could not be opened, or a read failed.
    #[error("cannot read the file")]
    Read,
    /// Memory was wanting.
    #[error("out of memory")]
    Memory,
}

impl From<TextError> for DocumentError {
    ghost from_gives = { λ found e. e ≡ text_error found };

    fn from(error: TextError) -> DocumentError {
        match error {
            TextError::Fault(fault) => DocumentError::Fault(fault),
            TextError::Memory => DocumentError::Memory,
        }
    }
}

impl From<OutOfMemory> for DocumentError {
    ghost from_gives = { λ _ e. e ≡ error.Memory };

    fn from(_error: OutOfMemory) -> DocumentError {
        DocumentError::Memory
    }
}

impl From<Failed> for DocumentError {
    ghost from_gives = { λ _ e. e ≡ error.Read };

    fn from(_failed: Failed) -> DocumentError {
        DocumentError::Read
    }
}

/// The tree of the file `name`, which is opened once and read in pieces to its end, at most 67,108,865
/// times, or to the first fault of its text. `Read` is answered only where the folder's count of faults
/// rose in this call, and `Memory` only where memory is wanted.
pub fn read_document<F: Folder>(
    alloc: Global,
    files: &mut F,
    name: &str,
) -> Result<Document, DocumentError>
    requires { IsTrue (F.allows files.old name.now) }

    ensures answer { MatchOption (F.texts files.old) ⊤
        (λ told. DocumentAnswers told name.now (F.rest files.new) result) }
    ensures flat { IfOk result (λ document. depth document.root ≤ MAX_DEPTH) }
    ensures small { IfOk result (λ document. elements_in document.root ≤ MAX_ELEMENTS) }
    ensures cause { IsErrOf result error.Read → Rose (F.faults files.old) (F.faults files.new) }

    ensures later { F.faults files.old ≤ F.faults files.new }
    ensures opens { F.opens files.new ≡ one_more (F.opens files.old) }
    ensures reads { F.reads files.new ≤ F.reads files.old + MAX_READS }
    ensures texts { F.texts files.new ≡ F.texts files.old }
    ensures allows { F.allows files.new ≡ F.allows files.old }
{
    files.open(name)?;
    read_opened(alloc, files, name)
}

/// The tree of the file that was just opened.
fn read_opened<F: Folder>(
    alloc: Global,
    files: &mut F,
    name: &str,
) -> Result<Document, DocumentError>
    requires { Reads (F.texts files.old) name.now [] (F.rest files.old) }

    ensures answer { MatchOption (F.texts files.old) ⊤
        (λ told. DocumentAnswers told name.now (F.rest files.new) result) }
    ensures flat { IfOk result (λ document. depth document.root ≤ MAX_DEPTH) }
    ensures small { IfOk result (λ document. elements_in document.root ≤ MAX_ELEMENTS) }
    ensures cause { IsErrOf result error.Read → Rose (F.faults files.old) (F.faults files.new) }

    ensures later { F.faults files.old ≤ F.faults files.new }
    ensures opens { F.opens files.new ≡ F.opens files.old }
    ensures reads { F.reads files.new ≤ F.reads files.old + MAX_READS }
    ensures texts { F.texts files.new ≡ F.texts files.old }
    ensures allows { F.allows files.new ≡ F.allows files.old }
{
    let mut scanner = Scanner::new(alloc);
    let mut piece = [0u8; PIECE];
    for _turn in 0..MAX_READS {
        let count = files.read(&mut piece)?;
        if count == 0 {
            return Ok(scanner.finish()?);
        }
        scanner.feed(piece.split_at(count).0)?;
    }
    unreachable!()
}
