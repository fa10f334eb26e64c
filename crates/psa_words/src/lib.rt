//! The words of a command line as settings: the options of SCRAM that this project keeps, read with `clap`.
//! What the words mean is defined in specs/: Reading, Options and Given.
#![tactic(auto)]

ghost use Rattle.std.specs.Prelude.{map};
ghost use Rattle.std.specs.String.{string_bytes};
ghost use Rattle.psa_words.specs.Answer.{Answers};
ghost use Rattle.psa_words.specs.Given.{settings_of};

mod command;
mod fault;
mod limits;
mod settings;
mod values;

pub use fault::WordsError;
pub use limits::{
    DEFAULT_LIMIT_ORDER, DEFAULT_MISSION_TIME, MAX_DIGITS, MAX_LIMIT_ORDER, MAX_NODE_LIMIT,
};
use psa_model::Settings;
use std::alloc::Global;

/// The settings that the words after a program's name ask for.
///
/// `BadWords` exactly where the words are refused: an unknown option, one given twice, a flag with a value, a missing
/// value or one that is not the option's, options that exclude each other, a sample beside a file, neither, or more
/// than `MAX_FILES` files.
pub fn read_words(alloc: Global, words: &Vec<String>) -> Result<Settings, WordsError>
    ensures { Answers (settings_of (map string_bytes words.now.items)) result }
{
    let matches = command::parse(alloc, words.as_slice())?;
    settings::settings(alloc, &matches)
}
