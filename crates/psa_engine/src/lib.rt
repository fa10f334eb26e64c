//! The run of the program: from the words of a command line and the files that they name to a report.
#![tactic(auto)]

mod command;
mod end;
mod limits;
mod run;
mod telling;

pub use command::command_words;
pub use end::End;
pub use limits::limits_are_as_stated;
pub use psa_load::{load, sample_text};
pub use psa_outcome::{LoadError, Loaded, Status};
pub use psa_words::{WordsError, read_words};
pub use run::{analyse_words, pass_on, refuse_model};
pub use telling::{refuse, tell};
