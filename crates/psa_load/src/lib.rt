//! From the settings of a run and its files to what a report needs, or to the first fault.
#![tactic(auto)]

mod analysis;
mod copies;
mod document;
mod documents;
mod input;
mod loading;
mod sample;
mod trees;

pub use analysis::{AnalysisError, analyse_model};
pub use document::{DocumentError, MAX_READS, read_document};
pub use documents::read_documents;
pub use loading::load;
pub use sample::sample_text;
pub use trees::analyse_documents;
