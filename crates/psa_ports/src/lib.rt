// What a run takes from files and gives to writers, with counts of the faults on the way.
#![tactic(auto)]

mod block_sink;
mod folder;
mod memory_folder;
mod memory_sink;
mod real;
mod sink;

pub use block_sink::BlockSink;
pub use folder::Folder;
pub use memory_folder::MemoryFolder;
pub use memory_sink::MemorySink;
pub use real::{StdFolder, StdSink};
pub use sink::{Sink, put};

/// A fault of a file or of a writer; the count of the folder or sink that answers it has risen.
#[derive(Debug, Clone, Copy, PartialEq, Eq)]
pub struct Failed;
