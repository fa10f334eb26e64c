//! `scram [options] FILE...`: reads model files and prints, for each top event and each accident sequence, its
//! minimal cut sets or prime implicants. docs/scram.1 tells the options.
#![tactic(auto)]

use psa_engine::{WordsError, analyse_words, command_words, refuse};
use psa_nodes::NodeTable;
use psa_ports::{BlockSink, StdFolder, StdSink};
use std::process::ExitCode;

/// The program's name.
const NAME: &str = "scram";

/// The bytes that standard output is given at once.
const BLOCK: usize = 65_536;

fn main(rt: HostRuntime) -> ExitCode {
    let mut files = StdFolder::new(&rt);
    let mut err = StdSink::new(rt.stderr());
    let Ok(mut out) = BlockSink::new(rt.alloc(), StdSink::new(rt.stdout()), BLOCK) else {
        return ExitCode::from(refuse(&mut err, NAME, WordsError::Memory).exit());
    };
    let mut table = NodeTable::new(rt.alloc());
    let words = match command_words(&rt) {
        Ok(words) => words,
        Err(error) => return ExitCode::from(refuse(&mut err, NAME, error).exit()),
    };
    let status = analyse_words(
        rt.alloc(),
        &words,
        &mut files,
        &mut out,
        &mut err,
        &mut table,
    );
    ExitCode::from(status.exit())
}
