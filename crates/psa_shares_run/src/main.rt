//! `scram_shares [options] FILE...`: reads model files and prints, for each top event and each accident sequence, in
//! how many of the listed products each of its events stands, and their sum. docs/scram_shares.1 tells the options.
#![tactic(auto)]

use psa_engine::{WordsError, command_words, refuse};
use psa_ports::{BlockSink, StdFolder, StdSink};
use psa_shares::share_words;
use std::process::ExitCode;

/// The program's name.
const NAME: &str = "scram_shares";

/// The bytes that standard output is given at once.
const BLOCK: usize = 65_536;

fn main(rt: HostRuntime) -> ExitCode {
    let mut files = StdFolder::new(&rt);
    let mut err = StdSink::new(rt.stderr());
    let Ok(mut out) = BlockSink::new(rt.alloc(), StdSink::new(rt.stdout()), BLOCK) else {
        return ExitCode::from(refuse(&mut err, NAME, WordsError::Memory).exit());
    };
    let words = match command_words(&rt) {
        Ok(words) => words,
        Err(error) => return ExitCode::from(refuse(&mut err, NAME, error).exit()),
    };
    let status = share_words(rt.alloc(), &words, &mut files, &mut out, &mut err);
    ExitCode::from(status.exit())
}
