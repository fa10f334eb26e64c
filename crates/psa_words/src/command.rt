ghost use Rattle.std.specs.Prelude.{◌≡◌, ◌≢◌, IfOk, IsErrOf, List, [], codes, map, false};
ghost use Rattle.std.specs.String.{string_bytes};
ghost use Rattle.clap.specs.Words.{app_of, fault_of, found_of, matches_of, rows_of, rule_of};
ghost use Rattle.psa_words.specs.Scram.{flag_rule, valued_rule, limit_rule, file_rule, blank_shape, scram};

use crate::WordsError;
use clap::error::ErrorKind;
use clap::{Arg, ArgAction, ArgMatches, Command};
use std::alloc::{AllocError, Global};

/// A flag `--name`.
fn flag<'a>(alloc: Global, name: &'a str) -> Arg<'a>
    ensures rule { rule_of result ≡ flag_rule name.entry.now }
    ensures local { result.global ≡ false }
{
    Arg::new(alloc, name).long(name).action(ArgAction::SetTrue)
}

/// An option `--name`, whose value is kept as text.
fn valued<'a>(alloc: Global, name: &'a str) -> Arg<'a>
    ensures rule { rule_of result ≡ valued_rule name.entry.now }
    ensures local { result.global ≡ false }
{
    Arg::new(alloc, name).long(name).action(ArgAction::Set)
}

/// The option `--limit-order`, or `-l`.
fn limit_order<'a>(alloc: Global) -> Arg<'a>
    ensures rule { rule_of result ≡ limit_rule }
    ensures local { result.global ≡ false }
{
    Arg::new(alloc, "limit-order")
        .long("limit-order")
        .short('l')
        .action(ArgAction::Set)
}

/// The files; each word is a use of its own, so that files and options mix.
fn file<'a>(alloc: Global) -> Arg<'a>
    ensures rule { rule_of result ≡ file_rule }
    ensures local { result.global ≡ false }
{
    Arg::new(alloc, "file").action(ArgAction::Append)
}

/// The command without its arguments.
fn blank<'a>(alloc: Global) -> Command<'a>
    ensures { app_of result ≡ record { top = blank_shape; subs = [] } }
{
    Command::new(alloc, "scram")
        .no_binary_name(true)
        .disable_help_flag(true)
        .disable_version_flag(true)
}

/// The command with all its arguments.
fn command<'a>(alloc: Global) -> Result<Command<'a>, AllocError>
    ensures { IfOk result (λ c. app_of c ≡ scram) }
{
    let command = blank(alloc);
    let command = command.arg(flag(alloc, "bdd"))?;
    let command = command.arg(flag(alloc, "zbdd"))?;
    let command = command.arg(flag(alloc, "prime-implicants"))?;
    let command = command.arg(flag(alloc, "rare-event"))?;
    let command = command.arg(flag(alloc, "mcub"))?;
    let command = command.arg(flag(alloc, "ccf"))?;
    let command = command.arg(flag(alloc, "validate"))?;
    let command = command.arg(limit_order(alloc))?;
    let command = command.arg(valued(alloc, "cut-off"))?;
    let command = command.arg(valued(alloc, "mission-time"))?;
    let command = command.arg(valued(alloc, "node-limit"))?;
    let command = command.arg(valued(alloc, "sample"))?;
    command.arg(file(alloc))
}

/// What the parser finds in the words. `BadWords` where it refuses them.
#[tactic(auto, using(crate::proofs::SimpleCommandLemmas::simple_free, crate::proofs::SimpleCommandLemmas::simple))]
pub fn parse<'a>(alloc: Global, words: &'a [String]) -> Result<ArgMatches<'a>, WordsError>
    ensures matches { IfOk result (λ m.
        rows_of (found_of m) ≡ matches_of scram (map string_bytes words.entry.now)) }
    ensures passes { IfOk result (λ m.
        fault_of scram (map string_bytes words.entry.now) ≡ []) }
    ensures refused { IsErrOf result WordsError.BadWords
        → fault_of scram (map string_bytes words.entry.now) ≢ [] }
{
    let command = command(alloc)?;
    match command.try_get_matches_from(words) {
        Ok(matches) => Ok(matches),
        Err(error) => match error.kind() {
            ErrorKind::OutOfMemory => Err(WordsError::Memory),
            _ => Err(WordsError::BadWords),
        },
    }
}
