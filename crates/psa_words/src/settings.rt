ghost use Rattle.std.specs.Prelude.{◌≡◌, ◌==◌, None, IfOk, map, codes, option_and_then, option_map, unwrap_or, length, Some, [], if◌then◌else◌};
ghost use Rattle.psa_model.specs.declared.settings.Algorithm.TheVariants.{Bdd, Zbdd};
ghost use Rattle.psa_model.specs.declared.settings.Mode.TheVariants.{CutSets, Primes};
ghost use Rattle.clap.specs.Words.{found_of, matched_of, raw_values};
ghost use Rattle.psa_words.specs.Answer.{Answers};
ghost use Rattle.psa_words.specs.Found.{given_in, all_names, is_given as is_given_in};
ghost use Rattle.psa_words.specs.Given.{has_conflict as conflict_of, input_of, settings_from};

use crate::WordsError;
use crate::values::{cut_off, limit_order, mission_time, node_limit, whole_between};
use clap::ArgMatches;
use clap::parser::ValueSource;
use psa_model::{Algorithm, Input, MAX_FILES, MAX_SAMPLE, MIN_SAMPLE, Mode, Settings};
use psa_text::{Items, OutOfMemory, Text};
use std::alloc::Global;

/// The settings that the matches of the words ask for. `BadWords` exactly where they exclude each other, or a value is
/// not its option's.
pub fn settings(alloc: Global, matches: &ArgMatches) -> Result<Settings, WordsError>
    ensures { Answers (settings_from (given_in (found_of matches.now))) result }
{
    if has_conflict(matches) {
        return Err(WordsError::BadWords);
    }
    let limit_order = limit_order(matches.get_str("limit-order"))?;
    let cut_off = cut_off(matches.get_str("cut-off"))?;
    let mission = mission_time(matches.get_str("mission-time"))?;
    let node_limit = node_limit(matches.get_str("node-limit"))?;
    let input = input(alloc, matches.get_str("sample"), matches.get_raw("file"))?;
    Ok(Settings {
        algorithm: algorithm(matches),
        mode: mode(matches),
        limit_order,
        cut_off,
        mission,
        rare_event: is_given(matches, "rare-event"),
        mcub: is_given(matches, "mcub"),
        ccf: is_given(matches, "ccf"),
        validate: is_given(matches, "validate"),
        node_limit,
        input,
    })
}

/// The algorithm: that of binary decision diagrams, where the other is not given.
fn algorithm(matches: &ArgMatches) -> Algorithm
    ensures { result ≡ (if is_given_in (found_of matches.now) (codes "zbdd") then Zbdd else Bdd) }
{
    if is_given(matches, "zbdd") {
        Algorithm::Zbdd
    } else {
        Algorithm::Bdd
    }
}

/// Which products are listed: minimal cut sets, where prime implicants are not asked for.
fn mode(matches: &ArgMatches) -> Mode
    ensures { result
        ≡ (if is_given_in (found_of matches.now) (codes "prime-implicants") then Primes
        else CutSets) }
{
    if is_given(matches, "prime-implicants") {
        Mode::Primes
    } else {
        Mode::CutSets
    }
}

/// Whether the words have this option.
fn is_given(matches: &ArgMatches, name: &str) -> bool
    ensures { result ≡ is_given_in (found_of matches.now) name.now }
{
    matches!(matches.value_source(name), Some(ValueSource::CommandLine))
}

/// Whether two options are given that exclude each other.
#[tactic(auto, unfolding(crate::specs::Found::given_in))]
fn has_conflict(matches: &ArgMatches) -> bool
    ensures { result ≡ conflict_of (given_in (found_of matches.now)) }
{
    let zbdd = is_given(matches, "zbdd");
    is_given(matches, "bdd") && zbdd
        || is_given(matches, "prime-implicants") && zbdd
        || is_given(matches, "rare-event") && is_given(matches, "mcub")
}

/// Where the model is read from: the sample, or files.
fn input(alloc: Global, sample: Option<&str>, names: Option<&[&str]>) -> Result<Input, WordsError>
    ensures { Answers
        (input_of (option_map (λ s. s.now) sample.entry)
        (all_names (option_map (λ ns. map (λ s. s.now) ns.now) names.entry)))
        result }
{
    match sample {
        None => files_input(alloc, names),
        Some(text) if has_no_name(names) => sample_input(text),
        Some(_) => Err(WordsError::BadWords),
    }
}

/// Whether there is no name.
fn has_no_name(names: Option<&[&str]>) -> bool
    ensures { result
        ≡ (length (all_names (option_map (λ ns. map (λ s. s.now) ns.now) names.entry)) == 0) }
{
    match names {
        Some(names) => names.is_empty(),
        None => true,
    }
}

/// The files of these names, at least one.
fn files_input(alloc: Global, names: Option<&[&str]>) -> Result<Input, WordsError>
    ensures { Answers
        (input_of None (all_names (option_map (λ ns. map (λ s. s.now) ns.now) names.entry)))
        result }
{
    match names {
        Some(names) if 1 <= names.len() && names.len() <= MAX_FILES => {
            Ok(Input::Files(copied(alloc, names)?))
        }
        _ => Err(WordsError::BadWords),
    }
}

/// The sample model of the size that the text spells.
fn sample_input(text: &str) -> Result<Input, WordsError>
    ensures { Answers (input_of (Some text.now) []) result }
{
    let size = whole_between(MIN_SAMPLE, MAX_SAMPLE, text).ok_or(WordsError::BadWords)?;
    Ok(Input::Sample(size as u32))
}

/// The names as texts of their own.
fn copied(alloc: Global, names: &[&str]) -> Result<Items<Text>, OutOfMemory>
    ensures { IfOk result (λ made. made ≡ map (λ s. s.now) names.now) }
{
    let mut made = Items::new(alloc);
    for name in names {
        made.push(Text::from_str(alloc, name)?)?;
    }
    Ok(made)
}
