ghost use Rattle.std.specs.Prelude.{◌≡◌, ◌≤◌, IfOk, length};

use crate::outlines::{put_error, put_events, put_targets};
use crate::texts::text_of;
use psa_load::load;
use psa_model::{Algorithm, Input, Mode, Settings};
use psa_number::{Decimal, read_decimal};
use psa_outcome::{LoadError, Loaded};
use psa_ports::MemoryFolder;
use psa_text::{Items, OutOfMemory, Text};
use std::alloc::Global;

/// The decimal behind a word, up to a space, where the word is there.
fn decimal_behind(words: &str, word: &str) -> Option<Decimal> {
    let (_, rest) = words.split_once(word)?;
    let (number, _) = rest.split_once(' ').unwrap_or((rest, ""));
    read_decimal(number.as_bytes()).ok()
}

/// Settings for an input by words.
pub fn settings_for(input: Input, words: &str) -> Settings
    ensures { result.input ≡ input }
{
    Settings {
        algorithm: if words.contains("zbdd") {
            Algorithm::Zbdd
        } else {
            Algorithm::Bdd
        },
        mode: if words.contains("primes") {
            Mode::Primes
        } else {
            Mode::CutSets
        },
        limit_order: if words.contains("long") { 32 } else { 20 },
        cut_off: decimal_behind(words, "cut "),
        mission: decimal_behind(words, "time ").unwrap_or(Decimal::from_whole(8760)),
        rare_event: words.contains("rare"),
        mcub: words.contains("mcub"),
        ccf: words.contains("ccf"),
        validate: false,
        node_limit: None,
        input,
    }
}

/// Names of files.
fn named(alloc: Global, names: &[&str]) -> Result<Items<Text>, OutOfMemory>
    ensures { IfOk result (λ made. length made ≡ length names.now) }
{
    let mut made = Items::new(alloc);
    for name in names {
        made.push(Text::from_str(alloc, name)?)?;
    }
    Ok(made)
}

/// A folder of these files, which gives at most 7 bytes at once, in which these calls fail.
fn folder(
    alloc: Global,
    texts: &[(&str, &str)],
    failing: &[u64],
) -> Result<MemoryFolder, OutOfMemory>
    ensures { IfOk result (λ files. files.opens ≡ 0) }
{
    let mut files = Items::new(alloc);
    for (name, text) in texts {
        let bytes = Items::from_slice(alloc, text.as_bytes())?;
        files.push((Text::from_str(alloc, name)?, bytes))?;
    }
    Ok(MemoryFolder::new(files, 7, Items::from_slice(alloc, failing)?))
}

/// What is loaded by words of these files, where some calls of the folder fail.
pub fn load_files(
    alloc: Global,
    words: &str,
    names: &[&str],
    texts: &[(&str, &str)],
    failing: &[u64],
) -> Result<Loaded, LoadError>
    requires some { 1 ≤ length names.now }
    requires few { length names.now ≤ 16 }
{
    let Ok(names) = named(alloc, names) else {
        return Err(LoadError::Memory);
    };
    let settings = settings_for(Input::Files(names), words);
    match folder(alloc, texts, failing) {
        Ok(mut files) => load(alloc, &settings, &mut files),
        Err(_) => Err(LoadError::Memory),
    }
}

/// What is loaded by words of the definitions of a row.
pub fn load_row(alloc: Global, words: &str, row: &str) -> Result<Loaded, LoadError> {
    let text = text_of(alloc, row);
    load_files(alloc, words, &["m.xml"], &[("m.xml", text.as_str())], &[])
}

/// What is loaded of the sample of a size, with its values.
pub fn load_sample(alloc: Global, n: u32) -> Result<Loaded, LoadError>
    requires least { 2 ≤ n }
    requires most { n ≤ 1000 }
{
    let settings = settings_for(Input::Sample(n), "rare");
    match folder(alloc, &[], &[]) {
        Ok(mut files) => load(alloc, &settings, &mut files),
        Err(_) => Err(LoadError::Memory),
    }
}

/// The events of a row's definitions with their intervals, or their first fault.
pub fn events(alloc: Global, words: &str, row: &str) -> String {
    let mut out = String::new(alloc);
    match load_row(alloc, words, row) {
        Ok(loaded) => put_events(&mut out, &loaded),
        Err(error) => put_error(&mut out, &error),
    }
    out
}

/// The targets of a row's definitions, or their first fault.
pub fn targets(alloc: Global, row: &str) -> String {
    let mut out = String::new(alloc);
    match load_row(alloc, "", row) {
        Ok(loaded) => put_targets(&mut out, &loaded),
        Err(error) => put_error(&mut out, &error),
    }
    out
}
