ghost use Rattle.std.specs.Prelude.{◌≡◌, ◌≤◌, ◌<◌, ◌+◌, ◌-◌, ◌*◌, ◌^◌, ℕ, List, [], None, true, false, All, IsTrue, IfSome, length, map, codes};
ghost use Rattle.std.specs.String.{string_bytes};
ghost use Rattle.psa_engine.specs.Ends.{line_of, passes_on, status_of};
ghost use Rattle.psa_load.specs.declared.document.TheConstants.{MAX_READS};
ghost use Rattle.psa_model.specs.declared.limits.TheConstants.{MAX_FILES};
ghost use Rattle.psa_outcome.specs.Causes.{IsSample, opened_files};
ghost use Rattle.psa_outcome.specs.Loading.{IsInput, IsLoaded, loaded_analysis};
ghost use Rattle.psa_outcome.specs.RunOutcome.{Completeness, GrewBy, IsRefusal, TextOutcome, writes_nothing};
ghost use Rattle.psa_outcome.specs.Runs.{run_of};
ghost use Rattle.psa_words.specs.Answer.{Answers};
ghost use Rattle.psa_shares.specs.ShareText.{IsSharesText, is_refused as is_refused_by, refused_shares_text, shares_settings_of};
ghost use Rattle.psa_engine.specs.TextEnds.{EndsRun};

use crate::text::{end_of, write_text};
use psa_engine::{End, WordsError, load, pass_on, read_words, refuse, refuse_model, tell};
use psa_model::{MAX_ORDER, Settings};
use psa_outcome::{LoadError, Loaded, Status};
use psa_ports::{Folder, Sink};
use psa_prep::EventIndex;
use std::alloc::Global;

/// Reads the files that the words name, or the sample model that they ask for, and writes to `out` which events carry
/// the rare-event sum: for each top event and each accident sequence, for each of its events that stands in some kept
/// product, the number of these products and the sum of their bounds. `words` are those behind the program's name;
/// `--rare-event` is taken as given. How the run ended is told on `err`. The run makes a node table of its own.
///
/// BadWords: the words are refused, or ask for `--mcub`, `--validate` or `--node-limit`; nothing is opened. BadModel:
/// the model's first fault; nothing is written to `out`. ReadFault: only where the folder's count of faults rose;
/// nothing is written to `out`. WriteFault: only where the count of `out` rose; a prefix of the text was written.
/// OutOfMemory: for want of memory; nothing was written, or the head and the sections before some target. That `err`
/// fails changes nothing.
pub fn share_words<F: Folder, O: Sink, E: Sink>(
    alloc: Global,
    words: &Vec<String>,
    files: &mut F,
    out: &mut O,
    err: &mut E,
) -> Status
    requires allowed { IfSome (shares_settings_of (map string_bytes words.now.items)) (λ settings.
        All (λ name. IsTrue (F.allows files.old name)) (opened_files settings.input)) }
    requires room { F.opens files.old ≤ 2 ^ 63 }

    // Where the words are refused.
    ensures refused_words { shares_settings_of (map string_bytes words.now.items) ≡ None
        → (text : List ℕ) × IsRefusal refused_shares_text result text
        × GrewBy text (E.faults err.old, E.faults err.new) (E.written err.old) (E.written err.new) }
    ensures untouched { shares_settings_of (map string_bytes words.now.items) ≡ None
        → (files.new ≡ files.old) × (out.new ≡ out.old) }

    // Where they are not: when each status comes, what it leaves, and its line on `err`.
    ensures outcome { IfSome (shares_settings_of (map string_bytes words.now.items)) (λ settings.
        (line : List ℕ) × TextOutcome IsSharesText settings (run_of settings (F.texts files.old)
        (F.rest files.new) (F.opens files.new - F.opens files.old) (F.faults files.old, F.faults files.new)
        (O.faults out.old, O.faults out.new) (O.written out.old) (O.written out.new)) line result
        × GrewBy line (E.faults err.old, E.faults err.new) (E.written err.old) (E.written err.new)) }
    ensures completeness { IfSome (shares_settings_of (map string_bytes words.now.items)) (λ settings.
        Completeness settings (run_of settings (F.texts files.old) (F.rest files.new)
        (F.opens files.new - F.opens files.old) (F.faults files.old, F.faults files.new)
        (O.faults out.old, O.faults out.new) (O.written out.old) (O.written out.new)) result) }

    // What a run leaves alone.
    ensures unopened { IfSome (shares_settings_of (map string_bytes words.now.items)) (λ settings.
        IsSample settings.input → files.new ≡ files.old) }
    ensures unwritten { writes_nothing result ≡ true → out.new ≡ out.old }

    // Nothing of what was written waits in the sink where the text stands.
    ensures passed { passes_on result ≡ true → O.waiting out.new ≡ [] }

    // How often files are opened and read, and that no count of faults falls.
    ensures opens { F.opens files.new ≤ F.opens files.old + MAX_FILES }
    ensures reads { F.reads files.new
        ≤ F.reads files.old + MAX_READS * (F.opens files.new - F.opens files.old) }
    ensures later { (F.faults files.old ≤ F.faults files.new) × (O.faults out.old ≤ O.faults out.new) }
{
    match share_settings(alloc, words) {
        Ok(settings) => {
            let end = run(alloc, &settings, files, out);
            tell(err, &settings, &end);
            end.status()
        }
        Err(error) => refuse(err, "scram_shares", error),
    }
}

/// Whether settings ask for what this program refuses.
fn is_refused(settings: &Settings) -> bool
    ensures { result ≡ is_refused_by settings.now }
{
    settings.mcub || settings.validate || settings.node_limit.is_some()
}

/// The settings that the words ask for, with the rare-event sum.
fn share_settings(alloc: Global, words: &Vec<String>) -> Result<Settings, WordsError>
    ensures { Answers (shares_settings_of (map string_bytes words.now.items)) result }
{
    let mut settings = read_words(alloc, words)?;
    if is_refused(&settings) {
        return Err(WordsError::BadWords);
    }
    settings.rare_event = true;
    Ok(settings)
}

/// The run by some settings.
fn run<F: Folder, O: Sink>(alloc: Global, settings: &Settings, files: &mut F, out: &mut O) -> End
    requires input { IsInput settings.now.input }
    requires order { settings.now.limit_order ≤ MAX_ORDER }
    requires shown { settings.now.validate ≡ false }
    requires allowed { All (λ name. IsTrue (F.allows files.old name)) (opened_files settings.now.input) }
    requires room { F.opens files.old ≤ 2 ^ 63 }

    ensures outcome { TextOutcome IsSharesText settings.now (run_of settings.now (F.texts files.old)
        (F.rest files.new) (F.opens files.new - F.opens files.old) (F.faults files.old, F.faults files.new)
        (O.faults out.old, O.faults out.new) (O.written out.old) (O.written out.new))
        (line_of settings.now result) (status_of result) }
    ensures completeness { Completeness settings.now (run_of settings.now (F.texts files.old) (F.rest files.new)
        (F.opens files.new - F.opens files.old) (F.faults files.old, F.faults files.new)
        (O.faults out.old, O.faults out.new) (O.written out.old) (O.written out.new))
        (status_of result) }
    ensures unopened { IsSample settings.now.input → files.new ≡ files.old }
    ensures unwritten { writes_nothing (status_of result) ≡ true → out.new ≡ out.old }
    ensures passed { passes_on (status_of result) ≡ true → O.waiting out.new ≡ [] }
    ensures opens { F.opens files.new ≤ F.opens files.old + length (opened_files settings.now.input) }
    ensures reads { F.reads files.new
        ≤ F.reads files.old + MAX_READS * (F.opens files.new - F.opens files.old) }
    ensures later { (F.faults files.old ≤ F.faults files.new) × (O.faults out.old ≤ O.faults out.new) }
{
    match load(alloc, settings, files) {
        Ok(loaded) => run_loaded(alloc, &loaded, out),
        Err(LoadError::Bad(fault)) => refuse_model(alloc, settings, fault),
        Err(LoadError::Read(number)) => End::Read(number),
        Err(LoadError::Memory) => End::Memory,
    }
}

/// The run over what was loaded.
fn run_loaded<O: Sink>(alloc: Global, loaded: &Loaded, out: &mut O) -> End
    requires loaded { IsLoaded loaded.now }
    requires order { loaded.now.settings.limit_order ≤ MAX_ORDER }

    ensures ends { EndsRun IsSharesText (loaded_analysis loaded.now) (O.faults out.old, O.faults out.new)
        (O.written out.old) (O.written out.new) result }
    ensures passed { passes_on (status_of result) ≡ true → O.waiting out.new ≡ [] }
    ensures later { O.faults out.old ≤ O.faults out.new }
{
    let Ok(index) = EventIndex::of(alloc, &loaded.expanded) else {
        return End::Memory;
    };
    let end = end_of(write_text(alloc, loaded, &index, out));
    pass_on(out, end)
}
