ghost use Rattle.std.specs.Prelude.{◌≡◌, ◌≤◌, ◌+◌, ◌-◌, ◌*◌, ◌^◌, ℕ, List, [], None, true, false, All, IsTrue, IfSome, length, map};
ghost use Rattle.std.specs.String.{string_bytes};
ghost use Rattle.psa_engine.specs.Ends.{EndsLoaded, IsRefusedModel, PassesOn, line_of, passes_on, status_of};
ghost use Rattle.psa_load.specs.declared.document.TheConstants.{MAX_READS};
ghost use Rattle.psa_model.specs.declared.limits.TheConstants.{MAX_FILES};
ghost use Rattle.psa_model.specs.declared.settings.Settings.{Settings as SettingsValue};
ghost use Rattle.psa_outcome.specs.Causes.{IsSample, opened_files};
ghost use Rattle.psa_outcome.specs.Loading.{IsInput, IsLoaded, loaded_analysis};
ghost use Rattle.psa_outcome.specs.RunOutcome.{Completeness, GrewBy, IsRefusal, RunOutcome, writes_nothing};
ghost use Rattle.psa_outcome.specs.Runs.{run_of};
ghost use Rattle.psa_words.specs.Given.{settings_of};
ghost use Rattle.psa_words.specs.Refused.{refused_words_text};

use crate::end::End;
use crate::telling::{file_name, refuse, tell};
use psa_load::load;
use psa_model::{MAX_ORDER, ModelFault, Settings};
use psa_nodes::NodeTable;
use psa_outcome::{LoadError, Loaded, Status};
use psa_ports::{Folder, Sink};
use psa_prep::EventIndex;
use psa_sections::{ReportError, write_report};
use psa_text::{OutOfMemory, Text};
use psa_words::read_words;
use std::alloc::Global;

/// Reads the files that the words name, or the sample model that they ask for, and writes the report on their model
/// to `out`: for each top event and each accident sequence exactly its minimal cut sets or prime implicants within the
/// order limit and the cutoff, each once, in order, with the intervals and the total that are asked for. `words` are
/// those behind the program's name; `table` is made new and holds the nodes of the run afterwards. How the run ended
/// is told on `err`.
///
/// BadWords: the words are refused; nothing is opened. BadModel: the model's first fault; nothing is written to `out`.
/// ReadFault: only where the folder's count of faults rose; nothing is written to `out`. WriteFault: only where the
/// count of `out` rose; a prefix of the report was written. NodeLimit: a diagram node was wanted, and as many stand as
/// `--node-limit` allows; the head and the sections before that target were written. OutOfMemory: for want of memory;
/// nothing was written, or the head and the sections before some target. That `err` fails changes nothing.
pub fn analyse_words<F: Folder, O: Sink, E: Sink>(
    alloc: Global,
    words: &Vec<String>,
    files: &mut F,
    out: &mut O,
    err: &mut E,
    table: &mut NodeTable,
) -> Status
    requires allowed { IfSome (settings_of (map string_bytes words.now.items)) (λ settings.
        All (λ name. IsTrue (F.allows files.old name)) (opened_files settings.input)) }
    requires room { F.opens files.old ≤ 2 ^ 63 }

    // Where the words are refused.
    ensures refused_words { settings_of (map string_bytes words.now.items) ≡ None
        → (text : List ℕ) × IsRefusal refused_words_text result text
        × GrewBy text (E.faults err.old, E.faults err.new) (E.written err.old) (E.written err.new) }
    ensures untouched { settings_of (map string_bytes words.now.items) ≡ None
        → (files.new ≡ files.old) × (out.new ≡ out.old) × (table.new ≡ table.old) }

    // Where they are not: when each status comes, what it leaves, and its line on `err`.
    ensures outcome { IfSome (settings_of (map string_bytes words.now.items)) (λ settings.
        (line : List ℕ) × RunOutcome settings (run_of settings (F.texts files.old) (F.rest files.new)
        (F.opens files.new - F.opens files.old) (F.faults files.old, F.faults files.new)
        (O.faults out.old, O.faults out.new) (O.written out.old) (O.written out.new)) table.new line result
        × GrewBy line (E.faults err.old, E.faults err.new) (E.written err.old) (E.written err.new)) }
    ensures completeness { IfSome (settings_of (map string_bytes words.now.items)) (λ settings.
        Completeness settings (run_of settings (F.texts files.old) (F.rest files.new)
        (F.opens files.new - F.opens files.old) (F.faults files.old, F.faults files.new)
        (O.faults out.old, O.faults out.new) (O.written out.old) (O.written out.new)) result) }

    // What a run leaves alone.
    ensures unopened { IfSome (settings_of (map string_bytes words.now.items)) (λ settings.
        IsSample settings.input → files.new ≡ files.old) }
    ensures quiet { IfSome (settings_of (map string_bytes words.now.items)) (λ settings.
        settings.validate ≡ true → (out.new ≡ out.old) × (table.new ≡ table.old)) }
    ensures unwritten { writes_nothing result ≡ true
        → (out.new ≡ out.old) × (table.new ≡ table.old) }

    // Nothing of what was written waits in the sink where the report, or the sections before a refused node, stands.
    ensures passed { IfSome (settings_of (map string_bytes words.now.items)) (λ settings.
        settings.validate ≡ false → passes_on result ≡ true → O.waiting out.new ≡ []) }

    // How often files are opened and read, and that no count of faults falls.
    ensures opens { F.opens files.new ≤ F.opens files.old + MAX_FILES }
    ensures reads { F.reads files.new
        ≤ F.reads files.old + MAX_READS * (F.opens files.new - F.opens files.old) }
    ensures later { (F.faults files.old ≤ F.faults files.new) × (O.faults out.old ≤ O.faults out.new) }
{
    match read_words(alloc, words) {
        Ok(settings) => {
            let end = run(alloc, &settings, files, out, table);
            tell(err, &settings, &end);
            end.status()
        }
        Err(error) => refuse(err, "scram", error),
    }
}

/// The run by some settings.
fn run<F: Folder, O: Sink>(
    alloc: Global,
    settings: &Settings,
    files: &mut F,
    out: &mut O,
    table: &mut NodeTable,
) -> End
    requires input { IsInput settings.now.input }
    requires order { settings.now.limit_order ≤ MAX_ORDER }
    requires allowed { All (λ name. IsTrue (F.allows files.old name)) (opened_files settings.now.input) }
    requires room { F.opens files.old ≤ 2 ^ 63 }

    ensures outcome { RunOutcome settings.now (run_of settings.now (F.texts files.old) (F.rest files.new)
        (F.opens files.new - F.opens files.old) (F.faults files.old, F.faults files.new)
        (O.faults out.old, O.faults out.new) (O.written out.old) (O.written out.new)) table.new
        (line_of settings.now result) (status_of result) }
    ensures completeness { Completeness settings.now (run_of settings.now (F.texts files.old) (F.rest files.new)
        (F.opens files.new - F.opens files.old) (F.faults files.old, F.faults files.new)
        (O.faults out.old, O.faults out.new) (O.written out.old) (O.written out.new))
        (status_of result) }
    ensures unopened { IsSample settings.now.input → files.new ≡ files.old }
    ensures quiet { settings.now.validate ≡ true → (out.new ≡ out.old) × (table.new ≡ table.old) }
    ensures unwritten { writes_nothing (status_of result) ≡ true
        → (out.new ≡ out.old) × (table.new ≡ table.old) }
    ensures passed { settings.now.validate ≡ false → passes_on (status_of result) ≡ true
        → O.waiting out.new ≡ [] }
    ensures opens { F.opens files.new ≤ F.opens files.old + length (opened_files settings.now.input) }
    ensures reads { F.reads files.new
        ≤ F.reads files.old + MAX_READS * (F.opens files.new - F.opens files.old) }
    ensures later { (F.faults files.old ≤ F.faults files.new) × (O.faults out.old ≤ O.faults out.new) }
{
    match load(alloc, settings, files) {
        Ok(loaded) => {
            let end = run_loaded(alloc, &loaded, out, table);
            table.check();
            end
        }
        Err(LoadError::Bad(fault)) => refuse_model(alloc, settings, fault),
        Err(LoadError::Read(number)) => End::Read(number),
        Err(LoadError::Memory) => End::Memory,
    }
}

/// The end where the model has a fault.
pub fn refuse_model(alloc: Global, settings: &Settings, fault: ModelFault) -> End
    ensures { IsRefusedModel settings.now fault result }
{
    match Text::from_str(alloc, file_name(&settings.input, fault.file)) {
        Ok(file) => End::Bad(fault, file),
        Err(OutOfMemory) => End::Memory,
    }
}

/// The run over what was loaded.
fn run_loaded<O: Sink>(alloc: Global, loaded: &Loaded, out: &mut O, table: &mut NodeTable) -> End
    requires loaded { IsLoaded loaded.now }
    requires order { loaded.now.settings.limit_order ≤ MAX_ORDER }

    ensures ends { EndsLoaded (loaded_analysis loaded.now) table.new (O.faults out.old, O.faults out.new)
        (O.written out.old) (O.written out.new) result }
    ensures quiet { loaded.now.settings.validate ≡ true
        → (out.new ≡ out.old) × (table.new ≡ table.old) }
    ensures passed { loaded.now.settings.validate ≡ false → passes_on (status_of result) ≡ true
        → O.waiting out.new ≡ [] }
    ensures later { O.faults out.old ≤ O.faults out.new }
{
    if loaded.settings.validate {
        return End::Done;
    }
    let Ok(index) = EventIndex::of(alloc, &loaded.expanded) else {
        return End::Memory;
    };
    table.restart(loaded.settings.node_limit);
    let end = match write_report(alloc, loaded, &index, out, table) {
        Ok(()) => End::Done,
        Err(ReportError::Write) => End::Write,
        Err(ReportError::Full(number)) => End::Full(number),
        Err(ReportError::Memory) => End::Memory,
    };
    pass_on(out, end)
}

/// Passes on what a sink has kept back when a run ends; the end where it fails is that of a failed write.
pub fn pass_on<O: Sink>(out: &mut O, end: End) -> End
    ensures end { PassesOn (O.faults out.old, O.faults out.new) (O.written out.old) (O.written out.new)
        end result }
    ensures passed { passes_on (status_of result) ≡ true → O.waiting out.new ≡ [] }
{
    match out.flush() {
        Ok(()) => end,
        Err(_) => End::Write,
    }
}
