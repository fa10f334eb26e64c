use crate::lines::put;
use crate::runs::{Devices, found};
use crate::texts::put_text;
use std::alloc::Global;

/// Appends what a run leaves, where it is not what is wanted.
pub fn put_if_wrong(wrong: &mut String, wanted: &str, found: &str) {
    if found != wanted {
        put(wrong, found);
        put(wrong, "\nbut wanted: ");
        put(wrong, wanted);
    }
}

/// Appends what a run over these files leaves, where it is not what stands behind its words.
fn put_wrong_run(wrong: &mut String, alloc: Global, files: &str, run: &str, devices: &Devices) {
    let (words, _) = run.split_once(" => ").unwrap_or((run, ""));
    let found = found(alloc, words, files, devices);
    let mut wanted = String::new(alloc);
    put_text(&mut wanted, run);
    put(&mut wanted, "\n");
    put_if_wrong(wrong, wanted.as_str(), found.as_str());
}

/// What the runs of these cases leave that is not what is wanted of them. Between two cases is an empty line. A case is
///
/// - `# WORDS`: what it shows;
/// - for each file `@ NAME TEXT`, or `@ NAME` and the lines of its text below, each with its end;
/// - for each run over these files `$ WORDS => STATUS`, with `, no file opened` where that is so, then `! ` and what it
///   tells on standard error, if anything, and then its text.
///
/// Texts and what is wanted stand in the notation of `put_text`. A case without a run is wrong.
pub fn wrong_cases(alloc: Global, cases: &str, devices: &Devices) -> String {
    let mut wrong = String::new(alloc);
    for case in cases.split("\n\n") {
        match case.split_once("\n$ ") {
            Some((head, runs)) => {
                let (_, files) = head.split_once("\n@ ").unwrap_or((head, ""));
                for run in runs.split("\n$ ") {
                    put_wrong_run(&mut wrong, alloc, files, run, devices);
                }
            }
            None => put(&mut wrong, case),
        }
    }
    wrong
}
