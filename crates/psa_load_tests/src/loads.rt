//! What is loaded of two files, and of the sample.
use crate::lines::{put, put_number};
use crate::loading::{load_files, load_sample};
use crate::outlines::{put_error, put_loaded};
use psa_load::sample_text;
use psa_outcome::{LoadError, Loaded};
use std::alloc::Global;
use std::test::*;

const GATE: &str = "<opsa-mef><define-fault-tree name='F'>
<define-gate name='top'><and><basic-event name='a'/><event name='b'/></and></define-gate>
</define-fault-tree></opsa-mef>";

const VALUED: &str = "<opsa-mef><model-data>
<define-basic-event name='b'><float value='0.5'/></define-basic-event>
<define-basic-event name='a'><float value='0.25'/></define-basic-event>
</model-data></opsa-mef>";

const UNVALUED: &str = "<opsa-mef><model-data>
<define-basic-event name='b'/>
<define-basic-event name='a'><float value='0.25'/></define-basic-event>
</model-data></opsa-mef>";

const OPEN: &str = "<opsa-mef>
<if></opsa-mef>";

const STRAY: &str = "<opsa-mef>
<if/></opsa-mef>";

const SAMPLE: &str = "<opsa-mef>
<define-fault-tree name=\"sample\">
<define-gate name=\"top\"><atleast min=\"2\">
<gate name=\"t1\"/>
<gate name=\"t2\"/>
</atleast></define-gate>
<define-gate name=\"t1\"><or><basic-event name=\"a1\"/><basic-event name=\"b1\"/></or></define-gate>
<define-basic-event name=\"a1\"><float value=\"0.001\"/></define-basic-event>
<define-basic-event name=\"b1\"><float value=\"0.0002\"/></define-basic-event>
<define-gate name=\"t2\"><or><basic-event name=\"a2\"/><basic-event name=\"b2\"/></or></define-gate>
<define-basic-event name=\"a2\"><float value=\"0.001\"/></define-basic-event>
<define-basic-event name=\"b2\"><float value=\"0.0002\"/></define-basic-event>
</define-fault-tree>
</opsa-mef>
";

/// The files, by their names.
const FILES: [(&str, &str); 6] = [
    ("g", GATE),
    ("again", GATE),
    ("valued", VALUED),
    ("unvalued", UNVALUED),
    ("open", OPEN),
    ("stray", STRAY),
];

/// Two files, words of settings, and what is loaded of them; under `second` the second call of the folder fails. Of two
/// faults of texts the first is told, and a file that cannot be read only where no fault of a text stands before it.
const LOADS: &str = "\
g valued: none => target 1 0; no values
g valued: rare => target 1 0; values 500000000000 250000000000
g unvalued: none => target 1 0; no values
g unvalued: rare => 1:2: no value b
g open: rare => 1:2: bad nesting
g stray: rare => 1:2: unknown element if
g again: none => 1:1: another fault F
g nowhere: none => cannot read 1
nowhere open: none => cannot read 0
open nowhere: none => 0:2: bad nesting
stray open: none => 1:2: bad nesting
g stray: second => cannot read 0
";

/// What was loaded, or the file and the line of the first fault, its kind and the name that it tells.
fn told(alloc: Global, answer: &Result<Loaded, LoadError>) -> String {
    let mut out = String::new(alloc);
    match answer {
        Ok(loaded) => put_loaded(&mut out, loaded),
        Err(error) => {
            if let LoadError::Bad(fault) = error {
                put_number(&mut out, &fault.file);
                put(&mut out, ":");
            }
            put_error(&mut out, error);
        }
    }
    out
}

/// What is loaded of two files by words.
fn told_of_two(alloc: Global, first: &str, second: &str, words: &str) -> String {
    let failing: &[u64] = if words == "second" { &[1] } else { &[] };
    let answer = load_files(alloc, words, &[first, second], &FILES, failing);
    told(alloc, &answer)
}

#[test]
fn two_files(rt: HostRuntime) {
    for row in LOADS.lines() {
        let (files, rest) = row.split_once(": ").expect(&rt, "words");
        let (words, wanted) = rest.split_once(" => ").expect(&rt, "an answer");
        let (first, second) = files.split_once(' ').expect(&rt, "two files");
        let found = told_of_two(rt.alloc(), first, second, words);
        assert_eq!(rt; found.as_str().trim_end(), wanted, "{row}");
    }
}

/// The sample of two trains: its text, and what is loaded of it.
#[test]
fn sample_of_two(rt: HostRuntime) {
    let text = sample_text(rt.alloc(), 2).expect(&rt, "memory");
    assert_eq!(rt; text.as_str(), SAMPLE);
    let found = told(rt.alloc(), &load_sample(rt.alloc(), 2));
    assert_eq!(rt;
        found.as_str(),
        "target 0 1 2 3; values 1000000000 200000000 1000000000 200000000"
    );
}
