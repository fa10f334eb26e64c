//! The least node limit by each way.
use crate::lines::{put, put_number};
use crate::runs::{SOUND, found};
use crate::texts::put_text;
use std::alloc::Global;

/// The section of the two trains.
const SECTION: &str = "top-event TwoTrains TopEvent
- 2 PumpOne PumpTwo
- 2 PumpOne ValveTwo
- 2 ValveOne PumpTwo
- 2 ValveOne ValveTwo
count 4
";

/// What a run over the two trains leaves under a node limit, behind its words.
fn found_within(alloc: Global, way: &str, limit: u64) -> String {
    let mut words = String::new(alloc);
    put(&mut words, "--node-limit ");
    put_number(&mut words, &limit);
    put(&mut words, " ");
    put(&mut words, way);
    put(&mut words, " two.xml");
    found(alloc, words.as_str(), "two.xml\n{two}", &SOUND)
}

/// Whether a run was refused for its nodes: as many stand as the limit allows, and the head alone is written.
fn is_refused(alloc: Global, found: &str, limit: u64, head: &str) -> bool {
    let mut end = String::new(alloc);
    put(&mut end, " => NodeLimit(1), nodes: ");
    put_number(&mut end, &limit);
    put(&mut end, "\n! scram: node limit at target 1\n");
    put_text(&mut end, head);
    found.ends_with(end.as_str())
}

/// Whether a run left its whole report.
fn is_done(alloc: Global, found: &str, head: &str) -> bool {
    let mut end = String::new(alloc);
    put(&mut end, " => Done\n");
    put_text(&mut end, head);
    put(&mut end, SECTION);
    found.ends_with(end.as_str())
}

/// What the run leaves under the first limit under which it is not refused, where that is not its report, or where so
/// few nodes cannot do.
pub fn wrong_limit(alloc: Global, way: &str, head: &str) -> String {
    let mut wrong = String::new(alloc);
    for limit in 1..100 {
        let found = found_within(alloc, way, limit);
        if !is_refused(alloc, found.as_str(), limit, head) {
            if limit <= 4 || !is_done(alloc, found.as_str(), head) {
                put(&mut wrong, found.as_str());
            }
            return wrong;
        }
    }
    put(&mut wrong, "no run was done");
    wrong
}
