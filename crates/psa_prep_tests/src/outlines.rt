ghost use Rattle.std.specs.Prelude.{◌≡◌, ◌≤◌, true};
ghost use Rattle.psa_model.specs.Standing.{target_stands};
ghost use Rattle.psa_prep_tests.specs.Studies.{IsStudy};

use crate::lines::{put, put_number};
use crate::studies::Study;
use crate::truths::{Ranked, graph_value, rank_target};
use psa_model::{EventNumber, Expanded, ExpandedEvent, FaultKind, ModelFault, Target};
use psa_prep::RankError;
use sqlite_items::at;
use std::alloc::Global;

/// An event: a basic event by its name, that of some members of a group by a number with a bit for each.
fn put_event(out: &mut String, expanded: &Expanded, event: EventNumber) {
    match at(expanded.events.as_slice(), event.0 as usize) {
        Some(ExpandedEvent::Basic(id)) => {
            match at(expanded.model.basics.as_slice(), id.0 as usize) {
                Some(basic) => put(out, basic.name.as_str()),
                None => put(out, "?"),
            }
        }
        Some(ExpandedEvent::Member(_, place)) => {
            put(out, "member ");
            put_number(out, place);
        }
        Some(ExpandedEvent::Shared(_, subset)) => put_number(out, subset),
        None => put(out, "?"),
    }
    put(out, " ");
}

/// The truth of a graph of at most 5 ranks in each set of them, from the empty one on.
fn put_truth(alloc: Global, out: &mut String, ranked: &Ranked) {
    put(out, "=>");
    for set in 0..(1u32 << (ranked.ranks.len() % 6)) {
        if set % 4 == 0 {
            put(out, " ");
        }
        put(
            out,
            match graph_value(alloc, &ranked.graph, set) {
                Ok(true) => "1",
                Ok(false) => "0",
                Err(_) => "no memory",
            },
        );
    }
}

/// The events of a target by rank, and its truth in each set of them.
fn put_ranked(alloc: Global, out: &mut String, study: &Study, ranked: &Ranked) {
    for event in ranked.ranks.as_slice() {
        put_event(out, &study.expanded, *event);
    }
    put_truth(alloc, out, ranked);
}

/// A fault by its place, its kind and the name that it tells.
fn put_fault(out: &mut String, fault: &ModelFault) {
    put_number(out, &fault.file);
    put(out, ":");
    put_number(out, &fault.line);
    put(
        out,
        match fault.kind {
            FaultKind::TooManyEvents => ": too many events ",
            _ => ": another fault ",
        },
    );
    put(out, fault.name.as_str());
}

/// The events of a target by rank, and its truth in each set of them; or the fault.
fn put_target(alloc: Global, out: &mut String, study: &Study, target: &Target)
    requires study { IsStudy study.now.expanded study.now.targets }
    requires target { target_stands study.now.expanded.model target.now ≡ true }
{
    match rank_target(alloc, study, target) {
        Ok(ranked) => put_ranked(alloc, out, study, &ranked),
        Err(RankError::Fault(fault)) => put_fault(out, &fault),
        Err(RankError::Memory) => put(out, "no memory"),
    }
    put(out, "\n");
}

/// Each target in a line of its own.
pub fn put_outline(alloc: Global, out: &mut String, study: &Study)
    requires study { IsStudy study.now.expanded study.now.targets }
{
    for target in study.targets.as_slice() {
        put_target(alloc, out, study, target);
    }
}
