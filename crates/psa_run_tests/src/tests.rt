use crate::cases::wrong_cases;
use crate::cut::wrong_cuts;
use crate::devices::{
    IN_BLOCKS, UNREAD, UNTOLD, UNWRITTEN_BLOCKS, wrong_calls, wrong_rooms, wrong_second_write,
    wrong_writes,
};
use crate::examples::EXAMPLES;
use crate::formulas::{FORMULAS, WHOLE};
use crate::limits::LIMITS;
use crate::nodes::wrong_limit;
use crate::quantities::{EXPRESSIONS, GROUPS, TOTALS};
use crate::refusals::{NAMES, ORDER, SHAPES, VALUES, WORDS};
use crate::runs::{Devices, SOUND, found};
use crate::sample::sample_report;
use crate::trees::TREES;

/// Runs over files and sinks that never fail.
#[test]
fn runs(rt: HostRuntime) {
    for cases in [
        WHOLE,
        FORMULAS,
        TOTALS,
        EXPRESSIONS,
        GROUPS,
        TREES,
        NAMES,
        SHAPES,
        VALUES,
        ORDER,
        WORDS,
        LIMITS,
        EXAMPLES,
    ] {
        assert_eq!(rt; wrong_cases(rt.alloc(), cases, &SOUND).as_str(), "");
    }
}

/// Reads and writes of one byte, and devices of which some calls fail.
#[test]
fn devices(rt: HostRuntime) {
    for (cases, devices) in [
        (
            TOTALS,
            Devices {
                read: 1,
                write: 1,
                ..SOUND
            },
        ),
        (
            UNREAD,
            Devices {
                failing_calls: &[1],
                ..SOUND
            },
        ),
        (
            UNTOLD,
            Devices {
                failing_lines: &[0],
                ..SOUND
            },
        ),
    ] {
        assert_eq!(rt; wrong_cases(rt.alloc(), cases, &devices).as_str(), "");
    }
}

/// Reports through blocks of several sizes.
#[test]
fn blocks(rt: HostRuntime) {
    for size in [1, 16, 1000] {
        let sound = Devices {
            block: Some(size),
            ..SOUND
        };
        let failing = Devices {
            failing_writes: &[0, 1],
            ..sound
        };
        assert_eq!(rt; wrong_cases(rt.alloc(), IN_BLOCKS, &sound).as_str(), "");
        assert_eq!(rt;
            wrong_cases(rt.alloc(), UNWRITTEN_BLOCKS, &failing).as_str(),
            ""
        );
    }
}

/// Each call of the folder, each room of a sink and each write, and a text that is cut off at each place.
#[test]
fn places(rt: HostRuntime) {
    assert_eq!(rt; wrong_calls(rt.alloc()).as_str(), "");
    assert_eq!(rt; wrong_rooms(rt.alloc()).as_str(), "");
    assert_eq!(rt; wrong_writes(rt.alloc()).as_str(), "");
    assert_eq!(rt; wrong_second_write(rt.alloc()).as_str(), "");
    assert_eq!(rt; wrong_cuts(rt.alloc()).as_str(), "");
}

/// The sample of 200 trains opens nothing and needs fewer than a million nodes.
#[test]
fn sample(rt: HostRuntime) {
    for (words, way) in [
        (
            "--sample 200 --bdd --rare-event --node-limit 1000000",
            "bdd",
        ),
        (
            "--sample 200 --zbdd --rare-event --node-limit 1000000",
            "zbdd",
        ),
    ] {
        let wanted = sample_report(rt.alloc(), words, way);
        let found = found(rt.alloc(), words, "", &SOUND);
        assert!(rt; found.as_str() == wanted.as_str());
    }
}

/// The first node limit under which a run is done, by each way.
#[test]
fn node_limits(rt: HostRuntime) {
    for (way, head) in [
        ("--bdd", "{report bdd ... minimal-cut-sets ... 20}\n"),
        ("--zbdd", "{report zbdd ... minimal-cut-sets ... 20}\n"),
        (
            "--prime-implicants",
            "{report bdd ... prime-implicants ... 20}\n",
        ),
    ] {
        assert_eq!(rt; wrong_limit(rt.alloc(), way, head).as_str(), "");
    }
}
