use crate::graphs::every_graph;
use crate::primes::every_truth;
use crate::remembering::remembers;
use crate::rows::wrong_rows;
use psa_nodes::NodeTable;
use std::marker::Brand;
use std::sync::ledger::Blank;

#[test]
fn answers_calls(rt: HostRuntime) {
    let wrong = wrong_rows(&rt, rt.alloc());
    assert_eq!(rt; wrong.as_str(), "");
}

#[test]
fn remembers_a_result(rt: HostRuntime) {
    assert!(rt; remembers(rt.alloc()));
}

/// Cut sets of truths over three events, by a graph and by its diagram.
#[test]
fn finds_the_same_cut_sets_either_way(rt: HostRuntime) {
    for limit in [32, 2, 1] {
        let mut table = NodeTable::new(rt.alloc());
        let answer = every_graph::<Brand>(&rt, rt.alloc(), &mut table, limit, Blank::new(1));
        assert!(rt; answer.is_ok());
    }
}

/// Prime implicants of truths over three events.
#[test]
fn finds_those_of_every_small_truth(rt: HostRuntime) {
    for limit in [3, 2, 1] {
        let mut table = NodeTable::new(rt.alloc());
        let answer = every_truth::<Brand>(&rt, &mut table, limit, Blank::new(1));
        assert!(rt; answer.is_ok());
    }
}
