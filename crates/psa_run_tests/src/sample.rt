use crate::lines::{put, put_number};
use crate::texts::put_text;
use std::alloc::Global;

/// The product of an event of a train with one of another train.
fn put_pair(text: &mut String, bound: &str, event: &str, train: u32, second: &str, other: u32) {
    put(text, "- 2 ");
    put(text, bound);
    put(text, " ");
    put(text, bound);
    put(text, " ");
    put(text, event);
    put_number(text, &train);
    put(text, second);
    put_number(text, &other);
    put(text, "\n");
}

/// The products of an event of a train with the pump and the valve of each later train, and their bounds.
fn put_pairs(text: &mut String, event: &str, train: u32, pump: &str, valve: &str) {
    for other in train.saturating_add(1)..=200 {
        put_pair(text, pump, event, train, " a", other);
        put_pair(text, valve, event, train, " b", other);
    }
}

/// What a run over the sample of 200 trains, two of which are wanted, leaves by a way: 79,600 products.
pub fn sample_report(alloc: Global, words: &str, way: &str) -> String {
    let mut text = String::new(alloc);
    put(&mut text, words);
    put(
        &mut text,
        " => Done, no file opened\nscram report\nalgorithm ",
    );
    put(&mut text, way);
    put(&mut text, "\nproducts minimal-cut-sets\nlimit-order 20\n");
    put(
        &mut text,
        "mission-time 8760.000000000000 8760.000000000000\n",
    );
    put(&mut text, "cut-off 0.000000000000\ntop-event sample top\n");
    for train in 1..=200 {
        put_pairs(&mut text, "a", train, "0.000001000000", "0.000000200000");
        put_pairs(&mut text, "b", train, "0.000000200000", "0.000000040000");
    }
    put(
        &mut text,
        "count 79600\nrare-event 0.028656000000 0.028656000000\n",
    );
    text
}
