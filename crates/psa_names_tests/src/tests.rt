use crate::accepted::ACCEPTED;
use crate::lines::{put, put_number};
use crate::refused::REFUSED;
use crate::rows::{model, wrong_model, wrong_rows};
use crate::worked::WORKED;
use std::alloc::Global;

#[test]
fn finds_first_faults(rt: HostRuntime) {
    for rows in [REFUSED, ACCEPTED] {
        let wrong = wrong_rows(rt.alloc(), rows);
        assert_eq!(rt; wrong.as_str(), "");
    }
}

#[test]
fn resolves_worked_models(rt: HostRuntime) {
    for case in WORKED {
        let wrong = wrong_model(rt.alloc(), case);
        assert_eq!(rt; wrong.as_str(), "");
    }
}

/// A gate whose formula is another gate.
fn put_gate(out: &mut String, number: u32) {
    put(out, "<define-gate name=\"g");
    put_number(out, &number);
    put(out, "\"><gate name=\"g");
    put_number(out, &(u64::from(number) + 1));
    put(out, "\"/></define-gate>\n");
}

/// A chain of so many gates, each at a line of its own.
fn chain(alloc: Global, count: u32) -> String {
    let mut text = String::new(alloc);
    put(&mut text, "<opsa-mef>\n<define-fault-tree name=\"F\">\n");
    for number in 1..count {
        put_gate(&mut text, number);
    }
    put(&mut text, "<define-gate name=\"g");
    put_number(&mut text, &count);
    put(&mut text, "\"><constant value=\"true\"/></define-gate>\n");
    put(&mut text, "</define-fault-tree>\n</opsa-mef>\n");
    text
}

#[test]
fn keeps_the_depth(rt: HostRuntime) {
    for (count, front) in [
        (500, "gate g1 tree 0 gate 1\n"),
        (501, "0:3: too deep g1"),
        (502, "0:3: too deep g1"),
    ] {
        let text = chain(rt.alloc(), count);
        let found = model(rt.alloc(), "", text.as_str(), "");
        assert_eq!(rt; found.as_str().get(..front.len()), Some(front));
    }
}
