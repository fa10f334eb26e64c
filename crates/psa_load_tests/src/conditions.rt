//! Conditional instructions by their tests.
use crate::lines::put;
use crate::loading::targets;
use std::alloc::Global;
use std::test::*;

/// Tests, and the targets where a sequence collects the first formula where the test is true, else the second, under two initiating events, behind a fork with the states `x` and `y`.
#[rattlefmt::skip]
const TESTS: &str = "\
<test-initiating-event name='I'/> => I S: 0: 0;J S: 1: 1;
<test-functional-event name='f' state='x'/> => I S: 0: 1;J S: 0: 1;
<test-functional-event name='f' state='none'/> => I S: 1: 1;J S: 1: 1;
<and><test-initiating-event name='I'/><test-functional-event name='f' state='y'/></and> => I S: 1: 0;J S: 1: 1;
<or><test-initiating-event name='J'/><test-functional-event name='f' state='y'/></or> => I S: 1: 0;J S: 0: 0;
<not><test-functional-event name='f' state='x'/></not> => I S: 1: 0;J S: 1: 0;
<and><test-initiating-event name='I'/></and> => I S: 0: 0;J S: 1: 1;
<or><test-functional-event name='f' state='none'/></or> => I S: 1: 1;J S: 1: 1;
<or><and><test-initiating-event name='I'/><not><test-functional-event name='f' state='x'/></not></and><and><not><test-initiating-event name='I'/></not><test-functional-event name='f' state='x'/></and></or> => I S: 1: 0;J S: 0: 1;
<and><or><test-initiating-event name='I'/><test-initiating-event name='J'/></or><not><not><test-functional-event name='f' state='y'/></not></not></and> => I S: 1: 0;J S: 1: 0;
<not><and><test-initiating-event name='I'/><or><test-functional-event name='f' state='x'/><test-functional-event name='f' state='y'/></or></and></not> => I S: 1: 1;J S: 0: 0;
";

const FRONT: &str = "\
<define-initiating-event name='I' event-tree='E'/><define-initiating-event name='J' event-tree='E'/><define-event-tree name='E'><define-functional-event name='f'/><define-sequence name='S'><rule name='R'/></define-sequence><initial-state><fork functional-event='f'><path state='x'><sequence name='S'/></path><path state='y'><sequence name='S'/></path></fork></initial-state></define-event-tree><define-rule name='R'><if>";

const BACK: &str = "\
<collect-formula><constant value='true'/></collect-formula><collect-formula><constant value='true'/></collect-formula></if></define-rule>";

/// The targets where the rule of the sequence has this test.
fn targets_by(alloc: Global, test: &str) -> String {
    let mut row = String::new(alloc);
    put(&mut row, FRONT);
    put(&mut row, test);
    put(&mut row, BACK);
    targets(alloc, row.as_str())
}

#[test]
fn tests_choose_instructions(rt: HostRuntime) {
    for row in TESTS.lines() {
        let (test, told) = row.split_once(" => ").expect(&rt, "an answer");
        let found = targets_by(rt.alloc(), test);
        assert_eq!(rt; found.as_str(), told, "{test}");
    }
}
