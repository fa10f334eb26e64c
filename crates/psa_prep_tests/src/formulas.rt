ghost use Rattle.std.specs.Prelude.{◌≡◌, ◌≤◌, ◌<◌, true, length};
ghost use Rattle.psa_model.specs.Standing.{target_stands};
ghost use Rattle.psa_nodes.specs.declared.node.TheConstants.{MAX_RANKS};
ghost use Rattle.psa_nodes.specs.Nodes.{IsBounded};
ghost use Rattle.psa_graph.specs.Truths.{IsGraph};
ghost use Rattle.psa_prep_tests.specs.Studies.{IsStudy};

use crate::lines::{put, put_number};
use crate::notation::{text_of, value};
use crate::studies::{Study, read_study};
use crate::truths::{Ranked, diagram, diagram_value, graph_value, rank_target};
use psa_model::Target;
use psa_nodes::{NodeId, NodeTable, Steps};
use std::alloc::Global;
use std::marker::Brand;
use std::mem::forget;
use std::sync::ledger::{Blank, Ledger};

/// The sets of four events.
const SETS: u32 = 16;

/// Formulas in short, one a line.
const FORMULAS: &str = "\
a
h
k
t
f
g
&a.
&ab.
&abcd.
&aa.
&ah.
&ak.
&at.
&af.
&a!a..
&hk.
&tt.
&|ab.|cd..
&|ab.|bc.|ca..
&gab.
|a.
|ab.
|abcd.
|aa.
|ah.
|ak.
|at.
|af.
|a!a..
|kf.
|&ab.&cd..
|&ab.&bc.&ca..
|ga.
!a.
!h.
!k.
!t.
!f.
!g.
!!a..
!&ab..
!|ab..
!&a!|bc....
^ab.
^aa.
^ah.
^ak.
^ta.
^fa.
^ht.
^^ab.c.
^^ab.^cd..
^&ab.|cd..
!^ab..
^ga.
=ab.
=aa.
=ah.
=ak.
=ta.
=af.
=hk.
==ab.c.
=^ab.^cd..
!=ab..
=g!g..
~a.
~ab.
~abc.
~aa.
~ah.
~ak.
~af.
~a!a..
~~ab.c.
~g~ab..
-a.
-ab.
-abc.
-ah.
-ak.
-at.
-a!a..
--ab.c.
-g-cd..
>ab.
>aa.
>ah.
>ak.
>ha.
>ka.
>ta.
>af.
>>ab.c.
>a>bc..
!>ab..
>ga.
>&ab.|cd..
@0:ab.
@1:a.
@1:abcd.
@2:abc.
@2:abcd.
@3:abc.
@3:abcd.
@2:aab.
@2:aabb.
@2:abh.
@2:abk.
@2:hta.
@1:kf.
@2:&ab.c!d..
@2:gabc.
!@2:abc..
@2:@1:ab.@2:abc.d.
#0,0:ab.
#0,1:abc.
#1,1:ab.
#1,2:abc.
#2,2:abcd.
#1,3:abcd.
#0,4:abcd.
#2,3:abc.
#3,3:abc.
#1,2:aab.
#1,2:abh.
#1,2:abk.
#1,1:htf.
#1,2:^ab.|bc.d.
#1,2:gab.
!#1,2:abc..
#1,1:#1,1:ab.#1,1:bc.c.
";

/// Tells each set in which a graph or its diagram does not read as the formula.
fn put_sets<L: Ledger>(
    alloc: Global,
    told: &mut String,
    table: &NodeTable,
    root: NodeId,
    formula: &str,
    ranked: &Ranked,
    steps: &mut Steps<L>,
) {
    for set in 0..SETS {
        let wanted = value(alloc, formula, ranked.ranks.as_slice(), set).ok();
        let by_graph = graph_value(alloc, &ranked.graph, set).ok();
        let by_diagram = diagram_value(table, root, set, steps);
        if wanted.is_none() || by_graph != wanted || by_diagram != wanted {
            put(told, formula);
            put(told, " in ");
            put_number(told, &set);
            put(told, "\n");
        }
    }
}

/// Tells what differs of the diagram of a target.
fn put_differences<L: Ledger>(
    alloc: Global,
    told: &mut String,
    table: &mut NodeTable,
    formula: &str,
    ranked: &Ranked,
    steps: &mut Steps<L>,
)
    requires graph { IsGraph ranked.now.graph }
    requires width { ranked.now.graph.width ≤ MAX_RANKS }
    requires bounded { IsBounded table.old.nodes }
    ensures { IsBounded table.new.nodes }
{
    match diagram(alloc, table, ranked, steps) {
        Ok(root) => put_sets(alloc, told, table, root, formula, ranked, steps),
        Err(_) => put(told, "no diagram\n"),
    }
}

/// Tells what differs of a target.
fn put_target<L: Ledger>(
    alloc: Global,
    told: &mut String,
    table: &mut NodeTable,
    formula: &str,
    study: &Study,
    target: &Target,
    steps: &mut Steps<L>,
)
    requires study { IsStudy study.now.expanded study.now.targets }
    requires target { target_stands study.now.expanded.model target.now ≡ true }
    requires bounded { IsBounded table.old.nodes }
    ensures { IsBounded table.new.nodes }
{
    match rank_target(alloc, study, target) {
        Ok(ranked) => put_differences(alloc, told, table, formula, &ranked, steps),
        Err(_) => put(told, "no ranks\n"),
    }
}

/// Tells what differs of the targets of a formula's model, and their number where it is not one.
fn put_targets<L: Ledger>(
    alloc: Global,
    told: &mut String,
    table: &mut NodeTable,
    formula: &str,
    study: &Study,
    steps: &mut Steps<L>,
)
    requires study { IsStudy study.now.expanded study.now.targets }
    requires bounded { IsBounded table.old.nodes }
    ensures { IsBounded table.new.nodes }
{
    for target in study.targets.as_slice() {
        put_target(alloc, told, table, formula, study, target, steps);
    }
    if study.targets.len() != 1 {
        put(told, formula);
        put(told, ": not one target\n");
    }
}

/// Tells what differs of a formula.
fn put_formula<L: Ledger>(
    alloc: Global,
    told: &mut String,
    table: &mut NodeTable,
    formula: &str,
    steps: &mut Steps<L>,
)
    requires bounded { IsBounded table.old.nodes }
    ensures { IsBounded table.new.nodes }
{
    let text = text_of(alloc, formula);
    match read_study(alloc, text.as_str(), true) {
        Some(study) => {
            put_targets(alloc, told, table, formula, &study, steps);
            forget(study);
        }
        None => {
            put(told, formula);
            put(told, ": no model\n");
        }
    }
}

/// What differs, in lines: nothing where all formulas have one target, which reads as they do.
fn differences<L: Ledger>(alloc: Global, table: &mut NodeTable, blank: Blank) -> String
    requires name { blank.name ≡ L.name }
    requires parts { blank.parts ≡ L.parts }
    requires some { 0 < blank.parts }
    requires bounded { IsBounded table.old.nodes }
{
    let mut told = String::new(alloc);
    let mut steps = Steps::<L>::begin(blank);
    for formula in FORMULAS.lines() {
        put_formula(alloc, &mut told, table, formula, &mut steps);
    }
    told
}

/// Each formula over four events, house events in both states and constants: its graph and its diagram
/// are true in the sets in which the formula is.
#[test]
fn reads_as_the_formula(rt: HostRuntime) {
    let mut table = NodeTable::new(rt.alloc());
    let told = differences::<Brand>(rt.alloc(), &mut table, Blank::new(1));
    assert_eq!(rt; told.as_str(), "");
}
