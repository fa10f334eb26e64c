ghost use Rattle.std.specs.Prelude.{◌≡◌, ◌≤◌, ◌<◌, true};
ghost use Rattle.psa_model.specs.Standing.{target_stands};
ghost use Rattle.psa_graph.specs.Truths.{IsGraph};
ghost use Rattle.psa_nodes.specs.declared.node.TheConstants.{MAX_RANKS};
ghost use Rattle.psa_nodes.specs.Nodes.{IsBounded};
ghost use Rattle.psa_prep_tests.specs.Studies.{IsStudy};

use crate::lines::{put, put_number};
use crate::outlines::put_outline;
use crate::studies::{Study, read_study};
use crate::truths::{Ranked, diagram, rank_target};
use psa_model::Target;
use psa_nodes::{NodeTable, Steps};
use std::alloc::Global;
use std::marker::Brand;
use std::mem::forget;
use std::sync::ledger::{Blank, Ledger};

const TREE: &str = "<opsa-mef>
<define-initiating-event name='I' event-tree='E1'/>
<define-event-tree name='E1'>
<define-functional-event name='FA'/>
<define-functional-event name='FB'/>
<define-sequence name='OK'/>
<define-sequence name='BAD'/>
<define-sequence name='GO'><event-tree name='E2'/></define-sequence>
<initial-state>
<fork functional-event='FA'>
<path state='works'><collect-formula><not><gate name='GA'/></not></collect-formula><sequence name='OK'/></path>
<path state='fails'><collect-formula><gate name='GA'/></collect-formula>
<fork functional-event='FB'>
<path state='works'><set-house-event name='H'><constant value='true'/></set-house-event><collect-formula><gate name='GB'/></collect-formula><sequence name='BAD'/></path>
<path state='stuck'><collect-formula><basic-event name='c'/></collect-formula><sequence name='BAD'/></path>
<path state='fails'><sequence name='GO'/></path>
</fork>
</path>
</fork>
</initial-state>
</define-event-tree>
<define-event-tree name='E2'>
<define-sequence name='END'/>
<initial-state><set-house-event name='H'><constant value='true'/></set-house-event><collect-formula><gate name='GB'/></collect-formula><sequence name='END'/></initial-state>
</define-event-tree>
<define-fault-tree name='F'>
<define-gate name='GA'><or><basic-event name='a'/><and><basic-event name='d'/><house-event name='H'/></and></or></define-gate>
<define-gate name='GB'><and><basic-event name='b'/><house-event name='H'/></and></define-gate>
<define-basic-event name='a'/>
<define-basic-event name='b'/>
<define-basic-event name='c'/>
<define-basic-event name='d'/>
<define-house-event name='H'/>
</define-fault-tree>
</opsa-mef>";

/// What it tells: the gates GA and GB, and the sequences OK, BAD and END.
const OF_TREE: &str = "\
a d => 0101
b => 00
a d => 1010
a d b c => 0000 0101 0101 0101
a d b => 0000 0101
";

/// A gate that a sequence collects under two lists of house states, one after the other.
const HOUSES: &str = "<opsa-mef>
<define-initiating-event name='I' event-tree='E'/>
<define-event-tree name='E'>
<define-functional-event name='X'/>
<define-sequence name='S'/>
<initial-state><fork functional-event='X'>
<path state='on'><set-house-event name='H'><constant value='true'/></set-house-event><collect-formula><gate name='g'/></collect-formula><sequence name='S'/></path>
<path state='off'><collect-formula><gate name='g'/></collect-formula><set-house-event name='H'><constant value='true'/></set-house-event><collect-formula><or><basic-event name='c'/><gate name='g'/></or></collect-formula><sequence name='S'/></path>
</fork></initial-state>
</define-event-tree>
<define-fault-tree name='F'>
<define-gate name='g'><or><and><basic-event name='a'/><house-event name='H'/></and><and><basic-event name='b'/><not><house-event name='H'/></not></and></or></define-gate>
<define-basic-event name='a'/>
<define-basic-event name='b'/>
<define-basic-event name='c'/>
<define-house-event name='H'/>
</define-fault-tree>
</opsa-mef>";

/// The gate with H off, which is b; and the sequence: a, or b with c.
const OF_HOUSES: &str = "\
a b => 0011
a b c => 0101 0111
";

/// A group of two members, with a gate for each and one for both.
const PAIR: &str = "<opsa-mef>
<define-fault-tree name='F'>
<define-gate name='second'><basic-event name='B'/></define-gate>
<define-gate name='first'><not><basic-event name='A'/></not></define-gate>
<define-gate name='both'><and><basic-event name='A'/><basic-event name='B'/></and></define-gate>
<define-CCF-group name='G' model='beta-factor'>
<members><basic-event name='A'/><basic-event name='B'/></members>
<distribution><float value='0.1'/></distribution>
<factor><float value='0.2'/></factor>
</define-CCF-group>
</define-fault-tree>
</opsa-mef>";

/// B occurs by 2 alone or 3, which is both; A by 1 or 3.
const OF_PAIR: &str = "\
2 3 => 0111
1 3 => 1000
1 3 2 => 0011 0111
";

const OF_MEMBERS: &str = "\
member 1 => 01
member 0 => 10
member 0 member 1 => 0001
";

/// A group of three members in one gate: seven events, by first visit of the members.
const MGL: &str = "<opsa-mef>
<define-fault-tree name='F'>
<define-gate name='top'><and><basic-event name='A'/><basic-event name='B'/><basic-event name='C'/></and></define-gate>
<define-CCF-group name='G' model='MGL'>
<members><basic-event name='A'/><basic-event name='B'/><basic-event name='C'/></members>
<distribution><float value='0.1'/></distribution>
<factors><factor level='2'><float value='0.2'/></factor><factor level='3'><float value='0.5'/></factor></factors>
</define-CCF-group>
</define-fault-tree>
</opsa-mef>";

/// Their ranks; without the first event the gate is false, with it alone too.
const OF_MGL: &str = "\
1 3 5 7 2 6 4 => 00
";

/// What tells of the targets of a text, in lines.
fn told(alloc: Global, text: &str, expanded: bool) -> String {
    let mut out = String::new(alloc);
    match read_study(alloc, text, expanded) {
        Some(study) => {
            put_outline(alloc, &mut out, &study);
            forget(study);
        }
        None => put(&mut out, "no model\n"),
    }
    out
}

/// The ranks and truths of targets, by hand.
#[test]
fn tells_targets(rt: HostRuntime) {
    for (text, expanded, wanted) in [
        (TREE, false, OF_TREE),
        (HOUSES, false, OF_HOUSES),
        (PAIR, true, OF_PAIR),
        (PAIR, false, OF_MEMBERS),
        (MGL, true, OF_MGL),
    ] {
        let found = told(rt.alloc(), text, expanded);
        assert_eq!(rt; found.as_str(), wanted);
    }
}

/// A file of so many events under a connective, of which the tag with attributes and the end are given.
fn wide(alloc: Global, open: &str, close: &str, count: u32) -> String {
    let mut text = String::new(alloc);
    put(
        &mut text,
        "<opsa-mef>\n<define-fault-tree name='F'>\n<define-gate name='top'>",
    );
    put(&mut text, open);
    put_events(&mut text, "<basic-event name='e", count, "'/>");
    put(&mut text, close);
    put(&mut text, "</define-gate>\n");
    put_events(&mut text, "<define-basic-event name='e", count, "'/>\n");
    put(&mut text, "</define-fault-tree>\n</opsa-mef>\n");
    text
}

/// The numbers of so many events, each between two pieces.
fn put_events(out: &mut String, front: &str, count: u32, back: &str) {
    for event in 0..count {
        put(out, front);
        put_number(out, &event);
        put(out, back);
    }
}

/// 2,049 events are too many.
#[test]
fn refuses_too_many_events(rt: HostRuntime) {
    let text = wide(rt.alloc(), "<or>", "</or>", 2_049);
    let found = told(rt.alloc(), text.as_str(), false);
    assert_eq!(rt; found.as_str(), "0:3: too many events top\n");
}

/// The numbers of ranks, of nodes of the graph, of nodes of the diagram and of remembered results.
fn put_sizes<L: Ledger>(alloc: Global, out: &mut String, ranked: &Ranked, steps: &mut Steps<L>)
    requires graph { IsGraph ranked.now.graph }
    requires width { ranked.now.graph.width ≤ MAX_RANKS }
{
    let mut table = NodeTable::new(alloc);
    if diagram(alloc, &mut table, ranked, steps).is_err() {
        put(out, "no diagram ");
    }
    put_number(out, &ranked.ranks.len());
    put(out, " ");
    put_number(out, &ranked.graph.nodes.len());
    put(out, " ");
    put_number(out, &table.len());
    put(out, " ");
    put_number(out, &table.entries());
}

/// The sizes of a target.
fn put_target<L: Ledger>(
    alloc: Global,
    out: &mut String,
    study: &Study,
    target: &Target,
    steps: &mut Steps<L>,
)
    requires study { IsStudy study.now.expanded study.now.targets }
    requires target { target_stands study.now.expanded.model target.now ≡ true }
{
    match rank_target(alloc, study, target) {
        Ok(ranked) => put_sizes(alloc, out, &ranked, steps),
        Err(_) => put(out, "no ranks"),
    }
    put(out, "\n");
}

/// The sizes of each target in a line.
fn put_targets<L: Ledger>(alloc: Global, out: &mut String, study: &Study, blank: Blank)
    requires study { IsStudy study.now.expanded study.now.targets }
    requires name { blank.name ≡ L.name }
    requires parts { blank.parts ≡ L.parts }
    requires some { 0 < blank.parts }
{
    let mut steps = Steps::<L>::begin(blank);
    for target in study.targets.as_slice() {
        put_target(alloc, out, study, target, &mut steps);
    }
}

/// The sizes of a text's targets.
fn sizes(alloc: Global, text: &str) -> String {
    let mut out = String::new(alloc);
    match read_study(alloc, text, false) {
        Some(study) => {
            put_targets::<Brand>(alloc, &mut out, &study, Blank::new(1));
            forget(study);
        }
        None => put(&mut out, "no model\n"),
    }
    out
}

/// Wide connectives of 2,048 events and of fewer have graphs and diagrams of few nodes: of n events two a
/// rank where one decides, and of k of n in proportion to k times n.
#[test]
fn keeps_wide_connectives_small(rt: HostRuntime) {
    for (open, close, count, wanted) in [
        ("<or>", "</or>", 2_048, "2048 4097 4095 2047\n"),
        ("<and>", "</and>", 2_048, "2048 4097 4095 2047\n"),
        (
            "<atleast min='2'>",
            "</atleast>",
            1_000,
            "1000 3997 3995 3993\n",
        ),
        (
            "<cardinality min='0' max='600'>",
            "</cardinality>",
            600,
            "600 1202 0 0\n",
        ),
        (
            "<atleast min='50'>",
            "</atleast>",
            100,
            "100 5101 5099 7449\n",
        ),
    ] {
        let text = wide(rt.alloc(), open, close, count);
        let found = sizes(rt.alloc(), text.as_str());
        assert_eq!(rt; found.as_str(), wanted);
    }
}
