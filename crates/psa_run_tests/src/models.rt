//! The models that several runs share, and the head of a report.

/// Texts, each behind its name, on a line that begins with `= `. What a run puts in stands in the places `...`:
///
/// - `two`: two redundant trains;
/// - `one`: a gate that another file defines, and `second`: that file, up to a definition at line 3;
/// - `gate`: a formula over the events a, b and c;
/// - `event`: the expression of an event;
/// - `group`: the model of a common cause group of three events, and its factors;
/// - `bad-group`: a group of multiple Greek letters without factors;
/// - `components`: two private ones, by the path of a gate in the first and an event of the second;
/// - `condition`: a rule with a condition, by the functional event that it tests;
/// - `nodes`: a target of one node, and one of four;
/// - `report`: the algorithm, the products and the limit of their order.
#[rattlefmt::skip]
pub const MODELS: &str = r#"
= two
<opsa-mef>
<define-fault-tree name="TwoTrains">
<define-gate name="TopEvent"><and><gate name="TrainOne"/><gate name="TrainTwo"/></and></define-gate>
<define-gate name="TrainOne"><or><basic-event name="PumpOne"/><basic-event name="ValveOne"/></or></define-gate>
<define-gate name="TrainTwo"><or><basic-event name="PumpTwo"/><basic-event name="ValveTwo"/></or></define-gate>
<define-basic-event name="PumpOne"/>
<define-basic-event name="ValveOne"/>
<define-basic-event name="PumpTwo"/>
<define-basic-event name="ValveTwo"/>
</define-fault-tree>
</opsa-mef>
= one
<opsa-mef>
<define-fault-tree name="F">
<define-gate name="G1"><or><gate name="G2"/><basic-event name="a"/></or></define-gate>
<define-basic-event name="a"/>
</define-fault-tree>
</opsa-mef>
= second
<opsa-mef>
<define-fault-tree name="H">
...
</define-fault-tree>
</opsa-mef>
= bad-group
<opsa-mef>
<define-CCF-group name="G" model="MGL"><members><basic-event name="A"/><basic-event name="B"/></members><distribution><float value="0.1"/></distribution></define-CCF-group>
</opsa-mef>
= gate
<opsa-mef><define-fault-tree name="F"><define-gate name="top">...</define-gate><define-basic-event name="a"/><define-basic-event name="b"/><define-basic-event name="c"/></define-fault-tree></opsa-mef>
= event
<opsa-mef><define-fault-tree name="F"><define-gate name="top"><basic-event name="a"/></define-gate><define-basic-event name="a">...</define-basic-event></define-fault-tree></opsa-mef>
= group
<opsa-mef>
<define-fault-tree name="F">
<define-gate name="top"><and><basic-event name="A"/><basic-event name="B"/><basic-event name="C"/></and></define-gate>
<define-CCF-group name="G" model="...">
<members><basic-event name="A"/><basic-event name="B"/><basic-event name="C"/></members>
<distribution><float value="0.1"/></distribution>
...
</define-CCF-group>
</define-fault-tree>
</opsa-mef>
= components
<opsa-mef>
<define-fault-tree name="F">
<define-gate name="top"><or><gate name="..."/><gate name="F.Q.g"/></or></define-gate>
<define-component name="P" role="private">
<define-gate name="g"><and><basic-event name="x"/><basic-event name="s"/></and></define-gate>
<define-basic-event name="x"/>
</define-component>
<define-component name="Q" role="private">
<define-gate name="g"><and><basic-event name="x"/><basic-event name="s"/></and></define-gate>
...
</define-component>
<define-basic-event name="s"/>
</define-fault-tree>
</opsa-mef>
= condition
<opsa-mef>
<define-initiating-event name="I" event-tree="E"/>
<define-initiating-event name="J" event-tree="E"/>
<define-event-tree name="E">
<define-functional-event name="FA"/>
<define-sequence name="S"><rule name="R"/></define-sequence>
<initial-state><fork functional-event="FA"><path state="up"><sequence name="S"/></path><path state="down"><sequence name="S"/></path></fork></initial-state>
</define-event-tree>
<define-rule name="R"><if><and><test-initiating-event name="I"/><test-functional-event name="..." state="down"/></and><collect-formula><basic-event name="a"/></collect-formula><collect-formula><basic-event name="b"/></collect-formula></if></define-rule>
<model-data><define-basic-event name="a"/><define-basic-event name="b"/></model-data>
</opsa-mef>
= nodes
<opsa-mef>
<define-fault-tree name="F">
<define-gate name="g1"><basic-event name="a"/></define-gate>
<define-gate name="g2"><and><basic-event name="a"/><basic-event name="b"/><basic-event name="c"/><basic-event name="d"/></and></define-gate>
<define-basic-event name="a"/>
<define-basic-event name="b"/>
<define-basic-event name="c"/>
<define-basic-event name="d"/>
</define-fault-tree>
</opsa-mef>
= report
scram report
algorithm ...
products ...
limit-order ..."#;
