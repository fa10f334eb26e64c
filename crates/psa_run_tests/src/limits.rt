//! Models at the limits and past them, and hostile ones.

/// Limits of depths, events, paths, instructions and nodes, and models that no way may unfold.
#[rattlefmt::skip]
pub const LIMITS: &str = r#"
# as many gates in a chain as there may be
@ m.xml
<opsa-mef>
<define-fault-tree name="F">
{499 <define-gate name="g#"><gate name="g+"/></define-gate>
}<define-gate name="g500"><basic-event name="a"/></define-gate>
<define-basic-event name="a"/>
</define-fault-tree>
</opsa-mef>
$ --bdd m.xml => Done
{report bdd ... minimal-cut-sets ... 20}
top-event F g1
- 1 a
count 1

# one more
@ m.xml
<opsa-mef>
<define-fault-tree name="F">
{500 <define-gate name="g#"><gate name="g+"/></define-gate>
}<define-gate name="g501"><basic-event name="a"/></define-gate>
<define-basic-event name="a"/>
</define-fault-tree>
</opsa-mef>
$ --bdd m.xml => BadModel
! scram: m.xml:3: too deep g1

# as many events as a target may have
@ m.xml
<opsa-mef>
<define-fault-tree name="F">
<define-gate name="top"><or>{2048 <basic-event name="e#"/>}</or></define-gate>
{2048 <define-basic-event name="e#"/>
}</define-fault-tree>
</opsa-mef>
$ --bdd m.xml => Done
{report bdd ... minimal-cut-sets ... 20}
top-event F top
{2048 - 1 e#
}count 2048

# one more
@ m.xml
<opsa-mef>
<define-fault-tree name="F">
<define-gate name="top"><or>{2049 <basic-event name="e#"/>}</or></define-gate>
{2049 <define-basic-event name="e#"/>
}</define-fault-tree>
</opsa-mef>
$ --bdd m.xml => BadModel
! scram: m.xml:3: too many events top

# as many paths as there may be
@ m.xml
<opsa-mef>
<define-initiating-event name="I" event-tree="E"/>
<define-event-tree name="E"><define-functional-event name="X"/><define-sequence name="S"/>
{15 <define-branch name="b#"><fork functional-event="X"><path state="p"><branch name="b+"/></path><path state="q"><branch name="b+"/></path></fork></define-branch>
}<define-branch name="b16"><fork functional-event="X"><path state="p"><sequence name="S"/></path><path state="q"><sequence name="S"/></path></fork></define-branch>
<initial-state><branch name="b1"/></initial-state></define-event-tree>
</opsa-mef>
$ --bdd m.xml => Done
{report bdd ... minimal-cut-sets ... 20}
sequence I E S
- 0 unity
count 1

# twice as many
@ m.xml
<opsa-mef>
<define-initiating-event name="I" event-tree="E"/>
<define-event-tree name="E"><define-functional-event name="X"/><define-sequence name="S"/>
{16 <define-branch name="b#"><fork functional-event="X"><path state="p"><branch name="b+"/></path><path state="q"><branch name="b+"/></path></fork></define-branch>
}<define-branch name="b17"><fork functional-event="X"><path state="p"><sequence name="S"/></path><path state="q"><sequence name="S"/></path></fork></define-branch>
<initial-state><branch name="b1"/></initial-state></define-event-tree>
</opsa-mef>
$ --bdd m.xml => BadModel
! scram: m.xml:2: too many paths I

# as many instructions as a path may have
@ m.xml
<opsa-mef>
<define-initiating-event name="I" event-tree="E"/>
<define-event-tree name="E"><define-sequence name="S"/><initial-state>
{256 <block/>
}<sequence name="S"/></initial-state></define-event-tree>
</opsa-mef>
$ --bdd m.xml => Done
{report bdd ... minimal-cut-sets ... 20}
sequence I E S
- 0 unity
count 1

# one more
@ m.xml
<opsa-mef>
<define-initiating-event name="I" event-tree="E"/>
<define-event-tree name="E"><define-sequence name="S"/><initial-state>
{257 <block/>
}<sequence name="S"/></initial-state></define-event-tree>
</opsa-mef>
$ --bdd m.xml => BadModel
! scram: m.xml:2: long path I

# the node limit at the second target, and what stood before it
@ nl.xml
{nodes}
$ --node-limit 2 nl.xml => NodeLimit(2), nodes: 2
! scram: node limit at target 2
{report bdd ... minimal-cut-sets ... 20}
top-event F g1
- 1 a
count 1
$ --node-limit 3 nl.xml => NodeLimit(2), nodes: 3
! scram: node limit at target 2
{report bdd ... minimal-cut-sets ... 20}
top-event F g1
- 1 a
count 1

# gates that no way may unfold
@ m.xml
<opsa-mef>
<define-fault-tree name="F">
{199 <define-gate name="g#"><and><gate name="g+"/><gate name="g+"/></and></define-gate>
}<define-gate name="g200"><basic-event name="a"/></define-gate>
<define-basic-event name="a"/>
</define-fault-tree>
</opsa-mef>
$ --bdd m.xml => Done
{report bdd ... minimal-cut-sets ... 20}
top-event F g1
- 1 a
count 1
$ --zbdd m.xml => Done
{report zbdd ... minimal-cut-sets ... 20}
top-event F g1
- 1 a
count 1
$ --prime-implicants m.xml => Done
{report bdd ... prime-implicants ... 20}
top-event F g1
- 1 a
count 1

# products that all pass the order limit
@ m.xml
<opsa-mef>
<define-fault-tree name="F">
<define-gate name="top"><atleast min="21">{40 <basic-event name="e#"/>}</atleast></define-gate>
{40 <define-basic-event name="e#"/>
}</define-fault-tree>
</opsa-mef>
$ --bdd m.xml => Done
{report bdd ... minimal-cut-sets ... 20}
top-event F top
count 0
$ --zbdd m.xml => Done
{report zbdd ... minimal-cut-sets ... 20}
top-event F top
count 0
$ --prime-implicants m.xml => Done
{report bdd ... prime-implicants ... 20}
top-event F top
count 0

# parameters whose values no run may compute twice
@ m.xml
<opsa-mef><define-fault-tree name="F"><define-gate name="top"><basic-event name="a"/></define-gate><define-basic-event name="a"><parameter name="p1"/></define-basic-event>{199 <define-parameter name="p#"><mul><parameter name="p+"/><parameter name="p+"/></mul></define-parameter>}<define-parameter name="p200"><float value="1"/></define-parameter></define-fault-tree></opsa-mef>
$ --rare-event m.xml => Done
{report bdd ... minimal-cut-sets ... 20}
mission-time 8760.000000000000 8760.000000000000
cut-off 0.000000000000
top-event F top
- 1 1.000000000000 1.000000000000 a
count 1
rare-event 1.000000000000 1.000000000000"#;
