//! Runs of shares.

/// Events of both signs, of subsets, of components, and left out; refused words and a refused model.
#[rattlefmt::skip]
pub const SHARES: &str = r#"
# two trains; a cutoff that leaves out all products of an event; words that are refused
@ two.xml
{two}
$ two.xml => Done
{head minimal-cut-sets ... 0.000000000000}
top-event TwoTrains TopEvent
event PumpOne 2 0.000600000000 0.000600000000
event ValveOne 2 0.000300000000 0.000300000000
event PumpTwo 2 0.000600000000 0.000600000000
event ValveTwo 2 0.000300000000 0.000300000000
count 4
rare-event 0.000900000000 0.000900000000
$ --rare-event --cut-off 0.0003 two.xml => Done
{head minimal-cut-sets ... 0.000300000000}
top-event TwoTrains TopEvent
event PumpOne 1 0.000400000000 0.000400000000
event PumpTwo 1 0.000400000000 0.000400000000
count 1
rare-event 0.000400000000 0.000400000000
$ --mcub two.xml => BadWords, no file opened
! scram: bad words
usage: scram_shares [options] FILE...
$ --validate two.xml => BadWords, no file opened
! scram: bad words
usage: scram_shares [options] FILE...
$ --node-limit 9 two.xml => BadWords, no file opened
! scram: bad words
usage: scram_shares [options] FILE...
$ one.xml => ReadFault
! scram: cannot read one.xml

# the sample opens nothing
$ --sample 3 => Done, no file opened
{head minimal-cut-sets ... 0.000000000000}
top-event sample top
{3 event a# 4 0.000002400000 0.000002400000
event b# 4 0.000000480000 0.000000480000
}count 12
rare-event 0.000004320000 0.000004320000

# no words
$  => BadWords, no file opened
! scram: bad words
usage: scram_shares [options] FILE...

# a gate that nothing defines
@ one.xml
<opsa-mef>
<define-fault-tree name="F">
<define-gate name="G1"><or><gate name="G2"/><basic-event name="a"/></or></define-gate>
</define-fault-tree>
</opsa-mef>
$ one.xml => BadModel
! scram: one.xml:3: undefined G2

# an event that occurs in one prime implicant and not in another
@ m.xml
<opsa-mef>
<define-fault-tree name="F">
<define-gate name="top"><xor><basic-event name="a"/><basic-event name="b"/></xor></define-gate>
<define-basic-event name="a"><float value="0.1"/></define-basic-event>
<define-basic-event name="b"><float value="0.2"/></define-basic-event>
</define-fault-tree>
</opsa-mef>
$ --prime-implicants m.xml => Done
{head prime-implicants ... 0.000000000000}
top-event F top
event a 2 0.260000000000 0.260000000000
event b 2 0.260000000000 0.260000000000
count 2
rare-event 0.260000000000 0.260000000000

# subsets of a common cause group
@ m.xml
<opsa-mef>
<define-fault-tree name="F">
<define-gate name="top"><and><basic-event name="A"/><basic-event name="B"/></and></define-gate>
</define-fault-tree>
<define-CCF-group name="G" model="beta-factor">
<members><basic-event name="A"/><basic-event name="B"/></members>
<distribution><float value="0.1"/></distribution>
<factor level="2"><float value="0.2"/></factor>
</define-CCF-group>
</opsa-mef>
$ --ccf m.xml => Done
{head minimal-cut-sets ... 0.000000000000}
top-event F top
event [A] 1 0.006400000000 0.006400000000
event [A B] 1 0.020000000000 0.020000000000
event [B] 1 0.006400000000 0.006400000000
count 2
rare-event 0.026400000000 0.026400000000

# private events of two components, by their paths
@ m.xml
<opsa-mef>
<define-fault-tree name="F">
<define-gate name="top"><or><gate name="F.P.g"/><gate name="F.Q.g"/></or></define-gate>
<define-component name="P" role="private">
<define-gate name="g"><and><basic-event name="x"/><basic-event name="s"/></and></define-gate>
<define-basic-event name="x"><float value="0.1"/></define-basic-event>
</define-component>
<define-component name="Q" role="private">
<define-gate name="g"><and><basic-event name="x"/><basic-event name="s"/></and></define-gate>
<define-basic-event name="x"><float value="0.2"/></define-basic-event>
</define-component>
<define-basic-event name="s"><float value="0.5"/></define-basic-event>
</define-fault-tree>
</opsa-mef>
$ m.xml => Done
{head minimal-cut-sets ... 0.000000000000}
top-event F top
event F.P.x 1 0.050000000000 0.050000000000
event s 2 0.150000000000 0.150000000000
event F.Q.x 1 0.100000000000 0.100000000000
count 2
rare-event 0.150000000000 0.150000000000"#;
