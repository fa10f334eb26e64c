//! The examples of the pages, made by docs/check.py from their blocks and from examples/.

/// Each command of the pages over the files of examples/ that it names, with its report.
#[rattlefmt::skip]
pub const EXAMPLES: &str = r#"
# README.md
@ examples/two.xml
<opsa-mef>
<define-fault-tree name="TwoTrains">
<define-gate name="TopEvent"><and><gate name="TrainOne"/><gate name="TrainTwo"/></and></define-gate>
<define-gate name="TrainOne"><or><basic-event name="PumpOne"/><basic-event name="ValveOne"/></or></define-gate>
<define-gate name="TrainTwo"><or><basic-event name="PumpTwo"/><basic-event name="ValveTwo"/></or></define-gate>
<define-basic-event name="PumpOne"/>
<define-basic-event name="ValveOne"/>
<define-basic-event name="PumpTwo"/>
<define-basic-event name="ValveTwo"/>
</define-fault-tree>
</opsa-mef>
$ examples/two.xml => Done
scram report
algorithm bdd
products minimal-cut-sets
limit-order 20
top-event TwoTrains TopEvent
- 2 PumpOne PumpTwo
- 2 PumpOne ValveTwo
- 2 ValveOne PumpTwo
- 2 ValveOne ValveTwo
count 4

# README.md
@ examples/real.xml
<?xml version="1.0" encoding="UTF-8"?>
<!-- two redundant trains -->
<opsa-mef name="plant">
  <define-fault-tree name="TwoTrains">
    <label>Loss of both trains</label>
    <define-gate name="TopEvent">
      <label>No flow</label>
      <and>
        <gate name="TrainOne"/>
        <gate name="TrainTwo"/>
      </and>
    </define-gate>
    <define-gate name="TrainOne">
      <or>
        <event name="PumpOne"/>
        <event name="ValveOne"/>
      </or>
    </define-gate>
    <define-gate name="TrainTwo">
      <or>
        <event name="PumpTwo"/>
        <event name="ValveTwo"/>
      </or>
    </define-gate>
  </define-fault-tree>
  <model-data>
    <define-parameter name="PumpProbability"><float value="2e-2"/></define-parameter>
    <define-basic-event name="PumpOne"><parameter name="PumpProbability"/></define-basic-event>
    <define-basic-event name="PumpTwo"><parameter name="PumpProbability"/></define-basic-event>
    <define-basic-event name="ValveOne">
      <attributes><attribute name="maker" value="A &amp; B"/></attributes>
      <float value="0.01"/>
    </define-basic-event>
    <define-basic-event name="ValveTwo"><float value="0.01"/></define-basic-event>
  </model-data>
</opsa-mef>
$ --mcub examples/real.xml => Done
scram report
algorithm bdd
products minimal-cut-sets
limit-order 20
mission-time 8760.000000000000 8760.000000000000
cut-off 0.000000000000
top-event TwoTrains TopEvent
- 2 0.000400000000 0.000400000000 PumpOne PumpTwo
- 2 0.000200000000 0.000200000000 PumpOne ValveTwo
- 2 0.000200000000 0.000200000000 ValveOne PumpTwo
- 2 0.000100000000 0.000100000000 ValveOne ValveTwo
count 4
mcub 0.000899720035 0.000899720036

# docs/report.md
@ examples/components.xml
<opsa-mef>
<define-fault-tree name="Cooling">
<define-gate name="Loss"><and><gate name="Cooling.North.Fails"/><gate name="Cooling.South.Fails"/></and></define-gate>
<define-component name="North" role="private">
<define-gate name="Fails"><or><basic-event name="Pump"/><basic-event name="Power"/></or></define-gate>
<define-basic-event name="Pump"><float value="0.01"/></define-basic-event>
</define-component>
<define-component name="South" role="private">
<define-gate name="Fails"><or><basic-event name="Pump"/><basic-event name="Power"/></or></define-gate>
<define-basic-event name="Pump"><float value="0.02"/></define-basic-event>
</define-component>
<define-basic-event name="Power"><float value="0.001"/></define-basic-event>
</define-fault-tree>
</opsa-mef>
$ --rare-event examples/components.xml => Done
scram report
algorithm bdd
products minimal-cut-sets
limit-order 20
mission-time 8760.000000000000 8760.000000000000
cut-off 0.000000000000
top-event Cooling Loss
- 1 0.001000000000 0.001000000000 Power
- 2 0.000200000000 0.000200000000 Cooling.North.Pump Cooling.South.Pump
count 2
rare-event 0.001200000000 0.001200000000

# docs/report.md
@ examples/vote.xml
<opsa-mef>
<define-fault-tree name="Protection">
<define-gate name="TripLost"><atleast min="2"><basic-event name="A"/><basic-event name="B"/><basic-event name="C"/></atleast></define-gate>
<define-gate name="Degraded"><cardinality min="1" max="2"><basic-event name="A"/><basic-event name="B"/><basic-event name="C"/></cardinality></define-gate>
</define-fault-tree>
<model-data>
<define-basic-event name="A"/>
<define-basic-event name="B"/>
<define-basic-event name="C"/>
</model-data>
</opsa-mef>
$ examples/vote.xml => Done
scram report
algorithm bdd
products minimal-cut-sets
limit-order 20
top-event Protection TripLost
- 2 A B
- 2 A C
- 2 B C
count 3
top-event Protection Degraded
- 1 A
- 1 B
- 1 C
count 3

# docs/report.md
@ examples/switch.xml
<opsa-mef>
<define-fault-tree name="Transfer">
<define-gate name="NoPower"><or>
<and><basic-event name="Switched"/><basic-event name="Reserve"/></and>
<and><not><basic-event name="Switched"/></not><basic-event name="Main"/></and>
</or></define-gate>
</define-fault-tree>
<model-data>
<define-basic-event name="Switched"/>
<define-basic-event name="Reserve"/>
<define-basic-event name="Main"/>
</model-data>
</opsa-mef>
$ examples/switch.xml => Done
scram report
algorithm bdd
products minimal-cut-sets
limit-order 20
top-event Transfer NoPower
- 1 Main
- 2 Switched Reserve
count 2

# docs/report.md
@ examples/switch.xml
<opsa-mef>
<define-fault-tree name="Transfer">
<define-gate name="NoPower"><or>
<and><basic-event name="Switched"/><basic-event name="Reserve"/></and>
<and><not><basic-event name="Switched"/></not><basic-event name="Main"/></and>
</or></define-gate>
</define-fault-tree>
<model-data>
<define-basic-event name="Switched"/>
<define-basic-event name="Reserve"/>
<define-basic-event name="Main"/>
</model-data>
</opsa-mef>
$ --prime-implicants examples/switch.xml => Done
scram report
algorithm bdd
products prime-implicants
limit-order 20
top-event Transfer NoPower
- 2 Switched Reserve
- 2 ~Switched Main
- 2 Reserve Main
count 3

# docs/report.md
@ examples/exponential.xml
<opsa-mef>
<define-fault-tree name="Station">
<define-gate name="Blackout"><and><basic-event name="DieselA"/><basic-event name="DieselB"/></and></define-gate>
<define-basic-event name="DieselA"><exponential><parameter name="Rate"/><system-mission-time/></exponential></define-basic-event>
<define-basic-event name="DieselB"><exponential><parameter name="Rate"/><float value="24"/></exponential></define-basic-event>
<define-parameter name="Rate"><float value="1e-3"/></define-parameter>
</define-fault-tree>
</opsa-mef>
$ --mission-time 100 --rare-event examples/exponential.xml => Done
scram report
algorithm bdd
products minimal-cut-sets
limit-order 20
mission-time 100.000000000000 100.000000000000
cut-off 0.000000000000
top-event Station Blackout
- 2 0.002256713088 0.002256713090 DieselA DieselB
count 1
rare-event 0.002256713088 0.002256713090

# docs/report.md
@ examples/real.xml
<?xml version="1.0" encoding="UTF-8"?>
<!-- two redundant trains -->
<opsa-mef name="plant">
  <define-fault-tree name="TwoTrains">
    <label>Loss of both trains</label>
    <define-gate name="TopEvent">
      <label>No flow</label>
      <and>
        <gate name="TrainOne"/>
        <gate name="TrainTwo"/>
      </and>
    </define-gate>
    <define-gate name="TrainOne">
      <or>
        <event name="PumpOne"/>
        <event name="ValveOne"/>
      </or>
    </define-gate>
    <define-gate name="TrainTwo">
      <or>
        <event name="PumpTwo"/>
        <event name="ValveTwo"/>
      </or>
    </define-gate>
  </define-fault-tree>
  <model-data>
    <define-parameter name="PumpProbability"><float value="2e-2"/></define-parameter>
    <define-basic-event name="PumpOne"><parameter name="PumpProbability"/></define-basic-event>
    <define-basic-event name="PumpTwo"><parameter name="PumpProbability"/></define-basic-event>
    <define-basic-event name="ValveOne">
      <attributes><attribute name="maker" value="A &amp; B"/></attributes>
      <float value="0.01"/>
    </define-basic-event>
    <define-basic-event name="ValveTwo"><float value="0.01"/></define-basic-event>
  </model-data>
</opsa-mef>
$ --cut-off 0.0002 examples/real.xml => Done
scram report
algorithm bdd
products minimal-cut-sets
limit-order 20
mission-time 8760.000000000000 8760.000000000000
cut-off 0.000200000000
top-event TwoTrains TopEvent
- 2 0.000400000000 0.000400000000 PumpOne PumpTwo
- 2 0.000200000000 0.000200000000 PumpOne ValveTwo
- 2 0.000200000000 0.000200000000 ValveOne PumpTwo
count 3

# docs/report.md
@ examples/logic.xml
<opsa-mef>
<define-fault-tree name="Lamp">
<define-gate name="Dark"><or><basic-event name="Bulb"/><gate name="NoCurrent"/></or></define-gate>
<define-gate name="NoCurrent"><and><basic-event name="Grid"/><basic-event name="Battery"/></and></define-gate>
</define-fault-tree>
</opsa-mef>
@ examples/data.xml
<opsa-mef>
<model-data>
<define-basic-event name="Bulb"><float value="1e-4"/></define-basic-event>
<define-basic-event name="Grid"><float value="1e-2"/></define-basic-event>
<define-basic-event name="Battery"><float value="5e-2"/></define-basic-event>
</model-data>
</opsa-mef>
$ --mcub examples/logic.xml examples/data.xml => Done
scram report
algorithm bdd
products minimal-cut-sets
limit-order 20
mission-time 8760.000000000000 8760.000000000000
cut-off 0.000000000000
top-event Lamp Dark
- 1 0.000100000000 0.000100000000 Bulb
- 2 0.000500000000 0.000500000000 Grid Battery
count 2
mcub 0.000599950000 0.000599950000

# docs/report.md
@ examples/order.xml
<opsa-mef>
<define-fault-tree name="Rods">
<define-gate name="AllStuck"><and>
<basic-event name="Rod01"/><basic-event name="Rod02"/><basic-event name="Rod03"/><basic-event name="Rod04"/><basic-event name="Rod05"/><basic-event name="Rod06"/><basic-event name="Rod07"/>
<basic-event name="Rod08"/><basic-event name="Rod09"/><basic-event name="Rod10"/><basic-event name="Rod11"/><basic-event name="Rod12"/><basic-event name="Rod13"/><basic-event name="Rod14"/>
<basic-event name="Rod15"/><basic-event name="Rod16"/><basic-event name="Rod17"/><basic-event name="Rod18"/><basic-event name="Rod19"/><basic-event name="Rod20"/><basic-event name="Rod21"/>
</and></define-gate>
</define-fault-tree>
<model-data>
<define-basic-event name="Rod01"/><define-basic-event name="Rod02"/><define-basic-event name="Rod03"/><define-basic-event name="Rod04"/><define-basic-event name="Rod05"/><define-basic-event name="Rod06"/><define-basic-event name="Rod07"/>
<define-basic-event name="Rod08"/><define-basic-event name="Rod09"/><define-basic-event name="Rod10"/><define-basic-event name="Rod11"/><define-basic-event name="Rod12"/><define-basic-event name="Rod13"/><define-basic-event name="Rod14"/>
<define-basic-event name="Rod15"/><define-basic-event name="Rod16"/><define-basic-event name="Rod17"/><define-basic-event name="Rod18"/><define-basic-event name="Rod19"/><define-basic-event name="Rod20"/><define-basic-event name="Rod21"/>
</model-data>
</opsa-mef>
$ examples/order.xml => Done
scram report
algorithm bdd
products minimal-cut-sets
limit-order 20
top-event Rods AllStuck
count 0

# docs/report.md
@ examples/order.xml
<opsa-mef>
<define-fault-tree name="Rods">
<define-gate name="AllStuck"><and>
<basic-event name="Rod01"/><basic-event name="Rod02"/><basic-event name="Rod03"/><basic-event name="Rod04"/><basic-event name="Rod05"/><basic-event name="Rod06"/><basic-event name="Rod07"/>
<basic-event name="Rod08"/><basic-event name="Rod09"/><basic-event name="Rod10"/><basic-event name="Rod11"/><basic-event name="Rod12"/><basic-event name="Rod13"/><basic-event name="Rod14"/>
<basic-event name="Rod15"/><basic-event name="Rod16"/><basic-event name="Rod17"/><basic-event name="Rod18"/><basic-event name="Rod19"/><basic-event name="Rod20"/><basic-event name="Rod21"/>
</and></define-gate>
</define-fault-tree>
<model-data>
<define-basic-event name="Rod01"/><define-basic-event name="Rod02"/><define-basic-event name="Rod03"/><define-basic-event name="Rod04"/><define-basic-event name="Rod05"/><define-basic-event name="Rod06"/><define-basic-event name="Rod07"/>
<define-basic-event name="Rod08"/><define-basic-event name="Rod09"/><define-basic-event name="Rod10"/><define-basic-event name="Rod11"/><define-basic-event name="Rod12"/><define-basic-event name="Rod13"/><define-basic-event name="Rod14"/>
<define-basic-event name="Rod15"/><define-basic-event name="Rod16"/><define-basic-event name="Rod17"/><define-basic-event name="Rod18"/><define-basic-event name="Rod19"/><define-basic-event name="Rod20"/><define-basic-event name="Rod21"/>
</model-data>
</opsa-mef>
$ -l 21 examples/order.xml => Done
scram report
algorithm bdd
products minimal-cut-sets
limit-order 21
top-event Rods AllStuck
- 21 Rod01 Rod02 Rod03 Rod04 Rod05 Rod06 Rod07 Rod08 Rod09 Rod10 Rod11 Rod12 Rod13 Rod14 Rod15 Rod16 Rod17 Rod18 Rod19 Rod20 Rod21
count 1

# docs/report.md
@ examples/beta.xml
<opsa-mef>
<define-fault-tree name="F">
<define-gate name="top"><and><basic-event name="A"/><basic-event name="B"/><basic-event name="C"/></and></define-gate>
<define-CCF-group name="G" model="beta-factor">
<members><basic-event name="A"/><basic-event name="B"/><basic-event name="C"/></members>
<distribution><float value="0.1"/></distribution>
<factors><factor level="3"><float value="0.2"/></factor></factors>
</define-CCF-group>
</define-fault-tree>
</opsa-mef>
$ --ccf --rare-event examples/beta.xml => Done
scram report
algorithm bdd
products minimal-cut-sets
limit-order 20
mission-time 8760.000000000000 8760.000000000000
cut-off 0.000000000000
top-event F top
- 1 0.020000000000 0.020000000000 [A B C]
- 3 0.000512000000 0.000512000000 [A] [B] [C]
count 2
rare-event 0.020512000000 0.020512000000

# docs/report.md
@ examples/mgl.xml
<opsa-mef>
<define-fault-tree name="F">
<define-gate name="top"><and><basic-event name="A"/><basic-event name="B"/><basic-event name="C"/></and></define-gate>
<define-CCF-group name="G" model="MGL">
<members><basic-event name="A"/><basic-event name="B"/><basic-event name="C"/></members>
<distribution><float value="0.1"/></distribution>
<factors><factor level="2"><float value="0.2"/></factor><factor level="3"><float value="0.5"/></factor></factors>
</define-CCF-group>
</define-fault-tree>
</opsa-mef>
$ --ccf --rare-event examples/mgl.xml => Done
scram report
algorithm bdd
products minimal-cut-sets
limit-order 20
mission-time 8760.000000000000 8760.000000000000
cut-off 0.000000000000
top-event F top
- 1 0.010000000000 0.010000000000 [A B C]
- 2 0.000400000000 0.000400000000 [A] [B C]
- 2 0.000025000000 0.000025000000 [A B] [A C]
- 2 0.000025000000 0.000025000000 [A B] [B C]
- 2 0.000400000000 0.000400000000 [A B] [C]
- 2 0.000400000000 0.000400000000 [A C] [B]
- 2 0.000025000000 0.000025000000 [A C] [B C]
- 3 0.000512000000 0.000512000000 [A] [B] [C]
count 8
rare-event 0.011787000000 0.011787000000

# docs/report.md
@ examples/alpha.xml
<opsa-mef>
<define-fault-tree name="F">
<define-gate name="top"><and><basic-event name="A"/><basic-event name="B"/><basic-event name="C"/></and></define-gate>
<define-CCF-group name="G" model="alpha-factor">
<members><basic-event name="A"/><basic-event name="B"/><basic-event name="C"/></members>
<distribution><float value="0.1"/></distribution>
<factors><factor level="1"><float value="0.7"/></factor><factor level="2"><float value="0.2"/></factor><factor level="3"><float value="0.1"/></factor></factors>
</define-CCF-group>
</define-fault-tree>
</opsa-mef>
$ --ccf --rare-event examples/alpha.xml => Done
scram report
algorithm bdd
products minimal-cut-sets
limit-order 20
mission-time 8760.000000000000 8760.000000000000
cut-off 0.000000000000
top-event F top
- 1 0.021428571428 0.021428571429 [A B C]
- 2 0.000714285714 0.000714285715 [A] [B C]
- 2 0.000204081632 0.000204081633 [A B] [A C]
- 2 0.000204081632 0.000204081633 [A B] [B C]
- 2 0.000714285714 0.000714285715 [A B] [C]
- 2 0.000714285714 0.000714285715 [A C] [B]
- 2 0.000204081632 0.000204081633 [A C] [B C]
- 3 0.000125000000 0.000125000000 [A] [B] [C]
count 8
rare-event 0.024308673466 0.024308673473

# docs/report.md
@ examples/tree.xml
<opsa-mef>
<define-initiating-event name="I" event-tree="E1"/>
<define-event-tree name="E1">
<define-functional-event name="FA"/>
<define-functional-event name="FB"/>
<define-sequence name="OK"/>
<define-sequence name="BAD"/>
<define-sequence name="GO"><event-tree name="E2"/></define-sequence>
<initial-state>
<fork functional-event="FA">
<path state="works"><collect-formula><not><gate name="GA"/></not></collect-formula><sequence name="OK"/></path>
<path state="fails"><collect-formula><gate name="GA"/></collect-formula>
<fork functional-event="FB">
<path state="works"><set-house-event name="H"><constant value="true"/></set-house-event><collect-formula><gate name="GB"/></collect-formula><sequence name="BAD"/></path>
<path state="stuck"><collect-formula><basic-event name="c"/></collect-formula><sequence name="BAD"/></path>
<path state="fails"><sequence name="GO"/></path>
</fork>
</path>
</fork>
</initial-state>
</define-event-tree>
<define-event-tree name="E2">
<define-sequence name="END"/>
<initial-state><set-house-event name="H"><constant value="true"/></set-house-event><collect-formula><gate name="GB"/></collect-formula><sequence name="END"/></initial-state>
</define-event-tree>
<define-fault-tree name="F">
<define-gate name="GA"><or><basic-event name="a"/><and><basic-event name="d"/><house-event name="H"/></and></or></define-gate>
<define-gate name="GB"><and><basic-event name="b"/><house-event name="H"/></and></define-gate>
<define-basic-event name="a"/>
<define-basic-event name="b"/>
<define-basic-event name="c"/>
<define-basic-event name="d"/>
<define-house-event name="H"/>
</define-fault-tree>
</opsa-mef>
$ examples/tree.xml => Done
scram report
algorithm bdd
products minimal-cut-sets
limit-order 20
top-event F GA
- 1 a
count 1
top-event F GB
count 0
sequence I E1 OK
- 0 unity
count 1
sequence I E1 BAD
- 2 a b
- 2 a c
count 2
sequence I E2 END
- 2 a b
count 1

# docs/report.md
@ examples/rule.xml
<opsa-mef>
<define-initiating-event name="Flood" event-tree="Plant"/>
<define-initiating-event name="Fire" event-tree="Plant"/>
<define-rule name="PumpNeeded">
<if><test-initiating-event name="Flood"/>
<collect-formula><or><gate name="Pump"/><basic-event name="Intake"/></or></collect-formula>
<collect-formula><gate name="Pump"/></collect-formula></if>
</define-rule>
<define-event-tree name="Plant">
<define-functional-event name="Cooling"/>
<define-sequence name="Safe"/>
<define-sequence name="Damage"/>
<initial-state><fork functional-event="Cooling">
<path state="works"><sequence name="Safe"/></path>
<path state="fails"><rule name="PumpNeeded"/><sequence name="Damage"/></path>
</fork></initial-state>
</define-event-tree>
<define-fault-tree name="Systems"><define-gate name="Pump"><basic-event name="Motor"/></define-gate></define-fault-tree>
<model-data><define-basic-event name="Motor"/><define-basic-event name="Intake"/></model-data>
</opsa-mef>
$ examples/rule.xml => Done
scram report
algorithm bdd
products minimal-cut-sets
limit-order 20
top-event Systems Pump
- 1 Motor
count 1
sequence Flood Plant Safe
- 0 unity
count 1
sequence Flood Plant Damage
- 1 Motor
- 1 Intake
count 2
sequence Fire Plant Safe
- 0 unity
count 1
sequence Fire Plant Damage
- 1 Motor
count 1

# docs/tutorial.md
@ examples/plant.xml
<?xml version="1.0" encoding="UTF-8"?>
<opsa-mef name="cooling">
  <define-fault-tree name="Cooling">
    <define-gate name="NoFlow"><and><gate name="TrainA"/><gate name="TrainB"/></and></define-gate>
    <define-gate name="TrainA"><or><basic-event name="PumpA"/><basic-event name="ValveA"/><gate name="NoPower"/></or></define-gate>
    <define-gate name="TrainB"><or><basic-event name="PumpB"/><basic-event name="ValveB"/><gate name="NoPower"/></or></define-gate>
    <define-gate name="NoPower"><and><basic-event name="Grid"/><or><basic-event name="Diesel"/><house-event name="DieselInRepair"/></or></and></define-gate>
    <define-CCF-group name="Pumps" model="beta-factor">
      <members><basic-event name="PumpA"/><basic-event name="PumpB"/></members>
      <distribution><exponential><float value="1e-5"/><system-mission-time/></exponential></distribution>
      <factor><float value="0.1"/></factor>
    </define-CCF-group>
  </define-fault-tree>
  <model-data>
    <define-house-event name="DieselInRepair"><constant value="false"/></define-house-event>
    <define-basic-event name="ValveA"><float value="1e-3"/></define-basic-event>
    <define-basic-event name="ValveB"><float value="1e-3"/></define-basic-event>
    <define-basic-event name="Grid"><float value="2e-2"/></define-basic-event>
    <define-basic-event name="Diesel"><float value="5e-2"/></define-basic-event>
  </model-data>
</opsa-mef>
$ examples/plant.xml => Done
scram report
algorithm bdd
products minimal-cut-sets
limit-order 20
top-event Cooling NoFlow
- 2 PumpA PumpB
- 2 PumpA ValveB
- 2 ValveA PumpB
- 2 ValveA ValveB
- 2 Grid Diesel
count 5

# docs/tutorial.md
@ examples/plant.xml
<?xml version="1.0" encoding="UTF-8"?>
<opsa-mef name="cooling">
  <define-fault-tree name="Cooling">
    <define-gate name="NoFlow"><and><gate name="TrainA"/><gate name="TrainB"/></and></define-gate>
    <define-gate name="TrainA"><or><basic-event name="PumpA"/><basic-event name="ValveA"/><gate name="NoPower"/></or></define-gate>
    <define-gate name="TrainB"><or><basic-event name="PumpB"/><basic-event name="ValveB"/><gate name="NoPower"/></or></define-gate>
    <define-gate name="NoPower"><and><basic-event name="Grid"/><or><basic-event name="Diesel"/><house-event name="DieselInRepair"/></or></and></define-gate>
    <define-CCF-group name="Pumps" model="beta-factor">
      <members><basic-event name="PumpA"/><basic-event name="PumpB"/></members>
      <distribution><exponential><float value="1e-5"/><system-mission-time/></exponential></distribution>
      <factor><float value="0.1"/></factor>
    </define-CCF-group>
  </define-fault-tree>
  <model-data>
    <define-house-event name="DieselInRepair"><constant value="false"/></define-house-event>
    <define-basic-event name="ValveA"><float value="1e-3"/></define-basic-event>
    <define-basic-event name="ValveB"><float value="1e-3"/></define-basic-event>
    <define-basic-event name="Grid"><float value="2e-2"/></define-basic-event>
    <define-basic-event name="Diesel"><float value="5e-2"/></define-basic-event>
  </model-data>
</opsa-mef>
$ --mcub examples/plant.xml => Done
scram report
algorithm bdd
products minimal-cut-sets
limit-order 20
mission-time 8760.000000000000 8760.000000000000
cut-off 0.000000000000
top-event Cooling NoFlow
- 2 0.007034637463 0.007034637465 PumpA PumpB
- 2 0.000083872745 0.000083872746 PumpA ValveB
- 2 0.000083872745 0.000083872746 ValveA PumpB
- 2 0.000001000000 0.000001000000 ValveA ValveB
- 2 0.001000000000 0.001000000000 Grid Diesel
count 5
mcub 0.008194986547 0.008194986555

# docs/tutorial.md
@ examples/plant.xml
<?xml version="1.0" encoding="UTF-8"?>
<opsa-mef name="cooling">
  <define-fault-tree name="Cooling">
    <define-gate name="NoFlow"><and><gate name="TrainA"/><gate name="TrainB"/></and></define-gate>
    <define-gate name="TrainA"><or><basic-event name="PumpA"/><basic-event name="ValveA"/><gate name="NoPower"/></or></define-gate>
    <define-gate name="TrainB"><or><basic-event name="PumpB"/><basic-event name="ValveB"/><gate name="NoPower"/></or></define-gate>
    <define-gate name="NoPower"><and><basic-event name="Grid"/><or><basic-event name="Diesel"/><house-event name="DieselInRepair"/></or></and></define-gate>
    <define-CCF-group name="Pumps" model="beta-factor">
      <members><basic-event name="PumpA"/><basic-event name="PumpB"/></members>
      <distribution><exponential><float value="1e-5"/><system-mission-time/></exponential></distribution>
      <factor><float value="0.1"/></factor>
    </define-CCF-group>
  </define-fault-tree>
  <model-data>
    <define-house-event name="DieselInRepair"><constant value="false"/></define-house-event>
    <define-basic-event name="ValveA"><float value="1e-3"/></define-basic-event>
    <define-basic-event name="ValveB"><float value="1e-3"/></define-basic-event>
    <define-basic-event name="Grid"><float value="2e-2"/></define-basic-event>
    <define-basic-event name="Diesel"><float value="5e-2"/></define-basic-event>
  </model-data>
</opsa-mef>
$ --ccf --mcub examples/plant.xml => Done
scram report
algorithm bdd
products minimal-cut-sets
limit-order 20
mission-time 8760.000000000000 8760.000000000000
cut-off 0.000000000000
top-event Cooling NoFlow
- 1 0.008387274565 0.008387274566 [PumpA PumpB]
- 2 0.005698056345 0.005698056347 [PumpA] [PumpB]
- 2 0.000075485471 0.000075485472 [PumpA] ValveB
- 2 0.000075485471 0.000075485472 ValveA [PumpB]
- 2 0.000001000000 0.000001000000 ValveA ValveB
- 2 0.001000000000 0.001000000000 Grid Diesel
count 6
mcub 0.015173184249 0.015173184259

# docs/tutorial.md
@ examples/plant.xml
<?xml version="1.0" encoding="UTF-8"?>
<opsa-mef name="cooling">
  <define-fault-tree name="Cooling">
    <define-gate name="NoFlow"><and><gate name="TrainA"/><gate name="TrainB"/></and></define-gate>
    <define-gate name="TrainA"><or><basic-event name="PumpA"/><basic-event name="ValveA"/><gate name="NoPower"/></or></define-gate>
    <define-gate name="TrainB"><or><basic-event name="PumpB"/><basic-event name="ValveB"/><gate name="NoPower"/></or></define-gate>
    <define-gate name="NoPower"><and><basic-event name="Grid"/><or><basic-event name="Diesel"/><house-event name="DieselInRepair"/></or></and></define-gate>
    <define-CCF-group name="Pumps" model="beta-factor">
      <members><basic-event name="PumpA"/><basic-event name="PumpB"/></members>
      <distribution><exponential><float value="1e-5"/><system-mission-time/></exponential></distribution>
      <factor><float value="0.1"/></factor>
    </define-CCF-group>
  </define-fault-tree>
  <model-data>
    <define-house-event name="DieselInRepair"><constant value="false"/></define-house-event>
    <define-basic-event name="ValveA"><float value="1e-3"/></define-basic-event>
    <define-basic-event name="ValveB"><float value="1e-3"/></define-basic-event>
    <define-basic-event name="Grid"><float value="2e-2"/></define-basic-event>
    <define-basic-event name="Diesel"><float value="5e-2"/></define-basic-event>
  </model-data>
</opsa-mef>
$ -l 1 --ccf examples/plant.xml => Done
scram report
algorithm bdd
products minimal-cut-sets
limit-order 1
top-event Cooling NoFlow
- 1 [PumpA PumpB]
count 1"#;
