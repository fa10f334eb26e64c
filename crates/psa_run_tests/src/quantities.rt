//! Runs with quantities.

/// Totals and cutoffs.
#[rattlefmt::skip]
pub const TOTALS: &str = r#"
# both totals, none, and limits of the order and of the interval
@ real.xml
<?xml version="1.0" encoding="UTF-8"?>
<!-- two redundant trains -->
<opsa-mef name="plant">
  <define-fault-tree name="TwoTrains">
    <label>Loss of both trains</label>
    <define-gate name="TopEvent">
      <label>No flow</label>
      <and>
        <gate name="TrainOne"/>
        <gate name="TrainTwo"/>
      </and>
    </define-gate>
    <define-gate name="TrainOne">
      <or>
        <event name="PumpOne"/>
        <event name="ValveOne"/>
      </or>
    </define-gate>
    <define-gate name="TrainTwo">
      <or>
        <event name="PumpTwo"/>
        <event name="ValveTwo"/>
      </or>
    </define-gate>
  </define-fault-tree>
  <model-data>
    <define-parameter name="PumpProbability"><float value="2e-2"/></define-parameter>
    <define-basic-event name="PumpOne"><parameter name="PumpProbability"/></define-basic-event>
    <define-basic-event name="PumpTwo"><parameter name="PumpProbability"/></define-basic-event>
    <define-basic-event name="ValveOne">
      <attributes><attribute name="maker" value="A &amp; B"/></attributes>
      <float value="0.01"/>
    </define-basic-event>
    <define-basic-event name="ValveTwo"><float value="0.01"/></define-basic-event>
  </model-data>
</opsa-mef>
$ --mcub real.xml => Done
{report bdd ... minimal-cut-sets ... 20}
mission-time 8760.000000000000 8760.000000000000
cut-off 0.000000000000
top-event TwoTrains TopEvent
- 2 0.000400000000 0.000400000000 PumpOne PumpTwo
- 2 0.000200000000 0.000200000000 PumpOne ValveTwo
- 2 0.000200000000 0.000200000000 ValveOne PumpTwo
- 2 0.000100000000 0.000100000000 ValveOne ValveTwo
count 4
mcub 0.000899720035 0.000899720036
$ --rare-event real.xml => Done
{report bdd ... minimal-cut-sets ... 20}
mission-time 8760.000000000000 8760.000000000000
cut-off 0.000000000000
top-event TwoTrains TopEvent
- 2 0.000400000000 0.000400000000 PumpOne PumpTwo
- 2 0.000200000000 0.000200000000 PumpOne ValveTwo
- 2 0.000200000000 0.000200000000 ValveOne PumpTwo
- 2 0.000100000000 0.000100000000 ValveOne ValveTwo
count 4
rare-event 0.000900000000 0.000900000000
$ real.xml => Done
{report bdd ... minimal-cut-sets ... 20}
top-event TwoTrains TopEvent
- 2 PumpOne PumpTwo
- 2 PumpOne ValveTwo
- 2 ValveOne PumpTwo
- 2 ValveOne ValveTwo
count 4
$ --limit-order 1 --rare-event real.xml => Done
{report bdd ... minimal-cut-sets ... 1}
mission-time 8760.000000000000 8760.000000000000
cut-off 0.000000000000
top-event TwoTrains TopEvent
count 0
rare-event 0.000000000000 0.000000000000
$ --cut-off 0.0002 real.xml => Done
{report bdd ... minimal-cut-sets ... 20}
mission-time 8760.000000000000 8760.000000000000
cut-off 0.000200000000
top-event TwoTrains TopEvent
- 2 0.000400000000 0.000400000000 PumpOne PumpTwo
- 2 0.000200000000 0.000200000000 PumpOne ValveTwo
- 2 0.000200000000 0.000200000000 ValveOne PumpTwo
count 3
$ --cut-off 0.000200000001 real.xml => Done
{report bdd ... minimal-cut-sets ... 20}
mission-time 8760.000000000000 8760.000000000000
cut-off 0.000200000001
top-event TwoTrains TopEvent
- 2 0.000400000000 0.000400000000 PumpOne PumpTwo
count 1"#;

/// Values of one event.
#[rattlefmt::skip]
pub const EXPRESSIONS: &str = r#"
# below the least unit
@ m.xml
{event <float value="1e-20"/>}
$ --rare-event m.xml => Done
{report bdd ... minimal-cut-sets ... 20}
mission-time 8760.000000000000 8760.000000000000
cut-off 0.000000000000
top-event F top
- 1 0.000000000000 0.000000000001 a
count 1
rare-event 0.000000000000 0.000000000001

# a third three times
@ m.xml
{event <mul><div><int value="1"/><int value="3"/></div><int value="3"/></mul>}
$ --rare-event m.xml => Done
{report bdd ... minimal-cut-sets ... 20}
mission-time 8760.000000000000 8760.000000000000
cut-off 0.000000000000
top-event F top
- 1 0.999999999999 1.000000000000 a
count 1
rare-event 0.999999999999 1.000000000000

# a rate of 0
@ m.xml
{event <exponential><float value="0"/><system-mission-time/></exponential>}
$ --rare-event m.xml => Done
{report bdd ... minimal-cut-sets ... 20}
mission-time 8760.000000000000 8760.000000000000
cut-off 0.000000000000
top-event F top
- 1 0.000000000000 0.000000000000 a
count 1
rare-event 0.000000000000 0.000000000000

# a small rate, at the mission time and at none
@ m.xml
{event <exponential><float value="1e-6"/><system-mission-time/></exponential>}
$ --rare-event m.xml => Done
{report bdd ... minimal-cut-sets ... 20}
mission-time 8760.000000000000 8760.000000000000
cut-off 0.000000000000
top-event F top
- 1 0.008721742990 0.008721742995 a
count 1
rare-event 0.008721742990 0.008721742995
$ --rare-event --mission-time 0 m.xml => Done
{report bdd ... minimal-cut-sets ... 20}
mission-time 0.000000000000 0.000000000000
cut-off 0.000000000000
top-event F top
- 1 0.000000000000 0.000000000000 a
count 1
rare-event 0.000000000000 0.000000000000

# a rate of 1
@ m.xml
{event <exponential><int value="1"/><system-mission-time/></exponential>}
$ --rare-event m.xml => Done
{report bdd ... minimal-cut-sets ... 20}
mission-time 8760.000000000000 8760.000000000000
cut-off 0.000000000000
top-event F top
- 1 0.999999999999 1.000000000000 a
count 1
rare-event 0.999999999999 1.000000000000"#;

/// A common cause group, expanded and not.
#[rattlefmt::skip]
pub const GROUPS: &str = r#"
# multiple Greek letters
@ mgl.xml
{group MGL ... <factors><factor level="2"><float value="0.2"/></factor><factor level="3"><float value="0.5"/></factor></factors>}
$ --ccf --rare-event mgl.xml => Done
{report bdd ... minimal-cut-sets ... 20}
mission-time 8760.000000000000 8760.000000000000
cut-off 0.000000000000
top-event F top
- 1 0.010000000000 0.010000000000 [A B C]
- 2 0.000400000000 0.000400000000 [A] [B C]
- 2 0.000025000000 0.000025000000 [A B] [A C]
- 2 0.000025000000 0.000025000000 [A B] [B C]
- 2 0.000400000000 0.000400000000 [A B] [C]
- 2 0.000400000000 0.000400000000 [A C] [B]
- 2 0.000025000000 0.000025000000 [A C] [B C]
- 3 0.000512000000 0.000512000000 [A] [B] [C]
count 8
rare-event 0.011787000000 0.011787000000
$ --rare-event mgl.xml => Done
{report bdd ... minimal-cut-sets ... 20}
mission-time 8760.000000000000 8760.000000000000
cut-off 0.000000000000
top-event F top
- 3 0.001000000000 0.001000000000 A B C
count 1
rare-event 0.001000000000 0.001000000000

# a beta factor
@ mgl.xml
{group beta-factor ... <factor><float value="0.25"/></factor>}
$ --ccf --rare-event mgl.xml => Done
{report bdd ... minimal-cut-sets ... 20}
mission-time 8760.000000000000 8760.000000000000
cut-off 0.000000000000
top-event F top
- 1 0.025000000000 0.025000000000 [A B C]
- 3 0.000421875000 0.000421875000 [A] [B] [C]
count 2
rare-event 0.025421875000 0.025421875000

# alpha factors
@ mgl.xml
{group alpha-factor ... <factor level="1"><float value="0.5"/></factor><factor level="2"><float value="0.25"/></factor><factor level="3"><float value="0.25"/></factor>}
$ --ccf --rare-event mgl.xml => Done
{report bdd ... minimal-cut-sets ... 20}
mission-time 8760.000000000000 8760.000000000000
cut-off 0.000000000000
top-event F top
- 1 0.042857142857 0.042857142858 [A B C]
- 2 0.000408163265 0.000408163266 [A] [B C]
- 2 0.000204081632 0.000204081633 [A B] [A C]
- 2 0.000204081632 0.000204081633 [A B] [B C]
- 2 0.000408163265 0.000408163266 [A B] [C]
- 2 0.000408163265 0.000408163266 [A C] [B]
- 2 0.000204081632 0.000204081633 [A C] [B C]
- 3 0.000023323615 0.000023323616 [A] [B] [C]
count 8
rare-event 0.044717201163 0.044717201171"#;
