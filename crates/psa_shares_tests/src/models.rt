//! The head of a text of shares, and two trains.

/// Texts, each behind its name, on a line that begins with `= `. What a run puts in stands in the places `...`:
///
/// - `head`: the products and the cutoff;
/// - `two`: two trains, each of a pump and a valve.
#[rattlefmt::skip]
pub const MODELS: &str = r#"
= head
scram report
algorithm bdd
products ...
limit-order 20
mission-time 8760.000000000000 8760.000000000000
cut-off ...
= two
<opsa-mef>
<define-fault-tree name="TwoTrains">
<define-gate name="TopEvent"><and><gate name="TrainOne"/><gate name="TrainTwo"/></and></define-gate>
<define-gate name="TrainOne"><or><basic-event name="PumpOne"/><basic-event name="ValveOne"/></or></define-gate>
<define-gate name="TrainTwo"><or><basic-event name="PumpTwo"/><basic-event name="ValveTwo"/></or></define-gate>
<define-basic-event name="PumpOne"><float value="0.02"/></define-basic-event>
<define-basic-event name="ValveOne"><float value="0.01"/></define-basic-event>
<define-basic-event name="PumpTwo"><float value="0.02"/></define-basic-event>
<define-basic-event name="ValveTwo"><float value="0.01"/></define-basic-event>
</define-fault-tree>
</opsa-mef>"#;
