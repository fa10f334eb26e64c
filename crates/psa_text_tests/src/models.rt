//! Models, and the outlines of their trees.

/// Texts, each with its tree behind a line `=>`.
pub const MODELS: [&str; 4] = [
    "<opsa-mef/>
=>
opsa-mef@1{}",
    "<opsa-mef>
<define-fault-tree name=\"TwoTrains\">
<define-gate name=\"TopEvent\"><and><gate name=\"TrainOne\"/><gate name=\"TrainTwo\"/></and></define-gate>
<define-gate name=\"TrainOne\"><or><basic-event name=\"PumpOne\"/><basic-event name=\"ValveOne\"/></or></define-gate>
<define-gate name=\"TrainTwo\"><or><basic-event name=\"PumpTwo\"/><basic-event name=\"ValveTwo\"/></or></define-gate>
<define-basic-event name=\"PumpOne\"/>
<define-basic-event name=\"ValveOne\"/>
<define-basic-event name=\"PumpTwo\"/>
<define-basic-event name=\"ValveTwo\"/>
</define-fault-tree>
</opsa-mef>

=>
opsa-mef@1{define-fault-tree@2 name=TwoTrains{define-gate@3 name=TopEvent{and@3{\
gate@3 name=TrainOne{}gate@3 name=TrainTwo{}}}define-gate@4 name=TrainOne{or@4{\
basic-event@4 name=PumpOne{}basic-event@4 name=ValveOne{}}}define-gate@5 \
name=TrainTwo{or@5{basic-event@5 name=PumpTwo{}basic-event@5 name=ValveTwo{}}}\
define-basic-event@6 name=PumpOne{}define-basic-event@7 name=ValveOne{}\
define-basic-event@8 name=PumpTwo{}define-basic-event@9 name=ValveTwo{}}}",
    "<opsa-mef>
<define-fault-tree name=\"F\">
<define-gate name=\"g1\"><basic-event name=\"a\"/></define-gate>
<define-gate name=\"g2\"><and><basic-event name=\"a\"/><basic-event name=\"b\"/><basic-event name=\"c\"/><basic-event name=\"d\"/></and></define-gate>
<define-basic-event name=\"a\"/>
<define-basic-event name=\"b\"/>
<define-basic-event name=\"c\"/>
<define-basic-event name=\"d\"/>
</define-fault-tree>
</opsa-mef>

=>
opsa-mef@1{define-fault-tree@2 name=F{define-gate@3 name=g1{basic-event@3 \
name=a{}}define-gate@4 name=g2{and@4{basic-event@4 name=a{}basic-event@4 name=b{}\
basic-event@4 name=c{}basic-event@4 name=d{}}}define-basic-event@5 name=a{}\
define-basic-event@6 name=b{}define-basic-event@7 name=c{}define-basic-event@8 \
name=d{}}}",
    "\u{FEFF}<?xml version=\"1.0\"?>
<!DOCTYPE opsa-mef>
<!-- two trains -- <not> a tag -->
<opsa-mef name='two' >
 <label>Any text > with / and 'quotes'</label>
 <define-gate name=\"a&lt;b&#x41;&amp;&#9;\tc  \"><and ><gate name=\"\u{E9}\"/></and></define-gate>
</opsa-mef>
<!-- end -- ->
--->
=>
opsa-mef@4 name=two{label@5{}define-gate@6 name=a<bA&\t c{and@6{gate@6 name=\u{E9}{}}}}",
];
