//! The drafts of worked models. Each draft was worked out from the format's description, by hand or by a
//! program of its own, and not by this reader.

/// A model, `=>`, and its draft.
#[rattlefmt::skip]
pub const DRAFTS: [&str; 12] = [TWO, SEVEN, REAL, MGL, TREE, COMPONENTS, CONDITIONS, FORMULAS, VALUES, SCOPES, EVENTS, THREE];

const TWO: &str = "<opsa-mef>
<define-fault-tree name=\"TwoTrains\">
<define-gate name=\"TopEvent\"><and><gate name=\"TrainOne\"/><gate name=\"TrainTwo\"/></and></define-gate>
<define-gate name=\"TrainOne\"><or><basic-event name=\"PumpOne\"/><basic-event name=\"ValveOne\"/></or></define-gate>
<define-gate name=\"TrainTwo\"><or><basic-event name=\"PumpTwo\"/><basic-event name=\"ValveTwo\"/></or></define-gate>
<define-basic-event name=\"PumpOne\"/>
<define-basic-event name=\"ValveOne\"/>
<define-basic-event name=\"PumpTwo\"/>
<define-basic-event name=\"ValveTwo\"/>
</define-fault-tree>
</opsa-mef>
=>
0:2#1 fault-tree TwoTrains
0:3#2 gate TopEvent in TwoTrains formula (and 0-0 (gate TrainOne@0:3#4) (gate TrainTwo@0:3#5))
0:4#6 gate TrainOne in TwoTrains formula (or 0-0 (basic PumpOne@0:4#8) (basic ValveOne@0:4#9))
0:5#10 gate TrainTwo in TwoTrains formula (or 0-0 (basic PumpTwo@0:5#12) (basic ValveTwo@0:5#13))
0:6#14 basic-event PumpOne in TwoTrains no value
0:7#15 basic-event ValveOne in TwoTrains no value
0:8#16 basic-event PumpTwo in TwoTrains no value
0:9#17 basic-event ValveTwo in TwoTrains no value
";

/// Seven files.
const SEVEN: &str = "<opsa-mef>
<define-fault-tree name=\"F\">
<define-gate name=\"G1\"><or><gate name=\"G2\"/><basic-event name=\"a\"/></or></define-gate>
<define-basic-event name=\"a\"/>
</define-fault-tree>
</opsa-mef>^<opsa-mef>
<define-fault-tree name=\"H\">
<define-gate name=\"G2\"><gate name=\"G9\"/></define-gate>
</define-fault-tree>
</opsa-mef>^<opsa-mef>
<define-fault-tree name=\"H\">
<define-gate name=\"a\"><constant value=\"true\"/></define-gate>
</define-fault-tree>
</opsa-mef>^<opsa-mef>
<define-fault-tree name=\"H\">
<define-gate name=\"G2\"><gate name=\"G1\"/></define-gate>
</define-fault-tree>
</opsa-mef>^<opsa-mef>
<define-fault-tree name=\"H\">
<define-house-event name=\"G2\"/>
</define-fault-tree>
</opsa-mef>^<opsa-mef>
<define-CCF-group name=\"G\" model=\"MGL\"><members><basic-event name=\"A\"/><basic-event name=\"B\"/></members><distribution><float value=\"0.1\"/></distribution></define-CCF-group>
</opsa-mef>^<opsa-mef>
<define-fault-tree name=\"F\">
<define-gate name=\"g1\"><basic-event name=\"a\"/></define-gate>
<define-gate name=\"g2\"><and><basic-event name=\"a\"/><basic-event name=\"b\"/><basic-event name=\"c\"/><basic-event name=\"d\"/></and></define-gate>
<define-basic-event name=\"a\"/>
<define-basic-event name=\"b\"/>
<define-basic-event name=\"c\"/>
<define-basic-event name=\"d\"/>
</define-fault-tree>
</opsa-mef>
=>
0:2#1 fault-tree F
0:3#2 gate G1 in F formula (or 0-0 (gate G2@0:3#4) (basic a@0:3#5))
0:4#6 basic-event a in F no value
1:2#1 fault-tree H
1:3#2 gate G2 in H formula (gate G9@1:3#3)
2:2#1 fault-tree H
2:3#2 gate a in H formula true
3:2#1 fault-tree H
3:3#2 gate G2 in H formula (gate G1@3:3#3)
4:2#1 fault-tree H
4:3#2 house-event G2 in H state false
5:2#1 group G MGL (members A@5:2#3 B@5:2#4) 1e-1
6:2#1 fault-tree F
6:3#2 gate g1 in F formula (basic a@6:3#3)
6:4#4 gate g2 in F formula (and 0-0 (basic a@6:4#6) (basic b@6:4#7) (basic c@6:4#8) (basic d@6:4#9))
6:5#10 basic-event a in F no value
6:6#11 basic-event b in F no value
6:7#12 basic-event c in F no value
6:8#13 basic-event d in F no value
";

const REAL: &str = "<?xml version=\"1.0\" encoding=\"UTF-8\"?>
<!-- two redundant trains -->
<opsa-mef name=\"plant\">
  <define-fault-tree name=\"TwoTrains\">
    <label>Loss of both trains</label>
    <define-gate name=\"TopEvent\">
      <label>No flow</label>
      <and>
        <gate name=\"TrainOne\"/>
        <gate name=\"TrainTwo\"/>
      </and>
    </define-gate>
    <define-gate name=\"TrainOne\">
      <or>
        <event name=\"PumpOne\"/>
        <event name=\"ValveOne\"/>
      </or>
    </define-gate>
    <define-gate name=\"TrainTwo\">
      <or>
        <event name=\"PumpTwo\"/>
        <event name=\"ValveTwo\"/>
      </or>
    </define-gate>
  </define-fault-tree>
  <model-data>
    <define-parameter name=\"PumpProbability\"><float value=\"2e-2\"/></define-parameter>
    <define-basic-event name=\"PumpOne\"><parameter name=\"PumpProbability\"/></define-basic-event>
    <define-basic-event name=\"PumpTwo\"><parameter name=\"PumpProbability\"/></define-basic-event>
    <define-basic-event name=\"ValveOne\">
      <attributes><attribute name=\"maker\" value=\"A &amp; B\"/></attributes>
      <float value=\"0.01\"/>
    </define-basic-event>
    <define-basic-event name=\"ValveTwo\"><float value=\"0.01\"/></define-basic-event>
  </model-data>
</opsa-mef>
=>
0:4#1 fault-tree TwoTrains
0:6#3 gate TopEvent in TwoTrains formula (and 0-0 (gate TrainOne@0:9#6) (gate TrainTwo@0:10#7))
0:13#8 gate TrainOne in TwoTrains formula (or 0-0 (any PumpOne@0:15#10) (any ValveOne@0:16#11))
0:19#12 gate TrainTwo in TwoTrains formula (or 0-0 (any PumpTwo@0:21#14) (any ValveTwo@0:22#15))
0:27#17 parameter PumpProbability value 2e-2
0:28#19 basic-event PumpOne value (parameter PumpProbability@0:28#20)
0:29#21 basic-event PumpTwo value (parameter PumpProbability@0:29#22)
0:30#23 basic-event ValveOne value 1e-2
0:34#27 basic-event ValveTwo value 1e-2
";

const MGL: &str = "<opsa-mef>
<define-fault-tree name=\"F\">
<define-gate name=\"top\"><and><basic-event name=\"A\"/><basic-event name=\"B\"/><basic-event name=\"C\"/></and></define-gate>
<define-CCF-group name=\"G\" model=\"MGL\">
<members><basic-event name=\"A\"/><basic-event name=\"B\"/><basic-event name=\"C\"/></members>
<distribution><float value=\"0.1\"/></distribution>
<factors><factor level=\"2\"><float value=\"0.2\"/></factor><factor level=\"3\"><float value=\"0.5\"/></factor></factors>
</define-CCF-group>
</define-fault-tree>
</opsa-mef>
=>
0:2#1 fault-tree F
0:3#2 gate top in F formula (and 0-0 (basic A@0:3#4) (basic B@0:3#5) (basic C@0:3#6))
0:4#7 group G in F MGL (members A@0:5#9 B@0:5#10 C@0:5#11) 1e-1 (level 2 2e-1) (level 3 5e-1)
";

const TREE: &str = "<opsa-mef>
<define-initiating-event name=\"I\" event-tree=\"E1\"/>
<define-event-tree name=\"E1\">
<define-functional-event name=\"FA\"/>
<define-functional-event name=\"FB\"/>
<define-sequence name=\"OK\"/>
<define-sequence name=\"BAD\"/>
<define-sequence name=\"GO\"><event-tree name=\"E2\"/></define-sequence>
<initial-state>
<fork functional-event=\"FA\">
<path state=\"works\"><collect-formula><not><gate name=\"GA\"/></not></collect-formula><sequence name=\"OK\"/></path>
<path state=\"fails\"><collect-formula><gate name=\"GA\"/></collect-formula>
<fork functional-event=\"FB\">
<path state=\"works\"><set-house-event name=\"H\"><constant value=\"true\"/></set-house-event><collect-formula><gate name=\"GB\"/></collect-formula><sequence name=\"BAD\"/></path>
<path state=\"stuck\"><collect-formula><basic-event name=\"c\"/></collect-formula><sequence name=\"BAD\"/></path>
<path state=\"fails\"><sequence name=\"GO\"/></path>
</fork>
</path>
</fork>
</initial-state>
</define-event-tree>
<define-event-tree name=\"E2\">
<define-sequence name=\"END\"/>
<initial-state><set-house-event name=\"H\"><constant value=\"true\"/></set-house-event><collect-formula><gate name=\"GB\"/></collect-formula><sequence name=\"END\"/></initial-state>
</define-event-tree>
<define-fault-tree name=\"F\">
<define-gate name=\"GA\"><or><basic-event name=\"a\"/><and><basic-event name=\"d\"/><house-event name=\"H\"/></and></or></define-gate>
<define-gate name=\"GB\"><and><basic-event name=\"b\"/><house-event name=\"H\"/></and></define-gate>
<define-basic-event name=\"a\"/>
<define-basic-event name=\"b\"/>
<define-basic-event name=\"c\"/>
<define-basic-event name=\"d\"/>
<define-house-event name=\"H\"/>
</define-fault-tree>
</opsa-mef>
=>
0:2#1 initiating-event I (start E1@0:2#1)
0:3#2 event-tree E1 walk (fork FA@0:10#10 (path 0:11#11 works (collect (not 0-0 (gate GA@0:11#14))) (sequence OK@0:11#15)) (path 0:12#16 fails (collect (gate GA@0:12#18)) (fork FB@0:13#19 (path 0:14#20 works (set true H@0:14#21) (collect (gate GB@0:14#24)) (sequence BAD@0:14#25)) (path 0:15#26 stuck (collect (basic c@0:15#28)) (sequence BAD@0:15#29)) (path 0:16#30 fails (sequence GO@0:16#31)))))
0:4#3 functional-event FA in E1
0:5#4 functional-event FB in E1
0:6#5 sequence OK in E1 steps
0:7#6 sequence BAD in E1 steps
0:8#7 sequence GO in E1 steps (link E2@0:8#8)
0:22#32 event-tree E2 walk (set true H@0:24#35) (collect (gate GB@0:24#38)) (sequence END@0:24#39)
0:23#33 sequence END in E2 steps
0:26#40 fault-tree F
0:27#41 gate GA in F formula (or 0-0 (basic a@0:27#43) (and 0-0 (basic d@0:27#45) (house H@0:27#46)))
0:28#47 gate GB in F formula (and 0-0 (basic b@0:28#49) (house H@0:28#50))
0:29#51 basic-event a in F no value
0:30#52 basic-event b in F no value
0:31#53 basic-event c in F no value
0:32#54 basic-event d in F no value
0:33#55 house-event H in F state false
";

const COMPONENTS: &str = "<opsa-mef>
<define-fault-tree name=\"F\">
<define-gate name=\"top\"><or><gate name=\"F.P.g\"/><gate name=\"F.Q.g\"/></or></define-gate>
<define-component name=\"P\" role=\"private\">
<define-gate name=\"g\"><and><basic-event name=\"x\"/><basic-event name=\"s\"/></and></define-gate>
<define-basic-event name=\"x\"/>
</define-component>
<define-component name=\"Q\" role=\"private\">
<define-gate name=\"g\"><and><basic-event name=\"x\"/><basic-event name=\"s\"/></and></define-gate>
<define-basic-event name=\"x\"/>
</define-component>
<define-basic-event name=\"s\"/>
</define-fault-tree>
</opsa-mef>
=>
0:2#1 fault-tree F
0:3#2 gate top in F formula (or 0-0 (gate F.P.g@0:3#4) (gate F.Q.g@0:3#5))
0:4#6 component P in F private
0:5#7 gate g in F in P private formula (and 0-0 (basic x@0:5#9) (basic s@0:5#10))
0:6#11 basic-event x in F in P private no value
0:8#12 component Q in F private
0:9#13 gate g in F in Q private formula (and 0-0 (basic x@0:9#15) (basic s@0:9#16))
0:10#17 basic-event x in F in Q private no value
0:12#18 basic-event s in F no value
";

const CONDITIONS: &str = "<opsa-mef>
<define-initiating-event name=\"I\" event-tree=\"E\"/>
<define-initiating-event name=\"J\" event-tree=\"E\"/>
<define-event-tree name=\"E\">
<define-functional-event name=\"FA\"/>
<define-sequence name=\"S\"><rule name=\"R\"/></define-sequence>
<initial-state><fork functional-event=\"FA\"><path state=\"up\"><sequence name=\"S\"/></path><path state=\"down\"><sequence name=\"S\"/></path></fork></initial-state>
</define-event-tree>
<define-rule name=\"R\"><if><and><test-initiating-event name=\"I\"/><test-functional-event name=\"FA\" state=\"down\"/></and><collect-formula><basic-event name=\"a\"/></collect-formula><collect-formula><basic-event name=\"b\"/></collect-formula></if></define-rule>
<model-data><define-basic-event name=\"a\"/><define-basic-event name=\"b\"/></model-data>
</opsa-mef>
=>
0:2#1 initiating-event I (start E@0:2#1)
0:3#2 initiating-event J (start E@0:3#2)
0:4#3 event-tree E walk (fork FA@0:7#8 (path 0:7#9 up (sequence S@0:7#10)) (path 0:7#11 down (sequence S@0:7#12)))
0:5#4 functional-event FA in E
0:6#5 sequence S in E steps (rule R@0:6#6)
0:9#13 rule R steps (if (all (initiating I@0:9#16) (functional down FA@0:9#17)) (collect (basic a@0:9#19)) else (collect (basic b@0:9#21)))
0:10#23 basic-event a no value
0:10#24 basic-event b no value
";

const FORMULAS: &str = "<opsa-mef>
<define-fault-tree name='F'>
<define-gate name='a'><label>l</label><xor><not><constant value='true'/></not><iff><event name='e'/><event type='gate' name='F.b'/></iff></xor><attributes/></define-gate>
<define-gate name='b' role='private'><nand><nor><event name='e' type='basic-event'/></nor><imply><event name='h' type='house-event'/><constant value='false'/></imply></nand></define-gate>
<define-gate name='c' role='public'><atleast min='0002'><or><house-event name='F.h'/></or><basic-event name='e'/><cardinality max='3' min='0'><gate name='a'/><gate name='b'/><gate name='b'/></cardinality></atleast></define-gate>
<define-house-event name='h'><constant value='true'/></define-house-event>
<define-house-event name='i'/>
<define-house-event name='j'><label/><constant value='false'/></define-house-event>
</define-fault-tree>
</opsa-mef>
=>
0:2#1 fault-tree F
0:3#2 gate a in F formula (xor 0-0 (not 0-0 true) (iff 0-0 (any e@0:3#8) (gate F.b@0:3#9)))
0:4#11 gate b in F private formula (nand 0-0 (nor 0-0 (basic e@0:4#14)) (imply 0-0 (house h@0:4#16) false))
0:5#18 gate c in F formula (atleast 2-0 (or 0-0 (house F.h@0:5#21)) (basic e@0:5#22) (cardinality 0-3 (gate a@0:5#24) (gate b@0:5#25) (gate b@0:5#26)))
0:6#27 house-event h in F state true
0:7#29 house-event i in F state false
0:8#30 house-event j in F state false
";

const VALUES: &str = "<opsa-mef>
<model-data>
<define-parameter name='p' unit='hours'><exponential><float value='+.5e-1'/><system-mission-time unit='h'/></exponential></define-parameter>
<define-parameter name='q' role='public'><sub><neg><int value='-7'/></neg><parameter name='F.P.r' unit='u'/><float value='-1.50E+2'/></sub></define-parameter>
<define-basic-event name='e'><attributes/><mul><add><int value='+007'/></add><div><float value='5.'/><float value='1e-20'/></div></mul></define-basic-event>
<define-basic-event name='f'/>
</model-data>
<define-CCF-group name='G' model='alpha-factor'>
<factor level='3'><parameter name='p'/></factor>
<members><basic-event name='F.a'/><basic-event name='b'/></members>
<factors><factor><neg><float value='0.25'/></neg></factor><factor level='0001'><system-mission-time/></factor></factors>
<label/>
<distribution><int value='1'/></distribution>
<factor level='2'><int value='0'/></factor>
</define-CCF-group>
<define-CCF-group model='beta-factor' name='H'><distribution><parameter name='q'/></distribution><members><basic-event name='a'/></members></define-CCF-group>
</opsa-mef>
=>
0:3#2 parameter p value (exponential 5e-2 mission-time)
0:4#6 parameter q value (sub (neg -7e0) (parameter F.P.r@0:4#10) -150e0)
0:5#12 basic-event e value (mul (add 7e0) (div 5e0 1e-20))
0:6#20 basic-event f no value
0:8#21 group G alpha (members F.a@0:10#25 b@0:10#26) 1e0 (level 3 (parameter p@0:9#23)) (no level (neg 25e-2)) (level 1 mission-time) (level 2 0e0)
0:16#38 group H beta (members a@0:16#42) (parameter q@0:16#40)
";

const SCOPES: &str = "<opsa-mef>
<define-fault-tree name='F'>
<define-component name='P' role='private'>
<label/>
<define-component name='Q' role='public'><define-basic-event name='x'/><define-basic-event name='y' role='private'/></define-component>
<define-component name='R'><define-basic-event name='x' role='public'/><define-parameter name='p'><int value='1'/></define-parameter></define-component>
<define-house-event name='h'/>
</define-component>
<define-component name='S'><define-gate name='g' role='private'><gate name='h'/></define-gate><define-component name='S'><define-gate name='h'><gate name='g'/></define-gate></define-component></define-component>
<define-gate name='top'><gate name='F.S.S.h'/></define-gate>
</define-fault-tree>
<define-fault-tree name='G'/>
</opsa-mef>
=>
0:2#1 fault-tree F
0:3#2 component P in F private
0:5#4 component Q in F in P
0:5#5 basic-event x in F in P in Q no value
0:5#6 basic-event y in F in P in Q private no value
0:6#7 component R in F in P private
0:6#8 basic-event x in F in P in R no value
0:6#9 parameter p in F in P in R private value 1e0
0:7#11 house-event h in F in P private state false
0:9#12 component S in F
0:9#13 gate g in F in S private formula (gate h@0:9#14)
0:9#15 component S in F in S
0:9#16 gate h in F in S in S formula (gate g@0:9#17)
0:10#18 gate top in F formula (gate F.S.S.h@0:10#19)
0:12#20 fault-tree G
";

const EVENTS: &str = "<opsa-mef>
<define-initiating-event name='I'/>
<define-event-tree name='E'>
<define-sequence name='S'><label/><block><block/><rule name='R'/></block><event-tree name='D'/></define-sequence>
<define-branch name='b'><set-house-event name='F.h'><constant value='false'/></set-house-event><branch name='c'/></define-branch>
<initial-state><block/><fork functional-event='f'><path state='up'><sequence name='S'/></path><path state='up'><rule name='R'/><branch name='b'/></path></fork></initial-state>
<define-functional-event name='f'/>
<define-branch name='c'><attributes/><sequence name='S'/><label/></define-branch>
</define-event-tree>
<define-rule name='R'><label/><if><or><not><test-functional-event state='up' name='f'/></not><test-initiating-event name='I'/></or><block><collect-formula><constant value='true'/></collect-formula></block></if><if><test-initiating-event name='J'/><rule name='Q'/><if><not><test-initiating-event name='I'/></not><block/></if></if></define-rule>
</opsa-mef>
=>
0:2#1 initiating-event I no start
0:3#2 event-tree E walk (block) (fork f@0:6#15 (path 0:6#16 up (sequence S@0:6#17)) (path 0:6#18 up (rule R@0:6#19) (branch b@0:6#20)))
0:4#3 sequence S in E steps (block (block) (rule R@0:4#7)) (link D@0:4#8)
0:5#9 branch b in E walk (set false F.h@0:5#10) (branch c@0:5#12)
0:7#21 functional-event f in E
0:8#22 branch c in E walk (sequence S@0:8#24)
0:10#26 rule R steps (if (any (not (functional up f@0:10#31)) (initiating I@0:10#32)) (block (collect true)) else) (if (initiating J@0:10#37) (rule Q@0:10#38) else (if (not (initiating I@0:10#41)) (block) else))
";

/// A file without definitions, and two of the models above.
const THREE: &str = "<opsa-mef name=\"x\"/>^<opsa-mef>
<define-fault-tree name=\"F\">
<define-gate name=\"top\"><and><basic-event name=\"A\"/><basic-event name=\"B\"/><basic-event name=\"C\"/></and></define-gate>
<define-CCF-group name=\"G\" model=\"MGL\">
<members><basic-event name=\"A\"/><basic-event name=\"B\"/><basic-event name=\"C\"/></members>
<distribution><float value=\"0.1\"/></distribution>
<factors><factor level=\"2\"><float value=\"0.2\"/></factor><factor level=\"3\"><float value=\"0.5\"/></factor></factors>
</define-CCF-group>
</define-fault-tree>
</opsa-mef>^<opsa-mef>
<define-initiating-event name=\"I\" event-tree=\"E\"/>
<define-initiating-event name=\"J\" event-tree=\"E\"/>
<define-event-tree name=\"E\">
<define-functional-event name=\"FA\"/>
<define-sequence name=\"S\"><rule name=\"R\"/></define-sequence>
<initial-state><fork functional-event=\"FA\"><path state=\"up\"><sequence name=\"S\"/></path><path state=\"down\"><sequence name=\"S\"/></path></fork></initial-state>
</define-event-tree>
<define-rule name=\"R\"><if><and><test-initiating-event name=\"I\"/><test-functional-event name=\"FA\" state=\"down\"/></and><collect-formula><basic-event name=\"a\"/></collect-formula><collect-formula><basic-event name=\"b\"/></collect-formula></if></define-rule>
<model-data><define-basic-event name=\"a\"/><define-basic-event name=\"b\"/></model-data>
</opsa-mef>
=>
1:2#1 fault-tree F
1:3#2 gate top in F formula (and 0-0 (basic A@1:3#4) (basic B@1:3#5) (basic C@1:3#6))
1:4#7 group G in F MGL (members A@1:5#9 B@1:5#10 C@1:5#11) 1e-1 (level 2 2e-1) (level 3 5e-1)
2:2#1 initiating-event I (start E@2:2#1)
2:3#2 initiating-event J (start E@2:3#2)
2:4#3 event-tree E walk (fork FA@2:7#8 (path 2:7#9 up (sequence S@2:7#10)) (path 2:7#11 down (sequence S@2:7#12)))
2:5#4 functional-event FA in E
2:6#5 sequence S in E steps (rule R@2:6#6)
2:9#13 rule R steps (if (all (initiating I@2:9#16) (functional down FA@2:9#17)) (collect (basic a@2:9#19)) else (collect (basic b@2:9#21)))
2:10#23 basic-event a no value
2:10#24 basic-event b no value
";
