//! Worked models with what their names became, or their first fault of names.

/// A model, `=>`, and what it becomes.
#[rattlefmt::skip]
pub const WORKED: [&str; 18] = [
    NO_FILE,
    ONE_ALONE,
    ONE_UNDEFINED,
    UNDEFINED_ONE,
    ONE_DUPLICATE,
    ONE_CYCLE,
    ONE_WRONG_KIND,
    BAD_GROUP,
    COMPONENTS_SHORT_PATH,
    COMPONENTS_WITHOUT_X,
    CONDITIONS_OF_FX,
    COMPONENTS,
    CONDITIONS,
    MGL,
    TREE,
    GROUPS,
    WALKS,
    SEARCH,
];

/// No file.
const NO_FILE: &str = "
=>
";

const ONE_ALONE: &str = "<opsa-mef>
<define-fault-tree name=\"F\">
<define-gate name=\"G1\"><or><gate name=\"G2\"/><basic-event name=\"a\"/></or></define-gate>
<define-basic-event name=\"a\"/>
</define-fault-tree>
</opsa-mef>
=>
0:3: undefined G2";

const ONE_UNDEFINED: &str = "<opsa-mef>
<define-fault-tree name=\"F\">
<define-gate name=\"G1\"><or><gate name=\"G2\"/><basic-event name=\"a\"/></or></define-gate>
<define-basic-event name=\"a\"/>
</define-fault-tree>
</opsa-mef>^<opsa-mef>
<define-fault-tree name=\"H\">
<define-gate name=\"G2\"><gate name=\"G9\"/></define-gate>
</define-fault-tree>
</opsa-mef>
=>
1:3: undefined G9";

const UNDEFINED_ONE: &str = "<opsa-mef>
<define-fault-tree name=\"H\">
<define-gate name=\"G2\"><gate name=\"G9\"/></define-gate>
</define-fault-tree>
</opsa-mef>^<opsa-mef>
<define-fault-tree name=\"F\">
<define-gate name=\"G1\"><or><gate name=\"G2\"/><basic-event name=\"a\"/></or></define-gate>
<define-basic-event name=\"a\"/>
</define-fault-tree>
</opsa-mef>
=>
0:3: undefined G9";

const ONE_DUPLICATE: &str = "<opsa-mef>
<define-fault-tree name=\"F\">
<define-gate name=\"G1\"><or><gate name=\"G2\"/><basic-event name=\"a\"/></or></define-gate>
<define-basic-event name=\"a\"/>
</define-fault-tree>
</opsa-mef>^<opsa-mef>
<define-fault-tree name=\"H\">
<define-gate name=\"a\"><constant value=\"true\"/></define-gate>
</define-fault-tree>
</opsa-mef>
=>
1:3: duplicate a";

const ONE_CYCLE: &str = "<opsa-mef>
<define-fault-tree name=\"F\">
<define-gate name=\"G1\"><or><gate name=\"G2\"/><basic-event name=\"a\"/></or></define-gate>
<define-basic-event name=\"a\"/>
</define-fault-tree>
</opsa-mef>^<opsa-mef>
<define-fault-tree name=\"H\">
<define-gate name=\"G2\"><gate name=\"G1\"/></define-gate>
</define-fault-tree>
</opsa-mef>
=>
0:3: cycle G1";

const ONE_WRONG_KIND: &str = "<opsa-mef>
<define-fault-tree name=\"F\">
<define-gate name=\"G1\"><or><gate name=\"G2\"/><basic-event name=\"a\"/></or></define-gate>
<define-basic-event name=\"a\"/>
</define-fault-tree>
</opsa-mef>^<opsa-mef>
<define-fault-tree name=\"H\">
<define-house-event name=\"G2\"/>
</define-fault-tree>
</opsa-mef>
=>
0:3: wrong kind G2";

const BAD_GROUP: &str = "<opsa-mef>
<define-CCF-group name=\"G\" model=\"MGL\"><members><basic-event name=\"A\"/><basic-event name=\"B\"/></members><distribution><float value=\"0.1\"/></distribution></define-CCF-group>
</opsa-mef>
=>
0:2: bad group G";

const COMPONENTS_SHORT_PATH: &str = "<opsa-mef>
<define-fault-tree name=\"F\">
<define-gate name=\"top\"><or><gate name=\"P.g\"/><gate name=\"F.Q.g\"/></or></define-gate>
<define-component name=\"P\" role=\"private\">
<define-gate name=\"g\"><and><basic-event name=\"x\"/><basic-event name=\"s\"/></and></define-gate>
<define-basic-event name=\"x\"/>
</define-component>
<define-component name=\"Q\" role=\"private\">
<define-gate name=\"g\"><and><basic-event name=\"x\"/><basic-event name=\"s\"/></and></define-gate>
<define-basic-event name=\"x\"/>
</define-component>
<define-basic-event name=\"s\"/>
</define-fault-tree>
</opsa-mef>
=>
0:3: undefined P.g";

const COMPONENTS_WITHOUT_X: &str = "<opsa-mef>
<define-fault-tree name=\"F\">
<define-gate name=\"top\"><or><gate name=\"F.P.g\"/><gate name=\"F.Q.g\"/></or></define-gate>
<define-component name=\"P\" role=\"private\">
<define-gate name=\"g\"><and><basic-event name=\"x\"/><basic-event name=\"s\"/></and></define-gate>
<define-basic-event name=\"x\"/>
</define-component>
<define-component name=\"Q\" role=\"private\">
<define-gate name=\"g\"><and><basic-event name=\"x\"/><basic-event name=\"s\"/></and></define-gate>
<define-basic-event name=\"s\"/>
</define-component>
<define-basic-event name=\"s\"/>
</define-fault-tree>
</opsa-mef>
=>
0:9: undefined x";

const CONDITIONS_OF_FX: &str = "<opsa-mef>
<define-initiating-event name=\"I\" event-tree=\"E\"/>
<define-initiating-event name=\"J\" event-tree=\"E\"/>
<define-event-tree name=\"E\">
<define-functional-event name=\"FA\"/>
<define-sequence name=\"S\"><rule name=\"R\"/></define-sequence>
<initial-state><fork functional-event=\"FA\"><path state=\"up\"><sequence name=\"S\"/></path><path state=\"down\"><sequence name=\"S\"/></path></fork></initial-state>
</define-event-tree>
<define-rule name=\"R\"><if><and><test-initiating-event name=\"I\"/><test-functional-event name=\"FX\" state=\"down\"/></and><collect-formula><basic-event name=\"a\"/></collect-formula><collect-formula><basic-event name=\"b\"/></collect-formula></if></define-rule>
<model-data><define-basic-event name=\"a\"/><define-basic-event name=\"b\"/></model-data>
</opsa-mef>
=>
0:9: undefined FX";

const COMPONENTS: &str = "<opsa-mef>
<define-fault-tree name=\"F\">
<define-gate name=\"top\"><or><gate name=\"F.P.g\"/><gate name=\"F.Q.g\"/></or></define-gate>
<define-component name=\"P\" role=\"private\">
<define-gate name=\"g\"><and><basic-event name=\"x\"/><basic-event name=\"s\"/></and></define-gate>
<define-basic-event name=\"x\"/>
</define-component>
<define-component name=\"Q\" role=\"private\">
<define-gate name=\"g\"><and><basic-event name=\"x\"/><basic-event name=\"s\"/></and></define-gate>
<define-basic-event name=\"x\"/>
</define-component>
<define-basic-event name=\"s\"/>
</define-fault-tree>
</opsa-mef>
=>
gate top tree 0 (or gate 1 gate 2)
gate F.P.g tree 0 (and basic 0 basic 2)
gate F.Q.g tree 0 (and basic 1 basic 2)
basic F.P.x 0:6
basic F.Q.x 0:10
basic s 0:12
value basic 0
value basic 1
value basic 2
";

const CONDITIONS: &str = "<opsa-mef>
<define-initiating-event name=\"I\" event-tree=\"E\"/>
<define-initiating-event name=\"J\" event-tree=\"E\"/>
<define-event-tree name=\"E\">
<define-functional-event name=\"FA\"/>
<define-sequence name=\"S\"><rule name=\"R\"/></define-sequence>
<initial-state><fork functional-event=\"FA\"><path state=\"up\"><sequence name=\"S\"/></path><path state=\"down\"><sequence name=\"S\"/></path></fork></initial-state>
</define-event-tree>
<define-rule name=\"R\"><if><and><test-initiating-event name=\"I\"/><test-functional-event name=\"FA\" state=\"down\"/></and><collect-formula><basic-event name=\"a\"/></collect-formula><collect-formula><basic-event name=\"b\"/></collect-formula></if></define-rule>
<model-data><define-basic-event name=\"a\"/><define-basic-event name=\"b\"/></model-data>
</opsa-mef>
=>
basic a 0:10
basic b 0:10
sequence S tree 0 collects
rule R collects
event-tree E collects
formula basic 0
formula basic 1
value basic 0
value basic 1
";

const MGL: &str = "<opsa-mef>
<define-fault-tree name=\"F\">
<define-gate name=\"top\"><and><basic-event name=\"A\"/><basic-event name=\"B\"/><basic-event name=\"C\"/></and></define-gate>
<define-CCF-group name=\"G\" model=\"MGL\">
<members><basic-event name=\"A\"/><basic-event name=\"B\"/><basic-event name=\"C\"/></members>
<distribution><float value=\"0.1\"/></distribution>
<factors><factor level=\"2\"><float value=\"0.2\"/></factor><factor level=\"3\"><float value=\"0.5\"/></factor></factors>
</define-CCF-group>
</define-fault-tree>
</opsa-mef>
=>
gate top tree 0 (and basic 0 basic 1 basic 2)
basic A 0:4
basic B 0:4
basic C 0:4
group G of 0 1 2
value group 0
";

const TREE: &str = "<opsa-mef>
<define-initiating-event name=\"I\" event-tree=\"E1\"/>
<define-event-tree name=\"E1\">
<define-functional-event name=\"FA\"/>
<define-functional-event name=\"FB\"/>
<define-sequence name=\"OK\"/>
<define-sequence name=\"BAD\"/>
<define-sequence name=\"GO\"><event-tree name=\"E2\"/></define-sequence>
<initial-state>
<fork functional-event=\"FA\">
<path state=\"works\"><collect-formula><not><gate name=\"GA\"/></not></collect-formula><sequence name=\"OK\"/></path>
<path state=\"fails\"><collect-formula><gate name=\"GA\"/></collect-formula>
<fork functional-event=\"FB\">
<path state=\"works\"><set-house-event name=\"H\"><constant value=\"true\"/></set-house-event><collect-formula><gate name=\"GB\"/></collect-formula><sequence name=\"BAD\"/></path>
<path state=\"stuck\"><collect-formula><basic-event name=\"c\"/></collect-formula><sequence name=\"BAD\"/></path>
<path state=\"fails\"><sequence name=\"GO\"/></path>
</fork>
</path>
</fork>
</initial-state>
</define-event-tree>
<define-event-tree name=\"E2\">
<define-sequence name=\"END\"/>
<initial-state><set-house-event name=\"H\"><constant value=\"true\"/></set-house-event><collect-formula><gate name=\"GB\"/></collect-formula><sequence name=\"END\"/></initial-state>
</define-event-tree>
<define-fault-tree name=\"F\">
<define-gate name=\"GA\"><or><basic-event name=\"a\"/><and><basic-event name=\"d\"/><house-event name=\"H\"/></and></or></define-gate>
<define-gate name=\"GB\"><and><basic-event name=\"b\"/><house-event name=\"H\"/></and></define-gate>
<define-basic-event name=\"a\"/>
<define-basic-event name=\"b\"/>
<define-basic-event name=\"c\"/>
<define-basic-event name=\"d\"/>
<define-house-event name=\"H\"/>
</define-fault-tree>
</opsa-mef>
=>
gate GA tree 0 (or basic 0 (and basic 3 house 0))
gate GB tree 0 (and basic 1 house 0)
basic a 0:29
basic b 0:30
basic c 0:31
basic d 0:32
sequence OK tree 0 collects
sequence BAD tree 0 collects
sequence GO tree 0 collects
sequence END tree 1 collects
event-tree E1 collects
event-tree E2 collects 4
formula (not gate 0)
formula gate 0
formula gate 1
formula basic 2
formula gate 1
value basic 0
value basic 1
value basic 2
value basic 3
";

/// Groups that define members, and the order of values.
const GROUPS: &str = "<opsa-mef>
<define-fault-tree name='F'>
<define-gate name='top'><or><basic-event name='a'/><event name='c'/><gate name='other'/></or></define-gate>
<define-component name='P' role='private'><define-basic-event name='x'/></define-component>
<define-gate name='other'><and><basic-event name='F.P.x'/><house-event name='h'/></and></define-gate>
</define-fault-tree>
<model-data>
<define-house-event name='h'><constant value='true'/></define-house-event>
<define-basic-event name='a'/>
</model-data>
<define-CCF-group name='G' model='MGL'><members><basic-event name='a'/><basic-event name='b'/></members>
<distribution><float value='0.1'/></distribution><factors><factor level='2'><float value='0.1'/></factor></factors></define-CCF-group>
<define-CCF-group name='H' model='beta-factor'><members><basic-event name='c'/><basic-event name='d'/></members>
<distribution><float value='0.1'/></distribution><factor><float value='0.1'/></factor></define-CCF-group>
<model-data>
<define-basic-event name='z'/>
</model-data>
</opsa-mef>
=>
gate top tree 0 (or basic 1 basic 3 gate 1)
gate other tree 0 (and basic 0 house 0)
basic F.P.x 0:4
basic a 0:9
basic b 0:11
basic c 0:13
basic d 0:13
basic z 0:16
group G of 1 2
group H of 3 4
value basic 0
value group 0
value group 1
value basic 5
";

/// The numbers of collected formulas go by the places of the elements.
const WALKS: &str = "<opsa-mef>
<define-rule name='R'><collect-formula><basic-event name='a'/></collect-formula></define-rule>
<define-event-tree name='E'>
<define-functional-event name='W'/>
<define-sequence name='S'><collect-formula><basic-event name='b'/></collect-formula></define-sequence>
<initial-state><collect-formula><basic-event name='c'/></collect-formula><sequence name='S'/></initial-state>
</define-event-tree>
<define-event-tree name='D'>
<define-sequence name='T'><collect-formula><not><basic-event name='a'/></not></collect-formula><rule name='R'/></define-sequence>
<initial-state><collect-formula><basic-event name='b'/></collect-formula><sequence name='T'/></initial-state>
</define-event-tree>
<model-data>
<define-basic-event name='a'/>
<define-basic-event name='b'/>
<define-basic-event name='c'/>
</model-data>
</opsa-mef>
=>
basic a 0:13
basic b 0:14
basic c 0:15
sequence S tree 0 collects 1
sequence T tree 1 collects 3
rule R collects 0
event-tree E collects 2
event-tree D collects 4
formula basic 0
formula basic 1
formula basic 2
formula (not basic 0)
formula basic 1
value basic 0
value basic 1
value basic 2
";

/// A name in the innermost, in an outer and in the public space.
const SEARCH: &str = "<opsa-mef>
<define-fault-tree name='F'>
<define-basic-event name='a' role='private'/>
<define-component name='C'>
<define-basic-event name='a' role='private'/>
<define-gate name='inner'><basic-event name='a'/></define-gate>
<define-gate name='outer'><basic-event name='b'/></define-gate>
</define-component>
<define-basic-event name='b' role='private'/>
<define-gate name='own'><basic-event name='a'/></define-gate>
</define-fault-tree>
<model-data>
<define-basic-event name='a'/>
<define-basic-event name='b'/>
</model-data>
<define-fault-tree name='H'><define-gate name='public'><and><basic-event name='a'/><basic-event name='F.C.a'/></and></define-gate></define-fault-tree>
</opsa-mef>
=>
gate inner tree 0 basic 1
gate outer tree 0 basic 2
gate own tree 0 basic 0
gate public tree 1 (and basic 3 basic 1)
basic F.a 0:3
basic F.C.a 0:5
basic F.b 0:9
basic a 0:13
basic b 0:14
value basic 0
value basic 1
value basic 2
value basic 3
value basic 4
";
