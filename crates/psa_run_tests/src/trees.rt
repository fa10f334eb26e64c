//! Event trees and private components.

/// Event trees with a link and with a condition, and private components.
#[rattlefmt::skip]
pub const TREES: &str = r#"
# a link, and a house event that is set on one way
@ tree.xml
<opsa-mef>
<define-initiating-event name="I" event-tree="E1"/>
<define-event-tree name="E1">
<define-functional-event name="FA"/>
<define-functional-event name="FB"/>
<define-sequence name="OK"/>
<define-sequence name="BAD"/>
<define-sequence name="GO"><event-tree name="E2"/></define-sequence>
<initial-state>
<fork functional-event="FA">
<path state="works"><collect-formula><not><gate name="GA"/></not></collect-formula><sequence name="OK"/></path>
<path state="fails"><collect-formula><gate name="GA"/></collect-formula>
<fork functional-event="FB">
<path state="works"><set-house-event name="H"><constant value="true"/></set-house-event><collect-formula><gate name="GB"/></collect-formula><sequence name="BAD"/></path>
<path state="stuck"><collect-formula><basic-event name="c"/></collect-formula><sequence name="BAD"/></path>
<path state="fails"><sequence name="GO"/></path>
</fork>
</path>
</fork>
</initial-state>
</define-event-tree>
<define-event-tree name="E2">
<define-sequence name="END"/>
<initial-state><set-house-event name="H"><constant value="true"/></set-house-event><collect-formula><gate name="GB"/></collect-formula><sequence name="END"/></initial-state>
</define-event-tree>
<define-fault-tree name="F">
<define-gate name="GA"><or><basic-event name="a"/><and><basic-event name="d"/><house-event name="H"/></and></or></define-gate>
<define-gate name="GB"><and><basic-event name="b"/><house-event name="H"/></and></define-gate>
<define-basic-event name="a"/>
<define-basic-event name="b"/>
<define-basic-event name="c"/>
<define-basic-event name="d"/>
<define-house-event name="H"/>
</define-fault-tree>
</opsa-mef>
$ tree.xml => Done
{report bdd ... minimal-cut-sets ... 20}
top-event F GA
- 1 a
count 1
top-event F GB
count 0
sequence I E1 OK
- 0 unity
count 1
sequence I E1 BAD
- 2 a b
- 2 a c
count 2
sequence I E2 END
- 2 a b
count 1
$ --zbdd tree.xml => Done
{report zbdd ... minimal-cut-sets ... 20}
top-event F GA
- 1 a
count 1
top-event F GB
count 0
sequence I E1 OK
- 0 unity
count 1
sequence I E1 BAD
- 2 a b
- 2 a c
count 2
sequence I E2 END
- 2 a b
count 1

# a rule with a condition
@ if.xml
{condition FA}
$ if.xml => Done
{report bdd ... minimal-cut-sets ... 20}
sequence I E S
- 1 b
- 1 a
count 2
sequence J E S
- 1 b
count 1

# two components
@ comp.xml
{components F.P.g ... <define-basic-event name="x"/>}
$ comp.xml => Done
{report bdd ... minimal-cut-sets ... 20}
top-event F top
- 2 F.P.x s
- 2 s F.Q.x
count 2"#;
