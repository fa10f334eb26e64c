//! Whole models, and formulas by each way to their products.

/// Whole models, and none.
#[rattlefmt::skip]
pub const WHOLE: &str = r#"
# a list, by both ways; a check of the model alone
@ two.xml
{two}
$ two.xml => Done
{report bdd ... minimal-cut-sets ... 20}
top-event TwoTrains TopEvent
- 2 PumpOne PumpTwo
- 2 PumpOne ValveTwo
- 2 ValveOne PumpTwo
- 2 ValveOne ValveTwo
count 4
$ --zbdd two.xml => Done
{report zbdd ... minimal-cut-sets ... 20}
top-event TwoTrains TopEvent
- 2 PumpOne PumpTwo
- 2 PumpOne ValveTwo
- 2 ValveOne PumpTwo
- 2 ValveOne ValveTwo
count 4
$ --validate two.xml => Done

# a check of the model alone, with values
@ m.xml
{event <float value="0.5"/>}
$ --validate --zbdd --mcub m.xml => Done

# a model without top events
@ m.xml
<opsa-mef/>
$ m.xml => Done
{report bdd ... minimal-cut-sets ... 20}"#;

/// Formulas over three events: minimal cut sets by both ways, and prime implicants.
#[rattlefmt::skip]
pub const FORMULAS: &str = r#"
# absorption
@ m.xml
{gate <or><basic-event name="a"/><and><basic-event name="a"/><basic-event name="b"/></and></or>}
$ m.xml => Done
{report bdd ... minimal-cut-sets ... 20}
top-event F top
- 1 a
count 1
$ --zbdd m.xml => Done
{report zbdd ... minimal-cut-sets ... 20}
top-event F top
- 1 a
count 1

# the sure event
@ m.xml
{gate <or><basic-event name="a"/><not><basic-event name="a"/></not></or>}
$ m.xml => Done
{report bdd ... minimal-cut-sets ... 20}
top-event F top
- 0 unity
count 1
$ --zbdd m.xml => Done
{report zbdd ... minimal-cut-sets ... 20}
top-event F top
- 0 unity
count 1
$ -l 1 m.xml => Done
{report bdd ... minimal-cut-sets ... 1}
top-event F top
- 0 unity
count 1
$ --zbdd -l 1 m.xml => Done
{report zbdd ... minimal-cut-sets ... 1}
top-event F top
- 0 unity
count 1
$ --prime-implicants m.xml => Done
{report bdd ... prime-implicants ... 20}
top-event F top
- 0 unity
count 1

# the impossible event
@ m.xml
{gate <and><basic-event name="a"/><not><basic-event name="a"/></not></and>}
$ m.xml => Done
{report bdd ... minimal-cut-sets ... 20}
top-event F top
count 0
$ --zbdd m.xml => Done
{report zbdd ... minimal-cut-sets ... 20}
top-event F top
count 0
$ --prime-implicants m.xml => Done
{report bdd ... prime-implicants ... 20}
top-event F top
count 0

# one event and not the other
@ m.xml
{gate <xor><basic-event name="a"/><basic-event name="b"/></xor>}
$ m.xml => Done
{report bdd ... minimal-cut-sets ... 20}
top-event F top
- 1 a
- 1 b
count 2
$ --zbdd m.xml => Done
{report zbdd ... minimal-cut-sets ... 20}
top-event F top
- 1 a
- 1 b
count 2
$ --prime-implicants m.xml => Done
{report bdd ... prime-implicants ... 20}
top-event F top
- 2 a ~b
- 2 ~a b
count 2
$ --prime-implicants -l 1 m.xml => Done
{report bdd ... prime-implicants ... 1}
top-event F top
count 0

# a choice by an event
@ m.xml
{gate <or><and><basic-event name="a"/><basic-event name="b"/></and><and><not><basic-event name="a"/></not><basic-event name="c"/></and></or>}
$ m.xml => Done
{report bdd ... minimal-cut-sets ... 20}
top-event F top
- 1 c
- 2 a b
count 2
$ --zbdd m.xml => Done
{report zbdd ... minimal-cut-sets ... 20}
top-event F top
- 1 c
- 2 a b
count 2
$ --prime-implicants m.xml => Done
{report bdd ... prime-implicants ... 20}
top-event F top
- 2 a b
- 2 ~a c
- 2 b c
count 3

# two events or a third
@ m.xml
{gate <or><and><basic-event name="a"/><basic-event name="b"/></and><basic-event name="c"/></or>}
$ m.xml => Done
{report bdd ... minimal-cut-sets ... 20}
top-event F top
- 1 c
- 2 a b
count 2
$ --zbdd m.xml => Done
{report zbdd ... minimal-cut-sets ... 20}
top-event F top
- 1 c
- 2 a b
count 2
$ --prime-implicants m.xml => Done
{report bdd ... prime-implicants ... 20}
top-event F top
- 1 c
- 2 a b
count 2
$ --prime-implicants -l 1 m.xml => Done
{report bdd ... prime-implicants ... 1}
top-event F top
- 1 c
count 1

# at least none
@ m.xml
{gate <atleast min="0"><basic-event name="a"/><basic-event name="b"/></atleast>}
$ m.xml => Done
{report bdd ... minimal-cut-sets ... 20}
top-event F top
- 0 unity
count 1
$ --zbdd m.xml => Done
{report zbdd ... minimal-cut-sets ... 20}
top-event F top
- 0 unity
count 1

# at least two
@ m.xml
{gate <atleast min="2"><basic-event name="a"/><basic-event name="b"/></atleast>}
$ m.xml => Done
{report bdd ... minimal-cut-sets ... 20}
top-event F top
- 2 a b
count 1
$ --zbdd m.xml => Done
{report zbdd ... minimal-cut-sets ... 20}
top-event F top
- 2 a b
count 1

# an event that does not occur counts with its complement
@ m.xml
<opsa-mef><define-fault-tree name="F"><define-gate name="top"><xor><basic-event name="a"/><basic-event name="b"/></xor></define-gate><define-basic-event name="a"><float value="0.25"/></define-basic-event><define-basic-event name="b"><float value="0.125"/></define-basic-event></define-fault-tree></opsa-mef>
$ --prime-implicants --rare-event m.xml => Done
{report bdd ... prime-implicants ... 20}
mission-time 8760.000000000000 8760.000000000000
cut-off 0.000000000000
top-event F top
- 2 0.218750000000 0.218750000000 a ~b
- 2 0.093750000000 0.093750000000 ~a b
count 2
rare-event 0.312500000000 0.312500000000
$ --prime-implicants --mcub --cut-off 0.1 m.xml => Done
{report bdd ... prime-implicants ... 20}
mission-time 8760.000000000000 8760.000000000000
cut-off 0.100000000000
top-event F top
- 2 0.218750000000 0.218750000000 a ~b
count 1
mcub 0.218750000000 0.218750000000"#;
