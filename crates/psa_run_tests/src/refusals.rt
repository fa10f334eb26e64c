//! Words and models that are refused.

/// Faults of names, in one file and in two.
#[rattlefmt::skip]
pub const NAMES: &str = r#"
# a gate that no file defines
@ one.xml
{one}
$ one.xml => BadModel
! scram: one.xml:3: undefined G2

# a gate that the second file does not define
@ one.xml
{one}
@ u.xml
{second <define-gate name="G2"><gate name="G9"/></define-gate>}
$ one.xml u.xml => BadModel
! scram: u.xml:3: undefined G9

# a name that the first file has
@ one.xml
{one}
@ d.xml
{second <define-gate name="a"><constant value="true"/></define-gate>}
$ one.xml d.xml => BadModel
! scram: d.xml:3: duplicate a

# gates that refer to one another
@ one.xml
{one}
@ c.xml
{second <define-gate name="G2"><gate name="G1"/></define-gate>}
$ one.xml c.xml => BadModel
! scram: one.xml:3: cycle G1

# a house event in the place of a gate
@ one.xml
{one}
@ k.xml
{second <define-house-event name="G2"/>}
$ one.xml k.xml => BadModel
! scram: one.xml:3: wrong kind G2

# a group without factors
@ b.xml
{bad-group}
$ b.xml => BadModel
! scram: b.xml:2: bad group G

# a functional event that no tree has
@ if.xml
{condition FX}
$ if.xml => BadModel
! scram: if.xml:9: undefined FX

# a path that begins too low
@ comp.xml
{components P.g ... <define-basic-event name="x"/>}
$ comp.xml => BadModel
! scram: comp.xml:3: undefined P.g

# an event of another component
@ comp.xml
{components F.P.g ... <define-basic-event name="s"/>}
$ comp.xml => BadModel
! scram: comp.xml:9: undefined x"#;

/// Faults of the text and of the shape.
#[rattlefmt::skip]
pub const SHAPES: &str = r#"
# a mark that is open
@ m.xml <opsa-mef name="x
$ m.xml => BadModel
! scram: m.xml:1: bad markup

# no text
@ m.xml
$ m.xml => BadModel
! scram: m.xml:1: bad nesting

# an element out of its place
@ m.xml <opsa-mef><if/></opsa-mef>
$ m.xml => BadModel
! scram: m.xml:1: unknown element if

# more than there are
@ m.xml
{gate <atleast min="3"><basic-event name="a"/><basic-event name="b"/></atleast>}
$ m.xml => BadModel
! scram: m.xml:1: bad shape atleast"#;

/// Faults of values, which are looked for only where quantities are asked for.
#[rattlefmt::skip]
pub const VALUES: &str = r#"
# no value
@ m.xml
{event}
$ --rare-event m.xml => BadModel
! scram: m.xml:1: no value a
$ --validate --mcub m.xml => BadModel
! scram: m.xml:1: no value a
$ m.xml => Done
{report bdd ... minimal-cut-sets ... 20}
top-event F top
- 1 a
count 1

# a divisor of 0
@ m.xml
{event <div><int value="1"/><int value="0"/></div>}
$ --rare-event m.xml => BadModel
! scram: m.xml:1: zero divisor a
$ m.xml => Done
{report bdd ... minimal-cut-sets ... 20}
top-event F top
- 1 a
count 1

# more than a million
@ m.xml
{event <mul><float value="1e6"/><int value="10"/></mul>}
$ --rare-event m.xml => BadModel
! scram: m.xml:1: too large a
$ m.xml => Done
{report bdd ... minimal-cut-sets ... 20}
top-event F top
- 1 a
count 1

# a rate below 0
@ m.xml
{event <exponential><int value="-1"/><int value="1"/></exponential>}
$ --rare-event m.xml => BadModel
! scram: m.xml:1: negative rate a
$ m.xml => Done
{report bdd ... minimal-cut-sets ... 20}
top-event F top
- 1 a
count 1

# more than 1
@ m.xml
{event <float value="1.5"/>}
$ --rare-event m.xml => BadModel
! scram: m.xml:1: not a probability a
$ m.xml => Done
{report bdd ... minimal-cut-sets ... 20}
top-event F top
- 1 a
count 1"#;

/// The order of the checks over several files.
#[rattlefmt::skip]
pub const ORDER: &str = r#"
# the texts of all files before the names
@ m.xml <opsa-mef/>
@ n.xml
$ m.xml n.xml => BadModel
! scram: n.xml:1: bad nesting

# the texts of all files before the shape of the first
@ m.xml
<opsa-mef>
<define-rule/>
</opsa-mef>
@ n.xml
$ m.xml n.xml => BadModel
! scram: n.xml:1: bad nesting

# the shape of the first file before that of the second
@ m.xml
<opsa-mef>
<define-rule/>
</opsa-mef>
@ n.xml <opsa-mef><if/></opsa-mef>
$ m.xml n.xml => BadModel
! scram: m.xml:2: bad attribute name

# the shape of all files before the names
@ m.xml
{one}
@ n.xml <opsa-mef><if/></opsa-mef>
$ m.xml n.xml => BadModel
! scram: n.xml:1: unknown element if

# each check of names goes through all files before the next begins
@ one.xml
{one}
@ c.xml
{second <define-gate name="G2"><gate name="G1"/></define-gate>}
@ b.xml
{bad-group}
$ one.xml c.xml b.xml => BadModel
! scram: b.xml:2: bad group G

# a file twice
@ two.xml
{two}
$ two.xml two.xml => BadModel
! scram: two.xml:2: duplicate TwoTrains

# names before values
@ one.xml
{one}
$ --mcub one.xml => BadModel
! scram: one.xml:3: undefined G2

# a file is opened when the text of the one before is sound
@ m.xml
$ m.xml n.xml => BadModel
! scram: m.xml:1: bad nesting

# a file that is missing
@ m.xml
<opsa-mef>
<define-rule/>
</opsa-mef>
$ m.xml n.xml => ReadFault
! scram: cannot read n.xml"#;

/// Words that are refused.
#[rattlefmt::skip]
pub const WORDS: &str = r#"
# nothing is opened, also where the file stands
@ two.xml
{two}
$  => BadWords, no file opened
! scram: bad words
usage: scram [options] FILE...
$ --prime-implicants --zbdd two.xml => BadWords, no file opened
! scram: bad words
usage: scram [options] FILE...
$ -l=0 two.xml => BadWords, no file opened
! scram: bad words
usage: scram [options] FILE...
$ -l 33 two.xml => BadWords, no file opened
! scram: bad words
usage: scram [options] FILE...
$ --bdd --bdd two.xml => BadWords, no file opened
! scram: bad words
usage: scram [options] FILE...
$ --cut-off 1.5 two.xml => BadWords, no file opened
! scram: bad words
usage: scram [options] FILE...
$ --sample 5 two.xml => BadWords, no file opened
! scram: bad words
usage: scram [options] FILE...
$ --rare-event --mcub two.xml => BadWords, no file opened
! scram: bad words
usage: scram [options] FILE...
$ --help => BadWords, no file opened
! scram: bad words
usage: scram [options] FILE..."#;
