use crate::lines::put;
use crate::loading::{load_row, settings_for};
use psa_model::{FaultKind, Input, Literal, ModelFault, Product};
use psa_number::Interval;
use psa_outcome::Loaded;
use psa_ports::MemorySink;
use psa_products::Totals;
use psa_report::{write_fault, write_head, write_product, write_target, write_totals};
use psa_text::{Items, OutOfMemory, Text};
use std::alloc::Global;
use std::test::*;

/// A group of three members, a private event, and an event tree.
const MODEL: &str = "\
<define-initiating-event name='I' event-tree='T'/>
<define-event-tree name='T'><define-sequence name='S'/>
<initial-state><collect-formula><gate name='top'/></collect-formula><sequence name='S'/></initial-state>
</define-event-tree>
<define-fault-tree name='F'>
<define-gate name='top'><and><basic-event name='A'/><basic-event name='B'/><basic-event name='C'/>
<basic-event name='x'/><basic-event name='F.D.e'/></and></define-gate>
<define-CCF-group name='G' model='MGL'>
<members><basic-event name='A'/><basic-event name='B'/><basic-event name='C'/></members>
<distribution><float value='0.1'/></distribution>
<factor level='2'><float value='0.2'/></factor><factor level='3'><float value='0.5'/></factor>
</define-CCF-group>
<define-component name='D'><define-basic-event name='e' role='private'/></define-component>
<define-basic-event name='x'/>
</define-fault-tree>
";

/// Words of settings.
const SETTINGS: [&str; 5] = [
    "",
    "zbdd long mcub ",
    "primes rare time 1e-20 ",
    "cut 0.0002000000001 time 0 ",
    "cut 1 long mcub ",
];

/// The heads of reports by these settings.
const HEADS: &str = "\
scram report
algorithm bdd
products minimal-cut-sets
limit-order 20
scram report
algorithm zbdd
products minimal-cut-sets
limit-order 32
mission-time 8760.000000000000 8760.000000000000
cut-off 0.000000000000
scram report
algorithm bdd
products prime-implicants
limit-order 20
mission-time 0.000000000000 0.000000000001
cut-off 0.000000000000
scram report
algorithm bdd
products minimal-cut-sets
limit-order 20
mission-time 0.000000000000 0.000000000000
cut-off 0.000200000001
scram report
algorithm bdd
products minimal-cut-sets
limit-order 32
mission-time 8760.000000000000 8760.000000000000
cut-off 1.000000000000
";

/// The lines of the model's targets, of products and of totals, with its group expanded and not.
const SECTIONS: &str = "\
top-event F top
sequence I T S
- 0 unity
- 0 1.000000000000 1.000000000000 unity
- 1 [A]
- 3 ~[A B] [A C] ~[A B C]
- 4 0.000000000001 0.012345678901 [B] [B C] ~[C] x
- 1 ~F.D.e
- 2 [A] ~
top-event F top
sequence I T S
- 0 unity
- 0 1.000000000000 1.000000000000 unity
- 1 A
- 3 ~B C ~x
- 4 0.000000000001 0.012345678901 F.D.e  ~ 
- 1 ~
- 2 A ~
count 0
count 0
mcub 0.000000000000 0.000000000000
count 0
rare-event 0.000000000000 0.000000000000
count 0
count 0
mcub 0.000000000000 0.000000000000
count 2
count 2
mcub 0.625000000000 0.625000000000
count 2
rare-event 0.750000000000 0.750000000000
count 2
count 2
mcub 0.625000000000 0.625000000000
count 3
count 3
mcub 0.812500000000 1.000000000000
count 3
rare-event 1.000000000000 1.000000000000
count 3
count 3
mcub 0.812500000000 1.000000000000
";

/// Kinds of faults with a name, and what is told of each: no name of a fault of a text.
#[rattlefmt::skip]
const FAULTS: [(FaultKind, &str, &str); 23] = [
    (FaultKind::LongFile, "a", "file too long"),
    (FaultKind::BadMarkup, "gate", "bad markup"),
    (FaultKind::LongToken, "G1", "token too long"),
    (FaultKind::BadNesting, "F.C", "bad nesting"),
    (FaultKind::UnknownElement, "if", "unknown element if"),
    (FaultKind::BadAttribute, "role", "bad attribute role"),
    (FaultKind::BadNumber, "value", "bad number value"),
    (FaultKind::BadName, "gate", "bad name gate"),
    (FaultKind::BadShape, "atleast", "bad shape atleast"),
    (FaultKind::Duplicate, "a", "duplicate a"),
    (FaultKind::Undefined, "G2", "undefined G2"),
    (FaultKind::WrongKind, "G2", "wrong kind G2"),
    (FaultKind::BadGroup, "G", "bad group G"),
    (FaultKind::Cycle, "G1", "cycle G1"),
    (FaultKind::TooDeep, "g1", "too deep g1"),
    (FaultKind::LongPath, "I", "long path I"),
    (FaultKind::TooManyPaths, "I", "too many paths I"),
    (FaultKind::TooManyEvents, "top", "too many events top"),
    (FaultKind::NoValue, "a", "no value a"),
    (FaultKind::ZeroDivisor, "a", "zero divisor a"),
    (FaultKind::TooLarge, "a", "too large a"),
    (FaultKind::NegativeRate, "a", "negative rate a"),
    (FaultKind::NotProbability, "F.C.a", "not a probability F.C.a"),
];

/// Products as literals, ranks, each with whether the event occurs, and their bounds.
#[rattlefmt::skip]
const PRODUCTS: [(&[(u32, bool)], Option<Interval>); 7] = [
    (&[], None),
    (&[], Some(Interval { lo: 1_000_000_000_000, hi: 1_000_000_000_000 })),
    (&[(0, true)], None),
    (&[(1, false), (2, true), (3, false)], None),
    (&[(4, true), (5, true), (6, false), (7, true)], Some(Interval { lo: 1, hi: 12_345_678_901 })),
    (&[(8, false)], None),
    (&[(0, true), (4_000_000_000, false)], None),
];

/// The product of literals: ranks, each with whether the event occurs.
fn product_of(literals: &[(u32, bool)]) -> Product {
    let mut product = Product::new();
    for (rank, occurs) in literals {
        let _pushed = product.try_push(Literal {
            rank: *rank,
            occurs: *occurs,
        });
    }
    product
}

/// A sink with ample room that takes at most seven bytes a write.
fn sink(alloc: Global) -> Result<MemorySink, OutOfMemory> {
    MemorySink::new(alloc, 10_000, 7, Items::new(alloc))
}

/// Writes the heads of reports by all settings. What is refused is left out, here and below, and what is written then
/// differs from what is wanted.
fn put_heads(out: &mut MemorySink) {
    for words in SETTINGS {
        let settings = settings_for(Input::Sample(2), words);
        let _left_out = write_head(out, &settings);
    }
}

/// Writes the lines of the targets.
fn put_targets(out: &mut MemorySink, loaded: &Loaded) {
    for target in loaded.targets.as_slice() {
        let _left_out = write_target(out, &loaded.expanded.model, target);
    }
}

/// Writes the lines of products of the first target.
fn put_products(out: &mut MemorySink, loaded: &Loaded) {
    if let Some(ranks) = loaded.ranks.get(0) {
        for (literals, bound) in PRODUCTS {
            let product = product_of(literals);
            let _left_out = write_product(out, &loaded.expanded, ranks, &product, bound);
        }
    }
}

/// Writes the lines of the model's targets and products, by words.
fn put_model(alloc: Global, out: &mut MemorySink, words: &str) {
    if let Ok(loaded) = load_row(alloc, words, MODEL) {
        put_targets(out, &loaded);
        put_products(out, &loaded);
    }
}

/// Writes the totals by all settings.
fn put_totals(out: &mut MemorySink, totals: &Totals) {
    for words in SETTINGS {
        let settings = settings_for(Input::Sample(2), words);
        let _left_out = write_totals(out, &settings, totals);
    }
}

/// Writes the totals of no product, of two, and of three.
fn put_sums(out: &mut MemorySink) {
    let mut totals = Totals::new();
    put_totals(out, &totals);
    totals.take(Interval {
        lo: 500_000_000_000,
        hi: 500_000_000_000,
    });
    totals.take(Interval {
        lo: 250_000_000_000,
        hi: 250_000_000_000,
    });
    put_totals(out, &totals);
    totals.take(Interval {
        lo: 500_000_000_000,
        hi: 1_000_000_000_000,
    });
    put_totals(out, &totals);
}

#[test]
fn reports_are_written(rt: HostRuntime) {
    let mut heads = sink(rt.alloc()).expect(&rt, "memory");
    put_heads(&mut heads);
    assert_eq!(rt; heads.written(), HEADS.as_bytes());
    let mut sections = sink(rt.alloc()).expect(&rt, "memory");
    put_model(rt.alloc(), &mut sections, "ccf");
    put_model(rt.alloc(), &mut sections, "");
    put_sums(&mut sections);
    assert_eq!(rt; sections.written(), SECTIONS.as_bytes());
}

/// Writes the line of a fault.
fn put_fault(
    alloc: Global,
    err: &mut MemorySink,
    kind: FaultKind,
    name: &str,
) -> Result<(), OutOfMemory> {
    let file = Text::from_str(alloc, "dir/my file.xml")?;
    let name = Text::from_str(alloc, name)?;
    let fault = ModelFault {
        kind,
        file: 3,
        line: 4_000_000_000,
        name,
    };
    let _left_out = write_fault(err, &fault, &file);
    Ok(())
}

#[test]
fn fault_lines_are_written(rt: HostRuntime) {
    let mut err = sink(rt.alloc()).expect(&rt, "memory");
    let mut wanted = String::new(rt.alloc());
    for (kind, name, told) in FAULTS {
        let _left_out = put_fault(rt.alloc(), &mut err, kind, name);
        put(&mut wanted, "scram: dir/my file.xml:4000000000: ");
        put(&mut wanted, told);
        put(&mut wanted, "\n");
    }
    assert_eq!(rt; err.written(), wanted.as_bytes());
}
