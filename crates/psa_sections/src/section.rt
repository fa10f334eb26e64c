ghost use Rattle.std.specs.Prelude.{◌≡◌, ◌≤◌, ℕ, Bool, true, List, [], IfSome, OnOk, flat_map, length, unwrap_or};
ghost use Rattle.std.specs.List.{All};
ghost use Rattle.std.specs.Option.{option_map};
ghost use Rattle.psa_logic.specs.Products.{IsListing};
ghost use Rattle.psa_number.specs.Operations.{IsInUnit, decimal_ends};
ghost use Rattle.psa_model.specs.Literals.{literals_of};
ghost use Rattle.psa_model.specs.Quantities.{zero_ends};
ghost use Rattle.psa_model.specs.Ranks.{ranks_of};
ghost use Rattle.psa_nodes.specs.declared.node.Kind.TheVariants.{Zbdd};
ghost use Rattle.psa_nodes.specs.Readings.{has, stands};
ghost use Rattle.psa_products.specs.Products.{product_of};
ghost use Rattle.psa_products.specs.Rules.{IsRuled};
ghost use Rattle.psa_products.specs.Sums.{taken};
ghost use Rattle.psa_report.specs.Pieces.{Writes};
ghost use Rattle.psa_sections.specs.ProductNodes.{IsNodeOfProducts, analysis_by};
ghost use Rattle.psa_sections.specs.Writing.{AreAsked, WritesSection, bound_by, line_by, text_by, reaches as least_is_reached, totals_by};

use psa_model::{Expanded, MAX_ORDER, Product, Ranks, Settings, Target, Values};
use psa_nodes::{NodeId, NodeTable, Steps};
use psa_number::{Interval, interval_of};
use psa_ports::Sink;
use psa_products::{Bounds, Lister, Rule, Totals, bound};
use psa_report::{ProductLines, WriteFault, write_target, write_totals};
use std::sync::ledger::Ledger;

/// What a section is about, and what the lines of its products are written by.
#[derive(Drop)]
struct Subject<'a> {
    settings: &'a Settings,
    expanded: &'a Expanded,
    values: &'a Option<Values>,
    target: &'a Target,
    ranks: &'a Ranks,
}

/// The bound of a product, where there are intervals of the events.
pub fn product_bound(values: &Option<Values>, ranks: &Ranks, product: &Product) -> Option<Interval>
    requires { IfSome values.now (All IsInUnit) }
    ensures exact { result ≡ bound_by values.now ranks.now (literals_of product.now.items) }
    ensures in_unit { IfSome result IsInUnit }
{
    match values {
        Some(intervals) => Some(bound(intervals, ranks, product)),
        None => None,
    }
}

/// The least upper end that the cutoff keeps, in units.
pub fn least_end(settings: &Settings) -> Option<i128>
    ensures { result ≡ option_map (λ decimal. (decimal_ends decimal).hi) settings.now.cut_off }
{
    match settings.cut_off {
        Some(cut_off) => Some(interval_of(cut_off).hi),
        None => None,
    }
}

/// Whether the bound of a product reaches the least upper end; it is computed only where there is one.
pub fn reaches(
    least: Option<i128>,
    values: &Option<Values>,
    ranks: &Ranks,
    product: &Product,
) -> bool
    requires { IfSome values.now (All IsInUnit) }
    ensures { result
        ≡ least_is_reached least (bound_by values.now ranks.now (literals_of product.now.items)) }
{
    let Some(least) = least else {
        return true;
    };
    match product_bound(values, ranks, product) {
        Some(bound) => least <= bound.hi,
        None => true,
    }
}

/// The bound that the totals take: 0, which changes no sum, where a product has none.
pub fn counted_bound(bound: &Option<Interval>) -> Interval
    requires { IfSome bound.now IsInUnit }
    ensures exact { result ≡ unwrap_or bound.now zero_ends }
    ensures in_unit { IsInUnit result }
{
    bound.unwrap_or(Interval { lo: 0, hi: 0 })
}

/// Takes one more product with this bound into the totals that the settings ask for.
fn count(totals: &mut Totals, settings: &Settings, bound: Interval)
    requires { IsInUnit bound }
    ensures { AreAsked settings.now totals.new (taken totals.old bound) }
{
    if settings.mcub {
        totals.take(bound);
    } else {
        totals.take_sum(bound);
    }
}

/// Writes the lines of the products of a listing, and takes each into the totals.
fn write_listed<S: Sink, R: Rule, L: Ledger>(
    out: &mut S,
    subject: &Subject<'_>,
    lister: &mut Lister<'_, R>,
    totals: &mut Totals,
    steps: &mut Steps<L>,
) -> Result<(), WriteFault>
    requires values { IfSome subject.now.values.now (All IsInUnit) }
    requires totals { totals.old ≡ totals_by subject.now.values.now subject.now.ranks.now [] }
    ensures lines { Writes (S.written out.old) (S.written out.new) (S.faults out.old) (S.faults out.new)
        (flat_map (line_by subject.now.expanded.now subject.now.values.now subject.now.ranks.now)
        lister.old.rest) result }
    ensures totals { OnOk result (AreAsked subject.now.settings.now totals.new
        (totals_by subject.now.values.now subject.now.ranks.now lister.old.rest)) }
{
    let mut lines = ProductLines::new(subject.expanded, subject.ranks);
    let mut bounds = Bounds::new(subject.values, subject.ranks);
    while lister.advance(steps) {
        let product = lister.product();
        let bound = bounds.bound(product);
        let counted = counted_bound(&bound);
        lines.write(out, product, bound)?;
        count(totals, subject.settings, counted);
    }
    Ok(())
}

/// Writes the section over the products that a rule keeps.
fn write_kept<S: Sink, R: Rule, L: Ledger>(
    out: &mut S,
    subject: &Subject<'_>,
    table: &NodeTable,
    root: NodeId,
    rule: R,
    steps: &mut Steps<L>,
) -> Result<(), WriteFault>
    requires root { stands Zbdd 0 table.now.nodes root.0 ≡ true }
    requires limit { subject.now.settings.now.limit_order ≤ MAX_ORDER }
    requires within { (set : List ℕ) → has table.now.nodes root.0 set ≡ true
        → length set ≤ subject.now.settings.now.limit_order }
    requires rule { (set : List ℕ) → has table.now.nodes root.0 set ≡ true
        → IsRuled (λ one. R.may rule (product_of one)) (λ one. R.says rule (product_of one)) set }
    requires values { IfSome subject.now.values.now (All IsInUnit) }
    ensures { (keeps : List ℕ → Bool)
        → ((set : List ℕ) → has table.now.nodes root.0 set ≡ true
        → R.says rule (product_of set) (keeps set))
        → (kept : List (List ℕ))
        × IsListing (λ set. (has table.now.nodes root.0 set ≡ true) × (keeps set ≡ true)) kept
        × Writes (S.written out.old) (S.written out.new) (S.faults out.old) (S.faults out.new)
        (text_by subject.now.settings.now subject.now.expanded.now subject.now.values.now
        subject.now.target.now subject.now.ranks.now kept) result }
{
    let mut lister = Lister::new(table, root, subject.settings.limit_order, rule);
    let mut totals = Totals::new();
    write_target(out, &subject.expanded.model, subject.target)?;
    write_listed(out, subject, &mut lister, &mut totals, steps)?;
    write_totals(out, subject.settings, &totals)
}

/// Writes the section of a target: its line, each product that the cutoff keeps once, in order, with its bound
/// where there are intervals of the events, their count, and the total that is asked for. The root is the family
/// of the target's products. It takes no memory.
/// Refuses only where the sink does; a prefix of the section was written then.
pub fn write_section<S: Sink, L: Ledger>(
    out: &mut S,
    settings: &Settings,
    expanded: &Expanded,
    values: &Option<Values>,
    target: &Target,
    ranks: &Ranks,
    table: &NodeTable,
    root: NodeId,
    steps: &mut Steps<L>,
) -> Result<(), WriteFault>
    requires products { IsNodeOfProducts (analysis_by settings.now expanded.now values.now)
        target.now table.now root.0 }
    requires limit { settings.now.limit_order ≤ MAX_ORDER }
    requires ranks { ranks.now ≡ ranks_of expanded.now target.now }
    requires values { IfSome values.now (All IsInUnit) }
    ensures { WritesSection (analysis_by settings.now expanded.now values.now) target.now
        (S.written out.old) (S.written out.new) (S.faults out.old) (S.faults out.new) result }
{
    let subject = Subject {
        settings,
        expanded,
        values,
        target,
        ranks,
    };
    let least = least_end(settings);
    let kept = |product: &Product| -> bool
        requires { IfSome values.now (All IsInUnit) }
        ensures { result ≡ least_is_reached least
            (bound_by values.entry.now ranks.entry.now (literals_of product.entry.now.items)) }
    { reaches(least, values, ranks, product) };
    write_kept(out, &subject, table, root, kept, steps)
}
