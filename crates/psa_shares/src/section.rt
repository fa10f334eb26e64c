ghost use Rattle.std.specs.Prelude.{◌≡◌, ◌<◌, ◌≤◌, ◌++◌, ℕ, Bool, true, List, [], Some, IfSome, codes, length};
ghost use Rattle.std.specs.List.{All, filter, slice_get};
ghost use Rattle.psa_logic.specs.Products.{IsListing};
ghost use Rattle.psa_model.specs.declared.targets.Target.{Target as TargetValue};
ghost use Rattle.psa_model.specs.Literals.{literals_of};
ghost use Rattle.psa_model.specs.Names.{ranked_text};
ghost use Rattle.psa_model.specs.Report.{IsProductOf, is_kept_in};
ghost use Rattle.psa_nodes.specs.Readings.{has};
ghost use Rattle.psa_number.specs.Operations.{IsInUnit};
ghost use Rattle.psa_outcome.specs.Loading.{IsLoaded, loaded_analysis};
ghost use Rattle.psa_products.specs.Products.{product_of};
ghost use Rattle.psa_products.specs.Rules.{IsRuled};
ghost use Rattle.psa_report.specs.Pieces.{Writes};
ghost use Rattle.psa_sections.specs.ProductNodes.{IsNodeOfProducts};
ghost use Rattle.psa_sections.specs.Writing.{bound_by, reaches as least_is_reached, totals_by};
ghost use Rattle.psa_shares.specs.EventShares.{AreShares, HasPlaces, share_of};
ghost use Rattle.psa_shares.specs.Shares.{WritesShares, holding, share_in, share_lines, sum_text};
ghost use Rattle.psa_shares.specs.Subjects.{IsSubject, IsSummed};

use crate::share::{Share, take_product};
use itoa::Buffer;
use psa_model::{MAX_COUNT, MAX_EVENTS, MAX_ORDER, Product, Ranks, Target};
use psa_nodes::{NodeId, NodeTable, Steps};
use psa_outcome::Loaded;
use psa_ports::Sink;
use psa_products::{Bounds, Lister, Rule, Totals};
use psa_report::{WriteFault, put_all, put_interval, put_ranked, write_target, write_totals};
use psa_sections::{counted_bound, least_end, reaches};
use std::marker::Brand;
use std::sync::ledger::{Blank, Ledger};

/// What a section is about: a target of what was loaded, with the node of its products.
#[derive(Drop)]
pub struct Subject<'a> {
    loaded: &'a Loaded,
    target: &'a Target,
    ranks: &'a Ranks,
    table: &'a NodeTable,
    root: NodeId,
}

/// Takes the products that a lister still gives into the shares of their events, and gives the totals of all.
fn sum_listed<R: Rule, L: Ledger>(
    subject: &Subject<'_>,
    lister: &mut Lister<'_, R>,
    shares: &mut [Share],
    steps: &mut Steps<L>,
) -> Totals
    requires values { IfSome subject.now.loaded.now.values (All IsInUnit) }
    requires places { All (HasPlaces (length shares.old)) lister.old.rest }
    requires none { AreShares subject.now.loaded.now.values subject.now.ranks.now [] shares.old }
    ensures totals { result
        ≡ totals_by subject.now.loaded.now.values subject.now.ranks.now lister.old.rest }
    ensures shares { AreShares subject.now.loaded.now.values subject.now.ranks.now
        lister.old.rest shares.new }
    ensures count { length shares.new ≡ length shares.old }
{
    let mut totals = Totals::new();
    let mut bounds = Bounds::new(&subject.loaded.values, subject.ranks);
    while lister.advance(steps) {
        let product = lister.product();
        let bound = counted_bound(&bounds.bound(product));
        take_product(shares, product.as_slice(), bound);
        totals.take(bound);
    }
    totals
}

/// Takes the products that a rule keeps into the shares of their events, and gives the totals of all. It walks once
/// through them.
fn sum_ruled<R: Rule, L: Ledger>(
    subject: &Subject<'_>,
    rule: R,
    shares: &mut [Share],
    steps: &mut Steps<L>,
) -> Totals
    requires subject { IsSubject subject.now }
    requires rule { (set : List ℕ) → has subject.now.table.now.nodes subject.now.root.0 set ≡ true
        → IsRuled (λ one. R.may rule (product_of one)) (λ one. R.says rule (product_of one)) set }
    requires places { (set : List ℕ) → has subject.now.table.now.nodes subject.now.root.0 set ≡ true
        → HasPlaces (length shares.old) set }
    requires none { AreShares subject.now.loaded.now.values subject.now.ranks.now [] shares.old }
    ensures sums { (keeps : List ℕ → Bool)
        → ((set : List ℕ) → has subject.now.table.now.nodes subject.now.root.0 set ≡ true
        → R.says rule (product_of set) (keeps set))
        → (kept : List (List ℕ))
        × IsListing (λ set. (has subject.now.table.now.nodes subject.now.root.0 set ≡ true)
        × (keeps set ≡ true)) kept
        × IsSummed subject.now kept result shares.new }
    ensures count { length shares.new ≡ length shares.old }
{
    let mut lister = Lister::new(
        subject.table,
        subject.root,
        subject.loaded.settings.limit_order,
        rule,
    );
    sum_listed(subject, &mut lister, shares, steps)
}

/// Takes the kept products into the shares of their events, and gives the totals of all.
fn sum_kept<L: Ledger>(subject: &Subject<'_>, shares: &mut [Share], steps: &mut Steps<L>) -> Totals
    requires subject { IsSubject subject.now }
    requires room { length subject.now.ranks.now ≤ length shares.old }
    requires none { AreShares subject.now.loaded.now.values subject.now.ranks.now [] shares.old }
    ensures sums { (products : List (List ℕ))
        → IsListing (IsProductOf (loaded_analysis subject.now.loaded.now) subject.now.target.now) products
        → IsSummed subject.now (filter (is_kept_in (loaded_analysis subject.now.loaded.now)
        subject.now.target.now) products) result shares.new }
    ensures count { length shares.new ≡ length shares.old }
{
    let least = least_end(&subject.loaded.settings);
    let values = &subject.loaded.values;
    let ranks = subject.ranks;
    let kept = |product: &Product| -> bool
        requires { IfSome values.now (All IsInUnit) }
        ensures { result ≡ least_is_reached least
            (bound_by values.entry.now ranks.entry.now (literals_of product.entry.now.items)) }
    { reaches(least, values, ranks, product) };
    sum_ruled(subject, kept, shares, steps)
}

/// Writes the number of the products of a share and their sum.
fn write_sum<S: Sink>(out: &mut S, share: &Share) -> Result<(), WriteFault>
    ensures { Writes (S.written out.old) (S.written out.new) (S.faults out.old) (S.faults out.new)
        (sum_text share.now.count share.now.sum) result }
{
    let mut count = Buffer::new();
    put_all(out, &[" ", count.format(share.count.min(MAX_COUNT)), " "])?;
    put_interval(out, share.sum)?;
    put_all(out, &["\n"])
}

/// Writes the line of the event with a rank, which has this share.
fn write_line<S: Sink>(
    out: &mut S,
    subject: &Subject<'_>,
    rank: u32,
    share: &Share,
) -> Result<(), WriteFault>
    ensures { Writes (S.written out.old) (S.written out.new) (S.faults out.old) (S.faults out.new)
        (codes "event " ++ (ranked_text subject.now.loaded.now.expanded subject.now.ranks.now rank
        ++ sum_text share.now.count share.now.sum)) result }
{
    put_all(out, &["event "])?;
    put_ranked(
        out,
        &subject.loaded.expanded,
        subject.ranks.as_slice(),
        rank,
    )?;
    write_sum(out, share)
}

/// Writes the line of the event with a rank, or nothing where no kept product holds it.
fn write_event<S: Sink>(
    out: &mut S,
    subject: &Subject<'_>,
    rank: u32,
    share: &Share,
) -> Result<(), WriteFault>
    requires { IsSubject subject.now }
    ensures { (kept : List (List ℕ))
        → share.now ≡ share_of subject.now.loaded.now.values subject.now.ranks.now (holding rank kept)
        → Writes (S.written out.old) (S.written out.new) (S.faults out.old) (S.faults out.new)
        (share_in (loaded_analysis subject.now.loaded.now) subject.now.target.now kept rank) result }
{
    if share.count == 0 {
        return put_all(out, &[]);
    }
    write_line(out, subject, rank, share)
}

/// Writes the lines of all events, by rank.
fn write_events<S: Sink>(
    out: &mut S,
    subject: &Subject<'_>,
    shares: &[Share],
) -> Result<(), WriteFault>
    requires subject { IsSubject subject.now }
    requires few { length subject.now.ranks.now ≤ MAX_EVENTS }
    requires room { length subject.now.ranks.now ≤ length shares.now }
    ensures { (kept : List (List ℕ))
        → AreShares subject.now.loaded.now.values subject.now.ranks.now kept shares.now
        → Writes (S.written out.old) (S.written out.new) (S.faults out.old) (S.faults out.new)
        (share_lines (loaded_analysis subject.now.loaded.now) subject.now.target.now kept) result }
{
    for rank in 0..subject.ranks.len() {
        write_event(out, subject, rank as u32, &shares[rank])?;
    }
    Ok(())
}

/// Writes the section of a target.
fn write_section<S: Sink, L: Ledger>(
    out: &mut S,
    subject: &Subject<'_>,
    blank: Blank,
) -> Result<(), WriteFault>
    requires name { blank.name ≡ L.name }
    requires parts { blank.parts ≡ L.parts }
    requires some { 0 < blank.parts }
    requires subject { IsSubject subject.now }
    requires few { length subject.now.ranks.now ≤ MAX_EVENTS }
    ensures { WritesShares (loaded_analysis subject.now.loaded.now) subject.now.target.now
        (S.written out.old) (S.written out.new) (S.faults out.old) (S.faults out.new) result }
{
    let mut steps = Steps::<L>::begin(blank);
    let mut shares = [Share::new(); MAX_EVENTS];
    write_target(out, &subject.loaded.expanded.model, subject.target)?;
    let totals = sum_kept(subject, &mut shares, &mut steps);
    write_events(out, subject, &shares)?;
    write_totals(out, &subject.loaded.settings, &totals)
}

/// Writes the section of a target: its line; for each event that stands, with either sign, in some kept product,
/// by rank, a line with its name, the number of the kept products that hold it, held at `MAX_COUNT`, and the sum of
/// their bounds, held at 1; the count of the kept products and the total that is asked for. Without intervals of the
/// events all sums are 0. `target` is the target's place, and the root reads as its products. It takes no memory.
/// Refuses only where the sink does; a prefix of the section was written then.
pub fn write_shares<S: Sink>(
    out: &mut S,
    loaded: &Loaded,
    target: u32,
    table: &NodeTable,
    root: NodeId,
) -> Result<(), WriteFault>
    requires loaded { IsLoaded loaded.now }
    requires order { loaded.now.settings.limit_order ≤ MAX_ORDER }
    requires target { target < length loaded.now.targets }
    requires products { (its : TargetValue) → slice_get loaded.now.targets target ≡ Some its
        → IsNodeOfProducts (loaded_analysis loaded.now) its table.now root.0 }
    ensures { (its : TargetValue) → slice_get loaded.now.targets target ≡ Some its
        → WritesShares (loaded_analysis loaded.now) its
        (S.written out.old) (S.written out.new) (S.faults out.old) (S.faults out.new) result }
{
    let subject = Subject {
        loaded,
        target: &loaded.targets.as_slice()[target as usize],
        ranks: &loaded.ranks.as_slice()[target as usize],
        table,
        root,
    };
    write_section::<S, Brand>(out, &subject, Blank::new(1))
}
