ghost use Rattle.std.specs.Prelude.{◌≡◌, ◌++◌, [], Option, codes, decimal, if◌then◌else◌};
ghost use Rattle.psa_logic.specs.Products.{literal_number};
ghost use Rattle.psa_model.specs.Literals.{literals_of};
ghost use Rattle.psa_model.specs.Report.{literal_text, literals_text, product_text, ends_text};
ghost use Rattle.psa_report.specs.Lines.{order_text, spaced_bound, spaced_literals};
ghost use Rattle.psa_report.specs.Pieces.{Writes};

use crate::WriteFault;
use crate::intervals::put_interval;
use crate::names::put_ranked;
use crate::pieces::{put_all, put_bytes, put_one};
use crate::units::{is_in_unit, spaced_units};
use itoa::Buffer;
use psa_model::{EventNumber, Expanded, Literal, Product, Ranks};
use psa_number::Interval;
use psa_ports::Sink;

/// Writes the line of a product: its order, its bound in decimals where there is one, and its literals joined by
/// one space: the names of events, behind `~` those that do not occur. A product without literals is `unity`,
/// and the name of what does not stand is empty.
/// Refuses only where the sink does; a prefix of the line was written then.
pub fn write_product<S: Sink>(
    out: &mut S,
    expanded: &Expanded,
    ranks: &Ranks,
    product: &Product,
    bound: Option<Interval>,
) -> Result<(), WriteFault>
    ensures { Writes (S.written out.old) (S.written out.new) (S.faults out.old) (S.faults out.new)
        (product_text expanded.now ranks.now bound (literals_of product.now.items)) result }
{
    put_order(out, product.len())?;
    put_bound(out, bound)?;
    put_literals(out, expanded, ranks.as_slice(), product.as_slice())?;
    put_one(out, "\n")
}

/// Writes the beginning of a product's line, its order.
pub(crate) fn put_order<S: Sink>(out: &mut S, order: usize) -> Result<(), WriteFault>
    ensures { Writes (S.written out.old) (S.written out.new) (S.faults out.old) (S.faults out.new)
        (order_text order) result }
{
    put_all(out, &["- ", Buffer::new().format(order)])
}

/// Writes a bound behind a space, where there is one.
fn put_bound<S: Sink>(out: &mut S, bound: Option<Interval>) -> Result<(), WriteFault>
    ensures { Writes (S.written out.old) (S.written out.new) (S.faults out.old) (S.faults out.new)
        (spaced_bound bound) result }
{
    match bound {
        None => put_all(out, &[]),
        Some(bound) => put_some_bound(out, bound),
    }
}

/// Writes a bound behind a space; in one piece where it is within 0 and 1.
pub(crate) fn put_some_bound<S: Sink>(out: &mut S, bound: Interval) -> Result<(), WriteFault>
    ensures { Writes (S.written out.old) (S.written out.new) (S.faults out.old) (S.faults out.new)
        (codes " " ++ ends_text bound) result }
{
    if is_in_unit(bound.lo) && is_in_unit(bound.hi) {
        return put_bytes(out, &spaced_units(bound.lo, bound.hi));
    }
    put_wide_bound(out, bound)
}

/// Writes any bound behind a space.
fn put_wide_bound<S: Sink>(out: &mut S, bound: Interval) -> Result<(), WriteFault>
    ensures { Writes (S.written out.old) (S.written out.new) (S.faults out.old) (S.faults out.new)
        (codes " " ++ ends_text bound) result }
{
    put_one(out, " ")?;
    put_interval(out, bound)
}

/// Writes literals, each behind a space, or `unity` where there is none.
fn put_literals<S: Sink>(
    out: &mut S,
    expanded: &Expanded,
    ranks: &[EventNumber],
    literals: &[Literal],
) -> Result<(), WriteFault>
    ensures { Writes (S.written out.old) (S.written out.new) (S.faults out.old) (S.faults out.new)
        (codes " " ++ literals_text expanded.now ranks.now (literals_of literals.now)) result }
{
    if literals.is_empty() {
        return put_one(out, " unity");
    }
    put_each(out, expanded, ranks, literals)
}

/// Writes literals, each behind a space.
fn put_each<S: Sink>(
    out: &mut S,
    expanded: &Expanded,
    ranks: &[EventNumber],
    literals: &[Literal],
) -> Result<(), WriteFault>
    ensures { Writes (S.written out.old) (S.written out.new) (S.faults out.old) (S.faults out.new)
        (spaced_literals (record { expanded = expanded.now; ranks = ranks.now }) literals.now)
        result }
{
    for literal in literals {
        put_literal(out, expanded, ranks, *literal)?;
    }
    Ok(())
}

/// Writes a literal behind a space: the name of its event, behind `~` where it does not occur.
pub(crate) fn put_literal<S: Sink>(
    out: &mut S,
    expanded: &Expanded,
    ranks: &[EventNumber],
    literal: Literal,
) -> Result<(), WriteFault>
    ensures { Writes (S.written out.old) (S.written out.new) (S.faults out.old) (S.faults out.new)
        (codes " " ++ literal_text expanded.now ranks.now
        (literal_number literal.rank literal.occurs)) result }
{
    put_one(out, spaced_sign(literal.occurs))?;
    put_ranked(out, expanded, ranks, literal.rank)
}

/// What stands before the name of an event that occurs, or does not.
fn spaced_sign(occurs: bool) -> &'static str
    ensures { result.now ≡ codes " " ++ (if occurs then [] else codes "~") }
{
    if occurs { " " } else { " ~" }
}
