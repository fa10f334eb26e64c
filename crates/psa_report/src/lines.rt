ghost use Rattle.std.specs.Prelude.{◌≡◌, ◌≤◌, ◌<◌, ◌+◌, ◌++◌, ◌∷◌, [], codes, drop, length, take, IsTrue};
ghost use Rattle.psa_model.specs.Literals.{literals_of};
ghost use Rattle.psa_model.specs.Report.{ends_text, product_text};
ghost use Rattle.psa_report.specs.Lines.{Naming, made, spaced_bound, IsKept, IsExact, IsComposed};
ghost use Rattle.psa_report.specs.Pieces.{Writes};

use crate::WriteFault;
use crate::line::Line;
use crate::pieces::{put_bytes, put_one};
use crate::products::{put_literal, put_order, put_some_bound, write_product};
use psa_model::{EventNumber, Expanded, Literal, MAX_ORDER, Product, Ranks};
use psa_number::Interval;
use psa_ports::Sink;
use psa_products::common_length;
use std::marker::Model;

/// The line of a product without its bound, of which the first literals are kept from line to line.
#[derive(Drop)]
pub(crate) struct KeptLine {
    line: Line,
    /// The order that the line begins with; 0 where it has no beginning.
    order: usize,
    /// How many bytes the beginning has.
    start: usize,
    literals: [Literal; MAX_ORDER],
    /// Behind how many bytes the text of each literal ends.
    ends: [usize; MAX_ORDER],
    /// How many of the first literals and ends count.
    count: usize,
}

/// The lines of products one after another, which are written by one model and one list of ranks.
///
/// From line to line the order and the text of the first literals are kept, up to the first literal that differs.
/// It takes no memory.
#[derive(Drop)]
pub struct ProductLines<'a> {
    expanded: &'a Expanded,
    ranks: &'a Ranks,
    kept: KeptLine,
}

impl<'a> Model for ProductLines<'a> {
    ghost use Rattle.std.specs.Coded.{codes as codes_of};
    ghost use Rattle.psa_model.specs.contracts.expression.Expression as expression;
    ghost use Rattle.psa_model.specs.contracts.formula.Formula as formula;
    ghost use Rattle.psa_model.specs.contracts.walks.Branch as branch;
    ghost use Rattle.psa_model.specs.contracts.walks.Instruction as instruction;
    ghost use Rattle.psa_report.specs.Lines.{Naming, IsKept};

    ghost Value = { Naming };

    ghost coded = { Prim.hlevel (codes_of, branch.the_row.coded, expression.the_row.coded, formula.the_row.coded, instruction.the_row.coded) };

    ghost view = { λ l. record { expanded = l.expanded.now; ranks = l.ranks.now } };

    ghost invariant = { λ l.
        IsKept (record { expanded = l.expanded.now; ranks = l.ranks.now }) l.kept };
}

impl KeptLine {
    /// A line without bytes.
    fn new() -> KeptLine
        ensures { (naming : Naming) → IsKept naming result }
    {
        KeptLine {
            line: Line::new(),
            order: 0,
            start: 0,
            literals: [Literal {
                rank: 0,
                occurs: true,
            }; MAX_ORDER],
            ends: [0; MAX_ORDER],
            count: 0,
        }
    }

    /// Has the line begin with an order; false where it has no room for it.
    fn begin(&mut self, order: usize) -> bool
        requires { 0 < order }
        ensures kept { (naming : Naming) → IsKept naming self.old → IsKept naming self.new }
        ensures order { IsTrue result → self.new.order ≡ order }
    {
        if self.order == order {
            return true;
        }
        self.line.truncate(0);
        self.order = 0;
        self.start = 0;
        self.count = 0;
        if put_order(&mut self.line, order).is_err() {
            return false;
        }
        self.order = order;
        self.start = self.line.len();
        true
    }

    /// Behind how many bytes what counts ends.
    fn end(&self) -> usize
        requires { self.now.count ≤ MAX_ORDER }
        ensures { (naming : Naming) → IsKept naming self.now → result ≡ length (made naming self.now) }
    {
        if self.count == 0 {
            return self.start;
        }
        self.ends[self.count - 1]
    }

    /// Keeps those of the first literals that are also the first of these.
    fn keep(&mut self, literals: &[Literal])
        requires { self.old.count ≤ MAX_ORDER }
        ensures exact { (naming : Naming) → IsKept naming self.old → IsExact naming self.new }
        ensures order { self.new.order ≡ self.old.order }
        ensures few { self.new.count ≤ length literals.now }
        ensures same { take self.new.count self.new.literals ≡ take self.new.count literals.now }
    {
        self.count = common_length(self.literals.split_at(self.count).0, literals);
        let end = self.end();
        self.line.truncate(end);
    }

    /// Appends a literal; false where there is no room for it.
    fn push(&mut self, expanded: &Expanded, ranks: &[EventNumber], literal: Literal) -> bool
        requires exact { IsExact (record { expanded = expanded.now; ranks = ranks.now }) self.old }
        requires room { self.old.count < MAX_ORDER }
        ensures kept { IsKept (record { expanded = expanded.now; ranks = ranks.now }) self.new }
        ensures exact { IsTrue result
            → IsExact (record { expanded = expanded.now; ranks = ranks.now }) self.new }
        ensures order { self.new.order ≡ self.old.order }
        ensures count { IsTrue result → self.new.count ≡ self.old.count + 1 }
        ensures literals { IsTrue result → take self.new.count self.new.literals
            ≡ take self.old.count self.old.literals ++ literal ∷ [] }
    {
        if put_literal(&mut self.line, expanded, ranks, literal).is_err() {
            return false;
        }
        self.literals[self.count] = literal;
        self.ends[self.count] = self.line.len();
        self.count += 1;
        true
    }

    /// Has the line be what it keeps of these literals and no more, and appends the others; false where there is no
    /// room for them.
    fn take(&mut self, expanded: &Expanded, ranks: &[EventNumber], literals: &[Literal]) -> bool
        requires kept { IsKept (record { expanded = expanded.now; ranks = ranks.now }) self.old }
        requires few { length literals.now ≤ MAX_ORDER }
        ensures kept { IsKept (record { expanded = expanded.now; ranks = ranks.now }) self.new }
        ensures exact { IsTrue result
            → IsExact (record { expanded = expanded.now; ranks = ranks.now }) self.new }
        ensures order { self.new.order ≡ self.old.order }
        ensures literals { IsTrue result → take self.new.count self.new.literals ≡ literals.now }
    {
        self.keep(literals);
        while self.count < literals.len() {
            if !self.push(expanded, ranks, literals[self.count]) {
                return false;
            }
        }
        true
    }

    /// Makes the line of a product without its bound; false where the product has no literal, or the line no room.
    fn compose(&mut self, expanded: &Expanded, ranks: &[EventNumber], literals: &[Literal]) -> bool
        requires kept { IsKept (record { expanded = expanded.now; ranks = ranks.now }) self.old }
        requires few { length literals.now ≤ MAX_ORDER }
        ensures kept { IsKept (record { expanded = expanded.now; ranks = ranks.now }) self.new }
        ensures line { IsTrue result → IsComposed
            (record { expanded = expanded.now; ranks = ranks.now }) literals.now self.new }
    {
        if literals.is_empty() {
            return false;
        }
        if !self.begin(literals.len()) {
            return false;
        }
        if !self.take(expanded, ranks, literals) {
            return false;
        }
        put_one(&mut self.line, "\n").is_ok()
    }
}

/// Writes the line of a product: its beginning, its bound, and what stands behind the bound.
fn put_bounded<S: Sink>(
    out: &mut S,
    beginning: &[u8],
    bound: Interval,
    literals: &[u8],
) -> Result<(), WriteFault>
    ensures { Writes (S.written out.old) (S.written out.new) (S.faults out.old) (S.faults out.new)
        (beginning.now ++ ((codes " " ++ ends_text bound) ++ literals.now)) result }
{
    put_bytes(out, beginning)?;
    put_some_bound(out, bound)?;
    put_bytes(out, literals)
}

/// Writes the line of a product, which is made but for its bound. Its beginning has `start` bytes.
fn put_made<S: Sink>(
    out: &mut S,
    line: &[u8],
    start: usize,
    bound: Option<Interval>,
) -> Result<(), WriteFault>
    requires { start ≤ length line.now }
    ensures { Writes (S.written out.old) (S.written out.new) (S.faults out.old) (S.faults out.new)
        (take start line.now ++ (spaced_bound bound ++ drop start line.now)) result }
{
    match bound {
        None => put_bytes(out, line),
        Some(bound) => {
            let (beginning, literals) = line.split_at(start);
            put_bounded(out, beginning, bound, literals)
        }
    }
}

impl<'a> ProductLines<'a> {
    /// The lines of products of this model and of these ranks.
    pub fn new(expanded: &'a Expanded, ranks: &'a Ranks) -> ProductLines<'a>
        ensures { result ≡ record { expanded = expanded.now; ranks = ranks.now } }
    {
        ProductLines {
            expanded,
            ranks,
            kept: KeptLine::new(),
        }
    }

    /// Writes the line of a product, as `write_product` does.
    /// Refuses only where the sink does; a prefix of the line was written then.
    pub fn write<S: Sink>(
        &mut self,
        out: &mut S,
        product: &Product,
        bound: Option<Interval>,
    ) -> Result<(), WriteFault>
        ensures same { self.new ≡ self.old }
        ensures line { Writes (S.written out.old) (S.written out.new) (S.faults out.old) (S.faults out.new)
            (product_text self.old.expanded self.old.ranks bound (literals_of product.now.items))
            result }
    {
        let literals = product.as_slice();
        if !self
            .kept
            .compose(self.expanded, self.ranks.as_slice(), literals)
        {
            return write_product(out, self.expanded, self.ranks, product, bound);
        }
        put_made(out, self.kept.line.as_slice(), self.kept.start, bound)
    }
}
