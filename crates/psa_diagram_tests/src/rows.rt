ghost use Rattle.std.specs.Prelude.{◌≡◌, ◌<◌};
ghost use Rattle.psa_nodes.specs.Nodes.{IsBounded};

use crate::calls::TABLES;
use crate::lines::{put, put_number};
use crate::making::{Call, answer};
use crate::triples::node;
use psa_nodes::{Kind, Node, NodeError, NodeId, NodeTable, Steps};
use std::alloc::Global;
use std::marker::Brand;
use std::process::Abort;
use std::sync::ledger::{Blank, Ledger};

/// The call of a name, None where there is no such call.
fn call_of(name: &str) -> Option<Call> {
    Some(match name {
        "and" => Call::And,
        "or" => Call::Or,
        "union" => Call::Union,
        "without" => Call::Without,
        "product" => Call::Product,
        "positive" => Call::Positive,
        "minimal" => Call::Minimal,
        "cuts" => Call::Cuts,
        "primes" => Call::Primes,
        "bdd" => Call::Bdd,
        "zbdd" => Call::Zbdd,
        _ => return None,
    })
}

/// A node by its number, or why there is none.
fn put_node(out: &mut String, node: Result<NodeId, NodeError>) {
    match node {
        Ok(node) => {
            put(out, "#");
            put_number(out, &node.0);
        }
        Err(NodeError::Full) => put(out, "full"),
        Err(NodeError::Memory) => put(out, "no memory"),
    }
}

/// A triple by its kind, its variable and the numbers of its two nodes.
fn put_triple(out: &mut String, node: Option<Node>) {
    match node {
        Some(node) => {
            put(
                out,
                if node.kind == Kind::Bdd {
                    "bdd "
                } else {
                    "zbdd "
                },
            );
            put_number(out, &node.var);
            put(out, " #");
            put_number(out, &node.hi.0);
            put(out, " #");
            put_number(out, &node.lo.0);
        }
        None => put(out, "none"),
    }
}

/// What a call answers of the operands that a text names.
fn answer_of<L: Ledger>(
    rt: &impl Abort,
    alloc: Global,
    table: &mut NodeTable,
    call: Call,
    limit: &str,
    operands: &str,
    steps: &mut Steps<L>,
) -> Result<NodeId, NodeError>
    requires { IsBounded table.old.nodes }
    ensures { IsBounded table.new.nodes }
{
    let (left, right) = operands.split_once(' ').unwrap_or((operands, "F"));
    let limit = limit.parse::<u8>().unwrap_or(u8::MAX);
    let left = node(rt, alloc, table, call.operands(), left, steps)?;
    let right = node(rt, alloc, table, call.operands(), right, steps)?;
    answer(rt, table, call, limit, left, right, steps)
}

/// Appends what a call answers, or what the table says of itself.
fn put_found<L: Ledger>(
    rt: &impl Abort,
    alloc: Global,
    out: &mut String,
    table: &mut NodeTable,
    call: &str,
    steps: &mut Steps<L>,
)
    requires { IsBounded table.old.nodes }
    ensures { IsBounded table.new.nodes }
{
    let (head, operands) = call.split_once(' ').unwrap_or((call, ""));
    let (name, limit) = head.split_once(':').unwrap_or((head, ""));
    if let Some(call) = call_of(name) {
        put_node(
            out,
            answer_of(rt, alloc, table, call, limit, operands, steps),
        );
        return;
    }
    match name {
        "nodes" => put_number(out, &table.len()),
        "entries" => put_number(out, &table.entries()),
        "refused" => put_triple(out, table.refused()),
        _ => put(out, "no such call"),
    }
}

/// Appends what is wanted of a call: a node by its number, anything else as it stands.
fn put_wanted<L: Ledger>(
    rt: &impl Abort,
    alloc: Global,
    out: &mut String,
    table: &mut NodeTable,
    call: &str,
    wanted: &str,
    steps: &mut Steps<L>,
)
    requires { IsBounded table.old.nodes }
    ensures { IsBounded table.new.nodes }
{
    let (name, _) = call.split_once([' ', ':']).unwrap_or((call, ""));
    match call_of(name) {
        Some(call) if wanted.ends_with(['T', 'F', 'U', 'E', ')']) => {
            put_node(out, node(rt, alloc, table, call.answer(), wanted, steps));
        }
        _ => put(out, wanted),
    }
}

/// Tells of a row that does not hold.
fn put_if_wrong<L: Ledger>(
    rt: &impl Abort,
    alloc: Global,
    wrong: &mut String,
    table: &mut NodeTable,
    row: &str,
    steps: &mut Steps<L>,
)
    requires { IsBounded table.old.nodes }
    ensures { IsBounded table.new.nodes }
{
    let (call, told) = row.split_once(" => ").unwrap_or((row, "an answer"));
    let mut found = String::new(alloc);
    put_found(rt, alloc, &mut found, table, call, steps);
    let mut wanted = String::new(alloc);
    put_wanted(rt, alloc, &mut wanted, table, call, told, steps);
    if found.as_str() != wanted.as_str() {
        put(wrong, row);
        put(wrong, ", which is ");
        put(wrong, wanted.as_str());
        put(wrong, ", but found: ");
        put(wrong, found.as_str());
        put(wrong, "\n");
    }
}

/// Makes the table a new one, with the limit of nodes that stands behind the word.
fn restart(table: &mut NodeTable, limit: &str)
    ensures { IsBounded table.new.nodes }
{
    table.restart(limit.trim_start().parse::<u64>().ok());
}

/// Goes through a row.
fn take_row<L: Ledger>(
    rt: &impl Abort,
    alloc: Global,
    wrong: &mut String,
    table: &mut NodeTable,
    row: &str,
    steps: &mut Steps<L>,
)
    requires { IsBounded table.old.nodes }
    ensures { IsBounded table.new.nodes }
{
    if let Some(limit) = row.strip_prefix("restart") {
        restart(table, limit);
    } else if !row.starts_with('#') {
        put_if_wrong(rt, alloc, wrong, table, row, steps);
    }
}

/// Goes through rows on one table.
fn take_rows<L: Ledger>(
    rt: &impl Abort,
    alloc: Global,
    wrong: &mut String,
    table: &mut NodeTable,
    rows: &str,
    steps: &mut Steps<L>,
)
    requires { IsBounded table.old.nodes }
    ensures { IsBounded table.new.nodes }
{
    for row in rows.lines() {
        take_row(rt, alloc, wrong, table, row, steps);
    }
}

/// Goes through the rows of `TABLES`, each of them on a new table.
fn take_tables<L: Ledger>(
    rt: &impl Abort,
    alloc: Global,
    wrong: &mut String,
    table: &mut NodeTable,
    blank: Blank,
)
    requires name { blank.name ≡ L.name }
    requires parts { blank.parts ≡ L.parts }
    requires some { 0 < blank.parts }
    requires bounded { IsBounded table.old.nodes }
{
    let mut steps = Steps::<L>::begin(blank);
    for rows in TABLES {
        restart(table, "");
        take_rows(rt, alloc, wrong, table, rows, &mut steps);
    }
}

/// The rows that do not hold, each with the numbers of the nodes that are wanted and found. On one table, a row is
///
/// - `CALL:LIMIT LEFT RIGHT => NODE`: a call on nodes, as `triples.rt` reads them, with the limit and the operands
///   that it has, and its answer: a node, `#2` for its number, or `full`;
/// - `nodes`, `entries` or `refused`, and how many or which triple: what the table says of itself;
/// - `restart 2`: it becomes a new table for the rows below, with a limit of 2 nodes, or by `restart` with none;
/// - `# WORDS`: what the rows below show.
pub fn wrong_rows(rt: &impl Abort, alloc: Global) -> String {
    let mut wrong = String::new(alloc);
    let mut table = NodeTable::new(alloc);
    take_tables::<Brand>(rt, alloc, &mut wrong, &mut table, Blank::new(1));
    wrong
}
