ghost use Rattle.std.specs.Prelude.{◌≡◌, ◌≤◌, ◌<◌, ◌+◌, ◌-◌, ◌*◌, ℕ, Bool, true, length, IfOk, OnOk};
ghost use Rattle.psa_nodes.specs.declared.node.Kind.TheVariants.{Bdd};
ghost use Rattle.psa_nodes.specs.declared.node.Operation.{Operation};
ghost use Rattle.psa_nodes.specs.declared.node.TheConstants.{MAX_RANKS};
ghost use Rattle.psa_nodes.specs.declared.node.TheConstants.MemoKey.{NO_RIGHT};
ghost use Rattle.psa_nodes.specs.Readings.{truth, stands, level};
ghost use Rattle.psa_nodes.specs.Nodes.{IsBounded};
ghost use Rattle.psa_nodes.specs.Progress.{IsCall, IsResult};
ghost use Rattle.psa_prime.specs.Primes.{IsPrimeOrigin, prime_key, AreSidePrimes};

use psa_bdd::and;
use psa_families::difference;
use psa_nodes::{MemoKey, NodeError, NodeId, NodeTable, Operation, Steps, remember_family};
use std::sync::ledger::Ledger;

/// What the prime implicants of a diagram within a limit are remembered by.
fn key_of(root: NodeId, limit: u8) -> MemoKey
    ensures { result ≡ prime_key root limit }
{
    MemoKey {
        operation: Operation::Primes,
        left: root,
        right: MemoKey::NO_RIGHT,
        limit,
    }
}

/// The prime implicants of a side of a decision by `var` that are no implicants of both sides, with one literal
/// less than the limit at most; `rest` are the prime implicants of both sides within the limit.
#[cycle(primes)]
fn side_primes<L: Ledger>(
    table: &mut NodeTable,
    var: u32,
    side: NodeId,
    both: NodeId,
    rest: NodeId,
    limit: u8,
    steps: &mut Steps<L>,
) -> Result<NodeId, NodeError>
    requires var { var < MAX_RANKS }
    requires limit { 1 ≤ limit }
    requires bounded { IsBounded table.old.nodes }
    requires side { stands Bdd (var + 1) table.old.nodes side.0 ≡ true }
    requires both { stands Bdd (var + 1) table.old.nodes both.0 ≡ true }
    requires weaker { (s : ℕ → Bool) → truth table.old.nodes both.0 s ≡ true
        → truth table.old.nodes side.0 s ≡ true }
    requires rest { IsResult Operation.Primes limit table.old.nodes both.0 NO_RIGHT.0 rest.0 }
    ensures primes { IfOk result
        (λ id. AreSidePrimes table.new.nodes side.0 both.0 (limit - 1) id.0) }
    ensures call { IsCall (IsPrimeOrigin (truth table.old.nodes side.0) (limit - 1)) (2 * var + 2)
        table.old table.new result }
    ensures two_turns { OnOk result
        (steps.new + 2 * length table.old.entries ≤ steps.old + 2 * length table.new.entries) }
{
    table.check();
    if side == both {
        return Ok(NodeId::EMPTY);
    }
    let primes = prime_sets(table, side, limit - 1, steps)?;
    difference(table, primes, rest, steps)
}

/// The prime implicants of `primes_of_bdd`, for every limit. Both sides of a decision together give those without
/// a literal of its variable; with a literal stand those of its side that both sides do not imply.
#[cycle(primes)]
fn prime_sets<L: Ledger>(
    table: &mut NodeTable,
    root: NodeId,
    limit: u8,
    steps: &mut Steps<L>,
) -> Result<NodeId, NodeError>
    requires root { stands Bdd 0 table.old.nodes root.0 ≡ true }
    requires bounded { IsBounded table.old.nodes }
    ensures primes { IfOk result
        (λ id. IsResult Operation.Primes limit table.new.nodes root.0 NO_RIGHT.0 id.0) }
    ensures call { IsCall (IsPrimeOrigin (truth table.old.nodes root.0) limit)
        (level table.old.nodes root.0) table.old table.new result }
    ensures two_turns { OnOk result
        (steps.new + 2 * length table.old.entries ≤ steps.old + 2 * length table.new.entries) }
{
    table.check();
    if root.is_terminal() {
        return Ok(root);
    }
    if limit == 0 {
        // the empty product is an implicant of the true diagram alone
        return Ok(NodeId::EMPTY);
    }
    let key = key_of(root, limit);
    if let Some(id) = table.remembered(&key) {
        return Ok(id);
    }
    let node = table.node(root, steps);
    let both = and(table, node.hi, node.lo, steps)?;
    let rest = prime_sets(table, both, limit, steps)?;
    let event = side_primes(table, node.var, node.hi, both, rest, limit, steps)?;
    let opposite = side_primes(table, node.var, node.lo, both, rest, limit, steps)?;
    let past = table.zbdd_node(2 * node.var + 1, opposite, rest)?;
    remember_family(table, key, 2 * node.var, event, past)
}

/// The prime implicants of at most `limit` literals of a decision diagram (Coudert and Madre), as a family of
/// products: the literal number of an event that occurs is twice its rank, that of one that does not is one more.
/// Full only where the table has a limit and as many nodes. The recursion is at most as deep as the diagram has
/// variables, of which there are at most `MAX_RANKS`; the table stays so bounded (`call.progress.bounded`).
/// Each result that is remembered on the way costs at most two turns, and nothing else does.
/// Each new decision diagram is a conjunction of cofactors of the diagram; the members of each new family are tails
/// of prime implicants, within the limit, of such conjunctions.
pub fn primes_of_bdd<L: Ledger>(
    table: &mut NodeTable,
    root: NodeId,
    limit: u8,
    steps: &mut Steps<L>,
) -> Result<NodeId, NodeError>
    requires root { stands Bdd 0 table.old.nodes root.0 ≡ true }
    requires bounded { IsBounded table.old.nodes }
    ensures primes { IfOk result
        (λ id. IsResult Operation.Primes limit table.new.nodes root.0 NO_RIGHT.0 id.0) }
    ensures call { IsCall (IsPrimeOrigin (truth table.old.nodes root.0) limit)
        (level table.old.nodes root.0) table.old table.new result }
    ensures two_turns { OnOk result
        (steps.new + 2 * length table.old.entries ≤ steps.old + 2 * length table.new.entries) }
    ensures turns { OnOk result
        (steps.new ≤ steps.old + 32 * (length table.new.entries - length table.old.entries + 1)) }
{
    prime_sets(table, root, limit, steps)
}
