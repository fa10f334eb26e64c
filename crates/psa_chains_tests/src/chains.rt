ghost use Rattle.std.specs.Prelude.{◌≡◌, ◌<◌, ℕ, true, length, get_or};
ghost use Rattle.psa_chains.specs.Chains.{AllStand, targets};

use psa_chains::{ChainFault, Reference, chain_fault};
use sqlite_items::Items;
use std::alloc::{AllocError, Global};
use std::test::Fail;

/// A graph whose rows hold the level and the target of each reference.
fn graph(alloc: Global, rows: &[&[(u32, u32)]]) -> Result<Items<Items<Reference>>, AllocError> {
    let mut graph = Items::new(alloc);
    for row in rows {
        graph.push(references(alloc, row)?)?;
    }
    Ok(graph)
}

/// One row.
fn references(alloc: Global, row: &[(u32, u32)]) -> Result<Items<Reference>, AllocError> {
    let mut references = Items::new(alloc);
    for (level, target) in row {
        references.push(Reference {
            level: *level,
            target: *target,
        })?;
    }
    Ok(references)
}

/// Whether each reference leads to a place below `bound`.
fn row_stands(references: &[Reference], bound: usize) -> bool
    ensures { result ≡ true
        → (k : ℕ) → k < length references.now → get_or (targets references.now) k 0 < bound }
{
    for reference in references {
        if reference.target as usize >= bound {
            return false;
        }
    }
    true
}

/// Whether each reference leads to a place of the graph.
fn stands(graph: &[Items<Reference>]) -> bool
    ensures { result ≡ true → AllStand graph.now }
{
    for row in graph {
        if !row_stands(row.as_slice(), graph.len()) {
            return false;
        }
    }
    true
}

/// What is wrong with a graph, at a limit of depth.
fn fault_of(
    alloc: Global,
    rows: &[&[(u32, u32)]],
    nested: &[u32],
    limit: u64,
) -> Result<Option<ChainFault>, Fail> {
    let graph = graph(alloc, rows)?;
    if graph.len() != nested.len() || graph.len() > 1_000 || !stands(graph.as_slice()) {
        return Err(AllocError.into());
    }
    Ok(chain_fault(alloc, graph.as_slice(), nested, limit)?)
}

#[test]
fn chains_of_small_graphs(rt: HostRuntime) -> Result<(), Fail> {
    let alloc = rt.alloc();
    let chain: [&[(u32, u32)]; 3] = [&[(1, 1)], &[(1, 2)], &[]];
    assert_eq!(rt; fault_of(alloc, &[], &[], 0)?, None);
    assert_eq!(rt; fault_of(alloc, &chain, &[1, 1, 1], 3)?, None);
    assert_eq!(rt;
        fault_of(alloc, &chain, &[1, 1, 1], 2)?,
        Some(ChainFault::TooDeep(0))
    );
    assert_eq!(rt;
        fault_of(alloc, &chain, &[1, 1, 5], 4)?,
        Some(ChainFault::TooDeep(0))
    );
    assert_eq!(rt; fault_of(alloc, &chain, &[1, 1, 5], 7)?, None);

    // The level of a reference counts.
    let levels: [&[(u32, u32)]; 2] = [&[(1, 1), (4, 1)], &[]];
    assert_eq!(rt; fault_of(alloc, &levels, &[4, 2], 6)?, None);
    assert_eq!(rt;
        fault_of(alloc, &levels, &[4, 2], 5)?,
        Some(ChainFault::TooDeep(0))
    );
    Ok(())
}

#[test]
fn cycles_of_small_graphs(rt: HostRuntime) -> Result<(), Fail> {
    let alloc = rt.alloc();

    // The first definition only leads to a cycle.
    let reaching: [&[(u32, u32)]; 3] = [&[(1, 1)], &[(1, 2)], &[(1, 1)]];
    assert_eq!(rt;
        fault_of(alloc, &reaching, &[1, 1, 1], 500)?,
        Some(ChainFault::Cycle(1))
    );

    // A definition names itself.
    let itself: [&[(u32, u32)]; 2] = [&[], &[(2, 1)]];
    assert_eq!(rt;
        fault_of(alloc, &itself, &[1, 2], 500)?,
        Some(ChainFault::Cycle(1))
    );

    // A cycle comes before a depth.
    let both: [&[(u32, u32)]; 3] = [&[], &[(1, 2)], &[(1, 1)]];
    assert_eq!(rt;
        fault_of(alloc, &both, &[9, 1, 1], 5)?,
        Some(ChainFault::Cycle(1))
    );

    // Two cycles that share a definition, found from the end.
    let shared: [&[(u32, u32)]; 4] = [&[(1, 3)], &[(1, 0)], &[(1, 1)], &[(1, 1), (1, 2)]];
    assert_eq!(rt;
        fault_of(alloc, &shared, &[1, 1, 1, 1], 5)?,
        Some(ChainFault::Cycle(0))
    );
    Ok(())
}
