ghost use Rattle.std.specs.Prelude.{◌≡◌, ◌++◌, ◌∷◌, [], length, map, IfOk, OnOk, if◌then◌else◌};
ghost use Rattle.psa_model.specs.Drafts.{IsDraft};
ghost use Rattle.psa_names.specs.Chains.{is_chained as is_chained_kind};
ghost use Rattle.psa_names.specs.Found.{IsFound};
ghost use Rattle.psa_names.specs.Outlines.{entries_of, entry_of};
ghost use Rattle.psa_cycles.specs.Graphs.{graph_by, nested_by, steps, target_of};

use crate::definitions::push_definition;
use crate::levels::Levels;
use psa_chains::Reference;
use psa_model::{DefinitionKind, Draft, DraftDefinition};
use psa_names::{Found, Sense};
use psa_text::{Items, OutOfMemory};
use sqlite_items::at;
use std::alloc::Global;

/// Which definitions each definition refers to, and how deep its elements are nested, by its place
/// in the draft. Only definitions that chains lead through count.
#[derive(Drop)]
pub struct Graph {
    pub rows: Items<Items<Reference>>,
    pub nested: Items<u32>,
}

/// The graph of a draft, each body walked once.
pub fn graph_of(alloc: Global, draft: &Draft, found: &Found) -> Result<Graph, OutOfMemory>
    requires draft { IsDraft draft.now }
    requires found { IsFound draft.now found.now }
    ensures rows { IfOk result (λ graph. graph.rows ≡ graph_by (entries_of draft.now)) }
    ensures nested { IfOk result (λ graph. graph.nested ≡ nested_by (entries_of draft.now)) }
{
    let definitions = draft.definitions.as_slice();
    let senses = found.references.as_slice();
    let mut graph = Graph {
        rows: Items::new(alloc),
        nested: Items::new(alloc),
    };
    let mut levels = Levels::new(alloc);
    for definition in definitions {
        let first = levels.references.len();
        levels.deepest = 0;
        push_definition(&mut levels, definition)?;
        let own = &levels.references.as_slice()[first..];
        let last = levels.references.len();
        let row = row_of(
            alloc,
            definitions,
            definition.kind,
            own,
            &senses[first..last],
        )?;
        graph.rows.push(row)?;
        graph
            .nested
            .push(nesting_of(definition.kind, levels.deepest))?;
    }
    Ok(graph)
}

/// How deep the elements of a definition of this kind are nested, as far as chains are concerned.
fn nesting_of(kind: DefinitionKind, deepest: u32) -> u32
    ensures { result ≡ (if is_chained_kind kind then deepest else 0) }
{
    if is_chained(kind) { deepest } else { 0 }
}

/// The references of a definition of this kind that lead on, of those with these levels and senses.
fn row_of(
    alloc: Global,
    definitions: &[DraftDefinition],
    kind: DefinitionKind,
    levels: &[u32],
    senses: &[Sense],
) -> Result<Items<Reference>, OutOfMemory>
    requires { length levels.now ≡ length senses.now }
    ensures { IfOk result (λ row. row ≡ (if is_chained_kind kind
        then steps levels.now (map (target_of (map entry_of definitions.now)) senses.now)
        else [])) }
{
    let mut row = Items::new(alloc);
    if !is_chained(kind) {
        return Ok(row);
    }
    for (place, sense) in senses.iter().enumerate() {
        push_step(&mut row, definitions, levels[place], *sense)?;
    }
    Ok(row)
}

/// Adds a reference with this level and sense where it leads on.
fn push_step(
    row: &mut Items<Reference>,
    definitions: &[DraftDefinition],
    level: u32,
    sense: Sense,
) -> Result<(), OutOfMemory>
    ensures { OnOk result (row.new
        ≡ row.old ++ steps (level ∷ []) (target_of (map entry_of definitions.now) sense ∷ [])) }
{
    match chained_place(definitions, sense) {
        Some(target) => row.push(Reference { level, target }),
        None => Ok(()),
    }
}

/// The place of the definition that is meant, where chains lead through it.
fn chained_place(definitions: &[DraftDefinition], sense: Sense) -> Option<u32>
    ensures { result ≡ target_of (map entry_of definitions.now) sense }
{
    match sense {
        Sense::Definition(place) => match at(definitions, place as usize) {
            Some(definition) if is_chained(definition.kind) => Some(place),
            _ => None,
        },
        Sense::OfGroup(_) => None,
    }
}

/// Whether chains of references lead through definitions of this kind.
fn is_chained(kind: DefinitionKind) -> bool
    ensures { result ≡ is_chained_kind kind }
{
    match kind {
        DefinitionKind::Gate => true,
        DefinitionKind::Parameter => true,
        DefinitionKind::Rule => true,
        DefinitionKind::Sequence => true,
        DefinitionKind::Branch => true,
        DefinitionKind::EventTree => true,
        _ => false,
    }
}
