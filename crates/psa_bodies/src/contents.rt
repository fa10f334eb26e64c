ghost use Rattle.std.specs.Prelude.{◌≡◌, ◌<◌, ◌^◌, length, IfOk, MatchOption};
ghost use Rattle.psa_model.specs.declared.draft.DraftBranchEnd.TheViews.{out-DraftBranchEnd};
ghost use Rattle.psa_model.specs.Drafts.{IsDraft, position_of, reference_position};
ghost use Rattle.psa_names.specs.Outlines.{entries_of, entry_of};
ghost use Rattle.psa_names.specs.Collected.{
  by_contents,
  collected_in,
  contents_position,
  end_position,
};
ghost use Rattle.psa_bodies.specs.Contents.{AreBlocksOf, HasContentsOrder, block_of, blocks_of};

use crate::counting::count_collected;
use psa_model::{
    DefinitionKind, Draft, DraftBody, DraftBranchEnd, DraftDefinition, DraftReference,
};
use psa_text::{Items, OutOfMemory};
use std::alloc::Global;

/// The definitions of a draft in the order of their contents, which is that of the formulas that they
/// collect.
#[derive(Drop)]
pub struct ContentsOrder {
    /// The number of formulas that are collected before those of each definition.
    pub before: Items<u32>,
    /// The places in the draft of the definitions, in the order of their contents.
    pub sequence: Items<u32>,
}

/// A definition with the position of its contents, in the order of contents.
#[derive(Clone, Copy, PartialEq, Eq, PartialOrd, Ord, Drop)]
struct Block {
    /// The file of its contents, and the number of elements that begin in it before them.
    file: u32,
    tag: u32,
    /// The place of the definition in the draft.
    place: u32,
    /// The number of formulas that it collects.
    formulas: u32,
}

/// The definitions of a draft in the order of their contents, and the number of formulas that are
/// collected before those of each.
pub fn order_contents(alloc: Global, draft: &Draft) -> Result<ContentsOrder, OutOfMemory>
    requires { IsDraft draft.now }
    ensures { IfOk result (HasContentsOrder draft.now) }
{
    let blocks = sorted_blocks(alloc, draft)?;
    let mut before = Items::from_vec(vec![in alloc; 0u32; blocks.len()]?);
    let mut sequence = Items::new(alloc);
    let mut collected = 0u32;
    for block in blocks.as_slice() {
        before.set(block.place as usize, collected);
        sequence.push(block.place)?;
        collected += block.formulas;
    }
    Ok(ContentsOrder { before, sequence })
}

/// The blocks of a draft in the order of their contents.
fn sorted_blocks(alloc: Global, draft: &Draft) -> Result<Vec<Block>, OutOfMemory>
    requires { IsDraft draft.now }
    ensures { IfOk result (λ blocks.
        AreBlocksOf (entries_of draft.now) (by_contents (entries_of draft.now)) blocks.items) }
{
    let mut blocks = listed_blocks(alloc, draft)?;
    blocks.sort()?;
    Ok(blocks)
}

/// The blocks of a draft in the order of their definitions.
fn listed_blocks(alloc: Global, draft: &Draft) -> Result<Vec<Block>, OutOfMemory>
    requires { IsDraft draft.now }
    ensures { IfOk result (λ blocks. blocks.items ≡ blocks_of (entries_of draft.now)) }
{
    let mut blocks = Vec::new(alloc);
    for (place, definition) in draft.definitions.as_slice().iter().enumerate() {
        blocks.push(make_block(definition, place))?;
    }
    Ok(blocks)
}

/// The block of a definition at a place.
fn make_block(definition: &DraftDefinition, place: usize) -> Block
    requires place { place < 2 ^ 32 }
    requires few { length (collected_in definition.now.body) < 2 ^ 32 }
    ensures { result ≡ block_of (place, entry_of definition.now) }
{
    let (file, tag) = match initial_end(definition) {
        Some(end) => (end.place.file, end.tag),
        None => (definition.place.file, definition.tag),
    };
    Block {
        file,
        tag,
        place: place as u32,
        formulas: count_collected(&definition.body),
    }
}

/// The name at which the initial state of an event tree ends. Definitions inside the tree may stand
/// before that state.
fn initial_end(definition: &DraftDefinition) -> Option<&DraftReference>
    ensures { MatchOption result
        (contents_position (entry_of definition.now) ≡ position_of definition.now)
        (λ end. contents_position (entry_of definition.now) ≡ reference_position end.now) }
{
    match (definition.kind, &definition.body) {
        (DefinitionKind::EventTree, DraftBody::Walk(start)) => Some(name_of_end(&start.end)),
        _ => None,
    }
}

/// The name of what a branch leads to.
fn name_of_end(end: &DraftBranchEnd) -> &DraftReference
    ensures { end_position (out-DraftBranchEnd end.now) ≡ reference_position result.now }
{
    match end {
        DraftBranchEnd::Fork(name, _) => name,
        DraftBranchEnd::Sequence(name) => name,
        DraftBranchEnd::Branch(name) => name,
    }
}
