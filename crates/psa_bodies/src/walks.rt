ghost use Rattle.std.specs.Prelude.{◌≡◌, true, None, IfOk};
ghost use Rattle.psa_model.specs.declared.draft.DefinitionKind.TheVariants as kind_of;
ghost use Rattle.psa_model.specs.declared.draft.DraftBody.TheVariants as body_of;
ghost use Rattle.psa_model.specs.Drafts.{branch_contents};
ghost use Rattle.psa_model.specs.declared.limits.TheConstants.{MAX_NESTING};
ghost use Rattle.psa_bodies.specs.Made.{IsContext};
ghost use Rattle.psa_bodies.specs.MadeWalks.{
  IsMadeBehind,
  event_tree_of,
  named_branch_of,
  rule_of,
  sequence_of,
};

use crate::branches::resolve_branch;
use crate::collected::Collected;
use crate::context::Context;
use crate::cursor::Cursor;
use crate::definitions::make_link;
use crate::instructions::resolve_instructions;
use crate::trees::tree_around;
use psa_model::{
    DraftBranch, DraftDefinition, DraftInstruction, DraftReference, EventTree, MAX_NESTING,
    NamedBranch, RuleDefinition, Sequence, TreeId,
};
use psa_text::{Items, OutOfMemory, Text};
use std::alloc::Global;

/// The rule of a definition with these instructions, behind the formulas that are collected before it.
pub fn make_rule(
    alloc: Global,
    context: &Context,
    cursor: &mut Cursor,
    collected: &mut Collected,
    definition: &DraftDefinition,
    instructions: &Items<DraftInstruction>,
) -> Result<RuleDefinition, OutOfMemory>
    requires context { IsContext context.now }
    requires kind { definition.now.kind ≡ kind_of.Rule }
    requires body { definition.now.body ≡ body_of.Steps instructions.now None }
    ensures { IfOk result (IsMadeBehind context.now.draft.now definition.now
        cursor.old cursor.new collected.old collected.new (λ entries from. rule_of entries from)) }
{
    let name = Text::from_str(alloc, definition.name.as_str())?;
    let steps = instructions.as_slice();
    let instructions = resolve_instructions(alloc, context.numbers, cursor, collected, steps)?;
    Ok(RuleDefinition {
        name,
        place: definition.place,
        instructions,
    })
}

/// The sequence of a definition with these instructions and this link. `open` is the number of the event
/// tree that is open.
pub fn make_sequence(
    alloc: Global,
    context: &Context,
    cursor: &mut Cursor,
    collected: &mut Collected,
    definition: &DraftDefinition,
    instructions: &Items<DraftInstruction>,
    link: &Option<DraftReference>,
    open: u32,
) -> Result<Sequence, OutOfMemory>
    requires context { IsContext context.now }
    requires kind { definition.now.kind ≡ kind_of.Sequence }
    requires body { definition.now.body ≡ body_of.Steps instructions.now link.now }
    ensures { IfOk result (IsMadeBehind context.now.draft.now definition.now
        cursor.old cursor.new collected.old collected.new (λ entries from. sequence_of entries from)) }
{
    let name = Text::from_str(alloc, definition.name.as_str())?;
    let container = definition.container.as_slice();
    let tree = tree_around(context.draft, context.event_trees, open, container);
    let steps = instructions.as_slice();
    let instructions = resolve_instructions(alloc, context.numbers, cursor, collected, steps)?;
    let link = make_link(context, cursor, link);
    Ok(Sequence {
        name,
        place: definition.place,
        tree: TreeId(tree),
        instructions,
        link,
    })
}

/// The event tree of a definition with this initial state.
pub fn make_event_tree(
    alloc: Global,
    context: &Context,
    cursor: &mut Cursor,
    collected: &mut Collected,
    definition: &DraftDefinition,
    start: &DraftBranch,
) -> Result<EventTree, OutOfMemory>
    requires context { IsContext context.now }
    requires shallow { (branch_contents MAX_NESTING start.now).has_numbers ≡ true }
    requires kind { definition.now.kind ≡ kind_of.EventTree }
    requires body { definition.now.body ≡ body_of.Walk start.now }
    ensures { IfOk result (IsMadeBehind context.now.draft.now definition.now
        cursor.old cursor.new collected.old collected.new (λ entries from. event_tree_of entries from)) }
{
    let name = Text::from_str(alloc, definition.name.as_str())?;
    let start = resolve_branch(
        alloc,
        context.numbers,
        cursor,
        collected,
        start,
        MAX_NESTING,
    )?;
    Ok(EventTree {
        name,
        place: definition.place,
        start,
    })
}

/// The named branch of a definition. `open` is the number of the event tree that is open.
pub fn make_named_branch(
    alloc: Global,
    context: &Context,
    cursor: &mut Cursor,
    collected: &mut Collected,
    definition: &DraftDefinition,
    branch: &DraftBranch,
    open: u32,
) -> Result<NamedBranch, OutOfMemory>
    requires context { IsContext context.now }
    requires shallow { (branch_contents MAX_NESTING branch.now).has_numbers ≡ true }
    requires kind { definition.now.kind ≡ kind_of.Branch }
    requires body { definition.now.body ≡ body_of.Walk branch.now }
    ensures { IfOk result (IsMadeBehind context.now.draft.now definition.now
        cursor.old cursor.new collected.old collected.new (λ entries from. named_branch_of entries from)) }
{
    let name = Text::from_str(alloc, definition.name.as_str())?;
    let container = definition.container.as_slice();
    let tree = tree_around(context.draft, context.event_trees, open, container);
    let branch = resolve_branch(
        alloc,
        context.numbers,
        cursor,
        collected,
        branch,
        MAX_NESTING,
    )?;
    Ok(NamedBranch {
        name,
        place: definition.place,
        tree: TreeId(tree),
        branch,
    })
}
