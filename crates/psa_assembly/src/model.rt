ghost use Rattle.std.specs.Prelude.{◌≡◌, [], None, IfOk, OnOk};
ghost use Rattle.psa_model.specs.Drafts.{IsDraft};
ghost use Rattle.psa_names.specs.Found.{IsFound};
ghost use Rattle.psa_names.specs.ModelOfDraft.{model_of};
ghost use Rattle.psa_names.specs.NameFaults.{name_fault};
ghost use Rattle.psa_names.specs.Outlines.{entries_of};
ghost use Rattle.psa_assembly.specs.Assembling.{AreAssembled};
ghost use Rattle.psa_bodies.specs.Contents.{HasContentsOrder};
ghost use Rattle.psa_bodies.specs.Made.{IsContext};

use crate::assembly::Assembly;
use crate::values::values_in_order;
use psa_bodies::{
    ContentsOrder, Context, context_of, join_in_order, number_definitions, order_contents,
    places_of_kind,
};
use psa_model::{DefinitionKind, Draft, Model};
use psa_names::Found;
use psa_text::OutOfMemory;
use std::alloc::Global;

/// The model of a draft without a fault of names: each name is replaced by the place of what was found
/// of it.
pub fn model_of_found(alloc: Global, draft: &Draft, found: &Found) -> Result<Model, OutOfMemory>
    requires draft { IsDraft draft.now }
    requires faultless { name_fault draft.now ≡ None }
    requires found { IsFound draft.now found.now }
    ensures { IfOk result (λ model. model ≡ model_of draft.now) }
{
    let numbers = number_definitions(alloc, draft, found)?;
    let fault_trees = places_of_kind(alloc, &numbers, DefinitionKind::FaultTree)?;
    let event_trees = places_of_kind(alloc, &numbers, DefinitionKind::EventTree)?;
    let fault_trees = fault_trees.as_slice();
    let context = context_of(draft, &numbers, fault_trees, event_trees.as_slice());
    let contents = order_contents(alloc, draft)?;
    model_in(alloc, &context, found, &contents)
}

/// The model of a draft in its context, with its formulas in the order of their contents.
fn model_in(
    alloc: Global,
    context: &Context,
    found: &Found,
    contents: &ContentsOrder,
) -> Result<Model, OutOfMemory>
    requires context { IsContext context.now }
    requires draft { IsDraft context.now.draft.now }
    requires faultless { name_fault context.now.draft.now ≡ None }
    requires found { IsFound context.now.draft.now found.now }
    requires contents { HasContentsOrder context.now.draft.now contents.now }
    ensures { IfOk result (λ model. model ≡ model_of context.now.draft.now) }
{
    let mut assembly = Assembly::new(alloc, found);
    assemble(alloc, context, contents, &mut assembly)?;
    Ok(assembly.into_model())
}

/// Adds all definitions, and puts the formulas that they collect, and the order of values.
fn assemble(
    alloc: Global,
    context: &Context,
    contents: &ContentsOrder,
    assembly: &mut Assembly,
) -> Result<(), OutOfMemory>
    requires context { IsContext context.now }
    requires draft { IsDraft context.now.draft.now }
    requires faultless { name_fault context.now.draft.now ≡ None }
    requires contents { HasContentsOrder context.now.draft.now contents.now }
    requires none { AreAssembled (entries_of context.now.draft.now) 0 assembly.old [] }
    ensures { OnOk result (assembly.new.model ≡ model_of context.now.draft.now) }
{
    let mut lists = Vec::new(alloc);
    let before = contents.before.as_slice();
    assembly.add_definitions(alloc, context, before, &mut lists)?;
    let formulas = join_in_order(alloc, lists, contents.sequence.as_slice())?;
    let order = values_in_order(alloc, context.numbers, assembly.model.groups.as_slice())?;
    assembly.complete(formulas, order);
    Ok(())
}
