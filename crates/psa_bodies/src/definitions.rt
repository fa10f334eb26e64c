ghost use Rattle.std.specs.Prelude.{◌≡◌, ◌∷◌, [], Some, IfOk};
ghost use Rattle.psa_model.specs.declared.draft.DefinitionKind.TheVariants as kind_of;
ghost use Rattle.psa_model.specs.declared.draft.DraftBody.TheVariants as body_of;
ghost use Rattle.std.specs.List.{flat_map};
ghost use Rattle.std.specs.Option.{option_map};
ghost use Rattle.psa_model.specs.declared.ids.TreeId.{TreeId};
ghost use Rattle.psa_names.specs.Outlines.{entry_of, entries_of, event_tree, link_outlines, value_outlines};
ghost use Rattle.psa_names.specs.Chains.{references_in};
ghost use Rattle.psa_names.specs.Ids.{referred_id};
ghost use Rattle.psa_names.specs.Resolved.{resolved_expression};
ghost use Rattle.psa_bodies.specs.Reading.{Reads};
ghost use Rattle.psa_names.specs.ModelOfDraft.{basics_of, gate_of};
ghost use Rattle.psa_bodies.specs.Made.{
  IsContext,
  IsMade,
  fault_tree_of,
  functional_of,
  house_of,
  initiating_of,
  parameter_of,
};

use crate::context::Context;
use crate::cursor::Cursor;
use crate::expressions::resolve_expression;
use crate::formulas::resolve_formula;
use crate::names::model_name;
use crate::numbers::next_id;
use crate::trees::tree_around;
use psa_model::{
    BasicEvent, DefinitionKind, DraftDefinition, DraftExpression, DraftFormula, DraftReference,
    Expression, FaultTree, FaultTreeId, Functional, Gate, House, Initiating, Parameter, TreeId,
};
use psa_text::{OutOfMemory, Text};
use std::alloc::Global;

/// The gate of a definition with this formula. `open` is the number of the fault tree that is open.
pub fn make_gate(
    alloc: Global,
    context: &Context,
    cursor: &mut Cursor,
    definition: &DraftDefinition,
    formula: &DraftFormula,
    open: u32,
) -> Result<Gate, OutOfMemory>
    requires context { IsContext context.now }
    requires kind { definition.now.kind ≡ kind_of.Gate }
    requires body { definition.now.body ≡ body_of.Formula formula.now }
    ensures { IfOk result (IsMade context.now.draft.now definition.now cursor.old cursor.new
        (λ entries from. gate_of entries (0, from))) }
{
    let name = model_name(alloc, definition)?;
    let container = definition.container.as_slice();
    let tree = tree_around(context.draft, context.fault_trees, open, container);
    let formula = resolve_formula(alloc, context.numbers, cursor, formula)?;
    Ok(Gate {
        name,
        place: definition.place,
        tree: FaultTreeId(tree),
        formula,
    })
}

/// The basic event of a definition with this expression, or with none.
pub fn make_basic_event(
    alloc: Global,
    context: &Context,
    cursor: &mut Cursor,
    definition: &DraftDefinition,
    value: &Option<DraftExpression>,
) -> Result<BasicEvent, OutOfMemory>
    requires context { IsContext context.now }
    requires kind { definition.now.kind ≡ kind_of.BasicEvent }
    requires body { definition.now.body ≡ body_of.Value value.now }
    ensures { IfOk result (λ made. IsMade context.now.draft.now definition.now cursor.old cursor.new
        (λ entries from. basics_of entries from) (made ∷ [])) }
{
    let name = model_name(alloc, definition)?;
    let expression = make_value(alloc, context, cursor, value)?;
    Ok(BasicEvent {
        name,
        place: definition.place,
        expression,
    })
}

/// The expression, where there is one.
fn make_value(
    alloc: Global,
    context: &Context,
    cursor: &mut Cursor,
    value: &Option<DraftExpression>,
) -> Result<Option<Expression>, OutOfMemory>
    ensures { IfOk result (Reads context.now.numbers.now cursor.old cursor.new
        (flat_map references_in (value_outlines value.now))
        (λ entries from. option_map (resolved_expression entries from) value.now)) }
{
    match value {
        Some(value) => {
            let made = resolve_expression(alloc, context.numbers, cursor, value)?;
            Ok(Some(made))
        }
        None => Ok(None),
    }
}

/// The parameter of a definition with this expression.
pub fn make_parameter(
    alloc: Global,
    context: &Context,
    cursor: &mut Cursor,
    definition: &DraftDefinition,
    value: &DraftExpression,
) -> Result<Parameter, OutOfMemory>
    requires context { IsContext context.now }
    requires kind { definition.now.kind ≡ kind_of.Parameter }
    requires body { definition.now.body ≡ body_of.Value (Some value.now) }
    ensures { IfOk result (IsMade context.now.draft.now definition.now cursor.old cursor.new
        (λ entries from. parameter_of entries from)) }
{
    let name = model_name(alloc, definition)?;
    let expression = resolve_expression(alloc, context.numbers, cursor, value)?;
    Ok(Parameter {
        name,
        place: definition.place,
        expression,
    })
}

/// The house event of a definition with this state.
pub fn make_house_event(
    alloc: Global,
    definition: &DraftDefinition,
    state: bool,
) -> Result<House, OutOfMemory>
    requires body { definition.now.body ≡ body_of.State state }
    ensures { IfOk result (λ made. made ≡ house_of (entry_of definition.now)) }
{
    let name = model_name(alloc, definition)?;
    Ok(House {
        name,
        place: definition.place,
        state,
    })
}

/// The fault tree of a definition.
pub fn make_fault_tree(
    alloc: Global,
    definition: &DraftDefinition,
) -> Result<FaultTree, OutOfMemory>
    ensures { IfOk result (λ made. made ≡ fault_tree_of (entry_of definition.now)) }
{
    Ok(FaultTree {
        name: Text::from_str(alloc, definition.name.as_str())?,
        place: definition.place,
    })
}

/// The functional event of a definition. `open` is the number of the event tree that is open.
pub fn make_functional_event(
    alloc: Global,
    context: &Context,
    definition: &DraftDefinition,
    open: u32,
) -> Result<Functional, OutOfMemory>
    requires { IsContext context.now }
    ensures { IfOk result (λ made.
        made ≡ functional_of (entries_of context.now.draft.now) (entry_of definition.now)) }
{
    let name = Text::from_str(alloc, definition.name.as_str())?;
    let container = definition.container.as_slice();
    let tree = tree_around(context.draft, context.event_trees, open, container);
    Ok(Functional {
        name,
        place: definition.place,
        tree: TreeId(tree),
    })
}

/// The initiating event of a definition that starts this event tree, or none.
pub fn make_initiating_event(
    alloc: Global,
    context: &Context,
    cursor: &mut Cursor,
    definition: &DraftDefinition,
    tree: &Option<DraftReference>,
) -> Result<Initiating, OutOfMemory>
    requires context { IsContext context.now }
    requires kind { definition.now.kind ≡ kind_of.InitiatingEvent }
    requires body { definition.now.body ≡ body_of.Start tree.now }
    ensures { IfOk result (IsMade context.now.draft.now definition.now cursor.old cursor.new
        (λ entries from. initiating_of entries from)) }
{
    let name = Text::from_str(alloc, definition.name.as_str())?;
    let tree = make_link(context, cursor, tree);
    Ok(Initiating {
        name,
        place: definition.place,
        tree,
    })
}

/// The event tree that is linked to, where there is a link.
pub fn make_link(
    context: &Context,
    cursor: &mut Cursor,
    link: &Option<DraftReference>,
) -> Option<TreeId>
    ensures { Reads context.now.numbers.now cursor.old cursor.new
        (flat_map references_in (link_outlines link.now))
        (λ entries from. option_map (λ id. record { 0 = id })
        (option_map (referred_id kind_of.EventTree event_tree entries from) link.now)) result }
{
    match link {
        Some(_) => Some(TreeId(next_id(context.numbers, cursor, DefinitionKind::EventTree))),
        None => None,
    }
}
