ghost use Rattle.std.specs.Prelude.{◌≡◌, true, Some, OnOk};
ghost use Rattle.psa_model.specs.declared.draft.DefinitionKind.TheVariants as kind_of;
ghost use Rattle.psa_model.specs.declared.draft.DraftBody.TheVariants as body_of;
ghost use Rattle.psa_model.specs.Drafts.{has_body};
ghost use Rattle.psa_names.specs.Outlines.{entry_of, entries_of};
ghost use Rattle.psa_assembly.specs.Assembling.{Adds, IsNext, no_lists};
ghost use Rattle.psa_bodies.specs.Made.{IsContext};

use psa_bodies::{
    Context, Cursor, make_basic_event, make_fault_tree, make_functional_event, make_gate,
    make_house_event, make_initiating_event, make_parameter, number_of,
};
use psa_model::{
    DefinitionKind, DraftDefinition, DraftExpression, DraftFormula, DraftReference, Formula, Model,
    Valued,
};
use psa_names::Found;
use psa_text::{Items, OutOfMemory};
use std::alloc::Global;

/// The model of the definitions so far, and the senses of the names in those still to come.
#[derive(Drop)]
pub struct Assembly<'a> {
    pub references: Cursor<'a>,
    pub members: Cursor<'a>,
    pub model: Model,
    /// The number of the fault tree that is open.
    pub fault_tree: u32,
    /// The number of the event tree that is open.
    pub event_tree: u32,
}

/// A model without definitions.
fn empty_model(alloc: Global) -> Model
    ensures { result ≡ no_lists }
{
    Model {
        gates: Items::new(alloc),
        basics: Items::new(alloc),
        houses: Items::new(alloc),
        parameters: Items::new(alloc),
        fault_trees: Items::new(alloc),
        groups: Items::new(alloc),
        rules: Items::new(alloc),
        event_trees: Items::new(alloc),
        functionals: Items::new(alloc),
        sequences: Items::new(alloc),
        branches: Items::new(alloc),
        initiatings: Items::new(alloc),
        formulas: Items::new(alloc),
        order: Items::new(alloc),
    }
}

impl<'a> Assembly<'a> {
    /// No definition so far.
    pub fn new(alloc: Global, found: &'a Found) -> Assembly<'a>
        ensures references { result.references ≡ found.now.references }
        ensures members { result.members ≡ found.now.members }
        ensures model { result.model ≡ no_lists }
    {
        Assembly {
            references: Cursor::new(found.references.as_slice()),
            members: Cursor::new(found.members.as_slice()),
            model: empty_model(alloc),
            fault_tree: 0,
            event_tree: 0,
        }
    }

    /// The model of the definitions so far.
    pub fn into_model(self) -> Model
        ensures { result ≡ self.entry.model }
    {
        self.model
    }

    /// Puts the formulas and the order of values into the model.
    pub fn complete(&mut self, formulas: Items<Formula>, order: Items<Valued>)
        ensures { self.new.model ≡ record self.old.model { formulas = formulas; order = order } }
    {
        self.model.formulas = formulas;
        self.model.order = order;
    }

    /// Adds the definition of a kind that says nothing: a fault tree or a functional event.
    pub fn add_name(
        &mut self,
        alloc: Global,
        context: &Context,
        definition: &DraftDefinition,
    ) -> Result<(), OutOfMemory>
        requires context { IsContext context.now }
        requires next { IsNext (entries_of context.now.draft.now) (entry_of definition.now) self.old }
        requires body { definition.now.body ≡ body_of.Nothing }
        requires kind { has_body definition.now.kind definition.now.body ≡ true }
        ensures { OnOk result (Adds (entries_of context.now.draft.now) (entry_of definition.now)
            self.old self.new) }
    {
        match definition.kind {
            DefinitionKind::FaultTree => {
                let tree = make_fault_tree(alloc, definition)?;
                self.fault_tree = number_of(self.model.fault_trees.len());
                self.model.fault_trees.push(tree)
            }
            DefinitionKind::FunctionalEvent => {
                let open = self.event_tree;
                let event = make_functional_event(alloc, context, definition, open)?;
                self.model.functionals.push(event)
            }
            _ => Ok(()),
        }
    }

    /// Adds the gate with this formula.
    pub fn add_gate(
        &mut self,
        alloc: Global,
        context: &Context,
        definition: &DraftDefinition,
        formula: &DraftFormula,
    ) -> Result<(), OutOfMemory>
        requires context { IsContext context.now }
        requires next { IsNext (entries_of context.now.draft.now) (entry_of definition.now) self.old }
        requires body { definition.now.body ≡ body_of.Formula formula.now }
        requires kind { has_body definition.now.kind definition.now.body ≡ true }
        ensures { OnOk result (Adds (entries_of context.now.draft.now) (entry_of definition.now)
            self.old self.new) }
    {
        let open = self.fault_tree;
        let references = &mut self.references;
        let gate = make_gate(alloc, context, references, definition, formula, open)?;
        self.model.gates.push(gate)
    }

    /// Adds the basic event or parameter with this expression, or with none.
    pub fn add_value(
        &mut self,
        alloc: Global,
        context: &Context,
        definition: &DraftDefinition,
        value: &Option<DraftExpression>,
    ) -> Result<(), OutOfMemory>
        requires context { IsContext context.now }
        requires next { IsNext (entries_of context.now.draft.now) (entry_of definition.now) self.old }
        requires body { definition.now.body ≡ body_of.Value value.now }
        requires kind { has_body definition.now.kind definition.now.body ≡ true }
        ensures { OnOk result (Adds (entries_of context.now.draft.now) (entry_of definition.now)
            self.old self.new) }
    {
        match definition.kind {
            DefinitionKind::BasicEvent => self.add_basic_event(alloc, context, definition, value),
            _ => match value {
                Some(value) => self.add_parameter(alloc, context, definition, value),
                None => Ok(()),
            },
        }
    }

    /// Adds the basic event with this expression, or with none.
    fn add_basic_event(
        &mut self,
        alloc: Global,
        context: &Context,
        definition: &DraftDefinition,
        value: &Option<DraftExpression>,
    ) -> Result<(), OutOfMemory>
        requires context { IsContext context.now }
        requires next { IsNext (entries_of context.now.draft.now) (entry_of definition.now) self.old }
        requires body { definition.now.body ≡ body_of.Value value.now }
        requires kind { definition.now.kind ≡ kind_of.BasicEvent }
        ensures { OnOk result (Adds (entries_of context.now.draft.now) (entry_of definition.now)
            self.old self.new) }
    {
        let references = &mut self.references;
        let event = make_basic_event(alloc, context, references, definition, value)?;
        self.model.basics.push(event)
    }

    /// Adds the parameter with this expression.
    fn add_parameter(
        &mut self,
        alloc: Global,
        context: &Context,
        definition: &DraftDefinition,
        value: &DraftExpression,
    ) -> Result<(), OutOfMemory>
        requires context { IsContext context.now }
        requires next { IsNext (entries_of context.now.draft.now) (entry_of definition.now) self.old }
        requires body { definition.now.body ≡ body_of.Value (Some value.now) }
        requires kind { definition.now.kind ≡ kind_of.Parameter }
        ensures { OnOk result (Adds (entries_of context.now.draft.now) (entry_of definition.now)
            self.old self.new) }
    {
        let references = &mut self.references;
        let parameter = make_parameter(alloc, context, references, definition, value)?;
        self.model.parameters.push(parameter)
    }

    /// Adds the house event with this state.
    pub fn add_house_event(
        &mut self,
        alloc: Global,
        context: &Context,
        definition: &DraftDefinition,
        state: bool,
    ) -> Result<(), OutOfMemory>
        requires context { IsContext context.now }
        requires next { IsNext (entries_of context.now.draft.now) (entry_of definition.now) self.old }
        requires body { definition.now.body ≡ body_of.State state }
        requires kind { has_body definition.now.kind definition.now.body ≡ true }
        ensures { OnOk result (Adds (entries_of context.now.draft.now) (entry_of definition.now)
            self.old self.new) }
    {
        let event = make_house_event(alloc, definition, state)?;
        self.model.houses.push(event)
    }

    /// Adds the initiating event that starts this event tree, or none.
    pub fn add_initiating_event(
        &mut self,
        alloc: Global,
        context: &Context,
        definition: &DraftDefinition,
        tree: &Option<DraftReference>,
    ) -> Result<(), OutOfMemory>
        requires context { IsContext context.now }
        requires next { IsNext (entries_of context.now.draft.now) (entry_of definition.now) self.old }
        requires body { definition.now.body ≡ body_of.Start tree.now }
        requires kind { has_body definition.now.kind definition.now.body ≡ true }
        ensures { OnOk result (Adds (entries_of context.now.draft.now) (entry_of definition.now)
            self.old self.new) }
    {
        let references = &mut self.references;
        let event = make_initiating_event(alloc, context, references, definition, tree)?;
        self.model.initiatings.push(event)
    }
}
