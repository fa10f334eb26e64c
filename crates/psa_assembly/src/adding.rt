ghost use Rattle.std.specs.Prelude.{◌≡◌, ◌<◌, ◌+◌, ◌^◌, ◌++◌, length, map, true, None, IfOk, OnOk};
ghost use Rattle.psa_model.specs.declared.draft.DraftBody.TheVariants as body_of;
ghost use Rattle.psa_model.specs.Drafts.{IsDraft, has_body};
ghost use Rattle.psa_names.specs.Outlines.{entry_of, entries_of};
ghost use Rattle.psa_names.specs.Collected.{collected_before, collected_in};
ghost use Rattle.psa_names.specs.NameFaults.{name_fault};
ghost use Rattle.psa_names.specs.Resolved.{resolved_formula};
ghost use Rattle.psa_assembly.specs.Assembling.{Adds, AreAssembled, IsNext, IsPromised, formulas_of, joined_lists};
ghost use Rattle.psa_bodies.specs.Made.{IsContext};

use crate::assembly::Assembly;
use crate::groups::{make_group, push_events, resolve_members};
use psa_bodies::{
    Collected, Context, make_event_tree, make_named_branch, make_rule, make_sequence, number_of,
};
use psa_model::{
    DefinitionKind, DraftBody, DraftBranch, DraftDefinition, DraftGroup, DraftInstruction,
    DraftReference, Formula,
};
use psa_text::{Items, OutOfMemory};
use std::alloc::Global;

impl<'a> Assembly<'a> {
    /// Adds all definitions. The formulas that each collects, behind so many others, come as a list of
    /// their own.
    pub fn add_definitions(
        &mut self,
        alloc: Global,
        context: &Context,
        before: &[u32],
        lists: &mut Vec<Items<Formula>>,
    ) -> Result<(), OutOfMemory>
        requires context { IsContext context.now }
        requires draft { IsDraft context.now.draft.now }
        requires faultless { name_fault context.now.draft.now ≡ None }
        requires before { before.now ≡ map (collected_before (entries_of context.now.draft.now))
            (entries_of context.now.draft.now) }
        requires none { AreAssembled (entries_of context.now.draft.now) 0 self.old lists.old.items }
        ensures model { OnOk result (self.new.model
            ≡ joined_lists (entries_of context.now.draft.now) (entries_of context.now.draft.now)) }
        ensures lists { OnOk result (lists.new.items
            ≡ map (formulas_of (entries_of context.now.draft.now)) (entries_of context.now.draft.now)) }
    {
        for (place, definition) in context.draft.definitions.as_slice().iter().enumerate() {
            let number = before[place];
            let formulas = self.add_definition(alloc, context, definition, number)?;
            lists.push(formulas)?;
        }
        Ok(())
    }

    /// Adds a definition, and gives the formulas that it collects; the first has this number.
    fn add_definition(
        &mut self,
        alloc: Global,
        context: &Context,
        definition: &DraftDefinition,
        number: u32,
    ) -> Result<Items<Formula>, OutOfMemory>
        requires context { IsContext context.now }
        requires next { IsNext (entries_of context.now.draft.now) (entry_of definition.now) self.old }
        requires promised { IsPromised definition.now }
        requires number { number ≡ collected_before (entries_of context.now.draft.now) (entry_of definition.now) }
        requires few { number + length (collected_in definition.now.body) < 2 ^ 32 }
        ensures added { OnOk result (Adds (entries_of context.now.draft.now) (entry_of definition.now)
            self.old self.new) }
        ensures formulas { IfOk result (λ formulas. formulas
            ≡ map (resolved_formula (entries_of context.now.draft.now) (entry_of definition.now))
            (collected_in definition.now.body)) }
    {
        let mut collected = Collected {
            next: number,
            formulas: Items::new(alloc),
        };
        self.add_body(alloc, context, definition, &mut collected)?;
        Ok(collected.formulas)
    }

    /// Adds a definition, and collects its formulas.
    fn add_body(
        &mut self,
        alloc: Global,
        context: &Context,
        definition: &DraftDefinition,
        collected: &mut Collected,
    ) -> Result<(), OutOfMemory>
        requires context { IsContext context.now }
        requires next { IsNext (entries_of context.now.draft.now) (entry_of definition.now) self.old }
        requires promised { IsPromised definition.now }
        requires number { collected.old.next
            ≡ collected_before (entries_of context.now.draft.now) (entry_of definition.now) }
        requires few { collected.old.next + length (collected_in definition.now.body) < 2 ^ 32 }
        ensures added { OnOk result (Adds (entries_of context.now.draft.now) (entry_of definition.now)
            self.old self.new) }
        ensures formulas { OnOk result (collected.new.formulas ≡ collected.old.formulas
            ++ map (resolved_formula (entries_of context.now.draft.now) (entry_of definition.now))
            (collected_in definition.now.body)) }
    {
        match &definition.body {
            DraftBody::Nothing => self.add_name(alloc, context, definition),
            DraftBody::Formula(formula) => self.add_gate(alloc, context, definition, formula),
            DraftBody::Value(value) => self.add_value(alloc, context, definition, value),
            DraftBody::State(state) => self.add_house_event(alloc, context, definition, *state),
            DraftBody::Group(group) => self.add_group(alloc, context, definition, group),
            DraftBody::Start(tree) => self.add_initiating_event(alloc, context, definition, tree),
            DraftBody::Steps(steps, link) => {
                self.add_steps(alloc, context, definition, steps, link, collected)
            }
            DraftBody::Walk(branch) => {
                self.add_walk(alloc, context, definition, branch, collected)
            }
        }
    }

    /// Adds the common cause group, and the basic events that it defines.
    fn add_group(
        &mut self,
        alloc: Global,
        context: &Context,
        definition: &DraftDefinition,
        group: &DraftGroup,
    ) -> Result<(), OutOfMemory>
        requires context { IsContext context.now }
        requires next { IsNext (entries_of context.now.draft.now) (entry_of definition.now) self.old }
        requires promised { IsPromised definition.now }
        requires body { definition.now.body ≡ body_of.Group group.now }
        ensures { OnOk result (Adds (entries_of context.now.draft.now) (entry_of definition.now)
            self.old self.new) }
    {
        let members = group.members.as_slice();
        let count = members.len();
        let senses = self.members.rest();
        push_events(
            alloc,
            &mut self.model.basics,
            members,
            senses,
            definition.place,
        )?;
        let members = resolve_members(alloc, context.numbers, &mut self.members, count)?;
        let references = &mut self.references;
        let made = make_group(alloc, context, references, definition, group, members)?;
        self.model.groups.push(made)
    }

    /// Adds the sequence or rule with these instructions.
    fn add_steps(
        &mut self,
        alloc: Global,
        context: &Context,
        definition: &DraftDefinition,
        steps: &Items<DraftInstruction>,
        link: &Option<DraftReference>,
        collected: &mut Collected,
    ) -> Result<(), OutOfMemory>
        requires context { IsContext context.now }
        requires next { IsNext (entries_of context.now.draft.now) (entry_of definition.now) self.old }
        requires body { definition.now.body ≡ body_of.Steps steps.now link.now }
        requires kind { has_body definition.now.kind definition.now.body ≡ true }
        requires number { collected.old.next
            ≡ collected_before (entries_of context.now.draft.now) (entry_of definition.now) }
        requires few { collected.old.next + length (collected_in definition.now.body) < 2 ^ 32 }
        ensures added { OnOk result (Adds (entries_of context.now.draft.now) (entry_of definition.now)
            self.old self.new) }
        ensures formulas { OnOk result (collected.new.formulas ≡ collected.old.formulas
            ++ map (resolved_formula (entries_of context.now.draft.now) (entry_of definition.now))
            (collected_in definition.now.body)) }
    {
        let references = &mut self.references;
        match definition.kind {
            DefinitionKind::Sequence => {
                let open = self.event_tree;
                let sequence = make_sequence(
                    alloc, context, references, collected, definition, steps, link, open,
                )?;
                self.model.sequences.push(sequence)
            }
            _ => {
                let rule = make_rule(alloc, context, references, collected, definition, steps)?;
                self.model.rules.push(rule)
            }
        }
    }

    /// Adds the event tree or named branch.
    fn add_walk(
        &mut self,
        alloc: Global,
        context: &Context,
        definition: &DraftDefinition,
        branch: &DraftBranch,
        collected: &mut Collected,
    ) -> Result<(), OutOfMemory>
        requires context { IsContext context.now }
        requires next { IsNext (entries_of context.now.draft.now) (entry_of definition.now) self.old }
        requires promised { IsPromised definition.now }
        requires body { definition.now.body ≡ body_of.Walk branch.now }
        requires number { collected.old.next
            ≡ collected_before (entries_of context.now.draft.now) (entry_of definition.now) }
        requires few { collected.old.next + length (collected_in definition.now.body) < 2 ^ 32 }
        ensures added { OnOk result (Adds (entries_of context.now.draft.now) (entry_of definition.now)
            self.old self.new) }
        ensures formulas { OnOk result (collected.new.formulas ≡ collected.old.formulas
            ++ map (resolved_formula (entries_of context.now.draft.now) (entry_of definition.now))
            (collected_in definition.now.body)) }
    {
        let references = &mut self.references;
        match definition.kind {
            DefinitionKind::EventTree => {
                let tree = make_event_tree(
                    alloc, context, references, collected, definition, branch,
                )?;
                self.event_tree = number_of(self.model.event_trees.len());
                self.model.event_trees.push(tree)
            }
            _ => {
                let open = self.event_tree;
                let named = make_named_branch(
                    alloc, context, references, collected, definition, branch, open,
                )?;
                self.model.branches.push(named)
            }
        }
    }
}
