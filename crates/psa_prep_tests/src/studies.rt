ghost use Rattle.std.specs.Prelude.{◌≡◌, true, IfOk, IfSome};
ghost use Rattle.std.specs.List.{list_all};
ghost use Rattle.psa_model.specs.Drafts.{IsDraft};
ghost use Rattle.psa_model.specs.Models.{IsModel, IsOfSize};
ghost use Rattle.psa_model.specs.Standing.{target_stands};
ghost use Rattle.psa_prep_tests.specs.Studies.{IsSmall, IsStudy};

use psa_ccf::expand;
use psa_checks::resolve;
use psa_model::{Draft, Expanded, Model, Targets};
use psa_reader::read_model;
use psa_text::{Document, Items, Scanner, TextError};
use psa_walk::targets;
use std::alloc::Global;
use std::mem::forget;

/// A model with its events and targets.
#[derive(Drop)]
pub struct Study {
    pub expanded: Expanded,
    pub targets: Targets,
}

/// More events than any test has.
const MANY_EVENTS: usize = 1_000_000;

/// The tree of a text.
fn document(alloc: Global, text: &str) -> Result<Document, TextError>
    ensures { IfOk result IsSmall }
{
    let mut scanner = Scanner::new(alloc);
    match scanner.feed(text.as_bytes()) {
        Ok(()) => scanner.finish(),
        Err(error) => Err(error),
    }
}

/// The draft of a text; None where it has a fault of markup or of shape.
fn draft_of(alloc: Global, text: &str) -> Option<Draft>
    ensures { IfSome result IsDraft }
{
    let mut documents = Items::new(alloc);
    match document(alloc, text) {
        Ok(document) => documents.push(document).ok()?,
        Err(_) => return None,
    }
    match read_model(alloc, &documents) {
        Ok(draft) => Some(draft),
        Err(_) => None,
    }
}

/// The model of a text; None where it has a fault.
fn model_of(alloc: Global, text: &str) -> Option<Model>
    ensures promised { IfSome result IsModel }
    ensures few { IfSome result IsOfSize }
{
    let draft = draft_of(alloc, text)?;
    match resolve(alloc, &draft) {
        Ok(model) => Some(model),
        Err(_) => None,
    }
}

/// A model with its events, common cause groups expanded or not, and its targets.
fn study_with(alloc: Global, model: Model, expanded: bool, targets: Targets) -> Option<Study>
    requires promised { IsModel model }
    requires few { IsOfSize model }
    requires stand { list_all (target_stands model) targets ≡ true }
    ensures { IfSome result (λ study. IsStudy study.expanded study.targets) }
{
    match expand(alloc, model, expanded) {
        Ok(expanded) => {
            if expanded.events.len() < MANY_EVENTS {
                return Some(Study { expanded, targets });
            }
            forget(expanded);
        }
        Err(_) => {}
    }
    forget(targets);
    None
}

/// The targets of a model, and its events, common cause groups expanded or not.
fn study_of(alloc: Global, model: Model, expanded: bool) -> Option<Study>
    requires promised { IsModel model }
    requires few { IsOfSize model }
    ensures { IfSome result (λ study. IsStudy study.expanded study.targets) }
{
    match targets(alloc, &model) {
        Ok(targets) => study_with(alloc, model, expanded, targets),
        Err(_) => {
            forget(model);
            None
        }
    }
}

/// What a text says; None where it has a fault.
pub fn read_study(alloc: Global, text: &str, expanded: bool) -> Option<Study>
    ensures { IfSome result (λ study. IsStudy study.expanded study.targets) }
{
    match model_of(alloc, text) {
        Some(model) => study_of(alloc, model, expanded),
        None => None,
    }
}
