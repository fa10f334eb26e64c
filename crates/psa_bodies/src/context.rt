ghost use Rattle.std.specs.Prelude.{◌≡◌, None};
ghost use Rattle.psa_model.specs.declared.draft.DefinitionKind.TheVariants as kind_of;
ghost use Rattle.psa_model.specs.Drafts.{IsDraft};
ghost use Rattle.psa_names.specs.Outlines.{entries_of};
ghost use Rattle.psa_names.specs.NameFaults.{name_fault};
ghost use Rattle.psa_bodies.specs.Made.{IsContext};
ghost use Rattle.psa_bodies.specs.Numbering.{AreNumbers};
ghost use Rattle.psa_bodies.specs.Trees.{places_of};

use crate::numbers::Numbers;
use psa_model::Draft;

/// What the names of a draft are replaced by.
#[derive(Clone, Copy)]
pub struct Context<'a> {
    pub draft: &'a Draft,
    pub numbers: &'a Numbers,
    /// The places in the draft of its fault trees.
    pub fault_trees: &'a [u32],
    /// The places in the draft of its event trees.
    pub event_trees: &'a [u32],
}

/// The context of a draft without a fault of names: the names of its trees are distinct.
pub fn context_of<'a>(
    draft: &'a Draft,
    numbers: &'a Numbers,
    fault_trees: &'a [u32],
    event_trees: &'a [u32],
) -> Context<'a>
    requires draft { IsDraft draft.now }
    requires faultless { name_fault draft.now ≡ None }
    requires numbers { AreNumbers (entries_of draft.now) numbers.now }
    requires fault_trees { fault_trees.now ≡ places_of kind_of.FaultTree (entries_of draft.now) }
    requires event_trees { event_trees.now ≡ places_of kind_of.EventTree (entries_of draft.now) }
    ensures context { IsContext result }
    ensures draft { result.draft.now ≡ draft.now }
    ensures numbers { result.numbers.now ≡ numbers.now }
{
    Context {
        draft,
        numbers,
        fault_trees,
        event_trees,
    }
}
