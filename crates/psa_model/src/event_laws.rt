//! What can be said of expanded events in general. The function does nothing: its contract is the law.
ghost use Rattle.std.specs.Prelude.{◌≡◌, Bool, List, map};
ghost use Rattle.psa_model.specs.declared.expanded.ExpandedEvent.TheVariants as expanded;
ghost use Rattle.psa_model.specs.declared.ids.EventId.{EventId};
ghost use Rattle.psa_model.specs.declared.model.Model.{Model};
ghost use Rattle.psa_model.specs.declared.model.Valued.TheVariants as valued;
ghost use Rattle.psa_model.specs.Expansion.{expanded_of};

/// Where the order of a model has basic events alone, its expanded events are these, expanded or not.
pub fn basic_events_stand_for_themselves()
    ensures { (on : Bool) (model : Model) (ids : List EventId)
        → model.order ≡ map (λ id. valued.Basic id) ids
        → (expanded_of on model).events ≡ map (λ id. expanded.Basic id) ids }
{}
