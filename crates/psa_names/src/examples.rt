//! Worked examples of names and models, each the contract of a function that does nothing.
ghost use Rattle.std.specs.Prelude.{◌≡◌, [], ◌∷◌, Some, None, codes, map};
ghost use Rattle.psa_model.specs.ConditionExample.{condition_model};
ghost use Rattle.psa_model.specs.ExampleDrafts.{component_draft, condition_draft, gate_draft, group_draft, house_draft, nested_draft, one_gate_draft, repeated_draft, short_group_draft};
ghost use Rattle.psa_model.specs.declared.fault.FaultKind.TheVariants.{BadGroup, Cycle, Duplicate, Undefined, WrongKind};
ghost use Rattle.psa_names.specs.ExampleModels.{gate_and_group_model};
ghost use Rattle.psa_names.specs.Meanings.{definition_named};
ghost use Rattle.psa_names.specs.ModelOfDraft.{model_of};
ghost use Rattle.psa_names.specs.NameFaults.{name_fault};
ghost use Rattle.psa_names.specs.NameSpaces.{events};
ghost use Rattle.psa_names.specs.Outlines.{entries_of};

/// A gate that no definition names, alone and over two files; a name that two files define; a house
/// event that a gate asks for.
pub fn a_gate_is_defined_elsewhere()
    ensures alone { name_fault one_gate_draft
        ≡ Some (record { kind = Undefined; file = 0; line = 3; name = codes "G2" }) }
    ensures second { name_fault (gate_draft (codes "G9"))
        ≡ Some (record { kind = Undefined; file = 1; line = 3; name = codes "G9" }) }
    ensures repeated { name_fault repeated_draft
        ≡ Some (record { kind = Duplicate; file = 1; line = 3; name = codes "a" }) }
    ensures house { name_fault house_draft
        ≡ Some (record { kind = WrongKind; file = 0; line = 3; name = codes "G2" }) }
{}

/// Two gates of two files refer to each other: the first of them reaches itself.
pub fn a_cycle_leads_over_two_files()
    ensures { name_fault (gate_draft (codes "G1"))
        ≡ Some (record { kind = Cycle; file = 0; line = 3; name = codes "G1" }) }
{}

/// A group by multiple Greek letters has a factor for each level from 2 on. A gate may refer to a
/// basic event that only a group defines.
pub fn a_group_defines_its_members()
    ensures short { name_fault short_group_draft
        ≡ Some (record { kind = BadGroup; file = 0; line = 2; name = codes "G" }) }
    ensures whole { name_fault group_draft ≡ None }
    ensures model { model_of group_draft ≡ gate_and_group_model }
{}

/// What is private in a component is found from inside it, and from elsewhere by its path, which is
/// its name in the model.
pub fn components_are_private()
    ensures paths { name_fault (component_draft (codes "F.P.g") (codes "x")) ≡ None }
    ensures without_tree { name_fault (component_draft (codes "P.g") (codes "x"))
        ≡ Some (record { kind = Undefined; file = 0; line = 3; name = codes "P.g" }) }
    ensures other_component { name_fault (component_draft (codes "F.P.g") (codes "s"))
        ≡ Some (record { kind = Undefined; file = 0; line = 9; name = codes "x" }) }
    ensures gates { map (λ one. one.name)
        (model_of (component_draft (codes "F.P.g") (codes "x"))).gates
        ≡ codes "top" ∷ codes "F.P.g" ∷ codes "F.Q.g" ∷ [] }
    ensures basics { map (λ one. one.name)
        (model_of (component_draft (codes "F.P.g") (codes "x"))).basics
        ≡ codes "F.P.x" ∷ codes "F.Q.x" ∷ codes "s" ∷ [] }
{}

/// A name is searched in the innermost container, then in those around it, then among the public
/// definitions; a path directly in the container that it names. The answer is a place in the draft.
pub fn the_innermost_container_is_searched_first()
    ensures innermost { definition_named (entries_of nested_draft) events
        (codes "F" ∷ codes "P" ∷ []) (codes "x")
        ≡ Some 2 }
    ensures around { definition_named (entries_of nested_draft) events
        (codes "F" ∷ codes "P" ∷ []) (codes "y")
        ≡ Some 4 }
    ensures outer { definition_named (entries_of nested_draft) events (codes "F" ∷ []) (codes "x")
        ≡ Some 3 }
    ensures public { definition_named (entries_of nested_draft) events [] (codes "x") ≡ Some 5 }
    ensures private { definition_named (entries_of nested_draft) events [] (codes "y") ≡ None }
    ensures path { definition_named (entries_of nested_draft) events [] (codes "F.P.x") ≡ Some 2 }
{}

/// A test names a functional event of some event tree.
pub fn a_condition_names_a_functional_event()
    ensures found { name_fault (condition_draft (codes "FA")) ≡ None }
    ensures unknown { name_fault (condition_draft (codes "FX"))
        ≡ Some (record { kind = Undefined; file = 0; line = 9; name = codes "FX" }) }
{}

/// Each name of a model with event trees and a condition is the place of what it stands for.
pub fn the_model_of_a_condition()
    ensures { model_of (condition_draft (codes "FA")) ≡ condition_model }
{}
