//! Worked examples of shape and draft, each the contract of a function that does nothing.
ghost use Rattle.std.specs.Prelude.{◌≡◌, [], ◌∷◌, Some, None, codes};
ghost use Rattle.psa_model.specs.ExampleDrafts.{component_draft, condition_draft, group_draft, one_gate_draft};
ghost use Rattle.psa_model.specs.declared.fault.FaultKind.TheVariants.{UnknownElement, BadAttribute, BadName, BadShape};
ghost use Rattle.psa_elements.specs.DraftReading.{draft_of};
ghost use Rattle.psa_elements.specs.ExampleTrees.{stray_if, atleast_of, one_gate, group_tree, component_tree, condition_tree, private_event, repeated_name, dotted_name, unnamed_group, bad_child, refers_to, conditional_of, a_block};
ghost use Rattle.psa_elements.specs.ShapeFaults.{shape_fault};

/// An `if` stands in event trees and rules alone.
pub fn stray_if_is_unknown()
    ensures { shape_fault (stray_if ∷ [])
        ≡ Some (record { kind = UnknownElement; file = 0; line = 1; name = codes "if" }) }
{}

/// `min` is at most the number of arguments, and a child's fault comes before its parent's own
/// shape.
pub fn bounds_are_on_the_arguments()
    ensures two { shape_fault (atleast_of (codes "2") ∷ []) ≡ None }
    ensures three { shape_fault (atleast_of (codes "3") ∷ [])
        ≡ Some (record { kind = BadShape; file = 0; line = 1; name = codes "atleast" }) }
    ensures child { shape_fault (bad_child ∷ [])
        ≡ Some (record { kind = BadName; file = 0; line = 1; name = codes "basic-event" }) }
{}

/// What model data defines is public.
pub fn roles_are_by_place()
    ensures { shape_fault (private_event ∷ [])
        ≡ Some (record { kind = BadAttribute; file = 0; line = 3; name = codes "role" }) }
{}

/// A repeated attribute is a fault, and a missing one comes before a wrong value.
pub fn attribute_faults_come_in_order()
    ensures repeated { shape_fault (repeated_name ∷ [])
        ≡ Some (record { kind = BadAttribute; file = 0; line = 3; name = codes "name" }) }
    ensures missing { shape_fault (unnamed_group ∷ [])
        ≡ Some (record { kind = BadAttribute; file = 0; line = 2; name = codes "name" }) }
{}

/// A definition's name has no dot; a reference may be a path, whose names stand between single
/// dots.
pub fn names_have_no_dot()
    ensures definition { shape_fault (dotted_name ∷ [])
        ≡ Some (record { kind = BadName; file = 0; line = 3; name = codes "define-basic-event" }) }
    ensures path { shape_fault (refers_to (codes "F.P.g") ∷ []) ≡ None }
    ensures two_dots { shape_fault (refers_to (codes "F..g") ∷ [])
        ≡ Some (record { kind = BadName; file = 0; line = 1; name = codes "event" }) }
{}

/// An `if` has a test and one or two instructions.
pub fn conditionals_have_one_or_two_instructions()
    ensures two { shape_fault (conditional_of (a_block ∷ a_block ∷ []) ∷ []) ≡ None }
    ensures three { shape_fault (conditional_of (a_block ∷ a_block ∷ a_block ∷ []) ∷ [])
        ≡ Some (record { kind = BadShape; file = 0; line = 3; name = codes "if" }) }
{}

/// A fault tree with one gate and one basic event.
pub fn one_gate_has_three_definitions()
    ensures shape { shape_fault (one_gate ∷ []) ≡ None }
    ensures draft { draft_of (one_gate ∷ []) ≡ one_gate_draft }
{}

/// A group with its members, its distribution and its factors.
pub fn a_group_has_members_and_factors()
    ensures shape { shape_fault (group_tree ∷ []) ≡ None }
    ensures draft { draft_of (group_tree ∷ []) ≡ group_draft }
{}

/// What stands in a private component is private, and its container has the names around it.
pub fn components_have_containers()
    ensures shape { shape_fault (component_tree (codes "F.P.g") (codes "x") ∷ []) ≡ None }
    ensures draft { draft_of (component_tree (codes "F.P.g") (codes "x") ∷ [])
        ≡ component_draft (codes "F.P.g") (codes "x") }
{}

/// Event trees, forks, rules and conditions.
pub fn event_trees_hold_forks()
    ensures shape { shape_fault (condition_tree (codes "FA") ∷ []) ≡ None }
    ensures draft { draft_of (condition_tree (codes "FA") ∷ []) ≡ condition_draft (codes "FA") }
{}
