//! What the definitions of modules say of small models. The functions do nothing: their contracts are
//! the examples.
ghost use Rattle.std.specs.Prelude.{◌≡◌, ℕ, [], ◌∷◌, codes, drop, false, map, true};
ghost use Rattle.psa_model.specs.declared.formula.Connective.TheVariants.{And, Or, Not, Xor};
ghost use Rattle.psa_model.specs.Names.{event_text};
ghost use Rattle.psa_modules.specs.ModuleExamples.{trains, over_four, over_group, basic_at, connect, gate_at, g_and, two_of};
ghost use Rattle.psa_modules.specs.OuterModules.{is_module, outer_modules};
ghost use Rattle.psa_modules.specs.Quotients.{quotient_of};

/// Two redundant trains, each of a pump and a valve: each train is a module, and the quotient has an
/// event for each, behind the pumps and valves.
pub fn trains_are_modules()
    ensures modules { outer_modules trains 0 ≡ 1 ∷ 2 ∷ [] }
    ensures events { map (event_text (quotient_of trains 0).model) (drop 4 (quotient_of trains 0).events)
        ≡ codes "<TrainOne>" ∷ codes "<TrainTwo>" ∷ [] }
{}

/// Under `and` a gate over two events of its own is a module; under `xor` it is none.
pub fn under_exclusive_or_is_no_module()
    ensures and { outer_modules (over_four (g_and And (basic_at 2)) (two_of Or 0 1) (basic_at 3)) 0
        ≡ 1 ∷ [] }
    ensures xor { outer_modules (over_four (g_and Xor (basic_at 2)) (two_of Or 0 1) (basic_at 3)) 0
        ≡ [] }
{}

/// A gate that shares an event with another is no module, nor is the other.
pub fn sharing_is_no_module()
    ensures { outer_modules (over_four (g_and Or (gate_at 2)) (two_of And 0 1) (two_of And 0 2)) 0 ≡ [] }
{}

/// A gate that is true where no event occurs is no module.
pub fn true_at_none_is_no_module()
    ensures { outer_modules (over_four (g_and And (basic_at 2))
        (connect Or (connect Not (basic_at 0 ∷ []) ∷ basic_at 1 ∷ [])) (basic_at 3)) 0 ≡ [] }
{}

/// A gate in which one event alone occurs is no module, however often it occurs.
pub fn one_event_is_no_module()
    ensures { outer_modules (over_four (g_and Or (basic_at 2)) (two_of Or 0 0) (basic_at 3)) 0 ≡ [] }
{}

/// Of two modules in one another the outer one is taken alone.
pub fn nested_modules()
    ensures inner { is_module (over_four (g_and Or (basic_at 2))
        (connect And (gate_at 2 ∷ basic_at 3 ∷ [])) (two_of Or 0 1)) 0 2 ≡ true }
    ensures outer { outer_modules (over_four (g_and Or (basic_at 2))
        (connect And (gate_at 2 ∷ basic_at 3 ∷ [])) (two_of Or 0 1)) 0 ≡ 1 ∷ [] }
{}

/// A gate over two members of a group is a module where each member is an event of its own, and none
/// where the group is expanded: then it shares events with the third member.
pub fn members_share_their_subsets()
    ensures apart { outer_modules (over_group false) 0 ≡ 1 ∷ [] }
    ensures expanded { outer_modules (over_group true) 0 ≡ [] }
{}
